// The layouts of document 01's request and response blocks, with 02's R-2, and both sides of each of their limits: a line for each case.
#![tactic(auto)]

use blocks::Header;
use blocks::reader::{Address, Reader};
use blocks::writer::{block_size, put_block, put_empty, put_error, put_header};
use std::io;

// More bytes than a block has.
const ROOM: usize = 244;

fn yes_or_no(yes: bool) -> &'static str {
    if yes { "yes" } else { "no" }
}

fn print_header(rt: &impl Print, h: Header) -> io::Result<()> {
    print!(rt;
        "reference {}, identifier {:02x}, axis {}, N {}",
        h.reference, h.identifier, h.axis, h.count
    )
}

fn header(reference: u8, identifier: u8, axis: u8, count: u8) -> Header {
    Header {
        reference,
        identifier,
        axis,
        count,
    }
}

// A header, and zeros after it.
fn headed(h: Header) -> [u8; ROOM] {
    let mut block = [0; ROOM];
    put_header(&mut block, h);
    block
}

// The first `len` bytes, or all where there are no more. `requests` has the same line: a crate for it would be no plainer.
fn first(block: &[u8], len: usize) -> &[u8] {
    block.get(..len).unwrap_or(block)
}

fn asks(rt: &impl Print, label: &str, block: &[u8]) -> io::Result<()> {
    let verdict = yes_or_no(blocks::request_readable(block));
    println!(rt; "request, {label}: {verdict}")
}

fn answers(rt: &impl Print, label: &str, block: &[u8]) -> io::Result<()> {
    let verdict = yes_or_no(blocks::response_readable(block));
    println!(rt; "response, {label}: {verdict}")
}

// A request of a header and zeros.
fn request(rt: &impl Print, h: Header, len: usize) -> io::Result<()> {
    let verdict = yes_or_no(blocks::request_readable(first(&headed(h), len)));
    rt.print("request of ")?;
    print_header(rt, h)?;
    println!(rt; ", bytes {len}: {verdict}")
}

// A response of a header alone.
fn response(rt: &impl Print, h: Header) -> io::Result<()> {
    let verdict = yes_or_no(blocks::response_readable(first(&headed(h), 4)));
    rt.print("response of ")?;
    print_header(rt, h)?;
    println!(rt; ": {verdict}")
}

// A change of one parameter: n values of the format f, zeros, in so many bytes.
fn change(rt: &impl Print, f: u8, n: u8, bytes: u8) -> io::Result<()> {
    let mut block = headed(header(7, 2, 1, 1));
    block[10] = f;
    block[11] = n;
    let verdict = yes_or_no(blocks::request_readable(first(&block, 12 + usize::from(bytes))));
    println!(rt; "change, block {f:02x} {n:02x} and bytes {bytes}: {verdict}")
}

// The answer for one parameter: n values of the format f, zeros, in so many bytes.
fn answer(rt: &impl Print, id: u8, f: u8, n: u8, bytes: u8) -> io::Result<()> {
    let mut block = headed(header(7, id, 1, 1));
    block[4] = f;
    block[5] = n;
    let verdict = yes_or_no(blocks::response_readable(first(&block, 6 + usize::from(bytes))));
    println!(rt; "response {id:02x}, block {f:02x} {n:02x} and bytes {bytes}: {verdict}")
}

fn marks(rt: &impl Print) -> io::Result<()> {
    let block = b"\x07\x02\x01\x01\x10\x02\x75\x31\x00\x00\x42\x02\x03\xE8\x0B\xB9\x00";
    asks(rt, "marks 1000 and 3001", first(block, 16))?;
    asks(rt, "marks, a byte short", first(block, 15))?;
    asks(rt, "marks, a byte over", block)
}

fn request_headers(rt: &impl Print) -> io::Result<()> {
    for (h, len) in [
        (header(7, 1, 1, 1), 10),
        (header(0, 1, 1, 1), 10),
        (header(1, 1, 1, 1), 10),
        (header(255, 1, 1, 1), 10),
        (header(7, 0, 1, 1), 10),
        (header(7, 2, 1, 1), 10),
        (header(7, 3, 1, 1), 10),
        (header(7, 1, 0, 1), 10),
        (header(7, 1, 255, 1), 10),
        (header(7, 1, 1, 0), 4),
        (header(7, 1, 1, 2), 10),
    ] {
        request(rt, h, len)?;
    }
    Ok(())
}

fn request_sizes(rt: &impl Print) -> io::Result<()> {
    for (h, len) in [
        (header(7, 1, 1, 1), 0),
        (header(7, 1, 1, 1), 1),
        (header(7, 1, 1, 1), 2),
        (header(7, 1, 1, 1), 3),
        (header(7, 1, 1, 1), 4),
        (header(7, 1, 1, 1), 9),
        (header(7, 1, 1, 1), 11),
        (header(7, 1, 1, 39), 237),
        (header(7, 1, 1, 39), 238),
        (header(7, 1, 1, 39), 239),
        (header(7, 1, 1, 40), 240),
        (header(7, 1, 1, 40), 244),
    ] {
        request(rt, h, len)?;
    }
    Ok(())
}

// Every format with its size.
fn formats(rt: &impl Print) -> io::Result<()> {
    for (f, n, bytes) in [
        (0x41, 2, 2),
        (2, 2, 2),
        (5, 2, 2),
        (0x42, 2, 4),
        (3, 2, 4),
        (6, 2, 4),
        (0x43, 2, 8),
        (4, 2, 8),
        (7, 2, 8),
    ] {
        change(rt, f, n, bytes)?;
    }
    Ok(())
}

// Formats of no request, and sizes that are not the format's.
fn wrong_formats(rt: &impl Print) -> io::Result<()> {
    for (f, n, bytes) in [
        (8, 1, 4),
        (0x44, 1, 2),
        (0x40, 0, 0),
        (0, 0, 0),
        (5, 2, 4),
        (6, 2, 3),
        (6, 2, 5),
        (7, 2, 4),
        (4, 2, 7),
        (4, 2, 6),
    ] {
        change(rt, f, n, bytes)?;
    }
    Ok(())
}

// Zero values, and the most bytes.
fn counts(rt: &impl Print) -> io::Result<()> {
    for (f, n, bytes) in [
        (0x41, 0, 0),
        (0x42, 0, 0),
        (0x43, 0, 0),
        (0x42, 0, 2),
        (0x41, 227, 227),
        (0x41, 227, 228),
        (0x41, 228, 228),
        (0x41, 229, 228),
        (0x41, 229, 230),
    ] {
        change(rt, f, n, bytes)?;
    }
    Ok(())
}

// An odd number of byte values without its fill, with it, and with a byte more; no other number has one.
fn fill_sizes(rt: &impl Print) -> io::Result<()> {
    for (f, n, bytes) in [
        (0x41, 1, 1),
        (0x41, 1, 2),
        (0x41, 1, 3),
        (0x41, 2, 3),
        (0x41, 0, 1),
        (2, 3, 3),
        (2, 3, 4),
        (5, 3, 4),
        (5, 3, 5),
        (6, 1, 3),
        (7, 1, 5),
    ] {
        change(rt, f, n, bytes)?;
    }
    Ok(())
}

// A change of two parameters, whose blocks of values are these.
fn filled(rt: &impl Print, label: &str, values: &[u8]) -> io::Result<()> {
    let mut block = headed(header(7, 2, 1, 2));
    if let Some(place) = block[16..].get_mut(..values.len()) {
        place.copy_from_slice(values);
        asks(rt, label, &block[..16 + values.len()])?;
    }
    Ok(())
}

// The fill is zero, and stands after each odd number of byte values.
fn fills(rt: &impl Print) -> io::Result<()> {
    let cases: [(&str, &[u8]); 6] = [
        (
            "a byte, filled, and a word",
            b"\x41\x01\x03\x00\x42\x01\x00\x05",
        ),
        (
            "a byte, filled with 01, and a word",
            b"\x41\x01\x03\x01\x42\x01\x00\x05",
        ),
        (
            "a byte, filled with FF, and a word",
            b"\x41\x01\x03\xFF\x42\x01\x00\x05",
        ),
        ("a byte and a word", b"\x41\x01\x03\x42\x01\x00\x05"),
        (
            "a byte, filled twice, and a word",
            b"\x41\x01\x03\x00\x00\x42\x01\x00\x05",
        ),
        (
            "a byte and a word, filled at the end",
            b"\x41\x01\x03\x42\x01\x00\x05\x00",
        ),
    ];
    for (label, values) in cases {
        filled(rt, label, values)?;
    }
    Ok(())
}

// In the last block too, and in each of two.
fn fills_of_each(rt: &impl Print) -> io::Result<()> {
    let cases: [(&str, &[u8]); 5] = [
        (
            "a word and a byte, filled",
            b"\x42\x01\x00\x05\x05\x01\x03\x00",
        ),
        (
            "a word and a byte, filled with 01",
            b"\x42\x01\x00\x05\x05\x01\x03\x01",
        ),
        (
            "two bytes, each filled",
            b"\x41\x01\x03\x00\x41\x01\x29\x00",
        ),
        (
            "two bytes, filled at the end",
            b"\x41\x01\x03\x41\x01\x29\x00\x00",
        ),
        (
            "two bytes in one block and a word",
            b"\x41\x02\x03\x00\x42\x01\x00\x05",
        ),
    ];
    for (label, values) in cases {
        filled(rt, label, values)?;
    }
    Ok(())
}

fn response_headers(rt: &impl Print) -> io::Result<()> {
    for h in [
        header(7, 2, 1, 1),
        header(0, 2, 1, 1),
        header(1, 2, 1, 1),
        header(255, 2, 1, 1),
        header(7, 0, 1, 1),
        header(7, 1, 1, 1),
        header(7, 3, 1, 1),
        header(7, 0x80, 1, 1),
        header(7, 0x81, 1, 1),
        header(7, 0x82, 1, 1),
        header(7, 0x83, 1, 1),
        header(7, 2, 0, 1),
        header(7, 2, 255, 1),
        header(7, 2, 1, 0),
        header(7, 2, 1, 39),
        header(7, 2, 1, 40),
    ] {
        response(rt, h)?;
    }
    answers(rt, "02 and a byte more", b"\x07\x02\x01\x01\x00")?;
    answers(rt, "three bytes", b"\x07\x02\x01")
}

fn read_answers(rt: &impl Print) -> io::Result<()> {
    for (id, f, n, bytes) in [
        (1, 0x41, 3, 3),
        (1, 0x41, 3, 4),
        (1, 0x41, 3, 5),
        (1, 0x41, 2, 2),
        (1, 0x41, 2, 3),
        (1, 0x42, 2, 4),
        (1, 0x42, 2, 3),
        (1, 0x43, 1, 4),
        (1, 0x42, 0, 0),
        (1, 5, 1, 2),
        (1, 6, 1, 2),
        (1, 0x40, 0, 0),
        (1, 0x44, 1, 2),
        (1, 0x41, 233, 234),
        (1, 0x41, 234, 234),
        (1, 0x41, 235, 236),
        (3, 0x42, 1, 2),
        (0x81, 0x42, 1, 2),
        (0x81, 0x44, 1, 2),
        (0x80, 0x44, 1, 2),
    ] {
        answer(rt, id, f, n, bytes)?;
    }
    Ok(())
}

fn change_answers(rt: &impl Print) -> io::Result<()> {
    for (id, f, n, bytes) in [
        (0x82, 0x40, 0, 0),
        (0x82, 0x42, 1, 2),
        (0x82, 0x44, 0, 0),
        (0x82, 0x44, 1, 1),
        (0x82, 0x44, 1, 2),
        (0x82, 0x44, 1, 3),
        (0x82, 0x44, 2, 4),
        (0x83, 0x44, 1, 2),
    ] {
        answer(rt, id, f, n, bytes)?;
    }
    answers(rt, "the worked answer", b"\x07\x82\x01\x01\x44\x01\x00\x02")?;
    answers(
        rt,
        "the same with a stray 01",
        b"\x07\x82\x01\x01\x01\x44\x01\x00\x02",
    )
}

// Answers for two parameters.
fn pairs(rt: &impl Print) -> io::Result<()> {
    let cases: [(&str, &[u8]); 6] = [
        (
            "81 with value and error",
            b"\x07\x81\x01\x02\x42\x01\x00\x05\x44\x01\x00\x02",
        ),
        (
            "81 with two values",
            b"\x07\x81\x01\x02\x42\x01\x00\x05\x41\x01\x03\x00",
        ),
        (
            "81 with a byte, filled, and error",
            b"\x07\x81\x01\x02\x41\x01\x03\x00\x44\x01\x00\x02",
        ),
        (
            "81 with a byte, filled with 01, and error",
            b"\x07\x81\x01\x02\x41\x01\x03\x01\x44\x01\x00\x02",
        ),
        (
            "81 with a byte and error",
            b"\x07\x81\x01\x02\x41\x01\x03\x44\x01\x00\x02",
        ),
        (
            "81 with 40 00 and error",
            b"\x07\x81\x01\x02\x40\x00\x44\x01\x00\x02",
        ),
    ];
    for (label, block) in cases {
        answers(rt, label, block)?;
    }
    Ok(())
}

fn change_pairs(rt: &impl Print) -> io::Result<()> {
    answers(
        rt,
        "82 with 40 00 and error",
        b"\x07\x82\x01\x02\x40\x00\x44\x01\x00\x02",
    )?;
    answers(
        rt,
        "82 with error and 40 00",
        b"\x07\x82\x01\x02\x44\x01\x00\x02\x40\x00",
    )
}

fn wrong_pairs(rt: &impl Print) -> io::Result<()> {
    let cases: [(&str, &[u8]); 5] = [
        ("82 with 40 00 twice", b"\x07\x82\x01\x02\x40\x00\x40\x00"),
        (
            "82 with 40 01 and error",
            b"\x07\x82\x01\x02\x40\x01\x44\x01\x00\x02",
        ),
        (
            "82 with value and error",
            b"\x07\x82\x01\x02\x42\x01\x00\x05\x44\x01\x00\x02",
        ),
        (
            "01 with value and error",
            b"\x07\x01\x01\x02\x42\x01\x00\x05\x44\x01\x00\x02",
        ),
        (
            "82 with one block for two parameters",
            b"\x07\x82\x01\x02\x44\x01\x00\x02",
        ),
    ];
    for (label, block) in cases {
        answers(rt, label, block)?;
    }
    Ok(())
}

fn print_address(rt: &impl Print, a: Address) -> io::Result<()> {
    print!(rt;
        "address: attribute {:02x}, elements {}, PNU {}, sub-index {}",
        a.attribute, a.elements, a.pnu, a.subindex
    )
}

// Answers where the addresses end.
fn print_addresses(rt: &impl Print, block: &[u8]) -> io::Result<usize> {
    let mut reader = Reader::new(block);
    for _ in block {
        let Some(a) = reader.next() else {
            break;
        };
        print_address(rt, a)?;
        println!(rt; ", next at {}", reader.at)?;
    }
    Ok(reader.at)
}

fn print_values(rt: &impl Print, block: &[u8], at: usize, n: u8) -> io::Result<()> {
    for j in 0..usize::from(n) {
        print!(rt; " {}", blocks::value_at(block, at, j))?;
    }
    Ok(())
}

fn print_blocks(rt: &impl Print, block: &[u8], from: usize, n: u8) -> io::Result<()> {
    let mut at = from;
    for _ in 0..n {
        let Some(h) = blocks::block_at(block, at) else {
            return rt.println("no block");
        };
        print!(rt; "block: format {:02x}, values {}:", h.format, h.count)?;
        print_values(rt, block, at, h.count)?;
        println!(rt; ", next at {}", h.next)?;
        at = h.next;
    }
    Ok(())
}

fn reads(rt: &impl Print, block: &[u8]) -> io::Result<()> {
    let h = blocks::header_of(block);
    rt.print("header: ")?;
    print_header(rt, h)?;
    rt.print("\n")?;
    let from = print_addresses(rt, block)?;
    print_blocks(rt, block, from, h.count)
}

fn readings(rt: &impl Print) -> io::Result<()> {
    reads(
        rt,
        b"\x07\x02\x01\x01\x10\x02\x75\x31\x00\x00\x42\x02\x03\xE8\x0B\xB9",
    )?;
    // PNU 965 sub-index 1, and both site offsets: three bytes and their fill, then -100000 and 100000
    let two =
        b"\xFF\x02\x10\x02\x10\x03\x03\xC5\x00\x01\x10\x02\x75\x34\x00\x00\x41\x03\x03\x29\xFF\x00\x43\x02\xFF\xFE\x79\x60\x00\x01\x86\xA0";
    asks(rt, "two parameters", two)?;
    asks(rt, "two parameters, one block", first(two, 22))?;
    reads(rt, two)
}

fn print_array(rt: &impl Print, label: &str, out: &[u8]) -> io::Result<()> {
    print!(rt; "{label}:")?;
    for byte in out {
        print!(rt; " {byte:02x}")?;
    }
    rt.print("\n")
}

fn written_values(rt: &impl Print) -> io::Result<()> {
    let mut out = [0xFFu8; 26];
    put_header(&mut out, header(7, 1, 1, 3));
    put_block(&mut out, 4, 0x42, &[1000, 3000]);
    put_block(&mut out, 10, 0x41, &[3]);
    put_block(&mut out, 14, 0x43, &[4294867296, 100000]);
    print_array(rt, "01 with two words, a byte and two double words", &out)?;
    answers(rt, "its first 24 bytes", first(&out, 24))
}

fn written_errors(rt: &impl Print) -> io::Result<()> {
    let mut out = [0xFFu8; 12];
    put_header(&mut out, header(7, 0x82, 1, 2));
    put_empty(&mut out, 4);
    put_error(&mut out, 6, 2);
    print_array(rt, "82 with 40 00 and error 2", &out)?;
    answers(rt, "its first 10 bytes", first(&out, 10))
}

// Parts that do not fit, and then one that just fits.
fn fitting(rt: &impl Print) -> io::Result<()> {
    let mut out = [0xFFu8; 10];
    println!(rt;
        "bytes of two words: {}, of a byte: {}, of two: {}",
        block_size(0x42, 2),
        block_size(0x41, 1),
        block_size(0x41, 2)
    )?;
    put_block(&mut out, 5, 0x42, &[1000, 3000]);
    print_array(rt, "two words at 5 of 10", &out)?;
    put_error(&mut out, 7, 2);
    print_array(rt, "error at 7 of 10", &out)?;
    put_block(&mut out, 7, 0x41, &[3]);
    print_array(rt, "a byte at 7 of 10", &out)?;
    put_empty(&mut out, 9);
    print_array(rt, "40 00 at 9 of 10", &out)?;
    put_block(&mut out, 4, 0x42, &[1000, 3000]);
    print_array(rt, "two words at 4 of 10", &out)?;
    put_block(&mut out, 6, 0x41, &[3]);
    print_array(rt, "a byte at 6 of 10", &out)?;
    let mut short = [0xFFu8; 3];
    put_header(&mut short, header(7, 1, 1, 1));
    print_array(rt, "header in 3", &short)
}

fn main(rt: HostRuntime) -> io::Result<()> {
    marks(&rt)?;
    request_headers(&rt)?;
    request_sizes(&rt)?;
    formats(&rt)?;
    wrong_formats(&rt)?;
    counts(&rt)?;
    fill_sizes(&rt)?;
    fills(&rt)?;
    fills_of_each(&rt)?;
    response_headers(&rt)?;
    read_answers(&rt)?;
    change_answers(&rt)?;
    pairs(&rt)?;
    change_pairs(&rt)?;
    wrong_pairs(&rt)?;
    readings(&rt)?;
    written_values(&rt)?;
    written_errors(&rt)?;
    fitting(&rt)
}
