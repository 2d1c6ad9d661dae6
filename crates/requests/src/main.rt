// Requests worked on one axis's part: the worked examples of document 01, both sides of its limits, what 02's R-2 and R-6 ask, and each
// error in front of the next.
#![tactic(auto)]

ghost use Rattle.std.specs.Prelude.{◌≤◌};

use blocks::Header;
use blocks::reader::{Address, FIRST};
use std::io;

const AXIS: u8 = 1;

// Bytes of an address.
const ADDRESS: usize = 6;

type Part = [u8; part::SIZE];

type Block = [u8; blocks::BLOCK_LIMIT];

// The first `len` bytes, or all where there are no more. `layouts` has the same line: a crate for it would be no plainer.
fn first(s: &[u8], len: usize) -> &[u8] {
    s.get(..len).unwrap_or(s)
}

// The response that waits.
fn waiting(part: &Part) -> &[u8] {
    first(
        &part[part::RESPONSE..],
        usize::from(part::waiting_length(part)),
    )
}

// Works a block, prints what it comes to, and fetches the response. Label, part and address stand one by one, each said once at the call.
fn work(rt: &impl Print, label: &str, part: &mut Part, block: &[u8]) -> io::Result<()> {
    let (number, stored) = match access::work(part, AXIS, block) {
        Ok(stored) => (0, stored),
        Err(refused) => (u8::from(refused), 0),
    };
    let (bytes, n) = (block.len(), part::waiting_length(part));
    print!(rt; "{label} ({bytes} bytes): number {number}, stored {stored}, waiting {n}:")?;
    for byte in waiting(part) {
        print!(rt; " {byte:02x}")?;
    }
    rt.print("\n")?;
    part::clear_response(part);
    Ok(())
}

fn fresh() -> Part {
    let mut part = [0; part::SIZE];
    part::fresh(&mut part);
    part
}

fn address(attribute: u8, elements: u8, pnu: u16, subindex: u16) -> Address {
    Address {
        attribute,
        elements,
        pnu,
        subindex,
    }
}

// An address of values.
fn value(elements: u8, pnu: u16, subindex: u16) -> Address {
    address(0x10, elements, pnu, subindex)
}

// A header, and zeros after it.
fn headed(identifier: u8, count: u8) -> Block {
    let mut block = [0; blocks::BLOCK_LIMIT];
    let h = Header {
        reference: 7,
        identifier,
        axis: AXIS,
        count,
    };
    blocks::writer::put_header(&mut block, h);
    block
}

// The bytes of an address.
fn bytes_of(a: Address) -> [u8; ADDRESS] {
    let [p, q] = a.pnu.to_be_bytes();
    let [i, j] = a.subindex.to_be_bytes();
    [a.attribute, a.elements, p, q, i, j]
}

// The same address n times, from `at` on; what the block has no room for is cut.
fn put_addresses(block: &mut Block, at: usize, n: u8, a: Address)
    requires { at ≤ 240 }
{
    for place in block[at..].chunks_mut(ADDRESS).take(usize::from(n)) {
        let room = place.len().min(ADDRESS);
        place[..room].copy_from_slice(&bytes_of(a)[..room]);
    }
}

// A request of n equal addresses.
fn reads(rt: &impl Print, label: &str, part: &mut Part, n: u8, a: Address) -> io::Result<()> {
    let mut block = headed(1, n);
    put_addresses(&mut block, FIRST, n, a);
    work(
        rt,
        label,
        part,
        first(&block, FIRST + usize::from(n) * ADDRESS),
    )
}

fn read(rt: &impl Print, label: &str, part: &mut Part, a: Address) -> io::Result<()> {
    reads(rt, label, part, 1, a)
}

// A change of one address, with a block of values.
fn change(
    rt: &impl Print,
    label: &str,
    part: &mut Part,
    a: Address,
    format: u8,
    values: &[u32],
) -> io::Result<()> {
    let mut block = headed(2, 1);
    put_addresses(&mut block, FIRST, 1, a);
    blocks::writer::put_block(&mut block, FIRST + ADDRESS, format, values);
    let Some(h) = blocks::block_at(&block, FIRST + ADDRESS) else {
        return Ok(());
    };
    work(rt, label, part, first(&block, h.next))
}

// Three reads of all 947, which leave 38 bytes of the response, and a fourth address.
fn fourth(rt: &impl Print, label: &str, part: &mut Part, a: Address) -> io::Result<()> {
    let mut block = headed(1, 4);
    put_addresses(&mut block, FIRST, 3, value(32, 947, 0));
    put_addresses(&mut block, FIRST + 3 * ADDRESS, 1, a);
    work(rt, label, part, first(&block, FIRST + 4 * ADDRESS))
}

// The worked change: mark 0 is not stored where mark 1 is outside its limits.
fn marks(rt: &impl Print) -> io::Result<()> {
    let mut part = fresh();
    work(
        rt,
        "marks 1000 and 3001",
        &mut part,
        b"\x07\x02\x01\x01\x10\x02\x75\x31\x00\x00\x42\x02\x03\xE8\x0B\xB9",
    )?;
    read(rt, "all marks", &mut part, value(4, 30001, 0))
}

// Of an address with a value outside its limits, wherever it stands, nothing is stored.
fn whole(rt: &impl Print) -> io::Result<()> {
    let all = value(4, 30001, 0);
    let mut part = fresh();
    for (label, marks) in [
        ("marks 10 to 40", [10, 20, 30, 40]),
        ("the first 3001", [3001, 2, 3, 4]),
        ("the third 3001", [1, 2, 3001, 4]),
        ("the last 3001", [1, 2, 3, 3001]),
    ] {
        change(rt, label, &mut part, all, 0x42, &marks)?;
    }
    read(rt, "all marks", &mut part, all)?;
    let offsets = value(2, 30004, 0);
    change(rt, "offsets 1 and 2", &mut part, offsets, 0x43, &[1, 2])?;
    change(
        rt,
        "offsets 3 and 100001",
        &mut part,
        offsets,
        0x43,
        &[3, 100001],
    )?;
    read(rt, "both offsets", &mut part, offsets)
}

fn limits(rt: &impl Print) -> io::Result<()> {
    let mark = value(1, 30001, 3);
    let scale = value(1, 10111, 0);
    let mut part = fresh();
    change(rt, "mark 3000", &mut part, mark, 0x42, &[3000])?;
    change(rt, "mark 3001", &mut part, mark, 0x42, &[3001])?;
    read(rt, "all marks", &mut part, value(4, 30001, 0))?;
    for (label, reference) in [
        ("10111 of 0", 0),
        ("10111 of 1", 1),
        ("10111 of 60000", 60000),
        ("10111 of 60001", 60001),
    ] {
        change(rt, label, &mut part, scale, 0x42, &[reference])?;
    }
    read(rt, "10111", &mut part, scale)
}

// Site offsets, by size code and by type code.
fn offsets(rt: &impl Print) -> io::Result<()> {
    let low = (-100000i32).cast_unsigned();
    let under = (-100001i32).cast_unsigned();
    let a = value(1, 30004, 0);
    let b = value(1, 30004, 1);
    let mut part = fresh();
    for (label, address, offset) in [
        ("offset -100000", a, low),
        ("offset -100001", a, under),
        ("offset 100000", b, 100000),
        ("offset 100001", b, 100001),
    ] {
        change(rt, label, &mut part, address, 0x43, &[offset])?;
    }
    read(rt, "both offsets", &mut part, value(2, 30004, 0))?;
    let mut part = fresh();
    change(rt, "offset -100000 by 4", &mut part, a, 4, &[low])?;
    change(rt, "offset -100001 by 4", &mut part, a, 4, &[under])?;
    read(rt, "both offsets", &mut part, value(2, 30004, 0))
}

// n single elements of 965, which take 4 bytes each with their fill, and three reads of all 947.
fn filled(rt: &impl Print, label: &str, part: &mut Part, n: u8) -> io::Result<()>
    requires { n ≤ 36 }
{
    let at = FIRST + usize::from(n) * ADDRESS;
    let mut block = headed(1, n + 3);
    put_addresses(&mut block, FIRST, n, value(1, 965, 0));
    put_addresses(&mut block, at, 3, value(32, 947, 0));
    work(rt, label, part, first(&block, at + 3 * ADDRESS))
}

fn fills(rt: &impl Print) -> io::Result<()> {
    let mut part = fresh();
    read(rt, "965, element 0", &mut part, value(1, 965, 0))?;
    read(rt, "965, element 1", &mut part, value(1, 965, 1))?;
    read(rt, "965, both", &mut part, value(2, 965, 0))?;
    filled(
        rt,
        "965 nine times and three reads of all 947",
        &mut part,
        9,
    )?;
    filled(
        rt,
        "965 ten times and three reads of all 947",
        &mut part,
        10,
    )
}

// The most addresses, and the most bytes of a response.
fn lengths(rt: &impl Print) -> io::Result<()> {
    let mut part = fresh();
    reads(rt, "39 reads of 930", &mut part, 39, value(1, 930, 0))?;
    reads(rt, "40 reads of 930, cut", &mut part, 40, value(1, 930, 0))?;
    for (label, address) in [
        ("four reads of all 947", value(32, 947, 0)),
        ("18 elements in the last 38 bytes", value(18, 947, 0)),
        ("19 elements in the last 38 bytes", value(19, 947, 0)),
        ("0x00 before 0x15", value(32, 931, 0)),
        ("0x03 before 0x15", value(32, 947, 1)),
    ] {
        fourth(rt, label, &mut part, address)?;
    }
    Ok(())
}

// Each error of an address in front of one that comes after it.
fn read_errors(rt: &impl Print) -> io::Result<()> {
    let mut part = fresh();
    for (label, a) in [
        ("0x00 before 0x09", address(0x20, 1, 931, 0)),
        ("0x09 before 0x04", address(0x20, 1, 930, 1)),
        ("0x0F before 0x04", address(0x30, 1, 930, 1)),
        ("0x16 (attribute) before 0x04", address(0, 1, 930, 1)),
        ("0x16 (0 elements) before 0x03", value(0, 947, 33)),
        ("0x03 of 65535 + 2", value(2, 947, 65535)),
        ("the last of 947", value(1, 947, 31)),
    ] {
        read(rt, label, &mut part, a)?;
    }
    Ok(())
}

fn change_errors(rt: &impl Print) -> io::Result<()> {
    let further = value(1, 930, 1);
    let several = value(2, 930, 0);
    let scale = value(1, 10111, 0);
    let cases: [(&str, Address, u8, &[u32]); 7] = [
        ("0x04 (sub-index) before 0x01", further, 0x42, &[1]),
        ("0x04 (elements) before 0x01", several, 0x42, &[1, 1]),
        ("0x03 before 0x01", value(1, 947, 32), 0x42, &[1]),
        ("0x01 before 0x05", value(1, 930, 0), 0x41, &[1]),
        ("0x05 before 0x18", scale, 0x41, &[0, 0]),
        ("0x18 before 0x02", scale, 0x42, &[0, 0]),
        ("0x02", scale, 0x42, &[0]),
    ];
    let mut part = fresh();
    for (label, a, format, values) in cases {
        change(rt, label, &mut part, a, format, values)?;
    }
    read(rt, "10111", &mut part, scale)
}

// 0 elements of a simple parameter count as 1.
fn counts(rt: &impl Print) -> io::Result<()> {
    let none = value(0, 9900, 0);
    let one = value(1, 9900, 0);
    let mark = value(1, 30001, 0);
    let scale = value(1, 10111, 0);
    let mut part = fresh();
    read(rt, "930, 0 elements", &mut part, value(0, 930, 0))?;
    let cases: [(&str, Address, &[u32]); 4] = [
        ("9900, 0 elements, 1 value", none, &[5]),
        ("9900, 0 elements, 0 values", none, &[]),
        ("9900, 1 element, 0 values", one, &[]),
        ("mark, 1 element, 0 values", mark, &[]),
    ];
    for (label, a, values) in cases {
        change(rt, label, &mut part, a, 0x42, values)?;
    }
    read(rt, "9900", &mut part, one)?;
    change(rt, "10111 as it is", &mut part, scale, 0x42, &[1500])
}

// A value's sign is that of the parameter's type.
fn formats(rt: &impl Print) -> io::Result<()> {
    let minus = (-1i32).cast_unsigned();
    let simple = value(1, 9900, 0);
    let offset = value(1, 30004, 0);
    let mut part = fresh();
    change(rt, "9900 of 65535", &mut part, simple, 0x42, &[65535])?;
    read(rt, "9900", &mut part, simple)?;
    change(rt, "9900 by 6", &mut part, simple, 6, &[1])?;
    change(rt, "9900 by 3", &mut part, simple, 3, &[2])?;
    read(rt, "9900", &mut part, simple)?;
    change(rt, "offset -1", &mut part, offset, 0x43, &[minus])?;
    change(rt, "offset by 7", &mut part, offset, 7, &[1])?;
    read(rt, "both offsets", &mut part, value(2, 30004, 0))
}

// Changes of two addresses.
fn pairs(rt: &impl Print) -> io::Result<()> {
    let mut part = fresh();
    work(
        rt,
        "marks 1, 3001 and 2, then 9900 of 5",
        &mut part,
        b"\x07\x02\x01\x02\x10\x03\x75\x31\x00\x00\x10\x01\x26\xAC\x00\x00\x42\x03\x00\x01\x0B\xB9\x00\x02\x42\x01\x00\x05",
    )?;
    read(rt, "all marks", &mut part, value(4, 30001, 0))?;
    read(rt, "9900", &mut part, value(1, 9900, 0))?;
    work(
        rt,
        "mark 0 of 7, then of 8",
        &mut part,
        b"\x07\x02\x01\x02\x10\x01\x75\x31\x00\x00\x10\x01\x75\x31\x00\x00\x42\x01\x00\x07\x42\x01\x00\x08",
    )?;
    read(rt, "all marks", &mut part, value(4, 30001, 0))
}

// What is refused leaves nothing stored and nothing waiting.
fn refusals(rt: &impl Print) -> io::Result<()> {
    let two = b"\x07\x02\x02\x01\x10\x01\x75\x31\x00\x00\x42\x01\x03\xE8";
    let cases: [(&str, &[u8]); 4] = [
        ("mark 1000 of axis 2", two),
        ("the same, a byte short", first(two, 13)),
        ("930 of axis 2", b"\x07\x01\x02\x01\x10\x01\x03\xA2\x00\x00"),
        (
            "930 with reference 0",
            b"\x00\x01\x01\x01\x10\x01\x03\xA2\x00\x00",
        ),
    ];
    let mut part = fresh();
    for (label, block) in cases {
        work(rt, label, &mut part, block)?;
    }
    read(rt, "all marks", &mut part, value(4, 30001, 0))
}

fn main(rt: HostRuntime) -> io::Result<()> {
    marks(&rt)?;
    whole(&rt)?;
    limits(&rt)?;
    offsets(&rt)?;
    lengths(&rt)?;
    fills(&rt)?;
    read_errors(&rt)?;
    change_errors(&rt)?;
    counts(&rt)?;
    formats(&rt)?;
    pairs(&rt)?;
    refusals(&rt)
}
