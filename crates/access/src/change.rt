// A change (02): addresses stored whole or not at all, and the blocks that answer them. Row and first element stand one by one, as the
// catalogue takes them; widening is written `as`, which a proof reads on through (decision 126).
ghost use Rattle.std.specs.Prelude.{◌≡◌, true, ◌||◌, ◌+◌, ◌*◌, ◌≤◌, eqb, length, Some};
ghost use Rattle.codes.specs.Code.{readable};
ghost use Rattle.codes.specs.Number.{number_at, numbers_at};
ghost use Rattle.drive.specs.Faults.{buffer_codes};
ghost use Rattle.blocks.specs.Block.{block_limit};
ghost use Rattle.blocks.specs.Request.{request};
ghost use Rattle.blocks.specs.Place.{header_of, block_at, walk};
ghost use Rattle.blocks.specs.declared.Head.{Head};
ghost use Rattle.catalogue.specs.Table.{element_size};
ghost use Rattle.catalogue.specs.Element.{size_code, type_code, value_of};
ghost use Rattle.access.specs.Change.{all_inside, store_from, store_whole, of_elements, change_one, change_all};
ghost use Rattle.access.specs.Walk.{block_in, blocks_in, answer_in, Did, DidAll, with_block, request_in, change_outcome, Reported};

use super::reply::Reply;
use super::{ParameterError, Refused, address, copies};
use blocks::reader::{Address, FIRST, SIZE, address_of};
use blocks::{Head, Header};
use catalogue::{Kind, Row};

// Where the values of a block stand: the place of the first, the bytes of each, and how many there are. The block stays a parameter
// beside it: with the slice in the struct the proof of `store` did not close, as it is not known there that its numbers are bytes.
#[derive(Clone, Copy)]
pub struct Values {
    pub at: usize,
    pub size: usize,
    pub count: u16,
}

// Whether values of a format are of a parameter's type.
fn is_format(k: Kind, f: u8) -> bool
    ensures { result ≡ (eqb f (size_code k) || eqb f (type_code k)) }
{
    f == catalogue::size_code(k) || f == catalogue::type_code(k)
}

// The value of a kind whose bytes stand at `at`: the width is known from the kind, so no bound of one or two bytes is tested.
fn value_here(k: Kind, s: &[u8], at: usize) -> i32
    requires { at + element_size k ≤ length s.now }
    ensures { result ≡ value_of k (number_at (element_size k) s.now at) }
{
    match k {
        Kind::U8 => s[at] as i32,
        Kind::U16 => (s[at] as i32) * 256 + (s[at + 1] as i32),
        Kind::I16 => ((s[at] as u16) * 256 + (s[at + 1] as u16)).cast_signed() as i32,
        Kind::I32 => codes::number_at(s, at, 4).cast_signed(),
    }
}

// Whether all values are inside the limits of a row. By places, here and below: a value's width is known from its kind, and of a chunk it would be
// asked again.
fn all_inside(r: Row, block: &[u8], v: Values) -> bool
    requires { (v.at + v.count * v.size ≤ length block.now) × (v.size ≡ element_size r.kind) }
    ensures { result ≡ all_inside r (numbers_at v.size v.count block.now v.at) }
{
    let k = r.kind;
    let mut at = v.at;
    for _ in 0..v.count {
        if !catalogue::is_within(r, value_here(k, block, at)) {
            return false;
        }
        at += v.size;
    }
    true
}

// Stores the values in the elements of a row, from element i on, where the part is too short for all of them: each that fits.
fn store_each(part: &mut [u8], r: Row, i: u16, block: &[u8], v: Values)
    requires { (i + v.count ≤ buffer_codes) × (v.at + v.count * v.size ≤ length block.now) }
    ensures { part.new ≡ store_from r i (numbers_at v.size v.count block.now v.at) part.old }
{
    let mut at = v.at;
    for to in i..i + v.count {
        catalogue::put_element(part, r, to, codes::number_at(block, at, v.size));
        at += v.size;
    }
}

// The same for every part: the values' bytes, as they are, where all fit.
fn store(part: &mut [u8], r: Row, i: u16, block: &[u8], v: Values)
    requires { (i + v.count ≤ buffer_codes) × (v.at + v.count * v.size ≤ length block.now) × (v.size ≡ element_size r.kind) }
    ensures { part.new ≡ store_from r i (numbers_at v.size v.count block.now v.at) part.old }
{
    let first = (r.offset as usize) + (i as usize) * v.size;
    let bytes = (v.count as usize) * v.size;
    if part.len() < first + bytes {
        store_each(part, r, i, block, v);
    } else {
        copies::copy(part, first, block, v.at, bytes);
    }
}

// Stores all values in the elements of a row, from element i on, where all are inside its limits; else none. Answers how many were stored.
fn store_whole(
    part: &mut [u8],
    r: Row,
    i: u16,
    block: &[u8],
    v: Values,
) -> Result<u16, ParameterError>
    requires { (i + v.count ≤ buffer_codes) × (v.at + v.count * v.size ≤ length block.now) × (v.size ≡ element_size r.kind) }
    ensures { Did (store_whole r i (numbers_at v.size v.count block.now v.at) part.old) part.new result }
{
    if !all_inside(r, block, v) {
        return Err(ParameterError::OutsideLimits);
    }
    store(part, r, i, block, v);
    Ok(v.count)
}

// An address that names n elements of a row, with the block of values at `at`, which begins with `h`.
fn change_elements(
    part: &mut [u8],
    a: Address,
    r: Row,
    n: u16,
    block: &[u8],
    at: usize,
    h: Head,
) -> Result<u16, ParameterError>
    requires { (a.subindex + n ≤ buffer_codes) × (block_at block.now at ≡ Some h) }
    ensures { Did (of_elements a (block_in block.now at) part.old r n) part.new result }
{
    if !r.writable {
        return Err(ParameterError::ReadOnly);
    }
    let k = r.kind;
    if !is_format(k, h.format) {
        return Err(ParameterError::WrongType);
    }
    if (h.count as u16) != n {
        return Err(ParameterError::WrongCount);
    }
    let v = Values {
        at: at + 2,
        size: h.size,
        count: n,
    };
    store_whole(part, r, a.subindex, block, v)
}

// One address, with its block of values. What is asked of `h`, here, above and below, is of the bytes beside it, which no type holds.
fn change_one(
    part: &mut [u8],
    a: Address,
    block: &[u8],
    at: usize,
    h: Head,
) -> Result<u16, ParameterError>
    requires { block_at block.now at ≡ Some h }
    ensures { Did (change_one a (block_in block.now at) part.old) part.new result }
{
    let (r, n) = address::check(a)?;
    change_elements(part, a, r, n, block, at, h)
}

// `40 00`, or the error.
fn put_answer(d: Result<u16, ParameterError>, reply: &mut Reply)
    requires { reply.old.next + 2 ≤ block_limit }
    ensures { reply.new ≡ with_block (answer_in d) reply.old }
{
    match d {
        Ok(_) => reply.put_empty(),
        Err(error) => reply.put_failed(error),
    }
}

// How the block of values at `at` begins: one stands there, so that nothing is tested again, as `block_at` would (decision 94).
fn head_here(block: &[u8], at: usize) -> Head
    requires { (h : Head) × (block_at block.now at ≡ Some h) }
    ensures { block_at block.now at ≡ Some result }
{
    let f = block[at];
    let n = block[at + 1];
    let size = blocks::format_size(f);
    let bare = (n as usize) * size;
    Head {
        format: f,
        count: n,
        size,
        next: at + 2 + bare + bare % 2,
    }
}

// All n addresses, in order, each with its block of values; their answers after the header. Answers how many elements were stored: beside
// an error the other addresses may have been stored. Where the next block begins is known from this one alone.
pub(crate) fn change_all(part: &mut [u8], block: &[u8], n: usize, reply: &mut Reply) -> u16
    requires { (length (walk n block.now 4) ≡ n) × (length (blocks_in n block.now (4 + n * 6)) ≡ n) × (n ≤ 39) × (reply.old.next ≡ 4) }
    ensures { DidAll (change_all (walk n block.now 4) (blocks_in n block.now (4 + n * 6)) part.old) part.new reply.old reply.new result }
{
    let mut at = FIRST;
    let mut from = at + n * SIZE;
    let mut stored = 0;
    for _ in 0..n {
        let h = head_here(block, from);
        let d = change_one(part, address_of(block, at), block, from, h);
        put_answer(d, reply);
        stored += d.unwrap_or(0);
        at += SIZE;
        from = h.next;
    }
    stored
}

// The answer to a readable change, whose header is `h`: 02 alone, or 82 and its blocks where an address failed. What was stored is kept as
// a version; where no number is left for it the change is worked on no bytes, which tells what it would store, and is refused by that.
pub(crate) fn answer(part: &mut [u8], block: &[u8], h: Header) -> Result<u16, Refused>
    requires { (readable block_limit request block.now ≡ true) × (h ≡ header_of block.now) × (h.identifier ≡ 1 → ⊥) }
    ensures { Reported (change_outcome (request_in block.now) part.old) part.new result }
{
    let mut reply = Reply::new();
    let used_up = part::is_used_up(part);
    let open = if used_up { 0 } else { part.len() };
    let stored = change_all(&mut part[..open], block, h.count as usize, &mut reply);
    if stored != 0 {
        if used_up {
            return Err(Refused::UsedUp);
        }
        versions::take_within(part, part::VERSIONS);
    }
    if reply.error {
        reply.respond(part, h, 0x82);
    } else {
        reply.next = FIRST;
        reply.respond(part, h, 0x02);
    }
    Ok(stored)
}
