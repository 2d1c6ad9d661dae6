// A request (01): the blocks of values and errors that answer its addresses. Row, first element and their number stand one by one, as the
// catalogue takes them; widening is written `as`, which a proof reads on through (decision 126).
ghost use Rattle.std.specs.Prelude.{◌≡◌, true, ◌∷◌, ◌++◌, ◌+◌, ◌%◌, ◌≤◌, length, take, drop, replicate};
ghost use Rattle.codes.specs.Code.{readable};
ghost use Rattle.codes.specs.Number.{put};
ghost use Rattle.drive.specs.Faults.{buffer_codes};
ghost use Rattle.blocks.specs.Block.{block_limit};
ghost use Rattle.blocks.specs.Page.{block_bytes};
ghost use Rattle.blocks.specs.Request.{request};
ghost use Rattle.blocks.specs.Place.{header_of, walk};
ghost use Rattle.catalogue.specs.Element.{size_code};
ghost use Rattle.access.specs.Read.{elements_from, fitted, read_block, read_blocks};
ghost use Rattle.access.specs.Work.{worked_read};
ghost use Rattle.access.specs.Walk.{with_block, with_blocks, request_in, responded_part};

use super::reply::Reply;
use super::{ParameterError, address, copies};
use blocks::Header;
use blocks::reader::{Address, FIRST, SIZE, address_of};
use catalogue::Row;

// No parameter has more elements than the fault buffer.
const MOST: usize = drive::faults::BUFFER;

// Puts n elements of a row, from element i on, at the start of `values`. The index counts both, so that an iterator over one of them is no
// plainer.
fn gather(part: &[u8], r: Row, i: u16, n: u16, values: &mut [u32; MOST])
    requires { (i + n ≤ buffer_codes) × (length values.old ≡ buffer_codes) }
    ensures { (length values.new ≡ buffer_codes) × (take n values.new ≡ elements_from r i n part.now) }
{
    for j in 0..n {
        values[j as usize] = catalogue::element(part, r, i + j);
    }
}

// The block of n elements of a row, from element i on, where the part may be too short for some: each is read by itself.
fn put_gathered(part: &[u8], r: Row, i: u16, n: u16, reply: &mut Reply)
    requires { i + n ≤ buffer_codes }
    ensures { reply.new ≡ record reply.old { bytes = put reply.old.bytes reply.old.next (block_bytes (record { format = size_code r.kind; values = elements_from r i n part.now })) } }
{
    let k = r.kind;
    let mut values = [0u32; MOST];
    gather(part, r, i, n, &mut values);
    blocks::writer::put_block(
        &mut reply.bytes,
        reply.next,
        catalogue::size_code(k),
        &values[..n as usize],
    );
}

// The same for elements that all stand in the part, from `from` on: their bytes, as they are.
fn put_copy(part: &[u8], from: usize, bytes: usize, f: u8, n: u8, reply: &mut Reply)
    requires { (from + bytes ≤ length part.now) × (reply.old.next + (2 + bytes + bytes % 2) ≤ block_limit) }
    ensures { reply.new ≡ record reply.old { bytes = put reply.old.bytes reply.old.next (f ∷ n ∷ take bytes (drop from part.now) ++ replicate (bytes % 2) 0) } }
{
    let at = reply.next;
    reply.bytes[at] = f;
    reply.bytes[at + 1] = n;
    copies::copy(&mut reply.bytes, at + 2, part, from, bytes);
    if bytes % 2 == 1 {
        reply.bytes[at + 2 + bytes] = 0;
    }
}

// A block of values goes in only where it leaves 4 bytes for each address after it.
fn put_elements(part: &[u8], r: Row, i: u16, n: u16, after: usize, reply: &mut Reply)
    requires { (i + n ≤ buffer_codes) × (after ≤ block_limit) × (reply.old.next ≤ block_limit) }
    ensures { reply.new ≡ with_block (fitted reply.old.next after (record { format = size_code r.kind; values = elements_from r i n part.now })) reply.old }
{
    let k = r.kind;
    let each = catalogue::element_size(k);
    let bytes = (n as usize) * each;
    let size = 2 + bytes + bytes % 2;
    if blocks::BLOCK_LIMIT < reply.next + size + 4 * after {
        return reply.put_failed(ParameterError::NoRoom);
    }
    let from = (r.offset as usize) + (i as usize) * each;
    if part.len() < from + bytes {
        put_gathered(part, r, i, n, reply);
    } else {
        put_copy(part, from, bytes, catalogue::size_code(k), n as u8, reply);
    }
    reply.next += size;
}

// The block for one address, with `after` addresses to come.
fn read_one(part: &[u8], a: Address, after: usize, reply: &mut Reply)
    requires { (after ≤ block_limit) × (reply.old.next ≤ block_limit) }
    ensures { reply.new ≡ with_block (read_block part.now reply.old.next after a) reply.old }
{
    match address::check(a) {
        Err(e) => reply.put_failed(e),
        Ok((r, n)) => put_elements(part, r, a.subindex, n, after, reply),
    }
}

// The blocks for n addresses, in order, after the header. By places: as a reader's item each costs some 20 instructions
// more.
pub(crate) fn read_all(part: &[u8], block: &[u8], n: usize, reply: &mut Reply)
    requires { (length (walk n block.now 4) ≡ n) × (n ≤ 39) × (reply.old.next ≡ 4) }
    ensures { reply.new ≡ with_blocks (read_blocks part.now 4 (walk n block.now 4)) reply.old }
{
    let mut at = FIRST;
    for after in (0..n).rev() {
        read_one(part, address_of(block, at), after, reply);
        at += SIZE;
    }
}

// The answer to a readable request, whose header is `h`: 81 where an error was met.
pub(crate) fn answer(part: &mut [u8], block: &[u8], h: Header)
    requires { (readable block_limit request block.now ≡ true) × (h ≡ header_of block.now) }
    ensures { part.new ≡ responded_part (worked_read (request_in block.now) part.old) }
{
    let mut reply = Reply::new();
    read_all(part, block, h.count as usize, &mut reply);
    let identifier = if reply.error { 0x81 } else { 0x01 };
    reply.respond(part, h, identifier);
}
