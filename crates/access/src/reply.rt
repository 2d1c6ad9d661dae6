// The response, written part by part.
ghost use Rattle.std.specs.Prelude.{◌≡◌, ◌++◌, ◌+◌, ◌≤◌, drop, take};
ghost use Rattle.blocks.specs.Block.{block_limit};
ghost use Rattle.blocks.specs.Place.{header_bytes};
ghost use Rattle.part.specs.Layout.{with_response};
ghost use Rattle.access.specs.Address.{error_block, empty_block};
ghost use Rattle.access.specs.Walk.{no_blocks, with_block};

use super::ParameterError;
use blocks::Header;
use blocks::reader::FIRST;

// A response as far as it is written: its bytes, with room for the header first, where the next block goes, and whether one is an error.
// An error block and `40 00` are written last, after the place is moved on (decision 97). That `next` is inside stays with the functions: a ghost
// field of it would stand in `with_block` too, which says what a block adds and no more.
#[derive(Drop)]
pub struct Reply {
    pub bytes: [u8; blocks::BLOCK_LIMIT],
    pub next: usize,
    pub error: bool,
}

impl Reply {
    // No block yet.
    pub(crate) fn new() -> Reply
        ensures { result ≡ no_blocks }
    {
        Reply {
            bytes: [0u8; blocks::BLOCK_LIMIT],
            next: FIRST,
            error: false,
        }
    }

    // An error block: `44 01` and the error word.
    pub(crate) fn put_failed(&mut self, error: ParameterError)
        requires { self.old.next ≤ block_limit }
        ensures { self.new ≡ with_block (error_block error) self.old }
    {
        let at = self.next;
        self.next = at + 4;
        self.error = true;
        blocks::writer::put_error(&mut self.bytes, at, u16::from(error));
    }

    // `40 00`: an address of a change that did not fail.
    pub(crate) fn put_empty(&mut self)
        requires { self.old.next + 2 ≤ block_limit }
        ensures { self.new ≡ with_block empty_block self.old }
    {
        let at = self.next;
        self.next = at + 2;
        self.bytes[at] = 0x40;
        self.bytes[at + 1] = 0;
    }

    // The response that waits: the request's header with another identifier, and the blocks after it.
    pub(crate) fn respond(&mut self, part: &mut [u8], h: Header, identifier: u8)
        requires { (4 ≤ self.old.next) × (self.old.next ≤ block_limit) }
        ensures { part.new ≡ with_response (header_bytes (record { reference = h.reference; identifier = identifier; axis = h.axis; count = h.count }) ++ drop 4 (take self.old.next self.old.bytes)) part.old }
    {
        let out = &mut self.bytes[..self.next];
        blocks::writer::put_header(out, Header { identifier, ..h });
        part::put_response(part, out);
    }
}
