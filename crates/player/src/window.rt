// A file, read in pieces.
ghost use Rattle.std.specs.Prelude.{◌≡◌, ◌+◌, ◌≤◌, length};

use super::Stop;
use super::said::fail;
use std::io::Read;

// Bytes of a file that are read and not worked yet, at most.
const INPUT: usize = 65536;

// What of a file is read and not worked yet, from `start` to `end`, and whether more may come: bytes may be left where none comes. Fixed
// memory, as nothing here allocates.
#[derive(Drop)]
pub(crate) struct Window {
    bytes: [u8; INPUT],
    start: usize,
    end: usize,
    open: bool,
    ghost ordered: { start ≤ end },
    ghost inside: { end ≤ 65536 },
}

impl Window {
    // Nothing of a file is read yet.
    #[inline(always)]
    pub(crate) fn new() -> Window
        ensures { (result.start ≡ 0) × (result.end ≡ 0) }
    {
        Window {
            bytes: [0; INPUT],
            start: 0,
            end: 0,
            open: true,
        }
    }

    // Nothing of the next file is read yet.
    pub(crate) fn begin(&mut self)
        ensures { (self.new.start ≡ 0) × (self.new.end ≡ 0) }
    {
        self.start = 0;
        self.end = 0;
        self.open = true;
    }

    // What is left.
    fn left(&self) -> &[u8]
        ensures { self.now.start + length result.now ≡ self.now.end }
    {
        &self.bytes[self.start..self.end]
    }

    // Moves what is left to the front.
    fn move_to_front(&mut self) {
        let left = self.end - self.start;
        self.bytes.copy_within(self.start..self.end, 0);
        self.start = 0;
        self.end = left;
    }

    // Reads once, after what is left. A read that fails is named.
    fn read_more<R: Eprint, S: Read>(
        &mut self,
        rt: &R,
        source: &mut S,
        name: &str,
    ) -> Result<(), Stop> {
        self.move_to_front();
        let n = source
            .read(&mut self.bytes[self.end..])
            .map_err(|error| fail(rt, name, error))?;
        self.end += n;
        self.open = 0 < n;
        Ok(())
    }

    // Whether more may come, and the next record is not all there yet. Where there is room for the longest, its kind byte need not be read.
    pub(crate) fn is_short(&self) -> bool {
        let left = self.left();
        if !self.open || journal::longest_record() <= left.len() {
            return false;
        }
        left.first()
            .is_none_or(|kind| left.len() < journal::record_length(*kind))
    }

    // Reads until the next record is all there, or the input ends. A read brings a byte at least, so that a record's length is enough.
    pub(crate) fn fill<R: Eprint, S: Read>(
        &mut self,
        rt: &R,
        source: &mut S,
        name: &str,
    ) -> Result<(), Stop> {
        for _ in 0..journal::longest_record() {
            if !self.is_short() {
                break;
            }
            self.read_more(rt, source, name)?;
        }
        Ok(())
    }

    // Whether nothing is left.
    pub(crate) fn is_empty(&self) -> bool {
        self.left().is_empty()
    }

    // Goes on after the next record, or what is left in place of one, and answers it.
    pub(crate) fn next_record(&mut self) -> &[u8] {
        let start = self.start;
        self.start += journal::next_length(self.left());
        &self.bytes[start..self.start]
    }
}
