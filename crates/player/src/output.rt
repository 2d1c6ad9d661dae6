// Lines, collected and written.
ghost use Rattle.std.specs.Prelude.{◌≡◌, ◌≤◌, length};

use super::Stop;
use super::said::fail;

// Bytes of output that are collected before they are written.
const OUT: usize = 16384;

// Writes text, all of it.
pub(crate) fn write<R: Print + Eprint>(rt: &R, text: &[u8]) -> Result<(), Stop> {
    rt.write_all(text)
        .map_err(|error| fail(rt, "standard output", error))
}

// The output that is collected: as many bytes as are used. Fixed memory, as nothing here allocates.
#[derive(Drop)]
pub(crate) struct Output {
    bytes: [u8; OUT],
    used: usize,
    ghost inside: { used ≤ 16384 },
}

impl Output {
    // Nothing is collected yet.
    #[inline(always)]
    pub(crate) fn new() -> Output
        ensures { result.used ≡ 0 }
    {
        Output {
            bytes: [0; OUT],
            used: 0,
        }
    }

    // Writes what is collected; where that fails it is given up.
    pub(crate) fn flush<R: Print + Eprint>(&mut self, rt: &R) -> Result<(), Stop>
        ensures { self.new.used ≡ 0 }
    {
        let used = self.used;
        self.used = 0;
        write(rt, &self.bytes[..used])
    }

    // Collects a line, after writing what leaves it no room.
    pub(crate) fn put_line<R: Print + Eprint>(&mut self, rt: &R, line: &[u8]) -> Result<(), Stop>
        requires { length line.now ≤ 16384 }
    {
        if OUT - self.used < line.len() {
            self.flush(rt)?;
        }
        let end = self.used + line.len();
        self.bytes[self.used..end].copy_from_slice(line);
        self.used = end;
        Ok(())
    }
}
