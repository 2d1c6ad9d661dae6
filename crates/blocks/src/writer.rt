// The parts of a response, written at a place of a slice; nothing is written of a part that does not fit.
ghost use Rattle.std.specs.Prelude.{◌≡◌, [], ◌∷◌, ◌+◌, ◌*◌, ◌≤◌, length, replicate};
ghost use Rattle.codes.specs.Code.{write_all};
ghost use Rattle.codes.specs.Number.{put};
ghost use Rattle.blocks.specs.Block.{values_size};
ghost use Rattle.blocks.specs.Page.{number_bytes};
ghost use Rattle.blocks.specs.Place.{header_bytes, put_block};

use super::Header;

pub fn put_header(out: &mut [u8], h: Header)
    ensures { out.new ≡ put out.old 0 (header_bytes h) }
{
    codes::put_bytes(out, 0, &[h.reference, h.identifier, h.axis, h.count]);
}

// Bytes of a block of n values of the format f, filled up.
#[tactic(auto, using(crate::proofs::Blocks::values_size_lem))]
pub fn block_size(f: u8, n: u8) -> usize
    ensures { result ≡ 2 + values_size f n }
{
    let z = super::layout::sizes_of(f, n);
    2 + z.bare + z.fill
}

// Writes each value in `size` bytes from `at` on, where they all fit.
fn put_values(out: &mut [u8], at: usize, size: usize, values: &[u32])
    requires { at + length values.now * size ≤ length out.old }
    ensures { out.new ≡ put out.old at (write_all (number_bytes size) values.now) }
{
    for (j, value) in values.iter().enumerate() {
        codes::put_number(out, at + j * size, size, *value);
    }
}

// Writes the byte that fills up a block, if one does, at `at`.
fn put_fill(out: &mut [u8], at: usize, fill: usize)
    requires { (fill ≤ 1) × (at + fill ≤ length out.old) }
    ensures { out.new ≡ put out.old at (replicate fill 0) }
{
    if fill == 1 {
        out[at] = 0;
    }
}

// A block of values of one format.
pub fn put_block(out: &mut [u8], at: usize, f: u8, values: &[u32])
    ensures { out.new ≡ put_block out.old at (record { format = f; values = values.now }) }
{
    let Ok(n) = u8::try_from(values.len()) else {
        return;
    };
    let z = super::layout::sizes_of(f, n);
    if !codes::stands(out.len(), at, 2 + z.bare + z.fill) {
        return;
    }
    out[at] = f;
    out[at + 1] = n;
    put_values(out, at + 2, z.each, values);
    put_fill(out, at + 2 + z.bare, z.fill);
}

// `40 00`: a parameter of a change that did not fail.
pub fn put_empty(out: &mut [u8], at: usize)
    ensures { out.new ≡ put out.old at (0x40 ∷ 0 ∷ []) }
{
    codes::put_number(out, at, 2, 0x4000);
}

// `44 01` and the error word.
pub fn put_error(out: &mut [u8], at: usize, error: u16)
    ensures { out.new ≡ put out.old at (0x44 ∷ 1 ∷ number_bytes 2 error) }
{
    codes::put_number(out, at, 4, 0x44010000 + u32::from(error));
}
