// Formats, their sizes, and which blocks may stand where.
ghost use Rattle.std.specs.Prelude.{◌≡◌, false, ◌&&◌, ◌*◌, ◌≤◌, leb};
ghost use Rattle.blocks.specs.Block.{format_size, value_size, code_size, value_fits, error_fits, empty_fits, response_block_fits, fill_size};
ghost use Rattle.blocks.specs.Response.{is_answer};

// Bytes of one value of a data type; 0 where f is none, here and below, as the document says sizes ("its size is 0") and the public two promise.
#[tactic(auto, unfolding(crate::specs::Block::format_size))]
fn type_size(f: u8) -> usize
    requires { (leb 0x41 f && leb f 0x43) ≡ false }
    ensures { result ≡ format_size f }
{
    match f {
        2 | 5 => 1,
        3 | 6 => 2,
        4 | 7 => 4,
        _ => 0,
    }
}

// Bytes of one value by a code of a response: a size code's or an error word's; 0 where f is neither.
#[tactic(auto, unfolding(crate::specs::Block::code_size, crate::specs::Block::value_size, crate::specs::Block::format_size))]
pub fn code_size(f: u8) -> usize
    ensures { (result ≡ code_size f) × (result ≤ 4) }
{
    match f {
        0x41 => 1,
        0x42 | 0x44 => 2,
        0x43 => 4,
        _ => 0,
    }
}

// Bytes of one value, by its format; 0 where there is no such format. Most values are words, so these come first and not in one match: that is
// a jump by a table. Codes and types are two dense tables.
#[tactic(auto, using(crate::proofs::Formats::value_format, crate::proofs::Formats::code_value, crate::proofs::Blocks::format_small), unfolding(crate::specs::Block::format_size))]
pub fn format_size(f: u8) -> usize
    ensures { (result ≡ format_size f) × (result ≤ 4) }
{
    if f == 0x42 {
        return 2;
    }
    match f {
        0x41..=0x43 => code_size(f),
        _ => type_size(f),
    }
}

#[tactic(auto, using(crate::proofs::Formats::value_format, crate::proofs::Formats::code_value))]
pub fn value_size(f: u8) -> usize
    ensures { result ≡ value_size f }
{
    if f < 0x41 { type_size(f) } else { code_size(f) }
}

// Bytes of a block's values: of each, of all of them, and how many fill these up to an even number.
#[derive(Clone, Copy)]
pub struct Sizes {
    pub each: usize,
    pub bare: usize,
    pub fill: usize,
    ghost small: { (each ≤ 4) × (bare ≤ 1020) × (fill ≤ 1) },
}

// Those of n values of the format f.
pub fn sizes_of(f: u8, n: u8) -> Sizes
    ensures { (result.each ≡ value_size f) × (result.bare ≡ n * value_size f) × (result.fill ≡ fill_size f n) }
{
    let each = value_size(f);
    let bare = usize::from(n) * each;
    Sizes {
        each,
        bare,
        fill: bare % 2,
    }
}

fn value_fits(f: u8, n: u8) -> bool
    ensures { result ≡ value_fits f n }
{
    matches!(f, 0x41..=0x43) && 1 <= n
}

fn error_fits(f: u8, n: u8) -> bool
    ensures { result ≡ error_fits f n }
{
    f == 0x44 && n == 1
}

fn empty_fits(f: u8, n: u8) -> bool
    ensures { result ≡ empty_fits f n }
{
    f == 0x40 && n == 0
}

// Whether a block of format f with n values may stand in a response with the identifier `id`. By ifs on it, and `|`, which the compiler takes
// out of the walk over blocks: by a match and `||` a check of 39 reads takes 272 instructions more, and as it is 2 fewer than plain C's.
#[tactic(auto, unfolding(crate::specs::Block::response_block_fits))]
pub fn response_block_fits(id: u8, f: u8, n: u8) -> bool
    ensures { result ≡ response_block_fits id f n }
{
    if id == 1 {
        return value_fits(f, n);
    }
    let error = error_fits(f, n);
    if id == 0x81 {
        value_fits(f, n) | error
    } else {
        empty_fits(f, n) | error
    }
}

pub fn is_request(id: u8) -> bool
    ensures { result ≡ (leb 1 id && leb id 2) }
{
    matches!(id, 1 | 2)
}

pub fn is_answer(id: u8) -> bool
    ensures { result ≡ is_answer id }
{
    matches!(id, 1 | 2 | 0x81 | 0x82)
}
