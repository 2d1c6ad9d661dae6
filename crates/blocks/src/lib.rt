// Request and response blocks: which are readable, what stands where in one, and how a response is written.
#![tactic(auto)]

ghost use Rattle.std.specs.Prelude.{◌≡◌, ◌||◌, ◌↔◌, ◌+◌, ◌≤◌, ℕ, Bool, ◌<◌, IsTrue, MatchOption, eqb, length, get_or, drop};
ghost use Rattle.codes.specs.Code.{is_whole, times, readable};
ghost use Rattle.blocks.specs.Block.{block_limit, value_size, change_block_fits, response_block_fits, block};
ghost use Rattle.blocks.specs.Request.{request};
ghost use Rattle.blocks.specs.Response.{has_error, response};
ghost use Rattle.blocks.specs.Place.{header_of, block_at, value_at};
ghost use Rattle.blocks.specs.Walk.{block_by, ByRules, map_got, standing, InBlock, Walked, Starts, Framed, erring};

mod layout;
pub mod reader;
pub mod writer;

pub use layout::{code_size, format_size};

// The most bytes of a block.
pub const BLOCK_LIMIT: usize = 240;

// The most parameters of a block.
const MOST_PARAMETERS: u8 = 39;

// The four bytes that a block begins with; `count` is its number of parameters. They are bytes of any value, here and in `Head`, as
// `header_of` and `block_at` promise them of every block, and so no enums.
#[derive(Clone, Copy)]
pub struct Header {
    pub reference: u8,
    pub identifier: u8,
    pub axis: u8,
    pub count: u8,
}

// How a block of values begins, the bytes of each value, and where the next block begins.
#[derive(Clone, Copy)]
pub struct Head {
    pub format: u8,
    pub count: u8,
    pub size: usize,
    pub next: usize,
}

// Where a walk over blocks stands, and whether it met an error block: a walk goes on after one.
#[derive(Clone, Copy)]
struct Reached {
    at: usize,
    error: bool,
}

// A rule of the formats and numbers of values that a block may have: the blocks that pass it.
trait Rule: Copy {
    ghost fits: { Self → ℕ → ℕ → Bool };

    // The block at `at`.
    fn block_at(self, s: &[u8], at: usize) -> Option<Head>
        ensures { result ≡ block_by (fits self) s.now at };
}

// The blocks of a change.
#[derive(Clone, Copy)]
struct Change;

impl Rule for Change {
    ghost fits = { λ rule. change_block_fits };

    fn block_at(self, s: &[u8], at: usize) -> Option<Head> {
        block_at(s, at)
    }
}

// The blocks of a response with an identifier.
#[derive(Clone, Copy)]
struct Answer {
    identifier: u8,
}

impl Rule for Answer {
    ghost fits = { λ rule. response_block_fits rule.identifier };

    fn block_at(self, s: &[u8], at: usize) -> Option<Head> {
        answer_at(s, at, self.identifier)
    }
}

pub fn header_of(s: &[u8]) -> Header
    ensures { result ≡ header_of s.now }
{
    Header {
        reference: codes::byte_at(s, 0),
        identifier: codes::byte_at(s, 1),
        axis: codes::byte_at(s, 2),
        count: codes::byte_at(s, 3),
    }
}

// Whether the byte that fills up a block, if one does, is zero; it stands at `at`.
fn is_filled(s: &[u8], at: usize, fill: usize) -> bool
    requires { at + fill ≤ length s.now }
    ensures { result ≡ (eqb fill 0 || eqb (get_or s.now at 0) 0) }
{
    fill == 0 || s[at] == 0
}

// The block at `at`, whose two first bytes stand there and whose values take `each` bytes: for every rule that it passes.
fn sized(s: &[u8], at: usize, each: usize) -> Option<Head>
    requires { (at + 2 ≤ length s.now) × (each ≡ value_size (get_or s.now at 0)) }
    ensures { ByRules s.now at result }
{
    let n = s[at + 1];
    let bare = usize::from(n) * each;
    let fill = bare % 2;
    let filled = bare + fill;
    if s.len() - 2 - at < filled {
        return None;
    }
    if !is_filled(s, at + 2 + bare, fill) {
        return None;
    }
    Some(Head {
        format: s[at],
        count: n,
        size: each,
        next: at + 2 + filled,
    })
}

// The format and the number of values that a block at `at` begins with.
fn start_of(s: &[u8], at: usize) -> Option<(u8, u8)>
    ensures { MatchOption result (length s.now < at + 2) (λ r. Starts s.now at r.0 r.1) }
{
    if codes::stands(s.len(), at, 2) {
        Some((s[at], s[at + 1]))
    } else {
        None
    }
}

// The block of values of a change at `at`.
pub fn block_at(s: &[u8], at: usize) -> Option<Head>
    ensures { result ≡ block_at s.now at }
{
    let (format, _) = start_of(s, at)?;
    let each = layout::format_size(format);
    if each == 0 {
        return None;
    }
    sized(s, at, each)
}

// The block at `at` of a response with the identifier `id`.
fn answer_at(s: &[u8], at: usize, id: u8) -> Option<Head>
    ensures { result ≡ block_by (response_block_fits id) s.now at }
{
    let (format, count) = start_of(s, at)?;
    if !layout::response_block_fits(id, format, count) {
        return None;
    }
    sized(s, at, layout::code_size(format))
}

// The j-th value of the block of a change that stands at `at`; 0 where there is none, as `value_at` of specs/ promises.
pub fn value_at(s: &[u8], at: usize, j: usize) -> u32
    ensures { result ≡ value_at s.now at j }
{
    let Some(h) = block_at(s, at) else {
        return 0;
    };
    if j < usize::from(h.count) {
        codes::number_at(s, at + 2 + j * h.size, h.size)
    } else {
        0
    }
}

// Where n blocks that start at `from` end, each of which passes the rule. Where the next begins is known from each alone.
fn blocks_end<R: Rule>(rule: R, s: &[u8], from: usize, n: usize) -> Option<Reached>
    requires { from ≤ length s.now }
    ensures { Walked s.now (map_got has_error ((times n (block (R.fits rule))).read (drop from s.now))) result }
{
    let mut at = from;
    let mut error = false;
    for _ in 0..n {
        let head = rule.block_at(s, at)?;
        at = head.next;
        error |= head.format == 0x44;
    }
    Some(Reached { at, error })
}

// Whether a walk came to the end of the slice, and met an error where one is needed.
fn whole(s: &[u8], reached: Option<Reached>, need: bool) -> bool
    requires { InBlock s.now reached }
    ensures { result ≡ is_whole (erring need (standing s.now reached)) }
{
    let Some(Reached { at, error }) = reached else {
        return false;
    };
    (!need || error) && at == s.len()
}

// Whether a block is as long as blocks are, with a reference and a number of parameters in their ranges: what requests and responses share.
fn framed(block: &[u8]) -> bool
    ensures { IsTrue result ↔ Framed block.now }
{
    (4..=BLOCK_LIMIT).contains(&block.len())
        && block[0] != 0
        && (1..=MOST_PARAMETERS).contains(&block[3])
}

// Whether `block` is a readable request.
pub fn request_readable(block: &[u8]) -> bool
    ensures { result ≡ readable block_limit request block.now }
{
    if !framed(block) {
        return false;
    }
    let id = block[1];
    let n = block[3];
    if !layout::is_request(id) {
        return false;
    }
    let from = 4 + usize::from(n) * 6;
    if block.len() < from {
        return false;
    }
    // A read ends with its addresses; a change goes on with a block for each.
    if id != 2 {
        return from == block.len();
    }
    whole(
        block,
        blocks_end(Change, block, from, usize::from(n)),
        false,
    )
}

// Whether `block` is a readable response.
pub fn response_readable(block: &[u8]) -> bool
    ensures { result ≡ readable block_limit response block.now }
{
    if !framed(block) {
        return false;
    }
    let id = block[1];
    let n = block[3];
    if !layout::is_answer(id) {
        return false;
    }
    // 02 ends with its header.
    if id == 2 {
        return 4 == block.len();
    }
    let rule = Answer { identifier: id };
    whole(
        block,
        blocks_end(rule, block, 4, usize::from(n)),
        0x81 <= id,
    )
}
