// Whether a response answers a request (document 02, R-4), on two blocks of any bytes and any length.
#![tactic(auto)]

ghost use Rattle.std.specs.Prelude.{◌≡◌, ◌+◌, ◌≤◌};
ghost use Rattle.blocks.specs.Block.{values_size};
ghost use Rattle.checker.specs.Check.{matching, count_fits, counts_fit, compared, check_of, number_of};
ghost use Rattle.checker.specs.Inner.{BothRead, BothCount, AsRead};

// What a check comes to: a yes, or the first of the checks of R-4 that failed, in their order; `as u8` gives its number. One enum, and no Result
// over the seven: that is handed on in two registers, which costs each check 17 instructions, and a check of one read is 2 below plain C's.
#[derive(Clone, Copy, Debug, PartialEq, Eq)]
pub enum Verdict {
    Yes,
    RequestUnreadable,
    ResponseUnreadable,
    OtherReference,
    OtherAxis,
    OtherNumber,
    OtherIdentifier,
    OtherCounts,
}

// Whether a response with the identifier `id` may answer a request with the identifier `asked`: bit 7 says that something failed.
fn is_matching(asked: u8, id: u8) -> bool
    requires { (1 ≤ asked) × (asked ≤ 2) }
    ensures { result ≡ matching asked id }
{
    id % 128 == asked
}

// Whether a block of n values of the format f has as many as were asked, if it is one of values.
fn count_fits(elements: u8, f: u8, n: u8) -> bool
    ensures { result ≡ count_fits elements f n }
{
    if !matches!(f, 0x41..=0x43) {
        return true;
    }
    if elements == 0 { n == 1 } else { n == elements }
}

// Bytes of a block of a response with n values of the format f: `blocks::writer::block_size` knows the data types too, and costs more.
#[tactic(auto, using(blocks::proofs::Formats::code_value, blocks::proofs::Blocks::values_size_lem, blocks::proofs::Blocks::fill_even))]
fn answer_size(f: u8, n: u8) -> usize
    requires { 0x40 ≤ f }
    ensures { result ≡ 2 + values_size f n }
{
    // The two bytes before the values, and what fills them up to an even number, in one rounding.
    let bare = usize::from(n) * blocks::code_size(f);
    (bare + 3) / 2 * 2
}

// Whether each block of a readable response has as many values as its address in a readable request asks. Both have `count` of them. Where
// the next block begins is known from this one alone.
fn counts_fit(request: &[u8], response: &[u8], count: u8) -> bool
    requires { BothRead request.now response.now × BothCount request.now response.now count }
    ensures { AsRead request.now response.now (λ q r. result ≡ counts_fit q.addresses r.blocks) }
{
    let mut from = blocks::reader::FIRST;
    let mut at = blocks::reader::FIRST;
    for _ in 0..count {
        let f = response[at];
        let n = response[at + 1];
        // An address has its elements in its second byte.
        if !count_fits(request[from + 1], f, n) {
            return false;
        }
        from += 6;
        at += answer_size(f, n);
    }
    true
}

// Checks 3 to 7, of a readable request and a readable response. A function of its own, so that its loop has the registers to itself and no
// byte of the request is kept in memory while the response is read.
#[inline(never)]
#[tactic(auto, using(crate::proofs::Comparing::both_long))]
fn compare(request: &[u8], response: &[u8]) -> Verdict
    requires { BothRead request.now response.now }
    ensures { AsRead request.now response.now (λ q r. number_of result ≡ compared q r) }
{
    // A header is the reference, the identifier, the axis and N.
    if response[0] != request[0] {
        return Verdict::OtherReference;
    }
    if response[2] != request[2] {
        return Verdict::OtherAxis;
    }
    if response[3] != request[3] {
        return Verdict::OtherNumber;
    }
    if !is_matching(request[1], response[1]) {
        return Verdict::OtherIdentifier;
    }
    // 02 ends with its header.
    if response[1] == 2 {
        return Verdict::Yes;
    }
    if counts_fit(request, response, request[3]) {
        Verdict::Yes
    } else {
        Verdict::OtherCounts
    }
}

// Whether `response` answers `request`. A function of its own, so that the slices of the exported call are made before it saves registers, and
// it saves fewer.
#[inline(never)]
pub fn check(request: &[u8], response: &[u8]) -> Verdict
    ensures { number_of result ≡ check_of request.now response.now }
{
    if !blocks::request_readable(request) {
        return Verdict::RequestUnreadable;
    }
    if !blocks::response_readable(response) {
        return Verdict::ResponseUnreadable;
    }
    compare(request, response)
}
