// Step 6: the status word ZSW1.
ghost use Rattle.std.specs.Prelude.{◌≡◌, ◌≤◌};
ghost use Rattle.drive.specs.Cycle.{state_bits, near_of, fast_of, flag_of, status_of};

use super::speed::N2;
use super::states::State;
use super::word::Word;

// Bits 0, 1, 2 and 6, of the values 1, 2, 4 and 64.
fn state_bits(s: State) -> u16
    ensures value { result ≡ state_bits s }
    ensures upper_bound { result ≤ 64 }
{
    match s {
        State::S1 => 64,
        State::S2 => 1,
        State::S3 => 1 + 2,
        State::S4 => 1 + 2 + 4,
        State::S51 => 1 + 2,
        State::S52 => 1 + 2,
    }
}

// Bit 8: the distance is at most PNU 30002.
#[tactic(auto, unfolding(crate::specs::Cycle::near_of))]
pub(crate) fn is_near(e: N2, nist: N2, window: u16) -> bool
    ensures { result ≡ near_of e nist window }
{
    e.0.abs_diff(nist.0) <= window
}

// Bit 10: the size is at least PNU 30003.
#[tactic(auto, unfolding(crate::specs::Cycle::fast_of))]
pub(crate) fn is_fast(nist: N2, threshold: u16) -> bool
    ensures { result ≡ fast_of nist threshold }
{
    threshold <= nist.0.unsigned_abs()
}

fn flag(on: bool, value: u16) -> u16
    ensures value { result ≡ flag_of on value }
    ensures upper_bound { result ≤ value }
{
    if on { value } else { 0 }
}

#[tactic(auto, unfolding(crate::specs::Cycle::status_of))]
pub(crate) fn status_word(
    s: State,
    faulted: bool,
    b: Word,
    warning: bool,
    near: bool,
    fast: bool,
) -> u16
    ensures { result ≡ status_of s faulted b warning near fast }
{
    state_bits(s)
        + flag(faulted, 8)
        + flag(b.b1, 16)
        + flag(b.b2, 32)
        + flag(warning, 128)
        + flag(near, 256)
        + 512
        + flag(fast, 1024)
}
