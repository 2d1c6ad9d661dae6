// Step 4: the six states and the transitions between them.
ghost use Rattle.std.specs.Prelude.{◌≡◌, Some};
ghost use Rattle.drive.specs.Cycle.{from_s1, from_s2, from_s3, from_s4, from_s51, from_s52, next_of, state_after, enters_s4};
ghost use Rattle.drive.specs.States.{name_of, number_of, state_found};

use super::word::Word;
use std::fmt;

#[derive(Clone, Copy, Debug, PartialEq, Eq)]
pub enum State {
    S1,
    S2,
    S3,
    S4,
    S51,
    S52,
}

// A number that no state has.
#[derive(Clone, Copy, Debug, PartialEq, Eq)]
pub struct UnknownState(pub u8);

// The number of a state, as a cycle answers it and as it stands in a part.
impl From<State> for u8 {
    ghost from_gives = { λ s n. n ≡ number_of s };

    fn from(s: State) -> u8 {
        match s {
            State::S1 => 1,
            State::S2 => 2,
            State::S3 => 3,
            State::S4 => 4,
            State::S51 => 51,
            State::S52 => 52,
        }
    }
}

impl TryFrom<u8> for State {
    type Error = UnknownState;

    ghost try_from_gives = { λ n r. r ≡ state_found n };

    #[inline]
    #[tactic(auto, unfolding(crate::specs::States::state_found, crate::specs::States::state_of))]
    fn try_from(n: u8) -> Result<Self, UnknownState> {
        match n {
            1 => Ok(State::S1),
            2 => Ok(State::S2),
            3 => Ok(State::S3),
            4 => Ok(State::S4),
            51 => Ok(State::S51),
            52 => Ok(State::S52),
            _ => Err(UnknownState(n)),
        }
    }
}

impl fmt::Display for State {
    ghost output = { λ s. Some (name_of s) };

    fn fmt<W: fmt::Write>(&self, f: &mut fmt::Formatter<W>) -> fmt::Result {
        f.write_str(match self {
            State::S1 => "S1",
            State::S2 => "S2",
            State::S3 => "S3",
            State::S4 => "S4",
            State::S51 => "S51",
            State::S52 => "S52",
        })
    }
}

// Switching on inhibited.
fn from_s1(b: Word) -> State
    ensures { result ≡ from_s1 b }
{
    if b.b0 {
        return State::S1; // 047F does not lead out of S1
    }
    if b.b1 && b.b2 { State::S2 } else { State::S1 }
}

// Ready.
fn from_s2(b: Word) -> State
    ensures { result ≡ from_s2 b }
{
    if !b.b1 || !b.b2 {
        return State::S1;
    }
    if b.b0 {
        return State::S3; // never straight to S4
    }
    State::S2
}

// Switched on.
fn from_s3(b: Word) -> State
    ensures { result ≡ from_s3 b }
{
    if !b.b1 || !b.b2 {
        return State::S1;
    }
    if !b.b0 {
        return State::S2;
    }
    if b.b3 { State::S4 } else { State::S3 }
}

// Operation.
fn from_s4(b: Word) -> State
    ensures { result ≡ from_s4 b }
{
    if !b.b1 {
        return State::S1;
    }
    if !b.b2 {
        return State::S52;
    }
    if !b.b0 {
        return State::S51;
    }
    if b.b3 { State::S4 } else { State::S3 }
}

// Ramp stop.
fn from_s51(b: Word, t: bool) -> State
    ensures { result ≡ from_s51 b t }
{
    if !b.b1 {
        return State::S1;
    }
    if !b.b2 {
        return State::S52;
    }
    if b.b0 && b.b3 {
        return State::S4;
    }
    if t || !b.b3 {
        return State::S2;
    }
    State::S51
}

// Quick stop.
fn from_s52(b: Word, t: bool) -> State
    ensures { result ≡ from_s52 b t }
{
    if !b.b1 || t || !b.b3 {
        State::S1
    } else {
        State::S52
    }
}

// At most one transition.
fn next(s: State, b: Word, t: bool) -> State
    ensures { result ≡ next_of s b t }
{
    match s {
        State::S1 => from_s1(b),
        State::S2 => from_s2(b),
        State::S3 => from_s3(b),
        State::S4 => from_s4(b),
        State::S51 => from_s51(b, t),
        State::S52 => from_s52(b, t),
    }
}

// S1 while situation 0 is not empty.
#[tactic(auto, unfolding(crate::specs::Cycle::state_after))]
pub(crate) fn state_after(faulted: bool, s: State, b: Word, t: bool) -> State
    ensures { result ≡ state_after faulted s b t }
{
    if faulted { State::S1 } else { next(s, b, t) }
}

// Whether a cycle that ends in a state came into S4 from another one.
#[tactic(auto, unfolding(crate::specs::Cycle::enters_s4))]
pub(crate) fn enters_s4(before: State, s: State) -> bool
    ensures { result ≡ enters_s4 before s }
{
    before != State::S4 && s == State::S4
}
