// The control cycle of one axis.
#![tactic(auto)]

ghost use Rattle.std.specs.Prelude.{◌≡◌, cond};
ghost use Rattle.drive.specs.Cycle.{word_of, effective_of, cycle_of, fresh_drive};
ghost use Rattle.drive.specs.Motion.{motion_of, with_faults, moved_of, quiet_of};

pub mod faults; // faults.rt: steps 2 and 3, the fault buffer
pub mod speed; // speed.rt: normalised figures and revolutions
pub mod states; // states.rt: step 4, the states and their transitions
mod status; // status.rt: step 6, the status word
mod word; // word.rt: the bits of a control word

pub use faults::Faults;
pub use speed::{N2, Rpm, scale, size};
pub use states::{State, UnknownState};
use word::Word;

// What an axis keeps from one cycle to the next, but for its faults.
#[derive(Clone, Copy)]
pub struct Motion {
    pub state: State,
    pub word: u16, // PNU 10100, last accepted STW1
    pub setpoint: N2, // PNU 10101, last accepted setpoint
    pub effective: N2,
    pub status: u16, // PNU 10102, ZSW1
    pub actual: N2, // PNU 10103, NIST_A
}

// The drive record: all that an axis keeps.
#[derive(Clone, Copy)]
pub struct Drive {
    pub motion: Motion,
    pub faults: Faults,
}

// What a cycle is given: the telegram, then the axis's parameters.
#[derive(Clone, Copy)]
pub struct Input {
    pub standstill: bool,
    pub warning: bool,
    pub stw1: u16,
    pub nsoll: N2,
    pub nist: N2,
    pub fault: u16, // 0: none, as the telegram has it
    pub reference: u16, // PNU 10111
    pub window: u16, // PNU 30002
    pub threshold: u16, // PNU 30003
}

// What a cycle answers, and of what it did that it acknowledged a situation, and that it came into S4.
#[derive(Clone, Copy)]
pub struct Output {
    pub state: State,
    pub status: u16,
    pub speed: Rpm,
    pub acknowledged: bool,
    pub entered: bool,
}

// How a cycle ends, and below it how its steps but 2 and 3 end: each names what it leaves, which a pair or a type parameter would not.
#[derive(Clone, Copy)]
pub struct CycleEnd {
    pub drive: Drive,
    pub output: Output,
}

#[derive(Clone, Copy)]
pub struct MotionEnd {
    pub motion: Motion,
    pub output: Output,
}

// A fresh axis.
pub fn fresh() -> Drive
    ensures { result ≡ fresh_drive }
{
    Drive {
        motion: Motion {
            state: State::S1,
            word: 0,
            setpoint: N2(0),
            effective: N2(0),
            status: 0x0340,
            actual: N2(0),
        },
        faults: Faults::none(),
    }
}

// What a drive record holds beside its faults, and the whole of it with faults.
pub fn motion_of(d: Drive) -> Motion
    ensures { result ≡ motion_of d }
{
    d.motion
}

pub fn with_faults(m: Motion, f: Faults) -> Drive
    ensures { result ≡ with_faults m f }
{
    Drive {
        motion: m,
        faults: f,
    }
}

// Step 1, of the word and of the setpoint: what is received where bit 10 of the word received is 1, else the last one accepted.
fn accepted<T: Copy>(stw1: u16, received: T, last: T) -> T
    ensures { result ≡ cond (word_of stw1).b10 received last }
{
    if Word::from(stw1).b10 { received } else { last }
}

// Step 5.
#[tactic(auto, unfolding(crate::specs::Cycle::effective_of))]
fn effective_setpoint(s: State, b: Word, last: N2, setpoint: N2) -> N2
    ensures { result ≡ effective_of s b last setpoint }
{
    if s != State::S4 || !b.b4 || !b.b6 {
        return N2(0);
    }
    if b.b5 { setpoint } else { last }
}

// Whether a cycle leaves the faults as they are: no code is sent, and nothing is acknowledged. `empty`: situation 0 is.
#[tactic(auto, unfolding(crate::specs::Motion::quiet_of, crate::specs::Cycle::word_used, crate::specs::Cycle::word_of))]
pub fn is_quiet(last: u16, empty: bool, i: Input) -> bool
    ensures { result ≡ quiet_of last empty i }
{
    let before = Word::from(last);
    let b = Word::from(accepted(i.stw1, i.stw1, last));
    i.fault == 0 && (empty || !b.b7 || before.b7)
}

// Steps 1 and 4 to 7, which are told of steps 2 and 3 whether situation 0 is not empty after them, and whether step 2 acknowledged.
#[tactic(auto, unfolding(crate::specs::Motion::moved_of, crate::specs::Cycle::word_used, crate::specs::Cycle::setpoint_used))]
pub fn move_on(m: Motion, faulted: bool, acknowledged: bool, i: Input) -> MotionEnd
    ensures { result ≡ moved_of m faulted acknowledged i }
{
    let word = accepted(i.stw1, i.stw1, m.word); // step 1
    let setpoint = accepted(i.stw1, i.nsoll, m.setpoint);
    let b = Word::from(word);
    let state = states::state_after(faulted, m.state, b, i.standstill); // step 4
    let effective = effective_setpoint(state, b, m.effective, setpoint); // step 5
    let near = status::is_near(effective, i.nist, i.window); // step 6
    let fast = status::is_fast(i.nist, i.threshold);
    let status = status::status_word(state, faulted, b, i.warning, near, fast);
    MotionEnd {
        motion: Motion { // step 7
            state,
            word,
            setpoint,
            effective,
            status,
            actual: i.nist,
        },
        output: Output {
            state,
            status,
            speed: scale(effective, i.reference),
            acknowledged,
            entered: states::enters_s4(m.state, state),
        },
    }
}

// One control cycle of one axis, in the steps of document 01.
#[tactic(auto, unfolding(crate::specs::Cycle::cycle_of, crate::specs::Cycle::word_used, crate::specs::Motion::moved_of))]
pub fn cycle(d: Drive, i: Input) -> CycleEnd
    ensures { result ≡ cycle_of d i }
{
    let last = d.motion.word;
    let b = Word::from(accepted(i.stw1, i.stw1, last)); // step 1, the word
    let acknowledged = faults::acknowledges(b, Word::from(last), i.fault, d.faults); // step 2
    let left = faults::after_ack(acknowledged, d.faults);
    let f = faults::after_code(i.fault, left); // step 3
    let end = move_on(motion_of(d), !f.is_empty(), acknowledged, i); // steps 1 and 4 to 7
    CycleEnd {
        drive: with_faults(end.motion, f),
        output: end.output,
    }
}

// The drive record, changed in place: the by-value cycle, and a store.
pub fn cycle_in_place(d: &mut Drive, i: Input) -> Output
    ensures { (result ≡ (cycle_of d.old i).output) × (d.new ≡ (cycle_of d.old i).drive) }
{
    let end = cycle(*d, i);
    *d = end.drive;
    end.output
}

// A record that is lent and taken back: its contract says nothing of a reference, so whoever calls it needs no walk by hand.
pub fn cycle_lent(d: Drive, i: Input) -> CycleEnd
    ensures { result ≡ cycle_of d i }
{
    let mut drive = d;
    let output = cycle_in_place(&mut drive, i);
    CycleEnd { drive, output }
}
