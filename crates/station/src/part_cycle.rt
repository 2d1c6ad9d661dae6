// A control cycle on the part of its axis.
ghost use Rattle.std.specs.Prelude.{false, ◌≡◌};
ghost use Rattle.drive.specs.Motion.{moved_of};
ghost use Rattle.part.specs.Record.{put_motion};
ghost use Rattle.station.specs.Cycle.{input_of, refused_cycle, cycled, cycle_answer, cycle_part};
ghost use Rattle.station.specs.Inner.{told};

use super::{CycleDone, Cycled, Refusal, Sent};
use drive::{Input, Motion, N2, Output};

// What a cycle is given, with the axis's parameters. The flags are taken apart as `input_of` of specs/ says it.
fn input_of(part: &[u8], sent: Sent) -> Input
    ensures { result ≡ input_of sent part.now }
{
    Input {
        standstill: sent.flags % 2 == 1,
        warning: sent.flags / 2 % 2 == 1,
        stw1: sent.stw1,
        nsoll: N2(sent.nsoll),
        nist: N2(sent.nist),
        fault: sent.fault,
        reference: codes::word_at(part, catalogue::AT_10111 as usize),
        window: codes::word_at(part, catalogue::AT_30002 as usize),
        threshold: codes::word_at(part, catalogue::AT_30003 as usize),
    }
}

fn answered(output: Output) -> CycleDone
    ensures { result ≡ cycled output }
{
    let told = Cycled {
        rpm: output.speed.0,
        status: output.status,
        state: u8::from(output.state),
        number: 0,
    };
    CycleDone {
        told,
        acknowledged: output.acknowledged,
        entered: output.entered,
    }
}

// A cycle that leaves the faults as they are, and so neither loads nor stores them. `faulted`: situation 0 is not empty.
fn quiet_cycle(part: &mut [u8], motion: Motion, faulted: bool, input: Input) -> CycleDone
    ensures value { result ≡ cycled (moved_of motion faulted false input).output }
    ensures part_after { part.new ≡ put_motion (moved_of motion faulted false input).motion part.old }
{
    let moved = drive::move_on(motion, faulted, false, input);
    part::store_motion(part, moved.motion);
    answered(moved.output)
}

// A cycle of the axis k.
#[tactic(auto, unfolding(crate::specs::Cycle::cycle_refusal, crate::specs::Cycle::cycle_answer, crate::specs::Cycle::cycle_part))]
pub(crate) fn cycle_on(part: &mut [u8], k: u8, sent: Sent) -> Result<CycleDone, Refusal>
    ensures value { told refused_cycle result ≡ cycle_answer k sent part.old }
    ensures part_after { part.new ≡ cycle_part k sent part.old }
{
    if !part::well_formed(part, k) {
        return Err(Refusal::NotWellFormed);
    }
    if 3 < sent.flags {
        return Err(Refusal::UnknownFlags);
    }
    let input = input_of(part, sent);
    let motion = part::load_motion(part);
    let empty = part::has_no_fault(part);
    if drive::is_quiet(motion.word, empty, input) { // as nearly every cycle is
        return Ok(quiet_cycle(part, motion, !empty, input));
    }
    let before = drive::with_faults(motion, part::load_faults(part));
    let done = drive::cycle_lent(before, input);
    part::store(part, done.drive);
    Ok(answered(done.output))
}
