// Plays journals on a fresh station: from standard input, or from the files that the arguments name, one after the other, as
// one journal; `-` is standard input. A record does not go on from one file into the next. What is no record ends the run, and
// so does what cannot be read or written: it is named on standard error, where nothing else is said.
#![tactic(auto)]

mod arguments; // arguments.rt: the files that the arguments name
mod file; // file.rt: the records of a file
mod output; // output.rt: lines, collected and written
mod record; // record.rt: what is done with a record, and where the run ends
mod said; // said.rt: what is said on standard error
mod window; // window.rt: a file, read in pieces

use journal::LINE;
use output::Output;
use season::COUNTS;
use station::STATION;
use window::Window;

// What is done with the journals: a line is written for each record, or they are counted and the counts are written at the end.
// It is matched at two places, which is plainer than a trait that every method has a parameter for.
#[derive(Clone, Copy)]
pub enum Job {
    Replay,
    Report,
}

// Why the run ends before its journals do: at a record that was bad, or would bring a count to 2^64; or why is said on standard
// error already.
#[derive(Clone, Copy)]
enum Stop {
    At(season::Stop),
    Said,
}

impl From<season::Stop> for Stop {
    fn from(stop: season::Stop) -> Stop {
        Stop::At(stop)
    }
}

// A job, and what it is done with: the station that the journals are played on, the counts, the memory of a line, in which each is
// made so that none is cleared for each record, and what is read and written.
#[derive(Drop)]
struct Player {
    job: Job,
    station: [u8; STATION],
    totals: [u64; COUNTS],
    line: [u8; LINE],
    window: Window,
    output: Output,
}

// Does a job with the journals that the arguments name. It promises to be safe and to end, and no more: no contract can say what
// is read or written. What a record does to the station, its line and its counts are promised where it is worked, in `journal` and `season`.
pub fn run(rt: &HostRuntime, job: Job) {
    // It is made where it stays, and its parts in the place of their calls: handed over by a call it would stand on the stack twice.
    let mut player = Player {
        job,
        station: [0; STATION],
        totals: [0; COUNTS],
        line: [0; LINE],
        window: Window::new(),
        output: Output::new(),
    };
    station::fresh(&mut player.station).unwrap();
    let played = player.play_arguments(rt);
    player.finish(rt, played);
}
