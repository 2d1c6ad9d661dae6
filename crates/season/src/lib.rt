// A season report over a journal: ten counts for each farm, and the text of them.
#![tactic(auto)]

ghost use Rattle.std.specs.Prelude.{◌≡◌};
ghost use Rattle.journal.specs.Line.{record_after};
ghost use Rattle.season.specs.Season.{step_of};

use journal::Acted;

mod report; // report.rt: the text
mod totals; // totals.rt: what a record counts, added to the totals

pub use report::put_report;

// Why a record, and so a report, ended without being counted.
#[derive(Clone, Copy, Debug, PartialEq, Eq)]
pub enum Stop {
    // no record
    Bad,
    // number 13: a count would reach 2^64
    Over,
}

// The counts of one farm.
pub const EACH: usize = 10;

// Those of all farms.
pub const COUNTS: usize = station::FARMS * EACH;

// Room for any report: 16 lines of `r`, eleven numbers of at most 20 digits, each after a space, and the line's end; then `x 13`.
pub const TEXT: usize = 3733;

// Plays a record on the station and counts what it did. Number 13 leaves the totals as they were; the station is as the record left it.
pub fn step(station: &mut [u8], bytes: &[u8], totals: &mut [u64; COUNTS]) -> Result<(), Stop>
    ensures value { result ≡ (step_of bytes.now station.old totals.old).last }
    ensures totals_after { totals.new ≡ (step_of bytes.now station.old totals.old).totals }
    ensures station_after { station.new ≡ record_after bytes.now station.old }
{
    match journal::act(station, bytes) {
        Some(Acted::Cycle(axis, c)) => totals::add(totals, axis, &totals::of_cycle(c)),
        Some(Acted::Frame(farm, f)) => totals::add(totals, farm, &totals::of_frame(f)),
        Some(Acted::Return(farm, r)) => totals::add(totals, farm, &totals::of_return(r)),
        None => Err(Stop::Bad),
    }
}
