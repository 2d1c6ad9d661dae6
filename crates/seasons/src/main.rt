// Records counted over given totals, where no journal is long enough to bring them: each of a farm's ten counts to 2^64 - 1, and to 2^64.
#![tactic(auto)]

use season::{COUNTS, EACH, Stop};
use std::io;

type Station = [u8; station::STATION];

type Totals = [u64; COUNTS];

// A record of a cycle.
fn cycle(axis: u8, stw1: u16, fault: u8) -> [u8; 11] {
    let [high, low] = stw1.to_be_bytes();
    [1, axis, 0, high, low, 0, 0, 0, 0, 0, fault]
}

// Farm 1's record of a write that sends marks 1000 and 2000 to an axis.
fn marks(axis: u8) -> [u8; 247] {
    let write =
        b"\x02\x01\x14\x5F\x00\x2F\x10\x07\x02\x01\x01\x10\x02\x75\x31\x00\x00\x42\x02\x03\xE8\x07\xD0";
    let mut record = [0; 247];
    record[..write.len()].copy_from_slice(write);
    record[9] = axis;
    record
}

fn fresh() -> Station {
    let mut memory = [0; station::STATION];
    station::fresh(&mut memory).unwrap();
    memory
}

// Farm 1's record of a going back to version 1.
fn back() -> [u8; 4] {
    [4, 1, 0, 1]
}

// A station after a record.
fn played(mut memory: Station, record: &[u8]) -> Station {
    journal::act(&mut memory, record);
    memory
}

// A station after a cycle of axis 1.
fn after(memory: Station, stw1: u16, fault: u8) -> Station {
    played(memory, &cycle(1, stw1, fault))
}

// All counts 0 but farm 1's in one place, which is so many below 2^64.
fn all_but(place: usize, below: u64) -> Totals {
    let mut totals = [0; COUNTS];
    if place < EACH {
        totals[place] = below.wrapping_neg();
    }
    totals
}

// Every count of every farm but the first one as high as it goes.
fn others_full() -> Totals {
    let mut totals = [u64::MAX; COUNTS];
    totals[..EACH].fill(0);
    totals
}

fn print_turn(rt: &impl Print, turn: Result<(), Stop>) -> io::Result<()> {
    match turn {
        Ok(()) => rt.print(": counted:"),
        Err(Stop::Bad) => rt.print(": bad:"),
        Err(Stop::Over) => rt.print(": x 13:"),
    }
}

// Counts a record and prints how that came out, and farm 1's counts after it. What is lent and what is printed stand one by one, each said once
// at the call.
fn count(
    rt: &impl Print,
    label: &str,
    mut memory: Station,
    record: &[u8],
    mut totals: Totals,
) -> io::Result<()> {
    let turn = season::step(&mut memory, record, &mut totals);
    rt.print(label)?;
    print_turn(rt, turn)?;
    for total in &totals[..EACH] {
        print!(rt; " {total}")?;
    }
    rt.print("\n")
}

// Counts a record that adds so many in a place of farm 1: where that comes to 2^64 - 1, and where it comes to 2^64.
fn both(
    rt: &impl Print,
    label: &str,
    memory: Station,
    record: &[u8],
    place: usize,
    adds: u8,
) -> io::Result<()> {
    let adds = u64::from(adds);
    for (end, below) in [(" to 2^64 - 1", adds + 1), (" to 2^64", adds)] {
        rt.print(label)?;
        count(rt, end, memory, record, all_but(place, below))?;
    }
    Ok(())
}

// A cycle that ends in each state. The one that ends in S4 enters it.
fn states(rt: &impl Print, memory: Station, ready: Station, running: Station) -> io::Result<()> {
    for (place, label, before, stw1) in [
        (0, "S1", &memory, 0x0000),
        (1, "S2", &memory, 0x047E),
        (2, "S3", &running, 0x0477),
        (3, "S4", &ready, 0x047F),
        (4, "S51", &running, 0x047E),
        (5, "S52", &running, 0x047B),
    ] {
        both(rt, label, *before, &cycle(1, stw1, 0), place, 1)?;
    }
    Ok(())
}

// An entry into S4; an acknowledge, which ends in S2; frames; and a going back.
fn others(rt: &impl Print, memory: Station, ready: Station) -> io::Result<()> {
    both(rt, "entries", ready, &cycle(1, 0x047F, 0), 6, 1)?;
    let faulted = after(memory, 0x047E, 5);
    both(rt, "acknowledged", faulted, &cycle(1, 0x04FE, 0), 7, 1)?;
    both(rt, "denied", memory, &marks(2), 8, 1)?;
    both(rt, "stored", memory, &marks(1), 9, 2)?;
    let changed = played(memory, &marks(1));
    both(rt, "stored by going back", changed, &back(), 9, 18)
}

// Counts that a record does not add to stand in no one's way.
fn unmoved(rt: &impl Print, memory: Station, ready: Station) -> io::Result<()> {
    let enters = cycle(1, 0x047F, 0);
    count(rt, "S4, S1 full", ready, &enters, all_but(0, 1))?;
    count(rt, "S4, other farms full", ready, &enters, others_full())?;
    let full = [u64::MAX; COUNTS];
    count(rt, "axis 17, all full", memory, &cycle(17, 0x047E, 0), full)?;
    count(rt, "version 1 not kept, all full", memory, &back(), full)?;
    count(rt, "no record, all full", memory, b"\x03", full)
}

fn main(rt: HostRuntime) -> io::Result<()> {
    let memory = fresh();
    let ready = after(after(memory, 0x047E, 0), 0x047F, 0);
    let running = after(ready, 0x047F, 0);
    states(&rt, memory, ready, running)?;
    others(&rt, memory, ready)?;
    unmoved(&rt, memory, ready)
}
