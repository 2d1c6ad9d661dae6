// The worked cycles of document 01, and both sides of each limit of its control cycle: a line for each.
#![tactic(auto)]

use drive::faults::CODES;
use drive::{Drive, Faults, Input, N2, Output, Rpm};
use std::io;

// The state, ZSW1 and rpm, as a journal's line has them.
fn print_output(rt: &impl Print, output: Output) -> io::Result<()> {
    let Output { state, status, .. } = output;
    let Rpm(rpm) = output.speed;
    print!(rt; "{state} {status:04x} {rpm}")
}

// The fault counter, and the codes of the two newest situations.
fn print_faults(rt: &impl Print, faults: Faults) -> io::Result<()> {
    let counter = faults.counter;
    print!(rt; ", counter {counter}")?;
    for (n, situation) in faults.buffer.chunks_exact(CODES).take(2).enumerate() {
        print!(rt; ", situation {n}:")?;
        for code in situation {
            print!(rt; " {code}")?;
        }
    }
    Ok(())
}

// What a cycle is given, with fresh parameters.
fn input(stw1: u16, nsoll: i16, nist: i16, fault: u16) -> Input {
    Input {
        standstill: false,
        warning: false,
        stw1,
        nsoll: N2(nsoll),
        nist: N2(nist),
        fault,
        reference: 1500,
        window: 164,
        threshold: 16384,
    }
}

// A cycle, and what it answers.
fn answer(rt: &impl Print, label: &str, drive: Drive, input: Input) -> io::Result<Drive> {
    let end = drive::cycle_lent(drive, input);
    rt.print(label)?;
    print_output(rt, end.output)?;
    rt.print("\n")?;
    Ok(end.drive)
}

// A cycle, what it answers, and the faults after it: apart from `answer`, as they stand before the end of its line.
fn faults(rt: &impl Print, label: &str, drive: Drive, input: Input) -> io::Result<Drive> {
    let end = drive::cycle_lent(drive, input);
    rt.print(label)?;
    print_output(rt, end.output)?;
    print_faults(rt, end.drive.faults)?;
    rt.print("\n")?;
    Ok(end.drive)
}

// A cycle with a fault code that is not printed.
fn with_code(drive: Drive, fault: u16) -> Drive {
    drive::cycle_lent(drive, input(0x047E, 0, 0, fault)).drive
}

fn with_counter(drive: Drive, counter: u16) -> Drive {
    Drive {
        faults: Faults {
            counter,
            ..drive.faults
        },
        ..drive
    }
}

// Axis 1's cycles as a journal's lines. Answers the drive in S4, at half speed.
fn journal(rt: &impl Print, fresh: Drive) -> io::Result<Drive> {
    let ready = answer(rt, "c 1 ", fresh, input(0x047E, 0, 0, 0))?;
    let enabled = answer(rt, "c 1 ", ready, input(0x047F, 0, 0, 0))?;
    let running = answer(rt, "c 1 ", enabled, input(0x047F, 0x2000, 0, 0))?;
    answer(rt, "c 1 ", running, input(0x047D, 0, 0, 0))?;
    Ok(running)
}

fn speeds(rt: &impl Print) -> io::Result<()> {
    for figure in [16384, -16384, -1, 32767, -32768] {
        let Rpm(rpm) = drive::scale(N2(figure), 1500);
        println!(rt; "rpm of {figure} with 1500: {rpm}")?;
    }
    Ok(())
}

// Bits 8 and 10 of ZSW1, of an axis at rest.
fn limits(rt: &impl Print, fresh: Drive) -> io::Result<()> {
    for (label, stw1, nist) in [
        ("distance 164: ", 0x0400, 164),
        ("distance 165: ", 0x0400, 165),
        ("distance 164, backward: ", 0x0400, -164),
        ("distance 165, backward: ", 0x0400, -165),
        ("NIST_A 16383: ", 0x0400, 16383),
        ("NIST_A 16384: ", 0x0400, 16384),
        ("NIST_A -16383: ", 0x0400, -16383),
        ("NIST_A -16384: ", 0x0400, -16384),
        ("NIST_A -32768: ", 0x0400, -32768),
        ("047F in S1: ", 0x047F, 0),
        ("bit 10 at 0, fresh: ", 0x007E, 0),
    ] {
        answer(rt, label, fresh, input(stw1, 0, nist, 0))?;
    }
    Ok(())
}

// An axis in S4 that runs at half speed.
fn running(rt: &impl Print, drive: Drive) -> io::Result<()> {
    for (label, stw1, nsoll, nist) in [
        ("distance 164 in S4: ", 0x047F, 0x2000, 8028),
        ("distance 165 in S4: ", 0x047F, 0x2000, 8027),
        ("distance 65535 in S4: ", 0x047F, 32767, -32768),
        ("bit 10 at 0 in S4: ", 0x0000, 0x1000, 0),
        ("bit 10 at 1 in S4: ", 0x0400, 0x1000, 0),
        ("b5 at 0 in S4: ", 0x045F, 0x1000, 0),
    ] {
        answer(rt, label, drive, input(stw1, nsoll, nist, 0))?;
    }
    Ok(())
}

// Cycles one after the other.
fn acknowledges(rt: &impl Print, fresh: Drive) -> io::Result<()> {
    let mut drive = fresh;
    for (label, stw1, fault) in [
        ("a code: ", 0x047E, 7),
        ("the same code: ", 0x047E, 7),
        ("another code: ", 0x047E, 9),
        ("bit 7 rises beside a code: ", 0x04FE, 3),
        ("bit 7 held: ", 0x04FE, 0),
        ("bit 7 falls: ", 0x047E, 0),
        ("bit 7 rises with bit 10 at 0: ", 0x00FE, 0),
        ("bit 7 rises: ", 0x04FE, 0),
        ("bit 7 held beside a code: ", 0x04FE, 5),
        ("bit 7 still held: ", 0x04FE, 0),
    ] {
        drive = faults(rt, label, drive, input(stw1, 0, 0, fault))?;
    }
    Ok(())
}

// More codes than a situation holds.
fn ninth(rt: &impl Print, fresh: Drive) -> io::Result<()> {
    let seven = (1..=7).fold(fresh, with_code);
    let eight = faults(rt, "an eighth code: ", seven, input(0x047E, 0, 0, 8))?;
    faults(rt, "a ninth code: ", eight, input(0x047E, 0, 0, 9))?;
    Ok(())
}

fn counter(rt: &impl Print, fresh: Drive) -> io::Result<()> {
    let full = with_counter(fresh, u16::MAX);
    faults(
        rt,
        "a code at counter 65535: ",
        full,
        input(0x047E, 0, 0, 7),
    )?;
    let full = with_counter(with_code(fresh, 7), u16::MAX);
    let acknowledge = input(0x04FE, 0, 0, 0);
    faults(rt, "an acknowledge at counter 65535: ", full, acknowledge)?;
    Ok(())
}

fn main(rt: HostRuntime) -> io::Result<()> {
    let fresh = drive::fresh();
    let half_speed = journal(&rt, fresh)?;
    speeds(&rt)?;
    limits(&rt, fresh)?;
    running(&rt, half_speed)?;
    acknowledges(&rt, fresh)?;
    ninth(&rt, fresh)?;
    counter(&rt, fresh)
}
