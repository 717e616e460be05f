// Shows the chain at its limits by running it: each line says what was tried and what came back. What is expected stands in
// the program beside each case, worked out from the paper and not from the chain. Each frame goes through both engines, and where they do not come
// to the same it is not as expected.
#![tactic(auto)]

mod beat_refusals;
mod beats;
mod begun;
mod bench;
mod buffers;
mod bursts;
mod case;
mod cases;
mod choices;
mod clearing;
mod codes;
mod commands;
mod comparing;
mod counters;
mod damage;
mod deeds;
mod engines;
mod frames;
mod held;
mod hosts;
mod loading;
mod longest;
mod lpcm;
mod masked;
mod measured;
mod operations;
mod order;
mod outputs;
mod packs;
mod payloads;
mod questions;
mod said;
mod say;
mod snapshots;
mod soundness;
mod starts;
mod storing;
mod tables;
mod tally;
mod turns;
mod verdicts;
mod volts;
mod wholes;

use case::Case;
use said::ToItsEnd;
use std::io;
use tally::Tally;

// Each case has a line of its own.
fn lines<R: Print, C: Case>(rt: &R, tally: &mut Tally, all: &[C]) -> io::Result<()> {
    for case in all {
        let right = case.tried(rt)?;
        tally.end_line(rt, right)?;
    }
    Ok(())
}

// Cases under a heading.
fn section<R: Print, C: Case>(
    rt: &R,
    tally: &mut Tally,
    heading: &str,
    all: &[C],
) -> io::Result<()> {
    println!(rt; "{heading}")?;
    lines(rt, tally, all)
}

// The sizes of a table, and each command.
fn try_commands<R: Print>(rt: &R, tally: &mut Tally) -> io::Result<()> {
    section(rt, tally, "tables", &tables::TABLES)?;
    lines(rt, tally, &soundness::CASES)?;
    section(rt, tally, "room for a reply", &tables::ROOM)?;
    section(rt, tally, "each command, on two monitors", &commands::CASES)?;
    section(
        rt,
        tally,
        "snapshots; monitor 1 is lent with one on",
        &snapshots::CASES,
    )?;
    section(
        rt,
        tally,
        "low power cell monitoring (LPCM); with CMF1 80 and 7f monitor 1 is in it by CMC_EN alone and monitor 2 has all the other bits, after ULRR",
        &lpcm::CASES,
    )?;
    section(
        rt,
        tally,
        "each of 32 monitors sent its own position",
        &longest::CASES,
    )
}

// What is refused, and what comes damaged.
fn try_refusals<R: Print>(rt: &R, tally: &mut Tally) -> io::Result<()> {
    section(
        rt,
        tally,
        "refusals of a frame, in their order",
        &order::CASES,
    )?;
    lines(rt, tally, &order::NOT_REFUSED)?;
    section(
        rt,
        tally,
        "damaged payloads, after ULRR where nothing else is said",
        &damage::CASES,
    )?;
    section(
        rt,
        tally,
        "spikes, after ULRR: of the bits hit, all in a row, the first and the last at least are turned over",
        &bursts::CASES,
    )?;
    section(rt, tally, "counters of 62 and 63", &counters::CASES)
}

// What is done to codes.
fn try_codes<R: Print>(rt: &R, tally: &mut Tally) -> io::Result<()> {
    section(rt, tally, "loads", &loading::CASES)?;
    lines(rt, tally, &clearing::CASES)?;
    section(rt, tally, "stores", &storing::CASES)?;
    section(rt, tally, "compares", &comparing::CASES)
}

// Which discharge outputs are on.
fn try_outputs<R: Print>(rt: &R, tally: &mut Tally) -> io::Result<()> {
    section(rt, tally, "discharge outputs", &outputs::CASES)
}

// One operation of a heartbeat.
fn try_operations<R: Print>(rt: &R, tally: &mut Tally) -> io::Result<()> {
    section(
        rt,
        tally,
        "heartbeats: refusals of each operation, in their order; monitors of 0 after CMEN, the last of them the manager",
        &beat_refusals::CASES,
    )?;
    section(
        rt,
        tally,
        "heartbeats: wakes, relays, and the time that runs out; the manager sends towards port A where nothing else is said",
        &turns::CASES,
    )
}

// Whole heartbeats. A function takes a few of the long lists at most, since each makes its check longer.
fn try_heartbeats<R: Print>(rt: &R, tally: &mut Tally) -> io::Result<()> {
    section(
        rt,
        tally,
        "whole heartbeats; monitor 1 has the limits, at its cell 1 where no other is named",
        &wholes::CASES,
    )?;
    lines(rt, tally, &measured::CASES)
}

// The rest of them, and the host's verdicts.
fn try_verdicts<R: Print>(rt: &R, tally: &mut Tally) -> io::Result<()> {
    lines(rt, tally, &masked::CASES)?;
    section(rt, tally, "verdicts", &verdicts::CASES)
}

// What our host builds, and what it makes of what comes back.
fn try_host<R: Print>(rt: &R, tally: &mut Tally) -> io::Result<()> {
    section(rt, tally, "frames of our host", &hosts::CASES)?;
    section(rt, tally, "checks of one payload", &payloads::CASES)?;
    section(rt, tally, "two ports", &choices::CASES)?;
    section(
        rt,
        tally,
        "voltages, with the bits of the f64",
        &volts::CASES,
    )?;
    lines(rt, tally, &packs::CASES)
}

fn all<R: Print>(rt: &R) -> io::Result<()> {
    let mut tally = Tally { lines: 0, right: 0 };
    try_commands(rt, &mut tally)?;
    try_refusals(rt, &mut tally)?;
    try_codes(rt, &mut tally)?;
    try_outputs(rt, &mut tally)?;
    try_operations(rt, &mut tally)?;
    try_heartbeats(rt, &mut tally)?;
    try_verdicts(rt, &mut tally)?;
    try_host(rt, &mut tally)?;
    println!(rt; "lines: {}, as expected: {}", tally.lines, tally.right)
}

// A write that fails shows as output that is missing.
fn main(rt: HostRuntime) {
    let _ = all(&ToItsEnd { by: &rt });
}
