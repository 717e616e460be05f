// What a spike on the wire can do. Every spike that the check words are to tell is tried on our host's frames for two monitors, through both
// engines; then one of each kind that is longer, and gets through. What is expected is worked out from the paper, in due.rt, and not by the
// chain.
#![tactic(auto)]

mod bench;
mod due;
mod said;
mod shown;
mod spike;
mod tally;

use crate::bench::{Command, Engine, Frame, Outcome, Table, built, muted_in, start};
use crate::due::{Trial, due_of_mute};
use crate::said::ToItsEnd;
use crate::shown::{NearMonitor, OnTheWire};
use crate::spike::Spike;
use crate::tally::{Tally, is_wrong};
use records::{CONFIGURATION_B, RETENTION};
use std::io;

// The thresholds of the near monitor and of the far one, and a DCC bit of the latter.
const THRESHOLDS: [u8; 12] = *b"\xfa\xb0\x36\x00\x00\x00\xf4\x51\x46\x00\x00\x10";

// The licence numbers.
const LICENCES: [u8; 12] = *b"L40117L40118";

// The polynomial of a data check, 100 1000 1111, from the second bit on of the upper byte of the near monitor's over-voltage threshold.
const ELEVEN_PLACES: Spike = Spike {
    place: 14 * 8 + 1,
    bits: 0b1001_0001_1110_0000,
};

// The polynomial of a command check, 1100 0101 1001 1001, over the last sixteen of the 31 bits of a command and its check.
const SIXTEEN_PLACES: Spike = Spike {
    place: 15,
    bits: 0b1100_0101_1001_1001,
};

// A frame as it came, and how many took it. How many outcomes are not as expected?
fn show(
    rt: &impl Print,
    name: &str,
    before: &Table,
    frame: &[u8],
    due: &Outcome,
) -> io::Result<u64> {
    let after = Engine::WholeFrame.handle(before, frame);
    let wire = OnTheWire(frame);
    print!(rt; "  {name}{wire} | taken by {} of 2 monitors", after.taken())?;
    Ok(u64::from(is_wrong(before, frame, &after, due)))
}

// Spikes on the write of configuration B, whose checks tell.
fn configuration_b(rt: &impl Print, trial: &Trial) -> io::Result<u64> {
    println!(rt; "Our host writes configuration B, the far monitor's payload first.")?;
    let wrong = show(
        rt,
        "WRCFGB",
        &trial.before,
        &trial.sent,
        &trial.due_as_sent(),
    )?;
    let tally = Tally::of(trial, 32, 160, 10);
    println!(rt;
        "\n\nBehind the command, within 10 places: {} spikes",
        tally.spikes
    )?;
    println!(rt; "  far payload alone: {}", tally.far_alone)?;
    println!(rt; "  near payload alone: {}", tally.near_alone)?;
    println!(rt; "  both, over the border: {}", tally.both)?;
    println!(rt;
        "  payloads hit: {}, of which {} were taken",
        tally.payloads, tally.payloads_taken
    )?;
    println!(rt;
        "  not as expected: {}\n\
        Expected: a monitor whose payload was hit keeps its record, counter included, and only locks its retention again;\n\
        one whose payload was not hit does as without the spike.\n",
        tally.wrong
    )?;
    Ok(wrong.saturating_add(tally.wrong))
}

// Spikes on the same frame's command.
fn command(rt: &impl Print, trial: &Trial) -> io::Result<u64> {
    let tally = Tally::of(trial, 0, 32, 15);
    println!(rt;
        "In the command, its check and the 0 after that, within 15 places: {} spikes",
        tally.spikes
    )?;
    println!(rt; "  refused with 3: {}", tally.refused_with_3)?;
    println!(rt;
        "  not as expected: {}\n\
        Expected: refused with 3, command PEC wrong, and nothing changes, not even a lock.\n",
        tally.wrong
    )?;
    Ok(tally.wrong)
}

// Spikes on the write that is carried out whatever the check of a payload.
fn retention(rt: &impl Print, trial: &Trial) -> io::Result<u64> {
    println!(rt; "Our host writes the retention, which both monitors have unlocked.")?;
    let wrong = show(rt, "WRRR", &trial.before, &trial.sent, &trial.due_as_sent())?;
    let tally = Tally::of(trial, 32, 160, 10);
    println!(rt;
        "\n\nBehind the command, within 10 places: {} spikes",
        tally.spikes
    )?;
    println!(rt; "  taken by 2 of 2 monitors: {}", tally.taken_by_both)?;
    println!(rt;
        "  six bytes stored that were not sent: {}",
        tally.not_as_sent
    )?;
    println!(rt;
        "  not as expected: {}\n\
        Expected: WRRR is carried out whatever its check says, so each monitor stores its six bytes as they came, and counts.\n\
        Neither the answer nor the counter tells: read the retention back by RDRR, and compare it with what was written.\n",
        tally.wrong
    )?;
    Ok(wrong.saturating_add(tally.wrong))
}

// The spike that the check of a payload does not tell, beside the frame as it was sent.
fn eleven(rt: &impl Print, trial: &Trial) -> io::Result<u64> {
    let came = ELEVEN_PLACES.strike(&trial.sent);
    println!(rt;
        "One place more, and a spike may get through untold: read back what matters.\n\
        11 places, on the near payload: its over-voltage threshold moves."
    )?;
    let wrong = show(rt, "WRCFGB", &trial.before, &came, &trial.due_untold(&came))?;
    let as_sent = Engine::WholeFrame.handle(&trial.before, &trial.sent);
    let struck = Engine::WholeFrame.handle(&trial.before, &came);
    println!(rt; "\n  near monitor before:  {}", NearMonitor(&trial.before))?;
    println!(rt; "  near monitor, as sent:{}", NearMonitor(&as_sent.table))?;
    println!(rt; "  near monitor, struck: {}", NearMonitor(&struck.table))?;
    Ok(wrong)
}

// A bare command as it came, and how many monitors are muted after it.
fn show_bare(
    rt: &impl Print,
    name: &str,
    before: &Table,
    frame: &Frame,
    due: &Outcome,
) -> io::Result<u64> {
    let bare = &frame[..4];
    let wrong = show(rt, name, before, bare, due)?;
    let muted = muted_in(&Engine::WholeFrame.handle(before, bare).table);
    println!(rt; " | muted: {muted} of 2")?;
    Ok(wrong)
}

// The spike that the check of a command does not tell, after MUTE as it was sent.
fn sixteen(rt: &impl Print, before: &Table) -> io::Result<u64> {
    println!(rt; "16 places, on a command: a MUTE comes as UNMUTE.")?;
    let mute = built(Command::Mute, b"");
    let came = SIXTEEN_PLACES.strike(&mute);
    let muted = due_of_mute(before, true);
    let unmuted = due_of_mute(&muted.table, false);
    let wrong = show_bare(rt, "MUTE        ", before, &mute, &muted)?;
    let again = show_bare(rt, "MUTE, struck", &muted.table, &came, &unmuted)?;
    Ok(wrong.saturating_add(again))
}

fn head(rt: &impl Print) -> io::Result<()> {
    println!(rt;
        "Spikes on the wire: how far the check words go, on a chain of two monitors.\n\
        A spike turns over at least one bit of a frame, and all that it turns over lie within so many places in a row.\n\
        Each is tried once, from the same two records, by the engine that takes a frame whole and by the one that clocks it a byte at a time.\n"
    )
}

fn run(rt: &impl Print) -> io::Result<()> {
    let before = start();
    let thresholds = Trial {
        before,
        sent: built(Command::WriteConfigurationB, &THRESHOLDS),
        at: CONFIGURATION_B,
        needs_check: true,
    };
    let licences = Trial {
        before,
        sent: built(Command::WriteRetention, &LICENCES),
        at: RETENTION,
        needs_check: false,
    };
    head(rt)?;
    let wrong = [
        configuration_b(rt, &thresholds)?,
        command(rt, &thresholds)?,
        retention(rt, &licences)?,
        eleven(rt, &thresholds)?,
        sixteen(rt, &before)?,
    ];
    let wrong = wrong.into_iter().fold(0, u64::saturating_add);
    if wrong == 0 {
        println!(rt; "\nAll as it should be: {wrong} outcomes were not as expected.")
    } else {
        println!(rt; "\nNOT as it should be: {wrong} outcomes were not as expected, see above.")
    }
}

// The status is 0 also where a write has failed.
fn main(rt: HostRuntime) {
    let _ = run(&ToItsEnd { by: &rt });
}
