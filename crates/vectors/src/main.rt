// Compares the functions of the crates check_words and remainders with check words from outside, and says how many were right. The words come
// on standard input; tools/make-vectors makes that file, and describes it.
#![tactic(auto)]

mod commands;
mod count;
mod data;
mod file;
mod payloads;
mod said;
mod strings;

use crate::commands::{Commands, Compared};
use crate::data::Kind;
use crate::file::{File, MOST_BYTES, Stop};
use crate::payloads::Payloads;
use crate::said::ToItsEnd;
use crate::strings::Strings;
use arrayvec::ArrayVec;
use std::io;
use std::io::Read;

// Each part starts where the one before it ended, so where the file ends early there is nothing more to go by.
fn report(rt: &impl Print, file: &mut File) -> Result<(), Stop> {
    let mut strings = Strings::default();
    let whole = strings.compare_all(file);
    println!(rt; "{strings}")?;
    whole?;
    let mut payloads = Payloads::default();
    let whole = payloads.compare_all(Kind::Payload, file);
    println!(rt; "payloads: {payloads}")?;
    whole?;
    let mut pairs = Payloads::default();
    let whole = pairs.compare_all(Kind::Pair, file);
    println!(rt; "pairs: {pairs}")?;
    whole?;
    let expected = file.u64()?;
    let commands = Commands::all();
    println!(rt; "{}", Compared { commands, expected })?;
    if file.is_at_end() {
        println!(rt; "file: read to its end, no bytes left over")?;
    } else {
        println!(rt; "file: has bytes left over")?;
    }
    Ok(())
}

// One byte more than is looked at: where it comes too, the input is longer.
const ROOM: usize = MOST_BYTES + 1;

// The input up to its end, or as much of it as there is room for. A read that fails is its end.
fn read(input: &impl Input, bytes: &mut ArrayVec<u8, ROOM>) {
    let mut reader = input.reader().take(ROOM as u64);
    let _ = io::copy(&mut reader, bytes);
}

fn run(rt: &impl Print, input: &impl Input) -> Result<(), Stop> {
    let mut bytes = ArrayVec::new();
    read(input, &mut bytes);
    if bytes.len() > MOST_BYTES {
        return Err(Stop::TooLong);
    }
    report(rt, &mut File::new(&bytes))
}

// The status is 0 also where a write has failed.
fn main(rt: HostRuntime) {
    let said = ToItsEnd { by: &rt };
    match run(&said, &rt) {
        Ok(()) | Err(Stop::Output(_)) => {}
        Err(stop) => {
            let _ = println!(said; "file: {stop}");
        }
    }
}
