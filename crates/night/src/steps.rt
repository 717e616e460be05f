// A step of the plan: what is done and said at it, and is it as expected?

use crate::cabinet::Cabinet;
use crate::commands::Command;
use crate::plan::Step;
use crate::{beats, read_back};
use std::{fmt, io};

pub(crate) fn take(rt: &impl Print, cabinet: &mut Cabinet, step: &Step) -> io::Result<bool> {
    match *step {
        Step::Send {
            command,
            values,
            taken,
        } => send(rt, cabinet, command, values, taken),
        Step::Read { command, expected } => read_back::halves(rt, cabinet, command, expected),
        Step::Judge { expected } => read_back::judge(rt, cabinet, expected),
        Step::Store { half, cell, code } => {
            print!(rt; "\n  {half}, cell {cell} at {code}")?;
            let stored = cabinet.store(half, cell, code);
            compare(rt, stored, Ok(()))
        }
        Step::Beat { expected } => {
            let message = cabinet.beat();
            beats::judge(rt, message, expected)
        }
        Step::Disturb {
            wire,
            field,
            expected,
        } => {
            let message = beats::disturb(rt, cabinet, wire, field)?;
            beats::judge(rt, message, expected)
        }
        Step::Sleep => {
            let message = cabinet.beat();
            beats::show(rt, "leaves the chain:", message)?;
            compare(rt, message, None)
        }
        Step::LoseSupply => {
            cabinet.lose_supply();
            Ok(true)
        }
        Step::TimeOut => {
            cabinet.time_out();
            Ok(true)
        }
    }
}

// A frame is sent and shown. Where both are to take it our host counts on; how many did take it no host is told.
fn send(
    rt: &impl Print,
    cabinet: &mut Cabinet,
    command: Command,
    values: &[u8],
    expected: usize,
) -> io::Result<bool> {
    print!(rt; "\n  {command}")?;
    let taken = match cabinet.send(command, values) {
        Ok((frame, taken)) => {
            print!(rt; "{frame} | taken by {taken} of 2 monitors")?;
            taken
        }
        Err(_) => 0,
    };
    if expected == 2 {
        cabinet.count();
    }
    compare(rt, taken, expected)
}

// Did that come which is expected? `balancing` asks it too: a function of a library needs a promise and its line in the first demand.
pub(crate) fn compare<T: Copy + PartialEq + fmt::Debug>(
    rt: &impl Print,
    came: T,
    expected: T,
) -> io::Result<bool> {
    let right = came == expected;
    if !right {
        print!(rt; "\n  NOT as expected, which is {expected:?}; it is {came:?}")?;
    }
    Ok(right)
}
