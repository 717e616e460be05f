// A step of the plan: what is done at it, and is it as expected?

use crate::cabinet::Cabinet;
use crate::commands::Command;
use crate::halves::Half;
use crate::outputs::{Output, Outputs, Row};
use crate::plan::{DUTIES, Deed, Question, Step};
use crate::portal;
use std::{fmt, io};

pub(crate) fn take(rt: &impl Print, cabinet: &mut Cabinet, step: &Step) -> io::Result<bool> {
    print!(rt; "{}", step.says)?;
    match &step.does {
        Deed::Send { command, values } => send(rt, cabinet, *command, values),
        Deed::Ask(question) => {
            let near = ask(rt, cabinet, Half::Near, question)?;
            let far = ask(rt, cabinet, Half::Far, question)?;
            Ok(near && far)
        }
    }
}

// A frame is sent and shown. Did both monitors take it?
fn send(
    rt: &impl Print,
    cabinet: &mut Cabinet,
    command: Command,
    values: &[u8],
) -> io::Result<bool> {
    print!(rt; "\n  {command}")?;
    if let Ok((frame, taken)) = cabinet.send(command, values) {
        print!(rt; "{frame} | taken by {taken} of 2 monitors")?;
        if taken == 2 {
            return Ok(true);
        }
    }
    print!(rt; " | NOT taken by both")?;
    Ok(false)
}

fn ask(
    rt: &impl Print,
    cabinet: &mut Cabinet,
    half: Half,
    question: &Question,
) -> io::Result<bool> {
    print!(rt; "\n  {half}")?;
    match question {
        Question::Outputs {
            events,
            phase,
            expected,
        } => {
            let outputs = cabinet.outputs(half, *events, *phase);
            if let Some(outputs) = &outputs {
                show_rows(rt, outputs)?;
            }
            compare(rt, outputs, *expected.of(half))
        }
        Question::Phases { expected } => {
            let phases = cabinet.phases_on(half);
            print!(rt; " | duties{} | phases on{phases}", DUTIES.of(half))?;
            compare(rt, Some(phases), *expected.of(half))
        }
        Question::Portal { expected } => {
            let outputs = portal::look(rt, cabinet, half)?;
            compare(rt, outputs, *expected.of(half))
        }
    }
}

// Did that come which is expected? `night` asks it too: a function of a library needs a promise and its line in the first demand.
fn compare<T: Copy + PartialEq + fmt::Display>(
    rt: &impl Print,
    came: Option<T>,
    expected: T,
) -> io::Result<bool> {
    let right = came == Some(expected);
    if !right {
        print!(rt; " | NOT as expected, which is{expected}")?;
    }
    Ok(right)
}

// The cells of each row that decided, those that are on first.
fn show_rows(rt: &impl Print, outputs: &Outputs) -> io::Result<()> {
    for row in Row::FROM_THE_TOP {
        show_cells(rt, outputs, Output::On(row))?;
    }
    for row in Row::FROM_THE_TOP {
        show_cells(rt, outputs, Output::Off(row))?;
    }
    Ok(())
}

// The cells that have an output, if any. Of cells that follow each other the first and the last are named.
fn show_cells(rt: &impl Print, outputs: &Outputs, output: Output) -> io::Result<()> {
    if !outputs.0.contains(&output) {
        return Ok(());
    }
    print!(rt; " | {output}:")?;
    for run in outputs.by_cells().chunk_by(|a, b| a.1 == b.1) {
        match run {
            [(cell, own)] if *own == output => print!(rt; " {cell}")?,
            [(first, own), .., (last, _)] if *own == output => print!(rt; " {first}-{last}")?,
            _ => {}
        }
    }
    Ok(())
}
