// What the licence portal sees of a half.

use crate::cabinet::Cabinet;
use crate::commands::Command;
use crate::fifteenths::Fifteenths;
use crate::halves::Half;
use crate::outputs::Outputs;
use crate::plan::{DUTIES, MUTED, QUIET, RUNNING};
use std::{fmt, io};

// What is to be said of a half.
#[derive(Clone, Copy, Debug, PartialEq, Eq)]
enum Verdict {
    Running,
    Muted,
    OtherOutputs,
    OtherDuties,
    NotRead,
}

impl fmt::Display for Verdict {
    fn fmt<W: fmt::Write>(&self, f: &mut fmt::Formatter<W>) -> fmt::Result {
        f.write_str(match self {
            Verdict::Running => "balancing runs as ordered",
            Verdict::Muted => "muted, no cell discharges",
            Verdict::OtherOutputs => "outputs NOT as ordered",
            Verdict::OtherDuties => "duties NOT as ordered",
            Verdict::NotRead => "NOT read, a reply is damaged or a command was missed",
        })
    }
}

// By what it replies of PWM groups A and B, and its outputs. The last four bytes of group B are fixed.
fn verdict_on(
    half: Half,
    a: Option<[u8; 6]>,
    b: Option<[u8; 6]>,
    outputs: Option<Outputs>,
) -> Verdict {
    let (Some(a), Some(b)) = (a, b) else {
        return Verdict::NotRead;
    };
    if Fifteenths::of_groups(a, b) != *DUTIES.of(half) || !b.ends_with(&[0xff; 4]) {
        return Verdict::OtherDuties;
    }
    if outputs == Some(*RUNNING.of(half)) {
        return Verdict::Running;
    }
    if outputs == Some(*MUTED.of(half)) {
        return Verdict::Muted;
    }
    Verdict::OtherOutputs
}

// The duties and the outputs are shown, and what is to be said of them. The outputs are handed back where the duties are those ordered.
pub(crate) fn look(
    rt: &impl Print,
    cabinet: &mut Cabinet,
    half: Half,
) -> io::Result<Option<Outputs>> {
    let a = cabinet.read(Command::ReadPwmA, half);
    let b = cabinet.read(Command::ReadPwmB, half);
    let duties = Fifteenths::of_groups(a.unwrap_or_default(), b.unwrap_or_default());
    print!(rt; " | duties{duties} | outputs")?;
    let outputs = cabinet.outputs(half, QUIET, 0);
    if let Some(outputs) = outputs {
        print!(rt; "{outputs}")?;
    }
    let verdict = verdict_on(half, a, b, outputs);
    print!(rt; " | {verdict}")?;
    match verdict {
        Verdict::Running | Verdict::Muted | Verdict::OtherOutputs => Ok(outputs),
        Verdict::OtherDuties | Verdict::NotRead => Ok(None),
    }
}
