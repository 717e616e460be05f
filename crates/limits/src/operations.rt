// The operations of a heartbeat, and what may come of them.
use crate::buffers::{Buffer, holding, resize};
use crate::say::{Bytes, Refused};
use messages::Verdict;
use passing::{End, Relayed, TimedOut};
use refusals::Refusal;
use std::fmt;

// A message that is right.
pub(crate) const RIGHT: u64 = 0x0043_47b2_4300_0306;

#[derive(Clone, Copy, PartialEq)]
pub(crate) enum Operation {
    Wake,
    // Of a message that comes.
    Relay(u64),
    Heartbeat,
    TimeOut,
}

#[derive(Clone, Copy, PartialEq)]
pub(crate) enum Outcome {
    Nothing,
    Towards(End),
    SentOn,
    NoTimeoutMonitor,
    RanOut,
}

// So many bytes: those of a message, and ff past them.
pub(crate) fn message(eight: u64, size: usize) -> Buffer {
    let mut bytes = holding(&eight.to_be_bytes());
    resize(&mut bytes, size, 0xff);
    bytes
}

fn of_end(end: Option<End>) -> Outcome {
    match end {
        None => Outcome::Nothing,
        Some(end) => Outcome::Towards(end),
    }
}

fn of_relayed(relayed: Relayed) -> Outcome {
    match relayed {
        Relayed::Stopped => Outcome::Nothing,
        Relayed::SentOn => Outcome::SentOn,
    }
}

fn of_timed_out(timed_out: TimedOut) -> Outcome {
    match timed_out {
        TimedOut::NoTimeoutMonitor => Outcome::NoTimeoutMonitor,
        TimedOut::RanOut => Outcome::RanOut,
    }
}

impl Operation {
    // What is done at a position, with so much room for a message; to a relay so many bytes come.
    pub(crate) fn done(
        self,
        table: &mut [u8],
        position: usize,
        bytes: usize,
        out: &mut [u8],
    ) -> Result<Outcome, Refusal> {
        match self {
            Operation::Wake => passing::wake(table, position, out).map(of_end),
            Operation::Relay(eight) => {
                let come = message(eight, bytes);
                passing::relay(table, position, &come, out).map(of_relayed)
            }
            Operation::Heartbeat => passing::heartbeat(table, position, out).map(of_end),
            Operation::TimeOut => passing::time_out(table, position).map(of_timed_out),
        }
    }
}

impl fmt::Display for Outcome {
    fn fmt<W: fmt::Write>(&self, f: &mut fmt::Formatter<W>) -> fmt::Result {
        match self {
            Outcome::Nothing => write!(f, ": nothing sent"),
            Outcome::Towards(End::A) => write!(f, ": towards port A"),
            Outcome::Towards(End::B) => write!(f, ": towards port B"),
            Outcome::SentOn => write!(f, ": sent on"),
            Outcome::NoTimeoutMonitor => write!(f, ": no timeout monitor"),
            Outcome::RanOut => write!(f, ": ran out"),
        }
    }
}

// The host's verdict.
#[derive(Clone, Copy)]
pub(crate) struct Judged(pub Result<Verdict, Refusal>);

impl fmt::Display for Judged {
    fn fmt<W: fmt::Write>(&self, f: &mut fmt::Formatter<W>) -> fmt::Result {
        match self.0 {
            Err(refusal) => write!(f, "{}", Refused(refusal)),
            Ok(Verdict::Passed) => write!(f, ": passed"),
            Ok(Verdict::Failed { count, flags }) => write!(
                f,
                ": failed with {count:02x} {flags:02x}"
            ),
            Ok(Verdict::Damaged) => write!(f, ": damaged"),
            Ok(Verdict::TimedOut) => write!(f, ": timed out"),
        }
    }
}
