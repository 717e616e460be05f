// How what came is written.
use crate::bench::RECORD;
use chain::Answer;
use refusals::Refusal;
use std::fmt;

// Bytes in hexadecimal, a space before each.
#[derive(Clone, Copy)]
pub(crate) struct Bytes<'a>(pub &'a [u8]);

impl fmt::Display for Bytes<'_> {
    fn fmt<W: fmt::Write>(&self, f: &mut fmt::Formatter<W>) -> fmt::Result {
        for byte in self.0 {
            write!(f, " {byte:02x}")?;
        }
        Ok(())
    }
}

// The bytes of a record that have changed, as they are now: each run of them after its place.
#[derive(Clone, Copy)]
struct Change<'a> {
    before: &'a [u8],
    after: &'a [u8],
}

impl fmt::Display for Change<'_> {
    fn fmt<W: fmt::Write>(&self, f: &mut fmt::Formatter<W>) -> fmt::Result {
        let mut in_run = false;
        for (at, (before, after)) in self.before.iter().zip(self.after).enumerate() {
            let differs = before != after;
            if differs && !in_run {
                write!(f, " at {at}:")?;
            }
            if differs {
                write!(f, " {after:02x}")?;
            }
            in_run = differs;
        }
        Ok(())
    }
}

// What has changed in the first two records of a table.
#[derive(Clone, Copy)]
pub(crate) struct Changes<'a> {
    pub before: &'a [u8],
    pub after: &'a [u8],
}

impl fmt::Display for Changes<'_> {
    fn fmt<W: fmt::Write>(&self, f: &mut fmt::Formatter<W>) -> fmt::Result {
        let records = self.before.chunks(RECORD).zip(self.after.chunks(RECORD));
        for (monitor, (before, after)) in (1_u8..3).zip(records) {
            write!(f, "; monitor {monitor}")?;
            if before == after {
                write!(f, " as before")?;
            }
            let change = Change { before, after };
            write!(f, "{change}")?;
        }
        Ok(())
    }
}

// A refusal, by its number.
#[derive(Clone, Copy)]
pub(crate) struct Refused(pub Refusal);

impl fmt::Display for Refused {
    fn fmt<W: fmt::Write>(&self, f: &mut fmt::Formatter<W>) -> fmt::Result {
        let number = refusals::number_of(self.0);
        write!(f, ": refused {number}")
    }
}

// What came of a frame.
#[derive(Clone, Copy)]
pub(crate) struct Answered(pub Result<Answer, Refusal>);

impl fmt::Display for Answered {
    fn fmt<W: fmt::Write>(&self, f: &mut fmt::Formatter<W>) -> fmt::Result {
        match self.0 {
            Err(refusal) => write!(f, "{}", Refused(refusal)),
            Ok(Answer { taken, reply }) => write!(f, ": taken by {taken}, reply {reply}"),
        }
    }
}
