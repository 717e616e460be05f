// The six bytes of a register, and what they say where they are a monitor's flags.

use std::fmt;

// The kinds of violation, from the lowest bit on.
const KINDS: [&str; 8] = [
    "a cell is below its limit",
    "a cell is above its limit",
    "a cell fell too far since the last beat",
    "a cell rose too far since the last beat",
    "a GPIO is low",
    "a GPIO is high",
    "a GPIO fell",
    "a GPIO rose",
];

#[derive(Clone, Copy, Debug, PartialEq, Eq)]
pub(crate) struct Flags(pub(crate) u8);

impl fmt::Display for Flags {
    fn fmt<W: fmt::Write>(&self, f: &mut fmt::Formatter<W>) -> fmt::Result {
        for (bit, kind) in KINDS.iter().enumerate() {
            if self.0 >> bit & 1 == 1 {
                write!(f, "; {kind}")?;
            }
        }
        Ok(())
    }
}

// How the last heartbeat ended for a timeout monitor.
#[derive(Clone, Copy, Debug, PartialEq, Eq)]
pub(crate) enum Judgement {
    Passed,
    Failed,
    TimedOut,
    NoneYet,
}

impl fmt::Display for Judgement {
    fn fmt<W: fmt::Write>(&self, f: &mut fmt::Formatter<W>) -> fmt::Result {
        f.write_str(match self {
            Judgement::Passed => "PASSED. Nothing to do.",
            Judgement::Failed => "FAILED. Read the flags of both halves.",
            Judgement::TimedOut => {
                "TIMED OUT, no heartbeat came. Look at the far half and at the wire."
            }
            Judgement::NoneYet => "no heartbeat has passed yet. Wait for one.",
        })
    }
}

// Where they are a monitor's flags, the first has these, and the second whether it is in LPCM and how it judges.
#[derive(Clone, Copy, Debug, PartialEq, Eq)]
pub(crate) struct Register(pub(crate) [u8; 6]);

impl Register {
    pub(crate) fn flags(self) -> Flags {
        Flags(self.0[0])
    }

    pub(crate) fn is_in_lpcm(self) -> bool {
        self.0[1] & 0x80 != 0
    }

    pub(crate) fn judgement(self) -> Judgement {
        match self.0[1] & 3 {
            0 => Judgement::Passed,
            1 => Judgement::Failed,
            2 => Judgement::TimedOut,
            _ => Judgement::NoneYet,
        }
    }
}

impl fmt::Display for Register {
    fn fmt<W: fmt::Write>(&self, f: &mut fmt::Formatter<W>) -> fmt::Result {
        for byte in self.0 {
            write!(f, " {byte:02x}")?;
        }
        Ok(())
    }
}
