// The thresholds of a monitor, and the flags of a cell.
use crate::microvolts::Microvolts;
use std::fmt;

#[derive(Clone, Copy, PartialEq, Eq)]
pub(crate) struct Limits {
    pub under: Microvolts,
    pub over: Microvolts,
}

#[derive(Clone, Copy, PartialEq, Eq)]
pub(crate) struct Flags {
    pub under: bool,
    pub over: bool,
}

impl Limits {
    // The flags that a cell's voltage calls for.
    pub(crate) fn flags_due(&self, voltage: Microvolts) -> Flags {
        Flags {
            under: voltage < self.under,
            over: self.over < voltage,
        }
    }
}

impl Flags {
    // The two flags of a cell from the lowest bits of a byte, UV first.
    pub(crate) fn of_bits(bits: u8) -> Flags {
        Flags {
            under: bits & 1 != 0,
            over: bits & 2 != 0,
        }
    }

    pub(crate) fn any(&self) -> bool {
        self.under || self.over
    }
}

impl fmt::Display for Limits {
    fn fmt<W: fmt::Write>(&self, f: &mut fmt::Formatter<W>) -> fmt::Result {
        let under = self.under;
        let over = self.over;
        write!(f, "under-voltage below {under}, over-voltage above {over}")
    }
}

// Each flag that is up, with a space before it.
impl fmt::Display for Flags {
    fn fmt<W: fmt::Write>(&self, f: &mut fmt::Formatter<W>) -> fmt::Result {
        if self.under {
            write!(f, " under-voltage")?;
        }
        if self.over {
            write!(f, " over-voltage")?;
        }
        Ok(())
    }
}
