// Voltages, exact: no figure of the microvolts is lost.
use std::fmt;
use thresholds::ResultCode;

#[derive(Clone, Copy, PartialEq, Eq, PartialOrd, Ord)]
pub(crate) struct Microvolts(pub u64);

impl Microvolts {
    // No voltage of this program is below 0 V.
    pub(crate) fn of_result(code: ResultCode) -> Microvolts {
        Microvolts(u64::try_from(readings::microvolts_of(code)).unwrap_or(0))
    }

    pub(crate) fn of_cell(code: i16) -> Microvolts {
        Microvolts::of_result(ResultCode(code.into()))
    }

    // No total of this program comes near the largest number.
    pub(crate) fn plus(self, other: Microvolts) -> Microvolts {
        Microvolts(self.0.saturating_add(other.0))
    }

    // The nearest volts of 64 bits. A pack has far fewer microvolts than 32 bits hold.
    pub(crate) fn volts(self) -> f64 {
        f64::from(u32::try_from(self.0).unwrap_or(u32::MAX)) / 1_000_000.0
    }
}

// `night` prints hundredths of a volt and `spikes` tenths of a millivolt: a function of a library needs a promise and its line in the first demand.
impl fmt::Display for Microvolts {
    fn fmt<W: fmt::Write>(&self, f: &mut fmt::Formatter<W>) -> fmt::Result {
        write!(f, "{}.{:06} V", self.0 / 1_000_000, self.0 % 1_000_000)
    }
}
