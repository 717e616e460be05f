// The two halves of the cabinet, and what was ordered for each. `night` and `balancing` have halves too: a function of a library needs a promise and its line in the first demand.
use crate::limits::Limits;
use crate::microvolts::Microvolts;
use std::fmt;

#[derive(Clone, Copy, PartialEq, Eq)]
pub(crate) enum Half {
    Near,
    Far,
}

// Whose thresholds a half holds.
#[derive(Clone, Copy, PartialEq, Eq)]
pub(crate) enum Owner {
    Own,
    Other,
    Neither,
}

impl Half {
    // The place of its monitor on the chain, counted from 1.
    pub(crate) fn monitor(self) -> usize {
        match self {
            Half::Near => 1,
            Half::Far => 2,
        }
    }

    fn other(self) -> Half {
        match self {
            Half::Near => Half::Far,
            Half::Far => Half::Near,
        }
    }

    // The thresholds ordered. The near half may fall to 2.1 V and rise to 3.6 V, the far half to 2.7 V and 4.2 V.
    pub(crate) fn ordered(self) -> Limits {
        match self {
            Half::Near => Limits {
                under: Microvolts(2_100_000),
                over: Microvolts(3_600_000),
            },
            Half::Far => Limits {
                under: Microvolts(2_700_000),
                over: Microvolts(4_200_000),
            },
        }
    }

    // The same as six bytes of configuration B: twelve bits for each threshold, the lower one first.
    pub(crate) fn configuration_b(self) -> [u8; 6] {
        match self {
            Half::Near => *b"\xfa\xb0\x36\x00\x00\x00",
            Half::Far => *b"\xf4\x51\x46\x00\x00\x00",
        }
    }

    pub(crate) fn owner_of(self, limits: Limits) -> Owner {
        if limits == self.ordered() {
            Owner::Own
        } else if limits == self.other().ordered() {
            Owner::Other
        } else {
            Owner::Neither
        }
    }
}

impl fmt::Display for Half {
    fn fmt<W: fmt::Write>(&self, f: &mut fmt::Formatter<W>) -> fmt::Result {
        match self {
            Half::Near => write!(f, "near half"),
            Half::Far => write!(f, "far half"),
        }
    }
}

impl fmt::Display for Owner {
    fn fmt<W: fmt::Write>(&self, f: &mut fmt::Formatter<W>) -> fmt::Result {
        match self {
            Owner::Own => write!(f, "its own"),
            Owner::Other => write!(f, "those of the OTHER half"),
            Owner::Neither => write!(f, "of neither half"),
        }
    }
}
