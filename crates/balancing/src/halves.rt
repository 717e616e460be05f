// The two halves of the cabinet, with one monitor each. `night` has them too: in a library each function would need a promise and its line in the
// first demand.

use std::fmt;

#[derive(Clone, Copy, Debug, PartialEq, Eq)]
pub(crate) enum Half {
    Near,
    Far,
}

impl Half {
    // The place of its monitor in the chain, counted from 1.
    pub(crate) fn position(self) -> usize {
        match self {
            Half::Near => 1,
            Half::Far => 2,
        }
    }

    // Its eight bytes of what both reply.
    pub(crate) fn part(self, reply: &[u8; 16]) -> &[u8] {
        match self {
            Half::Near => &reply[..8],
            Half::Far => &reply[8..],
        }
    }
}

impl fmt::Display for Half {
    fn fmt<W: fmt::Write>(&self, f: &mut fmt::Formatter<W>) -> fmt::Result {
        f.write_str(match self {
            Half::Near => "near half",
            Half::Far => "far half ",
        })
    }
}

// Something of each half.
#[derive(Clone, Copy)]
pub(crate) struct Halves<T> {
    pub(crate) near: T,
    pub(crate) far: T,
}

impl<T> Halves<T> {
    pub(crate) fn of(&self, half: Half) -> &T {
        match half {
            Half::Near => &self.near,
            Half::Far => &self.far,
        }
    }
}
