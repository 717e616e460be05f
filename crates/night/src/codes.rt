// The codes of cells.

use crate::halves::Half;
use std::fmt;

// 0 is 1.5 V, and a step is 150 microvolts.
#[derive(Clone, Copy, Debug, PartialEq, Eq)]
pub(crate) struct Code(pub(crate) i16);

impl Code {
    // Of every cell of a half, but for one that a step names: 3.21 V and 3.45 V.
    pub(crate) fn usual_in(half: Half) -> Code {
        match half {
            Half::Near => Code(11400),
            Half::Far => Code(13000),
        }
    }
}

// In volts, to hundredths. `cabinet` and `spikes` print other parts of a volt: a function of a library needs a promise and its line in the first demand.
impl fmt::Display for Code {
    fn fmt<W: fmt::Write>(&self, f: &mut fmt::Formatter<W>) -> fmt::Result {
        let hundredths = (1_500_000 + 150 * i32::from(self.0)) / 10_000;
        let sign = if hundredths < 0 { "-" } else { "" };
        let hundredths = hundredths.unsigned_abs();
        let volts = hundredths / 100;
        let rest = hundredths % 100;
        write!(f, "{sign}{volts}.{rest:02} V")
    }
}
