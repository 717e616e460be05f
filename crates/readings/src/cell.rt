// One cell: a code as microvolts, and as a reading.
ghost use Rattle.std.specs.Prelude.{◌≡◌, true};
ghost use Rattle.std.specs.Float.{binary64};
ghost use Rattle.std.specs.Float.Ieee.{in_float};
ghost use Rattle.cells.specs.Cells.{is_cleared};
ghost use Rattle.readings.specs.Readings.{microvolts, volts, reading_of};

use cells::CLEARED;
use thresholds::ResultCode;

// A voltage in volts, or no voltage: the cell was cleared. An enum of its own and no Option, since the paper names these two cases.
#[derive(Clone, Copy, Debug, PartialEq)]
pub enum Reading {
    Volts(f64),
    Cleared,
}

#[tactic(auto, using(cells::proofs::Flags::cleared_is))]
pub(crate) fn is_cleared(code: ResultCode) -> bool
    ensures { result ≡ is_cleared code.0 }
{
    code == CLEARED
}

// The whole microvolts of a code: an i64 holds those of every i32.
#[tactic(auto, unfolding(crate::specs::Readings::microvolts))]
pub fn microvolts_of(code: ResultCode) -> i64
    ensures { result ≡ microvolts code }
{
    1_500_000 + 150 * i64::from(code.0)
}

// Microvolts in volts: they go to f64 with nothing lost, so that the one division is the only rounding.
pub(crate) fn volts_of(microvolts: i64) -> f64
    requires { in_float binary64 microvolts ≡ true }
    ensures { result ≡ volts microvolts }
{
    (microvolts as f64) / 1_000_000.0
}

// A code as a reading.
#[tactic(auto, unfolding(crate::specs::Readings::reading_of))]
pub fn reading_of(code: ResultCode) -> Reading
    ensures { result ≡ reading_of code }
{
    if is_cleared(code) {
        return Reading::Cleared;
    }
    Reading::Volts(volts_of(microvolts_of(code)))
}
