// Readings: microvolts, volts, and the summary of a pack.
ghost use Rattle.std.specs.Prelude.{◌≡◌, length};
ghost use Rattle.readings.specs.Readings.{microvolts, reading_of, summary_of};
ghost use Rattle.packing.specs.Packed.{packed};
ghost use Rattle.door.specs.Volts.{volts_or_nan, summary_parts, summary_out};

use packing::{accepted, refused};
use readings::Reading;
use refusals::Refusal;
use thresholds::ResultCode;

// The lowest, the highest and the total.
const SUMMARY_SIZE: usize = 3;

// The whole microvolts of a code: an i32 holds those of every i16.
pub fn osk_microvolts(code: i16) -> i32
    ensures { result ≡ microvolts (record { 0 = code }) }
{
    let wide = code as i32;
    readings::microvolts_of(ResultCode(wide)) as i32
}

// A code in volts, and NaN where the cell was cleared.
pub fn osk_volts(code: i16) -> f64
    ensures { result ≡ volts_or_nan (reading_of (record { 0 = code })) }
{
    let wide = code as i32;
    match readings::reading_of(ResultCode(wide)) {
        Reading::Volts(volts) => volts,
        Reading::Cleared => 0.0 / 0.0,
    }
}

// The summary of 1 to 512 codes, at the start of a buffer: 1 where there is one and 0 where all cells are cleared, and the number of
// cells not cleared. The buffer stays where there is none, and where that is refused.
#[tactic(auto, unfolding(refusals::specs::Order::decide))]
pub fn osk_summary(codes: &[i16], out: &mut [f64]) -> u32
    ensures value { result ≡ packed (summary_parts (summary_of codes.now) (length out.old)) }
    ensures out_after { out.new ≡ summary_out (summary_of codes.now) out.old }
{
    match readings::summary_of(codes) {
        Err(refusal) => refused(refusal),
        Ok(None) => {
            if out.len() < SUMMARY_SIZE {
                return refused(Refusal::NoRoom);
            }
            accepted(0, 0)
        }
        Ok(Some(summary)) => {
            if out.len() < SUMMARY_SIZE {
                return refused(Refusal::NoRoom);
            }
            out[0] = summary.lowest;
            out[1] = summary.highest;
            out[2] = summary.total;
            accepted(1, summary.cells as u16)
        }
    }
}
