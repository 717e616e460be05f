// One monitor's measurement in LPCM: what its cells violate, and what its record then is.
ghost use Rattle.std.specs.Prelude.{◌≡◌, cond, ◌&&◌, ◌*◌, pos};
ghost use Rattle.records.specs.Record.{cell_count, cells, last_cells, is_record};
ghost use Rattle.thresholds.specs.Thresholds.{codes_of};
ghost use Rattle.cells.specs.Cells.{code_in};
ghost use Rattle.measuring.specs.Measuring.{cuv, cov, cdv, masked, kinds, kinds_in, pending, found, measured, passes};

use cells::code_in;
use monitor::remember;
use records::{
    CELL_COUNT, CELLS_PART, LAST_CELLS_PART, LPCM_FLAGS, RDCMCELLT, RDCMCFG, RDSTATC, RECORD_SIZE,
    byte_in,
};
use thresholds::{ResultCode, lower_threshold, upper_threshold};

// What a code is held against, in codes: the two limits of the cells, and the step that one may fall or rise by.
#[derive(Clone, Copy)]
struct Limits {
    low: ResultCode,
    high: ResultCode,
    step: i64,
}

// CDV in codes, 8 of them a step.
#[tactic(auto, unfolding(crate::specs::Measuring::cdv), using(std::proofs::lemmas::Int::ints))]
fn delta(rec: &[u8]) -> i64
    ensures { result ≡ pos (8 * cdv rec.now) }
{
    let low = byte_in(rec, RDCMCELLT, 3);
    let high = byte_in(rec, RDCMCELLT, 4);
    i64::from(8 * u16::from_le_bytes([low, high % 16]))
}

impl Limits {
    // Those of a record: CUV, COV and CDV.
    #[tactic(auto, unfolding(crate::specs::Measuring::cuv, crate::specs::Measuring::cov))]
    fn of(rec: &[u8]) -> Limits
        ensures low { result.low ≡ codes_of (cuv rec.now) }
        ensures high { result.high ≡ codes_of (cov rec.now) }
        ensures step { result.step ≡ pos (8 * cdv rec.now) }
    {
        Limits {
            low: lower_threshold(rec, RDCMCELLT).into(),
            high: upper_threshold(rec, RDCMCELLT).into(),
            step: delta(rec),
        }
    }

    // The kinds that a code violates, as bits of CMF0. Differences in 64 bits, so that none is too large.
    #[tactic(auto, using(laws::proofs::Counts::flag_at_most_one))]
    fn kinds(self, code: ResultCode, last: ResultCode) -> u8
        ensures { result ≡ kinds code.0 last.0 self.low.0 self.high.0 self.step }
    {
        let now = i64::from(code.0);
        let was = i64::from(last.0);
        let below = u8::from(code < self.low);
        let above = u8::from(self.high < code);
        let fell = u8::from(self.step < was - now);
        let rose = u8::from(self.step < now - was);
        below + above * 2 + fell * 4 + rose * 8
    }
}

// CMM_C: is the cell left out?
#[tactic(auto, unfolding(crate::specs::Measuring::masked, laws::specs::Bits::bit_at, laws::specs::Bits::odd))]
fn is_masked(rec: &[u8], c: usize) -> bool
    ensures { result ≡ masked rec.now c }
{
    let byte = byte_in(rec, RDCMCFG, 2 + c / 8);
    (byte >> (c % 8)) % 2 == 1
}

// The kinds that a cell violates: none where it is left out.
fn kinds_of(rec: &[u8], c: usize, limits: Limits) -> u8
    ensures { result ≡ cond (masked rec.now c) 0 (kinds (code_in cells rec.now c).0 (code_in last_cells rec.now c).0 limits.low.0 limits.high.0 limits.step) }
{
    if is_masked(rec, c) {
        return 0;
    }
    limits.kinds(
        code_in(rec, CELLS_PART, c),
        code_in(rec, LAST_CELLS_PART, c),
    )
}

// Those of all cells.
fn kinds_in(rec: &[u8]) -> u8
    ensures { result ≡ kinds_in rec.now cell_count }
{
    let limits = Limits::of(rec);
    let mut all = 0;
    for c in 0..CELL_COUNT {
        all |= kinds_of(rec, c, limits);
    }
    all
}

// Is a diagnostic pending in status C?
#[tactic(auto, unfolding(crate::specs::Measuring::pending))]
fn is_pending(rec: &[u8]) -> bool
    ensures { result ≡ pending rec.now }
{
    let supply = byte_in(rec, RDSTATC, 4) & 0xf0;
    let others = byte_in(rec, RDSTATC, 5) & 0xd3;
    supply != 0 || others != 0
}

// What a measurement finds: a diagnostic that is pending makes all eight.
#[tactic(auto, unfolding(crate::specs::Measuring::found))]
fn found(rec: &[u8]) -> u8
    ensures { result ≡ found rec.now }
{
    if is_pending(rec) {
        return 0xff;
    }
    kinds_in(rec)
}

// Measures: what is found joins CMF0, and the cells become the last measurement. The answer is whether the monitor passes. A slice that is no
// record stays as it is, and the answer is false.
pub fn measure(rec: &mut [u8]) -> bool
    ensures value { result ≡ (is_record rec.old && passes rec.old) }
    ensures rec_after { rec.new ≡ cond (is_record rec.old) (measured rec.old) rec.old }
{
    if rec.len() != RECORD_SIZE {
        return false;
    }
    let more = found(rec);
    remember(rec);
    let flags = rec[LPCM_FLAGS] | more;
    rec[LPCM_FLAGS] = flags;
    flags == 0
}
