// The cells of one monitor: sixteen codes are stored, and what is stored is compared.
ghost use Rattle.std.specs.Prelude.{◌≡◌, cond, ◌&&◌, ◌*◌, ◌<◌, eqb, length};
ghost use Rattle.records.specs.Record.{cell_count, flags, is_record};
ghost use Rattle.cells.specs.Cells.{
  store,
  code_in,
  flags_for,
  flags_of,
  flag_byte,
  compare,
};

use records::{CELL_COUNT, CELLS, CELLS_PART, FLAG_BYTES, Part, RECORD_SIZE, STATUS_D, byte_in};
use thresholds::{ResultCode, over_threshold, under_threshold};

// The code that a cleared cell holds.
pub const CLEARED: ResultCode = ResultCode(-32768);

// Stores sixteen codes in a record. Nothing changes, and the answer is false, where it is no record or the codes are not
// sixteen.
pub fn store(rec: &mut [u8], codes: &[i16]) -> bool
    ensures value { result ≡ (is_record rec.old && eqb (length codes.now) cell_count) }
    ensures rec_after { rec.new ≡ cond (is_record rec.old && eqb (length codes.now) cell_count) (store codes.now rec.old) rec.old }
{
    if rec.len() != RECORD_SIZE {
        return false;
    }
    if codes.len() != CELL_COUNT {
        return false;
    }
    for (i, code) in codes.iter().enumerate() {
        let [low, high] = code.to_le_bytes();
        rec[CELLS + 2 * i] = low;
        rec[CELLS + 2 * i + 1] = high;
    }
    true
}

// Code c of a part that holds cells, low byte first. Past its end it is 0.
#[tactic(auto, unfolding(crate::specs::Cells::code_in), using(thresholds::proofs::TwosComplement::word_signed))]
pub fn code_in(rec: &[u8], part: Part, c: usize) -> ResultCode
    ensures { result ≡ code_in part rec.now c }
{
    if c >= part.size as usize {
        return ResultCode(0);
    }
    let low = byte_in(rec, part, 2 * c);
    let high = byte_in(rec, part, 2 * c + 1);
    i16::from_le_bytes([low, high]).into()
}

// A cell's two flags, UV counting 1 and OV counting 2.
#[tactic(auto, unfolding(crate::specs::Cells::flags_for), using(crate::proofs::Flags::less_is, crate::proofs::Flags::bit_worth))]
fn flags_for(code: ResultCode, lower: ResultCode, upper: ResultCode) -> u8
    ensures { result ≡ flags_for code lower upper }
{
    let under = u8::from(code < lower);
    let over = u8::from(upper < code);
    under + over * 2
}

// The two flags of a stored cell: none where it is cleared.
#[tactic(auto, unfolding(crate::specs::Cells::flags_of, crate::specs::Cells::code_at), using(crate::proofs::Flags::cleared_is))]
fn flags_of(rec: &[u8], c: usize) -> u8
    ensures { result ≡ flags_of rec.now c }
{
    let code = code_in(rec, CELLS_PART, c);
    if code == CLEARED {
        return 0;
    }
    flags_for(
        code,
        under_threshold(rec).into(),
        over_threshold(rec).into(),
    )
}

// Byte j of the flags, for the four cells that it holds.
fn flag_byte(rec: &[u8], j: usize) -> u8
    requires { j < flags.size }
    ensures { result ≡ flag_byte rec.now j }
{
    let mut flags = 0;
    for k in 0..4 {
        flags += flags_of(rec, 4 * j + k) << (2 * k);
    }
    flags
}

// Compares the stored cells of a record with its thresholds and raises flags. Nothing changes, and the answer is false,
// where it is no record. The flags' bytes are no part of what is compared, so each may be raised before the next is made.
pub fn compare(rec: &mut [u8]) -> bool
    ensures value { result ≡ is_record rec.old }
    ensures rec_after { rec.new ≡ cond (is_record rec.old) (compare rec.old) rec.old }
{
    if rec.len() != RECORD_SIZE {
        return false;
    }
    for j in 0..FLAG_BYTES {
        let raised = flag_byte(rec, j);
        rec[STATUS_D + j] |= raised;
    }
    true
}
