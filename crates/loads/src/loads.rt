// Sixteen codes stored in one monitor of the chain, its stored cells compared with its thresholds, and the load, which is both.
ghost use Rattle.std.specs.Prelude.{◌≡◌};
ghost use Rattle.loads.specs.Load.{
  stored,
  table_after_store,
  compared,
  table_after_compare,
  loaded,
  table_after_load,
};

use crate::judged::{judge_compare, judge_store};
use judging::record_at;
use refusals::Refusal;

// Stores sixteen codes in the monitor at a position, counted from 1. A refusal changes nothing.
pub fn store(table: &mut [u8], position: usize, codes: &[i16]) -> Result<(), Refusal>
    ensures value { result ≡ stored table.old position codes.now }
    ensures table_after { table.new ≡ table_after_store table.old position codes.now }
{
    judge_store(table, position, codes)?;
    if let Some(lies) = record_at(table, position - 1) {
        cells::store(&mut table[lies], codes);
    }
    Ok(())
}

// Compares the stored cells of the monitor at a position with its thresholds. A refusal changes nothing.
pub fn compare(table: &mut [u8], position: usize) -> Result<(), Refusal>
    ensures value { result ≡ compared table.old position }
    ensures table_after { table.new ≡ table_after_compare table.old position }
{
    judge_compare(table, position)?;
    if let Some(lies) = record_at(table, position - 1) {
        cells::compare(&mut table[lies]);
    }
    Ok(())
}

// Loads sixteen codes into the monitor at a position. A refusal changes nothing.
pub fn load(table: &mut [u8], position: usize, codes: &[i16]) -> Result<(), Refusal>
    ensures value { result ≡ loaded table.old position codes.now }
    ensures table_after { table.new ≡ table_after_load table.old position codes.now }
{
    judge_store(table, position, codes)?;
    if let Some(lies) = record_at(table, position - 1) {
        let rec = &mut table[lies];
        cells::store(rec, codes);
        cells::compare(rec);
    }
    Ok(())
}
