// The cells of one monitor in a lent table, its position counted from 1: stored, compared, and loaded, which is both.
ghost use Rattle.std.specs.Prelude.{◌≡◌};
ghost use Rattle.loads.specs.Load.{
  stored,
  table_after_store,
  compared,
  table_after_compare,
  loaded,
  table_after_load,
};
ghost use Rattle.packing.specs.Packed.{packed};
ghost use Rattle.oskorbine.specs.Answers.{load_parts};

use crate::answers::load_answer;

// Stores sixteen codes.
pub fn osk_store(table: &mut [u8], position: usize, codes: &[i16]) -> u32
    ensures value { result ≡ packed (load_parts (stored table.old position codes.now)) }
    ensures table_after { table.new ≡ table_after_store table.old position codes.now }
{
    load_answer(loads::store(table, position, codes))
}

// Compares the stored cells with the thresholds.
pub fn osk_compare(table: &mut [u8], position: usize) -> u32
    ensures value { result ≡ packed (load_parts (compared table.old position)) }
    ensures table_after { table.new ≡ table_after_compare table.old position }
{
    load_answer(loads::compare(table, position))
}

// Loads sixteen codes.
pub fn osk_load(table: &mut [u8], position: usize, codes: &[i16]) -> u32
    ensures value { result ≡ packed (load_parts (loaded table.old position codes.now)) }
    ensures table_after { table.new ≡ table_after_load table.old position codes.now }
{
    load_answer(loads::load(table, position, codes))
}
