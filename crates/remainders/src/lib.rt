// The same remainders, of byte strings of any length: bit by bit, and through a table of 256 remainders.
#![tactic(auto)]

mod bit_by_bit;
mod check_word;
mod strings;
mod tables;
mod through_table;

pub use strings::{data_pec, pec10_bitwise, pec10_by_table, pec15_bitwise, pec15_by_table, seal};
