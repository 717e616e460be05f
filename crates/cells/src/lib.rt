// Sixteen codes stored in one record, and compared with its thresholds.
#![tactic(auto)]

mod cells;

pub use cells::{CLEARED, code_in, compare, store};
