// What one monitor keeps of an accepted command and its own bytes, and what a bare command does to its record.
#![tactic(auto)]

mod effects;

pub use effects::{carry_out, remember};
