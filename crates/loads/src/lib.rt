// The cells of one monitor of a table: stored, compared, and loaded, which is both; with their refusals.
#![tactic(auto)]

mod judged;
mod loads;
mod numbers;

pub use loads::{compare, load, store};
pub use numbers::load_number;
