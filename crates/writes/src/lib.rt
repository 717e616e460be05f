// Which write needs its check right, and what a taken write does to its bytes of a record, as rules.
#![tactic(auto)]

mod writes;

pub use writes::{Rules, needs_check, rules_of, stores_whole};
