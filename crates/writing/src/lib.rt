// A taken write, done to a record by its rules.
#![tactic(auto)]

mod writing;

pub use writing::write;
