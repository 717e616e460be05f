// What one monitor does with an accepted command and its own bytes.
#![tactic(auto)]

mod acts;

pub use acts::act;
