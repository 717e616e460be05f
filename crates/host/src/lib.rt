// The frames that our host writes.
#![tactic(auto)]

mod chain;
mod frames;

pub use frames::build;
