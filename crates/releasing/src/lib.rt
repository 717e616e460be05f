// The end of a clocked frame, and a look at one monitor's window at any time of it.
#![tactic(auto)]

mod looks;
mod releases;

pub use looks::look;
pub use releases::{judge, release};
