// A heartbeat in a table: the manager wakes, a message reaches a monitor, a whole heartbeat, and the time runs out.
#![tactic(auto)]

mod hops;
mod operations;

pub use operations::{End, Relayed, TimedOut, heartbeat, relay, time_out, wake};
