// What our host makes of replies: the check of one payload, and the two ports.
#![tactic(auto)]

mod checks;
mod ports;

pub use checks::{Checked, check};
pub use ports::{Port, part_of, port_of};
