// One byte clocked in.
#![tactic(auto)]

mod bytes_in;

pub use bytes_in::clock;
