// One monitor's turn in an LPCM heartbeat.
#![tactic(auto)]

mod steps;

pub use steps::{Beat, is_towards_a, reach, run_out, wake};
