// The host alone, for a controller that holds no chain: its frames, the check of what comes back, and readings, as C has them (`door_c`).
// Each remainder is worked out from its polynomial: no crate below has the table of 256. What goes in is numbers and slices; an answer is
// a u32 that holds the refusal number and two values (`packing`).
#![tactic(auto)]

mod hosts;
mod verdicts;
mod volts;

pub use hosts::{osk_check, osk_host_frame, osk_two_ports};
pub use verdicts::osk_verdict;
pub use volts::{osk_microvolts, osk_summary, osk_volts};
