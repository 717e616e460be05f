// The chain by both engines, as C has it (`oskorbine_c`): numbers and slices only, and nothing decided here. An answer is a u32 that holds
// the refusal number and two values (`packing`). The host's functions are those of `door`.
#![tactic(auto)]

mod answers;
mod beats;
mod clocks;
mod discharges;
mod frames;
mod loading;

pub use beats::{osk_heartbeat, osk_relay, osk_time_out, osk_wake};
pub use clocks::{osk_clock_byte, osk_clock_release, osk_clock_start, osk_clock_window};
pub use discharges::osk_discharge;
pub use frames::osk_frame;
pub use loading::{osk_compare, osk_load, osk_store};
