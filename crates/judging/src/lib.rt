// The table of records, the refusals of a frame that both engines judge alike, and the place of one monitor.
#![tactic(auto)]

mod heads;
mod places;
mod tables;

pub use heads::{Judged, command_in, judge_head};
pub use places::place_of;
pub use tables::{record_at, sound, sound_count, whole_table};
