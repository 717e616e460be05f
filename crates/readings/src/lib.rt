// The host's readings: a code as a voltage, and the summary of a pack of cells.
#![tactic(auto)]

mod cell;
mod gathering;
mod pack_summary;

pub use cell::{Reading, microvolts_of, reading_of};
pub use pack_summary::{Summary, summary_of};
