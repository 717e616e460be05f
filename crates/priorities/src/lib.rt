// The discharge of one monitor's cells: the priorities of the sheet's Table 27.
#![tactic(auto)]

mod outputs;
mod switches;

pub use outputs::{Events, Output, put_outputs};
