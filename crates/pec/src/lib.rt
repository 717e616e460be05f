// The remainder behind both check words of document 01, over the width. For what is sent it is had by shifts.
#![tactic(auto)]

mod by_shifts;

pub use by_shifts::{nothing_left, of_command, remainder_10};
