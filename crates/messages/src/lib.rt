// A heartbeat as it is sent, and what our host makes of what comes.
#![tactic(auto)]

mod messages;
mod verdicts;

pub use messages::{MESSAGE_SIZE, message, message_right};
pub use verdicts::{PASS_COUNT, Verdict, verdict_on};
