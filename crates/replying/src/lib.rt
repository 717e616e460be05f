// Every monitor of a table replies, nearest first, with no frame judged.
#![tactic(auto)]

mod answers;

pub use answers::{replies_of, reply_all};
