// What one monitor replies to a read.
#![tactic(auto)]

mod replies;
mod shown;

pub use replies::reply_of;
