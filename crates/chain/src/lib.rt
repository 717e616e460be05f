// The engine that handles a whole frame: it is judged, answered and served.
#![tactic(auto)]

mod frames;
mod numbers;

pub use frames::{Answer, handle};
pub use numbers::{Numbers, numbers_of};
