// Every monitor of a table acts on its own bytes, with no frame judged.
#![tactic(auto)]

mod served;

pub use served::{serve, serve_at};
