// A whole frame by the second engine: clocked a byte at a time, and released.
#![tactic(auto)]

mod frames;

pub use frames::handle;
