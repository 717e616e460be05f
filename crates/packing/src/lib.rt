// An answer for C as one number: the refusal's number and two values. What both surfaces, `door` and `oskorbine`, hand back.
#![tactic(auto)]

mod packing;

pub use packing::{accepted, pack, refused};
