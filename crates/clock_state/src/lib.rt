// The state of the engine that clocks a frame a byte at a time. The caller lends it.
#![tactic(auto)]

mod state;

pub use state::{
    CHAINED, HEAD, KIND, Kind, SEEN, STATE_SIZE, WINDOWS, byte_of, chained_in, kind_in, seen_in,
    start,
};
