// The check words of document 01 as they are sent: of a command and of data, and are they right.
#![tactic(auto)]

mod words;

pub use words::{
    command_check, command_right, counter_in, four_in, four_right, number_in, number_right,
    payload_right, sealed, sealed_two, two_bytes,
};
