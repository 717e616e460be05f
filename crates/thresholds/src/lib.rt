// The two thresholds of a record, and the two kinds of count.
#![tactic(auto)]

mod thresholds;

pub use thresholds::{
    ResultCode, ThresholdStep, codes_of, lower_threshold, over_threshold, under_threshold,
    upper_threshold,
};
