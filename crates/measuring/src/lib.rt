// One monitor's measurement in LPCM.
#![tactic(auto)]

mod measuring;

pub use measuring::measure;
