// Voltages, at their limits.
use crate::case::Case;
use readings::Reading;
use std::io;
use thresholds::ResultCode;

// A code, its microvolts, and the bits of its reading: none where it is cleared.
#[derive(Clone, Copy)]
pub(crate) struct Voltage {
    code: i32,
    microvolts: i64,
    bits: Option<u64>,
}

pub(crate) static CASES: [Voltage; 5] = [
    Voltage {
        code: -10000,
        microvolts: 0,
        bits: Some(0x0000_0000_0000_0000),
    },
    Voltage {
        code: 0,
        microvolts: 1_500_000,
        bits: Some(0x3ff8_0000_0000_0000),
    },
    Voltage {
        code: 32767,
        microvolts: 6_415_050,
        bits: Some(0x4019_a902_de00_d1b7),
    },
    Voltage {
        code: -32767,
        microvolts: -3_415_050,
        bits: Some(0xc00b_5205_bc01_a36e),
    },
    Voltage {
        code: -32768,
        microvolts: -3_415_200,
        bits: None,
    },
];

// The bits of a float. A NaN, which no reading is, gives all ones, which are expected nowhere.
pub(crate) fn bits_of(x: f64) -> u64 {
    if x == x { f64::to_bits(x) } else { u64::MAX }
}

impl Case for Voltage {
    // The microvolts are said where they are as expected.
    fn tried<R: Print>(&self, rt: &R) -> io::Result<bool> {
        let code = self.code;
        print!(rt; "code {code}")?;
        let right = readings::microvolts_of(ResultCode(code)) == self.microvolts;
        if right {
            print!(rt; ": microvolts {}", self.microvolts)?;
        }
        let bits = match readings::reading_of(ResultCode(code)) {
            Reading::Volts(volts) => Some(bits_of(volts)),
            Reading::Cleared => None,
        };
        match bits {
            Some(bits) => print!(rt; ", reading {bits:016x}")?,
            None => print!(rt; ", cleared")?,
        }
        Ok(right && bits == self.bits)
    }
}
