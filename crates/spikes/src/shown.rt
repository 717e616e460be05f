// What is shown of frames and records.
use crate::bench::Table;
use records::{CELLS, CONFIGURATION_B, COUNTER};
use std::fmt;

// Bytes in hexadecimal.
#[derive(Drop)]
struct Bytes<'a>(&'a [u8]);

// The bytes of a frame: bars part the command and the payloads. `cabinet` and `balancing` show them too: a function of a library needs a promise and its line in the first demand.
#[derive(Drop)]
pub(crate) struct OnTheWire<'a>(pub &'a [u8]);

// Tenths of a millivolt, as volts. `cabinet` and `night` print other parts of a volt: a function of a library needs a promise and its line in the first demand.
#[derive(Clone, Copy)]
struct Volts(u32);

// What the near monitor holds of configuration B, as bytes and as its over-voltage threshold; and its counter.
#[derive(Drop)]
pub(crate) struct NearMonitor<'a>(pub &'a Table);

// The over-voltage threshold in bytes 1 and 2 of configuration B. That is 12 bits in two's complement, of which a step is 2.4 mV and 0 is 1.5 V; none
// here lies below 0 V.
fn over_voltage(first: u8, second: u8) -> Volts {
    let steps = i16::from_le_bytes([first, second]) >> 4;
    let tenths = 15_000 + 24 * i32::from(steps);
    Volts(u32::try_from(tenths).unwrap_or(0))
}

impl fmt::Display for Bytes<'_> {
    fn fmt<W: fmt::Write>(&self, f: &mut fmt::Formatter<W>) -> fmt::Result {
        for byte in self.0 {
            write!(f, " {byte:02x}")?;
        }
        Ok(())
    }
}

impl fmt::Display for OnTheWire<'_> {
    fn fmt<W: fmt::Write>(&self, f: &mut fmt::Formatter<W>) -> fmt::Result {
        for (i, byte) in self.0.iter().enumerate() {
            if i % 8 == 4 {
                write!(f, " |")?;
            }
            write!(f, " {byte:02x}")?;
        }
        Ok(())
    }
}

impl fmt::Display for Volts {
    fn fmt<W: fmt::Write>(&self, f: &mut fmt::Formatter<W>) -> fmt::Result {
        write!(f, "{}.{:04} V", self.0 / 10_000, self.0 % 10_000)
    }
}

impl fmt::Display for NearMonitor<'_> {
    fn fmt<W: fmt::Write>(&self, f: &mut fmt::Formatter<W>) -> fmt::Result {
        let table = self.0;
        let bytes = Bytes(&table[CONFIGURATION_B..CELLS]);
        let over = over_voltage(table[CONFIGURATION_B + 1], table[CONFIGURATION_B + 2]);
        let counter = table[COUNTER];
        write!(f, "{bytes} | over-voltage above {over} | counter {counter}")
    }
}
