// The outputs of a half, and the rows of Table 27 that decided them.

use std::{array, fmt};

// A row of Table 27, by its number.
#[derive(Clone, Copy, Debug, PartialEq, Eq)]
pub(crate) enum Row {
    Pwm = 1,
    PwmGroupWritten = 2,
    Measurement = 3,
    DccBit = 4,
    ConfigurationBWritten = 5,
    Mute = 6,
    ThermalShutdown = 7,
}

impl Row {
    pub(crate) const FROM_THE_TOP: [Row; 7] = [
        Row::ThermalShutdown,
        Row::Mute,
        Row::ConfigurationBWritten,
        Row::DccBit,
        Row::Measurement,
        Row::PwmGroupWritten,
        Row::Pwm,
    ];
}

impl fmt::Display for Row {
    fn fmt<W: fmt::Write>(&self, f: &mut fmt::Formatter<W>) -> fmt::Result {
        f.write_str(match self {
            Row::Pwm => "row 1 (PWM)",
            Row::PwmGroupWritten => "row 2 (a PWM group being written)",
            Row::Measurement => "row 3 (measurement)",
            Row::DccBit => "row 4 (DCC bit)",
            Row::ConfigurationBWritten => "row 5 (configuration B being written)",
            Row::Mute => "row 6 (mute)",
            Row::ThermalShutdown => "row 7 (thermal shutdown)",
        })
    }
}

// The output of a cell.
#[derive(Clone, Copy, Debug, PartialEq, Eq)]
pub(crate) enum Output {
    On(Row),
    Off(Row),
}

impl Output {
    pub(crate) fn is_on(self) -> bool {
        matches!(self, Output::On(_))
    }

    // As a byte it is the row's number, and 0x80 is added where it is on.
    fn byte(self) -> u8 {
        match self {
            Output::On(row) => row as u8 | 0x80,
            Output::Off(row) => row as u8,
        }
    }

    fn of_byte(byte: u8) -> Option<Output> {
        let row = *Row::FROM_THE_TOP
            .iter()
            .find(|row| **row as u8 == byte % 0x80)?;
        if byte < 0x80 {
            Some(Output::Off(row))
        } else {
            Some(Output::On(row))
        }
    }
}

impl fmt::Display for Output {
    fn fmt<W: fmt::Write>(&self, f: &mut fmt::Formatter<W>) -> fmt::Result {
        match *self {
            Output::On(row @ (Row::Pwm | Row::DccBit)) => write!(f, "on by {row}"),
            Output::On(row) => write!(f, "on by row {}, wrong", row as u8),
            Output::Off(Row::DccBit) => write!(f, "off by row 4, wrong"),
            Output::Off(row) => write!(f, "off by {row}"),
        }
    }
}

// The outputs of cells 1 to 16. They are displayed as bytes.
#[derive(Clone, Copy, Debug, PartialEq, Eq)]
pub(crate) struct Outputs(pub(crate) [Output; 16]);

impl Outputs {
    pub(crate) fn of_bytes(bytes: [u8; 16]) -> Option<Outputs> {
        let mut outputs = [Output::Off(Row::Pwm); 16];
        for (output, byte) in outputs.iter_mut().zip(bytes) {
            *output = Output::of_byte(byte)?;
        }
        Some(Outputs(outputs))
    }

    // Each with its cell, counted from 1.
    pub(crate) fn by_cells(&self) -> [(usize, Output); 16] {
        array::from_fn(|i| (i + 1, self.0[i]))
    }

    pub(crate) fn count_on(&self) -> usize {
        self.0.iter().filter(|output| output.is_on()).count()
    }
}

impl fmt::Display for Outputs {
    fn fmt<W: fmt::Write>(&self, f: &mut fmt::Formatter<W>) -> fmt::Result {
        for output in self.0 {
            write!(f, " {:02x}", output.byte())?;
        }
        Ok(())
    }
}
