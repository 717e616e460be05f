// What is read of a half, and what is to be as expected in it.
use crate::half::{Half, Owner};
use crate::limits::{Flags, Limits};
use crate::microvolts::Microvolts;
use ports::{Checked, Port};
use records::Part;
use std::array;

pub(crate) const CELL_REGISTERS: usize = 6;

// A register as the host has picked it, and the port that it came from, if from any.
#[derive(Clone, Copy)]
pub(crate) struct Register {
    pub bytes: [u8; 8],
    pub port: Option<Port>,
}

#[derive(Clone, Copy)]
pub(crate) struct Cell {
    pub code: i16,
    pub flags: Flags,
}

// A half: the counter that our host expects of it and the one that came, the one port at which all of it was read, its thresholds and its
// cells.
#[derive(Drop)]
pub(crate) struct Seen {
    pub half: Half,
    pub expected: u8,
    pub counter: Option<u8>,
    pub port: Option<Port>,
    pub limits: Limits,
    pub cells: [Cell; 16],
}

// What is to be as expected: also how many cells have a flag up, and how many have other flags than the half's own thresholds ask for.
#[derive(Clone, Copy, PartialEq, Eq)]
pub(crate) struct Found {
    pub counter: Option<u8>,
    pub port: Option<Port>,
    pub owner: Owner,
    pub flagged: usize,
    pub wrong: usize,
}

impl Register {
    pub(crate) const UNREAD: Register = Register {
        bytes: [0; 8],
        port: None,
    };

    // The counter that came with it, by our host's check; one that is damaged has none.
    fn counter(&self, expected: u8) -> Option<u8> {
        match ports::check(&self.bytes, expected) {
            Ok(Checked::Right) => Some(expected),
            Ok(Checked::CounterDiffers(received)) => Some(received),
            Ok(Checked::Damaged) | Err(_) => None,
        }
    }

    // The thresholds in the first six bytes of configuration B.
    fn limits(&self) -> Limits {
        let part = Part { at: 0, size: 6 };
        let under = thresholds::lower_threshold(&self.bytes, part);
        let over = thresholds::upper_threshold(&self.bytes, part);
        Limits {
            under: Microvolts::of_result(thresholds::codes_of(under)),
            over: Microvolts::of_result(thresholds::codes_of(over)),
        }
    }
}

impl Cell {
    const UNREAD: Cell = Cell {
        code: 0,
        flags: Flags {
            under: false,
            over: false,
        },
    };

    pub(crate) fn voltage(&self) -> Microvolts {
        Microvolts::of_cell(self.code)
    }
}

// Sixteen cells. A register has three of them, low byte first; status D has the flags of four cells to a byte.
fn cells_of(registers: &[Register; CELL_REGISTERS], status_d: &Register) -> [Cell; 16] {
    let mut cells = [Cell::UNREAD; 16];
    for (three, register) in cells.chunks_mut(3).zip(registers) {
        let (codes, _) = register.bytes.as_chunks::<2>();
        for (cell, code) in three.iter_mut().zip(codes) {
            cell.code = i16::from_le_bytes(*code);
        }
    }
    for (four, byte) in cells.chunks_mut(4).zip(status_d.bytes) {
        for (cell, bits) in four.iter_mut().zip([byte, byte >> 2, byte >> 4, byte >> 6]) {
            cell.flags = Flags::of_bits(bits);
        }
    }
    cells
}

impl Seen {
    pub(crate) fn of(
        half: Half,
        expected: u8,
        configuration_b: Register,
        status_d: Register,
        cells: [Register; CELL_REGISTERS],
    ) -> Seen {
        let port = configuration_b.port;
        let at_one_port = status_d.port == port && cells.iter().all(|cell| cell.port == port);
        Seen {
            half,
            expected,
            counter: configuration_b.counter(expected),
            port: if at_one_port { port } else { None },
            limits: configuration_b.limits(),
            cells: cells_of(&cells, &status_d),
        }
    }

    pub(crate) fn codes(&self) -> [i16; 16] {
        array::from_fn(|i| self.cells[i].code)
    }

    pub(crate) fn found(&self) -> Found {
        let ordered = self.half.ordered();
        let flagged = self.cells.iter().filter(|cell| cell.flags.any());
        let wrong = self
            .cells
            .iter()
            .filter(|cell| cell.flags != ordered.flags_due(cell.voltage()));
        Found {
            counter: self.counter,
            port: self.port,
            owner: self.half.owner_of(self.limits),
            flagged: flagged.count(),
            wrong: wrong.count(),
        }
    }
}
