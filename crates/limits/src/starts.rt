// The tables that cases begin with.
use crate::bench::{RECORD, TWO_RECORDS};
use crate::buffers::{Buffer, holding, lay, resize};
use crate::deeds::Deed;
use crate::frames::{Body, frame};

// What comes before a case.
#[derive(Clone, Copy)]
pub(crate) enum Step {
    // A byte at a place of the table is set.
    Byte(usize, u8),
    // A bare command, with its check.
    Command(u32),
    // WRCFGB, in which both monitors are sent the same.
    Thresholds(u64),
    Codes(Deed),
}

// What the records are before these steps: 0, or `TWO_RECORDS` and 0 past them.
#[derive(Clone, Copy)]
pub(crate) enum Start {
    Zeros(&'static [Step]),
    Two(&'static [Step]),
}

impl Step {
    fn taken(self, table: &mut [u8]) {
        match self {
            Step::Byte(at, value) => lay(table, at, &[value]),
            Step::Command(command) => {
                let _ = chain::handle(table, &command.to_be_bytes(), &mut []);
            }
            Step::Thresholds(eight) => {
                let sent = frame(0x0024_b19e, Body::Eights([eight, eight]));
                let _ = chain::handle(table, &sent, &mut []);
            }
            Step::Codes(deed) => {
                let _ = deed.done(table);
            }
        }
    }
}

impl Start {
    // The table of so many monitors.
    pub(crate) fn table(self, monitors: u8) -> Buffer {
        let (records, steps): (&[u8], &[Step]) = match self {
            Start::Zeros(steps) => (&[], steps),
            Start::Two(steps) => (TWO_RECORDS, steps),
        };
        let mut table = holding(records);
        resize(&mut table, RECORD * usize::from(monitors), 0);
        for step in steps {
            step.taken(&mut table);
        }
        table
    }
}
