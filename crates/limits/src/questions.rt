// Which discharge outputs of a monitor are on. The table is lent to be read only, so that it stays needs no case.
use crate::begun::TWO;
use crate::bench::{RECORD, UNTOUCHED};
use crate::buffers::{Buffer, extend, filled, lay, resize};
use crate::case::{Case, as_wanted};
use crate::say::{Bytes, Refused};
use crate::starts::Start;
use discharge::discharge;
use priorities::Events;
use refusals::Refusal;
use std::io;

#[derive(Clone, Copy)]
pub(crate) struct Question {
    pub name: &'static str,
    pub start: Start,
    pub monitors: u8,
    pub position: u8,
    pub events: Events,
    pub phase: u8,
    pub room: usize,
    // What the monitor that is asked about holds: its DCC bytes, configuration B bytes 4 and 5, and its duties, PWM group A and bytes 0 and 1
    // of group B, as they lie in its record.
    pub dcc: u16,
    pub duties: u64,
    // How many outputs are on.
    pub outcome: Result<usize, Refusal>,
    // The outputs of cells 1 to 8 and of 9 to 16: the row, and 80 more where the output is on. Every other byte of the buffer stays, and all do
    // after a refusal.
    pub outputs: [u64; 2],
}

pub(crate) const NONE: Events = Events {
    shutdown: false,
    measurement: false,
    wrcfgb: false,
    wrpwm: false,
};

// All duties are 15.
pub(crate) const ASKED: Question = Question {
    name: "",
    start: TWO,
    monitors: 2,
    position: 1,
    events: NONE,
    phase: 0,
    room: 16,
    dcc: 0,
    duties: 0xffff_ffff_ffff_ffff,
    outcome: Ok(0),
    outputs: [0, 0],
};

impl Question {
    fn table(&self) -> Buffer {
        let mut table = self.start.table(self.monitors);
        for (position, record) in (1_u8..34).zip(table.chunks_mut(RECORD)) {
            if position == self.position {
                lay(record, 10, &self.dcc.to_be_bytes());
                lay(record, 70, &self.duties.to_be_bytes());
            }
        }
        table
    }

    // The buffer expected.
    fn buffer(&self) -> Buffer {
        let mut buffer = Buffer::new();
        if self.outcome.is_ok() {
            extend(&mut buffer, &self.outputs[0].to_be_bytes());
            extend(&mut buffer, &self.outputs[1].to_be_bytes());
        }
        resize(&mut buffer, self.room, UNTOUCHED);
        buffer
    }
}

impl Case for Question {
    fn tried<R: Print>(&self, rt: &R) -> io::Result<bool> {
        let table = self.table();
        let mut out = filled(UNTOUCHED, self.room);
        let position = usize::from(self.position);
        let came = discharge(&table, position, self.events, self.phase, &mut out);
        let right = as_wanted(came, self.outcome) && out == self.buffer();
        print!(rt; "{}", self.name)?;
        match came {
            Err(refusal) => print!(rt; "{}", Refused(refusal))?,
            Ok(on) => print!(rt; ": on {on};{}", Bytes(&out))?,
        }
        if came.is_err() && right {
            print!(rt; ", buffer as before")?;
        }
        Ok(right)
    }
}
