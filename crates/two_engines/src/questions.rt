// After a frame: the question about one monitor's discharge, put to both engines' tables.
use crate::digest::{Digest, Digested};
use crate::outcomes::{Loan, Table};
use crate::world::World;
use priorities::Events;
use records::CELL_COUNT;

// What is answered: how many outputs are on, or the number and 0x80; and the whole buffer.
#[derive(Clone, Copy, PartialEq, Eq)]
struct Answer {
    first: u8,
    outputs: [u8; 24],
}

impl Digested for Answer {
    fn add_to(&self, digest: &mut Digest) {
        digest.add(&[self.first]);
        digest.add(&self.outputs);
    }
}

// The events, the phase, 0 to 16, and the room, 14 to 24 bytes, are remainders of the way by numbers that have no common divisor.
fn ask(table: &[u8], position: usize, way: usize) -> Answer {
    let events = Events {
        shutdown: way % 7 == 0,
        measurement: way % 3 == 0,
        wrcfgb: way % 5 == 0,
        wrpwm: way % 4 == 0,
    };
    let phase = (way % 17) as u8;
    let room = 14 + way % 11;
    let mut outputs = [0xa5; 24];
    let first = match discharge::discharge(table, position, events, phase, &mut outputs[..room]) {
        Ok(on) => u8::try_from(on).unwrap_or(u8::MAX),
        Err(refusal) => refusals::number_of(refusal) | 0x80,
    };
    Answer { first, outputs }
}

impl World {
    // At times of no monitor of the chain.
    pub(crate) fn ask(&mut self, loan: Loan, one: &Table, other: &Table) {
        let way = self.luck.draw(65536);
        let position = way / 8 % (self.monitors.n + 2);
        let one = ask(&one[..loan.size], position, way);
        let other = ask(&other[..loan.size], position, way);
        self.weigh(&one, &other);
        self.note_outputs(one);
    }

    // A buffer that stayed as it was has no row.
    fn note_outputs(&mut self, answer: Answer) {
        self.book.questions.add(answer.first < 0x80);
        for output in &answer.outputs[..CELL_COUNT] {
            self.book.outputs.add(*output);
        }
    }
}
