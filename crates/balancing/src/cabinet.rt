// The chain of the two monitors: what our host sends to it and reads from it, and its outputs.

use crate::commands::Command;
use crate::fifteenths::Fifteenths;
use crate::frames::Frame;
use crate::halves::Half;
use crate::outputs::Outputs;
use crate::plan::QUIET;
use ports::Checked;
use priorities::Events;
use records::RECORD_SIZE;
use refusals::Refusal;
use std::array;

const TABLE_SIZE: usize = 2 * RECORD_SIZE;

#[derive(Drop)]
pub(crate) struct Cabinet {
    table: [u8; TABLE_SIZE],
    // Our host's own count of what it sends, which the replies must have.
    counter: u8,
}

impl Cabinet {
    pub(crate) fn new() -> Cabinet {
        Cabinet {
            table: [0; TABLE_SIZE],
            counter: 0,
        }
    }

    // A write or a bare command goes to both monitors: its frame, and how many took it. It counts, and after 63 comes 1.
    pub(crate) fn send(
        &mut self,
        command: Command,
        values: &[u8],
    ) -> Result<(Frame, usize), Refusal> {
        self.counter = self.counter % 63 + 1;
        let frame = Frame::build(command.code(), values)?;
        let mut no_reply = [0; 16];
        let answer = chain::handle(&mut self.table, frame.bytes(), &mut no_reply)?;
        Ok((frame, answer.taken))
    }

    // The six data bytes that a half replies to a read. There are none where our host finds the check wrong, or another counter than its own.
    pub(crate) fn read(&mut self, command: Command, half: Half) -> Option<[u8; 6]> {
        let frame = Frame::build(command.code(), b"").ok()?;
        let mut reply = [0; 16];
        chain::handle(&mut self.table, frame.bytes(), &mut reply).ok()?;
        let payload = half.part(&reply);
        match ports::check(payload, self.counter) {
            Ok(Checked::Right) => payload.first_chunk().copied(),
            _ => None,
        }
    }

    // The outputs of a half. There are none where the question is refused, or where the answer has another number of outputs that are on.
    pub(crate) fn outputs(&self, half: Half, events: Events, phase: u8) -> Option<Outputs> {
        let mut bytes = [0; 16];
        let position = half.position();
        let on = discharge::discharge(&self.table, position, events, phase, &mut bytes).ok()?;
        let outputs = Outputs::of_bytes(bytes)?;
        (outputs.count_on() == on).then_some(outputs)
    }

    // In how many of the fifteen phases each output is on while nothing else goes on.
    pub(crate) fn phases_on(&self, half: Half) -> Fifteenths {
        let mut on = [0u8; 16];
        for phase in 0..15 {
            if let Some(outputs) = self.outputs(half, QUIET, phase) {
                for (count, output) in on.iter_mut().zip(outputs.0) {
                    *count = count.saturating_add(u8::from(output.is_on()));
                }
            }
        }
        Fifteenths(on)
    }
}
