// The chain of the two monitors: what our host sends to it and reads from it, its cells, and its heartbeats.

use crate::codes::Code;
use crate::commands::Command;
use crate::frames::{Frame, Message};
use crate::halves::{Half, Halves};
use crate::registers::Register;
use passing::Relayed;
use ports::Checked;
use records::RECORD_SIZE;
use refusals::Refusal;
use std::array;

const TABLE_SIZE: usize = 2 * RECORD_SIZE;

// The bytes of a wire on which nothing is sent. No message has them, and where nothing is sent a buffer stays as it was.
const SILENCE: [u8; 8] = [0xff; 8];

// What is heard on a wire: nothing only where none was told of, and where the wire is as it was.
fn heard(told: bool, wire: [u8; 8]) -> Option<Message> {
    (told || wire != SILENCE).then_some(Message(wire))
}

#[derive(Drop)]
pub(crate) struct Cabinet {
    table: [u8; TABLE_SIZE],
    // Our host's own counts of what each monitor has taken, which its replies must have.
    counts: Halves<u8>,
}

// Why our host does not take what it read.
#[derive(Clone, Copy, Debug, PartialEq, Eq)]
pub(crate) enum Unread {
    // Only the counter is another than it expects: the one that came.
    OtherCounter(u8),
    Damaged,
}

impl Cabinet {
    pub(crate) fn new() -> Cabinet {
        Cabinet {
            table: [0; TABLE_SIZE],
            counts: Halves { near: 0, far: 0 },
        }
    }

    pub(crate) fn count_of(&self, half: Half) -> u8 {
        *self.counts.of(half)
    }

    // Both monitors are to have taken one command more. After 63 comes 1.
    pub(crate) fn count(&mut self) {
        self.counts.near = self.counts.near % 63 + 1;
        self.counts.far = self.counts.far % 63 + 1;
    }

    // A write or a bare command goes to both monitors: its frame, and how many took it.
    pub(crate) fn send(
        &mut self,
        command: Command,
        values: &[u8],
    ) -> Result<(Frame, usize), Refusal> {
        let frame = Frame::build(command.code(), values)?;
        let mut no_reply = [0; 16];
        let answer = chain::handle(&mut self.table, frame.bytes(), &mut no_reply)?;
        Ok((frame, answer.taken))
    }

    // What both reply to a read. Where it is refused there are zeros, whose check is wrong.
    fn reply_to(&mut self, command: Command) -> [u8; 16] {
        let mut reply = [0; 16];
        if let Ok(frame) = Frame::build(command.code(), b"") {
            let _ = chain::handle(&mut self.table, frame.bytes(), &mut reply);
        }
        reply
    }

    // The six data bytes that a half replies to a read. From a counter that differs our host counts on.
    pub(crate) fn read(&mut self, command: Command, half: Half) -> Result<Register, Unread> {
        let reply = self.reply_to(command);
        let payload = half.part(&reply);
        match ports::check(payload, self.count_of(half)) {
            Ok(Checked::Right) => match payload.first_chunk() {
                Some(six) => Ok(Register(*six)),
                None => Err(Unread::Damaged),
            },
            Ok(Checked::CounterDiffers(received)) => {
                *self.counts.of_mut(half) = received;
                Err(Unread::OtherCounter(received))
            }
            Ok(Checked::Damaged) | Err(_) => Err(Unread::Damaged),
        }
    }

    // A half's cells are stored: one of them, counted from 1, has a code of its own.
    pub(crate) fn store(&mut self, half: Half, cell: usize, code: Code) -> Result<(), Refusal> {
        let usual = Code::usual_in(half);
        let codes: [i16; 16] = array::from_fn(|i| if i + 1 == cell { code.0 } else { usual.0 });
        loads::store(&mut self.table, half.position(), &codes)
    }

    // A whole heartbeat, and what leaves the chain of it, if anything.
    pub(crate) fn beat(&mut self) -> Option<Message> {
        let mut wire = SILENCE;
        let end = passing::heartbeat(&mut self.table, 2, &mut wire);
        heard(matches!(end, Ok(Some(_))), wire)
    }

    // The first hop alone: what the far half sends.
    pub(crate) fn wake(&mut self) -> Option<Message> {
        let mut wire = SILENCE;
        let end = passing::wake(&mut self.table, 2, &mut wire);
        heard(matches!(end, Ok(Some(_))), wire)
    }

    // The last hop alone: what the near half sends on of a message that reaches it.
    pub(crate) fn relay(&mut self, message: Message) -> Option<Message> {
        let mut wire = SILENCE;
        let relayed = passing::relay(&mut self.table, 1, &message.0, &mut wire);
        heard(matches!(relayed, Ok(Relayed::SentOn)), wire)
    }

    // The near half loses its supply and starts anew.
    pub(crate) fn lose_supply(&mut self) {
        self.table[..RECORD_SIZE].fill(0);
    }

    // The time for a heartbeat runs out at the near half.
    pub(crate) fn time_out(&mut self) {
        let _ = passing::time_out(&mut self.table, 1);
    }
}
