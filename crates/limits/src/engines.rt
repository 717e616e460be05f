// A frame put to either engine.
use crate::bench::UNTOUCHED;
use crate::buffers::{Buffer, filled, holding};
use chain::Answer;
use refusals::Refusal;

#[derive(Clone, Copy)]
pub(crate) enum Engine {
    WholeFrame,
    Clocked,
}

// The table and the reply buffer after a frame, and what came of it.
#[derive(Drop, PartialEq)]
pub(crate) struct Came {
    pub table: Buffer,
    pub buffer: Buffer,
    pub answer: Result<Answer, Refusal>,
}

impl Engine {
    fn handle(self, table: &mut [u8], frame: &[u8], buffer: &mut [u8]) -> Result<Answer, Refusal> {
        match self {
            Engine::WholeFrame => chain::handle(table, frame, buffer),
            Engine::Clocked => clocked::handle(table, frame, buffer),
        }
    }

    // What becomes of a table, with so much room for a reply.
    pub(crate) fn handled(self, before: &[u8], frame: &[u8], room: usize) -> Came {
        let mut table = holding(before);
        let mut buffer = filled(UNTOUCHED, room);
        let answer = self.handle(&mut table, frame, &mut buffer);
        Came {
            table,
            buffer,
            answer,
        }
    }
}
