// The chain of two monitors, our host's frames for it, and what comes of a frame.
use chain::Answer;
use records::{CMF1, COUNTER, RECORD_SIZE, STATUS_BITS, UNLOCKED};
use refusals::Refusal;

// A command, and eight bytes for each of two monitors.
pub(crate) type Frame = [u8; 20];

const TABLE_SIZE: usize = 2 * RECORD_SIZE;

// The records of both monitors, the near one's first.
pub(crate) type Table = [u8; TABLE_SIZE];

// What a reply buffer holds before a frame.
const NO_REPLY: [u8; 16] = [0xa5; 16];

// What comes of a frame: the table, the whole reply buffer and the answer.
#[derive(Clone, Copy, PartialEq, Eq)]
pub(crate) struct Outcome {
    pub table: Table,
    reply: [u8; 16],
    pub answer: Result<Answer, Refusal>,
}

// The engine that takes a frame whole, and the one that clocks it a byte at a time. `limits` has them too: a function of a library needs a promise and its line in the first demand.
#[derive(Clone, Copy)]
pub(crate) enum Engine {
    WholeFrame,
    Clocked,
}

impl Outcome {
    // No byte of the reply buffer is written.
    pub(crate) fn without_reply(table: Table, answer: Result<Answer, Refusal>) -> Outcome {
        Outcome {
            table,
            reply: NO_REPLY,
            answer,
        }
    }

    pub(crate) fn taken(&self) -> usize {
        self.answer.map_or(0, |answer| answer.taken)
    }
}

// Before any frame: but for the counters, the locks and CMF1 no two bytes of a record are the same, nor two at the same place of both. Neither
// monitor is muted, neither is in LPCM, in which it would take no write, and the retention of both is unlocked, so that a lock is seen.
pub(crate) fn start() -> Table {
    let mut table = [0; TABLE_SIZE];
    for (i, byte) in table.iter_mut().enumerate() {
        *byte = (i * 41 % 256) as u8;
    }
    table[COUNTER] = 5;
    table[UNLOCKED] = 1;
    table[RECORD_SIZE + COUNTER] = 62;
    table[RECORD_SIZE + UNLOCKED] = 1;
    table[CMF1] = 0x7f;
    table[RECORD_SIZE + CMF1] = 0x7f;
    table
}

// How many monitors of a table are muted.
pub(crate) fn muted_in(table: &Table) -> usize {
    let (near, far) = table.split_at(RECORD_SIZE);
    [near, far]
        .iter()
        .filter(|record| record[STATUS_BITS] & 0x10 != 0)
        .count()
}

// The commands that our host sends.
#[derive(Clone, Copy)]
pub(crate) enum Command {
    WriteConfigurationB,
    WriteRetention,
    Mute,
}

impl Command {
    fn code(self) -> u16 {
        match self {
            Command::WriteConfigurationB => 0x0024,
            Command::WriteRetention => 0x0039,
            Command::Mute => 0x0028,
        }
    }
}

// A frame for both monitors. Where our host refuses it is all zeros, which the chain refuses.
pub(crate) fn built(command: Command, values: &[u8]) -> Frame {
    let mut frame = [0; 20];
    let _ = host::build(command.code(), 2, values, &mut frame);
    frame
}

impl Engine {
    // What comes of a frame by this engine.
    pub(crate) fn handle(self, before: &Table, frame: &[u8]) -> Outcome {
        let mut table = *before;
        let mut reply = NO_REPLY;
        let answer = match self {
            Engine::WholeFrame => chain::handle(&mut table, frame, &mut reply),
            Engine::Clocked => clocked::handle(&mut table, frame, &mut reply),
        };
        Outcome {
            table,
            reply,
            answer,
        }
    }
}
