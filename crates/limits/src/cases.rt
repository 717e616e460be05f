// A frame put to a table by both engines, and what is expected of it.
use crate::begun::TWO;
use crate::bench::{RECORD, UNTOUCHED};
use crate::buffers::{Buffer, extend, holding, lay, resize};
use crate::case::{Case, as_wanted};
use crate::engines::{Came, Engine};
use crate::frames::{Body, frame};
use crate::held::{Copied, Held};
use crate::say::{Answered, Bytes, Changes};
use crate::starts::Start;
use chain::Answer;
use refusals::Refusal;
use std::io;

// What is shown of the outcome.
#[derive(Clone, Copy)]
pub(crate) enum Shown {
    // Words alone, which stand only where all is as expected.
    Words(&'static str),
    // The reply, and the bytes of the table that have changed.
    Reply,
    Changes,
}

#[derive(Clone, Copy)]
pub(crate) struct FrameCase {
    pub name: &'static str,
    pub start: Start,
    pub monitors: u8,
    // The code and its check, and what follows them.
    pub command: u32,
    pub body: Body,
    pub room: usize,
    // How many monitors take it.
    pub outcome: Result<usize, Refusal>,
    // The reply of each monitor.
    pub replies: &'static [u64],
    // What the two end with, after a refusal too: the counter and byte 69, which says that the retention is unlocked, other bytes, and copies
    // of the cells. Every other byte stays as it was.
    pub counters: [u8; 2],
    pub unlocked: [bool; 2],
    pub held: Option<Held>,
    pub copied: Copied,
    pub shown: Shown,
}

pub(crate) const BUFFER_STAYS: Shown = Shown::Words(", buffer as before");

pub(crate) const EACH_THE_SAME: Shown = Shown::Words(
    ", each 00 00 00 00 00 00 03 e3, bytes past it as before",
);

pub(crate) const ALL_STAYS: Shown = Shown::Words(", table and buffer as before");

// A read of `TWO`, which both monitors take.
pub(crate) const READ: FrameCase = FrameCase {
    name: "",
    start: TWO,
    monitors: 2,
    command: 0,
    body: Body::Ones(20),
    room: 20,
    outcome: Ok(2),
    replies: &[],
    counters: [5, 9],
    unlocked: [false, false],
    held: None,
    copied: Copied::Nowhere,
    shown: Shown::Reply,
};

// A bare command or a write, which both take and count.
pub(crate) const TAKEN: FrameCase = FrameCase {
    body: Body::Ones(4),
    counters: [6, 10],
    shown: Shown::Changes,
    ..READ
};

// A frame of four bytes that is refused.
pub(crate) const REFUSED: FrameCase = FrameCase {
    body: Body::Ones(4),
    room: 16,
    shown: ALL_STAYS,
    ..READ
};

impl FrameCase {
    // The table expected. Monitors past the second end as the second does.
    fn table(&self, before: &[u8]) -> Buffer {
        let mut table = holding(before);
        if let Some(held) = self.held {
            held.put(&mut table);
        }
        self.copied.put(&mut table);
        for (k, record) in table.chunks_mut(RECORD).enumerate() {
            let of = k.min(1);
            lay(
                record,
                68,
                &[self.counters[of], u8::from(self.unlocked[of])],
            );
        }
        table
    }

    // The reply buffer expected.
    fn buffer(&self) -> Buffer {
        let mut buffer = Buffer::new();
        for reply in self.replies {
            extend(&mut buffer, &reply.to_be_bytes());
        }
        resize(&mut buffer, self.room, UNTOUCHED);
        buffer
    }

    fn is_right(&self, before: &[u8], came: &Came) -> bool {
        let table = self.table(before);
        let buffer = self.buffer();
        let answer = self.outcome.map(|taken| Answer {
            taken,
            reply: 8 * self.replies.len(),
        });
        as_wanted(came.answer, answer) && came.table == table && came.buffer == buffer
    }

    // Writes what was done and what came.
    fn told<R: Print>(&self, rt: &R, before: &[u8], frame: &[u8], came: &Came) -> io::Result<()> {
        print!(rt; "{}", self.name)?;
        if !matches!(self.body, Body::Ones(_)) {
            print!(rt; ", sent{}", Bytes(frame.get(4..).unwrap_or(&[])))?;
        }
        print!(rt; "{}", Answered(came.answer))?;
        match self.shown {
            Shown::Words(_) => Ok(()),
            Shown::Reply => print!(rt; ";{}", Bytes(came.buffer.get(..16).unwrap_or(&[]))),
            Shown::Changes => {
                let changes = Changes {
                    before,
                    after: &came.table,
                };
                print!(rt; "{changes}")
            }
        }
    }
}

impl Case for FrameCase {
    fn tried<R: Print>(&self, rt: &R) -> io::Result<bool> {
        let before = self.start.table(self.monitors);
        let frame = frame(self.command, self.body);
        let came = Engine::WholeFrame.handled(&before, &frame, self.room);
        let clocked = Engine::Clocked.handled(&before, &frame, self.room);
        self.told(rt, &before, &frame, &came)?;
        let right = came == clocked && self.is_right(&before, &came);
        if let Shown::Words(words) = self.shown
            && right
        {
            print!(rt; "{words}")?;
        }
        Ok(right)
    }
}
