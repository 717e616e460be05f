// What comes of a frame or of an operation: its numbers, the table, and the reply buffer, all of them whole.
ghost use Rattle.std.specs.Prelude.{◌≤◌};

use crate::digest::{Digest, Digested};
use chain::{Answer, numbers_of};
use passing::{End, Relayed, TimedOut};
use records::{MOST_MONITORS, RECORD_SIZE};
use refusals::Refusal;

// 32 records and one byte more.
pub(crate) const TABLE_SIZE: usize = MOST_MONITORS * RECORD_SIZE + 1;

pub(crate) type Table = [u8; TABLE_SIZE];

pub(crate) const REPLY_ROOM: usize = 272;

pub(crate) type Reply = [u8; REPLY_ROOM];

// What a reply buffer holds before a frame or an operation.
pub(crate) const BEFORE: Reply = [0xa5; REPLY_ROOM];

// How many bytes a message has that an operation hands out.
const MESSAGE_SIZE: u16 = 8;

// The number that it came to; how many monitors took the frame, or what an operation answered; and how many bytes were handed out.
// These are the bytes that the digest is of, as tools/two-engines-model has them; so acceptance is number 0, and no Result.
#[derive(Clone, Copy, PartialEq, Eq)]
pub(crate) struct Head {
    pub number: u8,
    pub first: u8,
    pub length: u16,
}

impl Head {
    // Nothing was answered, and nothing was handed out.
    pub(crate) fn without_answer(number: u8) -> Head {
        Head {
            number,
            first: 0,
            length: 0,
        }
    }

    fn refused(refusal: Refusal) -> Head {
        Head::without_answer(refusals::number_of(refusal))
    }

    fn answered(first: u8, length: u16) -> Head {
        Head {
            number: 0,
            first,
            length,
        }
    }
}

// No frame comes to 255: that shows a count which its bytes cannot hold.
impl From<Result<Answer, Refusal>> for Head {
    fn from(came: Result<Answer, Refusal>) -> Head {
        let numbers = numbers_of(came);
        let first = u8::try_from(numbers.taken);
        let length = u16::try_from(numbers.reply);
        match (first, length) {
            (Ok(first), Ok(length)) => Head {
                number: numbers.number,
                first,
                length,
            },
            _ => Head::without_answer(255),
        }
    }
}

impl From<Result<Option<End>, Refusal>> for Head {
    fn from(came: Result<Option<End>, Refusal>) -> Head {
        match came {
            Err(refusal) => Head::refused(refusal),
            Ok(None) => Head::answered(0, 0),
            Ok(Some(End::A)) => Head::answered(1, MESSAGE_SIZE),
            Ok(Some(End::B)) => Head::answered(2, MESSAGE_SIZE),
        }
    }
}

impl From<Result<Relayed, Refusal>> for Head {
    fn from(came: Result<Relayed, Refusal>) -> Head {
        match came {
            Err(refusal) => Head::refused(refusal),
            Ok(Relayed::Stopped) => Head::answered(0, 0),
            Ok(Relayed::SentOn) => Head::answered(1, MESSAGE_SIZE),
        }
    }
}

impl From<Result<TimedOut, Refusal>> for Head {
    fn from(came: Result<TimedOut, Refusal>) -> Head {
        match came {
            Err(refusal) => Head::refused(refusal),
            Ok(TimedOut::NoTimeoutMonitor) => Head::answered(0, 0),
            Ok(TimedOut::RanOut) => Head::answered(1, 0),
        }
    }
}

#[derive(Clone, Copy, PartialEq, Eq)]
pub(crate) struct Outcome {
    pub head: Head,
    pub table: Table,
    pub reply: Reply,
}

impl Outcome {
    // Neither the table nor the reply buffer is changed.
    pub(crate) fn unchanged(table: &Table, head: Head) -> Outcome {
        Outcome {
            head,
            table: *table,
            reply: BEFORE,
        }
    }

    // A refusal changes nothing.
    pub(crate) fn refused(table: &Table, refusal: Refusal) -> Outcome {
        Outcome::unchanged(table, Head::refused(refusal))
    }
}

// All of its bytes, of the length the lower one first.
impl Digested for Outcome {
    fn add_to(&self, digest: &mut Digest) {
        digest.add(&[self.head.number, self.head.first]);
        digest.add(&self.head.length.to_le_bytes());
        digest.add(&self.table);
        digest.add(&self.reply);
    }
}

// How many bytes are lent, of a table and of a reply buffer.
#[derive(Clone, Copy)]
pub(crate) struct Loan {
    pub size: usize,
    pub room: usize,
    ghost in_range: { (size ≤ 5441) × (room ≤ 272) },
}

impl Loan {
    // What comes of an engine, or of an operation, over the bytes that are lent.
    pub(crate) fn through<F: FnOnce(&mut [u8], &mut [u8]) -> Head>(
        self,
        before: &Table,
        run: F,
    ) -> Outcome
        requires { F.IsAlwaysCallable run }
    {
        let mut table = *before;
        let mut reply = BEFORE;
        let head = run(&mut table[..self.size], &mut reply[..self.room]);
        Outcome { head, table, reply }
    }
}
