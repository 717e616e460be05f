// A chain in LPCM, what is done to it of a heartbeat, and the host's verdict.
use crate::bench::{RECORD, UNTOUCHED};
use crate::buffers::{Buffer, extend, filled, holding, lay, resize};
use crate::case::{Case, as_wanted};
use crate::operations::{Judged, Operation, Outcome};
use crate::say::{Bytes, Changes, Refused};
use messages::Verdict;
use passing::End;
use refusals::Refusal;
use std::io;

// Bytes at a place of the table.
#[derive(Clone, Copy)]
pub(crate) struct Patch(pub usize, pub &'static [u8]);

#[derive(Clone, Copy)]
pub(crate) struct Beat {
    pub note: &'static str,
    pub operation: Operation,
    // How many bytes come to a relay, and the room for a message.
    pub bytes: usize,
    pub room: usize,
    pub monitors: u8,
    // How many bytes of a table are lent, where they are not those of its monitors.
    pub lent: Option<usize>,
    pub position: usize,
    // What is changed before it, in the chain that `sleeping` makes.
    pub before: &'static [Patch],
    pub outcome: Result<Outcome, Refusal>,
    // The message that it hands out, and the verdict on this after a whole heartbeat.
    pub handed_out: Option<u64>,
    pub verdict: Option<Verdict>,
    // What it changes. Every other byte of the table and of the buffer stays.
    pub after: &'static [Patch],
}

// A whole heartbeat in which nothing is sent.
pub(crate) const BEAT: Beat = Beat {
    note: "",
    operation: Operation::Heartbeat,
    bytes: 8,
    room: 8,
    monitors: 2,
    lent: None,
    position: 2,
    before: &[],
    outcome: Ok(Outcome::Nothing),
    handed_out: None,
    verdict: None,
    after: &[],
};

// Every monitor passes, and the manager sends towards port A.
pub(crate) const PASSED: Beat = Beat {
    outcome: Ok(Outcome::Towards(End::A)),
    handed_out: Some(0x0043_47b2_4200_0394),
    verdict: Some(Verdict::Passed),
    ..BEAT
};

// So many monitors of 0 after CMEN, which makes CMF1 83. The last one is the manager: CMC_NDEV is their number and 42 (hex) more, and CMC_DIR
// is set. Since 0 is no code below 0 nor above it, all pass.
fn sleeping(monitors: u8) -> Buffer {
    let mut table = filled(0, RECORD * usize::from(monitors));
    let _ = chain::handle(&mut table, &0x0041_dae4_u32.to_be_bytes(), &mut []);
    if let Some(manager) = table.chunks_mut(RECORD).last() {
        lay(
            manager,
            114,
            &[0x80, monitors.wrapping_add(0x42), 0x00, 0x00, 0x20],
        );
    }
    table
}

fn lay_all(table: &mut [u8], patches: &[Patch]) {
    for Patch(at, bytes) in patches {
        lay(table, *at, bytes);
    }
}

impl Beat {
    fn table(&self) -> Buffer {
        let mut table = sleeping(self.monitors);
        lay_all(&mut table, self.before);
        if let Some(bytes) = self.lent {
            resize(&mut table, bytes, 0);
        }
        table
    }

    // The buffer expected.
    fn buffer(&self) -> Buffer {
        let mut buffer = Buffer::new();
        if let Some(message) = self.handed_out {
            extend(&mut buffer, &message.to_be_bytes());
        }
        resize(&mut buffer, self.room, UNTOUCHED);
        buffer
    }

    // Writes what is done: to so many monitors, at a position, with so much room and so many bytes.
    fn asked<R: Print>(&self, rt: &R) -> io::Result<()> {
        let name = match self.operation {
            Operation::Wake => "wake",
            Operation::Relay(_) => "relay",
            Operation::Heartbeat => "heartbeat",
            Operation::TimeOut => "time out",
        };
        print!(rt;
            "{name}, monitors {}, position {}",
            self.monitors, self.position
        )?;
        if self.operation != Operation::TimeOut {
            print!(rt; ", room {}", self.room)?;
        }
        if matches!(self.operation, Operation::Relay(_)) {
            print!(rt; ", bytes {}", self.bytes)?;
        }
        if let Some(bytes) = self.lent {
            print!(rt; ", table bytes {bytes}")?;
        }
        print!(rt; "{}", self.note)
    }
}

// A message that was sent is the whole of the first eight bytes of the buffer.
fn sent(came: Result<Outcome, Refusal>, buffer: &[u8]) -> &[u8] {
    match came {
        Ok(Outcome::Towards(_) | Outcome::SentOn) => buffer.get(..8).unwrap_or(&[]),
        _ => &[],
    }
}

// The table and the buffer after it, what came of it, and the verdict.
#[derive(Drop)]
struct Came {
    table: Buffer,
    buffer: Buffer,
    outcome: Result<Outcome, Refusal>,
    verdict: Option<Result<Verdict, Refusal>>,
}

impl Beat {
    fn done(&self, before: &[u8]) -> Came {
        let mut table = holding(before);
        let mut buffer = filled(UNTOUCHED, self.room);
        let outcome = self
            .operation
            .done(&mut table, self.position, self.bytes, &mut buffer);
        let message = sent(outcome, &buffer);
        let verdict = if self.operation == Operation::Heartbeat && !message.is_empty() {
            Some(messages::verdict_on(message, false))
        } else {
            None
        };
        Came {
            table,
            buffer,
            outcome,
            verdict,
        }
    }

    fn is_right(&self, before: &[u8], came: &Came) -> bool {
        let mut table = holding(before);
        lay_all(&mut table, self.after);
        let buffer = self.buffer();
        let same = came.table == table && came.buffer == buffer;
        let verdict = self.verdict.map(|verdict| Ok(verdict));
        same && as_wanted(came.outcome, self.outcome) && came.verdict == verdict
    }

    // Writes what came. The time that runs out has no buffer.
    fn told<R: Print>(&self, rt: &R, before: &[u8], came: &Came) -> io::Result<()> {
        let message = sent(came.outcome, &came.buffer);
        match came.outcome {
            Err(refusal) => print!(rt; "{}", Refused(refusal))?,
            Ok(outcome) => print!(rt; "{outcome}{}", Bytes(message))?,
        }
        if let Some(verdict) = came.verdict {
            print!(rt; "{}", Judged(verdict))?;
        }
        let after = came.table.as_slice();
        if before != after {
            return print!(rt; "{}", Changes { before, after });
        }
        if self.operation != Operation::TimeOut && message.is_empty() {
            return print!(rt; ", table and buffer as before");
        }
        print!(rt; ", table as before")
    }
}

impl Case for Beat {
    fn tried<R: Print>(&self, rt: &R) -> io::Result<bool> {
        let before = self.table();
        let came = self.done(&before);
        self.asked(rt)?;
        self.told(rt, &before, &came)?;
        Ok(self.is_right(&before, &came))
    }
}
