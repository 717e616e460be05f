// What the paper says of a frame.
ghost use Rattle.std.specs.Prelude.{◌≡◌, length};

use crate::bench::{Frame, Outcome, Table};
use crate::spike::Spike;
use chain::Answer;
use records::{COUNTER, RECORD_SIZE, STATUS_BITS, UNLOCKED};
use refusals::Refusal;

// A write: what is there before, the frame as our host wrote it, where a monitor keeps its six bytes, and whether it keeps none that do not fit
// their check.
#[derive(Drop)]
pub(crate) struct Trial {
    pub before: Table,
    pub sent: Frame,
    pub at: usize,
    pub needs_check: bool,
}

// What a spike hits: the command with its check, the far payload, the near payload, or both payloads.
#[derive(Clone, Copy, PartialEq, Eq)]
pub(crate) enum Hit {
    Command,
    Far,
    Near,
    Both,
}

impl Hit {
    // By the spike's first bit and its last. The command has the first 32 places, and each payload the next 64.
    pub(crate) fn of(spike: Spike) -> Hit {
        if spike.place < 32 {
            Hit::Command
        } else if spike.end() <= 96 {
            Hit::Far
        } else if spike.place < 96 {
            Hit::Both
        } else {
            Hit::Near
        }
    }

    pub(crate) fn is_on_near(self) -> bool {
        self == Hit::Near || self == Hit::Both
    }

    pub(crate) fn is_on_far(self) -> bool {
        self == Hit::Far || self == Hit::Both
    }
}

// A monitor after an accepted frame: it is locked. Where it takes the frame it keeps bytes at a place of its record, and counts.
fn serve(record: &mut [u8], at: usize, taken: Option<&[u8]>)
    requires { length record.old ≡ RECORD_SIZE }
{
    record[UNLOCKED] = 0;
    if let Some(bytes) = taken {
        laying::put(record, at, bytes);
        record[COUNTER] = record[COUNTER] % 63 + 1;
    }
}

// An accepted frame. Each monitor that takes it keeps bytes at a place of its record.
fn served(before: &Table, at: usize, near: Option<&[u8]>, far: Option<&[u8]>) -> Outcome {
    let mut table = *before;
    let (near_record, far_record) = table.split_at_mut(RECORD_SIZE);
    serve(near_record, at, near);
    serve(far_record, at, far);
    let taken = usize::from(near.is_some()) + usize::from(far.is_some());
    Outcome::without_reply(table, Ok(Answer { taken, reply: 0 }))
}

impl Trial {
    // The frame as our host wrote it.
    pub(crate) fn due_as_sent(&self) -> Outcome {
        self.due_untold(&self.sent)
    }

    // A frame whose checks tell of no spike: each monitor takes it.
    pub(crate) fn due_untold(&self, came: &Frame) -> Outcome {
        served(
            &self.before,
            self.at,
            Some(&came[12..18]),
            Some(&came[4..10]),
        )
    }

    // A write is refused where the command was hit; otherwise each monitor takes it, but for one whose check tells that its payload was hit.
    pub(crate) fn due(&self, came: &Frame, hit: Hit) -> Outcome {
        if hit == Hit::Command {
            return Outcome::without_reply(self.before, Err(Refusal::CommandWrong));
        }
        let near_told = self.needs_check && hit.is_on_near();
        let far_told = self.needs_check && hit.is_on_far();
        let near = (!near_told).then_some(&came[12..18]);
        let far = (!far_told).then_some(&came[4..10]);
        served(&self.before, self.at, near, far)
    }
}

// After MUTE, and after UNMUTE.
pub(crate) fn due_of_mute(before: &Table, muted: bool) -> Outcome {
    let bit = if muted { 0x10 } else { 0 };
    let near = before[STATUS_BITS] & 0xef | bit;
    let far = before[RECORD_SIZE + STATUS_BITS] & 0xef | bit;
    served(before, STATUS_BITS, Some(&[near]), Some(&[far]))
}
