// The host's verdict on a heartbeat.
ghost use Rattle.std.specs.Prelude.{◌≡◌, not, eqb};
ghost use Rattle.messages.specs.Verdicts.{verdict};
ghost use Rattle.packing.specs.Packed.{packed};
ghost use Rattle.door.specs.Answers.{verdict_parts};

use messages::{Verdict, verdict_on};
use packing::{accepted, refused};

// 1 where it passed, 2 where it failed, with 256 times the count and the flags, 3 where it is damaged, 4 where the time ran out: 0 is no.
pub fn osk_verdict(message: &[u8], time_ran_out: u8) -> u32
    ensures { result ≡ packed (verdict_parts (verdict message.now (not (eqb time_ran_out 0)))) }
{
    match verdict_on(message, time_ran_out != 0) {
        Err(refusal) => refused(refusal),
        Ok(Verdict::Passed) => accepted(1, 0),
        Ok(Verdict::Failed { count, flags }) => accepted(2, 256 * (count as u16) + (flags as u16)),
        Ok(Verdict::Damaged) => accepted(3, 0),
        Ok(Verdict::TimedOut) => accepted(4, 0),
    }
}
