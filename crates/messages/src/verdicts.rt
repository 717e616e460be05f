// The host's verdict on what came to it of a heartbeat.
ghost use Rattle.std.specs.Prelude.{◌≡◌, length};
ghost use Rattle.messages.specs.Messages.{message_size};
ghost use Rattle.messages.specs.Verdicts.{verdict_of, verdict};

use crate::messages::{MESSAGE_SIZE, message_right};
use refusals::Refusal;

// How a heartbeat ended.
#[derive(Clone, Copy, Debug, PartialEq, Eq)]
pub enum Verdict {
    Passed,
    Failed { count: u8, flags: u8 },
    Damaged,
    TimedOut,
}

// The final pass value: what is left of the count where all have passed, and no flag.
pub const PASS_COUNT: u8 = 0x42;

// Of eight bytes.
#[tactic(auto, unfolding(crate::specs::Verdicts::verdict_of, crate::specs::Messages::count_in, crate::specs::Messages::flags_in, crate::specs::Messages::is_pass))]
fn of_eight(bytes: &[u8], ran_out: bool) -> Verdict
    requires { length bytes.now ≡ message_size }
    ensures { result ≡ verdict_of bytes.now ran_out }
{
    if ran_out {
        return Verdict::TimedOut;
    }
    if !message_right(bytes) {
        return Verdict::Damaged;
    }
    let count = bytes[4];
    let flags = bytes[5];
    if count != PASS_COUNT || flags != 0 {
        return Verdict::Failed { count, flags };
    }
    Verdict::Passed
}

// How did a heartbeat end, by the bytes that came and whether the time ran out?
pub fn verdict_on(bytes: &[u8], ran_out: bool) -> Result<Verdict, Refusal>
    ensures { result ≡ verdict bytes.now ran_out }
{
    if bytes.len() == MESSAGE_SIZE {
        return Ok(of_eight(bytes, ran_out));
    }
    if !ran_out {
        return Err(Refusal::LengthWrong);
    }
    if bytes.len() != 0 {
        return Err(Refusal::LengthWrong);
    }
    Ok(Verdict::TimedOut)
}
