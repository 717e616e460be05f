// A heartbeat hop by hop, and what our host makes of what comes to it.

use crate::cabinet::Cabinet;
use crate::frames::{Field, Message};
use crate::plan::Wire;
use crate::registers::Flags;
use crate::steps::compare;
use messages::Verdict;
use refusals::Refusal;
use std::io;

// CMC_NDEV: 42 (hex) and two monitors.
const NDEV: u8 = 0x44;

// What a wire carries.
pub(crate) fn show(rt: &impl Print, wire: &str, message: Option<Message>) -> io::Result<()> {
    match message {
        Some(message) => print!(rt; "\n  {wire}{message}"),
        None => print!(rt; "\n  {wire} nothing"),
    }
}

// A heartbeat with a bit turned over on one wire: what comes to our host.
pub(crate) fn disturb(
    rt: &impl Print,
    cabinet: &mut Cabinet,
    wire: Wire,
    field: Field,
) -> io::Result<Option<Message>> {
    let over = |message: Message, here: Wire| {
        if wire == here {
            message.disturbed(field)
        } else {
            message
        }
    };
    let sent = cabinet.wake();
    show(rt, "the far half sends:    ", sent)?;
    let received = sent.map(|message| over(message, Wire::BetweenHalves));
    show(rt, "the near half receives:", received)?;
    let sent_on = received.and_then(|message| cabinet.relay(message));
    show(rt, "the near half sends on:", sent_on)?;
    Ok(sent_on.map(|message| over(message, Wire::ToHost)))
}

// Our host's verdict. It waits until something comes or its time has run out.
pub(crate) fn judge(
    rt: &impl Print,
    message: Option<Message>,
    expected: Verdict,
) -> io::Result<bool> {
    show(rt, "our host hears:", message)?;
    let verdict = match message {
        Some(message) => messages::verdict_on(&message.0, false),
        None => messages::verdict_on(b"", true),
    };
    tell(rt, verdict)?;
    compare(rt, verdict, Ok(expected))
}

fn tell(rt: &impl Print, verdict: Result<Verdict, Refusal>) -> io::Result<()> {
    match verdict {
        Err(_) => print!(rt; "\n  NOT judged."),
        Ok(Verdict::Passed) => print!(rt;
            "\n  PASSED: both halves are within their limits. Nothing to do."
        ),
        Ok(Verdict::Failed { count, flags }) => {
            let passed = NDEV.wrapping_sub(count);
            let kinds = Flags(flags);
            print!(rt;
                "\n  FAILED, so read the flags of both halves: count {count:02x}, flags {flags:02x}; \
                {passed} of 2 monitors passed{kinds}"
            )
        }
        Ok(Verdict::Damaged) => print!(rt;
            "\n  DAMAGED: this is not as it was sent. Wait for the next beat, and look at the wire to the host."
        ),
        Ok(Verdict::TimedOut) => print!(rt;
            "\n  TIMED OUT: no heartbeat came. Read the flags: is a half not in LPCM? If both are, look at the wire between them."
        ),
    }
}
