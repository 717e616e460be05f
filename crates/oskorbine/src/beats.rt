// A heartbeat in a lent table, positions counted from 1: a manager wakes, a message reaches a monitor, the whole of it, and the time runs out.
ghost use Rattle.std.specs.Prelude.{◌≡◌, length};
ghost use Rattle.passing.specs.Operations.{
  woken_at,
  table_after_wake,
  out_after_wake,
  relayed_at,
  table_after_relay,
  out_after_relay,
  beaten,
  table_after_beat,
  out_after_beat,
  timed_out,
  table_after_time_out,
};
ghost use Rattle.packing.specs.Packed.{packed};
ghost use Rattle.oskorbine.specs.Answers.{sent_parts, relayed_parts, timed_parts};

use messages::MESSAGE_SIZE;
use packing::{accepted, refused};
use passing::{End, Relayed, TimedOut};
use refusals::Refusal;

// 1 for port A, 2 for port B, with the bytes of a message.
fn sent_answer(sent: Result<Option<End>, Refusal>) -> u32
    ensures { result ≡ packed (sent_parts sent) }
{
    match sent {
        Err(refusal) => refused(refusal),
        Ok(end) => match end {
            None => accepted(0, 0),
            Some(end) => match end {
                End::A => accepted(1, MESSAGE_SIZE as u16),
                End::B => accepted(2, MESSAGE_SIZE as u16),
            },
        },
    }
}

// 1 where it is sent on, with the bytes of a message.
fn relayed_answer(relayed: Result<Relayed, Refusal>) -> u32
    ensures { result ≡ packed (relayed_parts relayed) }
{
    match relayed {
        Err(refusal) => refused(refusal),
        Ok(relayed) => match relayed {
            Relayed::Stopped => accepted(0, 0),
            Relayed::SentOn => accepted(1, MESSAGE_SIZE as u16),
        },
    }
}

// 1 at a timeout monitor in LPCM.
fn timed_answer(timed: Result<TimedOut, Refusal>) -> u32
    ensures { result ≡ packed (timed_parts timed) }
{
    match timed {
        Err(refusal) => refused(refusal),
        Ok(timed) => match timed {
            TimedOut::NoTimeoutMonitor => accepted(0, 0),
            TimedOut::RanOut => accepted(1, 0),
        },
    }
}

// The manager at a position wakes.
pub fn osk_wake(table: &mut [u8], position: usize, out: &mut [u8]) -> u32
    ensures value { result ≡ packed (sent_parts (woken_at table.old position (length out.old))) }
    ensures table_after { table.new ≡ table_after_wake table.old position (length out.old) }
    ensures out_after { out.new ≡ out_after_wake table.old position out.old }
{
    sent_answer(passing::wake(table, position, out))
}

// A message reaches the monitor at a position.
pub fn osk_relay(table: &mut [u8], position: usize, message: &[u8], out: &mut [u8]) -> u32
    ensures value { result ≡ packed (relayed_parts (relayed_at table.old position message.now (length out.old))) }
    ensures table_after { table.new ≡ table_after_relay table.old position message.now (length out.old) }
    ensures out_after { out.new ≡ out_after_relay table.old position message.now out.old }
{
    relayed_answer(passing::relay(table, position, message, out))
}

// A whole heartbeat.
pub fn osk_heartbeat(table: &mut [u8], position: usize, out: &mut [u8]) -> u32
    ensures value { result ≡ packed (sent_parts (beaten table.old position (length out.old))) }
    ensures table_after { table.new ≡ table_after_beat table.old position (length out.old) }
    ensures out_after { out.new ≡ out_after_beat table.old position out.old }
{
    sent_answer(passing::heartbeat(table, position, out))
}

// The time runs out at the monitor in a position.
pub fn osk_time_out(table: &mut [u8], position: usize) -> u32
    ensures value { result ≡ packed (timed_parts (timed_out table.old position)) }
    ensures table_after { table.new ≡ table_after_time_out table.old position }
{
    timed_answer(passing::time_out(table, position))
}
