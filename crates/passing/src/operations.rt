// What is done to a table of a heartbeat, with its refusals. Positions count from 1, and a refusal changes nothing.
ghost use Rattle.std.specs.Prelude.{◌≡◌, cond, not, ◌-◌, ◌≤◌, eqb, length, Some, None, Ok, Err};
ghost use Rattle.refusals.specs.Order.{decide};
ghost use Rattle.messages.specs.Messages.{message_size};
ghost use Rattle.passing.specs.declared.operations.End.TheVariants.{A, B};
ghost use Rattle.passing.specs.Hops.{bytes_sent};
ghost use Rattle.passing.specs.Operations.{
  handed_out,
  wake_refusals,
  relay_refusals,
  woken_at,
  table_after_wake,
  out_after_wake,
  relayed_at,
  table_after_relay,
  out_after_relay,
  beaten,
  table_after_beat,
  out_after_beat,
  timed_out,
  table_after_time_out,
};

use crate::hops::{Road, beat_from, reach_at, run_out_at, towards_a_at, wake_at};
use heartbeats::Beat;
use judging::place_of;
use laying::put;
use messages::{MESSAGE_SIZE, message};
use records::RECORD_SIZE;
use refusals::Refusal;

// The two ends of a chain: port A is at monitor 1, port B behind the last.
#[derive(Clone, Copy, Debug, PartialEq, Eq)]
pub enum End {
    A,
    B,
}

// What comes of a message that reaches a monitor.
#[derive(Clone, Copy, Debug, PartialEq, Eq)]
pub enum Relayed {
    Stopped,
    SentOn,
}

// What comes of the time that runs out.
#[derive(Clone, Copy, Debug, PartialEq, Eq)]
pub enum TimedOut {
    NoTimeoutMonitor,
    RanOut,
}

// The refusals of a wake and of a whole heartbeat, in their order: of the table, of the position and of the room.
fn judge_wake(table: &[u8], position: usize, room: usize) -> Result<usize, Refusal>
    ensures { result ≡ decide (wake_refusals table.now position room) Err (Ok (position - 1)) }
{
    let k = place_of(table, position)?;
    if room < MESSAGE_SIZE {
        return Err(Refusal::NoRoom);
    }
    Ok(k)
}

// Those of a message that reaches a monitor: of the table, of the position, of the bytes that came and of the room.
fn judge_relay(table: &[u8], position: usize, bytes: usize, room: usize) -> Result<usize, Refusal>
    ensures { result ≡ decide (relay_refusals table.now position bytes room) Err (Ok (position - 1)) }
{
    let k = place_of(table, position)?;
    if bytes != MESSAGE_SIZE {
        return Err(Refusal::LengthWrong);
    }
    if room < MESSAGE_SIZE {
        return Err(Refusal::NoRoom);
    }
    Ok(k)
}

// What a monitor sends, at the start of a buffer: is it something?
fn hand_out(beat: Option<Beat>, out: &mut [u8]) -> bool
    requires { message_size ≤ length out.old }
    ensures value { result ≡ not (eqb (length (bytes_sent beat)) 0) }
    ensures out_after { out.new ≡ handed_out (bytes_sent beat) out.old }
{
    match beat {
        None => false,
        Some(beat) => {
            let own = message(beat.count, beat.flags);
            put(out, 0, &own);
            true
        }
    }
}

// The end of the chain that it is sent towards, if it is something.
fn sent_towards(some: bool, to_a: bool) -> Option<End>
    ensures { result ≡ cond (not «some») None (cond to_a (Some A) (Some B)) }
{
    if !some {
        return None;
    }
    if to_a {
        return Some(End::A);
    }
    Some(End::B)
}

// The manager at a position wakes, and what it sends is handed out.
pub fn wake(table: &mut [u8], position: usize, out: &mut [u8]) -> Result<Option<End>, Refusal>
    ensures value { result ≡ woken_at table.old position (length out.old) }
    ensures table_after { table.new ≡ table_after_wake table.old position (length out.old) }
    ensures out_after { out.new ≡ out_after_wake table.old position out.old }
{
    let k = judge_wake(table, position, out.len())?;
    let to_a = towards_a_at(table, k);
    let beat = wake_at(table, k);
    Ok(sent_towards(hand_out(beat, out), to_a))
}

// A message reaches the monitor at a position, and what that sends on is handed out.
pub fn relay(
    table: &mut [u8],
    position: usize,
    message: &[u8],
    out: &mut [u8],
) -> Result<Relayed, Refusal>
    ensures value { result ≡ relayed_at table.old position message.now (length out.old) }
    ensures table_after { table.new ≡ table_after_relay table.old position message.now (length out.old) }
    ensures out_after { out.new ≡ out_after_relay table.old position message.now out.old }
{
    let k = judge_relay(table, position, message.len(), out.len())?;
    let beat = reach_at(table, k, message);
    if hand_out(beat, out) {
        return Ok(Relayed::SentOn);
    }
    Ok(Relayed::Stopped)
}

// A whole heartbeat: the manager at a position wakes, and its message goes from monitor to monitor, nearest to it first, until it leaves the
// chain, and is handed out, or stops.
pub fn heartbeat(table: &mut [u8], position: usize, out: &mut [u8]) -> Result<Option<End>, Refusal>
    ensures value { result ≡ beaten table.old position (length out.old) }
    ensures table_after { table.new ≡ table_after_beat table.old position (length out.old) }
    ensures out_after { out.new ≡ out_after_beat table.old position out.old }
{
    let k = judge_wake(table, position, out.len())?;
    let to_a = towards_a_at(table, k);
    let n = table.len() / RECORD_SIZE;
    let end = beat_from(table, Road { to_a, n, k });
    Ok(sent_towards(hand_out(end, out), to_a))
}

// The time runs out at the monitor in a position.
pub fn time_out(table: &mut [u8], position: usize) -> Result<TimedOut, Refusal>
    ensures value { result ≡ timed_out table.old position }
    ensures table_after { table.new ≡ table_after_time_out table.old position }
{
    let k = place_of(table, position)?;
    if run_out_at(table, k) {
        return Ok(TimedOut::RanOut);
    }
    Ok(TimedOut::NoTimeoutMonitor)
}
