// The chain's functions as C calls them: each is the function of `oskorbine` with its name, and has its clauses. A slice is a pointer and
// a length; an answer is a u32 that holds the refusal number and two values (`packing`). The host's are those of `door_c`: the library has
// both crates.
#![tactic(auto)]

ghost use Rattle.std.specs.Prelude.{◌≡◌, length};
ghost use Rattle.chain.specs.Frame.{answer, table_after, reply_after};
ghost use Rattle.packing.specs.Packed.{packed, accepted};
ghost use Rattle.oskorbine.specs.Answers.{frame_parts, load_parts, discharged_parts, sent_parts, relayed_parts, timed_parts, looked_parts};
ghost use Rattle.loads.specs.Load.{stored, table_after_store, compared, table_after_compare, loaded, table_after_load};
ghost use Rattle.discharge.specs.Question.{discharged, outputs_after};
ghost use Rattle.oskorbine.specs.Events.{events_in};
ghost use Rattle.passing.specs.Operations.{
  woken_at,
  table_after_wake,
  out_after_wake,
  relayed_at,
  table_after_relay,
  out_after_relay,
  beaten,
  table_after_beat,
  out_after_beat,
  timed_out,
  table_after_time_out,
};
ghost use Rattle.clocking.specs.Clock.{clocked, answered};
ghost use Rattle.releasing.specs.Look.{looked, out_after};
ghost use Rattle.releasing.specs.Release.{released, table_released};
ghost use Rattle.clock_state.specs.State.{idle};
ghost use Rattle.clocking.specs.Bytes.{clock_of, state_after};

use clock_state::STATE_SIZE;

// Handles a frame: how many monitors took it, and the length of the reply.
#[unsafe(no_mangle)]
pub extern "C" fn osk_frame(table: &mut [u8], frame: &[u8], reply: &mut [u8]) -> u32
    ensures value { result ≡ packed (frame_parts (answer table.old frame.now (length reply.old))) }
    ensures table_after { table.new ≡ table_after table.old frame.now (length reply.old) }
    ensures reply_after { reply.new ≡ reply_after table.old frame.now reply.old }
{
    oskorbine::osk_frame(table, frame, reply)
}

// Stores sixteen codes.
#[unsafe(no_mangle)]
pub extern "C" fn osk_store(table: &mut [u8], position: usize, codes: &[i16]) -> u32
    ensures value { result ≡ packed (load_parts (stored table.old position codes.now)) }
    ensures table_after { table.new ≡ table_after_store table.old position codes.now }
{
    oskorbine::osk_store(table, position, codes)
}

// Compares the stored cells with the thresholds.
#[unsafe(no_mangle)]
pub extern "C" fn osk_compare(table: &mut [u8], position: usize) -> u32
    ensures value { result ≡ packed (load_parts (compared table.old position)) }
    ensures table_after { table.new ≡ table_after_compare table.old position }
{
    oskorbine::osk_compare(table, position)
}

// Loads sixteen codes.
#[unsafe(no_mangle)]
pub extern "C" fn osk_load(table: &mut [u8], position: usize, codes: &[i16]) -> u32
    ensures value { result ≡ packed (load_parts (loaded table.old position codes.now)) }
    ensures table_after { table.new ≡ table_after_load table.old position codes.now }
{
    oskorbine::osk_load(table, position, codes)
}

// The sixteen outputs, a byte each: how many of them are on.
#[unsafe(no_mangle)]
pub extern "C" fn osk_discharge(
    table: &[u8],
    position: usize,
    events: u8,
    phase: u8,
    out: &mut [u8],
) -> u32
    ensures value { result ≡ packed (discharged_parts (discharged table.now position (events_in events) phase (length out.old))) }
    ensures out_after { out.new ≡ outputs_after table.now position (events_in events) phase out.old }
{
    oskorbine::osk_discharge(table, position, events, phase, out)
}

// The manager at a position wakes.
#[unsafe(no_mangle)]
pub extern "C" fn osk_wake(table: &mut [u8], position: usize, out: &mut [u8]) -> u32
    ensures value { result ≡ packed (sent_parts (woken_at table.old position (length out.old))) }
    ensures table_after { table.new ≡ table_after_wake table.old position (length out.old) }
    ensures out_after { out.new ≡ out_after_wake table.old position out.old }
{
    oskorbine::osk_wake(table, position, out)
}

// A message reaches the monitor at a position.
#[unsafe(no_mangle)]
pub extern "C" fn osk_relay(
    table: &mut [u8],
    position: usize,
    message: &[u8],
    out: &mut [u8],
) -> u32
    ensures value { result ≡ packed (relayed_parts (relayed_at table.old position message.now (length out.old))) }
    ensures table_after { table.new ≡ table_after_relay table.old position message.now (length out.old) }
    ensures out_after { out.new ≡ out_after_relay table.old position message.now out.old }
{
    oskorbine::osk_relay(table, position, message, out)
}

// A whole heartbeat.
#[unsafe(no_mangle)]
pub extern "C" fn osk_heartbeat(table: &mut [u8], position: usize, out: &mut [u8]) -> u32
    ensures value { result ≡ packed (sent_parts (beaten table.old position (length out.old))) }
    ensures table_after { table.new ≡ table_after_beat table.old position (length out.old) }
    ensures out_after { out.new ≡ out_after_beat table.old position out.old }
{
    oskorbine::osk_heartbeat(table, position, out)
}

// The time runs out at the monitor in a position.
#[unsafe(no_mangle)]
pub extern "C" fn osk_time_out(table: &mut [u8], position: usize) -> u32
    ensures value { result ≡ packed (timed_parts (timed_out table.old position)) }
    ensures table_after { table.new ≡ table_after_time_out table.old position }
{
    oskorbine::osk_time_out(table, position)
}

// Before a frame, whatever the bytes were: a frame that had begun is given up.
#[unsafe(no_mangle)]
pub extern "C" fn osk_clock_start(state: &mut [u8; STATE_SIZE])
    ensures { state.new ≡ idle }
{
    oskorbine::osk_clock_start(state);
}

// Clocks one byte in: the byte that comes back.
#[unsafe(no_mangle)]
pub extern "C" fn osk_clock_byte(state: &mut [u8; STATE_SIZE], table: &[u8], byte: u8) -> u32
    ensures value { result ≡ packed (accepted (answered (clock_of state.old)) 0) }
    ensures state_after { clock_of state.new ≡ clocked table.now byte (clock_of state.old) }
    ensures state_after_2 { state.new ≡ state_after table.now byte state.old }
{
    oskorbine::osk_clock_byte(state, table, byte)
}

// The window of the monitor at a position, oldest byte first: how many bytes it holds.
#[unsafe(no_mangle)]
pub extern "C" fn osk_clock_window(state: &[u8; STATE_SIZE], position: usize, out: &mut [u8]) -> u32
    ensures value { result ≡ packed (looked_parts (looked (clock_of state.now) position (length out.old))) }
    ensures out_after { out.new ≡ out_after (clock_of state.now) position out.old }
{
    oskorbine::osk_clock_window(state, position, out)
}

// Ends a frame, with the values that a whole frame has; the next one starts empty.
#[unsafe(no_mangle)]
pub extern "C" fn osk_clock_release(state: &mut [u8; STATE_SIZE], table: &mut [u8]) -> u32
    ensures value { result ≡ packed (frame_parts (released (clock_of state.old) table.old)) }
    ensures state_after { state.new ≡ idle }
    ensures table_after { table.new ≡ table_released (clock_of state.old) table.old }
{
    oskorbine::osk_clock_release(state, table)
}
