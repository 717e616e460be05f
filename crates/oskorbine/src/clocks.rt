// The second engine: a frame a byte at a time, in a state that the caller lends.
ghost use Rattle.std.specs.Prelude.{◌≡◌, length};
ghost use Rattle.clocking.specs.Clock.{clocked, answered};
ghost use Rattle.releasing.specs.Look.{looked, out_after};
ghost use Rattle.releasing.specs.Release.{released, table_released};
ghost use Rattle.clock_state.specs.State.{idle};
ghost use Rattle.clocking.specs.Bytes.{clock_of, state_after};
ghost use Rattle.packing.specs.Packed.{packed, accepted};
ghost use Rattle.oskorbine.specs.Answers.{frame_parts, looked_parts};

use crate::answers::frame_answer;
use clock_state::STATE_SIZE;
use packing::{accepted, refused};

// Before a frame, whatever the bytes were: a frame that had begun is given up.
pub fn osk_clock_start(state: &mut [u8; STATE_SIZE])
    ensures { state.new ≡ idle }
{
    clock_state::start(state);
}

// Clocks one byte in: the byte that comes back.
pub fn osk_clock_byte(state: &mut [u8; STATE_SIZE], table: &[u8], byte: u8) -> u32
    ensures value { result ≡ packed (accepted (answered (clock_of state.old)) 0) }
    ensures state_after { clock_of state.new ≡ clocked table.now byte (clock_of state.old) }
    ensures state_after_2 { state.new ≡ state_after table.now byte state.old }
{
    accepted(clocking::clock(state, table, byte), 0)
}

// The window of the monitor at a position, oldest byte first: how many bytes it holds.
pub fn osk_clock_window(state: &[u8; STATE_SIZE], position: usize, out: &mut [u8]) -> u32
    ensures value { result ≡ packed (looked_parts (looked (clock_of state.now) position (length out.old))) }
    ensures out_after { out.new ≡ out_after (clock_of state.now) position out.old }
{
    match releasing::look(state, position, out) {
        Err(refusal) => refused(refusal),
        Ok(size) => accepted(0, size as u16),
    }
}

// Ends a frame, with the values that a whole frame has; the next one starts empty.
pub fn osk_clock_release(state: &mut [u8; STATE_SIZE], table: &mut [u8]) -> u32
    ensures value { result ≡ packed (frame_parts (released (clock_of state.old) table.old)) }
    ensures state_after { state.new ≡ idle }
    ensures table_after { table.new ≡ table_released (clock_of state.old) table.old }
{
    frame_answer(releasing::release(state, table))
}
