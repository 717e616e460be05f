// A look at one monitor's window, at any time of a frame.
ghost use Rattle.std.specs.Prelude.{◌≡◌, [], ◌-◌, ◌*◌, ◌<◌, ◌≤◌, min, length, get_or};
ghost use Rattle.records.specs.Commands.{most_monitors, payload_size};
ghost use Rattle.releasing.specs.Look.{looked, out_after};
ghost use Rattle.clock_state.specs.State.{state_size, chained_in};
ghost use Rattle.clocking.specs.Bytes.{clock_of};

use clock_state::{Kind, STATE_SIZE, WINDOWS, chained_in, kind_in, seen_in};
use records::PAYLOAD_SIZE;
use refusals::Refusal;

// How many of a write's bytes the window of so many bytes at k, counted from 0, holds: the nearest fill first.
fn held_by(seen: usize, k: usize, width: usize) -> usize
    requires { (k < most_monitors) × (width ≤ payload_size) }
    ensures { result ≡ min width (seen - 4 - k * width) }
{
    seen.saturating_sub(4 + width * k).min(width)
}

// The window at k, counted from 0, oldest byte first.
pub(crate) fn window_in(state: &[u8; STATE_SIZE], n: usize, k: usize) -> &[u8]
    requires { (n ≡ chained_in state.now) × (n ≤ most_monitors) × (k < n) }
    ensures { result.now ≡ get_or (clock_of state.now).windows k [] }
{
    match kind_in(state) {
        Kind::Fills(width) => {
            let width = width as usize;
            let end = WINDOWS + width * (n - k);
            let at = end - held_by(seen_in(state), k, width);
            &state[at..end]
        }
        Kind::Drains => {
            let at = WINDOWS + PAYLOAD_SIZE * k;
            let end = at + PAYLOAD_SIZE;
            &state[at..end]
        }
        Kind::Still => &[],
    }
}

// The window of the monitor at a position, oldest byte first, at the start of a buffer, and how many bytes it holds. A refusal
// changes nothing.
pub fn look(state: &[u8; STATE_SIZE], position: usize, out: &mut [u8]) -> Result<usize, Refusal>
    ensures value { result ≡ looked (clock_of state.now) position (length out.old) }
    ensures out_after { out.new ≡ out_after (clock_of state.now) position out.old }
{
    let n = chained_in(state);
    if position < 1 {
        return Err(Refusal::PositionWrong);
    }
    if n < position {
        return Err(Refusal::PositionWrong);
    }
    let window = window_in(state, n, position - 1);
    if out.len() < window.len() {
        return Err(Refusal::NoRoom);
    }
    laying::put(out, 0, window);
    Ok(window.len())
}
