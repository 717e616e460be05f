// The bytes of the state: the code's names for what specs/State.antt lays out, and reading them. Any slice may be read; a byte past
// its end counts as 0.
ghost use Rattle.std.specs.Prelude.{◌≡◌, ◌<◌, ◌≤◌};
ghost use Rattle.records.specs.Commands.{most_monitors};
ghost use Rattle.clock_state.specs.State.{idle, seen_in, kind_byte, kind_in, chained_in};

use records::{MOST_MONITORS, PAYLOAD_SIZE, byte_at};

// What the bytes after the fourth do: in a known write they fill windows of so many bytes, in a known read they drain the windows,
// and in any other frame the windows stay empty.
#[derive(Clone, Copy)]
pub enum Kind {
    Fills(u8),
    Drains,
    Still,
}

// How many bytes came: two bytes, low byte first.
pub const SEEN: usize = 0;

pub const KIND: usize = 2;

pub const CHAINED: usize = 3;
// The first four bytes.
pub const HEAD: usize = 4;

pub const WINDOWS: usize = 8;

pub const STATE_SIZE: usize = WINDOWS + PAYLOAD_SIZE * MOST_MONITORS;

// The bytes of the kinds that have no width. That of a write is the width of its windows, which is more than these, and no more than a
// reply's.
const STILL: u8 = 0;

const DRAINS: u8 = 1;

const NARROWEST: u8 = DRAINS + 1;

const WIDEST: u8 = PAYLOAD_SIZE as u8;

// Before a frame. Whatever the bytes were, a frame that had begun is given up.
pub fn start(state: &mut [u8; STATE_SIZE])
    ensures { state.new ≡ idle }
{
    *state = [0; STATE_SIZE];
}

// How many bytes came.
#[tactic(auto, unfolding(crate::specs::State::seen_in))]
pub fn seen_in(state: &[u8]) -> usize
    ensures value { result ≡ seen_in state.now }
    ensures upper_bound { result < 65536 }
{
    u16::from_le_bytes([byte_at(state, SEEN), byte_at(state, SEEN + 1)]) as usize
}

// N at byte four, and 0 for more monitors than a chain has.
#[tactic(auto, unfolding(crate::specs::State::chained_in))]
pub fn chained_in(state: &[u8]) -> usize
    ensures value { result ≡ chained_in state.now }
    ensures upper_bound { result ≤ most_monitors }
{
    let n = byte_at(state, CHAINED) as usize;
    if n <= MOST_MONITORS { n } else { 0 }
}

// A kind as its byte.
pub fn byte_of(kind: Kind) -> u8
    ensures { result ≡ kind_byte kind }
{
    match kind {
        Kind::Fills(width) => width,
        Kind::Drains => DRAINS,
        Kind::Still => STILL,
    }
}

// The kind that its byte stands for; any other byte is one of a frame where the windows stay empty.
#[tactic(auto, unfolding(crate::specs::State::kind_in))]
pub fn kind_in(state: &[u8]) -> Kind
    ensures { result ≡ kind_in state.now }
{
    match byte_at(state, KIND) {
        DRAINS => Kind::Drains,
        width @ NARROWEST..=WIDEST => Kind::Fills(width),
        _ => Kind::Still,
    }
}
