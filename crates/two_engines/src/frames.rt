// The frames: of every command, and damaged in every way that refusals 2 to 5 name. What is drawn, and in what order, stands in
// tools/two-engines-model too.
ghost use Rattle.std.specs.Prelude.{◌*◌, ◌<◌, ◌≤◌, length};

use crate::commands::{Command, UNLISTED};
use crate::luck::Luck;
use crate::world::Monitors;
use arrayvec::ArrayVec;

// More bytes than any frame has, by more than 256.
const LONGEST: usize = 600;

// A bit of some bytes turned over, the lowest of the first byte counted as 0.
pub(crate) fn flip(bytes: &mut [u8], bit: usize) {
    if let Some(byte) = bytes.get_mut(bit / 8) {
        *byte ^= 1 << (bit % 8);
    }
}

// Now and then a bit of the code or of its check, or the 0 place after the check.
fn head_bit(luck: &mut Luck) -> Option<usize> {
    match luck.draw(24) {
        0 => Some(luck.draw(32)),
        1 => Some(24),
        _ => None,
    }
}

// The first four bytes of a frame, a code and its check: now and then of a code that is not listed.
pub(crate) fn begin(frame: &mut [u8], command: Command, luck: &mut Luck)
    requires { 4 ≤ length frame.old }
{
    let code = match luck.now_and_then(12, UNLISTED.len()) {
        Some(place) => UNLISTED[place],
        None => command.code(),
    };
    let [a, b] = code.to_be_bytes();
    let [c, d] = check_words::command_check(code);
    frame[..4].copy_from_slice(&[a, b, c, d]);
    if let Some(bit) = head_bit(luck) {
        flip(frame, bit);
    }
}

// A payload gets its check, over the counter bits as they were drawn.
pub(crate) fn seal(payload: &mut [u8]) {
    if let Some((data, check)) = payload.split_last_chunk_mut::<2>() {
        *check = remainders::seal(data, check[0] / 4);
    }
}

// The payloads of all monitors. In some frames now and then a bit of one is turned over.
fn put_payloads(payloads: &mut [u8], monitors: Monitors, command: Command, luck: &mut Luck) {
    let some = luck.once_in(2);
    let width = command.width();
    for payload in payloads.chunks_exact_mut(width).take(monitors.n) {
        seal(payload);
        if some && let Some(bit) = luck.now_and_then(3, 8 * width) {
            flip(payload, bit);
        }
    }
}

// The length in one of 32 ways, mostly the right one, which is so many bytes behind the command; the rest of what was drawn says how short
// or how long, where that is open.
fn length_in(drawn: usize, size: usize, monitors: Monitors) -> usize
    requires { (drawn < 10880) × (size ≤ 256) }
    ensures { result ≤ 600 }
{
    match drawn % 32 {
        0 => drawn / 32 % 4,
        1 => size + 3,
        2 => size + 5,
        3 => size + 12,
        // the longest and the shortest with payloads, of every command
        4 => 4 + 8 * monitors.n,
        8 => 4 + 4 * monitors.n,
        // a read or write with none
        5 => 4,
        // a count of bytes that wraps at 256 would take these for right
        6 => size + 260,
        // more than any frame has
        7 => 261 + drawn / 32,
        _ => size + 4,
    }
}

// A frame, and the command that it was made of.
#[derive(Drop)]
pub(crate) struct Frame {
    pub bytes: ArrayVec<u8, LONGEST>,
    pub command: Command,
}

impl Frame {
    pub(crate) fn draw(monitors: Monitors, luck: &mut Luck) -> Frame {
        let command = Command::draw(luck);
        let mut bytes = ArrayVec::from([0; LONGEST]);
        luck.fill(&mut bytes);
        begin(&mut bytes, command, luck);
        put_payloads(&mut bytes[4..], monitors, command, luck);
        let size = command.size(monitors);
        bytes.truncate(length_in(luck.draw(10880), size, monitors));
        Frame { bytes, command }
    }
}
