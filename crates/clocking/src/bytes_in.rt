// One byte clocked in.
ghost use Rattle.std.specs.Prelude.{◌≡◌, ◌++◌, ◌∷◌, [], ◌<◌, ◌≤◌, get_or, drop};
ghost use Rattle.records.specs.Commands.{payload_size};
ghost use Rattle.clocking.specs.Clock.{known, chained_by, kind_of, one_more, clocked, leaving, answered};
ghost use Rattle.clock_state.specs.State.{kind_in, chained_in, register_in};
ghost use Rattle.clocking.specs.Bytes.{clock_of, counted, noted, shifted, moved_on, taken_in, state_after};

use clock_state::{
    CHAINED, HEAD, KIND, Kind, SEEN, STATE_SIZE, WINDOWS, byte_of, chained_in, kind_in, seen_in,
};
use records::{Command, MOST_MONITORS, PAYLOAD_SIZE, width_of};
use std::mem::replace;

// What is answered where nothing leaves monitor 1, and what the last window draws.
const FAR: u8 = 0xff;

// One byte more than any frame has: the count stops there.
const MOST_SEEN: usize = 4 + PAYLOAD_SIZE * MOST_MONITORS + 1;

// The command of the first four bytes, and one that is not listed where refusal 1, 3 or 4 holds. The count of the table, 0 if it is not
// sound, is known already: a look at all of it is dear.
fn known_command(table: &[u8], head: &[u8], count: usize) -> Command
    requires { count ≡ chained_by table.now }
    ensures { result ≡ known table.now head.now }
{
    if count == 0 {
        return Command::Unlisted;
    }
    if !check_words::command_right(head) {
        return Command::Unlisted;
    }
    judging::command_in(head)
}

// What the bytes after the fourth do by the command: the windows of a write are as wide as its command's.
fn kind_of(command: Command) -> Kind
    ensures { result ≡ kind_of command }
{
    match command {
        Command::Reads(_) => Kind::Drains,
        Command::Writes(_) => Kind::Fills(width_of(command) as u8),
        Command::Bares(_) | Command::Unlisted => Kind::Still,
    }
}

// What the four bytes say, by the table that is lent with the fourth; a known read's replies.
fn note(state: &mut [u8; STATE_SIZE], table: &[u8])
    ensures { state.new ≡ noted table.now state.old }
{
    let count = judging::sound_count(table);
    let command = known_command(table, &state[HEAD..WINDOWS], count);
    state[KIND] = byte_of(kind_of(command));
    state[CHAINED] = count as u8;
    replying::reply_all(table, command, &mut state[WINDOWS..]);
}

// The register moves on by one byte; what falls out in front comes back, and `byte` where there is no register.
fn shift(register: &mut [u8], byte: u8) -> u8
    ensures value { result ≡ get_or register.old 0 byte }
    ensures register_after { register.new ≡ drop 1 (register.old ++ byte ∷ []) }
{
    if register.is_empty() {
        return byte;
    }
    register.rotate_left(1);
    let last = register.len() - 1;
    replace(&mut register[last], byte)
}

// The windows of so many bytes pass a byte on.
fn shift_windows(state: &mut [u8; STATE_SIZE], byte: u8, width: usize) -> u8
    requires { width ≤ payload_size }
    ensures value { result ≡ get_or (register_in width (chained_in state.old) state.old) 0 byte }
    ensures state_after { state.new ≡ shifted width byte state.old }
{
    let end = WINDOWS + width * chained_in(state);
    shift(&mut state[WINDOWS..end], byte)
}

// A byte after the fourth.
fn move_on(state: &mut [u8; STATE_SIZE], byte: u8) -> u8
    ensures value { result ≡ leaving (clock_of state.old).kind (clock_of state.old).windows }
    ensures state_after { state.new ≡ moved_on (kind_in state.old) byte state.old }
{
    match kind_in(state) {
        Kind::Fills(width) => {
            shift_windows(state, byte, width as usize);
            FAR
        }
        Kind::Drains => shift_windows(state, FAR, PAYLOAD_SIZE),
        Kind::Still => FAR,
    }
}

// A byte by its place in the frame.
fn take_in(state: &mut [u8; STATE_SIZE], table: &[u8], byte: u8) -> u8
    ensures value { result ≡ answered (clock_of state.old) }
    ensures state_after { state.new ≡ taken_in table.now byte state.old }
{
    let seen = seen_in(state);
    if seen < 4 {
        state[HEAD + seen] = byte;
        if seen == 3 {
            note(state, table);
        }
        return FAR;
    }
    move_on(state, byte)
}

// One byte more, up to one more than any frame has.
fn one_more(seen: usize) -> usize
    requires { seen < 65536 }
    ensures value { result ≡ one_more seen }
    ensures upper_bound { result < 65536 }
{
    if seen < MOST_SEEN { seen + 1 } else { seen }
}

// Counts a byte.
fn count(state: &mut [u8; STATE_SIZE])
    ensures { state.new ≡ counted state.old }
{
    let seen = one_more(seen_in(state)) as u16;
    state[SEEN..SEEN + 2].copy_from_slice(&seen.to_le_bytes());
}

// Clocks one byte in, and answers the byte that comes back.
pub fn clock(state: &mut [u8; STATE_SIZE], table: &[u8], byte: u8) -> u8
    ensures value { result ≡ answered (clock_of state.old) }
    ensures state_after { clock_of state.new ≡ clocked table.now byte (clock_of state.old) }
    ensures state_after_2 { state.new ≡ state_after table.now byte state.old }
{
    let back = take_in(state, table, byte);
    count(state);
    back
}
