// The frames that our host writes.
ghost use Rattle.std.specs.Prelude.{◌≡◌, ◌⊎◌, ◌++◌, map, ◌+◌, ◌-◌, ◌*◌, ◌<◌, ◌≤◌, length, replicate};
ghost use Rattle.laws.specs.Rows.{rows, row_at};
ghost use Rattle.laying.specs.Placed.{placed};
ghost use Rattle.pec.specs.Words.{two_bytes, command_check};
ghost use Rattle.wire.specs.Order.{write_data};
ghost use Rattle.records.specs.Commands.{most_monitors, seal_size, frame_length};
ghost use Rattle.host.specs.Frames.{head_size, sealed, body, value_count, judged, built, buffer_after};

use crate::chain::is_chain;
use records::Command;
use refusals::Refusal;

// The bytes of a command and its check.
const HEAD_SIZE: usize = 4;

// What a reply is clocked over.
const FILLER: u8 = 0xff;

// The value bytes that a command wants.
fn value_count(command: Command, n: usize) -> usize
    requires { n ≤ most_monitors }
    ensures { result ≡ value_count command n }
{
    match command {
        Command::Reads(_) => 0,
        Command::Writes(what) => {
            let size = records::data_size(what);
            size * n
        }
        Command::Bares(_) => 0,
        Command::Unlisted => 0,
    }
}

// The refusals of a request, in their order, or the length of its frame: by the command and how many value bytes there are.
#[tactic(auto, unfolding(crate::specs::Frames::judged, refusals::specs::Order::decide))]
fn judge(command: Command, n: usize, given: usize, room: usize) -> Result<usize, Refusal>
    ensures { result ≡ judged command n given room }
{
    if !records::is_listed(command) {
        return Err(Refusal::CodeNotListed);
    }
    if !is_chain(n) {
        return Err(Refusal::PositionWrong);
    }
    if given != value_count(command, n) {
        return Err(Refusal::CountWrong);
    }
    let length = records::frame_length(command, n);
    if room < length {
        return Err(Refusal::NoRoom);
    }
    Ok(length)
}

// The command and its check, at the buffer's start.
fn put_head(buffer: &mut [u8], code: u16)
    requires { head_size ≤ length buffer.old }
    ensures { buffer.new ≡ placed 0 (two_bytes code ++ command_check code) buffer.old }
{
    let command = check_words::two_bytes(code);
    laying::put(buffer, 0, &command);
    let check = check_words::command_check(code);
    laying::put(buffer, 2, &check);
}

// A monitor's data bytes, six or two, and the seal over them with the counter 0.
fn put_sealed(buffer: &mut [u8], at: usize, own: &[u8])
    requires { ((length own.now ≡ 6) ⊎ (length own.now ≡ 2)) × (at + (length own.now + seal_size) ≤ length buffer.old) }
    ensures { buffer.new ≡ placed at (sealed own.now) buffer.old }
{
    if let Ok(six) = <&[u8; 6]>::try_from(own) {
        let payload = check_words::sealed(six, 0);
        laying::put(buffer, at, &payload);
    } else if let Ok(two) = <&[u8; 2]>::try_from(own) {
        let payload = check_words::sealed_two(two, 0);
        laying::put(buffer, at, &payload);
    }
}

// The payload at place i of a write that has so many data bytes for each monitor. The values are nearest monitor first; the farthest monitor's
// payload is sent first.
// The size, n and the values travel together through this function and the next alone, so they are no struct.
fn put_payload(buffer: &mut [u8], size: usize, n: usize, values: &[u8], i: usize)
    requires { (i < n) × (n ≤ most_monitors) × ((size ≡ 6) ⊎ (size ≡ 2)) × (length values.now ≡ size * n) × (head_size + (size + seal_size) * n ≤ length buffer.old) }
    ensures { buffer.new ≡ placed (head_size + i * (size + seal_size)) (sealed (row_at size (n - (i + 1)) values.now)) buffer.old }
{
    let from = (n - (i + 1)) * size;
    let to = from + size;
    let at = HEAD_SIZE + i * (size + records::SEAL_SIZE);
    put_sealed(buffer, at, &values[from..to]);
}

// The payloads of a write.
fn put_payloads(buffer: &mut [u8], size: usize, n: usize, values: &[u8])
    requires { (n ≤ most_monitors) × ((size ≡ 6) ⊎ (size ≡ 2)) × (length values.now ≡ size * n) × (head_size + (size + seal_size) * n ≤ length buffer.old) }
    ensures { buffer.new ≡ placed head_size (write_data (map sealed (rows size n values.now))) buffer.old }
{
    for i in 0..n {
        put_payload(buffer, size, n, values, i);
    }
}

// What a reply is clocked over.
fn put_filler(buffer: &mut [u8], size: usize)
    requires { head_size + size ≤ length buffer.old }
    ensures { buffer.new ≡ placed head_size (replicate size 0xFF) buffer.old }
{
    buffer[HEAD_SIZE..HEAD_SIZE + size].fill(FILLER);
}

// What follows the command and its check.
fn put_body(buffer: &mut [u8], command: Command, n: usize, values: &[u8])
    requires { (n ≤ most_monitors) × (length values.now ≡ value_count command n) × (frame_length command n ≤ length buffer.old) }
    ensures { buffer.new ≡ placed head_size (body command n values.now) buffer.old }
{
    match command {
        Command::Reads(_) => put_filler(buffer, records::PAYLOAD_SIZE * n),
        Command::Writes(what) => {
            let size = records::data_size(what);
            put_payloads(buffer, size, n, values);
        }
        Command::Bares(_) => {}
        Command::Unlisted => {}
    }
}

// Builds the frame for a code, n monitors and values, at the start of a buffer. A refusal changes nothing.
pub fn build(code: u16, n: usize, values: &[u8], buffer: &mut [u8]) -> Result<usize, Refusal>
    ensures value { result ≡ built code n values.now (length buffer.old) }
    ensures buffer_after { buffer.new ≡ buffer_after code n values.now buffer.old }
{
    let command = records::command_of(code);
    let length = judge(command, n, values.len(), buffer.len())?;
    put_head(buffer, code);
    put_body(buffer, command, n, values);
    Ok(length)
}
