// A whole frame clocked a byte at a time.
ghost use Rattle.std.specs.Prelude.{◌≡◌, length};
ghost use Rattle.chain.specs.Frame.{answer, table_after, reply_after};
ghost use Rattle.clocked.specs.Frames.{clocked_all, answered_all, kept_one, kept_back, reply_of, settled, table_settled, buffer_settled};
ghost use Rattle.clocking.specs.Bytes.{clock_of};

use chain::Answer;
use clock_state::STATE_SIZE;
use clocking::clock;
use judging::Judged;
use records::{MOST_MONITORS, PAYLOAD_SIZE};
use refusals::Refusal;
use releasing::{judge, release};

// The bytes of the longest reply.
const REPLY_SIZE: usize = PAYLOAD_SIZE * MOST_MONITORS;

// Keeps the byte that came back with the i-th byte of a frame, counted from 0: those after the fourth, as many as there is room for.
#[tactic(auto, unfolding(crate::specs::Frames::kept_one))]
fn keep(back: &mut [u8], i: usize, byte: u8)
    ensures { back.new ≡ kept_one i byte back.old }
{
    if i >= 4 && i - 4 < back.len() {
        back[i - 4] = byte;
    }
}

// Clocks every byte of a frame in, and keeps the bytes that came back after the fourth.
fn clock_all(state: &mut [u8; STATE_SIZE], table: &[u8], frame: &[u8], back: &mut [u8])
    ensures state_after { clock_of state.new ≡ clocked_all table.now frame.now (clock_of state.old) }
    ensures back_after { back.new ≡ kept_back (answered_all table.now frame.now (clock_of state.old)) back.old }
{
    for (i, clocked) in frame.iter().enumerate() {
        let byte = clock(state, table, *clocked);
        keep(back, i, byte);
    }
}

// The length of the reply where a release is so judged; a refusal has none.
fn reply_after(judged: Result<Judged, Refusal>) -> usize
    ensures { result ≡ reply_of judged }
{
    match judged {
        Err(_) => 0,
        Ok(judged) => records::reply_size(judged.command, judged.monitors),
    }
}

// What comes of the clocked frame: the reply goes to the start of the buffer where the read is accepted.
fn settle(
    state: &mut [u8; STATE_SIZE],
    table: &mut [u8],
    back: &[u8; REPLY_SIZE],
    buffer: &mut [u8],
) -> Result<Answer, Refusal>
    ensures value { result ≡ settled (clock_of state.old) table.old (length buffer.old) }
    ensures table_after { table.new ≡ table_settled (clock_of state.old) table.old (length buffer.old) }
    ensures buffer_after { buffer.new ≡ buffer_settled (clock_of state.old) table.old back.now buffer.old }
{
    let size = reply_after(judge(state, table));
    if buffer.len() < size {
        return Err(Refusal::NoRoom);
    }
    let came = &back[..];
    laying::put(buffer, 0, &came[..size]);
    release(state, table)
}

// Handles a frame as the chain does, by clocking it: the same answer, table and reply. That it is clocked is promised of `start`,
// `clock` and `release`, not here.
pub fn handle(table: &mut [u8], frame: &[u8], buffer: &mut [u8]) -> Result<Answer, Refusal>
    ensures value { result ≡ answer table.old frame.now (length buffer.old) }
    ensures table_after { table.new ≡ table_after table.old frame.now (length buffer.old) }
    ensures buffer_after { buffer.new ≡ reply_after table.old frame.now buffer.old }
{
    let mut state = [0; STATE_SIZE];
    let mut back = [0; REPLY_SIZE];
    clock_all(&mut state, table, frame, &mut back);
    settle(&mut state, table, &back, buffer)
}
