// The engine that handles a whole frame.
ghost use Rattle.std.specs.Prelude.{◌≡◌, ◌*◌, ◌≤◌, length, drop};
ghost use Rattle.records.specs.Record.{record_size};
ghost use Rattle.records.specs.Commands.{most_monitors};
ghost use Rattle.serving.specs.Served.{taken_by, kept};
ghost use Rattle.chain.specs.Frame.{answer, table_after, reply_after};
ghost use Rattle.chain.specs.Judged.{judged, ReadyIf};

use judging::{Judged, judge_head, sound_count};
use records::Command;
use refusals::Refusal;
use replying::replies_of;
use serving::serve;

// What comes of a frame that is not refused: how many monitors took it, and how long the reply is.
#[derive(Clone, Copy, Debug, PartialEq, Eq)]
pub struct Answer {
    pub taken: usize,
    pub reply: usize,
}

// The refusals in the paper's order.
fn judge(table: &[u8], frame: &[u8], room: usize) -> Result<Judged, Refusal>
    ensures value { result ≡ judged table.now frame.now room }
    ensures ready_if { ReadyIf result table.now frame.now room }
{
    let judged = judge_head(frame, frame.len(), sound_count(table))?;
    if room < records::reply_size(judged.command, judged.monitors) {
        return Err(Refusal::NoRoom);
    }
    Ok(judged)
}

// What follows the command and its check; nothing in a shorter frame.
fn payloads_of(frame: &[u8]) -> &[u8]
    ensures { result.now ≡ drop 4 frame.now }
{
    if frame.len() < 4 {
        return &frame[..0];
    }
    &frame[4..]
}

// Every monitor acts on its own bytes of a frame.
fn serve_frame(table: &mut [u8], command: Command, n: usize, frame: &[u8]) -> usize
    requires { (length table.old ≡ n * record_size) × (n ≤ most_monitors) }
    ensures value { result ≡ taken_by command n table.old frame.now }
    ensures table_after { table.new ≡ kept command n table.old frame.now }
{
    serve(table, command, n, payloads_of(frame))
}

// Handles a frame: the table becomes what the rules say, and the reply to a read goes to the start of the reply buffer. A
// refusal changes nothing.
pub fn handle(table: &mut [u8], frame: &[u8], buffer: &mut [u8]) -> Result<Answer, Refusal>
    ensures value { result ≡ answer table.old frame.now (length buffer.old) }
    ensures table_after { table.new ≡ table_after table.old frame.now (length buffer.old) }
    ensures buffer_after { buffer.new ≡ reply_after table.old frame.now buffer.old }
{
    let judged = judge(table, frame, buffer.len())?;
    let reply = replies_of(table, judged.command, judged.monitors, buffer);
    let taken = serve_frame(table, judged.command, judged.monitors, frame);
    Ok(Answer { taken, reply })
}
