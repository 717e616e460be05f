// The end of a frame.
ghost use Rattle.std.specs.Prelude.{◌≡◌, ◌*◌, ◌≤◌, length};
ghost use Rattle.laws.specs.Rows.{rows, joined, along};
ghost use Rattle.records.specs.Record.{record_size};
ghost use Rattle.records.specs.Commands.{most_monitors};
ghost use Rattle.monitor.specs.Effects.{keeps};
ghost use Rattle.serving.specs.Served.{takers};
ghost use Rattle.releasing.specs.Judged.{judged};
ghost use Rattle.releasing.specs.Release.{another_count, released, table_released};
ghost use Rattle.clock_state.specs.State.{chained_in, idle};
ghost use Rattle.clocking.specs.Bytes.{clock_of};

use crate::looks::window_in;
use chain::Answer;
use clock_state::{HEAD, STATE_SIZE, WINDOWS, chained_in, seen_in, start};
use judging::Judged;
use records::Command;
use refusals::Refusal;

// Was the table that was lent with byte four one of another count?
#[tactic(auto, unfolding(crate::specs::Release::another_count, clocking::specs::Bytes::clock_of))]
fn another_count(state: &[u8], n: usize) -> bool
    ensures { result ≡ another_count (clock_of state.now) n }
{
    seen_in(state) >= 4 && chained_in(state) != n
}

// What a release is judged: the refusals in the paper's order, the table's, and then those of the first four bytes.
pub fn judge(state: &[u8; STATE_SIZE], table: &[u8]) -> Result<Judged, Refusal>
    ensures { result ≡ judged (clock_of state.now) table.now }
{
    let n = judging::sound_count(table);
    if another_count(state, n) {
        return Err(Refusal::TableNotSound);
    }
    judging::judge_head(&state[HEAD..WINDOWS], seen_in(state), n)
}

// Every monitor acts on its own window, and those that took the command are counted.
fn act_all(table: &mut [u8], command: Command, state: &[u8; STATE_SIZE], n: usize) -> usize
    requires { (length table.old ≡ n * record_size) × (n ≡ chained_in state.now) × (n ≤ most_monitors) }
    ensures value { result ≡ takers command (rows record_size n table.old) (clock_of state.now).windows }
    ensures table_after { table.new ≡ joined (along (λ r window. keeps command window r) (rows record_size n table.old) (clock_of state.now).windows) }
{
    let mut taken = 0;
    for k in 0..n {
        let window = window_in(state, n, k);
        if serving::serve_at(table, command, k, window) {
            taken += 1;
        }
    }
    taken
}

// What comes of a release: each monitor acts on its own window as the state holds it, also where no frame leads to such a state.
fn finish(state: &[u8; STATE_SIZE], table: &mut [u8]) -> Result<Answer, Refusal>
    ensures value { result ≡ released (clock_of state.now) table.old }
    ensures table_after { table.new ≡ table_released (clock_of state.now) table.old }
{
    let judged = judge(state, table)?;
    let taken = act_all(table, judged.command, state, judged.monitors);
    let reply = records::reply_size(judged.command, judged.monitors);
    Ok(Answer { taken, reply })
}

// Ends a frame: the table becomes what the rules say, and the next frame starts empty. A refusal leaves the table as it is.
pub fn release(state: &mut [u8; STATE_SIZE], table: &mut [u8]) -> Result<Answer, Refusal>
    ensures value { result ≡ released (clock_of state.old) table.old }
    ensures state_after { state.new ≡ idle }
    ensures table_after { table.new ≡ table_released (clock_of state.old) table.old }
{
    let answer = finish(state, table);
    start(state);
    answer
}
