// One monitor of the table in a heartbeat, and a message on its way from monitor to monitor. Monitors are counted from 0.
ghost use Rattle.std.specs.Prelude.{◌≡◌, [], suc, ◌+◌, ◌*◌, ◌<◌, ◌≤◌, length};
ghost use Rattle.laws.specs.Rows.{row_at};
ghost use Rattle.records.specs.Record.{record_size};
ghost use Rattle.records.specs.Commands.{most_monitors};
ghost use Rattle.judging.specs.Table.{changed_at};
ghost use Rattle.messages.specs.Messages.{message};
ghost use Rattle.heartbeats.specs.Steps.{towards_a, is_timeout, wakes, answers, late};
ghost use Rattle.passing.specs.Hops.{bytes_sent, wake_sends, wake_leaves, hop_leaves, hops, behind, way, sent_along, left_along};

use heartbeats::{Beat, is_towards_a, reach, run_out};
use judging::record_at;
use messages::message;

// Towards which end does the monitor at k send?
pub(crate) fn towards_a_at(table: &[u8], k: usize) -> bool
    requires { k * record_size + record_size ≤ length table.now }
    ensures { result ≡ towards_a (row_at record_size k table.now) }
{
    match record_at(table, k) {
        Some(lies) => is_towards_a(&table[lies]),
        None => false,
    }
}

// The monitor at k wakes.
pub(crate) fn wake_at(table: &mut [u8], k: usize) -> Option<Beat>
    requires { k * record_size + record_size ≤ length table.old }
    ensures value { result ≡ wakes (row_at record_size k table.old) }
    ensures table_after { table.new ≡ wake_leaves k table.old }
{
    let lies = record_at(table, k)?;
    heartbeats::wake(&mut table[lies])
}

// Bytes reach the monitor at k.
pub(crate) fn reach_at(table: &mut [u8], k: usize, bytes: &[u8]) -> Option<Beat>
    requires { k * record_size + record_size ≤ length table.old }
    ensures value { result ≡ answers bytes.now (row_at record_size k table.old) }
    ensures table_after { table.new ≡ hop_leaves k bytes.now table.old }
{
    let lies = record_at(table, k)?;
    reach(&mut table[lies], bytes)
}

// The time runs out at the monitor at k: is it a timeout monitor?
pub(crate) fn run_out_at(table: &mut [u8], k: usize) -> bool
    requires { k * record_size + record_size ≤ length table.old }
    ensures value { result ≡ is_timeout (row_at record_size k table.old) }
    ensures table_after { table.new ≡ changed_at k late table.old }
{
    match record_at(table, k) {
        Some(lies) => run_out(&mut table[lies]),
        None => false,
    }
}

// The road of a message: from the monitor at k of n towards one end of the chain.
#[derive(Clone, Copy)]
pub(crate) struct Road {
    pub(crate) to_a: bool,
    pub(crate) n: usize,
    pub(crate) k: usize,
}

// How many hops it is to the end of the chain.
#[tactic(auto, unfolding(crate::specs::Hops::hops))]
fn hops(road: Road) -> usize
    requires { road.k < road.n }
    ensures { result ≡ hops road.to_a road.n road.k }
{
    if road.to_a {
        road.k
    } else {
        road.n - road.k - 1
    }
}

// The monitor behind hop i.
#[tactic(auto, unfolding(crate::specs::Hops::behind))]
fn behind(road: Road, i: usize) -> usize
    requires { (road.k < most_monitors) × (i < most_monitors) }
    ensures { result ≡ behind road.to_a road.k i }
{
    if road.to_a {
        road.k.saturating_sub(i + 1)
    } else {
        road.k + i + 1
    }
}

// A message on its way: what is left of it at the end of the chain.
fn pass_on(table: &mut [u8], road: Road, first: Beat) -> Option<Beat>
    requires { (road.k < road.n) × (road.n ≤ most_monitors) × (length table.old ≡ road.n * record_size) }
    ensures result_value { bytes_sent result ≡ sent_along (way road.to_a road.n road.k) (message first.count first.flags) table.old }
    ensures table_after { table.new ≡ left_along (way road.to_a road.n road.k) (message first.count first.flags) table.old }
{
    let mut beat = first;
    let last = hops(road);
    for i in 0..last {
        let own = message(beat.count, beat.flags);
        beat = reach_at(table, behind(road, i), &own)?;
    }
    Some(beat)
}

// The monitor at the start of a road wakes, and what it sends goes its way: what leaves the chain.
pub(crate) fn beat_from(table: &mut [u8], road: Road) -> Option<Beat>
    requires { (road.k < road.n) × (road.n ≤ most_monitors) × (length table.old ≡ road.n * record_size) }
    ensures result_value { bytes_sent result ≡ sent_along (way road.to_a road.n road.k) (wake_sends road.k table.old) (wake_leaves road.k table.old) }
    ensures table_after { table.new ≡ left_along (way road.to_a road.n road.k) (wake_sends road.k table.old) (wake_leaves road.k table.old) }
{
    let first = wake_at(table, road.k)?;
    pass_on(table, road, first)
}
