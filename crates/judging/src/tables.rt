// The table: is it sound, how many monitors does it hold, and where does the record of each lie?
ghost use Rattle.std.specs.Prelude.{◌≡◌, cond, ◌+◌, ◌*◌, ◌<◌, ◌≤◌, length, MatchOption};
ghost use Rattle.laws.specs.Counts.{all};
ghost use Rattle.laws.specs.Rows.{rows};
ghost use Rattle.records.specs.Record.{record_size, record_sound};
ghost use Rattle.judging.specs.Table.{monitors, whole_table, sound};

use records::{MOST_MONITORS, RECORD_SIZE, record_sound};
use std::ops::Range;

// Where the record at k lies in a table, counted from 0; nowhere in one that has no whole record there.
pub fn record_at(table: &[u8], k: usize) -> Option<Range<usize>>
    ensures { MatchOption result (length table.now < k * record_size + record_size) (λ lies. (lies.start ≡ k * record_size) × (lies.end ≡ k * record_size + record_size) × (lies.end ≤ length table.now)) }
{
    if table.len() / RECORD_SIZE <= k {
        return None;
    }
    let at = k * RECORD_SIZE;
    Some(at..at + RECORD_SIZE)
}

// Does the table hold n whole records, and no more than a chain has?
#[tactic(auto, unfolding(crate::specs::Table::whole_table))]
pub fn whole_table(table: &[u8], n: usize) -> bool
    ensures { result ≡ whole_table n table.now }
{
    n <= MOST_MONITORS && table.len() == n * RECORD_SIZE
}

// Are the whole records of a table sound?
fn all_sound(table: &[u8]) -> bool
    ensures { result ≡ all record_sound (rows record_size (monitors table.now) table.now) }
{
    table.chunks_exact(RECORD_SIZE).all(|rec| record_sound(rec))
}

// Does the table hold whole records, 1 to 32 of them, each of them sound?
#[tactic(auto, using(crate::proofs::Whole::by_parts), unfolding(crate::specs::Table::monitors))]
pub fn sound(table: &[u8]) -> bool
    ensures { result ≡ sound table.now }
{
    let n = table.len() / RECORD_SIZE;
    n > 0 && whole_table(table, n) && all_sound(table)
}

// The number of monitors of a sound table, and 0 of any other.
#[tactic(auto, unfolding(crate::specs::Table::monitors))]
pub fn sound_count(table: &[u8]) -> usize
    ensures { result ≡ cond (sound table.now) (monitors table.now) 0 }
{
    if sound(table) {
        table.len() / RECORD_SIZE
    } else {
        0
    }
}
