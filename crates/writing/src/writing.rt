// A taken write, done to a record by its rules.
ghost use Rattle.std.specs.Prelude.{◌≡◌, cond, ◌&&◌, ◌+◌, ◌%◌, ◌<◌, ◌≤◌, leb, length, get_or};
ghost use Rattle.records.specs.Record.{is_record, anew};
ghost use Rattle.records.specs.Commands.{data_size};
ghost use Rattle.writes.specs.Writes.{changed, opens, written};

use records::{RECORD_SIZE, Write, data_size};
use writes::{Rules, rules_of, stores_whole};

// One of a write's bytes by its rules, from what was sent and what it was.
#[tactic(auto, unfolding(writes::specs::Writes::changed))]
fn changed_byte(rules: Rules, sent: &[u8], i: usize, old: u8) -> u8
    requires { (i < 6) × (i < length sent.now) }
    ensures { result ≡ changed rules sent.now i old }
{
    let byte = sent[i];
    ((byte & rules.stored[i]) | (old & (rules.kept[i] & !(byte & rules.clearable[i]))))
        | rules.ones[i]
}

// So many bytes, which a write changes by its rules.
fn change(rec: &mut [u8], rules: Rules, sent: &[u8], size: usize)
    requires { (size ≤ 6) × (rules.at + size ≤ length rec.old) × (size ≤ length sent.now) }
    ensures { rec.new ≡ anew (changed rules sent.now) rules.at size rec.old }
{
    for i in 0..size {
        let place = rules.at + i;
        rec[place] = changed_byte(rules, sent, i, rec[place]);
    }
}

// The same where six become as sent: they are copied.
fn store(rec: &mut [u8], at: usize, sent: &[u8])
    requires { (at + 6 ≤ length rec.old) × (6 ≤ length sent.now) }
    ensures { rec.new ≡ anew (λ i old. get_or sent.now i 0 % 256) at 6 rec.old }
{
    rec[at..at + 6].copy_from_slice(&sent[..6]);
}

// Does a write change something, by the retention byte before the command?
#[tactic(auto, unfolding(writes::specs::Writes::opens))]
fn opens_by(rules: Rules, was: u8) -> bool
    ensures { result ≡ opens rules was }
{
    !rules.only_unlocked || was == 1
}

// A taken write of the data bytes that were sent first. A slice that is no record stays as it is, and so does a record where fewer
// were sent than the write has.
pub fn write(what: Write, was: u8, rec: &mut [u8], sent: &[u8])
    ensures { rec.new ≡ cond (is_record rec.old && leb (data_size what) (length sent.now)) (written what was sent.now rec.old) rec.old }
{
    if rec.len() != RECORD_SIZE {
        return;
    }
    let size = data_size(what);
    if sent.len() < size {
        return;
    }
    let rules = rules_of(what);
    if opens_by(rules, was) {
        if stores_whole(what) {
            store(rec, rules.at, sent);
        } else {
            change(rec, rules, sent, size);
        }
    }
}
