// What one monitor does with an accepted command and its own bytes.
ghost use Rattle.std.specs.Prelude.{◌≡◌, cond, ◌&&◌};
ghost use Rattle.pec.specs.Words.{sealed_right, number_right};
ghost use Rattle.records.specs.Record.{is_record};
ghost use Rattle.records.specs.Commands.{data_size};
ghost use Rattle.monitor.specs.Effects.{locked, next_count, counted, done, good_for, accepts, takes, keeps};

use monitor::carry_out;
use records::{
    Bare, COUNTER, Command, MOST_COUNT, RECORD_SIZE, UNLOCKED, Write, data_size, in_lpcm, width_of,
};
use writes::needs_check;
use writing::write;

#[tactic(auto, unfolding(monitor::specs::Effects::locked, records::specs::Record::on_bytes, records::specs::Record::anew))]
fn lock(rec: &mut [u8; RECORD_SIZE])
    ensures { rec.new ≡ locked rec.old }
{
    rec[UNLOCKED] = 0;
}

// After 63 comes 1. A counter above 63 is in no sound record.
#[tactic(auto, unfolding(monitor::specs::Effects::next_count))]
fn next_count(n: u8) -> u8
    ensures { result ≡ next_count n }
{
    if n < MOST_COUNT { n + 1 } else { 1 }
}

// Locked, and counted where it is taken: so begins every command that is no read.
#[tactic(auto, unfolding(monitor::specs::Effects::counted, records::specs::Record::on_bytes, records::specs::Record::anew))]
fn begin(rec: &mut [u8; RECORD_SIZE], taken: bool)
    ensures { rec.new ≡ cond taken (counted (locked rec.old)) (locked rec.old) }
{
    lock(rec);
    if taken {
        rec[COUNTER] = next_count(rec[COUNTER]);
    }
}

// A bare command at one monitor: counted and done.
#[tactic(auto, unfolding(records::specs::Record::is_record))]
fn act_bare(what: Bare, rec: &mut [u8; RECORD_SIZE])
    ensures { rec.new ≡ done what (counted (locked rec.old)) }
{
    begin(rec, true);
    carry_out(what, rec);
}

// A monitor's own bytes as the number that their check goes by. It is divided in one place: the division for six data bytes and that
// for two would want more registers than the loop of the monitors has.
fn number_for(what: Write, own: &[u8]) -> u64
    ensures { number_right result ≡ sealed_right (data_size what) own.now }
{
    if data_size(what) == 6 {
        return check_words::number_in(own);
    }
    check_words::four_in(own)
}

// Are a monitor's own bytes good for a write: right, or, where it does not need its check right, whatever bytes they are, if as many?
#[tactic(auto, unfolding(monitor::specs::Effects::good_for))]
fn good_for(what: Write, own: &[u8]) -> bool
    ensures { result ≡ good_for what own.now }
{
    if needs_check(what) {
        return check_words::number_right(number_for(what, own));
    }
    own.len() == width_of(Command::Writes(what))
}

// Does a monitor accept a write: are its own bytes good for it, and is it not in LPCM?
#[tactic(auto, unfolding(monitor::specs::Effects::accepts))]
fn accepts(what: Write, rec: &[u8], own: &[u8]) -> bool
    ensures { result ≡ accepts what own.now rec.now }
{
    !in_lpcm(rec) && good_for(what, own)
}

// A write at one monitor: counted and done where it accepts it.
fn act_write(what: Write, rec: &mut [u8; RECORD_SIZE], own: &[u8]) -> bool
    ensures value { result ≡ takes (Command.Writes what) own.now rec.old }
    ensures rec_after { rec.new ≡ keeps (Command.Writes what) own.now rec.old }
{
    let was = rec[UNLOCKED];
    let took = accepts(what, rec, own);
    begin(rec, took);
    if took {
        write(what, was, rec, own);
    }
    took
}

// What one monitor does with an accepted command: its record changes as the rules say, and the answer is whether it took
// the command. A slice that is no record stays as it is, and the answer is false.
#[tactic(auto, unfolding(monitor::specs::Effects::keeps, records::specs::Record::is_record))]
pub fn act(command: Command, rec: &mut [u8], own: &[u8]) -> bool
    ensures value { result ≡ (is_record rec.old && takes command own.now rec.old) }
    ensures rec_after { rec.new ≡ cond (is_record rec.old) (keeps command own.now rec.old) rec.old }
{
    let Some(record) = rec.as_mut_array() else {
        return false;
    };
    match command {
        Command::Reads(_) => {
            lock(record);
            true
        }
        Command::Writes(what) => act_write(what, record, own),
        Command::Bares(what) => {
            act_bare(what, record);
            true
        }
        Command::Unlisted => false,
    }
}
