// What a bare command does to one monitor's record.
ghost use Rattle.std.specs.Prelude.{◌≡◌, cond, ◌+◌, ◌≤◌};
ghost use Rattle.records.specs.Record.{cells, last_cells, record_size, is_record};
ghost use Rattle.monitor.specs.Effects.{cells_to, done};

use records::{
    Bare, CELLS, CELLS_SIZE, CMF1, COUNTER, LAST_CELLS, RECORD_SIZE, SNAPSHOT, STATUS_BITS,
    UNLOCKED, in_lpcm, is_snapped,
};

// The live cells, and no copy of them, get the code -32768, low byte first.
fn clrcell(rec: &mut [u8; RECORD_SIZE])
    ensures { rec.new ≡ done Bare.Clrcell rec.old }
{
    let lowest = i16::MIN.to_le_bytes();
    for i in 0..CELLS_SIZE {
        rec[CELLS + i] = lowest[i % 2];
    }
}

// The cells are copied to a part of as many bytes.
fn copy_cells(rec: &mut [u8; RECORD_SIZE], to: usize)
    requires { to + cells.size ≤ record_size }
    ensures { rec.new ≡ cells_to (record { at = to; size = cells.size }) rec.old }
{
    rec.copy_within(CELLS..CELLS + CELLS_SIZE, to);
}

// The cells are copied and SNAP_ST is set. A snapshot that is on keeps its copy.
#[tactic(auto, unfolding(crate::specs::Effects::done, crate::specs::Effects::copied, records::specs::Record::on_bytes, records::specs::Record::anew))]
fn snap(rec: &mut [u8; RECORD_SIZE])
    ensures { rec.new ≡ done Bare.Snap rec.old }
{
    if is_snapped(rec) {
        return;
    }
    copy_cells(rec, SNAPSHOT);
    rec[STATUS_BITS] |= 0x20;
}

// A snapshot ends: the copy stays, and is no longer shown.
#[tactic(auto, unfolding(crate::specs::Effects::done, records::specs::Record::on_bytes, records::specs::Record::anew))]
fn unsnap(rec: &mut [u8; RECORD_SIZE])
    ensures { rec.new ≡ done Bare.Unsnap rec.old }
{
    rec[STATUS_BITS] &= 0xdf;
}

// LPCM begins: the cells are copied as the last measurement, and CMC_EN is set with the two flags of a timeout monitor. A monitor that is in
// LPCM keeps its last measurement, so that enabling it twice hides no jump.
#[tactic(auto, unfolding(crate::specs::Effects::done, crate::specs::Effects::enabled, records::specs::Record::on_bytes, records::specs::Record::anew))]
fn cmen(rec: &mut [u8; RECORD_SIZE])
    ensures { rec.new ≡ done Bare.Cmen rec.old }
{
    if in_lpcm(rec) {
        return;
    }
    copy_cells(rec, LAST_CELLS);
    rec[CMF1] = 0x83;
}

// A measurement in LPCM: the cells are copied as the last. A slice that is no record stays as it is.
#[tactic(auto, unfolding(records::specs::Record::is_record))]
pub fn remember(rec: &mut [u8])
    ensures { rec.new ≡ cond (is_record rec.old) (cells_to last_cells rec.old) rec.old }
{
    if let Some(record) = rec.as_mut_array() {
        copy_cells(record, LAST_CELLS);
    }
}

// What a bare command does beyond what every command does, command by command.
#[tactic(auto, unfolding(crate::specs::Effects::done, records::specs::Record::on_bytes, records::specs::Record::anew))]
fn do_bare(what: Bare, rec: &mut [u8; RECORD_SIZE])
    ensures { rec.new ≡ done what rec.old }
{
    match what {
        Bare::Mute => rec[STATUS_BITS] |= 0x10,
        Bare::Unmute => rec[STATUS_BITS] &= 0xef,
        Bare::Rstcc => rec[COUNTER] = 0,
        Bare::Ulrr => rec[UNLOCKED] = 1,
        Bare::Clrcell => clrcell(rec),
        Bare::Snap => snap(rec),
        Bare::Unsnap => unsnap(rec),
        Bare::Cmen => cmen(rec),
        Bare::Cmdis => rec[CMF1] &= 0x7f,
    }
}

// The same, of a slice of any length: one that is no record stays as it is.
#[tactic(auto, unfolding(records::specs::Record::is_record))]
pub fn carry_out(what: Bare, rec: &mut [u8])
    ensures { rec.new ≡ cond (is_record rec.old) (done what rec.old) rec.old }
{
    if let Some(record) = rec.as_mut_array() {
        do_bare(what, record);
    }
}
