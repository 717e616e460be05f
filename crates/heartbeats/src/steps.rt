// What one monitor makes of its turn in a heartbeat: it wakes as the manager, a message reaches it, or the time runs out.
ghost use Rattle.std.specs.Prelude.{◌≡◌, cond, ◌&&◌, ◌+◌, ◌%◌, length, None};
ghost use Rattle.std.specs.Int.Bits.{bit_and, bit_or};
ghost use Rattle.records.specs.Record.{record_size, cmf1, is_record, on_bytes};
ghost use Rattle.measuring.specs.Measuring.{measured};
ghost use Rattle.messages.specs.Messages.{is_pass};
ghost use Rattle.heartbeats.specs.Steps.{manages, is_manager, is_timeout, towards_a, counted_down, joined_to, woken, wakes, hears, reached, answers, late};

use measuring::measure;
use messages::{PASS_COUNT, message_right};
use records::{CMF1, LPCM_FLAGS, RDCMCFG, RECORD_SIZE, byte_at, byte_in, in_lpcm};

// What a message of a heartbeat carries: the count and the flags.
#[derive(Clone, Copy)]
pub struct Beat {
    pub count: u8,
    pub flags: u8,
}

// CMC_MAN
#[tactic(auto, unfolding(crate::specs::Steps::manages, laws::specs::Bits::bit_at, laws::specs::Bits::odd))]
fn manages(rec: &[u8]) -> bool
    ensures { result ≡ manages rec.now }
{
    byte_in(rec, RDCMCFG, 0) / 128 % 2 == 1
}

// A manager in LPCM?
#[tactic(auto, unfolding(crate::specs::Steps::is_manager))]
fn is_manager(rec: &[u8]) -> bool
    ensures { result ≡ is_manager rec.now }
{
    in_lpcm(rec) && manages(rec)
}

// A bridgeless timeout monitor in LPCM?
#[tactic(auto, unfolding(crate::specs::Steps::is_timeout, laws::specs::Bits::bit_at, laws::specs::Bits::odd))]
fn is_timeout(rec: &[u8]) -> bool
    ensures { result ≡ is_timeout rec.now }
{
    in_lpcm(rec) && !manages(rec) && byte_in(rec, RDCMCFG, 0) / 8 % 2 == 1
}

// CMC_DIR: is it towards port A, down to monitor 1, that the manager sends?
#[tactic(auto, unfolding(crate::specs::Steps::towards_a, laws::specs::Bits::bit_at, laws::specs::Bits::odd))]
pub fn is_towards_a(rec: &[u8]) -> bool
    ensures { result ≡ towards_a rec.now }
{
    byte_in(rec, RDCMCFG, 4) / 32 % 2 == 1
}

// Does the monitor take the message in?
#[tactic(auto, unfolding(crate::specs::Steps::hears))]
fn hears(rec: &[u8], message: &[u8]) -> bool
    ensures { result ≡ hears message.now rec.now }
{
    in_lpcm(rec) && !manages(rec) && message_right(message)
}

// One less, in eight bits, if the monitor passes.
fn counted_down(count: u8, passed: bool) -> u8
    ensures { result ≡ cond «passed» ((count + 255) % 256) count }
{
    if passed { count.wrapping_sub(1) } else { count }
}

// The monitor's own step: it measures, counts itself if it passes, and joins its flags.
fn own_step(rec: &mut [u8], count: u8, flags: u8) -> Beat
    requires { length rec.old ≡ record_size }
    ensures count_value { result.count ≡ counted_down rec.old count }
    ensures flags_value { result.flags ≡ joined_to rec.old flags }
    ensures rec_after { rec.new ≡ measured rec.old }
{
    let passed = measure(rec);
    let own = byte_at(rec, LPCM_FLAGS);
    let left = counted_down(count, passed);
    Beat {
        count: left,
        flags: flags | own,
    }
}

// CMF1 by what a timeout monitor is left with: a pass clears both of its flags, anything else sets CMF_BTMCMP.
#[tactic(auto, unfolding(messages::specs::Messages::is_pass))]
fn judged(old: u8, count: u8, flags: u8) -> u8
    ensures { result ≡ cond (is_pass count flags) (bit_and old 0xFC) (bit_or old 0x01) }
{
    if count == PASS_COUNT && flags == 0 {
        old & 0xfc
    } else {
        old | 0x01
    }
}

// The manager wakes: it measures and starts a heartbeat, whose first message comes back. Any other monitor stays silent, and so does a slice that is no record.
pub fn wake(rec: &mut [u8]) -> Option<Beat>
    ensures value { result ≡ cond (is_record rec.old) (wakes rec.old) None }
    ensures rec_after { rec.new ≡ cond (is_record rec.old) (woken rec.old) rec.old }
{
    if rec.len() != RECORD_SIZE {
        return None;
    }
    if !is_manager(rec) {
        return None;
    }
    let count = byte_in(rec, RDCMCFG, 1);
    Some(own_step(rec, count, 0))
}

// A message reaches the monitor, and it sends on what the answer says; a timeout monitor judges instead.
pub fn reach(rec: &mut [u8], message: &[u8]) -> Option<Beat>
    ensures value { result ≡ cond (is_record rec.old) (answers message.now rec.old) None }
    ensures rec_after { rec.new ≡ cond (is_record rec.old) (reached message.now rec.old) rec.old }
{
    if rec.len() != RECORD_SIZE {
        return None;
    }
    if !hears(rec, message) {
        return None;
    }
    let count = byte_at(message, 4);
    let flags = byte_at(message, 5);
    let is_last = is_timeout(rec);
    let own = own_step(rec, count, flags);
    if is_last {
        let old = byte_at(rec, CMF1);
        rec[CMF1] = judged(old, own.count, own.flags);
        return None;
    }
    Some(own)
}

// The time runs out: a timeout monitor sets CMF_BTMWD. The answer is whether it is one.
#[tactic(auto, unfolding(crate::specs::Steps::late, records::specs::Record::is_record, records::specs::Record::on_bytes, records::specs::Record::anew))]
pub fn run_out(rec: &mut [u8]) -> bool
    ensures value { result ≡ (is_record rec.old && is_timeout rec.old) }
    ensures rec_after { rec.new ≡ cond (is_record rec.old) (late rec.old) rec.old }
{
    if rec.len() != RECORD_SIZE {
        return false;
    }
    if !is_timeout(rec) {
        return false;
    }
    rec[CMF1] |= 0x02;
    true
}
