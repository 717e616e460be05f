// What one monitor replies to a read.
ghost use Rattle.std.specs.Prelude.{◌≡◌, get_or};
ghost use Rattle.records.specs.Record.{bytes_of};
ghost use Rattle.reads.specs.Reply.{six_bytes, register, reply};

use crate::shown::{copy_of, of_cells};
use records::{COUNTER, Part, byte_at, is_snapped};

// Byte i of a part, and FF past the end of the part or of the slice.
fn shown_byte(rec: &[u8], part: Part, i: usize) -> u8
    ensures { result ≡ get_or (bytes_of part rec.now) i 0xFF }
{
    if i < usize::from(part.size) {
        if let Some(byte) = rec.get(usize::from(part.at) + i) {
            return *byte;
        }
    }
    0xff
}

// Six bytes of a part, each by its own tests.
fn shown_bytes(part: Part, rec: &[u8]) -> [u8; 6]
    ensures { result ≡ six_bytes part rec.now }
{
    let mut bytes = [0; 6];
    for i in 0..6 {
        bytes[i] = shown_byte(rec, part, i);
    }
    bytes
}

// Six bytes of a part. Every part but cell 16 and its copy has six and lies within the record: one test is then enough for all.
fn part_bytes(part: Part, rec: &[u8]) -> [u8; 6]
    ensures { result ≡ six_bytes part rec.now }
{
    let at = usize::from(part.at);
    if 6 <= usize::from(part.size) && at + 6 <= rec.len() {
        let mut six = [0; 6];
        six.copy_from_slice(&rec[at..at + 6]);
        return six;
    }
    shown_bytes(part, rec)
}

// The six bytes of a register: of the part itself, or of the cells, while a snapshot is on, of the same part of their copy. Two calls, and not one of
// a part that is picked before: its bytes would have to wait for SNAP_ST.
#[tactic(auto, unfolding(crate::specs::Reply::register, crate::specs::Shown::shown_part))]
fn register_of(part: Part, rec: &[u8]) -> [u8; 6]
    ensures { result ≡ register part rec.now }
{
    if of_cells(part) && is_snapped(rec) {
        return part_bytes(copy_of(part), rec);
    }
    part_bytes(part, rec)
}

// The eight bytes that one monitor replies: the register, the counter as it stands, the check over both.
#[tactic(auto, unfolding(crate::specs::Reply::reply, records::specs::Record::byte_of))]
pub fn reply_of(part: Part, rec: &[u8]) -> [u8; 8]
    ensures { result ≡ reply part rec.now }
{
    let six = register_of(part, rec);
    let counter = byte_at(rec, COUNTER);
    check_words::sealed(&six, counter)
}
