// The check words of a byte string of any length: the two remainders, bit by bit and through a table, and what is sent of the second.
ghost use Rattle.std.specs.Prelude.{◌≡◌, ◌++◌, ◌^◌, ◌≤◌, ◌<◌};
ghost use Rattle.laws.specs.Bits.{bits_of, bits_of_bytes};
ghost use Rattle.pec.specs.Remainder.{remainder};
ghost use Rattle.pec.specs.Words.{pec15, polynomial10, pec10, data_pec, seal};

use crate::check_word::{Pec10, Pec15};
use crate::{bit_by_bit, through_table};
use check_words::two_bytes;

// The 15-bit remainder of a byte string, bit by bit.
#[tactic(auto, unfolding(pec::specs::Words::pec15))]
pub fn pec15_bitwise(bytes: &[u8]) -> u16
    ensures { result ≡ pec15 bytes.now }
{
    bit_by_bit::over_bytes::<Pec15>(bytes)
}

// The 15-bit remainder of a byte string, through the table.
#[tactic(auto, unfolding(pec::specs::Words::pec15))]
pub fn pec15_by_table(bytes: &[u8]) -> u16
    ensures { result ≡ pec15 bytes.now }
{
    through_table::over_bytes::<Pec15>(bytes)
}

// The 10-bit remainder of a byte string, bit by bit.
#[tactic(auto, unfolding(pec::specs::Words::pec10))]
pub fn pec10_bitwise(bytes: &[u8]) -> u16
    ensures { result ≡ pec10 bytes.now }
{
    bit_by_bit::over_bytes::<Pec10>(bytes)
}

// The 10-bit remainder of a byte string and then of k bits x, through the table.
fn pec10_and_bits(bytes: &[u8], k: u16, x: u16) -> u16
    requires { (k ≤ 8) × (x < 2 ^ k) }
    ensures { result ≡ remainder 10 polynomial10 16 (bits_of_bytes bytes.now ++ bits_of k x) }
{
    let r = through_table::over_bytes::<Pec10>(bytes);
    through_table::step_bits::<Pec10>(k, r, x)
}

// The 10-bit remainder of a byte string, through the table.
pub fn pec10_by_table(bytes: &[u8]) -> u16
    ensures { result ≡ pec10 bytes.now }
{
    pec10_and_bits(bytes, 0, 0)
}

// The 10-bit remainder of a byte string and then the six bits of a counter.
pub fn data_pec(bytes: &[u8], counter: u8) -> u16
    ensures { result ≡ data_pec bytes.now counter }
{
    pec10_and_bits(bytes, 6, u16::from(counter % 64))
}

// Bytes seven and eight of a payload.
pub fn seal(bytes: &[u8], counter: u8) -> [u8; 2]
    ensures { result ≡ seal bytes.now counter }
{
    let check = data_pec(bytes, counter);
    two_bytes(u16::from(counter % 64) * 1024 + check)
}
