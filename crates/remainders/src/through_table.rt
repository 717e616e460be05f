// The same remainder through a table of 256 remainders, of any check word.
ghost use Rattle.std.specs.Prelude.{◌≡◌, ◌^◌, ◌<◌, ◌≤◌};
ghost use Rattle.laws.specs.Bits.{bits_of, bits_of_bytes};
ghost use Rattle.pec.specs.Remainder.{remainder};

use crate::check_word::{CheckWord, START};

// The k bits x at once, k at most 8.
pub(crate) fn step_bits<W: CheckWord>(k: u16, r: u16, x: u16) -> u16
    requires below { r < 2 ^ W.WIDTH }
    requires k_bound { (k ≤ 8) × (x < 2 ^ k) }
    ensures { result ≡ remainder W.WIDTH W.POLYNOMIAL r (bits_of k x) }
{
    let up = u32::from(r) << k;
    let low = up % (1 << W::WIDTH);
    let index = (up >> W::WIDTH) ^ u32::from(x);
    (low as u16) ^ W::table()[index as usize]
}

// A byte string of any length.
pub(crate) fn over_bytes<W: CheckWord>(bytes: &[u8]) -> u16
    ensures { result ≡ remainder W.WIDTH W.POLYNOMIAL 16 (bits_of_bytes bytes.now) }
{
    let mut r = START;
    for &byte in bytes {
        r = step_bits::<W>(8, r, u16::from(byte));
    }
    r
}
