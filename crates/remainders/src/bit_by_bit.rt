// The remainder bit by bit, of any check word. A remainder is a number that a `requires` keeps below 2^w: a struct with that as its ghost field
// would want a PhantomData for the check word, and its number named at every step.
ghost use Rattle.std.specs.Prelude.{◌≡◌, ◌^◌, ◌<◌};
ghost use Rattle.laws.specs.Bits.{odd, bits_of, bits_of_bytes};
ghost use Rattle.pec.specs.Remainder.{step, remainder};

use crate::check_word::{CheckWord, START};

// One bit more: the last bit of x.
fn step_bit<W: CheckWord>(r: u16, x: u16) -> u16
    requires { r < 2 ^ W.WIDTH }
    ensures { result ≡ step W.WIDTH W.POLYNOMIAL r (odd x) }
{
    let up = r * 2;
    let low = up % (1 << W::WIDTH);
    if ((up >> W::WIDTH) ^ x) % 2 == 1 {
        low ^ W::POLYNOMIAL
    } else {
        low
    }
}

// The eight bits of a byte, the most significant first.
fn step_byte<W: CheckWord>(start: u16, byte: u8) -> u16
    requires { start < 2 ^ W.WIDTH }
    ensures { result ≡ remainder W.WIDTH W.POLYNOMIAL start (bits_of 8 byte) }
{
    let x = u16::from(byte);
    let mut r = start;
    for place in (0..8u16).rev() {
        r = step_bit::<W>(r, x >> place);
    }
    r
}

// A byte string of any length.
pub(crate) fn over_bytes<W: CheckWord>(bytes: &[u8]) -> u16
    ensures { result ≡ remainder W.WIDTH W.POLYNOMIAL 16 (bits_of_bytes bytes.now) }
{
    let mut r = START;
    for &byte in bytes {
        r = step_byte::<W>(r, byte);
    }
    r
}
