// Adler-32 (RFC 1950): every byte of every table and reply counts, and its place.
ghost use Rattle.std.specs.Prelude.{◌<◌};

use std::fmt;

const PRIME: u32 = 65521;

#[derive(Clone, Copy)]
pub(crate) struct Digest {
    low: u32,
    high: u32,
    ghost below_prime: { (low < 65521) × (high < 65521) },
}

impl Digest {
    // Of no bytes.
    pub(crate) fn new() -> Digest {
        Digest { low: 1, high: 0 }
    }

    pub(crate) fn add(&mut self, bytes: &[u8]) {
        for byte in bytes {
            self.low = (self.low + u32::from(*byte)) % PRIME;
            self.high = (self.high + self.low) % PRIME;
        }
    }
}

impl fmt::Display for Digest {
    fn fmt<W: fmt::Write>(&self, f: &mut fmt::Formatter<W>) -> fmt::Result {
        write!(f, "{:04x}{:04x}", self.high, self.low)
    }
}

// What goes to a digest.
pub(crate) trait Digested {
    fn add_to(&self, digest: &mut Digest);
}
