// An answer as one number.
ghost use Rattle.std.specs.Prelude.{◌≡◌};
ghost use Rattle.packing.specs.Packed.{packed, refused, accepted};

use refusals::Refusal;

// The number in bits 0 to 7, the first value in bits 8 to 15, the second in bits 16 to 31.
pub fn pack(number: u8, first: u8, second: u16) -> u32
    ensures { result ≡ packed (record { number = number; first = first; second = second }) }
{
    (number as u32) + 256 * (first as u32) + 65536 * (second as u32)
}

// A refusal is its number only.
pub fn refused(refusal: Refusal) -> u32
    ensures { result ≡ packed (refused refusal) }
{
    pack(refusals::number_of(refusal), 0, 0)
}

// What is accepted has the number 0.
pub fn accepted(first: u8, second: u16) -> u32
    ensures { result ≡ packed (accepted first second) }
{
    pack(0, first, second)
}
