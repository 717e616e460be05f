// The two thresholds of a record, and the two kinds of count.
ghost use Rattle.std.specs.Prelude.{◌≡◌};
ghost use Rattle.thresholds.specs.Thresholds.{lower, upper, vuv, vov, codes_of};

use records::{Part, RDCFGB, byte_in};

// A count of codes of 150 microvolts.
#[derive(Clone, Copy, PartialEq, Eq, PartialOrd, Ord)]
pub struct ResultCode(pub i32);

// A count of threshold steps, each of 16 codes.
#[derive(Clone, Copy)]
pub struct ThresholdStep(pub i16);

// The 16 bits of a code, as the hardware gives it.
impl From<i16> for ResultCode {
    ghost from_gives = { λ code wide. wide.0 ≡ code };

    fn from(code: i16) -> ResultCode {
        ResultCode(code.into())
    }
}

// A count of steps as a count of codes: the one conversion between the two.
#[tactic(auto, unfolding(crate::specs::Thresholds::codes_of), using(std::proofs::lemmas::Int::ints))]
pub fn codes_of(step: ThresholdStep) -> ResultCode
    ensures { result ≡ codes_of step }
{
    ResultCode(i32::from(step.0) * 16)
}

// The same by its type. The conversion stands in `codes_of`, which the theorems of `story` name.
impl From<ThresholdStep> for ResultCode {
    ghost from_gives = { λ step code. code ≡ codes_of step };

    fn from(step: ThresholdStep) -> ResultCode {
        codes_of(step)
    }
}

// The lower threshold of a part that begins with two: 12 bits, two's complement, of which the second byte has the high four in its low half.
#[tactic(auto, unfolding(crate::specs::Thresholds::lower), using(crate::proofs::TwosComplement::word_read, crate::proofs::TwosComplement::twelve_read))]
pub fn lower_threshold(rec: &[u8], part: Part) -> ThresholdStep
    ensures { result ≡ lower part rec.now }
{
    let low = byte_in(rec, part, 0);
    let high = byte_in(rec, part, 1);
    ThresholdStep(i16::from_le_bytes([low, high]) << 4 >> 4)
}

// The upper threshold of a part that begins with two: the 12 bits above those.
#[tactic(auto, unfolding(crate::specs::Thresholds::upper), using(crate::proofs::TwosComplement::word_read, crate::proofs::TwosComplement::twelve_read))]
pub fn upper_threshold(rec: &[u8], part: Part) -> ThresholdStep
    ensures { result ≡ upper part rec.now }
{
    let low = byte_in(rec, part, 1);
    let high = byte_in(rec, part, 2);
    ThresholdStep(i16::from_le_bytes([low, high]) >> 4)
}

// VUV.
#[tactic(auto, unfolding(crate::specs::Thresholds::vuv))]
pub fn under_threshold(rec: &[u8]) -> ThresholdStep
    ensures { result ≡ vuv rec.now }
{
    lower_threshold(rec, RDCFGB)
}

// VOV.
#[tactic(auto, unfolding(crate::specs::Thresholds::vov))]
pub fn over_threshold(rec: &[u8]) -> ThresholdStep
    ensures { result ≡ vov rec.now }
{
    upper_threshold(rec, RDCFGB)
}
