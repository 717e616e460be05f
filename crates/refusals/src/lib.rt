// Document 01, "Numbers that come back": the refusals by name, and their numbers.
#![tactic(auto)]

ghost use Rattle.std.specs.Prelude.{◌≡◌};
ghost use Rattle.refusals.specs.Numbers.{number_of};

#[derive(Clone, Copy, Debug, PartialEq, Eq)]
pub enum Refusal {
    // The table is not sound; at a release also: it was not, or had another N, at byte four.
    TableNotSound,
    // The frame has under four bytes.
    FrameShort,
    // The command's check is wrong.
    CommandWrong,
    // The code is not listed.
    CodeNotListed,
    // The length is not the one for this command and N; a reply or payload of the wrong length.
    LengthWrong,
    // The buffer to be written is too small.
    NoRoom,
    // N is not 1 to 32, or the position not 1 to N; a phase is above 14; an expected counter is above 63.
    PositionWrong,
    // The number of codes or value bytes is wrong.
    CountWrong,
    // A loaded code is -32768.
    CodeCleared,
    // Both ports' bytes are damaged.
    BothDamaged,
}

pub fn number_of(refusal: Refusal) -> u8
    ensures { result ≡ number_of refusal }
{
    match refusal {
        Refusal::TableNotSound => 1,
        Refusal::FrameShort => 2,
        Refusal::CommandWrong => 3,
        Refusal::CodeNotListed => 4,
        Refusal::LengthWrong => 5,
        Refusal::NoRoom => 6,
        Refusal::PositionWrong => 7,
        Refusal::CountWrong => 8,
        Refusal::CodeCleared => 9,
        Refusal::BothDamaged => 10,
    }
}
