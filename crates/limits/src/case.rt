// What a kind of case has to do, and when what came is as expected.
use refusals::Refusal;
use std::io;

pub(crate) trait Case {
    // Writes the case's line but for its end. Is what came as the case expects it?
    fn tried<R: Print>(&self, rt: &R) -> io::Result<bool>;
}

// The paper's number of a refusal.
fn paper_number(refusal: Refusal) -> u8 {
    match refusal {
        Refusal::TableNotSound => 1,
        Refusal::FrameShort => 2,
        Refusal::CommandWrong => 3,
        Refusal::CodeNotListed => 4,
        Refusal::LengthWrong => 5,
        Refusal::NoRoom => 6,
        Refusal::PositionWrong => 7,
        Refusal::CountWrong => 8,
        Refusal::CodeCleared => 9,
        Refusal::BothDamaged => 10,
    }
}

// Is what came what is wanted, a refusal also by its number?
pub(crate) fn as_wanted<T: Copy + PartialEq>(
    came: Result<T, Refusal>,
    wanted: Result<T, Refusal>,
) -> bool {
    match (came, wanted) {
        (Ok(came), Ok(wanted)) => came == wanted,
        (Err(came), Err(wanted)) => came == wanted
            && refusals::number_of(came) == paper_number(wanted),
        _ => false,
    }
}
