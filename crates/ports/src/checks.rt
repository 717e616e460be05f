// The check of one payload, against the counter that the host expects.
ghost use Rattle.std.specs.Prelude.{◌≡◌};
ghost use Rattle.ports.specs.Check.{checked};

use records::{MOST_COUNT, PAYLOAD_SIZE};
use refusals::Refusal;

// What comes of the check of one payload: where only its counter differs, the one received.
#[derive(Clone, Copy, Debug, PartialEq, Eq)]
pub enum Checked {
    Right,
    CounterDiffers(u8),
    Damaged,
}

// Is one payload right, or does only its counter differ, or is it damaged? The check decides first: a wrong one tells nothing of the counter.
#[tactic(auto, unfolding(crate::specs::Check::checked, crate::specs::Check::check_refusals, crate::specs::Verdicts::counter_row, crate::specs::Verdicts::is_damaged, crate::specs::Verdicts::counter_differs, refusals::specs::Order::decide))]
pub fn check(payload: &[u8], expected: u8) -> Result<Checked, Refusal>
    ensures { result ≡ checked payload.now expected }
{
    if expected > MOST_COUNT {
        return Err(Refusal::PositionWrong);
    }
    if payload.len() != PAYLOAD_SIZE {
        return Err(Refusal::LengthWrong);
    }
    let counter = check_words::counter_in(payload);
    if !check_words::payload_right(payload) {
        return Ok(Checked::Damaged);
    }
    if counter != expected {
        return Ok(Checked::CounterDiffers(counter));
    }
    Ok(Checked::Right)
}
