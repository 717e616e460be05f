// The question: which outputs of one monitor are on, and which row of Table 27 decided each?
ghost use Rattle.std.specs.Prelude.{◌≡◌, length};
ghost use Rattle.discharge.specs.Question.{discharged, outputs_after};

use judging::{place_of, record_at};
use priorities::{Events, put_outputs};
use records::CELL_COUNT;
use refusals::Refusal;

// The phases of the PWM are 0 to 14.
const LAST_PHASE: u8 = 14;

// The outputs of the monitor at a position, counted from 1, go to the start of a buffer, a byte each, cell 1's first: how many are on. A
// refusal changes nothing.
pub fn discharge(
    table: &[u8],
    position: usize,
    events: Events,
    phase: u8,
    out: &mut [u8],
) -> Result<usize, Refusal>
    ensures value { result ≡ discharged table.now position events phase (length out.old) }
    ensures out_after { out.new ≡ outputs_after table.now position events phase out.old }
{
    let k = place_of(table, position)?;
    if LAST_PHASE < phase {
        return Err(Refusal::PositionWrong);
    }
    if out.len() < CELL_COUNT {
        return Err(Refusal::NoRoom);
    }
    match record_at(table, k) {
        Some(lies) => Ok(put_outputs(&table[lies], events, phase, out)),
        // A place is one of a record, so this is never answered.
        None => Err(Refusal::PositionWrong),
    }
}
