// Where one monitor lies in the table.
ghost use Rattle.std.specs.Prelude.{◌≡◌};
ghost use Rattle.judging.specs.Places.{placed};

use crate::tables::sound_count;
use refusals::Refusal;

// The place of the monitor at a position, counted from 1: which record it is, counted from 0.
pub fn place_of(table: &[u8], position: usize) -> Result<usize, Refusal>
    ensures { result ≡ placed table.now position }
{
    let n = sound_count(table);
    if n == 0 {
        return Err(Refusal::TableNotSound);
    }
    if position < 1 {
        return Err(Refusal::PositionWrong);
    }
    if n < position {
        return Err(Refusal::PositionWrong);
    }
    Ok(position - 1)
}
