// The refusals of a store, a compare and a load, in the paper's order.
ghost use Rattle.std.specs.Prelude.{◌≡◌, not};
ghost use Rattle.laws.specs.Counts.{all};
ghost use Rattle.cells.specs.Cells.{is_cleared};
ghost use Rattle.loads.specs.Load.{stored, compared};

use judging::place_of;
use records::CELL_COUNT;
use refusals::Refusal;

// The code that a cleared cell holds.
const CLEARED: i16 = -32768;

// Is one of the codes that of a cleared cell?
fn any_cleared(codes: &[i16]) -> bool
    ensures { result ≡ not (all (λ code. not (is_cleared code)) codes.now) }
{
    codes.contains(&CLEARED)
}

// A compare's: of the table and the position.
pub(crate) fn judge_compare(table: &[u8], position: usize) -> Result<(), Refusal>
    ensures { result ≡ compared table.now position }
{
    place_of(table, position)?;
    Ok(())
}

// A store's: a compare's, and after them those of the codes.
pub(crate) fn judge_store(table: &[u8], position: usize, codes: &[i16]) -> Result<(), Refusal>
    ensures { result ≡ stored table.now position codes.now }
{
    judge_compare(table, position)?;
    if codes.len() != CELL_COUNT {
        return Err(Refusal::CountWrong);
    }
    if any_cleared(codes) {
        return Err(Refusal::CodeCleared);
    }
    Ok(())
}
