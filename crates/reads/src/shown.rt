// The parts that cell reads show.
ghost use Rattle.std.specs.Prelude.{◌≡◌, true};
ghost use Rattle.reads.specs.Shown.{of_cells, copy_of};

use records::{CELLS, CELLS_SIZE, Part, SNAPSHOT};

// Is it a part of the cells?
pub(crate) fn of_cells(part: Part) -> bool
    ensures { result ≡ of_cells part }
{
    let at = usize::from(part.at);
    CELLS <= at && at + usize::from(part.size) <= CELLS + CELLS_SIZE
}

// The same part of the copy.
pub(crate) fn copy_of(part: Part) -> Part
    requires { of_cells part ≡ true }
    ensures { result ≡ copy_of part }
{
    Part {
        at: SNAPSHOT as u8 + (part.at - CELLS as u8),
        ..part
    }
}
