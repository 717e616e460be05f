// The two check words as the functions over the width know them: the width w, the polynomial g below x^w, and the table of g.
ghost use Rattle.std.specs.Prelude.{◌≡◌, ℕ};
ghost use Rattle.pec.specs.Remainder.{Fitting};
ghost use Rattle.pec.specs.Words.{polynomial15, polynomial10};
ghost use Rattle.remainders.specs.ByTable.{table_of};
ghost use Rattle.remainders.specs.CheckWords.{fitting_15, fitting_10};

use crate::tables::{PEC10, PEC15};

// What every check word starts from.
pub(crate) const START: u16 = 16;

pub(crate) trait CheckWord {
    const WIDTH: u16;

    const POLYNOMIAL: u16;

    ghost WIDTH: { ℕ };

    ghost POLYNOMIAL: { ℕ };

    // The remainder of each byte value.
    fn table() -> &'static [u16; 256]
        ensures { result.now ≡ table_of WIDTH POLYNOMIAL };

    ghost fitting: { Fitting WIDTH POLYNOMIAL 16 };
}

// A command's, of 15 bits.
pub(crate) struct Pec15;

impl CheckWord for Pec15 {
    const WIDTH: u16 = 15;

    const POLYNOMIAL: u16 = 0x4599;

    ghost WIDTH = { 15 };

    ghost POLYNOMIAL = { polynomial15 };

    ghost fitting = { fitting_15 };

    fn table() -> &'static [u16; 256] {
        &PEC15
    }
}

// The data's, of 10 bits.
pub(crate) struct Pec10;

impl CheckWord for Pec10 {
    const WIDTH: u16 = 10;

    const POLYNOMIAL: u16 = 0x08f;

    ghost WIDTH = { 10 };

    ghost POLYNOMIAL = { polynomial10 };

    ghost fitting = { fitting_10 };

    fn table() -> &'static [u16; 256] {
        &PEC10
    }
}
