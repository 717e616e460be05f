// A share of the time for each cell, in fifteenths.

use std::{array, fmt};

// Of cells 1 to 16.
#[derive(Clone, Copy, Debug, PartialEq, Eq)]
pub(crate) struct Fifteenths(pub(crate) [u8; 16]);

impl Fifteenths {
    // The duties as the data of PWM groups A and B have them: two cells to a byte, the odd cell's in its low half. Group A has those of cells 1
    // to 12, and the first two bytes of group B have the others.
    pub(crate) fn of_groups(a: [u8; 6], b: [u8; 6]) -> Fifteenths {
        let bytes = [a[0], a[1], a[2], a[3], a[4], a[5], b[0], b[1]];
        Fifteenths(array::from_fn(|i| {
            let byte = bytes[i / 2];
            if i % 2 == 0 { byte % 16 } else { byte / 16 }
        }))
    }
}

impl fmt::Display for Fifteenths {
    fn fmt<W: fmt::Write>(&self, f: &mut fmt::Formatter<W>) -> fmt::Result {
        for share in self.0 {
            write!(f, " {share}")?;
        }
        Ok(())
    }
}
