// What a record holds of the discharge of its cells, which are counted from 1.
ghost use Rattle.std.specs.Prelude.{◌≡◌, ◌+◌, ◌<◌, ◌≤◌};
ghost use Rattle.records.specs.Record.{cell_count};
ghost use Rattle.priorities.specs.Switches.{muted, dcc, duty_byte, duty};

use records::{DCC_BITS, PWM_A, PWM_B, STATUS_BITS, byte_at};

// MUTE_ST.
#[tactic(auto, unfolding(crate::specs::Switches::muted, records::specs::Record::byte_of, laws::specs::Bits::bit_at, laws::specs::Bits::odd))]
pub(crate) fn is_muted(rec: &[u8]) -> bool
    ensures { result ≡ muted rec.now }
{
    byte_at(rec, STATUS_BITS) / 16 % 2 == 1
}

// One of a monitor's cells, by its number.
#[derive(Clone, Copy)]
pub(crate) struct Cell {
    pub(crate) number: usize,
    ghost of_a_monitor: { (1 ≤ number) × (number ≤ cell_count) },
}

impl Cell {
    // The cell with so many before it.
    pub(crate) fn after(before: usize) -> Self
        requires { before < cell_count }
        ensures { result.number ≡ before + 1 }
    {
        Cell { number: before + 1 }
    }

    // Its own DCC bit.
    #[tactic(auto, using(crate::proofs::Cells::dcc_byte), unfolding(crate::specs::Switches::dcc, laws::specs::Bits::bit_at, laws::specs::Bits::odd))]
    pub(crate) fn has_dcc(self, rec: &[u8]) -> bool
        ensures { result ≡ dcc rec.now self.number }
    {
        let before = self.number - 1;
        let byte = byte_at(rec, DCC_BITS + before / 8);
        (byte >> (before % 8)) % 2 == 1
    }

    // The byte that holds its duty.
    #[tactic(auto, using(crate::proofs::Cells::in_group_a, crate::proofs::Cells::in_group_b))]
    fn duty_byte(self, rec: &[u8]) -> u8
        ensures { result ≡ duty_byte rec.now self.number }
    {
        let cell = self.number;
        if cell <= 12 {
            byte_at(rec, PWM_A + (cell - 1) / 2)
        } else {
            byte_at(rec, PWM_B + (cell - 13) / 2)
        }
    }

    // Its duty, 0 to 15.
    #[tactic(auto, unfolding(crate::specs::Switches::duty, laws::specs::Bits::odd))]
    pub(crate) fn duty(self, rec: &[u8]) -> u8
        ensures { result ≡ duty rec.now self.number }
    {
        let byte = self.duty_byte(rec);
        if self.number % 2 == 1 {
            byte % 16
        } else {
            byte / 16 % 16
        }
    }
}
