// Writes to the longest chain: each of 32 monitors is sent its own position, so that any other order would show.
use crate::bench::RECORD;
use crate::buffers::{Buffer, extend, filled, lay};
use crate::case::Case;
use crate::engines::Engine;
use crate::say::Answered;
use chain::Answer;
use std::io;

// What a monitor is sent: in WRCFGB its position six times, and its check; in CLRCMFLAG twice, and its check. The flags are those that
// CLRCMFLAG leaves of ff.
struct Own {
    written: u64,
    cleared: u32,
    flags: u8,
}

static MONITORS: [Own; 32] = [
    Own {
        written: 0x0101_0101_0101_0184,
        cleared: 0x0101_01ed,
        flags: 0xfe,
    },
    Own {
        written: 0x0202_0202_0202_03a2,
        cleared: 0x0202_018d,
        flags: 0xfd,
    },
    Own {
        written: 0x0303_0303_0303_01c5,
        cleared: 0x0303_0228,
        flags: 0xfc,
    },
    Own {
        written: 0x0404_0404_0404_0361,
        cleared: 0x0404_014d,
        flags: 0xfb,
    },
    Own {
        written: 0x0505_0505_0505_0106,
        cleared: 0x0505_02e8,
        flags: 0xfa,
    },
    Own {
        written: 0x0606_0606_0606_0320,
        cleared: 0x0606_0288,
        flags: 0xf9,
    },
    Own {
        written: 0x0707_0707_0707_0147,
        cleared: 0x0707_012d,
        flags: 0xf8,
    },
    Own {
        written: 0x0808_0808_0808_02e7,
        cleared: 0x0808_00cd,
        flags: 0xf7,
    },
    Own {
        written: 0x0909_0909_0909_0080,
        cleared: 0x0909_0368,
        flags: 0xf6,
    },
    Own {
        written: 0x0a0a_0a0a_0a0a_02a6,
        cleared: 0x0a0a_0308,
        flags: 0xf5,
    },
    Own {
        written: 0x0b0b_0b0b_0b0b_00c1,
        cleared: 0x0b0b_00ad,
        flags: 0xf4,
    },
    Own {
        written: 0x0c0c_0c0c_0c0c_0265,
        cleared: 0x0c0c_03c8,
        flags: 0xf3,
    },
    Own {
        written: 0x0d0d_0d0d_0d0d_0002,
        cleared: 0x0d0d_006d,
        flags: 0xf2,
    },
    Own {
        written: 0x0e0e_0e0e_0e0e_0224,
        cleared: 0x0e0e_000d,
        flags: 0xf1,
    },
    Own {
        written: 0x0f0f_0f0f_0f0f_0043,
        cleared: 0x0f0f_03a8,
        flags: 0xf0,
    },
    Own {
        written: 0x1010_1010_1010_01eb,
        cleared: 0x1010_03cd,
        flags: 0xef,
    },
    Own {
        written: 0x1111_1111_1111_038c,
        cleared: 0x1111_0068,
        flags: 0xee,
    },
    Own {
        written: 0x1212_1212_1212_01aa,
        cleared: 0x1212_0008,
        flags: 0xed,
    },
    Own {
        written: 0x1313_1313_1313_03cd,
        cleared: 0x1313_03ad,
        flags: 0xec,
    },
    Own {
        written: 0x1414_1414_1414_0169,
        cleared: 0x1414_00c8,
        flags: 0xeb,
    },
    Own {
        written: 0x1515_1515_1515_030e,
        cleared: 0x1515_036d,
        flags: 0xea,
    },
    Own {
        written: 0x1616_1616_1616_0128,
        cleared: 0x1616_030d,
        flags: 0xe9,
    },
    Own {
        written: 0x1717_1717_1717_034f,
        cleared: 0x1717_00a8,
        flags: 0xe8,
    },
    Own {
        written: 0x1818_1818_1818_00ef,
        cleared: 0x1818_0148,
        flags: 0xe7,
    },
    Own {
        written: 0x1919_1919_1919_0288,
        cleared: 0x1919_02ed,
        flags: 0xe6,
    },
    Own {
        written: 0x1a1a_1a1a_1a1a_00ae,
        cleared: 0x1a1a_028d,
        flags: 0xe5,
    },
    Own {
        written: 0x1b1b_1b1b_1b1b_02c9,
        cleared: 0x1b1b_0128,
        flags: 0xe4,
    },
    Own {
        written: 0x1c1c_1c1c_1c1c_006d,
        cleared: 0x1c1c_024d,
        flags: 0xe3,
    },
    Own {
        written: 0x1d1d_1d1d_1d1d_020a,
        cleared: 0x1d1d_01e8,
        flags: 0xe2,
    },
    Own {
        written: 0x1e1e_1e1e_1e1e_002c,
        cleared: 0x1e1e_0188,
        flags: 0xe1,
    },
    Own {
        written: 0x1f1f_1f1f_1f1f_024b,
        cleared: 0x1f1f_022d,
        flags: 0xe0,
    },
    Own {
        written: 0x2020_2020_2020_037c,
        cleared: 0x2020_0142,
        flags: 0xdf,
    },
];

// WRCFGB to monitors of 0, and CLRCMFLAG to monitors of which each has all flags in CMF0.
#[derive(Clone, Copy)]
pub(crate) enum Longest {
    Write,
    Clear,
}

pub(crate) static CASES: [Longest; 2] = [Longest::Write, Longest::Clear];

impl Longest {
    fn name(self) -> &'static str {
        match self {
            Longest::Write => "WRCFGB",
            Longest::Clear => "CLRCMFLAG",
        }
    }

    // What is said where the table is as expected.
    fn said(self) -> &'static str {
        match self {
            Longest::Write => "; each holds its own",
            Longest::Clear => "; each has cleared its own",
        }
    }

    // The frame has the bytes of monitor 32 first.
    fn frame(self) -> Buffer {
        let mut sent = Buffer::new();
        match self {
            Longest::Write => extend(&mut sent, &0x0024_b19e_u32.to_be_bytes()),
            Longest::Clear => extend(&mut sent, &0x005e_ce3e_u32.to_be_bytes()),
        }
        for own in MONITORS.iter().rev() {
            match self {
                Longest::Write => extend(&mut sent, &own.written.to_be_bytes()),
                Longest::Clear => extend(&mut sent, &own.cleared.to_be_bytes()),
            }
        }
        sent
    }

    fn before(self) -> Buffer {
        let mut table = filled(0, 32 * RECORD);
        if matches!(self, Longest::Clear) {
            for record in table.chunks_mut(RECORD) {
                lay(record, 132, &[0xff]);
            }
        }
        table
    }

    // Each monitor counts one command.
    fn after(self) -> Buffer {
        let mut table = filled(0, 32 * RECORD);
        for (record, own) in table.chunks_mut(RECORD).zip(&MONITORS) {
            match self {
                Longest::Write => lay(record, 6, &own.written.to_be_bytes()[..6]),
                Longest::Clear => lay(record, 132, &[own.flags]),
            }
            lay(record, 68, &[1]);
        }
        table
    }
}

impl Case for Longest {
    fn tried<R: Print>(&self, rt: &R) -> io::Result<bool> {
        let before = self.before();
        let frame = self.frame();
        let came = Engine::WholeFrame.handled(&before, &frame, 0);
        let clocked = Engine::Clocked.handled(&before, &frame, 0);
        let right = came == clocked && came.table == self.after();
        print!(rt; "{}{}", self.name(), Answered(came.answer))?;
        if right {
            print!(rt; "{}", self.said())?;
        }
        let all_taken = Answer {
            taken: 32,
            reply: 0,
        };
        Ok(right && came.answer == Ok(all_taken))
    }
}
