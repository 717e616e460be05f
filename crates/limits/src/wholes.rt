// Whole heartbeats: the count, the manager, and the monitors on the way.
use crate::beats::{BEAT, Beat, PASSED, Patch};
use crate::operations::Outcome;
use messages::Verdict;
use passing::End;

pub(crate) static CASES: [Beat; 21] = [
    // whole heartbeats: CMC_NDEV is N and 42 (hex) more, one more than that, one less, and 00
    Beat { ..PASSED },
    Beat { room: 9, ..PASSED },
    Beat {
        position: 1,
        ..BEAT
    },
    Beat {
        monitors: 1,
        position: 1,
        ..PASSED
    },
    Beat {
        note: ", CMC_NDEV 44",
        monitors: 1,
        position: 1,
        before: &[Patch(115, b"\x44")],
        handed_out: Some(0x0043_47b2_4300_0306),
        verdict: Some(Verdict::Failed {
            count: 0x43,
            flags: 0x00,
        }),
        ..PASSED
    },
    Beat {
        note: ", CMC_NDEV 42",
        monitors: 1,
        position: 1,
        before: &[Patch(115, b"\x42")],
        handed_out: Some(0x0043_47b2_4100_0222),
        verdict: Some(Verdict::Failed {
            count: 0x41,
            flags: 0x00,
        }),
        ..PASSED
    },
    Beat {
        note: ", CMC_NDEV 00",
        monitors: 1,
        position: 1,
        before: &[Patch(115, b"\x00")],
        handed_out: Some(0x0043_47b2_ff00_00e3),
        verdict: Some(Verdict::Failed {
            count: 0xff,
            flags: 0x00,
        }),
        ..PASSED
    },
    Beat {
        monitors: 32,
        position: 32,
        ..PASSED
    },
    Beat {
        note: ", CMC_NDEV 63",
        monitors: 32,
        position: 32,
        before: &[Patch(5385, b"\x63")],
        handed_out: Some(0x0043_47b2_4300_0306),
        verdict: Some(Verdict::Failed {
            count: 0x43,
            flags: 0x00,
        }),
        ..PASSED
    },
    Beat {
        note: ", CMC_NDEV 61",
        monitors: 32,
        position: 32,
        before: &[Patch(5385, b"\x61")],
        handed_out: Some(0x0043_47b2_4100_0222),
        verdict: Some(Verdict::Failed {
            count: 0x41,
            flags: 0x00,
        }),
        ..PASSED
    },
    Beat {
        note: ", CMC_NDEV 00",
        monitors: 32,
        position: 32,
        before: &[Patch(5385, b"\x00")],
        handed_out: Some(0x0043_47b2_e000_033c),
        verdict: Some(Verdict::Failed {
            count: 0xe0,
            flags: 0x00,
        }),
        ..PASSED
    },
    Beat {
        note: ", CMF0 01 in monitor 1",
        monitors: 32,
        position: 32,
        before: &[Patch(132, b"\x01")],
        handed_out: Some(0x0043_47b2_4301_0031),
        verdict: Some(Verdict::Failed {
            count: 0x43,
            flags: 0x01,
        }),
        ..PASSED
    },
    Beat {
        note: ", CMF0 10 in monitor 1, 08 in monitor 32",
        monitors: 32,
        position: 32,
        before: &[Patch(132, b"\x10"), Patch(5402, b"\x08")],
        handed_out: Some(0x0043_47b2_4418_03d9),
        verdict: Some(Verdict::Failed {
            count: 0x44,
            flags: 0x18,
        }),
        ..PASSED
    },
    // from the other end, out at once, and what stops one
    Beat {
        note: ", the manager is monitor 1 and sends towards port B",
        position: 1,
        before: &[Patch(114, b"\x80\x44\x00\x00\x00"), Patch(284, b"\x00")],
        outcome: Ok(Outcome::Towards(End::B)),
        ..PASSED
    },
    Beat {
        note: ", the manager is monitor 1 and sends towards port B",
        monitors: 32,
        position: 1,
        before: &[Patch(114, b"\x80\x62\x00\x00\x00"), Patch(5384, b"\x00")],
        outcome: Ok(Outcome::Towards(End::B)),
        ..PASSED
    },
    Beat {
        note: ", every bit but CMC_DIR",
        before: &[Patch(288, b"\xdf")],
        outcome: Ok(Outcome::Towards(End::B)),
        handed_out: Some(0x0043_47b2_4300_0306),
        verdict: Some(Verdict::Failed {
            count: 0x43,
            flags: 0x00,
        }),
        ..BEAT
    },
    Beat {
        note: ", a second manager in monitor 1",
        before: &[Patch(114, b"\x80")],
        ..BEAT
    },
    Beat {
        note: ", every bit but CMC_EN in monitor 1",
        before: &[Patch(133, b"\x7f")],
        ..BEAT
    },
    Beat {
        note: ", monitor 16 not in LPCM",
        monitors: 32,
        position: 32,
        before: &[Patch(2683, b"\x03")],
        ..BEAT
    },
    Beat {
        note: ", CMC_BTM in monitor 1",
        before: &[Patch(114, b"\x08")],
        after: &[Patch(133, b"\x80")],
        ..BEAT
    },
    Beat {
        note: ", CMC_BTM and CMF1 80 in monitor 1, CMC_NDEV 45",
        before: &[
            Patch(114, b"\x08"),
            Patch(133, b"\x80"),
            Patch(285, b"\x45"),
        ],
        after: &[Patch(133, b"\x81")],
        ..BEAT
    },
];
