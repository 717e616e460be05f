// The counters at their end.
use crate::begun::LATE;
use crate::cases::{FrameCase, TAKEN};
use crate::frames::Body;
use crate::held::Held;

pub(crate) static CASES: [FrameCase; 5] = [
    // MUTE, the counters being 62 and 63
    FrameCase {
        name: "MUTE",
        start: LATE,
        command: 0x0028_e80e,
        counters: [63, 1],
        held: Some(Held::Eights(0, [0x0000_0000_0010_0000, 0x0000_0000_0010_0000])),
        ..TAKEN
    },
    // RSTCC, the same
    FrameCase {
        name: "RSTCC",
        start: LATE,
        command: 0x002e_c4c6,
        counters: [0, 0],
        held: Some(Held::Eights(0, [0x0000_0000_0000_0000, 0x0000_0000_0000_0000])),
        ..TAKEN
    },
    // SNAP and UNSNAP, the same
    FrameCase {
        name: "SNAP",
        start: LATE,
        command: 0x002d_d2a2,
        counters: [63, 1],
        held: Some(Held::Eights(0, [0x0000_0000_0020_0000, 0x0000_0000_0020_0000])),
        ..TAKEN
    },
    FrameCase {
        name: "UNSNAP",
        start: LATE,
        command: 0x002f_4ff4,
        counters: [63, 1],
        held: Some(Held::Eights(0, [0x0000_0000_0000_0000, 0x0000_0000_0000_0000])),
        ..TAKEN
    },
    // WRRR, both damaged, the same; locked
    FrameCase {
        name: "WRRR, both damaged, locked",
        start: LATE,
        command: 0x0039_3812,
        body: Body::Eights([0x0102_0304_0506_0531, 0x61e2_e3e4_e5e6_02ec]),
        counters: [63, 1],
        held: Some(Held::Eights(56, [0x0000_0000_0000_0000, 0x0000_0000_0000_0000])),
        ..TAKEN
    },
];
