// Damaged payloads.
use crate::begun::{FIRST_UNLOCKED, UNLOCKED, UNLOCKED_MUTED};
use crate::cases::{FrameCase, TAKEN};
use crate::frames::Body;
use crate::held::Held;

pub(crate) static CASES: [FrameCase; 11] = [
    // after ULRR, the second monitor's data damaged: a monitor that took the write counts it, and byte 69 shows what each did
    FrameCase {
        name: "WRCFGB, the second monitor's data damaged",
        start: UNLOCKED,
        command: 0x0024_b19e,
        body: Body::Eights([0x0102_0304_0506_0131, 0x61e2_e3e4_e5e6_02ec]),
        outcome: Ok(1),
        counters: [7, 10],
        held: Some(Held::Eights(6, [0x0102_0304_0506_2d2e, 0x9394_9596_9798_999a])),
        ..TAKEN
    },
    FrameCase {
        name: "WRCFGB, the first monitor's check damaged",
        start: UNLOCKED,
        command: 0x0024_b19e,
        body: Body::Eights([0x0102_0304_0506_0130, 0xe1e2_e3e4_e5e6_02ec]),
        outcome: Ok(1),
        counters: [6, 11],
        held: Some(Held::Eights(6, [0x2728_292a_2b2c_2d2e, 0xe1e2_e3e4_e5e6_999a])),
        ..TAKEN
    },
    FrameCase {
        name: "WRCFGB, both damaged",
        start: UNLOCKED,
        command: 0x0024_b19e,
        body: Body::Eights([0x0102_0304_0506_0531, 0x61e2_e3e4_e5e6_02ec]),
        outcome: Ok(0),
        held: Some(Held::Eights(6, [0x2728_292a_2b2c_2d2e, 0x9394_9596_9798_999a])),
        ..TAKEN
    },
    // the check is made over the counter bits as they are sent
    FrameCase {
        name: "WRCFGB, counter bits 9 and 63",
        start: UNLOCKED,
        command: 0x0024_b19e,
        body: Body::Eights([0x0102_0304_0506_2549, 0xe1e2_e3e4_e5e6_ff84]),
        counters: [7, 11],
        held: Some(Held::Eights(6, [0x0102_0304_0506_2d2e, 0xe1e2_e3e4_e5e6_999a])),
        ..TAKEN
    },
    FrameCase {
        name: "WRPWMA, the second monitor's data damaged",
        start: UNLOCKED,
        command: 0x0020_0000,
        body: Body::Eights([0x0102_0304_0506_0131, 0x61e2_e3e4_e5e6_02ec]),
        outcome: Ok(1),
        counters: [7, 10],
        held: Some(Held::Eights(70, [0x0102_0304_0506_6b6c, 0xd1d2_d3d4_d5d6_d7d8])),
        ..TAKEN
    },
    // WRPWMB, the first monitor's check damaged: not even FF gets in
    FrameCase {
        name: "WRPWMB, the first monitor's check damaged",
        start: UNLOCKED,
        command: 0x0021_8b32,
        body: Body::Eights([0x0102_0304_0506_0130, 0xe1e2_e3e4_e5e6_02ec]),
        outcome: Ok(1),
        counters: [6, 11],
        held: Some(Held::Eights(74, [0x696a_6b6c_6d6e_6f70, 0xd5d6_e1e2_ffff_ffff])),
        ..TAKEN
    },
    // WRRR, the second monitor's data damaged: it is executed all the same, so both take it, count it and store what came
    FrameCase {
        name: "WRRR, the second monitor's data damaged",
        start: UNLOCKED,
        command: 0x0039_3812,
        body: Body::Eights([0x0102_0304_0506_0131, 0x61e2_e3e4_e5e6_02ec]),
        counters: [7, 11],
        held: Some(Held::Eights(56, [0x0102_0304_0506_5f60, 0x61e2_e3e4_e5e6_cbcc])),
        ..TAKEN
    },
    FrameCase {
        name: "WRRR, the first monitor's check damaged",
        start: UNLOCKED,
        command: 0x0039_3812,
        body: Body::Eights([0x0102_0304_0506_0130, 0xe1e2_e3e4_e5e6_02ec]),
        counters: [7, 11],
        held: Some(Held::Eights(56, [0x0102_0304_0506_5f60, 0xe1e2_e3e4_e5e6_cbcc])),
        ..TAKEN
    },
    FrameCase {
        name: "WRRR, both damaged",
        start: UNLOCKED,
        command: 0x0039_3812,
        body: Body::Eights([0x0102_0304_0506_0531, 0x61e2_e3e4_e5e6_02ec]),
        counters: [7, 11],
        held: Some(Held::Eights(56, [0x0102_0304_0506_5f60, 0x61e2_e3e4_e5e6_cbcc])),
        ..TAKEN
    },
    // the same, locked by a MUTE: taken and counted, and nothing is stored
    FrameCase {
        name: "WRRR, both damaged, a MUTE between",
        start: UNLOCKED_MUTED,
        command: 0x0039_3812,
        body: Body::Eights([0x0102_0304_0506_0531, 0x61e2_e3e4_e5e6_02ec]),
        counters: [8, 12],
        held: Some(Held::Eights(56, [0x595a_5b5c_5d5e_5f60, 0xc5c6_c7c8_c9ca_cbcc])),
        ..TAKEN
    },
    // the same, the first monitor alone unlocked
    FrameCase {
        name: "WRRR, both damaged, monitor 1 alone unlocked",
        start: FIRST_UNLOCKED,
        command: 0x0039_3812,
        body: Body::Eights([0x0102_0304_0506_0531, 0x61e2_e3e4_e5e6_02ec]),
        held: Some(Held::Eights(56, [0x0102_0304_0506_5f60, 0xc5c6_c7c8_c9ca_cbcc])),
        ..TAKEN
    },
];
