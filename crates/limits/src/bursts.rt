// Spikes: of the bits hit, all in a row, the first and the last at least are turned over.
use crate::begun::UNLOCKED;
use crate::cases::{ALL_STAYS, FrameCase, READ, TAKEN};
use crate::frames::Body;
use crate::held::Held;
use refusals::Refusal;

pub(crate) static CASES: [FrameCase; 11] = [
    // spikes, after ULRR. Ten bits for monitor 1, as the data polynomial 48f has ones but for its last: it keeps all but byte 69
    FrameCase {
        name: "WRCFGB, ten bits for monitor 1 hit",
        start: UNLOCKED,
        command: 0x0024_b19e,
        body: Body::Eights([0x90c2_0304_0506_0131, 0xe1e2_e3e4_e5e6_02ec]),
        outcome: Ok(1),
        counters: [6, 11],
        held: Some(Held::Eights(6, [0x2728_292a_2b2c_2d2e, 0xe1e2_e3e4_e5e6_999a])),
        ..TAKEN
    },
    // its last too: the check is right again, and what came is stored
    FrameCase {
        name: "WRCFGB, eleven bits for monitor 1 hit, by the data polynomial",
        start: UNLOCKED,
        command: 0x0024_b19e,
        body: Body::Eights([0x90e2_0304_0506_0131, 0xe1e2_e3e4_e5e6_02ec]),
        counters: [7, 11],
        held: Some(Held::Eights(6, [0x90e2_0304_0506_2d2e, 0xe1e2_e3e4_e5e6_999a])),
        ..TAKEN
    },
    // all ten, from the first bit after the command on
    FrameCase {
        name: "WRCFGB, ten bits for monitor 2 hit",
        start: UNLOCKED,
        command: 0x0024_b19e,
        body: Body::Eights([0x0102_0304_0506_0131, 0x1e22_e3e4_e5e6_02ec]),
        outcome: Ok(1),
        counters: [7, 10],
        held: Some(Held::Eights(6, [0x0102_0304_0506_2d2e, 0x9394_9596_9798_999a])),
        ..TAKEN
    },
    // all ten, over the border of the two payloads: both are hit
    FrameCase {
        name: "WRCFGB, one bit for monitor 2 and nine for monitor 1 hit",
        start: UNLOCKED,
        command: 0x0024_b19e,
        body: Body::Eights([0xfe82_0304_0506_0131, 0xe1e2_e3e4_e5e6_02ed]),
        outcome: Ok(0),
        held: Some(Held::Eights(6, [0x2728_292a_2b2c_2d2e, 0x9394_9596_9798_999a])),
        ..TAKEN
    },
    // the same in a WRRR, which is executed whatever its check
    FrameCase {
        name: "WRRR, one bit for monitor 2 and nine for monitor 1 hit",
        start: UNLOCKED,
        command: 0x0039_3812,
        body: Body::Eights([0xfe82_0304_0506_0131, 0xe1e2_e3e4_e5e6_02ed]),
        counters: [7, 11],
        held: Some(Held::Eights(56, [0xfe82_0304_0506_5f60, 0xe1e2_e3e4_e5e6_cbcc])),
        ..TAKEN
    },
    // all ten, from the command's last bit on: refused, so that byte 69 stays too
    FrameCase {
        name: "WRCFGB, one bit of the command and nine for monitor 2 hit",
        start: UNLOCKED,
        command: 0x0024_b19f,
        body: Body::Eights([0x0102_0304_0506_0131, 0x1e62_e3e4_e5e6_02ec]),
        outcome: Err(Refusal::CommandWrong),
        counters: [6, 10],
        unlocked: [true, true],
        shown: ALL_STAYS,
        ..READ
    },
    // MUTE, fifteen bits, as the command polynomial c599 has ones but for its first
    FrameCase {
        name: "MUTE, fifteen bits hit, comes as 00 28 63 3c",
        start: UNLOCKED,
        command: 0x0028_633c,
        outcome: Err(Refusal::CommandWrong),
        counters: [6, 10],
        unlocked: [true, true],
        shown: ALL_STAYS,
        ..TAKEN
    },
    // its first too: an UNMUTE with its right check
    FrameCase {
        name: "MUTE, sixteen bits hit, by the command polynomial, comes as UNMUTE, 00 29 63 3c",
        start: UNLOCKED,
        command: 0x0029_633c,
        counters: [7, 11],
        held: Some(Held::Eights(0, [0x2122_2324_2526_2728, 0x8d8e_8f90_9182_9394])),
        ..TAKEN
    },
    // the same one bit further on, where the 0 after the check is the last of the sixteen
    FrameCase {
        name: "MUTE, its last sixteen bits hit, by the command polynomial, comes as 00 28 2d 97",
        start: UNLOCKED,
        command: 0x0028_2d97,
        outcome: Err(Refusal::CommandWrong),
        counters: [6, 10],
        unlocked: [true, true],
        shown: ALL_STAYS,
        ..TAKEN
    },
    // RDRR, all of the last fifteen bits, that 0 among them
    FrameCase {
        name: "RDRR, the last fifteen bits of the command hit, comes as 00 3a 51 89",
        start: UNLOCKED,
        command: 0x003a_5189,
        outcome: Err(Refusal::CommandWrong),
        counters: [6, 10],
        unlocked: [true, true],
        shown: ALL_STAYS,
        ..READ
    },
    // WRPWMA, sixteen bits by that polynomial: a WRPWMB with its right check
    FrameCase {
        name: "WRPWMA, sixteen bits of the command hit, by its polynomial, comes as WRPWMB, 00 21 8b 32",
        start: UNLOCKED,
        command: 0x0021_8b32,
        body: Body::Eights([0x0102_0304_0506_0131, 0xe1e2_e3e4_e5e6_02ec]),
        counters: [7, 11],
        held: Some(Held::Eights(74, [0x696a_0102_ffff_ffff, 0xd5d6_e1e2_ffff_ffff])),
        ..TAKEN
    },
];
