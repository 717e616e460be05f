// Compares.
use crate::begun::{CLRCELL, UNLOCKED, UNSOUND};
use crate::codes::{CodeCase, PLAIN, REFUSED, VUV_0_VOV_100, VUV_2047_VOV_0, VUV_MINUS_1_VOV_0};
use crate::deeds::{CODE_1600_AT_6, CODE_1601_AT_6, CODE_MINUS_16_AT_6, CODE_MINUS_17_AT_6, Deed};
use crate::held::Held;
use crate::starts::{Start, Step};
use refusals::Refusal;

pub(crate) static CASES: [CodeCase; 15] = [
    // compares that are refused
    CodeCase {
        name: "unsound table",
        start: UNSOUND,
        deed: Deed::Compare(1),
        outcome: Err(Refusal::TableNotSound),
        ..REFUSED
    },
    CodeCase {
        name: "unsound table, position 0",
        start: UNSOUND,
        deed: Deed::Compare(0),
        outcome: Err(Refusal::TableNotSound),
        ..REFUSED
    },
    CodeCase {
        name: "position 0",
        deed: Deed::Compare(0),
        outcome: Err(Refusal::PositionWrong),
        ..REFUSED
    },
    CodeCase {
        name: "position 3 of 2",
        deed: Deed::Compare(3),
        outcome: Err(Refusal::PositionWrong),
        ..REFUSED
    },
    CodeCase {
        name: "VUV 0, VOV 100, code 1600",
        start: Start::Zeros(&[VUV_0_VOV_100, Step::Codes(Deed::Store(2, CODE_1600_AT_6))]),
        held: Some(Held::Eights(22, [0x0000_0000_0000_0000, 0x4006_0000_0000_0000])),
        ..PLAIN
    },
    CodeCase {
        name: "VUV 0, VOV 100, code 1601",
        start: Start::Zeros(&[VUV_0_VOV_100, Step::Codes(Deed::Store(2, CODE_1601_AT_6))]),
        flags: 0x0008_0000,
        held: Some(Held::Eights(22, [0x0000_0000_0000_0000, 0x4106_0000_0000_0000])),
        ..PLAIN
    },
    CodeCase {
        name: "VUV -1, VOV 0, code -16",
        start: Start::Zeros(&[
            VUV_MINUS_1_VOV_0,
            Step::Codes(Deed::Store(2, CODE_MINUS_16_AT_6)),
        ]),
        held: Some(Held::Eights(22, [0x0000_0000_0000_0000, 0xf0ff_0000_0000_0000])),
        ..PLAIN
    },
    CodeCase {
        name: "VUV -1, VOV 0, code -17",
        start: Start::Zeros(&[
            VUV_MINUS_1_VOV_0,
            Step::Codes(Deed::Store(2, CODE_MINUS_17_AT_6)),
        ]),
        flags: 0x0004_0000,
        held: Some(Held::Eights(22, [0x0000_0000_0000_0000, 0xefff_0000_0000_0000])),
        ..PLAIN
    },
    CodeCase {
        name: "position 1, VUV 0, VOV 100, code 1601",
        start: Start::Zeros(&[VUV_0_VOV_100, Step::Codes(Deed::Store(1, CODE_1601_AT_6))]),
        deed: Deed::Compare(1),
        flags: 0x0008_0000,
        held: Some(Held::Eights(22, [0x4106_0000_0000_0000, 0x0000_0000_0000_0000])),
        ..PLAIN
    },
    // code 1601 at position 2 alone: a compare of monitor 1 leaves monitor 2
    CodeCase {
        name: "position 1, VUV 0, VOV 100, code 1601 at position 2 only",
        start: Start::Zeros(&[VUV_0_VOV_100, Step::Codes(Deed::Store(2, CODE_1601_AT_6))]),
        deed: Deed::Compare(1),
        held: Some(Held::Eights(22, [0x0000_0000_0000_0000, 0x4106_0000_0000_0000])),
        ..PLAIN
    },
    // VUV 2047, VOV 0: cleared cells are far below, and are skipped
    CodeCase {
        name: "VUV 2047, VOV 0, after CLRCELL",
        start: Start::Zeros(&[VUV_2047_VOV_0, CLRCELL]),
        held: Some(Held::Cells([0x0080, 0x0080])),
        ..PLAIN
    },
    // one cell a step above cleared: it is not skipped
    CodeCase {
        name: "VUV 2047, VOV 0, after CLRCELL, one cell -32767",
        start: Start::Zeros(&[VUV_2047_VOV_0, CLRCELL, Step::Byte(192, 0x01)]),
        flags: 0x0004_0000,
        held: Some(Held::Eights(22, [0x0080_0080_0080_0080, 0x0180_0080_0080_0080])),
        ..PLAIN
    },
    // a cell that has recovered keeps its flag
    CodeCase {
        name: "the same cell, code 1600 after 1601",
        start: Start::Zeros(&[
            VUV_0_VOV_100,
            Step::Codes(Deed::Load(2, CODE_1601_AT_6)),
            Step::Codes(Deed::Store(2, CODE_1600_AT_6)),
        ]),
        flags: 0x0008_0000,
        held: Some(Held::Eights(22, [0x0000_0000_0000_0000, 0x4006_0000_0000_0000])),
        ..PLAIN
    },
    // a second compare changes nothing
    CodeCase {
        name: "VUV 0, VOV 100, code 1601, a second time",
        start: Start::Zeros(&[
            VUV_0_VOV_100,
            Step::Codes(Deed::Store(2, CODE_1601_AT_6)),
            Step::Codes(Deed::Compare(2)),
        ]),
        flags: 0x0008_0000,
        held: Some(Held::Eights(22, [0x0000_0000_0000_0000, 0x4106_0000_0000_0000])),
        ..PLAIN
    },
    // after ULRR, cells 1 to 16 of monitor 1 being 2e2d to 4c4b, all above 16 times 0292: nor is a compare a command
    CodeCase {
        name: "after ULRR, position 1",
        start: UNLOCKED,
        deed: Deed::Compare(1),
        flags: 0xfbfe_fffe,
        ..PLAIN
    },
];
