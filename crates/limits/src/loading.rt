// Loads.
use crate::begun::UNSOUND;
use crate::codes::{CodeCase, PLAIN, REFUSED, VUV_0_VOV_100, VUV_100_VOV_0, VUV_MINUS_1_VOV_0};
use crate::deeds::{
    CLEARED_AT_6, CODE_1600_AT_6, CODE_1601_AT_6, CODE_MINUS_16_AT_6, CODE_MINUS_17_AT_6, Deed,
    EACH_800, FIFTEEN, FIFTEEN_WITH_CLEARED, SEVENTEEN, ZEROS,
};
use crate::held::Held;
use crate::starts::{Start, Step};
use refusals::Refusal;

pub(crate) static CASES: [CodeCase; 15] = [
    // loads that are refused
    CodeCase {
        name: "unsound table",
        start: UNSOUND,
        deed: Deed::Load(1, ZEROS),
        outcome: Err(Refusal::TableNotSound),
        ..REFUSED
    },
    CodeCase {
        name: "unsound table, position 0",
        start: UNSOUND,
        deed: Deed::Load(0, ZEROS),
        outcome: Err(Refusal::TableNotSound),
        ..REFUSED
    },
    CodeCase {
        name: "position 0",
        deed: Deed::Load(0, ZEROS),
        outcome: Err(Refusal::PositionWrong),
        ..REFUSED
    },
    CodeCase {
        name: "position 3 of 2",
        deed: Deed::Load(3, ZEROS),
        outcome: Err(Refusal::PositionWrong),
        ..REFUSED
    },
    CodeCase {
        name: "position 3 of 2, 15 codes",
        deed: Deed::Load(3, FIFTEEN),
        outcome: Err(Refusal::PositionWrong),
        ..REFUSED
    },
    CodeCase {
        name: "15 codes",
        deed: Deed::Load(1, FIFTEEN),
        outcome: Err(Refusal::CountWrong),
        ..REFUSED
    },
    CodeCase {
        name: "17 codes",
        deed: Deed::Load(1, SEVENTEEN),
        outcome: Err(Refusal::CountWrong),
        ..REFUSED
    },
    CodeCase {
        name: "15 codes, one of them -32768",
        deed: Deed::Load(1, FIFTEEN_WITH_CLEARED),
        outcome: Err(Refusal::CountWrong),
        ..REFUSED
    },
    CodeCase {
        name: "a code -32768",
        deed: Deed::Load(1, CLEARED_AT_6),
        outcome: Err(Refusal::CodeCleared),
        ..REFUSED
    },
    CodeCase {
        name: "VUV 0, VOV 100, code 1600",
        start: Start::Zeros(&[VUV_0_VOV_100]),
        deed: Deed::Load(2, CODE_1600_AT_6),
        held: Some(Held::Eights(22, [0x0000_0000_0000_0000, 0x4006_0000_0000_0000])),
        ..PLAIN
    },
    CodeCase {
        name: "VUV 0, VOV 100, code 1601",
        start: Start::Zeros(&[VUV_0_VOV_100]),
        deed: Deed::Load(2, CODE_1601_AT_6),
        flags: 0x0008_0000,
        held: Some(Held::Eights(22, [0x0000_0000_0000_0000, 0x4106_0000_0000_0000])),
        ..PLAIN
    },
    CodeCase {
        name: "VUV -1, VOV 0, code -16",
        start: Start::Zeros(&[VUV_MINUS_1_VOV_0]),
        deed: Deed::Load(2, CODE_MINUS_16_AT_6),
        held: Some(Held::Eights(22, [0x0000_0000_0000_0000, 0xf0ff_0000_0000_0000])),
        ..PLAIN
    },
    CodeCase {
        name: "VUV -1, VOV 0, code -17",
        start: Start::Zeros(&[VUV_MINUS_1_VOV_0]),
        deed: Deed::Load(2, CODE_MINUS_17_AT_6),
        flags: 0x0004_0000,
        held: Some(Held::Eights(22, [0x0000_0000_0000_0000, 0xefff_0000_0000_0000])),
        ..PLAIN
    },
    // VUV 100, VOV 0: above the one threshold and below the other
    CodeCase {
        name: "VUV 100, VOV 0, sixteen codes 800",
        start: Start::Zeros(&[VUV_100_VOV_0]),
        deed: Deed::Load(1, EACH_800),
        flags: 0xffff_ffff,
        held: Some(Held::Cells([0x2003, 0x0000])),
        ..PLAIN
    },
    // a cell that has recovered keeps its flag, until CLOVUV clears it
    CodeCase {
        name: "the same cell, code 1600 after 1601",
        start: Start::Zeros(&[VUV_0_VOV_100, Step::Codes(Deed::Load(2, CODE_1601_AT_6))]),
        deed: Deed::Load(2, CODE_1600_AT_6),
        flags: 0x0008_0000,
        held: Some(Held::Eights(22, [0x0000_0000_0000_0000, 0x4006_0000_0000_0000])),
        ..PLAIN
    },
];
