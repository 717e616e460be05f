// Stores.
use crate::begun::{UNSOUND, ZEROS_UNLOCKED};
use crate::codes::{CodeCase, PLAIN, REFUSED, VUV_0_VOV_100};
use crate::deeds::{
    CLEARED_AT_6, CODE_1601_AT_6, CODE_MINUS_32767_AT_6, Deed, EACH_800, FIFTEEN,
    FIFTEEN_WITH_CLEARED, SEVENTEEN, ZEROS,
};
use crate::held::Held;
use crate::starts::Start;
use refusals::Refusal;

pub(crate) static CASES: [CodeCase; 12] = [
    // stores that are refused
    CodeCase {
        name: "unsound table",
        start: UNSOUND,
        deed: Deed::Store(1, ZEROS),
        outcome: Err(Refusal::TableNotSound),
        ..REFUSED
    },
    CodeCase {
        name: "unsound table, position 0",
        start: UNSOUND,
        deed: Deed::Store(0, ZEROS),
        outcome: Err(Refusal::TableNotSound),
        ..REFUSED
    },
    CodeCase {
        name: "position 0",
        deed: Deed::Store(0, ZEROS),
        outcome: Err(Refusal::PositionWrong),
        ..REFUSED
    },
    CodeCase {
        name: "position 3 of 2",
        deed: Deed::Store(3, ZEROS),
        outcome: Err(Refusal::PositionWrong),
        ..REFUSED
    },
    CodeCase {
        name: "position 3 of 2, 15 codes",
        deed: Deed::Store(3, FIFTEEN),
        outcome: Err(Refusal::PositionWrong),
        ..REFUSED
    },
    CodeCase {
        name: "15 codes",
        deed: Deed::Store(1, FIFTEEN),
        outcome: Err(Refusal::CountWrong),
        ..REFUSED
    },
    CodeCase {
        name: "17 codes",
        deed: Deed::Store(1, SEVENTEEN),
        outcome: Err(Refusal::CountWrong),
        ..REFUSED
    },
    CodeCase {
        name: "15 codes, one of them -32768",
        deed: Deed::Store(1, FIFTEEN_WITH_CLEARED),
        outcome: Err(Refusal::CountWrong),
        ..REFUSED
    },
    CodeCase {
        name: "a code -32768",
        deed: Deed::Store(1, CLEARED_AT_6),
        outcome: Err(Refusal::CodeCleared),
        ..REFUSED
    },
    // VUV 0, VOV 100, code 1601: a store compares nothing
    CodeCase {
        name: "VUV 0, VOV 100, code 1601",
        start: Start::Zeros(&[VUV_0_VOV_100]),
        deed: Deed::Store(2, CODE_1601_AT_6),
        held: Some(Held::Eights(22, [0x0000_0000_0000_0000, 0x4106_0000_0000_0000])),
        ..PLAIN
    },
    // code -32767, the lowest that is taken
    CodeCase {
        name: "VUV 0, VOV 100, code -32767",
        start: Start::Zeros(&[VUV_0_VOV_100]),
        deed: Deed::Store(1, CODE_MINUS_32767_AT_6),
        held: Some(Held::Eights(22, [0x0180_0000_0000_0000, 0x0000_0000_0000_0000])),
        ..PLAIN
    },
    // after ULRR: a store is no command, so it counts nothing and locks nothing
    CodeCase {
        name: "after ULRR, sixteen codes 800",
        start: ZEROS_UNLOCKED,
        deed: Deed::Store(1, EACH_800),
        held: Some(Held::Cells([0x2003, 0x0000])),
        ..PLAIN
    },
];
