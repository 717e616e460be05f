// The rows of Table 27 that decide which discharge outputs of a monitor are on, each by itself and with others.
use crate::begun::{MUTED, MUTED_UNMUTED, UNSOUND};
use crate::questions::{ASKED, NONE, Question};
use priorities::Events;
use refusals::Refusal;

pub(crate) static CASES: [Question; 51] = [
    // refusals, each by itself and where later ones would hold too
    Question {
        name: "unsound table",
        start: UNSOUND,
        outcome: Err(Refusal::TableNotSound),
        ..ASKED
    },
    Question {
        name: "unsound table, position 3, phase 15, room 15",
        start: UNSOUND,
        position: 3,
        phase: 15,
        room: 15,
        outcome: Err(Refusal::TableNotSound),
        ..ASKED
    },
    Question {
        name: "33 monitors",
        monitors: 33,
        outcome: Err(Refusal::TableNotSound),
        ..ASKED
    },
    Question {
        name: "position 0",
        position: 0,
        outcome: Err(Refusal::PositionWrong),
        ..ASKED
    },
    Question {
        name: "position 3 of 2",
        position: 3,
        outcome: Err(Refusal::PositionWrong),
        ..ASKED
    },
    Question {
        name: "position 3 of 2, phase 15, room 15",
        position: 3,
        phase: 15,
        room: 15,
        outcome: Err(Refusal::PositionWrong),
        ..ASKED
    },
    Question {
        name: "position 0, room 15",
        position: 0,
        room: 15,
        outcome: Err(Refusal::PositionWrong),
        ..ASKED
    },
    Question {
        name: "position 33 of 32",
        monitors: 32,
        position: 33,
        outcome: Err(Refusal::PositionWrong),
        ..ASKED
    },
    Question {
        name: "phase 15",
        phase: 15,
        outcome: Err(Refusal::PositionWrong),
        ..ASKED
    },
    Question {
        name: "phase 255",
        phase: 255,
        outcome: Err(Refusal::PositionWrong),
        ..ASKED
    },
    Question {
        name: "phase 15, room 15",
        phase: 15,
        room: 15,
        outcome: Err(Refusal::PositionWrong),
        ..ASKED
    },
    Question {
        name: "room 15",
        room: 15,
        outcome: Err(Refusal::NoRoom),
        ..ASKED
    },
    Question {
        name: "room 0",
        room: 0,
        outcome: Err(Refusal::NoRoom),
        ..ASKED
    },
    // the last phase; room to spare; the last position
    Question {
        name: "duties 15, phase 14, room 16",
        phase: 14,
        outcome: Ok(16),
        outputs: [0x8181_8181_8181_8181, 0x8181_8181_8181_8181],
        ..ASKED
    },
    Question {
        name: "duties 15, phase 14, room 17",
        phase: 14,
        room: 17,
        outcome: Ok(16),
        outputs: [0x8181_8181_8181_8181, 0x8181_8181_8181_8181],
        ..ASKED
    },
    Question {
        name: "position 32 of 32, duties 0, DCC of cell 1",
        monitors: 32,
        position: 32,
        dcc: 0x0100,
        duties: 0,
        outcome: Ok(1),
        outputs: [0x8401_0101_0101_0101, 0x0101_0101_0101_0101],
        ..ASKED
    },
    // row 1: on while the phase is below the duty
    Question {
        name: "duties 7, phase 6",
        phase: 6,
        duties: 0x7777_7777_7777_7777,
        outcome: Ok(16),
        outputs: [0x8181_8181_8181_8181, 0x8181_8181_8181_8181],
        ..ASKED
    },
    Question {
        name: "duties 7, phase 7",
        phase: 7,
        duties: 0x7777_7777_7777_7777,
        outcome: Ok(0),
        outputs: [0x0101_0101_0101_0101, 0x0101_0101_0101_0101],
        ..ASKED
    },
    Question {
        name: "duties 0 to 15, phase 0",
        duties: 0x1032_5476_98ba_dcfe,
        outcome: Ok(15),
        outputs: [0x0181_8181_8181_8181, 0x8181_8181_8181_8181],
        ..ASKED
    },
    Question {
        name: "duties 0 to 15, phase 7",
        phase: 7,
        duties: 0x1032_5476_98ba_dcfe,
        outcome: Ok(8),
        outputs: [0x0101_0101_0101_0101, 0x8181_8181_8181_8181],
        ..ASKED
    },
    Question {
        name: "duties 0 to 15, phase 14",
        phase: 14,
        duties: 0x1032_5476_98ba_dcfe,
        outcome: Ok(1),
        outputs: [0x0101_0101_0101_0101, 0x0101_0101_0101_0181],
        ..ASKED
    },
    // the halves of a byte, and the end of group A
    Question {
        name: "a duty for cell 1 alone",
        duties: 0x0100_0000_0000_0000,
        outcome: Ok(1),
        outputs: [0x8101_0101_0101_0101, 0x0101_0101_0101_0101],
        ..ASKED
    },
    Question {
        name: "a duty for cell 2 alone",
        duties: 0x1000_0000_0000_0000,
        outcome: Ok(1),
        outputs: [0x0181_0101_0101_0101, 0x0101_0101_0101_0101],
        ..ASKED
    },
    Question {
        name: "a duty for cell 12 alone",
        duties: 0x0000_0000_0010_0000,
        outcome: Ok(1),
        outputs: [0x0101_0101_0101_0101, 0x0101_0181_0101_0101],
        ..ASKED
    },
    Question {
        name: "a duty for cell 13 alone",
        duties: 0x0000_0000_0000_0100,
        outcome: Ok(1),
        outputs: [0x0101_0101_0101_0101, 0x0101_0101_8101_0101],
        ..ASKED
    },
    Question {
        name: "a duty for cell 16 alone",
        duties: 0x0000_0000_0000_0010,
        outcome: Ok(1),
        outputs: [0x0101_0101_0101_0101, 0x0101_0101_0101_0181],
        ..ASKED
    },
    // row 4 goes by the cell's own DCC bit
    Question {
        name: "DCC of cell 1 alone",
        dcc: 0x0100,
        duties: 0,
        outcome: Ok(1),
        outputs: [0x8401_0101_0101_0101, 0x0101_0101_0101_0101],
        ..ASKED
    },
    Question {
        name: "DCC of cell 8 alone",
        dcc: 0x8000,
        duties: 0,
        outcome: Ok(1),
        outputs: [0x0101_0101_0101_0184, 0x0101_0101_0101_0101],
        ..ASKED
    },
    Question {
        name: "DCC of cell 9 alone",
        dcc: 0x0001,
        duties: 0,
        outcome: Ok(1),
        outputs: [0x0101_0101_0101_0101, 0x8401_0101_0101_0101],
        ..ASKED
    },
    Question {
        name: "DCC of cell 16 alone",
        dcc: 0x0080,
        duties: 0,
        outcome: Ok(1),
        outputs: [0x0101_0101_0101_0101, 0x0101_0101_0101_0184],
        ..ASKED
    },
    Question {
        name: "DCC of all but cell 8, phase 14",
        phase: 14,
        dcc: 0x7fff,
        duties: 0,
        outcome: Ok(15),
        outputs: [0x8484_8484_8484_8401, 0x8484_8484_8484_8484],
        ..ASKED
    },
    Question {
        name: "DCC of all but cell 9, measurement",
        events: Events {
            measurement: true,
            ..NONE
        },
        phase: 14,
        dcc: 0xfffe,
        outcome: Ok(15),
        outputs: [0x8484_8484_8484_8484, 0x0384_8484_8484_8484],
        ..ASKED
    },
    // the events by themselves: a row decides also where there was nothing to hold off
    Question {
        name: "shutdown",
        events: Events {
            shutdown: true,
            ..NONE
        },
        outcome: Ok(0),
        outputs: [0x0707_0707_0707_0707, 0x0707_0707_0707_0707],
        ..ASKED
    },
    Question {
        name: "WRCFGB",
        events: Events {
            wrcfgb: true,
            ..NONE
        },
        outcome: Ok(0),
        outputs: [0x0505_0505_0505_0505, 0x0505_0505_0505_0505],
        ..ASKED
    },
    Question {
        name: "measurement",
        events: Events {
            measurement: true,
            ..NONE
        },
        outcome: Ok(0),
        outputs: [0x0303_0303_0303_0303, 0x0303_0303_0303_0303],
        ..ASKED
    },
    Question {
        name: "measurement, duties 0",
        events: Events {
            measurement: true,
            ..NONE
        },
        duties: 0,
        outcome: Ok(0),
        outputs: [0x0303_0303_0303_0303, 0x0303_0303_0303_0303],
        ..ASKED
    },
    Question {
        name: "WRPWM",
        events: Events {
            wrpwm: true,
            ..NONE
        },
        outcome: Ok(0),
        outputs: [0x0202_0202_0202_0202, 0x0202_0202_0202_0202],
        ..ASKED
    },
    Question {
        name: "WRPWM, duties 0",
        events: Events {
            wrpwm: true,
            ..NONE
        },
        duties: 0,
        outcome: Ok(0),
        outputs: [0x0202_0202_0202_0202, 0x0202_0202_0202_0202],
        ..ASKED
    },
    // and with DCC of cell 1, duties being 15
    Question {
        name: "DCC of cell 1, WRPWM",
        events: Events {
            wrpwm: true,
            ..NONE
        },
        dcc: 0x0100,
        outcome: Ok(1),
        outputs: [0x8402_0202_0202_0202, 0x0202_0202_0202_0202],
        ..ASKED
    },
    Question {
        name: "DCC of cell 1, measurement",
        events: Events {
            measurement: true,
            ..NONE
        },
        dcc: 0x0100,
        outcome: Ok(1),
        outputs: [0x8403_0303_0303_0303, 0x0303_0303_0303_0303],
        ..ASKED
    },
    Question {
        name: "DCC of cell 1, measurement, WRPWM",
        events: Events {
            measurement: true,
            wrpwm: true,
            ..NONE
        },
        dcc: 0x0100,
        outcome: Ok(1),
        outputs: [0x8403_0303_0303_0303, 0x0303_0303_0303_0303],
        ..ASKED
    },
    Question {
        name: "DCC of cell 1, WRCFGB",
        events: Events {
            wrcfgb: true,
            ..NONE
        },
        dcc: 0x0100,
        outcome: Ok(0),
        outputs: [0x0505_0505_0505_0505, 0x0505_0505_0505_0505],
        ..ASKED
    },
    Question {
        name: "DCC of cell 1, WRCFGB, measurement, WRPWM",
        events: Events {
            measurement: true,
            wrcfgb: true,
            wrpwm: true,
            ..NONE
        },
        dcc: 0x0100,
        outcome: Ok(0),
        outputs: [0x0505_0505_0505_0505, 0x0505_0505_0505_0505],
        ..ASKED
    },
    Question {
        name: "DCC of cell 1, shutdown",
        events: Events {
            shutdown: true,
            ..NONE
        },
        dcc: 0x0100,
        outcome: Ok(0),
        outputs: [0x0707_0707_0707_0707, 0x0707_0707_0707_0707],
        ..ASKED
    },
    // monitor 2 alone is muted, then both, then neither
    Question {
        name: "DCC of cell 1, muted, position 2",
        position: 2,
        dcc: 0x0100,
        outcome: Ok(0),
        outputs: [0x0606_0606_0606_0606, 0x0606_0606_0606_0606],
        ..ASKED
    },
    Question {
        name: "the same, WRCFGB, measurement, WRPWM",
        position: 2,
        events: Events {
            measurement: true,
            wrcfgb: true,
            wrpwm: true,
            ..NONE
        },
        dcc: 0x0100,
        outcome: Ok(0),
        outputs: [0x0606_0606_0606_0606, 0x0606_0606_0606_0606],
        ..ASKED
    },
    Question {
        name: "the same, all four",
        position: 2,
        events: Events {
            shutdown: true,
            measurement: true,
            wrcfgb: true,
            wrpwm: true,
        },
        dcc: 0x0100,
        outcome: Ok(0),
        outputs: [0x0707_0707_0707_0707, 0x0707_0707_0707_0707],
        ..ASKED
    },
    Question {
        name: "duties 0 to 15, phase 7, DCC of cell 1",
        phase: 7,
        dcc: 0x0100,
        duties: 0x1032_5476_98ba_dcfe,
        outcome: Ok(9),
        outputs: [0x8401_0101_0101_0101, 0x8181_8181_8181_8181],
        ..ASKED
    },
    Question {
        name: "the same, after MUTE",
        start: MUTED,
        phase: 7,
        dcc: 0x0100,
        duties: 0x1032_5476_98ba_dcfe,
        outcome: Ok(0),
        outputs: [0x0606_0606_0606_0606, 0x0606_0606_0606_0606],
        ..ASKED
    },
    Question {
        name: "the same, after MUTE and UNMUTE",
        start: MUTED_UNMUTED,
        phase: 7,
        dcc: 0x0100,
        duties: 0x1032_5476_98ba_dcfe,
        outcome: Ok(9),
        outputs: [0x8401_0101_0101_0101, 0x8181_8181_8181_8181],
        ..ASKED
    },
    Question {
        name: "the same, position 2",
        start: MUTED_UNMUTED,
        position: 2,
        phase: 7,
        dcc: 0x0100,
        duties: 0x1032_5476_98ba_dcfe,
        outcome: Ok(9),
        outputs: [0x8401_0101_0101_0101, 0x8181_8181_8181_8181],
        ..ASKED
    },
];
