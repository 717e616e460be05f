// The size of a table, and the room for a reply.
use crate::begun::ZEROS;
use crate::cases::{BUFFER_STAYS, EACH_THE_SAME, FrameCase, READ, Shown, TAKEN};
use crate::frames::Body;
use crate::held::Held;
use refusals::Refusal;

pub(crate) static TABLES: [FrameCase; 4] = [
    // MUTE on 0, 1, 32 and 33 monitors of 0
    FrameCase {
        name: "MUTE, monitors 0",
        start: ZEROS,
        monitors: 0,
        command: 0x0028_e80e,
        room: 8,
        outcome: Err(Refusal::TableNotSound),
        counters: [0, 0],
        shown: Shown::Words(""),
        ..TAKEN
    },
    FrameCase {
        name: "MUTE, monitors 1",
        start: ZEROS,
        monitors: 1,
        command: 0x0028_e80e,
        room: 8,
        outcome: Ok(1),
        counters: [1, 0],
        held: Some(Held::Eights(0, [0x0000_0000_0010_0000, 0x0000_0000_0000_0000])),
        shown: Shown::Words(""),
        ..TAKEN
    },
    FrameCase {
        name: "MUTE, monitors 32",
        start: ZEROS,
        monitors: 32,
        command: 0x0028_e80e,
        room: 8,
        outcome: Ok(32),
        counters: [1, 1],
        held: Some(Held::Eights(0, [0x0000_0000_0010_0000, 0x0000_0000_0010_0000])),
        shown: Shown::Words(""),
        ..TAKEN
    },
    FrameCase {
        name: "MUTE, monitors 33",
        start: ZEROS,
        monitors: 33,
        command: 0x0028_e80e,
        room: 8,
        outcome: Err(Refusal::TableNotSound),
        counters: [0, 0],
        shown: Shown::Words(""),
        ..TAKEN
    },
];

pub(crate) static ROOM: [FrameCase; 8] = [
    // the room for the reply of 1, 2 and 32 monitors of 0
    FrameCase {
        name: "RDCFGA, monitors 1, room 7",
        start: ZEROS,
        monitors: 1,
        command: 0x0002_2b0a,
        body: Body::Ones(12),
        room: 7,
        outcome: Err(Refusal::NoRoom),
        counters: [0, 0],
        shown: BUFFER_STAYS,
        ..READ
    },
    FrameCase {
        name: "RDCFGA, monitors 1, room 8",
        start: ZEROS,
        monitors: 1,
        command: 0x0002_2b0a,
        body: Body::Ones(12),
        room: 8,
        outcome: Ok(1),
        replies: &[0x0000_0000_0000_03e3],
        counters: [0, 0],
        shown: EACH_THE_SAME,
        ..READ
    },
    FrameCase {
        name: "RDCFGA, monitors 2, room 15",
        start: ZEROS,
        command: 0x0002_2b0a,
        room: 15,
        outcome: Err(Refusal::NoRoom),
        counters: [0, 0],
        shown: BUFFER_STAYS,
        ..READ
    },
    FrameCase {
        name: "RDCFGA, monitors 2, room 16",
        start: ZEROS,
        command: 0x0002_2b0a,
        room: 16,
        replies: &[0x0000_0000_0000_03e3, 0x0000_0000_0000_03e3],
        counters: [0, 0],
        shown: EACH_THE_SAME,
        ..READ
    },
    FrameCase {
        name: "RDCFGA, monitors 2, room 20",
        start: ZEROS,
        command: 0x0002_2b0a,
        replies: &[0x0000_0000_0000_03e3, 0x0000_0000_0000_03e3],
        counters: [0, 0],
        shown: EACH_THE_SAME,
        ..READ
    },
    FrameCase {
        name: "RDCFGA, monitors 32, room 255",
        start: ZEROS,
        monitors: 32,
        command: 0x0002_2b0a,
        body: Body::Ones(260),
        room: 255,
        outcome: Err(Refusal::NoRoom),
        counters: [0, 0],
        shown: BUFFER_STAYS,
        ..READ
    },
    FrameCase {
        name: "RDCFGA, monitors 32, room 256",
        start: ZEROS,
        monitors: 32,
        command: 0x0002_2b0a,
        body: Body::Ones(260),
        room: 256,
        outcome: Ok(32),
        replies: &[0x0000_0000_0000_03e3; 32],
        counters: [0, 0],
        shown: EACH_THE_SAME,
        ..READ
    },
    FrameCase {
        name: "RDCFGA, monitors 32, room 260",
        start: ZEROS,
        monitors: 32,
        command: 0x0002_2b0a,
        body: Body::Ones(260),
        room: 260,
        outcome: Ok(32),
        replies: &[0x0000_0000_0000_03e3; 32],
        counters: [0, 0],
        shown: EACH_THE_SAME,
        ..READ
    },
];
