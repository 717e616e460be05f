// Each refusal of a heartbeat's operations by itself, and where later ones would hold too: the first is given, and nothing changes. Room 7 is
// one byte too few also where nothing would be sent: monitor 1 is no manager, and monitor 2 is one. What is refused is a message that is right.
use crate::beats::{BEAT, Beat};
use crate::operations::{Operation, RIGHT};
use refusals::Refusal;

pub(crate) static CASES: [Beat; 45] = [
    Beat {
        operation: Operation::Wake,
        lent: Some(339),
        outcome: Err(Refusal::TableNotSound),
        ..BEAT
    },
    Beat {
        operation: Operation::Wake,
        lent: Some(341),
        outcome: Err(Refusal::TableNotSound),
        ..BEAT
    },
    Beat {
        operation: Operation::Wake,
        monitors: 33,
        position: 1,
        outcome: Err(Refusal::TableNotSound),
        ..BEAT
    },
    Beat {
        operation: Operation::Wake,
        room: 7,
        lent: Some(339),
        position: 0,
        outcome: Err(Refusal::TableNotSound),
        ..BEAT
    },
    Beat {
        operation: Operation::Wake,
        position: 0,
        outcome: Err(Refusal::PositionWrong),
        ..BEAT
    },
    Beat {
        operation: Operation::Wake,
        position: 3,
        outcome: Err(Refusal::PositionWrong),
        ..BEAT
    },
    Beat {
        operation: Operation::Wake,
        monitors: 32,
        position: 33,
        outcome: Err(Refusal::PositionWrong),
        ..BEAT
    },
    Beat {
        operation: Operation::Wake,
        room: 7,
        position: 3,
        outcome: Err(Refusal::PositionWrong),
        ..BEAT
    },
    Beat {
        operation: Operation::Wake,
        room: 7,
        outcome: Err(Refusal::NoRoom),
        ..BEAT
    },
    Beat {
        operation: Operation::Wake,
        room: 0,
        outcome: Err(Refusal::NoRoom),
        ..BEAT
    },
    Beat {
        operation: Operation::Wake,
        room: 7,
        position: 1,
        outcome: Err(Refusal::NoRoom),
        ..BEAT
    },
    Beat {
        operation: Operation::Relay(RIGHT),
        lent: Some(339),
        outcome: Err(Refusal::TableNotSound),
        ..BEAT
    },
    Beat {
        operation: Operation::Relay(RIGHT),
        lent: Some(341),
        outcome: Err(Refusal::TableNotSound),
        ..BEAT
    },
    Beat {
        operation: Operation::Relay(RIGHT),
        monitors: 33,
        position: 1,
        outcome: Err(Refusal::TableNotSound),
        ..BEAT
    },
    Beat {
        operation: Operation::Relay(RIGHT),
        bytes: 7,
        room: 7,
        lent: Some(339),
        position: 0,
        outcome: Err(Refusal::TableNotSound),
        ..BEAT
    },
    Beat {
        operation: Operation::Relay(RIGHT),
        position: 0,
        outcome: Err(Refusal::PositionWrong),
        ..BEAT
    },
    Beat {
        operation: Operation::Relay(RIGHT),
        position: 3,
        outcome: Err(Refusal::PositionWrong),
        ..BEAT
    },
    Beat {
        operation: Operation::Relay(RIGHT),
        monitors: 32,
        position: 33,
        outcome: Err(Refusal::PositionWrong),
        ..BEAT
    },
    Beat {
        operation: Operation::Relay(RIGHT),
        bytes: 7,
        room: 7,
        position: 3,
        outcome: Err(Refusal::PositionWrong),
        ..BEAT
    },
    Beat {
        operation: Operation::Relay(RIGHT),
        bytes: 7,
        position: 1,
        outcome: Err(Refusal::LengthWrong),
        ..BEAT
    },
    Beat {
        operation: Operation::Relay(RIGHT),
        bytes: 9,
        position: 1,
        outcome: Err(Refusal::LengthWrong),
        ..BEAT
    },
    Beat {
        operation: Operation::Relay(RIGHT),
        bytes: 0,
        position: 1,
        outcome: Err(Refusal::LengthWrong),
        ..BEAT
    },
    Beat {
        operation: Operation::Relay(RIGHT),
        bytes: 7,
        outcome: Err(Refusal::LengthWrong),
        ..BEAT
    },
    Beat {
        operation: Operation::Relay(RIGHT),
        bytes: 9,
        room: 7,
        position: 1,
        outcome: Err(Refusal::LengthWrong),
        ..BEAT
    },
    Beat {
        operation: Operation::Relay(RIGHT),
        room: 7,
        position: 1,
        outcome: Err(Refusal::NoRoom),
        ..BEAT
    },
    Beat {
        operation: Operation::Relay(RIGHT),
        room: 0,
        position: 1,
        outcome: Err(Refusal::NoRoom),
        ..BEAT
    },
    Beat {
        operation: Operation::Relay(RIGHT),
        room: 7,
        outcome: Err(Refusal::NoRoom),
        ..BEAT
    },
    Beat {
        lent: Some(339),
        outcome: Err(Refusal::TableNotSound),
        ..BEAT
    },
    Beat {
        lent: Some(341),
        outcome: Err(Refusal::TableNotSound),
        ..BEAT
    },
    Beat {
        monitors: 33,
        position: 1,
        outcome: Err(Refusal::TableNotSound),
        ..BEAT
    },
    Beat {
        room: 7,
        lent: Some(339),
        position: 0,
        outcome: Err(Refusal::TableNotSound),
        ..BEAT
    },
    Beat {
        position: 0,
        outcome: Err(Refusal::PositionWrong),
        ..BEAT
    },
    Beat {
        position: 3,
        outcome: Err(Refusal::PositionWrong),
        ..BEAT
    },
    Beat {
        monitors: 32,
        position: 33,
        outcome: Err(Refusal::PositionWrong),
        ..BEAT
    },
    Beat {
        room: 7,
        position: 3,
        outcome: Err(Refusal::PositionWrong),
        ..BEAT
    },
    Beat {
        room: 7,
        outcome: Err(Refusal::NoRoom),
        ..BEAT
    },
    Beat {
        room: 0,
        outcome: Err(Refusal::NoRoom),
        ..BEAT
    },
    Beat {
        room: 7,
        position: 1,
        outcome: Err(Refusal::NoRoom),
        ..BEAT
    },
    Beat {
        operation: Operation::TimeOut,
        lent: Some(339),
        outcome: Err(Refusal::TableNotSound),
        ..BEAT
    },
    Beat {
        operation: Operation::TimeOut,
        lent: Some(341),
        outcome: Err(Refusal::TableNotSound),
        ..BEAT
    },
    Beat {
        operation: Operation::TimeOut,
        monitors: 33,
        position: 1,
        outcome: Err(Refusal::TableNotSound),
        ..BEAT
    },
    Beat {
        operation: Operation::TimeOut,
        lent: Some(339),
        position: 0,
        outcome: Err(Refusal::TableNotSound),
        ..BEAT
    },
    Beat {
        operation: Operation::TimeOut,
        position: 0,
        outcome: Err(Refusal::PositionWrong),
        ..BEAT
    },
    Beat {
        operation: Operation::TimeOut,
        position: 3,
        outcome: Err(Refusal::PositionWrong),
        ..BEAT
    },
    Beat {
        operation: Operation::TimeOut,
        monitors: 32,
        position: 33,
        outcome: Err(Refusal::PositionWrong),
        ..BEAT
    },
];
