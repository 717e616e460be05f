// Wakes, relays, and the time that runs out.
use crate::beats::{BEAT, Beat, Patch};
use crate::operations::{Operation, Outcome};
use passing::End;

pub(crate) static CASES: [Beat; 49] = [
    // a wake: room to spare, a monitor that is no manager, and the ends of the chain
    Beat {
        operation: Operation::Wake,
        outcome: Ok(Outcome::Towards(End::A)),
        handed_out: Some(0x0043_47b2_4300_0306),
        ..BEAT
    },
    Beat {
        operation: Operation::Wake,
        room: 9,
        outcome: Ok(Outcome::Towards(End::A)),
        handed_out: Some(0x0043_47b2_4300_0306),
        ..BEAT
    },
    Beat {
        operation: Operation::Wake,
        position: 1,
        ..BEAT
    },
    Beat {
        operation: Operation::Wake,
        monitors: 1,
        position: 1,
        outcome: Ok(Outcome::Towards(End::A)),
        handed_out: Some(0x0043_47b2_4200_0394),
        ..BEAT
    },
    Beat {
        operation: Operation::Wake,
        monitors: 32,
        position: 32,
        outcome: Ok(Outcome::Towards(End::A)),
        handed_out: Some(0x0043_47b2_6100_025e),
        ..BEAT
    },
    Beat {
        operation: Operation::Wake,
        monitors: 32,
        position: 1,
        ..BEAT
    },
    // CMC_MAN, CMC_EN and CMC_DIR are single bits
    Beat {
        note: ", every bit but CMC_MAN",
        operation: Operation::Wake,
        before: &[Patch(284, b"\x7f")],
        ..BEAT
    },
    Beat {
        note: ", CMC_EN alone",
        operation: Operation::Wake,
        before: &[Patch(303, b"\x80")],
        outcome: Ok(Outcome::Towards(End::A)),
        handed_out: Some(0x0043_47b2_4300_0306),
        ..BEAT
    },
    Beat {
        note: ", every bit but CMC_EN",
        operation: Operation::Wake,
        before: &[Patch(303, b"\x7f")],
        ..BEAT
    },
    Beat {
        note: ", every bit but CMC_DIR",
        operation: Operation::Wake,
        before: &[Patch(288, b"\xdf")],
        outcome: Ok(Outcome::Towards(End::B)),
        handed_out: Some(0x0043_47b2_4300_0306),
        ..BEAT
    },
    // the count in eight bits, of a manager that passes and of one that does not
    Beat {
        note: ", CMC_NDEV 01",
        operation: Operation::Wake,
        before: &[Patch(285, b"\x01")],
        outcome: Ok(Outcome::Towards(End::A)),
        handed_out: Some(0x0043_47b2_0000_0248),
        ..BEAT
    },
    Beat {
        note: ", CMC_NDEV 00",
        operation: Operation::Wake,
        before: &[Patch(285, b"\x00")],
        outcome: Ok(Outcome::Towards(End::A)),
        handed_out: Some(0x0043_47b2_ff00_00e3),
        ..BEAT
    },
    Beat {
        note: ", CMF0 01",
        operation: Operation::Wake,
        before: &[Patch(302, b"\x01")],
        outcome: Ok(Outcome::Towards(End::A)),
        handed_out: Some(0x0043_47b2_4401_03cf),
        ..BEAT
    },
    Beat {
        note: ", CMF0 80, CMC_NDEV 00",
        operation: Operation::Wake,
        before: &[Patch(302, b"\x80"), Patch(285, b"\x00")],
        outcome: Ok(Outcome::Towards(End::A)),
        handed_out: Some(0x0043_47b2_0080_0201),
        ..BEAT
    },
    // a message that reaches a monitor
    Beat {
        operation: Operation::Relay(0x0043_47b2_4300_0306),
        position: 1,
        outcome: Ok(Outcome::SentOn),
        handed_out: Some(0x0043_47b2_4200_0394),
        ..BEAT
    },
    Beat {
        operation: Operation::Relay(0x0043_47b2_4300_0306),
        room: 9,
        position: 1,
        outcome: Ok(Outcome::SentOn),
        handed_out: Some(0x0043_47b2_4200_0394),
        ..BEAT
    },
    Beat {
        note: ", the manager",
        operation: Operation::Relay(0x0043_47b2_4400_00f8),
        ..BEAT
    },
    Beat {
        operation: Operation::Relay(0x0043_47b2_6100_025e),
        monitors: 32,
        position: 31,
        outcome: Ok(Outcome::SentOn),
        handed_out: Some(0x0043_47b2_6000_02cc),
        ..BEAT
    },
    Beat {
        note: ", the manager",
        operation: Operation::Relay(0x0043_47b2_6200_03e8),
        monitors: 32,
        position: 32,
        ..BEAT
    },
    Beat {
        note: ", every bit but CMC_EN",
        operation: Operation::Relay(0x0043_47b2_4300_0306),
        position: 1,
        before: &[Patch(133, b"\x7f")],
        ..BEAT
    },
    Beat {
        note: ", every bit but CMC_MAN and CMC_BTM",
        operation: Operation::Relay(0x0043_47b2_4300_0306),
        position: 1,
        before: &[Patch(114, b"\x77")],
        outcome: Ok(Outcome::SentOn),
        handed_out: Some(0x0043_47b2_4200_0394),
        ..BEAT
    },
    Beat {
        note: ", CMC_MAN and CMC_BTM",
        operation: Operation::Relay(0x0043_47b2_4300_0306),
        position: 1,
        before: &[Patch(114, b"\x88")],
        ..BEAT
    },
    // the count in eight bits, and flags that join
    Beat {
        note: ", count 01",
        operation: Operation::Relay(0x0043_47b2_0100_02da),
        position: 1,
        outcome: Ok(Outcome::SentOn),
        handed_out: Some(0x0043_47b2_0000_0248),
        ..BEAT
    },
    Beat {
        note: ", count 00",
        operation: Operation::Relay(0x0043_47b2_0000_0248),
        position: 1,
        outcome: Ok(Outcome::SentOn),
        handed_out: Some(0x0043_47b2_ff00_00e3),
        ..BEAT
    },
    Beat {
        note: ", flags 02",
        operation: Operation::Relay(0x0043_47b2_4302_01e7),
        position: 1,
        outcome: Ok(Outcome::SentOn),
        handed_out: Some(0x0043_47b2_4202_0175),
        ..BEAT
    },
    Beat {
        note: ", flags 80, CMF0 01",
        operation: Operation::Relay(0x0043_47b2_4380_034f),
        position: 1,
        before: &[Patch(132, b"\x01")],
        outcome: Ok(Outcome::SentOn),
        handed_out: Some(0x0043_47b2_4381_0078),
        ..BEAT
    },
    Beat {
        note: ", count 00, flags 01, CMF0 01",
        operation: Operation::Relay(0x0043_47b2_0001_017f),
        position: 1,
        before: &[Patch(132, b"\x01")],
        outcome: Ok(Outcome::SentOn),
        handed_out: Some(0x0043_47b2_0001_017f),
        ..BEAT
    },
    // a message that is not right, and counter bits that are
    Beat {
        note: ", 0042 with its own check",
        operation: Operation::Relay(0x0042_cc80_4300_0306),
        position: 1,
        ..BEAT
    },
    Beat {
        note: ", the check 47 b3",
        operation: Operation::Relay(0x0043_47b3_4300_0306),
        position: 1,
        ..BEAT
    },
    Beat {
        note: ", the last bit",
        operation: Operation::Relay(0x0043_47b2_4300_0307),
        position: 1,
        ..BEAT
    },
    Beat {
        note: ", a flag more",
        operation: Operation::Relay(0x0043_47b2_4301_0306),
        position: 1,
        ..BEAT
    },
    Beat {
        note: ", a counter bit",
        operation: Operation::Relay(0x0043_47b2_4300_0706),
        position: 1,
        ..BEAT
    },
    Beat {
        note: ", counter bits 9",
        operation: Operation::Relay(0x0043_47b2_4300_277e),
        position: 1,
        outcome: Ok(Outcome::SentOn),
        handed_out: Some(0x0043_47b2_4200_0394),
        ..BEAT
    },
    Beat {
        note: ", counter bits 63",
        operation: Operation::Relay(0x0043_47b2_4300_fe6e),
        position: 1,
        outcome: Ok(Outcome::SentOn),
        handed_out: Some(0x0043_47b2_4200_0394),
        ..BEAT
    },
    // a timeout monitor judges what is left after its own step
    Beat {
        note: ", CMC_BTM",
        operation: Operation::Relay(0x0043_47b2_4300_0306),
        position: 1,
        before: &[Patch(114, b"\x08")],
        after: &[Patch(133, b"\x80")],
        ..BEAT
    },
    Beat {
        note: ", CMC_BTM, CMF1 80, count 44",
        operation: Operation::Relay(0x0043_47b2_4400_00f8),
        position: 1,
        before: &[Patch(114, b"\x08"), Patch(133, b"\x80")],
        after: &[Patch(133, b"\x81")],
        ..BEAT
    },
    Beat {
        note: ", CMC_BTM, CMF1 80, count 42",
        operation: Operation::Relay(0x0043_47b2_4200_0394),
        position: 1,
        before: &[Patch(114, b"\x08"), Patch(133, b"\x80")],
        after: &[Patch(133, b"\x81")],
        ..BEAT
    },
    Beat {
        note: ", CMC_BTM, CMF1 80, flags 01",
        operation: Operation::Relay(0x0043_47b2_4301_0031),
        position: 1,
        before: &[Patch(114, b"\x08"), Patch(133, b"\x80")],
        after: &[Patch(133, b"\x81")],
        ..BEAT
    },
    Beat {
        note: ", CMC_BTM, CMF0 01, CMF1 80, count 42",
        operation: Operation::Relay(0x0043_47b2_4200_0394),
        position: 1,
        before: &[Patch(114, b"\x08"), Patch(132, b"\x01\x80")],
        after: &[Patch(133, b"\x81")],
        ..BEAT
    },
    Beat {
        note: ", CMC_BTM, CMF1 80, the last bit",
        operation: Operation::Relay(0x0043_47b2_4300_0307),
        position: 1,
        before: &[Patch(114, b"\x08"), Patch(133, b"\x80")],
        ..BEAT
    },
    // the time runs out
    Beat {
        note: ", CMC_BTM, CMF1 80",
        operation: Operation::TimeOut,
        position: 1,
        before: &[Patch(114, b"\x08"), Patch(133, b"\x80")],
        outcome: Ok(Outcome::RanOut),
        after: &[Patch(133, b"\x82")],
        ..BEAT
    },
    Beat {
        note: ", CMC_BTM, CMF1 81",
        operation: Operation::TimeOut,
        position: 1,
        before: &[Patch(114, b"\x08"), Patch(133, b"\x81")],
        outcome: Ok(Outcome::RanOut),
        after: &[Patch(133, b"\x83")],
        ..BEAT
    },
    Beat {
        note: ", CMC_BTM, CMF1 83",
        operation: Operation::TimeOut,
        position: 1,
        before: &[Patch(114, b"\x08")],
        outcome: Ok(Outcome::RanOut),
        ..BEAT
    },
    Beat {
        note: ", CMC_BTM, CMF1 7d",
        operation: Operation::TimeOut,
        position: 1,
        before: &[Patch(114, b"\x08"), Patch(133, b"\x7d")],
        outcome: Ok(Outcome::NoTimeoutMonitor),
        ..BEAT
    },
    Beat {
        note: ", every bit but CMC_MAN and CMC_BTM, CMF1 80",
        operation: Operation::TimeOut,
        position: 1,
        before: &[Patch(114, b"\x77"), Patch(133, b"\x80")],
        outcome: Ok(Outcome::NoTimeoutMonitor),
        ..BEAT
    },
    Beat {
        note: ", CMC_MAN and CMC_BTM, CMF1 80",
        operation: Operation::TimeOut,
        position: 1,
        before: &[Patch(114, b"\x88"), Patch(133, b"\x80")],
        outcome: Ok(Outcome::NoTimeoutMonitor),
        ..BEAT
    },
    Beat {
        note: ", every bit but CMC_MAN, CMF1 80",
        operation: Operation::TimeOut,
        before: &[Patch(284, b"\x7f"), Patch(303, b"\x80")],
        outcome: Ok(Outcome::RanOut),
        after: &[Patch(303, b"\x82")],
        ..BEAT
    },
    Beat {
        note: ", the manager",
        operation: Operation::TimeOut,
        monitors: 32,
        position: 32,
        outcome: Ok(Outcome::NoTimeoutMonitor),
        ..BEAT
    },
    Beat {
        operation: Operation::TimeOut,
        monitors: 32,
        position: 1,
        outcome: Ok(Outcome::NoTimeoutMonitor),
        ..BEAT
    },
];
