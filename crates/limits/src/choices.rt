// What our host makes of the replies at its two ports, at its limits.
use crate::buffers::{Buffer, filled, lay, resize};
use crate::case::{Case, as_wanted};
use crate::payloads::{CHECK_OF_63, COUNTER_0, COUNTER_62, COUNTER_63, LAST_BIT_WRONG, Payload};
use crate::say::Refused;
use ports::Port;
use refusals::Refusal;
use std::io;

// What the monitor that is asked about sends, in a reply of so many bytes. Every other payload of the reply is damaged.
#[derive(Clone, Copy)]
pub(crate) struct Reply(Payload, usize);

#[derive(Clone, Copy)]
pub(crate) struct Choice {
    monitors: u8,
    position: u8,
    a: Reply,
    b: Reply,
    // The counter expected.
    expected: u8,
    // The port, and whether its counter differs.
    outcome: Result<Port, Refusal>,
}

// Both replies are right, and A's is taken.
const BOTH: Choice = Choice {
    monitors: 2,
    position: 2,
    a: Reply(COUNTER_63, 16),
    b: Reply(COUNTER_63, 16),
    expected: 63,
    outcome: Ok(Port::A(false)),
};

pub(crate) static CASES: [Choice; 41] = [
    // the ends of the chain, and of the counter expected
    Choice {
        monitors: 1,
        position: 1,
        a: Reply(COUNTER_63, 8),
        b: Reply(COUNTER_63, 8),
        outcome: Ok(Port::A(false)),
        ..BOTH
    },
    Choice {
        monitors: 1,
        position: 1,
        a: Reply(COUNTER_0, 8),
        b: Reply(COUNTER_0, 8),
        expected: 0,
        outcome: Ok(Port::A(false)),
    },
    Choice {
        monitors: 32,
        position: 1,
        a: Reply(COUNTER_63, 256),
        b: Reply(LAST_BIT_WRONG, 256),
        outcome: Ok(Port::A(false)),
        ..BOTH
    },
    Choice {
        monitors: 32,
        position: 1,
        a: Reply(LAST_BIT_WRONG, 256),
        b: Reply(COUNTER_63, 256),
        outcome: Ok(Port::B(false)),
        ..BOTH
    },
    Choice {
        monitors: 32,
        position: 32,
        a: Reply(COUNTER_63, 256),
        b: Reply(LAST_BIT_WRONG, 256),
        outcome: Ok(Port::A(false)),
        ..BOTH
    },
    Choice {
        monitors: 32,
        position: 32,
        a: Reply(LAST_BIT_WRONG, 256),
        b: Reply(COUNTER_63, 256),
        outcome: Ok(Port::B(false)),
        ..BOTH
    },
    Choice {
        monitors: 32,
        position: 32,
        a: Reply(COUNTER_63, 256),
        b: Reply(COUNTER_63, 256),
        expected: 64,
        outcome: Err(Refusal::PositionWrong),
    },
    Choice {
        monitors: 32,
        position: 32,
        a: Reply(COUNTER_63, 256),
        b: Reply(COUNTER_63, 256),
        expected: 255,
        outcome: Err(Refusal::PositionWrong),
    },
    Choice {
        position: 1,
        a: Reply(COUNTER_0, 16),
        b: Reply(COUNTER_0, 16),
        expected: 64,
        outcome: Err(Refusal::PositionWrong),
        ..BOTH
    },
    Choice {
        position: 1,
        a: Reply(COUNTER_0, 16),
        b: Reply(COUNTER_0, 16),
        expected: 128,
        outcome: Err(Refusal::PositionWrong),
        ..BOTH
    },
    // right, a counter that differs, damaged: each with each
    Choice {
        a: Reply(COUNTER_63, 16),
        b: Reply(COUNTER_63, 16),
        outcome: Ok(Port::A(false)),
        ..BOTH
    },
    Choice {
        a: Reply(COUNTER_63, 16),
        b: Reply(COUNTER_62, 16),
        outcome: Ok(Port::A(false)),
        ..BOTH
    },
    Choice {
        a: Reply(COUNTER_63, 16),
        b: Reply(LAST_BIT_WRONG, 16),
        outcome: Ok(Port::A(false)),
        ..BOTH
    },
    Choice {
        a: Reply(COUNTER_62, 16),
        b: Reply(COUNTER_63, 16),
        outcome: Ok(Port::B(false)),
        ..BOTH
    },
    Choice {
        a: Reply(COUNTER_62, 16),
        b: Reply(COUNTER_62, 16),
        outcome: Ok(Port::A(true)),
        ..BOTH
    },
    Choice {
        a: Reply(COUNTER_62, 16),
        b: Reply(LAST_BIT_WRONG, 16),
        outcome: Ok(Port::A(true)),
        ..BOTH
    },
    Choice {
        a: Reply(LAST_BIT_WRONG, 16),
        b: Reply(COUNTER_63, 16),
        outcome: Ok(Port::B(false)),
        ..BOTH
    },
    Choice {
        a: Reply(LAST_BIT_WRONG, 16),
        b: Reply(COUNTER_62, 16),
        outcome: Ok(Port::B(true)),
        ..BOTH
    },
    Choice {
        a: Reply(LAST_BIT_WRONG, 16),
        b: Reply(LAST_BIT_WRONG, 16),
        outcome: Err(Refusal::BothDamaged),
        ..BOTH
    },
    // two counters that differ; and a check that is wrong, with the counter expected
    Choice {
        position: 1,
        a: Reply(COUNTER_0, 16),
        b: Reply(COUNTER_62, 16),
        outcome: Ok(Port::A(true)),
        ..BOTH
    },
    Choice {
        position: 1,
        a: Reply(COUNTER_62, 16),
        b: Reply(COUNTER_0, 16),
        outcome: Ok(Port::A(true)),
        ..BOTH
    },
    Choice {
        position: 1,
        a: Reply(CHECK_OF_63, 16),
        b: Reply(COUNTER_62, 16),
        expected: 62,
        outcome: Ok(Port::B(false)),
        ..BOTH
    },
    Choice {
        position: 1,
        a: Reply(CHECK_OF_63, 16),
        b: Reply(COUNTER_0, 16),
        expected: 62,
        outcome: Ok(Port::B(true)),
        ..BOTH
    },
    Choice {
        position: 1,
        a: Reply(CHECK_OF_63, 16),
        b: Reply(CHECK_OF_63, 16),
        expected: 62,
        outcome: Err(Refusal::BothDamaged),
        ..BOTH
    },
    // refusals in their order
    Choice {
        monitors: 0,
        position: 0,
        a: Reply(COUNTER_63, 0),
        b: Reply(COUNTER_63, 0),
        outcome: Err(Refusal::PositionWrong),
        ..BOTH
    },
    Choice {
        monitors: 33,
        position: 1,
        a: Reply(COUNTER_63, 264),
        b: Reply(COUNTER_63, 264),
        outcome: Err(Refusal::PositionWrong),
        ..BOTH
    },
    Choice {
        monitors: 33,
        position: 33,
        a: Reply(COUNTER_63, 264),
        b: Reply(COUNTER_63, 264),
        expected: 64,
        outcome: Err(Refusal::PositionWrong),
    },
    Choice {
        position: 0,
        a: Reply(COUNTER_63, 16),
        b: Reply(COUNTER_63, 16),
        outcome: Err(Refusal::PositionWrong),
        ..BOTH
    },
    Choice {
        position: 0,
        a: Reply(COUNTER_63, 16),
        b: Reply(COUNTER_63, 16),
        expected: 64,
        outcome: Err(Refusal::PositionWrong),
        ..BOTH
    },
    Choice {
        position: 3,
        a: Reply(COUNTER_63, 16),
        b: Reply(COUNTER_63, 16),
        outcome: Err(Refusal::PositionWrong),
        ..BOTH
    },
    Choice {
        monitors: 32,
        position: 33,
        a: Reply(COUNTER_63, 256),
        b: Reply(COUNTER_63, 256),
        outcome: Err(Refusal::PositionWrong),
        ..BOTH
    },
    Choice {
        position: 0,
        a: Reply(COUNTER_63, 15),
        b: Reply(COUNTER_63, 16),
        outcome: Err(Refusal::PositionWrong),
        ..BOTH
    },
    Choice {
        a: Reply(COUNTER_63, 15),
        b: Reply(COUNTER_63, 16),
        outcome: Err(Refusal::LengthWrong),
        ..BOTH
    },
    Choice {
        a: Reply(COUNTER_63, 16),
        b: Reply(COUNTER_63, 15),
        outcome: Err(Refusal::LengthWrong),
        ..BOTH
    },
    Choice {
        a: Reply(COUNTER_63, 17),
        b: Reply(COUNTER_63, 16),
        outcome: Err(Refusal::LengthWrong),
        ..BOTH
    },
    Choice {
        a: Reply(COUNTER_63, 16),
        b: Reply(COUNTER_63, 24),
        outcome: Err(Refusal::LengthWrong),
        ..BOTH
    },
    Choice {
        a: Reply(COUNTER_63, 15),
        b: Reply(COUNTER_63, 16),
        expected: 64,
        outcome: Err(Refusal::PositionWrong),
        ..BOTH
    },
    Choice {
        a: Reply(COUNTER_63, 16),
        b: Reply(COUNTER_63, 15),
        expected: 255,
        outcome: Err(Refusal::PositionWrong),
        ..BOTH
    },
    Choice {
        a: Reply(LAST_BIT_WRONG, 16),
        b: Reply(LAST_BIT_WRONG, 15),
        outcome: Err(Refusal::LengthWrong),
        ..BOTH
    },
    Choice {
        a: Reply(LAST_BIT_WRONG, 16),
        b: Reply(LAST_BIT_WRONG, 16),
        expected: 64,
        outcome: Err(Refusal::PositionWrong),
        ..BOTH
    },
    Choice {
        position: 0,
        a: Reply(LAST_BIT_WRONG, 16),
        b: Reply(LAST_BIT_WRONG, 16),
        outcome: Err(Refusal::PositionWrong),
        ..BOTH
    },
];

impl Reply {
    // The payload stands behind so many others; where it would stand outside of the chain it is not there.
    fn bytes(self, monitors: u8, before: Option<u8>) -> Buffer {
        let Reply(payload, size) = self;
        let mut bytes = filled(0, 8 * usize::from(monitors));
        if let Some(before) = before {
            lay(
                &mut bytes,
                8 * usize::from(before),
                &payload.bytes.to_be_bytes(),
            );
        }
        resize(&mut bytes, size, 0);
        bytes
    }
}

impl Choice {
    // Is the part that was handed back the one expected, and none where none is?
    fn is_part(&self, part: &[u8]) -> bool {
        match self.outcome {
            Err(_) => part.is_empty(),
            Ok(Port::A(_)) => part == self.a.0.bytes.to_be_bytes().as_slice(),
            Ok(Port::B(_)) => part == self.b.0.bytes.to_be_bytes().as_slice(),
        }
    }

    fn asked<R: Print>(&self, rt: &R) -> io::Result<()> {
        print!(rt; "monitors {}, position {}, ", self.monitors, self.position)?;
        let Reply(payload_a, size_a) = self.a;
        let Reply(payload_b, size_b) = self.b;
        print!(rt;
            "bytes {size_a} and {size_b}, A {}, B {}, ",
            payload_a.name, payload_b.name
        )?;
        print!(rt; "expected {}", self.expected)
    }
}

fn told<R: Print>(rt: &R, came: Result<Port, Refusal>) -> io::Result<()> {
    let (port, differs) = match came {
        Err(refusal) => return print!(rt; "{}", Refused(refusal)),
        Ok(Port::A(differs)) => ("A", differs),
        Ok(Port::B(differs)) => ("B", differs),
    };
    print!(rt;
        ": port {port}{}",
        if differs { ", counter differs" } else { "" }
    )
}

impl Case for Choice {
    fn tried<R: Print>(&self, rt: &R) -> io::Result<bool> {
        let n = usize::from(self.monitors);
        let k = usize::from(self.position);
        let a = self.a.bytes(self.monitors, self.position.checked_sub(1));
        let b = self
            .b
            .bytes(self.monitors, self.monitors.checked_sub(self.position));
        let part = ports::part_of(&a, &b, n, k, self.expected);
        let came = ports::port_of(&a, &b, n, k, self.expected);
        self.asked(rt)?;
        told(rt, came)?;
        Ok(as_wanted(came, self.outcome) && self.is_part(part))
    }
}
