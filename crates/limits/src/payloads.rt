// The check of one payload against the counter that our host expects, at its limits.
use crate::buffers::{holding, resize};
use crate::case::{Case, as_wanted};
use crate::say::Refused;
use ports::Checked;
use refusals::Refusal;
use std::io;

#[derive(Clone, Copy)]
pub(crate) struct Payload {
    pub name: &'static str,
    pub bytes: u64,
}

// The same six bytes, sealed with these counters and damaged as said.
pub(crate) const COUNTER_63: Payload = Payload {
    name: "counter 63",
    bytes: 0x1112_1314_1516_fe51,
};

pub(crate) const COUNTER_62: Payload = Payload {
    name: "counter 62",
    bytes: 0x1112_1314_1516_fade,
};

pub(crate) const COUNTER_0: Payload = Payload {
    name: "counter 0",
    bytes: 0x1112_1314_1516_0339,
};

pub(crate) const COUNTER_1: Payload = Payload {
    name: "counter 1",
    bytes: 0x1112_1314_1516_07b6,
};

pub(crate) const LAST_BIT_WRONG: Payload = Payload {
    name: "counter 63 and its last bit turned over",
    bytes: 0x1112_1314_1516_fe50,
};

pub(crate) const CHECK_OF_63: Payload = Payload {
    name: "counter 62 with the check of 63",
    bytes: 0x1112_1314_1516_fa51,
};

// So many bytes of a payload, and the counter expected.
#[derive(Clone, Copy)]
pub(crate) struct Check {
    payload: Payload,
    size: usize,
    expected: u8,
    outcome: Result<Checked, Refusal>,
}

pub(crate) static CASES: [Check; 26] = [
    // the counter expected: 63 and 64, and what would be 63 or 0 if it were taken modulo 64
    Check {
        payload: COUNTER_63,
        size: 8,
        expected: 63,
        outcome: Ok(Checked::Right),
    },
    Check {
        payload: COUNTER_63,
        size: 8,
        expected: 64,
        outcome: Err(Refusal::PositionWrong),
    },
    Check {
        payload: COUNTER_63,
        size: 8,
        expected: 127,
        outcome: Err(Refusal::PositionWrong),
    },
    Check {
        payload: COUNTER_63,
        size: 8,
        expected: 255,
        outcome: Err(Refusal::PositionWrong),
    },
    Check {
        payload: COUNTER_0,
        size: 8,
        expected: 0,
        outcome: Ok(Checked::Right),
    },
    Check {
        payload: COUNTER_0,
        size: 8,
        expected: 64,
        outcome: Err(Refusal::PositionWrong),
    },
    Check {
        payload: COUNTER_0,
        size: 8,
        expected: 128,
        outcome: Err(Refusal::PositionWrong),
    },
    Check {
        payload: COUNTER_0,
        size: 8,
        expected: 255,
        outcome: Err(Refusal::PositionWrong),
    },
    // a counter one off, and the two ends
    Check {
        payload: COUNTER_63,
        size: 8,
        expected: 62,
        outcome: Ok(Checked::CounterDiffers(63)),
    },
    Check {
        payload: COUNTER_62,
        size: 8,
        expected: 63,
        outcome: Ok(Checked::CounterDiffers(62)),
    },
    Check {
        payload: COUNTER_0,
        size: 8,
        expected: 1,
        outcome: Ok(Checked::CounterDiffers(0)),
    },
    Check {
        payload: COUNTER_1,
        size: 8,
        expected: 0,
        outcome: Ok(Checked::CounterDiffers(1)),
    },
    Check {
        payload: COUNTER_63,
        size: 8,
        expected: 0,
        outcome: Ok(Checked::CounterDiffers(63)),
    },
    Check {
        payload: COUNTER_0,
        size: 8,
        expected: 63,
        outcome: Ok(Checked::CounterDiffers(0)),
    },
    // a check that is wrong, whatever the counter
    Check {
        payload: LAST_BIT_WRONG,
        size: 8,
        expected: 63,
        outcome: Ok(Checked::Damaged),
    },
    Check {
        payload: LAST_BIT_WRONG,
        size: 8,
        expected: 62,
        outcome: Ok(Checked::Damaged),
    },
    Check {
        payload: CHECK_OF_63,
        size: 8,
        expected: 63,
        outcome: Ok(Checked::Damaged),
    },
    Check {
        payload: CHECK_OF_63,
        size: 8,
        expected: 62,
        outcome: Ok(Checked::Damaged),
    },
    Check {
        payload: LAST_BIT_WRONG,
        size: 8,
        expected: 64,
        outcome: Err(Refusal::PositionWrong),
    },
    // the length, behind the counter
    Check {
        payload: COUNTER_63,
        size: 7,
        expected: 63,
        outcome: Err(Refusal::LengthWrong),
    },
    Check {
        payload: COUNTER_63,
        size: 9,
        expected: 63,
        outcome: Err(Refusal::LengthWrong),
    },
    Check {
        payload: COUNTER_63,
        size: 0,
        expected: 63,
        outcome: Err(Refusal::LengthWrong),
    },
    Check {
        payload: CHECK_OF_63,
        size: 7,
        expected: 62,
        outcome: Err(Refusal::LengthWrong),
    },
    Check {
        payload: COUNTER_63,
        size: 7,
        expected: 64,
        outcome: Err(Refusal::PositionWrong),
    },
    Check {
        payload: COUNTER_63,
        size: 9,
        expected: 64,
        outcome: Err(Refusal::PositionWrong),
    },
    Check {
        payload: COUNTER_63,
        size: 0,
        expected: 255,
        outcome: Err(Refusal::PositionWrong),
    },
];

impl Case for Check {
    fn tried<R: Print>(&self, rt: &R) -> io::Result<bool> {
        let mut bytes = holding(&self.payload.bytes.to_be_bytes());
        resize(&mut bytes, self.size, 0);
        let came = ports::check(&bytes, self.expected);
        print!(rt;
            "bytes {}, {}, expected {}",
            self.size, self.payload.name, self.expected
        )?;
        match came {
            Err(refusal) => print!(rt; "{}", Refused(refusal))?,
            Ok(Checked::Right) => print!(rt; ": right")?,
            Ok(Checked::CounterDiffers(received)) => print!(rt; ": counter differs, {received}")?,
            Ok(Checked::Damaged) => print!(rt; ": damaged")?,
        }
        Ok(as_wanted(came, self.outcome))
    }
}
