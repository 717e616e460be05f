// The host's verdicts on bytes by themselves.
use crate::case::{Case, as_wanted};
use crate::operations::{Judged, message};
use messages::Verdict;
use refusals::Refusal;
use std::io;

// So many bytes that come, of a message or more, and whether the time ran out.
#[derive(Clone, Copy)]
pub(crate) struct Judgement {
    note: &'static str,
    message: u64,
    bytes: usize,
    ran_out: bool,
    outcome: Result<Verdict, Refusal>,
}

pub(crate) static CASES: [Judgement; 19] = [
    // verdicts on bytes by themselves
    Judgement {
        note: ", 42 00",
        message: 0x0043_47b2_4200_0394,
        bytes: 8,
        ran_out: false,
        outcome: Ok(Verdict::Passed),
    },
    Judgement {
        note: ", 41 00",
        message: 0x0043_47b2_4100_0222,
        bytes: 8,
        ran_out: false,
        outcome: Ok(Verdict::Failed {
            count: 0x41,
            flags: 0x00,
        }),
    },
    Judgement {
        note: ", 43 00",
        message: 0x0043_47b2_4300_0306,
        bytes: 8,
        ran_out: false,
        outcome: Ok(Verdict::Failed {
            count: 0x43,
            flags: 0x00,
        }),
    },
    Judgement {
        note: ", 42 01",
        message: 0x0043_47b2_4201_00a3,
        bytes: 8,
        ran_out: false,
        outcome: Ok(Verdict::Failed {
            count: 0x42,
            flags: 0x01,
        }),
    },
    Judgement {
        note: ", 42 80",
        message: 0x0043_47b2_4280_03dd,
        bytes: 8,
        ran_out: false,
        outcome: Ok(Verdict::Failed {
            count: 0x42,
            flags: 0x80,
        }),
    },
    Judgement {
        note: ", 00 00",
        message: 0x0043_47b2_0000_0248,
        bytes: 8,
        ran_out: false,
        outcome: Ok(Verdict::Failed {
            count: 0x00,
            flags: 0x00,
        }),
    },
    Judgement {
        note: ", 42 00, counter bits 9",
        message: 0x0043_47b2_4200_27ec,
        bytes: 8,
        ran_out: false,
        outcome: Ok(Verdict::Passed),
    },
    Judgement {
        note: ", 42 00, the last bit",
        message: 0x0043_47b2_4200_0395,
        bytes: 8,
        ran_out: false,
        outcome: Ok(Verdict::Damaged),
    },
    Judgement {
        note: ", 42 00, 0042 with its own check",
        message: 0x0042_cc80_4200_0394,
        bytes: 8,
        ran_out: false,
        outcome: Ok(Verdict::Damaged),
    },
    Judgement {
        note: ", 42 00, the check 47 b3",
        message: 0x0043_47b3_4200_0394,
        bytes: 8,
        ran_out: false,
        outcome: Ok(Verdict::Damaged),
    },
    Judgement {
        note: "",
        message: 0x0043_47b2_4200_0394,
        bytes: 7,
        ran_out: false,
        outcome: Err(Refusal::LengthWrong),
    },
    Judgement {
        note: "",
        message: 0x0043_47b2_4200_0394,
        bytes: 9,
        ran_out: false,
        outcome: Err(Refusal::LengthWrong),
    },
    Judgement {
        note: "",
        message: 0x0043_47b2_4200_0394,
        bytes: 0,
        ran_out: false,
        outcome: Err(Refusal::LengthWrong),
    },
    Judgement {
        note: ", 42 00, time run out",
        message: 0x0043_47b2_4200_0394,
        bytes: 8,
        ran_out: true,
        outcome: Ok(Verdict::TimedOut),
    },
    Judgement {
        note: ", 42 00, the last bit, time run out",
        message: 0x0043_47b2_4200_0395,
        bytes: 8,
        ran_out: true,
        outcome: Ok(Verdict::TimedOut),
    },
    Judgement {
        note: ", time run out",
        message: 0x0043_47b2_4200_0394,
        bytes: 0,
        ran_out: true,
        outcome: Ok(Verdict::TimedOut),
    },
    Judgement {
        note: ", time run out",
        message: 0x0043_47b2_4200_0394,
        bytes: 1,
        ran_out: true,
        outcome: Err(Refusal::LengthWrong),
    },
    Judgement {
        note: ", time run out",
        message: 0x0043_47b2_4200_0394,
        bytes: 7,
        ran_out: true,
        outcome: Err(Refusal::LengthWrong),
    },
    Judgement {
        note: ", time run out",
        message: 0x0043_47b2_4200_0394,
        bytes: 9,
        ran_out: true,
        outcome: Err(Refusal::LengthWrong),
    },
];

impl Case for Judgement {
    fn tried<R: Print>(&self, rt: &R) -> io::Result<bool> {
        let bytes = message(self.message, self.bytes);
        let came = messages::verdict_on(&bytes, self.ran_out);
        print!(rt;
            "verdict on bytes {}{}{}",
            self.bytes,
            self.note,
            Judged(came)
        )?;
        Ok(as_wanted(came, self.outcome))
    }
}
