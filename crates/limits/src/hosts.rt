// The frames that our host builds, at their limits.
use crate::bench::UNTOUCHED;
use crate::buffers::filled;
use crate::case::{Case, as_wanted};
use crate::say::Refused;
use refusals::Refusal;
use std::io;

#[derive(Clone, Copy)]
pub(crate) struct Command {
    name: &'static str,
    code: u16,
}

const WRCFGB: Command = Command {
    name: "WRCFGB",
    code: 0x0024,
};

const RDCFGB: Command = Command {
    name: "RDCFGB",
    code: 0x0026,
};

const MUTE: Command = Command {
    name: "MUTE",
    code: 0x0028,
};

// A code that no command has.
const UNLISTED: Command = Command {
    name: "0003",
    code: 0x0003,
};

const WRPWMA: Command = Command {
    name: "WRPWMA",
    code: 0x0020,
};

const RDPWMB: Command = Command {
    name: "RDPWMB",
    code: 0x0023,
};

const CLRCMFLAG: Command = Command {
    name: "CLRCMFLAG",
    code: 0x005e,
};

const WRCMCFG: Command = Command {
    name: "WRCMCFG",
    code: 0x0058,
};

const RDCMFLAG: Command = Command {
    name: "RDCMFLAG",
    code: 0x005f,
};

const CMEN: Command = Command {
    name: "CMEN",
    code: 0x0041,
};

// This one is not for a host.
const CMHB: Command = Command {
    name: "0043",
    code: 0x0043,
};

// A frame for so many monitors, of so many bytes of values, in so much room; expected is its length.
#[derive(Clone, Copy)]
pub(crate) struct Build {
    command: Command,
    monitors: usize,
    values: usize,
    room: usize,
    outcome: Result<usize, Refusal>,
}

pub(crate) static CASES: [Build; 38] = [
    Build {
        command: WRCFGB,
        monitors: 1,
        values: 6,
        room: 12,
        outcome: Ok(12),
    },
    Build {
        command: WRCFGB,
        monitors: 2,
        values: 12,
        room: 20,
        outcome: Ok(20),
    },
    Build {
        command: WRCFGB,
        monitors: 32,
        values: 192,
        room: 260,
        outcome: Ok(260),
    },
    Build {
        command: WRCFGB,
        monitors: 0,
        values: 0,
        room: 300,
        outcome: Err(Refusal::PositionWrong),
    },
    Build {
        command: WRCFGB,
        monitors: 33,
        values: 198,
        room: 300,
        outcome: Err(Refusal::PositionWrong),
    },
    Build {
        command: WRCFGB,
        monitors: 2,
        values: 12,
        room: 19,
        outcome: Err(Refusal::NoRoom),
    },
    Build {
        command: WRCFGB,
        monitors: 2,
        values: 11,
        room: 20,
        outcome: Err(Refusal::CountWrong),
    },
    Build {
        command: WRCFGB,
        monitors: 2,
        values: 11,
        room: 19,
        outcome: Err(Refusal::CountWrong),
    },
    Build {
        command: WRCFGB,
        monitors: 33,
        values: 11,
        room: 19,
        outcome: Err(Refusal::PositionWrong),
    },
    Build {
        command: UNLISTED,
        monitors: 33,
        values: 11,
        room: 19,
        outcome: Err(Refusal::CodeNotListed),
    },
    Build {
        command: UNLISTED,
        monitors: 2,
        values: 0,
        room: 300,
        outcome: Err(Refusal::CodeNotListed),
    },
    Build {
        command: RDCFGB,
        monitors: 32,
        values: 0,
        room: 260,
        outcome: Ok(260),
    },
    Build {
        command: RDCFGB,
        monitors: 32,
        values: 0,
        room: 259,
        outcome: Err(Refusal::NoRoom),
    },
    Build {
        command: RDCFGB,
        monitors: 2,
        values: 12,
        room: 20,
        outcome: Err(Refusal::CountWrong),
    },
    Build {
        command: MUTE,
        monitors: 32,
        values: 0,
        room: 4,
        outcome: Ok(4),
    },
    Build {
        command: MUTE,
        monitors: 32,
        values: 0,
        room: 3,
        outcome: Err(Refusal::NoRoom),
    },
    Build {
        command: WRPWMA,
        monitors: 32,
        values: 192,
        room: 260,
        outcome: Ok(260),
    },
    Build {
        command: WRPWMA,
        monitors: 32,
        values: 191,
        room: 260,
        outcome: Err(Refusal::CountWrong),
    },
    Build {
        command: RDPWMB,
        monitors: 32,
        values: 0,
        room: 260,
        outcome: Ok(260),
    },
    Build {
        command: RDPWMB,
        monitors: 32,
        values: 0,
        room: 259,
        outcome: Err(Refusal::NoRoom),
    },
    // CLRCMFLAG has two bytes of values for each
    Build {
        command: CLRCMFLAG,
        monitors: 1,
        values: 2,
        room: 8,
        outcome: Ok(8),
    },
    Build {
        command: CLRCMFLAG,
        monitors: 2,
        values: 4,
        room: 12,
        outcome: Ok(12),
    },
    Build {
        command: CLRCMFLAG,
        monitors: 32,
        values: 64,
        room: 132,
        outcome: Ok(132),
    },
    Build {
        command: CLRCMFLAG,
        monitors: 0,
        values: 0,
        room: 300,
        outcome: Err(Refusal::PositionWrong),
    },
    Build {
        command: CLRCMFLAG,
        monitors: 33,
        values: 66,
        room: 300,
        outcome: Err(Refusal::PositionWrong),
    },
    Build {
        command: CLRCMFLAG,
        monitors: 2,
        values: 4,
        room: 11,
        outcome: Err(Refusal::NoRoom),
    },
    Build {
        command: CLRCMFLAG,
        monitors: 2,
        values: 3,
        room: 12,
        outcome: Err(Refusal::CountWrong),
    },
    Build {
        command: CLRCMFLAG,
        monitors: 2,
        values: 5,
        room: 12,
        outcome: Err(Refusal::CountWrong),
    },
    Build {
        command: CLRCMFLAG,
        monitors: 2,
        values: 12,
        room: 20,
        outcome: Err(Refusal::CountWrong),
    },
    Build {
        command: CLRCMFLAG,
        monitors: 32,
        values: 63,
        room: 132,
        outcome: Err(Refusal::CountWrong),
    },
    Build {
        command: WRCMCFG,
        monitors: 32,
        values: 192,
        room: 260,
        outcome: Ok(260),
    },
    Build {
        command: WRCMCFG,
        monitors: 32,
        values: 64,
        room: 132,
        outcome: Err(Refusal::CountWrong),
    },
    Build {
        command: RDCMFLAG,
        monitors: 32,
        values: 0,
        room: 260,
        outcome: Ok(260),
    },
    Build {
        command: RDCMFLAG,
        monitors: 32,
        values: 64,
        room: 132,
        outcome: Err(Refusal::CountWrong),
    },
    Build {
        command: CMEN,
        monitors: 32,
        values: 0,
        room: 4,
        outcome: Ok(4),
    },
    Build {
        command: CMEN,
        monitors: 2,
        values: 4,
        room: 12,
        outcome: Err(Refusal::CountWrong),
    },
    Build {
        command: CMHB,
        monitors: 2,
        values: 0,
        room: 300,
        outcome: Err(Refusal::CodeNotListed),
    },
    Build {
        command: CMHB,
        monitors: 2,
        values: 4,
        room: 12,
        outcome: Err(Refusal::CodeNotListed),
    },
];

impl Case for Build {
    fn tried<R: Print>(&self, rt: &R) -> io::Result<bool> {
        let Command { name, code } = self.command;
        let values = filled(0, self.values);
        let mut buffer = filled(UNTOUCHED, self.room);
        let came = host::build(code, self.monitors, &values, &mut buffer);
        print!(rt;
            "{name}, monitors {}, value bytes {}, room {}",
            self.monitors, self.values, self.room
        )?;
        match came {
            Err(refusal) => print!(rt; "{}", Refused(refusal))?,
            Ok(length) => print!(rt; ": length {length}")?,
        }
        Ok(as_wanted(came, self.outcome))
    }
}
