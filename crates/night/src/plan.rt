// What is done in the evenings, nights and mornings, and what is expected.

use crate::cabinet::Unread;
use crate::codes::Code;
use crate::commands::Command;
use crate::frames::Field;
use crate::halves::Half;
use crate::registers::Register;
use messages::Verdict;

// What is said, and the steps after it.
#[derive(Clone, Copy)]
pub(crate) struct Scene {
    pub(crate) says: &'static str,
    pub(crate) steps: &'static [Step],
}

#[derive(Clone, Copy)]
pub(crate) enum Step {
    // Our host sends a command, in a write with the values for both monitors, the near half's first. So many of the two take it.
    Send {
        command: Command,
        values: &'static [u8],
        taken: usize,
    },
    // Our host reads a register of some halves.
    Read {
        command: Command,
        expected: &'static [(Half, Result<Register, Unread>)],
    },
    // It reads the flags of the near half, which is a timeout monitor, and how that judges.
    Judge {
        expected: Register,
    },
    // The cells of a half are stored: one of them, counted from 1, has a code of its own.
    Store {
        half: Half,
        cell: usize,
        code: Code,
    },
    // A heartbeat, and our host's verdict on it.
    Beat {
        expected: Verdict,
    },
    // A heartbeat of which a bit is turned over on a wire.
    Disturb {
        wire: Wire,
        field: Field,
        expected: Verdict,
    },
    // A heartbeat that our host sleeps through. Nothing leaves the chain.
    Sleep,
    // The near half loses its supply and starts anew.
    LoseSupply,
    // The time for a heartbeat runs out at the near half.
    TimeOut,
}

#[derive(Clone, Copy, Debug, PartialEq, Eq)]
pub(crate) enum Wire {
    BetweenHalves,
    ToHost,
}

// A beat every 8 s that times out after 12 s and goes to port A, with all GPIOs left out; the far half is the manager.
const SETTINGS: &[u8] = b"\x33\x44\x00\x00\xe3\xff\xb3\x44\x00\x00\xe3\xff";

// The same, and the near half is a timeout monitor.
const SETTINGS_WITH_TIMEOUT: &[u8] = b"\x3b\x44\x00\x00\xe3\xff\xb3\x44\x00\x00\xe3\xff";

// 2.1 V and 3.6 V, 2.7 V and 4.2 V, and 0.3 V from beat to beat.
const LIMITS: &[u8] = b"\xfa\xb0\x36\xfa\x00\x00\xf4\x51\x46\xfa\x00\x00";

const ALL_FLAGS: &[u8] = b"\xff\xff\xff\xff";

// The flags of a monitor in LPCM that has none up and has judged no heartbeat.
const IN_LPCM: Register = Register([0x00, 0x83, 0x00, 0x00, 0x00, 0x00]);

const CLEAR_FLAGS: Step = Step::Send {
    command: Command::ClearFlags,
    values: ALL_FLAGS,
    taken: 2,
};

const ENTER_LPCM: Step = Step::Send {
    command: Command::EnterLpcm,
    values: b"",
    taken: 2,
};

const LEAVE_LPCM: Step = Step::Send {
    command: Command::LeaveLpcm,
    values: b"",
    taken: 2,
};

const WRITE_LIMITS: Step = Step::Send {
    command: Command::WriteLimits,
    values: LIMITS,
    taken: 2,
};

pub(crate) const PLAN: [Scene; 16] = [
    Scene {
        says: "Evening. Our host writes the settings, the far half's payload first, and reads them back.",
        steps: &[
            Step::Send {
                command: Command::WriteSettings,
                values: SETTINGS,
                taken: 2,
            },
            Step::Read {
                command: Command::ReadSettings,
                expected: &[
                    (
                        Half::Near,
                        Ok(Register([0x33, 0x44, 0x00, 0x00, 0xe3, 0xff])),
                    ),
                    (
                        Half::Far,
                        Ok(Register([0xb3, 0x44, 0x00, 0x00, 0xe3, 0xff])),
                    ),
                ],
            },
            WRITE_LIMITS,
            Step::Read {
                command: Command::ReadLimits,
                expected: &[
                    (
                        Half::Near,
                        Ok(Register([0xfa, 0xb0, 0x36, 0xfa, 0x00, 0x00])),
                    ),
                    (
                        Half::Far,
                        Ok(Register([0xf4, 0x51, 0x46, 0xfa, 0x00, 0x00])),
                    ),
                ],
            },
            Step::Store {
                half: Half::Near,
                cell: 6,
                code: Code(11400),
            },
            Step::Store {
                half: Half::Far,
                cell: 11,
                code: Code(8400),
            },
        ],
    },
    Scene {
        says: "\nOld flags are cleared, and low power cell monitoring (LPCM) is switched on.",
        steps: &[
            CLEAR_FLAGS,
            ENTER_LPCM,
            Step::Read {
                command: Command::ReadFlags,
                expected: &[(Half::Near, Ok(IN_LPCM)), (Half::Far, Ok(IN_LPCM))],
            },
        ],
    },
    Scene {
        says: "\n\nNight 1. Nothing is the matter.",
        steps: &[Step::Beat {
            expected: Verdict::Passed,
        }],
    },
    Scene {
        says: "\n\nNight 2. A cell of the far half runs low.",
        steps: &[
            Step::Store {
                half: Half::Far,
                cell: 11,
                code: Code(7600),
            },
            Step::Beat {
                expected: Verdict::Failed {
                    count: 0x43,
                    flags: 0x01,
                },
            },
            Step::Read {
                command: Command::ReadFlags,
                expected: &[
                    (Half::Near, Ok(IN_LPCM)),
                    (
                        Half::Far,
                        Ok(Register([0x01, 0x83, 0x00, 0x00, 0x00, 0x00])),
                    ),
                ],
            },
        ],
    },
    Scene {
        says: "\nMorning. The cell is charged and the flags are cleared; in LPCM no write is taken, so CMDIS goes first.",
        steps: &[
            Step::Send {
                command: Command::ClearFlags,
                values: ALL_FLAGS,
                taken: 0,
            },
            LEAVE_LPCM,
            Step::Store {
                half: Half::Far,
                cell: 11,
                code: Code(8400),
            },
            CLEAR_FLAGS,
            ENTER_LPCM,
        ],
    },
    Scene {
        says: "\n\nNight 3. A cell of the near half jumps between two beats, both times within its limits.",
        steps: &[
            Step::Beat {
                expected: Verdict::Passed,
            },
            Step::Store {
                half: Half::Near,
                cell: 6,
                code: Code(13600),
            },
            Step::Beat {
                expected: Verdict::Failed {
                    count: 0x43,
                    flags: 0x08,
                },
            },
            Step::Read {
                command: Command::ReadFlags,
                expected: &[
                    (
                        Half::Near,
                        Ok(Register([0x08, 0x83, 0x00, 0x00, 0x00, 0x00])),
                    ),
                    (Half::Far, Ok(IN_LPCM)),
                ],
            },
        ],
    },
    Scene {
        says: "\nThe cell stays there. The flag stands until it is cleared.",
        steps: &[Step::Beat {
            expected: Verdict::Failed {
                count: 0x43,
                flags: 0x08,
            },
        }],
    },
    Scene {
        says: "\nMorning.",
        steps: &[LEAVE_LPCM, CLEAR_FLAGS, ENTER_LPCM],
    },
    Scene {
        says: "\n\nNight 4. A bit is turned over on the wire between the halves.",
        steps: &[Step::Disturb {
            wire: Wire::BetweenHalves,
            field: Field::Flags,
            expected: Verdict::TimedOut,
        }],
    },
    Scene {
        says: "\nThe next beat. The damaged one has left nothing behind.",
        steps: &[Step::Beat {
            expected: Verdict::Passed,
        }],
    },
    Scene {
        says: "\n\nNight 5. A bit is turned over on the last wire, to the host.",
        steps: &[Step::Disturb {
            wire: Wire::ToHost,
            field: Field::Count,
            expected: Verdict::Damaged,
        }],
    },
    // The near half counts from 0, and our host with it from the first reply on.
    Scene {
        says: "\n\nNight 6. The near half's monitor loses its supply for a moment: its settings are gone, and it is not in LPCM.",
        steps: &[
            Step::LoseSupply,
            Step::Beat {
                expected: Verdict::TimedOut,
            },
            Step::Read {
                command: Command::ReadFlags,
                expected: &[(Half::Near, Err(Unread::OtherCounter(0)))],
            },
            Step::Read {
                command: Command::ReadFlags,
                expected: &[(Half::Near, Ok(Register([0; 6]))), (Half::Far, Ok(IN_LPCM))],
            },
            Step::Read {
                command: Command::ReadSettings,
                expected: &[
                    (Half::Near, Ok(Register([0; 6]))),
                    (
                        Half::Far,
                        Ok(Register([0xb3, 0x44, 0x00, 0x00, 0xe3, 0xff])),
                    ),
                ],
            },
        ],
    },
    Scene {
        says: "\n\nEvening 7. The near half is set up anew, as bridgeless timeout monitor: it sends nothing on, and judges itself.",
        steps: &[
            LEAVE_LPCM,
            Step::Send {
                command: Command::WriteSettings,
                values: SETTINGS_WITH_TIMEOUT,
                taken: 2,
            },
            Step::Read {
                command: Command::ReadSettings,
                expected: &[
                    (
                        Half::Near,
                        Ok(Register([0x3b, 0x44, 0x00, 0x00, 0xe3, 0xff])),
                    ),
                    (
                        Half::Far,
                        Ok(Register([0xb3, 0x44, 0x00, 0x00, 0xe3, 0xff])),
                    ),
                ],
            },
            WRITE_LIMITS,
            Step::Store {
                half: Half::Near,
                cell: 6,
                code: Code(11400),
            },
            CLEAR_FLAGS,
            ENTER_LPCM,
            Step::Judge { expected: IN_LPCM },
        ],
    },
    Scene {
        says: "\nA heartbeat that passes.",
        steps: &[
            Step::Sleep,
            Step::Judge {
                expected: Register([0x00, 0x80, 0x00, 0x00, 0x00, 0x00]),
            },
        ],
    },
    Scene {
        says: "\nThe time runs out.",
        steps: &[
            Step::TimeOut,
            Step::Judge {
                expected: Register([0x00, 0x82, 0x00, 0x00, 0x00, 0x00]),
            },
        ],
    },
    Scene {
        says: "\nA heartbeat that passes.",
        steps: &[
            Step::Sleep,
            Step::Judge {
                expected: Register([0x00, 0x80, 0x00, 0x00, 0x00, 0x00]),
            },
        ],
    },
];
