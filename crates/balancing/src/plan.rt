// What is done with the cabinet, step by step, and what is expected of its halves.

use crate::commands::Command;
use crate::fifteenths::Fifteenths;
use crate::halves::Halves;
use crate::outputs::{Output, Outputs, Row};
use priorities::Events;

// A step, and what is said before it.
#[derive(Clone, Copy)]
pub(crate) struct Step {
    pub(crate) says: &'static str,
    pub(crate) does: Deed,
}

#[derive(Clone, Copy)]
pub(crate) enum Deed {
    // Our host sends a command, in a write with six bytes for each monitor, the near half's first.
    Send {
        command: Command,
        values: &'static [u8],
    },
    Ask(Question),
}

// What is asked of each half, and what is expected.
#[derive(Clone, Copy)]
pub(crate) enum Question {
    // Which outputs are on, and by which rows?
    Outputs {
        events: Events,
        phase: u8,
        expected: Halves<Outputs>,
    },
    // In how many of the fifteen phases is each output on?
    Phases {
        expected: Halves<Fifteenths>,
    },
    // What does the licence portal see?
    Portal {
        expected: Halves<Outputs>,
    },
}

// The duties that are ordered.
pub(crate) const DUTIES: Halves<Fifteenths> = Halves {
    near: Fifteenths([4, 2, 0, 15, 8, 0, 1, 3, 0, 10, 1, 2, 0, 5, 12, 1]),
    far: Fifteenths([8, 3, 1, 14, 0, 5, 2, 11, 1, 7, 0, 2, 9, 0, 4, 2]),
};

// Nothing else goes on.
pub(crate) const QUIET: Events = Events {
    shutdown: false,
    measurement: false,
    wrcfgb: false,
    wrpwm: false,
};

// On or off by its duty.
const ON: Output = Output::On(Row::Pwm);

const OFF: Output = Output::Off(Row::Pwm);

// Held on by its DCC bit.
const HELD: Output = Output::On(Row::DccBit);

// Off while a measurement pauses discharge, and while a PWM group is being written.
const PAUSED: Output = Output::Off(Row::Measurement);

const WRITTEN: Output = Output::Off(Row::PwmGroupWritten);

// At phase 0 an output is on where the duty is not 0, and that of cell 13 of the far half by its DCC bit.
pub(crate) const RUNNING: Halves<Outputs> = Halves {
    near: Outputs([
        ON, ON, OFF, ON, ON, OFF, ON, ON, OFF, ON, ON, ON, OFF, ON, ON, ON,
    ]),
    far: Outputs([
        ON, ON, ON, ON, OFF, ON, ON, ON, ON, ON, OFF, ON, HELD, OFF, ON, ON,
    ]),
};

pub(crate) const MUTED: Halves<Outputs> = Halves {
    near: Outputs([Output::Off(Row::Mute); 16]),
    far: Outputs([Output::Off(Row::Mute); 16]),
};

pub(crate) const PLAN: [Step; 17] = [
    // The duties, the thresholds and the DCC bit are written. The odd cell's duty is the low half of a byte. The last four bytes of PWM group B
    // are fixed, whatever is sent. Configuration B has the thresholds, and the DCC bit of cell 13 of the far half.
    Step {
        says: "",
        does: Deed::Send {
            command: Command::WritePwmA,
            values: b"\x24\xf0\x08\x31\xa0\x21\x38\xe1\x50\xb2\x71\x20",
        },
    },
    Step {
        says: "",
        does: Deed::Send {
            command: Command::WritePwmB,
            values: b"\x50\x1c\x00\x00\x00\x00\x09\x24\x00\x00\x00\x00",
        },
    },
    Step {
        says: "",
        does: Deed::Send {
            command: Command::WriteConfigurationB,
            values: b"\xfa\xb0\x36\x00\x00\x00\xf4\x51\x46\x00\x00\x10",
        },
    },
    Step {
        says: "\n\nOutputs by cells, and the rows of Table 27 that decided them. Phase 0:",
        does: Deed::Ask(Question::Outputs {
            events: QUIET,
            phase: 0,
            expected: RUNNING,
        }),
    },
    Step {
        says: "\nPhase 7:",
        does: Deed::Ask(Question::Outputs {
            events: QUIET,
            phase: 7,
            expected: Halves {
                near: Outputs([
                    OFF, OFF, OFF, ON, ON, OFF, OFF, OFF, OFF, ON, OFF, OFF, OFF, OFF, ON, OFF,
                ]),
                far: Outputs([
                    ON, OFF, OFF, ON, OFF, OFF, OFF, ON, OFF, OFF, OFF, OFF, HELD, OFF, OFF, OFF,
                ]),
            },
        }),
    },
    Step {
        says: "\nPhase 14:",
        does: Deed::Ask(Question::Outputs {
            events: QUIET,
            phase: 14,
            expected: Halves {
                near: Outputs([
                    OFF, OFF, OFF, ON, OFF, OFF, OFF, OFF, OFF, OFF, OFF, OFF, OFF, OFF, OFF, OFF,
                ]),
                far: Outputs([
                    OFF, OFF, OFF, OFF, OFF, OFF, OFF, OFF, OFF, OFF, OFF, OFF, HELD, OFF, OFF, OFF,
                ]),
            },
        }),
    },
    // DCC goes before a measurement and before a PWM group that is being written.
    Step {
        says: "\nPhase 0, during a measurement that pauses discharge:",
        does: Deed::Ask(Question::Outputs {
            events: Events {
                measurement: true,
                ..QUIET
            },
            phase: 0,
            expected: Halves {
                near: Outputs([PAUSED; 16]),
                far: Outputs([
                    PAUSED, PAUSED, PAUSED, PAUSED, PAUSED, PAUSED, PAUSED, PAUSED, PAUSED, PAUSED,
                    PAUSED, PAUSED, HELD, PAUSED, PAUSED, PAUSED,
                ]),
            },
        }),
    },
    Step {
        says: "\nPhase 0, while a PWM group is being written:",
        does: Deed::Ask(Question::Outputs {
            events: Events {
                wrpwm: true,
                ..QUIET
            },
            phase: 0,
            expected: Halves {
                near: Outputs([WRITTEN; 16]),
                far: Outputs([
                    WRITTEN, WRITTEN, WRITTEN, WRITTEN, WRITTEN, WRITTEN, WRITTEN, WRITTEN,
                    WRITTEN, WRITTEN, WRITTEN, WRITTEN, HELD, WRITTEN, WRITTEN, WRITTEN,
                ]),
            },
        }),
    },
    Step {
        says: "\nPhase 0, while configuration B is being written:",
        does: Deed::Ask(Question::Outputs {
            events: Events {
                wrcfgb: true,
                ..QUIET
            },
            phase: 0,
            expected: Halves {
                near: Outputs([Output::Off(Row::ConfigurationBWritten); 16]),
                far: Outputs([Output::Off(Row::ConfigurationBWritten); 16]),
            },
        }),
    },
    Step {
        says: "\nPhase 0, at thermal shutdown:",
        does: Deed::Ask(Question::Outputs {
            events: Events {
                shutdown: true,
                ..QUIET
            },
            phase: 0,
            expected: Halves {
                near: Outputs([Output::Off(Row::ThermalShutdown); 16]),
                far: Outputs([Output::Off(Row::ThermalShutdown); 16]),
            },
        }),
    },
    Step {
        says: "\nOf fifteen phases a cell is on in as many as its duty, and with its DCC bit set in all:",
        does: Deed::Ask(Question::Phases {
            expected: Halves {
                near: Fifteenths([4, 2, 0, 15, 8, 0, 1, 3, 0, 10, 1, 2, 0, 5, 12, 1]),
                far: Fifteenths([8, 3, 1, 14, 0, 5, 2, 11, 1, 7, 0, 2, 15, 0, 4, 2]),
            },
        }),
    },
    Step {
        says: "\n\nMuted.",
        does: Deed::Send {
            command: Command::Mute,
            values: b"",
        },
    },
    Step {
        says: "\nPhase 0:",
        does: Deed::Ask(Question::Outputs {
            events: QUIET,
            phase: 0,
            expected: MUTED,
        }),
    },
    Step {
        says: "\nThe licence portal sees, at phase 0:",
        does: Deed::Ask(Question::Portal { expected: MUTED }),
    },
    Step {
        says: "\n\nNo longer muted.",
        does: Deed::Send {
            command: Command::Unmute,
            values: b"",
        },
    },
    Step {
        says: "\nPhase 0:",
        does: Deed::Ask(Question::Outputs {
            events: QUIET,
            phase: 0,
            expected: RUNNING,
        }),
    },
    Step {
        says: "\nThe licence portal sees, at phase 0:",
        does: Deed::Ask(Question::Portal { expected: RUNNING }),
    },
];
