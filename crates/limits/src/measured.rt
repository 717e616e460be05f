// Whole heartbeats of a monitor that has limits, at its cell 1.
use crate::beats::{Beat, PASSED, Patch};
use messages::Verdict;

// Monitor 1 has a cell below CUV.
const UNDER: Beat = Beat {
    handed_out: Some(0x0043_47b2_4301_0031),
    verdict: Some(Verdict::Failed {
        count: 0x43,
        flags: 0x01,
    }),
    ..PASSED
};

// Monitor 1 has a cell above COV.
const OVER: Beat = Beat {
    handed_out: Some(0x0043_47b2_4302_01e7),
    verdict: Some(Verdict::Failed {
        count: 0x43,
        flags: 0x02,
    }),
    ..PASSED
};

// Monitor 1 has a cell that has fallen by more than CDV.
const FALLEN: Beat = Beat {
    handed_out: Some(0x0043_47b2_4304_024b),
    verdict: Some(Verdict::Failed {
        count: 0x43,
        flags: 0x04,
    }),
    ..PASSED
};

// Monitor 1 has a cell that has risen by more than CDV.
const RISEN: Beat = Beat {
    handed_out: Some(0x0043_47b2_4308_019c),
    verdict: Some(Verdict::Failed {
        count: 0x43,
        flags: 0x08,
    }),
    ..PASSED
};

pub(crate) static CASES: [Beat; 22] = [
    // what monitor 1 measures: cell 1 at its limits, all others being 0, as is the last measurement where nothing is said
    Beat {
        note: ", CUV -1, code -16",
        before: &[Patch(120, b"\xff\x0f\x00\xff\x0f"), Patch(12, b"\xf0\xff")],
        after: &[Patch(138, b"\xf0\xff")],
        ..PASSED
    },
    Beat {
        note: ", CUV -1, code -17",
        before: &[Patch(120, b"\xff\x0f\x00\xff\x0f"), Patch(12, b"\xef\xff")],
        after: &[Patch(132, b"\x01"), Patch(138, b"\xef\xff")],
        ..UNDER
    },
    Beat {
        note: ", COV 100, code 1600",
        before: &[Patch(120, b"\x00\x40\x06\xff\x0f"), Patch(12, b"\x40\x06")],
        after: &[Patch(138, b"\x40\x06")],
        ..PASSED
    },
    Beat {
        note: ", COV 100, code 1601",
        before: &[Patch(120, b"\x00\x40\x06\xff\x0f"), Patch(12, b"\x41\x06")],
        after: &[Patch(132, b"\x02"), Patch(138, b"\x41\x06")],
        ..OVER
    },
    Beat {
        note: ", COV 2047, code 32752",
        before: &[
            Patch(120, b"\x00\xf0\x7f\xff\x0f"),
            Patch(12, b"\xf0\x7f"),
            Patch(138, b"\xf0\x7f"),
        ],
        ..PASSED
    },
    Beat {
        note: ", COV 2047, code 32753",
        before: &[
            Patch(120, b"\x00\xf0\x7f\xff\x0f"),
            Patch(12, b"\xf1\x7f"),
            Patch(138, b"\xf0\x7f"),
        ],
        after: &[Patch(132, b"\x02"), Patch(138, b"\xf1\x7f")],
        ..OVER
    },
    Beat {
        note: ", CDV 1, code 8",
        before: &[Patch(120, b"\x00\xf8\x7f\x01\x00"), Patch(12, b"\x08\x00")],
        after: &[Patch(138, b"\x08\x00")],
        ..PASSED
    },
    Beat {
        note: ", CDV 1, code 9",
        before: &[Patch(120, b"\x00\xf8\x7f\x01\x00"), Patch(12, b"\x09\x00")],
        after: &[Patch(132, b"\x08"), Patch(138, b"\x09\x00")],
        ..RISEN
    },
    Beat {
        note: ", CDV 1, code -8",
        before: &[Patch(120, b"\x00\xf8\x7f\x01\x00"), Patch(12, b"\xf8\xff")],
        after: &[Patch(138, b"\xf8\xff")],
        ..PASSED
    },
    Beat {
        note: ", CDV 1, code -9",
        before: &[Patch(120, b"\x00\xf8\x7f\x01\x00"), Patch(12, b"\xf7\xff")],
        after: &[Patch(132, b"\x04"), Patch(138, b"\xf7\xff")],
        ..FALLEN
    },
    Beat {
        note: ", CDV 0, code 1",
        before: &[Patch(120, b"\x00\xf8\x7f\x00\x00"), Patch(12, b"\x01\x00")],
        after: &[Patch(132, b"\x08"), Patch(138, b"\x01\x00")],
        ..RISEN
    },
    Beat {
        note: ", CDV 0, code -1",
        before: &[Patch(120, b"\x00\xf8\x7f\x00\x00"), Patch(12, b"\xff\xff")],
        after: &[Patch(132, b"\x04"), Patch(138, b"\xff\xff")],
        ..FALLEN
    },
    Beat {
        note: ", CDV 2048, code 16384",
        before: &[Patch(120, b"\x00\xf8\x7f\x00\x08"), Patch(12, b"\x00\x40")],
        after: &[Patch(138, b"\x00\x40")],
        ..PASSED
    },
    Beat {
        note: ", CDV 2048, code 16385",
        before: &[Patch(120, b"\x00\xf8\x7f\x00\x08"), Patch(12, b"\x01\x40")],
        after: &[Patch(132, b"\x08"), Patch(138, b"\x01\x40")],
        ..RISEN
    },
    Beat {
        note: ", CDV 4095, last -32768, code -8",
        before: &[
            Patch(120, b"\x00\xf8\x7f\xff\x0f"),
            Patch(12, b"\xf8\xff"),
            Patch(138, b"\x00\x80"),
        ],
        after: &[Patch(138, b"\xf8\xff")],
        ..PASSED
    },
    Beat {
        note: ", CDV 4095, last -32768, code -7",
        before: &[
            Patch(120, b"\x00\xf8\x7f\xff\x0f"),
            Patch(12, b"\xf9\xff"),
            Patch(138, b"\x00\x80"),
        ],
        after: &[Patch(132, b"\x08"), Patch(138, b"\xf9\xff")],
        ..RISEN
    },
    Beat {
        note: ", CDV 4095, last 32752, code -8",
        before: &[
            Patch(120, b"\x00\xf8\x7f\xff\x0f"),
            Patch(12, b"\xf8\xff"),
            Patch(138, b"\xf0\x7f"),
        ],
        after: &[Patch(138, b"\xf8\xff")],
        ..PASSED
    },
    Beat {
        note: ", CDV 4095, last 32752, code -9",
        before: &[
            Patch(120, b"\x00\xf8\x7f\xff\x0f"),
            Patch(12, b"\xf7\xff"),
            Patch(138, b"\xf0\x7f"),
        ],
        after: &[Patch(132, b"\x04"), Patch(138, b"\xf7\xff")],
        ..FALLEN
    },
    Beat {
        note: ", CDV 4095, last -32768, code 32767",
        before: &[
            Patch(120, b"\x00\xf8\x7f\xff\x0f"),
            Patch(12, b"\xff\x7f"),
            Patch(138, b"\x00\x80"),
        ],
        handed_out: Some(0x0043_47b2_430a_037d),
        verdict: Some(Verdict::Failed {
            count: 0x43,
            flags: 0x0a,
        }),
        after: &[Patch(132, b"\x0a"), Patch(138, b"\xff\x7f")],
        ..PASSED
    },
    Beat {
        note: ", CDV 4095, last 32767, code -32768",
        before: &[
            Patch(120, b"\x00\xf8\x7f\xff\x0f"),
            Patch(12, b"\x00\x80"),
            Patch(138, b"\xff\x7f"),
        ],
        after: &[Patch(132, b"\x04"), Patch(138, b"\x00\x80")],
        ..FALLEN
    },
    // a cleared cell is a code like any other
    Beat {
        note: ", CUV -2048, cleared before and after",
        before: &[
            Patch(120, b"\x00\xf8\x7f\xff\x0f"),
            Patch(12, b"\x00\x80"),
            Patch(138, b"\x00\x80"),
        ],
        ..PASSED
    },
    Beat {
        note: ", CUV -2047, cleared before and after",
        before: &[
            Patch(120, b"\x01\xf8\x7f\xff\x0f"),
            Patch(12, b"\x00\x80"),
            Patch(138, b"\x00\x80"),
        ],
        after: &[Patch(132, b"\x01")],
        ..UNDER
    },
];
