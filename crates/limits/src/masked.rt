// Whole heartbeats of a monitor that masks cells, or has something else in its status or its flags.
use crate::beats::{Beat, PASSED, Patch};
use messages::Verdict;

// Monitor 1 has a cell below CUV.
const UNDER: Beat = Beat {
    handed_out: Some(0x0043_47b2_4301_0031),
    verdict: Some(Verdict::Failed {
        count: 0x43,
        flags: 0x01,
    }),
    ..PASSED
};

// Monitor 1 sets every flag.
const ALL_FLAGS: Beat = Beat {
    handed_out: Some(0x0043_47b2_43ff_01e0),
    verdict: Some(Verdict::Failed {
        count: 0x43,
        flags: 0xff,
    }),
    ..PASSED
};

pub(crate) static CASES: [Beat; 21] = [
    // masks: a masked cell violates nothing, and is remembered
    Beat {
        note: ", CUV -1, code -17, cell 1 masked",
        before: &[
            Patch(120, b"\xff\x0f\x00\xff\x0f"),
            Patch(12, b"\xef\xff"),
            Patch(116, b"\x01"),
        ],
        after: &[Patch(138, b"\xef\xff")],
        ..PASSED
    },
    Beat {
        note: ", CUV -1, code -17, every other masked",
        before: &[
            Patch(120, b"\xff\x0f\x00\xff\x0f"),
            Patch(12, b"\xef\xff"),
            Patch(116, b"\xfe\xff\xdf\xff"),
        ],
        after: &[Patch(132, b"\x01"), Patch(138, b"\xef\xff")],
        ..UNDER
    },
    Beat {
        note: ", CUV -1, cell 8 of code -17, cells 1 to 8 masked",
        before: &[
            Patch(120, b"\xff\x0f\x00\xff\x0f"),
            Patch(26, b"\xef\xff"),
            Patch(116, b"\xff\x00"),
        ],
        after: &[Patch(152, b"\xef\xff")],
        ..PASSED
    },
    Beat {
        note: ", CUV -1, cell 9 of code -17, cells 1 to 8 masked",
        before: &[
            Patch(120, b"\xff\x0f\x00\xff\x0f"),
            Patch(28, b"\xef\xff"),
            Patch(116, b"\xff\x00"),
        ],
        after: &[Patch(132, b"\x01"), Patch(154, b"\xef\xff")],
        ..UNDER
    },
    Beat {
        note: ", CUV -1, cell 16 of code -17, cell 16 masked",
        before: &[
            Patch(120, b"\xff\x0f\x00\xff\x0f"),
            Patch(42, b"\xef\xff"),
            Patch(117, b"\x80"),
        ],
        after: &[Patch(168, b"\xef\xff")],
        ..PASSED
    },
    Beat {
        note: ", CUV -1, cell 16 of code -17, every other masked",
        before: &[
            Patch(120, b"\xff\x0f\x00\xff\x0f"),
            Patch(42, b"\xef\xff"),
            Patch(116, b"\xff\x7f\xdf\xff"),
        ],
        after: &[Patch(132, b"\x01"), Patch(168, b"\xef\xff")],
        ..UNDER
    },
    // diagnostics pending in status C make all eight, and no other bit of it does; GPIO thresholds do nothing
    Beat {
        note: ", status C bytes 4 and 5 0f 2c",
        before: &[Patch(48, b"\x0f\x2c")],
        ..PASSED
    },
    Beat {
        note: ", status C bytes 4 and 5 10 00",
        before: &[Patch(48, b"\x10\x00")],
        after: &[Patch(132, b"\xff")],
        ..ALL_FLAGS
    },
    Beat {
        note: ", status C bytes 4 and 5 20 00",
        before: &[Patch(48, b"\x20\x00")],
        after: &[Patch(132, b"\xff")],
        ..ALL_FLAGS
    },
    Beat {
        note: ", status C bytes 4 and 5 40 00",
        before: &[Patch(48, b"\x40\x00")],
        after: &[Patch(132, b"\xff")],
        ..ALL_FLAGS
    },
    Beat {
        note: ", status C bytes 4 and 5 80 00",
        before: &[Patch(48, b"\x80\x00")],
        after: &[Patch(132, b"\xff")],
        ..ALL_FLAGS
    },
    Beat {
        note: ", status C bytes 4 and 5 00 01",
        before: &[Patch(48, b"\x00\x01")],
        after: &[Patch(132, b"\xff")],
        ..ALL_FLAGS
    },
    Beat {
        note: ", status C bytes 4 and 5 00 02",
        before: &[Patch(48, b"\x00\x02")],
        after: &[Patch(132, b"\xff")],
        ..ALL_FLAGS
    },
    Beat {
        note: ", status C bytes 4 and 5 00 10",
        before: &[Patch(48, b"\x00\x10")],
        after: &[Patch(132, b"\xff")],
        ..ALL_FLAGS
    },
    Beat {
        note: ", status C bytes 4 and 5 00 40",
        before: &[Patch(48, b"\x00\x40")],
        after: &[Patch(132, b"\xff")],
        ..ALL_FLAGS
    },
    Beat {
        note: ", status C bytes 4 and 5 00 80",
        before: &[Patch(48, b"\x00\x80")],
        after: &[Patch(132, b"\xff")],
        ..ALL_FLAGS
    },
    Beat {
        note: ", status C bytes 4 and 5 80 00, all cells masked",
        before: &[Patch(48, b"\x80\x00"), Patch(116, b"\xff\xff")],
        after: &[Patch(132, b"\xff")],
        ..ALL_FLAGS
    },
    Beat {
        note: ", every bit of the GPIO thresholds and of status C bytes 0 to 3",
        before: &[
            Patch(126, b"\xff\xff\xff\xff\x0f"),
            Patch(44, b"\xff\xff\xff\xff"),
        ],
        ..PASSED
    },
    // flags stay, and join
    Beat {
        note: ", CMF0 01",
        before: &[Patch(132, b"\x01")],
        ..UNDER
    },
    Beat {
        note: ", CMF0 80, CUV -1, code -17",
        before: &[
            Patch(132, b"\x80"),
            Patch(120, b"\xff\x0f\x00\xff\x0f"),
            Patch(12, b"\xef\xff"),
        ],
        handed_out: Some(0x0043_47b2_4381_0078),
        verdict: Some(Verdict::Failed {
            count: 0x43,
            flags: 0x81,
        }),
        after: &[Patch(132, b"\x81"), Patch(138, b"\xef\xff")],
        ..PASSED
    },
    Beat {
        note: ", CMF0 10 in monitor 2, CUV -1, code -17",
        before: &[
            Patch(302, b"\x10"),
            Patch(120, b"\xff\x0f\x00\xff\x0f"),
            Patch(12, b"\xef\xff"),
        ],
        handed_out: Some(0x0043_47b2_4411_0274),
        verdict: Some(Verdict::Failed {
            count: 0x44,
            flags: 0x11,
        }),
        after: &[Patch(132, b"\x01"), Patch(138, b"\xef\xff")],
        ..PASSED
    },
];
