// The four plays: what is sent in each, and what is expected of it.
use crate::half::{Half, Owner};
use crate::seen::Found;
use ports::Port;

pub(crate) struct Play {
    pub heading: &'static str,
    // The half whose thresholds are sent to monitor 1, and to monitor 2.
    pub sent: [Half; 2],
    // What a spike turns over of the third byte for the far half.
    pub spike: u8,
    // How many monitors take the write.
    pub takers: usize,
    pub near: Due,
    pub far: Due,
    // Is the whole pack said too?
    pub says_pack: bool,
    // What is said where both halves are as expected.
    pub closing: &'static str,
}

// The counter that our host expects of a half, and what is to be found there.
#[derive(Clone, Copy)]
pub(crate) struct Due {
    pub counter: u8,
    pub found: Found,
}

// Our host, and a cabinet of its own.
pub(crate) const IN_OUR_ORDER: Play = Play {
    heading: "Our host sends the far monitor's payload first, as the chain wants it.",
    sent: [Half::Near, Half::Far],
    spike: 0,
    takers: 2,
    near: Due {
        counter: 1,
        found: Found {
            counter: Some(1),
            port: Some(Port::A(false)),
            owner: Owner::Own,
            flagged: 0,
            wrong: 0,
        },
    },
    far: Due {
        counter: 1,
        found: Found {
            counter: Some(1),
            port: Some(Port::B(false)),
            owner: Owner::Own,
            flagged: 1,
            wrong: 0,
        },
    },
    says_pack: true,
    closing: "",
};

// The old bench, and the old cabinet. In list order no flag is up, and one cell of the far half should have one.
pub(crate) const IN_LIST_ORDER: Play = Play {
    heading: "The old bench sent the same two payloads in list order, the near monitor's first.",
    sent: [Half::Far, Half::Near],
    spike: 0,
    takers: 2,
    near: Due {
        counter: 1,
        found: Found {
            counter: Some(1),
            port: Some(Port::A(false)),
            owner: Owner::Other,
            flagged: 0,
            wrong: 0,
        },
    },
    far: Due {
        counter: 1,
        found: Found {
            counter: Some(1),
            port: Some(Port::B(false)),
            owner: Owner::Other,
            flagged: 0,
            wrong: 1,
        },
    },
    says_pack: false,
    closing: "no flag is up in either half: the low cell of the far half goes unseen\n",
};

// The far half misses the write, so all there stays as it was, also its counter.
pub(crate) const WITH_A_SPIKE: Play = Play {
    heading: "Our host sends the right ones to that cabinet, and a spike turns over four bits for the far half. \
        The bench tells who takes it, and no host.",
    sent: [Half::Near, Half::Far],
    // Four bits in a row.
    spike: 0x3c,
    takers: 1,
    near: Due {
        counter: 2,
        found: Found {
            counter: Some(2),
            port: Some(Port::A(false)),
            owner: Owner::Own,
            flagged: 0,
            wrong: 0,
        },
    },
    far: Due {
        counter: 2,
        found: Found {
            counter: Some(1),
            port: Some(Port::B(true)),
            owner: Owner::Other,
            flagged: 0,
            wrong: 1,
        },
    },
    says_pack: false,
    closing: "no flag is up, and the bytes that our host goes by are not damaged: the low cell goes unseen, \
        and the counter of the far half alone tells why\n",
};

// Of the far half our host expects one more than was read of it last.
pub(crate) const MENDED: Play = Play {
    heading: "Our host sends them again, and counts on from each half's own counter.",
    sent: [Half::Near, Half::Far],
    spike: 0,
    takers: 2,
    near: Due {
        counter: 3,
        found: Found {
            counter: Some(3),
            port: Some(Port::A(false)),
            owner: Owner::Own,
            flagged: 0,
            wrong: 0,
        },
    },
    far: Due {
        counter: 2,
        found: Found {
            counter: Some(2),
            port: Some(Port::B(false)),
            owner: Owner::Own,
            flagged: 1,
            wrong: 0,
        },
    },
    says_pack: false,
    closing: "",
};
