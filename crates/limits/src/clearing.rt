// A clear of the flags that a load has set.
use crate::cases::{FrameCase, TAKEN};
use crate::codes::VUV_0_VOV_100;
use crate::deeds::{CODE_1600_AT_6, CODE_1601_AT_6, Deed};
use crate::frames::Body;
use crate::held::Held;
use crate::starts::{Start, Step};

// Code 1601 for cell 6 of monitor 2, and then 1600.
const LOADED_TWICE: Start = Start::Zeros(&[
    VUV_0_VOV_100,
    Step::Codes(Deed::Load(2, CODE_1601_AT_6)),
    Step::Codes(Deed::Load(2, CODE_1600_AT_6)),
]);

pub(crate) static CASES: [FrameCase; 1] = [FrameCase {
    name: "CLOVUV, then",
    start: LOADED_TWICE,
    command: 0x0715_785e,
    body: Body::Eights([0x0000_0000_0000_03e3, 0x0008_0000_0000_003c]),
    counters: [2, 2],
    held: Some(Held::Eights(50, [0x0000_0000_0000_0000, 0x0000_0000_0000_0000])),
    ..TAKEN
}];
