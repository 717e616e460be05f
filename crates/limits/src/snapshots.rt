// Snapshots.
use crate::begun::{SNAP_CLEARED, SNAP_LOADED, SNAP_LOADED_UNSNAP, UNLOCKED};
use crate::cases::{FrameCase, READ, TAKEN};
use crate::held::{Copied, Held};

pub(crate) static CASES: [FrameCase; 14] = [
    // SNAP: SNAP_ST is bit 5 of byte 5. It was set in monitor 1 alone, which keeps its copy
    FrameCase {
        name: "SNAP",
        command: 0x002d_d2a2,
        held: Some(Held::Eights(0, [0x2122_2324_2526_2728, 0x8d8e_8f90_91b2_9394])),
        copied: Copied::SecondAt82,
        ..TAKEN
    },
    // SNAP, after SNAP and CLRCELL: it counts, and nothing is copied
    FrameCase {
        name: "SNAP, after SNAP and CLRCELL",
        start: SNAP_CLEARED,
        command: 0x002d_d2a2,
        counters: [8, 12],
        held: Some(Held::Eights(0, [0x2122_2324_2526_2728, 0x8d8e_8f90_91b2_9394])),
        ..TAKEN
    },
    // each cell read, after SNAP and CLRCELL: the cells of monitor 2 as they were at the SNAP
    FrameCase {
        name: "RDCVA, after SNAP and CLRCELL",
        start: SNAP_CLEARED,
        command: 0x0004_07c2,
        replies: &[0x7172_7374_7576_1d35, 0x999a_9b9c_9d9e_2d27],
        counters: [7, 11],
        ..READ
    },
    FrameCase {
        name: "RDCVB, after SNAP and CLRCELL",
        start: SNAP_CLEARED,
        command: 0x0006_9a94,
        replies: &[0x7778_797a_7b7c_1c83, 0x9fa0_a1a2_a3a4_2cae],
        counters: [7, 11],
        ..READ
    },
    FrameCase {
        name: "RDCVC, after SNAP and CLRCELL",
        start: SNAP_CLEARED,
        command: 0x0008_5e52,
        replies: &[0x7d7e_7f80_8182_1ef1, 0xa5a6_a7a8_a9aa_2c1e],
        counters: [7, 11],
        ..READ
    },
    FrameCase {
        name: "RDCVD, after SNAP and CLRCELL",
        start: SNAP_CLEARED,
        command: 0x000a_c304,
        replies: &[0x8384_8586_8788_1d03, 0xabac_adae_afb0_2fe8],
        counters: [7, 11],
        ..READ
    },
    FrameCase {
        name: "RDCVE, after SNAP and CLRCELL",
        start: SNAP_CLEARED,
        command: 0x0009_d560,
        replies: &[0x898a_8b8c_1d1e_1dd8, 0xb1b2_b3b4_b5b6_2cbc],
        counters: [7, 11],
        ..READ
    },
    FrameCase {
        name: "RDCVF, after SNAP and CLRCELL",
        start: SNAP_CLEARED,
        command: 0x000b_4836,
        replies: &[0x1f20_ffff_ffff_1cb7, 0xb7b8_ffff_ffff_2d10],
        counters: [7, 11],
        ..READ
    },
    // RDSTATD, after SNAP and a load of sixteen codes 800 in monitor 2, below 16 times 0493 and above 16 times -06a7: status D is live
    FrameCase {
        name: "RDSTATD, after SNAP and a load at position 2",
        start: SNAP_LOADED,
        command: 0x0033_4d4a,
        replies: &[0x5354_5556_5758_18c6, 0xffff_ffff_c3c4_2beb],
        counters: [6, 10],
        ..READ
    },
    // RDCVA, the same
    FrameCase {
        name: "RDCVA, after SNAP and a load at position 2",
        start: SNAP_LOADED,
        command: 0x0004_07c2,
        replies: &[0x7172_7374_7576_19ba, 0x999a_9b9c_9d9e_29a8],
        counters: [6, 10],
        ..READ
    },
    // UNSNAP: it was set in monitor 1 alone
    FrameCase {
        name: "UNSNAP",
        command: 0x002f_4ff4,
        held: Some(Held::Eights(0, [0x2122_2324_2506_2728, 0x8d8e_8f90_9192_9394])),
        ..TAKEN
    },
    // RDCVA, after SNAP, that load and UNSNAP: the live cells
    FrameCase {
        name: "RDCVA, after SNAP, a load at position 2 and UNSNAP",
        start: SNAP_LOADED_UNSNAP,
        command: 0x0004_07c2,
        replies: &[0x2d2e_2f30_3132_1d72, 0x2003_2003_2003_2d72],
        counters: [7, 11],
        ..READ
    },
    // both, after ULRR: they lock
    FrameCase {
        name: "SNAP, after ULRR",
        start: UNLOCKED,
        command: 0x002d_d2a2,
        counters: [7, 11],
        held: Some(Held::Eights(0, [0x2122_2324_2526_2728, 0x8d8e_8f90_91b2_9394])),
        copied: Copied::SecondAt82,
        ..TAKEN
    },
    FrameCase {
        name: "UNSNAP, after ULRR",
        start: UNLOCKED,
        command: 0x002f_4ff4,
        counters: [7, 11],
        held: Some(Held::Eights(0, [0x2122_2324_2506_2728, 0x8d8e_8f90_9192_9394])),
        ..TAKEN
    },
];
