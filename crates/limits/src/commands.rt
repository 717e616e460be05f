// Each command on two monitors whose bytes differ.
use crate::begun::{UNLOCKED, UNLOCKED_MUTED, ZEROS};
use crate::cases::{FrameCase, READ, TAKEN};
use crate::frames::Body;
use crate::held::Held;

pub(crate) static CASES: [FrameCase; 31] = [
    FrameCase {
        name: "RDCFGA",
        command: 0x0002_2b0a,
        replies: &[0x2122_2324_2526_171d, 0x8d8e_8f90_9192_2444],
        ..READ
    },
    FrameCase {
        name: "RDCFGB",
        command: 0x0026_2cc8,
        replies: &[0x2728_292a_2b2c_16ab, 0x9394_9596_9798_24de],
        ..READ
    },
    FrameCase {
        name: "RDSTATC",
        command: 0x0032_c678,
        replies: &[0x4d4e_4f50_5152_15cd, 0xb9ba_bbbc_bdbe_24a6],
        ..READ
    },
    FrameCase {
        name: "RDSTATD",
        command: 0x0033_4d4a,
        replies: &[0x5354_5556_5758_1557, 0xbfc0_c1c2_c3c4_257b],
        ..READ
    },
    FrameCase {
        name: "RDSID",
        command: 0x002c_5990,
        replies: &[0x5f60_6162_6364_1439, 0xcbcc_cdce_cfd0_2757],
        ..READ
    },
    FrameCase {
        name: "RDRR",
        command: 0x003a_2e76,
        replies: &[0x595a_5b5c_5d5e_15b0, 0xc5c6_c7c8_c9ca_24a1],
        ..READ
    },
    // RDCVA: SNAP_ST is set in the first monitor, which shows its copy, and clear in the second
    FrameCase {
        name: "RDCVA",
        command: 0x0004_07c2,
        replies: &[0x7172_7374_7576_142b, 0x999a_9b9c_9d9e_2439],
        ..READ
    },
    FrameCase {
        name: "RDCVB",
        command: 0x0006_9a94,
        replies: &[0x7778_797a_7b7c_159d, 0x9fa0_a1a2_a3a4_25b0],
        ..READ
    },
    FrameCase {
        name: "RDCVC",
        command: 0x0008_5e52,
        replies: &[0x7d7e_7f80_8182_17ef, 0xa5a6_a7a8_a9aa_2500],
        ..READ
    },
    FrameCase {
        name: "RDCVD",
        command: 0x000a_c304,
        replies: &[0x8384_8586_8788_141d, 0xabac_adae_afb0_26f6],
        ..READ
    },
    FrameCase {
        name: "RDCVE",
        command: 0x0009_d560,
        replies: &[0x898a_8b8c_1d1e_14c6, 0xb1b2_b3b4_b5b6_25a2],
        ..READ
    },
    // RDCVF: cell 16 and then four bytes FF
    FrameCase {
        name: "RDCVF",
        command: 0x000b_4836,
        replies: &[0x1f20_ffff_ffff_15a9, 0xb7b8_ffff_ffff_240e],
        ..READ
    },
    FrameCase {
        name: "RDPWMA",
        command: 0x0022_9d56,
        replies: &[0x6566_6768_696a_1489, 0xd1d2_d3d4_d5d6_2403],
        ..READ
    },
    // RDPWMB: the bytes as they lie
    FrameCase {
        name: "RDPWMB",
        command: 0x0023_1664,
        replies: &[0x6b6c_6d6e_6f70_177f, 0xd7d8_d9da_dbdc_25b5],
        ..READ
    },
    // WRCFGA, ones for monitor 1: the bits outside the masks do not get in, and SNAP_ST stays set. MUTE_ST stays set in monitor 2.
    FrameCase {
        name: "WRCFGA",
        command: 0x0001_3d6e,
        body: Body::Eights([0xffff_ffff_ffff_0196, 0x1234_5678_9abc_01cc]),
        held: Some(Held::Eights(0, [0x87ff_f8ff_032f_2728, 0x0234_5078_021c_9394])),
        ..TAKEN
    },
    FrameCase {
        name: "WRCFGB",
        command: 0x0024_b19e,
        body: Body::Eights([0x0102_0304_0506_0131, 0xe1e2_e3e4_e5e6_02ec]),
        held: Some(Held::Eights(6, [0x0102_0304_0506_2d2e, 0xe1e2_e3e4_e5e6_999a])),
        ..TAKEN
    },
    // CLRFLAG, ones for monitor 2: bytes 2 and 3 and bit 5 of byte 5 stay
    FrameCase {
        name: "CLRFLAG",
        command: 0x0717_e508,
        body: Body::Eights([0x0ff0_ffff_0112_024c, 0xffff_ffff_ffff_0196]),
        held: Some(Held::Eights(44, [0x400e_4f50_5040_5354, 0x0000_bbbc_0020_bfc0])),
        ..TAKEN
    },
    // CLOVUV, ones for monitor 2: bytes 4 and 5 stay
    FrameCase {
        name: "CLOVUV",
        command: 0x0715_785e,
        body: Body::Eights([0x0330_00ff_ffff_03cb, 0xffff_ffff_ffff_0196]),
        held: Some(Held::Eights(50, [0x5044_5500_5758_595a, 0x0000_0000_c3c4_c5c6])),
        ..TAKEN
    },
    // WRPWMA, whose check is 00 00: all six bytes, and group B stays
    FrameCase {
        name: "WRPWMA with the check 00 00",
        command: 0x0020_0000,
        body: Body::Eights([0x0102_0304_0506_0131, 0xe1e2_e3e4_e5e6_02ec]),
        held: Some(Held::Eights(70, [0x0102_0304_0506_6b6c, 0xe1e2_e3e4_e5e6_d7d8])),
        ..TAKEN
    },
    // WRPWMB: two bytes, and the last four become FF, whatever is sent; group A stays
    FrameCase {
        name: "WRPWMB",
        command: 0x0021_8b32,
        body: Body::Eights([0x0102_0304_0506_0131, 0xe1e2_e3e4_e5e6_02ec]),
        held: Some(Held::Eights(74, [0x696a_0102_ffff_ffff, 0xd5d6_e1e2_ffff_ffff])),
        ..TAKEN
    },
    FrameCase {
        name: "WRPWMB, monitors of 0",
        start: ZEROS,
        command: 0x0021_8b32,
        body: Body::Eights([0x0000_0000_0000_03e3, 0xffff_ffff_ffff_0196]),
        counters: [1, 1],
        held: Some(Held::Eights(74, [0x0000_0000_ffff_ffff, 0x0000_ffff_ffff_ffff])),
        ..TAKEN
    },
    // WRRR, locked: taken, and nothing is stored
    FrameCase {
        name: "WRRR, locked",
        command: 0x0039_3812,
        body: Body::Eights([0x0102_0304_0506_0131, 0xe1e2_e3e4_e5e6_02ec]),
        held: Some(Held::Eights(56, [0x595a_5b5c_5d5e_5f60, 0xc5c6_c7c8_c9ca_cbcc])),
        ..TAKEN
    },
    FrameCase {
        name: "ULRR",
        command: 0x0038_b320,
        unlocked: [true, true],
        held: Some(Held::Eights(56, [0x595a_5b5c_5d5e_5f60, 0xc5c6_c7c8_c9ca_cbcc])),
        ..TAKEN
    },
    // WRRR, after ULRR: stored, and locked again
    FrameCase {
        name: "WRRR, after ULRR",
        start: UNLOCKED,
        command: 0x0039_3812,
        body: Body::Eights([0x0102_0304_0506_0131, 0xe1e2_e3e4_e5e6_02ec]),
        counters: [7, 11],
        held: Some(Held::Eights(56, [0x0102_0304_0506_5f60, 0xe1e2_e3e4_e5e6_cbcc])),
        ..TAKEN
    },
    FrameCase {
        name: "MUTE, after ULRR",
        start: UNLOCKED,
        command: 0x0028_e80e,
        counters: [7, 11],
        held: Some(Held::Eights(0, [0x2122_2324_2536_2728, 0x8d8e_8f90_9192_9394])),
        ..TAKEN
    },
    // WRRR, after ULRR and MUTE: the MUTE between them locks, so nothing is stored
    FrameCase {
        name: "WRRR, after ULRR and MUTE",
        start: UNLOCKED_MUTED,
        command: 0x0039_3812,
        body: Body::Eights([0x0102_0304_0506_0131, 0xe1e2_e3e4_e5e6_02ec]),
        counters: [8, 12],
        held: Some(Held::Eights(56, [0x595a_5b5c_5d5e_5f60, 0xc5c6_c7c8_c9ca_cbcc])),
        ..TAKEN
    },
    // RDRR, after ULRR: a read locks too
    FrameCase {
        name: "RDRR, after ULRR",
        start: UNLOCKED,
        command: 0x003a_2e76,
        body: Body::Ones(20),
        replies: &[0x595a_5b5c_5d5e_1821, 0xc5c6_c7c8_c9ca_2930],
        held: Some(Held::Eights(56, [0x595a_5b5c_5d5e_5f60, 0xc5c6_c7c8_c9ca_cbcc])),
        ..TAKEN
    },
    // MUTE: MUTE_ST is bit 4 of byte 5. It was set in monitor 2 alone.
    FrameCase {
        name: "MUTE",
        command: 0x0028_e80e,
        held: Some(Held::Eights(0, [0x2122_2324_2536_2728, 0x8d8e_8f90_9192_9394])),
        ..TAKEN
    },
    FrameCase {
        name: "UNMUTE",
        command: 0x0029_633c,
        held: Some(Held::Eights(0, [0x2122_2324_2526_2728, 0x8d8e_8f90_9182_9394])),
        ..TAKEN
    },
    FrameCase {
        name: "RSTCC",
        command: 0x002e_c4c6,
        counters: [0, 0],
        held: Some(Held::Eights(0, [0x2122_2324_2526_2728, 0x8d8e_8f90_9192_9394])),
        ..TAKEN
    },
    FrameCase {
        name: "CLRCELL",
        command: 0x0711_c9c0,
        held: Some(Held::Cells([0x0080, 0x0080])),
        ..TAKEN
    },
];
