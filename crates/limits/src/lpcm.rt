// Low power cell monitoring.
use crate::begun::{CMEN_CLEARED, CMEN_CMDIS, CMEN_UNLOCKED, FIRST_IN_LPCM, LATE, UNLOCKED};
use crate::cases::{FrameCase, READ, TAKEN};
use crate::frames::Body;
use crate::held::{Copied, Held};

pub(crate) static CASES: [FrameCase; 44] = [
    FrameCase {
        name: "RDCMCFG",
        command: 0x0059_69c4,
        replies: &[0x8d8e_8f90_9192_168f, 0x2122_2324_2526_25d6],
        ..READ
    },
    FrameCase {
        name: "RDCMCELLT",
        command: 0x005b_f492,
        replies: &[0x9394_9596_9798_1615, 0x2728_292a_2b2c_2460],
        ..READ
    },
    FrameCase {
        name: "RDCMGPIOT",
        command: 0x005d_d85a,
        replies: &[0x999a_9b9c_9d9e_16f2, 0x2d2e_2f30_3132_26a7],
        ..READ
    },
    // RDCMFLAG: CMF0 to CMF5
    FrameCase {
        name: "RDCMFLAG",
        command: 0x005f_450c,
        replies: &[0x9f1a_1b1c_a0a1_15fd, 0x3334_3536_3738_263d],
        ..READ
    },
    // WRCMCFG: all six bytes
    FrameCase {
        name: "WRCMCFG",
        command: 0x0058_e2f6,
        body: Body::Eights([0xffff_ffff_ffff_0196, 0xe1e2_e3e4_e5e6_02ec]),
        held: Some(Held::Eights(114, [0xffff_ffff_ffff_9394, 0xe1e2_e3e4_e5e6_2728])),
        ..TAKEN
    },
    // WRCMCELLT, ones for monitor 1: three thresholds of twelve bits, and the other twelve bits become 0
    FrameCase {
        name: "WRCMCELLT",
        command: 0x005a_7fa0,
        body: Body::Eights([0xffff_ffff_ffff_0196, 0x1234_5678_9abc_01cc]),
        held: Some(Held::Eights(120, [0xffff_ffff_0f00_999a, 0x1234_5678_0a00_2d2e])),
        ..TAKEN
    },
    // WRCMGPIOT, ones for monitor 2: the same
    FrameCase {
        name: "WRCMGPIOT",
        command: 0x005c_5368,
        body: Body::Eights([0x1234_5678_9abc_01cc, 0xffff_ffff_ffff_0196]),
        held: Some(Held::Eights(126, [0x1234_5678_0a00_9f1a, 0xffff_ffff_0f00_3334])),
        ..TAKEN
    },
    // CLRCMFLAG, two bytes each, ones for monitor 2: the bits of CMF0 that are sent as 1; the second byte does nothing, to CMF1 neither
    FrameCase {
        name: "CLRCMFLAG",
        command: 0x005e_ce3e,
        body: Body::Fours([0x0ff0_014e, 0xffff_0205]),
        room: 0,
        held: Some(Held::Eights(132, [0x901a_1b1c_a0a1_a2a3, 0x0034_3536_3738_393a])),
        ..TAKEN
    },
    // the second byte alone; and a bit that is clear
    FrameCase {
        name: "CLRCMFLAG, all ones in the second byte, and bits that are not set",
        command: 0x005e_ce3e,
        body: Body::Fours([0x00ff_00ae, 0xcc00_0117]),
        room: 0,
        held: Some(Held::Eights(132, [0x9f1a_1b1c_a0a1_a2a3, 0x3334_3536_3738_393a])),
        ..TAKEN
    },
    // CMEN: CMF1 becomes 83, whatever it was, and the live cells are the last; SNAP_ST of monitor 1 does not matter
    FrameCase {
        name: "CMEN",
        command: 0x0041_dae4,
        held: Some(Held::Eights(132, [0x9f83_1b1c_a0a1_2d2e, 0x3383_3536_3738_999a])),
        copied: Copied::BothAt138,
        ..TAKEN
    },
    // CMEN, after ULRR: it locks
    FrameCase {
        name: "CMEN, after ULRR",
        start: UNLOCKED,
        command: 0x0041_dae4,
        counters: [7, 11],
        held: Some(Held::Eights(132, [0x9f83_1b1c_a0a1_2d2e, 0x3383_3536_3738_999a])),
        copied: Copied::BothAt138,
        ..TAKEN
    },
    // CMEN, after CMEN and CLRCELL: it counts, and the last cells stay
    FrameCase {
        name: "CMEN, after CMEN and CLRCELL",
        start: CMEN_CLEARED,
        command: 0x0041_dae4,
        counters: [8, 12],
        held: Some(Held::Eights(132, [0x9f83_1b1c_a0a1_2d2e, 0x3383_3536_3738_999a])),
        ..TAKEN
    },
    // CMEN, CMC_EN alone being set in monitor 1, and in monitor 2 all bits of CMF1 but that
    FrameCase {
        name: "CMEN, CMF1 80 and 7f",
        start: FIRST_IN_LPCM,
        command: 0x0041_dae4,
        counters: [7, 11],
        held: Some(Held::Eights(132, [0x9f80_1b1c_a0a1_a2a3, 0x3383_3536_3738_999a])),
        copied: Copied::SecondAt138,
        ..TAKEN
    },
    // CMDIS, the same: it clears CMC_EN alone
    FrameCase {
        name: "CMDIS, CMF1 80 and 7f",
        start: FIRST_IN_LPCM,
        command: 0x0040_51d6,
        counters: [7, 11],
        held: Some(Held::Eights(132, [0x9f00_1b1c_a0a1_a2a3, 0x337f_3536_3738_393a])),
        ..TAKEN
    },
    // CMDIS, after CMEN and CLRCELL: the flags and the last cells stay
    FrameCase {
        name: "CMDIS, after CMEN and CLRCELL",
        start: CMEN_CLEARED,
        command: 0x0040_51d6,
        counters: [8, 12],
        held: Some(Held::Eights(132, [0x9f03_1b1c_a0a1_2d2e, 0x3303_3536_3738_999a])),
        ..TAKEN
    },
    // CMDIS where it is not enabled
    FrameCase {
        name: "CMDIS",
        command: 0x0040_51d6,
        held: Some(Held::Eights(132, [0x9f1a_1b1c_a0a1_a2a3, 0x3334_3536_3738_393a])),
        ..TAKEN
    },
    // both in LPCM, after ULRR: a read goes on, and locks
    FrameCase {
        name: "RDCMFLAG, after CMEN and ULRR",
        start: CMEN_UNLOCKED,
        command: 0x005f_450c,
        replies: &[0x9f83_1b1c_a0a1_1e4d, 0x3383_3536_3738_2ec3],
        counters: [7, 11],
        ..READ
    },
    // a bare command goes on, and the last cells stay
    FrameCase {
        name: "CLRCELL, after CMEN and ULRR",
        start: CMEN_UNLOCKED,
        command: 0x0711_c9c0,
        counters: [8, 12],
        held: Some(Held::Cells([0x0080, 0x0080])),
        ..TAKEN
    },
    // each write, both payloads right: monitor 1 is in LPCM and takes none, but locks; monitor 2 is not
    FrameCase {
        name: "WRCFGA, CMF1 80 and 7f",
        start: FIRST_IN_LPCM,
        command: 0x0001_3d6e,
        body: Body::Eights([0xffff_ffff_ffff_0196, 0x1234_5678_9abc_01cc]),
        outcome: Ok(1),
        counters: [6, 11],
        held: Some(Held::Eights(0, [0x2122_2324_2526_2728, 0x0234_5078_021c_9394])),
        ..TAKEN
    },
    FrameCase {
        name: "WRCFGB, CMF1 80 and 7f",
        start: FIRST_IN_LPCM,
        command: 0x0024_b19e,
        body: Body::Eights([0x0102_0304_0506_0131, 0xe1e2_e3e4_e5e6_02ec]),
        outcome: Ok(1),
        counters: [6, 11],
        held: Some(Held::Eights(6, [0x2728_292a_2b2c_2d2e, 0xe1e2_e3e4_e5e6_999a])),
        ..TAKEN
    },
    FrameCase {
        name: "WRRR, CMF1 80 and 7f",
        start: FIRST_IN_LPCM,
        command: 0x0039_3812,
        body: Body::Eights([0x0102_0304_0506_0131, 0xe1e2_e3e4_e5e6_02ec]),
        outcome: Ok(1),
        counters: [6, 11],
        held: Some(Held::Eights(56, [0x595a_5b5c_5d5e_5f60, 0xe1e2_e3e4_e5e6_cbcc])),
        ..TAKEN
    },
    FrameCase {
        name: "CLRFLAG, CMF1 80 and 7f",
        start: FIRST_IN_LPCM,
        command: 0x0717_e508,
        body: Body::Eights([0xffff_ffff_ffff_0196, 0xffff_ffff_ffff_0196]),
        outcome: Ok(1),
        counters: [6, 11],
        held: Some(Held::Eights(44, [0x4d4e_4f50_5152_5354, 0x0000_bbbc_0020_bfc0])),
        ..TAKEN
    },
    FrameCase {
        name: "CLOVUV, CMF1 80 and 7f",
        start: FIRST_IN_LPCM,
        command: 0x0715_785e,
        body: Body::Eights([0xffff_ffff_ffff_0196, 0xffff_ffff_ffff_0196]),
        outcome: Ok(1),
        counters: [6, 11],
        held: Some(Held::Eights(50, [0x5354_5556_5758_595a, 0x0000_0000_c3c4_c5c6])),
        ..TAKEN
    },
    FrameCase {
        name: "WRPWMA, CMF1 80 and 7f",
        start: FIRST_IN_LPCM,
        command: 0x0020_0000,
        body: Body::Eights([0x0102_0304_0506_0131, 0xe1e2_e3e4_e5e6_02ec]),
        outcome: Ok(1),
        counters: [6, 11],
        held: Some(Held::Eights(70, [0x6566_6768_696a_6b6c, 0xe1e2_e3e4_e5e6_d7d8])),
        ..TAKEN
    },
    FrameCase {
        name: "WRPWMB, CMF1 80 and 7f",
        start: FIRST_IN_LPCM,
        command: 0x0021_8b32,
        body: Body::Eights([0x0102_0304_0506_0131, 0xe1e2_e3e4_e5e6_02ec]),
        outcome: Ok(1),
        counters: [6, 11],
        held: Some(Held::Eights(74, [0x696a_6b6c_6d6e_6f70, 0xd5d6_e1e2_ffff_ffff])),
        ..TAKEN
    },
    FrameCase {
        name: "WRCMCFG, CMF1 80 and 7f",
        start: FIRST_IN_LPCM,
        command: 0x0058_e2f6,
        body: Body::Eights([0x0102_0304_0506_0131, 0xe1e2_e3e4_e5e6_02ec]),
        outcome: Ok(1),
        counters: [6, 11],
        held: Some(Held::Eights(114, [0x8d8e_8f90_9192_9394, 0xe1e2_e3e4_e5e6_2728])),
        ..TAKEN
    },
    FrameCase {
        name: "WRCMCELLT, CMF1 80 and 7f",
        start: FIRST_IN_LPCM,
        command: 0x005a_7fa0,
        body: Body::Eights([0xffff_ffff_ffff_0196, 0x1234_5678_9abc_01cc]),
        outcome: Ok(1),
        counters: [6, 11],
        held: Some(Held::Eights(120, [0x9394_9596_9798_999a, 0x1234_5678_0a00_2d2e])),
        ..TAKEN
    },
    FrameCase {
        name: "WRCMGPIOT, CMF1 80 and 7f",
        start: FIRST_IN_LPCM,
        command: 0x005c_5368,
        body: Body::Eights([0xffff_ffff_ffff_0196, 0x1234_5678_9abc_01cc]),
        outcome: Ok(1),
        counters: [6, 11],
        held: Some(Held::Eights(126, [0x999a_9b9c_9d9e_9f80, 0x1234_5678_0a00_337f])),
        ..TAKEN
    },
    FrameCase {
        name: "CLRCMFLAG, CMF1 80 and 7f",
        start: FIRST_IN_LPCM,
        command: 0x005e_ce3e,
        body: Body::Fours([0xffff_0205, 0xffff_0205]),
        room: 0,
        outcome: Ok(1),
        counters: [6, 11],
        held: Some(Held::Eights(132, [0x9f80_1b1c_a0a1_a2a3, 0x007f_3536_3738_393a])),
        ..TAKEN
    },
    // WRRR is executed whatever its check, but not in LPCM
    FrameCase {
        name: "WRRR, both damaged, CMF1 80 and 7f",
        start: FIRST_IN_LPCM,
        command: 0x0039_3812,
        body: Body::Eights([0x0102_0304_0506_0531, 0x61e2_e3e4_e5e6_02ec]),
        outcome: Ok(1),
        counters: [6, 11],
        held: Some(Held::Eights(56, [0x595a_5b5c_5d5e_5f60, 0x61e2_e3e4_e5e6_cbcc])),
        ..TAKEN
    },
    // the second monitor's data damaged: neither takes it
    FrameCase {
        name: "WRCFGB, the second monitor's data damaged, CMF1 80 and 7f",
        start: FIRST_IN_LPCM,
        command: 0x0024_b19e,
        body: Body::Eights([0x0102_0304_0506_0131, 0x61e2_e3e4_e5e6_02ec]),
        outcome: Ok(0),
        held: Some(Held::Eights(6, [0x2728_292a_2b2c_2d2e, 0x9394_9596_9798_999a])),
        ..TAKEN
    },
    // both in LPCM, after ULRR: no monitor takes a write, and all lock
    FrameCase {
        name: "WRCFGB, after CMEN and ULRR",
        start: CMEN_UNLOCKED,
        command: 0x0024_b19e,
        body: Body::Eights([0x0102_0304_0506_0131, 0xe1e2_e3e4_e5e6_02ec]),
        outcome: Ok(0),
        counters: [7, 11],
        held: Some(Held::Eights(6, [0x2728_292a_2b2c_2d2e, 0x9394_9596_9798_999a])),
        ..TAKEN
    },
    FrameCase {
        name: "WRRR, after CMEN and ULRR",
        start: CMEN_UNLOCKED,
        command: 0x0039_3812,
        body: Body::Eights([0x0102_0304_0506_0131, 0xe1e2_e3e4_e5e6_02ec]),
        outcome: Ok(0),
        counters: [7, 11],
        held: Some(Held::Eights(56, [0x595a_5b5c_5d5e_5f60, 0xc5c6_c7c8_c9ca_cbcc])),
        ..TAKEN
    },
    FrameCase {
        name: "CLRCMFLAG, after CMEN and ULRR",
        start: CMEN_UNLOCKED,
        command: 0x005e_ce3e,
        body: Body::Fours([0xffff_0205, 0xffff_0205]),
        room: 0,
        outcome: Ok(0),
        counters: [7, 11],
        held: Some(Held::Eights(132, [0x9f83_1b1c_a0a1_2d2e, 0x3383_3536_3738_999a])),
        ..TAKEN
    },
    // and after CMDIS both take it
    FrameCase {
        name: "WRCFGB, after CMEN and CMDIS",
        start: CMEN_CMDIS,
        command: 0x0024_b19e,
        body: Body::Eights([0x0102_0304_0506_0131, 0xe1e2_e3e4_e5e6_02ec]),
        counters: [8, 12],
        held: Some(Held::Eights(6, [0x0102_0304_0506_2d2e, 0xe1e2_e3e4_e5e6_999a])),
        ..TAKEN
    },
    FrameCase {
        name: "CLRCMFLAG, after ULRR, the second monitor's data damaged",
        start: UNLOCKED,
        command: 0x005e_ce3e,
        body: Body::Fours([0x0ff0_014e, 0x7fff_0205]),
        room: 0,
        outcome: Ok(1),
        counters: [7, 10],
        held: Some(Held::Eights(132, [0x901a_1b1c_a0a1_a2a3, 0x3334_3536_3738_393a])),
        ..TAKEN
    },
    FrameCase {
        name: "CLRCMFLAG, after ULRR, the first monitor's check damaged",
        start: UNLOCKED,
        command: 0x005e_ce3e,
        body: Body::Fours([0x0ff0_014f, 0xffff_0205]),
        room: 0,
        outcome: Ok(1),
        counters: [6, 11],
        held: Some(Held::Eights(132, [0x9f1a_1b1c_a0a1_a2a3, 0x0034_3536_3738_393a])),
        ..TAKEN
    },
    // the check is made over the counter bits as they are sent
    FrameCase {
        name: "CLRCMFLAG, after ULRR, counter bits 9 and 63",
        start: UNLOCKED,
        command: 0x005e_ce3e,
        body: Body::Fours([0x0ff0_2536, 0xffff_ff6d]),
        room: 0,
        counters: [7, 11],
        held: Some(Held::Eights(132, [0x901a_1b1c_a0a1_a2a3, 0x0034_3536_3738_393a])),
        ..TAKEN
    },
    // ten bits for monitor 1, as the data polynomial 48f has ones but for its last
    FrameCase {
        name: "CLRCMFLAG, after ULRR, ten bits for monitor 1 hit",
        start: UNLOCKED,
        command: 0x005e_ce3e,
        body: Body::Fours([0x9e30_014e, 0xffff_0205]),
        room: 0,
        outcome: Ok(1),
        counters: [6, 11],
        held: Some(Held::Eights(132, [0x9f1a_1b1c_a0a1_a2a3, 0x0034_3536_3738_393a])),
        ..TAKEN
    },
    // its last too: the check is right again, and what came is done
    FrameCase {
        name: "CLRCMFLAG, after ULRR, eleven bits for monitor 1 hit, by the data polynomial",
        start: UNLOCKED,
        command: 0x005e_ce3e,
        body: Body::Fours([0x9e10_014e, 0xffff_0205]),
        room: 0,
        counters: [7, 11],
        held: Some(Held::Eights(132, [0x011a_1b1c_a0a1_a2a3, 0x0034_3536_3738_393a])),
        ..TAKEN
    },
    // all ten, over the border of the two payloads of four bytes
    FrameCase {
        name: "CLRCMFLAG, after ULRR, one bit for monitor 2 and nine for monitor 1 hit",
        start: UNLOCKED,
        command: 0x005e_ce3e,
        body: Body::Fours([0xf070_014e, 0xffff_0204]),
        room: 0,
        outcome: Ok(0),
        held: Some(Held::Eights(132, [0x9f1a_1b1c_a0a1_a2a3, 0x3334_3536_3738_393a])),
        ..TAKEN
    },
    // the counters being 62 and 63, monitors of 0
    FrameCase {
        name: "CMEN, counters of 62 and 63",
        start: LATE,
        command: 0x0041_dae4,
        counters: [63, 1],
        held: Some(Held::Eights(132, [0x0083_0000_0000_0000, 0x0083_0000_0000_0000])),
        ..TAKEN
    },
    FrameCase {
        name: "CMDIS, counters of 62 and 63",
        start: LATE,
        command: 0x0040_51d6,
        counters: [63, 1],
        held: Some(Held::Eights(132, [0x0000_0000_0000_0000, 0x0000_0000_0000_0000])),
        ..TAKEN
    },
    FrameCase {
        name: "CLRCMFLAG, counters of 62 and 63",
        start: LATE,
        command: 0x005e_ce3e,
        body: Body::Fours([0x0ff0_014e, 0xffff_0205]),
        room: 0,
        counters: [63, 1],
        held: Some(Held::Eights(132, [0x0000_0000_0000_0000, 0x0000_0000_0000_0000])),
        ..TAKEN
    },
];
