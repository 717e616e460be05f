// Each refusal of a frame by itself, and where a later one would hold too: the first is given, and nothing changes.
use crate::begun::UNSOUND_COUNTER;
use crate::cases::{ALL_STAYS, FrameCase, READ, REFUSED, Shown, TAKEN};
use crate::frames::Body;
use crate::held::Held;
use refusals::Refusal;

pub(crate) static CASES: [FrameCase; 47] = [
    FrameCase {
        name: "unsound table",
        start: UNSOUND_COUNTER,
        command: 0x0002_2b0a,
        body: Body::Ones(20),
        outcome: Err(Refusal::TableNotSound),
        counters: [5, 64],
        ..REFUSED
    },
    FrameCase {
        name: "unsound table, three bytes",
        start: UNSOUND_COUNTER,
        command: 0x0002_2b0a,
        body: Body::Ones(3),
        outcome: Err(Refusal::TableNotSound),
        counters: [5, 64],
        ..REFUSED
    },
    // under four bytes there is no whole check
    FrameCase {
        name: "three bytes of RDCFGA",
        command: 0x0002_2b0a,
        body: Body::Ones(3),
        outcome: Err(Refusal::FrameShort),
        ..REFUSED
    },
    FrameCase {
        name: "no bytes",
        command: 0x0002_2b0a,
        body: Body::Ones(0),
        outcome: Err(Refusal::FrameShort),
        ..REFUSED
    },
    FrameCase {
        name: "three bytes, check wrong",
        command: 0x0002_ff0a,
        body: Body::Ones(3),
        outcome: Err(Refusal::FrameShort),
        ..REFUSED
    },
    // the check of RDCFGA is 2b 0a
    FrameCase {
        name: "RDCFGA with the check 2b 0b",
        command: 0x0002_2b0b,
        body: Body::Ones(20),
        outcome: Err(Refusal::CommandWrong),
        ..REFUSED
    },
    FrameCase {
        name: "RDCFGA with the check 2b 08",
        command: 0x0002_2b08,
        body: Body::Ones(20),
        outcome: Err(Refusal::CommandWrong),
        ..REFUSED
    },
    FrameCase {
        name: "the same, four bytes",
        command: 0x0002_2b08,
        outcome: Err(Refusal::CommandWrong),
        ..REFUSED
    },
    // the check of WRPWMA is 00 00
    FrameCase {
        name: "WRPWMA with the check 00 01",
        command: 0x0020_0001,
        body: Body::Ones(20),
        outcome: Err(Refusal::CommandWrong),
        ..REFUSED
    },
    FrameCase {
        name: "WRPWMA with the check 00 02",
        command: 0x0020_0002,
        body: Body::Ones(20),
        outcome: Err(Refusal::CommandWrong),
        ..REFUSED
    },
    // the check of SNAP is d2 a2
    FrameCase {
        name: "SNAP with the check d2 a3",
        command: 0x002d_d2a3,
        outcome: Err(Refusal::CommandWrong),
        ..REFUSED
    },
    FrameCase {
        name: "UNSNAP with the check d2 a2",
        command: 0x002f_d2a2,
        outcome: Err(Refusal::CommandWrong),
        ..REFUSED
    },
    // the check of CLRCMFLAG is ce 3e
    FrameCase {
        name: "CLRCMFLAG with the check ce 3f",
        command: 0x005e_ce3f,
        body: Body::Ones(12),
        outcome: Err(Refusal::CommandWrong),
        ..REFUSED
    },
    FrameCase {
        name: "0003, check wrong",
        command: 0x0003_a138,
        outcome: Err(Refusal::CommandWrong),
        ..REFUSED
    },
    FrameCase {
        name: "0003, four bytes",
        command: 0x0003_a038,
        outcome: Err(Refusal::CodeNotListed),
        ..REFUSED
    },
    FrameCase {
        name: "0003, twenty bytes",
        command: 0x0003_a038,
        body: Body::Ones(20),
        outcome: Err(Refusal::CodeNotListed),
        ..REFUSED
    },
    FrameCase {
        name: "0003, seven bytes, no room",
        command: 0x0003_a038,
        body: Body::Ones(7),
        room: 0,
        outcome: Err(Refusal::CodeNotListed),
        ..REFUSED
    },
    // beside WRPWMA and WRCFGB; all from 0020 to 0024 are listed
    FrameCase {
        name: "001f, twenty bytes",
        command: 0x001f_a286,
        body: Body::Ones(20),
        outcome: Err(Refusal::CodeNotListed),
        ..REFUSED
    },
    FrameCase {
        name: "0025, twenty bytes",
        command: 0x0025_3aac,
        body: Body::Ones(20),
        outcome: Err(Refusal::CodeNotListed),
        ..REFUSED
    },
    // beside UNSNAP; all from 002c to 002f are listed
    FrameCase {
        name: "0030, four bytes",
        command: 0x0030_5b2e,
        outcome: Err(Refusal::CodeNotListed),
        ..REFUSED
    },
    // beside CMDIS and CMEN; 0043 is CMHB, which monitors send and a host does not
    FrameCase {
        name: "003f, four bytes",
        command: 0x003f_14da,
        outcome: Err(Refusal::CodeNotListed),
        ..REFUSED
    },
    FrameCase {
        name: "0042, four bytes",
        command: 0x0042_cc80,
        outcome: Err(Refusal::CodeNotListed),
        ..REFUSED
    },
    FrameCase {
        name: "0043, eight bytes",
        command: 0x0043_47b2,
        body: Body::Ones(8),
        outcome: Err(Refusal::CodeNotListed),
        ..REFUSED
    },
    FrameCase {
        name: "0043, four bytes",
        command: 0x0043_47b2,
        outcome: Err(Refusal::CodeNotListed),
        ..REFUSED
    },
    // beside WRCMCFG and RDCMFLAG; all from 0058 to 005f are listed
    FrameCase {
        name: "0057, twenty bytes",
        command: 0x0057_ad02,
        body: Body::Ones(20),
        outcome: Err(Refusal::CodeNotListed),
        ..REFUSED
    },
    FrameCase {
        name: "0060, twenty bytes",
        command: 0x0060_e78a,
        body: Body::Ones(20),
        outcome: Err(Refusal::CodeNotListed),
        ..REFUSED
    },
    FrameCase {
        name: "RDCFGA, nineteen bytes",
        command: 0x0002_2b0a,
        body: Body::Ones(19),
        outcome: Err(Refusal::LengthWrong),
        ..REFUSED
    },
    FrameCase {
        name: "RDCFGA, four bytes",
        command: 0x0002_2b0a,
        outcome: Err(Refusal::LengthWrong),
        ..REFUSED
    },
    FrameCase {
        name: "MUTE, five bytes",
        command: 0x0028_e80e,
        body: Body::Ones(5),
        outcome: Err(Refusal::LengthWrong),
        ..REFUSED
    },
    FrameCase {
        name: "SNAP, five bytes",
        command: 0x002d_d2a2,
        body: Body::Ones(5),
        outcome: Err(Refusal::LengthWrong),
        ..REFUSED
    },
    FrameCase {
        name: "UNSNAP, twenty bytes",
        command: 0x002f_4ff4,
        body: Body::Ones(20),
        outcome: Err(Refusal::LengthWrong),
        ..REFUSED
    },
    FrameCase {
        name: "WRCFGA, twelve bytes",
        command: 0x0001_3d6e,
        body: Body::Ones(12),
        outcome: Err(Refusal::LengthWrong),
        ..REFUSED
    },
    FrameCase {
        name: "WRPWMA, nineteen bytes",
        command: 0x0020_0000,
        body: Body::Ones(19),
        outcome: Err(Refusal::LengthWrong),
        ..REFUSED
    },
    FrameCase {
        name: "WRPWMB, twenty-one bytes",
        command: 0x0021_8b32,
        body: Body::Ones(21),
        outcome: Err(Refusal::LengthWrong),
        ..REFUSED
    },
    // CLRCMFLAG has twelve bytes, and no other command has
    FrameCase {
        name: "CLRCMFLAG, eleven bytes",
        command: 0x005e_ce3e,
        body: Body::Ones(11),
        outcome: Err(Refusal::LengthWrong),
        ..REFUSED
    },
    FrameCase {
        name: "CLRCMFLAG, thirteen bytes",
        command: 0x005e_ce3e,
        body: Body::Ones(13),
        outcome: Err(Refusal::LengthWrong),
        ..REFUSED
    },
    FrameCase {
        name: "CLRCMFLAG, twenty bytes",
        command: 0x005e_ce3e,
        body: Body::Ones(20),
        outcome: Err(Refusal::LengthWrong),
        ..REFUSED
    },
    FrameCase {
        name: "CLRCMFLAG, four bytes",
        command: 0x005e_ce3e,
        outcome: Err(Refusal::LengthWrong),
        ..REFUSED
    },
    FrameCase {
        name: "WRCMCFG, twelve bytes",
        command: 0x0058_e2f6,
        body: Body::Ones(12),
        outcome: Err(Refusal::LengthWrong),
        ..REFUSED
    },
    FrameCase {
        name: "RDCMFLAG, twelve bytes",
        command: 0x005f_450c,
        body: Body::Ones(12),
        outcome: Err(Refusal::LengthWrong),
        ..REFUSED
    },
    FrameCase {
        name: "CMEN, five bytes",
        command: 0x0041_dae4,
        body: Body::Ones(5),
        outcome: Err(Refusal::LengthWrong),
        ..REFUSED
    },
    FrameCase {
        name: "CMDIS, twenty bytes",
        command: 0x0040_51d6,
        body: Body::Ones(20),
        outcome: Err(Refusal::LengthWrong),
        ..REFUSED
    },
    FrameCase {
        name: "RDCFGA, nineteen bytes, no room",
        command: 0x0002_2b0a,
        body: Body::Ones(19),
        room: 15,
        outcome: Err(Refusal::LengthWrong),
        ..REFUSED
    },
    FrameCase {
        name: "RDCFGA, room 15",
        command: 0x0002_2b0a,
        room: 15,
        outcome: Err(Refusal::NoRoom),
        shown: ALL_STAYS,
        ..READ
    },
    FrameCase {
        name: "RDPWMB, room 15",
        command: 0x0023_1664,
        room: 15,
        outcome: Err(Refusal::NoRoom),
        shown: ALL_STAYS,
        ..READ
    },
    FrameCase {
        name: "RDCMFLAG, room 15",
        command: 0x005f_450c,
        room: 15,
        outcome: Err(Refusal::NoRoom),
        shown: ALL_STAYS,
        ..READ
    },
    FrameCase {
        name: "RDCFGA, room 0",
        command: 0x0002_2b0a,
        room: 0,
        outcome: Err(Refusal::NoRoom),
        shown: ALL_STAYS,
        ..READ
    },
];

// A frame that needs no room is not refused for it.
pub(crate) static NOT_REFUSED: [FrameCase; 1] = [
    // MUTE, room 0: only a read asks for room
    FrameCase {
        name: "MUTE, room 0",
        command: 0x0028_e80e,
        room: 0,
        held: Some(Held::Eights(0, [0x2122_2324_2536_2728, 0x8d8e_8f90_9192_9394])),
        shown: Shown::Words(""),
        ..TAKEN
    },
];
