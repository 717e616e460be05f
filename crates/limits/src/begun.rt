// What cases begin with, by name. Each frame has its code and its check.
use crate::deeds::{Deed, EACH_800};
use crate::starts::{Start, Step};

const ULRR: Step = Step::Command(0x0038_b320);

const MUTE: Step = Step::Command(0x0028_e80e);

const UNMUTE: Step = Step::Command(0x0029_633c);

const SNAP: Step = Step::Command(0x002d_d2a2);

const UNSNAP: Step = Step::Command(0x002f_4ff4);

const CMEN: Step = Step::Command(0x0041_dae4);

const CMDIS: Step = Step::Command(0x0040_51d6);

pub(crate) const CLRCELL: Step = Step::Command(0x0711_c9c0);

const LOAD_AT_2: Step = Step::Codes(Deed::Load(2, EACH_800));

pub(crate) const ZEROS: Start = Start::Zeros(&[]);

pub(crate) const ZEROS_UNLOCKED: Start = Start::Zeros(&[ULRR]);

// Counters of 62 and 63.
pub(crate) const LATE: Start = Start::Zeros(&[Step::Byte(68, 62), Step::Byte(238, 63)]);

pub(crate) const TWO: Start = Start::Two(&[]);

// A counter of 64 in the second monitor, and a byte 69 of 2 in the first: neither table is sound.
pub(crate) const UNSOUND_COUNTER: Start = Start::Two(&[Step::Byte(238, 64)]);

pub(crate) const UNSOUND: Start = Start::Two(&[Step::Byte(69, 2)]);

pub(crate) const UNLOCKED: Start = Start::Two(&[ULRR]);

// Monitor 1 alone is unlocked.
pub(crate) const FIRST_UNLOCKED: Start = Start::Two(&[Step::Byte(69, 1)]);

pub(crate) const UNLOCKED_MUTED: Start = Start::Two(&[ULRR, MUTE]);

pub(crate) const MUTED: Start = Start::Two(&[MUTE]);

pub(crate) const MUTED_UNMUTED: Start = Start::Two(&[MUTE, UNMUTE]);

pub(crate) const SNAP_CLEARED: Start = Start::Two(&[SNAP, CLRCELL]);

pub(crate) const SNAP_LOADED: Start = Start::Two(&[SNAP, LOAD_AT_2]);

pub(crate) const SNAP_LOADED_UNSNAP: Start = Start::Two(&[SNAP, LOAD_AT_2, UNSNAP]);

// CMF1 has CMC_EN alone in monitor 1, and every other bit in monitor 2.
pub(crate) const FIRST_IN_LPCM: Start = Start::Two(&[
    ULRR,
    Step::Byte(133, 0x80),
    Step::Byte(303, 0x7f),
]);

pub(crate) const CMEN_UNLOCKED: Start = Start::Two(&[CMEN, ULRR]);

pub(crate) const CMEN_CLEARED: Start = Start::Two(&[CMEN, CLRCELL]);

pub(crate) const CMEN_CMDIS: Start = Start::Two(&[CMEN, CMDIS]);
