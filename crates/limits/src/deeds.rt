// Codes that are loaded, stored or compared.
use refusals::Refusal;

// As many codes as a load has, and one more and one less.
pub(crate) const ZEROS: &[i16] = &[0; 16];

pub(crate) const SEVENTEEN: &[i16] = &[0; 17];

pub(crate) const FIFTEEN: &[i16] = &[0; 15];

// The sixth cell has a code of its own.
pub(crate) const FIFTEEN_WITH_CLEARED: &[i16] = &[0, 0, 0, 0, 0, -32768, 0, 0, 0, 0, 0, 0, 0, 0, 0];

pub(crate) const CLEARED_AT_6: &[i16] = &[0, 0, 0, 0, 0, -32768, 0, 0, 0, 0, 0, 0, 0, 0, 0, 0];

pub(crate) const CODE_1600_AT_6: &[i16] = &[0, 0, 0, 0, 0, 1600, 0, 0, 0, 0, 0, 0, 0, 0, 0, 0];

pub(crate) const CODE_1601_AT_6: &[i16] = &[0, 0, 0, 0, 0, 1601, 0, 0, 0, 0, 0, 0, 0, 0, 0, 0];

pub(crate) const CODE_MINUS_16_AT_6: &[i16] = &[0, 0, 0, 0, 0, -16, 0, 0, 0, 0, 0, 0, 0, 0, 0, 0];

pub(crate) const CODE_MINUS_17_AT_6: &[i16] = &[0, 0, 0, 0, 0, -17, 0, 0, 0, 0, 0, 0, 0, 0, 0, 0];

pub(crate) const CODE_MINUS_32767_AT_6: &[i16] = &[
    0, 0, 0, 0, 0, -32767, 0, 0, 0, 0, 0, 0, 0, 0, 0, 0,
];

pub(crate) const EACH_800: &[i16] = &[800; 16];

// What is done at a position, and with which codes.
#[derive(Clone, Copy)]
pub(crate) enum Deed {
    Load(usize, &'static [i16]),
    Store(usize, &'static [i16]),
    Compare(usize),
}

impl Deed {
    pub(crate) fn position(self) -> usize {
        match self {
            Deed::Load(position, _) | Deed::Store(position, _) | Deed::Compare(position) =>
                position,
        }
    }

    // What is written where it is not refused.
    pub(crate) fn word(self) -> &'static str {
        match self {
            Deed::Load(..) => ": loaded",
            Deed::Store(..) => ": stored",
            Deed::Compare(_) => ": compared",
        }
    }

    pub(crate) fn done(self, table: &mut [u8]) -> Result<(), Refusal> {
        match self {
            Deed::Load(position, codes) => loads::load(table, position, codes),
            Deed::Store(position, codes) => loads::store(table, position, codes),
            Deed::Compare(position) => loads::compare(table, position),
        }
    }
}
