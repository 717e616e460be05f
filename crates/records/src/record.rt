// One monitor's record: the code's names for what specs/Record.antt lays out. Sizes and offsets stand here and nowhere else.
ghost use Rattle.std.specs.Prelude.{◌≡◌, ◌&&◌, get_or};
ghost use Rattle.records.specs.Record.{byte_in, snapped, in_lpcm, is_record, record_sound};

pub const RECORD_SIZE: usize = 170;

pub const CONFIGURATION_A: usize = 0;
// Byte 5 of configuration A, with SNAP_ST at bit 5 and MUTE_ST at bit 4.
pub const STATUS_BITS: usize = CONFIGURATION_A + 5;

pub const CONFIGURATION_B: usize = 6;

// Bytes 4 and 5 of configuration B, with the DCC bits of cells 1 to 8 and of cells 9 to 16.
pub const DCC_BITS: usize = CONFIGURATION_B + 4;

// Cells 1 to 16, two bytes each, low byte first.
pub const CELLS: usize = 12;

pub const CELL_COUNT: usize = 16;

pub const CELLS_SIZE: usize = 32;

pub const STATUS_C: usize = 44;

pub const STATUS_D: usize = 50;

// The bytes of status D, from its first on, that hold the cells' flags.
pub const FLAG_BYTES: usize = 4;

pub const RETENTION: usize = 56;

pub(crate) const SERIAL_ID: usize = 62;

pub const COUNTER: usize = 68;

// A command counter is 0 to 63.
pub const MOST_COUNT: u8 = 63;

pub const UNLOCKED: usize = 69;

// The duties of cells 1 to 12.
pub const PWM_A: usize = 70;

// The duties of cells 13 to 16.
pub const PWM_B: usize = 76;

// The copy of the cells that SNAP takes.
pub const SNAPSHOT: usize = 82;

pub const SNAPSHOT_SIZE: usize = CELLS_SIZE;

// Low power cell monitoring (LPCM): its configuration, the thresholds of the cells and of the GPIOs, and the flags CMF0 to CMF5.
pub const LPCM_CONFIGURATION: usize = 114;

pub const LPCM_CELL_THRESHOLDS: usize = 120;

pub const LPCM_GPIO_THRESHOLDS: usize = 126;

pub const LPCM_FLAGS: usize = 132;

// CMF1, with CMC_EN at bit 7.
pub const CMF1: usize = LPCM_FLAGS + 1;

// The cells of the last measurement in LPCM.
pub const LAST_CELLS: usize = 138;

// Where a part of the record begins, and how many bytes it has. In bytes, so that a command is three of them: the compiler copies a
// larger one in pieces that wait for each other.
#[derive(Clone, Copy)]
pub struct Part {
    pub at: u8,
    pub size: u8,
}

// So many bytes from a place on. A constant's value holds no call, so it is a macro.
macro_rules! part {
    ($at:expr, $size:expr) => {
        Part {
            at: ($at) as u8,
            size: ($size) as u8,
        }
    };
}

// The cells, and those of the last measurement in LPCM. The offsets stand beside them as `usize`, which an index is.
pub const CELLS_PART: Part = part!(CELLS, CELLS_SIZE);

pub const LAST_CELLS_PART: Part = part!(LAST_CELLS, CELLS_SIZE);

// The part that each read names: it shows that part, or of the cells, while a snapshot is on, the same part of their copy. The cells' registers A
// to E have three cells each, and F has cell 16.
pub(crate) const RDCFGA: Part = part!(CONFIGURATION_A, 6);

pub const RDCFGB: Part = part!(CONFIGURATION_B, 6);

pub(crate) const RDCVA: Part = part!(CELLS, 6);

pub(crate) const RDCVB: Part = part!(CELLS + 6, 6);

pub(crate) const RDCVC: Part = part!(CELLS + 12, 6);

pub(crate) const RDCVD: Part = part!(CELLS + 18, 6);

pub(crate) const RDCVE: Part = part!(CELLS + 24, 6);

pub(crate) const RDCVF: Part = part!(CELLS + 30, 2);

pub const RDSTATC: Part = part!(STATUS_C, 6);

pub(crate) const RDSTATD: Part = part!(STATUS_D, 6);

pub(crate) const RDSID: Part = part!(SERIAL_ID, 6);

pub(crate) const RDRR: Part = part!(RETENTION, 6);

pub(crate) const RDPWMA: Part = part!(PWM_A, 6);

pub(crate) const RDPWMB: Part = part!(PWM_B, 6);

pub const RDCMCFG: Part = part!(LPCM_CONFIGURATION, 6);

pub const RDCMCELLT: Part = part!(LPCM_CELL_THRESHOLDS, 6);

pub(crate) const RDCMGPIOT: Part = part!(LPCM_GPIO_THRESHOLDS, 6);

pub(crate) const RDCMFLAG: Part = part!(LPCM_FLAGS, 6);

// A byte of a slice, and 0 past its end.
pub fn byte_at(bytes: &[u8], i: usize) -> u8
    ensures { result ≡ get_or bytes.now i 0 }
{
    bytes.get(i).copied().unwrap_or(0)
}

// A byte of a part, and 0 past its end.
pub fn byte_in(rec: &[u8], part: Part, i: usize) -> u8
    ensures { result ≡ byte_in part rec.now i }
{
    if i < part.size as usize {
        byte_at(rec, part.at as usize + i)
    } else {
        0
    }
}

// SNAP_ST: is a snapshot on?
#[tactic(auto, unfolding(crate::specs::Record::snapped, crate::specs::Record::byte_of, laws::specs::Bits::bit_at, laws::specs::Bits::odd))]
pub fn is_snapped(rec: &[u8]) -> bool
    ensures { result ≡ snapped rec.now }
{
    byte_at(rec, STATUS_BITS) / 32 % 2 == 1
}

// CMC_EN: is the monitor in LPCM?
#[tactic(auto, unfolding(crate::specs::Record::in_lpcm, crate::specs::Record::byte_of, laws::specs::Bits::bit_at, laws::specs::Bits::odd))]
pub fn in_lpcm(rec: &[u8]) -> bool
    ensures { result ≡ in_lpcm rec.now }
{
    byte_at(rec, CMF1) / 128 % 2 == 1
}

// Is it a record, with a counter of 0 to 63 and a retention byte of 0 or 1?
#[tactic(auto, unfolding(crate::specs::Record::is_record, crate::specs::Record::record_sound, crate::specs::Record::byte_of))]
pub fn record_sound(rec: &[u8]) -> bool
    ensures { result ≡ (is_record rec.now && record_sound rec.now) }
{
    rec.len() == RECORD_SIZE && rec[COUNTER] <= MOST_COUNT && rec[UNLOCKED] <= 1
}
