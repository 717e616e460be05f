// A chain that goes to sleep: 32 monitors in LPCM at the limits of their measurement, a manager, and at times something that stops its
// message. What is drawn, and in what order, stands in tools/two-engines-model too.
ghost use Rattle.std.specs.Prelude.{◌≡◌, ◌<◌, length};

use crate::luck::Luck;
use crate::outcomes::Table;
use crate::world::Monitors;
use records::{
    CELLS, CELLS_SIZE, CMF1, LAST_CELLS, LPCM_CELL_THRESHOLDS, LPCM_CONFIGURATION, LPCM_FLAGS,
    RECORD_SIZE, STATUS_C,
};

type Record = [u8; RECORD_SIZE];

type Thresholds = [u8; 5];

// CUV at its least, COV at its most, and CDV at its most.
const WIDE: Thresholds = [0x00, 0xf8, 0x7f, 0xff, 0x0f];

// CUV at -16, COV at 0.
const LOW: Thresholds = [0xff, 0x0f, 0x00, 0xff, 0x0f];

// CUV at 0, COV at 1600.
const HIGH: Thresholds = [0x00, 0x40, 0x06, 0xff, 0x0f];

// CDV at 8.
const STEADY: Thresholds = [0x00, 0xf8, 0x7f, 0x01, 0x00];

// CUV one step above its least.
const RAISED: Thresholds = [0x01, 0xf8, 0x7f, 0xff, 0x0f];

// One cell at a limit: the thresholds, its code and its last code.
#[derive(Clone, Copy)]
struct Limit(Thresholds, i16, i16);

// The first passes in all; then follow pairs, of which the first passes and the second does not: CUV, COV, CDV up, CDV down, CUV of a
// cleared cell, and the greatest CDV.
const LIMITS: [Limit; 13] = [
    Limit(WIDE, 0, 0),
    Limit(LOW, -16, -16),
    Limit(LOW, -17, -16),
    Limit(HIGH, 1600, 1600),
    Limit(HIGH, 1601, 1600),
    Limit(STEADY, 8, 0),
    Limit(STEADY, 9, 0),
    Limit(STEADY, -8, 0),
    Limit(STEADY, -9, 0),
    Limit(WIDE, -32768, -32768),
    Limit(RAISED, -32768, -32768),
    Limit(WIDE, -8, -32768),
    Limit(WIDE, -7, -32768),
];

// Bytes 4 and 5 of status C with no diagnostic pending.
const NO_DIAGNOSTIC: [u8; 2] = [0x0f, 0x2c];

// The place of a monitor's limit among them: in a calm chain of one that passes, else of any, but mostly of the first.
fn limit_of(calm: bool, drawn: usize) -> usize
    ensures { result < 13 }
{
    if calm {
        (2 * (drawn % 7)).saturating_sub(1)
    } else if drawn < LIMITS.len() {
        drawn
    } else {
        0
    }
}

// Its cells: one at a limit, the others 0.
fn put_cells(record: &mut Record, limit: Limit, cell: usize)
    requires { cell < 16 }
{
    let Limit(thresholds, code, last) = limit;
    record[LPCM_CELL_THRESHOLDS..LPCM_CELL_THRESHOLDS + 5].copy_from_slice(&thresholds);
    put_one(&mut record[CELLS..CELLS + CELLS_SIZE], cell, code);
    put_one(&mut record[LAST_CELLS..LAST_CELLS + CELLS_SIZE], cell, last);
}

// One cell's code, where the others are 0.
fn put_one(cells: &mut [u8], cell: usize, code: i16)
    requires { (length cells.old ≡ 32) × (cell < 16) }
{
    cells.fill(0);
    cells[2 * cell..2 * cell + 2].copy_from_slice(&code.to_le_bytes());
}

// Bytes 4 and 5 of status C. In a chain that is not calm now and then a diagnostic is pending.
fn status_of(calm: bool, mask: u16) -> [u8; 2] {
    if !calm && mask % 32 == 1 {
        [(mask / 32 % 8 * 16 + 15) as u8, (mask / 256) as u8]
    } else {
        NO_DIAGNOSTIC
    }
}

// CMF0. In a chain that is not calm now and then there are flags from before.
fn flags_of(calm: bool, flags: usize) -> u8 {
    if !calm && flags / 4 % 16 == 0 {
        (flags / 64 % 16 * 0x11) as u8
    } else {
        0
    }
}

// Now and then it has a mask.
fn put_settings(record: &mut Record, calm: bool, luck: &mut Luck) {
    let mask = luck.draw(65536) as u16;
    let role = luck.draw(256) as u8;
    let flags = luck.draw(1024);
    let masks = if role % 8 == 0 { mask } else { 0 };
    record[STATUS_C + 4..STATUS_C + 6].copy_from_slice(&status_of(calm, mask));
    record[LPCM_CONFIGURATION] = role & 0x77;
    record[LPCM_CONFIGURATION + 2..LPCM_CONFIGURATION + 4].copy_from_slice(&masks.to_le_bytes());
    record[LPCM_FLAGS] = flags_of(calm, flags);
    record[CMF1] = (0x80 + flags % 4) as u8;
}

// One monitor, neither manager nor timeout monitor.
fn put_monitor(record: &mut Record, calm: bool, luck: &mut Luck) {
    let limit = LIMITS[limit_of(calm, luck.draw(32))];
    let cell = luck.draw(16);
    put_cells(record, limit, cell);
    put_settings(record, calm, luck);
}

// A manager. The lower bits of its configuration are drawn; CMC_NDEV is the number of monitors and 42 (hex) more, or near that.
fn put_manager(record: &mut Record, monitors: Monitors, bits: usize)
    requires { bits < 64 }
{
    let near = if bits / 2 % 4 == 0 { bits / 8 % 4 } else { 1 };
    record[LPCM_CONFIGURATION] = (0x80 + bits) as u8;
    record[LPCM_CONFIGURATION + 1] = (0x41 + monitors.n + near) as u8;
    record[LPCM_CONFIGURATION + 4] = if bits % 2 == 0 { 0xdf } else { 0xff };
}

// Which of the monitors.
#[derive(Clone, Copy)]
enum Place {
    First,
    Last,
    Any,
}

impl Place {
    // Of a manager. At times there is none.
    fn of_manager(luck: &mut Luck) -> Option<Place> {
        match luck.draw(6) {
            0 => Some(Place::First),
            1 => Some(Place::Last),
            2 | 3 => Some(Place::Any),
            _ => None,
        }
    }

    // Counted from 0.
    fn index(self, any: usize, monitors: Monitors) -> usize
        requires { any < monitors.n }
        ensures { result < monitors.n }
    {
        match self {
            Place::First => 0,
            Place::Last => monitors.n - 1,
            Place::Any => any,
        }
    }
}

// What is on the way.
#[derive(Clone, Copy)]
enum Other {
    NotInLpcm,
    TimeoutMonitor,
    Manager,
    Nothing,
}

impl Other {
    // And where.
    fn draw(luck: &mut Luck) -> (Other, Place) {
        match luck.draw(8) {
            0 => (Other::NotInLpcm, Place::Any),
            1 => (Other::TimeoutMonitor, Place::Any),
            2 => (Other::Manager, Place::Any),
            3 => (Other::TimeoutMonitor, Place::First),
            4 => (Other::TimeoutMonitor, Place::Last),
            _ => (Other::Nothing, Place::Any),
        }
    }

    fn put(self, record: &mut Record) {
        match self {
            Other::NotInLpcm => record[CMF1] = 0x03,
            Other::TimeoutMonitor => record[LPCM_CONFIGURATION] = 0x08,
            Other::Manager => record[LPCM_CONFIGURATION] = 0x80,
            Other::Nothing => {}
        }
    }
}

// The positions of the manager, and of something on the way.
#[derive(Clone, Copy)]
pub(crate) struct Asleep {
    pub manager: usize,
    pub other: usize,
}

// The manager, and something on the way.
fn put_roles(records: &mut [Record], monitors: Monitors, luck: &mut Luck) -> Asleep
    requires { length records.old ≡ 32 }
{
    let side = Place::of_manager(luck);
    let one = luck.draw(monitors.n);
    let bits = luck.draw(64);
    let (what, place) = Other::draw(luck);
    let another = luck.draw(monitors.n);
    let manager = side.unwrap_or(Place::Any).index(one, monitors);
    let other = place.index(another, monitors);
    if side.is_some() {
        put_manager(&mut records[manager], monitors, bits);
    }
    what.put(&mut records[other]);
    Asleep {
        manager: manager + 1,
        other: other + 1,
    }
}

pub(crate) fn put_to_sleep(table: &mut Table, monitors: Monitors, luck: &mut Luck) -> Asleep {
    let calm = luck.once_in(2);
    let (records, _) = table.as_chunks_mut::<RECORD_SIZE>();
    for record in records.iter_mut() {
        put_monitor(record, calm, luck);
    }
    put_roles(records, monitors, luck)
}
