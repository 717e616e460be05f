// The tables: 32 sound records, of which a chain of N is the first N; what makes one unsound; and what comes between two frames.
ghost use Rattle.std.specs.Prelude.{◌<◌};

use crate::book::Book;
use crate::luck::Luck;
use crate::outcomes::{Loan, Table};
use crate::world::{Monitors, World};
use records::{CMF1, COUNTER, LPCM_FLAGS, RECORD_SIZE, UNLOCKED};

// Codes to store or load: sixteen that follow one another are taken. One near the end is the cleared code, which neither takes.
const CODES: [i16; 32] = [
    0, 1, -1, 16, -16, -17, 1600, 1601, -1600, -1601, 2048, -2049, 4096, -4096, 8000, -8000, 9999,
    -10000, 12345, -12345, 15000, -16000, 16384, -16384, 19999, -20000, 24576, -28000, -32768,
    30000, 32767, -32767,
];

// What may come between two frames.
#[derive(Clone, Copy)]
enum Kind {
    Store,
    Compare,
    Load,
}

impl Kind {
    fn draw(luck: &mut Luck) -> Option<Kind> {
        match luck.draw(5) {
            0 => Some(Kind::Store),
            1 => Some(Kind::Compare),
            2 => Some(Kind::Load),
            _ => None,
        }
    }

    // Is it done, and not refused?
    fn is_done(self, table: &mut [u8], position: usize, codes: &[i16]) -> bool {
        match self {
            Kind::Store => loads::store(table, position, codes).is_ok(),
            Kind::Compare => loads::compare(table, position).is_ok(),
            Kind::Load => loads::load(table, position, codes).is_ok(),
        }
    }
}

// Every counter, every lock, and CMF0 and CMF1 anew: so counters come to their end, retentions are found unlocked, and there are flags to
// clear. Of CMF1 one monitor of four has the bit for LPCM, and every other bit is as likely as not.
fn stir(table: &mut Table, luck: &mut Luck) {
    let (records, _) = table.as_chunks_mut::<RECORD_SIZE>();
    for record in records.iter_mut() {
        record[COUNTER] = luck.draw(64) as u8;
        record[UNLOCKED] = luck.draw(2) as u8;
        record[LPCM_FLAGS] = luck.draw(256) as u8;
        let flags = luck.draw(512);
        record[CMF1] = (flags % 128 + flags / 384 * 128) as u8;
    }
}

impl World {
    // A new table, and no counts, for a chain.
    pub(crate) fn begin(&mut self, monitors: Monitors) {
        self.monitors = monitors;
        self.book = Book::new(monitors.n);
        self.luck.fill(&mut self.table);
        self.now_and_then_stir(1);
    }

    // Once in so many times.
    pub(crate) fn now_and_then_stir(&mut self, times: usize)
        requires { 0 < times }
    {
        if self.luck.once_in(times) {
            stir(&mut self.table, &mut self.luck);
        }
    }

    // A table to lend, and how much of it. Now and then it is not sound: a counter above 63, a lock above 1, a byte too many. There is room for
    // the reply and more, and now and then a byte too little.
    pub(crate) fn spoil(&mut self) -> (Loan, Table) {
        let n = self.monitors.n;
        let mut table = self.table;
        let chance = self.luck.draw(36);
        let at = RECORD_SIZE * self.luck.draw(n);
        match chance {
            0 => table[at + COUNTER] = 64 + self.luck.draw(192) as u8,
            1 => table[at + UNLOCKED] = 2 + self.luck.draw(254) as u8,
            _ => {}
        }
        let size = RECORD_SIZE * n + usize::from(chance == 2);
        let room = if self.luck.once_in(16) {
            8 * n - 1
        } else {
            8 * n + 16
        };
        (Loan { size, room }, table)
    }

    // Now and then a store, a compare or a load; at times of no monitor of the chain, with a byte too many in the table, or with a code
    // too few or too many. One at most, so that what is stored lies there when the next frame comes, and is compared after it.
    pub(crate) fn now_and_then_load(&mut self) {
        let Some(kind) = Kind::draw(&mut self.luck) else {
            return;
        };
        let n = self.monitors.n;
        let position = self.luck.draw(n + 2);
        let way = self.luck.draw(16);
        let from = self.luck.draw(16);
        let size = RECORD_SIZE * n + usize::from(way == 0);
        let count = match way {
            1 => 15,
            2 => 17,
            _ => 16,
        };
        let codes = &CODES[from..from + count];
        let done = kind.is_done(&mut self.table[..size], position, codes);
        match kind {
            Kind::Store => self.book.stores.add(done),
            Kind::Compare => self.book.compares.add(done),
            Kind::Load => self.book.loads.add(done),
        }
    }
}
