// What the records of a table hold after a case.
use crate::bench::RECORD;
use crate::buffers::lay;

// What the first and the second record hold.
#[derive(Clone, Copy)]
pub(crate) enum Held {
    // At a place these eight bytes.
    Eights(usize, [u64; 2]),
    // The same code in each cell, as its two bytes lie.
    Cells([u16; 2]),
}

// Where the cells of a record are copied to.
#[derive(Clone, Copy)]
pub(crate) enum Copied {
    Nowhere,
    // A snapshot in the second monitor.
    SecondAt82,
    // The last cells of LPCM in both, and in the second.
    BothAt138,
    SecondAt138,
}

// The cells as they were lent, of the first monitor and of the second.
const CELLS_OF_FIRST: &[u8] = b"\x2d\x2e\x2f\x30\x31\x32\x33\x34\x35\x36\x37\x38\x39\x3a\x3b\x3c\
    \x3d\x3e\x3f\x40\x41\x42\x43\x44\x45\x46\x47\x48\x49\x4a\x4b\x4c";

const CELLS_OF_SECOND: &[u8] = b"\x99\x9a\x9b\x9c\x9d\x9e\x9f\xa0\xa1\xa2\xa3\xa4\xa5\xa6\xa7\xa8\
    \xa9\xaa\xab\xac\xad\xae\xaf\xb0\xb1\xb2\xb3\xb4\xb5\xb6\xb7\xb8";

impl Copied {
    pub(crate) fn put(self, table: &mut [u8]) {
        match self {
            Copied::Nowhere => {}
            Copied::SecondAt82 => lay(table, RECORD + 82, CELLS_OF_SECOND),
            Copied::BothAt138 => {
                lay(table, 138, CELLS_OF_FIRST);
                lay(table, RECORD + 138, CELLS_OF_SECOND);
            }
            Copied::SecondAt138 => lay(table, RECORD + 138, CELLS_OF_SECOND),
        }
    }
}

impl Held {
    // Monitors past the second hold what the second does.
    pub(crate) fn put(self, table: &mut [u8]) {
        for (k, record) in table.chunks_mut(RECORD).enumerate() {
            let of = k.min(1);
            match self {
                Held::Eights(at, eights) => lay(record, at, &eights[of].to_be_bytes()),
                Held::Cells(cells) => {
                    for cell in 0..16 {
                        lay(record, 12 + 2 * cell, &cells[of].to_be_bytes());
                    }
                }
            }
        }
    }
}
