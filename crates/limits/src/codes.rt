// Codes loaded, stored or compared in two monitors, and what is expected of it.
use crate::begun::TWO;
use crate::bench::RECORD;
use crate::buffers::{Buffer, holding, lay};
use crate::case::{Case, as_wanted};
use crate::deeds::Deed;
use crate::held::Held;
use crate::say::{Bytes, Changes, Refused};
use crate::starts::{Start, Step};
use refusals::Refusal;
use std::io;

#[derive(Clone, Copy)]
pub(crate) struct CodeCase {
    pub name: &'static str,
    pub start: Start,
    pub deed: Deed,
    pub outcome: Result<(), Refusal>,
    // The flags that are expected at that position, after a refusal too, status D bytes 0 to 3, and other bytes. Every other byte stays as it
    // was.
    pub flags: u32,
    pub held: Option<Held>,
}

// What is done with no flag set.
pub(crate) const PLAIN: CodeCase = CodeCase {
    name: "",
    start: TWO,
    deed: Deed::Compare(2),
    outcome: Ok(()),
    flags: 0,
    held: None,
};

// What is refused at the first monitor of `TWO`, whose flags stay, or at no monitor.
pub(crate) const REFUSED: CodeCase = CodeCase {
    flags: 0x5354_5556,
    ..PLAIN
};

// WRCFGB with these thresholds.
pub(crate) const VUV_0_VOV_100: Step = Step::Thresholds(0x0040_0600_0000_01c2);

pub(crate) const VUV_100_VOV_0: Step = Step::Thresholds(0x6400_0000_0000_01df);

pub(crate) const VUV_MINUS_1_VOV_0: Step = Step::Thresholds(0xff0f_0000_0000_017b);

pub(crate) const VUV_2047_VOV_0: Step = Step::Thresholds(0xff07_0000_0000_02a4);

impl CodeCase {
    // The table expected.
    fn table(&self, before: &[u8]) -> Buffer {
        let mut table = holding(before);
        if let Some(held) = self.held {
            held.put(&mut table);
        }
        for (position, record) in (1_usize..3).zip(table.chunks_mut(RECORD)) {
            if position == self.deed.position() {
                lay(record, 50, &self.flags.to_be_bytes());
            }
        }
        table
    }
}

// What was done, with what has changed and the flags of both monitors.
fn told<R: Print>(rt: &R, deed: Deed, before: &[u8], after: &[u8]) -> io::Result<()> {
    print!(rt; "{}{}; flags", deed.word(), Changes { before, after })?;
    for (between, record) in ["", " and"].iter().zip(after.chunks(RECORD)) {
        print!(rt; "{between}{}", Bytes(record.get(50..54).unwrap_or(&[])))?;
    }
    Ok(())
}

impl Case for CodeCase {
    fn tried<R: Print>(&self, rt: &R) -> io::Result<bool> {
        let before = self.start.table(2);
        let mut table = holding(&before);
        let came = self.deed.done(&mut table);
        let wanted = self.table(&before);
        let right = as_wanted(came, self.outcome) && table == wanted;
        print!(rt; "{}", self.name)?;
        match came {
            Err(refusal) => print!(rt; "{}", Refused(refusal))?,
            Ok(()) => told(rt, self.deed, &before, &table)?,
        }
        if came.is_err() && right {
            print!(rt; ", table as before")?;
        }
        Ok(right)
    }
}
