// The strings of the file, each with its two check words.
use crate::count::count;
use crate::file::{File, Stop};
use std::fmt;

#[derive(Clone, Copy, Default)]
pub(crate) struct Strings {
    seen: u64,
    fifteen_bitwise: u64,
    fifteen_by_table: u64,
    ten_bitwise: u64,
    ten_by_table: u64,
}

impl Strings {
    // One record: a length, so many bytes, and the two check words.
    fn compare_next(&mut self, file: &mut File) -> Result<(), Stop> {
        let size = file.u8()?;
        let string = file.bytes(usize::from(size))?;
        let fifteen = file.u16()?;
        let ten = file.u16()?;
        count(&mut self.seen, true);
        count(
            &mut self.fifteen_bitwise,
            remainders::pec15_bitwise(string) == fifteen,
        );
        count(
            &mut self.fifteen_by_table,
            remainders::pec15_by_table(string) == fifteen,
        );
        count(
            &mut self.ten_bitwise,
            remainders::pec10_bitwise(string) == ten,
        );
        count(
            &mut self.ten_by_table,
            remainders::pec10_by_table(string) == ten,
        );
        Ok(())
    }

    // The first part of the file. Where it ends early, the records that are whole are counted.
    pub(crate) fn compare_all(&mut self, file: &mut File) -> Result<(), Stop> {
        for _ in 0..file.u16()? {
            self.compare_next(file)?;
        }
        Ok(())
    }
}

impl fmt::Display for Strings {
    fn fmt<W: fmt::Write>(&self, f: &mut fmt::Formatter<W>) -> fmt::Result {
        write!(f, "strings: {}", self.seen)?;
        write!(f, ", pec15 bit by bit {} right", self.fifteen_bitwise)?;
        write!(f, ", through the table {} right", self.fifteen_by_table)?;
        write!(f, ", pec10 bit by bit {} right", self.ten_bitwise)?;
        write!(f, ", through the table {} right", self.ten_by_table)
    }
}
