// The payloads of the file: data bytes, six of them or two, a counter, and the two bytes that are sent after the data bytes.
use crate::count::count;
use crate::data::{Data, Kind};
use crate::file::{File, Stop};
use std::fmt;

#[derive(Clone, Copy, Default)]
pub(crate) struct Payloads {
    seen: u64,
    check_word: u64,
    sealed: u64,
    taken: u64,
    with_one_bit_wrong: u64,
    wrong_taken: u64,
}

impl Payloads {
    // Each bit that is sent, wrong alone.
    fn try_each_bit_wrong(&mut self, data: &Data, sent: &mut [u8]) {
        for place in 0..sent.len() {
            for bit in 0..8u32 {
                let right = sent[place];
                sent[place] ^= 0x80 >> bit;
                count(&mut self.with_one_bit_wrong, true);
                count(&mut self.wrong_taken, data.is_right(sent));
                sent[place] = right;
            }
        }
    }

    // The last ten bits of the two bytes are the check word. The seal is to be as expected both ways.
    fn compare(&mut self, data: &Data, counter: u8, seal: [u8; 2]) {
        let check_word = u16::from_be_bytes(seal) % 1024;
        let bytes = data.bytes();
        count(&mut self.seen, true);
        count(
            &mut self.check_word,
            remainders::data_pec(bytes, counter) == check_word,
        );
        count(
            &mut self.sealed,
            remainders::seal(bytes, counter) == seal && data.is_sealed_with(counter, seal),
        );
    }

    // The bytes as they are sent, and then each bit of them wrong.
    fn try_sent(&mut self, data: &Data, sent: &mut [u8]) {
        count(&mut self.taken, data.is_right(sent));
        self.try_each_bit_wrong(data, sent);
    }

    // One record.
    fn compare_next(&mut self, kind: Kind, file: &mut File) -> Result<(), Stop> {
        let data = kind.read(file)?;
        let counter = file.u8()?;
        let seal = file.array()?;
        self.compare(&data, counter, seal);
        let [first, second] = seal;
        match data {
            Data::Payload(six) => {
                let [a, b, c, d, e, f] = six;
                self.try_sent(&data, &mut [a, b, c, d, e, f, first, second]);
            }
            Data::Pair(two) => {
                let [a, b] = two;
                self.try_sent(&data, &mut [a, b, first, second]);
            }
        }
        Ok(())
    }

    // A part of the file. Where it ends early, the records that are whole are counted.
    pub(crate) fn compare_all(&mut self, kind: Kind, file: &mut File) -> Result<(), Stop> {
        for _ in 0..file.u16()? {
            self.compare_next(kind, file)?;
        }
        Ok(())
    }
}

impl fmt::Display for Payloads {
    fn fmt<W: fmt::Write>(&self, f: &mut fmt::Formatter<W>) -> fmt::Result {
        write!(f, "{}, check word right {}", self.seen, self.check_word)?;
        write!(f, ", sealed as expected {}", self.sealed)?;
        write!(f, ", taken as right {}", self.taken)?;
        write!(f, "; with one bit wrong {}", self.with_one_bit_wrong)?;
        write!(f, ", taken as right {}", self.wrong_taken)
    }
}
