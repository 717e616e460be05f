// What is left of the file. Numbers have their high byte first.
use std::io;
use thiserror::Error;

// Why nothing more is said of the file. What `main` hands on for printing fails in no write, so the last is there for its type alone.
#[derive(Debug, Drop, Error)]
pub(crate) enum Stop {
    #[error("ends early")]
    EndsEarly,
    #[error("longer than {MOST_BYTES} bytes, not looked at")]
    TooLong,
    #[error(transparent)]
    Output(#[from] io::Error),
}

pub(crate) const MOST_BYTES: usize = 32768;

#[derive(Drop)]
pub(crate) struct File<'a> {
    left: &'a [u8],
}

impl<'a> File<'a> {
    pub(crate) fn new(bytes: &'a [u8]) -> File<'a> {
        File { left: bytes }
    }

    pub(crate) fn is_at_end(&self) -> bool {
        self.left.is_empty()
    }

    pub(crate) fn bytes(&mut self, count: usize) -> Result<&'a [u8], Stop> {
        let Some((bytes, left)) = self.left.split_at_checked(count) else {
            return Err(Stop::EndsEarly);
        };
        self.left = left;
        Ok(bytes)
    }

    pub(crate) fn array<const SIZE: usize>(&mut self) -> Result<[u8; SIZE], Stop> {
        let Some((bytes, left)) = self.left.split_first_chunk() else {
            return Err(Stop::EndsEarly);
        };
        self.left = left;
        Ok(*bytes)
    }

    pub(crate) fn u8(&mut self) -> Result<u8, Stop> {
        Ok(u8::from_be_bytes(self.array()?))
    }

    pub(crate) fn u16(&mut self) -> Result<u16, Stop> {
        Ok(u16::from_be_bytes(self.array()?))
    }

    pub(crate) fn u64(&mut self) -> Result<u64, Stop> {
        Ok(u64::from_be_bytes(self.array()?))
    }
}
