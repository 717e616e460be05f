// Data bytes, and how they are sealed and checked.
use crate::file::{File, Stop};

// A payload's six data bytes, or a pair.
#[derive(Clone, Copy)]
pub(crate) enum Data {
    Payload([u8; 6]),
    Pair([u8; 2]),
}

#[derive(Clone, Copy)]
pub(crate) enum Kind {
    Payload,
    Pair,
}

impl Kind {
    pub(crate) fn read(self, file: &mut File) -> Result<Data, Stop> {
        match self {
            Kind::Payload => Ok(Data::Payload(file.array()?)),
            Kind::Pair => Ok(Data::Pair(file.array()?)),
        }
    }
}

impl Data {
    pub(crate) fn bytes(&self) -> &[u8] {
        match self {
            Data::Payload(six) => six,
            Data::Pair(two) => two,
        }
    }

    // Does the crate check_words send them with these two bytes after them?
    pub(crate) fn is_sealed_with(&self, counter: u8, seal: [u8; 2]) -> bool {
        match self {
            Data::Payload(six) => {
                let [.., first, second] = check_words::sealed(six, counter);
                [first, second] == seal
            }
            Data::Pair(two) => {
                let [.., first, second] = check_words::sealed_two(two, counter);
                [first, second] == seal
            }
        }
    }

    // Is what was sent for such data taken as right?
    pub(crate) fn is_right(&self, sent: &[u8]) -> bool {
        match self {
            Data::Payload(_) => check_words::payload_right(sent),
            Data::Pair(_) => check_words::four_right(sent),
        }
    }
}
