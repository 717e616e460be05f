// The sizes and the values at which a table stops being sound.
use crate::buffers::{filled, lay};
use crate::case::Case;
use std::io;

#[derive(Clone, Copy)]
pub(crate) struct Byte {
    at: u16,
    value: u8,
}

// So many bytes of 0, of which one may be set.
#[derive(Clone, Copy)]
pub(crate) struct Soundness {
    size: u16,
    set: Option<Byte>,
    sound: bool,
}

pub(crate) static CASES: [Soundness; 23] = [
    Soundness {
        size: 0,
        set: None,
        sound: false,
    },
    // shorter than a record, and one byte more or less than one and than 32
    Soundness {
        size: 70,
        set: None,
        sound: false,
    },
    Soundness {
        size: 82,
        set: None,
        sound: false,
    },
    Soundness {
        size: 114,
        set: None,
        sound: false,
    },
    Soundness {
        size: 169,
        set: None,
        sound: false,
    },
    Soundness {
        size: 170,
        set: None,
        sound: true,
    },
    Soundness {
        size: 171,
        set: None,
        sound: false,
    },
    Soundness {
        size: 5439,
        set: None,
        sound: false,
    },
    Soundness {
        size: 5440,
        set: None,
        sound: true,
    },
    Soundness {
        size: 5441,
        set: None,
        sound: false,
    },
    Soundness {
        size: 5610,
        set: None,
        sound: false,
    },
    // the counter and byte 69, in the first record and in the second
    Soundness {
        size: 340,
        set: Some(Byte { at: 68, value: 63 }),
        sound: true,
    },
    Soundness {
        size: 340,
        set: Some(Byte { at: 68, value: 64 }),
        sound: false,
    },
    Soundness {
        size: 340,
        set: Some(Byte { at: 238, value: 63 }),
        sound: true,
    },
    Soundness {
        size: 340,
        set: Some(Byte { at: 238, value: 64 }),
        sound: false,
    },
    Soundness {
        size: 340,
        set: Some(Byte { at: 69, value: 1 }),
        sound: true,
    },
    Soundness {
        size: 340,
        set: Some(Byte { at: 69, value: 2 }),
        sound: false,
    },
    Soundness {
        size: 340,
        set: Some(Byte { at: 239, value: 1 }),
        sound: true,
    },
    Soundness {
        size: 340,
        set: Some(Byte { at: 239, value: 2 }),
        sound: false,
    },
    // what lies beside them, CMF1, and the last byte of the first record
    Soundness {
        size: 340,
        set: Some(Byte { at: 67, value: 255 }),
        sound: true,
    },
    Soundness {
        size: 340,
        set: Some(Byte { at: 70, value: 255 }),
        sound: true,
    },
    Soundness {
        size: 340,
        set: Some(Byte {
            at: 133,
            value: 255,
        }),
        sound: true,
    },
    Soundness {
        size: 340,
        set: Some(Byte {
            at: 169,
            value: 255,
        }),
        sound: true,
    },
];

impl Case for Soundness {
    fn tried<R: Print>(&self, rt: &R) -> io::Result<bool> {
        let mut table = filled(0, usize::from(self.size));
        print!(rt; "table, bytes {}", self.size)?;
        if let Some(Byte { at, value }) = self.set {
            lay(&mut table, usize::from(at), &[value]);
            print!(rt; ", at {at} the value {value}")?;
        }
        let sound = judging::sound(&table);
        print!(rt; "{}", if sound { ": sound" } else { ": not sound" })?;
        Ok(sound == self.sound)
    }
}
