// What goes over the wires: a frame of our host for both monitors, and the message of a heartbeat.

ghost use Rattle.std.specs.Prelude.{◌≤◌};

use refusals::Refusal;
use std::fmt;

// The most is a write: a command and its check, and eight bytes for each monitor.
const MOST_BYTES: usize = 20;

// The length stands beside the bytes: in a `Vec` a build could fail in two ways, by a refusal and for want of memory.
// `balancing` has it too, as it has the halves.
#[derive(Drop)]
pub(crate) struct Frame {
    bytes: [u8; MOST_BYTES],
    length: usize,
    ghost within: { length ≤ 20 },
}

impl Frame {
    #[tactic(auto, unfolding(host::specs::Frames::built, host::specs::Frames::build_refusals, refusals::specs::Order::decide))]
    pub(crate) fn build(code: u16, values: &[u8]) -> Result<Frame, Refusal> {
        let mut bytes = [0; MOST_BYTES];
        let length = host::build(code, 2, values, &mut bytes)?;
        Ok(Frame { bytes, length })
    }

    pub(crate) fn bytes(&self) -> &[u8] {
        &self.bytes[..self.length]
    }
}

impl fmt::Display for Frame {
    fn fmt<W: fmt::Write>(&self, f: &mut fmt::Formatter<W>) -> fmt::Result {
        show_parts(self.bytes(), f)
    }
}

// A message of a heartbeat: the monitors' command and its check, the count, the flags, and the two bytes that seal these.
#[derive(Clone, Copy, Debug, PartialEq, Eq)]
pub(crate) struct Message(pub(crate) [u8; 8]);

// What a monitor says in a message.
#[derive(Clone, Copy, Debug, PartialEq, Eq)]
pub(crate) enum Field {
    Count,
    Flags,
}

impl Message {
    // The same with the lowest bit of a field turned over.
    pub(crate) fn disturbed(self, field: Field) -> Message {
        let Message(mut bytes) = self;
        match field {
            Field::Count => bytes[4] ^= 1,
            Field::Flags => bytes[5] ^= 1,
        }
        Message(bytes)
    }
}

impl fmt::Display for Message {
    fn fmt<W: fmt::Write>(&self, f: &mut fmt::Formatter<W>) -> fmt::Result {
        show_parts(&self.0, f)
    }
}

// Bytes in hexadecimal. Bars part the first four, a command and its check, and the two halves of the others.
fn show_parts<W: fmt::Write>(bytes: &[u8], f: &mut fmt::Formatter<W>) -> fmt::Result {
    let middle = bytes.len() / 2 + 2;
    for (i, byte) in bytes.iter().enumerate() {
        if i == 4 || i == middle {
            write!(f, " |")?;
        }
        write!(f, " {byte:02x}")?;
    }
    Ok(())
}
