// A frame of our host for both monitors.

ghost use Rattle.std.specs.Prelude.{◌≤◌};

use refusals::Refusal;
use std::fmt;

// The most is a write: a command and its check, and eight bytes for each monitor.
const MOST_BYTES: usize = 20;

// The length stands beside the bytes: in a `Vec` a build could fail in two ways, by a refusal and for want of memory.
// `night` has it too, as it has the halves.
#[derive(Drop)]
pub(crate) struct Frame {
    bytes: [u8; MOST_BYTES],
    length: usize,
    ghost within: { length ≤ 20 },
}

impl Frame {
    #[tactic(auto, unfolding(host::specs::Frames::built, host::specs::Frames::build_refusals, refusals::specs::Order::decide))]
    pub(crate) fn build(code: u16, values: &[u8]) -> Result<Frame, Refusal> {
        let mut bytes = [0; MOST_BYTES];
        let length = host::build(code, 2, values, &mut bytes)?;
        Ok(Frame { bytes, length })
    }

    pub(crate) fn bytes(&self) -> &[u8] {
        &self.bytes[..self.length]
    }
}

// In hexadecimal. Bars part the command with its check from the payloads. `cabinet` and `spikes` show them too: a function of a library needs a promise and its line in the first demand.
impl fmt::Display for Frame {
    fn fmt<W: fmt::Write>(&self, f: &mut fmt::Formatter<W>) -> fmt::Result {
        for (i, byte) in self.bytes().iter().enumerate() {
            if i % 8 == 4 {
                write!(f, " |")?;
            }
            write!(f, " {byte:02x}")?;
        }
        Ok(())
    }
}
