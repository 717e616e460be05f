// A heartbeat's eight bytes: the monitors' command, the count, the flags, and the two that seal these.
ghost use Rattle.std.specs.Prelude.{◌≡◌};
ghost use Rattle.messages.specs.Messages.{message, message_right};

use check_words::{four_right, sealed_two};

pub const MESSAGE_SIZE: usize = 8;

// CMHB and its check, which no message is without.
const HEAD: [u8; 4] = [0x00, 0x43, 0x47, 0xb2];

// A message with the counter 0, as it is sent. Two copies into an array of zeros take twice as long: their bytes go through memory.
pub fn message(count: u8, flags: u8) -> [u8; 8]
    ensures { result ≡ message count flags }
{
    let [a, b, c, d] = HEAD;
    let [e, f, g, h] = sealed_two(&[count, flags], 0);
    [a, b, c, d, e, f, g, h]
}

// Is a message right in length, command, command check and data check, over the six counter bits as they stand?
pub fn message_right(bytes: &[u8]) -> bool
    ensures { result ≡ message_right bytes.now }
{
    match bytes.strip_prefix(&HEAD) {
        Some(own) => four_right(own),
        None => false,
    }
}
