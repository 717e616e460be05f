// What is sent of the two check words of document 01, and is it right: a command's check, a payload's seal.
ghost use Rattle.std.specs.Prelude.{◌≡◌, ◌∷◌, ◌++◌, ◌+◌, ◌*◌, ◌%◌, ◌^◌, ◌<◌};
ghost use Rattle.laws.specs.Bits.{bits_of};
ghost use Rattle.pec.specs.Remainder.{remainder};
ghost use Rattle.pec.specs.Words.{
  two_bytes,
  command_check,
  command_right,
  polynomial10,
  seal,
  sealed_right,
  payload_right,
  counter_of,
  number_in,
  number_right,
};

use pec::{nothing_left, of_command, remainder_10};

// A 16-bit number as it is sent, the high byte first.
pub fn two_bytes(n: u16) -> [u8; 2]
    ensures { result ≡ two_bytes n }
{
    n.to_be_bytes()
}

// The two bytes sent after a command code.
pub fn command_check(code: u16) -> [u8; 2]
    ensures { result ≡ command_check code }
{
    let check = of_command(code);
    two_bytes(check * 2)
}

// Are four bytes a command and its check?
#[tactic(auto, unfolding(pec::specs::Words::command_right))]
pub fn command_right(four: &[u8]) -> bool
    ensures { result ≡ command_right four.now }
{
    let [a, b, c, d] = *four else {
        return false;
    };
    let check = of_command(u16::from_be_bytes([a, b]));
    // Byte by byte: the last may have been clocked in just before, and a load of two or four would wait for it to be written.
    let sent = u32::from(c) * 256 + u32::from(d);
    sent == u32::from(check) * 2
}

// What the start value leaves of 54 zero bits. The remainder is linear: from the start value it is that from 0, and this added.
const OF_54_ZEROS: u16 = 0x3e3;

// The 10-bit remainder of a payload's message: 54 bits, those of six bytes and the six of a counter.
fn of_message(message: u64) -> u16
    requires { message < 2 ^ 54 }
    ensures { result ≡ remainder 10 polynomial10 16 (bits_of 54 message) }
{
    remainder_10(message) ^ OF_54_ZEROS
}

// A payload as one number: six bytes, which are given as one, and behind them the counter's six bits and the check.
fn sealed_number(six: u64, counter: u8) -> u64
    requires { six < 2 ^ 48 }
    ensures { result ≡ (six * 64 + counter % 64) * 1024 + remainder 10 polynomial10 16 (bits_of 54 (six * 64 + counter % 64)) }
{
    let message = six * 64 + u64::from(counter % 64);
    let check = of_message(message);
    message * 1024 + u64::from(check)
}

// A payload: six bytes, and the two that seal them.
pub fn sealed(six: &[u8; 6], counter: u8) -> [u8; 8]
    ensures { result ≡ six.now ++ seal six.now counter }
{
    let [a, b, c, d, e, f] = *six;
    // In two parts, and not by `from_be_bytes`, with which a read of 32 monitors misses its goal: where the six are no load of their own, as in
    // a reply, it lays them the other way round first.
    let four = ((u64::from(a) * 256 + u64::from(b)) * 256 + u64::from(c)) * 256 + u64::from(d);
    let number = four * 65536 + (u64::from(e) * 256 + u64::from(f));
    // The six go on as they came: taken from the number again each would cost a shift.
    let [.., g, h] = sealed_number(number, counter).to_be_bytes();
    [a, b, c, d, e, f, g, h]
}

// Eight bytes as one number, and 0 for another length. This and the next are the two halves of `payload_right`, each small enough for
// the compiler to keep it in a caller's loop.
pub fn number_in(eight: &[u8]) -> u64
    ensures value { result ≡ number_in eight.now }
    ensures result_value { number_right result ≡ payload_right eight.now }
{
    let Ok(eight) = <[u8; 8]>::try_from(eight) else {
        return 0;
    };
    u64::from_be_bytes(eight)
}

// Is a payload right that is one number?
pub fn number_right(payload: u64) -> bool
    ensures { result ≡ number_right payload }
{
    nothing_left(payload)
}

// Are eight bytes a payload and its check, over the six counter bits as they stand?
pub fn payload_right(eight: &[u8]) -> bool
    ensures { result ≡ payload_right eight.now }
{
    number_right(number_in(eight))
}

// The counter that a payload carries: the six high bits of its seventh byte, and 0 where it has none.
pub fn counter_in(eight: &[u8]) -> u8
    ensures { result ≡ counter_of eight.now }
{
    match eight.get(6) {
        Some(seventh) => seventh / 4,
        None => 0,
    }
}

// The bytes 00 00 01 1A as one number. They lead the check back to its start value. With them in front, two bytes have the check that
// they have alone: what seals six, and what tells whether eight are right, does so for two and for four.
const LEAD: u64 = 0x0000_011a;

// Two bytes, and the two that seal them.
pub fn sealed_two(two: &[u8; 2], counter: u8) -> [u8; 4]
    ensures { result ≡ two.now ++ seal two.now counter }
{
    let number = (LEAD << 16) + u64::from(u16::from_be_bytes(*two));
    let [_, _, _, _, a, b, c, d] = sealed_number(number, counter).to_be_bytes();
    [a, b, c, d]
}

// Two bytes of data and the two that seal them as one number, and 0 for another length: what `number_in` is for a payload.
pub fn four_in(four: &[u8]) -> u64
    ensures value { result ≡ number_in (0x00 ∷ 0x00 ∷ 0x01 ∷ 0x1A ∷ four.now) }
    ensures result_value { number_right result ≡ sealed_right 2 four.now }
{
    let Ok(four) = <[u8; 4]>::try_from(four) else {
        return 0;
    };
    (LEAD << 32) + u64::from(u32::from_be_bytes(four))
}

// Are four bytes two of data and their check, over the six counter bits as they stand?
pub fn four_right(four: &[u8]) -> bool
    ensures { result ≡ sealed_right 2 four.now }
{
    number_right(four_in(four))
}
