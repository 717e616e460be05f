// The two remainders by shifts alone, of a message that is one number. Where the polynomial is x^w (1 + a), with a in negative powers of
// x, the quotient is the message times (1 + a)(1 + a^2)(1 + a^4) and so on, since 1 + 1 = 0; the remainder is the w low bits of the
// quotient times the polynomial's terms below x^w. There is no table, and no byte waits for the one before it.
// Each width has its own function: the shifts are different numbers, and a list of them that is read as the program runs would cost what is saved.
ghost use Rattle.std.specs.Prelude.{◌≡◌, ◌≤◌};
ghost use Rattle.laws.specs.Bits.{bits_of};
ghost use Rattle.pec.specs.Remainder.{remainder};
ghost use Rattle.pec.specs.ByShifts.{times_one};
ghost use Rattle.pec.specs.Words.{polynomial10, polynomial15, number_right};

// A number times 1 + a^k, for the ten-bit polynomial: its a is y^3 + y^7 (1 + y)(1 + y^2), where y moves a number down one place, and
// to the power k, a power of 2, every exponent is k times what it was.
fn times(x: u64, k: u64) -> u64
    requires { k ≤ 8 }
    ensures { result ≡ times_one k x }
{
    let far = x >> (7 * k);
    let two = far ^ (far >> k);
    let four = two ^ (two >> (2 * k));
    x ^ (x >> (3 * k)) ^ four
}

// The 10-bit remainder of 64 bits, from 0. The polynomial's lower terms are (1 + x)(1 + x^2) + x^7.
pub fn remainder_10(message: u64) -> u16
    ensures { result ≡ remainder 10 polynomial10 0 (bits_of 64 message) }
{
    let d = times(times(times(times(message, 1), 2), 4), 8);
    let e = d ^ (d >> 48);
    let q = e % 1024;
    let two = q ^ (q * 2);
    let four = two ^ (two * 4);
    let left = (four ^ (q * 128)) % 1024;
    left as u16
}

// The 15-bit remainder of 16 bits, from 0.
fn remainder_15(message: u16) -> u16
    ensures { result ≡ remainder 15 polynomial15 0 (bits_of 16 message) }
{
    let m = message as u64;
    let a = m ^ (m >> 1) ^ (m >> 5) ^ (m >> 7) ^ (m >> 8) ^ (m >> 11) ^ (m >> 12) ^ (m >> 15);
    let b = a ^ (a >> 2) ^ (a >> 10) ^ (a >> 14);
    let c = b ^ (b >> 4);
    let d = c ^ (c >> 8);
    let q = d % 32768;
    let left = (q ^ (q * 8) ^ (q * 16) ^ (q * 128) ^ (q * 256) ^ (q * 1024) ^ (q * 16384)) % 32768;
    left as u16
}

// What the start value leaves of so many zero bits. The remainder is linear: from the start value it is that from 0, and this added.
const OF_16_ZEROS: u16 = 0x5b2e;

const OF_64_ZEROS: u16 = 0x04c;

// The 15-bit remainder of a command's 16 bits, from the start value.
pub fn of_command(code: u16) -> u16
    ensures { result ≡ remainder 15 polynomial15 16 (bits_of 16 code) }
{
    remainder_15(code) ^ OF_16_ZEROS
}

// Is nothing left of a payload, with its own check as its last bits? That one division by all 64 bits tells what is right.
pub fn nothing_left(payload: u64) -> bool
    ensures { result ≡ number_right payload }
{
    remainder_10(payload) == OF_64_ZEROS
}
