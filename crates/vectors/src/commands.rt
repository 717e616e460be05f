// The checks of all the 65,536 command codes. The file has one digest of them.
ghost use Rattle.std.specs.Prelude.{◌≡◌, ◌+◌, ◌*◌, ◌%◌, ◌<◌};

use crate::count::count;
use std::fmt;

#[derive(Clone, Copy)]
pub(crate) struct Commands {
    codes: u64,
    taken: u64,
    wrong_taken: u64,
    digest: u32,
}

// The commands, and the digest that the file has.
#[derive(Clone, Copy)]
pub(crate) struct Compared {
    pub commands: Commands,
    pub expected: u64,
}

// The digest with one check more.
fn digested(digest: u32, check: u16) -> u32
    ensures value { result ≡ (digest * 31 + check) % 4294967291 }
    ensures upper_bound { result < 4294967291 }
{
    ((u64::from(digest) * 31 + u64::from(check)) % 4_294_967_291) as u32
}

fn is_right(code: u16, check: [u8; 2]) -> bool {
    let [high, low] = code.to_be_bytes();
    let [first, second] = check;
    check_words::command_right(&[high, low, first, second])
}

impl Commands {
    // A check's last bit is always 0, so one with a 1 there is to be refused.
    fn note(&mut self, code: u16) {
        let check = check_words::command_check(code);
        let [first, second] = check;
        count(&mut self.codes, true);
        count(&mut self.taken, is_right(code, check));
        count(&mut self.wrong_taken, is_right(code, [first, second | 1]));
        self.digest = digested(self.digest, u16::from_be_bytes(check));
    }

    pub(crate) fn all() -> Commands {
        let mut commands = Commands {
            codes: 0,
            taken: 0,
            wrong_taken: 0,
            digest: 1,
        };
        for code in 0..=u16::MAX {
            commands.note(code);
        }
        commands
    }
}

impl fmt::Display for Compared {
    fn fmt<W: fmt::Write>(&self, f: &mut fmt::Formatter<W>) -> fmt::Result {
        let commands = self.commands;
        let as_expected = if u64::from(commands.digest) == self.expected {
            "as expected"
        } else {
            "not as expected"
        };
        write!(f, "command checks: {} codes", commands.codes)?;
        write!(f, ", digest {:08x} {as_expected}", commands.digest)?;
        write!(f, "; taken as right {}", commands.taken)?;
        write!(
            f,
            "; with a 1 in the last place taken as right {}",
            commands.wrong_taken
        )
    }
}
