// What our host reads, and is it as expected?

use crate::cabinet::{Cabinet, Unread};
use crate::commands::Command;
use crate::halves::Half;
use crate::registers::Register;
use crate::steps::compare;
use std::io;

// What a half replies to a read, shown.
fn read(
    rt: &impl Print,
    cabinet: &mut Cabinet,
    command: Command,
    half: Half,
) -> io::Result<Result<Register, Unread>> {
    let count = cabinet.count_of(half);
    let register = cabinet.read(command, half);
    match register {
        Ok(register) => {
            print!(rt; " | {half}{register}")?;
            if command == Command::ReadFlags {
                let lpcm = if register.is_in_lpcm() {
                    "in LPCM"
                } else {
                    "NOT in LPCM"
                };
                print!(rt; "; {lpcm}{}", register.flags())?;
            }
        }
        Err(Unread::OtherCounter(received)) => print!(rt;
            " | monitor {} NOT read: its counter is {received}, and {count} was expected. \
            A monitor that starts anew has 0; our host counts on from there.",
            half.position()
        )?,
        Err(Unread::Damaged) => print!(rt; " | {half} NOT read")?,
    }
    Ok(register)
}

// A register of some halves is read. Is each as expected?
pub(crate) fn halves(
    rt: &impl Print,
    cabinet: &mut Cabinet,
    command: Command,
    expected: &[(Half, Result<Register, Unread>)],
) -> io::Result<bool> {
    print!(rt; "\n  {command}")?;
    let mut right = true;
    for (half, expected) in expected {
        let register = read(rt, cabinet, command, *half)?;
        right &= compare(rt, register, *expected)?;
    }
    Ok(right)
}

// The flags of the near half are shown, and how it judges.
pub(crate) fn judge(
    rt: &impl Print,
    cabinet: &mut Cabinet,
    expected: Register,
) -> io::Result<bool> {
    print!(rt; "\n  {}", Command::ReadFlags)?;
    let register = read(rt, cabinet, Command::ReadFlags, Half::Near)?;
    if let Ok(register) = register {
        print!(rt; "\n  The near half judges: {}", register.judgement())?;
    }
    compare(rt, register, Ok(expected))
}
