// What is said of a half and of the whole pack.
use crate::seen::{Found, Seen};
use crate::sums::Sums;
use ports::Port;
use std::io;

fn where_read(port: Option<Port>) -> &'static str {
    match port {
        Some(Port::A(_)) => "read at port A",
        Some(Port::B(_)) => "read at port B, since what came to port A was damaged",
        None => "NOT read at one port",
    }
}

fn counter(rt: &impl Print, received: u8, expected: u8) -> io::Result<()> {
    if received == expected {
        println!(rt; "  counter {received}, as expected")
    } else {
        println!(rt; "  counter {received}, but {expected} was expected: it MISSED a write")
    }
}

fn flags(rt: &impl Print, seen: &Seen, found: &Found) -> io::Result<()> {
    print!(rt; "  flags up:")?;
    for (number, cell) in seen.cells.iter().enumerate() {
        if cell.flags.any() {
            print!(rt; " cell {}{}", number + 1, cell.flags)?;
        }
    }
    if found.flagged == 0 {
        print!(rt; " none")?;
    }
    let wrong = found.wrong;
    println!(rt; "\n  cells with wrong flags, by the thresholds ordered: {wrong}")
}

// All that is read of a half.
pub(crate) fn half(rt: &impl Print, seen: &Seen, found: &Found, sums: &Sums) -> io::Result<()> {
    let half = seen.half;
    println!(rt;
        "{half}, monitor {}, {}",
        half.monitor(),
        where_read(found.port)
    )?;
    if let Some(received) = found.counter {
        counter(rt, received, seen.expected)?;
    }
    println!(rt; "  holds {}: {}", seen.limits, found.owner)?;
    println!(rt; "  lowest cell: {} at {}", sums.lowest_cell, sums.lowest)?;
    flags(rt, seen, found)
}

pub(crate) fn pack(rt: &impl Print, count: Option<usize>, sums: &Sums) -> io::Result<()> {
    print!(rt;
        "pack: {} cells, lowest {}",
        count.unwrap_or(0),
        sums.lowest
    )?;
    println!(rt; ", highest {}, total {}", sums.highest, sums.total)
}
