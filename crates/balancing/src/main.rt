// A backup-battery cabinet that balances. Our host writes the duties of its cells; then its outputs are asked for, while nothing else goes
// on and while something does, muted and not. What is expected stands beside each step, worked out from the paper and not from the chain.
#![tactic(auto)]

mod cabinet;
mod commands;
mod fifteenths;
mod frames;
mod halves;
mod outputs;
mod plan;
mod portal;
mod said;
mod steps;

use cabinet::Cabinet;
use plan::{DUTIES, PLAN};
use said::ToItsEnd;
use std::io;

fn run(rt: &impl Print) -> io::Result<()> {
    print!(rt;
        "A cabinet balancing: two halves of 16 cells, one monitor each, on one chain.\n\
        Duties ordered for cells 1 to 16, in fifteenths of the time:\n  \
        near half:{}\n  \
        far half: {}; cell 13 is held on by its DCC bit\n\n\
        Our host writes both PWM groups and configuration B, the far half's payload first.",
        DUTIES.near, DUTIES.far
    )?;
    let mut cabinet = Cabinet::new();
    let mut right = true;
    for step in &PLAN {
        right &= steps::take(rt, &mut cabinet, step)?;
    }
    if right {
        print!(rt;
            "\n\nAll as it should be: both halves balance by their own duties, \
            every row of Table 27 was seen to decide, and a mute holds all off.\n"
        )
    } else {
        print!(rt; "\n\nNOT as it should be: see above.\n")
    }
}

// The status is 0 also where a write has failed.
fn main(rt: HostRuntime) {
    let _ = run(&ToItsEnd { by: &rt });
}
