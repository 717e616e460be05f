// A backup-battery cabinet goes to sleep. Our host sets up low power cell monitoring (LPCM) in its two halves. Then come nights in which all is
// well, a cell runs low, a cell jumps, a message is damaged, a monitor drops out, and in which a monitor judges in the host's place. What is
// expected stands beside each step, worked out from the paper and not from the chain.
#![tactic(auto)]

mod beats;
mod cabinet;
mod codes;
mod commands;
mod frames;
mod halves;
mod plan;
mod read_back;
mod registers;
mod said;
mod steps;

use cabinet::Cabinet;
use plan::{PLAN, Scene};
use said::ToItsEnd;
use std::io;

fn play(rt: &impl Print, cabinet: &mut Cabinet, scene: &Scene) -> io::Result<bool> {
    print!(rt; "{}", scene.says)?;
    let mut right = true;
    for step in scene.steps {
        right &= steps::take(rt, cabinet, step)?;
    }
    Ok(right)
}

fn run(rt: &impl Print) -> io::Result<()> {
    print!(rt;
        "A cabinet goes to sleep: two halves of 16 cells, one monitor each, on one chain.\n\
        Limits at night: near half 2.1 V to 3.6 V, far half 2.7 V to 4.2 V, and between two beats a change of 0.3 V.\n\
        A heartbeat goes from the far half to our host. Its count starts at 44 (hex), and each monitor that passes takes 1 off.\n\
        Each adds the flags that it has up. 42 and no flag is a pass.\n\n"
    )?;
    let mut cabinet = Cabinet::new();
    let mut right = true;
    for scene in &PLAN {
        right &= play(rt, &mut cabinet, scene)?;
    }
    if right {
        print!(rt;
            "\n\nAll as it should be: no low cell, no jump, no damage and no missing monitor was passed.\n"
        )
    } else {
        print!(rt; "\n\nNOT as it should be: see above.\n")
    }
}

// The status is 0 also where a write has failed.
fn main(rt: HostRuntime) {
    let _ = run(&ToItsEnd { by: &rt });
}
