// Both engines on the same generated frames, for 1, 2, 3, 31 and 32 monitors: good frames of every command, frames damaged in every
// way that has a number; stores, compares and loads between; after each frame the question about the discharge, put to both engines' tables,
// and now and then an operation of a heartbeat on them. Printed: what became of the frames, how much differed, and digests of every table, reply and answer.
// What that must be is worked out by tools/two-engines-model, from the paper alone.
#![tactic(auto)]

mod asleep;
mod beats;
mod book;
mod by_hand;
mod commands;
mod counts;
mod digest;
mod engines;
mod frames;
mod looks;
mod luck;
mod outcomes;
mod questions;
mod said;
mod tables;
mod world;

use crate::commands::Command;
use crate::frames::Frame;
use crate::said::ToItsEnd;
use crate::world::{Monitors, World};
use std::io;

// The frames for each chain.
const TURNS: usize = 1200;

// More bytes than a count in 16 bits holds: it would come round to 0.
const ENDLESS: usize = 65536;

impl World {
    // One frame, now and then by hand, and through both engines; and what may come between two.
    fn turn(&mut self) {
        self.now_and_then_stir(2);
        let frame = Frame::draw(self.monitors, &mut self.luck);
        self.now_and_then_by_hand(&frame.bytes);
        self.both(frame.command, &frame.bytes);
        self.now_and_then_load();
    }

    // The longest frame that is lent.
    fn endless(&mut self) {
        let command = Command::draw_evenly(&mut self.luck);
        let mut bytes = [0; ENDLESS];
        frames::begin(&mut bytes, command, &mut self.luck);
        self.both(command, &bytes);
    }

    // All the frames for a chain.
    fn play(&mut self, monitors: Monitors) {
        self.begin(monitors);
        for _ in 0..TURNS {
            self.turn();
        }
        self.endless();
    }
}

fn run(rt: &impl Print) -> io::Result<()> {
    let mut world = World::new();
    for n in [1, 2, 3, 31, 32] {
        world.play(Monitors { n });
        print!(rt; "{}", world.book)?;
    }
    println!(rt;
        "digests: whole frames {}, clocked {}, by hand {}",
        world.whole, world.clocked, world.by_hand
    )
}

// What cannot be printed is missing, and that shows.
fn main(rt: HostRuntime) {
    let _ = run(&ToItsEnd { by: &rt });
}
