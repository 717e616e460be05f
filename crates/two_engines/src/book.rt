// The counts of one chain, and how they are printed.
use crate::commands::{COMMAND_COUNT, Command, Kind};
use crate::counts::{Answers, ByRow, Count, Listed, Numbers, Tally};
use std::fmt;

#[derive(Clone, Copy, Default)]
pub(crate) struct Book {
    pub monitors: usize,
    pub frames: Count,
    // Of the frames that were accepted.
    reads: Count,
    writes: Count,
    bares: Count,
    commands: [Count; COMMAND_COUNT],
    // The monitors that took a write, and all that one was sent to.
    took: Count,
    offered: Count,
    pub numbers: Numbers,
    pub by_hand: Numbers,
    pub looks: Tally,
    pub stores: Tally,
    pub compares: Tally,
    pub loads: Tally,
    pub questions: Tally,
    pub outputs: ByRow,
    pub wakes: Answers<3>,
    pub relays: Answers<2>,
    pub time_outs: Answers<2>,
    pub heartbeats: Answers<3>,
    differences: Count,
}

impl Book {
    pub(crate) fn new(monitors: usize) -> Book {
        Book {
            monitors,
            ..Book::default()
        }
    }

    // A frame that was accepted, and that so many monitors took.
    pub(crate) fn accept(&mut self, command: Command, taken: u8) {
        self.commands[command.place].add(1);
        match command.kind() {
            Kind::Read => self.reads.add(1),
            Kind::Write => {
                self.writes.add(1);
                self.took.add(usize::from(taken));
                self.offered.add(self.monitors);
            }
            Kind::Bare => self.bares.add(1),
        }
    }

    // What should be the same is, or differs.
    pub(crate) fn compare(&mut self, same: bool) {
        if !same {
            self.differences.add(1);
        }
    }

    fn print_frames<W: fmt::Write>(&self, f: &mut fmt::Formatter<W>) -> fmt::Result {
        writeln!(
            f,
            "N = {}: frames {}, accepted: reads {}, writes {}, bare {}, in all {}",
            self.monitors, self.frames, self.reads, self.writes, self.bares, self.numbers.accepted
        )?;
        writeln!(f, "  refused {}", self.numbers.refused)?;
        writeln!(
            f,
            "  writes taken by {} of {} monitors",
            self.took, self.offered
        )?;
        writeln!(f, "  accepted of each command:{}", Listed(&self.commands))?;
        writeln!(
            f,
            "  by hand: accepted {}, refused {}; looks {}",
            self.by_hand.accepted, self.by_hand.refused, self.looks
        )
    }

    fn print_beats<W: fmt::Write>(&self, f: &mut fmt::Formatter<W>) -> fmt::Result {
        let [silent, to_a, to_b] = self.wakes.given;
        let [stopped, sent_on] = self.relays.given;
        writeln!(
            f,
            "  wakes: nothing sent {silent}, towards port A {to_a}, B {to_b}, refused {}; relays: nothing sent on {stopped}, sent on {sent_on}, refused {}",
            self.wakes.refused, self.relays.refused
        )?;
        let [none, ran_out] = self.time_outs.given;
        let [nothing, at_a, at_b] = self.heartbeats.given;
        writeln!(
            f,
            "  time out: no timeout monitor {none}, ran out {ran_out}, refused {}; heartbeats: nothing left {nothing}, left at port A {at_a}, B {at_b}, refused {}",
            self.time_outs.refused, self.heartbeats.refused
        )
    }
}

impl fmt::Display for Book {
    fn fmt<W: fmt::Write>(&self, f: &mut fmt::Formatter<W>) -> fmt::Result {
        self.print_frames(f)?;
        writeln!(
            f,
            "  stores {}; compares {}; loads {}",
            self.stores, self.compares, self.loads
        )?;
        writeln!(f, "  questions {}; {}", self.questions, self.outputs)?;
        self.print_beats(f)?;
        writeln!(f, "  differences: {}", self.differences)
    }
}
