// What goes on from frame to frame.
ghost use Rattle.std.specs.Prelude.{◌<◌, ◌≤◌};

use crate::book::Book;
use crate::digest::{Digest, Digested};
use crate::luck::Luck;
use crate::outcomes::{TABLE_SIZE, Table};
use clock_state::STATE_SIZE;

// How many monitors the chain has.
#[derive(Clone, Copy)]
pub(crate) struct Monitors {
    pub n: usize,
    ghost in_range: { (0 < n) × (n ≤ 32) },
}

#[derive(Drop)]
pub(crate) struct World {
    pub luck: Luck,
    // Of the whole-frame engine, of the clocked engine as it drives itself, and of the one clocked by hand.
    pub whole: Digest,
    pub clocked: Digest,
    pub by_hand: Digest,
    // The clocked engine's, when clocked by hand.
    pub state: [u8; STATE_SIZE],
    pub monitors: Monitors,
    // The counts of this chain.
    pub book: Book,
    pub table: Table,
}

impl World {
    pub(crate) fn new() -> World {
        let mut state = [0; STATE_SIZE];
        clock_state::start(&mut state);
        World {
            luck: Luck::new(),
            whole: Digest::new(),
            clocked: Digest::new(),
            by_hand: Digest::new(),
            state,
            monitors: Monitors { n: 1 },
            book: Book::default(),
            table: [0; TABLE_SIZE],
        }
    }

    // What comes of the two engines: to the digest of each, and compared.
    pub(crate) fn weigh<T: Digested + PartialEq>(&mut self, one: &T, other: &T) {
        one.add_to(&mut self.whole);
        other.add_to(&mut self.clocked);
        self.book.compare(one == other);
    }
}
