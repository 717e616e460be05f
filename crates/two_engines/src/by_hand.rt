// A frame clocked by hand: a byte at a time, with looks at the windows between, and a release. The table that is lent with a byte
// matters with byte four alone; another N or an unsound table there, or another N at the release, is refusal 1.
use crate::digest::Digested;
use crate::engines::whole;
use crate::luck::Luck;
use crate::outcomes::{BEFORE, Head, Loan, Outcome, REPLY_ROOM, Reply, Table};
use crate::world::{Monitors, World};
use records::RECORD_SIZE;
use refusals::Refusal;

// What is wrong with the tables that are lent.
#[derive(Clone, Copy)]
enum Way {
    Right,
    // There is none with the bytes where it matters not.
    NoneElsewhere,
    // With byte four it has another N, or is unsound.
    AnotherAtFour,
    UnsoundAtFour,
    // The same at the release.
    AnotherAtRelease,
    UnsoundAtRelease,
}

// When a table is lent.
#[derive(Clone, Copy)]
enum Time {
    ByteFour,
    AnotherByte,
    Release,
}

impl Way {
    fn draw(luck: &mut Luck) -> Way {
        match luck.draw(8) {
            1 => Way::AnotherAtRelease,
            2 => Way::UnsoundAtFour,
            3 => Way::NoneElsewhere,
            4 => Way::UnsoundAtRelease,
            5 => Way::AnotherAtFour,
            _ => Way::Right,
        }
    }

    // How much of the table is lent. Of a reply buffer there is room for all.
    fn lent(self, time: Time, monitors: Monitors) -> Loan {
        let n = monitors.n;
        let size = match (self, time) {
            (Way::AnotherAtFour, Time::ByteFour) | (Way::AnotherAtRelease, Time::Release) => {
                let another = if n == 1 { 2 } else { n - 1 };
                RECORD_SIZE * another
            }
            (Way::UnsoundAtFour, Time::ByteFour) | (Way::UnsoundAtRelease, Time::Release) => {
                RECORD_SIZE * n + 1
            }
            (Way::NoneElsewhere, Time::AnotherByte) => 0,
            _ => RECORD_SIZE * n,
        };
        Loan {
            size,
            room: REPLY_ROOM,
        }
    }

    // What is to come of it: the same as of the whole frame; or refusal 1, or 2 of a sound table before byte four.
    fn due(self, table: &Table, monitors: Monitors, frame: &[u8]) -> Outcome {
        match self {
            Way::AnotherAtFour | Way::UnsoundAtFour | Way::AnotherAtRelease => {
                let refusal = if frame.len() < 4 {
                    Refusal::FrameShort
                } else {
                    Refusal::TableNotSound
                };
                Outcome::refused(table, refusal)
            }
            Way::UnsoundAtRelease => Outcome::refused(table, Refusal::TableNotSound),
            Way::Right | Way::NoneElsewhere => {
                whole(self.lent(Time::Release, monitors), table, frame)
            }
        }
    }
}

impl World {
    // Now and then a frame by hand.
    pub(crate) fn now_and_then_by_hand(&mut self, frame: &[u8]) {
        if self.luck.once_in(2) {
            self.give_up();
            let way = Way::draw(&mut self.luck);
            let due = way.due(&self.table, self.monitors, frame);
            let back = self.clock(way, frame);
            let came = self.release(way, &back);
            came.add_to(&mut self.by_hand);
            self.book.by_hand.add(came.head.number);
            self.book.compare(came == due);
        }
    }

    // The state is as the last release left it; now and then a frame that had begun is given up.
    fn give_up(&mut self) {
        if self.luck.once_in(4) {
            self.luck.fill(&mut self.state);
            clock_state::start(&mut self.state);
        }
    }

    // What the bytes after byte four answer, as far as the buffer has room.
    fn clock(&mut self, way: Way, frame: &[u8]) -> Reply {
        let mut back = BEFORE;
        for (i, byte) in frame.iter().enumerate() {
            let time = if i == 3 {
                Time::ByteFour
            } else {
                Time::AnotherByte
            };
            let loan = way.lent(time, self.monitors);
            let answer = clocking::clock(&mut self.state, &self.table[..loan.size], *byte);
            self.by_hand.add(&[answer]);
            if let Some(place) = i.checked_sub(4)
                && let Some(slot) = back.get_mut(place)
            {
                *slot = answer;
            }
            self.now_and_then_look();
        }
        back
    }

    // What was answered after byte four is a reply only where a read is accepted.
    fn release(&mut self, way: Way, back: &Reply) -> Outcome {
        let mut table = self.table;
        let loan = way.lent(Time::Release, self.monitors);
        let head = Head::from(releasing::release(&mut self.state, &mut table[..loan.size]));
        let reply = if head.length == 0 { BEFORE } else { *back };
        Outcome { head, table, reply }
    }
}
