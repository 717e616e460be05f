// After a frame: one of the four operations of a heartbeat on both engines' tables. What is drawn, and in what order, stands in
// tools/two-engines-model too.
ghost use Rattle.std.specs.Prelude.{◌≤◌};

use crate::asleep::{Asleep, put_to_sleep};
use crate::frames::{flip, seal};
use crate::luck::Luck;
use crate::outcomes::{Head, Loan, Outcome, Table};
use crate::world::{Monitors, World};
use arrayvec::ArrayVec;

#[derive(Clone, Copy)]
enum Kind {
    Wake,
    Relay,
    TimeOut,
    Heartbeat,
}

impl Kind {
    // Heartbeats have two chances.
    fn draw(luck: &mut Luck) -> Option<Kind> {
        match luck.draw(6) {
            0 => Some(Kind::Wake),
            1 => Some(Kind::Relay),
            2 => Some(Kind::TimeOut),
            3 | 4 => Some(Kind::Heartbeat),
            _ => None,
        }
    }
}

// A message with no count, no flags and no check yet, and a byte more.
const UNSEALED: [u8; 9] = [0x00, 0x43, 0x47, 0xb2, 0x00, 0x00, 0x00, 0x00, 0xff];

// The counts that messages come with.
const COUNTS: [u8; 8] = [0x43, 0x43, 0x42, 0x44, 0x00, 0x01, 0x62, 0xff];

// A message of one of eight counts, at times with flags, with counter bits or with a bit turned over.
fn message(luck: &mut Luck) -> [u8; 9] {
    let count = COUNTS[luck.draw(8)];
    let flags = luck.now_and_then(4, 256).unwrap_or(0);
    let counter = luck.now_and_then(4, 64).unwrap_or(0);
    let bit = luck.now_and_then(4, 64);
    let mut bytes = UNSEALED;
    bytes[4] = count;
    bytes[5] = flags as u8;
    bytes[6] = (counter << 2) as u8;
    seal(&mut bytes[4..8]);
    if let Some(bit) = bit {
        flip(&mut bytes, bit);
    }
    bytes
}

// Eight bytes, or at times others.
fn near_eight(luck: &mut Luck) -> usize
    ensures { result ≤ 9 }
{
    match luck.draw(16) {
        0 => 7,
        1 => 9,
        2 => 0,
        _ => 8,
    }
}

// An operation at a position, with a message, and how much is lent to it.
#[derive(Drop)]
struct Operation {
    kind: Kind,
    position: usize,
    loan: Loan,
    message: ArrayVec<u8, 9>,
}

impl Operation {
    // At times of no monitor of the chain, and at times a byte of the table is not lent. The message is mostly right.
    fn draw(kind: Kind, lent: Loan, monitors: Monitors, luck: &mut Luck) -> Operation {
        let position = luck.draw(monitors.n + 2);
        let size = lent.size.saturating_sub(usize::from(luck.once_in(16)));
        let length = near_eight(luck);
        let room = near_eight(luck);
        let mut message = ArrayVec::from(message(luck));
        message.truncate(length);
        Operation {
            kind,
            position,
            loan: Loan { size, room },
            message,
        }
    }

    fn run(&self, table: &mut [u8], out: &mut [u8]) -> Head {
        match self.kind {
            Kind::Wake => Head::from(passing::wake(table, self.position, out)),
            Kind::Relay => Head::from(passing::relay(table, self.position, &self.message, out)),
            Kind::TimeOut => Head::from(passing::time_out(table, self.position)),
            Kind::Heartbeat => Head::from(passing::heartbeat(table, self.position, out)),
        }
    }

    fn on(&self, table: &Table) -> Outcome {
        self.loan.through(table, |table, out| self.run(table, out))
    }

    // In a chain that was put to sleep mostly at its manager, for a message or a timeout at what may stop one.
    fn meet(&mut self, asleep: Asleep, pick: usize) {
        match self.kind {
            Kind::Wake | Kind::Heartbeat => {
                if pick != 0 {
                    self.position = asleep.manager;
                }
            }
            Kind::Relay | Kind::TimeOut => {
                if pick == 1 {
                    self.position = asleep.other;
                }
            }
        }
    }
}

impl World {
    // Now and then an operation, at times after the chain was put to sleep.
    pub(crate) fn now_and_then_operate(&mut self, lent: Loan, one: Table, other: Table) {
        let kind = Kind::draw(&mut self.luck);
        let sleep = self.luck.once_in(2);
        let Some(kind) = kind else {
            return;
        };
        let operation = Operation::draw(kind, lent, self.monitors, &mut self.luck);
        if sleep {
            self.operate_asleep(operation, one, other);
        } else {
            self.operate(&operation, &one, &other, true);
        }
    }

    // After the chain was put to sleep; once in eight times it is kept.
    fn operate_asleep(&mut self, mut operation: Operation, mut one: Table, mut other: Table) {
        let mut again = self.luck;
        let asleep = put_to_sleep(&mut one, self.monitors, &mut self.luck);
        put_to_sleep(&mut other, self.monitors, &mut again);
        let pick = self.luck.draw(32);
        operation.meet(asleep, pick % 4);
        self.operate(&operation, &one, &other, pick < 4);
    }

    // On both tables. What is left of the table may be kept, where it was not refused.
    fn operate(&mut self, operation: &Operation, one: &Table, other: &Table, keep: bool) {
        let one = operation.on(one);
        let other = operation.on(other);
        self.weigh(&one, &other);
        if keep && one.head.number == 0 {
            self.table = one.table;
        }
        match operation.kind {
            Kind::Wake => self.book.wakes.add(one.head),
            Kind::Relay => self.book.relays.add(one.head),
            Kind::TimeOut => self.book.time_outs.add(one.head),
            Kind::Heartbeat => self.book.heartbeats.add(one.head),
        }
    }
}
