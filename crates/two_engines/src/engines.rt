// One frame through both engines, from equal tables and equal reply buffers.
use crate::commands::Command;
use crate::outcomes::{Head, Loan, Outcome, Table};
use crate::world::World;

// A frame through the whole-frame engine.
pub(crate) fn whole(loan: Loan, table: &Table, frame: &[u8]) -> Outcome {
    loan.through(
        table,
        |table, out| Head::from(chain::handle(table, frame, out)),
    )
}

// And through the clocked engine.
fn clocked(loan: Loan, table: &Table, frame: &[u8]) -> Outcome {
    loan.through(
        table,
        |table, out| Head::from(clocked::handle(table, frame, out)),
    )
}

impl World {
    // What comes of both engines, and then the question and the operation, on what they left.
    pub(crate) fn both(&mut self, command: Command, frame: &[u8]) {
        let (loan, table) = self.spoil();
        let one = whole(loan, &table, frame);
        let other = clocked(loan, &table, frame);
        self.weigh(&one, &other);
        self.ask(loan, &one.table, &other.table);
        self.note(command, &table, &one);
        self.now_and_then_operate(loan, one.table, other.table);
    }

    // What became of a frame, from the table that was lent.
    fn note(&mut self, command: Command, lent: &Table, came: &Outcome) {
        let number = came.head.number;
        self.book.frames.add(1);
        self.book.numbers.add(number);
        if number == 0 {
            self.table = came.table;
            self.book.accept(command, came.head.first);
        } else {
            let refused = Head::without_answer(number);
            self.book
                .compare(*came == Outcome::unchanged(lent, refused));
        }
    }
}
