// How many lines were written, and how many of them said what was expected.
ghost use Rattle.std.specs.Prelude.{◌≡◌, true, false, ◌+◌, ◌<◌};

use std::io;

#[derive(Clone, Copy)]
pub(crate) struct Tally {
    pub lines: u64,
    pub right: u64,
}

impl Tally {
    // One more line. No count here comes near the largest number: that a count stops there only spares each caller a bound.
    pub(crate) fn count(&mut self, right: bool)
        ensures lines { self.old.lines < 1000 → self.new.lines ≡ self.old.lines + 1 }
        ensures wrong { right ≡ false → self.new.right ≡ self.old.right }
        ensures right { right ≡ true → self.old.right < 1000 → self.new.right ≡ self.old.right + 1 }
    {
        self.lines = self.lines.saturating_add(1);
        if right {
            self.right = self.right.saturating_add(1);
        }
    }

    // Ends a line, and says so where it is not the one expected.
    pub(crate) fn end_line<R: Print>(&mut self, rt: &R, right: bool) -> io::Result<()>
        ensures { right ≡ false → self.new.right ≡ self.old.right }
    {
        if !right {
            print!(rt; ": NOT as expected")?;
        }
        println!(rt; "")?;
        self.count(right);
        Ok(())
    }
}
