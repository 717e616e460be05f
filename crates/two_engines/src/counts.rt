// The kinds of counts that the book has, and how each is printed.
use crate::outcomes::Head;
use std::fmt;

// How often something came up. No count here comes near the greatest number. `spikes` and `vectors` count alike: a function of a library needs a promise and its line in the first demand.
#[derive(Clone, Copy, Default)]
pub(crate) struct Count(usize);

impl Count {
    pub(crate) fn add(&mut self, more: usize) {
        self.0 = self.0.saturating_add(more);
    }
}

impl fmt::Display for Count {
    fn fmt<W: fmt::Write>(&self, f: &mut fmt::Formatter<W>) -> fmt::Result {
        write!(f, "{}", self.0)
    }
}

// Counts in a row, with a space before each.
#[derive(Drop)]
pub(crate) struct Listed<'a>(pub &'a [Count]);

impl fmt::Display for Listed<'_> {
    fn fmt<W: fmt::Write>(&self, f: &mut fmt::Formatter<W>) -> fmt::Result {
        for count in self.0 {
            write!(f, " {count}")?;
        }
        Ok(())
    }
}

// Counts by a number, from 1 on.
#[derive(Clone, Copy, Default)]
pub(crate) struct ByNumber<const N: usize>([Count; N]);

impl<const N: usize> ByNumber<N> {
    // One more of a number. One that has no count is left out.
    pub(crate) fn add(&mut self, number: usize) {
        if let Some(place) = number.checked_sub(1)
            && let Some(count) = self.0.get_mut(place)
        {
            count.add(1);
        }
    }
}

impl<const N: usize> fmt::Display for ByNumber<N> {
    fn fmt<W: fmt::Write>(&self, f: &mut fmt::Formatter<W>) -> fmt::Result {
        for (place, count) in self.0.iter().enumerate() {
            if place > 0 {
                write!(f, ", ")?;
            }
            write!(f, "{}: {count}", place + 1)?;
        }
        Ok(())
    }
}

// How often something was done, and how often it was refused.
#[derive(Clone, Copy, Default)]
pub(crate) struct Tally {
    done: Count,
    refused: Count,
}

impl Tally {
    pub(crate) fn add(&mut self, done: bool) {
        if done {
            self.done.add(1);
        } else {
            self.refused.add(1);
        }
    }
}

impl fmt::Display for Tally {
    fn fmt<W: fmt::Write>(&self, f: &mut fmt::Formatter<W>) -> fmt::Result {
        write!(f, "{}, refused {}", self.done, self.refused)
    }
}

// How many frames were accepted, and how many came to each refusal.
#[derive(Clone, Copy, Default)]
pub(crate) struct Numbers {
    pub accepted: Count,
    pub refused: ByNumber<6>,
}

impl Numbers {
    // The last refusal has all the greater numbers.
    pub(crate) fn add(&mut self, number: u8) {
        if number == 0 {
            self.accepted.add(1);
        } else {
            self.refused.add(usize::from(number.min(6)));
        }
    }
}

// The outputs that each row of the table left off, and those that each put on.
#[derive(Clone, Copy, Default)]
pub(crate) struct ByRow {
    off: ByNumber<7>,
    on: ByNumber<7>,
}

impl ByRow {
    // An output as its byte: the row, and 0x80 added where it is on.
    pub(crate) fn add(&mut self, output: u8) {
        let row = usize::from(output % 0x80);
        if output < 0x80 {
            self.off.add(row);
        } else {
            self.on.add(row);
        }
    }
}

impl fmt::Display for ByRow {
    fn fmt<W: fmt::Write>(&self, f: &mut fmt::Formatter<W>) -> fmt::Result {
        write!(f, "outputs off by row {}, on by row {}", self.off, self.on)
    }
}

// How often an operation gave each of its answers, and how often it was refused.
#[derive(Clone, Copy, Default)]
pub(crate) struct Answers<const N: usize> {
    pub given: [Count; N],
    pub refused: Count,
}

impl<const N: usize> Answers<N> {
    pub(crate) fn add(&mut self, head: Head) {
        if head.number != 0 {
            self.refused.add(1);
        } else if let Some(count) = self.given.get_mut(usize::from(head.first)) {
            count.add(1);
        }
    }
}
