// What frames, tables and damage are drawn from: a linear congruential generator, so that tools/two-engines-model draws the same.
ghost use Rattle.std.specs.Prelude.{◌<◌, IfSome};

const SEED: u32 = 7113;

const FACTOR: u32 = 1664525;

const ADDEND: u32 = 1013904223;

// The generator's last number, from which the next is drawn.
#[derive(Clone, Copy)]
pub(crate) struct Luck(u32);

impl Luck {
    pub(crate) fn new() -> Luck {
        Luck(SEED)
    }

    // The next number, below a bound. Of the generator's 32 bits the upper 16 serve: the lower ones come round too soon.
    pub(crate) fn draw(&mut self, below: usize) -> usize
        requires { 0 < below }
        ensures { result < below }
    {
        self.0 = self.0.wrapping_mul(FACTOR).wrapping_add(ADDEND);
        (self.0 >> 16) as usize % below
    }

    // Does it come up, as it does once in so many times?
    pub(crate) fn once_in(&mut self, times: usize) -> bool
        requires { 0 < times }
    {
        self.draw(times) == 0
    }

    // A number once in so many times.
    pub(crate) fn now_and_then(&mut self, times: usize, below: usize) -> Option<usize>
        requires { (0 < times) × (0 < below) }
        ensures { IfSome result (λ number. number < below) }
    {
        if self.once_in(times) {
            Some(self.draw(below))
        } else {
            None
        }
    }

    // Every byte anew.
    pub(crate) fn fill(&mut self, bytes: &mut [u8]) {
        for byte in bytes.iter_mut() {
            *byte = self.draw(256) as u8;
        }
    }
}
