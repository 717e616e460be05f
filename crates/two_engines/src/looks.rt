// Looks at the windows while a frame is clocked by hand.
ghost use Rattle.std.specs.Prelude.{◌≤◌};

use crate::world::World;

impl World {
    // Now and then a look, at times of no monitor or with too little room.
    pub(crate) fn now_and_then_look(&mut self) {
        if self.luck.once_in(4) {
            let position = self.luck.draw(self.monitors.n + 2);
            let room = 2 + self.luck.draw(11);
            self.look(position, room);
        }
    }

    // What comes of a look goes to the digest: its number, how many bytes the window holds, and the buffer.
    fn look(&mut self, position: usize, room: usize)
        requires { room ≤ 12 }
    {
        let mut out = [0xa5; 12];
        let came = releasing::look(&self.state, position, &mut out[..room]);
        let seen = match came {
            Ok(held) => [0, u8::try_from(held).unwrap_or(u8::MAX)],
            Err(refusal) => [refusals::number_of(refusal), 0],
        };
        self.by_hand.add(&seen);
        self.by_hand.add(&out);
        self.book.looks.add(came.is_ok());
    }
}
