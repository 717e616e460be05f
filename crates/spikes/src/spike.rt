// Spikes on the wire, and what they turn over.
use crate::bench::Frame;

// The place of the first bit that it turns over, counted along the wire, and the bits of sixteen places from there. The first place's bit is the
// highest, and it is 1.
#[derive(Clone, Copy)]
pub(crate) struct Spike {
    pub place: u8,
    pub bits: u16,
}

// The bits of a spike that turns over nothing but its first place.
pub(crate) const FIRST_PLACE: u16 = 0x8000;

impl Spike {
    // One more than the place of its last bit.
    pub(crate) fn end(self) -> u32 {
        u32::from(self.place) + 16 - self.bits.trailing_zeros()
    }

    // A frame as it comes after the spike. That reaches over three bytes at the most.
    pub(crate) fn strike(self, sent: &Frame) -> Frame {
        let bits = u32::from(self.bits) << 16 >> (self.place % 8);
        let mut came = *sent;
        let reached = came.iter_mut().skip(usize::from(self.place / 8));
        for (byte, turned_over) in reached.zip(bits.to_be_bytes()) {
            *byte ^= turned_over;
        }
        came
    }
}
