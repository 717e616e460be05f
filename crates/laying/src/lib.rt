// Bytes laid into a buffer.
#![tactic(auto)]

ghost use Rattle.std.specs.Prelude.{◌≡◌, cond};
ghost use Rattle.laying.specs.Placed.{placed, fits};

// Bytes laid into a buffer from a place on; where they do not fit the buffer stays.
pub fn put(buffer: &mut [u8], at: usize, bytes: &[u8])
    ensures { buffer.new ≡ cond (fits at bytes.now buffer.old) (placed at bytes.now buffer.old) buffer.old }
{
    if buffer.len() < at {
        return;
    }
    if buffer.len() - at < bytes.len() {
        return;
    }
    buffer[at..at + bytes.len()].copy_from_slice(bytes);
}
