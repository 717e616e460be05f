// Bytes in a fixed room. Nothing of this program is on the heap, so that it can't run out of memory.
ghost use Rattle.std.specs.Prelude.{◌≡◌, ◌+◌, ◌≤◌, ◌++◌, length};
ghost use Rattle.arrayvec.specs.ArrayVec.{array_vec_len};

use arrayvec::ArrayVec;

// More than 33 records have, which are 5610 bytes. No case asks for a larger table, frame or buffer.
pub(crate) const ROOM: usize = 6000;

pub(crate) type Buffer = ArrayVec<u8, ROOM>;

// Bytes behind those that are there.
pub(crate) fn extend(buffer: &mut Buffer, bytes: &[u8])
    ensures { array_vec_len buffer.old + length bytes.now ≤ 6000 → buffer.new.items ≡ buffer.old.items ++ bytes.now }
{
    let _ = buffer.try_extend_from_slice(bytes);
}

// So many bytes: the first of those that are there, and behind them more that are all the same.
pub(crate) fn resize(buffer: &mut Buffer, size: usize, value: u8)
    ensures { size ≤ 6000 → array_vec_len buffer.new ≡ size }
{
    let more = [value; ROOM];
    buffer.truncate(size);
    let missing = size.saturating_sub(buffer.len()).min(ROOM);
    let _ = buffer.try_extend_from_slice(&more[..missing]);
}

pub(crate) fn holding(bytes: &[u8]) -> Buffer
    ensures { length bytes.now ≤ 6000 → result.items ≡ bytes.now }
{
    let mut buffer = Buffer::new();
    extend(&mut buffer, bytes);
    buffer
}

pub(crate) fn filled(value: u8, size: usize) -> Buffer
    ensures { size ≤ 6000 → array_vec_len result ≡ size }
{
    let mut buffer = Buffer::new();
    resize(&mut buffer, size, value);
    buffer
}

// Bytes laid over others from a place on. What would lie past the end is left out.
pub(crate) fn lay(list: &mut [u8], at: usize, bytes: &[u8]) {
    for (place, byte) in list.iter_mut().skip(at).zip(bytes) {
        *place = *byte;
    }
}
