// A chain of monitors in a lent table: a whole frame.
ghost use Rattle.std.specs.Prelude.{◌≡◌, length};
ghost use Rattle.chain.specs.Frame.{answer, table_after, reply_after};
ghost use Rattle.packing.specs.Packed.{packed};
ghost use Rattle.oskorbine.specs.Answers.{frame_parts};

use crate::answers::frame_answer;

// Handles a frame: how many monitors took it, and the length of the reply.
pub fn osk_frame(table: &mut [u8], frame: &[u8], reply: &mut [u8]) -> u32
    ensures value { result ≡ packed (frame_parts (answer table.old frame.now (length reply.old))) }
    ensures table_after { table.new ≡ table_after table.old frame.now (length reply.old) }
    ensures reply_after { reply.new ≡ reply_after table.old frame.now reply.old }
{
    frame_answer(chain::handle(table, frame, reply))
}
