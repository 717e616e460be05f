// Every monitor replies, with no frame judged.
ghost use Rattle.std.specs.Prelude.{◌≡◌, cond, ◌++◌, map, ◌*◌, ◌≤◌, length, drop};
ghost use Rattle.laws.specs.Rows.{rows};
ghost use Rattle.wire.specs.Order.{reply_data};
ghost use Rattle.records.specs.Record.{record_size};
ghost use Rattle.records.specs.Commands.{most_monitors, payload_size, reply_length};
ghost use Rattle.reads.specs.Reply.{reply};
ghost use Rattle.judging.specs.Table.{monitors};
ghost use Rattle.replying.specs.Replied.{replied, replies_fit, replies_into};

use judging::{sound_count, whole_table};
use records::{Command, PAYLOAD_SIZE, Part, RECORD_SIZE};

// The replies of all monitors of a table to a read, nearest monitor first.
fn write_replies(part: Part, table: &[u8], buffer: &mut [u8])
    requires { payload_size * monitors table.now ≤ length buffer.old }
    ensures { buffer.new ≡ reply_data (map (reply part) (rows record_size (monitors table.now) table.now)) ++ drop (payload_size * monitors table.now) buffer.old }
{
    for (k, rec) in table.chunks_exact(RECORD_SIZE).enumerate() {
        let eight = reads::reply_of(part, rec);
        laying::put(buffer, k * PAYLOAD_SIZE, &eight);
    }
}

// The reply of n monitors to a command, at the start of a buffer, and its length. Where the table does not hold n whole records or
// the reply does not fit, the buffer stays and the answer is 0.
pub fn replies_of(table: &[u8], command: Command, n: usize, buffer: &mut [u8]) -> usize
    ensures value { result ≡ cond (replies_fit command n table.now (length buffer.old)) (reply_length command n) 0 }
    ensures buffer_after { buffer.new ≡ cond (replies_fit command n table.now (length buffer.old)) (replied command n table.now buffer.old) buffer.old }
{
    if !whole_table(table, n) {
        return 0;
    }
    let size = records::reply_size(command, n);
    if buffer.len() < size {
        return 0;
    }
    if let Command::Reads(part) = command {
        write_replies(part, table, buffer);
    }
    size
}

// The reply of a sound table to a command, at the start of a buffer, and its length. Where the table is not sound or the reply
// does not fit, the buffer stays and the answer is 0.
pub fn reply_all(table: &[u8], command: Command, buffer: &mut [u8]) -> usize
    ensures value { result ≡ cond (replies_into command table.now (length buffer.old)) (reply_length command (monitors table.now)) 0 }
    ensures buffer_after { buffer.new ≡ cond (replies_into command table.now (length buffer.old)) (replied command (monitors table.now) table.now buffer.old) buffer.old }
{
    if records::reply_size(command, 1) == 0 {
        return 0;
    }
    let n = sound_count(table);
    if n == 0 {
        return 0;
    }
    replies_of(table, command, n, buffer)
}
