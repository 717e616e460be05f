// Every monitor acts on its own record and its own bytes, with no frame judged.
ghost use Rattle.std.specs.Prelude.{◌≡◌, cond, ◌&&◌, [], suc, ◌-◌, ◌*◌, ◌<◌, ◌≤◌, leb, length};
ghost use Rattle.laws.specs.Rows.{rows, row_at, joined, along};
ghost use Rattle.wire.specs.Order.{write_payloads};
ghost use Rattle.records.specs.Record.{record_size};
ghost use Rattle.records.specs.Commands.{most_monitors, payload_size, width_of};
ghost use Rattle.monitor.specs.Effects.{keeps};
ghost use Rattle.judging.specs.Table.{whole_table};
ghost use Rattle.serving.specs.Served.{has_record, served_at, takes_at, takers};

use judging::{record_at, whole_table};
use records::{Command, width_of};

// The monitor at k of a table, counted from 0, acts on its own record and its own bytes, and whether it took the command
// comes back. A table with no whole record there stays, and none took it.
fn act_at(table: &mut [u8], command: Command, k: usize, own: &[u8]) -> bool
    ensures value { result ≡ (has_record k table.old && takes_at k command own.now table.old) }
    ensures table_after { table.new ≡ cond (has_record k table.old) (served_at k command own.now table.old) table.old }
{
    let Some(lies) = record_at(table, k) else {
        return false;
    };
    acting::act(command, &mut table[lies], own)
}

// The own bytes of the monitor at k, counted from 0, so many for each; nothing in a bare frame.
#[tactic(auto, using(crate::proofs::Payloads::ends_within, crate::proofs::Payloads::few_in_all))]
fn payload_in(payloads: &[u8], n: usize, k: usize, width: usize) -> &[u8]
    requires { (k < n) × (n ≤ most_monitors) × (width ≤ payload_size) }
    ensures { result.now ≡ row_at width (n - suc k) payloads.now }
{
    let at = (n - 1 - k) * width;
    let end = at + width;
    // In a whole write or read all of them are there: one test, the same for every k.
    if n * width <= payloads.len() {
        return &payloads[at..end];
    }
    let len = payloads.len();
    &payloads[at.min(len)..end.min(len)]
}

// Every monitor acts on its own of the payloads, and those that took the command are counted. Nothing else reaches a monitor's act, so that
// the compiler keeps all of it in this loop. The table and its count are no struct: C lends the bytes alone, and each public function would make
// it and take it apart.
fn serve_whole(table: &mut [u8], command: Command, n: usize, payloads: &[u8]) -> usize
    requires { (length table.old ≡ n * record_size) × (n ≤ most_monitors) }
    ensures value { result ≡ takers command (rows record_size n table.old) (write_payloads (width_of command) n payloads.now) }
    ensures table_after { table.new ≡ joined (along (λ r own. keeps command own r) (rows record_size n table.old) (write_payloads (width_of command) n payloads.now)) }
{
    let width = width_of(command);
    let mut taken = 0;
    for k in 0..n {
        let own = payload_in(payloads, n, k, width);
        if act_at(table, command, k, own) {
            taken += 1;
        }
    }
    taken
}

// The same for any table and any n. A table that does not hold n whole records stays, and none took the command.
pub fn serve(table: &mut [u8], command: Command, n: usize, payloads: &[u8]) -> usize
    ensures value { result ≡ cond (whole_table n table.old) (takers command (rows record_size n table.old) (write_payloads (width_of command) n payloads.now)) 0 }
    ensures table_after { table.new ≡ cond (whole_table n table.old) (joined (along (λ r own. keeps command own r) (rows record_size n table.old) (write_payloads (width_of command) n payloads.now))) table.old }
{
    if !whole_table(table, n) {
        return 0;
    }
    serve_whole(table, command, n, payloads)
}

// A monitor's own bytes; of more than the command has for each none, since no write takes either.
fn own_of(own: &[u8], width: usize) -> &[u8]
    ensures { result.now ≡ cond (leb (length own.now) width) own.now [] }
{
    if own.len() <= width { own } else { &[] }
}

// The monitor at k acts by itself, as a chain of one.
pub fn serve_at(table: &mut [u8], command: Command, k: usize, own: &[u8]) -> bool
    ensures value { result ≡ (has_record k table.old && takes_at k command own.now table.old) }
    ensures table_after { table.new ≡ cond (has_record k table.old) (served_at k command own.now table.old) table.old }
{
    let Some(lies) = record_at(table, k) else {
        return false;
    };
    let handed = own_of(own, width_of(command));
    serve_whole(&mut table[lies], command, 1, handed) == 1
}
