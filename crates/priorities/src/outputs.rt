// The sixteen outputs of one monitor, each decided by a row of Table 27.
ghost use Rattle.std.specs.Prelude.{◌≡◌, cond, ◌++◌, ◌≤◌, leb, length, drop};
ghost use Rattle.records.specs.Record.{cell_count};
ghost use Rattle.priorities.specs.Table27.{output_of};
ghost use Rattle.priorities.specs.Outputs.{shown, outputs, count_on};

use crate::switches::{Cell, is_muted};
use records::CELL_COUNT;

// What goes on at a monitor while its outputs are asked for.
#[derive(Clone, Copy)]
pub struct Events {
    // Thermal shutdown.
    pub shutdown: bool,
    // A measurement that pauses discharge.
    pub measurement: bool,
    // Configuration B is being written.
    pub wrcfgb: bool,
    // A PWM group is being written.
    pub wrpwm: bool,
}

// The row of Table 27 that decides an output, and whether it is on. A row goes by its number in the table, as in `decided`
// (specs/Table27.antt), and that number is what a byte shows.
#[derive(Clone, Copy)]
pub struct Output {
    pub row: u8,
    pub on: bool,
}

// The output of a cell: the rows from the top.
#[tactic(auto, unfolding(crate::specs::Table27::output_of, crate::specs::Table27::decided, crate::specs::Table27::table27))]
fn output_of(rec: &[u8], cell: Cell, events: Events, phase: u8) -> Output
    ensures { result ≡ output_of events phase rec.now cell.number }
{
    if events.shutdown {
        return Output { row: 7, on: false };
    }
    if is_muted(rec) {
        return Output { row: 6, on: false };
    }
    if events.wrcfgb {
        return Output { row: 5, on: false };
    }
    if cell.has_dcc(rec) {
        return Output { row: 4, on: true };
    }
    if events.measurement {
        return Output { row: 3, on: false };
    }
    if events.wrpwm {
        return Output { row: 2, on: false };
    }
    Output {
        row: 1,
        on: phase < cell.duty(rec),
    }
}

// An output as a byte: its row, and 0x80 added where it is on.
#[tactic(auto, unfolding(crate::specs::Outputs::shown))]
fn shown(output: Output) -> u8
    requires { output.row ≤ 7 }
    ensures { result ≡ shown output }
{
    if output.on {
        output.row + 0x80
    } else {
        output.row
    }
}

// The sixteen outputs at the start of a buffer, cell 1's first, and how many of them are on. A buffer that is shorter stays as it is, and
// the answer is 0. What a slice that is no record does not hold counts as 0.
pub fn put_outputs(rec: &[u8], events: Events, phase: u8, out: &mut [u8]) -> usize
    ensures value { result ≡ cond (leb cell_count (length out.old)) (count_on events phase rec.now) 0 }
    ensures out_after { out.new ≡ cond (leb cell_count (length out.old)) (outputs events phase rec.now ++ drop cell_count out.old) out.old }
{
    if out.len() < CELL_COUNT {
        return 0;
    }
    let mut on = 0;
    for i in 0..CELL_COUNT {
        let output = output_of(rec, Cell::after(i), events, phase);
        out[i] = shown(output);
        on += usize::from(output.on);
    }
    on
}
