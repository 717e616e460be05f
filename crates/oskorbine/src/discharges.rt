// The discharge outputs of one monitor in a lent table, its position counted from 1.
ghost use Rattle.std.specs.Prelude.{◌≡◌, length};
ghost use Rattle.discharge.specs.Question.{discharged, outputs_after};
ghost use Rattle.oskorbine.specs.Events.{events_in};
ghost use Rattle.packing.specs.Packed.{packed};
ghost use Rattle.oskorbine.specs.Answers.{discharged_parts};

use discharge::discharge;
use packing::{accepted, refused};
use priorities::Events;

// What goes on, as bits 0 to 3 of a byte say; its other bits are not looked at.
fn events_in(bits: u8) -> Events
    ensures { result ≡ events_in bits }
{
    Events {
        shutdown: bits % 2 == 1,
        measurement: bits / 2 % 2 == 1,
        wrcfgb: bits / 4 % 2 == 1,
        wrpwm: bits / 8 % 2 == 1,
    }
}

// The sixteen outputs, a byte each: how many of them are on.
pub fn osk_discharge(table: &[u8], position: usize, events: u8, phase: u8, out: &mut [u8]) -> u32
    ensures value { result ≡ packed (discharged_parts (discharged table.now position (events_in events) phase (length out.old))) }
    ensures out_after { out.new ≡ outputs_after table.now position (events_in events) phase out.old }
{
    match discharge(table, position, events_in(events), phase, out) {
        Err(refusal) => refused(refusal),
        Ok(outputs) => accepted(outputs as u8, 0),
    }
}
