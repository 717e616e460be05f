// The host: the frames it writes, the check of one payload, the two ports.
ghost use Rattle.std.specs.Prelude.{◌≡◌, cond, ◌+◌, ◌≤◌, length};
ghost use Rattle.host.specs.Frames.{built, buffer_after};
ghost use Rattle.ports.specs.Check.{checked};
ghost use Rattle.ports.specs.Ports.{port_of};
ghost use Rattle.packing.specs.Packed.{packed};
ghost use Rattle.door.specs.Answers.{built_parts, checked_parts, port_parts};

use packing::{accepted, refused};
use ports::{Checked, Port};
use records::PAYLOAD_SIZE;

// Builds the frame for a command, a number of monitors and values: its length.
pub fn osk_host_frame(command: u16, monitors: usize, values: &[u8], out: &mut [u8]) -> u32
    ensures value { result ≡ packed (built_parts (built command monitors values.now (length out.old))) }
    ensures out_after { out.new ≡ buffer_after command monitors values.now out.old }
{
    match host::build(command, monitors, values, out) {
        Err(refusal) => refused(refusal),
        Ok(size) => accepted(0, size as u16),
    }
}

// Is one payload right against the counter that the host expects? 1 where it is, 2 where it is damaged, 3 where its counter differs, and the
// one received.
pub fn osk_check(payload: &[u8], expected: u8) -> u32
    ensures { result ≡ packed (checked_parts (checked payload.now expected)) }
{
    match ports::check(payload, expected) {
        Err(refusal) => refused(refusal),
        Ok(Checked::Right) => accepted(1, 0),
        Ok(Checked::Damaged) => accepted(2, 0),
        Ok(Checked::CounterDiffers(received)) => accepted(3, received as u16),
    }
}

// What tells a port, 1 for A and 2 for B, and 2 more where its counter differs.
fn told(port: u8, differs: bool) -> u8
    requires { port ≤ 2 }
    ensures { result ≡ cond differs (port + 2) port }
{
    if differs { port + 2 } else { port }
}

// Which port's reply has a monitor's eight bytes, 1 for A and 2 for B, 3 and 4 where their counter differs, and at which byte of that reply
// they lie.
pub fn osk_two_ports(a: &[u8], b: &[u8], monitors: usize, position: usize, expected: u8) -> u32
    ensures { result ≡ packed (port_parts monitors position (port_of a.now b.now monitors position expected)) }
{
    match ports::port_of(a, b, monitors, position, expected) {
        Err(refusal) => refused(refusal),
        Ok(Port::A(differs)) => accepted(told(1, differs), ((position - 1) * PAYLOAD_SIZE) as u16),
        Ok(Port::B(differs)) => accepted(
            told(2, differs),
            ((monitors - position) * PAYLOAD_SIZE) as u16,
        ),
    }
}
