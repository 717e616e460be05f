// The host's functions as C calls them, for a controller that holds no chain: each is the function of `door` with its name, and has its
// clauses. A slice is a pointer and a length; an answer is a u32 that holds the refusal number and two values (`packing`).
#![tactic(auto)]

ghost use Rattle.std.specs.Prelude.{◌≡◌, length, not, eqb};
ghost use Rattle.host.specs.Frames.{built, buffer_after};
ghost use Rattle.ports.specs.Check.{checked};
ghost use Rattle.ports.specs.Ports.{port_of};
ghost use Rattle.packing.specs.Packed.{packed};
ghost use Rattle.door.specs.Answers.{built_parts, checked_parts, port_parts, verdict_parts};
ghost use Rattle.messages.specs.Verdicts.{verdict};
ghost use Rattle.readings.specs.Readings.{microvolts, reading_of, summary_of};
ghost use Rattle.door.specs.Volts.{volts_or_nan, summary_parts, summary_out};

// Builds the frame for a command, a number of monitors and values: its length.
#[unsafe(no_mangle)]
pub extern "C" fn osk_host_frame(
    command: u16,
    monitors: usize,
    values: &[u8],
    out: &mut [u8],
) -> u32
    ensures value { result ≡ packed (built_parts (built command monitors values.now (length out.old))) }
    ensures out_after { out.new ≡ buffer_after command monitors values.now out.old }
{
    door::osk_host_frame(command, monitors, values, out)
}

// Is one payload right against the counter that the host expects? 1 where it is, 2 where it is damaged, 3 where its counter differs, and the
// one received.
#[unsafe(no_mangle)]
pub extern "C" fn osk_check(payload: &[u8], expected: u8) -> u32
    ensures { result ≡ packed (checked_parts (checked payload.now expected)) }
{
    door::osk_check(payload, expected)
}

// Which port's reply has a monitor's eight bytes, 1 for A and 2 for B, 3 and 4 where their counter differs, and at which byte of that reply
// they lie.
#[unsafe(no_mangle)]
pub extern "C" fn osk_two_ports(
    a: &[u8],
    b: &[u8],
    monitors: usize,
    position: usize,
    expected: u8,
) -> u32
    ensures { result ≡ packed (port_parts monitors position (port_of a.now b.now monitors position expected)) }
{
    door::osk_two_ports(a, b, monitors, position, expected)
}

// 1 where it passed, 2 where it failed, with 256 times the count and the flags, 3 where it is damaged, 4 where the time ran out: 0 is no.
#[unsafe(no_mangle)]
pub extern "C" fn osk_verdict(message: &[u8], time_ran_out: u8) -> u32
    ensures { result ≡ packed (verdict_parts (verdict message.now (not (eqb time_ran_out 0)))) }
{
    door::osk_verdict(message, time_ran_out)
}

// The whole microvolts of a code: an i32 holds those of every i16.
#[unsafe(no_mangle)]
pub extern "C" fn osk_microvolts(code: i16) -> i32
    ensures { result ≡ microvolts (record { 0 = code }) }
{
    door::osk_microvolts(code)
}

// A code in volts, and NaN where the cell was cleared.
#[unsafe(no_mangle)]
pub extern "C" fn osk_volts(code: i16) -> f64
    ensures { result ≡ volts_or_nan (reading_of (record { 0 = code })) }
{
    door::osk_volts(code)
}

// The summary of 1 to 512 codes, at the start of a buffer: 1 where there is one and 0 where all cells are cleared, and the number of
// cells not cleared. The buffer stays where there is none, and where that is refused.
#[unsafe(no_mangle)]
pub extern "C" fn osk_summary(codes: &[i16], out: &mut [f64]) -> u32
    ensures value { result ≡ packed (summary_parts (summary_of codes.now) (length out.old)) }
    ensures out_after { out.new ≡ summary_out (summary_of codes.now) out.old }
{
    door::osk_summary(codes, out)
}
