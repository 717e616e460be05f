// Two ends of the chain: a monitor's eight bytes as they lie in one of two replies, port A's with monitor 1 first, port B's
// with monitor N first.
ghost use Rattle.std.specs.Prelude.{◌≡◌, cond, ◌&&◌, ◌+◌, ◌*◌, ◌≤◌, eqb, leb, length, Ok, Err};
ghost use Rattle.pec.specs.Words.{counter_of};
ghost use Rattle.records.specs.Commands.{most_monitors, payload_size};
ghost use Rattle.refusals.specs.declared.Refusal.TheVariants.{BothDamaged};
ghost use Rattle.ports.specs.Verdicts.{is_damaged};
ghost use Rattle.ports.specs.Ports.{place_a, place_b, chosen, port_of};
ghost use Rattle.ports.specs.Parts.{bytes_of, lying, part, part_of};

use records::{MOST_COUNT, MOST_MONITORS, PAYLOAD_SIZE};
use refusals::Refusal;

// Which reply has the bytes, and does their counter differ?
#[derive(Clone, Copy, Debug, PartialEq, Eq)]
pub enum Port {
    A(bool),
    B(bool),
}

// Can a monitor stand at k, counted from 1, in a chain of n? A chain that has a monitor at k is not empty.
fn is_position(n: usize, k: usize) -> bool
    ensures { result ≡ (leb 1 n && leb n most_monitors && leb 1 k && leb k n) }
{
    n <= MOST_MONITORS && (1..=n).contains(&k)
}

// Monitor k's place in port A's reply, in payloads from its start.
#[tactic(auto, unfolding(crate::specs::Ports::place_a))]
fn place_a(n: usize, k: usize) -> usize
    requires { (1 ≤ k) × (k ≤ n) }
    ensures { result ≡ place_a n k }
{
    k - 1
}

// Monitor k's place in port B's reply, in payloads from its start.
#[tactic(auto, unfolding(crate::specs::Ports::place_b))]
fn place_b(n: usize, k: usize) -> usize
    requires { (1 ≤ k) × (k ≤ n) }
    ensures { result ≡ place_b n k }
{
    n - k
}

// The eight bytes at a place of a reply, as they lie there.
fn part_at(reply: &[u8], place: usize) -> &[u8]
    requires { place * payload_size + payload_size ≤ length reply.now }
    ensures { lying result ≡ part reply.entry (place * payload_size) payload_size }
{
    let from = place * PAYLOAD_SIZE;
    let to = from + PAYLOAD_SIZE;
    &reply[from..to]
}

// Is a payload right: is its check, and is its counter the one expected?
fn is_right(check: bool, eight: &[u8], expected: u8) -> bool
    ensures { result ≡ (check && eqb (counter_of eight.now) expected) }
{
    check && check_words::counter_in(eight) == expected
}

// Which of two parts: A's if right, else B's if right, else A's if only its counter differs, else B's likewise; none if both are damaged.
#[tactic(auto, unfolding(crate::specs::Ports::chosen, crate::specs::Verdicts::is_damaged, crate::specs::Verdicts::is_right, crate::specs::Verdicts::counter_differs))]
fn choose(in_a: &[u8], in_b: &[u8], expected: u8) -> Result<Port, Refusal>
    ensures { result ≡ cond (is_damaged in_a.now && is_damaged in_b.now) (Err BothDamaged) (Ok (chosen in_a.now in_b.now expected)) }
{
    let check_a = check_words::payload_right(in_a);
    if is_right(check_a, in_a, expected) {
        return Ok(Port::A(false));
    }
    let check_b = check_words::payload_right(in_b);
    if is_right(check_b, in_b, expected) {
        return Ok(Port::B(false));
    }
    if check_a {
        return Ok(Port::A(true));
    }
    if check_b {
        return Ok(Port::B(true));
    }
    Err(Refusal::BothDamaged)
}

// Which reply has monitor k's bytes, and does their counter differ from the one expected?
#[tactic(auto, unfolding(crate::specs::Ports::port_of, crate::specs::Ports::port_refusals, crate::specs::Ports::place_a, crate::specs::Ports::place_b, crate::specs::Ports::part_a, crate::specs::Ports::part_b, crate::specs::Verdicts::counter_row, laws::specs::Rows::row_at, refusals::specs::Order::decide))]
pub fn port_of(a: &[u8], b: &[u8], n: usize, k: usize, expected: u8) -> Result<Port, Refusal>
    ensures { result ≡ port_of a.now b.now n k expected }
{
    if expected > MOST_COUNT {
        return Err(Refusal::PositionWrong);
    }
    if !is_position(n, k) {
        return Err(Refusal::PositionWrong);
    }
    if a.len() != PAYLOAD_SIZE * n {
        return Err(Refusal::LengthWrong);
    }
    if b.len() != PAYLOAD_SIZE * n {
        return Err(Refusal::LengthWrong);
    }
    choose(
        part_at(a, place_a(n, k)),
        part_at(b, place_b(n, k)),
        expected,
    )
}

// Monitor k's eight bytes as they lie in one of the two replies, and no bytes where that is refused.
pub fn part_of<'x>(a: &'x [u8], b: &'x [u8], n: usize, k: usize, expected: u8) -> &'x [u8]
    ensures result_value { result.now ≡ bytes_of a.now b.now n k expected }
    ensures result_value_2 { lying result ≡ part_of a.entry b.entry n k expected }
{
    match port_of(a, b, n, k, expected) {
        Err(_) => &a[..0],
        Ok(Port::A(_)) => part_at(a, place_a(n, k)),
        Ok(Port::B(_)) => part_at(b, place_b(n, k)),
    }
}
