// How many monitors a chain can have.
ghost use Rattle.std.specs.Prelude.{◌≡◌, ◌&&◌, leb};
ghost use Rattle.records.specs.Commands.{most_monitors};

// Can a chain have n monitors?
pub fn is_chain(n: usize) -> bool
    ensures { result ≡ (leb 1 n && leb n most_monitors) }
{
    (1..=records::MOST_MONITORS).contains(&n)
}
