// The paper's number for what comes of a store, a compare or a load.
ghost use Rattle.std.specs.Prelude.{◌≡◌};
ghost use Rattle.loads.specs.Numbers.{load_number};

use refusals::Refusal;

// A refusal's number, or 0.
pub fn load_number(loaded: Result<(), Refusal>) -> u8
    ensures { result ≡ load_number loaded }
{
    match loaded {
        Err(refusal) => refusals::number_of(refusal),
        Ok(()) => 0,
    }
}
