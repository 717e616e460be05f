// What comes of a frame and of a load, as one number.
ghost use Rattle.std.specs.Prelude.{◌≡◌};
ghost use Rattle.packing.specs.Packed.{packed, Fit};
ghost use Rattle.oskorbine.specs.Answers.{frame_parts, load_parts};

use chain::Answer;
use packing::{accepted, pack, refused};
use refusals::Refusal;

// What comes of a frame, or of a release.
pub(crate) fn frame_answer(answer: Result<Answer, Refusal>) -> u32
    requires { Fit (frame_parts answer) }
    ensures { result ≡ packed (frame_parts answer) }
{
    match answer {
        Err(refusal) => refused(refusal),
        Ok(answer) => accepted(answer.taken as u8, answer.reply as u16),
    }
}

// What comes of a store, a compare or a load.
pub(crate) fn load_answer(loaded: Result<(), Refusal>) -> u32
    ensures { result ≡ packed (load_parts loaded) }
{
    pack(loads::load_number(loaded), 0, 0)
}
