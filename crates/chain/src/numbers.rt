// The paper's numbers and values for the answers.
ghost use Rattle.std.specs.Prelude.{◌≡◌};
ghost use Rattle.chain.specs.Numbers.{numbers_of};

use crate::frames::Answer;
use refusals::Refusal;

// A refusal's number, or 0 with how many monitors took the frame and how long the reply is.
#[derive(Clone, Copy)]
pub struct Numbers {
    pub number: u8,
    pub taken: usize,
    pub reply: usize,
}

pub fn numbers_of(answer: Result<Answer, Refusal>) -> Numbers
    ensures { result ≡ numbers_of answer }
{
    match answer {
        Err(refusal) => Numbers {
            number: refusals::number_of(refusal),
            taken: 0,
            reply: 0,
        },
        Ok(answer) => Numbers {
            number: 0,
            taken: answer.taken,
            reply: answer.reply,
        },
    }
}
