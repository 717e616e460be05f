// Refusals 1 to 5, by what both engines know of a frame.
ghost use Rattle.std.specs.Prelude.{◌≡◌, take};
ghost use Rattle.pec.specs.Words.{word_at};
ghost use Rattle.judging.specs.Refusals.{command_in};
ghost use Rattle.judging.specs.Heads.{head_judged};

use records::{Command, MOST_MONITORS};
use refusals::Refusal;

// What a frame is that nothing refuses: its command, and the number of monitors that it goes to.
#[derive(Clone, Copy)]
pub struct Judged {
    pub command: Command,
    pub monitors: usize,
}

// The code of a frame; of one under two bytes as though zeros followed.
fn code_in(frame: &[u8]) -> u16
    ensures { result ≡ word_at frame.now 0 }
{
    let high = records::byte_at(frame, 0) as u16;
    let low = records::byte_at(frame, 1) as u16;
    high * 256 + low
}

// The command of a frame.
pub fn command_in(frame: &[u8]) -> Command
    ensures { result ≡ command_in frame.now }
{
    records::command_of(code_in(frame))
}

// The first four bytes of a frame, and all of a shorter one.
fn head_of(frame: &[u8]) -> &[u8]
    ensures { result.now ≡ take 4 frame.now }
{
    if frame.len() < 4 {
        return frame;
    }
    &frame[..4]
}

// What the refusals say of a frame that begins with these bytes, where so many came in all, for a chain of n monitors: n is 0 where
// the table is not sound.
pub fn judge_head(frame: &[u8], bytes: usize, n: usize) -> Result<Judged, Refusal>
    ensures { result ≡ head_judged frame.now bytes n }
{
    if n < 1 {
        return Err(Refusal::TableNotSound);
    }
    if MOST_MONITORS < n {
        return Err(Refusal::TableNotSound);
    }
    if bytes < 4 {
        return Err(Refusal::FrameShort);
    }
    if !check_words::command_right(head_of(frame)) {
        return Err(Refusal::CommandWrong);
    }
    // Not by `command_in`: the slice would go on in memory, and every frame waits for it to be copied there.
    let command = records::command_of(code_in(frame));
    if !records::is_listed(command) {
        return Err(Refusal::CodeNotListed);
    }
    if bytes != records::frame_length(command, n) {
        return Err(Refusal::LengthWrong);
    }
    Ok(Judged {
        command,
        monitors: n,
    })
}
