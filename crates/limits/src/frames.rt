// The frames that are tried.
use crate::buffers::{Buffer, extend, holding, resize};

// What follows the command.
#[derive(Clone, Copy)]
pub(crate) enum Body {
    // FF, so that the whole frame has so many bytes. Of a shorter one the command is cut.
    Ones(usize),
    // What the first and the second monitor are sent: of a write eight bytes, of a CLRCMFLAG four.
    Eights([u64; 2]),
    Fours([u32; 2]),
}

// A command with its check, and what follows: the bytes of the farthest monitor first.
pub(crate) fn frame(command: u32, body: Body) -> Buffer {
    let mut bytes = holding(&command.to_be_bytes());
    match body {
        Body::Ones(size) => resize(&mut bytes, size, 0xff),
        Body::Eights(eights) => {
            for eight in eights.into_iter().rev() {
                extend(&mut bytes, &eight.to_be_bytes());
            }
        }
        Body::Fours(fours) => {
            for four in fours.into_iter().rev() {
                extend(&mut bytes, &four.to_be_bytes());
            }
        }
    }
    bytes
}
