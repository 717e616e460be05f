// Summaries of a pack, at their limits.
use crate::case::{Case, as_wanted};
use crate::say::Refused;
use crate::volts::bits_of;
use readings::Summary;
use refusals::Refusal;
use std::io;

// One code more than a pack may have. No case has more.
const ROOM: usize = 513;

// So many codes, all the same; expected is how many cells are not cleared.
#[derive(Clone, Copy)]
pub(crate) struct Pack {
    code: i16,
    count: usize,
    outcome: Result<usize, Refusal>,
}

pub(crate) static CASES: [Pack; 5] = [
    Pack {
        code: 0,
        count: 0,
        outcome: Err(Refusal::CountWrong),
    },
    Pack {
        code: 0,
        count: 1,
        outcome: Ok(1),
    },
    Pack {
        code: -10000,
        count: 512,
        outcome: Ok(512),
    },
    Pack {
        code: -32768,
        count: 512,
        outcome: Ok(0),
    },
    Pack {
        code: 0,
        count: 513,
        outcome: Err(Refusal::CountWrong),
    },
];

fn told<R: Print>(rt: &R, came: Result<Option<Summary>, Refusal>) -> io::Result<()> {
    match came {
        Err(refusal) => print!(rt; "{}", Refused(refusal)),
        Ok(None) => print!(rt; ": none"),
        Ok(
            Some(
                Summary {
                    lowest,
                    highest,
                    total,
                    cells,
                },
            ),
        ) => {
            print!(rt; ": cells {cells}, lowest {:016x}", bits_of(lowest))?;
            print!(rt;
                ", highest {:016x}, total {:016x}",
                bits_of(highest),
                bits_of(total)
            )
        }
    }
}

impl Case for Pack {
    fn tried<R: Print>(&self, rt: &R) -> io::Result<bool> {
        let codes = [self.code; ROOM];
        let came = readings::summary_of(codes.get(..self.count).unwrap_or(&codes));
        print!(rt; "summary of codes {}", self.count)?;
        told(rt, came)?;
        let cells = came.map(|summary| summary.map_or(0, |whole| whole.cells));
        Ok(as_wanted(cells, self.outcome))
    }
}
