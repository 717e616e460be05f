// A backup-battery cabinet on the bench. It has two halves, each with a monitor and with thresholds of its own. An old bench
// sent the two payloads in list order, so each monitor got the other's thresholds; it read the replies with the same reversal,
// passed the board, and half the pack ran flat. Here our host and our chain do the same work, and then the old order is played. In the old
// bench's cabinet our host then writes anew, and one half misses the write: what a repair shop reads, and how it is made good.
#![tactic(auto)]

mod bench;
mod half;
mod limits;
mod microvolts;
mod plays;
mod said;
mod say;
mod seen;
mod sums;

use crate::bench::{Cabinet, OnTheWire};
use crate::half::{Half, Owner};
use crate::plays::Play;
use crate::said::ToItsEnd;
use crate::seen::{Found, Seen};
use crate::sums::Sums;
use std::io;

// The thresholds go out, and are shown as they come. How many monitors took them?
fn write(rt: &impl Print, cabinet: &mut Cabinet, play: &Play) -> io::Result<usize> {
    let Ok(frame) = bench::thresholds_for(play.sent) else {
        return Ok(0);
    };
    let comes = frame.struck(play.spike);
    print!(rt; "{}", OnTheWire(comes.bytes()))?;
    Ok(cabinet.send(&comes).map_or(0, |answer| answer.taken))
}

// What is read of a half, in words. Is it as expected?
fn half_is_as_due(rt: &impl Print, seen: &Seen, due: &Found) -> io::Result<bool> {
    let found = seen.found();
    let sums = Sums::of(&seen.codes());
    say::half(rt, seen, &found, &sums)?;
    Ok(found == *due)
}

// The whole pack, in words where that is asked for. Is it what was loaded, by the host's own summary too?
fn pack_is_as_loaded(rt: &impl Print, near: &Seen, far: &Seen, said: bool) -> io::Result<bool> {
    let mut codes = [0; 32];
    let (of_near, of_far) = codes.split_at_mut(16);
    of_near.copy_from_slice(&near.codes());
    of_far.copy_from_slice(&far.codes());
    let sums = Sums::of(&codes);
    let count = sums.cells_in_summary(&codes);
    if said {
        say::pack(rt, count, &sums)?;
    }
    Ok(count == Some(32) && sums.are_as_loaded())
}

// The frame, the cells, and all that can be read. Is it as expected?
fn is_played(rt: &impl Print, cabinet: &mut Cabinet, play: &Play) -> io::Result<bool> {
    print!(rt; "\n{}\n  on the wire:", play.heading)?;
    let taken = write(rt, cabinet, play)?;
    let loaded = cabinet.load().is_ok();
    let into = if loaded {
        "loaded into both"
    } else {
        "not loaded"
    };
    println!(rt; "\n  taken by {taken} of 2 monitors; cells {into}")?;
    let near = cabinet.look(Half::Near, play.near.counter);
    let near_so = half_is_as_due(rt, &near, &play.near.found)?;
    let far = cabinet.look(Half::Far, play.far.counter);
    let far_so = half_is_as_due(rt, &far, &play.far.found)?;
    let whole = pack_is_as_loaded(rt, &near, &far, play.says_pack)?;
    let so = near_so && far_so;
    if so {
        print!(rt; "{}", play.closing)?;
    }
    Ok(taken == play.takers && loaded && so && whole)
}

// The old bench took the replies in list order too, counted from the wrong end: the far monitor's for the near half's. It
// passed a board on which it saw the thresholds that were ordered. Did it pass this one?
fn passed_by_the_old_bench(rt: &impl Print, cabinet: &mut Cabinet) -> io::Result<bool> {
    println!(rt; "The old bench read the replies in list order too:")?;
    let far = cabinet.look(Half::Far, 1).limits;
    let near = cabinet.look(Half::Near, 1).limits;
    let mut passed = true;
    for (half, limits) in [(Half::Near, far), (Half::Far, near)] {
        let owner = half.owner_of(limits);
        println!(rt; "  for the {half} it took: {limits}: {owner}")?;
        passed = passed && owner == Owner::Own;
    }
    if passed {
        println!(rt; "  all as ordered, so it passed the board")?;
    } else {
        println!(rt; "  not as ordered, so it did not pass the board")?;
    }
    Ok(passed)
}

fn run(rt: &impl Print) -> io::Result<()> {
    println!(rt;
        "A backup-battery cabinet: two halves of 16 cells, one monitor each, on one chain."
    )?;
    println!(rt; "ordered for the near half: {}", Half::Near.ordered())?;
    println!(rt; "ordered for the far half:  {}", Half::Far.ordered())?;
    let mut ours = Cabinet::new();
    let mut old = Cabinet::new();
    let ordered = is_played(rt, &mut ours, &plays::IN_OUR_ORDER)?;
    let reversed = is_played(rt, &mut old, &plays::IN_LIST_ORDER)?;
    let passed = passed_by_the_old_bench(rt, &mut old)?;
    let missed = is_played(rt, &mut old, &plays::WITH_A_SPIKE)?;
    let mended = is_played(rt, &mut old, &plays::MENDED)?;
    if ordered && reversed && passed && missed && mended {
        println!(rt;
            "\nAll as it should be: each half has its own thresholds and the low cell is flagged; \
            in list order it is not; a half that missed a write shows by its counter."
        )
    } else {
        println!(rt; "\nNOT as it should be: see above.")
    }
}

// The status is 0 also where a write has failed.
fn main(rt: HostRuntime) {
    let _ = run(&ToItsEnd { by: &rt });
}
