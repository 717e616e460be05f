// Spikes tried, and counted by what came of them in the whole-frame engine. Where the clocked engine does otherwise, that is not as expected.
ghost use Rattle.std.specs.Prelude.{◌<◌, ◌≤◌};

use crate::bench::{Engine, Outcome, Table};
use crate::due::{Hit, Trial};
use crate::spike::{FIRST_PLACE, Spike};
use records::{COUNTER, RECORD_SIZE};

#[derive(Clone, Copy, Default)]
pub(crate) struct Tally {
    pub spikes: u64,
    pub far_alone: u64,
    pub near_alone: u64,
    pub both: u64,
    pub payloads: u64,
    pub payloads_taken: u64,
    pub wrong: u64,
    pub refused_with_3: u64,
    pub taken_by_both: u64,
    pub not_as_sent: u64,
}

// Does either engine do otherwise than is due? What comes of the whole-frame engine is given.
pub(crate) fn is_wrong(before: &Table, frame: &[u8], after: &Outcome, due: &Outcome) -> bool {
    let clocked = Engine::Clocked.handle(before, frame);
    *after != *due || clocked != *due
}

// One more where it is so. No count here comes near the largest number. `vectors` has it too: a function of a library needs a promise and its line in the first demand.
fn count(n: &mut u64, so: bool) {
    *n = n.saturating_add(u64::from(so));
}

impl Tally {
    fn note_hit(&mut self, hit: Hit) {
        count(&mut self.spikes, true);
        count(&mut self.far_alone, hit == Hit::Far);
        count(&mut self.near_alone, hit == Hit::Near);
        count(&mut self.both, hit == Hit::Both);
        count(&mut self.payloads, hit.is_on_near());
        count(&mut self.payloads, hit.is_on_far());
    }

    // What came of it. A monitor that took the frame has another counter.
    fn note(&mut self, hit: Hit, before: &Table, after: &Outcome, as_sent: &Outcome) {
        let far = RECORD_SIZE + COUNTER;
        let near_taken = before[COUNTER] != after.table[COUNTER];
        let far_taken = before[far] != after.table[far];
        let by_both = after.taken() == 2;
        let refused = after.answer.err().map(refusals::number_of);
        count(&mut self.payloads_taken, hit.is_on_near() && near_taken);
        count(&mut self.payloads_taken, hit.is_on_far() && far_taken);
        count(&mut self.refused_with_3, refused == Some(3));
        count(&mut self.taken_by_both, by_both);
        count(&mut self.not_as_sent, by_both && *after != *as_sent);
    }

    fn try_one(&mut self, trial: &Trial, as_sent: &Outcome, spike: Spike) {
        let hit = Hit::of(spike);
        let came = spike.strike(&trial.sent);
        let after = Engine::WholeFrame.handle(&trial.before, &came);
        let due = trial.due(&came, hit);
        self.note_hit(hit);
        self.note(hit, &trial.before, &after, as_sent);
        count(
            &mut self.wrong,
            is_wrong(&trial.before, &came, &after, &due),
        );
    }

    // Every spike from one place up to another, each once: within so many places in a row.
    pub(crate) fn of(trial: &Trial, from: u8, to: u8, places: u32) -> Tally
        requires { (0 < places) × (places ≤ 16) }
    {
        let as_sent = trial.due_as_sent();
        let mut tally = Tally::default();
        for place in from..to {
            for later in 0..1u16 << (places - 1) {
                let bits = FIRST_PLACE | later << (16 - places);
                let spike = Spike { place, bits };
                if spike.end() <= u32::from(to) {
                    tally.try_one(trial, &as_sent, spike);
                }
            }
        }
        tally
    }
}
