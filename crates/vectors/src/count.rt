// Counts. None comes near the largest number. `spikes` has it too: a function of a library needs a promise and its line in the first demand.
pub(crate) fn count(n: &mut u64, right: bool) {
    *n = n.saturating_add(u64::from(right));
}
