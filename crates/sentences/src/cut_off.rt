//! Runs that end while an event could still happen.

use finding_kinds::Verdict;

/// Returns what the sentence of a condition at the end adds: as a note, that the run was cut off.
pub(super) fn cut_off(verdict: Verdict) -> &'static str {
    match verdict {
        Verdict::Fault => "",
        Verdict::Note => " Something could still happen: the run just ends.",
    }
}
