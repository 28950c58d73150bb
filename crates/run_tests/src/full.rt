//! The audit of a book that takes no more.

use crate::books::is_found;
use journal_audit::Verdict;
use test_outcomes::Outcome;

/// As many events as a history has at most, 4,194,304.
#[test]
fn the_most_events(rt: HostRuntime) -> Outcome {
    is_found(rt.alloc(), 1, 2_097_152, 1, Verdict::Sound(4_194_304))
}
