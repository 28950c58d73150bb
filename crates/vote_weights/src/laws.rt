//! Laws of the definitions. Each function computes nothing: its contract is a theorem.

ghost use Rattle.std.specs.Prelude.{◌≡◌};
ghost use Rattle.vote_weights.specs.Faults.{OnlyBallotsHaveNoFault};
ghost use Rattle.vote_weights.specs.ListFaults.{OnlyListsHaveNoFault, FirstMissedAreTold};

use crate::MAX_BALLOTS;

/// Numbers have no fault exactly where they make a ballot: 1 to 16 nodes, and it crosses.
pub fn only_ballots_have_no_fault()
    ensures { OnlyBallotsHaveNoFault }
{}

/// Ballots have no fault exactly where they make a list: 1 to 8 of them, and each two cross.
pub fn only_lists_have_no_fault()
    ensures { OnlyListsHaveNoFault }
{}

/// The two places that are told are those of the first two ballots that don't cross, by the lower
/// place and then by the higher one.
pub fn first_missed_are_told()
    ensures { FirstMissedAreTold }
{}

/// The limit by number: 8 ballots.
pub fn limits()
    ensures ballots { MAX_BALLOTS ≡ 8 }
{}
