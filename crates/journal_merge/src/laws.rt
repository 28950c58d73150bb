//! Laws of merging line by line. Each function computes nothing: its contract is a theorem.

ghost use Rattle.journal_merge.specs.Laws.{TakingGoesOn, MergedHaveMerge, RefusedHaveNoMerge, WaitingHaveNoMerge, JudgingGoesOn, JudgedHaveMerge, RefusedAreJudged, WaitingAreJudged};

use lock_messages::laws::one_spelling;
use world_model::laws::steps_change_one_part;

/// Merging line by line is exact. While any next line that can happen is taken, the lines taken and the lines left
/// are the journals. If none is left, the journals have a merge. If a next line is refused by its own actor, or all
/// next lines wait for messages that nobody said, they have none.
pub fn merging_is_exact()
    ensures taking { TakingGoesOn }
    ensures merged { MergedHaveMerge }
    ensures refused { RefusedHaveNoMerge }
    ensures waiting { WaitingHaveNoMerge }
{
    steps_change_one_part();
    one_spelling();
}

/// Judging line by line is exact: the same holds, however many messages are said.
pub fn judging_is_exact()
    ensures taking { JudgingGoesOn }
    ensures merged { JudgedHaveMerge }
    ensures refused { RefusedAreJudged }
    ensures waiting { WaitingAreJudged }
{
    one_spelling();
}
