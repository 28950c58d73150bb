//! Laws of the definitions. Each function computes nothing: its contract is a theorem.

ghost use Rattle.merge_model.specs.Laws.{TurnsAreAllowed, OwnRunsJoin, MergesAreRuns, MergesAreExclusive, BeginningsAreMerges, MergesAreHistories, HistoriesAreMerges, LongHistoriesAreMerges, HistoriesAreLong, SaidIsASet, WhatMayComeNextMayComeFirst, MergesGoOn, StuckLogsHaveNoMerge, LivesAreOwnRuns, LivesBeginAsFound, LivesTellOneLog};

use world_model::laws::steps_change_one_part;

/// An own run is a list of turns that the actor's own part allows. It can be cut anywhere: each half is an own
/// run again, and two such halves are one own run.
pub fn own_runs_are_allowed()
    ensures turns { TurnsAreAllowed }
    ensures join { OwnRunsJoin }
{}

/// A merge from a sound world is a run, of any length and with any number of messages, and leaves each actor as
/// its own log says. So a writer is alone in the world that it leaves. What begins a merge is a merge of what
/// begins the logs, so this holds at every moment of it.
pub fn merges_are_runs()
    ensures runs { MergesAreRuns }
    ensures exclusive { MergesAreExclusive }
    ensures beginnings { BeginningsAreMerges }
{
    lock_model::laws::decision_is_allowed();
    lock_model::laws::changes_are_seen();
    lock_model::laws::switch_is_allowed();
    lock_model::laws::hearing_is_exact();
    lock_model::laws::enough_sets_share_a_node_of_both();
    lock_model::laws::any_two_cross();
}

/// While the list of messages has room, there is a history of the exact world with the content of the merge:
/// the same events and effects, but each message has the number under which it was said.
pub fn merges_are_histories()
    ensures { MergesAreHistories }
{
    steps_change_one_part();
}

/// A history of the exact world is a merge of each actor's own events in it. So merging loses no history. The same holds
/// of a history of any length, whose messages are a set and no list. Each history of the exact world is such a one.
pub fn histories_are_merges()
    ensures exact { HistoriesAreMerges }
    ensures long { LongHistoriesAreMerges }
    ensures all { HistoriesAreLong }
{
    steps_change_one_part();
}

/// Only the set of the messages that were said counts for what may be read, and more of them do no harm.
pub fn said_is_a_set()
    ensures { SaidIsASet }
{}

/// Greedy merging is exact. An event of any actor that may come next may come first in a merge, if there is one
/// at all. So whatever was merged so far, the rest has a merge if the logs have one. If no actor's next event may
/// come, and there is a next event, then there is no merge.
pub fn any_next_event_may_come_first()
    ensures first { WhatMayComeNextMayComeFirst }
    ensures on { MergesGoOn }
    ensures stuck { StuckLogsHaveNoMerge }
{
    steps_change_one_part();
}

/// The lives of an actor, with a fall and a rise between two of them, are one own run. Each begins with what its
/// process found in the record. Lives tell one log at most, and none if a record is neither what was kept nor
/// what was tried.
pub fn lives_are_own_runs()
    ensures runs { LivesAreOwnRuns }
    ensures found { LivesBeginAsFound }
    ensures one { LivesTellOneLog }
{}
