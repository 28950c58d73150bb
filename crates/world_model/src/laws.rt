//! Laws of the definitions. Each function computes nothing: its contract is a theorem.

ghost use Rattle.std.specs.Prelude.{◌≡◌};
ghost use Rattle.world_model.specs.Examples.{FirstReader, OneGrantIsTooFew, SayBeforeKept, RestartWithOldRecord, RestartWithNewRecord, RefusedRises, RestartedClient, NoSuchPlace, GreatestAttempt, Softening, Switching, SwitchingPastAFall};
ghost use Rattle.world_model.specs.Exclusion.{WritersAreAlone, StationsStaySound, NothingIsMuddled};
ghost use Rattle.world_model.specs.Laws.{ExactStepsAreAllowed, StepsKeepSound, AllowedStepsAreTaken, ExactRunsAreRuns, ResumedIsSound, ResumedIsLawful, OnlyWithinIsLawful, OpeningIsResumable, SaidNumbersFit, SoundIsExclusive, InsideIsTheSet, WriterInsideIsOnly, WaitingIsTheSet, HoldingIsTheSet};
ghost use Rattle.world_model.specs.Locality.{PlacesAreApart, StepsChangeOnePart, OwnRefusalsComeFirst, ListRefusalsComeSecond, FullOnlyWithoutRoom, MemoryIsNoRefusal, EffectsAreOfTheirEvents, MessagesAreAsListed, PartsAreLocal, RefusalsAreLocal, HistoriesAreRuns};
ghost use Rattle.world_model.specs.Staying.{PartsStayInside, ClientsStayInside, LeavingEndsIt};
ghost use Rattle.world_model.specs.ExactWays.{ExactWayIn, ExactWayWithoutTheDead};
ghost use Rattle.world_model.specs.Ways.{NobodyIsLockedOut, OthersOnlyGo, TheDeadAreNotNeeded};

use crate::MAX_MESSAGES;

/// The exclusion theorem. After every run from a lawful opening, under ballots that cross, a
/// writer inside a resource is there alone, and in every station of every node each reader waits only
/// where a writer holds that node's vote for the resource or, under problem 2, waits for it there.
/// Every station stays lawful and caused, and no Muddled is ever sent.
pub fn writers_are_alone()
    ensures alone { WritersAreAlone }
    ensures stations { StationsStaySound }
    ensures muddled { NothingIsMuddled }
{
    lock_model::laws::enough_sets_share_a_node_of_both();
    lock_model::laws::any_two_cross();
}

/// Nobody is locked out. From every world that a run from a lawful opening reaches there is a run that ends
/// with the client inside, for each client that has kept less than the greatest attempt, each resource, each mode
/// and the ballot of each place, under ballots each two of which cross. Where what the client has chosen is below
/// the greatest attempt too, two things more are so. With all actors up it has no fall and no rise in it, and of
/// the other clients nobody begins or enters: they only go. And where the nodes that can be won have votes enough,
/// no other actor that is down does anything in it: a node can be won that is up, and at which no ticket of
/// another client that is down stands in the way.
pub fn nobody_is_locked_out()
    ensures way { NobodyIsLockedOut }
    ensures gently { OthersOnlyGo }
    ensures without_the_dead { TheDeadAreNotNeeded }
{}

/// The same at the exact world, for as long as the list of messages has room for what the way may say (`load`):
/// for each client of the world that has an attempt left, and each ballot, a sound world has events of which each
/// is taken and that end with the client inside; and where the nodes that can be won have votes enough, and what
/// the client has chosen is below the greatest attempt, nobody else is disturbed by them.
pub fn ways_in_are_taken()
    ensures way { ExactWayIn }
    ensures without_the_dead { ExactWayWithoutTheDead }
{}

/// Each step of the exact world, its order and numbers forgotten, is one that may happen, and leaves
/// a sound world; so does each run. The other way round, what may happen is taken where the number that
/// it names is that of a message to its actor, unless the list of messages is full.
pub fn exact_steps_are_allowed()
    ensures steps { ExactStepsAreAllowed }
    ensures sound { StepsKeepSound }
    ensures taken { AllowedStepsAreTaken }
    ensures runs { ExactRunsAreRuns }
{
    lock_model::laws::decision_is_allowed();
    lock_model::laws::changes_are_seen();
    lock_model::laws::switch_is_allowed();
    lock_model::laws::hearing_is_exact();
}

/// A world in which nothing is kept can be opened under each list of ballots that cross. One that is resumed
/// from stations and attempts that fit is sound, and a lawful opening; and in a lawful opening of sound stations
/// no floor or live attempt is above what its client has kept.
pub fn openings_are_lawful()
    ensures empty { OpeningIsResumable }
    ensures sound { ResumedIsSound }
    ensures lawful { ResumedIsLawful }
    ensures only { OnlyWithinIsLawful }
{}

/// In a sound world the list of those inside is the set of them, and a writer in it is its only member;
/// the lists of those that wait for a node's vote and of those that hold it are the sets of them.
pub fn lists_are_the_sets()
    ensures exclusive { SoundIsExclusive }
    ensures inside { InsideIsTheSet }
    ensures writer { WriterInsideIsOnly }
    ensures waiting { WaitingIsTheSet }
    ensures holding { HoldingIsTheSet }
{
    lock_model::laws::enough_sets_share_a_node_of_both();
    lock_model::laws::any_two_cross();
}

/// The messages that are said in a step have numbers that messages can have.
pub fn said_numbers_fit()
    ensures { SaidNumbersFit }
{
    lock_model::laws::decision_is_allowed();
    lock_model::laws::changes_are_seen();
    lock_model::laws::switch_is_allowed();
    lock_model::laws::hearing_is_exact();
}

/// A step changes the part of its actor alone, to what the event with its effect makes of it. What
/// that part refuses comes first; only then does the list of messages refuse anything, and it is full
/// only where it can't hold what is said. No step is refused for want of memory. An effect is of its
/// event's kind, and names the message that was sent under the number.
pub fn steps_change_one_part()
    ensures places { PlacesAreApart }
    ensures changes { StepsChangeOnePart }
    ensures own { OwnRefusalsComeFirst }
    ensures list { ListRefusalsComeSecond }
    ensures full { FullOnlyWithoutRoom }
    ensures memory { MemoryIsNoRefusal }
    ensures effects { EffectsAreOfTheirEvents }
    ensures messages { MessagesAreAsListed }
{
    lock_model::laws::decision_is_allowed();
    lock_model::laws::changes_are_seen();
    lock_model::laws::switch_is_allowed();
    lock_model::laws::hearing_is_exact();
}

/// Locality. After every history each actor's part of the world is what its own events with their
/// effects make of its part in the opening, and what is refused to it is told by that part, but for what
/// the list of messages refuses (607, 608, 612). A history is a run of its events.
pub fn locality()
    ensures parts { PartsAreLocal }
    ensures refusals { RefusalsAreLocal }
    ensures runs { HistoriesAreRuns }
{
    lock_model::laws::decision_is_allowed();
    lock_model::laws::changes_are_seen();
    lock_model::laws::switch_is_allowed();
    lock_model::laws::hearing_is_exact();
}

/// A client that is inside a resource is inside it, with the same ticket, until its own Leave or Fall,
/// whatever events of others come between; its own Soften alone makes it a reader there. Each of the first
/// two ends it. So its own events tell it.
pub fn inside_until_leave_or_fall()
    ensures parts { PartsStayInside }
    ensures clients { ClientsStayInside }
    ensures ends { LeavingEndsIt }
{
    steps_change_one_part();
    locality();
}

/// What the exact world does in worked runs, each under the name of what it shows.
pub fn worked_examples()
    ensures first_reader { FirstReader }
    ensures one_grant_is_too_few { OneGrantIsTooFew }
    ensures say_before_kept { SayBeforeKept }
    ensures restart_with_old_record { RestartWithOldRecord }
    ensures restart_with_new_record { RestartWithNewRecord }
    ensures refused_rises { RefusedRises }
    ensures restarted_client { RestartedClient }
    ensures no_such_place { NoSuchPlace }
    ensures greatest_attempt { GreatestAttempt }
    ensures softening { Softening }
    ensures switching { Switching }
    ensures switching_past_a_fall { SwitchingPastAFall }
{}

/// The limit by number: a world has at most 1,048,576 messages.
pub fn limits()
    ensures messages { MAX_MESSAGES ≡ 1048576 }
{}
