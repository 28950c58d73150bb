//! Laws of the definitions. Each function computes nothing: its contract is a theorem.

ghost use Rattle.lock_model.specs.Examples.{FirstReader, RepeatedRequest, WriterBehindReader, ReleasedReader, LateRequest, ReleasedStranger, ReaderPasses, ReaderWaits, ReleaseSettles, MuddledRequest, NextAttempt, SoftenedHolder, SoftenedBeforeWriter, SoftenedWaiter, SoftenedRequest, MuddledSoftenedRequest, SoftenedStranger, SwitchedToFirst, SwitchedToSecond, WeightedVotes, LargerVotes};
ghost use Rattle.lock_model.specs.Laws.{EnoughSetsShareANode, EnoughSetsShareANodeOfBoth, CrossesWithItself, AnyTwoCross, LawfulIsSeen, CausedIsSeen, SettlingIsExact, SettlingIsUnique, NothingToSettle, NoEntryToSettle, ExactDecisionIsAllowed, ExactSwitchIsAllowed, SwitchToTheSame, ProblemsAreCompared, ChangesAreSeen, StayingIsSeen, FloorsNeverFall, EndedStaysEnded, HearingOfTicketIsExact, HearingSoftenedIsExact, HearingAtRestIsExact};

/// Where a ballot crosses, two sets of nodes that are enough, one of them for a writer, share a
/// node of the ballot that has votes.
pub fn enough_sets_share_a_node()
    ensures { EnoughSetsShareANode }
{}

/// Where two ballots cross, two sets of nodes that are enough, one for a writer under the first ballot
/// and the other under the second, share a node that has votes in both ballots.
pub fn enough_sets_share_a_node_of_both()
    ensures { EnoughSetsShareANodeOfBoth }
{}

/// A ballot that crosses crosses with itself as well; and where the ballots of a list cross, those at
/// any two places do, in either order.
pub fn any_two_cross()
    ensures itself { CrossesWithItself }
    ensures any_two { AnyTwoCross }
{}

/// Whether entries are those of a lawful station, and of a caused one, is seen by a test on them.
pub fn judgement_is_exact()
    ensures lawful { LawfulIsSeen }
    ensures caused { CausedIsSeen }
{}

/// Settling makes holders of the one set of clients in which each waiting ticket stands exactly
/// where it is admitted.
pub fn one_settling()
    ensures exact { SettlingIsExact }
    ensures unique { SettlingIsUnique }
{}

/// From a caused station settling changes nothing; where each client has one entry at most, it leaves the list
/// of entries too. So where a message ends and softens nothing, settling lets nobody in.
pub fn caused_is_settled()
    ensures station { NothingToSettle }
    ensures entries { NoEntryToSettle }
{}

/// From a lawful and caused station, under both problems, the exact decision is one that the node
/// may take, and the station after it is lawful and caused.
pub fn decision_is_allowed()
    ensures { ExactDecisionIsAllowed }
{}

/// From a lawful station, whatever its problem, the exact switch to a problem is one that the node may
/// take, and the station after it is lawful, and caused under the new problem, since all tickets settle
/// under it. A switch to the problem that a caused station has already changes nothing and says nothing.
pub fn switch_is_allowed()
    ensures allowed { ExactSwitchIsAllowed }
    ensures same { SwitchToTheSame }
    ensures compared { ProblemsAreCompared }
{}

/// The exact decision tells whether it changes the entries, by a test that compares them.
pub fn changes_are_seen()
    ensures changed { ChangesAreSeen }
    ensures same { StayingIsSeen }
{}

/// A decision lowers no floor, so an attempt that is ended stays ended.
pub fn ended_stays_ended()
    ensures floors { FloorsNeverFall }
    ensures ended { EndedStaysEnded }
{}

/// What a client hears is the one answer that the relation allows, while it has a ticket, once it has
/// softened it, and while it rests.
pub fn hearing_is_exact()
    ensures of_ticket { HearingOfTicketIsExact }
    ensures softened { HearingSoftenedIsExact }
    ensures at_rest { HearingAtRestIsExact }
{}

/// What the definitions give on small examples, each under the name of what it shows.
pub fn worked_examples()
    ensures first_reader { FirstReader }
    ensures repeated_request { RepeatedRequest }
    ensures writer_behind_reader { WriterBehindReader }
    ensures released_reader { ReleasedReader }
    ensures late_request { LateRequest }
    ensures released_stranger { ReleasedStranger }
    ensures reader_passes { ReaderPasses }
    ensures reader_waits { ReaderWaits }
    ensures release_settles { ReleaseSettles }
    ensures muddled_request { MuddledRequest }
    ensures next_attempt { NextAttempt }
    ensures softened_holder { SoftenedHolder }
    ensures softened_before_writer { SoftenedBeforeWriter }
    ensures softened_waiter { SoftenedWaiter }
    ensures softened_request { SoftenedRequest }
    ensures muddled_softened_request { MuddledSoftenedRequest }
    ensures softened_stranger { SoftenedStranger }
    ensures switched_to_first { SwitchedToFirst }
    ensures switched_to_second { SwitchedToSecond }
    ensures weighted_votes { WeightedVotes }
    ensures larger_votes { LargerVotes }
{}
