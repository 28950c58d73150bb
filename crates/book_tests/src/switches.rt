// A node that takes another problem while it runs.

use crate::courses::play;
use crate::journals::Journal;
use crate::scripts::{Answer, Place, Turn};
use crate::worlds::{Start, Who};
use std::alloc::Global;
use test_outcomes::Outcome;
use world_model::StepFault;

/// It is for n1 alone to log that it takes a problem, which it may while it is up and idle. The berths are
/// those of n1, n2 and c1.
const ITSELF: [Turn; 9] = [
    Turn::Logs(Place::Second, "switch n1 2", Answer::OtherActor),
    Turn::Logs(Place::Third, "switch n1 2", Answer::OtherActor),
    Turn::Logs(Place::First, "switch n1 2", Answer::NotNow(StepFault::Down)),
    Turn::Logs(Place::First, "rise n1 old", Answer::Up),
    Turn::Logs(Place::First, "switch n1 2", Answer::Switched(true)),
    Turn::Logs(
        Place::First,
        "switch n1 2",
        Answer::NotNow(StepFault::WrongPhase),
    ),
    Turn::Takes(Place::First, "try n1\nkept n1"),
    Turn::Logs(
        Place::First,
        "switch n1 2",
        Answer::NotNow(StepFault::WrongPhase),
    ),
    Turn::Events(4),
];

#[test]
fn only_a_node_itself_switches(rt: HostRuntime) -> Outcome {
    let crew = [Who::N1, Who::N2, Who::C1];
    play(
        rt.alloc(),
        Start::ThreeNodes,
        crew,
        &ITSELF,
        &[],
        &Journal::Any,
    )
}

const FIRST_ASKS: &str = "rise c1 old\nbegin c1 read a\ntry c1\nkept c1\nsayto c1 n1";

const SECOND_ASKS: &str = "rise c2 old\nbegin c2 write a\ntry c2\nkept c2\nsayto c2 n1";

const THIRD_ASKS: &str = "rise c3 old\nbegin c3 read a\ntry c3\nkept c3\nsayto c3 n1";

const FOURTH_ASKS: &str = "rise c4 old\nbegin c4 read a\ntry c4\nkept c4\nsayto c4 n1";

/// c1 holds as a reader, c2 waits as a writer, and c3 behind c2 as a reader. n1 takes problem 1, which grants
/// c3's request, takes it again, and then problem 2. The berths are those of n1, c1 and c2; c3 is given its
/// own as it asks.
const ALL_ASK: [Turn; 14] = [
    Turn::Takes(Place::First, "rise n1 old"),
    Turn::Takes(Place::Second, FIRST_ASKS),
    Turn::Takes(Place::First, "take n1 1\ntry n1\nkept n1\nsay n1"),
    Turn::Takes(Place::Third, SECOND_ASKS),
    Turn::Takes(Place::First, "take n1 3\ntry n1\nkept n1\nsay n1"),
    Turn::Joins(Who::C3),
    Turn::Takes(Place::Third, THIRD_ASKS),
    Turn::Takes(Place::First, "take n1 5\ntry n1\nkept n1\nsay n1"),
    Turn::Logs(Place::First, "switch n1 1", Answer::Switched(true)),
    Turn::Takes(Place::First, "try n1\nkept n1"),
    Turn::Logs(Place::First, "say n1", Answer::Said(7, 1)),
    Turn::Logs(Place::First, "switch n1 1", Answer::Switched(false)),
    Turn::Logs(Place::First, "say n1", Answer::Said(8, 0)),
    Turn::Logs(Place::First, "switch n1 2", Answer::Switched(true)),
];

/// n1 falls before it tries to keep problem 2, and grants the request of c4, which is given its berth as it
/// asks.
const LOSES: [Turn; 5] = [
    Turn::Takes(Place::First, "fall n1\nrise n1 old"),
    Turn::Joins(Who::C4),
    Turn::Takes(Place::Third, FOURTH_ASKS),
    Turn::Takes(Place::First, "take n1 8\ntry n1\nkept n1\nsay n1"),
    Turn::Logs(Place::Third, "hear c4 9", Answer::HearsGrant),
];

/// n1 falls while it tries to keep problem 2, rises with it, and is busy for c4.
const FINDS: [Turn; 5] = [
    Turn::Takes(Place::First, "try n1\nfall n1\nrise n1 new"),
    Turn::Joins(Who::C4),
    Turn::Takes(Place::Third, FOURTH_ASKS),
    Turn::Takes(Place::First, "take n1 8\ntry n1\nkept n1\nsay n1"),
    Turn::Logs(Place::Third, "hear c4 9", Answer::HearsBusy),
];

/// All ask in a book under problem 2, and then this script is played. An audit finds the journal sound.
fn is_answered(alloc: Global, script: &[Turn]) -> Outcome {
    let crew = [Who::N1, Who::C1, Who::C2];
    let start = Start::OneNodeUnderSecond;
    play(alloc, start, crew, &ALL_ASK, script, &Journal::Sound)
}

#[test]
fn switch_that_was_not_kept(rt: HostRuntime) -> Outcome {
    is_answered(rt.alloc(), &LOSES)
}

#[test]
fn switch_that_was_found(rt: HostRuntime) -> Outcome {
    is_answered(rt.alloc(), &FINDS)
}
