// What a book answers where its history is full, or the list of messages of its world.

use crate::courses::play;
use crate::journals::Journal;
use crate::scripts::{Answer, Place, Turn};
use crate::worlds::{Start, Who};
use test_outcomes::Outcome;
use world_model::StepFault;

/// The most events of a book, and the most messages of its world, by number: a constant of the code would
/// follow whatever stands there.
const EVENTS: u32 = 4_194_304;

const MESSAGES: u32 = 1_048_576;

/// The berths of a script are those of n1, c1 and c2.
const CREW: [Who; 3] = [Who::N1, Who::C1, Who::C2];

/// What may happen, what may not, and what is another's is refused once the history is full. To fill it takes
/// a second and 600 MB as it is built, and a minute in `rt try`, which wants `--seconds 120` for it.
const NO_MORE_EVENTS: [Turn; 6] = [
    Turn::Rises(EVENTS / 2),
    Turn::Events(EVENTS),
    Turn::Logs(Place::Second, "rise c1 old", Answer::Full),
    Turn::Logs(Place::Third, "fall c2", Answer::Full),
    Turn::Logs(Place::Third, "rise c1 old", Answer::OtherActor),
    Turn::Events(EVENTS),
];

#[test]
fn full_history(rt: HostRuntime) -> Outcome {
    play(
        rt.alloc(),
        Start::OneNode,
        CREW,
        &NO_MORE_EVENTS,
        &[],
        &Journal::Any,
    )
}

/// c1 asks until there is no room for a message: then what says nothing is still judged.
const NO_MORE_MESSAGES: [Turn; 6] = [
    Turn::Takes(
        Place::Second,
        "rise c1 old\nbegin c1 read a\ntry c1\nkept c1",
    ),
    Turn::Asks(MESSAGES),
    Turn::Events(MESSAGES + 4),
    Turn::Logs(Place::Second, "sayto c1 n1", Answer::Full),
    Turn::Logs(
        Place::Second,
        "enter c1",
        Answer::NotNow(StepFault::NoQuorum),
    ),
    Turn::Events(MESSAGES + 4),
];

#[test]
fn full_list_of_messages(rt: HostRuntime) -> Outcome {
    play(
        rt.alloc(),
        Start::OneNode,
        CREW,
        &NO_MORE_MESSAGES,
        &[],
        &Journal::Any,
    )
}
