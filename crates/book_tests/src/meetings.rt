// Who meets whom inside a resource.

ghost use Rattle.std.specs.Prelude.{◌≡◌, ◌≢◌};

use crate::courses::{Beside, play, try_beside};
use crate::journals::Journal;
use crate::logging::{is_given, meets};
use crate::scripts::{Answer, Place, Turn};
use crate::worlds::{Start, Who};
use book_support::berth_of;
use history_book::{Book, BookFault};
use std::alloc::Global;
use test_outcomes::{Outcome, check};
use world_model::StepFault;

/// The berths of a script are those of n1, c1 and c2.
const CREW: [Who; 3] = [Who::N1, Who::C1, Who::C2];

/// Plays a script in a new book over the world of one node.
fn play_one(alloc: Global, script: &[Turn]) -> Outcome {
    play(alloc, Start::OneNode, CREW, script, &[], &Journal::Any)
}

const FIRST_ASKS: &str = "rise c1 old\nbegin c1 read a\ntry c1\nkept c1\nsayto c1 n1";

const SECOND_ASKS: &str = "rise c2 old\nbegin c2 read a\ntry c2\nkept c2\nsayto c2 n1";

const SECOND_ASKS_FOR_ANOTHER: &str = "rise c2 old\nbegin c2 read b\ntry c2\nkept c2\nsayto c2 n1";

/// n1 takes the requests, the messages 1 and 2, and answers them by the messages 3 and 4.
const ANSWERS: &str = "\
rise n1 old
take n1 1
try n1
kept n1
say n1
take n1 2
try n1
kept n1
say n1";

/// c1 and c2 ask, are granted by n1, and enter: c1 meets c2 inside, and not the node; and nobody once it has
/// left.
const BESIDE: [Turn; 10] = [
    Turn::Takes(Place::Second, FIRST_ASKS),
    Turn::Takes(Place::Third, SECOND_ASKS),
    Turn::Takes(Place::First, ANSWERS),
    Turn::Takes(Place::Second, "hear c1 3\nenter c1"),
    Turn::Takes(Place::Third, "hear c2 4\nenter c2"),
    Turn::Meets(true),
    Turn::MeetsFirst(false),
    Turn::Takes(Place::Second, "leave c1"),
    Turn::IsMet(false),
    Turn::Entered(2),
];

#[test]
fn readers_meet(rt: HostRuntime) -> Outcome {
    play_one(rt.alloc(), &BESIDE)
}

/// Nobody is met in another resource.
const APART: [Turn; 7] = [
    Turn::Takes(Place::Second, FIRST_ASKS),
    Turn::Takes(Place::Third, SECOND_ASKS_FOR_ANOTHER),
    Turn::Takes(Place::First, ANSWERS),
    Turn::Takes(Place::Second, "hear c1 3\nenter c1"),
    Turn::Takes(Place::Third, "hear c2 4\nenter c2"),
    Turn::Meets(false),
    Turn::Entered(2),
];

#[test]
fn readers_of_two_resources(rt: HostRuntime) -> Outcome {
    play_one(rt.alloc(), &APART)
}

const FIRST_WRITES: &str = "rise c1 old\nbegin c1 write a\ntry c1\nkept c1\nsayto c1 n1";

/// n1 takes the softening, message 5, and grants the reader's request by message 7.
const ANSWERS_SOFTENING: &str = "take n1 5\ntry n1\nkept n1\nsay n1";

/// What a client is answered that is in another phase.
const WRONG_PHASE: Answer = Answer::NotNow(StepFault::WrongPhase);

/// c1 is inside as a writer, and c2 waits. c1 softens; it isn't for c2 to log that, nor again for c1. Then c2
/// enters too, and c1 meets c2.
const SOFTENS: [Turn; 16] = [
    Turn::Takes(Place::Second, FIRST_WRITES),
    Turn::Takes(Place::Third, SECOND_ASKS),
    Turn::Takes(Place::First, ANSWERS),
    Turn::Takes(Place::Second, "hear c1 3\nenter c1"),
    Turn::Takes(Place::Third, "hear c2 4"),
    Turn::Meets(false),
    Turn::Logs(Place::Third, "soften c1", Answer::OtherActor),
    Turn::Logs(Place::Third, "soften c2", WRONG_PHASE),
    Turn::Logs(Place::Second, "soften c1", Answer::Softened),
    Turn::Logs(Place::Second, "soften c1", WRONG_PHASE),
    Turn::Takes(Place::Second, "sayto c1 n1"),
    Turn::Takes(Place::First, ANSWERS_SOFTENING),
    Turn::Takes(Place::Second, "hear c1 6"),
    Turn::Takes(Place::Third, "hear c2 7\nenter c2"),
    Turn::Meets(true),
    Turn::Entered(2),
];

#[test]
fn softened_writer_meets_a_reader(rt: HostRuntime) -> Outcome {
    play_one(rt.alloc(), &SOFTENS)
}

/// A client has one berth of a book, so only that of another book could stand for the client itself.
pub(crate) fn meets_only_others(book: &mut Book, other: &mut Book) -> Outcome
    requires { book.old.number ≢ other.old.number }
{
    let client = Who::C1.actor();
    let mut one = berth_of(book, client)?;
    let mut same = berth_of(other, client)?;
    let there = meets(book, &mut one, &mut same) == Err(BookFault::OtherBook);
    let back = meets(book, &mut same, &mut one) == Err(BookFault::OtherBook);
    check(there && back && !is_given(book, client))
}

#[test]
fn nobody_meets_itself(rt: HostRuntime) -> Outcome {
    try_beside(
        rt.alloc(),
        Start::OneNode,
        Beside::MeetsOnlyOthers,
        &Journal::Any,
    )
}
