// What a book answers, and the journal that it writes.

ghost use Rattle.std.specs.Prelude.{◌≡◌, ◌≢◌};

use crate::courses::{Beside, play, try_beside};
use crate::journals::Journal;
use crate::logging::logs;
use crate::scripts::Turn;
use crate::worlds::{Start, Who};
use book_support::berth_of;
use history_book::{Berth, Book, BookFault};
use lock_messages::Attempt;
use test_outcomes::{Outcome, check, check_row};
use world_model::{Effect, StepFault};

/// c1 and c2 log with berths of the first book; the other one has its own number.
fn answers(book: &mut Book, other: &mut Book, one: &mut Berth, two: &mut Berth) -> Outcome
    requires one { one.old.table ≡ book.old.table }
    requires two { two.old.table ≡ book.old.table }
    requires other { one.old.number ≢ other.old.number }
{
    let chosen = Effect::Chose(Attempt::of(1).unwrap());
    let not_now = Err(BookFault::NotAStep(StepFault::WrongPhase));
    let rises = logs(book, one, "rise c1 old", Ok(Effect::Up));
    let begins = logs(book, one, "begin c1 read a", Ok(chosen));
    let of_another = logs(book, two, "enter c1", Err(BookFault::OtherActor));
    let in_another = logs(other, one, "enter c1", Err(BookFault::OtherBook));
    let enters = logs(book, one, "enter c1", not_now);
    let counted = check(book.events() == 2 && book.entered() == 0 && other.events() == 0);
    let logged = rises.and(begins).and(of_another);
    logged.and(in_another).and(enters).and(counted)
}

/// Of two books each has its own berths.
pub(crate) fn answers_beside_another(book: &mut Book, other: &mut Book) -> Outcome
    requires { book.old.number ≢ other.old.number }
{
    let mut one = berth_of(book, Who::C1.actor())?;
    let mut two = berth_of(book, Who::C2.actor())?;
    answers(book, other, &mut one, &mut two)
}

const TWO_EVENTS: &str = "rise c1 old\nbegin c1 read a\n";

#[test]
fn book_faults(rt: HostRuntime) -> Outcome {
    let journal = Journal::Text(TWO_EVENTS);
    try_beside(rt.alloc(), Start::ThreeNodes, Beside::Answers, &journal)
}

/// n1 and c4 have a berth each; n1 gets no other one, and who isn't there gets none.
const ONE_EACH: [Turn; 4] = [
    Turn::Refuses(Who::N1),
    Turn::Refuses(Who::FifthClient),
    Turn::Refuses(Who::FourthNode),
    Turn::Joins(Who::C4),
];

#[test]
fn one_berth_each(rt: HostRuntime) -> Outcome {
    let crew = [Who::N1, Who::C1, Who::C2];
    play(
        rt.alloc(),
        Start::ThreeNodes,
        crew,
        &ONE_EACH,
        &[],
        &Journal::Any,
    )
}

const NUMBERS: [(BookFault, u16); 5] = [
    (BookFault::NotAStep(StepFault::Down), 811),
    (BookFault::Full, 812),
    (BookFault::Memory, 813),
    (BookFault::OtherActor, 814),
    (BookFault::OtherBook, 815),
];

#[test]
fn numbers_of_faults(_rt: HostRuntime) -> Outcome {
    for (row, (fault, number)) in NUMBERS.iter().enumerate() {
        check_row(fault.number() == *number, row)?;
    }
    Ok(())
}
