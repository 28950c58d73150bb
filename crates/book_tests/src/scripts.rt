// Scripts that are played with a book and three of its berths.

ghost use Rattle.std.specs.Prelude.{◌≡◌};

use crate::logging::{asks, is_given, logs, meets, rises, takes_all};
use crate::worlds::{Who, fourth_ticket};
use book_support::berth_of;
use history_book::{Berth, Book, BookFault};
use lock_messages::Message;
use lock_model::Heard;
use test_outcomes::{Outcome, check, node_id};
use test_support::in_row;
use world_model::{Effect, StepFault};

/// One of the three berths.
#[derive(Clone, Copy)]
pub(crate) enum Place {
    First,
    Second,
    Third,
}

/// What a book answers.
#[derive(Clone, Copy)]
pub(crate) enum Answer {
    Up,
    Softened,
    Switched(bool),
    /// The number of the first message, and how many there are.
    Said(u32, u32),
    /// c4 hears n1's Grant of its first ticket, to read `a`.
    HearsGrant,
    /// It hears that n1 is busy for that.
    HearsBusy,
    /// The event may not happen now, and this is why.
    NotNow(StepFault),
    /// It is for another actor to log the event.
    OtherActor,
    /// The history is full, or the list of messages.
    Full,
}

impl Answer {
    fn expected(self) -> Result<Effect, BookFault> {
        let (from, ticket) = (node_id(1), fourth_ticket());
        match self {
            Answer::Up => Ok(Effect::Up),
            Answer::Softened => Ok(Effect::Softened),
            Answer::Switched(changed) => Ok(Effect::Switched(changed)),
            Answer::Said(first, count) => Ok(Effect::Said { first, count }),
            Answer::HearsGrant => Ok(Effect::Heard(Message::Grant(from, ticket), Heard::Counted)),
            Answer::HearsBusy => Ok(Effect::Heard(Message::Busy(from, ticket), Heard::Busy)),
            Answer::NotNow(fault) => Err(BookFault::NotAStep(fault)),
            Answer::OtherActor => Err(BookFault::OtherActor),
            Answer::Full => Err(BookFault::Full),
        }
    }
}

/// A turn of a script.
#[derive(Clone, Copy)]
pub(crate) enum Turn {
    /// The berth logs the events of these lines, each of which may happen.
    Takes(Place, &'static str),
    /// The berth logs the event of the line, and this is answered.
    Logs(Place, &'static str, Answer),
    /// The second, that of c1, rises and falls so many times.
    Rises(u32),
    /// It says its request to n1 so many times.
    Asks(u32),
    /// The actor is given a berth, which is the third from now on.
    Joins(Who),
    /// The actor is given no berth.
    Refuses(Who),
    /// Whether the second meets the third.
    Meets(bool),
    /// Whether the third meets the second.
    IsMet(bool),
    /// Whether the second meets the first.
    MeetsFirst(bool),
    /// The book has so many events.
    Events(u32),
    /// So many have entered.
    Entered(u32),
}

/// Takes a turn.
fn goes(
    book: &mut Book,
    first: &mut Berth,
    second: &mut Berth,
    third: &mut Berth,
    turn: &Turn,
) -> Outcome
    requires first { first.old.number ≡ book.old.number → first.old.table ≡ book.old.table }
    requires second { second.old.number ≡ book.old.number → second.old.table ≡ book.old.table }
    requires third { third.old.number ≡ book.old.number → third.old.table ≡ book.old.table }
    ensures first { first.new.number ≡ book.new.number → first.new.table ≡ book.new.table }
    ensures second { second.new.number ≡ book.new.number → second.new.table ≡ book.new.table }
    ensures third { third.new.number ≡ book.new.number → third.new.table ≡ book.new.table }
{
    match *turn {
        Turn::Takes(Place::First, lines) => takes_all(book, first, lines),
        Turn::Takes(Place::Second, lines) => takes_all(book, second, lines),
        Turn::Takes(Place::Third, lines) => takes_all(book, third, lines),
        Turn::Logs(Place::First, line, answer) => logs(book, first, line, answer.expected()),
        Turn::Logs(Place::Second, line, answer) => logs(book, second, line, answer.expected()),
        Turn::Logs(Place::Third, line, answer) => logs(book, third, line, answer.expected()),
        Turn::Rises(times) => rises(book, second, times),
        Turn::Asks(times) => asks(book, second, times),
        Turn::Joins(who) => {
            *third = berth_of(book, who.actor())?;
            Ok(())
        }
        Turn::Refuses(who) => check(!is_given(book, who.actor())),
        Turn::Meets(met) => check(meets(book, second, third) == Ok(met)),
        Turn::IsMet(met) => check(meets(book, third, second) == Ok(met)),
        Turn::MeetsFirst(met) => check(meets(book, second, first) == Ok(met)),
        Turn::Events(count) => check(book.events() == count),
        Turn::Entered(count) => check(book.entered() == count),
    }
}

/// Takes the turns; what goes wrong is told by the turn's place.
fn plays(
    book: &mut Book,
    first: &mut Berth,
    second: &mut Berth,
    third: &mut Berth,
    script: &[Turn],
) -> Outcome
    requires first { first.old.number ≡ book.old.number → first.old.table ≡ book.old.table }
    requires second { second.old.number ≡ book.old.number → second.old.table ≡ book.old.table }
    requires third { third.old.number ≡ book.old.number → third.old.table ≡ book.old.table }
    ensures first { first.new.number ≡ book.new.number → first.new.table ≡ book.new.table }
    ensures second { second.new.number ≡ book.new.number → second.new.table ≡ book.new.table }
    ensures third { third.new.number ≡ book.new.number → third.new.table ≡ book.new.table }
{
    for (row, turn) in script.iter().enumerate() {
        in_row(goes(book, first, second, third, turn), row)?;
    }
    Ok(())
}

/// Plays two scripts, one after the other, with the berths of these actors, of an open book.
pub(crate) fn play_in(book: &mut Book, crew: [Who; 3], script: &[Turn], rest: &[Turn]) -> Outcome
    requires { Unit {0} }
{
    let [first, second, third] = crew;
    let mut first = berth_of(book, first.actor())?;
    let mut second = berth_of(book, second.actor())?;
    let mut third = berth_of(book, third.actor())?;
    let played = plays(book, &mut first, &mut second, &mut third, script);
    played.and(plays(book, &mut first, &mut second, &mut third, rest))
}
