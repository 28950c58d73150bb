//! A node that takes another problem, in a book that it shares with a client.

ghost use Rattle.std.specs.Prelude.{◌≡◌};

use crate::worlds::book;
use book_recorders::{BookName, BookRecorder, Logs, Named};
use book_support::berth_of;
use history_book::{Berth, Book, BookFault};
use lock_messages::{Actor, ClientId, Message, Mode, NodeId};
use lock_model::Problem;
use std::marker::Brand;
use std::sync::{Mutex, Wait};
use test_outcomes::{Failure, Outcome, check};
use test_support::{client, first_ticket, node};
use world_model::{Age, Effect, Event, StepFault};

/// Logs an event, and compares the answer.
fn answers<B: BookName, K: Logs, R: Wait + Copy>(
    recorder: &mut BookRecorder<'_, B, K, R>,
    event: Event,
    expected: Result<Effect, BookFault>,
) -> Outcome {
    let answer = recorder.log_event(event);
    if answer == Err(BookFault::Memory) {
        return Err(Failure::Memory);
    }
    check(answer == expected)
}

/// The client asks the node; it can't take a problem for the node.
fn asks<B: BookName, K: Logs, R: Wait + Copy>(
    recorder: &mut BookRecorder<'_, B, K, R>,
    from: ClientId,
    to: NodeId,
) -> Outcome {
    let (who, ticket) = (Actor::Client(from), first_ticket(from.get(), Mode::Read)?);
    let (begin, chose) = (
        Event::Begin(from, Mode::Read, ticket.resource, 1),
        Effect::Chose(ticket.attempt),
    );
    let asked = Effect::Sent(1, Message::Request(to, ticket));
    let switch = Event::Switch(to, Problem::Second);
    answers(recorder, Event::Rise(who, Age::Old), Ok(Effect::Up))?;
    answers(recorder, begin, Ok(chose))?;
    answers(recorder, Event::Try(who), Ok(Effect::Tried))?;
    answers(recorder, Event::Kept(who), Ok(Effect::Kept))?;
    answers(recorder, switch, Err(BookFault::OtherActor))?;
    answers(recorder, Event::SayTo(from, to), Ok(asked))
}

/// What a node is answered that is in another phase.
fn not_now() -> Result<Effect, BookFault> {
    Err(BookFault::NotAStep(StepFault::WrongPhase))
}

/// The node keeps what it decided, and says so many replies, from this number on. Before it may neither take a
/// message nor a problem.
fn keeps_and_says<B: BookName, K: Logs, R: Wait + Copy>(
    recorder: &mut BookRecorder<'_, B, K, R>,
    at: NodeId,
    said: Effect,
) -> Outcome {
    let (tries, keeps) = (Event::Try(Actor::Node(at)), Event::Kept(Actor::Node(at)));
    let switch = Event::Switch(at, Problem::Second);
    answers(recorder, Event::Take(at, 1), not_now())?;
    answers(recorder, switch, not_now())?;
    answers(recorder, tries, Ok(Effect::Tried))?;
    answers(recorder, keeps, Ok(Effect::Kept))?;
    answers(recorder, Event::Say(at), Ok(said))
}

/// The node takes the message and then the problem; it can take neither for another node.
fn takes_both<B: BookName, K: Logs, R: Wait + Copy>(
    recorder: &mut BookRecorder<'_, B, K, R>,
    at: NodeId,
    message: Message,
) -> Outcome {
    let (other, rise) = (node(2)?, Event::Rise(Actor::Node(at), Age::Old));
    let switch = Event::Switch(at, Problem::Second);
    answers(recorder, rise, Ok(Effect::Up))?;
    answers(recorder, Event::Take(other, 1), Err(BookFault::OtherActor))?;
    answers(
        recorder,
        Event::Switch(other, Problem::Second),
        Err(BookFault::OtherActor),
    )?;
    answers(
        recorder,
        Event::Take(at, 1),
        Ok(Effect::Took(message, true)),
    )?;
    keeps_and_says(recorder, at, Effect::Said { first: 2, count: 1 })?;
    answers(recorder, switch, Ok(Effect::Switched(true)))?;
    keeps_and_says(recorder, at, Effect::Said { first: 3, count: 0 })?;
    answers(recorder, switch, Ok(Effect::Switched(false)))?;
    answers(
        recorder,
        Event::Say(at),
        Ok(Effect::Said { first: 3, count: 0 }),
    )
}

/// Both log in the book behind a lock.
fn both<B: BookName, K: Logs, R: Wait + Copy>(
    rt: R,
    book: &Mutex<Named<B, K>>,
    one: Berth,
    voter: Berth,
) -> Outcome
    requires one { one.table ≡ B.table }
    requires voter { voter.table ≡ B.table }
{
    let (from, to) = (client(1)?, node(1)?);
    let mut one = BookRecorder::of(rt, book, one);
    let mut voter = BookRecorder::of(rt, book, voter);
    asks(&mut one, from, to)?;
    let ticket = first_ticket(from.get(), Mode::Read)?;
    takes_both(&mut voter, to, Message::Request(to, ticket))
}

/// The book, in which both have logged.
fn whole<B: BookName, K: Logs, R: Wait + Copy>(
    rt: R,
    book: K,
    one: Berth,
    voter: Berth,
) -> (K, Outcome)
    requires book { (K.book book).table ≡ B.table }
    requires one { one.table ≡ B.table }
    requires voter { voter.table ≡ B.table }
{
    let lock = Mutex::new(Named::<B, K>::of(book));
    let done = both(rt, &lock, one, voter);
    (lock.into_inner().into_book(), done)
}

// The name of the book is picked here, where its berths are at hand.
fn by_name<R: Wait + Copy>(rt: R, book: Book, one: Berth, voter: Berth) -> (Book, Outcome)
    requires one { one.table ≡ book.table }
    requires voter { voter.table ≡ book.table }
{
    whole::<Brand, Book, R>(rt, book, one, voter)
}

#[test]
fn a_node_switches_as_it_takes(rt: HostRuntime) -> Outcome {
    let mut book = book(rt.alloc())?;
    let one = berth_of(&mut book, Actor::Client(client(1)?))?;
    let voter = berth_of(&mut book, Actor::Node(node(1)?))?;
    let (book, done) = by_name(rt, book, one, voter);
    done?;
    check(book.events() == 16)
}
