// A long history of a fixed generator, logged by the berths of all actors, and the audit of its journal.

ghost use Rattle.std.specs.Prelude.{◌≡◌, All, IfOk};
ghost use Rattle.book_tests.specs.Ties.{IsOf};

use crate::courses::log_beside;
use crate::generator::event_of_turn;
use crate::journals::Journal;
use crate::logging::log;
use crate::worlds::{Start, Who};
use book_support::berth_of;
use history_book::{Berth, Book, BookFault};
use lock_messages::Actor;
use rand_core::utils::NextWord;
use rand_pcg::Pcg32;
use std::alloc::Global;
use test_outcomes::{Failure, Outcome, check};
use test_support::Tally;
use world_machine::World;
use world_model::{Effect, Event, StepFault};

/// The seed of the events.
const SEED: u64 = 2;

/// The events that are logged.
const EVENTS: u32 = 2_000;

/// More events than have to be tried until so many are logged.
const TRIES: u32 = 20_000;

/// The actors of the world: the nodes, and behind them the clients.
const ACTORS: u32 = 7;

/// The actor of this place.
fn actor_at(place: u32) -> Actor {
    let who = match place {
        0 => Who::N1,
        1 => Who::N2,
        2 => Who::N3,
        3 => Who::C1,
        4 => Who::C2,
        5 => Who::C3,
        _ => Who::C4,
    };
    who.actor()
}

/// The berths of all actors, in their order.
#[tactic(auto, using(crate::proofs::Owners::with_one_more))]
fn berths_of(alloc: Global, book: &mut Book) -> Result<Vec<Berth>, Failure>
    ensures book { (book.new.number ≡ book.old.number) × (book.new.table ≡ book.old.table) }
    ensures berths { IfOk result (λ v. All (IsOf book.new) v.items) }
{
    let mut berths = Vec::new(alloc);
    for place in 0..ACTORS {
        let berth = berth_of(book, actor_at(place))?;
        berths.push(berth)?;
    }
    Ok(berths)
}

/// What a history has, and how many events were refused.
#[derive(Clone, Copy)]
struct Seen {
    done: Tally,
    refused: u32,
}

/// What was seen, with one answer more.
fn seen_with(seen: Seen, answer: &Result<Effect, BookFault>) -> Seen {
    let mut seen = seen;
    match answer {
        Ok(effect) => seen.done = seen.done.after(effect),
        Err(_) => seen.refused = seen.refused.saturating_add(1),
    }
    seen
}

/// Ends the test where a book doesn't answer what a world does that is beside it.
fn agree(answer: Result<Effect, BookFault>, did: Result<Effect, StepFault>) -> Outcome {
    match (answer, did) {
        (Err(BookFault::Memory), _) | (_, Err(StepFault::Memory)) => Err(Failure::Memory),
        (Ok(done), Ok(same)) => check(done == same),
        (Err(BookFault::NotAStep(fault)), Err(same)) => check(fault == same),
        _ => Err(Failure::Wrong(0)),
    }
}

/// The berth at this place logs an event. Where there is none, it is for another actor to log it.
#[tactic(auto, using(crate::proofs::Owners::with_one_changed))]
fn log_at(
    book: &mut Book,
    berths: &mut Vec<Berth>,
    place: u32,
    event: Event,
) -> Result<Effect, BookFault>
    requires { All (IsOf book.old) berths.old.items }
    ensures { All (IsOf book.new) berths.new.items }
{
    let place = place as usize;
    if place >= berths.len() {
        return Err(BookFault::OtherActor);
    }
    log(book, &mut berths[place], event)
}

/// Tries events of all actors until so many are logged; each is taken in a world beside the book too.
fn run(book: &mut Book, berths: &mut Vec<Berth>, world: &mut World) -> Result<Seen, Failure>
    requires { All (IsOf book.old) berths.old.items }
{
    let mut words = Pcg32::new(SEED, 1);
    let mut seen = Seen {
        done: Tally::NONE,
        refused: 0,
    };
    let mut place = 0;
    for turn in 0..TRIES {
        if book.events() == EVENTS {
            break;
        }
        if turn % 4 == 0 {
            place = words.next_word() % ACTORS;
        }
        let actor = actor_at(place);
        let event = &event_of_turn(&mut words, world, actor, turn, seen.done.sent);
        let answer = log_at(book, berths, place, *event);
        seen = seen_with(seen, &answer);
        let did = world.step(event);
        agree(answer, did)?;
    }
    Ok(seen)
}

/// Whether a history has enough of each kind, and the book has what was seen.
fn has_enough(book: &Book, seen: Seen) -> Outcome {
    let logged = check(book.events() == EVENTS && book.entered() == seen.done.entered);
    let many = check(seen.refused >= 2_000 && seen.done.entered >= 5);
    logged
        .and(many)
        .and(check(seen.done.softened >= 2 && seen.done.switched >= 10))
}

/// A run logs enough of each kind.
fn logs_many(book: &mut Book, berths: &mut Vec<Berth>, world: &mut World) -> Outcome
    requires { All (IsOf book.old) berths.old.items }
{
    match run(book, berths, world) {
        Ok(seen) => has_enough(book, seen),
        Err(failure) => Err(failure),
    }
}

/// The same with the berths of all actors.
pub(crate) fn logs_beside(alloc: Global, book: &mut Book, world: &mut World) -> Outcome
    requires { Unit {0} }
{
    match berths_of(alloc, book) {
        Ok(berths) => {
            let mut berths = berths;
            logs_many(book, &mut berths, world)
        }
        Err(failure) => Err(failure),
    }
}

#[test]
fn random_history_is_sound(rt: HostRuntime) -> Outcome {
    log_beside(rt.alloc(), Start::ThreeNodes, &Journal::Sound)
}
