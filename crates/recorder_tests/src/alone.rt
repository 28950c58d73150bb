//! An actor that logs in a book of its own.

ghost use Rattle.std.specs.Prelude.{◌≡◌};
ghost use Rattle.book_recorders.specs.Alone.{IsAlone};

use crate::worlds::world;
use book_recorders::{Logs, OwnBookRecorder, open_alone};
use history_book::{Berth, Book, BookFault};
use lock_messages::Actor;
use test_outcomes::{Failure, Outcome, check_row};
use test_support::{client, node};
use world_model::{Age, Effect, Event, StepFault};

/// Lets the actor rise, rise again, which is refused, and fall.
fn rise_twice<K: Logs>(book: K, berth: Berth, actor: &Actor) -> (K, Outcome)
    requires { IsAlone (K.book book) berth }
{
    let mut recorder = OwnBookRecorder::over(book, berth);
    let risen = recorder.log_event(Event::Rise(*actor, Age::Old));
    let again = recorder.log_event(Event::Rise(*actor, Age::Old));
    let fallen = recorder.log_event(Event::Fall(*actor));
    (recorder.into_book(), judged(risen, again, fallen))
}

fn judged(
    risen: Result<Effect, BookFault>,
    again: Result<Effect, BookFault>,
    fallen: Result<Effect, BookFault>,
) -> Outcome {
    let (Ok(risen), Err(again), Ok(fallen)) = (risen, again, fallen) else {
        return Err(Failure::Memory);
    };
    check_row(risen == Effect::Up && fallen == Effect::Down, 1)?;
    check_row(again == BookFault::NotAStep(StepFault::Up), 2)
}

#[test]
fn an_actor_alone(rt: HostRuntime) -> Outcome {
    let actor = Actor::Client(client(2)?);
    let Ok(opened) = open_alone(rt.alloc(), world(rt.alloc())?, actor) else {
        return Err(Failure::Memory);
    };
    let (book, berth) = opened.ok_or(Failure::Wrong(3))?;
    let (book, done) = rise_twice::<Book>(book, berth, &actor);
    done?;
    check_row(book.events() == 2, 4)
}

#[test]
fn a_stranger_alone(rt: HostRuntime) -> Outcome {
    let stranger = Actor::Node(node(2)?);
    match open_alone(rt.alloc(), world(rt.alloc())?, stranger) {
        Ok(None) => Ok(()),
        Ok(Some(_)) => Err(Failure::Wrong(1)),
        Err(_) => Err(Failure::Memory),
    }
}
