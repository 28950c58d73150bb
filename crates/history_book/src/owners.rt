// Whose an event is, and what it counts for.

ghost use Rattle.std.specs.Prelude.{◌≡◌};
ghost use Rattle.berth_seats.specs.Views.{is_given};
ghost use Rattle.world_model.specs.Parts.{is_own, place};
ghost use Rattle.history_book.specs.Books.{enters_by};

use lock_messages::Actor;
use world_model::Event;

/// Whether the actor is among these.
pub(crate) fn has_given(given: &[Actor], actor: Actor) -> bool
    ensures { result ≡ is_given given.now actor }
{
    let wanted = place(actor);
    given.iter().any(|other| place(*other) == wanted)
}

/// 1 for an Enter, else 0.
pub(crate) fn enters_by(event: &Event) -> u32
    ensures { result ≡ enters_by event.now }
{
    match event {
        Event::Enter(_) => 1,
        Event::Begin(..)
        | Event::Try(_)
        | Event::Kept(_)
        | Event::SayTo(..)
        | Event::Say(_)
        | Event::Take(..)
        | Event::Hear(..)
        | Event::Leave(_)
        | Event::Soften(_)
        | Event::Fall(_)
        | Event::Rise(..)
        | Event::Switch(..) => 0,
    }
}

/// Whether the event is the actor's.
pub(crate) fn is_of(actor: Actor, event: Event) -> bool
    ensures { result ≡ is_own actor event }
{
    place(event.actor()) == place(actor)
}

/// A number for each actor, of which no other has the same.
fn place(actor: Actor) -> u32
    ensures { result ≡ place actor }
{
    match actor {
        Actor::Node(n) => 2 * u32::from(n.get()),
        Actor::Client(c) => 2 * u32::from(c.get()) + 1,
    }
}
