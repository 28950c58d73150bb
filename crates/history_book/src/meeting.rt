// Whether two actors are inside one resource.

ghost use Rattle.std.specs.Prelude.{◌≡◌, ◌↔◌, true, IsTrue};
ghost use Rattle.world_model.specs.Forgetting.{forget};
ghost use Rattle.world_model.specs.Parts.{part};
ghost use Rattle.history_book.specs.Books.{inside_ticket, are_together, IsInsideAs, IsOwnTicket, AreInsideOneResource, Reads};

use lock_messages::{Actor, Ticket};
use world_machine::World;
use world_model::laws::lists_are_the_sets;

/// The ticket of an actor that is inside, which is its own.
fn ticket_of(world: &World, actor: Actor) -> Option<Ticket>
    ensures ticket { result ≡ inside_ticket (part world.now actor) }
    ensures set { IsInsideAs (forget world.now) actor result }
    ensures own { IsOwnTicket actor result }
{
    match actor {
        Actor::Node(_) => None,
        Actor::Client(client) => world.ticket_inside(client),
    }
}

/// Whether these are two tickets, of two clients, for one resource.
fn are_together(one: Option<Ticket>, other: Option<Ticket>) -> bool
    ensures { result ≡ are_together one other }
{
    let (Some(one), Some(other)) = (one, other) else {
        return false;
    };
    one.client != other.client && one.resource == other.resource
}

/// Whether the actors are two clients inside one resource; then both read.
pub(crate) fn are_inside_together(world: &World, one: Actor, other: Actor) -> bool
    ensures met { IsTrue result ↔ AreInsideOneResource (forget world.now) one other }
    ensures told { result ≡ are_together (inside_ticket (part world.now one)) (inside_ticket (part world.now other)) }
    ensures tickets { IsOwnTicket one (inside_ticket (part world.now one)) × IsOwnTicket other (inside_ticket (part world.now other)) }
    ensures read { result ≡ true → Reads (inside_ticket (part world.now one)) × Reads (inside_ticket (part world.now other)) }
{
    lists_are_the_sets();
    world.soundness();
    let (one, other) = (&one, &other);
    let first = ticket_of(world, *one);
    let second = ticket_of(world, *other);
    are_together(first, second)
}
