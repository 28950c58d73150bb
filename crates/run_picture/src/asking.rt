// What an event may change, and what is alike.

ghost use Rattle.std.specs.Prelude.{◌≡◌};
ghost use Rattle.lock_model.specs.ExactDecisions.{same_mode};
ghost use Rattle.lock_model.specs.ExactHearing.{same_ticket};
ghost use Rattle.world_model.specs.Parts.{place};
ghost use Rattle.run_picture.specs.Pictures.{whose, same_actor, same_lasting, may_change};

use crate::Lasting;
use lock_messages::{Actor, Mode, Ticket};
use world_model::Event;

/// Whether what lasts of its actor may be other behind the event.
pub(crate) fn may_change(event: &Event) -> bool
    ensures { result ≡ may_change event.now }
{
    match *event {
        Event::Kept(Actor::Node(_)) => true,
        Event::Enter(_) | Event::Leave(_) | Event::Soften(_) => true,
        Event::Fall(_) | Event::Rise(..) => true,
        Event::Kept(Actor::Client(_)) => false,
        Event::Begin(..) | Event::Try(_) | Event::SayTo(..) | Event::Say(_) => false,
        Event::Take(..) | Event::Hear(..) | Event::Switch(..) => false,
    }
}

/// A number for each actor, of which no other has the same.
fn place(actor: &Actor) -> u32
    ensures { result ≡ place actor.now }
{
    match *actor {
        Actor::Node(id) => id.get() as u32 + id.get() as u32,
        Actor::Client(id) => id.get() + id.get() + 1,
    }
}

/// Whether the two are one actor.
pub(crate) fn same_actor(one: &Actor, other: &Actor) -> bool
    ensures { result ≡ same_actor one.now other.now }
{
    place(one) == place(other)
}

/// Of whom this lasts.
pub(crate) fn whose(what: &Lasting) -> Actor
    ensures { result ≡ whose what.now }
{
    match what {
        Lasting::Down(who) => *who,
        Lasting::Inside(ticket) => Actor::Client(ticket.client),
        Lasting::Holding(node, _) => Actor::Node(*node),
    }
}

fn same_mode(one: Mode, other: Mode) -> bool
    ensures { result ≡ same_mode one other }
{
    match (one, other) {
        (Mode::Read, Mode::Read) | (Mode::Write, Mode::Write) => true,
        (Mode::Read, Mode::Write) | (Mode::Write, Mode::Read) => false,
    }
}

/// Whether the two tickets are one.
fn same_ticket(one: &Ticket, other: &Ticket) -> bool
    ensures { result ≡ same_ticket one.now other.now }
{
    one.client.get() == other.client.get()
        && one.attempt.get() == other.attempt.get()
        && same_mode(one.mode, other.mode)
        && one.resource.bytes() == other.resource.bytes()
}

/// Whether the two are the same, and of the same actor.
pub(crate) fn same_lasting(one: &Lasting, other: &Lasting) -> bool
    ensures { result ≡ same_lasting one.now other.now }
{
    match (one, other) {
        (Lasting::Down(who), Lasting::Down(other)) => same_actor(who, other),
        (Lasting::Inside(ticket), Lasting::Inside(other)) => same_ticket(ticket, other),
        (Lasting::Holding(node, ticket), Lasting::Holding(other_node, other)) => {
            node.get() == other_node.get() && same_ticket(ticket, other)
        }
        (Lasting::Down(_), Lasting::Inside(_) | Lasting::Holding(..)) => false,
        (Lasting::Inside(_), Lasting::Down(_) | Lasting::Holding(..)) => false,
        (Lasting::Holding(..), Lasting::Down(_) | Lasting::Inside(_)) => false,
    }
}
