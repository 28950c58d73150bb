// An event as the turn that it is to its actor.

ghost use Rattle.std.specs.Prelude.{◌≡◌};
ghost use Rattle.world_machine.specs.Doing.{event_of};

use lock_messages::{Actor, ClientId, Mode, NodeId, ResourceName};
use lock_model::Problem;
use world_model::{Age, Event};

/// What a node does by itself.
#[derive(Clone, Copy)]
pub(crate) enum NodeAct {
    Try,
    Kept,
    Fall,
    Rise(Age),
    Switch(Problem),
}

/// What a client does by itself. A resource's name stays where it is: each turn would pay for its room.
#[derive(Clone, Copy)]
pub(crate) enum ClientAct<'a> {
    Begin(Mode, &'a ResourceName, u8),
    Try,
    Kept,
    Enter,
    Leave,
    Soften,
    Fall,
    Rise(Age),
}

/// Whose turn it is, and what comes of it: the actor does something by itself, or it needs the list of
/// messages.
#[derive(Clone, Copy)]
pub(crate) enum Turn<'a> {
    Node(NodeId, NodeAct),
    Client(ClientId, ClientAct<'a>),
    Tells(ClientId, NodeId),
    Says(NodeId),
    Takes(NodeId, u32),
    Hears(ClientId, u32),
}

fn turn_of_try(who: Actor) -> Turn<'static>
    ensures { event_of result ≡ Event.Try who }
{
    match who {
        Actor::Node(id) => Turn::Node(id, NodeAct::Try),
        Actor::Client(id) => Turn::Client(id, ClientAct::Try),
    }
}

fn turn_of_kept(who: Actor) -> Turn<'static>
    ensures { event_of result ≡ Event.Kept who }
{
    match who {
        Actor::Node(id) => Turn::Node(id, NodeAct::Kept),
        Actor::Client(id) => Turn::Client(id, ClientAct::Kept),
    }
}

fn turn_of_fall(who: Actor) -> Turn<'static>
    ensures { event_of result ≡ Event.Fall who }
{
    match who {
        Actor::Node(id) => Turn::Node(id, NodeAct::Fall),
        Actor::Client(id) => Turn::Client(id, ClientAct::Fall),
    }
}

fn turn_of_rise(who: Actor, age: Age) -> Turn<'static>
    ensures { event_of result ≡ Event.Rise who age }
{
    match who {
        Actor::Node(id) => Turn::Node(id, NodeAct::Rise(age)),
        Actor::Client(id) => Turn::Client(id, ClientAct::Rise(age)),
    }
}

/// The turn that an event is.
pub(crate) fn turn_of(event: &Event) -> Turn<'_>
    ensures { event_of result ≡ event.now }
{
    match event {
        Event::Begin(id, mode, resource, place) => {
            Turn::Client(*id, ClientAct::Begin(*mode, resource, *place))
        }
        Event::Try(who) => turn_of_try(*who),
        Event::Kept(who) => turn_of_kept(*who),
        Event::SayTo(id, node) => Turn::Tells(*id, *node),
        Event::Say(id) => Turn::Says(*id),
        Event::Take(id, number) => Turn::Takes(*id, *number),
        Event::Hear(id, number) => Turn::Hears(*id, *number),
        Event::Enter(id) => Turn::Client(*id, ClientAct::Enter),
        Event::Leave(id) => Turn::Client(*id, ClientAct::Leave),
        Event::Soften(id) => Turn::Client(*id, ClientAct::Soften),
        Event::Fall(who) => turn_of_fall(*who),
        Event::Rise(who, age) => turn_of_rise(*who, *age),
        Event::Switch(id, problem) => Turn::Node(*id, NodeAct::Switch(*problem)),
    }
}
