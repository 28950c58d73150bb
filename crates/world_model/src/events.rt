// Events, their effects and their refusals.

ghost use Rattle.std.specs.Prelude.{◌≡◌};
ghost use Rattle.world_model.specs.ExactWorlds.{actor_of};
ghost use Rattle.world_model.specs.Faults.{fault_number};
ghost use Rattle.world_model.specs.Parts.{message_of, number_of, changed_by};

use lock_messages::{Actor, Attempt, ClientId, Message, Mode, NodeId, ResourceName};
use lock_model::{Heard, Problem};
use thiserror::Error;

/// Which value an actor rises with, where its record was being written as it fell.
#[derive(Clone, Copy, Debug, PartialEq, Eq)]
pub enum Age {
    /// What it had kept before.
    Old,
    /// What it was trying to keep.
    New,
}

/// What may happen: one atomic action of one actor.
#[derive(Clone, Copy, Debug, PartialEq, Eq)]
pub enum Event {
    /// The client begins its next attempt, in this mode, for this resource, by the ballot at this place.
    Begin(ClientId, Mode, ResourceName, u8),
    /// The actor starts to keep what it decided or chose.
    Try(Actor),
    /// The actor has kept it.
    Kept(Actor),
    /// The client says to the node what it has to say: its request, its softening, or its release.
    SayTo(ClientId, NodeId),
    /// The node says its replies.
    Say(NodeId),
    /// The node takes the message of this number, and decides.
    Take(NodeId, u32),
    /// The client hears the message of this number.
    Hear(ClientId, u32),
    /// The client enters the resource that it asked for.
    Enter(ClientId),
    /// The client leaves, or gives up asking.
    Leave(ClientId),
    /// The client, inside as a writer, is a reader from now on (our own).
    Soften(ClientId),
    /// The actor falls: all that it hasn't kept is lost, but for what it was trying to keep.
    Fall(Actor),
    /// The actor rises with what it finds in its record.
    Rise(Actor, Age),
    /// The node takes this problem from now on, and all that wait are settled under it (our own).
    Switch(NodeId, Problem),
}

impl Event {
    /// Whose action it is.
    pub fn actor(&self) -> Actor
        ensures { result ≡ actor_of self.now }
    {
        match *self {
            Event::Begin(client, ..)
            | Event::SayTo(client, _)
            | Event::Hear(client, _)
            | Event::Enter(client)
            | Event::Leave(client)
            | Event::Soften(client) => Actor::Client(client),
            Event::Say(node) | Event::Take(node, _) | Event::Switch(node, _) => Actor::Node(node),
            Event::Try(actor) | Event::Kept(actor) | Event::Fall(actor) | Event::Rise(actor, _) => {
                actor
            }
        }
    }
}

/// What an event did.
#[derive(Clone, Copy, Debug, PartialEq, Eq)]
pub enum Effect {
    /// The attempt that a client chose.
    Chose(Attempt),
    Tried,
    Kept,
    /// The number of the message that was sent, and the message.
    Sent(u32, Message),
    /// The number of the first reply that was sent, and how many there were. Without replies it is
    /// the number that the next message will get.
    Said { first: u32, count: u32 },
    /// The message that was taken, and whether the record changes.
    Took(Message, bool),
    /// The message that was heard, and what the client made of it.
    Heard(Message, Heard),
    Inside,
    Outside,
    Softened,
    Down,
    Up,
    /// Whether the problem is another one than before.
    Switched(bool),
}

impl Effect {
    /// The message that was taken or heard, of an effect that has one.
    pub fn message(&self) -> Option<Message>
        ensures { result ≡ message_of self.now }
    {
        match *self {
            Effect::Took(message, _) | Effect::Heard(message, _) => Some(message),
            _ => None,
        }
    }

    /// The number of the message that was sent, or of the first reply that was said; 0 where nothing is said.
    pub fn number(&self) -> u32
        ensures { result ≡ number_of self.now }
    {
        match *self {
            Effect::Sent(number, _) => number,
            Effect::Said { first, .. } => first,
            _ => 0,
        }
    }

    /// Whether what was taken, or the problem that was switched to, changes the node's record.
    pub fn changes(&self) -> bool
        ensures { result ≡ changed_by self.now }
    {
        match *self {
            Effect::Took(_, changed) | Effect::Switched(changed) => changed,
            _ => false,
        }
    }
}

/// Why an event was refused. Of several that apply, the one of the lowest number is answered.
#[derive(Clone, Copy, Debug, PartialEq, Eq, Error)]
pub enum StepFault {
    #[error("there is no such node or client")]
    UnknownActor,
    #[error("the actor is down")]
    Down,
    #[error("the actor is up")]
    Up,
    #[error("the actor is in another phase")]
    WrongPhase,
    #[error("what the actor would say isn't kept yet")]
    NotStored,
    #[error("the actor has nothing to say")]
    NothingToSay,
    #[error("no message of this number was sent")]
    NoSuchMessage,
    #[error("the message is for another actor")]
    NotAddressed,
    #[error("the votes are not enough")]
    NoQuorum,
    #[error("the client's attempts are spent")]
    AttemptsSpent,
    #[error("nothing is being kept")]
    NothingTried,
    #[error("the list of messages is full")]
    SentListFull,
    #[error("there was no memory")]
    Memory,
    #[error("there is no ballot at this place")]
    NoSuchPlace,
}

impl StepFault {
    /// The number by which programs print the fault: 601 to 614.
    pub fn number(self) -> u16
        ensures { result ≡ fault_number self }
    {
        match self {
            StepFault::UnknownActor => 601,
            StepFault::Down => 602,
            StepFault::Up => 603,
            StepFault::WrongPhase => 604,
            StepFault::NotStored => 605,
            StepFault::NothingToSay => 606,
            StepFault::NoSuchMessage => 607,
            StepFault::NotAddressed => 608,
            StepFault::NoQuorum => 609,
            StepFault::AttemptsSpent => 610,
            StepFault::NothingTried => 611,
            StepFault::SentListFull => 612,
            StepFault::Memory => 613,
            StepFault::NoSuchPlace => 614,
        }
    }
}
