// The rows that scripts of worlds are made of: plain numbers, and what they stand for.

use lock_messages::{Actor, Message, Mode};
use lock_model::{Heard, Problem};
use test_outcomes::Failure;
use test_support::{attempt, client, first_ticket, node, resource};
use world_model::{Age, Effect, Event};

/// An actor, by its number.
#[derive(Clone, Copy)]
pub(crate) enum Who {
    Node(u8),
    Client(u32),
}

impl Who {
    pub(crate) fn actor(self) -> Result<Actor, Failure> {
        match self {
            Who::Node(number) => Ok(Actor::Node(node(number)?)),
            Who::Client(number) => Ok(Actor::Client(client(number)?)),
        }
    }
}

/// An event, as the world's model names them; what begins is a client's attempt to use `a` by the first
/// ballot.
#[derive(Clone, Copy)]
pub(crate) enum Deed {
    Begin(u32, Mode),
    Try(Who),
    Kept(Who),
    SayTo(u32, u8),
    Say(u8),
    Take(u8, u32),
    Hear(u32, u32),
    Enter(u32),
    Leave(u32),
    Soften(u32),
    Fall(Who),
    Rise(Who, Age),
    Switch(u8, Problem),
}

impl Deed {
    pub(crate) fn event(self) -> Result<Event, Failure> {
        Ok(match self {
            Deed::Begin(from, mode) => Event::Begin(client(from)?, mode, resource(b"a")?, 1),
            Deed::Try(who) => Event::Try(who.actor()?),
            Deed::Kept(who) => Event::Kept(who.actor()?),
            Deed::SayTo(from, to) => Event::SayTo(client(from)?, node(to)?),
            Deed::Say(from) => Event::Say(node(from)?),
            Deed::Take(to, message) => Event::Take(node(to)?, message),
            Deed::Hear(to, message) => Event::Hear(client(to)?, message),
            Deed::Enter(from) => Event::Enter(client(from)?),
            Deed::Leave(from) => Event::Leave(client(from)?),
            Deed::Soften(from) => Event::Soften(client(from)?),
            Deed::Fall(who) => Event::Fall(who.actor()?),
            Deed::Rise(who, age) => Event::Rise(who.actor()?, age),
            Deed::Switch(from, problem) => Event::Switch(node(from)?, problem),
        })
    }
}

/// A message between n1 and a client, about the client's first attempt to use `a`.
#[derive(Clone, Copy)]
pub(crate) enum Note {
    Request(u32, Mode),
    Grant(u32, Mode),
    Busy(u32, Mode),
    Release(u32),
    Soften(u32),
    Softened(u32),
}

impl Note {
    pub(crate) fn message(self) -> Result<Message, Failure> {
        let (at, first) = (node(1)?, attempt(1)?);
        Ok(match self {
            Note::Request(from, mode) => Message::Request(at, first_ticket(from, mode)?),
            Note::Grant(to, mode) => Message::Grant(at, first_ticket(to, mode)?),
            Note::Busy(to, mode) => Message::Busy(at, first_ticket(to, mode)?),
            Note::Release(from) => Message::Release(at, client(from)?, first),
            Note::Soften(from) => Message::Soften(at, client(from)?, first),
            Note::Softened(to) => Message::Softened(at, client(to)?, first),
        })
    }
}

/// An effect, as the world's model names them.
#[derive(Clone, Copy)]
pub(crate) enum Done {
    Sent(u32, Note),
    /// The number of the first message, and how many there are.
    Said(u32, u32),
    Took(Note, bool),
    Heard(Note, Heard),
    Softened,
    Down,
    Up,
    Switched(bool),
}

impl Done {
    pub(crate) fn effect(self) -> Result<Effect, Failure> {
        Ok(match self {
            Done::Sent(number, note) => Effect::Sent(number, note.message()?),
            Done::Said(first, count) => Effect::Said { first, count },
            Done::Took(note, changed) => Effect::Took(note.message()?, changed),
            Done::Heard(note, heard) => Effect::Heard(note.message()?, heard),
            Done::Softened => Effect::Softened,
            Done::Down => Effect::Down,
            Done::Up => Effect::Up,
            Done::Switched(changed) => Effect::Switched(changed),
        })
    }
}
