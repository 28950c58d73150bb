// The numbers of messages that were said lately, which may be forgotten.

use lock_messages::{Attempt, ClientId, Message, NodeId};
use std::alloc::{AllocError, Global};
use world_machine::Actors;
use world_model::MAX_MESSAGES;

/// How many places there are.
const PLACES: usize = 65_536;

/// What tells messages apart at a glance: messages that differ may have the same mark.
#[derive(Clone, Copy)]
struct Mark {
    // Below `PLACES`: of the kind, the node and the client.
    place: u16,
    // The low bits of the attempt.
    attempt: u8,
}

/// The mark of a message of this kind, which has a number below 16.
fn mark_of(kind: u8, node: u8, client: u32, attempt: u64) -> Mark {
    let who = (client % 256) as u16;
    Mark {
        place: who * 256 + u16::from(node % 16) * 16 + u16::from(kind % 16),
        attempt: (attempt % 256) as u8,
    }
}

/// The mark of what the client's attempt and this node say to each other.
fn mark_with(kind: u8, node: NodeId, client: ClientId, attempt: Attempt) -> Mark {
    mark_of(kind, node.get(), client.get(), attempt.get())
}

/// The mark of a message.
fn mark_for(message: &Message) -> Mark {
    match *message {
        Message::Request(node, ticket) => mark_with(1, node, ticket.client, ticket.attempt),
        Message::Release(node, client, attempt) => mark_with(2, node, client, attempt),
        Message::Grant(node, ticket) => mark_with(3, node, ticket.client, ticket.attempt),
        Message::Busy(node, ticket) => mark_with(4, node, ticket.client, ticket.attempt),
        Message::Over(node, client, attempt) => mark_with(5, node, client, attempt),
        Message::Done(node, client, attempt) => mark_with(6, node, client, attempt),
        Message::Muddled(node, client, attempt) => mark_with(7, node, client, attempt),
        Message::Soften(node, client, attempt) => mark_with(8, node, client, attempt),
        Message::Softened(node, client, attempt) => mark_with(9, node, client, attempt),
    }
}

/// The mark of the message that a frame spells. No mark is wrong: it only decides where to look.
fn mark_in(frame: &[u8]) -> Option<Mark> {
    let [
        _,
        kind,
        node,
        _,
        _,
        above,
        client,
        _,
        _,
        _,
        _,
        _,
        _,
        _,
        attempt,
        ..
    ] = frame
    else {
        return None;
    };
    let client = u32::from(*above) * 256 + u32::from(*client);
    Some(mark_of(*kind, *node, client, u64::from(*attempt)))
}

/// The number of a message that was said lately.
#[derive(Clone, Copy)]
struct Place {
    attempt: u8,
    // 0 if there is none.
    number: u32,
}

/// The numbers of messages that were said lately. A later message takes the place of an earlier one.
#[derive(Drop)]
pub(crate) struct Lately {
    places: Vec<Place>,
    // How many messages were noted.
    noted: u32,
}

impl Lately {
    /// No numbers. It takes no memory.
    pub(crate) fn new(alloc: Global) -> Lately {
        Lately {
            places: Vec::new(alloc),
            noted: 0,
        }
    }

    /// Makes places, if there are none.
    fn make_places(&mut self) -> Result<(), AllocError> {
        if self.places.is_empty() {
            let none = Place {
                attempt: 0,
                number: 0,
            };
            self.places.resize(PLACES, none)?;
        }
        Ok(())
    }

    /// Notes the number of a message.
    fn note(&mut self, number: u32, message: &Message) -> Result<(), AllocError> {
        self.make_places()?;
        let mark = mark_for(message);
        if let Some(place) = self.places.get_mut(mark.place as usize) {
            *place = Place {
                attempt: mark.attempt,
                number,
            };
        }
        Ok(())
    }

    /// Notes the messages of the actors' list that were said since.
    ///
    /// The only error is that there is no memory.
    pub(crate) fn catch_up(&mut self, actors: &Actors) -> Result<(), AllocError> {
        for number in self.noted..MAX_MESSAGES {
            let Some(message) = actors.sent(number + 1) else {
                return Ok(());
            };
            self.note(number + 1, &message)?;
            self.noted = number + 1;
        }
        Ok(())
    }

    /// The number of a message that may have this frame, if one was noted.
    pub(crate) fn number_near(&self, frame: &[u8]) -> Option<u32> {
        let mark = mark_in(frame)?;
        let place = self.places.get(mark.place as usize)?;
        if place.attempt == mark.attempt && place.number > 0 {
            Some(place.number)
        } else {
            None
        }
    }
}
