// Plain data of a way in: who wants in, and what moves lead there.

use crate::Event;
use lock_messages::{ClientId, Mode, NodeId, ResourceName};

/// What a client wants: to be inside this resource in this mode, with its votes counted by the ballot at this
/// place of the list, from 1 on.
#[derive(Clone, Copy, Debug, PartialEq, Eq)]
pub struct Want {
    pub client: ClientId,
    pub mode: Mode,
    pub resource: ResourceName,
    pub place: u8,
}

/// A move on the way in of a client.
#[derive(Clone, Copy, Debug, PartialEq, Eq)]
pub enum Move {
    /// One event.
    Alone(Event),
    /// This client says to the node what it has to say, and the node takes that message.
    Hand(ClientId, NodeId),
    /// The client that wants in hears this node's Grant.
    HearFrom(NodeId),
}
