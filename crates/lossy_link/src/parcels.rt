// What goes over links.

use bytes::Bytes;
use lock_messages::{Actor, NodeId};

/// A message on its way: its number among the messages ever sent, and its frame.
#[derive(Clone, Debug, PartialEq, Eq, Drop)]
pub struct Parcel {
    /// The number under which it was sent, from 1 on.
    pub number: u32,
    /// The bytes of the message.
    pub frame: Bytes,
}

/// What a link brings.
#[derive(Clone, Debug, PartialEq, Eq, Drop)]
pub enum Post {
    /// A message.
    Parcel(Parcel),
    /// A parcel to or from this node was lost or is late. This is no message.
    Nudge(NodeId),
    /// This node has ended. This is no message.
    Gone(NodeId),
    /// Whoever works the link wants the node to solve the problem with this number, 1 or 2, from now on.
    /// This is no message, and no actor sends one.
    Switch(u8),
}

/// What was given to a link.
#[derive(Clone, Debug, PartialEq, Eq, Drop)]
pub enum Sending {
    /// A parcel that was sent to an actor.
    Sent(Actor, Parcel),
    /// What was told to every client.
    Told(Post),
}
