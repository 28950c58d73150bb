// Messages: everything that nodes and clients say to each other.

ghost use Rattle.std.specs.Prelude.{◌≡◌};
ghost use Rattle.lock_messages.specs.Messages.{is_for, is_for_node, is_for_client, named_node, addressee};

use crate::{Actor, Attempt, ClientId, NodeId, Ticket};
use std::fmt;

/// What nodes and clients say to each other. The node that a message names is the one that it
/// goes to or comes from; a message to or from a node of another service can't be told apart.
///
/// Prints as `request n1 c1 1 read a` or, with no ticket, as `release n1 c1 1`.
#[derive(Clone, Copy, Debug, PartialEq, Eq)]
pub enum Message {
    /// To a node: the client asks for its vote.
    Request(NodeId, Ticket),
    /// To a node: the client's attempts up to this one are over.
    Release(NodeId, ClientId, Attempt),
    /// To a client: the node gives its vote to the ticket.
    Grant(NodeId, Ticket),
    /// To a client: the ticket waits at the node.
    Busy(NodeId, Ticket),
    /// To a client: the attempt was over when its request came.
    Over(NodeId, ClientId, Attempt),
    /// To a client: the node took its release.
    Done(NodeId, ClientId, Attempt),
    /// To a client: the attempt has another mode or resource at the node.
    Muddled(NodeId, ClientId, Attempt),
    /// To a node: the client, a writer by this attempt, is a reader from now on.
    Soften(NodeId, ClientId, Attempt),
    /// To a client: the node took that its attempt is softened.
    Softened(NodeId, ClientId, Attempt),
}

impl Message {
    /// Whether this is for that node: a `Request`, a `Release` or a `Soften` that names it.
    pub fn is_for_node(&self, node: NodeId) -> bool
        ensures { result ≡ is_for_node self.now node }
    {
        match *self {
            Message::Request(to, _) | Message::Release(to, _, _) | Message::Soften(to, _, _) => {
                to == node
            }
            Message::Grant(..)
            | Message::Busy(..)
            | Message::Over(..)
            | Message::Done(..)
            | Message::Muddled(..)
            | Message::Softened(..) => false,
        }
    }

    /// Whether this is for that client: any other message that names it.
    pub fn is_for_client(&self, client: ClientId) -> bool
        ensures { result ≡ is_for_client self.now client }
    {
        match *self {
            Message::Grant(_, ticket) | Message::Busy(_, ticket) => ticket.client == client,
            Message::Over(_, to, _)
            | Message::Done(_, to, _)
            | Message::Muddled(_, to, _)
            | Message::Softened(_, to, _) => to == client,
            Message::Request(..) | Message::Release(..) | Message::Soften(..) => false,
        }
    }

    /// Whether this is for that actor.
    pub fn is_for(&self, actor: Actor) -> bool
        ensures { result ≡ is_for actor self.now }
    {
        match actor {
            Actor::Node(node) => self.is_for_node(node),
            Actor::Client(client) => self.is_for_client(client),
        }
    }

    /// The node that it names: the one that it goes to or comes from.
    pub fn node(&self) -> NodeId
        ensures { result ≡ named_node self.now }
    {
        match *self {
            Message::Request(node, _) | Message::Grant(node, _) | Message::Busy(node, _) => node,
            Message::Release(node, _, _)
            | Message::Over(node, _, _)
            | Message::Done(node, _, _)
            | Message::Muddled(node, _, _)
            | Message::Soften(node, _, _)
            | Message::Softened(node, _, _) => node,
        }
    }

    /// The actor that it goes to: its node or its client.
    pub fn addressee(&self) -> Actor
        ensures { result ≡ addressee self.now }
    {
        match *self {
            Message::Request(node, _)
            | Message::Release(node, _, _)
            | Message::Soften(node, _, _) => Actor::Node(node),
            Message::Grant(_, ticket) | Message::Busy(_, ticket) => Actor::Client(ticket.client),
            Message::Over(_, client, _)
            | Message::Done(_, client, _)
            | Message::Muddled(_, client, _)
            | Message::Softened(_, client, _) => Actor::Client(client),
        }
    }
}

impl fmt::Display for Message {
    ghost use Rattle.std.specs.Prelude.{Some};
    ghost use Rattle.lock_messages.specs.Texts.{message_text};

    ghost output = { λ m. Some (message_text m) };

    fn fmt<W: fmt::Write>(&self, f: &mut fmt::Formatter<W>) -> fmt::Result {
        match self {
            Message::Request(node, ticket) => write!(f, "request {node} {ticket}"),
            Message::Release(node, client, attempt) => {
                write!(f, "release {node} {client} {attempt}")
            }
            Message::Grant(node, ticket) => write!(f, "grant {node} {ticket}"),
            Message::Busy(node, ticket) => write!(f, "busy {node} {ticket}"),
            Message::Over(node, client, attempt) => write!(f, "over {node} {client} {attempt}"),
            Message::Done(node, client, attempt) => write!(f, "done {node} {client} {attempt}"),
            Message::Muddled(node, client, attempt) => {
                write!(f, "muddled {node} {client} {attempt}")
            }
            Message::Soften(node, client, attempt) => {
                write!(f, "soften {node} {client} {attempt}")
            }
            Message::Softened(node, client, attempt) => {
                write!(f, "softened {node} {client} {attempt}")
            }
        }
    }
}
