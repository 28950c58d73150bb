// What a client makes of a message.

ghost use Rattle.std.specs.Prelude.{◌≡◌};
ghost use Rattle.lock_model.specs.ExactHearing.{is_node_of, same_ticket, heard_of_ticket, heard_softened, heard_at_rest};
ghost use Rattle.vote_weights.specs.Sets.{has_node};

use lock_messages::{Attempt, ClientId, Message, NodeId, Ticket};
use lock_model::Heard;
use vote_weights::NodeSet;

/// Whether the node is one of so many.
pub(crate) fn is_node_of(nodes: u8, node: NodeId) -> bool
    ensures { result ≡ is_node_of nodes node }
{
    let number = node.get();
    1 <= number && number <= nodes
}

/// Whether both tickets are one.
fn same_ticket(a: &Ticket, b: &Ticket) -> bool
    ensures { result ≡ same_ticket a.now b.now }
{
    a.client == b.client
        && a.attempt == b.attempt
        && a.mode == b.mode
        && a.resource.bytes() == b.resource.bytes()
}

/// What a client makes of the message while it asks with the ticket, or is inside with it.
pub(crate) fn heard_of_ticket(
    nodes: u8,
    ticket: &Ticket,
    granted: NodeSet,
    message: &Message,
) -> Heard
    ensures { result ≡ heard_of_ticket nodes ticket.now (has_node granted) message.now }
{
    match message {
        Message::Grant(node, of) => {
            if !is_node_of(nodes, *node) || !same_ticket(of, ticket) {
                Heard::NotMine
            } else if granted.has(*node) {
                Heard::Known
            } else {
                Heard::Counted
            }
        }
        Message::Busy(node, of) => {
            if is_node_of(nodes, *node) && same_ticket(of, ticket) {
                Heard::Busy
            } else {
                Heard::NotMine
            }
        }
        Message::Request(..)
        | Message::Release(..)
        | Message::Over(..)
        | Message::Done(..)
        | Message::Muddled(..)
        | Message::Soften(..)
        | Message::Softened(..) => Heard::NotMine,
    }
}

/// What a client makes of the message while it is inside, and has softened the attempt.
pub(crate) fn heard_softened(
    nodes: u8,
    client: ClientId,
    attempt: Attempt,
    message: &Message,
) -> Heard
    ensures { result ≡ heard_softened nodes client attempt message.now }
{
    match message {
        Message::Softened(node, to, of) => {
            if is_node_of(nodes, *node) && *to == client && *of == attempt {
                Heard::Softened
            } else {
                Heard::NotMine
            }
        }
        Message::Request(..)
        | Message::Release(..)
        | Message::Grant(..)
        | Message::Busy(..)
        | Message::Over(..)
        | Message::Done(..)
        | Message::Muddled(..)
        | Message::Soften(..) => Heard::NotMine,
    }
}

/// What a client makes of the message while it rests after the attempt.
pub(crate) fn heard_at_rest(nodes: u8, client: ClientId, attempt: u64, message: &Message) -> Heard
    ensures { result ≡ heard_at_rest nodes client attempt message.now }
{
    match message {
        Message::Done(node, to, of) => {
            if is_node_of(nodes, *node) && *to == client && of.get() == attempt {
                Heard::Done
            } else {
                Heard::NotMine
            }
        }
        Message::Request(..)
        | Message::Release(..)
        | Message::Grant(..)
        | Message::Busy(..)
        | Message::Over(..)
        | Message::Muddled(..)
        | Message::Soften(..)
        | Message::Softened(..) => Heard::NotMine,
    }
}
