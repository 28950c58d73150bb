// What the types of messages say.

ghost use Rattle.std.specs.Prelude.{◌≡◌, true};
ghost use Rattle.lock_messages.specs.Messages.{IsMessage, IsTicket};

use lock_messages::{Message, Ticket};

/// Computes nothing: the parts of a ticket are in range, by their types.
fn is_ticket(ticket: &Ticket)
    ensures { IsTicket ticket.now }
{
    ticket.client.get();
    ticket.attempt.get();
    ticket.resource.bytes();
}

/// Computes nothing: the parts of a message are in range, by their types.
pub fn is_message(message: &Message)
    ensures { IsMessage message.now }
{
    match message {
        Message::Request(node, ticket)
        | Message::Grant(node, ticket)
        | Message::Busy(node, ticket) => {
            node.get();
            is_ticket(ticket);
        }
        Message::Release(node, client, attempt)
        | Message::Over(node, client, attempt)
        | Message::Done(node, client, attempt)
        | Message::Muddled(node, client, attempt)
        | Message::Soften(node, client, attempt)
        | Message::Softened(node, client, attempt) => {
            node.get();
            client.get();
            attempt.get();
        }
    }
}

/// Whether the two are one message.
pub(crate) fn is_same(one: &Message, other: &Message) -> bool
    ensures { result ≡ true → one.now ≡ other.now }
{
    one == other
}
