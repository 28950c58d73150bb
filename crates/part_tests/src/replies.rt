//! The replies to a message, and what they have to be.

use lock_messages::Message;
use std::alloc::Global;

/// What the replies to a message have to be.
#[derive(Clone, Copy)]
pub(crate) enum Replies<'a> {
    /// Anything.
    Any,
    /// One.
    One,
    /// These, as they print.
    Said(&'a str),
    /// Done to the client of the first digit, and then a Grant to each client of the others.
    To(&'a str),
    /// One to c1 and a Grant to each of c2 to c1024, in this order.
    ToAll,
}

/// Adds replies as text, one after the other; whether there was memory.
pub(crate) fn tell(text: &mut String, replies: &[Message]) -> bool {
    let mut told = true;
    for reply in replies {
        told &= write!(text, ", {reply}").is_ok();
    }
    told
}

fn say(alloc: Global, replies: &[Message], want: &str) -> bool {
    let mut text = String::new(alloc);
    tell(&mut text, replies) && text.get(2..) == Some(want)
}

/// The number of the client of the digit at a place; 0 where there is none.
pub(crate) fn client_at(digits: &str, place: usize) -> u32 {
    let digit = digits.as_bytes().get(place).copied().unwrap_or(b'0');
    digit.wrapping_sub(b'0') as u32
}

/// Whether a reply at this place is to a client, which has sent the message where the place is the first.
fn is_to(place: usize, reply: &Message, number: u32) -> bool {
    match reply {
        Message::Done(_, client, _) | Message::Softened(_, client, _) => {
            place == 0 && client.get() == number
        }
        Message::Grant(_, ticket) => place > 0 && ticket.client.get() == number,
        _ => false,
    }
}

/// Whether the replies are to the clients of these digits, in this order.
fn are_to(replies: &[Message], digits: &str) -> bool {
    let mut right = replies.len() == digits.len();
    for (place, reply) in replies.iter().enumerate() {
        right &= is_to(place, reply, client_at(digits, place));
    }
    right
}

/// Whether the replies are to c1 to c1024, in this order.
fn are_to_all(replies: &[Message]) -> bool {
    let mut right = true;
    let mut number = 0u32;
    for (place, reply) in replies.iter().enumerate() {
        number = number.saturating_add(1);
        right &= is_to(place, reply, number);
    }
    right && number == 1_024
}

/// Whether the replies are what they have to be.
pub(crate) fn are(alloc: Global, replies: &[Message], want: &Replies) -> bool {
    match want {
        Replies::Any => true,
        Replies::One => replies.len() == 1,
        Replies::Said(text) => say(alloc, replies, text),
        Replies::To(digits) => {
            let is_done = matches!(replies.first(), Some(Message::Done(..)));
            is_done && are_to(replies, digits)
        }
        Replies::ToAll => are_to_all(replies),
    }
}
