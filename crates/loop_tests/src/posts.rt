// Posts and sendings, as rows of tests spell them.

use bytes::Bytes;
use lock_messages::{Actor, Message, Mode, NodeId, Ticket, encode};
use lossy_link::{Parcel, Post, Sending};
use std::alloc::Global;
use test_outcomes::{Failure, Outcome, client_id, node_id};
use test_support::{node, ticket};

/// About which ticket for `a` a text is, by its end: the number of the client and of its attempt, and the mode.
/// So `grant` is about c1's ticket to read, and `grant write` about c1's to write.
const TICKETS: [(&str, u32, u64, Mode); 5] = [
    (" write", 1, 1, Mode::Write),
    (" again", 1, 2, Mode::Read),
    (" c2", 2, 1, Mode::Write),
    (" c3", 3, 1, Mode::Read),
    ("", 1, 1, Mode::Read),
];

/// The message with the node that a word names, about that ticket.
fn about(word: &str, node: NodeId, ticket: Ticket) -> Result<Message, Failure> {
    match word {
        "request" => Ok(Message::Request(node, ticket)),
        "grant" => Ok(Message::Grant(node, ticket)),
        "busy" => Ok(Message::Busy(node, ticket)),
        "release" => Ok(Message::Release(node, ticket.client, ticket.attempt)),
        "done" => Ok(Message::Done(node, ticket.client, ticket.attempt)),
        "soften" => Ok(Message::Soften(node, ticket.client, ticket.attempt)),
        "softened" => Ok(Message::Softened(node, ticket.client, ticket.attempt)),
        _ => Err(Failure::Wrong(0)),
    }
}

/// The message of a text: `grant` is with n1, `grant n2` with n2.
fn message(text: &str) -> Result<Message, Failure> {
    let (text, node) = match text.strip_suffix(" n2") {
        Some(text) => (text, node_id(2)),
        None => (text, node_id(1)),
    };
    for (end, client, number, mode) in &TICKETS {
        if let Some(word) = text.strip_suffix(*end) {
            return about(word, node, ticket(*client, *number, *mode, b"a")?);
        }
    }
    Err(Failure::Wrong(0))
}

/// The frame of that message, or one that is no message's.
pub(crate) fn frame(alloc: Global, word: &str) -> Result<Bytes, Failure> {
    if word == "noise" {
        return Ok(Bytes::from_static(b"noise"));
    }
    match encode(alloc, &message(word)?) {
        Ok(frame) => Ok(frame),
        Err(_) => Err(Failure::Memory),
    }
}

/// The parcel of a number and a word, as `2 grant`.
fn parcel(alloc: Global, text: &str) -> Result<Parcel, Failure> {
    let Some((number, word)) = text.split_once(" ") else {
        return Err(Failure::Wrong(0));
    };
    match number.parse() {
        Ok(number) => Ok(Parcel {
            number,
            frame: frame(alloc, word)?,
        }),
        Err(_) => Err(Failure::Wrong(0)),
    }
}

/// What a text as `switch 1` brings.
fn switch(text: &str) -> Result<Option<Post>, Failure> {
    let Some(number) = text.strip_prefix("switch ") else {
        return Ok(None);
    };
    match number.parse() {
        Ok(number) => Ok(Some(Post::Switch(number))),
        Err(_) => Err(Failure::Wrong(0)),
    }
}

/// What is no parcel: `nudge` or `gone`, which are n1's, or a switch.
fn news(text: &str) -> Result<Option<Post>, Failure> {
    let node = node_id(1);
    match text {
        "nudge" => Ok(Some(Post::Nudge(node))),
        "gone" => Ok(Some(Post::Gone(node))),
        _ => switch(text),
    }
}

fn post(alloc: Global, text: &str) -> Result<Post, Failure> {
    match news(text)? {
        Some(post) => Ok(post),
        None => Ok(Post::Parcel(parcel(alloc, text)?)),
    }
}

/// Adds the posts of a row, as `1 request, nudge, switch 1`.
fn add_posts(alloc: Global, row: &str, posts: &mut Vec<Post>) -> Outcome {
    for text in row.split(", ") {
        if !text.is_empty() {
            posts.push(post(alloc, text)?)?;
        }
    }
    Ok(())
}

/// Adds the posts of a row and, behind them, so many nudges of the node of the number.
pub(crate) fn post_all(
    alloc: Global,
    row: &str,
    nudges: (u8, usize),
    posts: &mut Vec<Post>,
) -> Outcome {
    let (number, count) = nudges;
    let node = node(number)?;
    add_posts(alloc, row, posts)?;
    for _ in 0..count {
        posts.push(Post::Nudge(node))?;
    }
    Ok(())
}

/// To whom a text is sent: what is about c2 or c3 to it, what is with n2 to n2, and all else to the actor.
fn receiver(to: Actor, text: &str) -> Actor {
    if text.ends_with(" c2") {
        return Actor::Client(client_id(2));
    }
    if text.ends_with(" c3") {
        return Actor::Client(client_id(3));
    }
    if text.ends_with(" n2") {
        return Actor::Node(node_id(2));
    }
    to
}

fn sending(alloc: Global, to: Actor, text: &str) -> Result<Sending, Failure> {
    let to = receiver(to, text);
    match news(text)? {
        Some(post) => Ok(Sending::Told(post)),
        None => Ok(Sending::Sent(to, parcel(alloc, text)?)),
    }
}

/// Adds what a row says was sent and told by c1 or n1, as `2 grant, nudge`: to n1 or c1 what names no other.
pub(crate) fn add_sendings(
    alloc: Global,
    from: Actor,
    row: &str,
    sendings: &mut Vec<Sending>,
) -> Outcome {
    let to = match from {
        Actor::Node(_) => Actor::Client(client_id(1)),
        Actor::Client(_) => Actor::Node(node_id(1)),
    };
    for text in row.split(", ") {
        if !text.is_empty() {
            sendings.push(sending(alloc, to, text)?)?;
        }
    }
    Ok(())
}
