//! Reading what stands in the rows of a table.

use lock_messages::{Attempt, ClientId, Message, Mode, NodeId, ResourceName, Ticket};
use std::alloc::Global;

/// The node of a word as `n1`. (No node has the number 0, which stands for what is no number.)
pub(crate) fn node(word: &str) -> Option<NodeId> {
    NodeId::of(word.strip_prefix('n').unwrap_or("").parse().unwrap_or(0))
}

/// The client of a word as `c1`.
pub(crate) fn client(word: &str) -> Option<ClientId> {
    ClientId::of(word.strip_prefix('c').unwrap_or("").parse().unwrap_or(0))
}

/// The mode of a word.
pub(crate) fn mode(word: &str) -> Option<Mode> {
    match word {
        "read" => Some(Mode::Read),
        "write" => Some(Mode::Write),
        _ => None,
    }
}

fn with_ticket(kind: &str, node: NodeId, ticket: Ticket) -> Option<Message> {
    match kind {
        "request" => Some(Message::Request(node, ticket)),
        "grant" => Some(Message::Grant(node, ticket)),
        "busy" => Some(Message::Busy(node, ticket)),
        _ => None,
    }
}

fn without_ticket(kind: &str, node: NodeId, client: ClientId, attempt: Attempt) -> Option<Message> {
    match kind {
        "release" => Some(Message::Release(node, client, attempt)),
        "over" => Some(Message::Over(node, client, attempt)),
        "done" => Some(Message::Done(node, client, attempt)),
        "muddled" => Some(Message::Muddled(node, client, attempt)),
        "soften" => Some(Message::Soften(node, client, attempt)),
        "softened" => Some(Message::Softened(node, client, attempt)),
        _ => None,
    }
}

/// The message of a row as `request n1 c1 1 read a` or `release n1 c1 1`.
pub(crate) fn message(row: &str) -> Option<Message> {
    let mut words = row.split(' ');
    let kind = words.next().unwrap_or("");
    let node = node(words.next().unwrap_or(""));
    let client = client(words.next().unwrap_or(""));
    let attempt = Attempt::of(words.next().unwrap_or("").parse().unwrap_or(0));
    let (Some(node), Some(client), Some(attempt)) = (node, client, attempt) else {
        return None;
    };
    let Some(word) = words.next() else {
        return without_ticket(kind, node, client, attempt);
    };
    let resource = ResourceName::of(words.next().unwrap_or("").as_bytes());
    match (mode(word), resource) {
        (Some(mode), Some(resource)) => {
            let ticket = Ticket {
                client,
                attempt,
                mode,
                resource,
            };
            with_ticket(kind, node, ticket)
        }
        _ => None,
    }
}

/// The ticket of a client's attempt.
pub(crate) fn ticket(client: u32, attempt: u64, mode: Mode, name: &[u8]) -> Option<Ticket> {
    match (
        ClientId::of(client),
        Attempt::of(attempt),
        ResourceName::of(name),
    ) {
        (Some(client), Some(attempt), Some(resource)) => Some(Ticket {
            client,
            attempt,
            mode,
            resource,
        }),
        _ => None,
    }
}

/// The release of an attempt of a client, to n1.
pub(crate) fn release(client: u32, attempt: u64) -> Option<Message> {
    match (ClientId::of(client), Attempt::of(attempt)) {
        (Some(client), Some(attempt)) => {
            Some(Message::Release(NodeId::of(1).unwrap(), client, attempt))
        }
        _ => None,
    }
}

/// Adds a field of so many bytes, that a word spells in hexadecimal digits. Whether it is one, and there was
/// memory.
fn put_field(bytes: &mut Vec<u8>, word: &str) -> bool {
    let Ok(field) = u64::from_str_radix(word, 16) else {
        return false;
    };
    let field = field.to_be_bytes();
    let start = 8usize.saturating_sub(word.len() / 2);
    let field = field.get(start..).unwrap_or(&[]);
    bytes.extend_from_slice(field).is_ok()
}

/// Adds the fields of a row. Whether each is one, and there was memory.
fn put_fields(bytes: &mut Vec<u8>, row: &str) -> bool {
    let mut put = true;
    for word in row.split(' ') {
        put &= put_field(bytes, word);
    }
    put
}

/// The bytes that a row spells: each word is a field, in hexadecimal digits.
pub(crate) fn bytes(alloc: Global, row: &str) -> Option<Vec<u8>> {
    let mut bytes = Vec::new(alloc);
    if put_fields(&mut bytes, row) {
        Some(bytes)
    } else {
        None
    }
}

/// Whether a row spells these bytes.
pub(crate) fn are_spelled(alloc: Global, found: &[u8], row: &str) -> Option<bool> {
    match bytes(alloc, row) {
        Some(want) => Some(found == want.as_slice()),
        None => None,
    }
}

/// Adds the entry of a client that has a ticket of this attempt, the one above its floor; whether there was
/// memory.
pub(crate) fn put_entry(
    bytes: &mut Vec<u8>,
    client: u32,
    attempt: u64,
    (state, writes): (u8, u8),
    name: &[u8],
) -> bool {
    let length = u8::try_from(name.len()).unwrap_or(0);
    let floor = attempt.saturating_sub(1);
    let mut put = bytes.extend_from_slice(&client.to_be_bytes()).is_ok();
    put &= bytes.extend_from_slice(&floor.to_be_bytes()).is_ok();
    put &= bytes.push(state).is_ok();
    put &= bytes.extend_from_slice(&attempt.to_be_bytes()).is_ok();
    put &= bytes.extend_from_slice(&[writes, length]).is_ok();
    put & bytes.extend_from_slice(name).is_ok()
}

/// The first of two answers that is another one than yes, if one is.
pub(crate) fn both(first: Option<bool>, second: Option<bool>) -> Option<bool> {
    if first == Some(true) { second } else { first }
}

/// Whether all hold; the first answer that is another one, if one is.
pub(crate) fn all(answers: &[Option<bool>]) -> Option<bool> {
    let mut first = Some(true);
    for answer in answers {
        first = both(first, *answer);
    }
    first
}

/// The number that a field spells.
pub(crate) fn number(field: &[u8]) -> u64 {
    let mut value = 0u64;
    for byte in field {
        value = value.wrapping_mul(256).wrapping_add(*byte as u64);
    }
    value
}

/// Whether a name may have each of the first bytes, so many of them.
pub(crate) fn spells(bytes: &[u8], length: usize) -> bool {
    let mut right = true;
    for byte in bytes.get(..length).unwrap_or(bytes) {
        right &= b"-0123456789abcdefghijklmnopqrstuvwxyz".contains(byte);
    }
    right
}
