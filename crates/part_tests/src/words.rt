//! Numbers and names at their limits, and words as they print.

use crate::rows::{client, message, node};
use crate::tables::{Table, each};
use lock_messages::{Actor, ClientId, NodeId, ResourceName};
use std::alloc::Global;
use std::cmp::Ordering;
use std::fmt;
use test_outcomes::{Outcome, check_row};

// Each kind of message, numbers and names at their limits.
const MESSAGES: &str = "\
request n1 c1 1 read a
release n1 c1 1000000000000
grant n1 c1 1 write a
busy n1 c1 1 read db-1
over n1 c1 1000000000000
done n1 c1 1000000000000
muddled n1 c1 1000000000000
soften n1 c1 1000000000000
softened n1 c1 1000000000000
softened n16 c1024 1
done n16 c1024 1
request n16 c4 7 write abcdefghijklmnopqrstuvwxyz-12345";

/// Whether a value prints as this text.
fn shows<T: fmt::Display>(alloc: Global, value: &T, text: &str) -> Option<bool> {
    match value.to_string(alloc) {
        Ok(shown) => Some(shown.as_str() == text),
        Err(_) => None,
    }
}

/// Whether a message prints as it was read.
pub(crate) fn prints(alloc: Global, row: &str) -> Option<bool> {
    match message(row) {
        Some(message) => shows(alloc, &message, row),
        None => None,
    }
}

const ACTORS: &str = "\
n1
n16
c1
c1024";

/// Whether an actor prints as it was read.
pub(crate) fn actor_prints(alloc: Global, row: &str) -> Option<bool> {
    match (node(row), client(row)) {
        (Some(node), _) => shows(alloc, &Actor::Node(node), row),
        (None, Some(client)) => shows(alloc, &Actor::Client(client), row),
        (None, None) => None,
    }
}

#[test]
fn words_print(rt: HostRuntime) -> Outcome {
    each(rt.alloc(), Table::Printed, MESSAGES).and(each(rt.alloc(), Table::Actors, ACTORS))
}

// Each has a number or a name that is out of range.
const NO_MESSAGES: &str = "\
done n0 c1 1
done n17 c1 1
done n255 c1 1
done n1 c0 1
done n1 c1025 1
done n1 c1 0
done n1 c1 1000000000001
soften n0 c1 1
soften n1 c1 0
softened n1 c1025 1
softened n1 c1 1000000000001
request n1 c1 1 read db_1
request n1 c1 1 read dB-1
request n1 c1 1 read abcdefghijklmnopqrstuvwxyz-123456";

pub(crate) fn is_no_message(row: &str) -> Option<bool> {
    Some(message(row).is_none())
}

/// Whether a name of one byte is a name for the bytes of names alone, and no name is empty.
fn are_bytes_of_names() -> bool {
    let mut right = ResourceName::of(b"").is_none();
    for byte in 0..=255u8 {
        let lawful = b"abcdefghijklmnopqrstuvwxyz0123456789-".contains(&byte);
        right &= ResourceName::of(&[byte]).is_some() == lawful;
    }
    right
}

#[test]
fn words_out_of_range(rt: HostRuntime) -> Outcome {
    each(rt.alloc(), Table::NoMessages, NO_MESSAGES).and(check_row(are_bytes_of_names(), 256))
}

// Two names, the lesser first.
const NAMES: &str = "\
- 0
0 9
9 a
a a-
a- a0
a0 aa
aa b
- b";

pub(crate) fn ascends(row: &str) -> Option<bool> {
    let (low, high) = row.split_once(' ').unwrap_or((row, ""));
    match (
        ResourceName::of(low.as_bytes()),
        ResourceName::of(high.as_bytes()),
    ) {
        (Some(low), Some(high)) => {
            let differ = low < high && high > low && low != high;
            Some(differ && low.cmp(&low) == Ordering::Equal)
        }
        _ => None,
    }
}

#[test]
fn names_compare_as_their_bytes(rt: HostRuntime) -> Outcome {
    each(rt.alloc(), Table::Names, NAMES)
}

/// Whether a row has a message of a client to a node.
fn is_to_node(row: &str) -> bool {
    row.starts_with("request ") || row.starts_with("release ") || row.starts_with("soften ")
}

// The first three are for the node, the others for the client.
const FOR_ONE: &str = "\
request n1 c1 1 read a
release n1 c1 1
soften n1 c1 1
grant n1 c1 1 read a
busy n1 c1 1 read a
over n1 c1 1
done n1 c1 1
muddled n1 c1 1
softened n1 c1 1";

pub(crate) fn is_for_one(row: &str) -> Option<bool> {
    let Some(message) = message(row) else {
        return None;
    };
    let to_node = is_to_node(row);
    Some(
        message.is_for_node(NodeId::of(1).unwrap()) == to_node
            && message.is_for_client(ClientId::of(1).unwrap()) != to_node
            && !message.is_for_node(NodeId::of(2).unwrap())
            && !message.is_for_client(ClientId::of(2).unwrap()),
    )
}

#[test]
fn messages_are_for_one_actor(rt: HostRuntime) -> Outcome {
    each(rt.alloc(), Table::ForOne, FOR_ONE)
}
