// The exact world as plain data, which is what contracts see of a `World`. No value of these types
// is ever made: lists stand for whatever a body keeps them in.

use lock_messages::{Message, NodeId, Ticket};
use lock_model::{Entry, Problem};
use std::collections::LinkedList;
use vote_weights::Ballot;

/// What a node keeps: the problem that it solves, and its entries in the order of their tickets.
#[derive(Debug, Drop)]
pub struct ExactStation {
    pub problem: Problem,
    pub entries: LinkedList<Entry>,
}

/// What a node is about.
#[derive(Debug, Drop)]
pub enum ExactNodePhase {
    Down,
    Idle,
    /// It has decided, on a message or on another problem: the station after, and the replies.
    Decided(ExactStation, LinkedList<Message>),
    /// What it decided is kept, and it has these replies to say.
    Stored(LinkedList<Message>),
}

/// A node: what it has kept, what it is trying to keep, and its phase.
#[derive(Debug, Drop)]
pub struct ExactNode {
    pub kept: ExactStation,
    pub tried: Option<ExactStation>,
    pub phase: ExactNodePhase,
}

/// What a client has of its present attempt: the ticket that it asked with, the place of the ballot by which
/// its votes count, the nodes that granted it, in ascending order, and whether it has softened: then it is a
/// reader, whatever the ticket says.
#[derive(Debug, Drop)]
pub struct ExactPresent {
    pub ticket: Ticket,
    pub place: u8,
    pub granted: LinkedList<NodeId>,
    pub softened: bool,
}

/// What a client is about.
#[derive(Debug, Drop)]
pub enum ExactClientPhase {
    Down,
    Idle,
    /// It has chosen its next attempt, and the place of the ballot by which its votes will count.
    Chosen(Ticket, u8),
    /// It asks nodes for their votes.
    Asking(ExactPresent),
    /// It is inside.
    Inside(ExactPresent),
}

/// A client: the attempt that it has kept (0 for none), the one that it is trying to keep, and its
/// phase.
#[derive(Debug, Drop)]
pub struct ExactClient {
    pub kept: u64,
    pub tried: Option<u64>,
    pub phase: ExactClientPhase,
}

/// A world: its ballots, its nodes and clients in the order of their numbers, and all messages ever
/// sent, in the order in which they were.
#[derive(Debug, Drop)]
pub struct ExactWorld {
    pub ballots: LinkedList<Ballot>,
    pub nodes: LinkedList<ExactNode>,
    pub clients: LinkedList<ExactClient>,
    pub sent: LinkedList<Message>,
}
