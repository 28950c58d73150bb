// The actors of one machine.

ghost use Rattle.std.specs.Prelude.{◌≡◌, ℕ, ◌<◌, ◌||◌, ◌&&◌, false, nat_le, length, slice_index_or};
ghost use Rattle.lock_messages.specs.declared.ids.Actor.{Actor as AnyActor};
ghost use Rattle.service_folders.specs.Parts.{actor_named, span_between, span_over, span_of, covers, part_has, ReadsPart};

use crate::cuts::cut;
use event_lines::actor_of;
use lock_messages::{Actor, ClientId, NodeId};
use std::marker::Model;

/// One more than the greatest number of a node.
const NODE_ROOM: usize = 17;

/// One more than the greatest number of a client.
const CLIENT_ROOM: usize = 1_025;

/// Actors of one kind, from the first to the last.
#[derive(Clone, Copy, Debug, PartialEq, Eq)]
pub enum Span {
    Nodes(NodeId, NodeId),
    Clients(ClientId, ClientId),
}

/// The actors of one machine, read from words such as `n1,c1-c16`.
#[derive(Clone, Copy, Debug, PartialEq, Eq)]
pub struct Part {
    // Whether the part has the node of this number.
    node_room: [bool; NODE_ROOM],
    // Whether it has the client of this number.
    client_room: [bool; CLIENT_ROOM],
}

impl Model for Part {
    ghost use Rattle.service_folders.specs.Parts.{Members};

    ghost Value = { Members };

    ghost view = { λ p. record { nodes = p.node_room; clients = p.client_room } };

    ghost inverse = { λ m. record { node_room = m.nodes; client_room = m.clients } };
}

/// The nodes from one to another that isn't lower.
fn nodes_between(first: NodeId, last: NodeId) -> Option<Span>
    ensures { result ≡ span_between (Actor.Node first) (Actor.Node last) }
{
    if first <= last {
        Some(Span::Nodes(first, last))
    } else {
        None
    }
}

/// The clients from one to another that isn't lower.
fn clients_between(first: ClientId, last: ClientId) -> Option<Span>
    ensures { result ≡ span_between (Actor.Client first) (Actor.Client last) }
{
    if first <= last {
        Some(Span::Clients(first, last))
    } else {
        None
    }
}

/// The actors from one to another of the same kind, the lower one first.
fn span_between(first: &Actor, last: &Actor) -> Option<Span>
    ensures { result ≡ span_between first.now last.now }
{
    match first {
        Actor::Node(first) => match last {
            Actor::Node(last) => nodes_between(*first, *last),
            Actor::Client(_) => None,
        },
        Actor::Client(first) => match last {
            Actor::Node(_) => None,
            Actor::Client(last) => clients_between(*first, *last),
        },
    }
}

/// The actors from the one that a word names to the one that another names.
fn span_over(first: &[u8], last: &[u8]) -> Option<Span>
    ensures { result ≡ span_over (actor_named first.now) (actor_named last.now) }
{
    let first = actor_of(first).ok()?;
    let last = actor_of(last).ok()?;
    span_between(&first, &last)
}

/// The actors that a piece names.
#[tactic(auto, using(crate::proofs::PartFacts::three_words))]
fn span_of(piece: &[u8]) -> Option<Span>
    ensures { result ≡ span_of piece.now }
{
    let (first, rest) = cut(piece, b'-');
    let Some(rest) = rest else {
        return span_over(first, first);
    };
    match cut(rest, b'-') {
        (last, None) => span_over(first, last),
        (_, Some(_)) => None,
    }
}

/// Marks the numbers from `first` to `last`.
fn mark(room: &mut [bool], first: usize, last: usize)
    requires { last < length room.old }
    ensures { (n : ℕ) → slice_index_or room.new n false ≡ (slice_index_or room.old n false || (nat_le first n && nat_le n last)) }
{
    for number in first..last + 1 {
        room[number] = true;
    }
}

/// No number of a node.
fn no_nodes() -> [bool; NODE_ROOM]
    ensures { (n : ℕ) → slice_index_or result n false ≡ false }
{
    [false; NODE_ROOM]
}

/// No number of a client.
fn no_clients() -> [bool; CLIENT_ROOM]
    ensures { (n : ℕ) → slice_index_or result n false ≡ false }
{
    [false; CLIENT_ROOM]
}

impl Part {
    /// The part that has nobody.
    fn empty() -> Part
        ensures { (who : AnyActor) → part_has result who ≡ false }
    {
        Part {
            node_room: no_nodes(),
            client_room: no_clients(),
        }
    }

    /// Adds actors.
    fn add(&mut self, span: Span)
        ensures { (who : AnyActor) → part_has self.new who ≡ (part_has self.old who || covers span who) }
    {
        match span {
            Span::Nodes(first, last) => mark(
                &mut self.node_room,
                first.get() as usize,
                last.get() as usize,
            ),
            Span::Clients(first, last) => mark(
                &mut self.client_room,
                first.get() as usize,
                last.get() as usize,
            ),
        }
    }

    /// The actors that the text names: pieces with a comma between any two. A piece is the name of an actor, or two
    /// names of the same kind with a dash between them, the lower one first. It returns `None` if the text is
    /// anything else.
    pub fn read(text: &str) -> Option<Part>
        ensures { ReadsPart text.now result }
    {
        let mut part = Part::empty();
        let mut left = Some(text.as_bytes());
        while let Some(bytes) = left {
            let (piece, rest) = cut(bytes, b',');
            part.add(span_of(piece)?);
            left = rest;
        }
        Some(part)
    }

    /// Whether the part has this actor.
    pub fn has(&self, actor: Actor) -> bool
        ensures { result ≡ part_has self.now actor }
    {
        match actor {
            Actor::Node(node) => self.node_room[node.get() as usize],
            Actor::Client(client) => self.client_room[client.get() as usize],
        }
    }
}
