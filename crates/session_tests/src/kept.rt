// What the actors of a book have kept, and records and a world of that.

ghost use Rattle.std.specs.Prelude.{◌≡◌, ◌∷◌, ◌+◌, [], length, map, IfOk, OnOk};
ghost use Rattle.world_machine.specs.Opened.{IsResumed};
ghost use Rattle.session_tests.specs.Fresh.{one_node};

use crate::boxed::boxed;
use history_book::Book;
use lock_messages::Actor;
use stable_record::{MemoryRecord, StableRecord};
use std::alloc::Global;
use test_outcomes::{Failure, Outcome, client_id, node_id};
use test_support::{in_memory, plain_pairs};
use vote_weights::BallotList;
use world_machine::World;

/// The records of what the node and the two clients of a world have kept.
#[derive(Drop)]
pub(crate) struct Kept {
    pub(crate) nodes: Vec<Vec<u8>>,
    pub(crate) clients: Vec<Vec<u8>>,
}

/// The record of what this actor of the book's world has kept joins the others.
fn keep(book: &Book, actor: Actor, kept: &mut Vec<Vec<u8>>) -> Outcome
    ensures { OnOk result (length kept.new.items ≡ length kept.old.items + 1) }
{
    let Ok(bytes) = book.world().kept_bytes(actor) else {
        return Err(Failure::Memory);
    };
    kept.push(bytes)?;
    Ok(())
}

/// The records of what the node and the two clients of the book's world have kept.
pub(crate) fn kept_in(alloc: Global, book: &Book) -> Result<Kept, Failure>
    ensures node { IfOk result (λ kept. length kept.nodes.items ≡ 1) }
    ensures clients { IfOk result (λ kept. length kept.clients.items ≡ 2) }
{
    let (node, one, two) = (node_id(1), client_id(1), client_id(2));
    let mut nodes = Vec::new(alloc);
    keep(book, Actor::Node(node), &mut nodes)?;
    let mut clients = Vec::new(alloc);
    keep(book, Actor::Client(one), &mut clients)?;
    keep(book, Actor::Client(two), &mut clients)?;
    Ok(Kept { nodes, clients })
}

/// The world in which the actors have kept this.
pub(crate) fn resumed(
    alloc: Global,
    ballots: BallotList,
    of_nodes: &[Vec<u8>],
    of_clients: &[Vec<u8>],
) -> Result<World, Failure>
    requires ballots { ballots ≡ one_node }
    requires node { length of_nodes.now ≡ 1 }
    requires clients { length of_clients.now ≡ 2 }
    ensures { IfOk result (IsResumed ballots (map (λ v. v.items) of_nodes.now) (map (λ v. v.items) of_clients.now)) }
{
    match World::resume(
        alloc,
        ballots,
        2,
        plain_pairs(alloc, 1)?,
        of_nodes,
        of_clients,
    ) {
        Ok(world) => Ok(world),
        Err(_) => Err(Failure::Memory),
    }
}

/// A record in memory that holds each of these, as a node's thread owns it.
pub(crate) fn node_records_of(
    alloc: Global,
    kept: &[Vec<u8>],
) -> Result<Vec<Box<dyn StableRecord + Send>>, Failure>
    ensures { IfOk result (λ v. map (λ r. finds r) v.items ≡ map (λ b. b.items ∷ []) kept.now) }
{
    let mut records: Vec<Box<dyn StableRecord + Send>> = Vec::new(alloc);
    for one in kept {
        records.push(boxed(alloc, one.as_slice())?)?;
    }
    Ok(records)
}

/// A record in memory that holds each of these, as a session owns it.
pub(crate) fn client_records_of(
    alloc: Global,
    kept: &[Vec<u8>],
) -> Result<Vec<MemoryRecord>, Failure>
    ensures { IfOk result (λ v. map (λ r. r ∷ []) v.items ≡ map (λ b. b.items ∷ []) kept.now) }
{
    let mut records = Vec::new(alloc);
    for one in kept {
        records.push(in_memory(alloc, one.as_slice())?)?;
    }
    Ok(records)
}
