// Worlds in which c1 has made attempts already, and books of c1's own over them.

ghost use Rattle.std.specs.Prelude.{◌≡◌, ◌∷◌, [], ◌≤◌, map, IfOk};
ghost use Rattle.loop_tests.specs.Fresh.{two_nodes};
ghost use Rattle.lock_messages.specs.declared.ids.TheConstants.{MAX_ATTEMPT};
ghost use Rattle.book_recorders.specs.Alone.{IsAlone};
ghost use Rattle.book_recorders.specs.Sharing.{log_of};
ghost use Rattle.loop_tests.specs.Clients.{HasKept, IsClientOf};

use book_recorders::open_alone;
use book_support::of_book;
use history_book::{Berth, Book};
use lock_messages::Actor;
use stable_record::client_bytes;
use std::alloc::Global;
use test_outcomes::{Failure, client_id};
use test_support::{NOTHING_KEPT, plain_pairs};
use vote_weights::BallotList;
use world_machine::{OpeningFault, World};

/// The records of two actors.
fn records(alloc: Global, first: &[u8], second: &[u8]) -> Result<Vec<Vec<u8>>, Failure>
    ensures { IfOk result (λ v. map (λ r. r.items) v.items ≡ first.now ∷ second.now ∷ []) }
{
    let mut records = Vec::new(alloc);
    records.push(Vec::from_slice(alloc, first)?)?;
    records.push(Vec::from_slice(alloc, second)?)?;
    Ok(records)
}

/// A world of two nodes that have kept nothing, and of two clients: c1 has made this attempt last, c2
/// none.
pub(crate) fn resumed(alloc: Global, ballots: BallotList, attempt: u64) -> Result<World, Failure>
    requires votes { ballots ≡ two_nodes }
    requires attempt { attempt ≤ MAX_ATTEMPT }
    ensures { IfOk result (λ w. HasKept ballots attempt w) }
{
    let pairs = plain_pairs(alloc, 2)?;
    let nodes = records(alloc, &NOTHING_KEPT, &NOTHING_KEPT)?;
    let clients = records(alloc, &client_bytes(attempt), &client_bytes(0))?;
    match World::resume(alloc, ballots, 2, pairs, &nodes, &clients) {
        Ok(world) => Ok(world),
        Err((OpeningFault::Memory, _)) => Err(Failure::Memory),
        Err(_) => Err(Failure::Wrong(0)),
    }
}

/// A book of c1's own over such a world, and c1's berth.
pub(crate) fn own_book(
    alloc: Global,
    ballots: BallotList,
    attempt: u64,
) -> Result<(Book, Berth), Failure>
    requires votes { ballots ≡ two_nodes }
    requires attempt { attempt ≤ MAX_ATTEMPT }
    ensures alone { IfOk result (λ r. IsAlone r.0 r.1) }
    ensures log { IfOk result (λ r. IsClientOf ballots attempt (log_of r.1)) }
{
    let world = resumed(alloc, ballots, attempt)?;
    match open_alone(alloc, world, Actor::Client(client_id(1))) {
        Ok(Some(opened)) => Ok(opened),
        Ok(None) => Err(Failure::Wrong(0)),
        Err(fault) => Err(of_book(fault)),
    }
}
