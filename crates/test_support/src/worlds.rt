// Ballots, and worlds in which all are down and nothing is kept.

ghost use Rattle.std.specs.Prelude.{◌≡◌, ◌≤◌, IfOk};
ghost use Rattle.lock_messages.specs.declared.ids.TheConstants.{MAX_CLIENTS};
ghost use Rattle.test_support.specs.Fresh.{ballot_list, fresh_world};

use crate::policies::plain_pairs;
use lock_model::Problem;
use std::alloc::Global;
use test_outcomes::Failure;
use vote_weights::{Ballot, BallotList};
use world_machine::World;

/// Settings of three nodes with a vote each, of which two read and two write, and four clients.
pub const SETTINGS: &str =
    "votes = [1, 1, 1]\nread = 2\nwrite = 2\nproblem = 1\nclients = 4\n---\n";

/// The list of this one ballot.
pub fn ballots_of(votes: &[u8], read: u16, write: u16) -> Result<BallotList, Failure>
    ensures { IfOk result (λ ballots. ballots ≡ ballot_list votes.now read write) }
{
    let Ok(ballot) = Ballot::of(votes, read, write) else {
        return Err(Failure::Wrong(0));
    };
    match BallotList::of(&[ballot]) {
        Ok(ballots) => Ok(ballots),
        Err(_) => Err(Failure::Wrong(0)),
    }
}

/// A world of these ballots, under this problem, of so many clients and with the plain policies, in which nothing
/// has happened.
///
/// The caller owes 1 to `MAX_CLIENTS` clients. It fails for want of memory alone.
pub fn new_world(
    alloc: Global,
    ballots: BallotList,
    problem: Problem,
    clients: u16,
) -> Result<World, Failure>
    requires some { 1 ≤ clients }
    requires few { clients ≤ MAX_CLIENTS }
    ensures { IfOk result (λ world. world ≡ fresh_world ballots problem clients) }
{
    let pairs = plain_pairs(alloc, ballots.nodes())?;
    match World::start(alloc, ballots, clients, problem, pairs) {
        Ok(world) => Ok(world),
        Err((_, _pairs)) => Err(Failure::Memory),
    }
}
