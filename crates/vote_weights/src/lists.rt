// Lists of ballots, each two of which cross.

ghost use Rattle.std.specs.Prelude.{◌≡◌, ℕ, ◌≤◌, length, All, SomeIff};
ghost use Rattle.std.specs.Result.{OkIff};
ghost use Rattle.lock_model.specs.Ballots.{AllCross, HasPlace, IsEnough, IsSharedUnderBoth, ballot_at, node_count};
ghost use Rattle.vote_weights.specs.Ballots.{IsBallot};
ghost use Rattle.vote_weights.specs.BallotLists.{IsBallotList, list_room_of};
ghost use Rattle.vote_weights.specs.ListFaults.{list_fault_of, list_unless};
ghost use Rattle.vote_weights.specs.Sets.{has_node};

use crate::crossing::first_missed;
use crate::{Ballot, BallotFault, NodeSet};
use lock_messages::{MAX_NODES, Mode, NodeId};
use lock_model::laws;
use std::marker::Model;

/// The most ballots that a list has.
pub const MAX_BALLOTS: u8 = 8;

/// The ballots of a service, 1 to 8, each at its place: 1, 2 and so on.
///
/// Each two cross: `write` of one with `read` of the other, and `write` of both, is over the sum of the
/// larger votes of each node, that is of what it has in the one or in the other ballot. And each crosses
/// with itself. So the nodes that are enough for a writer under one of them share a node that has votes
/// in both with the nodes that are enough for anybody under the same or another one (our own rule).
///
/// Contracts see the ballots in order.
#[derive(Clone, Copy, Debug, PartialEq, Eq)]
pub struct BallotList {
    // The ballots in order, and the first one again in each place behind them.
    room: [Ballot; MAX_BALLOTS as usize],
    size: u8,
    // How many nodes the longest has.
    nodes: u8,
}

impl Model for BallotList {
    ghost use Rattle.std.specs.Prelude.{List, length, take};
    ghost use Rattle.lock_model.specs.Ballots.{Ballot, node_count};
    ghost use Rattle.vote_weights.specs.BallotLists.{HoldsBallots, list_room_of};

    ghost Value = { List Ballot };

    ghost view = { λ l. take l.size l.room };

    ghost invariant = { λ l. HoldsBallots l.room l.size l.nodes (take l.size l.room) };

    ghost inverse = { λ ballots. record {
      room = list_room_of ballots;
      size = length ballots;
      nodes = node_count ballots;
    } };
}

/// The ballots, and the first one again up to the greatest number of ballots.
fn room_of(ballots: &[Ballot]) -> [Ballot; MAX_BALLOTS as usize]
    requires some { 1 ≤ length ballots.now }
    requires few { length ballots.now ≤ MAX_BALLOTS }
    ensures { result ≡ list_room_of ballots.now }
{
    let mut room = [ballots[0]; MAX_BALLOTS as usize];
    room[..ballots.len()].copy_from_slice(ballots);
    room
}

/// How many nodes the longest of the ballots has.
fn nodes_of(ballots: &[Ballot]) -> u8
    ensures nodes { result ≡ node_count ballots.now }
    ensures ballots { All IsBallot ballots.now }
{
    let mut nodes = 0;
    for ballot in ballots {
        nodes = ballot.nodes().max(nodes);
    }
    nodes
}

impl BallotList {
    /// The list of these ballots, in this order.
    ///
    /// # Errors
    ///
    /// The first of these that applies: `NoBallot` (207) without a ballot, `TooManyBallots` (208) with
    /// more than 8, and `BallotsMiss` (206) where two of them don't cross. The last carries the places of
    /// the first such pair, the lower one first; pairs come in the order of their lower places, and those
    /// of one lower place in that of their higher ones.
    pub fn of(ballots: &[Ballot]) -> Result<BallotList, BallotFault>
        ensures exact { result ≡ list_unless (list_fault_of ballots.now) ballots.now }
        ensures accepted { OkIff result (IsBallotList ballots.now) ballots.now }
    {
        if ballots.is_empty() {
            return Err(BallotFault::NoBallot);
        }
        if ballots.len() > MAX_BALLOTS as usize {
            return Err(BallotFault::TooManyBallots);
        }
        if let Some((lower, higher)) = first_missed(ballots) {
            return Err(BallotFault::BallotsMiss(lower, higher));
        }
        let (room, size) = (room_of(ballots), ballots.len() as u8);
        Ok(BallotList {
            room,
            size,
            nodes: nodes_of(ballots),
        })
    }

    /// How many ballots the list has: 1 to 8, and their places are numbered from 1.
    pub fn count(&self) -> u8
        ensures count { result ≡ length self.now }
        ensures some_ballot { 1 ≤ result }
        ensures few_ballots { result ≤ MAX_BALLOTS }
        ensures cross { AllCross self.now }
    {
        self.size
    }

    /// The ballot at a place, or `None` exactly where the list doesn't have the place: at 0, and above
    /// its number of ballots.
    pub fn ballot(&self, place: u8) -> Option<Ballot>
        ensures { SomeIff result (HasPlace self.now place) (ballot_at self.now place) }
    {
        if place == 0 || place > self.size {
            return None;
        }
        Some(self.room[place as usize - 1])
    }

    /// How many nodes the longest ballot has: 1 to 16. Each node of any of the ballots is among them.
    pub fn nodes(&self) -> u8
        ensures nodes { result ≡ node_count self.now }
        ensures none_longer { All (λ b. length b.votes ≤ result) self.now }
        ensures some_node { 1 ≤ result }
        ensures few_nodes { result ≤ MAX_NODES }
        ensures cross { AllCross self.now }
    {
        self.nodes
    }

    /// The lowest node that is in both sets and has votes in both ballots, those at the places `first`
    /// and `second`.
    ///
    /// The caller owes that the list has both places, that `a` is enough for a writer under the first
    /// place's ballot, and that `b` is enough for the mode under the second's; `enough` tells. Such a
    /// node is always there, since the ballots cross (our own rule).
    pub fn shared_node(&self, first: u8, second: u8, a: NodeSet, b: NodeSet, mode: Mode) -> NodeId
        requires first_place { HasPlace self.now first }
        requires second_place { HasPlace self.now second }
        requires writers { IsEnough (ballot_at self.now first) Mode.Write (has_node a) }
        requires others { IsEnough (ballot_at self.now second) mode (has_node b) }
        ensures shared { IsSharedUnderBoth (ballot_at self.now first) (ballot_at self.now second) (has_node a) (has_node b) result }
        ensures lowest { (n : ℕ) → IsSharedUnderBoth (ballot_at self.now first) (ballot_at self.now second) (has_node a) (has_node b) n → result ≤ n }
    {
        laws::any_two_cross();
        let (first, second) = (
            self.room[first as usize - 1],
            self.room[second as usize - 1],
        );
        first.node_shared_with(&second, a, b, mode)
    }
}
