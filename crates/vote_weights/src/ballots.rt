// Ballots: how many votes each node has, and how many a reader and a writer need.

ghost use Rattle.std.specs.Prelude.{◌≡◌, ℕ, ◌≤◌, ◌*◌, ◌↔◌, length, sum, IsTrue};
ghost use Rattle.std.specs.Result.{OkIff};
ghost use Rattle.lock_model.specs.Ballots.{Crosses, AreCrossing, IsEnough, IsShared, IsSharedUnderBoth, votes_of, total, needed};
ghost use Rattle.vote_weights.specs.Ballots.{IsBallot, ballot_of, room_of};
ghost use Rattle.vote_weights.specs.Faults.{fault_of, ballot_unless};
ghost use Rattle.vote_weights.specs.Sets.{has_node};

use crate::crossing::votes_at;
use crate::{BallotFault, NodeSet};
use lock_messages::{MAX_NODES, Mode, NodeId};
use lock_model::laws;
use std::marker::Model;

/// How many votes each node has, and how many a reader and a writer collect (Gifford 1979).
///
/// Each ballot crosses: `read + write` and `2 * write` are over the total, and neither `read` nor
/// `write` is. So the nodes that are enough for a writer share a node that has votes with the
/// nodes that are enough for any reader (Gifford 1979) and for any other writer (our own rule).
/// A node may have no votes; it answers as the others do.
///
/// Contracts see the votes of each node, `read` and `write`.
#[derive(Clone, Copy, Debug, PartialEq, Eq)]
pub struct Ballot {
    // The votes of node 1, node 2 and so on, and zeros behind them.
    room: [u8; MAX_NODES as usize],
    size: u8,
    readers_need: u16,
    writers_need: u16,
}

impl Model for Ballot {
    ghost use Rattle.std.specs.Prelude.{length, take};
    ghost use Rattle.lock_model.specs.Ballots.{Ballot};
    ghost use Rattle.vote_weights.specs.Ballots.{HoldsBallot, ballot_of, room_of};

    ghost Value = { Ballot };

    ghost view = { λ b. ballot_of (take b.size b.room) b.readers_need b.writers_need };

    ghost invariant = { λ b. HoldsBallot b.room b.size (ballot_of (take b.size b.room) b.readers_need b.writers_need) };

    ghost inverse = { λ b. record {
      room = room_of b.votes;
      size = length b.votes;
      readers_need = b.read;
      writers_need = b.write;
    } };
}

/// The votes, and zeros up to the greatest number of nodes.
fn room_of(votes: &[u8]) -> [u8; MAX_NODES as usize]
    requires { length votes.now ≤ MAX_NODES }
    ensures { result ≡ room_of votes.now }
{
    let mut room = [0; MAX_NODES as usize];
    room[..votes.len()].copy_from_slice(votes);
    room
}

/// All votes together.
fn sum_of(votes: &[u8]) -> u16
    requires { length votes.now ≤ MAX_NODES }
    ensures sum { result ≡ sum votes.now }
    ensures in_range { result ≤ 255 * MAX_NODES }
{
    votes.iter().map(|votes| u16::from(*votes)).sum()
}

impl Ballot {
    /// The ballot whose node 1 has the first number of votes, node 2 the second and so on, and in
    /// which a reader needs `read` votes and a writer `write`.
    ///
    /// # Errors
    ///
    /// The first of these that applies: `NoNode` (201) without a node, `TooManyNodes` (202) with
    /// more than 16, `OverTotal` (203) where `read` or `write` is over the total of the votes,
    /// `ReadsMissWrites` (204) where `read + write` isn't over it, and `WritesMiss` (205) where
    /// `2 * write` isn't.
    pub fn of(votes: &[u8], read: u16, write: u16) -> Result<Ballot, BallotFault>
        ensures exact { let b = ballot_of votes.now read write in result ≡ ballot_unless (fault_of b) b }
        ensures accepted { let b = ballot_of votes.now read write in OkIff result (IsBallot b) b }
    {
        if votes.is_empty() {
            return Err(BallotFault::NoNode);
        }
        if votes.len() > MAX_NODES as usize {
            return Err(BallotFault::TooManyNodes);
        }
        let total = sum_of(votes);
        if read > total || write > total {
            return Err(BallotFault::OverTotal);
        }
        // Neither is over the total, so these sums are far from their type's end.
        if read + write <= total {
            return Err(BallotFault::ReadsMissWrites);
        }
        if 2 * write <= total {
            return Err(BallotFault::WritesMiss);
        }
        let (room, size) = (room_of(votes), votes.len() as u8);
        Ok(Ballot {
            room,
            size,
            readers_need: read,
            writers_need: write,
        })
    }

    /// The votes of node 1, node 2 and so on.
    pub(crate) fn votes(&self) -> &[u8]
        ensures votes { result.now ≡ self.now.votes }
        ensures ballot { IsBallot self.now }
    {
        let Ballot { room, size, .. } = self;
        &room[..*size as usize]
    }

    /// How many nodes the ballot has: 1 to 16, and they are numbered from 1.
    pub fn nodes(&self) -> u8
        ensures nodes { result ≡ length self.now.votes }
        ensures some_node { 1 ≤ result }
        ensures few_nodes { result ≤ MAX_NODES }
        ensures crosses { Crosses self.now }
    {
        self.size
    }

    /// All votes of the ballot: 1 to 4,080.
    pub fn total(&self) -> u16
        ensures total { result ≡ total self.now }
        ensures in_range { result ≤ 255 * MAX_NODES }
        ensures crosses { Crosses self.now }
    {
        sum_of(self.votes())
    }

    /// How many votes a reader needs: 1 to the total.
    pub fn read(&self) -> u16
        ensures read { result ≡ self.now.read }
        ensures in_range { result ≤ 255 * MAX_NODES }
        ensures crosses { Crosses self.now }
    {
        self.readers_need
    }

    /// How many votes a writer needs: 1 to the total.
    pub fn write(&self) -> u16
        ensures write { result ≡ self.now.write }
        ensures in_range { result ≤ 255 * MAX_NODES }
        ensures crosses { Crosses self.now }
    {
        self.writers_need
    }

    /// How many votes the mode needs.
    fn needed(&self, mode: Mode) -> u16
        ensures needed { result ≡ needed self.now mode }
        ensures crosses { Crosses self.now }
    {
        match mode {
            Mode::Read => self.read(),
            Mode::Write => self.write(),
        }
    }

    /// The votes of the set's nodes, each counted once. Nodes outside the ballot add nothing.
    pub fn votes_in(&self, set: NodeSet) -> u16
        ensures votes { result ≡ votes_of self.now (has_node set) }
        ensures crosses { Crosses self.now }
    {
        let marks = set.marks();
        let mut sum = 0;
        for (i, votes) in self.votes().iter().enumerate() {
            if marks[i] {
                sum += u16::from(*votes);
            }
        }
        sum
    }

    /// Whether the set's nodes have enough votes for the mode.
    ///
    /// Where they are enough for a writer, they share a node that has votes with each set that is
    /// enough for a reader or for a writer, since the ballot crosses.
    pub fn enough(&self, mode: Mode, set: NodeSet) -> bool
        ensures enough { IsTrue result ↔ IsEnough self.now mode (has_node set) }
        ensures crosses { Crosses self.now }
    {
        self.votes_in(set) >= self.needed(mode)
    }

    /// The lowest node that is in both sets and has votes.
    ///
    /// The caller owes that `a` is enough for a writer and `b` for the mode; `enough` tells. Such a
    /// node is always there, since the ballot crosses (Gifford 1979; of two writers our own rule).
    pub fn shared_node(&self, a: NodeSet, b: NodeSet, mode: Mode) -> NodeId
        requires writers { IsEnough self.now Mode.Write (has_node a) }
        requires others { IsEnough self.now mode (has_node b) }
        ensures shared { IsShared self.now (has_node a) (has_node b) result }
        ensures lowest { (n : ℕ) → IsShared self.now (has_node a) (has_node b) n → result ≤ n }
    {
        // The ballot crosses, as `nodes` says, and so it does with itself.
        laws::any_two_cross();
        let _ = self.nodes();
        self.node_shared_with(self, a, b, mode)
    }

    /// The lowest node that is in both sets and has votes in both ballots. `a` is enough for a writer
    /// under this ballot and `b` for the mode under the other one, and the two cross.
    pub(crate) fn node_shared_with(
        &self,
        other: &Ballot,
        a: NodeSet,
        b: NodeSet,
        mode: Mode,
    ) -> NodeId
        requires crossing { AreCrossing self.now other.now }
        requires writers { IsEnough self.now Mode.Write (has_node a) }
        requires others { IsEnough other.now mode (has_node b) }
        ensures shared { IsSharedUnderBoth self.now other.now (has_node a) (has_node b) result }
        ensures lowest { (n : ℕ) → IsSharedUnderBoth self.now other.now (has_node a) (has_node b) n → result ≤ n }
    {
        laws::enough_sets_share_a_node_of_both();
        let (left, right) = (a.marks(), b.marks());
        let others = other.votes();
        for (i, votes) in self.votes().iter().enumerate() {
            let theirs = votes_at(others, i);
            if left[i] && right[i] && *votes > 0 && theirs > 0 {
                return NodeId::of(i as u8 + 1).unwrap();
            }
        }
        unreachable!()
    }
}
