// Sets of nodes.

ghost use Rattle.std.specs.Prelude.{◌≡◌, ℕ, ◌==◌, ◌||◌, []};
ghost use Rattle.vote_weights.specs.Sets.{IsNodeSet, has_node, with_node, marks_of};

use lock_messages::{MAX_NODES, NodeId};
use std::marker::Model;

/// A set of nodes, of any ballot or none. Contracts see the ascending list of its members.
#[derive(Clone, Copy, Debug, PartialEq, Eq)]
pub struct NodeSet {
    // Whether node 1 is in the set, then node 2, and so on.
    room: [bool; MAX_NODES as usize],
}

impl Model for NodeSet {
    ghost use Rattle.std.specs.Prelude.{◌≡◌, ℕ, List};
    ghost use Rattle.vote_weights.specs.Sets.{members_from, marks_of};

    ghost Value = { List ℕ };

    ghost view = { λ s. members_from 1 s.room };

    // The marks come back from the members, so the room has one for each node.
    ghost invariant = { λ s. marks_of (members_from 1 s.room) ≡ s.room };

    ghost inverse = { λ set. record { room = marks_of set } };
}

impl NodeSet {
    /// The set with no node.
    pub fn empty() -> NodeSet
        ensures { result ≡ [] }
    {
        NodeSet {
            room: [false; MAX_NODES as usize],
        }
    }

    /// The set with this node too; the same set, if it has the node already.
    pub fn with(self, node: NodeId) -> NodeSet
        ensures exact { result ≡ with_node self node }
        ensures members { (n : ℕ) → has_node result n ≡ ((node == n) || has_node self n) }
        ensures node_set { IsNodeSet result }
    {
        let mut room = self.room;
        room[node.get() as usize - 1] = true;
        NodeSet { room }
    }

    /// Whether the node is in the set.
    pub fn has(self, node: NodeId) -> bool
        ensures has { result ≡ has_node self node }
        ensures node_set { IsNodeSet self }
    {
        self.room[node.get() as usize - 1]
    }

    /// Whether node 1 is in the set, then node 2, and so on.
    pub(crate) fn marks(self) -> [bool; MAX_NODES as usize]
        ensures { result ≡ marks_of self }
    {
        self.room
    }
}
