// The nodes that have to answer a release yet.

ghost use Rattle.std.specs.Prelude.{◌≡◌, ℕ, true, false};
ghost use Rattle.vote_weights.specs.Sets.{has_node};
ghost use Rattle.client_loop.specs.Nodes.{is_among};
ghost use Rattle.actor_lives.specs.Serving.{AreOwing};

use event_recorders::Recorder;
use lock_messages::NodeId;
use lock_session::{OwnRecord, Session};
use lossy_link::Link;
use vote_weights::{BallotList, NodeSet};

/// All nodes of the ballots.
pub(crate) fn all_nodes(ballots: &BallotList) -> NodeSet
    ensures { (n : ℕ) → is_among ballots.now n ≡ true → has_node result n ≡ true }
{
    let mut all = NodeSet::empty();
    for number in 1..ballots.nodes() + 1 {
        let Some(node) = NodeId::of(number) else {
            return all;
        };
        all = all.with(node);
    }
    all
}

/// Whether a node of the ballots is among these.
pub(crate) fn has_any(ballots: &BallotList, nodes: NodeSet) -> bool
    ensures { result ≡ false → (n : ℕ) → is_among ballots.now n ≡ true → has_node nodes n ≡ false }
{
    for number in 1..ballots.nodes() + 1 {
        let Some(node) = NodeId::of(number) else {
            return true;
        };
        if nodes.has(node) {
            return true;
        }
    }
    false
}

/// The nodes that have to answer a release yet: those that had to before and those that were asked since, without those
/// that have answered.
pub(crate) fn still_owing<S: OwnRecord, R: Recorder, L: Link>(
    session: &Session<S, R, L>,
    before: NodeSet,
) -> NodeSet
    ensures { AreOwing session.now.ballots before session.now.asked session.now.released result }
{
    let (asked, released) = (session.asked(), session.released());
    let mut owing = NodeSet::empty();
    for number in 1..session.ballots().nodes() + 1 {
        let Some(node) = NodeId::of(number) else {
            return owing;
        };
        if (before.has(node) || asked.has(node)) && !released.has(node) {
            owing = owing.with(node);
        }
    }
    owing
}
