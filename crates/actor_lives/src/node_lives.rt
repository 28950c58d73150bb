// A node's life.

ghost use Rattle.std.specs.Prelude.{◌≡◌, ◌∷◌, [], ℕ, List, OnOk, OnErr, IfOk, IfErr};
ghost use Rattle.lock_messages.specs.declared.ids.Actor.TheVariants as who;
ghost use Rattle.stable_record.specs.declared.node_records.NodeRecord.{NodeRecord};
ghost use Rattle.world_model.specs.Parts.{NodePart};
ghost use Rattle.node_loop.specs.Endings.{EndsIdle};
ghost use Rattle.node_loop.specs.Standing.{as_opened, IsReady, IsNodeFault};
ghost use Rattle.node_batches.specs.Batches.{FindsLast, HasGone};
ghost use Rattle.actor_lives.specs.Lives.{IsLogOf, IsOpened, KeepsJournal};

use admission_policy::Pair;
use event_recorders::RunFault;
use lock_messages::NodeId;
use lock_session::OpenGate;
use lossy_link::Link;
use node_batches::run_node_in_batches;
use own_recorders::{BatchJournal, OwnActor, OwnNode, OwnRecorder};
use session_files::SessionFile;
use stable_record::{RecordFault, read_node};
use std::alloc::Global;
use std::io::Write;
use std::sync::Wait;
use vote_weights::BallotList;
use world_actors::WorldNode;

/// No policies: the node decides by the plain rule of its problem.
fn plain_rules() -> Pair {
    Pair {
        first: None,
        second: None,
    }
}

/// How a node's life ended, and its recorder.
#[derive(Drop)]
pub struct NodeEnd<K: OwnActor, W: Write + Drop> {
    /// A fault is 911, 914, 915 or 916. Without a fault the link brought nothing more.
    pub ended: Result<(), RunFault>,
    pub recorder: OwnRecorder<K, W>,
}

/// The node with this number, down, that has kept what the bytes of its record spell.
///
/// The error says why the bytes are no node's record: 311 to 319, or 320 if memory ran out.
pub fn open_node(
    alloc: Global,
    node: NodeId,
    ballots: BallotList,
    found: &[u8],
) -> Result<OwnNode, RecordFault>
    requires { Unit {0} }
    ensures number { IfOk result (λ own. own.node.number ≡ node) }
    ensures ballots { IfOk result (λ own. own.list ≡ ballots) }
    ensures opened { IfOk result (λ own. IsOpened found.now (NodePart own.node.part)) }
{
    let record = read_node(alloc, found)?;
    Ok(OwnNode {
        node: WorldNode::opened(alloc, node, record, plain_rules()),
        list: ballots,
    })
}

/// Runs the node's loop over its record's file.
#[tactic(auto, using(node_batches::proofs::BatchFacts::cause_faults))]
fn attend<T: Wait, K: OwnActor, W: BatchJournal + Drop, L: Link>(
    rt: &T,
    alloc: Global,
    node: NodeId,
    stable: &mut SessionFile,
    recorder: &mut OwnRecorder<K, W>,
    link: &mut L,
) -> Result<(), RunFault>
    requires { (kept : NodeRecord) × IsReady recorder.old.log node kept stable.old.record.finds }
    ensures done { OnOk result (EndsIdle recorder.new.log (L.given link.old) (L.given link.new) (L.coming link.new)) }
    ensures found { OnOk result (FindsLast recorder.new.log stable.new.record.finds) }
    ensures faulted { OnErr result (HasGone node recorder.new.log stable.new.record.finds (L.given link.old) (L.given link.new) (L.refused link.new)) }
    ensures opened { as_opened recorder.new.log ≡ as_opened recorder.old.log }
    ensures faults { IfErr result IsNodeFault }
{
    run_node_in_batches(
        rt,
        alloc,
        node,
        stable,
        plain_rules(),
        recorder,
        link,
        &OpenGate,
    )
}

/// Runs a node's life: it rises with what its record holds, takes messages and keeps what they change, and sends its
/// replies, until nothing comes any more over its link. It keeps its record once for all messages that have come.
///
/// The caller owes the node with this number, down, with what it has kept; and a record in which a restart finds just
/// that. The node decides by the plain rule of its problem.
///
/// The end tells a fault of the node's loop: the record's file failed (911), out of memory (914), the journal can't be
/// written (915), or no change of the record can be numbered (916). Then nothing was sent that is not kept.
#[tactic(auto, using(crate::proofs::LifeFacts::node_ready, crate::proofs::LifeFacts::log_of))]
pub fn run_node_life<T: Wait, K: OwnActor, W: BatchJournal + Drop, L: Link>(
    rt: &T,
    alloc: Global,
    node: NodeId,
    actor: K,
    stable: &mut SessionFile,
    journal: W,
    link: &mut L,
) -> NodeEnd<K, W>
    requires actor { K.actor actor ≡ who.Node node }
    requires opened { (found : List ℕ) × IsOpened found (K.part actor) × (stable.old.record.finds ≡ found ∷ []) }
    ensures whose { IsLogOf (who.Node node) (K.ballots actor) (K.part actor) result.recorder.log }
    ensures kept { KeepsJournal result.recorder }
    ensures done { OnOk result.ended (EndsIdle result.recorder.log (L.given link.old) (L.given link.new) (L.coming link.new)) }
    ensures found { OnOk result.ended (FindsLast result.recorder.log stable.new.record.finds) }
    ensures faulted { OnErr result.ended (HasGone node result.recorder.log stable.new.record.finds (L.given link.old) (L.given link.new) (L.refused link.new)) }
    ensures faults { IfErr result.ended IsNodeFault }
{
    let mut recorder = OwnRecorder::over(alloc, actor, journal);
    let ended = attend(rt, alloc, node, stable, &mut recorder, link);
    recorder.tell();
    NodeEnd { ended, recorder }
}

/// Runs a node's life as `run_node_life` does, and keeps nothing of it but its end.
///
/// The caller owes what `run_node_life` asks for.
pub fn live_as_node<T: Wait, K: OwnActor, W: BatchJournal + Drop, L: Link>(
    rt: &T,
    alloc: Global,
    node: NodeId,
    actor: K,
    stable: &mut SessionFile,
    journal: W,
    link: &mut L,
) -> Result<(), RunFault>
    requires actor { K.actor actor ≡ who.Node node }
    requires opened { (found : List ℕ) × IsOpened found (K.part actor) × (stable.old.record.finds ≡ found ∷ []) }
    ensures faults { IfErr result IsNodeFault }
{
    run_node_life(rt, alloc, node, actor, stable, journal, link).ended
}
