//! A node's loop over a recorder of its own: its journal, and its end if the journal can't be written.

ghost use Rattle.std.specs.Prelude.{◌≡◌, ◌∷◌, [], IfOk, OnOk};
ghost use Rattle.lock_messages.specs.declared.ids.Actor.TheVariants as who;
ghost use Rattle.stable_record.specs.Records.{IsNodeRecord, node_record_of};
ghost use Rattle.test_support.specs.Fresh.{empty_record};
ghost use Rattle.world_model.specs.Openings.{down_node, empty_station};
ghost use Rattle.world_model.specs.Parts.{NodePart};

use crate::worlds::{ballots, post_of, ticket};
use crate::writers::{Room, without_memory};
use event_recorders::{Recorder, RunFault};
use lock_messages::Message;
use lock_model::Problem;
use lock_session::OpenGate;
use lossy_link::{ListLink, Post};
use node_loop::run_node;
use own_recorders::{OwnActor, OwnNode, OwnRecorder};
use stable_record::{MemoryRecord, StableRecord};
use std::alloc::Global;
use std::io::{Write, sink};
use std::sync::Wait;
use test_outcomes::{Failure, Outcome, check_row, node_id};
use test_support::{nothing_kept, plain_pair};
use world_actors::WorldNode;

/// The lines that the node writes when it takes c1's request to write `a` and grants it.
pub(crate) const JOURNAL: &[u8] = b"\
life n1 01010000
take n1 010101000000010000000000000001010161
try n1
kept n1
say n1
";

/// How a run ended, how many parcels and words were sent in it, and the journal.
pub(crate) type Played<J> = (Result<(), RunFault>, usize, J);

/// A record in which a node for problem 1 has kept nothing.
fn new_record(alloc: Global) -> Result<Box<dyn StableRecord + Send>, Failure>
    ensures finds { IfOk result (λ r. finds r ≡ node_record_of (empty_record Problem.First) ∷ []) }
    ensures good { OnOk result (IsNodeRecord (empty_record Problem.First)) }
{
    let nothing = nothing_kept(alloc, Problem::First)?;
    let Ok(record) = MemoryRecord::holding(alloc, nothing.as_slice()) else {
        return Err(Failure::Memory);
    };
    let stable: Box<dyn StableRecord + Send> = Box::new(alloc, record)?;
    Ok(stable)
}

/// Runs n1, which has kept nothing, by this recorder.
#[tactic(auto, using(crate::proofs::Ready::node_ready))]
fn run<W: Wait, R: Recorder>(
    rt: &W,
    alloc: Global,
    recorder: &mut R,
    link: &mut ListLink,
) -> Result<Result<(), RunFault>, Failure>
    requires actor { (R.own_log recorder.old).actor ≡ who.Node 1 }
    requires opening { (R.own_log recorder.old).opening ≡ NodePart (down_node (empty_station Problem.First)) }
    requires events { (R.own_log recorder.old).events ≡ [] }
{
    let stable = new_record(alloc)?;
    Ok(run_node(
        rt,
        alloc,
        node_id(1),
        stable,
        plain_pair(),
        recorder,
        link,
        &OpenGate,
    ))
}

/// Runs the actor, which is n1, over this journal.
fn play<W: Wait, K: OwnActor, J: Write + Drop>(
    rt: &W,
    alloc: Global,
    actor: K,
    journal: J,
    posts: Vec<Post>,
) -> Result<Played<J>, Failure>
    requires actor { K.actor actor ≡ who.Node 1 }
    requires part { K.part actor ≡ NodePart (down_node (empty_station Problem.First)) }
{
    let mut recorder = OwnRecorder::over(alloc, actor, journal);
    let mut link = ListLink::of(posts);
    let ended = run(rt, alloc, &mut recorder, &mut link)?;
    Ok((ended, link.sent().len(), recorder.into_journal()))
}

/// Runs n1, which has kept nothing and takes c1's request, over this journal.
pub(crate) fn grants<W: Wait, J: Write + Drop>(
    rt: &W,
    alloc: Global,
    journal: J,
) -> Result<Played<J>, Failure> {
    let node = node_id(1);
    let mut posts = Vec::new(alloc);
    posts.push(post_of(alloc, &Message::Request(node, ticket()?))?)?;
    let actor = OwnNode {
        node: WorldNode::empty(alloc, node, Problem::First, plain_pair()),
        list: ballots()?,
    };
    play(rt, alloc, actor, journal, posts)
}

#[test]
fn a_journal(rt: HostRuntime) -> Outcome {
    let alloc = rt.alloc();
    let (ended, sent, journal) = grants(&rt, alloc, Room::of(alloc, JOURNAL.len())?)?;
    if ended == Err(RunFault::Memory) {
        return Err(without_memory(journal.bytes.as_slice(), JOURNAL, 3));
    }
    check_row(ended == Ok(()) && sent == 1, 1)?;
    check_row(journal.bytes.as_slice() == JOURNAL, 2)
}

#[test]
fn no_journal(rt: HostRuntime) -> Outcome {
    let alloc = rt.alloc();
    let (ended, sent, _) = grants(&rt, alloc, sink())?;
    if ended == Err(RunFault::Memory) {
        return Err(Failure::Memory);
    }
    check_row(ended == Ok(()) && sent == 1, 1)
}

/// If the journal has room for so many bytes, less than all, the node ends by 915. Nothing is sent unless its line is
/// whole, and the writer is asked nothing more after it has failed.
fn is_cut<W: Wait>(rt: &W, alloc: Global, room: usize) -> Outcome {
    let (ended, sent, journal) = grants(rt, alloc, Room::of(alloc, room)?)?;
    if ended == Err(RunFault::Memory) {
        return Err(Failure::Memory);
    }
    check_row(ended == Err(RunFault::Book), 1)?;
    let written = JOURNAL.get(..room).unwrap_or(JOURNAL);
    check_row(journal.bytes.as_slice() == written, 2)?;
    // The only thing sent is the word that the node is gone.
    check_row(sent == 1, 3)?;
    let lines = written.iter().filter(|byte| **byte == b'\n').count();
    let torn = if written.last() == Some(&b'\n') || room == 0 {
        0
    } else {
        1
    };
    check_row(journal.calls as usize == lines + torn + 1, 4)
}

#[test]
fn each_cut(rt: HostRuntime) -> Outcome {
    for room in 0..JOURNAL.len() {
        is_cut(&rt, rt.alloc(), room)?;
    }
    Ok(())
}
