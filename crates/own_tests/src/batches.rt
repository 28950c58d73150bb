//! A node that works in batches: what it keeps, writes and sends for several messages, in which order, and what is left out
//! if its journal or its record fails.

ghost use Rattle.std.specs.Prelude.{◌≡◌, ◌∷◌, [], IfOk, OnOk};
ghost use Rattle.lock_messages.specs.declared.ids.Actor.TheVariants as who;
ghost use Rattle.stable_record.specs.Records.{IsNodeRecord, node_record_of};
ghost use Rattle.test_support.specs.Fresh.{empty_record};
ghost use Rattle.world_model.specs.Openings.{down_node, empty_station};
ghost use Rattle.world_model.specs.Parts.{NodePart};

use crate::watched::{Steps, WatchedJournal, WatchedLink, WatchedRecord};
use crate::worlds::{ballots, post_of, ticket};
use event_recorders::RunFault;
use lock_messages::{ClientId, Message, ResourceName, Ticket};
use lock_model::Problem;
use lock_session::OpenGate;
use lossy_link::{Link, ListLink, Post};
use node_batches::{MAX_BATCH, run_node_in_batches};
use own_recorders::{BatchJournal, OwnActor, OwnNode, OwnRecorder};
use stable_record::{MemoryRecord, StableRecord};
use std::alloc::Global;
use std::sync::{Arc, Wait};
use test_outcomes::{Failure, Outcome, check_row, node_id};
use test_support::{nothing_kept, plain_pair};
use world_actors::WorldNode;

/// The lines of n1 that takes the requests of c1, c2 and c3 to write `a`, `b` and `c`, and grants them.
const JOURNAL: &[u8] = b"\
life n1 01010000
take n1 010101000000010000000000000001010161
try n1
kept n1
say n1
take n1 010101000000020000000000000001010162
try n1
kept n1
say n1
take n1 010101000000030000000000000001010163
try n1
kept n1
say n1
";

/// How a run ended, and what was done in it.
#[derive(Drop)]
struct Played {
    ended: Result<(), RunFault>,
    journal: Vec<u8>,
    sent: usize,
    kept: u32,
    steps: u32,
}

/// The request of a client, by its number, to write the resource of this name, under its first attempt.
fn request(alloc: Global, client: u32, name: &[u8]) -> Result<Post, Failure> {
    let ticket = Ticket {
        client: ClientId::of(client).ok_or(Failure::Wrong(0))?,
        resource: ResourceName::of(name).ok_or(Failure::Wrong(0))?,
        ..ticket()?
    };
    post_of(alloc, &Message::Request(node_id(1), ticket))
}

/// The requests of three clients, each for a resource of its own.
fn three(alloc: Global) -> Result<Vec<Post>, Failure> {
    let mut posts = Vec::new(alloc);
    posts.push(request(alloc, 1, b"a")?)?;
    posts.push(request(alloc, 2, b"b")?)?;
    posts.push(request(alloc, 3, b"c")?)?;
    Ok(posts)
}

/// A record in which a node for problem 1 has kept nothing. It notes what is done to it here, and may fail.
fn new_record(
    alloc: Global,
    steps: &Arc<Steps>,
    fails: bool,
) -> Result<Box<dyn StableRecord + Send>, Failure>
    ensures finds { IfOk result (λ r. finds r ≡ node_record_of (empty_record Problem.First) ∷ []) }
    ensures good { OnOk result (IsNodeRecord (empty_record Problem.First)) }
{
    let nothing = nothing_kept(alloc, Problem::First)?;
    let Ok(record) = MemoryRecord::holding(alloc, nothing.as_slice()) else {
        return Err(Failure::Memory);
    };
    let watched = WatchedRecord {
        record,
        steps: steps.clone()?,
        fails,
        is_stuck: false,
        failures: 0,
    };
    let stable: Box<dyn StableRecord + Send> = Box::new(alloc, watched)?;
    Ok(stable)
}

/// Runs the actor, which is n1 and has kept nothing, over this journal and this link, and returns how it ended, and the
/// journal. Its record may fail.
#[tactic(auto, using(crate::proofs::Ready::node_ready))]
fn work<T: Wait, K: OwnActor, J: BatchJournal + Drop, L: Link>(
    rt: &T,
    alloc: Global,
    actor: K,
    journal: J,
    stable: Box<dyn StableRecord + Send>,
    link: &mut L,
) -> (Result<(), RunFault>, J)
    requires actor { K.actor actor ≡ who.Node 1 }
    requires part { K.part actor ≡ NodePart (down_node (empty_station Problem.First)) }
    requires finds { finds stable ≡ node_record_of (empty_record Problem.First) ∷ [] }
    requires good { IsNodeRecord (empty_record Problem.First) }
{
    let mut stable = stable;
    let mut recorder = OwnRecorder::over(alloc, actor, journal);
    let ended = run_node_in_batches(
        rt,
        alloc,
        node_id(1),
        &mut *stable,
        plain_pair(),
        &mut recorder,
        link,
        &OpenGate,
    );
    (ended, recorder.into_journal())
}

/// Runs n1, which has kept nothing, over these posts. Its record fails, or its journal once its life line is out, if that is
/// wanted.
fn play<W: Wait>(
    rt: &W,
    alloc: Global,
    posts: Vec<Post>,
    record_fails: bool,
    journal_fails: bool,
) -> Result<Played, Failure> {
    let steps = Steps::none(alloc)?;
    let journal = WatchedJournal::new(alloc, &steps, journal_fails)?;
    let actor = OwnNode {
        node: WorldNode::empty(alloc, node_id(1), Problem::First, plain_pair()),
        list: ballots()?,
    };
    let mut link = WatchedLink {
        link: ListLink::of(posts),
        steps: steps.clone()?,
    };
    let stable = new_record(alloc, &steps, record_fails)?;
    let (ended, journal) = work(rt, alloc, actor, journal, stable, &mut link);
    if ended == Err(RunFault::Memory) || link.link.was_refused() {
        return Err(Failure::Memory);
    }
    Ok(Played {
        ended,
        journal: journal.bytes,
        sent: link.link.sent().len(),
        kept: steps.keeps(),
        steps: steps.all(),
    })
}

/// The lines go out, the record is kept once, and then three answers are sent.
#[test]
fn three_messages_and_one_keep(rt: HostRuntime) -> Outcome {
    let alloc = rt.alloc();
    let played = play(&rt, alloc, three(alloc)?, false, false)?;
    check_row(played.ended == Ok(()), 1)?;
    check_row(played.steps == 112_333, 2)?;
    check_row(played.journal.as_slice() == JOURNAL, 3)
}

/// A record that fails: nothing is sent but that the node is gone.
#[test]
fn a_record_that_fails(rt: HostRuntime) -> Outcome {
    let alloc = rt.alloc();
    let played = play(&rt, alloc, three(alloc)?, true, false)?;
    check_row(played.ended == Err(RunFault::NotReopened), 1)?;
    check_row(played.steps == 1_124, 2)?;
    check_row(played.sent == 1, 3)
}

/// A journal that fails: the record is not kept either.
#[test]
fn a_journal_that_fails(rt: HostRuntime) -> Outcome {
    let alloc = rt.alloc();
    let played = play(&rt, alloc, three(alloc)?, false, true)?;
    check_row(played.ended == Err(RunFault::Book), 1)?;
    check_row(played.steps == 114, 2)?;
    check_row(played.kept == 0, 3)
}

/// One message more than a batch takes: the record is kept twice. Each message is answered.
#[test]
fn more_than_a_batch(rt: HostRuntime) -> Outcome {
    let alloc = rt.alloc();
    let mut posts = Vec::new(alloc);
    for client in 0..=MAX_BATCH {
        posts.push(request(alloc, client + 1, b"a")?)?;
    }
    let played = play(&rt, alloc, posts, false, false)?;
    check_row(played.ended == Ok(()), 1)?;
    check_row(played.kept == 2, 2)?;
    check_row(played.sent == 65, 3)
}
