//! A client's session over a recorder of its own: its journal, and its end if the journal can't be written.

ghost use Rattle.std.specs.Prelude.{◌≡◌, []};
ghost use Rattle.lock_messages.specs.declared.ids.Actor.TheVariants as who;
ghost use Rattle.world_model.specs.Openings.{down_client};
ghost use Rattle.world_model.specs.Parts.{ClientPart};

use crate::worlds::{ballots, post_of, ticket};
use crate::writers::{Room, without_memory};
use event_recorders::{Recorder, RunFault};
use lock_messages::{Message, Mode};
use lock_session::{LentRecord, OwnRecord, Session};
use lossy_link::{Link, ListLink, Post};
use own_recorders::{OwnActor, OwnClient, OwnRecorder};
use stable_record::{FaultyRecord, Leaves, client_bytes};
use std::alloc::Global;
use std::io::Write;
use std::sync::Wait;
use test_outcomes::{Failure, Outcome, check_row, client_id, node_id};
use vote_weights::BallotList;

/// The lines that the client writes when it takes the lock to write `a`, softens and leaves.
pub(crate) const JOURNAL: &[u8] = b"\
life c1 010000000000000000
begin c1 write a
try c1
kept c1
sayto c1 n1
hear c1 010301000000010000000000000001010161
enter c1
soften c1
sayto c1 n1
leave c1
sayto c1 n1
";

/// Takes the lock to write `a`, softens and leaves.
fn use_it<W: Wait, S: OwnRecord, R: Recorder, L: Link>(
    rt: &W,
    alloc: Global,
    session: &mut Session<S, R, L>,
) -> Result<Result<(), RunFault>, Failure> {
    if session.ballots().count() < 1 {
        return Err(Failure::Wrong(0));
    }
    let mut guard = match session.enter(rt, alloc, Mode::Write, ticket()?.resource, 1, 10) {
        Ok(guard) => guard,
        Err(fault) => return Ok(Err(fault)),
    };
    if let Err(fault) = guard.soften(alloc) {
        return Ok(Err(fault));
    }
    Ok(guard.leave(rt, alloc))
}

/// Its device fails at the keep of this number, which is never made.
const NEVER: u32 = 1000;

/// Plays the session of c1 over this journal, with a record that is lent. Returns how it ended, and the journal.
fn play<W: Wait, K: OwnActor, J: Write + Drop>(
    rt: &W,
    alloc: Global,
    actor: K,
    list: BallotList,
    journal: J,
    posts: Vec<Post>,
) -> Result<(Result<(), RunFault>, J), Failure>
    requires actor { K.actor actor ≡ who.Client 1 }
    requires ballots { K.ballots actor ≡ list }
    requires part { K.part actor ≡ ClientPart (down_client 0) }
{
    let Ok(mut record) = FaultyRecord::of(alloc, &client_bytes(0), NEVER, Leaves::Old) else {
        return Err(Failure::Memory);
    };
    let recorder = OwnRecorder::over(alloc, actor, journal);
    let lent = LentRecord::of(&mut record);
    let risen = Session::rise(client_id(1), list, lent, recorder, ListLink::of(posts));
    let mut session = match risen {
        Ok(session) => session,
        Err(back) => return Ok((Err(back.fault), back.recorder.into_journal())),
    };
    let ended = use_it(rt, alloc, &mut session)?;
    let (_, recorder, _) = session.into_parts();
    Ok((ended, recorder.into_journal()))
}

/// Runs c1, which has made no attempt and is granted what it asks for, over this journal.
pub(crate) fn enters<W: Wait, J: Write + Drop>(
    rt: &W,
    alloc: Global,
    journal: J,
) -> Result<(Result<(), RunFault>, J), Failure> {
    let mut posts = Vec::new(alloc);
    posts.push(post_of(alloc, &Message::Grant(node_id(1), ticket()?))?)?;
    let list = ballots()?;
    play(
        rt,
        alloc,
        OwnClient::opened(client_id(1), 0, list),
        list,
        journal,
        posts,
    )
}

#[test]
fn a_session(rt: HostRuntime) -> Outcome {
    let alloc = rt.alloc();
    let (ended, journal) = enters(&rt, alloc, Room::of(alloc, JOURNAL.len())?)?;
    if ended == Err(RunFault::Memory) {
        return Err(without_memory(journal.bytes.as_slice(), JOURNAL, 3));
    }
    check_row(ended == Ok(()), 1)?;
    check_row(journal.bytes.as_slice() == JOURNAL, 2)
}

/// If the journal has room for so many bytes, less than all, the session ends by 915.
fn is_cut<W: Wait>(rt: &W, alloc: Global, room: usize) -> Outcome {
    let (ended, journal) = enters(rt, alloc, Room::of(alloc, room)?)?;
    if ended == Err(RunFault::Memory) {
        return Err(Failure::Memory);
    }
    check_row(ended == Err(RunFault::Book), 1)?;
    let written = JOURNAL.get(..room).unwrap_or(JOURNAL);
    check_row(journal.bytes.as_slice() == written, 2)
}

#[test]
fn each_cut_of_a_session(rt: HostRuntime) -> Outcome {
    for room in 0..JOURNAL.len() {
        is_cut(&rt, rt.alloc(), room)?;
    }
    Ok(())
}
