// How a client's session begins and ends.

ghost use Rattle.std.specs.Prelude.{◌≡◌, IfOk, IfErr, IfNone};
ghost use Rattle.lock_session.specs.Sessions.{IsResting};
ghost use Rattle.node_threads.specs.Sessions.{IsSessionEnd};
ghost use Rattle.node_threads.specs.Tasks.{IsClientBerth};

use crate::session_tasks::SessionTask;
use book_recorders::{BookName, BookRecorder, Logs, Named};
use event_recorders::RunFault;
use history_book::Berth;
use lock_messages::ClientId;
use lock_session::{OwnRecord, Session};
use lossy_link::ChannelLink;
use std::alloc::Global;
use std::sync::{Mutex, Wait};
use vote_weights::BallotList;

/// A session whose client logs in the book under a lock, and is linked to the nodes' threads.
pub(crate) type BookSession<'a, B, K, S, R> = Session<S, BookRecorder<'a, B, K, R>, ChannelLink<R>>;

/// How a client's session ended: by which fault, if by one; its record; and the berth through which it logged.
#[derive(Drop)]
pub(crate) struct SessionEnd<S> {
    pub(crate) client: ClientId,
    pub(crate) stable: S,
    pub(crate) fault: Option<RunFault>,
    pub(crate) berth: Berth,
}

/// The session of a client; or how it ended, where its client didn't rise.
pub(crate) fn begin_session<'a, B: BookName, K: Logs, S: OwnRecord, R: Wait + Copy>(
    rt: R,
    ballots: BallotList,
    task: SessionTask<S, R>,
    book: &'a Mutex<Named<B, K>>,
) -> Result<BookSession<'a, B, K, S, R>, SessionEnd<S>>
    requires { IsClientBerth B.table task.client ballots task.berth (S.StableRecord.finds task.stable) }
    ensures client { IfOk result (λ s. s.client ≡ task.client) }
    ensures ballots { IfOk result (λ s. s.ballots ≡ ballots) }
    ensures rests { IfOk result IsResting }
    ensures same { IfErr result (λ e. e.client ≡ task.client) }
    ensures told { IfErr result (λ e. IfNone e.fault ⊥) }
    ensures table { IfErr result (λ e. e.berth.table ≡ B.table) }
    ensures end { IfErr result (λ e. IsSessionEnd e.client e.fault e.berth (S.StableRecord.finds e.stable)) }
{
    let SessionTask {
        client,
        berth,
        stable,
        link,
    } = task;
    let recorder = BookRecorder::of(rt, book, berth);
    match Session::rise(client, ballots, stable, recorder, link) {
        Ok(session) => Ok(session),
        Err(back) => Err(SessionEnd {
            client,
            stable: back.stable,
            fault: Some(back.fault),
            berth: back.recorder.into_berth(),
        }),
    }
}

/// Settles a session and takes it apart. Its link is dropped, so nodes learn that the client is gone.
pub(crate) fn end_session<B: BookName, K: Logs, S: OwnRecord, R: Wait + Copy>(
    rt: R,
    alloc: Global,
    session: BookSession<'_, B, K, S, R>,
) -> SessionEnd<S>
    ensures client { result.client ≡ session.entry.client }
    ensures table { result.berth.table ≡ B.table }
    ensures end { IsSessionEnd result.client result.fault result.berth (S.StableRecord.finds result.stable) }
{
    let mut session = session;
    let fault = match session.settle(&rt, alloc) {
        Ok(()) => None,
        Err(fault) => Some(fault),
    };
    let client = session.client();
    let (stable, recorder, _link) = session.into_parts();
    SessionEnd {
        client,
        stable,
        fault,
        berth: recorder.into_berth(),
    }
}
