// The threads of nodes, beside a program's work with sessions.

ghost use denote.Param.Send.{IsSend, IsSync};
ghost use Rattle.std.specs.Prelude.{◌≡◌, ◌≤◌, map, length, All, IfOk, IfErr};
ghost use Rattle.std.specs.List.{range_with_len};
ghost use Rattle.lock_messages.specs.declared.ids.TheConstants.{MAX_CLIENTS};
ghost use Rattle.lock_session.specs.Sessions.{IsResting};
ghost use Rattle.node_threads.specs.Ends.{AreNodeEnds};
ghost use Rattle.node_threads.specs.SessionEnds.{AreSessionEnds};
ghost use Rattle.node_threads.specs.Tasks.{IsNodeTask, IsClientBerth};

use crate::ends::NodeEnd;
use crate::session_ends::SessionEnd;
use crate::session_lists::{begin_all, end_all, in_order};
use crate::session_tasks::SessionTask;
use crate::tasks::NodeTask;
use crate::threads::{join_nodes, start_nodes};
use crate::works::Work;
use book_recorders::{BookName, Logs, Named};
use event_recorders::{RunFault, SharedRecorder};
use lock_session::{OpenGate, OwnRecord, Session};
use lossy_link::Link;
use std::alloc::Global;
use std::sync::{Mutex, Wait};
use std::thread;
use std::thread::Threads;
use vote_weights::BallotList;

/// What came of the nodes' threads and of the sessions.
#[derive(Drop)]
pub(crate) struct Served<S> {
    pub(crate) nodes: Vec<NodeEnd>,
    pub(crate) clients: Vec<SessionEnd<S>>,
}

/// Does the work with each of these sessions, in a thread of its own. Where a thread can't be started, the work with
/// its session comes after that with the one before. Each session stays its client's.
fn work_each<
    W: Threads + Wait + Copy + Send + Sync,
    S: OwnRecord + Send,
    R: SharedRecorder + Send,
    L: Link + Send,
    J: Work + Sync,
>(rt: W, alloc: Global, sessions: &mut [Session<S, R, L>], work: &J)
    requires { All IsResting sessions.old }
    ensures { map (λ s. s.client) sessions.new ≡ map (λ s. s.client) sessions.old }
{
    let count = sessions.len();
    if count > 0 {
        let one = move |_place: usize, session: &mut Session<S, R, L>|
            requires { IsResting session.old }
            ensures { session.new.client ≡ session.old.client }
        {
            work.work(&rt, alloc, session);
            // Others may wait for what a dropped guard holds. The session keeps the fault if it is over by one.
            let _ = session.settle(&rt, alloc);
        };
        thread::for_each_mut(&rt, sessions, count, &one);
    }
}

/// Works with the sessions of these clients, and ends them. The ends stand in the order of clients.
fn work_with<
    B: BookName + Send,
    K: Logs + Send,
    S: OwnRecord + Send,
    R: Threads + Wait + Copy + Send + Sync,
    J: Work + Sync,
>(
    rt: R,
    alloc: Global,
    ballots: BallotList,
    clients: Vec<SessionTask<S, R>>,
    book: &Mutex<Named<B, K>>,
    work: &J,
) -> Result<Vec<SessionEnd<S>>, RunFault>
    requires few { length clients.items ≤ MAX_CLIENTS }
    requires clients { All (λ t. IsClientBerth B.table t.client ballots t.berth (S.StableRecord.finds t.stable)) clients.items }
    requires all_clients { map (λ t. t.client) clients.items ≡ range_with_len 1 (length clients.items) }
    ensures ends { IfOk result (λ ends. AreSessionEnds S.StableRecord.finds B.table (length clients.items) ends.items) }
    ensures err { IfErr result (λ f. f ≡ RunFault.Memory) }
{
    let count = clients.len() as u32;
    let (sessions, fallen) = begin_all(rt, alloc, ballots, clients, book)?;
    let mut sessions = sessions;
    work_each(rt, alloc, sessions.as_mut_slice(), work);
    let ends = end_all(rt, alloc, fallen, sessions)?;
    let ends = in_order(alloc, count, ends)?;
    Ok(ends)
}

/// Works with the clients' sessions while each node runs in a thread of its own. Nodes end once all sessions are
/// gone. 914: memory was refused, or a thread couldn't be started; then those that were started have ended.
pub(crate) fn serve_threads<
    B: BookName + Send,
    K: Logs + Send,
    S: OwnRecord + Send,
    R: Threads + Wait + Copy + Send + Sync,
    J: Work + Sync,
>(
    rt: R,
    alloc: Global,
    ballots: BallotList,
    nodes: Vec<NodeTask<R>>,
    clients: Vec<SessionTask<S, R>>,
    book: &Mutex<Named<B, K>>,
    gate: &OpenGate,
    work: &J,
) -> Result<Served<S>, RunFault>
    requires nodes { All (λ task. IsNodeTask B.table task.node task.berth ((StableRecord-box task.stable).finds task.stable.value)) nodes.items }
    requires few { length clients.items ≤ MAX_CLIENTS }
    requires clients { All (λ t. IsClientBerth B.table t.client ballots t.berth (S.StableRecord.finds t.stable)) clients.items }
    requires all_clients { map (λ t. t.client) clients.items ≡ range_with_len 1 (length clients.items) }
    ensures nodes { IfOk result (λ served. AreNodeEnds (map (λ t. t.node) nodes.items) served.nodes.items) }
    ensures clients { IfOk result (λ served. AreSessionEnds S.StableRecord.finds B.table (length clients.items) served.clients.items) }
    ensures err { IfErr result (λ f. f ≡ RunFault.Memory) }
{
    thread::scope(
        thread::scope_env(),
        &rt,
        move |scope| -> Result<Served<S>, RunFault>
            requires cross { IsSend B.row × IsSend K.row × IsSend R.row × IsSync R.row × IsSend S.row × IsSync J.row }
            requires nodes { All (λ task. IsNodeTask B.table task.node task.berth ((StableRecord-box task.stable).finds task.stable.value)) nodes.items }
            requires few { length clients.items ≤ MAX_CLIENTS }
            requires clients { All (λ t. IsClientBerth B.table t.client ballots t.berth (S.StableRecord.finds t.stable)) clients.items }
            requires all_clients { map (λ t. t.client) clients.items ≡ range_with_len 1 (length clients.items) }
            ensures nodes { IfOk result (λ served. AreNodeEnds (map (λ t. t.node) nodes.items) served.nodes.items) }
            ensures clients { IfOk result (λ served. AreSessionEnds S.StableRecord.finds B.table (length clients.items) served.clients.items) }
            ensures err { IfErr result (λ f. f ≡ RunFault.Memory) }
        {
            let threads = start_nodes(scope, rt, alloc, nodes, book, gate)?;
            let clients = work_with(rt, alloc, ballots, clients, book, work)?;
            let nodes = join_nodes(&rt, threads)?;
            Ok(Served { nodes, clients })
        },
    )
}
