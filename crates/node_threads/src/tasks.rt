// What each thread is given.

ghost use Rattle.std.specs.Prelude.{◌≡◌};
ghost use Rattle.node_threads.specs.Ends.{IsNodeEnd, IsClientEnd};
ghost use Rattle.node_threads.specs.Tasks.{IsNodeTask, IsClientTask};

use crate::ends::{ClientEnd, NodeEnd};
use admission_policy::Pair;
use book_recorders::{BookName, BookRecorder, Logs, Named};
use client_loop::run_client;
use event_lines::Wish;
use event_recorders::Gate;
use history_book::Berth;
use lock_messages::{ClientId, NodeId};
use lossy_link::ChannelLink;
use node_loop::run_node;
use stable_record::StableRecord;
use std::alloc::Global;
use std::sync::{Mutex, Wait};
use vote_weights::BallotList;

/// What a node's thread is given.
#[derive(Drop)]
pub(crate) struct NodeTask<R: Wait + Copy> {
    pub(crate) node: NodeId,
    pub(crate) berth: Berth,
    pub(crate) stable: Box<dyn StableRecord + Send>,
    pub(crate) policies: Pair,
    pub(crate) link: ChannelLink<R>,
}

/// What a client's thread is given.
#[derive(Drop)]
pub(crate) struct ClientTask<R: Wait + Copy> {
    pub(crate) client: ClientId,
    pub(crate) ballots: BallotList,
    pub(crate) wishes: Vec<Wish>,
    pub(crate) berth: Berth,
    pub(crate) stable: Box<dyn StableRecord + Send>,
    pub(crate) link: ChannelLink<R>,
}

/// Runs a node, and answers how it ended.
pub(crate) fn do_node<B: BookName, K: Logs, R: Wait + Copy, G: Gate>(
    rt: R,
    alloc: Global,
    task: NodeTask<R>,
    book: &Mutex<Named<B, K>>,
    gate: &G,
) -> NodeEnd
    requires { IsNodeTask B.table task.node task.berth (finds task.stable) }
    ensures node { result.node ≡ task.node }
    ensures end { IsNodeEnd result }
{
    let NodeTask {
        node,
        berth,
        stable,
        policies,
        link,
    } = task;
    let mut link = link;
    let mut recorder = BookRecorder::of(rt, book, berth);
    match run_node(
        &rt,
        alloc,
        node,
        stable,
        policies,
        &mut recorder,
        &mut link,
        gate,
    ) {
        Ok(()) => NodeEnd { node, fault: None },
        Err(fault) => NodeEnd {
            node,
            fault: Some(fault),
        },
    }
}

/// Runs a client, and answers how it ended.
pub(crate) fn do_client<B: BookName, K: Logs, R: Wait + Copy, G: Gate>(
    rt: R,
    alloc: Global,
    task: ClientTask<R>,
    book: &Mutex<Named<B, K>>,
    gate: &G,
) -> ClientEnd
    requires { IsClientTask B.table task.client task.ballots task.wishes.items task.berth (finds task.stable) }
    ensures client { result.client ≡ task.client }
    ensures wishes { result.wishes.items ≡ task.wishes.items }
    ensures table { result.berth.table ≡ task.berth.table }
    ensures end { IsClientEnd result }
{
    let ClientTask {
        client,
        ballots,
        wishes,
        berth,
        stable,
        link,
    } = task;
    let mut link = link;
    let mut recorder = BookRecorder::of(rt, book, berth);
    let ended = run_client(
        &rt,
        alloc,
        client,
        ballots,
        wishes.as_slice(),
        stable,
        &mut recorder,
        &mut link,
        gate,
    );
    let berth = recorder.into_berth();
    match ended {
        Ok(entered) => ClientEnd {
            client,
            wishes,
            entered,
            fault: None,
            berth,
        },
        Err((entered, cause)) => ClientEnd {
            client,
            wishes,
            entered,
            fault: Some(cause),
            berth,
        },
    }
}
