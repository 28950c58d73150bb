// What each thread does.

ghost use Rattle.std.specs.Prelude.{◌≡◌, IfSome, IfNone};
ghost use Rattle.event_recorders.specs.OwnLogs.{FindsItsOwn, part_now};
ghost use Rattle.node_loop.specs.Standing.{IsIdleNode, IsNodeFault};
ghost use Rattle.own_threads.specs.Ends.{IsNodeEnd, IsClientEnd, RestsWith};
ghost use Rattle.own_threads.specs.Tasks.{IsNodeTask, IsClientTask};

use crate::beginnings::{Beginning, Begun};
use crate::ends::{ClientEnd, NodeEnd};
use crate::recorders::ActorRecorder;
use crate::tasks::{ClientTask, NodeTask};
use crate::works::OwnWork;
use admission_policy::Pair;
use lock_messages::{ClientId, NodeId};
use lock_session::{OpenGate, OwnRecord, Session};
use lossy_link::ChannelLink;
use node_loop::run_node;
use stable_record::StableRecord;
use std::alloc::Global;
use std::marker::Brand;
use std::sync::Wait;
use vote_weights::BallotList;

/// No policies: a node decides by the plain rule of its problem.
pub(crate) fn plain_rules() -> Pair {
    Pair {
        first: None,
        second: None,
    }
}

/// Runs the node whose recorder began so, and returns how it ended.
fn live_as_node<B: Beginning, N: ActorRecorder, R: Wait + Copy>(
    rt: R,
    alloc: Global,
    node: NodeId,
    recorder: N,
    stable: Box<dyn StableRecord + Send>,
    link: ChannelLink<R>,
) -> NodeEnd<N>
    requires began { N.beginning recorder ≡ B.beginning }
    requires task { IsNodeTask node (N.Recorder.own_log recorder) (finds stable) }
    ensures began { N.beginning result.recorder ≡ B.beginning }
    ensures fault { IfSome result.fault IsNodeFault }
    ensures idle { IfNone result.fault (IsIdleNode (part_now (N.Recorder.own_log result.recorder))) }
{
    let mut recorder = Begun::<B, N>::of(recorder);
    let mut link = link;
    let ended = run_node(
        &rt,
        alloc,
        node,
        stable,
        plain_rules(),
        &mut recorder,
        &mut link,
        &OpenGate,
    );
    NodeEnd {
        fault: ended.err(),
        recorder: recorder.into_recorder(),
    }
}

/// Runs a node, and returns how it ended.
pub(crate) fn do_node<N: ActorRecorder, R: Wait + Copy>(
    rt: R,
    alloc: Global,
    task: NodeTask<N, R>,
) -> NodeEnd<N>
    requires { IsNodeTask task.node (N.Recorder.own_log task.recorder) (finds task.stable) }
    ensures began { N.beginning result.recorder ≡ N.beginning task.recorder }
    ensures end { IsNodeEnd (N.Recorder.own_log result.recorder) (N.beginning result.recorder) result.fault }
{
    let NodeTask {
        node,
        recorder,
        stable,
        link,
    } = task;
    let end = live_as_node::<Brand, N, R>(rt, alloc, node, recorder, stable, link);
    end.recorder.show();
    end
}

/// Runs the client whose recorder began so: it rises, the work is done with its session, and it says what is left to say.
/// Returns how it ended.
fn live_as_client<B: Beginning, C: ActorRecorder, S: OwnRecord, R: Wait + Copy, J: OwnWork>(
    rt: R,
    alloc: Global,
    client: ClientId,
    ballots: BallotList,
    recorder: C,
    stable: S,
    link: ChannelLink<R>,
    work: &J,
) -> ClientEnd<C, S>
    requires began { C.beginning recorder ≡ B.beginning }
    requires task { IsClientTask client ballots (C.Recorder.own_log recorder) (S.StableRecord.finds stable) }
    ensures began { C.beginning result.recorder ≡ B.beginning }
    ensures own { FindsItsOwn (part_now (C.Recorder.own_log result.recorder)) (S.StableRecord.finds result.stable) }
    ensures rests { IfNone result.fault (RestsWith (part_now (C.Recorder.own_log result.recorder)) (S.StableRecord.finds result.stable)) }
{
    let recorder = Begun::<B, C>::of(recorder);
    let mut session = match Session::rise(client, ballots, stable, recorder, link) {
        Ok(session) => session,
        Err(back) => {
            return ClientEnd {
                fault: Some(back.fault),
                recorder: back.recorder.into_recorder(),
                stable: back.stable,
            };
        }
    };
    work.work(&rt, alloc, &mut session);
    let fault = session.settle(&rt, alloc).err();
    let (stable, recorder, _link) = session.into_parts();
    ClientEnd {
        fault,
        recorder: recorder.into_recorder(),
        stable,
    }
}

/// Runs a client with the work, and returns how it ended.
pub(crate) fn do_client<C: ActorRecorder, S: OwnRecord, R: Wait + Copy, J: OwnWork>(
    rt: R,
    alloc: Global,
    task: ClientTask<C, S, R>,
    work: &J,
) -> ClientEnd<C, S>
    requires { IsClientTask task.client task.ballots (C.Recorder.own_log task.recorder) (S.StableRecord.finds task.stable) }
    ensures began { C.beginning result.recorder ≡ C.beginning task.recorder }
    ensures end { IsClientEnd (C.Recorder.own_log result.recorder) (C.beginning result.recorder) result.fault (S.StableRecord.finds result.stable) }
{
    let ClientTask {
        client,
        ballots,
        recorder,
        stable,
        link,
    } = task;
    let end = live_as_client::<Brand, C, S, R, J>(
        rt, alloc, client, ballots, recorder, stable, link, work,
    );
    end.recorder.show();
    end
}
