//! A node that ends since the list of messages is full.

use crate::programs::end_of;
use crate::worlds::ballots;
use event_recorders::{RunFault, SharedRecorder};
use lock_messages::{Actor, Mode, ResourceName};
use lock_session::{OwnRecord, Session};
use lossy_link::Link;
use node_threads::Work;
use std::alloc::Global;
use std::sync::Wait;
use std::thread::Threads;
use test_outcomes::{Failure, Outcome, check_answer, node_id};
use test_support::{resource, weather};

/// Of a thousand parcels 850 are lost. By this seed the message for which there is no room is a reply of the node:
/// 1,048,576 were sent before it.
const STORM: (u64, u16, u16, u16) = (6, 850, 0, 0);

/// The session of c1 comes in and leaves as long as the node answers; that of c2 does nothing.
#[derive(Drop)]
struct OnAndOn {
    name: ResourceName,
}

impl Work for OnAndOn {
    fn work<W: Wait, S: OwnRecord, R: SharedRecorder, L: Link>(
        &self,
        rt: &W,
        alloc: Global,
        session: &mut Session<S, R, L>,
    ) {
        if session.client().get() != 1 || session.ballots().count() < 1 {
            return;
        }
        for _ in 0..1_000_000u32 {
            let Ok(guard) = session.enter(rt, alloc, Mode::Write, self.name, 1, 1_000) else {
                return;
            };
            let _ = guard.leave(rt, alloc);
        }
    }
}

/// Whether the node, and nobody else, is reported, as one that ended since its book takes no more.
fn is_reported<R: Threads + Wait + Copy + Send + Sync>(
    rt: R,
    alloc: Global,
) -> Result<bool, Failure> {
    let work = OnAndOn {
        name: resource(b"a")?,
    };
    let end = end_of(rt, alloc, ballots()?, weather(STORM)?, &work)?;
    let mut right = end.faults.len() == 1;
    for (actor, fault) in &end.faults {
        right &= *actor == Actor::Node(node_id(1)) && *fault == RunFault::Book;
    }
    Ok(right)
}

/// 915: the node can't say its reply. The client finds it gone (912), and its session goes on.
#[test]
fn a_node_without_room_for_its_reply(rt: HostRuntime) -> Outcome {
    check_answer(Some(is_reported(rt, rt.alloc())?), 1)
}
