// Two readers that are inside one resource at the same time.

use crate::programs::{FAIR, run};
use event_recorders::Recorder;
use lock_messages::{Mode, ResourceName};
use lock_session::{OwnRecord, Session};
use lossy_link::Link;
use own_threads::OwnWork;
use std::alloc::Global;
use std::sync::atomic::AtomicU32;
use std::sync::atomic::Ordering::SeqCst;
use std::sync::{Barrier, Wait};
use test_outcomes::{Outcome, check_row};
use test_support::resource;

/// Each client reads, and waits inside until both are.
#[derive(Drop)]
struct ReadTogether {
    name: ResourceName,
    both: Barrier,
    met: AtomicU32,
}

impl OwnWork for ReadTogether {
    fn work<W: Wait, S: OwnRecord, R: Recorder, L: Link>(
        &self,
        rt: &W,
        alloc: Global,
        session: &mut Session<S, R, L>,
    ) {
        if session.ballots().count() < 1 {
            return;
        }
        if let Ok(guard) = session.enter(rt, alloc, Mode::Read, self.name, 1, 1_000) {
            self.both.wait(rt);
            self.met.fetch_add(1, SeqCst);
            let _left = guard.leave(rt, alloc);
        }
    }
}

#[test]
fn two_readers(rt: HostRuntime) -> Outcome {
    let work = ReadTogether {
        name: resource(b"a")?,
        both: Barrier::new(2),
        met: AtomicU32::new(0),
    };
    run(rt, rt.alloc(), 2, FAIR, &work)?;
    check_row(work.met.load(SeqCst) == 2, 1)
}
