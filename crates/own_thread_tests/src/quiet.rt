// Services in which no client waits for another, so that they end whichever request for memory is refused.

use crate::programs::{FAIR, run};
use event_recorders::{Recorder, RunFault};
use lock_messages::{Mode, ResourceName};
use lock_session::{OwnRecord, Session};
use lossy_link::Link;
use own_threads::OwnWork;
use std::alloc::Global;
use std::sync::Wait;
use std::sync::atomic::AtomicU32;
use std::sync::atomic::Ordering::SeqCst;
use test_outcomes::{Failure, Outcome, check_row};
use test_support::resource;

/// Each client does nothing.
#[derive(Drop)]
struct Rest {
    came: AtomicU32,
}

impl OwnWork for Rest {
    fn work<W: Wait, S: OwnRecord, R: Recorder, L: Link>(
        &self,
        rt: &W,
        alloc: Global,
        session: &mut Session<S, R, L>,
    ) {
        let _ = rt;
        let _ = alloc;
        let _ = session;
        self.came.fetch_add(1, SeqCst);
    }
}

#[test]
fn nobody_enters(rt: HostRuntime) -> Outcome {
    let work = Rest {
        came: AtomicU32::new(0),
    };
    run(rt, rt.alloc(), 2, FAIR, &work)?;
    check_row(work.came.load(SeqCst) == 2, 1)
}

/// The client writes once, and notes how that ends.
#[derive(Drop)]
struct WriteOnce {
    name: ResourceName,
    entered: AtomicU32,
    had_no_memory: AtomicU32,
}

impl OwnWork for WriteOnce {
    fn work<W: Wait, S: OwnRecord, R: Recorder, L: Link>(
        &self,
        rt: &W,
        alloc: Global,
        session: &mut Session<S, R, L>,
    ) {
        if session.ballots().count() < 1 {
            return;
        }
        match session.enter(rt, alloc, Mode::Write, self.name, 1, 1_000) {
            Ok(guard) => {
                self.entered.fetch_add(1, SeqCst);
                let _left = guard.leave(rt, alloc);
            }
            Err(RunFault::Memory) => {
                self.had_no_memory.fetch_add(1, SeqCst);
            }
            Err(_) => {}
        }
    }
}

#[test]
fn one_writer(rt: HostRuntime) -> Outcome {
    let work = WriteOnce {
        name: resource(b"a")?,
        entered: AtomicU32::new(0),
        had_no_memory: AtomicU32::new(0),
    };
    run(rt, rt.alloc(), 1, FAIR, &work)?;
    if work.had_no_memory.load(SeqCst) > 0 {
        return Err(Failure::Memory);
    }
    check_row(work.entered.load(SeqCst) == 1, 1)
}
