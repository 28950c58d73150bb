// A guard that is dropped, and a client that ends while others wait.

use crate::programs::{FAIR, run};
use event_recorders::Recorder;
use lock_messages::{Mode, ResourceName};
use lock_session::{OwnRecord, Session};
use lossy_link::Link;
use own_threads::OwnWork;
use std::alloc::Global;
use std::sync::Wait;
use std::sync::atomic::AtomicU32;
use std::sync::atomic::Ordering::SeqCst;
use test_outcomes::{Outcome, check_row};
use test_support::resource;

/// Each client writes once, and drops its guard as its last act.
#[derive(Drop)]
struct WriteAndGo {
    name: ResourceName,
    entered: AtomicU32,
}

impl OwnWork for WriteAndGo {
    fn work<W: Wait, S: OwnRecord, R: Recorder, L: Link>(
        &self,
        rt: &W,
        alloc: Global,
        session: &mut Session<S, R, L>,
    ) {
        if session.ballots().count() < 1 {
            return;
        }
        if session
            .enter(rt, alloc, Mode::Write, self.name, 1, 1_000)
            .is_ok()
        {
            self.entered.fetch_add(1, SeqCst);
        }
    }
}

/// What a dropped guard has left to say is said when the work is done, so all eight come in.
#[test]
fn all_guards_dropped(rt: HostRuntime) -> Outcome {
    let work = WriteAndGo {
        name: resource(b"a")?,
        entered: AtomicU32::new(0),
    };
    run(rt, rt.alloc(), 8, FAIR, &work)?;
    check_row(work.entered.load(SeqCst) == 8, 1)
}
