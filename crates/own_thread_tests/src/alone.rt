// Writers of one resource, of which each is alone while it is inside.

use crate::programs::{FAIR, run};
use event_recorders::Recorder;
use lock_messages::{Mode, ResourceName};
use lock_session::{OwnRecord, Session};
use lossy_link::Link;
use own_threads::OwnWork;
use std::alloc::Global;
use std::sync::Wait;
use std::sync::atomic::AtomicU32;
use std::sync::atomic::Ordering::SeqCst;
use std::thread;
use test_outcomes::{Outcome, check_row};
use test_support::resource;

/// How often each client comes in.
const VISITS: u32 = 25;

/// Each client writes so often. It counts who is inside, who met another there, and who came in.
#[derive(Drop)]
struct WriteAlone {
    name: ResourceName,
    inside: AtomicU32,
    met: AtomicU32,
    entered: AtomicU32,
}

impl OwnWork for WriteAlone {
    fn work<W: Wait, S: OwnRecord, R: Recorder, L: Link>(
        &self,
        rt: &W,
        alloc: Global,
        session: &mut Session<S, R, L>,
    ) {
        for _ in 0..VISITS {
            if session.ballots().count() < 1 {
                return;
            }
            if let Ok(guard) = session.enter(rt, alloc, Mode::Write, self.name, 1, 1_000) {
                if self.inside.fetch_add(1, SeqCst) > 0 {
                    self.met.fetch_add(1, SeqCst);
                }
                thread::yield_now();
                self.inside.fetch_sub(1, SeqCst);
                self.entered.fetch_add(1, SeqCst);
                let _left = guard.leave(rt, alloc);
            }
        }
    }
}

/// Four clients come in as often as they want, and no two at once.
#[test]
fn four_writers(rt: HostRuntime) -> Outcome {
    let work = WriteAlone {
        name: resource(b"a")?,
        inside: AtomicU32::new(0),
        met: AtomicU32::new(0),
        entered: AtomicU32::new(0),
    };
    run(rt, rt.alloc(), 4, FAIR, &work)?;
    check_row(work.entered.load(SeqCst) == 4 * VISITS, 1)?;
    check_row(work.met.load(SeqCst) == 0, 2)
}
