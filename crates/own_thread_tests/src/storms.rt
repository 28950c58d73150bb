// Links that lose, repeat and delay, and clients that come in again and again.

use crate::programs::run;
use event_recorders::Recorder;
use lock_messages::{Mode, ResourceName};
use lock_session::{OwnRecord, Session};
use lossy_link::Link;
use own_threads::OwnWork;
use std::alloc::Global;
use std::sync::Wait;
use std::sync::atomic::AtomicU32;
use std::sync::atomic::Ordering::SeqCst;
use test_outcomes::{Outcome, check_row};
use test_support::resource;

/// How often each client comes in.
const VISITS: u32 = 12;

/// Each client comes in so often, every third time to write.
#[derive(Drop)]
struct InAndOut {
    name: ResourceName,
    entered: AtomicU32,
}

impl OwnWork for InAndOut {
    fn work<W: Wait, S: OwnRecord, R: Recorder, L: Link>(
        &self,
        rt: &W,
        alloc: Global,
        session: &mut Session<S, R, L>,
    ) {
        for visit in 0..VISITS {
            let mode = if visit % 3 == 0 {
                Mode::Write
            } else {
                Mode::Read
            };
            if session.ballots().count() < 1 {
                return;
            }
            if let Ok(guard) = session.enter(rt, alloc, mode, self.name, 1, 1_000) {
                self.entered.fetch_add(1, SeqCst);
                let _left = guard.leave(rt, alloc);
            }
        }
    }
}

/// By five seeds three clients come in as often as they want.
#[test]
fn five_storms(rt: HostRuntime) -> Outcome {
    for seed in 1..6u64 {
        let work = InAndOut {
            name: resource(b"a")?,
            entered: AtomicU32::new(0),
        };
        run(rt, rt.alloc(), 3, (seed, 200, 100, 100), &work)?;
        check_row(work.entered.load(SeqCst) == 3 * VISITS, 1)?;
    }
    Ok(())
}
