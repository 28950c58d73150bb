// Clients that ask several nodes at once first, and want one resource.

use crate::programs::{FAIR, run};
use event_recorders::Recorder;
use lock_messages::{Mode, ResourceName};
use lock_session::{Crowd, LOCKS_IN_TURN, OwnRecord, Session};
use lossy_link::Link;
use own_threads::OwnWork;
use std::alloc::Global;
use std::sync::Wait;
use std::sync::atomic::AtomicU32;
use std::sync::atomic::Ordering::SeqCst;
use test_outcomes::{Outcome, check_row};
use test_support::resource;

/// How often each client writes.
const VISITS: u32 = 24;

/// Each client writes so often, and counts who is inside with it.
#[derive(Drop)]
struct Write {
    name: ResourceName,
    inside: AtomicU32,
    alone: AtomicU32,
}

impl OwnWork for Write {
    fn work<W: Wait, S: OwnRecord, R: Recorder, L: Link>(
        &self,
        rt: &W,
        alloc: Global,
        session: &mut Session<S, R, L>,
    ) {
        let mut crowd = Crowd::none();
        for _ in 0..VISITS {
            if session.ballots().count() < 1 {
                return;
            }
            let entered = session.enter_soon(
                rt,
                alloc,
                Mode::Write,
                self.name,
                1,
                1_000,
                &mut crowd,
            );
            if let Ok(guard) = entered {
                if self.inside.fetch_add(1, SeqCst) == 0 {
                    self.alone.fetch_add(1, SeqCst);
                }
                self.inside.fetch_sub(1, SeqCst);
                let _left = guard.leave(rt, alloc);
            }
        }
    }
}

/// Three writers of one resource come in as often as they want, and each is alone, in good weather and in bad.
#[test]
fn three_writers_that_ask_at_once(rt: HostRuntime) -> Outcome {
    for odds in [FAIR, (2, 200, 100, 100)] {
        let work = Write {
            name: resource(b"a")?,
            inside: AtomicU32::new(0),
            alone: AtomicU32::new(0),
        };
        run(rt, rt.alloc(), 3, odds, &work)?;
        check_row(work.alone.load(SeqCst) == 3 * VISITS, 1)?;
    }
    Ok(())
}

/// A client that had to wait asks one node after another for its next sixteen locks.
#[test]
fn sixteen_locks_in_turn() -> Outcome {
    let mut crowd = Crowd::none();
    check_row(crowd.asks_at_once(), 1)?;
    check_row(crowd.asks_at_once(), 2)?;
    crowd.note();
    for _ in 0..16 {
        check_row(!crowd.asks_at_once(), 3)?;
    }
    check_row(crowd.asks_at_once() && LOCKS_IN_TURN == 16, 4)
}
