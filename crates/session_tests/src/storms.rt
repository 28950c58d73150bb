// Services over links that lose, repeat and delay, whose sessions come in again and again.

ghost use Rattle.std.specs.Prelude.{◌≡◌};

use crate::programs::{Ended, run_in};
use event_recorders::{Recorder, SharedRecorder};
use lock_messages::{Mode, ResourceName};
use lock_session::{OwnRecord, Session};
use lossy_link::Link;
use node_threads::Work;
use std::alloc::Global;
use std::sync::Wait;
use std::sync::atomic::AtomicU32;
use std::sync::atomic::Ordering::SeqCst;
use std::thread::Threads;
use test_outcomes::{Outcome, check_row};
use test_support::resource;

/// How often each session comes in.
const VISITS: u32 = 12;

/// Each session comes in so often, every third time to write.
#[derive(Drop)]
struct InAndOut {
    name: ResourceName,
    entered: AtomicU32,
}

impl InAndOut {
    /// Comes in and leaves, and counts that.
    fn visit<W: Wait, S: OwnRecord, R: Recorder, L: Link>(
        &self,
        rt: &W,
        alloc: Global,
        session: &mut Session<S, R, L>,
        mode: Mode,
    )
        ensures { session.new.client ≡ session.old.client }
    {
        if session.ballots().count() < 1 {
            return;
        }
        if let Ok(guard) = session.enter(rt, alloc, mode, self.name, 1, 1_000) {
            self.entered.fetch_add(1, SeqCst);
            let _ = guard.leave(rt, alloc);
        }
    }
}

impl Work for InAndOut {
    fn work<W: Wait, S: OwnRecord, R: SharedRecorder, L: Link>(
        &self,
        rt: &W,
        alloc: Global,
        session: &mut Session<S, R, L>,
    ) {
        for visit in 0..VISITS {
            let mode = if visit % 3 == 0 {
                Mode::Write
            } else {
                Mode::Read
            };
            self.visit(rt, alloc, session, mode);
        }
    }
}

/// Ends the test unless in the storm of this seed each session comes in as often as it wants, nobody ends by a fault,
/// and the journal is sound.
fn storm<R: Threads + Wait + Copy + Send + Sync>(
    rt: R,
    alloc: Global,
    name: ResourceName,
    seed: u64,
) -> Outcome {
    let work = InAndOut {
        name,
        entered: AtomicU32::new(0),
    };
    let ended = run_in(rt, alloc, (seed, 200, 100, 100), &work)?;
    have_come(&ended, work.entered.load(SeqCst))
}

/// Ends the test unless so many came in as there are visits, and nobody ended by a fault.
fn have_come(ended: &Ended, entered: u32) -> Outcome {
    let all = 2 * VISITS;
    check_row(entered == all, 1)?;
    check_row(ended.end.entered == all && ended.end.faults.is_empty(), 2)
}

/// By five seeds.
#[test]
fn five_storms(rt: HostRuntime) -> Outcome {
    let name = resource(b"a")?;
    for seed in 1..6u64 {
        storm(rt, rt.alloc(), name, seed)?;
    }
    Ok(())
}
