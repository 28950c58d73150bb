// Programs whose sessions work in threads of their own, inside a service.

ghost use Rattle.std.specs.Prelude.{◌≡◌};

use crate::programs::{Ended, run_program};
use event_recorders::{Recorder, SharedRecorder};
use lock_messages::{Mode, ResourceName};
use lock_session::{OwnRecord, Session};
use lossy_link::Link;
use node_threads::Work;
use std::alloc::Global;
use std::mem::drop;
use std::sync::atomic::AtomicU32;
use std::sync::atomic::Ordering::SeqCst;
use std::sync::{Barrier, Wait};
use std::thread;
use std::thread::Threads;
use test_outcomes::{Outcome, check_row};
use test_support::{place_of, resource, text_of};

/// At which nudge a session gives up; no nudge comes in this weather.
const NUDGES: u32 = 1_000;

/// How often one looks whether the other has come in, who has to wait.
const LOOKS: u32 = 1_000;

/// Each session reads, and waits inside for the other one. The first leaves, and the other drops its guard.
#[derive(Drop)]
struct ReadTogether {
    name: ResourceName,
    meet: Barrier,
    inside: AtomicU32,
    seen: AtomicU32,
}

impl ReadTogether {
    /// Reads, and is inside until each session's thread has come here; whether it was inside.
    fn read<W: Wait, S: OwnRecord, R: Recorder, L: Link>(
        &self,
        rt: &W,
        alloc: Global,
        session: &mut Session<S, R, L>,
    ) -> bool
        ensures { session.new.client ≡ session.old.client }
    {
        let leaves = session.client().get() == 1;
        if session.ballots().count() < 1 {
            self.meet.wait(rt);
            return false;
        }
        match session.enter(rt, alloc, Mode::Read, self.name, 1, NUDGES) {
            Ok(guard) => {
                self.meet.wait(rt);
                if leaves {
                    return guard.leave(rt, alloc).is_ok();
                }
                drop(guard);
                true
            }
            Err(_) => {
                self.meet.wait(rt);
                false
            }
        }
    }
}

impl Work for ReadTogether {
    fn work<W: Wait, S: OwnRecord, R: SharedRecorder, L: Link>(
        &self,
        rt: &W,
        alloc: Global,
        session: &mut Session<S, R, L>,
    ) {
        if let Ok(tickets) = session.inside(&self.name) {
            if !tickets.is_empty() {
                self.seen.fetch_add(1, SeqCst);
            }
        }
        if self.read(rt, alloc, session) {
            self.inside.fetch_add(1, SeqCst);
        }
    }
}

/// Two lines of a journal, the one that stands first before the other.
type InOrder = (&'static str, &'static str);

/// Ends the test unless these lines are in their order.
fn are_in_order(journal: &[u8], lines: &[InOrder]) -> Outcome {
    let journal = text_of(journal)?;
    for (first, then) in lines {
        check_row(place_of(journal, first)? < place_of(journal, then)?, 5)?;
    }
    Ok(())
}

/// Ends the test unless both entered, nobody ended by a fault, both records came back in order, this holds of the
/// work, and these lines of the journal are in their order.
fn have_ended(ended: &Ended, holds: bool, lines: &[InOrder]) -> Outcome {
    let end = &ended.end;
    check_row(end.entered == 2 && end.faults.is_empty(), 1)?;
    check_row(end.records.len() == 2, 2)?;
    for place in 0..end.records.len() {
        check_row(end.records[place].0.get() as usize == place + 1, 3)?;
    }
    check_row(holds, 4)?;
    are_in_order(ended.journal.as_slice(), lines)
}

/// Each reader enters before either leaves.
const BOTH_READ: [InOrder; 4] = [
    ("enter c1", "leave c1"),
    ("enter c1", "leave c2"),
    ("enter c2", "leave c1"),
    ("enter c2", "leave c2"),
];

/// Two sessions in two threads hold read locks at once. One leaves; for the other, whose guard is dropped, the
/// service says so.
#[test]
fn two_readers_at_once(rt: HostRuntime) -> Outcome {
    let work = ReadTogether {
        name: resource(b"a")?,
        meet: Barrier::new(2),
        inside: AtomicU32::new(0),
        seen: AtomicU32::new(0),
    };
    let ended = run_program(rt, rt.alloc(), &work)?;
    let holds = work.inside.load(SeqCst) == 2 && work.seen.load(SeqCst) < 2;
    have_ended(&ended, holds, &BOTH_READ)
}

/// The first session reads, and the second one wants to write beside it.
#[derive(Drop)]
struct ReadAndWrite {
    name: ResourceName,
    begun: Barrier,
    wrote: AtomicU32,
    early: AtomicU32,
    /// Whether the reader's session calls again before its work is done.
    calls: bool,
}

impl ReadAndWrite {
    /// Nothing has happened yet.
    fn new(name: ResourceName, calls: bool) -> ReadAndWrite {
        ReadAndWrite {
            name,
            begun: Barrier::new(2),
            wrote: AtomicU32::new(0),
            early: AtomicU32::new(0),
            calls,
        }
    }

    /// Looks so often whether the writer has come in, and counts it if it has.
    fn look(&self) {
        for _ in 0..LOOKS {
            thread::yield_now();
        }
        if self.wrote.load(SeqCst) > 0 {
            self.early.fetch_add(1, SeqCst);
        }
    }

    /// Reads, lets the writer begin, and looks whether it comes in: while the guard lives, and once it is dropped.
    /// Then the session calls again, or its work is done.
    fn read_first<W: Wait, S: OwnRecord, R: Recorder, L: Link>(
        &self,
        rt: &W,
        alloc: Global,
        session: &mut Session<S, R, L>,
    )
        ensures { session.new.client ≡ session.old.client }
    {
        if session.ballots().count() < 1 {
            self.begun.wait(rt);
            return;
        }
        match session.enter(rt, alloc, Mode::Read, self.name, 1, NUDGES) {
            Ok(guard) => {
                self.begun.wait(rt);
                self.look();
                drop(guard);
                self.look();
            }
            Err(_) => {
                self.begun.wait(rt);
            }
        }
        if self.calls {
            let _ = session.settle(rt, alloc);
        }
    }

    /// Writes, once the reader is inside.
    fn write_then<W: Wait, S: OwnRecord, R: Recorder, L: Link>(
        &self,
        rt: &W,
        alloc: Global,
        session: &mut Session<S, R, L>,
    )
        ensures { session.new.client ≡ session.old.client }
    {
        self.begun.wait(rt);
        if session.ballots().count() < 1 {
            return;
        }
        if let Ok(guard) = session.enter(rt, alloc, Mode::Write, self.name, 1, NUDGES) {
            self.wrote.fetch_add(1, SeqCst);
            let _ = guard.leave(rt, alloc);
        }
    }
}

impl Work for ReadAndWrite {
    fn work<W: Wait, S: OwnRecord, R: SharedRecorder, L: Link>(
        &self,
        rt: &W,
        alloc: Global,
        session: &mut Session<S, R, L>,
    ) {
        if session.client().get() == 1 {
            self.read_first(rt, alloc, session);
        } else {
            self.write_then(rt, alloc, session);
        }
    }
}

/// The reader leaves before the writer enters.
const READ_FIRST: [InOrder; 2] = [("enter c1", "leave c1"), ("leave c1", "enter c2")];

/// The reader comes in first, and the writer when the reader is out.
fn come_in_turn<R: Threads + Wait + Copy + Send + Sync>(
    rt: R,
    alloc: Global,
    work: &ReadAndWrite,
) -> Outcome {
    let ended = run_program(rt, alloc, work)?;
    let holds = work.wrote.load(SeqCst) == 1 && work.early.load(SeqCst) == 0;
    have_ended(&ended, holds, &READ_FIRST)
}

/// A writer waits until the reader's guard is dropped and its session calls again, which says the Leave.
#[test]
fn writer_waits_for_the_next_call(rt: HostRuntime) -> Outcome {
    come_in_turn(rt, rt.alloc(), &ReadAndWrite::new(resource(b"a")?, true))
}

/// A reader whose work is done with a guard dropped keeps nobody waiting: its service says the Leave.
#[test]
fn writer_waits_for_the_end_of_a_work(rt: HostRuntime) -> Outcome {
    come_in_turn(rt, rt.alloc(), &ReadAndWrite::new(resource(b"a")?, false))
}
