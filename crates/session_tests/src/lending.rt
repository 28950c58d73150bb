// Records that a program lends to its service: they are its own again, whatever becomes of the service.

ghost use Rattle.std.specs.Prelude.{◌≡◌, ◌∷◌, [], map, IfOk};
ghost use Rattle.stable_record.specs.Records.{client_record_of};

use crate::programs::{FAIR, node_records};
use crate::worlds::{ballots, world};
use event_recorders::SharedRecorder;
use lock_messages::{Mode, ResourceName};
use lock_session::{LentRecord, OwnRecord, Session};
use lossy_link::Link;
use node_threads::{Work, with_sessions};
use stable_record::{MemoryRecord, StableRecord, client_bytes, read_client};
use std::alloc::Global;
use std::sync::Wait;
use std::thread::Threads;
use test_outcomes::{Failure, Outcome, check_row};
use test_support::{in_memory, plain_pairs, resource, weather};

/// Each session writes once, in a resource of its own.
#[derive(Drop)]
struct WriteApart {
    first: ResourceName,
    second: ResourceName,
}

impl Work for WriteApart {
    fn work<W: Wait, S: OwnRecord, R: SharedRecorder, L: Link>(
        &self,
        rt: &W,
        alloc: Global,
        session: &mut Session<S, R, L>,
    ) {
        if session.ballots().count() < 1 {
            return;
        }
        let name = if session.client().get() == 1 {
            self.first
        } else {
            self.second
        };
        if let Ok(guard) = session.enter(rt, alloc, Mode::Write, name, 1, 1_000) {
            let _ = guard.leave(rt, alloc);
        }
    }
}

/// Both records, lent.
fn lent<'a>(
    alloc: Global,
    one: &'a mut MemoryRecord,
    other: &'a mut MemoryRecord,
) -> Result<Vec<LentRecord<'a, MemoryRecord>>, Failure>
    ensures { IfOk result (λ v. map (λ r. r.lent.now ∷ []) v.items ≡ (one.entry.now ∷ []) ∷ (other.entry.now ∷ []) ∷ []) }
{
    let mut records = Vec::new(alloc);
    records.push(LentRecord::of(one))?;
    records.push(LentRecord::of(other))?;
    Ok(records)
}

/// Runs the service over records that are lent, in which no attempt was kept; how many entries it had.
fn entries_of<R: Threads + Wait + Copy + Send + Sync, J: Work + Sync>(
    rt: R,
    alloc: Global,
    one: &mut MemoryRecord,
    other: &mut MemoryRecord,
    work: &J,
) -> Result<u32, Failure>
    requires one { one.old ≡ client_record_of 0 }
    requires other { other.old ≡ client_record_of 0 }
{
    let ballots = ballots()?;
    let nodes = node_records(alloc)?;
    let clients = lent(alloc, one, other)?;
    let pairs = plain_pairs(alloc, 1)?;
    let weather = weather(FAIR)?;
    let world = world(alloc, ballots)?;
    match with_sessions(
        rt, alloc, ballots, nodes, clients, world, pairs, weather, work,
    ) {
        Ok(end) if end.faults.is_empty() => Ok(end.entered),
        _ => Err(Failure::Memory),
    }
}

/// The attempt that was kept last.
fn attempt_in(record: &mut MemoryRecord) -> Result<u64, Failure> {
    let Ok(bytes) = record.reopen() else {
        return Err(Failure::Memory);
    };
    match read_client(bytes.as_slice()) {
        Ok(attempt) => Ok(attempt),
        Err(_) => Err(Failure::Wrong(0)),
    }
}

/// Each client makes its one attempt, and its owner finds it in the record. Where memory is refused the service
/// answers no record; the owner has both, with what was kept until then.
#[test]
fn lent_records_stay_their_owners(rt: HostRuntime) -> Outcome {
    let alloc = rt.alloc();
    let work = WriteApart {
        first: resource(b"a")?,
        second: resource(b"b")?,
    };
    let mut one = in_memory(alloc, &client_bytes(0))?;
    let mut other = in_memory(alloc, &client_bytes(0))?;
    let entries = entries_of(rt, alloc, &mut one, &mut other, &work);
    let made = (attempt_in(&mut one)?, attempt_in(&mut other)?);
    match entries {
        Ok(count) => check_row(count == 2 && made == (1, 1), 1),
        Err(failure) => {
            check_row(made.0 <= 1 && made.1 <= 1, 2)?;
            Err(failure)
        }
    }
}
