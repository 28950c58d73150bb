// Auditing a journal from a world in which all are down.

use journal_audit::{AuditFault, Verdict, audit};
use lock_model::Problem;
use std::alloc::Global;
use std::io::Read;
use test_outcomes::Failure;
use test_support::{ballots_of, new_world};
use world_machine::World;

/// A world of three nodes with a vote each, of which two read and two write, under this problem, and of
/// four clients.
fn world_under(alloc: Global, problem: Problem) -> Result<World, Failure> {
    new_world(alloc, ballots_of(&[1, 1, 1], 2, 2)?, problem, 4)
}

/// The same under problem 1.
pub(crate) fn world(alloc: Global) -> Result<World, Failure> {
    world_under(alloc, Problem::First)
}

/// What is written of the bytes of a reader. A `Vec` takes what is written unless memory is refused.
pub(crate) fn audited<R: Read + Drop>(alloc: Global, reader: R) -> Result<Vec<u8>, Failure> {
    audited_under(alloc, Problem::First, reader)
}

/// The same in a world under this problem.
pub(crate) fn audited_under<R: Read + Drop>(
    alloc: Global,
    problem: Problem,
    reader: R,
) -> Result<Vec<u8>, Failure> {
    let world = world_under(alloc, problem)?;
    let mut out = Vec::new(alloc);
    match audit(alloc, world, reader, &mut out) {
        Ok(_) => Ok(out),
        Err(AuditFault::Memory | AuditFault::Write) => Err(Failure::Memory),
        Err(_) => Err(Failure::Wrong(0)),
    }
}

/// What is found of the bytes of a reader that may fail.
pub(crate) fn found<R: Read + Drop>(
    alloc: Global,
    reader: R,
) -> Result<Result<Verdict, AuditFault>, Failure> {
    let world = world(alloc)?;
    let mut out = Vec::new(alloc);
    match audit(alloc, world, reader, &mut out) {
        Err(AuditFault::Memory | AuditFault::Write) => Err(Failure::Memory),
        found => Ok(found),
    }
}
