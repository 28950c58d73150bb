//! The journals of a node and of a client that ran over recorders of their own merge into one history.

ghost use Rattle.std.specs.Prelude.{◌≡◌, ◌≤◌};

use crate::worlds::ballots;
use crate::writers::Room;
use crate::{clients, nodes};
use journal_merger::{Failure as MergeFailure, Journals, JournalsFault, Outcome as Merge, merge};
use lock_model::Problem;
use std::alloc::Global;
use std::sync::Wait;
use test_outcomes::{Failure, Outcome, check_row};
use test_support::new_world;

/// The events of n1 and c1. Those of n1 come as soon as it can go on.
const HISTORY: &[u8] = b"\
rise n1 old
rise c1 old
begin c1 write a
try c1
kept c1
sayto c1 n1
take n1 1
try n1
kept n1
say n1
hear c1 2
enter c1
soften c1
sayto c1 n1
leave c1
sayto c1 n1
";

/// How many lines the two journals have.
const LINES: u64 = 16;

/// Out of memory, or a wrong fault.
fn failure_of(fault: JournalsFault, row: usize) -> Failure {
    match fault {
        JournalsFault::Memory => Failure::Memory,
        _ => Failure::Wrong(row),
    }
}

/// The journal of n1, which takes c1's request and grants it.
fn of_node<W: Wait>(rt: &W, alloc: Global) -> Result<Room, Failure> {
    let (ended, _, journal) = nodes::grants(rt, alloc, Room::of(alloc, nodes::JOURNAL.len())?)?;
    match ended {
        Ok(()) => Ok(journal),
        Err(_) => Err(Failure::Memory),
    }
}

/// The journal of c1, which is granted what it asks for.
fn of_client<W: Wait>(rt: &W, alloc: Global) -> Result<Room, Failure> {
    let (ended, journal) = clients::enters(rt, alloc, Room::of(alloc, clients::JOURNAL.len())?)?;
    match ended {
        Ok(()) => Ok(journal),
        Err(_) => Err(Failure::Memory),
    }
}

/// Merges two journals from the world in which n1 and c1 are down and have kept nothing.
fn merged(alloc: Global, first: &[u8], second: &[u8]) -> Result<(Merge, Room), Failure> {
    let mut journals = Journals::new(alloc);
    for journal in [first, second] {
        if let Err(fault) = journals.add(journal) {
            return Err(failure_of(fault, 1));
        }
    }
    let world = new_world(alloc, ballots()?, Problem::First, 1)?;
    let mut out = Room::of(alloc, 1_000)?;
    match merge(alloc, world, &mut journals, &mut out) {
        Ok(merge) => Ok((merge, out)),
        Err(MergeFailure { fault, .. }) => Err(failure_of(fault, 2)),
    }
}

#[test]
fn a_node_and_a_client(rt: HostRuntime) -> Outcome {
    let alloc = rt.alloc();
    let node = of_node(&rt, alloc)?;
    let client = of_client(&rt, alloc)?;
    let (merge, out) = merged(alloc, node.bytes.as_slice(), client.bytes.as_slice())?;
    check_row(merge == Merge::Merged(LINES), 3)?;
    check_row(out.bytes.as_slice() == HISTORY, 4)
}

/// Without the journal of the client that asked, nobody said what the node took.
#[test]
fn a_node_alone(rt: HostRuntime) -> Outcome {
    let alloc = rt.alloc();
    let node = of_node(&rt, alloc)?;
    let (merge, _) = merged(
        alloc,
        node.bytes.as_slice(),
        b"life c1 010000000000000000\n",
    )?;
    check_row(merge == Merge::Stuck(None), 1)
}
