// Runs over devices that fail.

use crate::gates::OpenGate;
use crate::rows::{Ends, PLAIN, Row, goes, is_right, run_row};
use event_recorders::RunFault;
use stable_record::Leaves;
use std::alloc::Global;
use std::sync::Wait;
use std::thread::Threads;
use test_outcomes::{Outcome, check_row};
use test_support::{Device, text_of};

/// A device whose first three reopens fail.
const NOT_REOPENED: Device = Device::Faulty(1000, Leaves::Old, 3);

/// A plate whose opening, whose reopening and whose first keep take the twelve calls that go well.
const NOT_KEPT_TWICE: Device = Device::Plate(13);

/// Runs a writer and a reader with every record on a device that fails at every second keep, at every third, and so
/// on. Each reopen goes well, so no node ends, and both clients enter.
fn fails<R: Threads + Wait + Copy + Send>(rt: R, alloc: Global, leaves: Leaves) -> Outcome {
    for every in 2..6u32 {
        let device = Device::Faulty(every, leaves, 0);
        let row = Row {
            wishes: &[b"c1 write a", b"c2 read a"],
            devices: &[device; 3],
            of_clients: device,
            entered: 2,
            number: every as usize,
            ..PLAIN
        };
        goes(rt, alloc, &row, &OpenGate)?;
    }
    Ok(())
}

#[test]
fn every_record_fails_and_leaves_the_old(rt: HostRuntime) -> Outcome {
    fails(rt, rt.alloc(), Leaves::Old)
}

#[test]
fn every_record_fails_and_leaves_the_new(rt: HostRuntime) -> Outcome {
    fails(rt, rt.alloc(), Leaves::New)
}

/// Ends the test if a line of the journal is n1's.
fn has_not_started(journal: &[u8]) -> Outcome {
    let mut has_lines = false;
    for line in text_of(journal)?.lines() {
        has_lines |= line.split(' ').nth(1) == Some("n1");
    }
    check_row(!has_lines, 3)
}

const A_NODE_THAT_CANNOT_START: Row<'static> = Row {
    wishes: &[b"c1 read a"],
    devices: &[NOT_REOPENED, Device::Memory, Device::Memory],
    entered: 1,
    faults: &[Ends::Node(1, RunFault::NotReopened)],
    ..PLAIN
};

#[test]
fn a_node_that_cannot_start(rt: HostRuntime) -> Outcome {
    let seen = run_row(rt, rt.alloc(), &A_NODE_THAT_CANNOT_START, &OpenGate)?;
    is_right(&seen, &A_NODE_THAT_CANNOT_START)?;
    has_not_started(seen.journal.as_slice())
}

const A_WRITER_LACKS_A_NODE: Row<'static> = Row {
    read: 1,
    write: 3,
    wishes: &[b"c1 write a", b"c2 read a"],
    devices: &[Device::Memory, Device::Memory, NOT_REOPENED],
    entered: 1,
    faults: &[
        Ends::Node(3, RunFault::NotReopened),
        Ends::Client(1, RunFault::TooFewNodes),
    ],
    ..PLAIN
};

#[test]
fn a_writer_lacks_a_node(rt: HostRuntime) -> Outcome {
    goes(rt, rt.alloc(), &A_WRITER_LACKS_A_NODE, &OpenGate)
}

const A_PLATE_FAILS: Row<'static> = Row {
    wishes: &[b"c1 read a"],
    devices: &[NOT_KEPT_TWICE, Device::Plate(0), Device::Plate(0)],
    of_clients: Device::Plate(0),
    entered: 1,
    faults: &[Ends::Node(1, RunFault::NotReopened)],
    lines: &[("kept n1", "kept n1\n")],
    ..PLAIN
};

#[test]
fn a_plate_fails(rt: HostRuntime) -> Outcome {
    goes(rt, rt.alloc(), &A_PLATE_FAILS, &OpenGate)
}
