// Runs in which a writer softens and lets a reader in.

use crate::gates::{OpenGate, SoftensTogether, TURNS};
use crate::rows::{PLAIN, Row, Seen, goes, has_lines, run_row};
use stable_record::Leaves;
use std::alloc::Global;
use std::ops::Range;
use std::rt::Clock;
use std::sync::Wait;
use std::thread::Threads;
use test_outcomes::{Failure, Outcome, check_row};
use test_support::{Device, text_of};

/// A writer that softens, and a reader. Both enter.
const BOTH_ENTER: Row<'static> = Row {
    wishes: &[b"c1 soften a", b"c2 read a"],
    entered: 2,
    number: 0,
    ..PLAIN
};

/// c1 enters and softens, and c2 enters before c1 leaves.
const BOTH_INSIDE: Row<'static> = Row {
    order: &[
        ("enter c1", "soften c1"),
        ("soften c1", "enter c2"),
        ("enter c2", "leave c1"),
    ],
    ..BOTH_ENTER
};

/// Runs a row, in which each Soften arrives. Both are inside at once.
fn meets<R: Clock + Threads + Wait + Copy + Send + Sync>(
    rt: R,
    alloc: Global,
    row: &Row<'_>,
) -> Outcome {
    let gate = SoftensTogether::of(rt, TURNS);
    goes(rt, alloc, row, &gate)?;
    check_row(gate.came() == (1, 1, 1, 0), row.number)
}

#[test]
fn both_inside_at_once(rt: HostRuntime) -> Outcome {
    meets(rt, rt.alloc(), &BOTH_INSIDE)
}

const FEWER_VOTES_TO_WRITE: Row<'static> = Row {
    votes: &[3, 1, 1],
    read: 4,
    write: 3,
    ..BOTH_INSIDE
};

/// A writer needs three votes, which n1 has, and a reader four. Who softened stays inside by its writer's votes.
#[test]
fn fewer_votes_to_write(rt: HostRuntime) -> Outcome {
    meets(rt, rt.alloc(), &FEWER_VOTES_TO_WRITE)
}

/// What stands between the Soften and the Leave of c1.
fn inside(journal: &str) -> Option<&str> {
    let (_, behind) = journal.split_once("\nsoften c1\n")?;
    let (inside, _) = behind.split_once("\nleave c1\n")?;
    Some(inside)
}

/// Ends the test unless c1 entered, one actor ended by a fault, and inside c1 told n2 and n3 alone.
fn are_told(seen: &Seen) -> Outcome {
    check_row(seen.end.entered == 1 && seen.end.faults.len() == 1, 1)?;
    let Some(inside) = inside(text_of(seen.journal.as_slice())?) else {
        return Err(Failure::Wrong(0));
    };
    let told = "sayto c1 n2\nsayto c1 n3\n";
    check_row(has_lines(inside, "sayto c1 ", told), 2)
}

const WHO_IS_TOLD: Row<'static> = Row {
    wishes: &[b"c1 soften a"],
    devices: &[
        Device::Faulty(1000, Leaves::Old, 3),
        Device::Memory,
        Device::Memory,
    ],
    ..PLAIN
};

/// The nodes that granted are told, and none that was asked in vain: n1 can't start.
#[test]
fn who_is_told(rt: HostRuntime) -> Outcome {
    let seen = run_row(rt, rt.alloc(), &WHO_IS_TOLD, &OpenGate)?;
    are_told(&seen)
}

/// Both are inside at once with every record on a device that fails at every so many keeps.
fn all_meet<R: Clock + Threads + Wait + Copy + Send + Sync>(
    rt: R,
    alloc: Global,
    keeps: Range<u32>,
    leaves: Leaves,
) -> Outcome {
    for every in keeps {
        let device = Device::Faulty(every, leaves, 0);
        let row = Row {
            devices: &[device; 3],
            of_clients: device,
            number: every as usize,
            ..BOTH_INSIDE
        };
        meets(rt, alloc, &row)?;
    }
    Ok(())
}

/// What a node decided is found, also where its keep failed. So c2, which is nudged then, gets in.
#[test]
fn records_that_leave_the_new(rt: HostRuntime) -> Outcome {
    all_meet(rt, rt.alloc(), 2..6, Leaves::New)
}

/// No node softens or grants behind its third keep before both are inside.
#[test]
fn records_that_leave_the_old_late(rt: HostRuntime) -> Outcome {
    all_meet(rt, rt.alloc(), 4..6, Leaves::Old)
}

/// How often c1 looks whether c2 has come, where it may not come.
const FEW_TURNS: u32 = 100;

/// A Soften is said once, and lost where the node's keep fails. So c1 may wait in vain; the writer's vote is
/// free once it has left.
#[test]
fn records_that_leave_the_old(rt: HostRuntime) -> Outcome {
    for every in 2..4u32 {
        let device = Device::Faulty(every, Leaves::Old, 0);
        let row = Row {
            devices: &[device; 3],
            of_clients: device,
            number: every as usize,
            ..BOTH_ENTER
        };
        let gate = SoftensTogether::of(rt, FEW_TURNS);
        goes(rt, rt.alloc(), &row, &gate)?;
        let (writing, softened, reading, _) = gate.came();
        check_row((writing, softened, reading) == (1, 1, 1), row.number)?;
    }
    Ok(())
}
