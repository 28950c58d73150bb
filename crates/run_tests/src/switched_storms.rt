// Storms in which each node's problem is switched at each fiftieth post.

use crate::switched_actors::{Setting, run_switched};
use book_support::journal_of;
use lock_model::Problem;
use stable_record::Leaves;
use std::alloc::Global;
use std::sync::Wait;
use std::thread::Threads;
use test_outcomes::{Failure, Outcome, check_row};
use test_support::{Device, ballots_of, new_world, text_of, weather};

/// Eight clients of three nodes with a vote each, of which two read and two write.
const CLIENTS: u16 = 8;

/// The lines by which the nodes that are always asked take each problem; n3 may have too few posts.
const LINES: [&str; 4] = ["switch n1 1", "switch n1 2", "switch n2 1", "switch n2 2"];

/// Whether these lines are all in the journal.
fn are_switched(journal: &[u8]) -> Result<bool, Failure> {
    let text = text_of(journal)?;
    Ok(
        LINES
            .iter()
            .all(|wanted| text.lines().any(|line| line == *wanted)),
    )
}

/// Runs so many wishes of each client with every record on this device. All are entered, nobody ends by a
/// fault, and the journal, which is sound, has the switches.
fn storm<R: Threads + Wait + Copy + Send + Sync>(
    rt: R,
    alloc: Global,
    seed: u64,
    wishes: u32,
    device: Device,
) -> Outcome {
    let setting = Setting {
        wishes,
        device,
        weather: weather((seed, 200, 200, 200))?,
    };
    let ballots = ballots_of(&[1, 1, 1], 2, 2)?;
    let (book, entered) = run_switched(rt, alloc, ballots, CLIENTS, &setting)?;
    let opening = new_world(alloc, ballots, Problem::First, CLIENTS)?;
    let journal = journal_of(alloc, &book, opening)?;
    let all = wishes.wrapping_mul(u32::from(CLIENTS));
    check_row(entered == all && book.entered() == all, seed as usize)?;
    check_row(are_switched(journal.as_slice())?, seed as usize)
}

#[test]
fn a_storm_of_two_seeds(rt: HostRuntime) -> Outcome {
    for seed in 1..3u64 {
        storm(rt, rt.alloc(), seed, 12, Device::Memory)?;
    }
    Ok(())
}

#[test]
fn records_that_fail_and_leave_the_old(rt: HostRuntime) -> Outcome {
    for every in 2..5u32 {
        let device = Device::Faulty(every, Leaves::Old, 0);
        storm(rt, rt.alloc(), u64::from(every), 6, device)?;
    }
    Ok(())
}

#[test]
fn records_that_fail_and_leave_the_new(rt: HostRuntime) -> Outcome {
    for every in 2..5u32 {
        let device = Device::Faulty(every, Leaves::New, 0);
        storm(rt, rt.alloc(), u64::from(every), 6, device)?;
    }
    Ok(())
}
