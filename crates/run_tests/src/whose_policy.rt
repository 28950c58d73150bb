//! Each node of a run decides by the pair of policies that it was given, in order.

use crate::gates::OpenGate;
use crate::rows::{PLAIN, Row, is_right, run_row_by};
use admission_policy::{Admission, FirstProblem, Pair, SecondProblem};
use std::alloc::Global;
use std::sync::atomic::{AtomicU64, Ordering};
use std::sync::{Arc, Wait};
use std::thread::Threads;
use test_outcomes::{Failure, Outcome, check_row};
use told_policies::Telling;

/// Policies that add this weight to a cell for each reader that is admitted under problem 1, and else a thousand times
/// as much.
fn telling(alloc: Global, weight: u64, cell: &Arc<AtomicU64>) -> Result<Pair, Failure> {
    let other = weight.saturating_mul(1_000);
    let first = Telling::of(FirstProblem, weight, other, cell)?;
    let second = Telling::of(SecondProblem, other, other, cell)?;
    let first: Box<dyn Admission + Send> = Box::new(alloc, first)?;
    let second: Box<dyn Admission + Send> = Box::new(alloc, second)?;
    Ok(Pair::of(first, second))
}

/// Three such pairs, of the weights 1, 10 and 100.
fn telling_pairs(alloc: Global, cell: &Arc<AtomicU64>) -> Result<Vec<Pair>, Failure> {
    let mut pairs = Vec::new(alloc);
    for weight in [1u64, 10, 100] {
        pairs.push(telling(alloc, weight, cell)?)?;
    }
    Ok(pairs)
}

/// A reader that asks n1 alone, one that asks n1 and n2, and one that asks all: the votes, how many it needs, and what
/// the policies tell.
const ROWS: [(&[u8], u16, u64); 3] = [
    (&[3, 1, 1], 3, 1),
    (&[1, 3, 1], 4, 11),
    (&[1, 1, 3], 5, 111),
];

/// Ends the test unless one reader that needs so many of these votes tells just this.
fn tells<R: Threads + Wait + Copy + Send>(
    rt: R,
    alloc: Global,
    votes: &[u8],
    needs: u16,
    told: u64,
) -> Outcome {
    let cell = Arc::new(alloc, AtomicU64::new(0))?;
    let row = Row {
        votes,
        read: needs,
        write: needs,
        wishes: &[b"c1 read a"],
        entered: 1,
        ..PLAIN
    };
    let seen = run_row_by(rt, alloc, &row, telling_pairs(alloc, &cell)?, &OpenGate)?;
    is_right(&seen, &row)?;
    check_row(cell.load(Ordering::SeqCst) == told, needs as usize)
}

#[test]
fn policies_of_a_run(rt: HostRuntime) -> Outcome {
    for (votes, needs, told) in ROWS {
        tells(rt, rt.alloc(), votes, needs, told)?;
    }
    Ok(())
}
