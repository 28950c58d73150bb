// Three pairs of policies that can be told apart.

use admission_policy::{Admission, Counted, FirstProblem, Pair, SecondProblem};
use lock_model::Problem;
use std::alloc::Global;
use std::sync::Arc;
use std::sync::atomic::AtomicU64;
use test_outcomes::Failure;
use told_policies::Telling;

/// Policies that count, and that were told of so many readers: let in under problem 1, and waiting under
/// problem 2.
fn told(alloc: Global, readers: u64) -> Result<Pair, Failure> {
    let first: Box<dyn Admission + Send> = Box::new(alloc, Counted::of(FirstProblem))?;
    let second: Box<dyn Admission + Send> = Box::new(alloc, Counted::of(SecondProblem))?;
    let mut pair = Pair::of(first, second);
    for _ in 0..readers {
        pair.note(Problem::First, true);
        pair.note(Problem::Second, false);
    }
    Ok(pair)
}

/// Three pairs, that were told of 1, 2 and 3 readers.
pub(crate) fn told_pairs(alloc: Global) -> Result<Vec<Pair>, Failure> {
    let mut pairs = Vec::new(alloc);
    for readers in 1..=3u64 {
        pairs.push(told(alloc, readers)?)?;
    }
    Ok(pairs)
}

fn is_told(pair: &Pair, readers: u64) -> bool {
    pair.tally(Problem::First) == (readers, 0) && pair.tally(Problem::Second) == (0, readers)
}

/// Whether these are the three, in their order.
pub(crate) fn are_back(pairs: &[Pair]) -> bool {
    match pairs {
        [first, second, third] => is_told(first, 1) && is_told(second, 2) && is_told(third, 3),
        _ => false,
    }
}

/// Policies that add to a cell at each note: the first adds the weight for a reader that is admitted, and ten times as
/// much for one that waits; the second a hundred and a thousand times as much.
fn telling(alloc: Global, weight: u64, cell: &Arc<AtomicU64>) -> Result<Pair, Failure> {
    let times = |count: u64| weight.saturating_mul(count);
    let first = Telling::of(FirstProblem, weight, times(10), cell)?;
    let second = Telling::of(SecondProblem, times(100), times(1_000), cell)?;
    let first: Box<dyn Admission + Send> = Box::new(alloc, first)?;
    let second: Box<dyn Admission + Send> = Box::new(alloc, second)?;
    Ok(Pair::of(first, second))
}

/// Three such pairs, of the weights 1, 10,000 and 100,000,000.
pub(crate) fn telling_pairs(alloc: Global, cell: &Arc<AtomicU64>) -> Result<Vec<Pair>, Failure> {
    let mut pairs = Vec::new(alloc);
    for weight in [1u64, 10_000, 100_000_000] {
        pairs.push(telling(alloc, weight, cell)?)?;
    }
    Ok(pairs)
}
