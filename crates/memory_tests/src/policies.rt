// The policies of nodes, and what they were told.

use crate::failures::Failure;
use admission_policy::{Admission, Counted, FirstProblem, Pair, SecondProblem};
use lock_model::Problem;
use std::alloc::Global;

/// Policies that count, of which that of problem 1 was told of one reader.
pub(crate) fn told_once(alloc: Global) -> Result<Pair, Failure> {
    let mut told = Counted::of(FirstProblem);
    told.note(true);
    let first: Box<dyn Admission + Send> = Box::new(alloc, told)?;
    let second: Box<dyn Admission + Send> = Box::new(alloc, Counted::of(SecondProblem))?;
    Ok(Pair::of(first, second))
}

/// Whether the policy of problem 1 counts so many readers that were let in, and that of problem 2 so many.
pub(crate) fn have_let_in(policies: &Pair, first: u64, second: u64) -> bool {
    policies.tally(Problem::First) == (first, 0) && policies.tally(Problem::Second) == (second, 0)
}

/// Policies for so many nodes.
pub(crate) fn for_nodes(alloc: Global, count: u8) -> Result<Vec<Pair>, Failure> {
    let mut pairs = Vec::new(alloc);
    for _ in 0..count {
        pairs.push(told_once(alloc)?)?;
    }
    Ok(pairs)
}
