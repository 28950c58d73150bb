//! Pairs of policies: the half that is asked, and the half that is told.

use crate::rows::all;
use admission_policy::{Admission, Counted, FirstProblem, Pair, SecondProblem};
use lock_model::Problem;
use std::alloc::Global;
use test_outcomes::{Outcome, check_answer, check_answers};

/// The plain policies of both problems.
pub(crate) fn plain(alloc: Global) -> Option<Pair> {
    let first: Box<dyn Admission + Send> = Box::new(alloc, FirstProblem).ok()?;
    let second: Box<dyn Admission + Send> = Box::new(alloc, SecondProblem).ok()?;
    Some(Pair::of(first, second))
}

/// No policy of either problem.
fn without() -> Pair {
    Pair {
        first: None,
        second: None,
    }
}

/// Counting policies of both problems.
pub(crate) fn counting(alloc: Global) -> Option<Pair> {
    let first: Box<dyn Admission + Send> = Box::new(alloc, Counted::of(FirstProblem)).ok()?;
    let second: Box<dyn Admission + Send> = Box::new(alloc, Counted::of(SecondProblem)).ok()?;
    Some(Pair::of(first, second))
}

/// How many readers a half has counted: admitted, and waiting.
pub(crate) type Tally = (u64, u64);

/// Whether a half has counted so much; one without a policy counts nothing.
fn half_has_counted(half: &Option<Box<dyn Admission + Send>>, tally: Tally) -> bool {
    match half {
        Some(policy) => policy.tally() == tally,
        None => tally == (0, 0),
    }
}

/// Whether the halves have counted so much, the first half and the second.
pub(crate) fn has_counted(pair: &Pair, (first, second): (Tally, Tally)) -> bool {
    half_has_counted(&pair.first, first)
        && half_has_counted(&pair.second, second)
        && pair.tally(Problem::First) == first
        && pair.tally(Problem::Second) == second
}

/// Tells a pair what each word says, as `1+` of a reader that is admitted under problem 1, or `2-` of one
/// that waits under problem 2.
pub(crate) fn tell_all(pair: &mut Pair, words: &str) {
    for word in words.split(' ') {
        let problem = if word.starts_with('1') {
            Problem::First
        } else {
            Problem::Second
        };
        pair.note(problem, word.ends_with('+'));
    }
}

/// Whether a pair that is told these words has then counted so much.
fn counts(pair: &mut Pair, words: &str, want: (Tally, Tally)) -> bool {
    tell_all(pair, words);
    has_counted(pair, want)
}

/// The same of a pair that memory was found for.
fn made_counts(pair: Option<Pair>, words: &str, want: (Tally, Tally)) -> Option<bool> {
    match pair {
        Some(pair) => {
            let mut pair = pair;
            Some(counts(&mut pair, words, want))
        }
        None => None,
    }
}

/// Whether a counting pair counts what it is told, and one of plain policies or of none nothing.
fn told(alloc: Global, words: &str, want: (Tally, Tally)) -> Option<bool> {
    let nothing = ((0, 0), (0, 0));
    all(&[
        made_counts(counting(alloc), words, want),
        made_counts(plain(alloc), words, nothing),
        made_counts(Some(without()), words, nothing),
    ])
}

// What is told, and what is counted then of each problem.
const TOLD: [(&str, (Tally, Tally)); 6] = [
    ("1+", ((1, 0), (0, 0))),
    ("1-", ((0, 1), (0, 0))),
    ("2+", ((0, 0), (1, 0))),
    ("2-", ((0, 0), (0, 1))),
    ("1+ 2- 1+ 2- 1-", ((2, 1), (0, 2))),
    ("2+ 2+ 1- 2+ 2-", ((0, 1), (3, 1))),
];

/// The problem, whether a writer holds, whether one waits, and whether a reader is admitted.
type Asked = (Problem, bool, bool, bool);

const ASKED: [Asked; 8] = [
    (Problem::First, false, false, true),
    (Problem::First, false, true, true),
    (Problem::First, true, false, false),
    (Problem::First, true, true, false),
    (Problem::Second, false, false, true),
    (Problem::Second, false, true, false),
    (Problem::Second, true, false, false),
    (Problem::Second, true, true, false),
];

/// Whether a pair that is asked answers as each row says, and counts nothing of it.
fn answers(pair: &Pair) -> bool {
    let mut right = true;
    for row in &ASKED {
        right &= pair.admits(row.0, row.1, row.2) == row.3;
        right &= has_counted(pair, ((0, 0), (0, 0)));
    }
    right
}

/// The same of a pair that memory was found for.
fn made_answers(pair: Option<Pair>) -> Option<bool> {
    match pair {
        Some(pair) => Some(answers(&pair)),
        None => None,
    }
}

#[test]
fn asked_by_the_problem(rt: HostRuntime) -> Outcome {
    check_answers(&[
        made_answers(plain(rt.alloc())),
        made_answers(counting(rt.alloc())),
        made_answers(Some(without())),
    ])
}

#[test]
fn told_by_the_problem(rt: HostRuntime) -> Outcome {
    for (number, row) in TOLD.iter().enumerate() {
        check_answer(told(rt.alloc(), row.0, row.1), number)?;
    }
    Ok(())
}
