//! The rules of the two problems, what is counted, and counting policies watched through a node's calls.

ghost use Rattle.std.specs.Prelude.{IfSome};
ghost use Rattle.stable_record.specs.Records.{IsNodeRecord};

use crate::nodes::{FIRST, SECOND, WRITER_WAITS, calls, keeps, risen, speaks, switches};
use crate::pairs::{Tally, counting, has_counted, tell_all};
use crate::rows::{both, bytes};
use admission_policy::{Admission, Counted, FirstProblem, Pair, SecondProblem};
use lock_messages::NodeId;
use lock_model::Problem;
use stable_record::{IndexedRecord, read_node};
use std::alloc::Global;
use test_outcomes::{Outcome, check_answer, check_answers};
use voter_core::{NodeCore, VoterFault};

/// Whether this is a policy of the problem, by its number and its four answers, and has counted so
/// much.
fn is_of<A: Admission>(policy: &A, problem: u8, tally: (u64, u64)) -> bool {
    policy.problem() == problem
        && !policy.admits(true, false)
        && !policy.admits(true, true)
        && policy.admits(false, false)
        && policy.admits(false, true) == (problem == 1)
        && policy.tally() == tally
}

/// Tells of two readers that were admitted, and of one that waits.
fn tell<A: Admission>(policy: &mut A) {
    policy.note(true);
    policy.note(false);
    policy.note(true);
}

fn plain_policies_count_nothing() -> bool {
    let (mut first, mut second) = (FirstProblem, SecondProblem);
    tell(&mut first);
    tell(&mut second);
    is_of(&first, 1, (0, 0)) && is_of(&second, 2, (0, 0))
}

/// Whether what is told to a policy, or to a policy about a policy, is counted, and nothing else is.
fn counts_count() -> bool {
    let mut policy = Counted::of(SecondProblem);
    let before = is_of(&policy, 2, (0, 0));
    tell(&mut policy);
    let after = is_of(&policy, 2, (2, 1)) && policy.into_inner() == SecondProblem;
    let mut twice = Counted::of(Counted::of(FirstProblem));
    tell(&mut twice);
    tell(&mut twice);
    let both = is_of(&twice, 1, (4, 2)) && is_of(&twice.into_inner(), 1, (4, 2));
    before && after && both
}

/// Whether the rule of a problem gives the four answers of a policy.
fn answers_by_the_rule(problem: Problem, number: u8) -> bool {
    !problem.admits_reader(true, false)
        && !problem.admits_reader(true, true)
        && problem.admits_reader(false, false)
        && problem.admits_reader(false, true) == (number == 1)
}

#[test]
fn policies_by_their_rules() -> Outcome {
    check_answers(&[
        Some(plain_policies_count_nothing()),
        Some(counts_count()),
        Some(answers_by_the_rule(Problem::First, 1)),
        Some(answers_by_the_rule(Problem::Second, 2)),
    ])
}

/// The record that these bytes spell, with its index.
fn indexed(alloc: Global, record: &[u8]) -> Option<IndexedRecord>
    ensures { IfSome result IsNodeRecord }
{
    let Ok(station) = read_node(alloc, record) else {
        return None;
    };
    match IndexedRecord::of(alloc, station) {
        Ok(station) => Some(station),
        Err(_) => None,
    }
}

/// Takes each of the problems, and keeps the second without a reply.
fn switches_twice(core: &mut NodeCore) -> bool {
    let first = switches(core, Problem::First).is_some();
    keeps(core);
    let said = speaks(core).is_some();
    let second = switches(core, Problem::Second).is_some();
    keeps(core);
    first && said && second
}

fn restarts_with(alloc: Global, core: &mut NodeCore, record: &[u8]) -> bool {
    match indexed(alloc, record) {
        Some(station) => {
            core.restart_with(station);
            true
        }
        None => false,
    }
}

fn stores(core: &mut NodeCore) -> bool {
    keeps(core);
    true
}

/// Makes a call, by its place from 0: `take` with a reader's request, `kept`, `speak`, `restart`,
/// `restart_with`, and `switch` to each of the problems. Whether it is not refused.
fn goes_on(alloc: Global, core: &mut NodeCore, record: &[u8], place: u64) -> bool {
    match place {
        0 => calls(core, "request n1 c1 1 read a").is_some(),
        1 => stores(core),
        2 => speaks(core).is_some(),
        3 => core.restart(record).is_ok(),
        4 => restarts_with(alloc, core, record),
        _ => switches_twice(core),
    }
}

/// Makes the first so many of the calls.
fn goes_so_far(alloc: Global, core: &mut NodeCore, record: &[u8], calls: u64) -> bool {
    let mut gone = true;
    for place in 0..calls {
        gone &= goes_on(alloc, core, record, place);
    }
    gone
}

/// Policies that count, and were told of two readers that were admitted and one that waits, under each
/// problem.
fn told_before(alloc: Global) -> Option<Pair> {
    match counting(alloc) {
        Some(pair) => {
            let mut pair = pair;
            tell_all(&mut pair, "1+ 1- 1+ 2+ 2- 2+");
            Some(pair)
        }
        None => None,
    }
}

const TOLD_BEFORE: (Tally, Tally) = ((2, 1), (2, 1));

/// Whether this is a pair of both problems that has counted so much.
fn are_both(pair: &Pair, told: (Tally, Tally)) -> bool {
    match (&pair.first, &pair.second) {
        (Some(first), Some(second)) => {
            is_of(first, 1, pair.tally(Problem::First))
                && is_of(second, 2, pair.tally(Problem::Second))
                && has_counted(pair, told)
        }
        _ => false,
    }
}

/// What a node does before its policies fall out of it.
#[derive(Clone, Copy)]
enum Before {
    /// So many of the calls.
    Calls(u64),
    /// It takes the messages that are watched, and replies.
    Runs,
    /// It refuses what is no record, at a restart.
    Refuses,
}

/// Whether a node does so.
fn does(alloc: Global, core: &mut NodeCore, record: &[u8], before: Before) -> bool {
    match before {
        Before::Calls(calls) => goes_so_far(alloc, core, record, calls),
        Before::Runs => runs(core),
        Before::Refuses => core.restart(&[3]).is_err(),
    }
}

/// Whether the policies that fall out of a node are those that rose with it, and were told so much.
fn falls(
    alloc: Global,
    policies: Option<Pair>,
    record: &[u8],
    before: Before,
    told: (Tally, Tally),
) -> Option<bool> {
    match risen(alloc, record, policies) {
        Some(core) => {
            let mut core = core;
            let done = does(alloc, &mut core, record, before);
            both(done.then_some(true), Some(are_both(&core.fall(), told)))
        }
        None => None,
    }
}

/// Whether the policies that fall out of a node after these calls are those that rose with it, of which each
/// was told before of two readers that were admitted and one that waits, and the one of the node's problem
/// in the node of one reader.
fn is_watched(alloc: Global, problem: u8, record: &[u8], calls: u64) -> Option<bool> {
    let told = match (calls, problem) {
        (0, _) => TOLD_BEFORE,
        (_, 1) => ((3, 1), (2, 1)),
        _ => ((2, 1), (3, 1)),
    };
    falls(
        alloc,
        told_before(alloc),
        record,
        Before::Calls(calls),
        told,
    )
}

// Of these a policy is told of each new reader alone: once of c1, c3, c4, c6 and c7, and not of c5, which
// becomes a reader by softening.
const WATCHED: &str = "\
request n1 c1 1 read a
request n1 c1 1 read a
request n1 c2 1 write a
request n1 c3 1 read a
release n1 c2 1
release n1 c2 1
request n1 c3 1 read a
request n1 c3 1 write a
request n1 c4 1 read a
soften n1 c4 1
request n1 c5 1 write b
request n1 c6 1 read b
soften n1 c5 1
soften n1 c5 1
request n1 c5 1 write b
request n1 c7 1 read b";

/// Takes each message, and replies; whether none is refused.
fn runs(core: &mut NodeCore) -> bool {
    let mut gone = true;
    for row in WATCHED.lines() {
        gone &= calls(core, row).is_some();
        keeps(core);
        gone &= speaks(core).is_some();
    }
    gone
}

/// Whether the policies were told so much in the run. c6 waits when it comes, and what lets it in later is
/// not told; under problem 2 c3 does so too. All others are admitted.
fn is_told(alloc: Global, record: &[u8], told: (Tally, Tally)) -> Option<bool> {
    falls(alloc, counting(alloc), record, Before::Runs, told)
}

/// Whether a record is refused as unreadable, where the policies came back so; none where memory was refused.
fn is_unreadable(fault: VoterFault, back: bool) -> Option<bool> {
    match fault.number() {
        503 => None,
        number => Some(number == 501 && back),
    }
}

/// Whether a record is refused as unreadable, and the policies come back as they were.
fn comes_back(alloc: Global, record: &[u8]) -> Option<bool> {
    let Some(pair) = told_before(alloc) else {
        return None;
    };
    match NodeCore::rise(alloc, NodeId::of(1).unwrap(), record, pair) {
        Ok(_) => Some(false),
        Err((back, fault)) => is_unreadable(fault, are_both(&back, TOLD_BEFORE)),
    }
}

/// Whether a node that refuses a record at a restart has its policies as they were.
fn stays(alloc: Global) -> Option<bool> {
    match bytes(alloc, WRITER_WAITS) {
        Some(record) => {
            let policies = told_before(alloc);
            falls(alloc, policies, &record, Before::Refuses, TOLD_BEFORE)
        }
        None => None,
    }
}

/// Whether the policies of a node of each problem are watched through so many calls.
fn are_watched(alloc: Global, calls: u64) -> Option<bool> {
    both(
        is_watched(alloc, 1, &FIRST, calls),
        is_watched(alloc, 2, &SECOND, calls),
    )
}

#[test]
fn policies_watched_through_a_node(rt: HostRuntime) -> Outcome {
    let alloc = rt.alloc();
    for calls in 0..=6u64 {
        check_answer(are_watched(alloc, calls), calls as usize)?;
    }
    check_answers(&[
        is_told(alloc, &FIRST, ((4, 1), (0, 0))),
        is_told(alloc, &SECOND, ((0, 0), (3, 2))),
        comes_back(alloc, &[1, 2, 0]),
        stays(alloc),
    ])
}
