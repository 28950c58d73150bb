// A node of the world by itself: 613. After a refusal the same call does what it would have done.

use crate::failures::{Failure, Kind, Outcome, check, message, refused};
use crate::policies::told_once;
use lock_messages::{Message, Mode};
use lock_model::Problem;
use stable_record::read_node;
use std::alloc::Global;
use test_outcomes::node_id;
use world_actors::WorldNode;
use world_model::{Age, StepFault};

/// The record of problem 1 in which c1 holds `a` as a reader.
const ONE: [u8; 28] = [
    0x01, 0x01, 0x00, 0x01, //
    0x00, 0x00, 0x00, 0x01, 0x00, 0x00, 0x00, 0x00, 0x00, 0x00, 0x00, 0x00, 0x02, 0x00, 0x00, 0x00,
    0x00, 0x00, 0x00, 0x00, 0x01, 0x00, 0x01, 0x61,
];

/// n1 with that record, down.
fn opened(alloc: Global) -> Result<WorldNode, Failure> {
    let id = node_id(1);
    let record = read_node(alloc, &ONE)?;
    Ok(WorldNode::opened(alloc, id, record, told_once(alloc)?))
}

/// What n1 does, or is to be.
#[derive(Clone, Copy)]
enum Step {
    Rises(Age),
    /// It takes a writer's request, which changes the record.
    Takes,
    /// It takes problem 2, which is another one.
    Switches,
    /// It starts to keep the record.
    Starts,
    Keeps,
    Falls,
    /// It is idle, and has kept so many entries.
    IsIdle(usize),
    /// It has so many replies to say, and has kept so many entries under this problem.
    MaySay(usize, usize, Problem),
}

/// That something was done.
fn done(came: Result<(), StepFault>) -> Result<bool, StepFault> {
    match came {
        Ok(()) => Ok(true),
        Err(fault) => Err(fault),
    }
}

/// Takes a step; answers whether it did what it should.
fn does(one: &mut WorldNode, request: &Message, step: Step) -> Result<bool, StepFault> {
    match step {
        Step::Rises(age) => done(one.rise(age)),
        Step::Takes => one.take(request),
        Step::Switches => one.switch(Problem::Second),
        Step::Starts => done(one.start_keeping()),
        Step::Keeps => done(one.keep()),
        Step::Falls => done(one.fall()),
        Step::IsIdle(entries) => {
            Ok(one.may_take() == Ok(()) && one.kept().entries.len() == entries)
        }
        Step::MaySay(replies, entries, problem) => {
            let kept = one.kept();
            let is_kept = kept.entries.len() == entries && kept.problem == problem;
            Ok(one.replies() == Ok(replies) && is_kept)
        }
    }
}

/// Whether n1 is as before a step for which memory was refused: down, with nothing tried, or idle.
fn is_as_before(one: &mut WorldNode, step: Step) -> bool {
    match step {
        Step::Rises(_) => one.may_take() == Err(StepFault::Down),
        Step::Starts => one.keep() == Err(StepFault::NothingTried),
        _ => one.may_take() == Ok(()),
    }
}

/// Takes a step; where memory is refused nothing has changed, and the same step is taken after that.
fn does_at_last(one: &mut WorldNode, step: Step) -> Outcome {
    let request = message(Kind::Request, 2, Mode::Write)?;
    match does(one, &request, step) {
        Ok(right) => check(right),
        Err(fault) => {
            let unchanged = fault == StepFault::Memory && is_as_before(one, step);
            refused(does(one, &request, step) == Ok(true) && unchanged)
        }
    }
}

fn plays(one: &mut WorldNode, steps: &[Step]) -> Outcome {
    for step in steps {
        does_at_last(one, *step)?;
    }
    Ok(())
}

fn plays_anew(alloc: Global, steps: &[Step]) -> Outcome {
    plays(&mut opened(alloc)?, steps)
}

const RISES: [Step; 2] = [Step::Rises(Age::Old), Step::IsIdle(1)];

#[test]
fn rise_with_the_kept_record(rt: HostRuntime) -> Outcome {
    plays_anew(rt.alloc(), &RISES)
}

const KEEPS: [Step; 5] = [
    Step::Rises(Age::Old),
    Step::Takes,
    Step::Starts,
    Step::Keeps,
    Step::MaySay(1, 2, Problem::First),
];

#[test]
fn keep_what_was_decided(rt: HostRuntime) -> Outcome {
    plays_anew(rt.alloc(), &KEEPS)
}

/// What it kept is of problem 2, and there is nothing to say.
const KEEPS_A_SWITCH: [Step; 5] = [
    Step::Rises(Age::Old),
    Step::Switches,
    Step::Starts,
    Step::Keeps,
    Step::MaySay(0, 1, Problem::Second),
];

#[test]
fn keep_a_switch(rt: HostRuntime) -> Outcome {
    plays_anew(rt.alloc(), &KEEPS_A_SWITCH)
}

const RISES_WITH_WHAT_WAS_TRIED: [Step; 6] = [
    Step::Rises(Age::Old),
    Step::Takes,
    Step::Starts,
    Step::Falls,
    Step::Rises(Age::New),
    Step::IsIdle(2),
];

#[test]
fn rise_with_the_tried_record(rt: HostRuntime) -> Outcome {
    plays_anew(rt.alloc(), &RISES_WITH_WHAT_WAS_TRIED)
}

const TRIES: [Step; 3] = [Step::Rises(Age::Old), Step::Takes, Step::Starts];

/// Whether the copy alone keeps what both try to keep.
fn keeps_alone(copy: &mut WorldNode, one: &WorldNode) -> Outcome {
    let keeps = copy.keep() == Ok(()) && copy.replies() == Ok(1);
    check(keeps && one.replies() == Err(StepFault::NotStored))
}

/// A copy tries to keep the same; where memory is refused n1 still tries.
fn copies(alloc: Global, one: &mut WorldNode) -> Outcome {
    plays(one, &TRIES)?;
    match one.copy(told_once(alloc)?) {
        Ok(copy) => {
            let mut copy = copy;
            keeps_alone(&mut copy, one)
        }
        Err(_) => refused(one.keep() == Ok(()) && one.replies() == Ok(1)),
    }
}

#[test]
fn copy_what_is_tried(rt: HostRuntime) -> Outcome {
    copies(rt.alloc(), &mut opened(rt.alloc())?)
}
