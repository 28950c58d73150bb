// One node of the world by itself: what it keeps over a restart, and what it says.

use crate::rows::Note;
use crate::steps::done;
use lock_messages::{Message, Mode};
use lock_model::Problem;
use stable_record::read_node;
use std::alloc::Global;
use test_outcomes::{Failure, Outcome, check, node_id};
use test_support::{READS, SOFTENED, WAITS, WRITES, in_row, plain_pair};
use world_actors::WorldNode;
use world_model::{Age, StepFault};

/// What n1 does by itself, or what is so of it.
#[derive(Clone, Copy)]
enum Turn {
    Rise(Age),
    Fall,
    /// It takes the message, which changes its record or not.
    Take(Note, bool),
    /// It takes the problem, which changes its record or not.
    Switch(Problem, bool),
    /// It takes neither problem, and this is why.
    NoSwitch(StepFault),
    StartKeeping,
    Keep,
    /// It says just these.
    Say(&'static [Note]),
    /// It has so many replies.
    Replies(usize),
    NotStored,
    MayTake,
    /// It has kept so many entries.
    Entries(usize),
    /// It has kept this problem.
    Problem(Problem),
}

fn is(message: &Message, note: Note) -> bool {
    match note.message() {
        Ok(wanted) => wanted == *message,
        Err(_) => false,
    }
}

/// Whether the messages are just these.
fn are(messages: &[Message], notes: &[Note]) -> bool {
    let mut same = messages.len() == notes.len();
    for (message, note) in messages.iter().zip(notes) {
        same &= is(message, *note);
    }
    same
}

fn says(one: &mut WorldNode, notes: &[Note]) -> Result<bool, Failure> {
    let said = one.say()?;
    Ok(are(&said, notes))
}

fn is_refused(answer: Result<bool, StepFault>, fault: StepFault) -> bool {
    match answer {
        Ok(_) => false,
        Err(found) => found == fault,
    }
}

/// Whether n1 takes neither problem, and this is why.
fn refuses(one: &mut WorldNode, fault: StepFault) -> bool {
    let first = is_refused(one.switch(Problem::First), fault);
    is_refused(one.switch(Problem::Second), fault) && first
}

fn goes(one: &mut WorldNode, turn: &Turn) -> Outcome {
    match *turn {
        Turn::Rise(age) => done(one.rise(age)),
        Turn::Fall => done(one.fall()),
        Turn::Take(note, changed) => check(one.take(&note.message()?)? == changed),
        Turn::Switch(problem, changed) => check(one.switch(problem)? == changed),
        Turn::NoSwitch(fault) => check(refuses(one, fault)),
        Turn::StartKeeping => done(one.start_keeping()),
        Turn::Keep => done(one.keep()),
        Turn::Say(notes) => check(says(one, notes)?),
        Turn::Replies(count) => check(one.replies() == Ok(count)),
        Turn::NotStored => check(one.replies() == Err(StepFault::NotStored)),
        Turn::MayTake => check(one.may_take() == Ok(())),
        Turn::Entries(count) => check(one.kept().entries.len() == count),
        Turn::Problem(problem) => check(one.kept().problem == problem),
    }
}

/// Plays the turns of a script; what goes wrong is told by the turn's place.
fn plays(one: &mut WorldNode, script: &[Turn]) -> Outcome {
    for (row, turn) in script.iter().enumerate() {
        in_row(goes(one, turn), row)?;
    }
    Ok(())
}

fn play_all(one: &mut WorldNode, scripts: &[&[Turn]]) -> Outcome {
    for script in scripts {
        plays(one, script)?;
    }
    Ok(())
}

/// Plays scripts with a node that is n1.
fn play_numbered(one: &mut WorldNode, scripts: &[&[Turn]]) -> Outcome {
    check(one.number() == node_id(1))?;
    play_all(one, scripts)
}

/// n1, down, with this record or, under problem 1, with nothing kept. (A pair of policies is dear to prove, so one
/// function makes both.)
fn opened(alloc: Global, record: Option<&[u8]>) -> Result<WorldNode, Failure> {
    let pair = plain_pair();
    let Some(bytes) = record else {
        return Ok(WorldNode::empty(alloc, node_id(1), Problem::First, pair));
    };
    match read_node(alloc, bytes) {
        Ok(record) => Ok(WorldNode::opened(alloc, node_id(1), record, pair)),
        Err(_) => Err(Failure::Memory),
    }
}

/// Plays scripts with n1, down, with nothing kept.
fn play_empty(alloc: Global, scripts: &[&[Turn]]) -> Outcome {
    let mut one = opened(alloc, None)?;
    play_numbered(&mut one, scripts)
}

/// Plays scripts with n1 with this record, down.
fn play_opened(alloc: Global, record: &[u8], scripts: &[&[Turn]]) -> Outcome {
    let mut one = opened(alloc, Some(record))?;
    play_numbered(&mut one, scripts)
}

/// n1 rises, decides on c1's request and tries to keep that.
const TRYING: [Turn; 4] = [
    Turn::Rise(Age::Old),
    Turn::Take(Note::Request(1, Mode::Read), true),
    Turn::StartKeeping,
    Turn::NotStored,
];

/// It falls, and rises with its old record.
const RISES_OLD: [Turn; 2] = [Turn::Fall, Turn::Rise(Age::Old)];

/// It falls, and rises with its new record.
const RISES_NEW: [Turn; 2] = [Turn::Fall, Turn::Rise(Age::New)];

const FIRST_READER: [Turn; 5] = [
    Turn::Keep,
    Turn::Entries(1),
    Turn::Replies(1),
    Turn::Say(&[Note::Grant(1, Mode::Read)]),
    Turn::MayTake,
];

#[test]
fn first_reader(rt: HostRuntime) -> Outcome {
    play_empty(rt.alloc(), &[&TRYING, &FIRST_READER])
}

const NOTHING_KEPT: [Turn; 2] = [Turn::Entries(0), Turn::MayTake];

#[test]
fn restart_with_old_record(rt: HostRuntime) -> Outcome {
    play_empty(rt.alloc(), &[&TRYING, &RISES_OLD, &NOTHING_KEPT])
}

const KNOWN: [Turn; 2] = [
    Turn::Take(Note::Request(1, Mode::Read), false),
    Turn::Entries(1),
];

#[test]
fn restart_with_new_record(rt: HostRuntime) -> Outcome {
    play_empty(rt.alloc(), &[&TRYING, &RISES_NEW, &KNOWN])
}

/// With c1 as a writer n1 rises, decides on its softening and tries to keep that.
const SOFTENING: [Turn; 3] = [
    Turn::Rise(Age::Old),
    Turn::Take(Note::Soften(1), true),
    Turn::StartKeeping,
];

const SAYS_SOFTENED: [Turn; 2] = [Turn::Keep, Turn::Say(&[Note::Softened(1)])];

#[test]
fn softened_writer(rt: HostRuntime) -> Outcome {
    play_opened(rt.alloc(), &WRITES, &[&SOFTENING, &SAYS_SOFTENED])
}

/// n1 has nothing to keep for the writer's request, and grants it.
const STILL_GRANTS: [Turn; 2] = [
    Turn::Take(Note::Request(1, Mode::Write), false),
    Turn::Say(&[Note::Grant(1, Mode::Write)]),
];

#[test]
fn restart_before_softening(rt: HostRuntime) -> Outcome {
    play_opened(
        rt.alloc(),
        &WRITES,
        &[&SOFTENING, &RISES_OLD, &STILL_GRANTS],
    )
}

const TELLS_SOFTENED: [Turn; 2] = [
    Turn::Take(Note::Request(1, Mode::Write), false),
    Turn::Say(&[Note::Softened(1)]),
];

#[test]
fn restart_after_softening(rt: HostRuntime) -> Outcome {
    play_opened(
        rt.alloc(),
        &WRITES,
        &[&SOFTENING, &RISES_NEW, &TELLS_SOFTENED],
    )
}

const SOFT_AGAIN: [Turn; 3] = [
    Turn::Rise(Age::Old),
    Turn::Take(Note::Soften(1), false),
    Turn::Say(&[Note::Softened(1)]),
];

#[test]
fn risen_with_a_softened_holder(rt: HostRuntime) -> Outcome {
    play_opened(rt.alloc(), &SOFTENED, &[&SOFT_AGAIN])
}

#[test]
fn opened_with_a_record(rt: HostRuntime) -> Outcome {
    play_opened(rt.alloc(), &READS, &[&[Turn::Entries(1)]])
}

/// With a writer that waits n1 rises, takes problem 1 and tries to keep that.
const SWITCHING: [Turn; 5] = [
    Turn::Rise(Age::Old),
    Turn::Switch(Problem::First, true),
    Turn::NotStored,
    Turn::Problem(Problem::Second),
    Turn::StartKeeping,
];

/// It lets the reader in. The same problem again is no change, and leaves nothing to say.
const SWITCHED: [Turn; 8] = [
    Turn::Keep,
    Turn::Problem(Problem::First),
    Turn::Replies(1),
    Turn::Say(&[Note::Grant(3, Mode::Read)]),
    Turn::Switch(Problem::First, false),
    Turn::Replies(0),
    Turn::Say(&[]),
    Turn::MayTake,
];

#[test]
fn another_problem(rt: HostRuntime) -> Outcome {
    play_opened(rt.alloc(), &WAITS, &[&SWITCHING, &SWITCHED])
}

const STILL_SECOND: [Turn; 3] = [
    Turn::Problem(Problem::Second),
    Turn::Take(Note::Request(3, Mode::Read), false),
    Turn::Say(&[Note::Busy(3, Mode::Read)]),
];

#[test]
fn restart_before_another_problem(rt: HostRuntime) -> Outcome {
    play_opened(rt.alloc(), &WAITS, &[&SWITCHING, &RISES_OLD, &STILL_SECOND])
}

const FIRST_NOW: [Turn; 3] = [
    Turn::Problem(Problem::First),
    Turn::Take(Note::Request(3, Mode::Read), false),
    Turn::Say(&[Note::Grant(3, Mode::Read)]),
];

#[test]
fn restart_after_another_problem(rt: HostRuntime) -> Outcome {
    play_opened(rt.alloc(), &WAITS, &[&SWITCHING, &RISES_NEW, &FIRST_NOW])
}

const NO_SWITCHES: [Turn; 9] = [
    Turn::NoSwitch(StepFault::Down),
    Turn::Rise(Age::Old),
    Turn::Switch(Problem::First, true),
    Turn::NoSwitch(StepFault::WrongPhase),
    Turn::StartKeeping,
    Turn::Keep,
    Turn::NoSwitch(StepFault::WrongPhase),
    Turn::Fall,
    Turn::NoSwitch(StepFault::Down),
];

/// A node that is down, or about something else, takes no problem.
#[test]
fn nobody_else_switches(rt: HostRuntime) -> Outcome {
    play_opened(rt.alloc(), &WAITS, &[&NO_SWITCHES])
}
