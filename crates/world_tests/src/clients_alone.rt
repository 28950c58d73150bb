// One client of the world by itself: what it keeps over a restart, and what it says.

use crate::rows::Note;
use crate::steps::done;
use lock_messages::Mode;
use lock_model::Heard;
use test_outcomes::{Failure, Outcome, check, client_id, node_id};
use test_support::{attempt, ballots_of, first_ticket, in_row, resource};
use world_actors::WorldClient;
use world_model::{Age, StepFault};

/// What c1 does by itself, or what is so of it.
#[derive(Clone, Copy)]
enum Turn {
    Rise(Age),
    Fall,
    /// It begins the attempt of this number, to use `a`.
    Begin(Mode, u64),
    /// It finds no ballot at the second place.
    NoSuchPlace,
    StartKeeping,
    Keep,
    Enter,
    NoQuorum,
    Leave,
    Soften,
    /// It has nothing to soften, and this is why.
    NoSoften(StepFault),
    /// It hears the message, and makes this of it.
    Hear(Note, Heard),
    MayNotHear,
    /// It has this to say to n1.
    Message(Note),
    /// What it has to say isn't kept yet.
    NotStored,
    /// It is inside with its first ticket, in this mode.
    Inside(Mode),
    Outside,
    /// It has kept the attempt of this number.
    Kept(u64),
}

/// Whether it begins the attempt of this number.
fn begins(one: &mut WorldClient, mode: Mode, number: u64) -> Result<bool, Failure> {
    let begun = one.begin(mode, resource(b"a")?, 1)?;
    Ok(begun == attempt(number)?)
}

fn finds_no_place(one: &mut WorldClient) -> Result<bool, Failure> {
    let begun = one.begin(Mode::Write, resource(b"a")?, 2);
    Ok(begun == Err(StepFault::NoSuchPlace))
}

fn goes(one: &mut WorldClient, turn: &Turn) -> Outcome {
    match *turn {
        Turn::Rise(age) => done(one.rise(age)),
        Turn::Fall => done(one.fall()),
        Turn::Begin(mode, number) => check(begins(one, mode, number)?),
        Turn::NoSuchPlace => check(finds_no_place(one)?),
        Turn::StartKeeping => done(one.start_keeping()),
        Turn::Keep => done(one.keep()),
        Turn::Enter => done(one.enter()),
        Turn::NoQuorum => check(one.enter() == Err(StepFault::NoQuorum)),
        Turn::Leave => done(one.leave()),
        Turn::Soften => done(one.soften()),
        Turn::NoSoften(fault) => check(one.soften() == Err(fault)),
        Turn::Hear(note, heard) => check(one.hear(&note.message()?) == heard),
        Turn::MayNotHear => check(one.may_hear() == Err(StepFault::Down)),
        Turn::Message(note) => check(one.message_for(node_id(1))? == note.message()?),
        Turn::NotStored => check(one.message_for(node_id(1)) == Err(StepFault::NotStored)),
        Turn::Inside(mode) => check(one.inside() == Some(first_ticket(1, mode)?)),
        Turn::Outside => check(one.inside().is_none()),
        Turn::Kept(number) => check(one.kept() == number),
    }
}

/// Plays the turns of a script; what goes wrong is told by the turn's place.
fn plays(one: &mut WorldClient, script: &[Turn]) -> Outcome {
    for (row, turn) in script.iter().enumerate() {
        in_row(goes(one, turn), row)?;
    }
    Ok(())
}

/// c1 under a ballot of one node, down, with nothing kept.
fn empty() -> Result<WorldClient, Failure> {
    let ballots = ballots_of(&[1], 1, 1)?;
    Ok(WorldClient::opened(client_id(1), 0, ballots))
}

fn plays_all(one: &mut WorldClient, scripts: &[&[Turn]]) -> Outcome {
    for script in scripts {
        plays(one, script)?;
    }
    Ok(())
}

/// Plays scripts with that client.
fn play_all(scripts: &[&[Turn]]) -> Outcome {
    let mut one = empty()?;
    plays_all(&mut one, scripts)
}

/// c1 rises, chooses its first attempt and tries to keep its number.
const TRYING: [Turn; 5] = [
    Turn::Rise(Age::Old),
    Turn::NoSuchPlace,
    Turn::Begin(Mode::Write, 1),
    Turn::NotStored,
    Turn::StartKeeping,
];

/// c1 gets in, on the vote of n1.
const ENTERS: [Turn; 5] = [
    Turn::Keep,
    Turn::Message(Note::Request(1, Mode::Write)),
    Turn::NoQuorum,
    Turn::Hear(Note::Grant(1, Mode::Write), Heard::Counted),
    Turn::Enter,
];

const LEAVES: [Turn; 5] = [
    Turn::Inside(Mode::Write),
    Turn::Kept(1),
    Turn::Leave,
    Turn::Outside,
    Turn::Message(Note::Release(1)),
];

#[test]
fn enters_and_leaves(_rt: HostRuntime) -> Outcome {
    play_all(&[&TRYING, &ENTERS, &LEAVES])
}

const IS_INSIDE: [Turn; 1] = [Turn::Inside(Mode::Write)];

const GOES_OUT: [Turn; 3] = [Turn::Inside(Mode::Write), Turn::Leave, Turn::Outside];

/// A copy of c1 leaves; c1 itself is still inside.
#[test]
fn copy_leaves_alone(_rt: HostRuntime) -> Outcome {
    let mut one = empty()?;
    plays(&mut one, &TRYING)?;
    plays(&mut one, &ENTERS)?;
    let mut copy = one.copy();
    plays(&mut copy, &GOES_OUT)?;
    plays(&mut one, &IS_INSIDE)
}

const FALLS: [Turn; 6] = [
    Turn::Fall,
    Turn::Outside,
    Turn::MayNotHear,
    Turn::Rise(Age::Old),
    Turn::Outside,
    Turn::Kept(1),
];

#[test]
fn falls_inside(_rt: HostRuntime) -> Outcome {
    play_all(&[&TRYING, &ENTERS, &FALLS])
}

const SOFTENS: [Turn; 12] = [
    Turn::Hear(Note::Softened(1), Heard::NotMine),
    Turn::Soften,
    Turn::Inside(Mode::Read),
    Turn::Message(Note::Soften(1)),
    Turn::Hear(Note::Softened(1), Heard::Softened),
    Turn::Hear(Note::Grant(1, Mode::Write), Heard::NotMine),
    Turn::NoSoften(StepFault::WrongPhase),
    Turn::Inside(Mode::Read),
    Turn::Leave,
    Turn::Outside,
    Turn::Message(Note::Release(1)),
    Turn::Hear(Note::Softened(1), Heard::NotMine),
];

#[test]
fn softens_inside(_rt: HostRuntime) -> Outcome {
    play_all(&[&TRYING, &ENTERS, &SOFTENS])
}

/// Softening isn't kept: a client that rises is outside, and its attempt over.
const FALLS_SOFTENED: [Turn; 9] = [
    Turn::Soften,
    Turn::Fall,
    Turn::Outside,
    Turn::NoSoften(StepFault::Down),
    Turn::Rise(Age::Old),
    Turn::Outside,
    Turn::Message(Note::Release(1)),
    Turn::NoSoften(StepFault::WrongPhase),
    Turn::Kept(1),
];

#[test]
fn falls_softened(_rt: HostRuntime) -> Outcome {
    play_all(&[&TRYING, &ENTERS, &FALLS_SOFTENED])
}

const NOBODY: [Turn; 3] = [
    Turn::NoSoften(StepFault::Down),
    Turn::Rise(Age::Old),
    Turn::NoSoften(StepFault::WrongPhase),
];

const CHOSEN: [Turn; 3] = [
    Turn::NoSoften(StepFault::WrongPhase),
    Turn::Keep,
    Turn::NoSoften(StepFault::WrongPhase),
];

/// c1 gets in as a reader, on the vote of n1.
const READER: [Turn; 8] = [
    Turn::Rise(Age::Old),
    Turn::Begin(Mode::Read, 1),
    Turn::StartKeeping,
    Turn::Keep,
    Turn::Hear(Note::Grant(1, Mode::Read), Heard::Counted),
    Turn::Enter,
    Turn::NoSoften(StepFault::WrongPhase),
    Turn::Inside(Mode::Read),
];

#[test]
fn nobody_else_softens(_rt: HostRuntime) -> Outcome {
    play_all(&[&NOBODY])?;
    play_all(&[&TRYING, &CHOSEN])?;
    play_all(&[&READER])
}

const RESTARTS: [Turn; 4] = [
    Turn::Fall,
    Turn::Rise(Age::New),
    Turn::Kept(1),
    Turn::Begin(Mode::Read, 2),
];

#[test]
fn restarted_client(_rt: HostRuntime) -> Outcome {
    play_all(&[&TRYING, &RESTARTS])
}
