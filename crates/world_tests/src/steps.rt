// The steps that tests of worlds share, and the scripts that are made of them.

use crate::rows::{Deed, Done, Who};
use crate::sights::{Sight, is_so};
use lock_messages::{MAX_CLIENTS, Mode};
use lock_model::Problem;
use std::alloc::Global;
use test_outcomes::{Failure, Outcome, check};
use test_support::{ballots_of, in_row, new_world};
use vote_weights::BallotList;
use world_machine::World;
use world_model::{Age, Event, StepFault};

/// Three nodes of one vote each.
pub(crate) fn three_votes() -> Result<BallotList, Failure> {
    ballots_of(&[1, 1, 1], 2, 2)
}

/// A world of three nodes with a vote each under this problem, and of so many clients.
pub(crate) fn world(alloc: Global, problem: Problem, clients: u16) -> Result<World, Failure> {
    world_by(alloc, three_votes()?, problem, clients)
}

/// A world with plain policies, all down, nothing kept.
pub(crate) fn world_by(
    alloc: Global,
    ballots: BallotList,
    problem: Problem,
    clients: u16,
) -> Result<World, Failure> {
    if clients == 0 || clients as u32 > MAX_CLIENTS {
        return Err(Failure::Wrong(0));
    }
    new_world(alloc, ballots, problem, clients)
}

/// A step of a script.
#[derive(Clone, Copy)]
pub(crate) enum Step {
    /// The event happens.
    Now(Deed),
    /// The client rises, and asks with its first ticket.
    Begins(u32, Mode),
    /// The node takes the message of this number, which changes its record, and answers.
    Answers(u8, u32),
    /// The client asks the node by a message of this number, and hears the answer, which is the next one.
    Asks(u32, u8, u32),
    /// The event happens so many times.
    Often(Deed, u32),
    /// The event happens, and does this.
    Does(Deed, Done),
    /// The event is refused with this fault.
    Refused(Deed, StepFault),
    /// This is so.
    See(Sight),
}

pub(crate) fn runs(world: &mut World, events: &[Event]) -> Outcome {
    match world.run(events) {
        Ok(_) => Ok(()),
        Err((_, fault)) => Err(fault.into()),
    }
}

/// The event happens.
pub(crate) fn happens(world: &mut World, deed: Deed) -> Outcome {
    runs(world, &[deed.event()?])
}

/// The events happen.
fn all_happen(world: &mut World, deeds: &[Deed]) -> Outcome {
    for deed in deeds {
        happens(world, *deed)?;
    }
    Ok(())
}

/// A client rises, and asks with its first ticket.
pub(crate) fn begins(world: &mut World, number: u32, mode: Mode) -> Outcome {
    let who = Who::Client(number);
    let deeds = [
        Deed::Rise(who, Age::Old),
        Deed::Begin(number, mode),
        Deed::Try(who),
        Deed::Kept(who),
    ];
    all_happen(world, &deeds)
}

/// A node takes the message of this number, which changes its record, and answers.
fn answers(world: &mut World, number: u8, message: u32) -> Outcome {
    let who = Who::Node(number);
    let deeds = [
        Deed::Take(number, message),
        Deed::Try(who),
        Deed::Kept(who),
        Deed::Say(number),
    ];
    all_happen(world, &deeds)
}

/// A client asks a node by a message of this number, and hears the answer, which is the next message.
fn asks(world: &mut World, number: u32, to: u8, message: u32) -> Outcome {
    happens(world, Deed::SayTo(number, to))?;
    answers(world, to, message)?;
    happens(world, Deed::Hear(number, message.saturating_add(1)))
}

/// Takes the same event so many times.
fn often(world: &mut World, event: Event, count: u32) -> Outcome {
    for _ in 0..count {
        world.step(&event)?;
    }
    Ok(())
}

/// Takes a step.
fn goes(world: &mut World, step: &Step) -> Outcome {
    match *step {
        Step::Now(deed) => runs(world, &[deed.event()?]),
        Step::Begins(number, mode) => begins(world, number, mode),
        Step::Answers(number, message) => answers(world, number, message),
        Step::Asks(number, to, message) => asks(world, number, to, message),
        Step::Often(deed, count) => often(world, deed.event()?, count),
        Step::Does(deed, done) => check(world.step(&deed.event()?)? == done.effect()?),
        Step::Refused(deed, fault) => check(world.step(&deed.event()?) == Err(fault)),
        Step::See(sight) => check(is_so(world, &sight)?),
    }
}

/// Where a step has to be taken, a refusal is wrong.
pub(crate) fn done(answer: Result<(), StepFault>) -> Outcome {
    Ok(answer?)
}

/// Takes the steps of a script; what goes wrong is told by the step's place.
pub(crate) fn plays(world: &mut World, script: &[Step]) -> Outcome {
    for (row, step) in script.iter().enumerate() {
        in_row(goes(world, step), row)?;
    }
    Ok(())
}

/// Takes the scripts one after the other.
pub(crate) fn play_all(world: &mut World, scripts: &[&[Step]]) -> Outcome {
    for script in scripts {
        plays(world, script)?;
    }
    Ok(())
}

/// Takes these scripts in a new world of three nodes, under this problem, and of so many clients.
pub(crate) fn played(
    alloc: Global,
    problem: Problem,
    clients: u16,
    scripts: &[&[Step]],
) -> Outcome {
    played_by(alloc, three_votes()?, problem, clients, scripts)
}

/// Takes these scripts in a new world of these ballots.
pub(crate) fn played_by(
    alloc: Global,
    ballots: BallotList,
    problem: Problem,
    clients: u16,
    scripts: &[&[Step]],
) -> Outcome {
    let mut world = world_by(alloc, ballots, problem, clients)?;
    play_all(&mut world, scripts)
}
