// Copies of worlds: a copy has what the world has, and what happens in one doesn't happen in the other.

use crate::rows::{Deed, Done, Note, Who};
use crate::sights::{Sight, keeps};
use crate::steps::{Step, begins, happens, play_all, plays, world};
use lock_messages::{Actor, Mode};
use lock_model::Problem;
use std::alloc::Global;
use test_outcomes::{Failure, Outcome, check};
use test_support::client;
use world_machine::World;
use world_model::{Age, StepFault};

/// As many clients as there may be.
const MANY: u16 = 1_024;

const N1: Who = Who::Node(1);

/// c1 is inside as a reader, by n1 and n2, and n1 has decided on the request of c2, a writer, and tries to
/// keep that: five messages.
const BUSY: [Step; 10] = [
    Step::Now(Deed::Rise(N1, Age::Old)),
    Step::Now(Deed::Rise(Who::Node(2), Age::Old)),
    Step::Begins(1, Mode::Read),
    Step::Asks(1, 1, 1),
    Step::Asks(1, 2, 3),
    Step::Begins(2, Mode::Write),
    Step::Now(Deed::Enter(1)),
    Step::Now(Deed::SayTo(2, 1)),
    Step::Now(Deed::Take(1, 5)),
    Step::Now(Deed::Try(N1)),
];

/// n1 has kept what it decided, and tells c2 that it waits.
const GOES_ON: [Step; 3] = [
    Step::Now(Deed::Kept(N1)),
    Step::Does(Deed::Say(1), Done::Said(6, 1)),
    Step::See(Sight::Sent(6, Note::Busy(2, Mode::Write))),
];

const LEAVES: [Step; 1] = [Step::Now(Deed::Leave(1))];

/// n1 has not kept yet what it decided, and c1 is inside.
const AS_IT_WAS: [Step; 4] = [
    Step::See(Sight::IsSent(5)),
    Step::See(Sight::Unsent(6)),
    Step::See(Sight::IsInside(1, Mode::Read)),
    Step::Refused(Deed::Say(1), StepFault::NotStored),
];

/// What is done with a world and its copy, or is so of both.
#[derive(Clone, Copy)]
enum Turn {
    World(&'static [Step]),
    Copy(&'static [Step]),
    /// The actor has kept the same in both.
    KeptTheSame(Who),
    /// The actor has kept more bytes in the copy.
    KeptMore(Who),
}

fn kept_the_same(world: &World, copy: &World, who: &Actor) -> Result<bool, Failure> {
    match world.kept_bytes(*who) {
        Ok(kept) => keeps(copy, who, &kept),
        Err(fault) => Err(Failure::from(fault)),
    }
}

fn kept_more(world: &World, copy: &World, who: Actor) -> Result<bool, Failure> {
    let before = world.kept_bytes(who)?.len();
    let now = copy.kept_bytes(who)?.len();
    Ok(now > before)
}

fn goes(world: &mut World, copy: &mut World, turn: &Turn) -> Outcome {
    match *turn {
        Turn::World(script) => plays(world, script),
        Turn::Copy(script) => plays(copy, script),
        Turn::KeptTheSame(who) => check(kept_the_same(world, copy, &who.actor()?)?),
        Turn::KeptMore(who) => check(kept_more(world, copy, who.actor()?)?),
    }
}

fn go_apart(world: &mut World, copy: &mut World, turns: &[Turn]) -> Outcome {
    for turn in turns {
        goes(world, copy, turn)?;
    }
    Ok(())
}

/// Takes these turns in a world and a copy of it.
fn go_copied(world: &mut World, turns: &[Turn]) -> Outcome {
    let mut copy = world.copy()?;
    go_apart(world, &mut copy, turns)
}

/// The same once n1 is busy in the world, and a script was played.
fn go_busy(world: &mut World, script: &[Step], turns: &[Turn]) -> Outcome {
    play_all(world, &[&BUSY, script])?;
    go_copied(world, turns)
}

/// Plays a script in the world in which n1 is busy, and then these turns in that world and a copy of it.
fn play_copied(alloc: Global, script: &[Step], turns: &[Turn]) -> Outcome {
    let mut world = world(alloc, Problem::Second, 2)?;
    go_busy(&mut world, script, turns)
}

const COPY_FIRST: [Turn; 4] = [
    Turn::Copy(&GOES_ON),
    Turn::Copy(&LEAVES),
    Turn::World(&AS_IT_WAS),
    Turn::World(&GOES_ON),
];

#[test]
fn copy_goes_on_alone(rt: HostRuntime) -> Outcome {
    play_copied(rt.alloc(), &[], &COPY_FIRST)
}

const WORLD_FIRST: [Turn; 4] = [
    Turn::World(&GOES_ON),
    Turn::World(&LEAVES),
    Turn::Copy(&AS_IT_WAS),
    Turn::Copy(&GOES_ON),
];

#[test]
fn world_goes_on_alone(rt: HostRuntime) -> Outcome {
    play_copied(rt.alloc(), &[], &WORLD_FIRST)
}

fn copy_of_copy(world: &World) -> Result<World, Failure> {
    let copy = world.copy()?;
    Ok(copy.copy()?)
}

/// A copy of a copy of this world, once n1 is busy in it.
fn copy_of_busy(world: &mut World) -> Result<World, Failure> {
    plays(world, &BUSY)?;
    copy_of_copy(world)
}

/// A copy of a copy of the world in which n1 is busy.
fn second_copy(alloc: Global) -> Result<World, Failure> {
    let mut world = world(alloc, Problem::Second, 2)?;
    copy_of_busy(&mut world)
}

/// A copy of a copy, once the world is gone.
#[test]
fn copy_stands_alone(rt: HostRuntime) -> Outcome {
    let mut copy = second_copy(rt.alloc())?;
    play_all(&mut copy, &[&AS_IT_WAS, &GOES_ON])
}

const FALLS: [Step; 1] = [Step::Now(Deed::Fall(N1))];

const RISES: [Step; 1] = [Step::Does(Deed::Rise(N1, Age::New), Done::Up)];

const IS_DOWN: [Step; 1] = [Step::Refused(Deed::Say(1), StepFault::Down)];

const TRIED: [Turn; 3] = [
    Turn::Copy(&RISES),
    Turn::World(&IS_DOWN),
    Turn::KeptMore(N1),
];

/// A node that fell while it tried to keep its record finds in a copy what it finds in the world.
#[test]
fn what_is_tried_is_copied(rt: HostRuntime) -> Outcome {
    play_copied(rt.alloc(), &FALLS, &TRIED)
}

/// Under problem 2 c2's request lets no reader pass.
const SWITCHES: [Step; 6] = [
    Step::Does(Deed::Switch(1, Problem::Second), Done::Switched(false)),
    Step::Does(Deed::Say(1), Done::Said(7, 0)),
    Step::Does(Deed::Switch(1, Problem::First), Done::Switched(true)),
    Step::Now(Deed::Try(N1)),
    Step::Now(Deed::Kept(N1)),
    Step::Does(Deed::Say(1), Done::Said(7, 0)),
];

const PROBLEMS: [Turn; 2] = [Turn::Copy(&GOES_ON), Turn::Copy(&SWITCHES)];

/// Nodes keep their problem: a copy decides as the world does.
#[test]
fn copy_decides_by_the_problem(rt: HostRuntime) -> Outcome {
    play_copied(rt.alloc(), &[], &PROBLEMS)
}

/// As many clients as there may be each ask n1: 1,024 messages.
fn crowd(world: &mut World) -> Outcome {
    for number in 1..=MANY as u32 {
        begins(world, number, Mode::Read)?;
        happens(world, Deed::SayTo(number, 1))?;
    }
    Ok(())
}

/// Whether the client has kept the same in both, and its message is there and is the same.
fn is_same(world: &World, copy: &World, number: u32) -> Result<bool, Failure> {
    let who = Actor::Client(client(number)?);
    let kept = kept_the_same(world, copy, &who)?;
    let sent = world.sent(number);
    Ok(kept && sent.is_some() && sent == copy.sent(number))
}

fn same_crowd(world: &World, copy: &World) -> Outcome {
    for number in 1..=MANY as u32 {
        check(is_same(world, copy, number)?)?;
    }
    check(copy.sent(MANY as u32 + 1).is_none())
}

/// Whether a copy of the crowded world has what that has.
fn copies_crowd(world: &mut World) -> Outcome {
    crowd(world)?;
    let copy = world.copy()?;
    same_crowd(world, &copy)
}

#[test]
fn copy_of_a_crowd(rt: HostRuntime) -> Outcome {
    let mut world = world(rt.alloc(), Problem::First, MANY)?;
    copies_crowd(&mut world)
}

const NOTHING: [Turn; 3] = [
    Turn::KeptTheSame(Who::Node(3)),
    Turn::KeptTheSame(Who::Client(1)),
    Turn::Copy(&[
        Step::See(Sight::Unsent(1)),
        Step::See(Sight::IsUnknown(Who::Client(2))),
        Step::Does(Deed::Rise(Who::Node(3), Age::Old), Done::Up),
    ]),
];

#[test]
fn copy_of_nothing(rt: HostRuntime) -> Outcome {
    let mut world = world(rt.alloc(), Problem::First, 1)?;
    go_copied(&mut world, &NOTHING)
}
