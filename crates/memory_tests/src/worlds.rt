// The world: 613, of what opens it, takes and says, and of what it is asked. After a refusal the same
// event does what it would have done.
//
// A test is a script of steps, which are events and what is asked.

use crate::failures::{Failure, Kind, Outcome, check, message, refused};
use crate::policies::{for_nodes, have_let_in};
use admission_policy::Pair;
use lock_messages::{Actor, Mode, Ticket};
use lock_model::Problem;
use std::alloc::Global;
use test_outcomes::{client_id, node_id};
use test_support::{WAITS, attempt, ballots_of, event, first_ticket, resource};
use world_machine::{OpeningFault, World};
use world_model::{Effect, Event, StepFault};

/// The record of problem 1 in which c1 holds `a` as a reader, c2 waits for it as a writer.
const TWO: [u8; 52] = [
    0x01, 0x01, 0x00, 0x02, //
    0x00, 0x00, 0x00, 0x01, 0x00, 0x00, 0x00, 0x00, 0x00, 0x00, 0x00, 0x00, 0x02, 0x00, 0x00, 0x00,
    0x00, 0x00, 0x00, 0x00, 0x01, 0x00, 0x01, 0x61, //
    0x00, 0x00, 0x00, 0x02, 0x00, 0x00, 0x00, 0x00, 0x00, 0x00, 0x00, 0x00, 0x01, 0x00, 0x00, 0x00,
    0x00, 0x00, 0x00, 0x00, 0x01, 0x01, 0x01, 0x61,
];

/// A client's record: it has made one attempt.
const FIRST: [u8; 9] = [1, 0, 0, 0, 0, 0, 0, 0, 1];

/// What an opening gives; where memory is refused the policies come back as they were.
fn opened(answer: Result<World, (OpeningFault, Vec<Pair>)>) -> Result<World, Failure> {
    match answer {
        Ok(world) => Ok(world),
        Err((fault, pairs)) => match pairs.as_slice() {
            [one] => refused(fault == OpeningFault::Memory && have_let_in(one, 1, 0)),
            _ => Err(Failure::Wrong),
        },
    }
}

/// What n1 and each of the clients have kept: n1 this record, and each client its first attempt.
fn kept(alloc: Global, record: &[u8]) -> Result<Vec<Vec<u8>>, Failure> {
    let mut kept = Vec::new(alloc);
    for bytes in [record, &FIRST, &FIRST, &FIRST] {
        let mut copy = Vec::new(alloc);
        copy.extend_from_slice(bytes)?;
        kept.push(copy)?;
    }
    Ok(kept)
}

fn started(alloc: Global) -> Result<World, Failure> {
    let (ballots, pairs) = (ballots_of(&[1], 1, 1)?, for_nodes(alloc, 1)?);
    if pairs.len() != ballots.nodes() as usize {
        return Err(Failure::Wrong);
    }
    opened(World::start(alloc, ballots, 3, Problem::First, pairs))
}

fn resumed_from(alloc: Global, kept: &[Vec<u8>]) -> Result<World, Failure> {
    let (nodes, clients) = kept.split_at_checked(1).ok_or(Failure::Wrong)?;
    let (ballots, pairs) = (ballots_of(&[1], 1, 1)?, for_nodes(alloc, 1)?);
    let of_node = pairs.len() == 1 && nodes.len() == 1 && ballots.nodes() == 1;
    if !of_node || clients.len() != 3 {
        return Err(Failure::Wrong);
    }
    opened(World::resume(alloc, ballots, 3, pairs, nodes, clients))
}

/// What an event does. Messages are c1's, by its first ticket.
#[derive(Clone, Copy)]
enum Did {
    Up,
    Chose,
    Tried,
    Kept,
    /// The message of this number was sent, of this kind.
    Sent(u32, Kind),
    /// A message of this kind was taken, and the record changes.
    Took(Kind),
    /// From this number on so many were said.
    Said(u32, u32),
    Softened,
    SwitchedToTheSame,
}

/// What a script does or asks.
#[derive(Clone, Copy)]
enum Step {
    /// An event, and what it does.
    Does(&'static str, Did),
    Switches,
    /// The events of a run, by which message 2 is sent.
    Runs(&'static [&'static str]),
    Copies,
    /// The message of this number, of this kind and to or from this client.
    Sent(u32, Kind, u32),
    NotSent(u32),
    /// Whose ticket is alone inside, holds or waits, and whether it is a reader's or a writer's.
    Inside(u32, Mode),
    Holding(u32, Mode),
    Waiting(u32, Mode),
    NodeHasKept(&'static [u8]),
    ClientHasKept(&'static [u8]),
}

fn effect(did: Did) -> Result<Effect, Failure> {
    let attempt = attempt(1)?;
    Ok(match did {
        Did::Up => Effect::Up,
        Did::Chose => Effect::Chose(attempt),
        Did::Tried => Effect::Tried,
        Did::Kept => Effect::Kept,
        Did::Sent(number, kind) => Effect::Sent(number, message(kind, 1, Mode::Read)?),
        Did::Took(kind) => Effect::Took(message(kind, 1, Mode::Read)?, true),
        Did::Said(first, count) => Effect::Said { first, count },
        Did::Softened => Effect::Softened,
        Did::SwitchedToTheSame => Effect::Switched(false),
    })
}

/// What comes of an event, which is to come.
fn takes(world: &mut World, event: &Event, wanted: &Result<Effect, StepFault>) -> Outcome {
    match world.step(event) {
        Err(StepFault::Memory) => Err(Failure::Memory),
        came => check(came == *wanted),
    }
}

/// Takes an event; where memory is refused the same event is taken after that.
fn does(world: &mut World, line: &str, did: Did) -> Outcome {
    let wanted = Ok(effect(did)?);
    let Ok(event) = event(line) else {
        return Err(Failure::Wrong);
    };
    match takes(world, &event, &wanted) {
        Err(Failure::Memory) => refused(takes(world, &event, &wanted).is_ok()),
        taken => taken,
    }
}

/// n1 takes problem 1 for problem 2; where memory is refused it has nothing to say, and takes it after that.
fn switches(world: &mut World) -> Outcome {
    let node = node_id(1);
    let switch = Event::Switch(node, Problem::First);
    let wanted = Ok(Effect::Switched(true));
    match takes(world, &switch, &wanted) {
        Err(Failure::Memory) => {
            let silent = takes(world, &Event::Say(node), &Err(StepFault::NothingToSay));
            let switched = takes(world, &switch, &wanted);
            refused(silent.is_ok() && switched.is_ok())
        }
        taken => taken,
    }
}

/// Takes the events, by which message 2 is sent; a run that was stopped for want of memory goes on where it
/// stopped.
fn runs(world: &mut World, events: &[Event]) -> Outcome {
    match world.run(events) {
        Ok(taken) => check(taken == events.len() && world.sent(2).is_some()),
        Err((taken, fault)) => {
            let rest = events.get(taken..).unwrap_or(&[]);
            let went_on = world.run(rest) == Ok(rest.len()) && world.sent(2).is_some();
            refused(fault == StepFault::Memory && went_on)
        }
    }
}

/// Takes the events of these lines, ten at most, by one run.
fn runs_lines(world: &mut World, lines: &[&str]) -> Outcome {
    let mut events = [event("say n1")?; 10];
    for (place, line) in events.iter_mut().zip(lines) {
        *place = event(line)?;
    }
    runs(world, events.get(..lines.len()).unwrap_or(&[]))
}

fn says_apart(copy: &mut World, world: &World) -> Outcome {
    does(copy, "say n1", Did::Said(2, 1))?;
    check(copy.sent(2).is_some() && world.sent(2).is_none())
}

/// A copy says what the world has to say; where memory is refused the world says it.
fn copies(world: &mut World) -> Outcome {
    match world.copy() {
        Ok(copy) => {
            let mut copy = copy;
            says_apart(&mut copy, world)
        }
        Err(fault) => {
            does(world, "say n1", Did::Said(2, 1))?;
            Err(fault.into())
        }
    }
}

/// Whether the ticket of this client is alone among what was found.
fn is_alone(found: Result<Vec<Ticket>, StepFault>, number: u32, mode: Mode) -> Outcome {
    let ticket = first_ticket(number, mode)?;
    check(found?.as_slice() == [ticket].as_slice())
}

/// Whether an actor has kept these bytes.
fn has_kept(world: &World, who: Actor, bytes: &[u8]) -> Outcome {
    check(world.kept_bytes(who)?.as_slice() == bytes)
}

fn plays_step(world: &mut World, step: &Step) -> Outcome {
    let (at, resource) = (node_id(1), resource(b"a")?);
    match *step {
        Step::Does(line, did) => does(world, line, did),
        Step::Switches => switches(world),
        Step::Runs(lines) => runs_lines(world, lines),
        Step::Copies => copies(world),
        Step::Sent(number, kind, client) => {
            check(world.sent(number) == Some(message(kind, client, Mode::Read)?))
        }
        Step::NotSent(number) => check(world.sent(number).is_none()),
        Step::Inside(number, mode) => is_alone(world.inside(&resource), number, mode),
        Step::Holding(number, mode) => is_alone(world.holding(at, &resource), number, mode),
        Step::Waiting(number, mode) => is_alone(world.waiting(at, &resource), number, mode),
        Step::NodeHasKept(bytes) => has_kept(world, Actor::Node(at), bytes),
        Step::ClientHasKept(bytes) => has_kept(world, Actor::Client(client_id(2)), bytes),
    }
}

fn plays(world: &mut World, steps: &[Step]) -> Outcome {
    for step in steps {
        plays_step(world, step)?;
    }
    Ok(())
}

/// Plays the parts of a script, and the rest of it.
fn plays_parts(world: &mut World, parts: &[&[Step]], rest: &[Step]) -> Outcome {
    for steps in parts {
        plays(world, steps)?;
    }
    plays(world, rest)
}

/// Plays a script in a world in which nothing was kept.
fn plays_anew(alloc: Global, parts: &[&[Step]], rest: &[Step]) -> Outcome {
    plays_parts(&mut started(alloc)?, parts, rest)
}

/// Plays a script in a world in which n1 has kept this record, and each client its first attempt.
fn plays_from(alloc: Global, record: &[u8], steps: &[Step]) -> Outcome {
    let kept = kept(alloc, record)?;
    plays(&mut resumed_from(alloc, &kept)?, steps)
}

const NOTHING: [&[Step]; 0] = [];

const NOTHING_SENT: [Step; 1] = [Step::NotSent(1)];

#[test]
fn start_a_world(rt: HostRuntime) -> Outcome {
    plays_anew(rt.alloc(), &NOTHING, &NOTHING_SENT)
}

const NODE_UP: [Step; 1] = [Step::Does("rise n1 old", Did::Up)];

#[test]
fn rise_after_a_resume(rt: HostRuntime) -> Outcome {
    plays_from(rt.alloc(), &TWO, &NODE_UP)
}

const CLIENT_UP: [Step; 1] = [Step::Does("rise c1 old", Did::Up)];

/// c1 asks with its first ticket.
const ASKS: [Step; 3] = [
    Step::Does("begin c1 read a", Did::Chose),
    Step::Does("try c1", Did::Tried),
    Step::Does("kept c1", Did::Kept),
];

const ASKING: [&[Step]; 3] = [&NODE_UP, &CLIENT_UP, &ASKS];

/// c1's request is message 1.
const REQUESTS: [Step; 2] = [
    Step::Does("sayto c1 n1", Did::Sent(1, Kind::Request)),
    Step::NotSent(2),
];

#[test]
fn say_to_a_node(rt: HostRuntime) -> Outcome {
    plays_anew(rt.alloc(), &ASKING, &REQUESTS)
}

/// n1 takes that request, and keeps what it decides.
const TAKES: [Step; 3] = [
    Step::Does("take n1 1", Did::Took(Kind::Request)),
    Step::Does("try n1", Did::Tried),
    Step::Does("kept n1", Did::Kept),
];

const ANSWERED: [&[Step]; 5] = [&NODE_UP, &CLIENT_UP, &ASKS, &REQUESTS, &TAKES];

const GRANTS: [Step; 2] = [
    Step::Does("say n1", Did::Said(2, 1)),
    Step::Sent(2, Kind::Grant, 1),
];

#[test]
fn take_and_say(rt: HostRuntime) -> Outcome {
    plays_anew(rt.alloc(), &ANSWERED, &GRANTS)
}

const ENTERS: [Step; 2] = [
    Step::Runs(&["say n1", "hear c1 2", "enter c1"]),
    Step::Inside(1, Mode::Read),
];

#[test]
fn who_is_inside(rt: HostRuntime) -> Outcome {
    plays_anew(rt.alloc(), &ANSWERED, &ENTERS)
}

const UP: [&[Step]; 2] = [&NODE_UP, &CLIENT_UP];

/// c1, which is inside as a writer by the vote of n1, softens.
const SOFTENS: [Step; 9] = [
    Step::Runs(&[
        "begin c1 write a",
        "try c1",
        "kept c1",
        "sayto c1 n1",
        "take n1 1",
        "try n1",
        "kept n1",
        "say n1",
        "hear c1 2",
        "enter c1",
    ]),
    Step::Does("soften c1", Did::Softened),
    Step::Does("sayto c1 n1", Did::Sent(3, Kind::Soften)),
    Step::Does("take n1 3", Did::Took(Kind::Soften)),
    Step::Does("try n1", Did::Tried),
    Step::Does("kept n1", Did::Kept),
    Step::Does("say n1", Did::Said(4, 1)),
    Step::Sent(4, Kind::Softened, 1),
    Step::Inside(1, Mode::Read),
];

#[test]
fn soften_and_say(rt: HostRuntime) -> Outcome {
    plays_anew(rt.alloc(), &UP, &SOFTENS)
}

const SWITCHES: [Step; 7] = [
    Step::Does("rise n1 old", Did::Up),
    Step::Switches,
    Step::Does("try n1", Did::Tried),
    Step::Does("kept n1", Did::Kept),
    Step::Does("say n1", Did::Said(1, 1)),
    Step::Sent(1, Kind::Grant, 3),
    Step::Waiting(2, Mode::Write),
];

#[test]
fn switch_and_say(rt: HostRuntime) -> Outcome {
    plays_from(rt.alloc(), &WAITS, &SWITCHES)
}

/// Without replies a Say names the number that the next message gets.
const SAME: [Step; 4] = [
    Step::Does("rise n1 old", Did::Up),
    Step::Does("switch n1 2", Did::SwitchedToTheSame),
    Step::Does("say n1", Did::Said(1, 0)),
    Step::NotSent(1),
];

#[test]
fn switch_to_the_same_and_say(rt: HostRuntime) -> Outcome {
    plays_from(rt.alloc(), &WAITS, &SAME)
}

const ASKED: [Step; 2] = [Step::Holding(1, Mode::Read), Step::Waiting(2, Mode::Write)];

#[test]
fn who_holds_and_who_waits(rt: HostRuntime) -> Outcome {
    plays_from(rt.alloc(), &TWO, &ASKED)
}

const KEPT: [Step; 2] = [Step::NodeHasKept(&TWO), Step::ClientHasKept(&FIRST)];

#[test]
fn kept_bytes(rt: HostRuntime) -> Outcome {
    plays_from(rt.alloc(), &TWO, &KEPT)
}

const COPIES: [Step; 1] = [Step::Copies];

#[test]
fn copy_and_say(rt: HostRuntime) -> Outcome {
    plays_anew(rt.alloc(), &ANSWERED, &COPIES)
}

const RUNS: [Step; 1] = [Step::Runs(&["sayto c1 n1", "take n1 1", "try n1", "kept n1", "say n1"])];

#[test]
fn run_to_an_answer(rt: HostRuntime) -> Outcome {
    plays_anew(rt.alloc(), &ASKING, &RUNS)
}
