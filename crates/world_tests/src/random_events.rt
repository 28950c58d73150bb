// Long runs of a fixed generator: after each event a writer inside is alone, and whoever waits at a node
// has a cause under the node's present problem. Contracts say so of every world; this shows that they say it
// of worlds in which clients enter and soften, and nodes take other problems.

use crate::generator::{CLIENTS, NODES, event_of_turn, name, node};
use crate::rows::{Deed, Who};
use crate::steps::{happens, world_by};
use lock_messages::{Actor, Mode, NodeId, ResourceName, Ticket};
use lock_model::Problem;
use rand_pcg::Pcg32;
use std::alloc::Global;
use test_outcomes::{Failure, Outcome, check, check_row};
use test_support::Tally;
use vote_weights::{Ballot, BallotList};
use world_machine::World;
use world_model::{Age, Effect, Event, StepFault};

/// The seed of the events.
pub(crate) const SEED: u64 = 23;

/// The events that are tried; more than 3,000 of them are taken.
const TURNS: u32 = 14_000;

/// Two ballots of unlike votes, each two of which cross.
pub(crate) fn ballots() -> Result<BallotList, Failure> {
    let Ok(first) = Ballot::of(&[3, 1, 2, 0, 1], 3, 5) else {
        return Err(Failure::Wrong(0));
    };
    let Ok(second) = Ballot::of(&[2, 1, 2, 1, 1], 4, 6) else {
        return Err(Failure::Wrong(0));
    };
    match BallotList::of(&[first, second]) {
        Ok(ballots) => Ok(ballots),
        Err(_) => Err(Failure::Wrong(0)),
    }
}

/// A world of nodes with unlike votes, all down under this problem, nothing kept.
pub(crate) fn new_world(
    alloc: Global,
    problem: Problem,
    ballots: BallotList,
) -> Result<World, Failure> {
    world_by(alloc, ballots, problem, CLIENTS)
}

/// All actors rise: the nodes, and then the clients.
pub(crate) fn raise(world: &mut World) -> Outcome {
    for number in 1..=NODES {
        happens(world, Deed::Rise(Who::Node(number), Age::Old))?;
    }
    for number in 1..=u32::from(CLIENTS) {
        happens(world, Deed::Rise(Who::Client(number), Age::Old))?;
    }
    Ok(())
}

/// Whether a writer is among these.
fn have_writer(tickets: &[Ticket]) -> bool {
    let mut found = false;
    for ticket in tickets {
        found |= ticket.mode == Mode::Write;
    }
    found
}

/// Whether these are readers, or one writer alone.
fn are_exclusive(tickets: &[Ticket]) -> bool {
    !have_writer(tickets) || tickets.len() == 1
}

/// Whether those inside this resource are readers, or one writer alone.
fn is_exclusive(world: &World, name: &ResourceName) -> Result<bool, Failure> {
    let tickets = world.inside(name)?;
    Ok(are_exclusive(&tickets))
}

/// Whether each of these that wait has a cause: a writer any holder, a reader a writer that holds or,
/// under problem 2, one that waits.
fn are_caused(problem: Problem, holding: &[Ticket], waiting: &[Ticket]) -> bool {
    let stops_readers = match problem {
        Problem::First => have_writer(holding),
        Problem::Second => have_writer(holding) || have_writer(waiting),
    };
    let stops_writers = !holding.is_empty();
    let mut caused = true;
    for ticket in waiting {
        caused &= match ticket.mode {
            Mode::Read => stops_readers,
            Mode::Write => stops_writers,
        };
    }
    caused
}

/// The problem of a node's record.
fn problem_in(record: &[u8]) -> Result<Problem, Failure> {
    match record.get(1).copied() {
        Some(1) => Ok(Problem::First),
        Some(2) => Ok(Problem::Second),
        _ => Err(Failure::Wrong(0)),
    }
}

/// The problem of the record that the node has kept.
fn present_problem(world: &World, node: NodeId) -> Result<Problem, Failure> {
    match world.kept_bytes(Actor::Node(node)) {
        Ok(kept) => problem_in(&kept),
        Err(fault) => Err(Failure::from(fault)),
    }
}

/// Whether a node's holders of this resource are readers, or one writer alone, and whoever waits for it has
/// a cause under this problem.
fn is_settled(
    world: &World,
    problem: Problem,
    node: NodeId,
    name: &ResourceName,
) -> Result<bool, Failure> {
    let holding = world.holding(node, name)?;
    let waiting = world.waiting(node, name)?;
    Ok(are_exclusive(&holding) && are_caused(problem, &holding, &waiting))
}

/// Whether a writer that is inside is alone, and this node is settled under its present problem.
fn look(world: &World, node: NodeId) -> Outcome {
    let problem = present_problem(world, node)?;
    for number in 0..2 {
        let name = name(number)?;
        let alone = is_exclusive(world, &name)?;
        check(alone && is_settled(world, problem, node, &name)?)?;
    }
    Ok(())
}

/// Whether what is said, also where that is nothing, is numbered from the next message on.
fn follows(sent: u32, effect: &Effect) -> bool {
    match effect {
        Effect::Said { first, .. } => *first == sent.saturating_add(1),
        _ => true,
    }
}

/// Takes an event.
fn seen_after(world: &mut World, event: &Event, seen: Tally) -> Result<Tally, Failure> {
    match world.step(event) {
        Ok(effect) => {
            check(follows(seen.sent, &effect))?;
            Ok(seen.after(&effect))
        }
        Err(StepFault::Memory) => Err(Failure::Memory),
        Err(_) => Ok(seen),
    }
}

/// Tries the event of a turn: what is seen then, and the node that was to take a message last.
pub(crate) fn goes_on(
    words: &mut Pcg32,
    world: &mut World,
    turn: u32,
    last: NodeId,
    seen: Tally,
) -> Result<(Tally, NodeId), Failure> {
    let Ok(event) = event_of_turn(words, world, turn, last, seen.sent) else {
        return Err(Failure::Wrong(0));
    };
    let next = match event {
        Event::Take(node, _) | Event::Switch(node, _) => node,
        _ => last,
    };
    let after = seen_after(world, &event, seen)?;
    Ok((after, next))
}

/// A run in this world, of which each turn is looked at, sees enough.
fn is_long(world: &mut World) -> Outcome {
    raise(world)?;
    let mut words = Pcg32::new(SEED, 1);
    let mut last = node(0);
    let mut seen = Tally::NONE;
    for turn in 0..TURNS {
        let (after, next) = goes_on(&mut words, world, turn, last, seen)?;
        seen = after;
        last = next;
        look(world, last)?;
        look(world, node(turn))?;
    }
    check_row(seen.taken >= 3_000, 1)?;
    check_row(seen.entered >= 20, 2)?;
    check_row(seen.softened >= 5, 3)?;
    check_row(seen.switched >= 50, 4)
}

fn enters_often(alloc: Global, problem: Problem) -> Outcome {
    let mut world = new_world(alloc, problem, ballots()?)?;
    is_long(&mut world)
}

#[test]
fn writers_are_alone_in_random_runs(rt: HostRuntime) -> Outcome {
    enters_often(rt.alloc(), Problem::First)?;
    enters_often(rt.alloc(), Problem::Second)
}
