//! Each node of a world decides by the pair of policies that it was given, in order, also where the world is resumed
//! from records; and a copy of a world tells none of them.

use crate::pairs::telling_pairs;
use crate::records::records;
use crate::rows::{Deed, Who};
use crate::steps::{begins, happens, three_votes};
use lock_messages::Mode;
use lock_model::Problem;
use std::alloc::Global;
use std::sync::Arc;
use std::sync::atomic::{AtomicU64, Ordering};
use test_outcomes::{Failure, Outcome, check_row};
use world_machine::World;
use world_model::Age;

/// The cell to which policies tell their notes.
type Cell = Arc<AtomicU64>;

fn cell(alloc: Global) -> Result<Cell, Failure> {
    Ok(Arc::new(alloc, AtomicU64::new(0))?)
}

/// A world of three nodes under this problem, and of three clients, that is started with these policies.
fn started(alloc: Global, problem: Problem, cell: &Cell) -> Result<World, Failure> {
    let ballots = three_votes()?;
    let pairs = telling_pairs(alloc, cell)?;
    if pairs.len() != ballots.nodes() as usize {
        return Err(Failure::Wrong(0));
    }
    match World::start(alloc, ballots, 3, problem, pairs) {
        Ok(world) => Ok(world),
        Err(_) => Err(Failure::Memory),
    }
}

/// The same under problem 1, resumed from records in which nothing was kept.
fn resumed(alloc: Global, cell: &Cell) -> Result<World, Failure> {
    let ballots = three_votes()?;
    let pairs = telling_pairs(alloc, cell)?;
    let nodes = records(alloc, "first first first")?;
    let clients = records(alloc, "none none none")?;
    let count = ballots.nodes() as usize;
    if pairs.len() != count || nodes.len() != count || clients.len() != 3 {
        return Err(Failure::Wrong(0));
    }
    match World::resume(alloc, ballots, 3, pairs, &nodes, &clients) {
        Ok(world) => Ok(world),
        Err(_) => Err(Failure::Memory),
    }
}

/// A node takes a message, after which the cell has this number.
fn takes(world: &mut World, cell: &Cell, node: u8, message: u32, told: u64) -> Outcome {
    happens(world, Deed::Take(node, message))?;
    check_row(cell.load(Ordering::SeqCst) == told, message as usize)
}

/// A node keeps what it decided, and says it.
fn finishes(world: &mut World, node: u8) -> Outcome {
    happens(world, Deed::Try(Who::Node(node)))?;
    happens(world, Deed::Kept(Who::Node(node)))?;
    happens(world, Deed::Say(node))
}

/// All nodes rise, and c1 asks each of them to read: messages 1, 2 and 3.
fn asks_all(world: &mut World) -> Outcome {
    begins(world, 1, Mode::Read)?;
    for node in 1..=3u8 {
        happens(world, Deed::Rise(Who::Node(node), Age::Old))?;
        happens(world, Deed::SayTo(1, node))?;
    }
    Ok(())
}

/// Each node takes the request, and tells its own first policy. Then n2 switches, takes the request of c2, message 5,
/// and tells its second.
fn tells_its_own(world: &mut World, cell: &Cell) -> Outcome {
    asks_all(world)?;
    takes(world, cell, 1, 1, 1)?;
    takes(world, cell, 3, 3, 100_000_001)?;
    takes(world, cell, 2, 2, 100_010_001)?;
    finishes(world, 2)?;
    happens(world, Deed::Switch(2, Problem::Second))?;
    finishes(world, 2)?;
    begins(world, 2, Mode::Read)?;
    happens(world, Deed::SayTo(2, 2))?;
    takes(world, cell, 2, 5, 101_010_001)
}

#[test]
fn a_world_that_starts(rt: HostRuntime) -> Outcome {
    let cell = cell(rt.alloc())?;
    tells_its_own(&mut started(rt.alloc(), Problem::First, &cell)?, &cell)
}

#[test]
fn a_world_that_resumes(rt: HostRuntime) -> Outcome {
    let cell = cell(rt.alloc())?;
    tells_its_own(&mut resumed(rt.alloc(), &cell)?, &cell)
}

/// In a copy n1 and n2 take their requests, which no policy is told. Then the world's n1 does, and tells its first.
fn copies_tell_nobody(world: &mut World, cell: &Cell) -> Outcome {
    asks_all(world)?;
    let mut copy = world.copy()?;
    takes(&mut copy, cell, 1, 1, 0)?;
    takes(&mut copy, cell, 2, 2, 0)?;
    takes(world, cell, 1, 1, 1)
}

#[test]
fn a_copy_of_a_world(rt: HostRuntime) -> Outcome {
    let cell = cell(rt.alloc())?;
    copies_tell_nobody(&mut started(rt.alloc(), Problem::First, &cell)?, &cell)
}

/// Under problem 2 c1 reads, c2 waits to write, and c3 waits behind it: of two readers one is admitted.
fn notes_of_a_waiting_writer(world: &mut World, cell: &Cell) -> Outcome {
    happens(world, Deed::Rise(Who::Node(1), Age::Old))?;
    let asks = [
        (1u32, Mode::Read, 100),
        (2, Mode::Write, 100),
        (3, Mode::Read, 1_100),
    ];
    let mut message = 1u32;
    for (client, mode, told) in asks {
        begins(world, client, mode)?;
        happens(world, Deed::SayTo(client, 1))?;
        takes(world, cell, 1, message, told)?;
        finishes(world, 1)?;
        message = message.saturating_add(2);
    }
    Ok(())
}

#[test]
fn one_reader_is_admitted_and_one_waits(rt: HostRuntime) -> Outcome {
    let cell = cell(rt.alloc())?;
    notes_of_a_waiting_writer(&mut started(rt.alloc(), Problem::Second, &cell)?, &cell)
}
