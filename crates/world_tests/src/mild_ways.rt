//! What others do on a way in, also where it isn't gentle: those that are down rise first, with what they have kept, and
//! then who is up finishes, and leaves what stands in the way. Nobody else begins, hears, enters, softens or falls.

use crate::generator::CLIENTS;
use crate::random_events::{SEED, goes_on, new_world, raise};
use crate::rows::{Deed, Who};
use crate::steps::{happens, world};
use lock_messages::{Actor, ClientId, Mode};
use lock_model::Problem;
use rand_pcg::Pcg32;
use std::alloc::Global;
use test_outcomes::{Failure, Outcome, check, check_row, node_id};
use test_support::{Tally, ballots_of, client, resource};
use world_machine::World;
use world_model::{Age, Event, StepFault, Want};

/// The events of a run that are tried.
const TURNS: u32 = 900;

/// After so many of them a way in is looked at.
const PAUSE: u32 = 30;

/// Whether an event disturbs nobody but the client that wants in.
fn is_mild(event: &Event, own: ClientId) -> bool {
    match *event {
        Event::Try(_)
        | Event::Kept(_)
        | Event::SayTo(..)
        | Event::Say(_)
        | Event::Take(..)
        | Event::Leave(_) => true,
        Event::Begin(client, ..) | Event::Hear(client, _) | Event::Enter(client) => client == own,
        Event::Fall(who) => who == Actor::Client(own),
        Event::Rise(_, age) => age == Age::Old,
        Event::Soften(_) | Event::Switch(..) => false,
    }
}

/// Whether an event is one with which a way in may begin: a rise, or that its client falls.
fn comes_up(event: &Event) -> bool {
    matches!(event, Event::Rise(..) | Event::Fall(_))
}

/// Whether each event is mild, and none comes up behind one that doesn't.
fn is_mild_way(way: &[Event], own: ClientId) -> bool {
    let mut right = true;
    let mut may_rise = true;
    for event in way {
        may_rise &= comes_up(event);
        right &= is_mild(event, own) && may_rise == comes_up(event);
    }
    right
}

/// How many others rise on a way in.
fn rises_of_others(way: &[Event], own: ClientId) -> usize {
    let mut count = 0usize;
    for event in way {
        let is_other = matches!(event, Event::Rise(who, _) if *who != Actor::Client(own));
        count = count.saturating_add(usize::from(is_other));
    }
    count
}

/// How many others rise on the ways in of a client as a reader and as a writer, of which each has to be mild.
fn rises_on_mild_ways(world: &World, number: u32) -> Result<usize, Failure> {
    let mut rises = 0usize;
    for mode in [Mode::Read, Mode::Write] {
        let want = Want {
            client: client(number)?,
            mode,
            resource: resource(b"a")?,
            place: 1,
        };
        let way = world.way_in(&want)?;
        check_row(is_mild_way(&way, want.client), number as usize)?;
        rises = rises.saturating_add(rises_of_others(&way, want.client));
    }
    Ok(rises)
}

/// The same once n1 and another client are down, if they aren't yet. Without n1 no writer has votes enough.
fn rises_behind_falls(world: &World, number: u32) -> Result<usize, Failure> {
    let mut fallen = world.copy()?;
    let other = client(number % CLIENTS as u32 + 1)?;
    for who in [Actor::Node(node_id(1)), Actor::Client(other)] {
        match fallen.step(&Event::Fall(who)) {
            Err(StepFault::Memory) => return Err(Failure::Memory),
            Ok(_) | Err(_) => {}
        }
    }
    rises_on_mild_ways(&fallen, number)
}

/// In a run the ways in are mild, and on those behind falls others rise.
fn ways_are_mild(world: &mut World) -> Outcome {
    raise(world)?;
    let mut words = Pcg32::new(SEED, 2);
    let mut last = node_id(1);
    let mut seen = Tally::NONE;
    let mut rises = 0usize;
    for turn in 0..TURNS {
        let (after, next) = goes_on(&mut words, world, turn, last, seen)?;
        seen = after;
        last = next;
        if turn % PAUSE == 0 {
            let number = turn / PAUSE % CLIENTS as u32 + 1;
            rises_on_mild_ways(world, number)?;
            rises = rises.saturating_add(rises_behind_falls(world, number)?);
        }
    }
    check(rises > 0)
}

#[test]
fn ways_in_disturb_nobody(rt: HostRuntime) -> Outcome {
    for problem in [Problem::First, Problem::Second] {
        let ballots = ballots_of(&[3, 1, 2, 0, 1], 3, 5)?;
        ways_are_mild(&mut new_world(rt.alloc(), problem, ballots)?)?;
    }
    Ok(())
}

/// Three nodes and four clients of which c2 alone is up: the other six rise on its way in, as a reader and as a writer.
fn all_others_rise(world: &mut World) -> Outcome {
    happens(world, Deed::Rise(Who::Client(2), Age::Old))?;
    check(rises_on_mild_ways(world, 2)? == 12)
}

#[test]
fn a_way_in_where_all_others_are_down(rt: HostRuntime) -> Outcome {
    all_others_rise(&mut world(rt.alloc(), Problem::First, 4)?)
}
