//! The weather that a run is given is the one that its links have: a run of one client and one node, where parcels are
//! only lost, has just as many events as that weather says.

use crate::gates::OpenGate;
use crate::rows::{PLAIN, Row, goes};
use crate::served::prints;
use lossy_link::{Fate, Weather};
use std::alloc::Global;
use std::sync::Wait;
use std::thread::Threads;
use test_outcomes::{Failure, Outcome};
use test_support::Device;

/// The seeds that are tried, with 600 of a thousand parcels lost.
const SEEDS: [u64; 6] = [0, 1, 2, 7, 1_000, 9_223_372_036_854_775_807];

const LOST: u16 = 600;

/// Whether the next parcel over a link in this weather arrives.
fn arrives(weather: &mut Weather) -> bool {
    weather.fate() == Fate::Plain
}

/// How many events it takes until the client has heard an answer: it says its message again and again, until the
/// message and the answer to it arrive. A node keeps something at the first message alone.
fn events_of_one(client: &mut Weather, node: &mut Weather) -> u32 {
    let mut events = 0u32;
    let mut taken = 4u32;
    for _ in 0..1_000u32 {
        events = events.saturating_add(1);
        if arrives(client) {
            events = events.saturating_add(taken);
            taken = 2;
            if arrives(node) {
                break;
            }
        }
    }
    events.saturating_add(1)
}

/// How many events a run of one wish has: two rises, three for the attempt, two for the visit, and those of the
/// request and of the release.
fn events_of(weather: &Weather) -> u32 {
    let mut node = weather.at(0);
    let mut client = weather.at(1);
    let request = events_of_one(&mut client, &mut node);
    let release = events_of_one(&mut client, &mut node);
    request.saturating_add(release).saturating_add(7)
}

fn weather(seed: u64) -> Result<Weather, Failure> {
    Weather::of(seed, LOST, 0, 0).or(Err(Failure::Wrong(0)))
}

const ONE_OF_EACH: Row<'static> = Row {
    votes: &[1],
    read: 1,
    write: 1,
    clients: 1,
    wishes: &[b"c1 read a"],
    devices: &[Device::Memory],
    entered: 1,
    ..PLAIN
};

#[test]
fn the_weather_of_a_run(rt: HostRuntime) -> Outcome {
    for seed in SEEDS {
        let row = Row {
            weather: (seed, LOST, 0, 0),
            events: Some(events_of(&weather(seed)?)),
            ..ONE_OF_EACH
        };
        goes(rt, rt.alloc(), &row, &OpenGate)?;
    }
    Ok(())
}

/// Ends the test unless a run whose settings name the seed prints as many events as its weather says.
fn prints_events<R: Threads + Wait + Copy + Send>(rt: R, alloc: Global, seed: u64) -> Outcome {
    let events = events_of(&weather(seed)?);
    let settings = format!(in alloc;
        "votes = [1]\nread = 1\nwrite = 1\nproblem = 1\nclients = 1\nseed = {seed}\nlose = {LOST}\nwishes = ['c1 read a']\n---\n"
    )?;
    let expected = format!(in alloc; "entered 1\nevents {events}\n")?;
    prints(rt, alloc, &settings, &expected)
}

#[test]
fn the_seed_of_settings(rt: HostRuntime) -> Outcome {
    for seed in SEEDS {
        prints_events(rt, rt.alloc(), seed)?;
    }
    Ok(())
}
