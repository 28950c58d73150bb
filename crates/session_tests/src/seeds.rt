//! The weather that a service is given is the one that its links have: a visit of one session, where parcels are only
//! lost, has just as many events as that weather says.

use crate::programs::end_of;
use crate::worlds::ballots;
use event_recorders::SharedRecorder;
use lock_messages::{Mode, ResourceName};
use lock_session::{OwnRecord, Session};
use lossy_link::{Fate, Link, Weather};
use node_threads::Work;
use std::alloc::Global;
use std::sync::Wait;
use std::thread::Threads;
use test_outcomes::{Outcome, check_row};
use test_support::{resource, weather};

/// The seeds that are tried, with 600 of a thousand parcels lost.
const SEEDS: [u64; 6] = [0, 1, 2, 7, 1_000, 9_223_372_036_854_775_807];

const LOST: u16 = 600;

/// The session of c1 comes in once; that of c2 does nothing.
#[derive(Drop)]
struct OneVisit {
    name: ResourceName,
}

impl Work for OneVisit {
    fn work<W: Wait, S: OwnRecord, R: SharedRecorder, L: Link>(
        &self,
        rt: &W,
        alloc: Global,
        session: &mut Session<S, R, L>,
    ) {
        if session.client().get() != 1 || session.ballots().count() < 1 {
            return;
        }
        if let Ok(guard) = session.enter(rt, alloc, Mode::Read, self.name, 1, 1_000) {
            let _ = guard.leave(rt, alloc);
        }
    }
}

/// How many events it takes until the client has heard an answer: it says its message again and again, until the
/// message and the answer to it arrive. A node keeps something at the first message alone.
fn events_of_one(client: &mut Weather, node: &mut Weather) -> u32 {
    let mut events = 0u32;
    let mut taken = 4u32;
    for _ in 0..1_000u32 {
        events = events.saturating_add(1);
        if client.fate() == Fate::Plain {
            events = events.saturating_add(taken);
            taken = 2;
            if node.fate() == Fate::Plain {
                break;
            }
        }
    }
    events.saturating_add(1)
}

/// How many events a service with that visit has: three rises, three for the attempt, two for the visit, and those of
/// the request and of the release.
fn events_of(weather: &Weather) -> u32 {
    let mut node = weather.at(0);
    let mut client = weather.at(1);
    let request = events_of_one(&mut client, &mut node);
    let release = events_of_one(&mut client, &mut node);
    request.saturating_add(release).saturating_add(8)
}

/// Ends the test unless the service in the weather of this seed has as many events as that says.
fn has_its_weather<R: Threads + Wait + Copy + Send + Sync>(
    rt: R,
    alloc: Global,
    seed: u64,
) -> Outcome {
    let work = OneVisit {
        name: resource(b"a")?,
    };
    let given = weather((seed, LOST, 0, 0))?;
    let events = events_of(&given);
    let end = end_of(rt, alloc, ballots()?, given, &work)?;
    check_row(end.entered == 1, 1)?;
    check_row(end.book.events() == events, 2)
}

#[test]
fn the_weather_of_a_service(rt: HostRuntime) -> Outcome {
    for seed in SEEDS {
        has_its_weather(rt, rt.alloc(), seed)?;
    }
    Ok(())
}
