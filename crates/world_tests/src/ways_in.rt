// Ways in: from worlds of random runs each leads in, in small worlds it is what has to happen and no more,
// and in great ones there is room for it, or it is said that there is none.

use crate::generator::{CLIENTS, name};
use crate::openings::world_from;
use crate::random_events::{SEED, ballots, goes_on, new_world, raise};
use crate::rows::{Deed, Who};
use crate::sights::{Sight, are_so};
use crate::steps::{Step, plays, runs, world};
use lock_messages::{Mode, Ticket};
use lock_model::Problem;
use rand_pcg::Pcg32;
use std::alloc::Global;
use test_outcomes::{Failure, Outcome, check, node_id};
use test_support::{Tally, ballots_of, client, in_row, resource};
use vote_weights::BallotList;
use world_machine::World;
use world_model::{Age, Event, StepFault, Want};

/// The events of a run that are tried.
const TURNS: u32 = 1_500;

/// After so many of them the ways in are looked at.
const PAUSE: u32 = 75;

/// The most that a way in says in a world of 5 nodes and 6 clients: a node has no more than 7 replies still
/// to say and 6 tickets that wait, and each of 5 others in the way says a release and is answered, and the
/// client itself is.
const ROOM: u32 = 125;

/// As many clients as there may be.
const MANY: u16 = 1_024;

/// As many messages as there may be.
const LAST: u32 = 1_048_576;

/// A client wants `a` in this mode, by the ballot at this place.
#[derive(Clone, Copy)]
struct Wish(u32, Mode, u8);

fn want(wish: Wish) -> Result<Want, Failure> {
    let Wish(number, mode, place) = wish;
    let (client, resource) = (client(number)?, resource(b"a")?);
    Ok(Want {
        client,
        mode,
        resource,
        place,
    })
}

fn is_wanted(ticket: &Ticket, want: &Want) -> bool {
    let mut wanted = ticket.client == want.client;
    wanted &= ticket.mode == want.mode;
    wanted &= ticket.resource.bytes() == want.resource.bytes();
    wanted
}

/// Whether the client is inside as it wants to be.
fn is_inside(world: &World, want: &Want) -> bool {
    match world.ticket_inside(want.client) {
        Some(ticket) => is_wanted(&ticket, want),
        None => false,
    }
}

/// A world takes the events of a way in, and the client is inside then, and these are so.
fn is_led(world: &mut World, way: &[Event], want: &Want, sights: &[Sight]) -> Outcome {
    runs(world, way)?;
    check(is_inside(world, want))?;
    are_so(world, sights)
}

/// Each event of the way in is taken by a copy of the world, in which the client is inside then, and in which
/// these are so.
fn leads_in(world: &World, want: &Want, sights: &[Sight]) -> Outcome {
    let way = world.way_in(want)?;
    let mut copy = world.copy()?;
    is_led(&mut copy, &way, want, sights)
}

/// The client gets in as a reader and as a writer, and neither way says more than there is room for.
fn gets_in(world: &World, reader: &Want, sent: u32) -> Outcome {
    let writer = Want {
        mode: Mode::Write,
        ..*reader
    };
    let room = [Sight::Unsent(sent.saturating_add(ROOM + 1))];
    leads_in(world, reader, &room)?;
    leads_in(world, &writer, &room)
}

/// A client gets into each resource by each ballot.
fn gets_everywhere(world: &World, number: u32, sent: u32, places: u8) -> Outcome {
    for place in 1..=places {
        let first = want(Wish(number, Mode::Read, place))?;
        let other = Want {
            resource: name(1)?,
            ..first
        };
        gets_in(world, &first, sent)?;
        gets_in(world, &other, sent)?;
    }
    Ok(())
}

/// In a run each client in turn gets in, by each of so many ballots.
fn all_get_in(world: &mut World, places: u8) -> Outcome {
    raise(world)?;
    let mut words = Pcg32::new(SEED, 1);
    let mut last = node_id(1);
    let mut seen = Tally::NONE;
    for turn in 0..TURNS {
        let (after, next) = goes_on(&mut words, world, turn, last, seen)?;
        seen = after;
        last = next;
        if turn % PAUSE == 0 {
            let number = turn / PAUSE % CLIENTS as u32 + 1;
            gets_everywhere(world, number, seen.sent, places)?;
        }
    }
    Ok(())
}

/// In a run that begins under this problem, with these ballots, each client in turn gets in.
fn runs_lead_in(alloc: Global, problem: Problem, ballots: BallotList) -> Outcome {
    let places = ballots.count();
    let mut world = new_world(alloc, problem, ballots)?;
    all_get_in(&mut world, places)
}

/// One ballot of unlike votes.
fn one_ballot() -> Result<BallotList, Failure> {
    ballots_of(&[3, 1, 2, 0, 1], 3, 5)
}

#[test]
fn random_runs_by_one_ballot(rt: HostRuntime) -> Outcome {
    runs_lead_in(rt.alloc(), Problem::First, one_ballot()?)?;
    runs_lead_in(rt.alloc(), Problem::Second, one_ballot()?)
}

#[test]
fn random_runs_by_two_ballots(rt: HostRuntime) -> Outcome {
    runs_lead_in(rt.alloc(), Problem::First, ballots()?)?;
    runs_lead_in(rt.alloc(), Problem::Second, ballots()?)
}

/// A turn of a script about ways in.
#[derive(Clone, Copy)]
enum Turn {
    Plays(&'static [Step]),
    /// The way in is just this.
    Way(Wish, &'static [Deed]),
    /// The way in begins so.
    WayBegins(Wish, &'static [Deed]),
    /// This is on the way in.
    WayHas(Wish, Deed),
    /// The way leads in, and these are so then.
    Leads(Wish, &'static [Sight]),
    /// There is no way in, and this is why.
    NoWay(Wish, StepFault),
}

fn is(event: &Event, deed: Deed) -> bool {
    match deed.event() {
        Ok(wanted) => wanted == *event,
        Err(_) => false,
    }
}

/// Whether the events are just these.
fn are(events: &[Event], deeds: &[Deed]) -> bool {
    let mut same = events.len() == deeds.len();
    for (event, deed) in events.iter().zip(deeds) {
        same &= is(event, *deed);
    }
    same
}

fn is_way(world: &World, wish: Wish, deeds: &[Deed]) -> Outcome {
    let way = world.way_in(&want(wish)?)?;
    check(are(&way, deeds))
}

fn way_begins(world: &World, wish: Wish, deeds: &[Deed]) -> Outcome {
    let way = world.way_in(&want(wish)?)?;
    check(match way.get(..deeds.len()) {
        Some(events) => are(events, deeds),
        None => false,
    })
}

/// Whether this is among the events.
fn has(events: &[Event], deed: Deed) -> bool {
    let mut found = false;
    for event in events {
        found |= is(event, deed);
    }
    found
}

fn way_has(world: &World, wish: Wish, deed: Deed) -> Outcome {
    let way = world.way_in(&want(wish)?)?;
    check(has(&way, deed))
}

fn has_none(world: &World, want: &Want, fault: StepFault) -> Outcome {
    match world.way_in(want) {
        Err(found) if found == fault => Ok(()),
        Err(found) => Err(Failure::from(found)),
        Ok(_) => Err(Failure::Wrong(0)),
    }
}

fn goes(world: &mut World, turn: &Turn) -> Outcome {
    match *turn {
        Turn::Plays(script) => plays(world, script),
        Turn::Way(wish, deeds) => is_way(world, wish, deeds),
        Turn::WayBegins(wish, deeds) => way_begins(world, wish, deeds),
        Turn::WayHas(wish, deed) => way_has(world, wish, deed),
        Turn::Leads(wish, sights) => leads_in(world, &want(wish)?, sights),
        Turn::NoWay(wish, fault) => has_none(world, &want(wish)?, fault),
    }
}

/// Takes these turns in a world; what goes wrong is told by the turn's place.
fn all_go(world: &mut World, turns: &[Turn]) -> Outcome {
    for (row, turn) in turns.iter().enumerate() {
        in_row(goes(world, turn), row)?;
    }
    Ok(())
}

/// Three nodes are up, and all clients are down.
const NODES_UP: [Step; 3] = [
    Step::Now(Deed::Rise(Who::Node(1), Age::Old)),
    Step::Now(Deed::Rise(Who::Node(2), Age::Old)),
    Step::Now(Deed::Rise(Who::Node(3), Age::Old)),
];

/// Takes these turns in a world once its nodes are up.
fn go_up(world: &mut World, turns: &[Turn]) -> Outcome {
    plays(world, &NODES_UP)?;
    all_go(world, turns)
}

/// Takes these turns in a world of nodes that are up, and of so many clients.
fn play(alloc: Global, clients: u16, turns: &[Turn]) -> Outcome {
    let mut world = world(alloc, Problem::First, clients)?;
    go_up(&mut world, turns)
}

/// c1 rises, begins, asks each node, which takes its request, keeps what it decided, and says it; c1 hears
/// that, and enters at last.
const ALL_GRANT: [Deed; 23] = [
    Deed::Rise(Who::Client(1), Age::Old),
    Deed::Begin(1, Mode::Write),
    Deed::Try(Who::Client(1)),
    Deed::Kept(Who::Client(1)),
    Deed::SayTo(1, 1),
    Deed::Take(1, 1),
    Deed::Try(Who::Node(1)),
    Deed::Kept(Who::Node(1)),
    Deed::Say(1),
    Deed::Hear(1, 2),
    Deed::SayTo(1, 2),
    Deed::Take(2, 3),
    Deed::Try(Who::Node(2)),
    Deed::Kept(Who::Node(2)),
    Deed::Say(2),
    Deed::Hear(1, 4),
    Deed::SayTo(1, 3),
    Deed::Take(3, 5),
    Deed::Try(Who::Node(3)),
    Deed::Kept(Who::Node(3)),
    Deed::Say(3),
    Deed::Hear(1, 6),
    Deed::Enter(1),
];

/// With nobody in the way just that happens.
#[test]
fn nobody_in_the_way(rt: HostRuntime) -> Outcome {
    play(
        rt.alloc(),
        2,
        &[Turn::Way(Wish(1, Mode::Write, 1), &ALL_GRANT)],
    )
}

/// c1 is inside as a reader by the votes of all nodes: six messages.
const READER_INSIDE: [Step; 6] = [
    Step::Begins(1, Mode::Read),
    Step::Asks(1, 1, 1),
    Step::Asks(1, 2, 3),
    Step::Asks(1, 3, 5),
    Step::Now(Deed::Enter(1)),
    Step::See(Sight::IsInside(1, Mode::Read)),
];

/// The same as a writer.
const WRITER_INSIDE: [Step; 6] = [
    Step::Begins(1, Mode::Write),
    Step::Asks(1, 1, 1),
    Step::Asks(1, 2, 3),
    Step::Asks(1, 3, 5),
    Step::Now(Deed::Enter(1)),
    Step::See(Sight::IsInside(1, Mode::Write)),
];

const GOES: [Turn; 4] = [
    Turn::Plays(&READER_INSIDE),
    Turn::Plays(&[Step::Now(Deed::Rise(Who::Client(2), Age::Old))]),
    Turn::WayBegins(
        Wish(2, Mode::Write, 1),
        &[Deed::Leave(1), Deed::SayTo(1, 1), Deed::Take(1, 7)],
    ),
    Turn::Leads(Wish(2, Mode::Write, 1), &[Sight::IsOutside(1)]),
];

/// A reader is inside, and a writer that is up wants in: first the reader leaves, and says its release.
#[test]
fn reader_goes(rt: HostRuntime) -> Outcome {
    play(rt.alloc(), 2, &GOES)
}

const STAYS: [Turn; 2] = [
    Turn::Plays(&READER_INSIDE),
    Turn::Leads(Wish(2, Mode::Read, 1), &[Sight::IsInside(1, Mode::Read)]),
];

/// Another reader is in nobody's way.
#[test]
fn reader_stays(rt: HostRuntime) -> Outcome {
    play(rt.alloc(), 2, &STAYS)
}

const RISES: [Turn; 4] = [
    Turn::Plays(&WRITER_INSIDE),
    Turn::Plays(&[Step::Now(Deed::Fall(Who::Client(1)))]),
    Turn::WayHas(Wish(2, Mode::Read, 1), Deed::Rise(Who::Client(1), Age::Old)),
    Turn::Leads(Wish(2, Mode::Read, 1), &[]),
];

/// A writer fell while it held all votes: it has to rise, to say its release.
#[test]
fn fallen_writer_rises(rt: HostRuntime) -> Outcome {
    play(rt.alloc(), 2, &RISES)
}

const INSIDE: [Turn; 5] = [
    Turn::Plays(&WRITER_INSIDE),
    Turn::Way(Wish(1, Mode::Write, 1), &[]),
    Turn::Plays(&[Step::Now(Deed::Soften(1))]),
    Turn::Way(Wish(1, Mode::Read, 1), &[]),
    Turn::Leads(Wish(1, Mode::Write, 1), &[]),
];

/// Who is inside as it wants to be has nothing to do, also as the reader that it has become.
#[test]
fn inside_already(rt: HostRuntime) -> Outcome {
    play(rt.alloc(), 2, &INSIDE)
}

const NOWHERE: [Turn; 4] = [
    Turn::NoWay(Wish(3, Mode::Read, 1), StepFault::UnknownActor),
    Turn::NoWay(Wish(3, Mode::Read, 2), StepFault::UnknownActor),
    Turn::NoWay(Wish(2, Mode::Read, 0), StepFault::NoSuchPlace),
    Turn::NoWay(Wish(2, Mode::Write, 2), StepFault::NoSuchPlace),
];

/// No such client, or no such place; of both the client is told.
#[test]
fn nowhere_to_get_in(rt: HostRuntime) -> Outcome {
    play(rt.alloc(), 2, &NOWHERE)
}

const SPENT: [Turn; 3] = [
    Turn::NoWay(Wish(1, Mode::Read, 1), StepFault::AttemptsSpent),
    Turn::NoWay(Wish(1, Mode::Write, 2), StepFault::AttemptsSpent),
    Turn::Leads(Wish(2, Mode::Write, 1), &[]),
];

/// c1 has kept the greatest attempt, c2 none.
#[test]
fn attempts_are_spent(rt: HostRuntime) -> Outcome {
    let mut world = world_from(rt.alloc(), "first second first", "spent none")?;
    all_go(&mut world, &SPENT)
}

const ROOM_FOR_SIX: [Turn; 4] = [
    Turn::Plays(&[
        Step::Begins(1, Mode::Read),
        Step::Often(Deed::SayTo(1, 1), LAST - 6),
    ]),
    Turn::Leads(Wish(2, Mode::Write, 1), &[Sight::IsSent(LAST)]),
    Turn::Plays(&[Step::Often(Deed::SayTo(1, 1), 1)]),
    Turn::NoWay(Wish(2, Mode::Write, 1), StepFault::SentListFull),
];

/// A way in that says six messages is one while there is room for six.
#[test]
fn room_for_a_way_in(rt: HostRuntime) -> Outcome {
    play(rt.alloc(), 2, &ROOM_FOR_SIX)
}

const CROWD: [Turn; 2] = [
    Turn::Plays(&[
        Step::Begins(1, Mode::Read),
        Step::Asks(1, 1, 1),
        Step::Begins(512, Mode::Read),
        Step::Asks(512, 1, 3),
        Step::Begins(1_023, Mode::Read),
        Step::Asks(1_023, 1, 5),
        Step::See(Sight::HoldingSo(3)),
    ]),
    Turn::Leads(
        Wish(MANY as u32, Mode::Write, 1),
        &[Sight::Holding(1, b"a", &[(MANY as u32, Mode::Write)])],
    ),
];

/// Of as many clients as there may be the first, one between and the last but one hold the vote of n1 as
/// readers, and the last wants in as a writer: they go.
#[test]
fn crowd_goes(rt: HostRuntime) -> Outcome {
    play(rt.alloc(), MANY, &CROWD)
}
