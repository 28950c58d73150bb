// Worlds that resume from records, and worlds that start.

use crate::pairs::{are_back, told_pairs};
use crate::records::{record, records};
use crate::rows::{Deed, Done, Who};
use crate::sights::{Sight, keeps};
use crate::steps::{Step, plays, three_votes};
use admission_policy::Pair;
use lock_messages::{MAX_CLIENTS, Mode};
use lock_model::Problem;
use std::alloc::Global;
use test_outcomes::{Failure, Outcome, check, check_row};
use world_machine::{OpeningFault, World};
use world_model::{Age, StepFault};

/// Why there is no world.
#[derive(Clone, Copy)]
enum NoWorld {
    Refused(OpeningFault),
    Failed(Failure),
}

impl From<Failure> for NoWorld {
    fn from(failure: Failure) -> NoWorld {
        NoWorld::Failed(failure)
    }
}

/// Where a test expects a world, a refusal is wrong.
impl From<NoWorld> for Failure {
    fn from(cause: NoWorld) -> Failure {
        match cause {
            NoWorld::Refused(_) => Failure::Wrong(0),
            NoWorld::Failed(failure) => failure,
        }
    }
}

/// Why an opening was refused, where these pairs of policies came back.
fn refused(fault: OpeningFault, pairs: &[Pair]) -> NoWorld {
    if !are_back(pairs) {
        NoWorld::Failed(Failure::Wrong(0))
    } else if fault == OpeningFault::Memory {
        NoWorld::Failed(Failure::Memory)
    } else {
        NoWorld::Refused(fault)
    }
}

/// What came of an opening.
fn opened(answer: Result<World, (OpeningFault, Vec<Pair>)>) -> Result<World, NoWorld> {
    match answer {
        Ok(world) => Ok(world),
        Err((fault, pairs)) => Err(refused(fault, &pairs)),
    }
}

/// What comes of these records.
fn resumed(alloc: Global, nodes: &[Vec<u8>], clients: &[Vec<u8>]) -> Result<World, NoWorld> {
    let ballots = three_votes()?;
    let pairs = told_pairs(alloc)?;
    let count = ballots.nodes() as usize;
    let are_few = !clients.is_empty() && clients.len() <= MAX_CLIENTS as usize;
    if nodes.len() != count || pairs.len() != count || !are_few {
        return Err(NoWorld::Failed(Failure::Wrong(0)));
    }
    let number = clients.len() as u16;
    opened(World::resume(alloc, ballots, number, pairs, nodes, clients))
}

/// What comes of the records of these names.
fn named(alloc: Global, nodes: &str, clients: &str) -> Result<World, NoWorld> {
    let nodes = records(alloc, nodes)?;
    let clients = records(alloc, clients)?;
    resumed(alloc, &nodes, &clients)
}

/// The world of the records of these names.
pub(crate) fn world_from(alloc: Global, nodes: &str, clients: &str) -> Result<World, Failure> {
    Ok(named(alloc, nodes, clients)?)
}

/// Why records are refused.
#[derive(Clone, Copy)]
enum Cause {
    /// The actor has none.
    NoRecord(Who),
    Above,
}

/// A cause, with names of the nodes' records and of the clients'.
type Row = (Cause, &'static str, &'static str);

fn fault_of(cause: Cause) -> Result<OpeningFault, Failure> {
    match cause {
        Cause::NoRecord(who) => Ok(OpeningFault::NoRecord(who.actor()?)),
        Cause::Above => Ok(OpeningFault::EntryAboveAttempt),
    }
}

/// Whether there is no world since it was refused with this fault.
fn is_refusal(cause: Option<NoWorld>, fault: OpeningFault) -> Result<bool, Failure> {
    match cause {
        Some(NoWorld::Refused(found)) => Ok(found == fault),
        Some(NoWorld::Failed(failure)) => Err(failure),
        None => Ok(false),
    }
}

/// Whether the records of a row are refused as the row says.
fn is_refused(alloc: Global, row: &Row) -> Result<bool, Failure> {
    let (cause, nodes, clients) = *row;
    let fault = fault_of(cause)?;
    let found = named(alloc, nodes, clients).err();
    is_refusal(found, fault)
}

fn are_refused(alloc: Global, rows: &[Row]) -> Outcome {
    for (number, row) in rows.iter().enumerate() {
        check_row(is_refused(alloc, row)?, number)?;
    }
    Ok(())
}

const N1: Cause = Cause::NoRecord(Who::Node(1));

const N2: Cause = Cause::NoRecord(Who::Node(2));

const N3: Cause = Cause::NoRecord(Who::Node(3));

const C1: Cause = Cause::NoRecord(Who::Client(1));

const C2: Cause = Cause::NoRecord(Who::Client(2));

/// One cause. A node's record is too short, empty, of another version, or of no problem; a client's is too
/// short, too long, or past the greatest attempt.
const UNREADABLE: [Row; 10] = [
    (N1, "short second first", "none none"),
    (N1, "third second first", "none none"),
    (N2, "first version first", "none none"),
    (N2, "first third first", "none none"),
    (N3, "first second empty", "none none"),
    (N3, "second first third", "none none"),
    (C1, "first second first", "short none"),
    (C1, "first second first", "empty none"),
    (C2, "first second first", "none past"),
    (C2, "first second first", "none version"),
];

#[test]
fn unreadable_records(rt: HostRuntime) -> Outcome {
    are_refused(rt.alloc(), &UNREADABLE)
}

/// A floor, or an attempt that holds, is above what its client has kept; c9 isn't there.
const ABOVE: [Row; 5] = [
    (Cause::Above, "floor3 second first", "two none"),
    (Cause::Above, "first second floor3", "none three"),
    (Cause::Above, "holds3 second first", "two three"),
    (Cause::Above, "first second holds3", "none spent"),
    (Cause::Above, "stranger second first", "spent spent"),
];

#[test]
fn entries_above_their_clients(rt: HostRuntime) -> Outcome {
    are_refused(rt.alloc(), &ABOVE)
}

/// Of two causes the first actor's, nodes first, and records before entries.
const TWO_CAUSES: [Row; 6] = [
    (N1, "short version second", "short none"),
    (N2, "first third short", "none none"),
    (N3, "first second short", "short past"),
    (C1, "first second first", "past short"),
    (N3, "floor3 second third", "two none"),
    (C2, "floor3 second first", "two short"),
];

#[test]
fn two_causes_at_once(rt: HostRuntime) -> Outcome {
    are_refused(rt.alloc(), &TWO_CAUSES)
}

/// The next node, or the next client.
fn next(who: Who) -> Who {
    match who {
        Who::Node(number) => Who::Node(number.saturating_add(1)),
        Who::Client(number) => Who::Client(number.saturating_add(1)),
    }
}

/// Whether the actor has kept the record of this name.
fn has_kept(alloc: Global, world: &World, name: &str, who: Who) -> Result<bool, Failure> {
    let actor = who.actor()?;
    let bytes = record(alloc, name)?;
    keeps(world, &actor, &bytes)
}

/// Whether this actor, the next one and so on have kept the records of these names.
fn have_kept(alloc: Global, world: &World, names: &str, first: Who) -> Outcome {
    let mut who = first;
    for name in names.split_whitespace() {
        check(has_kept(alloc, world, name, who)?)?;
        who = next(who);
    }
    Ok(())
}

/// Actors are down, and no message was sent.
const DOWN: [Step; 3] = [
    Step::Refused(Deed::Fall(Who::Node(3)), StepFault::Down),
    Step::Refused(
        Deed::Rise(Who::Client(3), Age::New),
        StepFault::NothingTried,
    ),
    Step::See(Sight::Unsent(1)),
];

/// Whether the actors have kept the records of these names, and then this script is played.
fn goes_on(
    alloc: Global,
    world: &mut World,
    nodes: &str,
    clients: &str,
    script: &[Step],
) -> Outcome {
    have_kept(alloc, world, nodes, Who::Node(1))?;
    have_kept(alloc, world, clients, Who::Client(1))?;
    plays(world, script)
}

/// Whether a world goes on from records that fit: each actor has its own.
#[test]
fn records_that_fit(rt: HostRuntime) -> Outcome {
    let (nodes, clients) = ("holds3 second floor3", "three none spent");
    let mut world = world_from(rt.alloc(), nodes, clients)?;
    goes_on(rt.alloc(), &mut world, nodes, clients, &DOWN)
}

const SPENT: [Step; 3] = [
    Step::Refused(Deed::Begin(1, Mode::Read), StepFault::Down),
    Step::Does(Deed::Rise(Who::Client(1), Age::Old), Done::Up),
    Step::Refused(Deed::Begin(1, Mode::Read), StepFault::AttemptsSpent),
];

#[test]
fn greatest_attempt(rt: HostRuntime) -> Outcome {
    let mut world = world_from(rt.alloc(), "first second first", "spent")?;
    plays(&mut world, &SPENT)
}

/// Whether a node, once it rises, has this problem: to take it changes nothing, and to take the other one
/// does.
fn has_problem(world: &mut World, number: u8, problem: Problem) -> Outcome {
    let other = match problem {
        Problem::First => Problem::Second,
        Problem::Second => Problem::First,
    };
    let script = [
        Step::Does(Deed::Rise(Who::Node(number), Age::Old), Done::Up),
        Step::Does(Deed::Switch(number, problem), Done::Switched(false)),
        Step::Now(Deed::Say(number)),
        Step::Does(Deed::Switch(number, other), Done::Switched(true)),
    ];
    plays(world, &script)
}

/// Whether the nodes have these problems.
fn have_problems(world: &mut World, problems: [Problem; 3]) -> Outcome {
    let [first, second, third] = problems;
    has_problem(world, 1, first)?;
    has_problem(world, 2, second)?;
    has_problem(world, 3, third)
}

/// Records of nodes, with the problems that these then have.
const PROBLEMS: [(&str, [Problem; 3]); 4] = [
    ("first first first", [Problem::First; 3]),
    ("second second second", [Problem::Second; 3]),
    (
        "second first second",
        [Problem::Second, Problem::First, Problem::Second],
    ),
    (
        "waits3 holds3 floor3",
        [Problem::Second, Problem::First, Problem::First],
    ),
];

/// Whether the nodes of these records have these problems.
fn resume_with(alloc: Global, names: &str, problems: [Problem; 3]) -> Outcome {
    let mut world = world_from(alloc, names, "three three three")?;
    have_problems(&mut world, problems)
}

#[test]
fn problems_of_records(rt: HostRuntime) -> Outcome {
    for (names, problems) in &PROBLEMS {
        resume_with(rt.alloc(), names, *problems)?;
    }
    Ok(())
}

/// The world in which nothing is kept, with four clients, of this problem.
fn started(alloc: Global, problem: Problem) -> Result<World, Failure> {
    let ballots = three_votes()?;
    let pairs = told_pairs(alloc)?;
    if pairs.len() != ballots.nodes() as usize {
        return Err(Failure::Wrong(0));
    }
    Ok(opened(World::start(alloc, ballots, 4, problem, pairs))?)
}

/// Whether the nodes of a world that starts with this problem have it.
fn start_with(alloc: Global, problem: Problem) -> Outcome {
    let mut world = started(alloc, problem)?;
    have_problems(&mut world, [problem; 3])
}

#[test]
fn one_first_problem(rt: HostRuntime) -> Outcome {
    start_with(rt.alloc(), Problem::First)?;
    start_with(rt.alloc(), Problem::Second)
}

const EMPTY: [Step; 3] = [
    Step::Refused(Deed::Fall(Who::Client(4)), StepFault::Down),
    Step::Refused(Deed::Fall(Who::Client(5)), StepFault::UnknownActor),
    Step::Refused(Deed::Rise(Who::Node(1), Age::New), StepFault::NothingTried),
];

#[test]
fn empty_records(rt: HostRuntime) -> Outcome {
    let mut world = started(rt.alloc(), Problem::Second)?;
    let (nodes, clients) = ("second second second", "none none none none");
    goes_on(rt.alloc(), &mut world, nodes, clients, &EMPTY)
}
