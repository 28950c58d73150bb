// What a test lets c1 or n1 do beside others, and what it expects of that.

use crate::client_runs::{end_alone, end_beside};
use crate::judging::{Check, Ended, judge};
use crate::node_runs::end_of_node;
use crate::posts::post_all;
use crate::records::Device;
use crate::watches::{ENOUGH, Room, Watch};
use event_recorders::RunFault;
use lock_messages::Actor;
use lock_model::Problem;
use lossy_link::ListLink;
use std::alloc::Global;
use std::sync::{Arc, Wait};
use test_outcomes::{Failure, Outcome, client_id, node_id};
use test_support::in_row;

/// What a client's loop answers. A node's answer is told as that of a client that entered nothing.
pub(crate) type Answer = Result<u32, (u32, RunFault)>;

/// Whose loop runs.
#[derive(Clone, Copy)]
pub(crate) enum Who {
    /// That of c1, which has made this attempt last, in a book of its own.
    Alone(u64),
    /// That of c1, in the book of all.
    Client,
    /// That of n1 under this problem, in the book of all.
    Node(Problem),
}

/// Who answers what c1 or n1 sends in the book of all.
#[derive(Clone, Copy)]
pub(crate) enum Beside<'r> {
    /// Others log these lines, the first of them before the first post comes, and so on.
    Lines(&'r [&'r str]),
    /// The node of the first number takes what it is sent and answers. Before the answer to each message that
    /// changes what it keeps it nudges so often, and it may be gone behind its first answer. The node of the
    /// second number is gone for who sends to another.
    Node(u8, u8, u32, bool),
}

/// A run of c1 or of n1: on which device its record lies, what it wishes, what others log before it rises, who
/// is beside it, what comes over its link, how many nudges of which node come behind that, what its recorder has
/// room for, and how many parcels its link takes.
#[derive(Clone, Copy)]
pub(crate) struct Run<'r> {
    pub(crate) who: Who,
    pub(crate) device: Device,
    pub(crate) wishes: &'r str,
    pub(crate) before: &'r str,
    pub(crate) beside: Beside<'r>,
    pub(crate) posts: &'r str,
    pub(crate) nudges: (u8, usize),
    pub(crate) room: Room,
    pub(crate) parcels: u32,
}

/// A client alone that wishes nothing, with a record in memory and room for all.
pub(crate) const ALONE: Run<'static> = Run {
    who: Who::Alone(0),
    device: Device::Memory,
    wishes: "",
    before: "",
    beside: Beside::Lines(&[]),
    posts: "",
    nudges: (1, 0),
    room: ENOUGH,
    parcels: 10_000,
};

/// The same client in the book of all.
pub(crate) const CLIENT: Run<'static> = Run {
    who: Who::Client,
    ..ALONE
};

/// The same beside n1, which has risen and answers.
pub(crate) const BESIDE: Run<'static> = Run {
    before: "rise n1 old\n",
    beside: Beside::Node(1, 2, 0, false),
    ..CLIENT
};

/// A node under problem 1 in the book of all.
pub(crate) const NODE: Run<'static> = Run {
    who: Who::Node(Problem::First),
    ..ALONE
};

/// A run, what it has to leave, and what its loop has to answer.
#[derive(Clone, Copy)]
pub(crate) struct Row {
    pub(crate) run: Run<'static>,
    pub(crate) checks: &'static [Check],
    pub(crate) answer: Answer,
}

/// Whose loop runs.
fn actor(who: Who) -> Actor {
    match who {
        Who::Node(_) => Actor::Node(node_id(1)),
        Who::Alone(_) | Who::Client => Actor::Client(client_id(1)),
    }
}

/// Lets a run go to its end, and writes the journal, which an audit has to find sound; answers what the loop
/// answered.
fn end_of<R: Wait + Copy>(
    rt: R,
    alloc: Global,
    run: &Run<'_>,
    link: &mut ListLink,
    watch: &Arc<Watch>,
    journal: &mut Vec<u8>,
) -> Result<Answer, Failure> {
    match run.who {
        Who::Alone(attempt) => end_alone(rt, alloc, attempt, run, link, watch, journal),
        Who::Client => end_beside(rt, alloc, run, link, watch, journal),
        Who::Node(problem) => end_of_node(rt, alloc, problem, run, link, watch, journal),
    }
}

/// Ends the test unless a run leaves what is checked, and its loop answers so.
pub(crate) fn ends_as<R: Wait + Copy>(
    rt: R,
    alloc: Global,
    run: &Run<'_>,
    checks: &[Check],
    answer: Answer,
) -> Outcome {
    let actor = &actor(run.who);
    let watch = Watch::shared(alloc, *actor)?;
    let mut posts = Vec::new(alloc);
    let is_posted = post_all(alloc, run.posts, run.nudges, &mut posts);
    let mut link = ListLink::of(posts);
    let mut journal = Vec::new(alloc);
    let found = match is_posted {
        Ok(()) => end_of(rt, alloc, run, &mut link, &watch, &mut journal),
        Err(failure) => Err(failure),
    };
    let ended = Ended {
        actor: *actor,
        before: run.before,
        journal: &journal,
        sent: link.sent(),
        seen: watch.seen(),
    };
    judge(alloc, &ended, checks, found, answer)
}

/// Ends the test unless a run does what its row says.
pub(crate) fn does<R: Wait + Copy>(rt: R, alloc: Global, row: &Row) -> Outcome {
    ends_as(rt, alloc, &row.run, row.checks, row.answer)
}

/// Ends the test, in the row that is wrong, unless each run of a table does what its row says.
pub(crate) fn do_all<R: Wait + Copy>(rt: R, alloc: Global, rows: &[Row]) -> Outcome {
    for (number, row) in rows.iter().enumerate() {
        in_row(does(rt, alloc, row), number)?;
    }
    Ok(())
}
