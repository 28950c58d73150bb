//! What a node is led through, with its core beside the plain decision. (One function that owns a core, and
//! names all courses, is cheaper to prove than one for each test.)

use crate::scripts::Step;
use crate::{decisions, long_runs, scripts, switches};
use lock_messages::Message;
use lock_model::{Entry, Problem};
use std::alloc::Global;
use voter_core::NodeCore;

/// What a script leaves: entries of this shape, or this record.
#[derive(Clone, Copy)]
pub(crate) enum Left {
    Shape(&'static str),
    Record(&'static str),
}

/// What a node is led through.
#[derive(Clone, Copy)]
pub(crate) enum Course<'a> {
    /// A script of messages, which leaves this.
    Leads(Problem, &'a str, Left),
    /// A beginning, and then the releases of an order.
    Settles(Problem, &'a str, &'a str),
    /// Readers of one resource, who come and go again.
    ComesAndGoes(Problem),
    /// A message of c1, which lets in all others.
    LetsIn(&'a Message),
    /// What is for a client, where c1 reads `a`.
    ChangesNothing,
    /// A long run beside the plain decision.
    RunsLong(Problem),
    /// The same, while it takes the other problem in turn.
    RunsThroughSwitches(Problem),
    /// The same messages, beside the index of the record.
    KeepsItsIndex,
    /// Switches, of which the first lets in all readers.
    LetsInOnce,
    /// The steps of a script.
    Plays(&'a [Step]),
}

/// Whether a node, and the plain decision from these entries, go as a course says.
fn goes(
    alloc: Global,
    core: &mut NodeCore,
    entries: &mut Vec<Entry>,
    course: &Course,
) -> Option<bool> {
    match *course {
        Course::Leads(problem, script, left) => {
            decisions::leads(alloc, problem, core, entries, script, left)
        }
        Course::Settles(problem, beginning, order) => {
            decisions::settles(alloc, problem, core, entries, beginning, order)
        }
        Course::ComesAndGoes(problem) => long_runs::come_and_go(alloc, problem, core, entries),
        Course::LetsIn(message) => long_runs::lets_in(alloc, core, entries, message),
        Course::ChangesNothing => decisions::others_change_nothing(alloc, core, entries),
        Course::RunsLong(problem) => long_runs::agree(alloc, problem, core, entries),
        Course::RunsThroughSwitches(first) => {
            long_runs::agree_through_switches(alloc, core, first)
        }
        Course::KeepsItsIndex => long_runs::goes_along(alloc, core),
        Course::LetsInOnce => switches::lets_in_once(alloc, core),
        Course::Plays(script) => scripts::plays(alloc, core, script),
    }
}

/// Whether a node goes as a course says, and the plain decision from no entries; none where there is no node.
pub(crate) fn follows(alloc: Global, core: Option<NodeCore>, course: &Course) -> Option<bool> {
    match core {
        Some(core) => {
            let mut core = core;
            let mut entries = Vec::new(alloc);
            goes(alloc, &mut core, &mut entries, course)
        }
        None => None,
    }
}
