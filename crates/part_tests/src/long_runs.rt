//! Long runs and many entries: the plain decision and a node's core answer the same, and no memory is
//! wanting.

ghost use Rattle.std.specs.Prelude.{◌≤◌};

use crate::courses::{Course, follows};
use crate::nodes::{keeps, new_core, same_step, speaks, takes};
use crate::replies::Replies;
use crate::rows::{both, release, ticket};
use crate::switches::{crowded_node, entries_of, other, switched};
use lock_messages::{Attempt, ClientId, Message, Mode, NodeId, ResourceName};
use lock_model::{Entry, Live, Problem, Status};
use rand_core::utils::NextWord;
use rand_pcg::Pcg32;
use stable_record::{Line, ResourceIndex};
use std::alloc::Global;
use test_outcomes::{Outcome, check_answers};
use voter_core::NodeCore;

/// The seed of the messages.
const SEED: u64 = 1971;

/// A number from 1 to `most`.
fn number_up_to(words: &mut Pcg32, most: u32) -> u32
    requires { 1 ≤ most }
{
    words.next_word() % most + 1
}

/// The request to n1 to read, or at 1 to write, resource 1, 2 or 3.
fn request(client: u32, attempt: u64, mode: u32, resource: u32) -> Option<Message> {
    let mode = if mode == 1 { Mode::Write } else { Mode::Read };
    let name = match resource {
        1 => b"a",
        2 => b"b",
        _ => b"c",
    };
    match ticket(client, attempt, mode, name) {
        Some(ticket) => Some(Message::Request(NodeId::of(1).unwrap(), ticket)),
        None => None,
    }
}

/// The softening of an attempt of a client, to n1.
fn soften(client: u32, attempt: u64) -> Option<Message> {
    match (ClientId::of(client), Attempt::of(attempt)) {
        (Some(client), Some(attempt)) => {
            Some(Message::Soften(NodeId::of(1).unwrap(), client, attempt))
        }
        _ => None,
    }
}

/// Some message of 20 clients about 3 resources: of one of the next three attempts.
fn some_message(words: &mut Pcg32, last: u64) -> Option<Message> {
    let client = number_up_to(words, 20);
    let attempt = last.saturating_add(number_up_to(words, 3) as u64);
    match number_up_to(words, 4) {
        1 => release(client, attempt),
        2 => soften(client, attempt),
        _ => {
            let (mode, resource) = (number_up_to(words, 3), number_up_to(words, 3));
            request(client, attempt, mode, resource)
        }
    }
}

/// Takes some message by the plain decision and by the core; whether it softens a ticket.
fn softens(
    alloc: Global,
    problem: Problem,
    core: &mut NodeCore,
    entries: &mut Vec<Entry>,
    message: Option<Message>,
) -> Option<bool> {
    let Some(message) = message else {
        return None;
    };
    let is_softening = matches!(message, Message::Soften(..));
    match same_step(alloc, problem, core, entries, &message, &Replies::Any) {
        Some(changed) => Some(changed && is_softening),
        None => None,
    }
}

/// Whether the core and the plain decision agree on the same 2,000 messages, of which a few soften a
/// ticket.
pub(crate) fn agree(
    alloc: Global,
    problem: Problem,
    core: &mut NodeCore,
    entries: &mut Vec<Entry>,
) -> Option<bool> {
    let mut words = Pcg32::new(SEED, 1);
    let mut right = true;
    let mut softened = 0u32;
    for turn in 0..2_000u64 {
        let message = some_message(&mut words, turn / 100);
        let found = softens(alloc, problem, core, entries, message);
        right &= found.is_some();
        softened = softened.saturating_add(u32::from(found == Some(true)));
    }
    right.then_some(softened >= 20)
}

#[test]
fn long_runs_as_plain(rt: HostRuntime) -> Outcome {
    let (first, second) = (Problem::First, Problem::Second);
    check_answers(&[
        follows(
            rt.alloc(),
            new_core(rt.alloc(), first),
            &Course::RunsLong(first),
        ),
        follows(
            rt.alloc(),
            new_core(rt.alloc(), second),
            &Course::RunsLong(second),
        ),
    ])
}

/// Whether both have the same tickets.
fn same_tickets(one: &Line, other: &Line) -> bool {
    one.holders() == other.holders()
        && one.has_writing_holder() == other.has_writing_holder()
        && one.waiting_writers() == other.waiting_writers()
        && one.waiting() == other.waiting()
}

/// Whether both have the same line of a resource, or none.
fn same_line(one: &ResourceIndex, other: &ResourceIndex, resource: &ResourceName) -> bool {
    match (one.line(resource), other.line(resource)) {
        (Some(one), Some(other)) => same_tickets(one, other),
        (None, None) => true,
        (Some(_), None) | (None, Some(_)) => false,
    }
}

/// Whether both have the same line of each resource from `a` to `h`, or none.
fn same_lines(one: &ResourceIndex, other: &ResourceIndex) -> bool {
    let mut same = true;
    for letter in b"abcdefgh" {
        if let Some(resource) = ResourceName::of(&[*letter]) {
            same &= same_line(one, other, &resource);
        }
    }
    same
}

/// Whether the index that the core keeps is that of its record, at each resource from `a` to `h`.
pub(crate) fn keeps_its_index(alloc: Global, core: &NodeCore) -> Option<bool> {
    match ResourceIndex::of(alloc, core.record()) {
        Ok(fresh) => Some(same_lines(core.index(), &fresh)),
        Err(_) => None,
    }
}

/// Takes some message, keeps it and replies. Whether the index that the core keeps is then that of its record.
fn goes_on(alloc: Global, core: &mut NodeCore, message: Option<Message>) -> Option<bool> {
    let Some(message) = message else {
        return None;
    };
    let taken = takes(core, &message).is_some();
    keeps(core);
    let replied = speaks(core).is_some();
    both(
        (taken && replied).then_some(true),
        keeps_its_index(alloc, core),
    )
}

/// Whether the index goes along with the entries over the same 2,000 messages.
pub(crate) fn goes_along(alloc: Global, core: &mut NodeCore) -> Option<bool> {
    let mut words = Pcg32::new(SEED, 1);
    let mut right = Some(true);
    for turn in 0..2_000u64 {
        let message = some_message(&mut words, turn / 100);
        right = both(right, goes_on(alloc, core, message));
    }
    right
}

#[test]
fn index_of_long_runs(rt: HostRuntime) -> Outcome {
    let first = new_core(rt.alloc(), Problem::First);
    let second = new_core(rt.alloc(), Problem::Second);
    check_answers(&[
        follows(rt.alloc(), first, &Course::KeepsItsIndex),
        follows(rt.alloc(), second, &Course::KeepsItsIndex),
    ])
}

/// Takes some message by the plain decision, from the entries of the node's record, and by the core; whether
/// both do the same.
fn same_turn(
    alloc: Global,
    problem: Problem,
    core: &mut NodeCore,
    message: Option<Message>,
) -> bool {
    match entries_of(alloc, core) {
        Some(entries) => {
            let mut entries = entries;
            softens(alloc, problem, core, &mut entries, message).is_some()
        }
        None => false,
    }
}

/// Whether a node goes on as the plain decision does over 2,000 messages, while every tenth turn gives it
/// the next of both problems in turn; and its index goes along. Of the switches some let in a reader.
pub(crate) fn agree_through_switches(
    alloc: Global,
    core: &mut NodeCore,
    first: Problem,
) -> Option<bool> {
    let mut words = Pcg32::new(SEED, 1);
    let mut problem = first;
    let mut right = true;
    let mut let_in = 0usize;
    for turn in 0..2_000u64 {
        let message = some_message(&mut words, turn / 100);
        right &= same_turn(alloc, problem, core, message);
        if turn % 10 == 9 {
            problem = other(problem);
            let more = switched(alloc, core, problem);
            right &= more.is_some();
            let_in = let_in.saturating_add(more.unwrap_or(0));
        }
    }
    right.then_some(let_in >= 20)
}

#[test]
fn long_runs_through_switches(rt: HostRuntime) -> Outcome {
    let first = new_core(rt.alloc(), Problem::First);
    let second = new_core(rt.alloc(), Problem::Second);
    check_answers(&[
        follows(
            rt.alloc(),
            first,
            &Course::RunsThroughSwitches(Problem::First),
        ),
        follows(
            rt.alloc(),
            second,
            &Course::RunsThroughSwitches(Problem::Second),
        ),
    ])
}

/// Whether a message is answered by one reply.
fn has_one_reply(
    alloc: Global,
    problem: Problem,
    core: &mut NodeCore,
    entries: &mut Vec<Entry>,
    message: Option<Message>,
) -> bool {
    match message {
        Some(message) => {
            same_step(alloc, problem, core, entries, &message, &Replies::One).is_some()
        }
        None => false,
    }
}

/// Whether a hundred readers of one resource come and go again, each with one reply.
pub(crate) fn come_and_go(
    alloc: Global,
    problem: Problem,
    core: &mut NodeCore,
    entries: &mut Vec<Entry>,
) -> Option<bool> {
    let mut right = true;
    for number in 0..200u32 {
        let message = if number < 100 {
            request(number + 1, 1, 0, 1)
        } else {
            release(number - 99, 1)
        };
        right &= has_one_reply(alloc, problem, core, entries, message);
    }
    right.then_some(entries.len() == 100)
}

/// Adds the entry of a client: c1 holds `a` as a writer, every other waits for it as a reader. Whether there
/// was memory.
fn add_waiter(entries: &mut Vec<Entry>, number: u32) -> bool {
    let (mode, status) = match number {
        1 => (Mode::Write, Status::Holding),
        _ => (Mode::Read, Status::Waiting),
    };
    match ticket(number, 1, mode, b"a") {
        Some(ticket) => {
            let live = Live {
                attempt: ticket.attempt,
                mode,
                resource: ticket.resource,
                status,
            };
            let entry = Entry {
                client: ticket.client,
                floor: 0,
                live: Some(live),
            };
            entries.push(entry).is_ok()
        }
        None => false,
    }
}

/// Adds the entries of c1 to c1024; whether there was memory.
fn add_waiters(entries: &mut Vec<Entry>) -> bool {
    let mut added = true;
    for number in 1..=1_024u32 {
        added &= add_waiter(entries, number);
    }
    added
}

/// Whether c1's message, by which it holds no longer or as a reader, lets in c2 to c1024, in this order.
pub(crate) fn lets_in(
    alloc: Global,
    core: &mut NodeCore,
    entries: &mut Vec<Entry>,
    message: &Message,
) -> Option<bool> {
    let added = add_waiters(entries);
    let want = Replies::ToAll;
    let changed = same_step(alloc, Problem::First, core, entries, message, &want);
    both(added.then_some(true), changed)
}

/// The same of a message, in the node where c1 holds and all others wait.
fn lets_all_in(alloc: Global, message: Option<Message>) -> Option<bool> {
    let Some(message) = message else {
        return None;
    };
    let core = crowded_node(alloc, Problem::First);
    follows(alloc, core, &Course::LetsIn(&message))
}

#[test]
fn many_entries(rt: HostRuntime) -> Outcome {
    let (first, second) = (Problem::First, Problem::Second);
    check_answers(&[
        follows(
            rt.alloc(),
            new_core(rt.alloc(), first),
            &Course::ComesAndGoes(first),
        ),
        follows(
            rt.alloc(),
            new_core(rt.alloc(), second),
            &Course::ComesAndGoes(second),
        ),
        lets_all_in(rt.alloc(), release(1, 1)),
        lets_all_in(rt.alloc(), soften(1, 1)),
    ])
}
