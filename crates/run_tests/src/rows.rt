// Runs as rows: the setting, the wishes and the devices of each, and what is to be seen of its end.

ghost use Rattle.std.specs.Prelude.{◌≡◌, ◌≤◌, length};
ghost use Rattle.lock_model.specs.Ballots.{node_count};
ghost use Rattle.lock_messages.specs.declared.ids.TheConstants.{MAX_CLIENTS};

use crate::given::{records, wishes};
use admission_policy::Pair;
use book_support::journal_of;
use event_recorders::{Gate, RunFault};
use lock_messages::{Actor, MAX_CLIENTS};
use lock_model::Problem;
use node_threads::{RunEnd, run_all};
use std::alloc::Global;
use std::sync::Wait;
use std::thread::Threads;
use test_outcomes::{Failure, Outcome, check_row};
use test_support::{Device, ballots_of, new_world, place_of, plain_pairs, text_of, weather};
use vote_weights::BallotList;

/// Who ends by which fault.
#[derive(Clone, Copy)]
pub(crate) enum Ends {
    Node(u8, RunFault),
    Client(u32, RunFault),
}

impl Ends {
    /// Whether it is this actor by this fault.
    fn is(self, actor: Actor, fault: RunFault) -> bool {
        match (self, actor) {
            (Ends::Node(number, by), Actor::Node(node)) => node.get() == number && by == fault,
            (Ends::Client(number, by), Actor::Client(client)) => {
                client.get() == number && by == fault
            }
            _ => false,
        }
    }
}

/// What a run is given: its ballot, its clients, its wishes, the devices of its nodes and of its clients,
/// and its weather by a seed and the odds of loss, repeats and delays. And what is to be seen of its end.
#[derive(Clone, Copy)]
pub(crate) struct Row<'a> {
    pub(crate) votes: &'a [u8],
    pub(crate) read: u16,
    pub(crate) write: u16,
    pub(crate) clients: u16,
    pub(crate) wishes: &'a [&'a [u8]],
    pub(crate) devices: &'a [Device],
    pub(crate) of_clients: Device,
    pub(crate) weather: (u64, u16, u16, u16),
    /// How many entries it has.
    pub(crate) entered: u32,
    /// How many events, where that is the same in each run.
    pub(crate) events: Option<u32>,
    /// Who ends by a fault, in order.
    pub(crate) faults: &'a [Ends],
    /// Beginnings of lines, each with all lines of the journal that begin so, in order.
    pub(crate) lines: &'a [(&'a str, &'a str)],
    /// Lines that stand in the journal once, the first of a pair before the other.
    pub(crate) order: &'a [(&'a str, &'a str)],
    /// The number by which the test tells that another number of entries or other faults were seen.
    pub(crate) number: usize,
}

/// Three nodes with a vote each, of which two read and two write, and four clients, in fair weather. Nobody ends by
/// a fault; the wishes and the entries are a row's own.
pub(crate) const PLAIN: Row<'static> = Row {
    votes: &[1, 1, 1],
    read: 2,
    write: 2,
    clients: 4,
    wishes: &[],
    devices: &[Device::Memory; 3],
    of_clients: Device::Memory,
    weather: (1, 0, 0, 0),
    entered: 0,
    events: None,
    faults: &[],
    lines: &[],
    order: &[],
    number: 1,
};

/// A run's end, and the journal of its book.
#[derive(Drop)]
pub(crate) struct Seen {
    pub(crate) end: RunEnd,
    pub(crate) journal: Vec<u8>,
}

/// Runs a row of these ballots, with the policies of its nodes and the gate.
fn end_of<R: Threads + Wait + Copy + Send, G: Gate + Sync>(
    rt: R,
    alloc: Global,
    row: &Row<'_>,
    ballots: BallotList,
    pairs: Vec<Pair>,
    gate: &G,
) -> Result<RunEnd, Failure>
    requires some { 1 ≤ row.now.clients }
    requires few { row.now.clients ≤ MAX_CLIENTS }
    requires devices { length row.now.devices.now ≡ node_count ballots }
    requires policies { length pairs.items ≡ node_count ballots }
{
    let weather = weather(row.weather)?;
    let wishes = wishes(alloc, row.clients, &ballots, row.wishes)?;
    let records = records(alloc, row.devices, row.of_clients, row.clients)?;
    let world = new_world(alloc, ballots, Problem::First, row.clients)?;
    match run_all(
        rt,
        alloc,
        ballots,
        wishes.as_slice(),
        records,
        world,
        pairs,
        weather,
        gate,
    ) {
        Ok(end) => Ok(end),
        Err(_) => Err(Failure::Memory),
    }
}

/// Runs the row, with the gate, and audits its journal.
pub(crate) fn run_row<R: Threads + Wait + Copy + Send, G: Gate + Sync>(
    rt: R,
    alloc: Global,
    row: &Row<'_>,
    gate: &G,
) -> Result<Seen, Failure> {
    let ballots = ballots_of(row.votes, row.read, row.write)?;
    let pairs = plain_pairs(alloc, ballots.nodes())?;
    run_row_by(rt, alloc, row, pairs, gate)
}

/// Runs the row, with the policies of its nodes and the gate, and audits its journal.
pub(crate) fn run_row_by<R: Threads + Wait + Copy + Send, G: Gate + Sync>(
    rt: R,
    alloc: Global,
    row: &Row<'_>,
    pairs: Vec<Pair>,
    gate: &G,
) -> Result<Seen, Failure> {
    let ballots = ballots_of(row.votes, row.read, row.write)?;
    if row.clients < 1
        || u32::from(row.clients) > MAX_CLIENTS
        || row.devices.len() != row.votes.len()
        || pairs.len() != row.votes.len()
    {
        return Err(Failure::Wrong(0));
    }
    let end = end_of(rt, alloc, row, ballots, pairs, gate)?;
    let opening = new_world(alloc, ballots, Problem::First, row.clients)?;
    let journal = journal_of(alloc, &end.book, opening)?;
    Ok(Seen { end, journal })
}

/// Ends the test unless just these actors ended by these faults. A run for which memory was refused ends it by that.
fn are_faults(found: &[(Actor, RunFault)], expected: &[Ends], number: usize) -> Outcome {
    let mut are_same = found.len() == expected.len();
    let mut had_memory = true;
    for (place, (actor, fault)) in found.iter().enumerate() {
        had_memory &= *fault != RunFault::Memory;
        are_same &= match expected.get(place) {
            Some(ends) => ends.is(*actor, *fault),
            None => false,
        };
    }
    if !had_memory {
        return Err(Failure::Memory);
    }
    check_row(are_same, number)
}

/// Whether the lines of a text that begin so are just these, in order.
pub(crate) fn has_lines(text: &str, start: &str, expected: &str) -> bool {
    let mut expected = expected.lines();
    let mut are_same = true;
    for line in text.lines() {
        if line.starts_with(start) {
            are_same &= expected.next() == Some(line);
        }
    }
    are_same && expected.next().is_none()
}

/// Ends the test unless the journal has the row's lines.
fn are_lines(journal: &[u8], row: &Row<'_>) -> Outcome {
    let text = text_of(journal)?;
    let mut are_same = true;
    for (start, expected) in row.lines {
        are_same &= has_lines(text, start, expected);
    }
    check_row(are_same, 3)?;
    for (first, then) in row.order {
        check_row(place_of(text, first)? < place_of(text, then)?, row.number)?;
    }
    Ok(())
}

/// Ends the test unless of a run's end is seen what the row says.
pub(crate) fn is_right(seen: &Seen, row: &Row<'_>) -> Outcome {
    let end = &seen.end;
    are_faults(end.faults.as_slice(), row.faults, row.number)?;
    check_row(end.entered == row.entered, row.number)?;
    let events = end.book.events();
    check_row(row.events.unwrap_or(events) == events, 2)?;
    are_lines(seen.journal.as_slice(), row)
}

/// Runs the row with the gate, and ends the test unless it ends as the row says.
pub(crate) fn goes<R: Threads + Wait + Copy + Send, G: Gate + Sync>(
    rt: R,
    alloc: Global,
    row: &Row<'_>,
    gate: &G,
) -> Outcome {
    let seen = run_row(rt, alloc, row, gate)?;
    is_right(&seen, row)
}
