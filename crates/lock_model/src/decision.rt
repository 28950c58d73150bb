// The plain decision: slow and obvious, and what every faster one is compared with.

ghost use Rattle.std.specs.Prelude.{◌≡◌, ◌≢◌, ◌+◌, ◌∷◌, [], ◌↔◌, IfOk, OnOk, IsTrue, map, filter, not, if◌then◌else◌, option_to_list};
ghost use Rattle.std.specs.Option.{option_copied};
ghost use Rattle.lock_model.specs.ExactStations.{is_of, knows, entry_of, settled, admits};
ghost use Rattle.lock_model.specs.ExactDecisions.{ended_entry, ended, moved_last, same_mode, live_reply, softened_entry, softened, softens, reply_of_live, floor_in, live_in, reply_to_known, new_entry, grants, takes_up, releases, decision, Changes, same_entries, changes};

use crate::settling::{admits, settle};
use crate::{Entry, Live, Problem, Status};
use lock_messages::{Attempt, ClientId, Message, Mode, NodeId, Ticket};
use std::alloc::{AllocError, Global};

/// What a node decided on a message.
#[derive(Debug, Drop)]
pub struct Decision {
    /// The entries after it, in the order in which tickets arrived.
    pub entries: Vec<Entry>,
    /// The replies, in the order in which they are said: the sender's, then the Grants of the
    /// tickets that settling made holders, in the order of the entries.
    pub replies: Vec<Message>,
    /// Whether the entries, or their order, differ from those before.
    pub changed: bool,
}

fn knows(entries: &[Entry], client: ClientId) -> bool
    ensures { result ≡ knows client entries.now }
{
    entries.iter().any(|entry| entry.is_of(client))
}

/// The entries with the attempts of a client that has one ended.
fn ended_known(
    alloc: Global,
    entries: &[Entry],
    client: ClientId,
    attempt: u64,
) -> Result<Vec<Entry>, AllocError>
    ensures { IfOk result (λ v. v.items ≡ map (λ e. if is_of client e then ended_entry attempt e else e) entries.now) }
{
    entries
        .iter()
        .map(|entry| entry.ended_for(client, attempt))
        .collect(alloc)
}

/// The entries with the client's attempts up to this one ended. A stranger's entry comes last.
fn ended(
    alloc: Global,
    entries: &[Entry],
    client: ClientId,
    attempt: u64,
) -> Result<Vec<Entry>, AllocError>
    ensures { IfOk result (λ v. v.items ≡ ended client attempt entries.now) }
{
    if knows(entries, client) {
        return ended_known(alloc, entries, client, attempt);
    }
    let mut all = entries.to_vec(alloc)?;
    all.push(Entry {
        client,
        floor: attempt,
        live: None,
    })?;
    Ok(all)
}

/// The entries of the other clients.
fn others(alloc: Global, entries: &[Entry], client: ClientId) -> Result<Vec<Entry>, AllocError>
    ensures { IfOk result (λ v. v.items ≡ filter (λ e. not (is_of client e)) entries.now) }
{
    entries
        .iter()
        .filter(|entry| !entry.is_of(client))
        .copied()
        .collect(alloc)
}

/// The entries with this one last, in place of its client's.
fn move_last(alloc: Global, entries: &[Entry], entry: Entry) -> Result<Vec<Entry>, AllocError>
    ensures { IfOk result (λ v. v.items ≡ moved_last entry entries.now) }
{
    let mut all = others(alloc, entries, entry.client)?;
    all.push(entry)?;
    Ok(all)
}

fn same_mode(a: Mode, b: Mode) -> bool
    ensures { result ≡ same_mode a b }
{
    a == b
}

/// The reply to a ticket whose attempt is the live one.
fn live_reply(node: NodeId, ticket: &Ticket, live: &Live) -> Message
    ensures { result ≡ live_reply node ticket.now live.now }
{
    if !same_mode(live.asked_mode(), ticket.mode) || live.resource != ticket.resource {
        return Message::Muddled(node, ticket.client, ticket.attempt);
    }
    match live.status {
        Status::Waiting => Message::Busy(node, *ticket),
        Status::Holding => Message::Grant(node, *ticket),
        Status::Softened => Message::Softened(node, ticket.client, ticket.attempt),
    }
}

/// A node's reply to a ticket that it has met before, by its client's entry; none for a new one.
///
/// `Over` where the attempt has ended, `Muddled` where the live ticket of this attempt was asked for in
/// another mode or for another resource, else `Grant` where it holds, `Busy` where it waits and
/// `Softened` where it is softened (our own rules).
pub fn reply_to_known(node: NodeId, ticket: &Ticket, found: Option<Entry>) -> Option<Message>
    ensures { result ≡ reply_to_known node ticket.now found }
{
    let (floor, live) = match found {
        None => (0, None),
        Some(entry) => (entry.floor, entry.live),
    };
    if ticket.attempt.get() <= floor {
        return Some(Message::Over(node, ticket.client, ticket.attempt));
    }
    let live = live?;
    if live.attempt == ticket.attempt {
        Some(live_reply(node, ticket, &live))
    } else {
        None
    }
}

/// The entry of a ticket that is taken up: it holds where it is admitted, else it waits, and the
/// attempts before it have ended.
pub fn new_entry(ticket: &Ticket, admitted: bool) -> Entry
    ensures { result ≡ new_entry ticket.now admitted }
{
    Entry {
        client: ticket.client,
        floor: ticket.attempt.get() - 1,
        live: Some(Live {
            attempt: ticket.attempt,
            mode: ticket.mode,
            resource: ticket.resource,
            status: if admitted {
                Status::Holding
            } else {
                Status::Waiting
            },
        }),
    }
}

/// What a decision leaves and says, before it is compared with what was.
#[derive(Drop)]
struct Outcome {
    entries: Vec<Entry>,
    replies: Vec<Message>,
}

/// Settles the entries behind a first reply.
fn settle_behind(
    alloc: Global,
    problem: Problem,
    node: NodeId,
    mut entries: Vec<Entry>,
    first: Message,
) -> Result<Outcome, AllocError>
    ensures entries { IfOk result (λ o. o.entries.items ≡ settled problem entries.items) }
    ensures replies { IfOk result (λ o. o.replies.items ≡ first ∷ grants node entries.items (settled problem entries.items)) }
{
    let mut replies = Vec::new(alloc);
    replies.push(first)?;
    settle(problem, node, &mut entries, &mut replies)?;
    Ok(Outcome { entries, replies })
}

/// A message that changes nothing.
fn unchanged(
    alloc: Global,
    entries: &[Entry],
    reply: Option<Message>,
) -> Result<Outcome, AllocError>
    ensures entries { IfOk result (λ o. o.entries.items ≡ entries.now) }
    ensures replies { IfOk result (λ o. o.replies.items ≡ option_to_list reply) }
{
    let mut replies = Vec::new(alloc);
    if let Some(reply) = reply {
        replies.push(reply)?;
    }
    Ok(Outcome {
        entries: entries.to_vec(alloc)?,
        replies,
    })
}

/// Takes up a new ticket: the attempts before it end, the others settle, and then it is admitted or
/// waits.
fn take_up(
    alloc: Global,
    problem: Problem,
    node: NodeId,
    entries: &[Entry],
    ticket: &Ticket,
) -> Result<Outcome, AllocError>
    ensures entries { IfOk result (λ o. o.entries.items ≡ (takes_up node problem entries.now ticket.now).entries) }
    ensures replies { IfOk result (λ o. o.replies.items ≡ (takes_up node problem entries.now ticket.now).replies) }
{
    let mut settled = ended(alloc, entries, ticket.client, ticket.attempt.get() - 1)?;
    let mut replies = Vec::new(alloc);
    settle(problem, node, &mut settled, &mut replies)?;
    let admitted = admits(problem, ticket.mode, &ticket.resource, &settled);
    let first = if admitted {
        Message::Grant(node, *ticket)
    } else {
        Message::Busy(node, *ticket)
    };
    replies.insert(0, first)?;
    let entries = move_last(alloc, &settled, new_entry(ticket, admitted))?;
    Ok(Outcome { entries, replies })
}

fn entry_of(entries: &[Entry], client: ClientId) -> Option<Entry>
    ensures { result ≡ entry_of entries.now client }
{
    for entry in entries {
        if entry.is_of(client) {
            return Some(*entry);
        }
    }
    None
}

/// Answers a request.
fn request(
    alloc: Global,
    problem: Problem,
    node: NodeId,
    entries: &[Entry],
    ticket: &Ticket,
) -> Result<Outcome, AllocError>
    ensures entries { IfOk result (λ o. o.entries.items ≡ (decision problem entries.now (Message.Request node ticket.now)).entries) }
    ensures replies { IfOk result (λ o. o.replies.items ≡ (decision problem entries.now (Message.Request node ticket.now)).replies) }
{
    let found = entry_of(entries, ticket.client);
    match reply_to_known(node, ticket, found) {
        Some(reply) => unchanged(alloc, entries, Some(reply)),
        None => take_up(alloc, problem, node, entries, ticket),
    }
}

/// Takes a release.
fn release(
    alloc: Global,
    problem: Problem,
    node: NodeId,
    entries: &[Entry],
    client: ClientId,
    attempt: Attempt,
) -> Result<Outcome, AllocError>
    ensures entries { IfOk result (λ o. o.entries.items ≡ (releases node problem entries.now client attempt).entries) }
    ensures replies { IfOk result (λ o. o.replies.items ≡ (releases node problem entries.now client attempt).replies) }
{
    let ended = ended(alloc, entries, client, attempt.get())?;
    let done = Message::Done(node, client, attempt);
    settle_behind(alloc, problem, node, ended, done)
}

/// The entries with an attempt of the client softened; each stays where it is.
fn softened(
    alloc: Global,
    entries: &[Entry],
    client: ClientId,
    attempt: Attempt,
) -> Result<Vec<Entry>, AllocError>
    ensures { IfOk result (λ v. v.items ≡ softened client attempt entries.now) }
{
    entries
        .iter()
        .map(|entry| entry.softened_for(client, attempt))
        .collect(alloc)
}

/// Takes a softening.
fn soften(
    alloc: Global,
    problem: Problem,
    node: NodeId,
    entries: &[Entry],
    client: ClientId,
    attempt: Attempt,
) -> Result<Outcome, AllocError>
    ensures entries { IfOk result (λ o. o.entries.items ≡ (softens node problem entries.now client attempt).entries) }
    ensures replies { IfOk result (λ o. o.replies.items ≡ (softens node problem entries.now client attempt).replies) }
{
    let softened = softened(alloc, entries, client, attempt)?;
    let first = Message::Softened(node, client, attempt);
    settle_behind(alloc, problem, node, softened, first)
}

fn answer(
    alloc: Global,
    problem: Problem,
    entries: &[Entry],
    message: &Message,
) -> Result<Outcome, AllocError>
    ensures entries { IfOk result (λ o. o.entries.items ≡ (decision problem entries.now message.now).entries) }
    ensures replies { IfOk result (λ o. o.replies.items ≡ (decision problem entries.now message.now).replies) }
{
    match message {
        Message::Request(node, ticket) => request(alloc, problem, *node, entries, ticket),
        Message::Release(node, client, attempt) => {
            release(alloc, problem, *node, entries, *client, *attempt)
        }
        Message::Soften(node, client, attempt) => {
            soften(alloc, problem, *node, entries, *client, *attempt)
        }
        Message::Grant(..)
        | Message::Busy(..)
        | Message::Over(..)
        | Message::Done(..)
        | Message::Muddled(..)
        | Message::Softened(..) => unchanged(alloc, entries, None),
    }
}

/// Whether the entries, or their order, differ.
fn differ(before: &[Entry], after: &[Entry]) -> bool
    ensures differ { IsTrue result ↔ (after.now ≢ before.now) }
    ensures test { result ≡ not (same_entries before.now after.now) }
{
    before != after
}

/// Decides on a message: the entries after it, and the replies.
///
/// The entries are those of one node, in the order in which tickets arrived, each client once. A
/// message that is neither a request nor a release nor a softening changes nothing and has no reply.
/// Settling goes over all entries; the time is the square of their number. The rules are those of
/// problems 1 and 2 (Courtois, Heymans and Parnas 1971), applied by a node to its own vote; attempts,
/// floors, softening and the order of the entries are our own.
///
/// The only error is want of memory.
pub fn decide(
    alloc: Global,
    problem: Problem,
    entries: &[Entry],
    message: &Message,
) -> Result<Decision, AllocError>
    ensures entries { IfOk result (λ d. d.entries.items ≡ (decision problem entries.now message.now).entries) }
    ensures replies { IfOk result (λ d. d.replies.items ≡ (decision problem entries.now message.now).replies) }
    ensures changed { IfOk result (λ d. IsTrue d.changed ↔ Changes problem entries.now message.now) }
    ensures changes { IfOk result (λ d. d.changed ≡ changes problem entries.now message.now) }
{
    let outcome = answer(alloc, problem, entries, message)?;
    let changed = differ(entries, &outcome.entries);
    Ok(Decision {
        entries: outcome.entries,
        replies: outcome.replies,
        changed,
    })
}
