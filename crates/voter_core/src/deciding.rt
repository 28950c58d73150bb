// A node's decision on a message, made in its entries.

ghost use Rattle.std.specs.Prelude.{◌≡◌, ◌≢◌, ◌≤◌, ◌<◌, ◌+◌, ◌-◌, ◌↔◌, ℕ, List, [], length, Bool, true, false, Option, Some, None, nat_lt, is_ok, is_some, IfSome, IfOk, OnOk, OnErr, IsTrue, slice_set, if◌then◌else◌};
ghost use Rattle.std.specs.List.{AllByRecursion};
ghost use Rattle.std.specs.Option.{option_map_or};
ghost use Rattle.std.specs.Str.{bytes_eq};
ghost use Rattle.std.specs.DynBox.{dyn_box_with};
ghost use Rattle.std.specs.Vec.{vec_len, vec_capacity};
ghost use Rattle.lock_messages.specs.declared.ids.TheConstants.{MAX_CLIENTS};
ghost use Rattle.lock_messages.specs.declared.messages.Message.{Message};
ghost use Rattle.lock_messages.specs.Messages.{IsTicket, IsMessage, is_for_node};
ghost use Rattle.lock_model.specs.declared.entries.Entry.{Entry};
ghost use Rattle.lock_model.specs.declared.entries.Live.{Live};
ghost use Rattle.lock_model.specs.declared.problems.Problem.{Problem};
ghost use Rattle.lock_model.specs.Laws.{IsAllowed, IsAllowedSwitch};
ghost use Rattle.stable_record.specs.Records.{IsNodeRecord};
ghost use Rattle.lock_model.specs.ExactStations.{EachOnce, IsAboveFloor, entry_of, knows};
ghost use Rattle.lock_model.specs.ExactDecisions.{ended, live_in, moved_last, reply_to_known, takes_up, releases, softened, softened_entry, softens, decision, switches, same_problem, Changes, changes};
ghost use Rattle.lock_model.specs.Judgement.{is_caused};
ghost use Rattle.stable_record.specs.EntryLists.{replaced};
ghost use Rattle.stable_record.specs.Indexing.{IndexesWith, IsEntryAmong, without_live};
ghost use Rattle.stable_record.specs.Lines.{Indexes};
ghost use Rattle.voter_core.specs.Freed.{freed, freed_by, freed_by_softening, is_as_asked, is_softened_by, waiting_for};
ghost use Rattle.voter_core.specs.Voters.{ends_something, is_admitted, note_for, note_of};

use crate::consulting::note;
use crate::settling::{admits, settle};
use admission_policy::Pair;
use lock_messages::{Attempt, ClientId, Message, Mode, NodeId, ResourceName, Ticket};
use lock_model::laws::{
    changes_are_seen, decision_is_allowed, judgement_is_exact, switch_is_allowed,
};
use lock_model::{Entry, Live, Problem, Status, new_entry, reply_to_known};
use stable_record::laws::{entries_are_few, strangers_leave_the_index};
use stable_record::{Entries, NodeRecord, ResourceIndex};
use std::alloc::{AllocError, Global};

/// The resource of the ticket that ends or is softened where the message is taken, if one does.
pub(crate) fn freed_by(entries: &Entries, message: &Message) -> Option<ResourceName>
    ensures { result ≡ freed_by entries.now message.now }
{
    match message {
        Message::Request(_, ticket) => freed(entries, ticket.client, ticket.attempt.get() - 1),
        Message::Release(_, client, attempt) => freed(entries, *client, attempt.get()),
        Message::Soften(_, client, attempt) => freed_by_softening(entries, *client, *attempt),
        Message::Grant(..)
        | Message::Busy(..)
        | Message::Over(..)
        | Message::Done(..)
        | Message::Muddled(..)
        | Message::Softened(..) => None,
    }
}

/// How many tickets wait for the freed resource; a client that is announced for it is counted as well.
fn waiting_for(index: &ResourceIndex, freed: &Option<ResourceName>) -> usize
    ensures { (entries : List Entry) → Indexes index.now entries → result ≡ waiting_for freed.now entries }
{
    match freed {
        None => 0,
        Some(resource) => index.waiting_count(resource),
    }
}

/// Whether both problems are one.
pub(crate) fn same_problem(a: Problem, b: Problem) -> bool
    ensures { result ≡ same_problem a b }
{
    a == b
}

/// Whether this is the freed resource.
fn is_freed(freed: &Option<ResourceName>, resource: &ResourceName) -> bool
    ensures { result ≡ option_map_or (λ x. bytes_eq resource.now x) freed.now false }
{
    match freed {
        None => false,
        Some(freed) => *resource == *freed,
    }
}

/// How many tickets wait for the freed resource, where a client is announced for this one.
fn waiting_beside(
    index: &ResourceIndex,
    freed: &Option<ResourceName>,
    announced: &ResourceName,
) -> usize
    requires { (c : ℕ) × (entries : List Entry) × IndexesWith (Some (c, announced.now)) index.now entries }
    ensures { (c : ℕ) (entries : List Entry) → IndexesWith (Some (c, announced.now)) index.now entries → result ≡ waiting_for freed.now entries }
{
    let waiting = waiting_for(index, freed);
    if is_freed(freed, announced) {
        waiting - 1
    } else {
        waiting
    }
}

/// No replies yet, with room for the sender's and for a Grant to each ticket that waits for the freed
/// resource.
pub(crate) fn room_for(
    alloc: Global,
    index: &ResourceIndex,
    freed: Option<ResourceName>,
) -> Result<Vec<Message>, AllocError>
    requires { (entries : List Entry) × Indexes index.now entries × (length entries ≤ MAX_CLIENTS) }
    ensures none { IfOk result (λ replies. (replies.items ≡ []) × (vec_len replies ≡ 0)) }
    ensures room { IfOk result (λ replies. (entries : List Entry) → Indexes index.now entries → waiting_for freed entries + 1 ≤ vec_capacity replies) }
{
    let mut replies = Vec::new(alloc);
    replies.reserve(waiting_for(index, &freed) + 1)?;
    Ok(replies)
}

/// Ends the attempts of a client that has this entry, in the entries and in their index.
fn end_known(entries: &mut Entries, index: &mut ResourceIndex, entry: &Entry, attempt: u64)
    requires { IsEntryAmong entry.now entries.old }
    ensures entries { entries.new ≡ replaced (without_live attempt entry.now) entries.old }
    ensures indexed { (a : Option (ℕ × List ℕ)) → IndexesWith a index.old entries.old → IndexesWith a index.new entries.new }
{
    index.end(entry);
    entries.replace(Entry {
        client: entry.client,
        floor: attempt,
        live: None,
    });
}

/// Ends the client's attempts up to this one, and answers whether that changed an entry, or added
/// one. Memory is refused for a stranger's entry alone, and then nothing has changed.
fn end(
    entries: &mut Entries,
    index: &mut ResourceIndex,
    client: ClientId,
    attempt: u64,
) -> Result<bool, AllocError>
    ensures ended { entries.new ≡ (if is_ok result then ended client attempt entries.old else entries.old) }
    ensures changed { IfOk result (λ b. b ≡ ends_something attempt (entry_of entries.old client)) }
    ensures indexed { (a : Option (ℕ × List ℕ)) → IndexesWith a index.old entries.old → IndexesWith a index.new entries.new }
    ensures once { EachOnce entries.old }
{
    let _len = entries.len();
    let Some(entry) = entries.entry_of(client) else {
        strangers_leave_the_index();
        return entries.push(Entry {
            client,
            floor: attempt,
            live: None,
        });
    };
    let floor = entry.floor;
    if floor >= attempt {
        return Ok(false);
    }
    end_known(entries, index, &entry, attempt);
    Ok(true)
}

/// The resource of the ticket that ends with the client's attempts up to this one, if one does.
fn freed(entries: &Entries, client: ClientId, attempt: u64) -> Option<ResourceName>
    ensures freed { result ≡ freed attempt (entry_of entries.now client) }
{
    let Entry { floor, live, .. } = entries.entry_of(client)?;
    let live = live?;
    if floor < attempt {
        Some(live.resource)
    } else {
        None
    }
}

/// Whether a ticket of this status waits or holds as it was asked for.
fn is_as_asked(status: Status) -> bool
    ensures { result ≡ is_as_asked status }
{
    match status {
        Status::Waiting | Status::Holding => true,
        Status::Softened => false,
    }
}

/// Whether softening this attempt changes the ticket: it is a writer's of the attempt, as it was asked
/// for.
fn is_softened_by(live: &Live, attempt: Attempt) -> bool
    ensures { result ≡ is_softened_by attempt live.now }
{
    if live.attempt != attempt {
        return false;
    }
    match live.mode {
        Mode::Read => false,
        Mode::Write => is_as_asked(live.status),
    }
}

/// The resource of the ticket that is softened with this attempt of the client, if one is.
fn freed_by_softening(entries: &Entries, client: ClientId, attempt: Attempt) -> Option<ResourceName>
    ensures { result ≡ freed_by_softening attempt (live_in (entry_of entries.now client)) }
{
    let Entry { live, .. } = entries.entry_of(client)?;
    let live = live?;
    if is_softened_by(&live, attempt) {
        Some(live.resource)
    } else {
        None
    }
}

/// Softens the ticket of a client that has this entry, in the entries and in their index: where it
/// holds it is a reader's from now on, and where it waits it goes. The floor stays.
fn soften_known(
    entries: &mut Entries,
    index: &mut ResourceIndex,
    entry: &Entry,
    live: &Live,
    attempt: Attempt,
)
    requires among { IsEntryAmong entry.now entries.old }
    requires live { entry.now.live ≡ Some live.now }
    requires softened { is_softened_by attempt live.now ≡ true }
    ensures entries { entries.new ≡ replaced (softened_entry attempt entry.now) entries.old }
    ensures indexed { (a : Option (ℕ × List ℕ)) → IndexesWith a index.old entries.old → IndexesWith a index.new entries.new }
{
    let softened = live.softened(attempt);
    match softened {
        None => index.end(entry),
        Some(_) => index.soften(entry),
    }
    entries.replace(Entry {
        client: entry.client,
        floor: entry.floor,
        live: softened,
    });
}

/// Softens the client's ticket of this attempt, and answers the resource of it. It takes no memory,
/// and where no ticket is softened nothing changes.
fn soften_ticket(
    entries: &mut Entries,
    index: &mut ResourceIndex,
    client: ClientId,
    attempt: Attempt,
) -> Option<ResourceName>
    ensures softened { entries.new ≡ softened client attempt entries.old }
    ensures freed { result ≡ freed_by_softening attempt (live_in (entry_of entries.old client)) }
    ensures indexed { (a : Option (ℕ × List ℕ)) → IndexesWith a index.old entries.old → IndexesWith a index.new entries.new }
    ensures once { EachOnce entries.old }
{
    let _len = entries.len();
    let entry = entries.entry_of(client)?;
    let live = entry.live?;
    if !is_softened_by(&live, attempt) {
        return None;
    }
    soften_known(entries, index, &entry, &live, attempt);
    Some(live.resource)
}

/// Whether there are more replies than the sender's.
fn tells_grants(replies: &[Message]) -> bool
    ensures { result ≡ nat_lt 1 (length replies.now) }
{
    replies.len() > 1
}

/// Takes a release: the client's attempts end, and the others settle. It answers whether the entries
/// changed.
fn release(
    policies: &Pair,
    problem: Problem,
    node: NodeId,
    entries: &mut Entries,
    index: &mut ResourceIndex,
    client: ClientId,
    attempt: Attempt,
    replies: &mut Vec<Message>,
) -> Result<bool, AllocError>
    requires none { (replies.old.items ≡ []) × (vec_len replies.old ≡ 0) }
    requires room { waiting_for (freed attempt (entry_of entries.old client)) entries.old + 1 ≤ vec_capacity replies.old }
    requires caused { is_caused problem entries.old ≡ true }
    requires indexed { Indexes index.old entries.old }
    ensures entries { entries.new ≡ (if is_ok result then (releases node problem entries.old client attempt).entries else entries.old) }
    ensures replies { OnOk result (replies.new.items ≡ (releases node problem entries.old client attempt).replies) }
    ensures changed { IfOk result (λ b. IsTrue b ↔ ((releases node problem entries.old client attempt).entries ≢ entries.old)) }
    ensures indexed { Indexes index.new entries.new }
{
    let last = attempt.get();
    let freed = freed(entries, client, last);
    let ended = end(entries, index, client, last)?;
    replies.push_reserved(Message::Done(node, client, attempt));
    let waiting = waiting_for(index, &freed);
    settle(
        policies, problem, node, entries, index, freed, waiting, replies,
    );
    Ok(ended || tells_grants(replies))
}

/// Takes a softening: the client's ticket of this attempt is softened, and the others settle. It
/// answers whether the entries changed.
fn soften(
    policies: &Pair,
    problem: Problem,
    node: NodeId,
    entries: &mut Entries,
    index: &mut ResourceIndex,
    client: ClientId,
    attempt: Attempt,
    replies: &mut Vec<Message>,
) -> bool
    requires none { (replies.old.items ≡ []) × (vec_len replies.old ≡ 0) }
    requires room { waiting_for (freed_by_softening attempt (live_in (entry_of entries.old client))) entries.old + 1 ≤ vec_capacity replies.old }
    requires caused { is_caused problem entries.old ≡ true }
    requires indexed { Indexes index.old entries.old }
    ensures entries { entries.new ≡ (softens node problem entries.old client attempt).entries }
    ensures replies { replies.new.items ≡ (softens node problem entries.old client attempt).replies }
    ensures changed { IsTrue result ↔ ((softens node problem entries.old client attempt).entries ≢ entries.old) }
    ensures indexed { Indexes index.new entries.new }
{
    let freed = soften_ticket(entries, index, client, attempt);
    let softened = freed.is_some();
    replies.push_reserved(Message::Softened(node, client, attempt));
    let waiting = waiting_for(index, &freed);
    settle(
        policies, problem, node, entries, index, freed, waiting, replies,
    );
    softened
}

/// Says in the first reply that the ticket holds, where it is admitted.
fn answer(replies: &mut Vec<Message>, node: NodeId, ticket: &Ticket, admitted: bool)
    requires { 0 < vec_len replies.old }
    ensures { replies.new.items ≡ (if admitted then slice_set replies.old.items 0 (Message.Grant node ticket.now) else replies.old.items) }
{
    if admitted {
        replies[0] = Message::Grant(node, *ticket);
    }
}

/// Moves a client's entry behind the others, as this one, whose ticket was announced.
fn put_last(entries: &mut Entries, index: &mut ResourceIndex, entry: Entry)
    requires known { knows entry.client entries.old ≡ true }
    requires none { IfSome (entry_of entries.old entry.client) (λ e. e.live ≡ None) }
    requires indexed { (live : Live) × (entry.live ≡ Some live) × IndexesWith (Some (entry.client, live.resource)) index.old entries.old }
    ensures entries { entries.new ≡ moved_last entry entries.old }
    ensures indexed { Indexes index.new entries.new }
{
    let _len = entries.len();
    let _known = entries.entry_of(entry.client);
    let entry = &entry;
    index.confirm(entry);
    entries.move_last(*entry);
}

/// Announces the new ticket to the index, and ends the attempts before it. Memory is refused before
/// an entry has changed, and then no ticket is announced.
fn make_way(
    entries: &mut Entries,
    index: &mut ResourceIndex,
    alloc: Global,
    ticket: &Ticket,
) -> Result<(), AllocError>
    requires { Indexes index.old entries.old }
    ensures entries { entries.new ≡ (if is_ok result then ended ticket.now.client (ticket.now.attempt - 1) entries.old else entries.old) }
    ensures announced { OnOk result (IndexesWith (Some (ticket.now.client, ticket.now.resource)) index.new entries.new) }
    ensures refused { OnErr result (Indexes index.new entries.new) }
    ensures once { EachOnce entries.old }
{
    let _len = entries.len();
    let last = ticket.attempt.get() - 1;
    index.announce(alloc, ticket.client, &ticket.resource)?;
    match end(entries, index, ticket.client, last) {
        Ok(_) => Ok(()),
        Err(fault) => {
            index.withdraw(&ticket.resource);
            Err(fault)
        }
    }
}

/// Takes up a new ticket: the attempts before it end, the others settle, and then it is admitted or
/// waits. The policy of the problem is told once of a reader, and never of a writer.
fn take_up(
    policies: &mut Pair,
    problem: Problem,
    node: NodeId,
    entries: &mut Entries,
    index: &mut ResourceIndex,
    alloc: Global,
    ticket: &Ticket,
    replies: &mut Vec<Message>,
) -> Result<(), AllocError>
    requires none { (replies.old.items ≡ []) × (vec_len replies.old ≡ 0) }
    requires room { waiting_for (freed (ticket.now.attempt - 1) (entry_of entries.old ticket.now.client)) entries.old + 1 ≤ vec_capacity replies.old }
    requires caused { is_caused problem entries.old ≡ true }
    requires new { reply_to_known node ticket.now (entry_of entries.old ticket.now.client) ≡ None }
    requires attempts { AllByRecursion IsAboveFloor entries.old }
    requires indexed { Indexes index.old entries.old }
    ensures entries { entries.new ≡ (if is_ok result then (takes_up node problem entries.old ticket.now).entries else entries.old) }
    ensures replies { OnOk result (replies.new.items ≡ (takes_up node problem entries.old ticket.now).replies) }
    ensures told_first { OnOk result (problem ≡ Problem.First → (b : Bool) → note_for ticket.now.mode (is_admitted problem entries.old ticket.now) ≡ Some b → IfSome policies.old.first (λ p. (after : _) × notes (p.vtable, p.value) b after × (policies.new ≡ record { first = Some (dyn_box_with p p.vtable after); second = policies.old.second }))) }
    ensures told_second { OnOk result (problem ≡ Problem.Second → (b : Bool) → note_for ticket.now.mode (is_admitted problem entries.old ticket.now) ≡ Some b → IfSome policies.old.second (λ p. (after : _) × notes (p.vtable, p.value) b after × (policies.new ≡ record { first = policies.old.first; second = Some (dyn_box_with p p.vtable after) }))) }
    ensures no_first { OnOk result (problem ≡ Problem.First → policies.old.first ≡ None → policies.new ≡ policies.old) }
    ensures no_second { OnOk result (problem ≡ Problem.Second → policies.old.second ≡ None → policies.new ≡ policies.old) }
    ensures untold { OnOk result (note_for ticket.now.mode (is_admitted problem entries.old ticket.now) ≡ None → policies.new ≡ policies.old) }
    ensures refused { OnErr result (policies.new ≡ policies.old) }
    ensures indexed { Indexes index.new entries.new }
{
    let last = ticket.attempt.get() - 1;
    let freed = freed(entries, ticket.client, last);
    make_way(entries, index, alloc, ticket)?;
    // Busy first. The Grant replaces it if the ticket is admitted, so the replies grow once, before anything changes.
    replies.push_reserved(Message::Busy(node, *ticket));
    let waiting = waiting_beside(index, &freed, &ticket.resource);
    settle(
        policies, problem, node, entries, index, freed, waiting, replies,
    );
    let admitted = admits(policies, problem, index, ticket.mode, &ticket.resource);
    answer(replies, node, ticket, admitted);
    note(policies, problem, ticket.mode, admitted);
    put_last(entries, index, new_entry(ticket, admitted));
    Ok(())
}

/// Answers a request, and whether the entries changed.
fn request(
    policies: &mut Pair,
    problem: Problem,
    node: NodeId,
    entries: &mut Entries,
    index: &mut ResourceIndex,
    alloc: Global,
    ticket: &Ticket,
    replies: &mut Vec<Message>,
) -> Result<bool, AllocError>
    requires none { (replies.old.items ≡ []) × (vec_len replies.old ≡ 0) }
    requires room { waiting_for (freed (ticket.now.attempt - 1) (entry_of entries.old ticket.now.client)) entries.old + 1 ≤ vec_capacity replies.old }
    requires caused { is_caused problem entries.old ≡ true }
    requires attempts { AllByRecursion IsAboveFloor entries.old }
    requires indexed { Indexes index.old entries.old }
    ensures entries { entries.new ≡ (if is_ok result then (decision problem entries.old (Message.Request node ticket.now)).entries else entries.old) }
    ensures replies { OnOk result (replies.new.items ≡ (decision problem entries.old (Message.Request node ticket.now)).replies) }
    ensures changed { IfOk result (λ b. IsTrue b ↔ Changes problem entries.old (Message.Request node ticket.now)) }
    ensures told_first { OnOk result (problem ≡ Problem.First → (b : Bool) → note_of problem entries.old (Message.Request node ticket.now) ≡ Some b → IfSome policies.old.first (λ p. (after : _) × notes (p.vtable, p.value) b after × (policies.new ≡ record { first = Some (dyn_box_with p p.vtable after); second = policies.old.second }))) }
    ensures told_second { OnOk result (problem ≡ Problem.Second → (b : Bool) → note_of problem entries.old (Message.Request node ticket.now) ≡ Some b → IfSome policies.old.second (λ p. (after : _) × notes (p.vtable, p.value) b after × (policies.new ≡ record { first = policies.old.first; second = Some (dyn_box_with p p.vtable after) }))) }
    ensures no_first { OnOk result (problem ≡ Problem.First → policies.old.first ≡ None → policies.new ≡ policies.old) }
    ensures no_second { OnOk result (problem ≡ Problem.Second → policies.old.second ≡ None → policies.new ≡ policies.old) }
    ensures untold { OnOk result (note_of problem entries.old (Message.Request node ticket.now) ≡ None → policies.new ≡ policies.old) }
    ensures refused { OnErr result (policies.new ≡ policies.old) }
    ensures indexed { Indexes index.new entries.new }
{
    match reply_to_known(node, ticket, entries.entry_of(ticket.client)) {
        Some(reply) => {
            replies.push_reserved(reply);
            Ok(false)
        }
        None => {
            take_up(
                policies, problem, node, entries, index, alloc, ticket, replies,
            )?;
            Ok(true)
        }
    }
}

/// Decides on a message: the entries after it, the replies behind none yet, and whether the entries
/// changed. Memory is refused before anything has changed.
pub(crate) fn decide(
    policies: &mut Pair,
    problem: Problem,
    entries: &mut Entries,
    index: &mut ResourceIndex,
    alloc: Global,
    message: &Message,
    replies: &mut Vec<Message>,
) -> Result<bool, AllocError>
    requires none { (replies.old.items ≡ []) × (vec_len replies.old ≡ 0) }
    requires room { waiting_for (freed_by entries.old message.now) entries.old + 1 ≤ vec_capacity replies.old }
    requires caused { is_caused problem entries.old ≡ true }
    requires attempts { AllByRecursion IsAboveFloor entries.old }
    requires indexed { Indexes index.old entries.old }
    ensures entries { entries.new ≡ (if is_ok result then (decision problem entries.old message.now).entries else entries.old) }
    ensures replies { OnOk result (replies.new.items ≡ (decision problem entries.old message.now).replies) }
    ensures changed { IfOk result (λ b. IsTrue b ↔ Changes problem entries.old message.now) }
    // The policy of the problem is told once of a new reader's ticket, and of nothing else; the other of
    // nothing.
    ensures told_first { OnOk result (problem ≡ Problem.First → (b : Bool) → note_of problem entries.old message.now ≡ Some b → IfSome policies.old.first (λ p. (after : _) × notes (p.vtable, p.value) b after × (policies.new ≡ record { first = Some (dyn_box_with p p.vtable after); second = policies.old.second }))) }
    ensures told_second { OnOk result (problem ≡ Problem.Second → (b : Bool) → note_of problem entries.old message.now ≡ Some b → IfSome policies.old.second (λ p. (after : _) × notes (p.vtable, p.value) b after × (policies.new ≡ record { first = policies.old.first; second = Some (dyn_box_with p p.vtable after) }))) }
    ensures no_first { OnOk result (problem ≡ Problem.First → policies.old.first ≡ None → policies.new ≡ policies.old) }
    ensures no_second { OnOk result (problem ≡ Problem.Second → policies.old.second ≡ None → policies.new ≡ policies.old) }
    ensures untold { OnOk result (note_of problem entries.old message.now ≡ None → policies.new ≡ policies.old) }
    ensures refused { OnErr result (policies.new ≡ policies.old) }
    ensures indexed { Indexes index.new entries.new }
{
    match message {
        Message::Request(node, ticket) => {
            request(
                policies, problem, *node, entries, index, alloc, ticket, replies,
            )
        }
        Message::Release(node, client, attempt) => {
            release(
                policies, problem, *node, entries, index, *client, *attempt, replies,
            )
        }
        Message::Soften(node, client, attempt) => Ok(soften(
            policies, problem, *node, entries, index, *client, *attempt, replies,
        )),
        Message::Grant(..)
        | Message::Busy(..)
        | Message::Over(..)
        | Message::Done(..)
        | Message::Muddled(..)
        | Message::Softened(..) => Ok(false),
    }
}

/// Computes nothing: the parts of a ticket are in range, by their types.
fn is_ticket(ticket: &Ticket)
    ensures { IsTicket ticket.now }
{
    ticket.client.get();
    ticket.attempt.get();
    ticket.resource.bytes();
}

/// Computes nothing: the parts of a message are in range, by their types.
fn is_message(message: &Message)
    ensures { IsMessage message.now }
{
    match message {
        Message::Request(node, ticket)
        | Message::Grant(node, ticket)
        | Message::Busy(node, ticket) => {
            node.get();
            is_ticket(ticket);
        }
        Message::Release(node, client, attempt)
        | Message::Over(node, client, attempt)
        | Message::Done(node, client, attempt)
        | Message::Muddled(node, client, attempt)
        | Message::Soften(node, client, attempt)
        | Message::Softened(node, client, attempt) => {
            node.get();
            client.get();
            attempt.get();
        }
    }
}

/// Computes nothing: each ticket of a record that waits has a cause, and its attempt is one above its
/// client's floor.
pub(crate) fn is_caused(station: &NodeRecord)
    requires record { IsNodeRecord station.now }
    ensures caused { is_caused station.now.problem station.now.entries ≡ true }
    ensures attempts { AllByRecursion IsAboveFloor station.now.entries }
    ensures few { length station.now.entries ≤ MAX_CLIENTS }
{
    let _problem = station.problem;
    judgement_is_exact();
}

/// Computes nothing: after the decision on a message for this node the station is one that can be
/// kept and read again, and the decision is one that the node may take.
pub(crate) fn stays_a_record(station: &NodeRecord, node: NodeId, message: &Message)
    requires record { IsNodeRecord station.now }
    requires for_node { is_for_node message.now node ≡ true }
    ensures record { IsNodeRecord (record { problem = station.now.problem; entries = (decision station.now.problem station.now.entries message.now).entries }) }
    ensures allowed { IsAllowed station.now.problem station.now.entries message.now }
    ensures changes { (b : Bool) → IsTrue b ↔ Changes station.now.problem station.now.entries message.now → b ≡ changes station.now.problem station.now.entries message.now }
{
    let _problem = station.problem;
    is_message(message);
    decision_is_allowed();
    changes_are_seen();
    entries_are_few();
}

/// Computes nothing: after a switch to a problem the station is one that can be kept and read again, and
/// the switch is one that the node may take.
pub(crate) fn switches_to_a_record(station: &NodeRecord, node: NodeId, problem: Problem)
    requires { IsNodeRecord station.now }
    ensures record { IsNodeRecord (record { problem = problem; entries = (switches node problem station.now.entries).entries }) }
    ensures allowed { IsAllowedSwitch station.now.problem problem station.now.entries node }
{
    let _problem = station.problem;
    switch_is_allowed();
    entries_are_few();
}
