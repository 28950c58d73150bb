// Settling, by going over the clients that wait for the freed resource, or over all entries.

ghost use Rattle.std.specs.Prelude.{◌≡◌, ◌≤◌, ◌<◌, ◌+◌, ◌++◌, ℕ, List, Option, Some, true, is_some, length, slice_get};
ghost use Rattle.std.specs.Vec.{vec_len, vec_capacity};
ghost use Rattle.lock_messages.specs.declared.messages.Message.{Message};
ghost use Rattle.lock_model.specs.declared.entries.Entry.{Entry};
ghost use Rattle.lock_model.specs.ExactStations.{EachOnce, entry_of, admits, promoted, settled};
ghost use Rattle.lock_model.specs.ExactDecisions.{grants, live_in};
ghost use Rattle.stable_record.specs.Lines.{waits_for, count_live};
ghost use Rattle.stable_record.specs.EntryLists.{replaced};
ghost use Rattle.stable_record.specs.Indexing.{IndexesWith, IsEntryAmong, with_holding};
ghost use Rattle.std.specs.Option.{option_map};
ghost use Rattle.voter_core.specs.Voters.{admitted_now};
ghost use Rattle.voter_core.specs.Freed.{OthersStay, waiting_for};
ghost use Rattle.voter_core.specs.Queues.{settle_one, told_one};

use admission_policy::Pair;
use lock_messages::{ClientId, Message, Mode, NodeId, ResourceName, Ticket};
use lock_model::{Entry, Live, Problem, Status};
use stable_record::{Entries, ResourceIndex};

/// Whether a ticket in this mode for this resource is admitted among the entries that are indexed.
pub(crate) fn admits(
    policies: &Pair,
    problem: Problem,
    index: &ResourceIndex,
    mode: Mode,
    resource: &ResourceName,
) -> bool
    ensures { (a : Option (ℕ × List ℕ)) (entries : List Entry) → IndexesWith a index.now entries → result ≡ admits problem mode resource.now entries }
{
    match mode {
        Mode::Write => !index.has_holder(resource),
        Mode::Read => {
            let writer_holds = index.has_writing_holder(resource);
            let writer_waits = index.has_waiting_writer(resource);
            policies.admits(problem, writer_holds, writer_waits)
        }
    }
}

/// The ticket, holding, where it waits and is admitted among the entries that are indexed.
fn admitted_now(
    policies: &Pair,
    problem: Problem,
    index: &ResourceIndex,
    live: Option<Live>,
) -> Option<Live>
    ensures { (a : Option (ℕ × List ℕ)) (entries : List Entry) → IndexesWith a index.now entries → result ≡ admitted_now problem entries live }
{
    let live = live?;
    if live.waits() && admits(policies, problem, index, live.mode, &live.resource) {
        let status = Status::Holding;
        Some(Live { status, ..live })
    } else {
        None
    }
}

/// The Grant of a client's ticket.
fn grant(node: NodeId, client: ClientId, live: &Live) -> Message
    ensures { result ≡ Message.Grant node (record { client = client; attempt = live.now.attempt; mode = live.now.mode; resource = live.now.resource }) }
{
    let ticket = Ticket {
        client,
        attempt: live.attempt,
        mode: live.mode,
        resource: live.resource,
    };
    Message::Grant(node, ticket)
}

/// A client's ticket becomes this one, which holds, in the entries and in their index.
fn hold(entries: &mut Entries, index: &mut ResourceIndex, entry: &Entry, live: Live)
    requires among { IsEntryAmong entry.now entries.old }
    requires live { option_map promoted entry.now.live ≡ Some live }
    ensures entries { entries.new ≡ replaced (with_holding entry.now) entries.old }
    ensures indexed { (a : Option (ℕ × List ℕ)) → IndexesWith a index.old entries.old → IndexesWith a index.new entries.new }
{
    index.promote(entry);
    entries.replace(Entry {
        client: entry.client,
        floor: entry.floor,
        live: Some(live),
    });
}

/// It is a client's turn: where its ticket is admitted it becomes a holder and is told a Grant. It
/// answers whether it did.
fn settle_client(
    policies: &Pair,
    problem: Problem,
    node: NodeId,
    entries: &mut Entries,
    index: &mut ResourceIndex,
    client: ClientId,
    replies: &mut Vec<Message>,
) -> bool
    requires room { vec_len replies.old < vec_capacity replies.old }
    requires indexed { (a : Option (ℕ × List ℕ)) × IndexesWith a index.old entries.old }
    ensures entries { entries.new ≡ settle_one problem client entries.old }
    ensures replies { replies.new.items ≡ replies.old.items ++ told_one problem node client entries.old }
    ensures room { (vec_len replies.new ≤ vec_len replies.old + 1) × (vec_capacity replies.new ≡ vec_capacity replies.old) }
    ensures answer { result ≡ is_some (admitted_now problem entries.old (live_in (entry_of entries.old client))) }
    ensures indexed { (a : Option (ℕ × List ℕ)) → IndexesWith a index.old entries.old → IndexesWith a index.new entries.new }
    ensures once { EachOnce entries.old }
{
    let _len = entries.len();
    let Some(entry) = entries.entry_of(client) else {
        return false;
    };
    let Some(live) = admitted_now(policies, problem, index, entry.live) else {
        return false;
    };
    replies.push_reserved(grant(node, client, &live));
    hold(entries, index, &entry, live);
    true
}

/// Settles the entries of a resource for which so many wait, and adds the Grants of those that became
/// holders. A client that becomes a holder leaves its place to the next.
fn settle_resource(
    policies: &Pair,
    problem: Problem,
    node: NodeId,
    entries: &mut Entries,
    index: &mut ResourceIndex,
    resource: &ResourceName,
    waiting: usize,
    replies: &mut Vec<Message>,
)
    requires room { vec_len replies.old + waiting ≤ vec_capacity replies.old }
    requires waiting { waiting ≡ count_live (waits_for resource.now) entries.old }
    requires others { OthersStay problem (Some resource.now) entries.old }
    requires indexed { (a : Option (ℕ × List ℕ)) × IndexesWith a index.old entries.old }
    ensures entries { entries.new ≡ settled problem entries.old }
    ensures replies { replies.new.items ≡ replies.old.items ++ grants node entries.old entries.new }
    ensures indexed { (a : Option (ℕ × List ℕ)) → IndexesWith a index.old entries.old → IndexesWith a index.new entries.new }
{
    let _len = entries.len();
    let mut place = 0usize;
    for turn in 0..waiting {
        let client = index.waiting_at(resource, place).unwrap();
        if !settle_client(policies, problem, node, entries, index, client, replies) {
            place += 1;
        }
    }
}

/// The client of the entry at a place; none exactly where there is no entry.
fn client_at(entries: &Entries, place: usize) -> Option<ClientId>
    ensures { result ≡ option_map (λ e. e.client) (slice_get entries.now place) }
{
    match entries.get(place) {
        None => None,
        Some(entry) => Some(entry.client),
    }
}

/// Settles all entries, each in its turn, and adds the Grants of those that became holders.
pub(crate) fn settle_all(
    policies: &Pair,
    problem: Problem,
    node: NodeId,
    entries: &mut Entries,
    index: &mut ResourceIndex,
    replies: &mut Vec<Message>,
)
    requires room { vec_len replies.old + length entries.old ≤ vec_capacity replies.old }
    requires indexed { (a : Option (ℕ × List ℕ)) × IndexesWith a index.old entries.old }
    ensures entries { entries.new ≡ settled problem entries.old }
    ensures replies { replies.new.items ≡ replies.old.items ++ grants node entries.old entries.new }
    ensures indexed { (a : Option (ℕ × List ℕ)) → IndexesWith a index.old entries.old → IndexesWith a index.new entries.new }
{
    let many = entries.len();
    for place in 0..many {
        let client = client_at(entries, place).unwrap();
        settle_client(policies, problem, node, entries, index, client, replies);
    }
}

/// Settles the entries where a ticket for this resource ended or was softened, for which so many wait,
/// and adds the Grants of those that became holders. Who waits for another resource has a cause still.
pub(crate) fn settle(
    policies: &Pair,
    problem: Problem,
    node: NodeId,
    entries: &mut Entries,
    index: &mut ResourceIndex,
    freed: Option<ResourceName>,
    waiting: usize,
    replies: &mut Vec<Message>,
)
    requires room { vec_len replies.old + waiting ≤ vec_capacity replies.old }
    requires waiting { waiting ≡ waiting_for freed entries.old }
    requires others { OthersStay problem freed entries.old }
    requires indexed { (a : Option (ℕ × List ℕ)) × IndexesWith a index.old entries.old }
    ensures entries { entries.new ≡ settled problem entries.old }
    ensures replies { replies.new.items ≡ replies.old.items ++ grants node entries.old entries.new }
    ensures indexed { (a : Option (ℕ × List ℕ)) → IndexesWith a index.old entries.old → IndexesWith a index.new entries.new }
{
    if let Some(resource) = freed {
        settle_resource(
            policies, problem, node, entries, index, &resource, waiting, replies,
        );
    }
}
