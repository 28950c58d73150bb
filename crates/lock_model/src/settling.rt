// Settling, by one pass over the entries: slow and obvious.

ghost use Rattle.std.specs.Prelude.{◌≡◌, ◌++◌, OnOk};
ghost use Rattle.lock_model.specs.ExactStations.{any_live, holds, writer_holds, writer_waits, admits, settled_live, settled_entry, settled};
ghost use Rattle.lock_model.specs.ExactDecisions.{told, grants};

use crate::{Entry, Live, Problem, Status};
use lock_messages::{Message, Mode, NodeId, ResourceName, Ticket};
use std::alloc::AllocError;

fn any_holds(entries: &[Entry], resource: &ResourceName) -> bool
    ensures { result ≡ any_live (holds resource.now) entries.now }
{
    entries.iter().any(|entry| entry.holds(resource))
}

fn any_writer_holds(entries: &[Entry], resource: &ResourceName) -> bool
    ensures { result ≡ any_live (writer_holds resource.now) entries.now }
{
    entries.iter().any(|entry| entry.writer_holds(resource))
}

fn any_writer_waits(entries: &[Entry], resource: &ResourceName) -> bool
    ensures { result ≡ any_live (writer_waits resource.now) entries.now }
{
    entries.iter().any(|entry| entry.writer_waits(resource))
}

/// Whether a ticket in this mode for this resource is admitted among the entries.
pub fn admits(problem: Problem, mode: Mode, resource: &ResourceName, entries: &[Entry]) -> bool
    ensures { result ≡ admits problem mode resource.now entries.now }
{
    match mode {
        Mode::Write => !any_holds(entries, resource),
        Mode::Read => problem.admits_reader(
            any_writer_holds(entries, resource),
            any_writer_waits(entries, resource),
        ),
    }
}

fn settled_live(problem: Problem, entries: &[Entry], live: Live) -> Live
    ensures { result ≡ settled_live problem entries.now live }
{
    if live.waits() && admits(problem, live.mode, &live.resource, entries) {
        Live {
            status: Status::Holding,
            ..live
        }
    } else {
        live
    }
}

/// The entry once it has been its turn to settle among these.
fn settled_entry(problem: Problem, entries: &[Entry], entry: Entry) -> Entry
    ensures { result ≡ settled_entry problem entries.now entry }
{
    let (client, floor) = (entry.client, entry.floor);
    let live = entry.live.map(|live| settled_live(problem, entries, live));
    Entry {
        client,
        floor,
        live,
    }
}

/// Adds the Grant of an entry whose ticket waited before and holds after.
fn tell(
    node: NodeId,
    before: &Entry,
    after: &Entry,
    replies: &mut Vec<Message>,
) -> Result<(), AllocError>
    ensures { OnOk result (replies.new.items ≡ replies.old.items ++ told node before.now after.now) }
{
    let client = after.client;
    if before.waits()
        && let Some(live) = after.live
        && !live.waits()
    {
        let ticket = Ticket {
            client,
            attempt: live.attempt,
            mode: live.mode,
            resource: live.resource,
        };
        replies.push(Message::Grant(node, ticket))?;
    }
    Ok(())
}

/// Settles the entries, and adds the Grants of those that became holders.
pub fn settle(
    problem: Problem,
    node: NodeId,
    entries: &mut [Entry],
    replies: &mut Vec<Message>,
) -> Result<(), AllocError>
    ensures entries { OnOk result (entries.new ≡ settled problem entries.old) }
    ensures replies { OnOk result (replies.new.items ≡ replies.old.items ++ grants node entries.old entries.new) }
{
    for i in 0..entries.len() {
        let before = entries[i];
        let after = settled_entry(problem, entries, before);
        tell(node, &before, &after, replies)?;
        entries[i] = after;
    }
    Ok(())
}
