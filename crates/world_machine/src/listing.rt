// Tickets listed, and records written.

ghost use Rattle.std.specs.Prelude.{◌≡◌, ◌≤◌, ◌++◌, map, slice_get, Some, IfOk, OnOk};
ghost use Rattle.std.specs.List.{flat_map};
ghost use Rattle.std.specs.Option.{option_to_list};
ghost use Rattle.lock_messages.specs.declared.ids.TheConstants.{MAX_ATTEMPT};
ghost use Rattle.lock_model.specs.declared.entries.Entry.{Entry as EntryValue};
ghost use Rattle.stable_record.specs.Records.{client_record_of};
ghost use Rattle.world_model.specs.declared.exact.ExactWorld.{ExactWorld};
ghost use Rattle.world_model.specs.Views.{ticket_in, ticket_inside, ticket_for, live_ticket, live_tickets};
ghost use Rattle.world_machine.specs.Listing.{listed_by, listed, kept_bytes, Tells};
ghost use Rattle.world_machine.specs.Machines.{node_part, client_part};

use lock_messages::{Actor, ClientId, NodeId, ResourceName, Ticket};
use lock_model::{Entry, Live};
use stable_record::{NodeRecord, client_bytes, node_bytes};
use std::alloc::{AllocError, Global};
use world_actors::{WorldClient, WorldNode};
use world_model::StepFault;

/// The ticket with which the client is inside the resource, if it is.
fn ticket_for(client: &WorldClient, resource: &ResourceName) -> Option<Ticket>
    ensures { option_to_list result ≡ ticket_for resource.now (ticket_in client.now.part.phase) }
{
    match client.inside() {
        Some(ticket) if ticket.resource == *resource => Some(ticket),
        Some(_) | None => None,
    }
}

/// One ticket more, if there is one.
fn put(tickets: &mut Vec<Ticket>, ticket: Option<Ticket>) -> Result<(), AllocError>
    ensures { OnOk result (tickets.new.items ≡ tickets.old.items ++ option_to_list ticket) }
{
    if let Some(ticket) = ticket {
        tickets.push(ticket)?;
    }
    Ok(())
}

/// The ticket with which the client is inside the resource, if it is, as one more.
fn put_inside(
    tickets: &mut Vec<Ticket>,
    client: &WorldClient,
    resource: &ResourceName,
) -> Result<(), AllocError>
    ensures { OnOk result (tickets.new.items ≡ tickets.old.items ++ ticket_for resource.now (ticket_in client.now.part.phase)) }
{
    if client.is_inside() {
        put(tickets, ticket_for(client, resource))
    } else {
        Ok(())
    }
}

/// The tickets of the clients that are inside the resource, in order.
pub(crate) fn tickets_inside(
    alloc: Global,
    clients: &[WorldClient],
    resource: &ResourceName,
) -> Result<Vec<Ticket>, AllocError>
    ensures { IfOk result (λ v. v.items ≡ flat_map (λ k. ticket_for resource.now (ticket_in k.part.phase)) clients.now) }
{
    let mut tickets = Vec::new(alloc);
    for client in clients {
        put_inside(&mut tickets, client, resource)?;
    }
    Ok(tickets)
}

/// The ticket with which the client of this number is inside, if it is.
pub(crate) fn ticket_inside(clients: &[WorldClient], id: ClientId) -> Option<Ticket>
    ensures { (w : ExactWorld) → w.clients ≡ map client_part clients.now → result ≡ ticket_inside id w }
{
    let index = id.get() as usize - 1;
    if index >= clients.len() {
        return None;
    }
    clients[index].inside()
}

/// Which tickets of a record are listed: those that wait for the node's vote, or those that hold it.
#[derive(Clone, Copy)]
pub(crate) enum Claims {
    Waiting,
    Holding,
}

/// Whether the ticket is one of these, for this resource.
fn is_listed(live: &Live, claims: Claims, resource: &ResourceName) -> bool
    ensures { result ≡ listed_by claims resource.now live.now }
{
    match claims {
        Claims::Waiting => live.waits() && live.resource.bytes() == resource.bytes(),
        Claims::Holding => live.holds(resource),
    }
}

/// The entry's ticket, if it is listed.
fn listed_ticket(entry: &Entry, claims: Claims, resource: &ResourceName) -> Option<Ticket>
    ensures { option_to_list result ≡ live_ticket (listed_by claims resource.now) entry.now.client entry.now.live }
{
    match entry.live {
        Some(live) if is_listed(&live, claims, resource) => Some(Ticket {
            client: entry.client,
            attempt: live.attempt,
            mode: live.mode,
            resource: live.resource,
        }),
        Some(_) | None => None,
    }
}

/// The ticket of the entry at this place, if it is listed.
fn ticket_at(
    kept: &NodeRecord,
    place: usize,
    claims: Claims,
    resource: &ResourceName,
) -> Option<Ticket>
    ensures { (e : EntryValue) → slice_get kept.now.entries place ≡ Some e →
        option_to_list result ≡ live_ticket (listed_by claims resource.now) e.client e.live }
{
    match kept.entries.get(place) {
        Some(entry) => listed_ticket(&entry, claims, resource),
        None => None,
    }
}

/// The tickets of a record that are listed, in the order of the entries.
fn listed_tickets(
    alloc: Global,
    kept: &NodeRecord,
    claims: Claims,
    resource: &ResourceName,
) -> Result<Vec<Ticket>, AllocError>
    ensures { IfOk result (λ v. v.items ≡ live_tickets (listed_by claims resource.now) kept.now.entries) }
{
    let mut tickets = Vec::new(alloc);
    for place in 0..kept.entries.len() {
        put(&mut tickets, ticket_at(kept, place, claims, resource))?;
    }
    Ok(tickets)
}

/// The listed tickets in the record that the node of this number has kept.
pub(crate) fn tickets_at(
    alloc: Global,
    nodes: &[WorldNode],
    id: NodeId,
    claims: Claims,
    resource: &ResourceName,
) -> Result<Vec<Ticket>, StepFault>
    ensures { (w : ExactWorld) → w.nodes ≡ map node_part nodes.now → Tells (λ v. v.items) (listed claims id resource.now w) result }
{
    let index = id.get() as usize - 1;
    if index >= nodes.len() {
        return Err(StepFault::UnknownActor);
    }
    match listed_tickets(alloc, nodes[index].kept(), claims, resource) {
        Ok(tickets) => Ok(tickets),
        Err(_) => Err(StepFault::Memory),
    }
}

/// The record of what the node of this number has kept.
pub(crate) fn node_bytes_at(
    alloc: Global,
    nodes: &[WorldNode],
    id: NodeId,
) -> Result<Vec<u8>, StepFault>
    ensures { (w : ExactWorld) → w.nodes ≡ map node_part nodes.now → Tells (λ v. v.items) (kept_bytes (Actor.Node id) w) result }
{
    let index = id.get() as usize - 1;
    if index >= nodes.len() {
        return Err(StepFault::UnknownActor);
    }
    match node_bytes(alloc, nodes[index].kept()) {
        Ok(bytes) => Ok(bytes),
        Err(_) => Err(StepFault::Memory),
    }
}

fn written(alloc: Global, attempt: u64) -> Result<Vec<u8>, AllocError>
    requires { attempt ≤ MAX_ATTEMPT }
    ensures { IfOk result (λ v. v.items ≡ client_record_of attempt) }
{
    let mut bytes = Vec::new(alloc);
    bytes.extend_from_slice(&client_bytes(attempt))?;
    Ok(bytes)
}

/// The record of what the client of this number has kept.
pub(crate) fn client_bytes_at(
    alloc: Global,
    clients: &[WorldClient],
    id: ClientId,
) -> Result<Vec<u8>, StepFault>
    ensures { (w : ExactWorld) → w.clients ≡ map client_part clients.now → Tells (λ v. v.items) (kept_bytes (Actor.Client id) w) result }
{
    let index = id.get() as usize - 1;
    if index >= clients.len() {
        return Err(StepFault::UnknownActor);
    }
    match written(alloc, clients[index].kept()) {
        Ok(bytes) => Ok(bytes),
        Err(_) => Err(StepFault::Memory),
    }
}
