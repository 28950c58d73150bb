// Who has or waits for which vote, by the records of the nodes.

ghost use Rattle.std.specs.Prelude.{◌≡◌, ◌↔◌, ◌++◌, OnOk, IfOk};
ghost use Rattle.std.specs.List.{flat_map, Contains};
ghost use Rattle.std.specs.List.Sorted.{IsPermutation, IsSorted};
ghost use Rattle.service_status.specs.declared.claims.Claim.{Claim as AClaim};
ghost use Rattle.service_status.specs.Claims.{standing_of, claim_of, claims_of_live, claims_of_entry, claims_of_state, claims_of_node, claim_cmp, IsClaim};

use crate::{NodeState, SeenNode};
use lock_messages::{ClientId, Mode, NodeId, ResourceName};
use stable_record::{Entries, Entry, Live, Status};
use std::alloc::{AllocError, Global};

/// How a client uses a resource at a node, or wants to. The order is that of the lines: those who have a
/// vote come before those who wait.
#[derive(Clone, Copy, Debug, PartialEq, Eq, PartialOrd, Ord)]
pub enum Standing {
    /// It has the vote to write.
    Writes,
    /// It has the vote to read.
    Reads,
    /// It has the vote to read, and had it to write before.
    Downgraded,
    /// It waits for the vote to write.
    AwaitsWrite,
    /// It waits for the vote to read.
    AwaitsRead,
}

/// What the record of a node says of a client's live ticket.
#[derive(Clone, Copy, Debug, PartialEq, Eq, PartialOrd, Ord)]
pub struct Claim {
    pub resource: ResourceName,
    pub standing: Standing,
    pub client: ClientId,
    pub node: NodeId,
}

/// How a ticket of this mode and this status stands.
fn standing_of(mode: Mode, status: Status) -> Standing
    ensures { result ≡ standing_of mode status }
{
    match (status, mode) {
        (Status::Holding, Mode::Write) => Standing::Writes,
        (Status::Holding, Mode::Read) => Standing::Reads,
        (Status::Softened, _) => Standing::Downgraded,
        (Status::Waiting, Mode::Write) => Standing::AwaitsWrite,
        (Status::Waiting, Mode::Read) => Standing::AwaitsRead,
    }
}

/// What a live ticket claims.
fn claim_of(node: NodeId, client: ClientId, live: &Live) -> Claim
    ensures { result ≡ claim_of node client live.now }
{
    Claim {
        resource: live.resource,
        standing: standing_of(live.mode, live.status),
        client,
        node,
    }
}

/// Adds the claim of an entry, if it has a live ticket.
fn push_entry(claims: &mut Vec<Claim>, node: NodeId, entry: &Entry) -> Result<(), AllocError>
    ensures { OnOk result (claims.new.items ≡ claims.old.items ++ claims_of_entry node entry.now) }
{
    if let Some(live) = &entry.live {
        claims.push(claim_of(node, entry.client, live))?;
    }
    Ok(())
}

/// Adds the claims of the entries of a node.
fn push_entries(claims: &mut Vec<Claim>, node: NodeId, entries: &Entries) -> Result<(), AllocError>
    ensures { OnOk result (claims.new.items ≡ claims.old.items ++ flat_map (claims_of_entry node) entries.now) }
{
    for place in 0..entries.len() {
        let Some(entry) = entries.get(place) else {
            unreachable!()
        };
        push_entry(claims, node, &entry)?;
    }
    Ok(())
}

/// Adds the claims of a node, if its record was read.
fn push_node(claims: &mut Vec<Claim>, seen: &SeenNode) -> Result<(), AllocError>
    ensures { OnOk result (claims.new.items ≡ claims.old.items ++ claims_of_node seen.now) }
{
    match &seen.state {
        NodeState::Seen(_, kept) => push_entries(claims, seen.node, &kept.entries),
        NodeState::Faulty(_) | NodeState::Elsewhere => Ok(()),
    }
}

/// The claims of the nodes, one node after another.
fn listed(alloc: Global, nodes: &[SeenNode]) -> Result<Vec<Claim>, AllocError>
    ensures { IfOk result (λ claims. claims.items ≡ flat_map claims_of_node nodes.now) }
{
    let mut claims = Vec::new(alloc);
    for seen in nodes {
        push_node(&mut claims, seen)?;
    }
    Ok(claims)
}

/// The claims of the nodes, in the order of resources, and at one resource in the order of standings, clients
/// and nodes. It takes memory for all of them, and running out of it is the only error.
pub fn claims_of(alloc: Global, nodes: &[SeenNode]) -> Result<Vec<Claim>, AllocError>
    // They are what the records say.
    ensures exact { IfOk result (λ claims. (c : AClaim) → Contains claims.items c ↔ IsClaim nodes.now c) }
    // Each is there as often as the records say it.
    ensures once { IfOk result (λ claims. IsPermutation (flat_map claims_of_node nodes.now) claims.items) }
    // They are in order.
    ensures sorted { IfOk result (λ claims. IsSorted claim_cmp claims.items) }
{
    let mut claims = listed(alloc, nodes)?;
    claims.sort()?;
    Ok(claims)
}
