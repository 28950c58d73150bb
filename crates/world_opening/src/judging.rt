// Judging the records from which a world is opened.

ghost use Rattle.std.specs.Prelude.{◌≡◌, ◌<◌, ◌≤◌, ◌+◌, ℕ, List, length, map, IfOk, IfErr};
ghost use Rattle.std.specs.List.{list_all};
ghost use Rattle.lock_messages.specs.declared.ids.TheConstants.{MAX_NODES, MAX_CLIENTS};
ghost use Rattle.lock_model.specs.Ballots.{Ballot, node_count, AllCross};
ghost use Rattle.stable_record.specs.declared.node_records.NodeRecord.{NodeRecord};
ghost use Rattle.world_model.specs.Openings.{kept_attempt, live_within, entry_within, entries_within};
ghost use Rattle.world_model.specs.Openings.{IsResumable};
ghost use Rattle.world_opening.specs.Openings.{IsFound, IsRecordOf, IsAttemptOf, AreRecords, AreAttempts, stations_in, IsRefusedOpening};

use crate::OpeningFault;
use lock_messages::{Actor, ClientId, NodeId};
use lock_model::{Entry, Live};
use stable_record::{NodeRecord, RecordFault, read_client, read_node};
use std::alloc::{AllocError, Global};

/// What the nodes and the clients of a world have kept: a record of each node, and of each client the
/// attempt that it made last, 0 for none.
#[derive(Debug, Drop)]
pub struct Opening {
    pub records: Vec<NodeRecord>,
    pub attempts: Vec<u64>,
}

/// The record that the bytes are, if they are one.
fn record_of(alloc: Global, bytes: &[u8]) -> Result<Option<NodeRecord>, AllocError>
    ensures { IfOk result (IsFound (IsRecordOf bytes.now)) }
{
    match read_node(alloc, bytes) {
        Ok(record) => Ok(Some(record)),
        Err(RecordFault::NoMemory) => Err(AllocError),
        Err(_) => Ok(None),
    }
}

/// The attempt whose client record the bytes are, if they are one.
fn attempt_of(bytes: &[u8]) -> Option<u64>
    ensures { IsFound (IsAttemptOf bytes.now) result }
{
    read_client(bytes).ok()
}

/// The node whose record stands at this place among those of nodes. Places are counted from 0.
///
/// The caller owes a place below `MAX_NODES`.
pub fn node_at(place: usize) -> NodeId
    requires { place < MAX_NODES }
    ensures { result ≡ place + 1 }
{
    NodeId::of(place as u8 + 1).unwrap()
}

/// The client whose record stands at this place among those of clients. Places are counted from 0.
///
/// The caller owes a place below `MAX_CLIENTS`.
pub fn client_at(place: usize) -> ClientId
    requires { place < MAX_CLIENTS }
    ensures { result ≡ place + 1 }
{
    ClientId::of(place as u32 + 1).unwrap()
}

/// The records of all nodes.
fn records_of(alloc: Global, found: &[Vec<u8>]) -> Result<Vec<NodeRecord>, OpeningFault>
    requires { length found.now ≤ MAX_NODES }
    ensures records { IfOk result (λ records. AreRecords (map (λ v. v.items) found.now) records.items) }
    ensures refused { (clients : List (List ℕ)) → IfErr result (λ fault. IsRefusedOpening (map (λ v. v.items) found.now) clients fault) }
{
    let mut records = Vec::new(alloc);
    for place in 0..found.len() {
        let Ok(read) = record_of(alloc, &found[place]) else {
            return Err(OpeningFault::Memory);
        };
        let Some(record) = read else {
            return Err(OpeningFault::NoRecord(Actor::Node(node_at(place))));
        };
        let Ok(()) = records.push(record) else {
            return Err(OpeningFault::Memory);
        };
    }
    Ok(records)
}

/// The attempts of all clients.
fn attempts_of(alloc: Global, found: &[Vec<u8>]) -> Result<Vec<u64>, OpeningFault>
    requires { length found.now ≤ MAX_CLIENTS }
    ensures attempts { IfOk result (λ attempts. AreAttempts (map (λ v. v.items) found.now) attempts.items) }
    ensures refused { (nodes : List (List ℕ)) (records : List NodeRecord) → AreRecords nodes records →
        IfErr result (λ fault. IsRefusedOpening nodes (map (λ v. v.items) found.now) fault) }
{
    let mut attempts = Vec::new(alloc);
    for place in 0..found.len() {
        let Some(attempt) = attempt_of(&found[place]) else {
            return Err(OpeningFault::NoRecord(Actor::Client(client_at(place))));
        };
        let Ok(()) = attempts.push(attempt) else {
            return Err(OpeningFault::Memory);
        };
    }
    Ok(attempts)
}

/// The attempt that a client has kept, 0 for one that isn't there.
fn kept_attempt(attempts: &[u64], client: ClientId) -> u64
    ensures { result ≡ kept_attempt attempts.now client }
{
    let place = client.get() as usize - 1;
    if place < attempts.len() {
        attempts[place]
    } else {
        0
    }
}

fn live_within(kept: u64, live: Option<Live>) -> bool
    ensures { result ≡ live_within kept live }
{
    match live {
        None => true,
        Some(live) => live.attempt.get() <= kept,
    }
}

/// Whether an entry's floor and live attempt are not above the attempt that its client has kept.
fn entry_within(attempts: &[u64], entry: Entry) -> bool
    ensures { result ≡ entry_within attempts.now entry }
{
    let kept = kept_attempt(attempts, entry.client);
    entry.floor <= kept && live_within(kept, entry.live)
}

fn record_within(attempts: &[u64], node: &NodeRecord) -> bool
    ensures { result ≡ entries_within attempts.now node.now.entries }
{
    for place in 0..node.entries.len() {
        if let Some(entry) = node.entries.get(place) {
            if !entry_within(attempts, entry) {
                return false;
            }
        }
    }
    true
}

/// Whether no entry of a record is above its client's attempt.
fn records_within(attempts: &[u64], records: &[NodeRecord]) -> bool
    ensures { result ≡ list_all (λ r. entries_within attempts.now r.entries) records.now }
{
    records.iter().all(|record| record_within(attempts, record))
}

fn fits(opening: &Opening) -> bool
    ensures { result ≡ list_all (λ r. entries_within opening.now.attempts.items r.entries) opening.now.records.items }
{
    records_within(&opening.attempts, &opening.records)
}

/// What a world is opened from: the records that its nodes and clients have kept, if they fit.
///
/// `nodes` has the records of all nodes, each of its own problem, and `clients` those of all clients. The
/// caller owes at most `MAX_NODES` records of nodes, and at most `MAX_CLIENTS` of clients. Under each
/// ballot that crosses, a world that is opened from what is answered is a lawful opening.
///
/// Errors: a record can't be read (622), with the first such actor, nodes first; then an entry's floor or
/// attempt is above the attempt of its client (621), where a client that isn't there counts as 0; and want
/// of memory (613), which may come before both. It reads each record once.
pub fn judge(alloc: Global, nodes: &[Vec<u8>], clients: &[Vec<u8>]) -> Result<Opening, OpeningFault>
    requires few_nodes { length nodes.now ≤ MAX_NODES }
    requires few_clients { length clients.now ≤ MAX_CLIENTS }
    ensures records { IfOk result (λ o. AreRecords (map (λ v. v.items) nodes.now) o.records.items) }
    ensures attempts { IfOk result (λ o. AreAttempts (map (λ v. v.items) clients.now) o.attempts.items) }
    // Under a ballot that crosses and has these nodes, a world can be opened from it.
    ensures resumable { IfOk result (λ o. (b : List Ballot) → AllCross b → length nodes.now ≡ node_count b → IsResumable b (stations_in o.records.items) o.attempts.items) }
    ensures refused { IfErr result (λ fault. IsRefusedOpening (map (λ v. v.items) nodes.now) (map (λ v. v.items) clients.now) fault) }
{
    let records = match records_of(alloc, nodes) {
        Ok(records) => records,
        Err(fault) => return Err(fault),
    };
    let attempts = match attempts_of(alloc, clients) {
        Ok(attempts) => attempts,
        Err(fault) => return Err(fault),
    };
    let opening = Opening { records, attempts };
    if !fits(&opening) {
        return Err(OpeningFault::EntryAboveAttempt);
    }
    Ok(opening)
}
