// The records of a run.

ghost use Rattle.std.specs.Prelude.{◌≡◌, ◌≤◌, ◌++◌, map, replicate, take, IfOk};
ghost use Rattle.lock_messages.specs.declared.ids.TheConstants.{MAX_NODES, MAX_CLIENTS};
ghost use Rattle.lock_model.specs.declared.problems.Problem.TheVariants.{First, Second};
ghost use Rattle.stable_record.specs.Records.{node_record_of, client_record_of};
ghost use Rattle.run_service.specs.Empty.{empty_record, empty_node, empty_client};

use lock_model::Problem;
use stable_record::{Entries, MemoryRecord, NodeRecord, StableRecord, client_bytes, node_bytes};
use std::alloc::{AllocError, Global};
use world_settings::Policies;

/// Records in which nothing was ever written, for as many actors as there may be: sixteen of nodes that
/// solve problem 1, sixteen of nodes that solve problem 2, and 1,024 of clients.
#[derive(Drop)]
pub struct Records {
    pub first: Vec<Box<dyn StableRecord + Send>>,
    pub second: Vec<Box<dyn StableRecord + Send>>,
    pub clients: Vec<Box<dyn StableRecord + Send>>,
}

/// What the threads of a run decide by, and what they keep: pairs of policies, as many as there may be nodes, and
/// empty records.
#[derive(Drop)]
pub struct Supplies {
    pub policies: Policies,
    pub records: Records,
}

/// A record of a node that solves the problem, in which nothing was ever written. The only error is want of
/// memory.
pub fn empty_node_record(alloc: Global, problem: Problem) -> Result<MemoryRecord, AllocError>
    ensures { IfOk result (λ m. m ≡ node_record_of (empty_record problem)) }
{
    let empty = NodeRecord {
        problem,
        entries: Entries::new(alloc),
    };
    let Ok(bytes) = node_bytes(alloc, &empty) else {
        return Err(AllocError);
    };
    let Ok(record) = MemoryRecord::holding(alloc, bytes.as_slice()) else {
        return Err(AllocError);
    };
    Ok(record)
}

/// A record of a client that made no attempt yet. The only error is want of memory.
pub fn empty_client_record(alloc: Global) -> Result<MemoryRecord, AllocError>
    ensures { IfOk result (λ m. m ≡ client_record_of 0) }
{
    let Ok(record) = MemoryRecord::holding(alloc, &client_bytes(0)) else {
        return Err(AllocError);
    };
    Ok(record)
}

/// So many of the records, the first ones first.
fn front(
    records: Vec<Box<dyn StableRecord + Send>>,
    count: usize,
) -> Vec<Box<dyn StableRecord + Send>>
    ensures { result.items ≡ take count records.items }
{
    let mut records = records;
    records.truncate(count);
    records
}

/// The records of the nodes of this problem.
fn of_nodes(
    problem: Problem,
    first: Vec<Box<dyn StableRecord + Send>>,
    second: Vec<Box<dyn StableRecord + Send>>,
    nodes: u8,
) -> Vec<Box<dyn StableRecord + Send>>
    requires first { map (λ r. finds r) first.items ≡ replicate MAX_NODES (empty_node First) }
    requires second { map (λ r. finds r) second.items ≡ replicate MAX_NODES (empty_node Second) }
    requires few { nodes ≤ MAX_NODES }
    ensures { map (λ r. finds r) result.items ≡ replicate nodes (empty_node problem) }
{
    match problem {
        Problem::First => front(first, nodes as usize),
        Problem::Second => front(second, nodes as usize),
    }
}

/// The records of so many nodes that solve the problem, and then of so many clients. The only error is want
/// of memory.
pub fn chosen_records(
    records: Records,
    problem: Problem,
    nodes: u8,
    clients: u16,
) -> Result<Vec<Box<dyn StableRecord + Send>>, AllocError>
    requires first { map (λ r. finds r) records.first.items ≡ replicate MAX_NODES (empty_node First) }
    requires second { map (λ r. finds r) records.second.items ≡ replicate MAX_NODES (empty_node Second) }
    requires clients { map (λ r. finds r) records.clients.items ≡ replicate MAX_CLIENTS empty_client }
    requires few_nodes { nodes ≤ MAX_NODES }
    requires few_clients { clients ≤ MAX_CLIENTS }
    ensures { IfOk result (λ all. map (λ r. finds r) all.items ≡ replicate nodes (empty_node problem) ++ replicate clients empty_client) }
{
    let Records {
        first,
        second,
        clients: others,
    } = records;
    let mut all = of_nodes(problem, first, second, nodes);
    let mut others = front(others, clients as usize);
    all.append(&mut others)?;
    Ok(all)
}
