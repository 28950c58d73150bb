// What a served run is handed beside what runs for problem 1 need: records for problem 2.

ghost use Rattle.std.specs.Prelude.{◌≡◌, map, replicate, IfOk};
ghost use Rattle.lock_messages.specs.declared.ids.TheConstants.{MAX_NODES};
ghost use Rattle.run_service.specs.Empty.{empty_node};

use crate::boxed::record_on;
use lock_messages::MAX_NODES;
use lock_model::Problem;
use stable_record::StableRecord;
use std::alloc::Global;
use test_outcomes::Failure;
use test_support::Device;

/// The record of a node for problem 2 that has kept nothing.
const NOTHING: [u8; 4] = [1, 2, 0, 0];

/// As many records of nodes for problem 2 as there may be nodes.
pub(crate) fn second_records(alloc: Global) -> Result<Vec<Box<dyn StableRecord + Send>>, Failure>
    ensures { IfOk result (λ v. map (λ r. finds r) v.items ≡ replicate MAX_NODES (empty_node Problem.Second)) }
{
    let mut records: Vec<Box<dyn StableRecord + Send>> = Vec::new(alloc);
    for _ in 0..MAX_NODES {
        records.push(record_on(alloc, Device::Memory, &NOTHING)?)?;
    }
    Ok(records)
}
