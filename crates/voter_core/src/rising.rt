// Reading the record with which a node rises.

ghost use Rattle.std.specs.Prelude.{◌≡◌, ◌⊎◌, IfOk, IfErr, Ok, Err};
ghost use Rattle.stable_record.specs.declared.node_records.NodeRecord.{NodeRecord};
ghost use Rattle.stable_record.specs.Records.{IsNodeRecord, node_record_of};
ghost use Rattle.voter_core.specs.Voters.{IsRefusedFor};

use crate::VoterFault;
use stable_record::{NodeRecord, RecordFault, read_node};
use std::alloc::Global;

/// The record that the bytes are.
pub(crate) fn read_record(alloc: Global, bytes: &[u8]) -> Result<NodeRecord, VoterFault>
    ensures found { IfOk result (λ r. IsNodeRecord r × (bytes.now ≡ node_record_of r)) }
    ensures refused { IfErr result (λ fault. IsRefusedFor bytes.now fault) }
    ensures only { (r : NodeRecord) → IsNodeRecord r → bytes.now ≡ node_record_of r → (result ≡ Err VoterFault.Memory) ⊎ (result ≡ Ok r) }
{
    match read_node(alloc, bytes) {
        Ok(record) => Ok(record),
        Err(RecordFault::NoMemory) => Err(VoterFault::Memory),
        Err(fault) => Err(VoterFault::Unreadable(fault)),
    }
}
