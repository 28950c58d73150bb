// A node's record with its index.

ghost use Rattle.std.specs.Prelude.{◌≡◌, ◌≢◌, [], IfOk, IfErr, OnErr};
ghost use Rattle.stable_record.specs.Lines.{Indexes};

use crate::{Entries, NodeRecord, RecordFault, ResourceIndex};
use lock_model::Problem;
use std::alloc::{AllocError, Global};
use std::marker::Model;

/// A node's record, and its tickets by resource. Contracts see it as the record: the index is always
/// that of its entries.
#[derive(Debug, Drop)]
pub struct IndexedRecord {
    node: NodeRecord,
    index: ResourceIndex,
}

impl Model for IndexedRecord {
    ghost use Rattle.stable_record.specs.declared.node_records.NodeRecord.{NodeRecord};
    ghost use Rattle.stable_record.specs.Lines.{Indexes};

    ghost Value = { NodeRecord };

    ghost view = { λ s. s.node };

    ghost invariant = { λ s. Indexes s.index s.node.entries };
}

impl IndexedRecord {
    /// The record with its index. The only fault is that memory was refused (320), and then the record
    /// is handed back.
    pub fn of(alloc: Global, node: NodeRecord) -> Result<IndexedRecord, (NodeRecord, RecordFault)>
        ensures indexed { IfOk result (λ made. made ≡ node) }
        ensures refused { IfErr result (λ back. (back.0 ≡ node) × (back.1 ≡ RecordFault.NoMemory)) }
        // Without entries no memory is asked for.
        ensures some { OnErr result (node.entries ≢ []) }
    {
        match ResourceIndex::of(alloc, &node) {
            Ok(index) => Ok(IndexedRecord { node, index }),
            Err(fault) => Err((node, fault)),
        }
    }

    /// A copy of a record, with its index. The only error is that memory was refused.
    pub fn copy_of(alloc: Global, node: &NodeRecord) -> Result<IndexedRecord, AllocError>
        ensures { IfOk result (λ copy. copy ≡ node.now) }
    {
        let copy = node.clone()?;
        match IndexedRecord::of(alloc, copy) {
            Ok(copy) => Ok(copy),
            Err(_) => Err(AllocError),
        }
    }

    /// The record of this problem without entries. It takes no memory.
    pub fn empty(alloc: Global, problem: Problem) -> IndexedRecord
        ensures { result ≡ record { problem = problem; entries = [] } }
    {
        IndexedRecord {
            node: NodeRecord {
                problem,
                entries: Entries::new(alloc),
            },
            index: ResourceIndex::empty(alloc),
        }
    }

    /// The record.
    pub fn record(&self) -> &NodeRecord
        ensures { result.now ≡ self.now }
    {
        &self.node
    }

    /// The index of its entries.
    pub fn index(&self) -> &ResourceIndex
        ensures { Indexes result.now self.now.entries }
    {
        &self.index
    }

    /// The record, and the index of its entries.
    pub fn into_parts(self) -> (NodeRecord, ResourceIndex)
        ensures record { result.0 ≡ self }
        ensures index { Indexes result.1 self.entries }
    {
        let IndexedRecord { node, index } = self;
        (node, index)
    }
}
