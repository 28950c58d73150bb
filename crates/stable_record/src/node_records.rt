// What a node keeps.

ghost use Rattle.std.specs.Prelude.{◌↔◌, IsTrue};
ghost use Rattle.lock_model.specs.Stations.{IsLawful, IsCaused};
ghost use Rattle.lock_model.specs.ExactStations.{meaning};

use crate::Entries;
use lock_model::Problem;
use std::alloc::AllocError;

/// What a node keeps: the problem that it solves, and its entries.
#[derive(Debug, Drop)]
pub struct NodeRecord {
    pub problem: Problem,
    pub entries: Entries,
}

/// A copy is the same record, so one that can be kept and read again where the first is. The only
/// error is want of memory.
impl Clone for NodeRecord {
    ghost use Rattle.std.specs.Prelude.{◌≡◌};

    ghost is_clone = { λ original copy. copy ≡ original };

    fn clone(&self) -> Result<NodeRecord, AllocError> {
        Ok(NodeRecord {
            problem: self.problem,
            entries: self.entries.clone()?,
        })
    }
}

impl NodeRecord {
    /// Whether each writer that holds a resource is its only holder (Courtois, Heymans and Parnas
    /// 1971). It takes no memory, and time of the square of the number of entries at most.
    pub fn lawful(&self) -> bool
        ensures { IsTrue result ↔ IsLawful (meaning self.now.problem self.now.entries) }
    {
        lock_model::laws::judgement_is_exact();
        self.entries.is_lawful()
    }

    /// Whether each ticket that waits has a cause: a writer, that someone holds the resource; a
    /// reader, that a writer holds it or, under problem 2, waits for it. It takes no memory, and
    /// time of the square of the number of entries at most.
    pub fn caused(&self) -> bool
        ensures { IsTrue result ↔ IsCaused (meaning self.now.problem self.now.entries) }
    {
        lock_model::laws::judgement_is_exact();
        self.entries.is_caused(self.problem)
    }
}
