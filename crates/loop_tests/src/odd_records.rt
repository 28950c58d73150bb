// A record whose device breaks, that is spent, or that counts.

ghost use Rattle.std.specs.Prelude.{◌≡◌, true, IfOk};
ghost use Rattle.stable_record.specs.Faulty.{counted};

use crate::watches::Watch;
use stable_record::{MAX_RECORD_LEN, RecordFault, StableRecord};
use std::alloc::Global;
use std::marker::Model;
use std::sync::Arc;
use test_outcomes::Failure;

/// A record in memory that counts its keeps. It may be spent (305), or lie on a device that breaks at the first
/// keep: that leaves the old bytes, and no reopen finds them any more.
#[derive(Drop)]
pub(crate) struct OddRecord {
    alloc: Global,
    found: Vec<u8>,
    watch: Arc<Watch>,
    is_spent: bool,
    breaks: bool,
    is_stuck: bool,
    count: u64,
}

impl Model for OddRecord {
    ghost use Rattle.loop_tests.specs.Odd.{Odd};

    ghost Value = { Odd };

    ghost view = { λ r. record { bytes = r.found.items; stuck = r.is_stuck; spent = r.is_spent; failures = r.count } };
}

impl OddRecord {
    pub(crate) fn holding(
        alloc: Global,
        bytes: &[u8],
        watch: &Arc<Watch>,
        is_spent: bool,
        breaks: bool,
    ) -> Result<OddRecord, Failure>
        ensures { IfOk result (λ r. r.bytes ≡ bytes.now) }
    {
        let watch = watch.clone()?;
        Ok(OddRecord {
            alloc,
            found: Vec::from_slice(alloc, bytes)?,
            watch,
            is_spent,
            breaks,
            is_stuck: false,
            count: 0,
        })
    }

    /// The device fails.
    fn fail(&mut self)
        ensures { self.new ≡ record self.old { stuck = true; failures = counted self.old.failures } }
    {
        self.is_stuck = true;
        self.count = self.count.saturating_add(1);
    }
}

impl StableRecord for OddRecord {
    ghost use Rattle.std.specs.Prelude.{[], ◌∷◌};

    ghost finds = { λ r. r.bytes ∷ [] };

    ghost stuck_of = { λ r. r.stuck };

    ghost spent_of = { λ r. r.spent };

    ghost failures_of = { λ r. r.failures };

    fn keep(&mut self, bytes: &[u8]) -> Result<(), RecordFault> {
        if self.is_stuck {
            return Err(RecordFault::Stuck);
        }
        if bytes.len() > MAX_RECORD_LEN {
            return Err(RecordFault::TooLong);
        }
        if self.is_spent {
            return Err(RecordFault::Spent);
        }
        if self.breaks {
            self.fail();
            return Err(RecordFault::Device);
        }
        self.watch.keep();
        let Ok(found) = Vec::from_slice(self.alloc, bytes) else {
            return Err(RecordFault::Memory);
        };
        self.found = found;
        Ok(())
    }

    fn reopen(&mut self) -> Result<Vec<u8>, RecordFault> {
        if self.is_stuck {
            self.fail();
            return Err(RecordFault::Device);
        }
        match Vec::from_slice(self.alloc, &self.found) {
            Ok(bytes) => Ok(bytes),
            Err(_) => Err(RecordFault::Memory),
        }
    }

    fn stuck(&self) -> bool {
        self.is_stuck
    }

    fn failures(&self) -> u64 {
        self.count
    }
}
