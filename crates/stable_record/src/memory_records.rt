// A record in memory.

ghost use Rattle.std.specs.Prelude.{◌≡◌, ◌↔◌, ◌⊎◌, ◌<◌, length, OnOk, OnErr, IfOk, IfErr, IsOkUnless, Err};

use crate::formats::MAX_RECORD_LEN;
use crate::{RecordFault, StableRecord};
use std::alloc::Global;
use std::marker::Model;

/// A record in memory. Contracts see it as its bytes. Its device never fails (301), and it is never
/// spent (305).
#[derive(Drop)]
pub struct MemoryRecord {
    alloc: Global,
    bytes: Vec<u8>,
}

impl Model for MemoryRecord {
    ghost use Rattle.std.specs.Prelude.{ℕ, List};

    ghost Value = { List ℕ };

    ghost view = { λ m. m.bytes.items };
}

impl MemoryRecord {
    /// A record in which a restart finds these bytes. The only fault is that memory was refused
    /// (304).
    pub fn holding(alloc: Global, bytes: &[u8]) -> Result<MemoryRecord, RecordFault>
        ensures held { IfOk result (λ m. m ≡ bytes.now) }
        ensures memory { IsOkUnless result RecordFault.Memory }
    {
        let Ok(bytes) = Vec::from_slice(alloc, bytes) else {
            return Err(RecordFault::Memory);
        };
        Ok(MemoryRecord { alloc, bytes })
    }
}

impl StableRecord for MemoryRecord {
    ghost use Rattle.std.specs.Prelude.{[], ◌∷◌, false};

    ghost finds = { λ m. m ∷ [] };

    ghost stuck_of = { λ _. false };

    ghost spent_of = { λ _. false };

    ghost failures_of = { λ _. 0 };

    /// Keeps a copy. It answers 303 (more than `MAX_RECORD_LEN` bytes), then 304 (memory was
    /// refused), and then nothing has changed.
    fn keep(&mut self, bytes: &[u8]) -> Result<(), RecordFault>
        ensures kept { OnOk result (self.new ≡ bytes.now) }
        ensures too_long { (result ≡ Err RecordFault.TooLong) ↔ (MAX_RECORD_LEN < length bytes.now) }
        ensures faults { IfErr result (λ fault. (fault ≡ RecordFault.TooLong) ⊎ (fault ≡ RecordFault.Memory)) }
        ensures unchanged { OnErr result (self.new ≡ self.old) }
    {
        if bytes.len() > MAX_RECORD_LEN {
            return Err(RecordFault::TooLong);
        }
        let Ok(copy) = Vec::from_slice(self.alloc, bytes) else {
            return Err(RecordFault::Memory);
        };
        self.bytes = copy;
        Ok(())
    }

    /// A copy of the bytes. The only fault is that memory was refused (304).
    fn reopen(&mut self) -> Result<Vec<u8>, RecordFault>
        ensures found { IfOk result (λ bytes. bytes.items ≡ self.old) }
        ensures memory { IsOkUnless result RecordFault.Memory }
        ensures unchanged { self.new ≡ self.old }
    {
        let Ok(copy) = Vec::from_slice(self.alloc, &self.bytes) else {
            return Err(RecordFault::Memory);
        };
        Ok(copy)
    }

    fn stuck(&self) -> bool {
        false
    }

    fn failures(&self) -> u64 {
        0
    }
}
