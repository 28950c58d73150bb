// Records by the device on which they lie.

ghost use Rattle.std.specs.Prelude.{◌≡◌, ◌∷◌, [], IfOk};

use crate::odd_records::OddRecord;
use crate::watches::Watch;
use stable_record::{Leaves, StableRecord};
use std::alloc::Global;
use std::sync::Arc;
use test_outcomes::Failure;
use test_support::{in_memory, on_a_faulty_device};

/// On what a record lies.
#[derive(Clone, Copy)]
pub(crate) enum Device {
    /// What never fails.
    Memory,
    /// What never fails and counts.
    Counted,
    /// What fails at each keep whose number is a multiple of the first number, and leaves the old bytes
    /// or the new ones; and before that at so many reopens.
    Faulty(u32, Leaves, u32),
    /// What breaks at the first keep, and is never reopened after that.
    Broken,
    /// What can number no change any more.
    Spent,
}

fn odd(
    alloc: Global,
    bytes: &[u8],
    watch: &Arc<Watch>,
    is_spent: bool,
    breaks: bool,
) -> Result<Box<dyn StableRecord + Send>, Failure>
    ensures { IfOk result (λ r. finds r ≡ bytes.now ∷ []) }
{
    let record = OddRecord::holding(alloc, bytes, watch, is_spent, breaks)?;
    let record: Box<dyn StableRecord + Send> = Box::new(alloc, record)?;
    Ok(record)
}

/// A record on such a device, in which a restart finds these bytes; one that counts does so for the watch.
pub(crate) fn record_on(
    alloc: Global,
    device: Device,
    bytes: &[u8],
    watch: &Arc<Watch>,
) -> Result<Box<dyn StableRecord + Send>, Failure>
    ensures { IfOk result (λ r. finds r ≡ bytes.now ∷ []) }
{
    match device {
        Device::Memory => {
            let record: Box<dyn StableRecord + Send> = Box::new(alloc, in_memory(alloc, bytes)?)?;
            Ok(record)
        }
        Device::Counted => odd(alloc, bytes, watch, false, false),
        Device::Faulty(every, leaves, bad) => {
            let record = on_a_faulty_device(alloc, bytes, every, leaves, bad)?;
            let record: Box<dyn StableRecord + Send> = Box::new(alloc, record)?;
            Ok(record)
        }
        Device::Broken => odd(alloc, bytes, watch, false, true),
        Device::Spent => odd(alloc, bytes, watch, true, false),
    }
}
