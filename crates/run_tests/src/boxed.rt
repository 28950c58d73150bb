// Records by their device, in boxes. They are boxed here, since a library may not hand out a box that it made.

ghost use Rattle.std.specs.Prelude.{◌≡◌, ◌∷◌, [], IfOk};

use stable_record::StableRecord;
use std::alloc::Global;
use test_outcomes::Failure;
use test_support::{Device, in_memory, on_a_faulty_device, on_a_plate};

/// A record on such a device, in which a restart finds these bytes.
pub(crate) fn record_on(
    alloc: Global,
    device: Device,
    bytes: &[u8],
) -> Result<Box<dyn StableRecord + Send>, Failure>
    ensures { IfOk result (λ r. finds r ≡ bytes.now ∷ []) }
{
    match device {
        Device::Memory => {
            let record = in_memory(alloc, bytes)?;
            let record: Box<dyn StableRecord + Send> = Box::new(alloc, record)?;
            Ok(record)
        }
        Device::Faulty(every, leaves, bad) => {
            let record = on_a_faulty_device(alloc, bytes, every, leaves, bad)?;
            let record: Box<dyn StableRecord + Send> = Box::new(alloc, record)?;
            Ok(record)
        }
        Device::Plate(fuse) => {
            let record = on_a_plate(alloc, bytes, fuse)?;
            let record: Box<dyn StableRecord + Send> = Box::new(alloc, record)?;
            Ok(record)
        }
    }
}
