// Records by the device on which they lie.

ghost use Rattle.std.specs.Prelude.{◌≡◌, ◌∷◌, [], IfOk};

use slot_record::{LEAST_PLATE_LEN, MemoryPlate, SlotRecord};
use stable_record::{FaultyRecord, Leaves, MemoryRecord};
use std::alloc::Global;
use test_outcomes::Failure;

/// On what a record lies.
#[derive(Clone, Copy)]
pub enum Device {
    /// What never fails.
    Memory,
    /// What fails at each keep whose number is a multiple of the first number, and leaves the old bytes
    /// or the new ones; and before that at so many reopens.
    Faulty(u32, Leaves, u32),
    /// A plate whose calls fail from the one of this number on; with 0 none fails.
    Plate(u32),
}

/// A record in memory that has these bytes.
pub fn in_memory(alloc: Global, bytes: &[u8]) -> Result<MemoryRecord, Failure>
    ensures { IfOk result (λ r. r ≡ bytes.now) }
{
    match MemoryRecord::holding(alloc, bytes) {
        Ok(record) => Ok(record),
        Err(_) => Err(Failure::Memory),
    }
}

/// A record of these bytes on a device that fails at each keep whose number is a multiple of `every`, which is not
/// 0, and at so many reopens before.
pub fn on_a_faulty_device(
    alloc: Global,
    bytes: &[u8],
    every: u32,
    leaves: Leaves,
    bad: u32,
) -> Result<FaultyRecord, Failure>
    ensures { IfOk result (λ r. r.bytes ≡ bytes.now) }
{
    if every == 0 {
        return Err(Failure::Wrong(0));
    }
    match FaultyRecord::of(alloc, bytes, every, leaves) {
        Ok(record) => Ok(record.with_bad_reopens(bad)),
        Err(_) => Err(Failure::Memory),
    }
}

/// A plate that is the home of a record of these bytes, and whose calls fail from that one on; with 0 none
/// fails.
fn plate(alloc: Global, bytes: &[u8], fuse: u32) -> Result<MemoryPlate, Failure> {
    let Ok(plate) = MemoryPlate::of(alloc, LEAST_PLATE_LEN) else {
        return Err(Failure::Memory);
    };
    match SlotRecord::format(alloc, plate, bytes) {
        Ok(record) => {
            let mut plate = record.into_plate();
            if fuse >= 1 {
                plate.fuse(fuse);
            }
            Ok(plate)
        }
        Err((_plate, _fault)) => Err(Failure::Memory),
    }
}

/// A record of these bytes on a plate whose calls fail from that one on; with 0 none fails.
pub fn on_a_plate(
    alloc: Global,
    bytes: &[u8],
    fuse: u32,
) -> Result<SlotRecord<MemoryPlate>, Failure>
    ensures { IfOk result (λ r. r.finds ≡ bytes.now ∷ []) }
{
    let plate = plate(alloc, bytes, fuse)?;
    match SlotRecord::open(alloc, plate) {
        Ok((record, found)) if found.as_slice() == bytes => Ok(record),
        Ok((_record, _found)) => Err(Failure::Wrong(0)),
        Err((_plate, _fault)) => Err(Failure::Memory),
    }
}
