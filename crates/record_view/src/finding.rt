// What opening finds on the bytes of a file.

ghost use Rattle.std.specs.Prelude.{◌≡◌, length, IfOk, IfErr};
ghost use Rattle.record_view.specs.Views.{Finds, IsImageOf};
ghost use Rattle.slot_record.specs.Slots as TwoSlots;
ghost use Rattle.rotating_record.specs.Slots as ThreeSlots;

use rotating_record::{ROTATING_PLATE_LEN, RotatingRecord};
use slot_record::{LEAST_PLATE_LEN, MemoryPlate, Plate, SlotFault, SlotRecord};
use std::alloc::{AllocError, Global};

/// A synced plate in memory that holds these bytes. Its calls fail only if memory runs out.
fn plate_of(alloc: Global, size: u32, bytes: &[u8]) -> Result<MemoryPlate, AllocError>
    requires { length bytes.now ≡ size }
    ensures holds { IfOk result (λ m. IsImageOf bytes.now m) }
{
    let Ok(mut plate) = MemoryPlate::of(alloc, size) else {
        return Err(AllocError);
    };
    let Ok(()) = plate.write_at(0, bytes) else {
        return Err(AllocError);
    };
    let Ok(()) = plate.sync() else {
        return Err(AllocError);
    };
    Ok(plate)
}

/// The body that opening finds in two slots.
pub(crate) fn find_in_two(alloc: Global, bytes: &[u8]) -> Result<Option<Vec<u8>>, AllocError>
    requires { length bytes.now ≡ LEAST_PLATE_LEN }
    ensures found { IfOk result (λ body. Finds body (TwoSlots.found_on bytes.now)) }
{
    let plate = plate_of(alloc, LEAST_PLATE_LEN, bytes)?;
    match SlotRecord::open(alloc, plate) {
        Ok((_, body)) => Ok(Some(body)),
        Err((_, SlotFault::NotFormatted)) => Ok(None),
        Err(_) => Err(AllocError),
    }
}

/// The body that opening finds in three slots.
pub(crate) fn find_in_three(alloc: Global, bytes: &[u8]) -> Result<Option<Vec<u8>>, AllocError>
    requires { length bytes.now ≡ ROTATING_PLATE_LEN }
    ensures found { IfOk result (λ body. Finds body (ThreeSlots.found_on bytes.now)) }
{
    let plate = plate_of(alloc, ROTATING_PLATE_LEN, bytes)?;
    match RotatingRecord::open(alloc, plate) {
        Ok((_, body)) => Ok(Some(body)),
        Err((_, SlotFault::NotFormatted)) => Ok(None),
        Err(_) => Err(AllocError),
    }
}
