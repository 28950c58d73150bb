//! What opening finds on a plate with three slots.

use rotating_record::RotatingRecord;
use slot_record::{MemoryPlate, SlotFault};
use std::alloc::Global;

/// The bytes of a plate with three slots, by number: a constant of the code would follow whatever stands
/// there.
pub(crate) const PLATE_LEN: u32 = 200_704;

/// The first byte of what opening finds; a dash where no slot has a record.
pub(crate) fn found_on(alloc: Global, plate: MemoryPlate) -> Option<u8> {
    match RotatingRecord::open(alloc, plate) {
        Ok((_, body)) => body.first().copied(),
        Err((_, SlotFault::NotFormatted)) => Some(b'-'),
        Err(_) => None,
    }
}

/// The same after a crash that leaves this byte wherever something was written since the last sync.
pub(crate) fn found_after(alloc: Global, plate: &MemoryPlate, fill: u8) -> Option<u8> {
    found_on(alloc, plate.after_crash(fill).ok()?)
}

/// A new plate, whose device call with this number and all later ones fail; at 0 none does.
pub(crate) fn plate_with(alloc: Global, fuse: u32) -> Option<MemoryPlate> {
    let mut plate = MemoryPlate::of(alloc, PLATE_LEN).ok()?;
    if fuse > 0 {
        plate.fuse(fuse);
    }
    Some(plate)
}

/// A record `F` over such a plate.
pub(crate) fn formatted(alloc: Global, fuse: u32) -> Option<RotatingRecord<MemoryPlate>> {
    RotatingRecord::format(alloc, plate_with(alloc, fuse)?, b"F").ok()
}
