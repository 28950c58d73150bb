//! What opening finds on a plate.

use slot_record::{MemoryPlate, SlotFault, SlotRecord};
use std::alloc::Global;

/// The first byte of what opening finds; a dash where no slot counts.
pub(crate) fn found_on(alloc: Global, plate: MemoryPlate) -> Option<u8> {
    match SlotRecord::open(alloc, plate) {
        Ok((_, body)) => body.first().copied(),
        Err((_, SlotFault::NotFormatted)) => Some(b'-'),
        Err(_) => None,
    }
}

/// The same after a crash that leaves this byte wherever something was written since the last sync.
pub(crate) fn found_after(alloc: Global, plate: &MemoryPlate, fill: u8) -> Option<u8> {
    found_on(alloc, plate.after_crash(fill).ok()?)
}
