//! What bytes spell: their faults, and each change of one byte.

use crate::rows::{both, bytes};
use crate::{frames, record_tables, records};
use std::alloc::Global;

/// What bytes spell.
#[derive(Clone, Copy)]
pub(crate) enum Spelled {
    Frame,
    Record,
}

/// The number of the fault that reading the bytes finds; 0 where it finds none.
fn fault_of(alloc: Global, spelled: Spelled, bytes: &[u8]) -> Option<u16> {
    match spelled {
        Spelled::Frame => Some(frames::fault_of(bytes)),
        Spelled::Record => records::fault_of(alloc, bytes),
    }
}

/// Whether the bytes have this fault.
pub(crate) fn has_fault(alloc: Global, spelled: Spelled, bytes: &[u8], want: u16) -> Option<bool> {
    match fault_of(alloc, spelled, bytes) {
        Some(found) => Some(found == want),
        None => None,
    }
}

/// Whether the bytes of a row have its fault.
pub(crate) fn is_faulty(alloc: Global, spelled: Spelled, row: &str) -> Option<bool> {
    let (want, words) = row.split_once(' ').unwrap_or((row, ""));
    match bytes(alloc, words) {
        Some(bytes) => has_fault(alloc, spelled, &bytes, want.parse().unwrap_or(u16::MAX)),
        None => None,
    }
}

/// Whether each beginning of the bytes ends within a field, which is this fault.
pub(crate) fn begin_short(
    alloc: Global,
    spelled: Spelled,
    bytes: &[u8],
    short: u16,
) -> Option<bool> {
    let mut right = Some(true);
    for end in 0..bytes.len() {
        let beginning = bytes.get(..end).unwrap_or(bytes);
        right = both(right, has_fault(alloc, spelled, beginning, short));
    }
    right
}

/// Whether the bytes are read as the table of their fields says.
fn agrees(alloc: Global, spelled: Spelled, bytes: &[u8]) -> Option<bool> {
    match spelled {
        Spelled::Frame => frames::agrees(alloc, bytes),
        Spelled::Record => record_tables::agrees(alloc, bytes),
    }
}

/// Puts another value at a place.
pub(crate) fn put(bytes: &mut [u8], place: usize, value: u8) {
    if let Some(byte) = bytes.get_mut(place) {
        *byte = value;
    }
}

/// Whether they are with each value of the byte at a place, which has its own again after that.
fn each_value(alloc: Global, spelled: Spelled, bytes: &mut [u8], place: usize) -> Option<bool> {
    let before = bytes.get(place).copied().unwrap_or(0);
    let mut right = Some(true);
    for value in 0..=255u8 {
        put(bytes, place, value);
        right = both(right, agrees(alloc, spelled, bytes));
    }
    put(bytes, place, before);
    right
}

/// Whether the bytes are read as the table of their fields says with each byte changed to each other value.
pub(crate) fn each_change(alloc: Global, spelled: Spelled, bytes: &mut [u8]) -> Option<bool> {
    let mut right = Some(true);
    for place in 0..bytes.len() {
        right = both(right, each_value(alloc, spelled, bytes, place));
    }
    right
}
