// Plates, and records on them: 406 of what makes one, 304 of a record that is reopened. A plate in
// memory fails, counted, where it has no memory to note a call.

use crate::failures::{Failure, Outcome, check, refused};
use slot_record::{LEAST_PLATE_LEN, MemoryPlate, Plate, SlotFault, SlotRecord};
use stable_record::{RecordFault, StableRecord};
use std::alloc::Global;

fn plate(alloc: Global) -> Result<MemoryPlate, Failure> {
    Ok(MemoryPlate::of(alloc, LEAST_PLATE_LEN)?)
}

/// Want of memory is 406, and no device call was made; or the plate itself met it and counted it.
fn lost<T>(fault: SlotFault, failures: u64) -> Result<T, Failure> {
    let right = match fault {
        SlotFault::Memory => failures == 0,
        SlotFault::Device => failures == 1,
        _ => false,
    };
    refused(right)
}

fn formatted(alloc: Global) -> Result<SlotRecord<MemoryPlate>, Failure> {
    formatted_with(alloc, &[1])
}

fn formatted_with(alloc: Global, bytes: &[u8]) -> Result<SlotRecord<MemoryPlate>, Failure> {
    match SlotRecord::format(alloc, plate(alloc)?, bytes) {
        Ok(record) => Ok(record),
        Err((plate, fault)) => lost(fault, plate.failures()),
    }
}

fn opened(alloc: Global, plate: MemoryPlate) -> Outcome {
    match SlotRecord::open(alloc, plate) {
        Ok((record, bytes)) => check(bytes.as_slice() == [1].as_slice() && !record.stuck()),
        Err((plate, fault)) => lost(fault, plate.failures()),
    }
}

#[test]
fn make_a_plate(rt: HostRuntime) -> Outcome {
    check(plate(rt.alloc())?.size() == LEAST_PLATE_LEN)
}

#[test]
fn format_a_plate(rt: HostRuntime) -> Outcome {
    check(!formatted(rt.alloc())?.stuck())
}

#[test]
fn open_a_plate(rt: HostRuntime) -> Outcome {
    let plate = formatted(rt.alloc())?.into_plate();
    opened(rt.alloc(), plate.after_crash(7)?)
}

#[test]
fn reopen_a_record_on_a_plate(rt: HostRuntime) -> Outcome {
    let mut record = formatted(rt.alloc())?;
    match record.reopen() {
        Ok(bytes) => check(bytes.as_slice() == [1].as_slice()),
        Err(RecordFault::Memory) => refused(!record.stuck() && record.failures() == 0),
        Err(fault) => refused(
            fault == RecordFault::Device && record.stuck() && record.failures() == 1,
        ),
    }
}

/// Keeps these bytes: that takes no memory but the plate's.
fn keeps(record: &mut SlotRecord<MemoryPlate>, bytes: &[u8]) -> Outcome {
    match record.keep(bytes) {
        Ok(()) => check(!record.stuck() && record.failures() == 0),
        Err(fault) => refused(
            fault == RecordFault::Device && record.stuck() && record.failures() == 1,
        ),
    }
}

#[test]
fn keep_on_a_plate(rt: HostRuntime) -> Outcome {
    keeps(&mut formatted(rt.alloc())?, &[2])
}

/// A body without a byte is formatted, kept and found.
#[test]
fn keep_an_empty_body(rt: HostRuntime) -> Outcome {
    let mut record = formatted_with(rt.alloc(), &[])?;
    keeps(&mut record, &[])?;
    match record.reopen() {
        Ok(bytes) => check(bytes.is_empty()),
        Err(RecordFault::Memory) => refused(!record.stuck() && record.failures() == 0),
        Err(fault) => refused(fault == RecordFault::Device && record.failures() == 1),
    }
}
