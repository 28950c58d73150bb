//! What is shown of a record's file.

use file_plate::FileFault;
use record_view::view;
use rotating_record::RotatingRecord;
use slot_record::{MemoryPlate, Plate, SlotRecord};
use stable_record::{StableRecord, client_bytes};
use std::alloc::Global;
use test_outcomes::{Failure, Outcome, check, check_answer};

/// All bytes of a plate.
fn bytes_of(alloc: Global, mut plate: MemoryPlate) -> Option<Vec<u8>> {
    let size = plate.size();
    let mut bytes = vec![in alloc; 0u8; size as usize].ok()?;
    plate.read_at(0, &mut bytes).ok()?;
    Some(bytes)
}

/// Whether this is shown of these bytes.
fn shows(alloc: Global, bytes: &[u8], text: &str) -> Option<bool> {
    let seen = view(alloc, bytes).ok()?;
    let shown = format!(in alloc; "{seen}").ok()?;
    Some(shown.as_str() == text)
}

/// A record of two slots in which a client has kept its attempt 7 behind 6.
fn two(alloc: Global) -> Option<bool> {
    let plate = MemoryPlate::of(alloc, 120_026).ok()?;
    let mut record = SlotRecord::format(alloc, plate, &client_bytes(6)).ok()?;
    record.keep(&client_bytes(7)).ok()?;
    let bytes = bytes_of(alloc, record.into_plate())?;
    let text = "120026 bytes, 2 slots\n\
        slot 1: open, sequence 1, 9 bytes\n\
        slot 2: open, sequence 2, 9 bytes, has the record\n\
        a client's record: last attempt 7\n";
    shows(alloc, &bytes, text)
}

#[test]
fn a_client_in_two_slots(rt: HostRuntime) -> Outcome {
    check_answer(two(rt.alloc()), 0)
}

/// A node's record in three slots: under problem 2 client 3 holds `a` to write, and client 5 waits for it.
const NODE: [u8; 52] = [
    1, 2, 0, 2, 0, 0, 0, 3, 0, 0, 0, 0, 0, 0, 0, 0, 2, 0, 0, 0, 0, 0, 0, 0, 1, 1, 1, b'a', 0, 0, 0,
    5, 0, 0, 0, 0, 0, 0, 0, 4, 1, 0, 0, 0, 0, 0, 0, 0, 5, 0, 1, b'a',
];

fn three(alloc: Global) -> Option<bool> {
    let plate = MemoryPlate::of(alloc, 200_704).ok()?;
    let mut record = RotatingRecord::format(alloc, plate, b"F").ok()?;
    record.keep(&NODE).ok()?;
    let bytes = bytes_of(alloc, record.into_plate())?;
    let text = "200704 bytes, 3 slots\n\
        slot 1: open, sequence 1, 1 bytes\n\
        slot 2: open, sequence 2, 52 bytes, has the record\n\
        slot 3: closed, sequence 0, 0 bytes\n\
        a node's record: problem 2 (writer-first), entries 2\n\
        c3: floor 0, attempt 1 write a holds\n\
        c5: floor 4, attempt 5 read a waits\n";
    shows(alloc, &bytes, text)
}

#[test]
fn a_node_in_three_slots(rt: HostRuntime) -> Outcome {
    check_answer(three(rt.alloc()), 0)
}

/// Bytes that are no record of an actor, and a file without a record.
fn others(alloc: Global) -> Option<bool> {
    let plate = MemoryPlate::of(alloc, 200_704).ok()?;
    let record = RotatingRecord::format(alloc, plate, b"F").ok()?;
    let bytes = bytes_of(alloc, record.into_plate())?;
    let text = "200704 bytes, 3 slots\n\
        slot 1: open, sequence 1, 1 bytes, has the record\n\
        slot 2: closed, sequence 0, 0 bytes\n\
        slot 3: closed, sequence 0, 0 bytes\n\
        1 bytes, not the record of an actor\n";
    let zeros = vec![in alloc; 0u8; 120_026].ok()?;
    let none = "120026 bytes, 2 slots\n\
        slot 1: closed, sequence 0, 0 bytes\n\
        slot 2: closed, sequence 0, 0 bytes\n\
        no slot has a record\n";
    Some(shows(alloc, &bytes, text)? && shows(alloc, &zeros, none)?)
}

#[test]
fn other_bytes(rt: HostRuntime) -> Outcome {
    check_answer(others(rt.alloc()), 0)
}

#[test]
fn a_file_of_another_size(rt: HostRuntime) -> Outcome {
    let bytes = vec![in rt.alloc(); 0u8; 120_025]?;
    match view(rt.alloc(), &bytes) {
        Err(FileFault::WrongSize) => Ok(()),
        Err(_) => Err(Failure::NoAnswer(0)),
        Ok(_) => check(false),
    }
}
