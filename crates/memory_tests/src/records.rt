// Records: entries that grow, node records read and written (320), and records that are kept (304).

use crate::failures::{Failure, Outcome, check, refused};
use lock_messages::ResourceName;
use lock_model::{Entry, Problem};
use stable_record::{
    Entries, FaultyRecord, IndexedRecord, Leaves, MemoryRecord, NodeRecord, RecordFault,
    ResourceIndex, StableRecord, node_bytes, read_node,
};
use std::alloc::{AllocError, Global};
use test_outcomes::client_id;
use test_support::{client, resource};

/// The record of problem 2 in which c1 holds `a` as a reader, c2 waits for it as a writer.
const TWO: [u8; 52] = [
    0x01, 0x02, 0x00, 0x02, //
    0x00, 0x00, 0x00, 0x01, 0x00, 0x00, 0x00, 0x00, 0x00, 0x00, 0x00, 0x00, 0x02, 0x00, 0x00, 0x00,
    0x00, 0x00, 0x00, 0x00, 0x01, 0x00, 0x01, 0x61, //
    0x00, 0x00, 0x00, 0x02, 0x00, 0x00, 0x00, 0x00, 0x00, 0x00, 0x00, 0x00, 0x01, 0x00, 0x00, 0x00,
    0x00, 0x00, 0x00, 0x00, 0x01, 0x01, 0x01, 0x61,
];

/// The entry of a client whose attempt 1 has ended.
fn ended(number: u32) -> Result<Entry, Failure> {
    Ok(Entry {
        client: client(number)?,
        floor: 1,
        live: None,
    })
}

/// Pushes an entry; where memory is refused nothing has changed.
fn pushes(entries: &mut Entries, number: u32) -> Outcome {
    let before = entries.len();
    let entry = ended(number)?;
    match entries.push(entry) {
        Ok(is_new) => check(is_new && entries.get(before) == Some(entry)),
        Err(_) => refused(entries.len() == before && !entries.knows(entry.client)),
    }
}

fn pushes_nine(entries: &mut Entries) -> Outcome {
    for number in 1..10 {
        pushes(entries, number)?;
    }
    Ok(())
}

#[test]
fn push_entries(rt: HostRuntime) -> Outcome {
    pushes_nine(&mut Entries::new(rt.alloc()))
}

fn reads_two(record: &NodeRecord) -> bool {
    record.problem == Problem::Second && record.entries.len() == 2 && record.lawful()
}

/// Whether one holds `a` as a reader, and one waits for it as a writer.
fn indexes_two(index: &ResourceIndex) -> bool {
    match ResourceName::of(b"a") {
        Some(name) => match index.line(&name) {
            Some(line) => {
                line.holders() == 1 && line.waiting_writers() == 1 && line.waiting().len() == 1
            }
            None => false,
        },
        None => false,
    }
}

#[test]
fn read_a_node_record(rt: HostRuntime) -> Outcome {
    let record = read_node(rt.alloc(), &TWO)?;
    check(reads_two(&record))
}

fn indexes(alloc: Global, record: &NodeRecord) -> Outcome {
    match ResourceIndex::of(alloc, record) {
        Ok(index) => check(indexes_two(&index)),
        Err(fault) => refused(fault == RecordFault::NoMemory && reads_two(record)),
    }
}

#[test]
fn index_a_node_record(rt: HostRuntime) -> Outcome {
    indexes(rt.alloc(), &read_node(rt.alloc(), &TWO)?)
}

#[test]
fn keep_a_record_with_its_index(rt: HostRuntime) -> Outcome {
    let record = read_node(rt.alloc(), &TWO)?;
    match IndexedRecord::of(rt.alloc(), record) {
        Ok(indexed) => check(reads_two(indexed.record()) && indexes_two(indexed.index())),
        Err((record, fault)) => refused(fault == RecordFault::NoMemory && reads_two(&record)),
    }
}

/// Announces c3 for a resource for which so many wait; where memory is refused nothing has changed.
fn announces_in(index: &mut ResourceIndex, alloc: Global, name: &[u8], before: usize) -> Outcome {
    let (name, client) = (resource(name)?, client_id(3));
    match index.announce(alloc, client, &name) {
        Ok(()) => check(index.waiting_count(&name) > before),
        Err(_) => refused(index.waiting_count(&name) == before && indexes_two(index)),
    }
}

fn announces(alloc: Global, name: &[u8], before: usize) -> Outcome {
    let record = read_node(alloc, &TWO)?;
    announces_in(&mut ResourceIndex::of(alloc, &record)?, alloc, name, before)
}

#[test]
fn announce_behind_another(rt: HostRuntime) -> Outcome {
    announces(rt.alloc(), b"a", 1)
}

#[test]
fn announce_for_a_new_resource(rt: HostRuntime) -> Outcome {
    announces(rt.alloc(), b"b", 0)
}

#[test]
fn announce_for_the_longest_name(rt: HostRuntime) -> Outcome {
    announces(rt.alloc(), b"abcdefghijklmnopqrstuvwxyz-01234", 0)
}

fn writes(alloc: Global, record: &NodeRecord) -> Outcome {
    match node_bytes(alloc, record) {
        Ok(bytes) => check(bytes.as_slice() == TWO.as_slice()),
        Err(fault) => refused(fault == RecordFault::NoMemory && reads_two(record)),
    }
}

#[test]
fn write_a_node_record(rt: HostRuntime) -> Outcome {
    writes(rt.alloc(), &read_node(rt.alloc(), &TWO)?)
}

fn copies(record: &NodeRecord) -> Outcome {
    let copied: Result<NodeRecord, AllocError> = record.clone();
    match copied {
        Ok(copy) => check(reads_two(record) && reads_two(&copy)),
        Err(_) => refused(reads_two(record)),
    }
}

#[test]
fn copy_a_node_record(rt: HostRuntime) -> Outcome {
    copies(&read_node(rt.alloc(), &TWO)?)
}

/// Whether a restart finds these bytes.
fn finds<S: StableRecord>(record: &mut S, bytes: &[u8]) -> Outcome {
    let found = record.reopen()?;
    check(found.as_slice() == bytes && !record.stuck())
}

/// Keeps two bytes in place of one; where memory is refused the one is found.
fn keeps<S: StableRecord>(record: &mut S) -> Outcome {
    match record.keep(&[2, 3]) {
        Ok(()) => finds(record, &[2, 3]),
        Err(fault) => {
            finds(record, &[1])?;
            check(record.failures() == 0)?;
            Err(fault.into())
        }
    }
}

/// Reopens; where memory is refused nothing has changed.
fn reopens<S: StableRecord>(record: &mut S) -> Outcome {
    let before = (record.stuck(), record.failures());
    match record.reopen() {
        Ok(bytes) => check(bytes.as_slice() == [1].as_slice()),
        Err(fault) => {
            let after = (record.stuck(), record.failures());
            check(after == before)?;
            finds(record, &[1])?;
            Err(fault.into())
        }
    }
}

#[test]
fn keep_in_memory(rt: HostRuntime) -> Outcome {
    keeps(&mut MemoryRecord::holding(rt.alloc(), &[1])?)
}

#[test]
fn reopen_in_memory(rt: HostRuntime) -> Outcome {
    reopens(&mut MemoryRecord::holding(rt.alloc(), &[1])?)
}

#[test]
fn keep_on_a_device(rt: HostRuntime) -> Outcome {
    keeps(&mut FaultyRecord::of(rt.alloc(), &[1], 2, Leaves::Old)?)
}

/// Reopens a device that gets stuck when the record is kept.
fn reopens_stuck(record: &mut FaultyRecord) -> Outcome {
    match record.keep(&[2]) {
        Err(RecordFault::Device) => reopens(record),
        Err(fault) => Err(fault.into()),
        Ok(()) => Err(Failure::Wrong),
    }
}

#[test]
fn reopen_a_stuck_device(rt: HostRuntime) -> Outcome {
    reopens_stuck(&mut FaultyRecord::of(rt.alloc(), &[1], 1, Leaves::Old)?)
}
