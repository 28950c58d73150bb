//! Node and client records against bytes that were written by hand, and entries.

use crate::nodes::{SETTLED, SOFTENED, WRITER_WAITS, is_written_so};
use crate::rows::{all, both, bytes, put_entry, ticket};
use crate::spellings::{Spelled, begin_short, has_fault, put};
use crate::tables::{Table, each};
use lock_messages::{ClientId, Mode, ResourceName, Ticket};
use lock_model::Problem;
use stable_record::{
    Entries, Entry, Live, NodeRecord, RecordFault, Status, client_bytes, read_client, read_node,
};
use std::alloc::Global;
use test_outcomes::{Outcome, check_answer, check_answers};

/// The number of the fault that reading a node's record finds; 0 where it finds none.
pub(crate) fn fault_of(alloc: Global, bytes: &[u8]) -> Option<u16> {
    match read_node(alloc, bytes) {
        Ok(_) => Some(0),
        Err(RecordFault::NoMemory) => None,
        Err(fault) => Some(fault.number()),
    }
}

// Bytes, with the fault that they have: none; of the other problem c3 would not wait; nobody waits
// alone.
const NODE_RECORDS: &str = "\
312 02
313 01 03 0000
0 01 01 0000
0 01 02 0000
319 01 01 0000 00
318 01 01 0003 00000001 0000000000000000 02 0000000000000001 00 01 61 00000002 0000000000000000 01 0000000000000001 01 01 61 00000003 0000000000000000 01 0000000000000001 00 01 61
318 01 01 0001 00000001 0000000000000000 01 0000000000000001 00 01 61";

// Of softened holders: each is a reader, so that a writer does not hold beside it, one that waits for it
// has a cause and a reader has none. That it writes is judged at its mode, behind its attempt.
const SOFTENED_RECORDS: &str = "\
0 01 01 0001 00000001 0000000000000000 03 0000000000000001 00 01 61
0 01 02 0002 00000001 0000000000000000 03 0000000000000001 00 01 61 00000002 0000000000000000 03 0000000000000001 00 01 61
0 01 01 0002 00000001 0000000000000004 03 0000000000000005 00 01 61 00000002 0000000000000000 01 0000000000000001 01 01 61
0 01 01 0002 00000001 0000000000000000 03 0000000000000001 00 01 61 00000002 0000000000000000 02 0000000000000001 01 01 62
314 01 01 0001 00000001 0000000000000000 03 0000000000000001 01 01 61
314 01 01 0001 00000001 0000000000000000 03 0000000000000001 01
314 01 01 0001 00000001 0000000000000000 03 0000000000000001 02 01 61
314 01 01 0001 00000001 0000000000000000 04 0000000000000001 00 01 61
316 01 01 0001 00000001 0000000000000000 03 0000000000000002 01 01 61
311 01 01 0001 00000001 0000000000000000 03 0000000000000001
312 02 01 0001 00000001 0000000000000000 03 0000000000000001 00 01 61
317 01 01 0002 00000001 0000000000000000 03 0000000000000001 00 01 61 00000002 0000000000000000 02 0000000000000001 01 01 61
318 01 01 0002 00000001 0000000000000000 03 0000000000000001 00 01 61 00000002 0000000000000000 01 0000000000000001 00 01 61
318 01 02 0002 00000001 0000000000000000 03 0000000000000001 00 01 61 00000002 0000000000000000 01 0000000000000001 00 01 61
319 01 01 0001 00000001 0000000000000000 03 0000000000000001 00 01 61 00";

// A place in the record in which a writer waits, another byte there, and the fault.
const CHANGES: [(usize, u8, u16); 25] = [
    (1, 0x01, 318),
    (2, 0x05, 314),
    (3, 0x04, 311),
    (3, 0x02, 319),
    (16, 0x03, 0),
    (16, 0x04, 314),
    (31, 0x00, 314),
    (31, 0x01, 315),
    (30, 0x04, 314),
    (34, 0x01, 314),
    (39, 0x01, 316),
    (40, 0x03, 314),
    (42, 0x01, 314),
    (48, 0x00, 314),
    (48, 0x02, 316),
    (49, 0x02, 314),
    (50, 0x00, 314),
    (50, 0x21, 314),
    (51, 0x41, 314),
    (51, 0x62, 318),
    (40, 0x02, 317),
    (64, 0x03, 0),
    (64, 0x04, 314),
    (73, 0x01, 0),
    (73, 0x00, 0),
];

/// Whether the record has this fault with this byte at that place.
fn is_changed(
    alloc: Global,
    record: &mut [u8],
    (place, byte, fault): (usize, u8, u16),
) -> Option<bool> {
    let before = record.get(place).copied().unwrap_or(0);
    put(record, place, byte);
    let right = has_fault(alloc, Spelled::Record, record, fault);
    put(record, place, before);
    right
}

/// Whether the record has the fault of each change.
fn are_changed(alloc: Global, record: &mut [u8]) -> Outcome {
    for (number, row) in CHANGES.iter().enumerate() {
        check_answer(is_changed(alloc, record, *row), number)?;
    }
    Ok(())
}

/// Whether the record in which a writer waits has the fault of each change.
fn all_are_changed(alloc: Global) -> Outcome {
    match bytes(alloc, WRITER_WAITS) {
        Some(record) => {
            let mut record = record;
            are_changed(alloc, &mut record)
        }
        None => check_answer(None, 0),
    }
}

/// Whether each beginning of a record is short.
fn begins_short(alloc: Global, record: &str) -> Option<bool> {
    match bytes(alloc, record) {
        Some(record) => begin_short(alloc, Spelled::Record, &record, 311),
        None => None,
    }
}

#[test]
fn node_record_faults(rt: HostRuntime) -> Outcome {
    let faulty = each(rt.alloc(), Table::FaultyRecords, NODE_RECORDS);
    let softened = each(rt.alloc(), Table::FaultyRecords, SOFTENED_RECORDS);
    let changed = all_are_changed(rt.alloc());
    let short = check_answers(&[
        begins_short(rt.alloc(), WRITER_WAITS),
        begins_short(rt.alloc(), SOFTENED),
    ]);
    faulty.and(softened).and(changed).and(short)
}

/// Whether a record has so many entries, is lawful and caused, and is written as these bytes.
fn is_written(alloc: Global, node: &NodeRecord, bytes: &[u8], entries: usize) -> Option<bool> {
    let is_good = node.entries.len() == entries && node.lawful() && node.caused();
    both(Some(is_good), is_written_so(alloc, node, bytes))
}

/// Whether these bytes are a record of so many entries, and are written again.
fn goes_there_and_back(alloc: Global, bytes: &[u8], entries: usize) -> Option<bool> {
    match read_node(alloc, bytes) {
        Ok(node) => is_written(alloc, &node, bytes, entries),
        Err(_) => None,
    }
}

/// Whether the record that is spelled so, which has three entries, is written again.
fn is_written_again(alloc: Global, spelled: &str) -> Option<bool> {
    match bytes(alloc, spelled) {
        Some(record) => goes_there_and_back(alloc, &record, 3),
        None => None,
    }
}

/// Adds the record of problem 1 in which so many clients read the same resource in their last attempt; whether
/// there was memory.
fn put_readers(out: &mut Vec<u8>, clients: u16) -> bool {
    let mut put = out.extend_from_slice(&[1, 1]).is_ok();
    put &= out.extend_from_slice(&clients.to_be_bytes()).is_ok();
    for client in 1..=clients {
        put &= put_entry(out, client as u32, 1_000_000_000_000, (2, 0), &[b'z'; 32]);
    }
    put
}

/// Whether a record of so many entries has the size that it is to have, and goes there and back.
fn has_size(alloc: Global, clients: u16) -> Option<bool> {
    let entries = clients as usize;
    let mut record = Vec::new(alloc);
    let put = put_readers(&mut record, clients);
    all(&[
        put.then_some(true),
        Some(record.len() == 4 + 55 * entries),
        goes_there_and_back(alloc, &record, entries),
    ])
}

#[test]
fn records_of_every_size(rt: HostRuntime) -> Outcome {
    let alloc = rt.alloc();
    check_answers(&[
        is_written_again(alloc, WRITER_WAITS),
        is_written_again(alloc, SETTLED),
        is_written_again(alloc, SOFTENED),
        has_size(alloc, 0),
        has_size(alloc, 1),
        has_size(alloc, 2),
        has_size(alloc, 100),
        has_size(alloc, 1_024),
    ])
}

/// The entry of a ticket that holds.
fn holder(ticket: Ticket) -> Entry {
    let holds = Live {
        attempt: ticket.attempt,
        mode: ticket.mode,
        resource: ticket.resource,
        status: Status::Holding,
    };
    Entry {
        client: ticket.client,
        floor: 0,
        live: Some(holds),
    }
}

/// c3, which has no ticket.
fn idler() -> Entry {
    Entry {
        client: ClientId::of(3).unwrap(),
        floor: 0,
        live: None,
    }
}

/// Pushes two entries; whether the clients of both are new, or of neither.
fn pushes(entries: &mut Entries, first: Entry, second: Entry, new: bool) -> Option<bool> {
    match (entries.push(first), entries.push(second)) {
        (Ok(one), Ok(other)) => Some(one == new && other == new),
        _ => None,
    }
}

/// Whether these two are the entries, in this order.
fn are_these(entries: &Entries, first: Entry, second: Entry) -> bool {
    entries.len() == 2
        && entries.knows(first.client)
        && entries.knows(second.client)
        && entries.get(0) == Some(first)
        && entries.get(1) == Some(second)
        && entries.get(2).is_none()
}

/// Whether a reader, and no writer, is admitted.
fn admits(entries: &Entries, resource: &ResourceName) -> bool {
    entries.admits(Problem::First, Mode::Read, resource)
        && !entries.admits(Problem::First, Mode::Write, resource)
}

/// Whether entries stand in the order in which they were pushed, each client once.
fn are_in_order(alloc: Global) -> Option<bool> {
    let Some(ticket) = ticket(7, 1, Mode::Read, b"a") else {
        return None;
    };
    let (first, second) = (holder(ticket), idler());
    let mut entries = Entries::new(alloc);
    all(&[
        pushes(&mut entries, first, second, true),
        pushes(&mut entries, first, second, false),
        Some(are_these(&entries, first, second) && admits(&entries, &ticket.resource)),
    ])
}

#[test]
fn entries_in_order(rt: HostRuntime) -> Outcome {
    check_answer(are_in_order(rt.alloc()), 0)
}

// The attempt that a client's record has, or its fault.
const CLIENT_RECORDS: &str = "\
0 01 0000000000000000
1000000000000 01 000000e8d4a51000
321 01 000000e8d4a510
321 01
322 02
323 01 000000e8d4a51001 00
324 01 0000000000000000 00";

/// The attempt that a client's record has, or the number of its fault.
fn found_in(record: &[u8]) -> u64 {
    match read_client(record) {
        Ok(attempt) => attempt,
        Err(fault) => fault.number() as u64,
    }
}

pub(crate) fn is_read(alloc: Global, row: &str) -> Option<bool> {
    let (want, spelled) = row.split_once(' ').unwrap_or((row, ""));
    match bytes(alloc, spelled) {
        Some(record) => Some(found_in(&record) == want.parse().unwrap_or(u64::MAX)),
        None => None,
    }
}

#[test]
fn client_records(rt: HostRuntime) -> Outcome {
    let read = each(rt.alloc(), Table::ClientRecords, CLIENT_RECORDS);
    read.and(check_answers(&[
        Some(client_bytes(0) == [1, 0, 0, 0, 0, 0, 0, 0, 0]),
        Some(client_bytes(1_000_000_000_000) == [1, 0, 0, 0, 0xe8, 0xd4, 0xa5, 0x10, 0]),
        Some(read_client(&[]).is_err()),
    ]))
}
