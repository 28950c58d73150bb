//! The tickets of a record by resource.

use crate::nodes::{SOFTENED, WRITER_WAITS};
use crate::rows::bytes;
use lock_messages::{ClientId, ResourceName};
use stable_record::{Line, NodeRecord, ResourceIndex, read_node};
use std::alloc::Global;
use test_outcomes::{Outcome, check_answers};

/// c9 waits for `b` as a writer behind c4 and c6, which hold it as readers; c8 waits for `a` as a
/// reader and c2 as a writer, since c1 holds it as a writer; c5 has no live ticket.
const TWO_RESOURCES: &str = "01 01 0007 \
00000009 0000000000000000 01 0000000000000001 01 01 62 \
00000004 0000000000000000 02 0000000000000001 00 01 62 \
00000008 0000000000000002 01 0000000000000003 00 01 61 \
00000005 0000000000000001 00 \
00000006 0000000000000000 02 0000000000000001 00 01 62 \
00000001 0000000000000000 02 0000000000000001 01 01 61 \
00000002 0000000000000000 01 0000000000000001 01 01 61";

/// How many hold a resource, whether a writer does, how many writers wait, and who waits.
type Held = (usize, bool, usize, &'static [u32]);

/// A resource, and its line. A resource alone has none.
type Row = (&'static [u8], Option<Held>);

const LINES: [Row; 3] = [
    (b"a", Some((1, true, 1, &[8, 2]))),
    (b"b", Some((2, false, 1, &[9]))),
    (b"c", None),
];

const LINES_OF_ONE: [Row; 2] = [(b"a", Some((1, false, 1, &[2, 3]))), (b"b", None)];

// One that is softened holds, and doesn't write.
const LINES_OF_A_SOFTENED: [Row; 2] = [(b"a", Some((2, false, 1, &[3]))), (b"b", None)];

/// Whether those who wait are these.
fn waits(line: &Line, clients: &[u32]) -> bool {
    let mut right = line.waiting().len() == clients.len();
    for (place, client) in clients.iter().enumerate() {
        right &= line.waiting().get(place).copied() == ClientId::of(*client);
    }
    right
}

fn says(line: &Line, held: Held) -> bool {
    line.holders() == held.0
        && line.has_writing_holder() == held.1
        && line.waiting_writers() == held.2
        && waits(line, held.3)
}

fn has(index: &ResourceIndex, row: &Row) -> bool {
    let Some(name) = ResourceName::of(row.0) else {
        return false;
    };
    match (index.line(&name), row.1) {
        (Some(line), Some(held)) => says(line, held),
        (None, None) => true,
        _ => false,
    }
}

fn has_all(index: &ResourceIndex, rows: &[Row]) -> bool {
    let mut right = true;
    for row in rows {
        right &= has(index, row);
    }
    right
}

fn is_indexed(alloc: Global, record: &NodeRecord, rows: &[Row]) -> Option<bool> {
    match ResourceIndex::of(alloc, record) {
        Ok(index) => Some(has_all(&index, rows)),
        Err(_) => None,
    }
}

/// The record that is spelled so.
fn read(alloc: Global, record: &str) -> Option<NodeRecord> {
    match bytes(alloc, record) {
        Some(bytes) => read_node(alloc, &bytes).ok(),
        None => None,
    }
}

/// Whether the index of the record that is spelled so has just these lines.
fn indexes(alloc: Global, record: &str, rows: &[Row]) -> Option<bool> {
    match read(alloc, record) {
        Some(record) => is_indexed(alloc, &record, rows),
        None => None,
    }
}

#[test]
fn lines_of_resources(rt: HostRuntime) -> Outcome {
    check_answers(&[
        indexes(rt.alloc(), TWO_RESOURCES, &LINES),
        indexes(rt.alloc(), WRITER_WAITS, &LINES_OF_ONE),
        indexes(rt.alloc(), SOFTENED, &LINES_OF_A_SOFTENED),
    ])
}
