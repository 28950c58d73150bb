//! Each change of one byte of a node's record against a plain reader of the table of fields.

use crate::nodes::is_written_so;
use crate::rows::{both, bytes, number, spells};
use crate::spellings::{Spelled, each_change};
use stable_record::read_node;
use std::alloc::Global;
use test_outcomes::{Outcome, check_answers};

// c1 holds `ab` as a writer, c2 waits for it as a reader, c3 has attempts up to 1 ended.
const RECORD: &str = "01 01 0003 \
00000001 0000000000000000 02 0000000000000001 01 02 6162 \
00000002 0000000000000000 01 0000000000000001 00 02 6162 \
00000003 0000000000000001 00";

// c1 is softened and holds `a` beside the reader c2, c3 waits for it as a writer and c4 as a reader behind.
const SOFTENED_RECORD: &str = "01 02 0004 \
00000001 0000000000000002 03 0000000000000003 00 01 61 \
00000002 0000000000000000 02 0000000000000001 00 01 61 \
00000003 0000000000000000 01 0000000000000001 01 01 61 \
00000004 0000000000000000 01 0000000000000001 00 01 61";

/// An entry: whose it is, its state, whether it writes, and what.
#[derive(Clone, Copy)]
struct Row<'a> {
    client: u64,
    state: u64,
    writes: bool,
    name: &'a [u8],
}

impl Row<'_> {
    /// Whether it holds, as it asked or softened.
    fn holds(&self) -> bool {
        self.state == 2 || self.state == 3
    }
}

/// What is left of the bytes, and the first fault of the fields before it; 0 for none.
#[derive(Clone, Copy)]
struct Fields<'a> {
    rest: &'a [u8],
    fault: u16,
}

impl<'a> Fields<'a> {
    /// Finds this fault where something is wrong, unless one was found before.
    fn refuse(&mut self, wrong: bool, fault: u16) {
        if wrong && self.fault == 0 {
            self.fault = fault;
        }
    }

    /// The next bytes, so many of them; none where there are fewer, which is 311.
    fn next(&mut self, count: usize) -> &'a [u8] {
        match self.rest.split_at_checked(count) {
            Some((front, rest)) => {
                self.rest = rest;
                front
            }
            None => {
                self.refuse(true, 311);
                &[]
            }
        }
    }

    /// The number of so many bytes; this fault where it does not lie from least to most.
    fn number(&mut self, width: usize, (least, most): (u64, u64), fault: u16) -> u64 {
        let value = number(self.next(width));
        self.refuse(value < least || most < value, fault);
        value
    }

    /// The ticket of a row behind its state, whose attempt is one above the floor. A softened one reads.
    fn ticket(&mut self, row: &mut Row<'a>, floor: u64) {
        let attempt = self.number(8, (1, 1_000_000_000_000), 314);
        self.refuse(attempt != floor.saturating_add(1), 316);
        let most = if row.state == 3 { 0 } else { 1 };
        row.writes = self.number(1, (0, most), 314) == 1;
        let size = self.number(1, (1, 32), 314) as usize;
        self.refuse(!spells(self.rest, size), 314);
        row.name = self.next(size);
    }

    /// The next row, of a client of which there is none yet.
    fn entry(&mut self, rows: &[Row<'a>]) -> Row<'a> {
        let client = self.number(4, (1, 1_024), 314);
        self.refuse(has_client(rows, client), 315);
        let floor = self.number(8, (0, 1_000_000_000_000), 314);
        let state = self.number(1, (0, 3), 314);
        let mut row = Row {
            client,
            state,
            writes: false,
            name: &[],
        };
        if state != 0 {
            self.ticket(&mut row, floor);
        }
        row
    }
}

fn has_client(rows: &[Row], client: u64) -> bool {
    let mut found = false;
    for row in rows {
        found |= row.client == client;
    }
    found
}

/// The fault of a row among the others: 317, 318, or 0 for none.
fn judged(policy: u64, rows: &[Row], row: &Row) -> u16 {
    let (mut holds, mut writes, mut waits) = (false, false, false);
    for other in rows {
        if other.client != row.client && other.name == row.name {
            holds |= other.holds();
            writes |= other.holds() && other.writes;
            waits |= other.state == 1 && other.writes;
        }
    }
    let has_cause = if row.writes {
        holds
    } else {
        writes || (policy == 2 && waits)
    };
    if row.holds() && row.writes && holds {
        317
    } else if row.state == 1 && !has_cause {
        318
    } else {
        0
    }
}

/// The first fault that the rows have together; 0 for none.
fn judged_all(policy: u64, rows: &[Row]) -> u16 {
    let mut fault = 0;
    for row in rows {
        let found = judged(policy, rows, row);
        if found > 0 && (fault == 0 || found < fault) {
            fault = found;
        }
    }
    fault
}

/// Adds the rows that the bytes spell, and answers the policy; 320 is the fault where memory is refused.
fn put_rows<'a>(fields: &mut Fields<'a>, rows: &mut Vec<Row<'a>>) -> u64 {
    fields.number(1, (1, 1), 312);
    let policy = fields.number(1, (1, 2), 313);
    let count = fields.number(2, (0, 1_024), 314);
    for _ in 0..count {
        if fields.fault == 0 {
            let row = fields.entry(rows);
            fields.refuse(rows.push(row).is_err(), 320);
        }
    }
    fields.refuse(!fields.rest.is_empty(), 319);
    policy
}

/// The number of the fault that the table of fields finds in the bytes; 320 where memory is refused.
fn by_the_table(alloc: Global, bytes: &[u8]) -> u16 {
    let mut fields = Fields {
        rest: bytes,
        fault: 0,
    };
    let mut rows = Vec::new(alloc);
    let policy = put_rows(&mut fields, &mut rows);
    if fields.fault == 0 {
        judged_all(policy, &rows)
    } else {
        fields.fault
    }
}

/// Whether the bytes are read as the table says; what is read is spelled so.
pub(crate) fn agrees(alloc: Global, bytes: &[u8]) -> Option<bool> {
    let want = by_the_table(alloc, bytes);
    match read_node(alloc, bytes) {
        Ok(node) => both(Some(want == 0), is_written_so(alloc, &node, bytes)),
        Err(fault) => match fault.number() {
            320 => None,
            found => Some(want == 320 || want == found),
        },
    }
}

/// Whether the record is read as the table says with each byte changed to each other value.
fn all_agree(alloc: Global, row: &str) -> Option<bool> {
    match bytes(alloc, row) {
        Some(record) => {
            let mut record = record;
            each_change(alloc, Spelled::Record, &mut record)
        }
        None => None,
    }
}

#[test]
fn changed_records_read_by_the_table(rt: HostRuntime) -> Outcome {
    check_answers(&[
        all_agree(rt.alloc(), RECORD),
        all_agree(rt.alloc(), SOFTENED_RECORD),
    ])
}
