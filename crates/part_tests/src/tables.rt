//! How the rows of a table are asked.

use crate::spellings::{Spelled, is_faulty};
use crate::{attempts, frames, records, words};
use std::alloc::Global;
use test_outcomes::{Outcome, check_answer};

/// What the rows of a table say. (One function that names them all is cheaper to prove than to hand
/// each test's own function to a loop.)
#[derive(Clone, Copy)]
pub(crate) enum Table {
    Printed,
    Actors,
    NoMessages,
    Names,
    ForOne,
    Spelled,
    FaultyFrames,
    FaultyRecords,
    ClientRecords,
    Heard,
    Short,
    NameLengths,
    Changed,
}

/// Whether a row holds.
fn holds(alloc: Global, table: Table, row: &str) -> Option<bool> {
    match table {
        Table::Printed => words::prints(alloc, row),
        Table::Actors => words::actor_prints(alloc, row),
        Table::NoMessages => words::is_no_message(row),
        Table::Names => words::ascends(row),
        Table::ForOne => words::is_for_one(row),
        Table::Spelled => frames::is_spelled(alloc, row),
        Table::FaultyFrames => is_faulty(alloc, Spelled::Frame, row),
        Table::FaultyRecords => is_faulty(alloc, Spelled::Record, row),
        Table::ClientRecords => records::is_read(alloc, row),
        Table::Heard => attempts::in_each_phase(alloc, row),
        Table::Short => frames::begins_short(alloc, row),
        Table::NameLengths => frames::goes_there_and_back(alloc, row),
        Table::Changed => frames::all_agree(alloc, row),
    }
}

/// Asks of each row of a table, one after the other.
pub(crate) fn each(alloc: Global, table: Table, rows: &str) -> Outcome {
    for (row, text) in rows.lines().enumerate() {
        check_answer(holds(alloc, table, text), row)?;
    }
    Ok(())
}
