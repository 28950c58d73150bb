//! Work that stops at one of its device calls: which calls it has made, what it answers, and what opening
//! finds then.

use crate::listed::{Call, ListedPlate};
use crate::opening::{found_after, found_on};
use slot_record::{MemoryPlate, Plate, SlotFault, SlotRecord};
use stable_record::{RecordFault, StableRecord};
use std::alloc::Global;
use test_outcomes::{Outcome, check_answer};

/// What is done on a plate, behind what.
#[derive(Clone, Copy)]
enum Work {
    /// Formats a new plate with `F`.
    Format,
    /// Keeps `A` behind `F`.
    FirstKeep,
    /// Keeps `B` behind `A`.
    Keep,
    /// Opens a plate that was never formatted.
    OpenNew,
    /// Opens a plate on which keeping `B` behind `A` stopped at its call of this number; at 0 it was not
    /// begun.
    Open(usize),
    /// Reopens the record after that.
    Reopen(usize),
    /// Keeps `C` in the record that was reopened after that.
    KeepBehind(usize),
}

/// The first byte of the body that was kept or found, or the number of the fault.
type Answer = Result<u8, u16>;

/// What came of the work: the plate, the calls before it, and what it answered.
type Worked = (ListedPlate, usize, Answer);

/// The calls of a format, of it with the keep of `A` behind it, and of a reopening.
const FORMAT_CALLS: usize = 7;

const KEPT_CALLS: usize = 11;

const REOPEN_CALLS: usize = 4;

fn new_plate(alloc: Global, failing: (usize, usize)) -> Option<ListedPlate> {
    let plate = MemoryPlate::of(alloc, 120_026).ok()?;
    Some(ListedPlate::over(plate, failing))
}

fn formats(alloc: Global, call: usize) -> Option<Worked> {
    match SlotRecord::format(alloc, new_plate(alloc, (call, 0))?, b"F") {
        Ok(record) => Some((record.into_plate(), 0, Ok(b'F'))),
        Err((_, SlotFault::Memory)) => None,
        Err((plate, fault)) => Some((plate, 0, Err(fault.number()))),
    }
}

/// A record that was formatted with `F`.
fn formatted(alloc: Global, failing: (usize, usize)) -> Option<SlotRecord<ListedPlate>> {
    SlotRecord::format(alloc, new_plate(alloc, failing)?, b"F").ok()
}

/// A record that was formatted with `F` and has kept `A`.
fn kept(alloc: Global, failing: (usize, usize)) -> Option<SlotRecord<ListedPlate>> {
    let mut record = formatted(alloc, failing)?;
    record.keep(b"A").ok()?;
    Some(record)
}

/// A record in which keeping `B` stopped at this call, and the calls until then; with 0 nothing was kept
/// behind `A`. At another call behind these, the plate fails again.
fn stopped(alloc: Global, keep: usize, call: usize) -> Option<(SlotRecord<ListedPlate>, usize)> {
    let before = keep.saturating_add(KEPT_CALLS);
    let failing = (before, before.saturating_add(call));
    if keep == 0 {
        return Some((kept(alloc, (failing.1, 0))?, before));
    }
    let mut record = kept(alloc, failing)?;
    if record.keep(b"B").is_ok() {
        return None;
    }
    Some((record, before))
}

/// What came of a call of the record. Behind a fault it is stuck: a keep is refused then, which is to call no
/// device.
fn told(
    mut record: SlotRecord<ListedPlate>,
    before: usize,
    answer: Result<u8, RecordFault>,
) -> Option<Worked> {
    let told = match answer {
        Ok(body) => Ok(body),
        Err(RecordFault::Memory) => return None,
        Err(fault) if record.keep(b"Z") == Err(RecordFault::Stuck) => Err(fault.number()),
        Err(_) => Err(0),
    };
    Some((record.into_plate(), before, told))
}

fn keeps(mut record: SlotRecord<ListedPlate>, before: usize, body: u8) -> Option<Worked> {
    let answer = match record.keep(&[body]) {
        Ok(()) => Ok(body),
        Err(fault) => Err(fault),
    };
    told(record, before, answer)
}

fn opens(alloc: Global, plate: ListedPlate, before: usize) -> Option<Worked> {
    match SlotRecord::open(alloc, plate) {
        Ok((record, body)) => Some((record.into_plate(), before, Ok(*body.first()?))),
        Err((_, SlotFault::Memory)) => None,
        Err((plate, fault)) => Some((plate, before, Err(fault.number()))),
    }
}

fn reopens(alloc: Global, keep: usize, call: usize) -> Option<Worked> {
    let (mut record, before) = stopped(alloc, keep, call)?;
    let answer = match record.reopen() {
        Ok(body) => Ok(*body.first()?),
        Err(fault) => Err(fault),
    };
    told(record, before, answer)
}

fn keeps_behind(alloc: Global, keep: usize, call: usize) -> Option<Worked> {
    let (mut record, before) = stopped(alloc, keep, call.saturating_add(REOPEN_CALLS))?;
    record.reopen().ok()?;
    keeps(record, before.saturating_add(REOPEN_CALLS), b'C')
}

/// Does the work, of which the call of this number fails.
fn works(alloc: Global, work: Work, call: usize) -> Option<Worked> {
    match work {
        Work::Format => formats(alloc, call),
        Work::FirstKeep => {
            let record = formatted(alloc, (call.saturating_add(FORMAT_CALLS), 0))?;
            keeps(record, FORMAT_CALLS, b'A')
        }
        Work::Keep => {
            let record = kept(alloc, (call.saturating_add(KEPT_CALLS), 0))?;
            keeps(record, KEPT_CALLS, b'B')
        }
        Work::OpenNew => opens(alloc, new_plate(alloc, (call, 0))?, 0),
        Work::Open(keep) => {
            let (record, before) = stopped(alloc, keep, call)?;
            opens(alloc, record.into_plate(), before)
        }
        Work::Reopen(keep) => reopens(alloc, keep, call),
        Work::KeepBehind(keep) => keeps_behind(alloc, keep, call),
    }
}

/// Shuts both gates and syncs; then the rest of the first slot, and its gate, with a sync behind each.
const FORMAT: [Call; 7] = [
    Call::Write(0, 1),
    Call::Write(60_013, 1),
    Call::Sync,
    Call::Write(1, 13),
    Call::Sync,
    Call::Write(0, 1),
    Call::Sync,
];

/// A keep in the first slot, whose gate is open: it is shut first.
const KEEP_FIRST: [Call; 6] = [
    Call::Write(0, 1),
    Call::Sync,
    Call::Write(1, 13),
    Call::Sync,
    Call::Write(0, 1),
    Call::Sync,
];

/// A keep in the first slot, whose gate is shut: it is not written again.
const KEEP_FIRST_SHUT: [Call; 4] = [
    Call::Write(1, 13),
    Call::Sync,
    Call::Write(0, 1),
    Call::Sync,
];

/// The same in the second slot.
const KEEP_SECOND: [Call; 6] = [
    Call::Write(60_013, 1),
    Call::Sync,
    Call::Write(60_014, 13),
    Call::Sync,
    Call::Write(60_013, 1),
    Call::Sync,
];

const KEEP_SECOND_SHUT: [Call; 4] = [
    Call::Write(60_014, 13),
    Call::Sync,
    Call::Write(60_013, 1),
    Call::Sync,
];

/// A sync and each head; no slot has a record.
const OPEN_NEITHER: [Call; 3] = [Call::Sync, Call::Read(0, 13), Call::Read(60_013, 13)];

/// A sync, each head, and the body of the slot that has the record.
const OPEN_FIRST: [Call; 4] = [
    Call::Sync,
    Call::Read(0, 13),
    Call::Read(60_013, 13),
    Call::Read(13, 1),
];

const OPEN_SECOND: [Call; 4] = [
    Call::Sync,
    Call::Read(0, 13),
    Call::Read(60_013, 13),
    Call::Read(60_026, 1),
];

/// What is done, its calls, the number of its fault, and what opening finds where its first call failed, its
/// second, and so on; the last of these it answers, where none did, and opening finds it then. What was
/// written and not synced is 0, 1 or 255 after a crash; last it is left as it was written.
type Row = (Work, &'static [Call], u16, [&'static [u8]; 4]);

/// Opening syncs first, so what it read stays.
const STOPS: [Row; 14] = [
    (
        Work::Format,
        &FORMAT,
        402,
        [b"-------F", b"-----FFF", b"-------F", b"------FF"],
    ),
    (
        Work::FirstKeep,
        &KEEP_SECOND_SHUT,
        301,
        [b"FFFFA", b"FFAAA", b"FFFFA", b"FFFAA"],
    ),
    (
        Work::Keep,
        &KEEP_FIRST,
        301,
        [b"AAAAAAB", b"AAAABBB", b"AAAAAAB", b"AAAAABB"],
    ),
    (
        Work::OpenNew,
        &OPEN_NEITHER,
        402,
        [b"----", b"----", b"----", b"----"],
    ),
    (
        Work::Open(0),
        &OPEN_SECOND,
        402,
        [b"AAAAA", b"AAAAA", b"AAAAA", b"AAAAA"],
    ),
    (
        Work::Open(5),
        &OPEN_SECOND,
        402,
        [b"AAAAA", b"BAAAA", b"AAAAA", b"AAAAA"],
    ),
    (
        Work::Open(6),
        &OPEN_FIRST,
        402,
        [b"ABBBB", b"BBBBB", b"ABBBB", b"BBBBB"],
    ),
    (
        Work::Reopen(0),
        &OPEN_SECOND,
        301,
        [b"AAAAA", b"AAAAA", b"AAAAA", b"AAAAA"],
    ),
    (
        Work::Reopen(5),
        &OPEN_SECOND,
        301,
        [b"AAAAA", b"BAAAA", b"AAAAA", b"AAAAA"],
    ),
    (
        Work::Reopen(6),
        &OPEN_FIRST,
        301,
        [b"ABBBB", b"BBBBB", b"ABBBB", b"BBBBB"],
    ),
    (
        Work::KeepBehind(1),
        &KEEP_FIRST,
        301,
        [b"AAAAAAC", b"AAAACCC", b"AAAAAAC", b"AAAAACC"],
    ),
    (
        Work::KeepBehind(2),
        &KEEP_FIRST_SHUT,
        301,
        [b"AAAAC", b"AACCC", b"AAAAC", b"AAACC"],
    ),
    (
        Work::KeepBehind(5),
        &KEEP_FIRST_SHUT,
        301,
        [b"AAAAC", b"AACCC", b"AAAAC", b"AAACC"],
    ),
    (
        Work::KeepBehind(6),
        &KEEP_SECOND,
        301,
        [b"BBBBBBC", b"BBBBCCC", b"BBBBBBC", b"BBBBBCC"],
    ),
];

/// Whether opening finds what the row says, after each crash now and without one.
fn leaves(alloc: Global, plate: MemoryPlate, found: &[&[u8]; 4], place: usize) -> Option<bool> {
    let [zeros, ones, full, written] = found;
    Some(
        found_after(alloc, &plate, 0)? == *zeros.get(place)?
            && found_after(alloc, &plate, 1)? == *ones.get(place)?
            && found_after(alloc, &plate, 255)? == *full.get(place)?
            && found_on(alloc, plate)? == *written.get(place)?,
    )
}

/// What the work of the row is to answer where the call of this number fails. An opening that finds no
/// record says so (403).
fn answer_of(row: &Row, call: usize) -> Option<Answer> {
    let (_, calls, fault, [found, ..]) = row;
    if call <= calls.len() {
        return Some(Err(*fault));
    }
    match *found.last()? {
        b'-' => Some(Err(403)),
        body => Some(Ok(body)),
    }
}

/// Whether the work, of which this call fails and no other, makes the calls up to it and no more, answers so,
/// and leaves what the row says.
fn stops(alloc: Global, row: &Row, call: usize) -> Option<bool> {
    let (work, calls, _, found) = row;
    let (plate, before, answer) = works(alloc, *work, call)?;
    let made = calls.get(..calls.len().min(call))?;
    let listed = plate.calls_behind(before) == made && plate.failures() == plate.failed();
    let right = listed && answer == answer_of(row, call)?;
    Some(right && leaves(alloc, plate.into_inner(), found, call.saturating_sub(1))?)
}

/// Stops the work at each of its calls, and at none.
fn stops_each(alloc: Global, row: &Row) -> Option<bool> {
    for call in 1..row.1.len().saturating_add(2) {
        if !stops(alloc, row, call)? {
            return Some(false);
        }
    }
    Some(true)
}

#[test]
fn calls_and_stops(rt: HostRuntime) -> Outcome {
    for (place, row) in STOPS.iter().enumerate() {
        check_answer(stops_each(rt.alloc(), row), place)?;
    }
    Ok(())
}
