//! Records on plates that a crash may tear: what opening finds, wherever the work was stopped.

use crate::opening::{found_after, found_on};
use lossy_link::{Fate, Weather, WeatherFault};
use slot_record::{MemoryPlate, Plate, SlotFault, SlotRecord};
use stable_record::{MAX_RECORD_LEN, RecordFault, StableRecord};
use std::alloc::Global;
use test_outcomes::{Outcome, check_answer};

/// The least bytes of a plate that has a record, by number: a constant of the code would follow whatever
/// stands there.
const LEAST_PLATE_LEN: u32 = 120_026;

/// The device calls of `open`.
const OPEN_CALLS: u32 = 4;

/// A new plate, whose device call with this number and all later ones fail; at 0 none does.
fn plate_with(alloc: Global, size: u32, fuse: u32) -> Option<MemoryPlate> {
    let mut plate = MemoryPlate::of(alloc, size).ok()?;
    if fuse > 0 {
        plate.fuse(fuse);
    }
    Some(plate)
}

/// A record `F` over such a plate.
fn formatted(alloc: Global, fuse: u32) -> Option<SlotRecord<MemoryPlate>> {
    SlotRecord::format(alloc, plate_with(alloc, LEAST_PLATE_LEN, fuse)?, b"F").ok()
}

/// What is found after a crash in these keeps, behind `F`, where a device call fails.
fn torn(alloc: Global, bodies: &[u8], call: u32, fill: u8) -> Option<u8> {
    let mut record = formatted(alloc, call)?;
    for body in bodies {
        let _kept = record.keep(&[*body]);
    }
    found_after(alloc, &record.into_plate(), fill)
}

/// The bodies that are kept behind `F`, the device calls before the last keep, what a crash leaves in
/// what was written, and what is found where the last keep stops at its first call, its second, and
/// so on; the last of these is found where it is not stopped.
const TORN_KEEPS: [(&[u8], u32, u8, &[u8]); 9] = [
    (b"A", 7, 0, b"FFFFA"),
    (b"A", 7, 1, b"FFAAA"),
    (b"A", 7, 255, b"FFFFA"),
    (b"AB", 11, 0, b"AAAAAAB"),
    (b"AB", 11, 1, b"AAAABBB"),
    (b"AB", 11, 255, b"AAAAAAB"),
    (b"ABC", 17, 0, b"BBBBBBC"),
    (b"ABC", 17, 1, b"BBBBCCC"),
    (b"ABC", 17, 255, b"BBBBBBC"),
];

fn is_found(alloc: Global, bodies: &[u8], before: u32, fill: u8, found: &[u8]) -> Option<bool> {
    let mut call = before;
    for want in found {
        call = call.wrapping_add(1);
        if torn(alloc, bodies, call, fill)? != *want {
            return Some(false);
        }
    }
    Some(true)
}

#[test]
fn torn_keep(rt: HostRuntime) -> Outcome {
    for (row, (bodies, before, fill, found)) in TORN_KEEPS.iter().enumerate() {
        check_answer(is_found(rt.alloc(), bodies, *before, *fill, found), row)?;
    }
    Ok(())
}

/// Opens what a crash left and keeps `C`, where a device call of that fails and the power goes again:
/// whether what was found before, or `C`, is found then; just `C` where the keep was not stopped.
fn survives(
    alloc: Global,
    mut plate: MemoryPlate,
    call: u32,
    fill: u8,
    before: u8,
) -> Option<bool> {
    if call > 0 {
        plate.fuse(call);
    }
    match SlotRecord::open(alloc, plate) {
        Ok((mut record, _)) => {
            let kept = record.keep(b"C").is_ok();
            let after = found_after(alloc, &record.into_plate(), fill)?;
            Some(call > OPEN_CALLS && (after == b'C' || !kept && after == before))
        }
        Err((plate, _)) => Some(call <= OPEN_CALLS && found_after(alloc, &plate, fill)? == before),
    }
}

/// Stops that work at each of its device calls, and at none.
fn survives_each(alloc: Global, left: &MemoryPlate, fill: u8) -> Option<bool> {
    let before = found_after(alloc, left, fill)?;
    for call in 1..12u32 {
        if !survives(alloc, left.after_crash(fill).ok()?, call, fill, before)? {
            return Some(false);
        }
    }
    Some(true)
}

/// A crash in keeping `B` at this device call, and one in the work after it.
fn survives_two(alloc: Global, call: u32, fill: u8) -> Option<bool> {
    let mut record = formatted(alloc, call)?;
    let _first = record.keep(b"A");
    let _second = record.keep(b"B");
    let left = record.into_plate().after_crash(fill).ok()?;
    Some(survives_each(alloc, &left, 0)? && survives_each(alloc, &left, 1)?)
}

#[test]
fn crash_in_the_work_after_a_crash(rt: HostRuntime) -> Outcome {
    for call in 12..19u32 {
        check_answer(survives_two(rt.alloc(), call, 0), call as usize)?;
        check_answer(survives_two(rt.alloc(), call, 1), call as usize)?;
    }
    Ok(())
}

fn write(plate: &mut MemoryPlate, at: u32, bytes: &[u8]) -> Option<()> {
    let room = plate.size().checked_sub(at)?;
    if bytes.len() > room as usize {
        return None;
    }
    plate.write_at(at, bytes).ok()
}

/// A gate, a sequence, and the length of a body.
type Head = (u8, u64, u32);

/// Writes a slot by hand: its head, and the first byte of a body.
fn write_slot(plate: &mut MemoryPlate, start: u32, head: Head, body: u8) -> Option<()> {
    let (gate, sequence, length) = head;
    write(plate, start, &[gate])?;
    write(plate, start.checked_add(1)?, &sequence.to_be_bytes())?;
    write(plate, start.checked_add(9)?, &length.to_be_bytes())?;
    write(plate, start.checked_add(13)?, &[body])
}

/// A plate with these two slots, with bodies `X` and `Y`.
fn plate_of_slots(alloc: Global, first: Head, second: Head) -> Option<MemoryPlate> {
    let mut plate = plate_with(alloc, LEAST_PLATE_LEN, 0)?;
    write_slot(&mut plate, 0, first, b'X')?;
    write_slot(&mut plate, 60_013, second, b'Y')?;
    Some(plate)
}

/// The heads of both slots, and which body is found.
const SLOT_RULE: [(Head, Head, u8); 11] = [
    ((1, 1, 1), (0, 2, 1), b'X'),
    ((0, 9, 1), (1, 1, 1), b'Y'),
    ((1, 1, 1), (1, 2, 1), b'Y'),
    ((1, 2, 1), (1, 1, 1), b'X'),
    ((1, 3, 1), (1, 3, 1), b'X'),
    ((2, 1, 1), (255, 2, 1), b'-'),
    ((1, 0, 1), (1, 0, 1), b'-'),
    ((1, 1_000_000_000_000, 1), (1, 1_000_000_000_001, 1), b'X'),
    ((1, 1, 60_001), (0, 1, 1), b'-'),
    ((1, 1, 60_000), (1, 2, 60_001), b'X'),
    ((1, 1, 1), (1, 2, 60_000), b'Y'),
];

fn finds(alloc: Global, first: Head, second: Head, body: u8) -> Option<bool> {
    Some(found_on(alloc, plate_of_slots(alloc, first, second)?)? == body)
}

#[test]
fn which_slot_has_the_record(rt: HostRuntime) -> Outcome {
    for (row, (first, second, body)) in SLOT_RULE.iter().enumerate() {
        check_answer(finds(rt.alloc(), *first, *second, *body), row)?;
    }
    Ok(())
}

/// The keep before the last sequence takes it, and its record is found.
fn keeps_the_last(alloc: Global) -> Option<bool> {
    let plate = plate_of_slots(alloc, (1, 999_999_999_999, 1), (0, 0, 0))?;
    let (mut record, _) = SlotRecord::open(alloc, plate).ok()?;
    record.keep(b"A").ok()?;
    let spent = record.keep(b"B") == Err(RecordFault::Spent);
    Some(spent && found_after(alloc, &record.into_plate(), 1)? == b'A')
}

/// A keep on a plate whose sequence is spent calls no device: not even one that would fail.
fn keeps_nothing_more(alloc: Global) -> Option<bool> {
    let mut plate = plate_of_slots(alloc, (1, 1_000_000_000_000, 1), (0, 0, 0))?;
    plate.fuse(OPEN_CALLS + 1);
    let (mut record, _) = SlotRecord::open(alloc, plate).ok()?;
    let spent = record.keep(b"A") == Err(RecordFault::Spent);
    let calm = !record.stuck() && record.failures() == 0;
    Some(spent && calm && found_after(alloc, &record.into_plate(), 1)? == b'X')
}

#[test]
fn spent_sequence(rt: HostRuntime) -> Outcome {
    check_answer(keeps_nothing_more(rt.alloc()), 0)?;
    check_answer(keeps_the_last(rt.alloc()), 1)
}

/// Whether a plate of this size refuses a body of this length with the fault of this number; with 0
/// it takes it. A plate in memory fails where it has no memory to note a call.
fn is_refused(alloc: Global, size: u32, length: usize, number: u16) -> Option<bool> {
    let body = vec![in alloc; 7u8; length].ok()?;
    match SlotRecord::format(alloc, plate_with(alloc, size, 0)?, &body) {
        Ok(_) => Some(number == 0),
        Err((_, SlotFault::Memory | SlotFault::Device)) => None,
        Err((_, fault)) => Some(number == fault.number()),
    }
}

/// The size of a plate, the length of a body, and the number of the fault, or 0.
const SIZES: [(u32, usize, u16); 5] = [
    (120_025, 1, 401),
    (120_026, 60_000, 0),
    (120_026, 60_001, 404),
    (5, 60_001, 401),
    (0, 0, 401),
];

/// Whether a weather under which all is lost loses a hundred parcels.
fn all_is_lost() -> Option<bool> {
    let mut weather = Weather::of(1, 1_000, 0, 0).ok()?;
    for _ in 0..100 {
        if weather.fate() != Fate::Lost {
            return Some(false);
        }
    }
    Some(true)
}

#[test]
fn weather_and_plate_size(rt: HostRuntime) -> Outcome {
    let refused = Weather::of(1, 500, 300, 201).err();
    check_answer(Some(refused == Some(WeatherFault::OverThousand)), 100)?;
    check_answer(all_is_lost(), 101)?;
    for (row, (size, length, number)) in SIZES.iter().enumerate() {
        check_answer(is_refused(rt.alloc(), *size, *length, *number), row)?;
    }
    Ok(())
}

/// Keeps `A` and the longest body, refuses a longer one, and finds the longest.
fn keeps(alloc: Global, record: &mut dyn StableRecord) -> Option<bool> {
    let long = vec![in alloc; 7u8; MAX_RECORD_LEN + 1].ok()?;
    let longest = long.get(..MAX_RECORD_LEN)?;
    record.keep(b"A").ok()?;
    record.keep(longest).ok()?;
    let refused = record.keep(&long) == Err(RecordFault::TooLong);
    let found = record.reopen().ok()?;
    Some(refused && found.len() == MAX_RECORD_LEN && !record.stuck())
}

fn keeps_in_a_box(alloc: Global) -> Option<bool> {
    let mut boxed: Box<dyn StableRecord + Send> = Box::new(alloc, formatted(alloc, 0)?).ok()?;
    keeps(alloc, &mut *boxed)
}

#[test]
fn record_on_a_plate_in_a_box(rt: HostRuntime) -> Outcome {
    check_answer(keeps_in_a_box(rt.alloc()), 0)
}

const SLOT_FAULTS: [SlotFault; 6] = [
    SlotFault::TooSmall,
    SlotFault::Device,
    SlotFault::NotFormatted,
    SlotFault::TooLong,
    SlotFault::Spent,
    SlotFault::Memory,
];

const SLOT_FAULT_TEXTS: &str = "\
401 the plate is too small
402 the device failed
403 the plate is not formatted
404 the record is too long
405 no change can be numbered any more
406 out of memory";

fn shows(alloc: Global, fault: SlotFault, row: Option<&str>) -> Option<bool> {
    let shown = format!(in alloc; "{} {fault}", fault.number()).ok()?;
    Some(row == Some(shown.as_str()))
}

#[test]
fn slot_faults(rt: HostRuntime) -> Outcome {
    let mut rows = SLOT_FAULT_TEXTS.lines();
    for (row, fault) in SLOT_FAULTS.iter().enumerate() {
        check_answer(shows(rt.alloc(), *fault, rows.next()), row)?;
    }
    Ok(())
}
