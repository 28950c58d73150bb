//! Which slot of the ring has the record.

use crate::opening::{found_after, found_on, plate_with};
use rotating_record::RotatingRecord;
use slot_record::{MemoryPlate, Plate, SlotFault};
use stable_record::{RecordFault, StableRecord};
use std::alloc::Global;
use test_outcomes::{Outcome, check, check_answer};

fn write(plate: &mut MemoryPlate, at: u32, bytes: &[u8]) -> Option<()> {
    let room = plate.size().checked_sub(at)?;
    if bytes.len() > room as usize {
        return None;
    }
    plate.write_at(at, bytes).ok()
}

/// A gate, a sequence, and the length of a body.
type Head = (u8, u64, u32);

/// Writes a slot by hand: its head, and the first byte of a body.
fn write_slot(plate: &mut MemoryPlate, start: u32, head: Head, body: u8) -> Option<()> {
    let (gate, sequence, length) = head;
    write(plate, start, &[gate])?;
    write(plate, start.checked_add(4_096)?, &sequence.to_be_bytes())?;
    write(plate, start.checked_add(4_104)?, &length.to_be_bytes())?;
    write(plate, start.checked_add(4_108)?, &[body])
}

/// A plate with this mark and these three slots, with bodies `X`, `Y` and `Z`.
fn plate_of(alloc: Global, mark: &[u8; 8], heads: &[Head; 3]) -> Option<MemoryPlate> {
    let [first, second, third] = heads;
    let mut plate = plate_with(alloc, 0)?;
    write(&mut plate, 0, mark)?;
    write_slot(&mut plate, 4_096, *first, b'X')?;
    write_slot(&mut plate, 69_632, *second, b'Y')?;
    write_slot(&mut plate, 135_168, *third, b'Z')?;
    Some(plate)
}

const MARK: [u8; 8] = *b"rwvote3\n";

/// The heads of the three slots, and which body is found: that of the slot that counts and is followed
/// by a closed gate, whatever the sequences are.
const RING_RULE: [([Head; 3], u8); 14] = [
    ([(1, 1, 1), (0, 0, 0), (0, 0, 0)], b'X'),
    ([(0, 1, 1), (1, 2, 1), (0, 0, 0)], b'Y'),
    ([(0, 1, 1), (0, 2, 1), (1, 3, 1)], b'Z'),
    ([(1, 1, 1), (1, 2, 1), (0, 3, 1)], b'Y'),
    ([(0, 4, 1), (1, 2, 1), (1, 3, 1)], b'Z'),
    ([(1, 4, 1), (0, 2, 1), (1, 3, 1)], b'X'),
    ([(1, 9, 1), (1, 2, 1), (255, 3, 1)], b'Y'),
    ([(1, 1, 1), (1, 2, 1), (1, 3, 1)], b'-'),
    ([(0, 1, 1), (0, 2, 1), (2, 3, 1)], b'-'),
    ([(1, 0, 1), (0, 2, 1), (0, 3, 1)], b'-'),
    ([(1, 1_000_000_000_001, 1), (0, 2, 1), (0, 3, 1)], b'-'),
    ([(1, 1_000_000_000_000, 1), (0, 2, 1), (0, 3, 1)], b'X'),
    ([(1, 1, 60_001), (0, 2, 1), (0, 3, 1)], b'-'),
    ([(1, 1, 60_000), (0, 2, 1), (0, 3, 1)], b'X'),
];

fn finds(alloc: Global, heads: &[Head; 3], body: u8) -> Option<bool> {
    Some(found_on(alloc, plate_of(alloc, &MARK, heads)?)? == body)
}

#[test]
fn which_slot_has_the_record(rt: HostRuntime) -> Outcome {
    for (row, (heads, body)) in RING_RULE.iter().enumerate() {
        check_answer(finds(rt.alloc(), heads, *body), row)?;
    }
    Ok(())
}

/// A plate with another mark is not formatted.
fn needs_the_mark(alloc: Global) -> Option<bool> {
    let heads = [(1, 1, 1), (0, 0, 0), (0, 0, 0)];
    Some(found_on(alloc, plate_of(alloc, b"rwvote2\n", &heads)?)? == b'-')
}

#[test]
fn another_mark(rt: HostRuntime) -> Outcome {
    check_answer(needs_the_mark(rt.alloc()), 0)
}

/// The keep before the last sequence takes it, and its record is found; the next one is refused.
fn keeps_the_last(alloc: Global) -> Option<bool> {
    let heads = [(1, 999_999_999_999, 1), (0, 0, 0), (0, 0, 0)];
    let (mut record, _) = RotatingRecord::open(alloc, plate_of(alloc, &MARK, &heads)?).ok()?;
    record.keep(b"A").ok()?;
    let spent = record.keep(b"B") == Err(RecordFault::Spent) && record.failures() == 0;
    Some(spent && found_after(alloc, &record.into_plate(), 1)? == b'A')
}

#[test]
fn spent_sequence(rt: HostRuntime) -> Outcome {
    check_answer(keeps_the_last(rt.alloc()), 0)
}

/// The number of the fault with which a plate of this size is refused, and 0 if it is formatted. A plate
/// in memory fails only if memory runs out, which is no answer.
fn refused(alloc: Global, size: u32, bytes: &[u8]) -> Option<u16> {
    match RotatingRecord::format(alloc, MemoryPlate::of(alloc, size).ok()?, bytes) {
        Ok(_) => Some(0),
        Err((_, SlotFault::Memory)) => None,
        Err((plate, fault)) => (plate.failures() == 0).then_some(fault.number()),
    }
}

#[test]
fn plates_and_records_that_do_not_fit(rt: HostRuntime) -> Outcome {
    let bytes = vec![in rt.alloc(); 7u8; 60_001]?;
    let rows = [
        (200_703, 1, 401),
        (200_704, 60_001, 404),
        (200_703, 60_001, 401),
        (200_704, 60_000, 0),
        (200_705, 0, 0),
    ];
    for (row, (size, length, answer)) in rows.iter().enumerate() {
        let Some(body) = bytes.get(..*length) else {
            return check(false);
        };
        let given = refused(rt.alloc(), *size, body);
        check_answer(given.map(|number| number == *answer), row)?;
    }
    Ok(())
}
