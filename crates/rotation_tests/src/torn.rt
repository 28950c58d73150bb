//! What opening finds, wherever the work was stopped.

use crate::opening::{formatted, found_after, plate_with};
use rotating_record::RotatingRecord;
use slot_record::MemoryPlate;
use stable_record::StableRecord;
use std::alloc::Global;
use test_outcomes::{Outcome, check_answer};

/// The device calls of `open`.
const OPEN_CALLS: u32 = 9;

/// What is found after a crash in these keeps, behind `F`, where a device call fails.
fn torn(alloc: Global, bodies: &[u8], call: u32, fill: u8) -> Option<u8> {
    let mut record = formatted(alloc, call)?;
    for body in bodies {
        let _kept = record.keep(&[*body]);
    }
    found_after(alloc, &record.into_plate(), fill)
}

/// The bodies that are kept behind `F`, the device calls before the last keep, what a crash leaves in
/// what was written, and what is found where the last keep stops at its first call, its second, and
/// so on; the last of these is found where it is not stopped. In a keep call 4 is the first sync, call 5
/// writes the gate, and call 6 is the second sync.
const TORN_KEEPS: [(&[u8], u32, u8, &[u8]); 12] = [
    (b"A", 10, 0, b"FFFFFFA"),
    (b"A", 10, 1, b"FFFFAAA"),
    (b"A", 10, 255, b"FFFFFFA"),
    (b"AB", 16, 0, b"AAAAAAB"),
    (b"AB", 16, 1, b"AAAABBB"),
    (b"AB", 16, 255, b"AAAAAAB"),
    (b"ABC", 22, 0, b"BBBBBBC"),
    (b"ABC", 22, 1, b"BBBBCCC"),
    (b"ABC", 22, 255, b"BBBBBBC"),
    (b"ABCD", 28, 0, b"CCCCCCD"),
    (b"ABCD", 28, 1, b"CCCCDDD"),
    (b"ABCD", 28, 255, b"CCCCCCD"),
];

fn is_found(alloc: Global, bodies: &[u8], before: u32, fill: u8, found: &[u8]) -> Option<bool> {
    let mut call = before;
    for want in found {
        call = call.wrapping_add(1);
        if torn(alloc, bodies, call, fill)? != *want {
            return Some(false);
        }
    }
    Some(true)
}

#[test]
fn torn_keep(rt: HostRuntime) -> Outcome {
    for (row, (bodies, before, fill, found)) in TORN_KEEPS.iter().enumerate() {
        check_answer(is_found(rt.alloc(), bodies, *before, *fill, found), row)?;
    }
    Ok(())
}

/// What is found where formatting with `F` stops at its first call, its second, and so on, by what a crash
/// leaves; the last is found where it is not stopped.
const TORN_FORMATS: [(u8, &[u8]); 3] = [
    (0, b"----------F"),
    (1, b"--------FFF"),
    (255, b"----------F"),
];

fn formats(alloc: Global, call: u32, fill: u8) -> Option<u8> {
    match RotatingRecord::format(alloc, plate_with(alloc, call)?, b"F") {
        Ok(record) => found_after(alloc, &record.into_plate(), fill),
        Err((plate, _)) => found_after(alloc, &plate, fill),
    }
}

fn are_formatted(alloc: Global, fill: u8, found: &[u8]) -> Option<bool> {
    let mut call = 0u32;
    for want in found {
        call = call.wrapping_add(1);
        if formats(alloc, call, fill)? != *want {
            return Some(false);
        }
    }
    Some(true)
}

#[test]
fn torn_format(rt: HostRuntime) -> Outcome {
    for (row, (fill, found)) in TORN_FORMATS.iter().enumerate() {
        check_answer(are_formatted(rt.alloc(), *fill, found), row)?;
    }
    Ok(())
}

/// Opens what a crash left and keeps `C`, where a device call of that fails and the power goes again:
/// whether what was found before, or `C`, is found then; just `C` where the keep was not stopped.
fn survives(
    alloc: Global,
    mut plate: MemoryPlate,
    call: u32,
    fill: u8,
    before: u8,
) -> Option<bool> {
    if call > 0 {
        plate.fuse(call);
    }
    match RotatingRecord::open(alloc, plate) {
        Ok((mut record, _)) => {
            let kept = record.keep(b"C").is_ok();
            let after = found_after(alloc, &record.into_plate(), fill)?;
            Some(call > OPEN_CALLS && (after == b'C' || !kept && after == before))
        }
        Err((plate, _)) => Some(call <= OPEN_CALLS && found_after(alloc, &plate, fill)? == before),
    }
}

/// The calls at which that work is stopped: the sync and the last read of the opening, and those of the keep.
const STOPS: [u32; 8] = [1, 9, 10, 12, 13, 14, 15, 16];

fn survives_each(alloc: Global, left: &MemoryPlate, fill: u8) -> Option<bool> {
    let before = found_after(alloc, left, fill)?;
    for call in STOPS {
        if !survives(alloc, left.after_crash(fill).ok()?, call, fill, before)? {
            return Some(false);
        }
    }
    Some(true)
}

/// A crash in keeping `B` at this device call, and one in the work after it.
fn survives_two(alloc: Global, call: u32, fill: u8) -> Option<bool> {
    let mut record = formatted(alloc, call)?;
    let _first = record.keep(b"A");
    let _second = record.keep(b"B");
    let left = record.into_plate().after_crash(fill).ok()?;
    survives_each(alloc, &left, fill)
}

#[test]
fn crash_in_the_work_after_a_crash(rt: HostRuntime) -> Outcome {
    for call in [17, 19, 20, 21, 22, 23u32] {
        check_answer(survives_two(rt.alloc(), call, 0), call as usize)?;
        check_answer(survives_two(rt.alloc(), call, 1), call as usize)?;
    }
    Ok(())
}
