//! What opening finds if a device reported a write or a sync that it did not make.

use crate::homes::ThreeSlots;
use crate::media::Fault;
use crate::rooms::{after, open_raw, path_of};
use crate::stops::{formatted, found, is_done, made, opened};
use stable_record::{RecordFault, StableRecord};
use std::os::unix::fs::FileExt;
use test_outcomes::{Failure, Outcome, check_answer, check_row};

const SIZE: u32 = 200_704;

/// The gate of the slot that the keep of `B` writes.
const GATE: u64 = 135_168;

/// All bytes of the test's file.
fn image_of(rt: &HostRuntime, path: &str) -> Option<Vec<u8>> {
    let mut image = vec![in rt.alloc(); 0u8; SIZE as usize].ok()?;
    let file = open_raw(rt, path, SIZE)?;
    file.read_exact_at(&mut image, 0).ok()?;
    Some(image)
}

/// Keeps `B` on the record of the test's file, of which this call fails. The keep makes the calls 12 to 17.
fn keep_next(rt: &HostRuntime, path: &str, fault: Fault, failing: u32) -> Option<bool> {
    let (mut record, _) = opened::<ThreeSlots>(rt, path, fault, failing)?;
    is_done(record.keep(b"B"))
}

/// Whether this is found on a file with these bytes, of which one is another.
fn is_found(
    rt: &HostRuntime,
    path: &str,
    image: &[u8],
    (at, byte): (u64, u8),
    want: u8,
) -> Option<bool> {
    let file = open_raw(rt, path, SIZE)?;
    file.write_all_at(image, 0).ok()?;
    file.write_all_at(&[byte], at).ok()?;
    Some(found::<ThreeSlots>(rt, path)? == want)
}

/// Ends the test unless all of this is so.
fn check_all(rights: Option<&[bool]>) -> Outcome {
    let Some(rights) = rights else {
        return Err(Failure::NoAnswer(0));
    };
    for (row, right) in rights.iter().enumerate() {
        check_row(*right, row)?;
    }
    Ok(())
}

/// A keep of `B` after `A` was reported as done.
/// If its first sync was not made, the device has the new gate and not the body: no record is found.
/// If its last sync or both were not made, the record before is found, and nothing shows that `B` is lost.
fn are_lost(rt: &HostRuntime, path: &str) -> Option<[bool; 5]> {
    made::<ThreeSlots>(rt, path)?;
    let old = image_of(rt, path)?;
    let kept = keep_next(rt, path, Fault::Refused, 0)?;
    let new = image_of(rt, path)?;
    Some([
        kept,
        is_found(rt, path, &old, (GATE, 1), b'-')?,
        is_found(rt, path, &new, (GATE, 0), b'A')?,
        is_found(rt, path, &old, (GATE, 0), b'A')?,
        is_found(rt, path, &new, (GATE, 1), b'B')?,
    ])
}

#[test]
fn a_sync_that_was_not_made(rt: HostRuntime) -> Outcome {
    let path = path_of(&rt, "sync")?;
    let rights = are_lost(&rt, path.as_str());
    let outcome = check_all(rights.as_ref().map(|it| it.as_slice()));
    after(&rt, path.as_str(), outcome)
}

/// The places of the mark's first byte, of the last byte of the first slot's sequence, and of its gate. A
/// formatting syncs after it has written each of them.
const FORMATTED: [u64; 3] = [0, 8_199, 4_096];

/// A formatting with `F` was reported as done. If one of its syncs was not made, no record is found.
fn is_not_formatted(rt: &HostRuntime, path: &str) -> Option<[bool; 4]> {
    let [mark, sequence, gate] = FORMATTED;
    formatted::<ThreeSlots>(rt, path)?;
    let image = image_of(rt, path)?;
    Some([
        found::<ThreeSlots>(rt, path)? == b'F',
        is_found(rt, path, &image, (mark, 0), b'-')?,
        is_found(rt, path, &image, (sequence, 0), b'-')?,
        is_found(rt, path, &image, (gate, 0), b'-')?,
    ])
}

#[test]
fn a_formatting_without_a_sync(rt: HostRuntime) -> Outcome {
    let path = path_of(&rt, "format_sync")?;
    let rights = is_not_formatted(&rt, path.as_str());
    let outcome = check_all(rights.as_ref().map(|it| it.as_slice()));
    after(&rt, path.as_str(), outcome)
}

/// The first byte of what an opening returns whose first sync is not made.
fn opens_unsynced(rt: &HostRuntime, path: &str) -> Option<u8> {
    let (_, body) = opened::<ThreeSlots>(rt, path, Fault::Lies, 1)?;
    body.first().copied()
}

/// The last sync of a keep of `B` failed, so the gate may not be on the device. An opening that makes no sync
/// returns `B`. If the device loses the gate then, the next opening finds `A`.
fn is_taken_back(rt: &HostRuntime, path: &str) -> Option<[bool; 3]> {
    made::<ThreeSlots>(rt, path)?;
    let kept = keep_next(rt, path, Fault::Refused, 17)?;
    let first = opens_unsynced(rt, path)?;
    let image = image_of(rt, path)?;
    let is_lost = is_found(rt, path, &image, (GATE, 0), b'A')?;
    Some([!kept, first == b'B', is_lost])
}

#[test]
fn an_opening_without_its_sync(rt: HostRuntime) -> Outcome {
    let path = path_of(&rt, "open_sync")?;
    let rights = is_taken_back(&rt, path.as_str());
    let outcome = check_all(rights.as_ref().map(|it| it.as_slice()));
    after(&rt, path.as_str(), outcome)
}

/// A file that reports the write of a body and does not make it: the keep succeeds, and the next read of the
/// body finds the difference.
fn is_found_out(rt: &HostRuntime, path: &str) -> Outcome {
    let Some(()) = made::<ThreeSlots>(rt, path) else {
        return Err(Failure::NoAnswer(0));
    };
    let Some((mut record, _)) = opened::<ThreeSlots>(rt, path, Fault::Lies, 13) else {
        return Err(Failure::NoAnswer(1));
    };
    check_answer(is_done(record.keep(b"B")), 2)?;
    check_row(record.failures() == 0, 2)?;
    match record.reopen() {
        Err(RecordFault::Device) => check_row(record.failures() == 1 && record.stuck(), 3),
        Err(RecordFault::Memory) => Err(Failure::Memory),
        _ => Err(Failure::Wrong(4)),
    }
}

#[test]
fn a_write_that_was_not_made(rt: HostRuntime) -> Outcome {
    let path = path_of(&rt, "lies")?;
    after(&rt, path.as_str(), is_found_out(&rt, path.as_str()))
}
