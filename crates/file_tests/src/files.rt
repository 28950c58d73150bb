//! Records on files: how they are made, opened and refused.

use crate::rooms::{after, open_raw, path_of};
use file_plate::FileFault;
use file_records::{FileRecord, create_record, open_record};
use stable_record::{RecordFault, StableRecord};
use std::alloc::Global;
use std::fs;
use std::os::unix::fs::FileExt;
use test_outcomes::{Failure, Outcome, check_row};

/// The number of a fault; want of memory ends the test.
fn number_of(fault: FileFault) -> Result<u16, Failure> {
    match fault {
        FileFault::Memory => Err(Failure::Memory),
        other => Ok(other.number()),
    }
}

fn create(rt: &HostRuntime, path: &str, bytes: &[u8]) -> Result<Result<FileRecord, u16>, Failure> {
    match create_record(rt, rt.alloc(), path, bytes) {
        Ok(record) => Ok(Ok(record)),
        Err(fault) => Ok(Err(number_of(fault)?)),
    }
}

/// A new record of these bytes.
fn made(rt: &HostRuntime, path: &str, bytes: &[u8]) -> Result<FileRecord, Failure> {
    create(rt, path, bytes)?.map_err(|_| Failure::NoAnswer(0))
}

/// The record and its bytes, or the number of the fault.
fn open(rt: &HostRuntime, path: &str) -> Result<Result<(FileRecord, Vec<u8>), u16>, Failure> {
    match open_record(rt, rt.alloc(), path) {
        Ok(found) => Ok(Ok(found)),
        Err(fault) => Ok(Err(number_of(fault)?)),
    }
}

/// Whether opening finds these bytes, or answers this fault.
fn check_open(rt: &HostRuntime, path: &str, want: Result<&[u8], u16>, row: usize) -> Outcome {
    match (open(rt, path)?, want) {
        (Ok((_, found)), Ok(bytes)) => check_row(found.as_slice() == bytes, row),
        (Err(fault), Err(number)) => check_row(fault == number, row),
        _ => Err(Failure::Wrong(row)),
    }
}

fn makes_keeps_and_opens(rt: &HostRuntime, path: &str) -> Outcome {
    let mut record = made(rt, path, b"first")?;
    check_row(
        create(rt, path, b"other")?.is_err_and(|fault| fault == 947),
        1,
    )?;
    check_open(rt, path, Err(941), 2)?;
    check_row(record.keep(b"second").is_ok(), 3)?;
    drop(record);
    check_open(rt, path, Ok(b"second"), 4)?;
    let Ok((mut record, _)) = open(rt, path)? else {
        return Err(Failure::NoAnswer(5));
    };
    check_row(record.keep(b"").is_ok() && record.failures() == 0, 6)?;
    drop(record);
    check_open(rt, path, Ok(b""), 7)
}

#[test]
fn a_record_is_made_kept_and_opened(rt: HostRuntime) -> Outcome {
    let path = path_of(&rt, "kept")?;
    after(
        &rt,
        path.as_str(),
        makes_keeps_and_opens(&rt, path.as_str()),
    )
}

/// Sizes of files that hold zeros, and what opening them answers.
const NO_RECORDS: [(u32, u16); 5] = [
    (0, 943),
    (200_703, 943),
    (200_705, 943),
    (120_026, 943),
    (200_704, 944),
];

fn are_no_records(rt: &HostRuntime, path: &str) -> Outcome {
    check_open(rt, path, Err(942), 0)?;
    for (row, (size, fault)) in NO_RECORDS.iter().enumerate() {
        let Some(file) = open_raw(rt, path, *size) else {
            return Err(Failure::NoAnswer(row));
        };
        drop(file);
        check_open(rt, path, Err(*fault), row)?;
    }
    check_open(rt, "/tmp", Err(945), 5)?;
    check_open(rt, "/dev/full", Err(945), 6)
}

#[test]
fn files_that_hold_no_record(rt: HostRuntime) -> Outcome {
    let path = path_of(&rt, "none")?;
    after(&rt, path.as_str(), are_no_records(&rt, path.as_str()))
}

fn is_too_long(rt: &HostRuntime, path: &str) -> Outcome {
    let bytes = vec![in rt.alloc(); 1u8; 60_001]?;
    check_row(
        create(rt, path, &bytes)?.is_err_and(|fault| fault == 404),
        0,
    )?;
    check_open(rt, path, Err(942), 1)?;
    let Some(longest) = bytes.get(1..) else {
        return Err(Failure::NoAnswer(2));
    };
    drop(made(rt, path, longest)?);
    check_open(rt, path, Ok(longest), 3)
}

#[test]
fn the_longest_record(rt: HostRuntime) -> Outcome {
    let path = path_of(&rt, "long")?;
    after(&rt, path.as_str(), is_too_long(&rt, path.as_str()))
}

/// Writes a byte into a file, past its lock.
fn disturb(rt: &HostRuntime, path: &str, at: u64) -> Option<()> {
    let file = open_raw(rt, path, 200_704)?;
    file.write_all_at(&[9], at).ok()
}

/// Another process writes into the gate of the record: that is seen when it is read, and is a failure, after
/// which nothing is written.
fn is_disturbed(rt: &HostRuntime, path: &str) -> Outcome {
    let mut record = made(rt, path, b"A")?;
    let Some(()) = disturb(rt, path, 4_096) else {
        return Err(Failure::NoAnswer(0));
    };
    match record.reopen() {
        Err(RecordFault::Device) => {}
        Err(RecordFault::Memory) => return Err(Failure::Memory),
        _ => return Err(Failure::Wrong(1)),
    }
    check_row(record.failures() == 1 && record.stuck(), 2)?;
    check_row(record.keep(b"B") == Err(RecordFault::Stuck), 3)?;
    match record.reopen() {
        Err(RecordFault::Device) => {}
        Err(RecordFault::Memory) => return Err(Failure::Memory),
        _ => return Err(Failure::Wrong(4)),
    }
    check_row(record.failures() == 2, 5)?;
    drop(record);
    check_open(rt, path, Err(944), 6)
}

#[test]
fn a_file_that_is_written_by_others(rt: HostRuntime) -> Outcome {
    let path = path_of(&rt, "disturbed")?;
    after(&rt, path.as_str(), is_disturbed(&rt, path.as_str()))
}

/// What a process left that ended before its record was whole is written over.
fn is_left(rt: &HostRuntime, path: &str, draft: &str) -> Outcome {
    let Some(file) = open_raw(rt, draft, 77) else {
        return Err(Failure::NoAnswer(0));
    };
    // While that process lives, no other may make the record.
    check_row(file.try_lock().is_ok(), 1)?;
    check_row(create(rt, path, b"A")?.is_err_and(|fault| fault == 941), 2)?;
    drop(file);
    drop(made(rt, path, b"A")?);
    check_open(rt, path, Ok(b"A"), 3)?;
    match fs::exists(rt, draft) {
        Ok(there) => check_row(!there, 4),
        Err(_) => Err(Failure::NoAnswer(4)),
    }
}

#[test]
fn a_draft_that_was_left(rt: HostRuntime) -> Outcome {
    let path = path_of(&rt, "left")?;
    let draft = format!(in rt.alloc(); "{path}.new")?;
    let outcome = is_left(&rt, path.as_str(), draft.as_str());
    let _ = fs::remove_file(&rt, draft.as_str());
    after(&rt, path.as_str(), outcome)
}
