// Making, opening and keeping.

use crate::numbers::{body_of, number_of};
use file_plate::FileFault;
use file_records::{FileRecord, create_record, open_record};
use stable_record::StableRecord;
use std::io;

/// Prints the number of a fault.
fn tell(rt: &HostRuntime, number: u16) -> io::Result<bool> {
    println!(rt; "fault {number}")?;
    Ok(false)
}

/// Makes a new record, number 0.
pub(crate) fn make(rt: &HostRuntime, path: &str) -> io::Result<bool> {
    let Ok(body) = body_of(rt.alloc(), 0) else {
        return tell(rt, FileFault::Memory.number());
    };
    match create_record(rt, rt.alloc(), path, &body) {
        Ok(_) => Ok(true),
        Err(fault) => tell(rt, fault.number()),
    }
}

/// Opens a record and finds its number, or the number of the fault. A torn body is 944.
fn open(rt: &HostRuntime, path: &str) -> Result<(FileRecord, u64), u16> {
    let (record, body) = open_record(rt, rt.alloc(), path).map_err(FileFault::number)?;
    let Some(number) = number_of(&body) else {
        return Err(FileFault::NotFormatted.number());
    };
    Ok((record, number))
}

/// Opens a record and prints its number.
pub(crate) fn look(rt: &HostRuntime, path: &str) -> io::Result<bool> {
    match open(rt, path) {
        Ok((_, number)) => {
            println!(rt; "found {number}")?;
            Ok(true)
        }
        Err(fault) => tell(rt, fault),
    }
}

/// Keeps a number, and prints it.
fn keep(rt: &HostRuntime, record: &mut FileRecord, number: u64) -> io::Result<bool> {
    let Ok(body) = body_of(rt.alloc(), number) else {
        return tell(rt, FileFault::Memory.number());
    };
    match record.keep(&body) {
        Ok(()) => {
            println!(rt; "kept {number}")?;
            Ok(true)
        }
        Err(fault) => tell(rt, fault.number()),
    }
}

/// Opens a record, prints its number, and keeps one number after the other.
pub(crate) fn keep_on(rt: &HostRuntime, path: &str) -> io::Result<bool> {
    let (mut record, found) = match open(rt, path) {
        Ok(opened) => opened,
        Err(fault) => return tell(rt, fault),
    };
    println!(rt; "found {found}")?;
    for number in found..u64::MAX {
        if !keep(rt, &mut record, number + 1)? {
            return Ok(false);
        }
    }
    Ok(true)
}
