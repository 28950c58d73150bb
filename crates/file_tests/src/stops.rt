// Each call of a record's file fails in turn, in each call of the record.

use crate::homes::{FaultyPlate, Home};
use crate::media::{Fault, plate_over};
use crate::rooms::{after, path_of};
use file_plate::FileFault;
use slot_record::SlotFault;
use stable_record::RecordFault;
use std::alloc::Global;
use std::fs;
use test_outcomes::{Failure, Outcome, check_answer};

/// How calls fail, and what is found if the first call failed, the second, and so on. The last one is for no
/// failure.
pub(crate) type Row = (Fault, &'static [u8]);

/// A plate over the test's file. The call of this number fails.
fn plate<H: Home>(
    rt: &HostRuntime,
    path: &str,
    fault: Fault,
    failing: u32,
) -> Option<Result<FaultyPlate, FileFault>> {
    plate_over(rt, path, H::size(), fault, failing)
}

/// Whether a call of a record was done. Want of memory is no answer.
pub(crate) fn is_done(came: Result<(), RecordFault>) -> Option<bool> {
    match came {
        Ok(()) => Some(true),
        Err(RecordFault::Memory) => None,
        Err(_) => Some(false),
    }
}

/// Opens the record on the test's file, of which this call fails.
pub(crate) fn opened<H: Home>(
    rt: &HostRuntime,
    path: &str,
    fault: Fault,
    failing: u32,
) -> Option<(H, Vec<u8>)> {
    let plate = plate::<H>(rt, path, fault, failing)?.ok()?;
    H::find(rt.alloc(), plate).ok()
}

/// The first byte of the record that is found if no call fails. A dash stands for none.
pub(crate) fn found<H: Home>(rt: &HostRuntime, path: &str) -> Option<u8> {
    let plate = plate::<H>(rt, path, Fault::Refused, 0)?.ok()?;
    match H::find(rt.alloc(), plate) {
        Ok((_, body)) => body.first().copied(),
        Err((_, SlotFault::NotFormatted)) => Some(b'-'),
        Err(_) => None,
    }
}

/// Makes a record `F` on a new file, and returns how many calls were made.
fn formats<H: Home>(rt: &HostRuntime, path: &str, fault: Fault, failing: u32) -> Option<u32> {
    let _ = fs::remove_file(rt, path);
    let plate = match plate::<H>(rt, path, fault, failing)? {
        Ok(plate) => plate,
        Err(FileFault::Memory) => return None,
        Err(_) => return Some(failing),
    };
    match H::make(rt.alloc(), plate) {
        Ok(record) => Some(record.calls()),
        Err((_, SlotFault::Memory)) => None,
        Err((plate, _)) => Some(plate.into_medium().made()),
    }
}

/// Makes a record `F` on a new file.
pub(crate) fn formatted<H: Home>(rt: &HostRuntime, path: &str) -> Option<H> {
    let _ = fs::remove_file(rt, path);
    let plate = plate::<H>(rt, path, Fault::Refused, 0)?.ok()?;
    H::make(rt.alloc(), plate).ok()
}

/// Makes a record `F` on a new file, and keeps `A`.
pub(crate) fn made<H: Home>(rt: &HostRuntime, path: &str) -> Option<()> {
    let mut record = formatted::<H>(rt, path)?;
    record.keep(b"A").ok()
}

/// Opens the record and keeps `B`. A record that failed can't be opened again in place.
/// Returns how many calls were made, whether the record opened, and whether it kept.
fn keeps<H: Home>(
    rt: &HostRuntime,
    path: &str,
    fault: Fault,
    failing: u32,
) -> Option<(u32, bool, bool)> {
    let plate = match plate::<H>(rt, path, fault, failing)? {
        Ok(plate) => plate,
        Err(FileFault::Memory) => return None,
        Err(_) => return Some((failing, false, false)),
    };
    match H::find(rt.alloc(), plate) {
        Ok((mut record, _)) => {
            let kept = is_done(record.keep(b"B"))?;
            if !kept && is_done(record.reopen().map(|_| ()))? {
                return None;
            }
            Some((record.calls(), true, kept))
        }
        Err((_, SlotFault::Memory)) => None,
        Err((plate, _)) => Some((plate.into_medium().made(), false, false)),
    }
}

/// Opens the record twice: how many calls were made, and whether it opened the second time.
fn reopens<H: Home>(
    rt: &HostRuntime,
    path: &str,
    fault: Fault,
    failing: u32,
) -> Option<(u32, bool)> {
    let (mut record, _) = opened::<H>(rt, path, fault, failing)?;
    let again = is_done(record.reopen().map(|_| ()))?;
    Some((record.calls(), again))
}

/// Whether the formatting, of so many calls, ended at this one and left this record.
fn format_stops<H: Home>(
    rt: &HostRuntime,
    path: &str,
    fault: Fault,
    (failing, calls): (u32, u32),
    want: u8,
) -> Option<bool> {
    let made = formats::<H>(rt, path, fault, failing)?;
    Some(made == failing.min(calls) && found::<H>(rt, path)? == want)
}

/// The last call if the call of this number fails. A plate that read a wrong byte at first finds it at the
/// next read, call 4.
fn last_call(fault: Fault, failing: u32, calls: u32) -> u32 {
    if fault == Fault::Wrong && failing == 2 {
        4
    } else {
        failing.min(calls)
    }
}

/// Whether opening and a keep, of so many calls, ended at this one and left this record. The keep makes the last
/// 6 calls.
fn keep_stops<H: Home>(
    rt: &HostRuntime,
    path: &str,
    fault: Fault,
    (failing, calls): (u32, u32),
    want: u8,
) -> Option<bool> {
    made::<H>(rt, path)?;
    let (made, opened, kept) = keeps::<H>(rt, path, fault, failing)?;
    let right = opened == (failing.saturating_add(6) > calls) && kept == (failing > calls);
    Some(right && made == last_call(fault, failing, calls) && found::<H>(rt, path)? == want)
}

fn each_format_stops<H: Home>(rt: &HostRuntime, path: &str, (fault, wants): Row) -> Outcome {
    let calls = u32::try_from(wants.len()).unwrap_or(0).saturating_sub(1);
    let mut failing = 0u32;
    for want in wants {
        failing = failing.saturating_add(1);
        let answer = format_stops::<H>(rt, path, fault, (failing, calls), *want);
        check_answer(answer, failing as usize)?;
    }
    Ok(())
}

fn each_keep_stops<H: Home>(rt: &HostRuntime, path: &str, (fault, wants): Row) -> Outcome {
    let calls = u32::try_from(wants.len()).unwrap_or(0).saturating_sub(1);
    let mut failing = 0u32;
    for want in wants {
        failing = failing.saturating_add(1);
        let answer = keep_stops::<H>(rt, path, fault, (failing, calls), *want);
        check_answer(answer, failing as usize)?;
    }
    Ok(())
}

/// Nothing writes here, so one file serves all calls.
fn each_reopen_stops<H: Home>(
    rt: &HostRuntime,
    path: &str,
    fault: Fault,
    (opening, all): (u32, u32),
) -> Outcome {
    let Some(()) = made::<H>(rt, path) else {
        return Err(Failure::NoAnswer(0));
    };
    for after in opening..all.saturating_add(1) {
        let failing = after.saturating_add(1);
        let answer = reopens::<H>(rt, path, fault, failing);
        let right = answer.map(|it| it == (failing.min(all), failing > all));
        check_answer(right, failing as usize)?;
    }
    check_answer(found::<H>(rt, path).map(|it| it == b'A'), 0)
}

/// Lets each call of a formatting fail in turn.
pub(crate) fn formats_stop<H: Home>(rt: &HostRuntime, name: &str, row: Row) -> Outcome {
    let path = path_of(rt, name)?;
    after(
        rt,
        path.as_str(),
        each_format_stops::<H>(rt, path.as_str(), row),
    )
}

/// Lets each call of an opening and of a keep fail in turn.
pub(crate) fn keeps_stop<H: Home>(rt: &HostRuntime, name: &str, row: Row) -> Outcome {
    let path = path_of(rt, name)?;
    after(
        rt,
        path.as_str(),
        each_keep_stops::<H>(rt, path.as_str(), row),
    )
}

/// Lets each call of a reopening fail in turn. The numbers are those of the calls of an opening, and of all calls.
pub(crate) fn reopens_stop<H: Home>(
    rt: &HostRuntime,
    name: &str,
    fault: Fault,
    calls: (u32, u32),
) -> Outcome {
    let path = path_of(rt, name)?;
    after(
        rt,
        path.as_str(),
        each_reopen_stops::<H>(rt, path.as_str(), fault, calls),
    )
}
