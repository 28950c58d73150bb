//! Records that are kept: in memory, and on a device that fails.

ghost use Rattle.std.specs.Prelude.{◌≤◌};

use stable_record::{
    FaultyRecord, Leaves, MAX_RECORD_LEN, MemoryRecord, RecordFault, StableRecord,
};
use std::alloc::Global;
use std::str;
use test_outcomes::{Outcome, check_answer};

/// Adds the number of a fault that is not want of memory.
fn tell_fault(shown: &mut String, fault: RecordFault) -> Option<()> {
    match fault {
        RecordFault::Memory => None,
        _ => write!(shown, "{}", fault.number()).ok(),
    }
}

/// Adds what a restart finds.
fn tell_found(shown: &mut String, found: &[u8]) -> Option<()> {
    shown
        .push_str(str::from_utf8(found).unwrap_or("no text"))
        .ok()
}

/// Adds what a keep answers.
fn tell_kept(shown: &mut String, kept: Result<(), RecordFault>) -> Option<()> {
    match kept {
        Ok(()) => shown.push_str("kept").ok(),
        Err(fault) => tell_fault(shown, fault),
    }
}

/// Makes a call, as `keep A` or `reopen`, and adds its answer.
fn answer(shown: &mut String, record: &mut dyn StableRecord, call: &str) -> Option<()> {
    match call.strip_prefix("keep ") {
        Some(text) => tell_kept(shown, record.keep(text.as_bytes())),
        None => match record.reopen() {
            Ok(found) => tell_found(shown, &found),
            Err(fault) => tell_fault(shown, fault),
        },
    }
}

/// Adds whether a record is stuck or free, after so many failures; whether there was memory.
fn tell_state(shown: &mut String, stuck: bool, failures: u64) -> bool {
    let state = if stuck { "stuck" } else { "free" };
    write!(shown, " {state} {failures}").is_ok()
}

/// Makes a call, and adds its answer and the state of the record then; whether there was memory.
fn tell_all(shown: &mut String, record: &mut dyn StableRecord, call: &str) -> bool {
    let told = answer(shown, record, call).is_some();
    told & tell_state(shown, record.stuck(), record.failures())
}

/// Whether a call of a row has the row's answer.
fn goes(alloc: Global, record: &mut dyn StableRecord, row: &str) -> Option<bool> {
    let (call, want) = row.split_once(" > ").unwrap_or((row, ""));
    let mut shown = String::new(alloc);
    if tell_all(&mut shown, record, call) {
        Some(shown.as_str() == want)
    } else {
        None
    }
}

fn plays(alloc: Global, record: &mut dyn StableRecord, script: &str) -> Outcome {
    for (row, text) in script.lines().enumerate() {
        check_answer(goes(alloc, record, text), row)?;
    }
    Ok(())
}

const LEAVES_NEW: &str = "\
keep B > kept free 0
keep C > 301 stuck 1
keep D > 302 stuck 1
reopen > C free 1
keep E > kept free 1
keep F > 301 stuck 2
reopen > F free 2";

const LEAVES_OLD: &str = "\
keep B > kept free 0
keep C > 301 stuck 1
keep D > 302 stuck 1
reopen > B free 1
keep E > kept free 1
keep F > 301 stuck 2
reopen > E free 2";

/// Plays a script on a record that has A, whose keeps of these numbers fail.
fn plays_faulty(alloc: Global, every: u32, leaves: Leaves, bad: u32, script: &str) -> Outcome
    requires { 1 ≤ every }
{
    match FaultyRecord::of(alloc, b"A", every, leaves) {
        Ok(record) => plays(alloc, &mut record.with_bad_reopens(bad), script),
        Err(_) => check_answer(None, 0),
    }
}

#[test]
fn faulty_record(rt: HostRuntime) -> Outcome {
    let new = plays_faulty(rt.alloc(), 2, Leaves::New, 0, LEAVES_NEW);
    let old = plays_faulty(rt.alloc(), 2, Leaves::Old, 0, LEAVES_OLD);
    let reopened = plays_faulty(rt.alloc(), 9, Leaves::New, 2, BAD_REOPENS);
    new.and(old).and(reopened)
}

const BAD_REOPENS: &str = "\
keep B > kept free 0
reopen > 301 stuck 1
reopen > 301 stuck 2
keep C > 302 stuck 2
reopen > B free 2";

const KEEPS: &str = "\
reopen > A free 0
keep B > kept free 0
keep C > kept free 0
reopen > C free 0
keep D > kept free 0
reopen > D free 0";

/// The same of a record in memory.
fn plays_in_memory(alloc: Global, script: &str) -> Outcome {
    match MemoryRecord::holding(alloc, b"A") {
        Ok(record) => {
            let mut record = record;
            plays(alloc, &mut record, script)
        }
        Err(_) => check_answer(None, 0),
    }
}

/// A record in a box.
fn boxed(alloc: Global) -> Option<Box<dyn StableRecord + Send>> {
    let record = MemoryRecord::holding(alloc, b"A").ok()?;
    let boxed: Box<dyn StableRecord + Send> = Box::new(alloc, record).ok()?;
    Some(boxed)
}

/// The same of a record in a box.
fn plays_in_a_box(alloc: Global, script: &str) -> Outcome {
    match boxed(alloc) {
        Some(record) => {
            let mut record = record;
            plays(alloc, &mut *record, script)
        }
        None => check_answer(None, 0),
    }
}

#[test]
fn kept_by_generic_code(rt: HostRuntime) -> Outcome {
    let in_memory = plays_in_memory(rt.alloc(), KEEPS);
    let in_a_box = plays_in_a_box(rt.alloc(), KEEPS);
    let on_a_device = plays_faulty(rt.alloc(), 9, Leaves::Old, 0, KEEPS);
    let longest = check_answer(keeps_the_longest(rt.alloc()), 0);
    in_memory.and(in_a_box).and(on_a_device).and(longest)
}

/// Whether the longest record is kept, and one that is longer is refused and leaves it.
fn keeps_just(record: &mut MemoryRecord, longest: &mut Vec<u8>) -> Option<bool> {
    let kept = record.keep(longest).is_ok() && longest.push(7).is_ok();
    let refused = record.keep(longest) == Err(RecordFault::TooLong);
    match record.reopen() {
        Ok(found) if kept => Some(refused && found.len() == MAX_RECORD_LEN),
        _ => None,
    }
}

/// The same of a record in memory.
fn keeps_just_in_memory(alloc: Global, longest: &mut Vec<u8>) -> Option<bool> {
    match MemoryRecord::holding(alloc, b"A") {
        Ok(record) => {
            let mut record = record;
            keeps_just(&mut record, longest)
        }
        Err(_) => None,
    }
}

fn keeps_the_longest(alloc: Global) -> Option<bool> {
    match vec![in alloc; 7u8; MAX_RECORD_LEN] {
        Ok(longest) => {
            let mut longest = longest;
            keeps_just_in_memory(alloc, &mut longest)
        }
        Err(_) => None,
    }
}
