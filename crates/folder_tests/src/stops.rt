//! New services that are stopped at each call of the operating system in turn.

use crate::rooms::{ONE, after, folder_of, init, is_there, open_fault};
use crate::stopping_files::StoppingFiles;
use std::fs;
use test_outcomes::{Failure, Outcome, check_row};

/// More calls than a service of one node and one client needs.
const MOST_CALLS: u32 = 200;

/// The files of a service of one node and one client.
const NAMES: [&str; 6] = [
    "settings.toml",
    "secret",
    "n1.record",
    "n1.inbox",
    "c1.record",
    "c1.inbox",
];

/// Whether each file of the service is there.
fn is_whole(rt: &HostRuntime, folder: &str) -> Result<bool, Failure> {
    for name in NAMES {
        if !is_there(rt, folder, name)? {
            return Ok(false);
        }
    }
    Ok(true)
}

/// Stops after so many calls. What is left is no service or a whole one, and no other is made over it. Returns whether
/// all calls were done.
fn stops_after(rt: &HostRuntime, folder: &str, calls: u32) -> Result<bool, Failure> {
    let row = calls as usize;
    let files = StoppingFiles::after(rt, calls);
    let fault = init(rt, &files, folder, ONE, None, None)?;
    let opens = open_fault(rt, folder)?;
    check_row(opens == 963 || (opens == 0 && is_whole(rt, folder)?), row)?;
    check_row(fault != 0 || opens == 0, row)?;
    let _ = fs::remove_dir_all(rt, folder);
    Ok(files.left() > 0)
}

fn stops(rt: &HostRuntime, folder: &str) -> Outcome {
    for calls in 0..MOST_CALLS {
        if stops_after(rt, folder, calls)? {
            // Some twenty calls are made at least.
            return check_row(calls > 20, 0);
        }
    }
    Err(Failure::NoAnswer(0))
}

#[test]
fn interrupted_services(rt: HostRuntime) -> Outcome {
    let folder = folder_of(&rt, "stops")?;
    after(&rt, folder.as_str(), stops(&rt, folder.as_str()))
}
