//! Directories that are no service.

use crate::rooms::{ONE, after, folder_of, is_there, made, open_fault, put, take};
use std::fs;
use test_outcomes::{Failure, Outcome, check_row};

/// Without settings there is no service, whatever else is there. Nothing that is missing is made again.
fn lacks_settings(rt: &HostRuntime, folder: &str) -> Outcome {
    check_row(open_fault(rt, folder)? == 963, 0)?;
    if fs::create_dir(rt, folder).is_err() {
        return Err(Failure::NoAnswer(1));
    }
    check_row(open_fault(rt, folder)? == 963, 1)?;
    if fs::remove_dir(rt, folder).is_err() {
        return Err(Failure::NoAnswer(2));
    }
    made(rt, folder, ONE)?;
    check_row(open_fault(rt, folder)? == 0, 2)?;
    take(rt, folder, "settings.toml")?;
    check_row(open_fault(rt, folder)? == 963, 3)?;
    check_row(!is_there(rt, folder, "settings.toml")?, 4)
}

#[test]
fn no_settings(rt: HostRuntime) -> Outcome {
    let folder = folder_of(&rt, "no_settings")?;
    after(&rt, folder.as_str(), lacks_settings(&rt, folder.as_str()))
}

/// Settings that were damaged are refused with their own numbers.
fn has_bad_settings(rt: &HostRuntime, folder: &str) -> Outcome {
    made(rt, folder, ONE)?;
    put(rt, folder, "settings.toml", b"votes = [1\n")?;
    check_row(open_fault(rt, folder)? == 921, 0)?;
    put(rt, folder, "settings.toml", b"votes = [1]\nread = 1\n")?;
    check_row(open_fault(rt, folder)? == 922, 1)?;
    let long = vec![in rt.alloc(); b'\n'; 65_536]?;
    put(rt, folder, "settings.toml", &long)?;
    check_row(open_fault(rt, folder)? == 924, 2)
}

#[test]
fn bad_settings(rt: HostRuntime) -> Outcome {
    let folder = folder_of(&rt, "bad_settings")?;
    after(&rt, folder.as_str(), has_bad_settings(&rt, folder.as_str()))
}

/// Without a secret of 32 bytes or more the service does not open, and no secret is made.
fn has_no_secret(rt: &HostRuntime, folder: &str) -> Outcome {
    made(rt, folder, ONE)?;
    put(rt, folder, "secret", &[b'k'; 31])?;
    check_row(open_fault(rt, folder)? == 964, 0)?;
    put(rt, folder, "secret", &[b'k'; 32])?;
    check_row(open_fault(rt, folder)? == 0, 1)?;
    take(rt, folder, "secret")?;
    check_row(open_fault(rt, folder)? == 964, 2)?;
    check_row(!is_there(rt, folder, "secret")?, 3)
}

#[test]
fn no_secret(rt: HostRuntime) -> Outcome {
    let folder = folder_of(&rt, "no_secret")?;
    after(&rt, folder.as_str(), has_no_secret(&rt, folder.as_str()))
}

/// Opening looks at no record. One that is missing is not made again.
fn lacks_a_record(rt: &HostRuntime, folder: &str) -> Outcome {
    made(rt, folder, ONE)?;
    take(rt, folder, "n1.record")?;
    check_row(open_fault(rt, folder)? == 0, 0)?;
    check_row(!is_there(rt, folder, "n1.record")?, 1)
}

#[test]
fn a_missing_record(rt: HostRuntime) -> Outcome {
    let folder = folder_of(&rt, "no_record")?;
    after(&rt, folder.as_str(), lacks_a_record(&rt, folder.as_str()))
}
