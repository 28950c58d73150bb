// Files that a test makes and takes away again.

use std::fs::{self, File, OpenOptions};
use std::process;
use test_outcomes::{Failure, Outcome};

/// The path of a test's file: its own name, and the number of the process, since tests run side by side.
pub(crate) fn path_of(rt: &HostRuntime, name: &str) -> Result<String, Failure> {
    let process = process::id(rt.process());
    Ok(format!(in rt.alloc(); "/tmp/rwvote_{name}_{process}")?)
}

/// Opens a test's file, or makes it, and gives it this size.
pub(crate) fn open_raw(rt: &HostRuntime, path: &str, size: u32) -> Option<File> {
    let opened = OpenOptions::new()
        .read(true)
        .write(true)
        .create(true)
        .open(rt, path);
    let file = opened.ok()?;
    file.set_len(u64::from(size)).ok()?;
    Some(file)
}

/// Takes a test's file away, and answers for the test.
pub(crate) fn after(rt: &HostRuntime, path: &str, outcome: Outcome) -> Outcome {
    let _ = fs::remove_file(rt, path);
    outcome
}
