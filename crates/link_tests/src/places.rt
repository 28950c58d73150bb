// A directory of a test, with an inbox for n1 and one for c1.

use frame_lines::{Secret, write_frame};
use line_link::inbox_path;
use lock_messages::Actor;
use std::alloc::Global;
use std::fs::{self, OpenOptions};
use std::io::Write;
use std::process;
use test_outcomes::{Failure, Outcome, client_id, node_id};

/// n1 and c1.
pub(crate) fn node() -> Actor {
    Actor::Node(node_id(1))
}

pub(crate) fn client() -> Actor {
    Actor::Client(client_id(1))
}

/// The secret of a service.
pub(crate) fn secret() -> Secret {
    Secret::of(b"known to this service alone")
}

/// A failure of the test's own files.
pub(crate) fn no_file<T>(answer: std::io::Result<T>) -> Result<T, Failure>
where
    T: Drop,
{
    answer.map_err(|_| Failure::NoAnswer(0))
}

/// A directory of this name with an empty inbox for each of the two. It has the number of the process in its name, since
/// tests run side by side.
pub(crate) fn made(rt: &HostRuntime, name: &str) -> Result<String, Failure> {
    let process = process::id(rt.process());
    let path = format!(in rt.alloc(); "/tmp/rwvote_{name}_{process}")?;
    no_file(fs::create_dir(rt, path.as_str()))?;
    append(rt, path.as_str(), node(), b"")?;
    append(rt, path.as_str(), client(), b"")?;
    Ok(path)
}

/// Appends bytes to an inbox, as anybody could.
pub(crate) fn append(rt: &HostRuntime, path: &str, to: Actor, bytes: &[u8]) -> Outcome {
    let name = inbox_path(rt.alloc(), path, to)?;
    let opened = OpenOptions::new()
        .append(true)
        .create(true)
        .open(rt, name.as_str());
    let mut file = no_file(opened)?;
    no_file(file.write_all(bytes))
}

/// How long an inbox is.
pub(crate) fn length(rt: &HostRuntime, path: &str, of: Actor) -> Result<u64, Failure> {
    let name = inbox_path(rt.alloc(), path, of)?;
    Ok(no_file(fs::metadata(rt, name.as_str()))?.len())
}

/// Takes the directory away, and answers for the test.
pub(crate) fn after(rt: &HostRuntime, path: &str, outcome: Outcome) -> Outcome {
    let _ = fs::remove_dir_all(rt, path);
    outcome
}

/// The line of a frame for n1, with its line feed.
pub(crate) fn line_for_node(
    alloc: Global,
    secret: &Secret,
    frame: &[u8],
) -> Result<String, Failure> {
    Ok(write_frame(alloc, secret, node(), frame)?)
}
