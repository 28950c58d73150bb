// Directories that a test makes and takes away again, and records in them.

ghost use Rattle.std.specs.Prelude.{◌≤◌};
ghost use Rattle.lock_messages.specs.declared.ids.TheConstants.{MAX_NODES, MAX_CLIENTS};

use file_records::{FileRecord, create_record};
use lock_messages::{Attempt, ClientId, Mode, ResourceName};
use lock_model::Problem;
use service_status::{look_at, text_of};
use stable_record::{Entries, Entry, Live, NodeRecord, Status, client_bytes, node_bytes};
use std::{fs, process};
use test_outcomes::{Failure, Outcome, check_row};

/// A ticket of a client for a resource, and how it stands.
pub(crate) type Row = (u32, Mode, &'static [u8], Status);

/// Makes a test's directory: its own name, and the number of the process, since tests run side by side.
pub(crate) fn folder_of(rt: &HostRuntime, name: &str) -> Result<String, Failure> {
    let process = process::id(rt.process());
    let folder = format!(in rt.alloc(); "/tmp/rwvote_status_{name}_{process}")?;
    match fs::create_dir_all(rt, folder.as_str()) {
        Ok(()) => Ok(folder),
        Err(_) => Err(Failure::NoAnswer(1_000)),
    }
}

/// Takes a test's directory away, and returns what came of the test.
pub(crate) fn after(rt: &HostRuntime, folder: &str, outcome: Outcome) -> Outcome {
    let _ = fs::remove_dir_all(rt, folder);
    outcome
}

/// The path of a file in a directory.
pub(crate) fn path_in(rt: &HostRuntime, folder: &str, name: &str) -> Result<String, Failure> {
    Ok(format!(in rt.alloc(); "{folder}/{name}")?)
}

/// The entry of a row. The ticket's attempt is the client's first.
fn entry_of(row: &Row) -> Option<Entry> {
    let (client, mode, name, status) = *row;
    let live = Live {
        attempt: Attempt::of(1)?,
        mode,
        resource: ResourceName::of(name)?,
        status,
    };
    Some(Entry {
        client: ClientId::of(client)?,
        floor: 0,
        live: Some(live),
    })
}

/// The bytes of a node's record with these tickets.
pub(crate) fn node_of(
    rt: &HostRuntime,
    problem: Problem,
    rows: &[Row],
) -> Result<Vec<u8>, Failure> {
    let mut entries = Entries::new(rt.alloc());
    for row in rows {
        let Some(entry) = entry_of(row) else {
            return Err(Failure::NoAnswer(1_001));
        };
        entries.push(entry)?;
    }
    node_bytes(rt.alloc(), &NodeRecord { problem, entries }).map_err(|_| Failure::Memory)
}

/// Makes a record with these bytes. It is held until it is dropped.
pub(crate) fn record(
    rt: &HostRuntime,
    folder: &str,
    name: &str,
    bytes: &[u8],
) -> Result<FileRecord, Failure> {
    let path = path_in(rt, folder, name)?;
    match create_record(rt, rt.alloc(), path.as_str(), bytes) {
        Ok(record) => Ok(record),
        Err(fault) if fault.number() == 933 => Err(Failure::Memory),
        Err(_) => Err(Failure::NoAnswer(1_002)),
    }
}

/// Makes the record of a client that made this many attempts.
pub(crate) fn client(
    rt: &HostRuntime,
    folder: &str,
    name: &str,
    attempts: u32,
) -> Result<FileRecord, Failure> {
    record(rt, folder, name, &client_bytes(u64::from(attempts)))
}

/// The lines of a directory's service, which has so many nodes and clients.
pub(crate) fn lines(
    rt: &HostRuntime,
    folder: &str,
    nodes: u8,
    clients: u32,
) -> Result<String, Failure>
    requires nodes { nodes ≤ MAX_NODES }
    requires clients { clients ≤ MAX_CLIENTS }
{
    let sight = look_at(rt, rt.alloc(), folder, nodes, clients)?;
    Ok(text_of(rt.alloc(), &sight)?)
}

/// Ends the test unless these lines are shown.
pub(crate) fn shows(rt: &HostRuntime, folder: &str, nodes: u8, clients: u32, want: &str) -> Outcome
    requires nodes { nodes ≤ MAX_NODES }
    requires clients { clients ≤ MAX_CLIENTS }
{
    let text = lines(rt, folder, nodes, clients)?;
    check_row(text.as_str() == want, 0)
}
