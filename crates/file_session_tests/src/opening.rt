// The files of one node and two clients, and the records on them.

ghost use Rattle.std.specs.Prelude.{◌≡◌, ◌∷◌, [], length, map, IfOk, OnOk};

use file_plate::FileFault;
use file_records::{FileRecord, create_record, open_record};
use session_files::SessionFile;
use stable_record::{StableRecord, client_bytes};
use std::alloc::Global;
use std::fs::{self, File, Files};
use std::process;
use test_outcomes::{Failure, Outcome};
use test_support::NOTHING_KEPT;

/// The paths of the files.
#[derive(Drop)]
pub(crate) struct Paths {
    pub(crate) node: String,
    pub(crate) one: String,
    pub(crate) two: String,
}

/// The records on the files, and what each of them holds.
#[derive(Drop)]
pub(crate) struct Opened {
    pub(crate) nodes: Vec<Box<dyn StableRecord + Send>>,
    pub(crate) clients: Vec<SessionFile>,
    pub(crate) of_nodes: Vec<Vec<u8>>,
    pub(crate) of_clients: Vec<Vec<u8>>,
}

/// Paths with the number of the process, since tests run at the same time.
pub(crate) fn paths_of(rt: &HostRuntime) -> Result<Paths, Failure> {
    let process = process::id(rt.process());
    Ok(Paths {
        node: format!(in rt.alloc(); "/tmp/rwvote_node_{process}")?,
        one: format!(in rt.alloc(); "/tmp/rwvote_one_{process}")?,
        two: format!(in rt.alloc(); "/tmp/rwvote_two_{process}")?,
    })
}

fn failure_of(fault: FileFault) -> Failure {
    match fault {
        FileFault::Memory => Failure::Memory,
        other => Failure::NoAnswer(usize::from(other.number())),
    }
}

fn make<F: Files<File = File>>(files: &F, alloc: Global, path: &str, bytes: &[u8]) -> Outcome {
    match create_record(files, alloc, path, bytes) {
        Ok(_) => Ok(()),
        Err(fault) => Err(failure_of(fault)),
    }
}

/// Makes the files. The node has kept nothing, and no client has made an attempt.
pub(crate) fn make_all<F: Files<File = File>>(files: &F, alloc: Global, paths: &Paths) -> Outcome {
    make(files, alloc, paths.node.as_str(), &NOTHING_KEPT)?;
    make(files, alloc, paths.one.as_str(), &client_bytes(0))?;
    make(files, alloc, paths.two.as_str(), &client_bytes(0))
}

/// Removes the files.
pub(crate) fn remove_all<F: Files<File = File>>(files: &F, paths: &Paths) {
    let _ = fs::remove_file(files, paths.node.as_str());
    let _ = fs::remove_file(files, paths.one.as_str());
    let _ = fs::remove_file(files, paths.two.as_str());
}

/// The record on a file, and its bytes.
pub(crate) fn open<F: Files<File = File>>(
    files: &F,
    alloc: Global,
    path: &str,
) -> Result<(FileRecord, Vec<u8>), Failure>
    ensures { IfOk result (λ r. r.0.finds ≡ r.1.items ∷ []) }
{
    match open_record(files, alloc, path) {
        Ok(found) => Ok(found),
        Err(fault) => Err(failure_of(fault)),
    }
}

/// A record in a box, as a node's thread owns it.
fn boxed(alloc: Global, kept: FileRecord) -> Result<Box<dyn StableRecord + Send>, Failure>
    ensures { IfOk result (λ r. finds r ≡ kept.finds) }
{
    let kept: Box<dyn StableRecord + Send> = Box::new(alloc, kept)?;
    Ok(kept)
}

/// Opens the records of both clients.
fn open_clients<F: Files<File = File>>(
    files: &F,
    alloc: Global,
    paths: &Paths,
    clients: &mut Vec<SessionFile>,
    of_clients: &mut Vec<Vec<u8>>,
) -> Outcome
    requires clients { clients.old.items ≡ [] }
    requires kept { of_clients.old.items ≡ [] }
    ensures found { OnOk result (map (λ r. r.record.finds) clients.new.items ≡ map (λ b. b.items ∷ []) of_clients.new.items) }
    ensures two { OnOk result (length of_clients.new.items ≡ 2) }
{
    let (record, bytes) = open(files, alloc, paths.one.as_str())?;
    clients.push(SessionFile { record })?;
    of_clients.push(bytes)?;
    let (record, bytes) = open(files, alloc, paths.two.as_str())?;
    clients.push(SessionFile { record })?;
    of_clients.push(bytes)?;
    Ok(())
}

/// Opens all records.
pub(crate) fn open_all<F: Files<File = File>>(
    files: &F,
    alloc: Global,
    paths: &Paths,
) -> Result<Opened, Failure>
    ensures nodes { IfOk result (λ o. map (λ r. finds r) o.nodes.items ≡ map (λ b. b.items ∷ []) o.of_nodes.items) }
    ensures clients { IfOk result (λ o. map (λ r. r.record.finds) o.clients.items ≡ map (λ b. b.items ∷ []) o.of_clients.items) }
    ensures one { IfOk result (λ o. length o.of_nodes.items ≡ 1) }
    ensures two { IfOk result (λ o. length o.of_clients.items ≡ 2) }
{
    let (mut nodes, mut of_nodes) = (Vec::new(alloc), Vec::new(alloc));
    let (record, bytes) = open(files, alloc, paths.node.as_str())?;
    nodes.push(boxed(alloc, record)?)?;
    of_nodes.push(bytes)?;
    let (mut clients, mut of_clients) = (Vec::new(alloc), Vec::new(alloc));
    open_clients(files, alloc, paths, &mut clients, &mut of_clients)?;
    Ok(Opened {
        nodes,
        clients,
        of_nodes,
        of_clients,
    })
}
