// The records and inboxes of new actors.

ghost use Rattle.std.specs.Prelude.{◌≡◌, true, [], ◌∷◌, IfOk, IfErr, List, ℕ, Some};
ghost use Rattle.file_plate.specs.FilePlates.{file_state};
ghost use Rattle.rotating_record.specs.Slots.{record_on};
ghost use Rattle.service_folders.specs.Folders.{new_record, new_node_record};
ghost use Rattle.service_folders.specs.Makings.{is_make_fault};

use crate::ServiceFault;
use crate::contents::new_file;
use crate::paths::record_path;
use file_records::{FileRecord, create_record};
use line_link::inbox_path;
use lock_messages::Actor;
use lock_model::Problem;
use stable_record::{Entries, NodeRecord, client_bytes, node_bytes};
use std::alloc::{AllocError, Global};
use std::fs::{File, Files};

/// The permissions of an inbox, less what the process masks: its owner and its group append to it.
const INBOX_MODE: u32 = 0o660;

/// The record of a node that kept nothing yet.
fn node_record(alloc: Global, problem: Problem) -> Result<Vec<u8>, AllocError>
    ensures { IfOk result (λ bytes. bytes.items ≡ new_node_record problem) }
{
    let empty = NodeRecord {
        problem,
        entries: Entries::new(alloc),
    };
    match node_bytes(alloc, &empty) {
        Ok(bytes) => Ok(bytes),
        Err(_) => Err(AllocError),
    }
}

/// The record of an actor that kept nothing yet.
fn new_bytes(alloc: Global, problem: Problem, actor: &Actor) -> Result<Vec<u8>, AllocError>
    ensures { IfOk result (λ bytes. bytes.items ≡ new_record problem actor.now) }
{
    match actor {
        Actor::Node(_) => node_record(alloc, problem),
        Actor::Client(_) => Vec::from_slice(alloc, &client_bytes(0)),
    }
}

/// Makes the record of an actor that kept nothing yet.
fn make_record<R: Files<File = File>>(
    files: &R,
    alloc: Global,
    folder: &str,
    problem: Problem,
    actor: &Actor,
) -> Result<FileRecord, ServiceFault>
    ensures faults { IfErr result (λ fault. is_make_fault fault ≡ true) }
    ensures made { IfOk result (λ r. r.finds ≡ new_record problem actor.now ∷ []) }
    // Whatever a crash leaves from now on, opening finds just these bytes.
    ensures lasts { IfOk result (λ r. (c : List ℕ) → (file_state r.plate).may_leave c → record_on c ≡ Some (1, new_record problem actor.now)) }
{
    let Ok(bytes) = new_bytes(alloc, problem, actor) else {
        return Err(ServiceFault::Memory);
    };
    let Ok(path) = record_path(alloc, folder, *actor) else {
        return Err(ServiceFault::Memory);
    };
    match create_record(files, alloc, path.as_str(), bytes.as_slice()) {
        Ok(record) => Ok(record),
        Err(fault) => Err(ServiceFault::Record(fault)),
    }
}

/// Makes an actor's empty inbox. It needs no sync of its own: its name lasts with that of the settings.
fn make_inbox<R: Files<File = File>>(
    files: &R,
    alloc: Global,
    folder: &str,
    actor: &Actor,
) -> Result<(), ServiceFault>
    ensures { IfErr result (λ fault. is_make_fault fault ≡ true) }
{
    let Ok(path) = inbox_path(alloc, folder, *actor) else {
        return Err(ServiceFault::Memory);
    };
    new_file(files, path.as_str(), INBOX_MODE)?;
    Ok(())
}

/// Makes the files of a new actor: its record and its inbox.
pub fn make_actor<R: Files<File = File>>(
    files: &R,
    alloc: Global,
    folder: &str,
    problem: Problem,
    actor: &Actor,
) -> Result<(), ServiceFault>
    ensures { IfErr result (λ fault. is_make_fault fault ≡ true) }
{
    make_record(files, alloc, folder, problem, actor)?;
    make_inbox(files, alloc, folder, actor)
}
