// How the directory of a new service is made.

ghost use Rattle.std.specs.Prelude.{◌≡◌, ◌&&◌, not, true, IfErr, IsTrue, IsFalse};
ghost use Rattle.service_folders.specs.Folders.{service_has};
ghost use Rattle.service_folders.specs.Parts.{part_has};
ghost use Rattle.service_folders.specs.Makings.{is_meant, seen, is_make_fault, HasNodes, LacksNode, HasClientsOf, LacksClient, IsKeyFault, Judges};

use crate::contents::{make_file, sync_folder};
use crate::keys::{new_secret, read_secret};
use crate::paths::file_path;
use crate::records::make_actor;
use crate::services::{SECRET_NAME, SETTINGS_NAME, has_actor, judge_settings};
use crate::{Part, ServiceFault};
use lock_messages::{Actor, ClientId, MAX_CLIENTS, MAX_NODES, NodeId};
use std::alloc::Global;
use std::fs::{self, File, Files};
use std::io::ErrorKind;
use world_settings::Settings;

/// The permissions of the settings, less what the process masks.
const SETTINGS_MODE: u32 = 0o644;

/// The permissions of the secret, which is for its owner alone.
const SECRET_MODE: u32 = 0o600;

/// The name that the file of the settings has until it is whole.
const DRAFT_NAME: &str = "settings.toml.new";

/// Whether the part, if there is one, has this actor. Without a part each actor is meant.
fn is_meant(part: Option<&Part>, actor: &Actor) -> bool
    ensures { result ≡ is_meant (seen part.entry) actor.now }
{
    match part {
        Some(part) => part.has(*actor),
        None => true,
    }
}

/// Whether the part has an actor that the service lacks.
fn is_unknown(settings: &Settings, part: &Part, actor: &Actor) -> bool
    ensures { result ≡ (part_has part.now actor.now && not (service_has settings.now actor.now)) }
{
    part.has(*actor) && !has_actor(settings, *actor)
}

/// Whether the service has each node of the part.
fn has_nodes(settings: &Settings, part: &Part) -> bool
    ensures has { IsTrue result → HasNodes settings.now part.now }
    ensures lacks { IsFalse result → LacksNode settings.now part.now }
{
    for number in 1..MAX_NODES + 1 {
        if let Some(node) = NodeId::of(number) {
            let actor = Actor::Node(node);
            if is_unknown(settings, part, &actor) {
                return false;
            }
        }
    }
    true
}

/// Whether the service has each client of the part.
fn has_clients(settings: &Settings, part: &Part) -> bool
    ensures has { IsTrue result → HasClientsOf settings.now part.now }
    ensures lacks { IsFalse result → LacksClient settings.now part.now }
{
    for number in 1..MAX_CLIENTS + 1 {
        if let Some(client) = ClientId::of(number) {
            let actor = Actor::Client(client);
            if is_unknown(settings, part, &actor) {
                return false;
            }
        }
    }
    true
}

/// What the settings say, if they have each actor of the part.
fn judge(alloc: Global, text: &[u8], part: Option<&Part>) -> Result<Settings, ServiceFault>
    ensures judged { Judges text.now (seen part.entry) result }
    ensures faults { IfErr result (λ fault. is_make_fault fault ≡ true) }
{
    let settings = judge_settings(alloc, text)?;
    match part {
        Some(part) if !has_nodes(&settings, part) || !has_clients(&settings, part) => {
            Err(ServiceFault::NoActor)
        }
        _ => Ok(settings),
    }
}

/// The content of the file of the key: that of the file that is named, or a new one.
fn choose_secret<R: Files<File = File>>(
    files: &R,
    alloc: Global,
    secret: Option<&str>,
) -> Result<Vec<u8>, ServiceFault>
    ensures { IfErr result IsKeyFault }
{
    match secret {
        Some(path) => read_secret(files, alloc, path),
        None => new_secret(files, alloc),
    }
}

/// Whether a directory has no file. The faults are 962 and 933.
fn is_empty<R: Files<File = File>>(
    files: &R,
    alloc: Global,
    path: &str,
) -> Result<bool, ServiceFault>
    ensures { IfErr result (λ fault. is_make_fault fault ≡ true) }
{
    let mut names = match fs::read_dir(&(files, alloc), path) {
        Ok(names) => names,
        Err(error) if error.kind() == ErrorKind::OutOfMemory => return Err(ServiceFault::Memory),
        Err(_) => return Err(ServiceFault::Unwritable),
    };
    match names.next() {
        None => Ok(true),
        Some(Ok(_)) => Ok(false),
        Some(Err(error)) if error.kind() == ErrorKind::OutOfMemory => Err(ServiceFault::Memory),
        Some(Err(_)) => Err(ServiceFault::Unwritable),
    }
}

/// Makes the name of a new directory last.
fn sync_name<R: Files<File = File>>(
    files: &R,
    alloc: Global,
    path: &str,
) -> Result<(), ServiceFault>
    ensures { IfErr result (λ fault. is_make_fault fault ≡ true) }
{
    match file_path(alloc, path, "..") {
        Ok(parent) => sync_folder(files, parent.as_str()),
        Err(_) => Err(ServiceFault::Memory),
    }
}

/// Makes the directory, or finds it empty.
fn make_folder<R: Files<File = File>>(
    files: &R,
    alloc: Global,
    path: &str,
) -> Result<(), ServiceFault>
    ensures { IfErr result (λ fault. is_make_fault fault ≡ true) }
{
    match fs::create_dir(files, path) {
        Ok(()) => sync_name(files, alloc, path),
        Err(error) if error.kind() == ErrorKind::AlreadyExists => {
            if is_empty(files, alloc, path)? {
                Ok(())
            } else {
                Err(ServiceFault::NotEmpty)
            }
        }
        Err(_) => Err(ServiceFault::Unwritable),
    }
}

/// Makes the file of the key.
fn make_secret<R: Files<File = File>>(
    files: &R,
    alloc: Global,
    folder: &str,
    content: &[u8],
) -> Result<(), ServiceFault>
    ensures { IfErr result (λ fault. is_make_fault fault ≡ true) }
{
    match file_path(alloc, folder, SECRET_NAME) {
        Ok(path) => make_file(files, path.as_str(), SECRET_MODE, content),
        Err(_) => Err(ServiceFault::Memory),
    }
}

/// Makes the files of each node that is meant.
fn make_nodes<R: Files<File = File>>(
    files: &R,
    alloc: Global,
    folder: &str,
    settings: &Settings,
    part: Option<&Part>,
) -> Result<(), ServiceFault>
    ensures { IfErr result (λ fault. is_make_fault fault ≡ true) }
{
    for number in 1..settings.ballots.nodes() + 1 {
        if let Some(node) = NodeId::of(number) {
            let actor = Actor::Node(node);
            if is_meant(part, &actor) {
                make_actor(files, alloc, folder, settings.problem, &actor)?;
            }
        }
    }
    Ok(())
}

/// Makes the files of each client that is meant.
fn make_clients<R: Files<File = File>>(
    files: &R,
    alloc: Global,
    folder: &str,
    settings: &Settings,
    part: Option<&Part>,
) -> Result<(), ServiceFault>
    ensures { IfErr result (λ fault. is_make_fault fault ≡ true) }
{
    for number in 1..u32::from(settings.clients) + 1 {
        if let Some(client) = ClientId::of(number) {
            let actor = Actor::Client(client);
            if is_meant(part, &actor) {
                make_actor(files, alloc, folder, settings.problem, &actor)?;
            }
        }
    }
    Ok(())
}

/// Makes the file of the settings. It has another name until it is whole.
fn make_settings<R: Files<File = File>>(
    files: &R,
    alloc: Global,
    folder: &str,
    text: &[u8],
) -> Result<(), ServiceFault>
    ensures { IfErr result (λ fault. is_make_fault fault ≡ true) }
{
    let Ok(draft) = file_path(alloc, folder, DRAFT_NAME) else {
        return Err(ServiceFault::Memory);
    };
    let Ok(path) = file_path(alloc, folder, SETTINGS_NAME) else {
        return Err(ServiceFault::Memory);
    };
    make_file(files, draft.as_str(), SETTINGS_MODE, text)?;
    if fs::rename(files, draft.as_str(), path.as_str()).is_err() {
        return Err(ServiceFault::Unwritable);
    }
    sync_folder(files, folder)
}

/// Makes the directory of a new service: its settings, its secret, and a record and an inbox for each actor of the part,
/// or for each actor. The directory's parent has to exist. The directory itself must be missing or empty.
///
/// With a file for the secret, its content is copied. Else the secret is new: 32 random bytes as hexadecimal digits.
///
/// The settings get their name last. So if it is interrupted or returns a fault, the directory is no service, or a whole
/// one: after 962 it may be there. Remove it before the next try.
///
/// It returns the first of these faults: the number of the settings' fault, 965 (the settings lack an actor of the
/// part), 964 (the secret's file can't be read, or its first line has less than 32 bytes), 961 (the directory is not
/// empty), 962 (the directory or a file in it can't be made), those of `create_record` for a record, and 933 (out of
/// memory) at any moment.
pub fn make_service<R: Files<File = File>>(
    files: &R,
    alloc: Global,
    path: &str,
    settings: &[u8],
    part: Option<Part>,
    secret: Option<&str>,
) -> Result<(), ServiceFault>
    ensures judged { Judges settings.now part result }
    ensures faults { IfErr result (λ fault. is_make_fault fault ≡ true) }
{
    let told = judge(alloc, settings, part.as_ref())?;
    let content = choose_secret(files, alloc, secret)?;
    make_folder(files, alloc, path)?;
    make_secret(files, alloc, path, content.as_slice())?;
    make_nodes(files, alloc, path, &told, part.as_ref())?;
    make_clients(files, alloc, path, &told, part.as_ref())?;
    make_settings(files, alloc, path, settings)
}
