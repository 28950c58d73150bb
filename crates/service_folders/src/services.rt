// An opened service.

ghost use Rattle.std.specs.Prelude.{◌≡◌, ◌≤◌, true, length, IfOk, IfErr, Ok};
ghost use Rattle.lock_messages.specs.declared.ids.TheConstants.{MAX_NODES, MAX_CLIENTS};
ghost use Rattle.lock_model.specs.Ballots.{node_count};
ghost use Rattle.frame_lines.specs.Hmac.{block_of};
ghost use Rattle.service_folders.specs.Folders.{key_in, text_says, service_has};
ghost use Rattle.service_folders.specs.Makings.{JudgesText, IsKeyFault, IsTextFault, is_open_fault};

use crate::ServiceFault;
use crate::contents::{ContentFault, read_file};
use crate::keys::{MIN_KEY_LEN, key_in, read_secret};
use crate::paths::file_path;
use frame_lines::Secret;
use lock_messages::Actor;
use lock_model::Problem;
use std::alloc::Global;
use std::fs::{File, Files};
use std::marker::Model;
use vote_weights::BallotList;
use world_settings::{Command, Settings, SettingsFault, read_settings};

/// The name of the file of the settings.
pub const SETTINGS_NAME: &str = "settings.toml";

/// The name of the file of the key.
pub const SECRET_NAME: &str = "secret";

/// The most bytes of settings. As the head of a script, they end within 65,536 bytes.
pub const MAX_SETTINGS_LEN: usize = 65_535;

/// The directory of a service, opened.
///
/// Contracts see the path, the text of the settings and what it says, and the content of the file of the key.
#[derive(Drop)]
pub struct Service {
    folder: String,
    settings_text: Vec<u8>,
    told: Settings,
    // The content of the file of the key.
    content_bytes: Vec<u8>,
}

impl Model for Service {
    ghost use Rattle.std.specs.Prelude.{string_bytes};
    ghost use Rattle.service_folders.specs.Folders.{Opened, IsOpened};

    ghost Value = { Opened };

    ghost view = { λ s. record {
      path = string_bytes s.folder;
      text = s.settings_text.items;
      says = s.told;
      content = s.content_bytes.items;
    } };

    ghost invariant = { λ s. IsOpened (record {
      path = string_bytes s.folder;
      text = s.settings_text.items;
      says = s.told;
      content = s.content_bytes.items;
    }) };
}

/// What the text of settings says. The fault is that of a script with these settings.
#[tactic(auto, using(crate::proofs::SettingsFacts::refused_so))]
pub fn judge_settings(alloc: Global, text: &[u8]) -> Result<Settings, ServiceFault>
    ensures { JudgesText text.now result }
{
    if text.len() > MAX_SETTINGS_LEN {
        return Err(ServiceFault::Settings(SettingsFault::NoEnd));
    }
    match read_settings(alloc, Command::Script, text) {
        Ok(start) => Ok(start.settings),
        Err(fault) => Err(ServiceFault::Settings(fault)),
    }
}

/// Whether the service of these settings has the actor.
pub fn has_actor(settings: &Settings, actor: Actor) -> bool
    ensures { result ≡ service_has settings.now actor }
{
    match actor {
        Actor::Node(node) => node.get() <= settings.ballots.nodes(),
        Actor::Client(client) => client.get() <= u32::from(settings.clients),
    }
}

impl Service {
    /// The path of the directory, as it was given.
    pub fn path(&self) -> &str
        ensures { result.now ≡ self.now.path }
    {
        self.folder.as_str()
    }

    /// The ballots.
    pub fn ballots(&self) -> BallotList
        ensures { result ≡ self.now.says.ballots }
    {
        self.told.ballots
    }

    /// The first problem of every node.
    pub fn problem(&self) -> Problem
        ensures { result ≡ self.now.says.problem }
    {
        self.told.problem
    }

    /// How many nodes the longest ballot has: 1 to 16.
    pub fn nodes(&self) -> u8
        ensures nodes { result ≡ node_count self.now.says.ballots }
        ensures some_node { 1 ≤ result }
        ensures few_nodes { result ≤ MAX_NODES }
    {
        self.told.ballots.nodes()
    }

    /// How many clients there are: 1 to 1,024.
    pub fn clients(&self) -> u32
        ensures clients { result ≡ self.now.says.clients }
        ensures some_client { 1 ≤ result }
        ensures few_clients { result ≤ MAX_CLIENTS }
    {
        u32::from(self.told.clients)
    }

    /// Whether the service has this node or client.
    pub fn has(&self, actor: Actor) -> bool
        ensures { result ≡ service_has self.now.says actor }
    {
        has_actor(&self.told, actor)
    }

    /// The secret under which lines are tagged.
    pub fn secret(&self) -> Secret
        ensures secret { result ≡ block_of (key_in self.now.content) }
        ensures long { MIN_KEY_LEN ≤ length (key_in self.now.content) }
    {
        Secret::of(key_in(self.content_bytes.as_slice()))
    }

    /// The text of the settings, as it is in the file.
    pub fn settings(&self) -> &[u8]
        ensures text { result.now ≡ self.now.text }
        ensures says { text_says result.now ≡ Ok self.now.says }
    {
        self.settings_text.as_slice()
    }
}

/// Reads the text of the settings.
fn read_text<R: Files<File = File>>(
    files: &R,
    alloc: Global,
    folder: &str,
) -> Result<Vec<u8>, ServiceFault>
    ensures { IfErr result IsTextFault }
{
    let Ok(path) = file_path(alloc, folder, SETTINGS_NAME) else {
        return Err(ServiceFault::Memory);
    };
    match read_file(files, alloc, path.as_str(), MAX_SETTINGS_LEN) {
        Ok(text) => Ok(text),
        Err(ContentFault::Memory) => Err(ServiceFault::Memory),
        Err(ContentFault::TooLong) => Err(ServiceFault::Settings(SettingsFault::NoEnd)),
        Err(ContentFault::Unreadable) => Err(ServiceFault::NoService),
    }
}

/// Reads the content of the file of the key.
fn read_content<R: Files<File = File>>(
    files: &R,
    alloc: Global,
    folder: &str,
) -> Result<Vec<u8>, ServiceFault>
    ensures long { IfOk result (λ content. MIN_KEY_LEN ≤ length (key_in content.items)) }
    ensures faults { IfErr result IsKeyFault }
{
    let Ok(path) = file_path(alloc, folder, SECRET_NAME) else {
        return Err(ServiceFault::Memory);
    };
    read_secret(files, alloc, path.as_str())
}

/// Opens the directory of a service. It takes no lock and changes nothing.
///
/// It returns the first of these faults: 933 (out of memory), 963 (there are no settings that can be read), the
/// number of the settings' fault, 964 (the secret is missing, can't be read, or has less than 32 bytes).
pub fn open_service<R: Files<File = File>>(
    files: &R,
    alloc: Global,
    path: &str,
) -> Result<Service, ServiceFault>
    ensures path { IfOk result (λ s. s.path ≡ path.now) }
    ensures faults { IfErr result (λ fault. is_open_fault fault ≡ true) }
{
    let Ok(folder) = String::from_str(alloc, path) else {
        return Err(ServiceFault::Memory);
    };
    let settings_text = read_text(files, alloc, path)?;
    let told = judge_settings(alloc, settings_text.as_slice())?;
    let content_bytes = read_content(files, alloc, path)?;
    Ok(Service {
        folder,
        settings_text,
        told,
        content_bytes,
    })
}
