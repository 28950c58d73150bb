// The paths of files in a service's directory.

ghost use Rattle.std.specs.Prelude.{◌≡◌, IfOk, string_bytes};
ghost use Rattle.service_folders.specs.Folders.{file_path, actor_path, record_end, journal_end, batch_end};

use lock_messages::Actor;
use std::alloc::{AllocError, Global};

/// The path of an actor's record in a service's directory, as `locks/n1.record`. The only error is running out of
/// memory.
pub fn record_path(alloc: Global, folder: &str, actor: Actor) -> Result<String, AllocError>
    ensures { IfOk result (λ path. string_bytes path ≡ actor_path folder.now actor record_end) }
{
    format!(in alloc; "{folder}/{actor}.record")
}

/// The path of an actor's journal in a service's directory, as `locks/n1.journal`. The only error is running out of
/// memory.
pub fn journal_path(alloc: Global, folder: &str, actor: Actor) -> Result<String, AllocError>
    ensures { IfOk result (λ path. string_bytes path ≡ actor_path folder.now actor journal_end) }
{
    format!(in alloc; "{folder}/{actor}.journal")
}

/// The path of the mark beside a node's journal, as `locks/n1.batch`. It tells which lines belong to the batch that the node
/// let out last. The only error is running out of memory.
pub fn batch_path(alloc: Global, folder: &str, actor: Actor) -> Result<String, AllocError>
    ensures { IfOk result (λ path. string_bytes path ≡ actor_path folder.now actor batch_end) }
{
    format!(in alloc; "{folder}/{actor}.batch")
}

/// The path of a file of this name in a directory. The only error is running out of memory.
pub fn file_path(alloc: Global, folder: &str, name: &str) -> Result<String, AllocError>
    ensures { IfOk result (λ path. string_bytes path ≡ file_path folder.now name.now) }
{
    format!(in alloc; "{folder}/{name}")
}
