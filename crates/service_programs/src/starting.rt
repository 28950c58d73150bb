// What a process opens before its actor rises.

ghost use Rattle.std.specs.Prelude.{◌≡◌, ◌∷◌, [], false, IfOk};

use file_plate::FileFault;
use file_records::{FileRecord, open_record};
use line_link::{Folder, Limit, LineLink, Pauses};
use lock_messages::Actor;
use service_folders::{Service, ServiceFault, record_path};
use std::alloc::Global;
use std::fs::{self, File, Files};
use std::sync::Wait;
use std::thread;
use std::time::{Clock, Duration};

/// How often a record is tried that another process holds. `rwvote status` holds a record for a moment, and a reaper for the
/// life that releases.
pub(crate) const TRIES: u32 = 50;

/// How many milliseconds are between two tries.
pub(crate) const BETWEEN_TRIES: u64 = 10;

/// By how many nanoseconds a sleep may be late. Linux allows 50 microseconds, which is as long as the first sleep of a link.
const SLACK: &str = "1000";

/// Lets the sleeps of this process end in time, if the system has such a setting.
pub(crate) fn wake_in_time<F: Files<File = File>>(files: &F) {
    let _ = fs::write(files, "/proc/self/timerslack_ns", SLACK);
}

/// Opens the record of the actor. It must be there: a new record would make the actor forget what it has promised.
pub(crate) fn open_own<F: Files<File = File>>(
    files: &F,
    alloc: Global,
    folder: &str,
    actor: Actor,
) -> Result<(FileRecord, Vec<u8>), ServiceFault>
    ensures { IfOk result (λ r. r.0.finds ≡ r.1.items ∷ []) }
{
    let Ok(path) = record_path(alloc, folder, actor) else {
        return Err(ServiceFault::Memory);
    };
    match open_record(files, alloc, path.as_str()) {
        Ok(found) => Ok(found),
        Err(FileFault::Memory) => Err(ServiceFault::Memory),
        Err(fault) => Err(ServiceFault::Record(fault)),
    }
}

/// Whether a record was not opened because another process holds it.
pub(crate) fn is_held(opened: &Result<(FileRecord, Vec<u8>), ServiceFault>) -> bool {
    matches!(opened, Err(ServiceFault::Record(FileFault::Held)))
}

/// Opens the record of the actor, and waits for a moment if a process holds it.
pub(crate) fn wait_for_own<F: Files<File = File> + Clock>(
    rt: &F,
    alloc: Global,
    folder: &str,
    actor: &Actor,
) -> Result<(FileRecord, Vec<u8>), ServiceFault>
    ensures { IfOk result (λ r. r.0.finds ≡ r.1.items ∷ []) }
{
    for _ in 1..TRIES {
        let opened = open_own(rt, alloc, folder, *actor);
        if !is_held(&opened) {
            return opened;
        }
        thread::sleep(rt, Duration::from_millis(BETWEEN_TRIES));
    }
    open_own(rt, alloc, folder, *actor)
}

/// The inboxes of the service's directory, as the actor sees them. 967: its own can't be opened.
fn own_folder<R: Files<File = File> + Drop>(
    rt: R,
    alloc: Global,
    service: &Service,
    actor: &Actor,
) -> Result<Folder<R>, ServiceFault> {
    match Folder::open(rt, alloc, service.path(), *actor) {
        Ok(folder) => Ok(folder),
        Err(_) => Err(ServiceFault::NoInbox),
    }
}

/// The link of an actor over the inboxes of the service's directory. The faults are 967 (the actor's inbox can't be
/// opened) and 933 (out of memory).
pub(crate) fn folder_link<R: Wait + Clock + Copy + Files<File = File> + Drop>(
    rt: R,
    alloc: Global,
    service: &Service,
    actor: &Actor,
    pauses: Pauses,
    limit: Option<Limit>,
) -> Result<LineLink<R, Folder<R>>, ServiceFault> {
    let outgoing = service.secret();
    let incoming = service.secret();
    let secrets = (outgoing, incoming);
    let folder = own_folder(rt, alloc, service, actor)?;
    Ok(LineLink::over(rt, alloc, *actor, secrets, folder, pauses, limit))
}
