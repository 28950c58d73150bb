// Files of the operating system, and how a record's file is opened.

ghost use Rattle.std.specs.Prelude.{◌≡◌, ◌⊎◌, [], IfOk, IfErr};
ghost use Rattle.file_plate.specs.FileFaults.{IsHoldFault};

use crate::noting::{note_reading, note_settling, note_syncing, note_writing};
use crate::{FileFault, Medium};
use event_lists::CallList;
use std::fs::{self, File, Files, OpenOptions, TryLockError};
use std::io::{self, ErrorKind};
use std::os::unix::fs::FileExt;

/// An open file. Each call of it makes one call of the operating system and notes what came of it.
#[derive(Drop)]
pub struct DiskFile {
    file: File,
    calls: CallList,
}

impl DiskFile {
    /// A file of which nothing has been asked.
    pub fn of(file: File) -> DiskFile
        ensures { result.calls.items ≡ [] }
    {
        DiskFile {
            file,
            calls: CallList::new(),
        }
    }
}

impl Medium for DiskFile {
    ghost use Rattle.std.specs.Prelude.{map};
    ghost use Rattle.file_plate.specs.Media.{noted_call};

    ghost asked = { λ f. map noted_call f.calls.items };

    fn settle(&mut self) -> io::Result<()> {
        let answer = self.file.sync_all();
        note_settling(&mut self.calls, &answer);
        answer
    }

    fn read_at(&mut self, at: u32, buffer: &mut [u8]) -> io::Result<()> {
        let answer = self.file.read_exact_at(buffer, u64::from(at));
        note_reading(&mut self.calls, at, buffer, &answer);
        answer
    }

    fn write_at(&mut self, at: u32, bytes: &[u8]) -> io::Result<()> {
        let answer = self.file.write_all_at(bytes, u64::from(at));
        note_writing(&mut self.calls, at, bytes, &answer);
        answer
    }

    fn sync(&mut self) -> io::Result<()> {
        let answer = self.file.sync_data();
        note_syncing(&mut self.calls, &answer);
        answer
    }
}

/// Takes the file's exclusive lock, which lasts until the file is dropped. It returns 941 (another process has
/// it) or 945 (the file can't be locked).
pub fn take_lock(file: &File) -> Result<(), FileFault>
    ensures { IfErr result (λ fault. (fault ≡ FileFault.Held) ⊎ (fault ≡ FileFault.Unreadable)) }
{
    match file.try_lock() {
        Ok(()) => Ok(()),
        Err(TryLockError::WouldBlock) => Err(FileFault::Held),
        Err(TryLockError::Error(_)) => Err(FileFault::Unreadable),
    }
}

/// Whether there is a file of this name, a link to nothing among them. It returns 945 if the name can't be
/// looked up.
pub fn is_there<R: Files>(files: &R, path: &str) -> Result<bool, FileFault>
    ensures { IfErr result (λ fault. fault ≡ FileFault.Unreadable) }
{
    match fs::symlink_metadata(files, path) {
        Ok(_) => Ok(true),
        Err(error) if error.kind() == ErrorKind::NotFound => Ok(false),
        Err(_) => Err(FileFault::Unreadable),
    }
}

fn open_file<R: Files<File = File>>(files: &R, path: &str) -> Result<File, FileFault>
    ensures { IfErr result (λ fault. (fault ≡ FileFault.Missing) ⊎ (fault ≡ FileFault.Unreadable)) }
{
    match OpenOptions::new().read(true).write(true).open(files, path) {
        Ok(file) => Ok(file),
        Err(error) if error.kind() == ErrorKind::NotFound => Err(FileFault::Missing),
        Err(_) => Err(FileFault::Unreadable),
    }
}

/// Opens the file of a record, and holds an exclusive lock on it until it is dropped. It reads and writes
/// nothing.
///
/// The first of these is answered: 942 (there is no such file), 945 (it can't be opened), 941 (another
/// process holds it), 945 (it can't be locked, or is no regular file), 943 (it hasn't this size).
pub fn hold<R: Files<File = File>>(files: &R, path: &str, size: u32) -> Result<DiskFile, FileFault>
    ensures fresh { IfOk result (λ f. f.calls.items ≡ []) }
    ensures faults { IfErr result (λ fault. IsHoldFault fault) }
{
    let file = open_file(files, path)?;
    take_lock(&file)?;
    let Ok(found) = file.metadata() else {
        return Err(FileFault::Unreadable);
    };
    if !found.is_file() {
        return Err(FileFault::Unreadable);
    }
    if found.len() != u64::from(size) {
        return Err(FileFault::WrongSize);
    }
    Ok(DiskFile::of(file))
}
