// New records, which are written under another name first.

ghost use Rattle.std.specs.Prelude.{◌≡◌, ◌⊎◌, ◌≤◌, false, [], ◌∷◌, length, Some, IfOk, IfErr, List, ℕ};
ghost use Rattle.file_plate.specs.FilePlates.{file_state};
ghost use Rattle.file_plate.specs.FileFaults.{IsOverFault};
ghost use Rattle.rotating_record.specs.Slots.{record_on};
ghost use Rattle.file_records.specs.Faults.{IsDraftFault};

use crate::FileRecord;
use file_plate::{DiskFile, FileFault, FilePlate, is_there, take_lock};
use rotating_record::{ROTATING_PLATE_LEN, RotatingRecord};
use stable_record::MAX_RECORD_LEN;
use std::alloc::Global;
use std::fs::{self, File, Files, OpenOptions};
use std::os::unix::fs::{FileExt, MetadataExt};

/// A new record's file, which has another name than the record, and an exclusive lock.
///
/// Only the process that has the lock removes the name or gives the file the record's own name. So a file that has the
/// record's own name is always a whole one, whatever moment the power goes.
#[derive(Drop)]
pub(crate) struct Draft<'p> {
    path: &'p str,
    name: String,
    file: File,
}

/// A draft on whose own file a record was made. Only `Draft::write` makes one, so no other file can get the record's
/// name.
#[derive(Drop)]
pub(crate) struct Written<'p> {
    path: &'p str,
    name: String,
    file: File,
    made: FileRecord,
}

/// The folder that a file of this name is in.
fn folder_of(path: &str) -> &str {
    match path.rsplit_once('/') {
        Some(("", _)) => "/",
        Some((folder, _)) => folder,
        None => ".",
    }
}

/// Opens the file of this name, or makes it, and leaves what it holds.
fn open_or_make<R: Files<File = File>>(files: &R, name: &str) -> Result<File, FileFault>
    ensures { IfErr result (λ fault. fault ≡ FileFault.Unwritable) }
{
    let opened = OpenOptions::new()
        .read(true)
        .write(true)
        .create(true)
        .open(files, name);
    match opened {
        Ok(file) => Ok(file),
        Err(_) => Err(FileFault::Unwritable),
    }
}

/// Whether this is the file that has the name now.
fn is_named<R: Files>(files: &R, file: &File, name: &str) -> bool {
    let (Ok(own), Ok(named)) = (file.metadata(), fs::metadata(files, name)) else {
        return false;
    };
    own.is_file() && own.dev() == named.dev() && own.ino() == named.ino()
}

/// Removes this file's name, if it has it and it can. The caller holds the file's lock.
fn take_away<R: Files>(files: &R, file: &File, name: &str) {
    if is_named(files, file, name) {
        let _ = fs::remove_file(files, name);
    }
}

/// Gives a file this many bytes, all of them 0, each with its place on the device.
fn clear(file: &File, alloc: Global, size: u32) -> Result<(), FileFault>
    ensures { IfErr result (λ fault. (fault ≡ FileFault.Memory) ⊎ (fault ≡ FileFault.Unwritable)) }
{
    let Ok(zeros) = vec![in alloc; 0u8; size as usize] else {
        return Err(FileFault::Memory);
    };
    if file.set_len(u64::from(size)).is_err() || file.write_all_at(&zeros, 0).is_err() {
        return Err(FileFault::Unwritable);
    }
    Ok(())
}

/// A record of these bytes on a file that holds none.
fn formatted(alloc: Global, file: DiskFile, bytes: &[u8]) -> Result<FileRecord, FileFault>
    requires fresh { file.calls.items ≡ [] }
    requires fits { length bytes.now ≤ MAX_RECORD_LEN }
    ensures made { IfOk result (λ r. (r.finds ≡ bytes.now ∷ []) × (r.sequence ≡ 1) × (r.stuck ≡ false)) }
    ensures lasts { IfOk result (λ r. (c : List ℕ) → (file_state r.plate).may_leave c → record_on c ≡ Some (1, bytes.now)) }
    ensures fine { IfOk result (λ r. (file_state r.plate).failures ≡ 0) }
    ensures faults { IfErr result (λ fault. IsOverFault fault) }
{
    let plate = FilePlate::over(alloc, file, ROTATING_PLATE_LEN)?;
    match RotatingRecord::format(alloc, plate, bytes) {
        Ok(record) => Ok(record),
        // The plate has the right size and the bytes fit, so a write or a sync failed.
        Err(_) => Err(FileFault::Unwritable),
    }
}

impl<'p> Draft<'p> {
    /// Makes the file that a new record is written to: the record's name with `.new` behind it. It holds an
    /// exclusive lock on the file until the file is dropped. What a process left there that ended before
    /// is written over.
    ///
    /// It returns the first of these faults: 945 (the record's name can't be looked up), 947 (it is taken),
    /// 933 (out of memory), 946 (the file can't be made), 941 (another process makes this record), 945 (the
    /// file can't be locked), 945, 947, 946, 933, 946 (the file can't have so many bytes). It then removes
    /// the file, if it can.
    pub(crate) fn begin<R: Files<File = File>>(
        files: &R,
        alloc: Global,
        path: &'p str,
    ) -> Result<Draft<'p>, FileFault>
        ensures { IfErr result (λ fault. IsDraftFault fault) }
    {
        if is_there(files, path)? {
            return Err(FileFault::Exists);
        }
        let Ok(name) = format!(in alloc; "{path}.new") else {
            return Err(FileFault::Memory);
        };
        let file = open_or_make(files, name.as_str())?;
        take_lock(&file)?;
        // Another process may have finished the same record before the lock was taken.
        if is_there(files, path)? {
            take_away(files, &file, name.as_str());
            return Err(FileFault::Exists);
        }
        if !is_named(files, &file, name.as_str()) {
            return Err(FileFault::Unwritable);
        }
        if let Err(fault) = clear(&file, alloc, ROTATING_PLATE_LEN) {
            take_away(files, &file, name.as_str());
            return Err(fault);
        }
        Ok(Draft { path, name, file })
    }

    /// Makes a record of these bytes on the draft's file. With a fault it removes the file, if it can: 946 (the file
    /// can't be written or synced), 945 (it can't be read) or 933 (out of memory).
    pub(crate) fn write<R: Files>(
        self,
        files: &R,
        alloc: Global,
        bytes: &[u8],
    ) -> Result<Written<'p>, FileFault>
        requires { length bytes.now ≤ MAX_RECORD_LEN }
        ensures made { IfOk result (λ w. (w.made.finds ≡ bytes.now ∷ []) × (w.made.sequence ≡ 1) × (w.made.stuck ≡ false)) }
        ensures lasts { IfOk result (λ w. (c : List ℕ) → (file_state w.made.plate).may_leave c → record_on c ≡ Some (1, bytes.now)) }
        ensures fine { IfOk result (λ w. (file_state w.made.plate).failures ≡ 0) }
        ensures faults { IfErr result (λ fault. IsOverFault fault) }
    {
        let Draft { path, name, file } = self;
        // The plate has a handle of its own, so the lock lasts until the name is removed.
        let made = match file.try_clone() {
            Ok(own) => formatted(alloc, DiskFile::of(own), bytes),
            Err(_) => Err(FileFault::Unwritable),
        };
        match made {
            Ok(made) => Ok(Written {
                path,
                name,
                file,
                made,
            }),
            Err(fault) => {
                take_away(files, &file, name.as_str());
                Err(fault)
            }
        }
    }
}

impl<'p> Written<'p> {
    /// Gives the file the record's own name, makes sure of the name, and returns the record. The caller owes that the
    /// record is not stuck, so that what it keeps is synced. The only fault is 946.
    pub(crate) fn publish<R: Files<File = File>>(self, files: &R) -> Result<FileRecord, FileFault>
        requires { self.made.stuck ≡ false }
        ensures same { IfOk result (λ r. r ≡ self.entry.made) }
        ensures faults { IfErr result (λ fault. fault ≡ FileFault.Unwritable) }
    {
        let Written {
            path,
            name,
            file,
            made,
        } = self;
        if fs::rename(files, name.as_str(), path).is_err() {
            take_away(files, &file, name.as_str());
            return Err(FileFault::Unwritable);
        }
        match File::open(files, folder_of(path)) {
            Ok(folder) if folder.sync_all().is_ok() => Ok(made),
            _ => Err(FileFault::Unwritable),
        }
    }
}
