// Files as they are read.

ghost use Rattle.std.specs.Prelude.{◌≡◌, ◌⊎◌, IfOk, IfErr};
ghost use Rattle.record_view.specs.Views.{IsWhole, IsLookFault};

use file_plate::FileFault;
use rotating_record::ROTATING_PLATE_LEN;
use slot_record::LEAST_PLATE_LEN;
use std::alloc::Global;
use std::fs::{self, File, Files, OpenOptions};
use std::io::{self, ErrorKind};
use std::os::unix::fs::FileExt;

/// A file as it was read.
#[derive(Drop)]
pub struct SeenFile {
    /// How many bytes it has.
    pub size: u64,
    /// Its bytes if it has the size of a record with two or three slots, else none.
    pub bytes: Vec<u8>,
    /// Whether it can be opened for writing.
    pub writable: bool,
}

/// The fault of a file that the operating system doesn't give.
fn refused(error: io::Error) -> FileFault
    ensures { (result ≡ FileFault.Missing) ⊎ (result ≡ FileFault.Unreadable) }
{
    if error.kind() == ErrorKind::NotFound {
        return FileFault::Missing;
    }
    FileFault::Unreadable
}

/// Opens a regular file to read it. A pipe is not opened, since that may wait.
fn open_to_read<R: Files<File = File>>(files: &R, path: &str) -> Result<File, FileFault>
    ensures { IfErr result (λ fault. (fault ≡ FileFault.Missing) ⊎ (fault ≡ FileFault.Unreadable)) }
{
    match fs::metadata(files, path) {
        Ok(found) if found.is_file() => {}
        Ok(_) => return Err(FileFault::Unreadable),
        Err(error) => return Err(refused(error)),
    }
    match File::open(files, path) {
        Ok(file) => Ok(file),
        Err(error) => Err(refused(error)),
    }
}

/// Whether a file can be opened as a record is. It is opened and nothing is written.
fn can_write<R: Files<File = File>>(files: &R, path: &str) -> bool {
    let opened = OpenOptions::new().read(true).write(true).open(files, path);
    opened.is_ok()
}

/// Reads a file. If its size is not that of a record, it reads no byte.
///
/// It returns 942 (no such file), 945 (it can't be read, or is no regular file) or 933 (out of memory).
pub(crate) fn read_file<R: Files<File = File>>(
    files: &R,
    alloc: Global,
    path: &str,
) -> Result<SeenFile, FileFault>
    ensures whole { IfOk result (λ f. IsWhole f) }
    ensures faults { IfErr result (λ fault. IsLookFault fault) }
{
    let file = open_to_read(files, path)?;
    let Ok(found) = file.metadata() else {
        return Err(FileFault::Unreadable);
    };
    let size = found.len();
    let writable = can_write(files, path);
    let has_size = size == u64::from(LEAST_PLATE_LEN) || size == u64::from(ROTATING_PLATE_LEN);
    let length = if has_size { size as usize } else { 0 };
    let Ok(mut bytes) = vec![in alloc; 0u8; length] else {
        return Err(FileFault::Memory);
    };
    if file.read_exact_at(&mut bytes, 0).is_err() {
        return Err(FileFault::Unreadable);
    }
    Ok(SeenFile {
        size,
        bytes,
        writable,
    })
}
