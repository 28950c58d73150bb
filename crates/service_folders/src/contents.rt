// Small files, read and made whole.

ghost use Rattle.std.specs.Prelude.{◌≡◌, ◌≤◌, length, IfOk, IfErr};

use crate::ServiceFault;
use std::alloc::Global;
use std::fs::{File, Files, OpenOptions};
use std::io::{self, Read, Write};
use std::os::unix::fs::OpenOptionsExt;

/// Why a small file can't be read.
#[derive(Clone, Copy, Debug, PartialEq, Eq)]
pub enum ContentFault {
    /// It is missing, can't be opened or can't be read.
    Unreadable,
    /// It has more bytes than it may.
    TooLong,
    /// Out of memory.
    Memory,
}

/// Reads what is left of a file, or so many bytes of it.
fn read_up_to(alloc: Global, file: File, most: usize) -> Result<Vec<u8>, ContentFault> {
    let mut bytes = Vec::new(alloc);
    match file.take(most as u64).read_to_end(&mut bytes) {
        Ok(_) => Ok(bytes),
        Err(error) if error.kind() == io::ErrorKind::OutOfMemory => Err(ContentFault::Memory),
        Err(_) => Err(ContentFault::Unreadable),
    }
}

/// The bytes of a file that has at most `most` of them.
pub fn read_file<R: Files<File = File>>(
    files: &R,
    alloc: Global,
    path: &str,
    most: usize,
) -> Result<Vec<u8>, ContentFault>
    ensures { IfOk result (λ bytes. length bytes.items ≤ most) }
{
    let Ok(file) = File::open(files, path) else {
        return Err(ContentFault::Unreadable);
    };
    let bytes = read_up_to(alloc, file, most.saturating_add(1))?;
    if bytes.len() > most {
        return Err(ContentFault::TooLong);
    }
    Ok(bytes)
}

/// Makes a new file without bytes and with these permissions, less what the process masks. The only fault is 962.
pub fn new_file<R: Files<File = File>>(
    files: &R,
    path: &str,
    mode: u32,
) -> Result<File, ServiceFault>
    ensures { IfErr result (λ fault. fault ≡ ServiceFault.Unwritable) }
{
    let mut how = OpenOptions::new();
    how.write(true).create_new(true).mode(mode);
    match how.open(files, path) {
        Ok(file) => Ok(file),
        Err(_) => Err(ServiceFault::Unwritable),
    }
}

/// Makes a new file with these bytes and these permissions, less what the process masks, and syncs it. The only fault
/// is 962.
pub fn make_file<R: Files<File = File>>(
    files: &R,
    path: &str,
    mode: u32,
    bytes: &[u8],
) -> Result<(), ServiceFault>
    ensures { IfErr result (λ fault. fault ≡ ServiceFault.Unwritable) }
{
    let mut file = new_file(files, path, mode)?;
    if file.write_all(bytes).is_err() || file.sync_all().is_err() {
        return Err(ServiceFault::Unwritable);
    }
    Ok(())
}

/// Syncs a directory, so that the names in it last. The only fault is 962.
pub fn sync_folder<R: Files<File = File>>(files: &R, path: &str) -> Result<(), ServiceFault>
    ensures { IfErr result (λ fault. fault ≡ ServiceFault.Unwritable) }
{
    match File::open(files, path) {
        Ok(folder) if folder.sync_all().is_ok() => Ok(()),
        _ => Err(ServiceFault::Unwritable),
    }
}
