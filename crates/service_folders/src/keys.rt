// The key of a service.

ghost use Rattle.std.specs.Prelude.{◌≡◌, ◌≤◌, ◌++◌, nat_le, length, codes, IfOk, IfErr};
ghost use Rattle.hex.specs.Hex.{encode_lower};
ghost use Rattle.service_folders.specs.Folders.{key_in, IsNewSecret};
ghost use Rattle.service_folders.specs.Makings.{IsKeyFault};

use crate::ServiceFault;
use crate::contents::{ContentFault, read_file};
use crate::cuts::cut;
use std::alloc::{AllocError, Global};
use std::fs::{File, Files};
use std::io::Read;

/// The fewest bytes of a key.
pub const MIN_KEY_LEN: usize = 32;

/// The most bytes of the file of a key.
const MAX_KEY_FILE_LEN: usize = 4_096;

/// How many random bytes a new key has. Each is written as two digits.
pub const RANDOM_LEN: usize = 32;

/// The key in the content of its file: the bytes of the first line, without its line feed.
pub fn key_in(content: &[u8]) -> &[u8]
    ensures { result.now ≡ key_in content.now }
{
    let (first, _) = cut(content, b'\n');
    first
}

/// Whether the content of a file has a key that is long enough.
fn has_key(content: &[u8]) -> bool
    ensures { result ≡ nat_le MIN_KEY_LEN (length (key_in content.now)) }
{
    key_in(content).len() >= MIN_KEY_LEN
}

/// Reads the content of the file of a key. It returns 964 (it can't be read, has more than 4,096 bytes, or its key has
/// less than 32) or 933 (out of memory).
pub fn read_secret<R: Files<File = File>>(
    files: &R,
    alloc: Global,
    path: &str,
) -> Result<Vec<u8>, ServiceFault>
    ensures long { IfOk result (λ content. MIN_KEY_LEN ≤ length (key_in content.items)) }
    ensures faults { IfErr result IsKeyFault }
{
    let content = match read_file(files, alloc, path, MAX_KEY_FILE_LEN) {
        Ok(content) => content,
        Err(ContentFault::Memory) => return Err(ServiceFault::Memory),
        Err(_) => return Err(ServiceFault::NoSecret),
    };
    if !has_key(content.as_slice()) {
        return Err(ServiceFault::NoSecret);
    }
    Ok(content)
}

/// The digits of these bytes, and a line feed.
fn spelled(alloc: Global, bytes: &[u8]) -> Result<Vec<u8>, AllocError>
    ensures { IfOk result (λ content. content.items ≡ encode_lower bytes.now ++ codes "\n") }
{
    let digits = hex::encode(alloc, bytes)?;
    let mut content = Vec::from_slice(alloc, digits.as_bytes())?;
    content.push(b'\n')?;
    Ok(content)
}

/// Makes the content of the file of a new key, from random bytes. It returns 964 (there are no random bytes) or 933
/// (out of memory).
pub fn new_secret<R: Files<File = File>>(files: &R, alloc: Global) -> Result<Vec<u8>, ServiceFault>
    ensures digits { IfOk result (λ content. IsNewSecret content.items) }
    ensures faults { IfErr result IsKeyFault }
{
    let mut bytes = [0; RANDOM_LEN];
    let Ok(mut source) = File::open(files, "/dev/urandom") else {
        return Err(ServiceFault::NoSecret);
    };
    if source.read_exact(&mut bytes).is_err() {
        return Err(ServiceFault::NoSecret);
    }
    match spelled(alloc, &bytes) {
        Ok(content) => Ok(content),
        Err(_) => Err(ServiceFault::Memory),
    }
}
