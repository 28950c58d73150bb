// Directories that a test makes and takes away again.

use service_folders::{Part, Service, ServiceFault, make_service, open_service};
use std::fs::{self, File, Files};
use std::process;
use test_outcomes::{Failure, Outcome};

/// The settings of three nodes and two clients.
pub(crate) const THREE: &[u8] =
    b"votes = [1, 1, 1]\nread = 2\nwrite = 2\nproblem = 2\nclients = 2\n";

/// The settings of one node and one client.
pub(crate) const ONE: &[u8] = b"votes = [1]\nread = 1\nwrite = 1\nproblem = 1\nclients = 1\n";

/// The path of a test's directory: its own name, and the number of the process, since tests run side by side.
pub(crate) fn folder_of(rt: &HostRuntime, name: &str) -> Result<String, Failure> {
    let process = process::id(rt.process());
    Ok(format!(in rt.alloc(); "/tmp/rwvote_folder_{name}_{process}")?)
}

/// The path of a file in a directory.
pub(crate) fn path_in(rt: &HostRuntime, folder: &str, name: &str) -> Result<String, Failure> {
    Ok(format!(in rt.alloc(); "{folder}/{name}")?)
}

/// Takes a test's directory away, and returns what came of the test. It tries twice, since a test of memory may refuse
/// the first try.
pub(crate) fn after(rt: &HostRuntime, folder: &str, outcome: Outcome) -> Outcome {
    if fs::remove_dir_all(rt, folder).is_err() {
        let _ = fs::remove_dir_all(rt, folder);
    }
    outcome
}

/// The number of a fault. Running out of memory ends the test.
pub(crate) fn number_of(fault: ServiceFault) -> Result<u16, Failure> {
    match fault.number() {
        933 | 925 => Err(Failure::Memory),
        number => Ok(number),
    }
}

/// The number of the fault of making a service, or 0.
pub(crate) fn init<R: Files<File = File>>(
    rt: &HostRuntime,
    files: &R,
    folder: &str,
    settings: &[u8],
    part: Option<Part>,
    secret: Option<&str>,
) -> Result<u16, Failure> {
    match make_service(files, rt.alloc(), folder, settings, part, secret) {
        Ok(()) => Ok(0),
        Err(fault) => number_of(fault),
    }
}

/// Makes a service with all its actors and a new secret.
pub(crate) fn made(rt: &HostRuntime, folder: &str, settings: &[u8]) -> Outcome {
    match init(rt, rt, folder, settings, None, None)? {
        0 => Ok(()),
        number => Err(Failure::NoAnswer(usize::from(number))),
    }
}

/// The service of a directory, or the number of the fault.
pub(crate) fn open(rt: &HostRuntime, folder: &str) -> Result<Result<Service, u16>, Failure> {
    match open_service(rt, rt.alloc(), folder) {
        Ok(service) => Ok(Ok(service)),
        Err(fault) => Ok(Err(number_of(fault)?)),
    }
}

/// The service of a directory that has one.
pub(crate) fn opened(rt: &HostRuntime, folder: &str) -> Result<Service, Failure> {
    open(rt, folder)?.map_err(|number| Failure::NoAnswer(usize::from(number)))
}

/// The number of the fault of opening, or 0.
pub(crate) fn open_fault(rt: &HostRuntime, folder: &str) -> Result<u16, Failure> {
    match open(rt, folder)? {
        Ok(_) => Ok(0),
        Err(number) => Ok(number),
    }
}

/// The bytes of a file in a directory.
pub(crate) fn bytes_of(rt: &HostRuntime, folder: &str, name: &str) -> Result<Vec<u8>, Failure> {
    let path = path_in(rt, folder, name)?;
    fs::read(rt, path.as_str()).map_err(|_| Failure::NoAnswer(1_000))
}

/// Writes a file in a directory.
pub(crate) fn put(rt: &HostRuntime, folder: &str, name: &str, bytes: &[u8]) -> Outcome {
    let path = path_in(rt, folder, name)?;
    fs::write(rt, path.as_str(), bytes).map_err(|_| Failure::NoAnswer(1_001))
}

/// Removes a file in a directory.
pub(crate) fn take(rt: &HostRuntime, folder: &str, name: &str) -> Outcome {
    let path = path_in(rt, folder, name)?;
    fs::remove_file(rt, path.as_str()).map_err(|_| Failure::NoAnswer(1_002))
}

/// Whether a file is there.
pub(crate) fn is_there(rt: &HostRuntime, folder: &str, name: &str) -> Result<bool, Failure> {
    let path = path_in(rt, folder, name)?;
    fs::exists(rt, path.as_str()).map_err(|_| Failure::NoAnswer(1_003))
}

/// How many files a directory has.
pub(crate) fn count(rt: &HostRuntime, folder: &str) -> Result<usize, Failure> {
    let Ok(names) = fs::read_dir(rt, folder) else {
        return Err(Failure::NoAnswer(1_004));
    };
    let mut files = 0usize;
    for name in names {
        if name.is_err() {
            return Err(Failure::NoAnswer(1_005));
        }
        files = files.saturating_add(1);
    }
    Ok(files)
}
