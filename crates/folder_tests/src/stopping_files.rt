// Files of the operating system, until they stop.

use std::alloc::Allocator;
use std::cell::Cell;
use std::fs::{File, Files, Metadata, OpenOptions};
use std::io::{self, ErrorKind};

/// Files of which so many calls are done, and no further one. So a directory is left as by a process that was killed.
#[derive(Drop)]
pub(crate) struct StoppingFiles<'r> {
    files: &'r HostRuntime,
    left: Cell<u32>,
}

impl<'r> StoppingFiles<'r> {
    /// So many calls are done.
    pub(crate) fn after(files: &'r HostRuntime, calls: u32) -> StoppingFiles<'r> {
        StoppingFiles {
            files,
            left: Cell::new(calls),
        }
    }

    /// How many calls are left.
    pub(crate) fn left(&self) -> u32 {
        self.left.get()
    }

    /// Counts a call, which fails if none is left.
    fn count(&self) -> io::Result<()> {
        match self.left.get().checked_sub(1) {
            Some(left) => {
                self.left.set(left);
                Ok(())
            }
            None => Err(io::Error::from(ErrorKind::Other)),
        }
    }
}

impl<'r> Files for StoppingFiles<'r> {
    type File = File;

    type Dir = <HostRuntime as Files>::Dir;

    fn open_file(&self, how: &OpenOptions, path: &str) -> io::Result<File> {
        self.count()?;
        self.files.open_file(how, path)
    }

    fn open_dir(&self, path: &str) -> io::Result<<HostRuntime as Files>::Dir> {
        self.count()?;
        self.files.open_dir(path)
    }

    fn metadata(&self, path: &str) -> io::Result<Metadata> {
        self.count()?;
        Files::metadata(self.files, path)
    }

    fn symlink_metadata(&self, path: &str) -> io::Result<Metadata> {
        self.count()?;
        self.files.symlink_metadata(path)
    }

    fn copy(&self, from: &str, to: &str) -> io::Result<u64> {
        self.count()?;
        self.files.copy(from, to)
    }

    fn rename(&self, from: &str, to: &str) -> io::Result<()> {
        self.count()?;
        self.files.rename(from, to)
    }

    fn remove_file(&self, path: &str) -> io::Result<()> {
        self.count()?;
        self.files.remove_file(path)
    }

    fn create_dir(&self, path: &str) -> io::Result<()> {
        self.count()?;
        self.files.create_dir(path)
    }

    fn remove_dir(&self, path: &str) -> io::Result<()> {
        self.count()?;
        self.files.remove_dir(path)
    }

    fn remove_dir_all<B: Allocator>(&self, alloc: B, path: &str) -> io::Result<()> {
        self.count()?;
        self.files.remove_dir_all(alloc, path)
    }
}
