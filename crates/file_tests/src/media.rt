//! A file that fails at the call that a test names.

ghost use Rattle.std.specs.Prelude.{◌≡◌, []};

use crate::rooms::open_raw;
use event_lists::CallList;
use file_plate::{
    FileFault, FilePlate, Medium, note_reading, note_settling, note_syncing, note_writing,
};
use std::alloc::Global;
use std::fs::File;
use std::io::{self, ErrorKind};
use std::os::unix::fs::FileExt;

/// How a call fails.
#[derive(Clone, Copy, PartialEq, Eq)]
pub(crate) enum Fault {
    /// The call does nothing and returns an error, as on a full disk.
    Refused,
    /// A write takes half of the bytes and returns an error. Another call is refused.
    Short,
    /// The call is done and returns an error. A read is refused.
    Torn,
    /// A read gives one wrong byte. Another call is refused.
    Wrong,
    /// The call does nothing and returns success.
    Lies,
}

/// A file whose call of one number fails. The calls after it succeed, so a test sees a plate that goes on.
#[derive(Drop)]
pub(crate) struct FaultyFile {
    file: File,
    fault: Fault,
    failing: u32,
    made: u32,
    calls: CallList,
}

/// A plate over a test's file of this size. The call of this number fails, or none at 0.
pub(crate) fn plate_over(
    rt: &HostRuntime,
    path: &str,
    size: u32,
    fault: Fault,
    failing: u32,
) -> Option<Result<FilePlate<FaultyFile>, FileFault>> {
    let file = open_raw(rt, path, size)?;
    let medium = FaultyFile::over(file, fault, failing);
    Some(FilePlate::over(rt.alloc(), medium, size))
}

fn refusal() -> io::Error {
    io::Error::from(ErrorKind::StorageFull)
}

impl FaultyFile {
    /// A file whose call of this number fails so, or none at 0.
    pub(crate) fn over(file: File, fault: Fault, failing: u32) -> FaultyFile
        ensures { result.calls.items ≡ [] }
    {
        FaultyFile {
            file,
            fault,
            failing,
            made: 0,
            calls: CallList::new(),
        }
    }

    /// How many calls were made.
    pub(crate) fn made(&self) -> u32 {
        self.made
    }

    /// The fault of the call that is made now, if it fails.
    fn next_fault(&mut self) -> Option<Fault>
        ensures { self.new.calls.items ≡ self.old.calls.items }
    {
        self.made = self.made.saturating_add(1);
        (self.made == self.failing).then_some(self.fault)
    }

    fn reads(&self, fault: Option<Fault>, at: u32, buffer: &mut [u8]) -> io::Result<()> {
        match fault {
            None => self.file.read_exact_at(buffer, u64::from(at)),
            Some(Fault::Wrong) => {
                self.file.read_exact_at(buffer, u64::from(at))?;
                if let Some(first) = buffer.first_mut() {
                    *first = first.wrapping_add(1);
                }
                Ok(())
            }
            Some(Fault::Lies) => Ok(()),
            Some(_) => Err(refusal()),
        }
    }

    fn writes(&self, fault: Option<Fault>, at: u32, bytes: &[u8]) -> io::Result<()> {
        match fault {
            None => self.file.write_all_at(bytes, u64::from(at)),
            Some(Fault::Short) => {
                self.file
                    .write_all_at(&bytes[..bytes.len() / 2], u64::from(at))?;
                Err(refusal())
            }
            Some(Fault::Torn) => {
                self.file.write_all_at(bytes, u64::from(at))?;
                Err(refusal())
            }
            Some(Fault::Lies) => Ok(()),
            Some(_) => Err(refusal()),
        }
    }

    fn syncs(&self, fault: Option<Fault>) -> io::Result<()> {
        match fault {
            None => self.file.sync_all(),
            Some(Fault::Lies) => Ok(()),
            Some(Fault::Torn) => {
                self.file.sync_all()?;
                Err(refusal())
            }
            Some(_) => Err(refusal()),
        }
    }
}

impl Medium for FaultyFile {
    ghost use Rattle.std.specs.Prelude.{map};
    ghost use Rattle.file_plate.specs.Media.{noted_call};

    ghost asked = { λ f. map noted_call f.calls.items };

    fn settle(&mut self) -> io::Result<()> {
        let fault = self.next_fault();
        let answer = self.syncs(fault);
        note_settling(&mut self.calls, &answer);
        answer
    }

    fn read_at(&mut self, at: u32, buffer: &mut [u8]) -> io::Result<()> {
        let fault = self.next_fault();
        let answer = self.reads(fault, at, buffer);
        note_reading(&mut self.calls, at, buffer, &answer);
        answer
    }

    fn write_at(&mut self, at: u32, bytes: &[u8]) -> io::Result<()> {
        let fault = self.next_fault();
        let answer = self.writes(fault, at, bytes);
        note_writing(&mut self.calls, at, bytes, &answer);
        answer
    }

    fn sync(&mut self) -> io::Result<()> {
        let fault = self.next_fault();
        let answer = self.syncs(fault);
        note_syncing(&mut self.calls, &answer);
        answer
    }
}
