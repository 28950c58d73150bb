// The file of an actor's journal.

use lock_messages::Actor;
use service_folders::{ServiceFault, journal_path};
use std::alloc::Global;
use std::fs::{self, File, Files, OpenOptions};
use std::io::{self, Write};
use std::os::unix::fs::OpenOptionsExt;

/// How an actor writes its journal.
#[derive(Clone, Copy, Debug, PartialEq, Eq)]
pub enum Journaling {
    /// Each line is written before others can see the event. The end may be lost if the power goes.
    Written,
    /// What is written is also synced.
    Synced,
    /// There is no journal.
    Unwritten,
}

/// The mode of a new journal's file.
const JOURNAL_MODE: u32 = 0o660;

/// Opens a journal that is there, to write at its end.
pub(crate) fn add_to<F: Files<File = File>>(files: &F, path: &str) -> io::Result<File> {
    OpenOptions::new().append(true).open(files, path)
}

/// Opens the journal of the actor, to write at its end. It makes the file if there is none. The faults are 968 (the file
/// can't be opened) and 933 (out of memory).
pub(crate) fn open_journal<F: Files<File = File>>(
    files: &F,
    alloc: Global,
    folder: &str,
    actor: Actor,
) -> Result<File, ServiceFault> {
    let Ok(path) = journal_path(alloc, folder, actor) else {
        return Err(ServiceFault::Memory);
    };
    let opened = OpenOptions::new()
        .append(true)
        .create(true)
        .mode(JOURNAL_MODE)
        .open(files, path.as_str());
    opened.map_err(|_| ServiceFault::NoJournal)
}

/// The writer of a client's journal.
#[derive(Drop)]
pub(crate) enum Journal {
    /// A file. If it is to be synced, each write is.
    File { file: File, is_synced: bool },
    /// Takes everything and keeps nothing.
    Nowhere,
}

impl Journal {
    /// Opens the journal of the client, as `open_journal` does.
    pub(crate) fn open<F: Files<File = File>>(
        files: &F,
        alloc: Global,
        folder: &str,
        actor: Actor,
        how: Journaling,
    ) -> Result<Journal, ServiceFault> {
        if how == Journaling::Unwritten {
            return Ok(Journal::Nowhere);
        }
        Ok(Journal::File {
            file: open_journal(files, alloc, folder, actor)?,
            is_synced: how == Journaling::Synced,
        })
    }
}

impl Write for Journal {
    ghost use Rattle.std.specs.Prelude.{None};

    ghost contents = { λ _. None };

    fn write(&mut self, buf: &[u8]) -> io::Result<usize> {
        match self {
            Journal::File { file, is_synced } => {
                let count = file.write(buf)?;
                if *is_synced {
                    file.sync_data()?;
                }
                Ok(count)
            }
            Journal::Nowhere => Ok(buf.len()),
        }
    }

    fn flush(&mut self) -> io::Result<()> {
        Ok(())
    }
}

/// Whether the actor has a journal in the directory.
pub(crate) fn is_journaled<F: Files>(files: &F, alloc: Global, folder: &str, actor: Actor) -> bool {
    match journal_path(alloc, folder, actor) {
        Ok(path) => fs::metadata(files, path.as_str()).is_ok(),
        Err(_) => false,
    }
}
