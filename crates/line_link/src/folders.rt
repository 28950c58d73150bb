// A directory that carries lines: each actor has an inbox file in it.

ghost use Rattle.std.specs.Prelude.{None};

use crate::carriers::{Carrier, Taken};
use crate::held_lines::HeldLines;
use lock_messages::Actor;
use std::alloc::{AllocError, Global};
use std::fs::{self, File, Files, OpenFile, OpenOptions};
use std::io::{self, Write};
use std::os::unix::fs::{FileExt, MetadataExt};

/// An inbox that is longer is emptied when all of it is read.
pub const MAX_INBOX_LEN: u64 = 1_048_576;

/// How many bytes are read at once.
const BLOCK_LEN: usize = 16_384;

/// How many reads one line may need.
const MAX_READS: u32 = 64;

/// After so many reads in a row that found nothing, the inbox is looked for again.
const READS_BEFORE_LOOK: u32 = 64;

/// The path of an actor's inbox in a directory. The only error is running out of memory.
pub fn inbox_path(alloc: Global, folder: &str, actor: Actor) -> Result<String, AllocError> {
    format!(in alloc; "{folder}/{actor}.inbox")
}

/// Appends a line to the inbox of an actor in a directory, by one write. It opens the file each time, which costs about as
/// much as to find out whether an open file was replaced.
fn append_line<F: Files<File = File>>(
    files: &F,
    alloc: Global,
    folder: &str,
    to: Actor,
    line: &[u8],
) -> io::Result<()> {
    let name = inbox_path(alloc, folder, to)?;
    let mut inbox = OpenOptions::new().append(true).open(files, name.as_str())?;
    inbox.write(line)?;
    Ok(())
}

/// The inboxes of a directory, for a program that runs no actor: it appends lines, and takes none.
#[derive(Drop)]
pub struct Outbox<F: Files<File = File> + Drop> {
    files: F,
    alloc: Global,
    path: String,
    has_failed: bool,
}

impl<F: Files<File = File> + Drop> Outbox<F> {
    /// The inboxes of this directory. The only error is running out of memory.
    pub fn new(files: F, alloc: Global, path: &str) -> Result<Outbox<F>, AllocError> {
        let path = String::from_str(alloc, path)?;
        Ok(Outbox {
            files,
            alloc,
            path,
            has_failed: false,
        })
    }

    /// Whether a line could not be appended.
    pub fn has_failed(&self) -> bool {
        self.has_failed
    }
}

impl<F: Files<File = File> + Drop> Carrier for Outbox<F> {
    ghost given = { λ _. None };

    fn put(&mut self, to: Actor, line: &[u8]) {
        if append_line(&self.files, self.alloc, self.path.as_str(), to, line).is_err() {
            self.has_failed = true;
        }
    }

    fn take(&mut self, _line: &mut Vec<u8>) -> Taken {
        Taken::Closed
    }
}

/// A directory with the inboxes of actors, as one of them sees it: it reads its own, and appends to the others.
#[derive(Drop)]
pub struct Folder<F: Files<File = File> + Drop> {
    files: F,
    alloc: Global,
    path: String,
    // The path of the inbox.
    name: String,
    inbox: File,
    // How many bytes of the inbox are read.
    offset: u64,
    // The bytes that were read after the last line.
    held: HeldLines,
    // How many reads in a row found nothing.
    misses: u32,
}

impl<F: Files<File = File> + Drop> Folder<F> {
    /// Opens the actor's inbox in a directory, and empties it. Lines for an earlier process are lost.
    ///
    /// # Errors
    ///
    /// The inbox is missing, can't be opened for reading and writing, or memory runs out.
    pub fn open(files: F, alloc: Global, path: &str, own: Actor) -> io::Result<Folder<F>> {
        let name = inbox_path(alloc, path, own)?;
        let path = String::from_str(alloc, path)?;
        let inbox = OpenOptions::new()
            .read(true)
            .write(true)
            .open(&files, name.as_str())?;
        inbox.set_len(0)?;
        Ok(Folder {
            files,
            alloc,
            path,
            name,
            inbox,
            offset: 0,
            held: HeldLines::new(alloc),
            misses: 0,
        })
    }

    /// Reads the inbox from its start.
    fn start_over(&mut self) {
        self.offset = 0;
        self.held.clear();
    }

    /// Empties the inbox if it is large and all of it is read.
    fn empty_if_large(&mut self) {
        if self.offset > MAX_INBOX_LEN && self.inbox.set_len(0).is_ok() {
            self.offset = 0;
        }
    }

    /// Whether the inbox at its path is the open file.
    fn is_in_place(&self) -> io::Result<bool> {
        let own = self.inbox.metadata()?;
        let found = fs::metadata(&self.files, self.name.as_str())?;
        Ok(found.dev() == own.dev() && found.ino() == own.ino())
    }

    /// Opens the inbox again, and makes it if it is missing.
    fn open_again(&mut self) -> io::Result<()> {
        self.inbox = OpenOptions::new()
            .read(true)
            .write(true)
            .create(true)
            .open(&self.files, self.name.as_str())?;
        self.start_over();
        Ok(())
    }

    /// Looks for the inbox, which somebody else may have taken away or cut.
    fn look_for_inbox(&mut self) -> io::Result<()> {
        if !self.is_in_place().unwrap_or(false) {
            return self.open_again();
        }
        if self.inbox.metadata()?.len() < self.offset {
            self.start_over();
        }
        Ok(())
    }

    /// Tends the inbox when a read has found nothing.
    fn miss(&mut self) {
        self.empty_if_large();
        self.misses = self.misses.saturating_add(1);
        if self.misses >= READS_BEFORE_LOOK {
            self.misses = 0;
            let _ = self.look_for_inbox();
        }
    }

    /// Reads more of the inbox, if there is more.
    fn read_more(&mut self) -> bool {
        let mut block = [0; BLOCK_LEN];
        let count = self.inbox.read_at(&mut block, self.offset).unwrap_or(0);
        if count == 0 {
            self.miss();
            return false;
        }
        self.misses = 0;
        self.offset = self.offset.saturating_add(count as u64);
        self.held.add(&block[..count]);
        true
    }
}

impl<F: Files<File = File> + Drop> Carrier for Folder<F> {
    ghost given = { λ _. None };

    fn put(&mut self, to: Actor, line: &[u8]) {
        let _ = append_line(&self.files, self.alloc, self.path.as_str(), to, line);
    }

    /// Takes a line that is held, or reads more of the inbox until there is one.
    fn take(&mut self, line: &mut Vec<u8>) -> Taken {
        for _ in 0..MAX_READS {
            if self.held.next(line) {
                return Taken::Line;
            }
            if !self.read_more() {
                return Taken::Nothing;
            }
        }
        Taken::Nothing
    }
}
