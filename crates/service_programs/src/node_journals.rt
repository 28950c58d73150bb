// The journal of a node, which holds lines back until the node keeps its record.

ghost use Rattle.std.specs.Prelude.{◌≤◌};

use crate::journals::{Journaling, add_to, open_journal};
use lock_messages::Actor;
use own_recorders::BatchJournal;
use service_folders::{ServiceFault, batch_path, journal_path};
use sha2::{Digest, Sha256};
use std::alloc::Global;
use std::fs::{self, File, Files, OpenFile, OpenOptions};
use std::io::{self, ErrorKind, Write};
use std::os::unix::fs::{FileExt, OpenOptionsExt};

/// How many bytes a digest of a record has.
const DIGEST_LEN: usize = 32;

/// How many bytes the mark of a batch has.
const MARK_LEN: usize = 80;

/// The mode of a new file for marks.
const MARK_MODE: u32 = 0o660;

/// The mark of the batch that a node lets out. It is written before the batch's lines.
#[derive(Clone, Copy, Debug, PartialEq, Eq)]
struct Mark {
    // How many bytes the journal has before the batch's lines, and with them.
    begin: u64,
    end: u64,
    // The SHA-256 digests of the record before the batch, and after it.
    before: [u8; DIGEST_LEN],
    next: [u8; DIGEST_LEN],
}

/// The number in these eight bytes, the most significant first.
fn number_in(bytes: &[u8; MARK_LEN], at: usize) -> u64
    requires { at ≤ 8 }
{
    let mut number = [0; 8];
    number.copy_from_slice(&bytes[at..at + 8]);
    u64::from_be_bytes(number)
}

/// The digest in a mark.
fn digest_in(bytes: &[u8; MARK_LEN], at: usize) -> [u8; DIGEST_LEN]
    requires { at ≤ 48 }
{
    let mut digest = [0; DIGEST_LEN];
    digest.copy_from_slice(&bytes[at..at + DIGEST_LEN]);
    digest
}

/// Puts the number into these eight bytes.
fn put_number(bytes: &mut [u8; MARK_LEN], at: usize, number: u64)
    requires { at ≤ 8 }
{
    bytes[at..at + 8].copy_from_slice(&number.to_be_bytes());
}

/// Puts the digest there.
fn put_digest(bytes: &mut [u8; MARK_LEN], at: usize, digest: &[u8; DIGEST_LEN])
    requires { at ≤ 48 }
{
    bytes[at..at + DIGEST_LEN].copy_from_slice(digest);
}

impl Mark {
    /// The mark in a file, if there is a whole one.
    fn read(file: &File) -> io::Result<Option<Mark>> {
        let mut bytes = [0; MARK_LEN];
        if file.read_at(&mut bytes, 0)? < MARK_LEN {
            return Ok(None);
        }
        Ok(Some(Mark {
            begin: number_in(&bytes, 0),
            end: number_in(&bytes, 8),
            before: digest_in(&bytes, 16),
            next: digest_in(&bytes, 48),
        }))
    }

    /// Writes the mark to a file.
    fn write(&self, file: &File) -> io::Result<()> {
        let mut bytes = [0; MARK_LEN];
        put_number(&mut bytes, 0, self.begin);
        put_number(&mut bytes, 8, self.end);
        put_digest(&mut bytes, 16, &self.before);
        put_digest(&mut bytes, 48, &self.next);
        file.write_all_at(bytes.as_slice(), 0)
    }

    /// Whether the batch never was: its lines end a journal of this length, and the record with this digest is the one
    /// before the batch, or some of the lines are missing. In any other case the mark says nothing of the journal.
    fn is_undone(&self, length: u64, found: &[u8; DIGEST_LEN]) -> bool {
        let is_whole = length >= self.end && self.next == *found;
        let is_either = self.next == *found || self.before == *found;
        !is_whole && is_either && self.begin < length && length <= self.end
    }
}

/// The files of a node's journal: the journal, and the mark of the batch that goes out.
#[derive(Drop)]
pub(crate) struct BatchFiles {
    journal: File,
    marks: File,
    // The lines that are held back.
    held: Vec<u8>,
    // The digest of the record that the node has kept.
    digest: [u8; DIGEST_LEN],
    is_synced: bool,
}

impl BatchFiles {
    /// Takes the lines of the last batch out of the journal, if the batch never was. A node that was killed before it kept
    /// its record has sent nothing of a batch. Then it empties the mark.
    fn settle(&mut self) -> io::Result<()> {
        let length = self.journal.metadata()?.len();
        if let Some(mark) = Mark::read(&self.marks)?
            && mark.is_undone(length, &self.digest)
        {
            self.journal.set_len(mark.begin)?;
            if self.is_synced {
                self.journal.sync_data()?;
            }
        }
        self.marks.set_len(0)
    }

    /// The same files, settled.
    fn settled(self) -> io::Result<BatchFiles> {
        let mut files = self;
        files.settle()?;
        Ok(files)
    }

    /// Writes the mark, and then the lines that are held back.
    fn let_out(&mut self, next: &[u8]) -> io::Result<()> {
        if self.held.is_empty() {
            return Ok(());
        }
        let begin = self.journal.metadata()?.len();
        let mark = Mark {
            begin,
            end: begin.saturating_add(self.held.len() as u64),
            before: self.digest,
            next: Sha256::digest(next),
        };
        mark.write(&self.marks)?;
        if self.is_synced {
            self.marks.sync_data()?;
        }
        self.journal.write_all(&self.held)?;
        if self.is_synced {
            self.journal.sync_data()?;
        }
        self.held.clear();
        self.digest = mark.next;
        Ok(())
    }
}

/// The writer of a node's journal.
#[derive(Drop)]
pub(crate) enum NodeJournal {
    Written(BatchFiles),
    /// Takes everything and keeps nothing.
    Nowhere,
}

/// Opens the file for marks beside an actor's journal, and makes it if there is none.
fn open_marks<F: Files<File = File>>(files: &F, path: &str) -> io::Result<File> {
    OpenOptions::new()
        .read(true)
        .write(true)
        .create(true)
        .mode(MARK_MODE)
        .open(files, path)
}

/// Settles what a life with a journal has left, if it has left a mark, and removes the mark.
fn settle_old<F: Files<File = File>>(
    files: &F,
    alloc: Global,
    journal: &str,
    marks: &str,
    found: &[u8],
) -> io::Result<()> {
    if let Err(error) = fs::metadata(files, marks) {
        return match error.kind() {
            ErrorKind::NotFound => Ok(()),
            _ => Err(error),
        };
    }
    let mut left = BatchFiles {
        journal: add_to(files, journal)?,
        marks: open_marks(files, marks)?,
        held: Vec::new(alloc),
        digest: Sha256::digest(found),
        is_synced: false,
    };
    left.settle()?;
    fs::remove_file(files, marks)
}

/// The paths of a node's journal and of its mark. The only fault is 933 (out of memory).
fn paths_of(alloc: Global, folder: &str, actor: &Actor) -> Result<(String, String), ServiceFault> {
    match (
        journal_path(alloc, folder, *actor),
        batch_path(alloc, folder, *actor),
    ) {
        (Ok(journal), Ok(marks)) => Ok((journal, marks)),
        _ => Err(ServiceFault::Memory),
    }
}

impl NodeJournal {
    /// No journal. What a life with one has left is settled. The fault is 968 (a file can't be opened or cut).
    fn none<F: Files<File = File>>(
        files: &F,
        alloc: Global,
        journal: &str,
        marks: &str,
        found: &[u8],
    ) -> Result<NodeJournal, ServiceFault> {
        match settle_old(files, alloc, journal, marks, found) {
            Ok(()) => Ok(NodeJournal::Nowhere),
            Err(_) => Err(ServiceFault::NoJournal),
        }
    }

    /// Opens the journal of a node that has found these bytes in its record, to write at its end. It makes the file if there
    /// is none. The faults are 968 (a file can't be opened or cut) and 933 (out of memory).
    pub(crate) fn open<F: Files<File = File>>(
        files: &F,
        alloc: Global,
        folder: &str,
        actor: &Actor,
        how: Journaling,
        found: &[u8],
    ) -> Result<NodeJournal, ServiceFault> {
        let (path, mark) = paths_of(alloc, folder, actor)?;
        if how == Journaling::Unwritten {
            return NodeJournal::none(files, alloc, path.as_str(), mark.as_str(), found);
        }
        let journal = open_journal(files, alloc, folder, *actor)?;
        let Ok(marks) = open_marks(files, mark.as_str()) else {
            return Err(ServiceFault::NoJournal);
        };
        let opened = BatchFiles {
            journal,
            marks,
            held: Vec::new(alloc),
            digest: Sha256::digest(found),
            is_synced: how == Journaling::Synced,
        };
        match opened.settled() {
            Ok(settled) => Ok(NodeJournal::Written(settled)),
            Err(_) => Err(ServiceFault::NoJournal),
        }
    }
}

impl Write for NodeJournal {
    ghost use Rattle.std.specs.Prelude.{None};

    ghost contents = { λ _. None };

    fn write(&mut self, buf: &[u8]) -> io::Result<usize> {
        if let NodeJournal::Written(files) = self {
            files.held.extend_from_slice(buf)?;
        }
        Ok(buf.len())
    }

    fn flush(&mut self) -> io::Result<()> {
        Ok(())
    }
}

impl BatchJournal for NodeJournal {
    fn let_out(&mut self, next: &[u8]) -> io::Result<()> {
        match self {
            NodeJournal::Written(files) => files.let_out(next),
            NodeJournal::Nowhere => Ok(()),
        }
    }
}
