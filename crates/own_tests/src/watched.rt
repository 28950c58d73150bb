// A journal, a record and a link that note in which order they are used.

ghost use Rattle.std.specs.Prelude.{Some, [], ◌∷◌, false};

use lock_messages::Actor;
use lossy_link::{Link, LinkFault, ListLink, Parcel, Post};
use own_recorders::BatchJournal;
use stable_record::{MAX_RECORD_LEN, MemoryRecord, RecordFault, StableRecord};
use std::alloc::Global;
use std::io::{Error, ErrorKind, Write};
use std::sync::Arc;
use std::sync::atomic::{AtomicU32, Ordering};
use test_outcomes::Failure;

/// What was done, in order: 1 lines were let out, 2 a record was to be kept, 3 a parcel was sent, 4 a word was told. Each is a
/// digit after those before. There is room for nine.
#[derive(Drop)]
pub(crate) struct Steps {
    steps: AtomicU32,
    /// How often a record was to be kept.
    keeps: AtomicU32,
}

impl Steps {
    /// Nothing was done.
    pub(crate) fn none(alloc: Global) -> Result<Arc<Steps>, Failure> {
        let steps = Steps {
            steps: AtomicU32::new(0),
            keeps: AtomicU32::new(0),
        };
        Ok(Arc::new(alloc, steps)?)
    }

    /// Notes a step.
    fn note(&self, step: u32) {
        let before = self.steps.load(Ordering::SeqCst);
        let now = before.saturating_mul(10).saturating_add(step);
        self.steps.store(now, Ordering::SeqCst);
    }

    /// Notes that a record is to be kept.
    fn note_keep(&self) {
        self.note(2);
        let before = self.keeps.load(Ordering::SeqCst);
        self.keeps.store(before.saturating_add(1), Ordering::SeqCst);
    }

    /// What was done.
    pub(crate) fn all(&self) -> u32 {
        self.steps.load(Ordering::SeqCst)
    }

    /// How often a record was to be kept.
    pub(crate) fn keeps(&self) -> u32 {
        self.keeps.load(Ordering::SeqCst)
    }
}

/// How many bytes a journal has room for.
const ROOM: usize = 16_384;

/// A journal that notes when its lines are let out. It takes its memory at once, and no more later.
#[derive(Drop)]
pub(crate) struct WatchedJournal {
    pub(crate) bytes: Vec<u8>,
    steps: Arc<Steps>,
    // How often lines were let out.
    count: u32,
    // Whether letting them out fails, except the first time.
    fails: bool,
}

impl WatchedJournal {
    /// An empty journal. Letting lines out may fail, except the first time.
    pub(crate) fn new(
        alloc: Global,
        steps: &Arc<Steps>,
        fails: bool,
    ) -> Result<WatchedJournal, Failure> {
        Ok(WatchedJournal {
            bytes: Vec::with_capacity(alloc, ROOM)?,
            steps: steps.clone()?,
            count: 0,
            fails,
        })
    }
}

impl Write for WatchedJournal {
    ghost contents = { λ j. Some j.bytes.items };

    fn write(&mut self, buf: &[u8]) -> Result<usize, Error> {
        if self.bytes.extend_from_slice(buf).is_err() {
            return Err(Error::from(ErrorKind::OutOfMemory));
        }
        Ok(buf.len())
    }

    fn flush(&mut self) -> Result<(), Error> {
        Ok(())
    }
}

impl BatchJournal for WatchedJournal {
    fn let_out(&mut self, next: &[u8]) -> Result<(), Error> {
        let _ = next;
        self.steps.note(1);
        if self.fails && self.count > 0 {
            return Err(Error::from(ErrorKind::StorageFull));
        }
        self.count = self.count.saturating_add(1);
        Ok(())
    }
}

/// A record that notes when it is to be kept, and may fail then.
#[derive(Drop)]
pub(crate) struct WatchedRecord {
    pub(crate) record: MemoryRecord,
    pub(crate) steps: Arc<Steps>,
    pub(crate) fails: bool,
    pub(crate) is_stuck: bool,
    pub(crate) failures: u64,
}

impl StableRecord for WatchedRecord {
    ghost finds = { λ r. r.record ∷ [] };

    ghost stuck_of = { λ r. r.is_stuck };

    ghost spent_of = { λ _. false };

    ghost failures_of = { λ r. r.failures };

    fn keep(&mut self, bytes: &[u8]) -> Result<(), RecordFault> {
        if self.is_stuck {
            return Err(RecordFault::Stuck);
        }
        if bytes.len() > MAX_RECORD_LEN {
            return Err(RecordFault::TooLong);
        }
        self.steps.note_keep();
        if self.fails {
            self.failures = self.failures.saturating_add(1);
            self.is_stuck = true;
            return Err(RecordFault::Device);
        }
        self.record.keep(bytes)
    }

    fn reopen(&mut self) -> Result<Vec<u8>, RecordFault> {
        let bytes = self.record.reopen()?;
        self.is_stuck = false;
        Ok(bytes)
    }

    fn stuck(&self) -> bool {
        self.is_stuck
    }

    fn failures(&self) -> u64 {
        self.failures
    }
}

/// A link over lists that notes when something is sent or told.
#[derive(Drop)]
pub(crate) struct WatchedLink {
    pub(crate) link: ListLink,
    pub(crate) steps: Arc<Steps>,
}

impl Link for WatchedLink {
    ghost coming = { λ l. Some l.link.coming };

    ghost given = { λ l. Some l.link.given };

    ghost refused = { λ l. Some l.link.refused };

    fn send(&mut self, to: Actor, parcel: Parcel) -> Result<(), LinkFault> {
        self.steps.note(3);
        self.link.send(to, parcel)
    }

    fn tell_all(&mut self, post: Post) -> Result<(), LinkFault> {
        self.steps.note(4);
        self.link.tell_all(post)
    }

    fn receive(&mut self) -> Result<Post, LinkFault> {
        self.link.receive()
    }

    fn has_more(&self) -> bool {
        self.link.has_more()
    }
}
