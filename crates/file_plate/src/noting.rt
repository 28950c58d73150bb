// How a medium notes a call, by its answer.

ghost use Rattle.std.specs.Prelude.{◌≡◌, ◌∷◌, length, map};
ghost use Rattle.file_plate.specs.Media.{noted_call, Settled, Gave, Took, Synced, SettleFailed, ReadFailed, WriteFailed, SyncFailed, by_answer};

use event_lists::CallList;
use std::io;

// The kinds of calls in the list of a file's calls.
const SETTLED: u64 = 0;

const GAVE: u64 = 1;

const TOOK: u64 = 2;

const SYNCED: u64 = 3;

const SETTLE_FAILED: u64 = 4;

const READ_FAILED: u64 = 5;

const WRITE_FAILED: u64 = 6;

const SYNC_FAILED: u64 = 7;

/// Notes in a medium's list of calls that it was asked to settle its file, and its answer.
pub fn note_settling(calls: &mut CallList, answer: &io::Result<()>)
    ensures { map noted_call calls.new.items ≡ by_answer answer.now Settled SettleFailed ∷ map noted_call calls.old.items }
{
    match answer {
        Ok(()) => calls.note(&[SETTLED], &[]),
        Err(_) => calls.note(&[SETTLE_FAILED], &[]),
    }
}

/// Notes a read from a place on, with what the buffer has after it.
pub fn note_reading(calls: &mut CallList, at: u32, buffer: &[u8], answer: &io::Result<()>)
    ensures { map noted_call calls.new.items ≡ by_answer answer.now (Gave at buffer.now) (ReadFailed at (length buffer.now)) ∷ map noted_call calls.old.items }
{
    match answer {
        Ok(()) => calls.note(&[GAVE, u64::from(at)], buffer),
        Err(_) => calls.note(&[READ_FAILED, u64::from(at)], buffer),
    }
}

/// Notes a write of these bytes from a place on.
pub fn note_writing(calls: &mut CallList, at: u32, bytes: &[u8], answer: &io::Result<()>)
    ensures { map noted_call calls.new.items ≡ by_answer answer.now (Took at bytes.now) (WriteFailed at (length bytes.now)) ∷ map noted_call calls.old.items }
{
    match answer {
        Ok(()) => calls.note(&[TOOK, u64::from(at)], bytes),
        Err(_) => calls.note(&[WRITE_FAILED, u64::from(at)], bytes),
    }
}

/// Notes a sync.
pub fn note_syncing(calls: &mut CallList, answer: &io::Result<()>)
    ensures { map noted_call calls.new.items ≡ by_answer answer.now Synced SyncFailed ∷ map noted_call calls.old.items }
{
    match answer {
        Ok(()) => calls.note(&[SYNCED], &[]),
        Err(_) => calls.note(&[SYNC_FAILED], &[]),
    }
}
