// The lines of a client's commands, which a thread reads.

use client_commands::MAX_COMMAND_LEN;
use crossbeam_channel::Sender;
use line_link::Limit;
use std::alloc::{AllocError, Global};
use std::io::{ErrorKind, Read};
use std::sync::atomic::{AtomicBool, Ordering};
use std::sync::{Arc, Wait};
use std::time::{Clock, Duration};

/// How many bytes are read at once.
const BLOCK_LEN: usize = 4_096;

/// How many milliseconds a client goes on waiting for a lock when no commands come any more.
pub(crate) const LAST_WAIT: u64 = 1_000;

/// When a client stops waiting, as its program and the thread that reads its commands share it.
///
/// While commands may come, a client waits for as long as its command says. When none comes any more it waits for a
/// second at most, because then nobody would use the lock.
#[derive(Drop)]
pub(crate) struct Patience {
    pub(crate) limit: Limit,
    is_ended: Arc<AtomicBool>,
}

impl Patience {
    /// The only error is running out of memory.
    pub(crate) fn new(alloc: Global) -> Result<Patience, AllocError> {
        Ok(Patience {
            limit: Limit::new(alloc)?,
            is_ended: Arc::new(alloc, AtomicBool::new(false))?,
        })
    }

    /// The same once more, for another thread. The only error is running out of memory.
    pub(crate) fn share(&self) -> Result<Patience, AllocError> {
        Ok(Patience {
            limit: self.limit.share()?,
            is_ended: Arc::try_clone(&self.is_ended)?,
        })
    }

    /// Whether the input of the commands has ended.
    pub(crate) fn is_ended(&self) -> bool {
        self.is_ended.load(Ordering::SeqCst)
    }

    /// Says that the input of the commands has ended.
    fn end(&self) {
        self.is_ended.store(true, Ordering::SeqCst);
    }

    /// Lets the client wait for a second more.
    pub(crate) fn begin_last_wait<R: Clock>(&self, rt: &R) {
        self.limit
            .set_deadline(rt, Duration::from_millis(LAST_WAIT));
    }
}

/// A line of which nothing is held yet.
fn new_line(alloc: Global) -> Vec<u8> {
    Vec::new(alloc)
}

/// Adds bytes to lines, and passes each line on when it ends. Of a line that is too long it keeps a beginning that is too
/// long to be a command. It returns whether somebody takes the lines.
fn pass_lines<R: Wait>(
    rt: &R,
    alloc: Global,
    bytes: &[u8],
    line: &mut Vec<u8>,
    sender: &Sender<Vec<u8>>,
) -> bool {
    for byte in bytes {
        if *byte != b'\n' {
            if line.len() <= MAX_COMMAND_LEN && line.push(*byte).is_err() {
                return false;
            }
            continue;
        }
        let whole = std::mem::replace(line, new_line(alloc));
        if sender.send(rt, whole).is_err() {
            return false;
        }
    }
    true
}

/// Passes on the lines of the input, until it ends or fails, or nobody takes them.
fn pass_all<R: Wait, I: Read>(rt: &R, alloc: Global, input: &mut I, sender: &Sender<Vec<u8>>) {
    let mut line = new_line(alloc);
    for _ in rt.forever() {
        let mut block = [0; BLOCK_LEN];
        let count = match input.read(&mut block) {
            Ok(0) => break,
            Ok(count) => count,
            Err(error) if error.kind() == ErrorKind::Interrupted => continue,
            Err(_) => break,
        };
        if !pass_lines(rt, alloc, &block[..count], &mut line, sender) {
            return;
        }
    }
    if !line.is_empty() {
        let _ = sender.send(rt, line);
    }
}

/// Reads commands line by line, in a thread of its own. A last line counts without its line feed. When the input ends
/// while the client waits, and no command is left, the client stops waiting after a second.
pub(crate) fn read_commands<R: Wait + Clock, I: Read>(
    rt: &R,
    alloc: Global,
    input: &mut I,
    sender: Sender<Vec<u8>>,
    patience: &Patience,
) {
    pass_all(rt, alloc, input, &sender);
    patience.end();
    if sender.is_empty() {
        patience.begin_last_wait(rt);
    }
}
