//! What a program does beside its link in threads: one stops a limit, and one reads lines.

use line_link::{Limit, line_channel, read_lines};
use std::alloc::Global;
use std::mem::drop;
use std::sync::Wait;
use std::thread::{self, Threads};
use test_outcomes::{Failure, Outcome, check_row};

/// A limit that another thread stops.
fn stops_elsewhere<R: Threads>(rt: &R, alloc: Global) -> Outcome {
    let limit = Limit::new(alloc)?;
    let other = limit.share()?;
    let Ok(thread) = thread::spawn(rt, move || other.stop()) else {
        return Err(Failure::Memory);
    };
    thread.join(rt);
    check_row(limit.is_stopped(), 1)
}

#[test]
fn a_limit_in_two_threads(rt: HostRuntime) -> Outcome {
    stops_elsewhere(&rt, rt.alloc())
}

/// Reads two lines in a thread, as a program does with its standard input.
fn reads_elsewhere<R: Threads + Wait + Copy + Send + 'static>(rt: R, alloc: Global) -> Outcome {
    let (sender, lines) = line_channel(alloc)?;
    let reading = move || {
        let mut input = b"one\ntwo\n".as_slice();
        read_lines(&rt, alloc, &mut input, &sender);
        drop(sender);
    };
    let Ok(thread) = thread::spawn(&rt, reading) else {
        return Err(Failure::Memory);
    };
    thread.join(&rt);
    let count = lines.iter(&rt).count();
    check_row(count == 2, 1)
}

#[test]
fn lines_from_a_thread(rt: HostRuntime) -> Outcome {
    reads_elsewhere(rt, rt.alloc())
}
