//! The program `rollout`: a change is rolled out to four targets, by a lock service that runs inside the program.
//!
//! Three workers each do one step to every target, under the target's write lock: install, restart, verify. Which
//! target a worker can do is decided while it runs: a step fails where the one before it isn't done, and is tried
//! again later. Two watchers look at the targets under read locks until all is done. At the end the journal of all
//! locks is audited, and the program says what each did.
//!
//! `docs/EMBEDDING.md` goes through it part by part. It stands on `run_service` and `node_threads` for the service,
//! `lock_session` and `book_recorders` for its sessions, `world_settings` for settings, `journal_audit`,
//! `line_streams`, `event_recorders`, `lossy_link`, `lock_messages` and `lock_model`.
#![tactic(auto)]

mod crews;
mod sites;

use crate::crews::Rollout;
use crate::sites::Site;
use event_recorders::RunFault;
use journal_audit::Verdict;
use line_streams::write_text;
use lock_messages::Actor;
use run_service::{audit_book, run_in_memory};
use std::alloc::Global;
use std::io;
use std::process::ExitCode;
use std::sync::{Mutex, Wait};
use std::thread::Threads;
use world_settings::{Command, read_settings};

/// Three nodes with a vote each, any two of which are enough; writers first; three workers and two watchers.
const SETTINGS: &[u8] = b"votes = [1, 1, 1]\nread = 2\nwrite = 2\nproblem = 2\nclients = 5\n";

/// The report, then who ended by a fault, and whether the journal is sound. Nothing where memory was refused.
fn with_end(mut report: String, faults: &[(Actor, RunFault)], verdict: Verdict) -> Option<String> {
    for (actor, fault) in faults {
        writeln!(report, "{actor} fault {}", fault.number()).ok()?;
    }
    let is_sound = matches!(verdict, Verdict::Sound(_));
    writeln!(report, "the journal is sound: {is_sound}").ok()?;
    Some(report)
}

/// Runs the service with the rollout inside, audits its journal, and says what came of it. Nothing where memory was
/// refused, or a thread couldn't be started.
fn roll_out<T: Threads + Wait + Copy + Send + Sync>(
    rt: T,
    alloc: Global,
    rollout: &Rollout,
) -> Option<String> {
    let start = read_settings(alloc, Command::Run { journal: false }, SETTINGS).ok()?;
    let settings = start.settings;
    let end = run_in_memory(rt, alloc, &settings, start.weather, rollout).ok()?;
    let report = rollout.site.lock(&rt).report(alloc);
    match (report, audit_book(alloc, &settings, &end.book)) {
        (Ok(report), Ok(verdict)) => with_end(report, end.faults.as_slice(), verdict),
        _ => None,
    }
}

fn main(rt: HostRuntime) -> ExitCode {
    let rollout = Rollout {
        site: Mutex::new(Site::new()),
    };
    let Some(text) = roll_out(rt, rt.alloc(), &rollout) else {
        let _unsaid = write_text(&mut rt.stderr(), b"error: out of memory or threads\n");
        return ExitCode::from(2);
    };
    match write_text(&mut io::writer(&rt), text.as_bytes()) {
        Ok(()) => ExitCode::from(u8::from(rollout.site.into_inner().gave_up > 0)),
        Err(_) => ExitCode::from(2),
    }
}
