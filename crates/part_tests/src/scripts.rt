//! Scripts of calls of one node.

use crate::courses::{Course, follows};
use crate::long_runs::keeps_its_index;
use crate::nodes::{calls, has_record, keeps, plain_node, speaks};
use crate::replies::tell;
use crate::rows::{all, both, bytes};
use stable_record::RecordFault;
use std::alloc::Global;
use voter_core::{NodeCore, Phase, VoterFault};

/// A call of a node, and what is so then.
#[derive(Clone, Copy)]
pub(crate) enum Step {
    /// Rows of calls, each a message or `switch 1` that is kept and answered: whether the record changes,
    /// what the node is about before it keeps that, and its replies.
    Plays(&'static str),
    /// Such a call that isn't kept: it changes the record to this one, with so many replies.
    Decides(&'static str, usize, &'static str),
    /// A restart with this record.
    Restarts(&'static str),
    /// A restart with a record of another version, which is refused and leaves this record.
    Refuses(&'static str),
    /// No call: the node is about nothing, and has this record.
    Rests(&'static str),
}

/// Says the replies, and adds them; whether there was memory.
fn tell_replies(core: &mut NodeCore, shown: &mut String) -> bool {
    match speaks(core) {
        Some(replies) => tell(shown, &replies),
        None => false,
    }
}

/// Adds what a call is answered; whether there was memory.
fn tell_answer(core: &mut NodeCore, call: &str, shown: &mut String) -> bool {
    let changed = match calls(core, call) {
        Some(true) => "changed",
        Some(false) => "same",
        None => "refused",
    };
    let about = core.phase();
    keeps(core);
    let told = write!(shown, "{changed} {about:?}").is_ok();
    told && tell_replies(core, shown)
}

/// Whether the call of a row is answered as the row says, and the index that the core keeps is then that of
/// its record.
fn says(alloc: Global, core: &mut NodeCore, row: &str) -> Option<bool> {
    let (call, want) = row.split_once(" > ").unwrap_or((row, ""));
    let mut shown = String::new(alloc);
    if tell_answer(core, call, &mut shown) {
        both(Some(shown.as_str() == want), keeps_its_index(alloc, core))
    } else {
        None
    }
}

fn says_all(alloc: Global, core: &mut NodeCore, rows: &str) -> Option<bool> {
    let mut right = Some(true);
    for row in rows.lines() {
        right = both(right, says(alloc, core, row));
    }
    right
}

fn decides(
    alloc: Global,
    core: &mut NodeCore,
    call: &str,
    replies: usize,
    record: &str,
) -> Option<bool> {
    let changed = calls(core, call);
    let decided = core.phase() == Phase::Decided && core.replies() == replies;
    all(&[changed, Some(decided), has_record(alloc, core, record)])
}

/// Whether the node is about nothing, with this record.
fn rests(alloc: Global, core: &NodeCore, record: &str) -> Option<bool> {
    let is_idle = core.phase() == Phase::Idle && core.replies() == 0;
    both(Some(is_idle), has_record(alloc, core, record))
}

fn restarts(alloc: Global, core: &mut NodeCore, record: &str) -> Option<bool> {
    match bytes(alloc, record) {
        Some(bytes) => {
            let restarted = core.restart(&bytes).is_ok();
            both(restarted.then_some(true), rests(alloc, core, record))
        }
        None => None,
    }
}

fn refuses(alloc: Global, core: &mut NodeCore, record: &str) -> Option<bool> {
    let refused = match core.restart(&[3]) {
        Ok(()) => Some(false),
        Err(VoterFault::Memory) => None,
        Err(found) => Some(found == VoterFault::Unreadable(RecordFault::Version)),
    };
    both(refused, has_record(alloc, core, record))
}

/// Whether a step goes as it should, and the index that the core keeps is then that of its record.
fn goes(alloc: Global, core: &mut NodeCore, step: Step) -> Option<bool> {
    let right = match step {
        Step::Plays(rows) => says_all(alloc, core, rows),
        Step::Decides(call, replies, record) => decides(alloc, core, call, replies, record),
        Step::Restarts(record) => restarts(alloc, core, record),
        Step::Refuses(record) => refuses(alloc, core, record),
        Step::Rests(record) => rests(alloc, core, record),
    };
    both(right, keeps_its_index(alloc, core))
}

/// Whether a script goes to its end.
pub(crate) fn plays(alloc: Global, core: &mut NodeCore, script: &[Step]) -> Option<bool> {
    let mut right = Some(true);
    for step in script {
        right = both(right, goes(alloc, core, *step));
    }
    right
}

/// Whether a script goes to its end in a node that has risen with this record.
pub(crate) fn plays_from(alloc: Global, record: &str, script: &[Step]) -> Option<bool> {
    follows(alloc, plain_node(alloc, record), &Course::Plays(script))
}
