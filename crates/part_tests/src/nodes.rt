//! What the tests of nodes share: a node's core beside the plain decision.

use crate::pairs::plain;
use crate::replies::{Replies, are};
use crate::rows::{are_spelled, bytes, message};
use admission_policy::Pair;
use lock_messages::{Message, NodeId};
use lock_model::{Decision, Entry, Problem, decide};
use stable_record::{NodeRecord, node_bytes, read_node};
use std::alloc::Global;
use voter_core::{NodeCore, Phase};

/// The records without entries, of problem 1 and of problem 2.
pub(crate) const FIRST: [u8; 4] = [1, 1, 0, 0];

pub(crate) const SECOND: [u8; 4] = [1, 2, 0, 0];

/// c1 holds `a` as a reader, c2 waits for it as a writer, c3 waits behind c2 as a reader.
pub(crate) const WRITER_WAITS: &str = "01 02 0003 \
00000001 0000000000000000 02 0000000000000001 00 01 61 \
00000002 0000000000000000 01 0000000000000001 01 01 61 \
00000003 0000000000000000 01 0000000000000001 00 01 61";

/// The same after c2's release: c3 holds too.
pub(crate) const SETTLED: &str = "01 02 0003 \
00000001 0000000000000000 02 0000000000000001 00 01 61 \
00000002 0000000000000001 00 \
00000003 0000000000000000 02 0000000000000001 00 01 61";

/// The record in which a writer waits once the node has taken problem 1: c3 holds too.
pub(crate) const SWITCHED: &str = "01 01 0003 \
00000001 0000000000000000 02 0000000000000001 00 01 61 \
00000002 0000000000000000 01 0000000000000001 01 01 61 \
00000003 0000000000000000 02 0000000000000001 00 01 61";

/// c1, which was a writer, is softened and holds `a` as a reader beside c2; c3 waits for it as a writer.
pub(crate) const SOFTENED: &str = "01 01 0003 \
00000001 0000000000000000 03 0000000000000001 00 01 61 \
00000002 0000000000000000 02 0000000000000001 00 01 61 \
00000003 0000000000000000 01 0000000000000001 01 01 61";

/// n1 with this record.
pub(crate) fn risen(alloc: Global, record: &[u8], policies: Option<Pair>) -> Option<NodeCore> {
    let Some(policies) = policies else {
        return None;
    };
    match NodeCore::rise(alloc, NodeId::of(1).unwrap(), record, policies) {
        Ok(core) => Some(core),
        Err((_policies, _fault)) => None,
    }
}

/// n1 with the record that a row spells, and plain policies.
pub(crate) fn plain_node(alloc: Global, record: &str) -> Option<NodeCore> {
    match bytes(alloc, record) {
        Some(record) => risen(alloc, &record, plain(alloc)),
        None => None,
    }
}

/// A node without entries, and with plain policies.
pub(crate) fn new_core(alloc: Global, problem: Problem) -> Option<NodeCore> {
    let record = match problem {
        Problem::First => FIRST,
        Problem::Second => SECOND,
    };
    risen(alloc, &record, plain(alloc))
}

/// Whether a record is written as these bytes.
pub(crate) fn is_written_so(alloc: Global, node: &NodeRecord, bytes: &[u8]) -> Option<bool> {
    match node_bytes(alloc, node) {
        Ok(written) => Some(written.as_slice() == bytes),
        Err(_) => None,
    }
}

/// Whether the node's record is the one that the row spells.
pub(crate) fn has_record(alloc: Global, core: &NodeCore, row: &str) -> Option<bool> {
    match core.next_bytes(alloc) {
        Ok(found) => are_spelled(alloc, &found, row),
        Err(_) => None,
    }
}

/// Takes a message, and neither keeps the record nor replies. Whether it changes the record.
pub(crate) fn takes(core: &mut NodeCore, message: &Message) -> Option<bool> {
    if core.phase() == Phase::Idle && message.is_for_node(core.node()) {
        core.take(message).ok()
    } else {
        None
    }
}

/// Takes a problem, and neither keeps the record nor replies. Whether it is another one.
pub(crate) fn switches(core: &mut NodeCore, problem: Problem) -> Option<bool> {
    if core.phase() == Phase::Idle {
        core.switch(problem).ok()
    } else {
        None
    }
}

/// The problem that a call gives the node, if it gives one.
fn problem_of(call: &str) -> Option<Problem> {
    match call {
        "switch 1" => Some(Problem::First),
        "switch 2" => Some(Problem::Second),
        _ => None,
    }
}

/// Makes a call, as `switch 1` or a message; whether the record changes.
pub(crate) fn calls(core: &mut NodeCore, call: &str) -> Option<bool> {
    match (problem_of(call), message(call)) {
        (Some(problem), _) => switches(core, problem),
        (None, Some(message)) => takes(core, &message),
        (None, None) => None,
    }
}

/// Keeps a decided record.
pub(crate) fn keeps(core: &mut NodeCore) {
    if core.phase() == Phase::Decided {
        core.kept();
    }
}

/// Says the replies.
pub(crate) fn speaks(core: &mut NodeCore) -> Option<Vec<Message>> {
    if core.phase() == Phase::Stored {
        Some(core.speak())
    } else {
        None
    }
}

/// Whether the record has these entries.
fn has_entries(record: &NodeRecord, entries: &[Entry]) -> bool {
    let mut right = record.entries.len() == entries.len();
    for (place, entry) in entries.iter().enumerate() {
        right &= record.entries.get(place) == Some(*entry);
    }
    right
}

/// The record of a node, as it is read again.
pub(crate) fn read_again(alloc: Global, core: &NodeCore) -> Option<NodeRecord> {
    match core.next_bytes(alloc) {
        Ok(bytes) => read_node(alloc, &bytes).ok(),
        Err(_) => None,
    }
}

/// Whether the node's record can be read again, and has these entries.
fn keeps_entries(alloc: Global, core: &NodeCore, entries: &[Entry]) -> bool {
    match read_again(alloc, core) {
        Some(record) => has_entries(&record, entries),
        None => false,
    }
}

/// Whether the node says these replies.
fn says(core: &mut NodeCore, replies: &[Message]) -> bool {
    match speaks(core) {
        Some(said) => said.as_slice() == replies,
        None => false,
    }
}

/// Whether a core makes of a message what the plain decision did.
fn is_same(alloc: Global, core: &mut NodeCore, message: &Message, plain: &Decision) -> bool {
    let changed = takes(core, message) == Some(plain.changed);
    keeps(core);
    let said = says(core, &plain.replies);
    changed && said && keeps_entries(alloc, core, &plain.entries)
}

/// Takes a message by the plain decision and by a core. Whether the entries change; none where the core
/// differs in something, or the replies aren't those that are wanted.
pub(crate) fn same_step(
    alloc: Global,
    problem: Problem,
    core: &mut NodeCore,
    entries: &mut Vec<Entry>,
    message: &Message,
    want: &Replies,
) -> Option<bool> {
    match decide(alloc, problem, entries, message) {
        Ok(plain) => {
            let changed = plain.entries.as_slice() != entries.as_slice();
            let right = is_same(alloc, core, message, &plain)
                && are(alloc, &plain.replies, want)
                && plain.changed == changed;
            *entries = plain.entries;
            right.then_some(changed)
        }
        Err(_) => None,
    }
}
