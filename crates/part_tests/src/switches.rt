//! A node that takes the other problem: whom it lets in, what it keeps, and what its policies count.

use crate::courses::{Course, follows};
use crate::long_runs::keeps_its_index;
use crate::nodes::{SECOND, SWITCHED, WRITER_WAITS, keeps, read_again, risen, speaks, switches};
use crate::pairs::{counting, has_counted, plain};
use crate::rows::{both, put_entry};
use crate::scripts::{Step, plays, plays_from};
use lock_messages::{Message, Ticket};
use lock_model::{Entry, Live, Problem, Status};
use stable_record::NodeRecord;
use std::alloc::Global;
use test_outcomes::{Outcome, check_answer, check_answers};
use voter_core::NodeCore;

/// The problem that this one is not.
pub(crate) fn other(problem: Problem) -> Problem {
    match problem {
        Problem::First => Problem::Second,
        Problem::Second => Problem::First,
    }
}

/// Whether a script goes to its end from one record to another.
fn leads(alloc: Global, from: &str, script: &'static str, to: &'static str) -> Option<bool> {
    plays_from(alloc, from, &[Step::Plays(script), Step::Rests(to)])
}

const TO_THE_FIRST: &str = "switch 1 > changed Decided, grant n1 c3 1 read a";

const TO_THE_SAME: &str = "\
switch 1 > changed Decided, grant n1 c3 1 read a
switch 1 > same Stored";

// Nobody who holds is sent away, and a new reader waits again.
const THERE_AND_BACK: &str = "\
switch 2 > same Stored
switch 1 > changed Decided, grant n1 c3 1 read a
switch 2 > changed Decided
switch 2 > same Stored
request n1 c4 1 read a > changed Decided, busy n1 c4 1 read a
request n1 c3 1 read a > same Stored, grant n1 c3 1 read a
switch 1 > changed Decided, grant n1 c4 1 read a
release n1 c4 1 > changed Decided, done n1 c4 1
release n1 c3 1 > changed Decided, done n1 c3 1
release n1 c1 1 > changed Decided, done n1 c1 1, grant n1 c2 1 write a";

/// c2 holds `a` as a writer; c1, c3 and c4 have left.
const WRITER_ALONE: &str = "01 01 0004 \
00000001 0000000000000001 00 \
00000002 0000000000000000 02 0000000000000001 01 01 61 \
00000003 0000000000000001 00 \
00000004 0000000000000001 00";

#[test]
fn switch_lets_a_reader_in(rt: HostRuntime) -> Outcome {
    check_answers(&[
        leads(rt.alloc(), WRITER_WAITS, TO_THE_FIRST, SWITCHED),
        leads(rt.alloc(), WRITER_WAITS, TO_THE_SAME, SWITCHED),
        leads(rt.alloc(), WRITER_WAITS, THERE_AND_BACK, WRITER_ALONE),
    ])
}

const NOBODY_WAITS: &str = "\
switch 2 > changed Decided
switch 2 > same Stored";

/// c1 and c2 hold `a` as readers, c3 `b` as a writer, of problem 1 and of problem 2.
const HOLDERS: &str = "01 01 0003 \
00000001 0000000000000000 02 0000000000000001 00 01 61 \
00000002 0000000000000000 02 0000000000000001 00 01 61 \
00000003 0000000000000000 02 0000000000000001 01 01 62";

const HOLDERS_SWITCHED: &str = "01 02 0003 \
00000001 0000000000000000 02 0000000000000001 00 01 61 \
00000002 0000000000000000 02 0000000000000001 00 01 61 \
00000003 0000000000000000 02 0000000000000001 01 01 62";

// Without an entry.
const NOBODY_IS_KNOWN: &str = "\
switch 1 > same Stored
switch 2 > changed Decided
switch 1 > changed Decided
switch 2 > changed Decided";

#[test]
fn switch_that_lets_nobody_in(rt: HostRuntime) -> Outcome {
    check_answers(&[
        leads(rt.alloc(), HOLDERS, NOBODY_WAITS, HOLDERS_SWITCHED),
        leads(rt.alloc(), "01 01 0000", NOBODY_IS_KNOWN, "01 02 0000"),
    ])
}

/// c1 writes `a`; c2 waits for it as a reader and c3 behind it as a writer. Under problem 2.
const WRITER_HOLDS: &str = "01 02 0003 \
00000001 0000000000000000 02 0000000000000001 01 01 61 \
00000002 0000000000000000 01 0000000000000001 00 01 61 \
00000003 0000000000000000 01 0000000000000001 01 01 61";

/// The same once c1 has left, under problem 1 and under problem 2.
const READER_WAS_FIRST: &str = "01 01 0003 \
00000001 0000000000000001 00 \
00000002 0000000000000000 02 0000000000000001 00 01 61 \
00000003 0000000000000000 01 0000000000000001 01 01 61";

const WRITER_WAS_FIRST: &str = "01 02 0003 \
00000001 0000000000000001 00 \
00000002 0000000000000000 01 0000000000000001 00 01 61 \
00000003 0000000000000000 02 0000000000000001 01 01 61";

// A writer that holds lets in nobody, whatever the problem; who follows it is decided by the present one.
const READER_FOLLOWS: &str = "\
switch 1 > changed Decided
release n1 c1 1 > changed Decided, done n1 c1 1, grant n1 c2 1 read a";

const WRITER_FOLLOWS: &str = "\
switch 1 > changed Decided
switch 2 > changed Decided
release n1 c1 1 > changed Decided, done n1 c1 1, grant n1 c3 1 write a";

#[test]
fn who_follows_a_writer(rt: HostRuntime) -> Outcome {
    check_answers(&[
        leads(rt.alloc(), WRITER_HOLDS, READER_FOLLOWS, READER_WAS_FIRST),
        leads(rt.alloc(), WRITER_HOLDS, WRITER_FOLLOWS, WRITER_WAS_FIRST),
    ])
}

/// c1 has softened and holds `a`; c2 waits for it as a writer, c3 and c5 behind it as readers, and c4
/// waits for `b` as a reader, which c6 holds as a writer.
const BEHIND_A_SOFTENED: &str = "01 02 0006 \
00000001 0000000000000000 03 0000000000000001 00 01 61 \
00000002 0000000000000000 01 0000000000000001 01 01 61 \
00000005 0000000000000000 01 0000000000000001 00 01 61 \
00000004 0000000000000000 01 0000000000000001 00 01 62 \
00000003 0000000000000000 01 0000000000000001 00 01 61 \
00000006 0000000000000000 02 0000000000000001 01 01 62";

const BESIDE_A_SOFTENED: &str = "01 01 0006 \
00000001 0000000000000000 03 0000000000000001 00 01 61 \
00000002 0000000000000000 01 0000000000000001 01 01 61 \
00000005 0000000000000000 02 0000000000000001 00 01 61 \
00000004 0000000000000000 01 0000000000000001 00 01 62 \
00000003 0000000000000000 02 0000000000000001 00 01 61 \
00000006 0000000000000000 02 0000000000000001 01 01 62";

// In the order of the entries.
const BOTH_IN: &str = "switch 1 > changed Decided, grant n1 c5 1 read a, grant n1 c3 1 read a";

#[test]
fn switch_beside_a_softened_holder(rt: HostRuntime) -> Outcome {
    let answer = leads(rt.alloc(), BEHIND_A_SOFTENED, BOTH_IN, BESIDE_A_SOFTENED);
    check_answer(answer, 0)
}

// Each half counts the readers that came under its problem, once; a switch lets in c3 and c5, of which
// nobody is told again.
const COUNTED: &str = "\
request n1 c1 1 read a > changed Decided, grant n1 c1 1 read a
request n1 c2 1 write a > changed Decided, busy n1 c2 1 write a
request n1 c3 1 read a > changed Decided, busy n1 c3 1 read a
switch 1 > changed Decided, grant n1 c3 1 read a
switch 1 > same Stored
request n1 c3 1 read a > same Stored, grant n1 c3 1 read a
request n1 c4 1 read a > changed Decided, grant n1 c4 1 read a
switch 2 > changed Decided
request n1 c5 1 read a > changed Decided, busy n1 c5 1 read a
request n1 c6 1 read b > changed Decided, grant n1 c6 1 read b
switch 1 > changed Decided, grant n1 c5 1 read a
request n1 c7 1 write c > changed Decided, grant n1 c7 1 write c
request n1 c8 1 read c > changed Decided, busy n1 c8 1 read c
switch 2 > changed Decided";

/// Whether the policies of a node of problem 2 fall out of it with what was counted under each problem.
fn counts(alloc: Global) -> Option<bool> {
    match risen(alloc, &SECOND, counting(alloc)) {
        Some(core) => {
            let mut core = core;
            let right = plays(alloc, &mut core, &[Step::Plays(COUNTED)]);
            both(right, Some(has_counted(&core.fall(), ((1, 1), (2, 2)))))
        }
        None => None,
    }
}

#[test]
fn counted_under_each_problem(rt: HostRuntime) -> Outcome {
    check_answer(counts(rt.alloc()), 0)
}

/// Adds the entry at a place of a record; whether there is one, and was memory.
fn put_entry_at(entries: &mut Vec<Entry>, record: &NodeRecord, place: usize) -> bool {
    let Some(
        Entry {
            client,
            floor,
            live,
        },
    ) = record.entries.get(place)
    else {
        return false;
    };
    let live: Option<Live> = live;
    let entry = Entry {
        client,
        floor,
        live,
    };
    entries.push(entry).is_ok()
}

/// Adds the entries of a record; whether there was memory.
fn put_entries(entries: &mut Vec<Entry>, record: &NodeRecord) -> bool {
    let mut put = true;
    for place in 0..record.entries.len() {
        put &= put_entry_at(entries, record, place);
    }
    put
}

/// Adds the entries of the node's record, as it can be read again; whether it can.
fn put_entries_of(alloc: Global, core: &NodeCore, entries: &mut Vec<Entry>) -> bool {
    match read_again(alloc, core) {
        Some(record) => put_entries(entries, &record),
        None => false,
    }
}

/// The entries of the node's record, as it can be read again.
pub(crate) fn entries_of(alloc: Global, core: &NodeCore) -> Option<Vec<Entry>> {
    let mut entries = Vec::new(alloc);
    if put_entries_of(alloc, core, &mut entries) {
        Some(entries)
    } else {
        None
    }
}

/// Whether a ticket waited that holds now, the rest of its entry as it was.
fn is_let_in(before: &Entry, after: &Entry) -> bool {
    match before.live {
        Some(live) => {
            let holds = Live {
                status: Status::Holding,
                ..live
            };
            let entry = Entry {
                client: before.client,
                floor: before.floor,
                live: Some(holds),
            };
            live.waits() && entry == *after
        }
        None => false,
    }
}

/// Whether a reply is the Grant of n1 to the ticket of an entry.
fn is_granted(core: &NodeCore, entry: &Entry, reply: Option<&Message>) -> bool {
    match (entry.live, reply) {
        (Some(live), Some(Message::Grant(node, ticket))) => {
            let wanted = Ticket {
                client: entry.client,
                attempt: live.attempt,
                mode: live.mode,
                resource: live.resource,
            };
            *node == core.node() && *ticket == wanted
        }
        _ => false,
    }
}

/// How many tickets were let in, each by one reply, in order; every other entry is as it was. None where
/// something differs.
fn count_let_in(
    core: &NodeCore,
    before: &[Entry],
    after: &[Entry],
    replies: &[Message],
) -> Option<usize> {
    let mut right = after.len() == before.len();
    let mut said = 0usize;
    for (old, new) in before.iter().zip(after) {
        if old != new {
            right &= is_let_in(old, new) && is_granted(core, new, replies.get(said));
            said = said.saturating_add(1);
        }
    }
    (right && said == replies.len()).then_some(said)
}

/// The same of a node that has said these replies. None also where the index isn't that of the record.
fn said(alloc: Global, core: &NodeCore, before: &[Entry], replies: &[Message]) -> Option<usize> {
    match entries_of(alloc, core) {
        Some(after) if keeps_its_index(alloc, core) == Some(true) => {
            count_let_in(core, before, &after, replies)
        }
        _ => None,
    }
}

fn switched_from(
    alloc: Global,
    core: &mut NodeCore,
    problem: Problem,
    before: &[Entry],
) -> Option<usize> {
    let is_other = switches(core, problem) == Some(true);
    keeps(core);
    match speaks(core) {
        Some(replies) if is_other => said(alloc, core, before, &replies),
        _ => None,
    }
}

/// Gives a node the other problem, keeps that, and counts whom it lets in. None where its record can't be
/// read again, which no record can that has a waiting ticket without a cause; or where the index isn't that
/// of the record.
pub(crate) fn switched(alloc: Global, core: &mut NodeCore, problem: Problem) -> Option<usize> {
    match entries_of(alloc, core) {
        Some(before) => switched_from(alloc, core, problem, &before),
        None => None,
    }
}

/// Adds the entry of a client to the record below; whether there was memory.
fn put_in_the_crowd(out: &mut Vec<u8>, problem: Problem, client: u32) -> bool {
    let (state, letter) = match (problem, client) {
        (Problem::First, 1) => ((2, 1), b'a'),
        (Problem::First, _) => ((1, 0), b'a'),
        (Problem::Second, 1..=8) => ((2, 0), b'a' + (client % 8) as u8),
        (Problem::Second, 9..=16) => ((1, 1), b'a' + (client % 8) as u8),
        (Problem::Second, _) => ((1, 0), b'a' + (client % 8) as u8),
    };
    put_entry(out, client, 1, state, &[letter])
}

/// Adds the record of problem 1 in which c1 holds `a` as a writer, and c2 to c1024 wait for it as readers;
/// or that of problem 2 in which c1 to c1024 ask for `a` to `h` in turn: of each resource the first client
/// holds it as a reader, the next waits for it as a writer, and all others wait behind that one as readers.
fn put_crowd(out: &mut Vec<u8>, problem: Problem) -> bool {
    let number = if problem == Problem::First { 1 } else { 2 };
    let mut put = out.extend_from_slice(&[1, number, 4, 0]).is_ok();
    for client in 1..=1_024u32 {
        put &= put_in_the_crowd(out, problem, client);
    }
    put
}

/// The node that has risen with that record.
pub(crate) fn crowded_node(alloc: Global, problem: Problem) -> Option<NodeCore> {
    let mut record = Vec::new(alloc);
    if put_crowd(&mut record, problem) {
        risen(alloc, &record, plain(alloc))
    } else {
        None
    }
}

/// Whether a switch lets in all readers that wait, and later ones let in nobody more.
pub(crate) fn lets_in_once(alloc: Global, core: &mut NodeCore) -> Option<bool> {
    let all_in = switched(alloc, core, Problem::First) == Some(1_008);
    let back = switched(alloc, core, Problem::Second) == Some(0);
    let again = switched(alloc, core, Problem::First) == Some(0);
    (all_in && back && again).then_some(true)
}

#[test]
fn many_lines_at_once(rt: HostRuntime) -> Outcome {
    let core = crowded_node(rt.alloc(), Problem::Second);
    check_answer(follows(rt.alloc(), core, &Course::LetsInOnce), 0)
}
