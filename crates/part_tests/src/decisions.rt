//! What a node decides, by the plain decision and by a node's core, which answer the same: scripts
//! of messages, each with its replies.

use crate::courses::{Course, Left, follows};
use crate::nodes::{SETTLED, WRITER_WAITS, has_record, new_core, same_step};
use crate::replies::{Replies, client_at};
use crate::rows::{both, message, release};
use crate::scripts::{Step, plays_from};
use lock_model::{Entry, Problem, Status, decide};
use std::alloc::Global;
use test_outcomes::{Outcome, check_answer};
use voter_core::NodeCore;

/// Adds an entry's client with its floor and, of a live ticket, whether it holds, and as what; whether there
/// was memory.
fn tell_entry(shape: &mut String, entry: &Entry) -> bool {
    let (client, floor) = (entry.client, entry.floor);
    let live = match entry.live {
        None => "free",
        Some(live) => match live.status {
            Status::Waiting => "waits",
            Status::Holding => "holds",
            Status::Softened => "softened",
        },
    };
    write!(shape, ", {client} {floor} {live}").is_ok()
}

/// Adds the clients in the order of their entries; whether there was memory.
fn tell_shape(shape: &mut String, entries: &[Entry]) -> bool {
    let mut told = true;
    for entry in entries {
        told &= tell_entry(shape, entry);
    }
    told
}

/// Whether entries have this shape.
fn has_shape(alloc: Global, entries: &[Entry], left: &str) -> Option<bool> {
    let mut shape = String::new(alloc);
    if tell_shape(&mut shape, entries) {
        Some(shape.get(2..) == Some(left))
    } else {
        None
    }
}

/// Takes the message of a row; whether its replies are the row's.
fn step(
    alloc: Global,
    problem: Problem,
    core: &mut NodeCore,
    entries: &mut Vec<Entry>,
    row: &str,
) -> bool {
    let (said, want) = row.split_once(" > ").unwrap_or((row, ""));
    match message(said) {
        Some(message) => {
            let want = Replies::Said(want);
            same_step(alloc, problem, core, entries, &message, &want).is_some()
        }
        None => false,
    }
}

/// Whether a script goes to its end.
fn play(
    alloc: Global,
    problem: Problem,
    core: &mut NodeCore,
    entries: &mut Vec<Entry>,
    script: &str,
) -> bool {
    let mut right = true;
    for row in script.lines() {
        right &= step(alloc, problem, core, entries, row);
    }
    right
}

/// Problems, under each of which a script leads from no entries to this.
type Lead = (&'static [Problem], &'static str, Left);

const FIRST: &[Problem] = &[Problem::First];

const SECOND: &[Problem] = &[Problem::Second];

const BOTH: &[Problem] = &[Problem::First, Problem::Second];

fn is_left(alloc: Global, core: &NodeCore, entries: &[Entry], left: Left) -> Option<bool> {
    match left {
        Left::Shape(shape) => has_shape(alloc, entries, shape),
        Left::Record(record) => has_record(alloc, core, record),
    }
}

/// Whether a script leads to this.
pub(crate) fn leads(
    alloc: Global,
    problem: Problem,
    core: &mut NodeCore,
    entries: &mut Vec<Entry>,
    script: &str,
    left: Left,
) -> Option<bool> {
    let right = play(alloc, problem, core, entries, script);
    both(right.then_some(true), is_left(alloc, core, entries, left))
}

/// Plays a script under each of its problems.
fn lead(alloc: Global, row: &Lead, number: usize) -> Outcome {
    for problem in row.0 {
        let course = Course::Leads(*problem, row.1, row.2);
        check_answer(follows(alloc, new_core(alloc, *problem), &course), number)?;
    }
    Ok(())
}

/// Plays the scripts.
fn lead_all(alloc: Global, rows: &[Lead]) -> Outcome {
    for (number, row) in rows.iter().enumerate() {
        lead(alloc, row, number)?;
    }
    Ok(())
}

const FIRST_READER: &str = "\
request n1 c1 1 read a > grant n1 c1 1 read a
request n1 c1 1 read a > grant n1 c1 1 read a";

const FIRST_READER_LEADS: [Lead; 1] = [(BOTH, FIRST_READER, Left::Shape("c1 0 holds"))];

#[test]
fn first_reader(rt: HostRuntime) -> Outcome {
    lead_all(rt.alloc(), &FIRST_READER_LEADS)
}

const WRITER_BEHIND_READER: &str = "\
request n1 c1 1 read a > grant n1 c1 1 read a
request n1 c2 1 write a > busy n1 c2 1 write a
request n1 c2 1 write a > busy n1 c2 1 write a";

const WRITER_BEHIND_READER_LEADS: [Lead; 1] = [(
    BOTH,
    WRITER_BEHIND_READER,
    Left::Shape("c1 0 holds, c2 0 waits"),
)];

#[test]
fn writer_behind_reader(rt: HostRuntime) -> Outcome {
    lead_all(rt.alloc(), &WRITER_BEHIND_READER_LEADS)
}

const RELEASE_THEN_LATE_REQUEST: &str = "\
request n1 c1 1 read a > grant n1 c1 1 read a
release n1 c1 1 > done n1 c1 1
request n1 c1 1 read a > over n1 c1 1
release n1 c1 1 > done n1 c1 1
release n1 c4 3 > done n1 c4 3";

const RELEASE_THEN_LATE_REQUEST_LEADS: [Lead; 1] = [(
    BOTH,
    RELEASE_THEN_LATE_REQUEST,
    Left::Shape("c1 1 free, c4 3 free"),
)];

#[test]
fn release_then_late_request(rt: HostRuntime) -> Outcome {
    lead_all(rt.alloc(), &RELEASE_THEN_LATE_REQUEST_LEADS)
}

const READER_PASSES: &str = "\
request n1 c1 1 read a > grant n1 c1 1 read a
request n1 c2 1 write a > busy n1 c2 1 write a
request n1 c3 1 read a > grant n1 c3 1 read a";

const READER_WAITS: &str = "\
request n1 c1 1 read a > grant n1 c1 1 read a
request n1 c2 1 write a > busy n1 c2 1 write a
request n1 c3 1 read a > busy n1 c3 1 read a";

const WAITING_WRITER_LEADS: [Lead; 2] = [
    (
        FIRST,
        READER_PASSES,
        Left::Shape("c1 0 holds, c2 0 waits, c3 0 holds"),
    ),
    (SECOND, READER_WAITS, Left::Record(WRITER_WAITS)),
];

#[test]
fn waiting_writer(rt: HostRuntime) -> Outcome {
    lead_all(rt.alloc(), &WAITING_WRITER_LEADS)
}

const NOTHING_TO_SETTLE: &str = "\
request n1 c1 1 read a > grant n1 c1 1 read a
request n1 c2 1 write a > busy n1 c2 1 write a
request n1 c3 1 read a > grant n1 c3 1 read a
release n1 c2 1 > done n1 c2 1
release n1 c2 1 > done n1 c2 1";

const RELEASE_SETTLES: &str = "\
request n1 c1 1 read a > grant n1 c1 1 read a
request n1 c2 1 write a > busy n1 c2 1 write a
request n1 c3 1 read a > busy n1 c3 1 read a
release n1 c2 1 > done n1 c2 1, grant n1 c3 1 read a";

const RELEASE_SETTLES_LEADS: [Lead; 2] = [
    (
        FIRST,
        NOTHING_TO_SETTLE,
        Left::Shape("c1 0 holds, c2 1 free, c3 0 holds"),
    ),
    (SECOND, RELEASE_SETTLES, Left::Record(SETTLED)),
];

#[test]
fn release_settles(rt: HostRuntime) -> Outcome {
    lead_all(rt.alloc(), &RELEASE_SETTLES_LEADS)
}

const MUDDLED_REQUEST: &str = "\
request n1 c1 1 read a > grant n1 c1 1 read a
request n1 c1 1 write a > muddled n1 c1 1
request n1 c1 1 read b > muddled n1 c1 1";

const MUDDLED_REQUEST_LEADS: [Lead; 1] = [(BOTH, MUDDLED_REQUEST, Left::Shape("c1 0 holds"))];

/// c1 holds `a` as a reader.
const READS_A: &str = "01 01 0001 \
00000001 0000000000000000 02 0000000000000001 00 01 61";

const MUDDLES: &str = "\
request n1 c1 1 write a > same Stored, muddled n1 c1 1
request n1 c1 1 read b > same Stored, muddled n1 c1 1";

const MUDDLED_REQUEST_STEPS: [Step; 2] = [Step::Plays(MUDDLES), Step::Rests(READS_A)];

#[test]
fn muddled_request(rt: HostRuntime) -> Outcome {
    lead_all(rt.alloc(), &MUDDLED_REQUEST_LEADS)?;
    check_answer(plays_from(rt.alloc(), READS_A, &MUDDLED_REQUEST_STEPS), 0)
}

const NEXT_ATTEMPT: &str = "\
request n1 c1 1 write a > grant n1 c1 1 write a
request n1 c2 1 read a > busy n1 c2 1 read a
request n1 c1 2 read b > grant n1 c1 2 read b, grant n1 c2 1 read a";

/// c2 holds `a` as a reader; then c1, whose attempt 1 has ended, holds `b` as a reader.
const NEXT_ATTEMPT_RECORD: &str = "01 01 0002 \
00000002 0000000000000000 02 0000000000000001 00 01 61 \
00000001 0000000000000001 02 0000000000000002 00 01 62";

const NEXT_ATTEMPT_SETTLES_THE_LAST_LEADS: [Lead; 2] = [
    (BOTH, NEXT_ATTEMPT, Left::Shape("c2 0 holds, c1 1 holds")),
    (FIRST, NEXT_ATTEMPT, Left::Record(NEXT_ATTEMPT_RECORD)),
];

#[test]
fn next_attempt_settles_the_last(rt: HostRuntime) -> Outcome {
    lead_all(rt.alloc(), &NEXT_ATTEMPT_SETTLES_THE_LAST_LEADS)
}

// A writer softens, and is told so again for a late copy of its request.
const SOFTENED_WRITER: &str = "\
request n1 c1 1 write a > grant n1 c1 1 write a
request n1 c2 1 read a > busy n1 c2 1 read a
soften n1 c1 1 > softened n1 c1 1, grant n1 c2 1 read a
request n1 c1 1 write a > softened n1 c1 1
soften n1 c1 1 > softened n1 c1 1";

/// c1 has softened and holds `a` as a reader, and so does c2.
const SOFTENED_RECORD: &str = "01 01 0002 \
00000001 0000000000000000 03 0000000000000001 00 01 61 \
00000002 0000000000000000 02 0000000000000001 00 01 61";

// All readers who wait are let in, in their order, and who waits for another resource is not.
const SOFTENING_FOR_ALL: &str = "\
request n1 c4 1 write b > grant n1 c4 1 write b
request n1 c1 3 write a > grant n1 c1 3 write a
request n1 c3 1 read a > busy n1 c3 1 read a
request n1 c5 1 read b > busy n1 c5 1 read b
request n1 c2 1 read a > busy n1 c2 1 read a
soften n1 c1 3 > softened n1 c1 3, grant n1 c3 1 read a, grant n1 c2 1 read a
request n1 c6 1 read a > grant n1 c6 1 read a
request n1 c7 1 write a > busy n1 c7 1 write a";

const ALL_IN: &str =
    "c4 0 holds, c1 2 softened, c3 0 holds, c5 0 waits, c2 0 holds, c6 0 holds, c7 0 waits";

const SOFTENING_LETS_READERS_IN_LEADS: [Lead; 3] = [
    (
        BOTH,
        SOFTENED_WRITER,
        Left::Shape("c1 0 softened, c2 0 holds"),
    ),
    (BOTH, SOFTENING_FOR_ALL, Left::Shape(ALL_IN)),
    (FIRST, SOFTENED_WRITER, Left::Record(SOFTENED_RECORD)),
];

#[test]
fn softening_lets_readers_in(rt: HostRuntime) -> Outcome {
    lead_all(rt.alloc(), &SOFTENING_LETS_READERS_IN_LEADS)
}

// The writer that waits stays out until all readers have left, the softened one among them.
const SOFTENING_PASSES_A_WRITER: &str = "\
request n1 c1 1 write a > grant n1 c1 1 write a
request n1 c2 1 write a > busy n1 c2 1 write a
request n1 c3 1 read a > busy n1 c3 1 read a
soften n1 c1 1 > softened n1 c1 1, grant n1 c3 1 read a
request n1 c2 1 write a > busy n1 c2 1 write a
release n1 c3 1 > done n1 c3 1
request n1 c2 1 write a > busy n1 c2 1 write a
release n1 c1 1 > done n1 c1 1, grant n1 c2 1 write a";

// Behind it a reader waits too.
const SOFTENING_BEHIND_A_WRITER: &str = "\
request n1 c1 1 write a > grant n1 c1 1 write a
request n1 c2 1 write a > busy n1 c2 1 write a
request n1 c3 1 read a > busy n1 c3 1 read a
soften n1 c1 1 > softened n1 c1 1
request n1 c2 1 write a > busy n1 c2 1 write a
request n1 c3 1 read a > busy n1 c3 1 read a
request n1 c4 1 read a > busy n1 c4 1 read a
release n1 c1 1 > done n1 c1 1, grant n1 c2 1 write a";

const SOFTENING_BEFORE_A_WRITER_LEADS: [Lead; 2] = [
    (
        FIRST,
        SOFTENING_PASSES_A_WRITER,
        Left::Shape("c1 1 free, c2 0 holds, c3 1 free"),
    ),
    (
        SECOND,
        SOFTENING_BEHIND_A_WRITER,
        Left::Shape("c1 1 free, c2 0 holds, c3 0 waits, c4 0 waits"),
    ),
];

#[test]
fn softening_before_a_writer(rt: HostRuntime) -> Outcome {
    lead_all(rt.alloc(), &SOFTENING_BEFORE_A_WRITER_LEADS)
}

// After the release nothing is left to be softened.
const SOFTENING_AFTER_THE_RELEASE: &str = "\
request n1 c1 1 write a > grant n1 c1 1 write a
request n1 c2 1 write a > busy n1 c2 1 write a
release n1 c1 1 > done n1 c1 1, grant n1 c2 1 write a
request n1 c3 1 read a > busy n1 c3 1 read a
soften n1 c1 1 > softened n1 c1 1";

// Neither an attempt before it nor one behind it softens a writer.
const SOFTENING_OF_ANOTHER_ATTEMPT: &str = "\
request n1 c1 5 write a > grant n1 c1 5 write a
request n1 c2 1 read a > busy n1 c2 1 read a
soften n1 c1 4 > softened n1 c1 4
soften n1 c1 6 > softened n1 c1 6
soften n1 c3 5 > softened n1 c3 5
request n1 c1 5 write a > grant n1 c1 5 write a
request n1 c2 1 read a > busy n1 c2 1 read a";

// Nor is a reader softened, whether it holds or waits.
const SOFTENING_OF_READERS: &str = "\
request n1 c1 1 read a > grant n1 c1 1 read a
request n1 c2 1 write b > grant n1 c2 1 write b
request n1 c3 1 read b > busy n1 c3 1 read b
soften n1 c1 1 > softened n1 c1 1
soften n1 c3 1 > softened n1 c3 1
request n1 c1 1 read a > grant n1 c1 1 read a
request n1 c3 1 read b > busy n1 c3 1 read b";

const SOFTENING_OF_A_STRANGER: &str = "\
soften n1 c1 1 > softened n1 c1 1
soften n1 c1 1 > softened n1 c1 1";

// A request that comes behind its softening is new, and its client a writer.
const SOFTENING_BEFORE_THE_REQUEST: &str = "\
soften n1 c1 1 > softened n1 c1 1
request n1 c1 1 write a > grant n1 c1 1 write a
request n1 c2 1 read a > busy n1 c2 1 read a";

const SOFTENING_THAT_CHANGES_NOTHING_LEADS: [Lead; 6] = [
    (
        BOTH,
        SOFTENING_AFTER_THE_RELEASE,
        Left::Shape("c1 1 free, c2 0 holds, c3 0 waits"),
    ),
    (
        BOTH,
        SOFTENING_OF_ANOTHER_ATTEMPT,
        Left::Shape("c1 4 holds, c2 0 waits"),
    ),
    (
        BOTH,
        SOFTENING_OF_READERS,
        Left::Shape("c1 0 holds, c2 0 holds, c3 0 waits"),
    ),
    (
        BOTH,
        SOFTENING_BEFORE_THE_REQUEST,
        Left::Shape("c1 0 holds, c2 0 waits"),
    ),
    (FIRST, SOFTENING_OF_A_STRANGER, Left::Record("01 01 0000")),
    (SECOND, SOFTENING_OF_A_STRANGER, Left::Record("01 02 0000")),
];

#[test]
fn softening_that_changes_nothing(rt: HostRuntime) -> Outcome {
    lead_all(rt.alloc(), &SOFTENING_THAT_CHANGES_NOTHING_LEADS)
}

// A writer that waits is taken away, and whoever waits behind it is let in. Its floor and its place stay;
// a late copy of its request is new, and stands at the end.
const SOFTENING_OF_A_WAITER: &str = "\
request n1 c1 1 read a > grant n1 c1 1 read a
request n1 c2 5 write a > busy n1 c2 5 write a
request n1 c3 1 read a > busy n1 c3 1 read a
soften n1 c2 5 > softened n1 c2 5, grant n1 c3 1 read a";

// Behind a writer that holds nobody is let in, and a second softening finds nothing.
const SOFTENING_BEHIND_A_HOLDER: &str = "\
request n1 c1 1 write a > grant n1 c1 1 write a
request n1 c2 5 write a > busy n1 c2 5 write a
request n1 c3 1 read a > busy n1 c3 1 read a
soften n1 c2 5 > softened n1 c2 5
soften n1 c2 5 > softened n1 c2 5";

// The same, and what follows it.
const LATE_COPY: &str = "\
request n1 c1 1 read a > grant n1 c1 1 read a
request n1 c2 5 write a > busy n1 c2 5 write a
request n1 c3 1 read a > busy n1 c3 1 read a
soften n1 c2 5 > softened n1 c2 5, grant n1 c3 1 read a
request n1 c2 5 write a > busy n1 c2 5 write a
request n1 c4 1 read a > busy n1 c4 1 read a
soften n1 c2 5 > softened n1 c2 5, grant n1 c4 1 read a";

const SOFTENING_OF_A_WRITER_THAT_WAITS_LEADS: [Lead; 3] = [
    (
        BOTH,
        SOFTENING_BEHIND_A_HOLDER,
        Left::Shape("c1 0 holds, c2 4 free, c3 0 waits"),
    ),
    (
        SECOND,
        SOFTENING_OF_A_WAITER,
        Left::Shape("c1 0 holds, c2 4 free, c3 0 holds"),
    ),
    (
        SECOND,
        LATE_COPY,
        Left::Shape("c1 0 holds, c3 0 holds, c2 4 free, c4 0 holds"),
    ),
];

#[test]
fn softening_of_a_writer_that_waits(rt: HostRuntime) -> Outcome {
    lead_all(rt.alloc(), &SOFTENING_OF_A_WRITER_THAT_WAITS_LEADS)
}

// Of a softened attempt no request is new.
const REQUESTS_OF_A_SOFTENED_ATTEMPT: &str = "\
request n1 c1 1 write a > grant n1 c1 1 write a
soften n1 c1 1 > softened n1 c1 1
request n1 c1 1 write a > softened n1 c1 1
request n1 c1 1 read a > muddled n1 c1 1
request n1 c1 1 write b > muddled n1 c1 1
request n1 c1 1 read b > muddled n1 c1 1
request n1 c1 1 write a > softened n1 c1 1";

// It ends with a later one, as any.
const AFTER_A_SOFTENED_ATTEMPT: &str = "\
request n1 c1 1 write a > grant n1 c1 1 write a
soften n1 c1 1 > softened n1 c1 1
request n1 c2 1 write a > busy n1 c2 1 write a
request n1 c1 2 read b > grant n1 c1 2 read b, grant n1 c2 1 write a
request n1 c1 1 write a > over n1 c1 1
soften n1 c1 1 > softened n1 c1 1";

const REQUESTS_AND_SOFTENING_LEADS: [Lead; 2] = [
    (
        BOTH,
        REQUESTS_OF_A_SOFTENED_ATTEMPT,
        Left::Shape("c1 0 softened"),
    ),
    (
        BOTH,
        AFTER_A_SOFTENED_ATTEMPT,
        Left::Shape("c2 0 holds, c1 1 holds"),
    ),
];

#[test]
fn requests_and_softening(rt: HostRuntime) -> Outcome {
    lead_all(rt.alloc(), &REQUESTS_AND_SOFTENING_LEADS)
}

// What is for a client.
const OTHER_MESSAGES: &str = "\
grant n1 c1 1 read a
busy n1 c1 1 read a
over n1 c1 1
done n1 c1 1
muddled n1 c1 1
softened n1 c1 1";

/// Whether the message of a row changes nothing, and has no reply.
fn stays(alloc: Global, entries: &[Entry], row: &str) -> Option<bool> {
    let Some(message) = message(row) else {
        return None;
    };
    match decide(alloc, Problem::First, entries, &message) {
        Ok(decision) => {
            let is_same = decision.entries.as_slice() == entries;
            Some(is_same && !decision.changed && decision.replies.is_empty())
        }
        Err(_) => None,
    }
}

/// Whether each of these messages changes nothing, and has no reply.
fn stays_the_same(alloc: Global, entries: &[Entry]) -> Option<bool> {
    let mut right = Some(true);
    for row in OTHER_MESSAGES.lines() {
        right = both(right, stays(alloc, entries, row));
    }
    right
}

/// Whether they do so at a node where c1 reads `a`.
pub(crate) fn others_change_nothing(
    alloc: Global,
    core: &mut NodeCore,
    entries: &mut Vec<Entry>,
) -> Option<bool> {
    let right = play(alloc, Problem::First, core, entries, FIRST_READER);
    both(right.then_some(true), stays_the_same(alloc, entries))
}

#[test]
fn other_messages_change_nothing(rt: HostRuntime) -> Outcome {
    let core = new_core(rt.alloc(), Problem::First);
    check_answer(follows(rt.alloc(), core, &Course::ChangesNothing), 0)
}

/// Takes the release of the first digit's client; whether it lets in the clients of the other digits, and
/// nobody else.
fn releases(
    alloc: Global,
    problem: Problem,
    core: &mut NodeCore,
    entries: &mut Vec<Entry>,
    digits: &str,
) -> bool {
    match release(client_at(digits, 0), 1) {
        Some(message) => {
            let want = Replies::To(digits);
            same_step(alloc, problem, core, entries, &message, &want).is_some()
        }
        None => false,
    }
}

/// Plays a beginning, and then takes the releases of an order, of which each word has the client that
/// releases its attempt 1 and then the clients that this lets in.
pub(crate) fn settles(
    alloc: Global,
    problem: Problem,
    core: &mut NodeCore,
    entries: &mut Vec<Entry>,
    beginning: &str,
    order: &str,
) -> Option<bool> {
    let mut right = play(alloc, problem, core, entries, beginning);
    for digits in order.split(' ') {
        right &= releases(alloc, problem, core, entries, digits);
    }
    right.then_some(true)
}

/// A problem, a beginning, and the orders that are played after it.
type Settled = (Problem, &'static str, &'static str);

/// Plays a beginning with an order, in a new node.
fn settled(alloc: Global, problem: Problem, beginning: &str, order: &str) -> Option<bool> {
    let course = Course::Settles(problem, beginning, order);
    follows(alloc, new_core(alloc, problem), &course)
}

/// Plays a beginning with each order.
fn settle(alloc: Global, row: &Settled) -> Outcome {
    for (number, order) in row.2.lines().enumerate() {
        check_answer(settled(alloc, row.0, row.1, order), number)?;
    }
    Ok(())
}

// A writer behind two readers. It holds once both readers are gone, whoever goes first; where it
// goes before that, nobody is left to be told.
const TWO_READERS: &str = "\
request n1 c1 1 read a > grant n1 c1 1 read a
request n1 c2 1 read a > grant n1 c2 1 read a
request n1 c3 1 write a > busy n1 c3 1 write a";

const AFTER_TWO_READERS: &str = "\
1 23 3
2 13 3
1 3 2
2 3 1
3 1 2
3 2 1";

// A writer holds, then a writer and a reader wait, in this order. The first to go lets the writer
// in, which stands before the reader; the reader holds once no writer does. Under both problems,
// since the writer that waits stands before the reader and is let in first.
const TWO_WRITERS: &str = "\
request n1 c1 1 write a > grant n1 c1 1 write a
request n1 c2 1 write a > busy n1 c2 1 write a
request n1 c3 1 read a > busy n1 c3 1 read a";

// The first to go lets in the one who came next.
const IN_ORDER: &str = "\
12 23 3
12 3 2
2 13 3
2 3 1
3 12 2
3 2 1";

// The same with the reader before the writer that waits. Under problem 1 the reader stands first in
// the line and is let in, and then the writer waits behind it. Under problem 2 the reader waits for
// the writer behind it, which is let in; once that writer goes, the reader is.
const READER_FIRST: &str = "\
request n1 c1 1 write a > grant n1 c1 1 write a
request n1 c2 1 read a > busy n1 c2 1 read a
request n1 c3 1 write a > busy n1 c3 1 write a";

const WRITER_LET_IN: &str = "\
13 32 2
13 2 3
2 13 3
2 3 1
3 12 2
3 2 1";

// Waiters of two resources. What ends at one resource lets in all readers that wait for it, in the
// order in which they came, and nobody at the other.
const TWO_RESOURCES: &str = "\
request n1 c1 1 write a > grant n1 c1 1 write a
request n1 c2 1 read b > grant n1 c2 1 read b
request n1 c4 1 read a > busy n1 c4 1 read a
request n1 c3 1 write b > busy n1 c3 1 write b
request n1 c5 1 read a > busy n1 c5 1 read a";

const AFTER_TWO_RESOURCES: &str = "\
145 23 4 3 5
23 145 3 5 4";

// A softened holder is a reader to those who wait: under problem 1 the reader is let in by the softening,
// under problem 2 it waits behind the writer.
const READER_BESIDE_A_SOFTENED: &str = "\
request n1 c1 1 write a > grant n1 c1 1 write a
request n1 c2 1 write a > busy n1 c2 1 write a
request n1 c3 1 read a > busy n1 c3 1 read a
soften n1 c1 1 > softened n1 c1 1, grant n1 c3 1 read a";

const WRITER_BEHIND_BOTH: &str = "\
1 2 3
1 32 2
2 1 3
2 3 1
3 12 2
3 2 1";

const WRITER_BEHIND_A_SOFTENED: &str = "\
request n1 c1 1 write a > grant n1 c1 1 write a
request n1 c2 1 write a > busy n1 c2 1 write a
request n1 c3 1 read a > busy n1 c3 1 read a
soften n1 c1 1 > softened n1 c1 1";

const READER_BEHIND_THE_WRITER: &str = "\
12 23 3
12 3 2
23 1 3
23 3 1
3 12 2
3 2 1";

const SETTLED_IN_ORDER: [Settled; 10] = [
    (Problem::First, TWO_READERS, AFTER_TWO_READERS),
    (Problem::Second, TWO_READERS, AFTER_TWO_READERS),
    (Problem::First, TWO_WRITERS, IN_ORDER),
    (Problem::Second, TWO_WRITERS, IN_ORDER),
    (Problem::First, READER_FIRST, IN_ORDER),
    (Problem::Second, READER_FIRST, WRITER_LET_IN),
    (Problem::First, TWO_RESOURCES, AFTER_TWO_RESOURCES),
    (Problem::Second, TWO_RESOURCES, AFTER_TWO_RESOURCES),
    (Problem::First, READER_BESIDE_A_SOFTENED, WRITER_BEHIND_BOTH),
    (
        Problem::Second,
        WRITER_BEHIND_A_SOFTENED,
        READER_BEHIND_THE_WRITER,
    ),
];

#[test]
fn releases_in_every_order(rt: HostRuntime) -> Outcome {
    for row in &SETTLED_IN_ORDER {
        settle(rt.alloc(), row)?;
    }
    Ok(())
}
