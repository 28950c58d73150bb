//! A node that is put back at rest with its record.

use crate::nodes::{SETTLED, SOFTENED, SWITCHED, WRITER_WAITS};
use crate::scripts::{Step, plays_from};
use test_outcomes::{Outcome, check_answer};

// A decision that would have to be kept is gone after a restart. A record of the other problem gives the
// node that problem, and what is no record changes nothing.
const RESTARTS: [Step; 7] = [
    Step::Rests(WRITER_WAITS),
    Step::Decides("release n1 c2 1", 2, SETTLED),
    Step::Restarts(WRITER_WAITS),
    Step::Restarts("01 01 0000"),
    Step::Restarts(WRITER_WAITS),
    Step::Refuses(WRITER_WAITS),
    Step::Rests(WRITER_WAITS),
];

#[test]
fn restarted_node(rt: HostRuntime) -> Outcome {
    check_answer(plays_from(rt.alloc(), WRITER_WAITS, &RESTARTS), 0)
}

/// c1 holds `a` as a writer, c2 waits for it as a reader and c3 as a writer.
const BEFORE_SOFTENING: &str = "01 01 0003 \
00000001 0000000000000000 02 0000000000000001 01 01 61 \
00000002 0000000000000000 01 0000000000000001 00 01 61 \
00000003 0000000000000000 01 0000000000000001 01 01 61";

const IS_A_WRITER: &str = "request n1 c1 1 write a > same Stored, grant n1 c1 1 write a";

// The writer that waits is let in once the readers have left.
const IS_SOFTENED: &str = "\
request n1 c1 1 write a > same Stored, softened n1 c1 1
soften n1 c1 1 > same Stored, softened n1 c1 1
release n1 c2 1 > changed Decided, done n1 c2 1
release n1 c1 1 > changed Decided, done n1 c1 1, grant n1 c3 1 write a";

// A node takes a softening, and is stopped before that is kept. With its old record it has a writer, whose
// request and softening it answers as if they came for the first time; with its new record it has a softened
// holder, whose request and softening it knows.
const SOFTENS: [Step; 6] = [
    Step::Decides("soften n1 c1 1", 2, SOFTENED),
    Step::Restarts(BEFORE_SOFTENING),
    Step::Plays(IS_A_WRITER),
    Step::Decides("soften n1 c1 1", 2, SOFTENED),
    Step::Restarts(SOFTENED),
    Step::Plays(IS_SOFTENED),
];

#[test]
fn restarted_while_it_softens(rt: HostRuntime) -> Outcome {
    check_answer(plays_from(rt.alloc(), BEFORE_SOFTENING, &SOFTENS), 0)
}

const OLD_PROBLEM: &str = "\
request n1 c4 1 read a > changed Decided, busy n1 c4 1 read a
request n1 c3 1 read a > same Stored, busy n1 c3 1 read a";

const NEW_PROBLEM: &str = "\
request n1 c4 1 read a > changed Decided, grant n1 c4 1 read a
request n1 c3 1 read a > same Stored, grant n1 c3 1 read a";

// A node takes problem 1, and is stopped before that is kept. With its old record it has the old problem: a
// new reader is busy, and the one that was let in waits as before. With its new record it has the new
// problem: a new reader is let in, and the one that was holds still.
const SWITCHES: [Step; 7] = [
    Step::Decides("switch 1", 1, SWITCHED),
    Step::Restarts(WRITER_WAITS),
    Step::Plays(OLD_PROBLEM),
    Step::Restarts(WRITER_WAITS),
    Step::Decides("switch 1", 1, SWITCHED),
    Step::Restarts(SWITCHED),
    Step::Plays(NEW_PROBLEM),
];

#[test]
fn restarted_while_it_switches(rt: HostRuntime) -> Outcome {
    check_answer(plays_from(rt.alloc(), WRITER_WAITS, &SWITCHES), 0)
}
