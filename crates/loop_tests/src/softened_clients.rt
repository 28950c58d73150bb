//! A client that softens while it is inside: what it logs, sends and hears, and where it may end by a fault.

use crate::judging::Check;
use crate::runs::{Answer, Beside, CLIENT, Row, Run, does, ends_as};
use crate::watches::{ENOUGH, Room};
use event_recorders::RunFault;
use std::alloc::Global;
use std::sync::Wait;
use test_outcomes::Outcome;
use test_support::in_row;

/// How n1 grants the first message.
const FIRST_GRANT: &str = "rise n1 old\ntake n1 1\ntry n1\nkept n1\nsay n1\n";

/// How n2 grants the third message.
const SECOND_GRANT: &str = "rise n2 old\ntake n2 3\ntry n2\nkept n2\nsay n2\n";

const WRITES: Row = Row {
    run: Run {
        wishes: "c1 write a",
        beside: Beside::Lines(&[
            FIRST_GRANT,
            SECOND_GRANT,
            "take n1 5\ntry n1\nkept n1\nsay n1\n",
            "take n2 6\ntry n2\nkept n2\nsay n2\n",
        ]),
        posts: "2 grant write, 4 grant write n2, 7 done, 8 done n2",
        ..CLIENT
    },
    checks: &[
        Check::Logs(
            "\
rise c1 old
begin c1 write a, try c1, kept c1, sayto c1 n1
rise n1 old
take n1 1, try n1, kept n1, say n1
hear c1 2, sayto c1 n2
rise n2 old
take n2 3, try n2, kept n2, say n2
hear c1 4, enter c1
leave c1, sayto c1 n1, sayto c1 n2
take n1 5, try n1, kept n1, say n1
hear c1 7
take n2 6, try n2, kept n2, say n2
hear c1 8
",
        ),
        Check::Modes(2),
        Check::NotMine(0),
        Check::Sends("1 request write, 3 request write n2, 5 release, 6 release n2"),
    ],
    answer: Ok(1),
};

/// Who wishes to write only is inside once, as a writer.
#[test]
fn a_plain_writer(rt: HostRuntime) -> Outcome {
    does(rt, rt.alloc(), &WRITES)
}

/// What is logged then.
const SOFTENED: &str = "\
rise c1 old
begin c1 write a, try c1, kept c1, sayto c1 n1
rise n1 old
take n1 1, try n1, kept n1, say n1
hear c1 2, sayto c1 n2
rise n2 old
take n2 3, try n2, kept n2, say n2
hear c1 4, enter c1, soften c1, sayto c1 n1, sayto c1 n2
leave c1, sayto c1 n1, sayto c1 n2
take n1 5, try n1, kept n1, say n1
hear c1 9
take n2 6, try n2, kept n2, say n2
hear c1 10
take n1 7, try n1, kept n1, say n1
hear c1 11
take n2 8, try n2, kept n2, say n2
hear c1 12
";

/// How both nodes take the Soften and then the release.
const SOFTENS: Row = Row {
    run: Run {
        wishes: "c1 soften a",
        beside: Beside::Lines(&[
            FIRST_GRANT,
            SECOND_GRANT,
            "take n1 5\ntry n1\nkept n1\nsay n1\n",
            "take n2 6\ntry n2\nkept n2\nsay n2\n",
            "take n1 7\ntry n1\nkept n1\nsay n1\n",
            "take n2 8\ntry n2\nkept n2\nsay n2\n",
        ]),
        posts: "2 grant write, 4 grant write n2, 9 softened, 10 softened n2, 11 done, 12 done n2",
        ..CLIENT
    },
    checks: &[
        Check::Logs(SOFTENED),
        Check::Modes(21),
        Check::NotMine(2),
        Check::Sends(
            "1 request write, 3 request write n2, 5 soften, 6 soften n2, 7 release, 8 release n2",
        ),
    ],
    answer: Ok(1),
};

/// It is inside as a writer and then as a reader, and tells each node once. That a node has softened, which it
/// hears while it releases, answers no release.
#[test]
fn a_writer_that_softens(rt: HostRuntime) -> Outcome {
    does(rt, rt.alloc(), &SOFTENS)
}

/// What c1 sends when it softens, to both nodes: version 2, kind 8, the node, the client and the attempt.
const FRAMES: [Check; 2] = [
    Check::Frame(2, 1, &[2, 8, 1, 0, 0, 0, 1, 0, 0, 0, 0, 0, 0, 0, 1]),
    Check::Frame(3, 2, &[2, 8, 2, 0, 0, 0, 1, 0, 0, 0, 0, 0, 0, 0, 1]),
];

#[test]
fn the_frames_of_softening(rt: HostRuntime) -> Outcome {
    ends_as(rt, rt.alloc(), &SOFTENS.run, &FRAMES, Ok(1))
}

/// n1 grants and is gone.
const GONE: Row = Row {
    run: Run {
        wishes: "c1 soften a",
        beside: Beside::Lines(&[
            FIRST_GRANT,
            "",
            SECOND_GRANT,
            "take n2 7\ntry n2\nkept n2\nsay n2\n",
        ]),
        posts: "2 grant write, gone, 4 grant write n2, 8 done n2",
        ..CLIENT
    },
    checks: &[
        Check::Logs(
            "\
rise c1 old
begin c1 write a, try c1, kept c1, sayto c1 n1
rise n1 old
take n1 1, try n1, kept n1, say n1
hear c1 2, sayto c1 n2
rise n2 old
take n2 3, try n2, kept n2, say n2
hear c1 4, enter c1, soften c1, sayto c1 n1, sayto c1 n2
leave c1, sayto c1 n2
take n2 7, try n2, kept n2, say n2
hear c1 8
",
        ),
        Check::Modes(21),
        Check::NotMine(0),
        Check::Sends("1 request write, 3 request write n2, 5 soften, 6 soften n2, 7 release n2"),
    ],
    answer: Ok(1),
};

/// Each node that granted is told, also one that is gone since.
#[test]
fn a_granted_node_that_is_gone(rt: HostRuntime) -> Outcome {
    does(rt, rt.alloc(), &GONE)
}

/// n1 takes the Soften behind the release, and c1 hears so while it asks again.
const LATE: Row = Row {
    run: Run {
        wishes: "c1 soften a, c1 read a",
        beside: Beside::Lines(&[
            FIRST_GRANT,
            SECOND_GRANT,
            "take n1 7\ntry n1\nkept n1\nsay n1\n",
            "take n2 8\ntry n2\nkept n2\nsay n2\n",
            "take n1 5\nsay n1\n",
        ]),
        posts: "2 grant write, 4 grant write n2, 9 done, 10 done n2, 12 softened",
        ..CLIENT
    },
    checks: &[
        Check::Logs(
            "\
rise c1 old
begin c1 write a, try c1, kept c1, sayto c1 n1
rise n1 old
take n1 1, try n1, kept n1, say n1
hear c1 2, sayto c1 n2
rise n2 old
take n2 3, try n2, kept n2, say n2
hear c1 4, enter c1, soften c1, sayto c1 n1, sayto c1 n2
leave c1, sayto c1 n1, sayto c1 n2
take n1 7, try n1, kept n1, say n1
hear c1 9
take n2 8, try n2, kept n2, say n2
hear c1 10
begin c1 read a, try c1, kept c1, sayto c1 n1
take n1 5, say n1
hear c1 12
leave c1
",
        ),
        Check::Modes(21),
        Check::NotMine(1),
        Check::Sends(
            "1 request write, 3 request write n2, 5 soften, 6 soften n2, 7 release, 8 release n2, 11 request again",
        ),
    ],
    answer: Err((1, RunFault::TooFewNodes)),
};

/// That a node has softened an attempt that is over is no vote for the next one. Nothing comes behind it, so
/// both nodes are lost then (912).
#[test]
fn a_softened_that_comes_late(rt: HostRuntime) -> Outcome {
    does(rt, rt.alloc(), &LATE)
}

/// How the run of who softens ends, whole or cut off: how many lines c1 logs, how many parcels it sends, the
/// modes that its gate has seen, and what the loop answers.
type Part = (usize, usize, u32, Answer);

/// Ends the test unless c1, which softens, ends so with so much room.
fn ends_part<R: Wait + Copy>(
    rt: R,
    alloc: Global,
    room: Room,
    parcels: u32,
    part: &Part,
) -> Outcome {
    let (lines, sent, modes, answer) = *part;
    let run = Run {
        room,
        parcels,
        ..SOFTENS.run
    };
    let checks = [
        Check::OwnLines(lines),
        Check::Begins(SOFTENED),
        Check::Sent(sent),
        Check::Modes(modes),
    ];
    in_row(ends_as(rt, alloc, &run, &checks, answer), lines)
}

/// The book is full (915): before c1 has entered, and then.
const OUT: Answer = Err((0, RunFault::Book));

const IN: Answer = Err((1, RunFault::Book));

/// How many parcels are sent where the book has room for so many events of c1, from none on, which modes the
/// gate has seen, and the answer.
const FULL: [(usize, u32, Answer); 20] = [
    (0, 0, OUT),
    (0, 0, OUT),
    (0, 0, OUT),
    (0, 0, OUT),
    (0, 0, OUT),
    (1, 0, OUT),
    (1, 0, OUT),
    (2, 0, OUT),
    (2, 0, OUT),
    // It has entered, and softens; then it tells both nodes.
    (2, 2, IN),
    (2, 2, IN),
    (3, 2, IN),
    (4, 21, IN),
    (4, 21, IN),
    (5, 21, IN),
    (6, 21, IN),
    (6, 21, IN),
    (6, 21, IN),
    (6, 21, IN),
    (6, 21, Ok(1)),
];

/// A book that has no room behind so many events of c1: nothing is logged, sent or entered behind them.
#[test]
fn a_full_book(rt: HostRuntime) -> Outcome {
    for (events, row) in FULL.iter().enumerate() {
        let (sent, modes, answer) = *row;
        let room = Room {
            events: events as u32,
            says: 10,
        };
        let part = (events, sent, modes, answer);
        ends_part(rt, rt.alloc(), room, 1_000, &part)?;
    }
    Ok(())
}

/// How it ends where the list of messages has room for so many of c1's, from none on.
const NOT_SAID: [Part; 7] = [
    (4, 0, 0, OUT),
    (6, 1, 0, OUT),
    (10, 2, 2, IN),
    (11, 3, 2, IN),
    (13, 4, 21, IN),
    (14, 5, 21, IN),
    (19, 6, 21, Ok(1)),
];

/// A list of messages that is full, in a book with room: who has softened and can't say so logs no Leave.
#[test]
fn a_full_list_of_messages(rt: HostRuntime) -> Outcome {
    for (says, part) in NOT_SAID.iter().enumerate() {
        let room = Room {
            events: 100,
            says: says as u32,
        };
        ends_part(rt, rt.alloc(), room, 1_000, part)?;
    }
    Ok(())
}

/// Memory is refused (914): before c1 has entered, and then.
const OUT_OF_MEMORY: Answer = Err((0, RunFault::Memory));

const IN_MEMORY: Answer = Err((1, RunFault::Memory));

/// How it ends where the link has memory for so many parcels, from none on. What is said is logged first.
const NOT_SENT: [Part; 7] = [
    (5, 0, 0, OUT_OF_MEMORY),
    (7, 1, 0, OUT_OF_MEMORY),
    (11, 2, 2, IN_MEMORY),
    (12, 3, 2, IN_MEMORY),
    (14, 4, 21, IN_MEMORY),
    (15, 5, 21, IN_MEMORY),
    (19, 6, 21, Ok(1)),
];

#[test]
fn a_link_without_memory(rt: HostRuntime) -> Outcome {
    for (parcels, part) in NOT_SENT.iter().enumerate() {
        ends_part(rt, rt.alloc(), ENOUGH, parcels as u32, part)?;
    }
    Ok(())
}
