//! A node's run over lists: its turns, what it drops, and how it ends.

use crate::judging::Check;
use crate::records::Device;
use crate::runs::{NODE, Row, Run, do_all, does, ends_as};
use event_recorders::RunFault;
use stable_record::Leaves;
use test_outcomes::Outcome;
use test_support::in_row;

/// How c1 asks n1: message 1.
const ASKS: &str = "\
rise c1 old
begin c1 read a, try c1, kept c1, sayto c1 n1
";

/// What n1 logs when it takes the request and grants it.
const GRANTS: &str = "rise n1 old\ntake n1 1\ntry n1\nkept n1\nsay n1\n";

/// A whole turn: the request is taken, its grant kept, logged as kept, said and sent.
const TURN: Row = Row {
    run: Run {
        before: ASKS,
        posts: "1 request",
        ..NODE
    },
    checks: &[Check::Logs(GRANTS), Check::Sends("2 grant")],
    answer: Ok(0),
};

#[test]
fn a_turn(rt: HostRuntime) -> Outcome {
    does(rt, rt.alloc(), &TURN)
}

/// A second request changes nothing that is kept, and is granted again.
const TWO_TURNS: Row = Row {
    run: Run {
        before: ASKS,
        posts: "1 request, 1 request",
        ..NODE
    },
    checks: &[
        Check::Logs("rise n1 old\ntake n1 1\ntry n1\nkept n1\nsay n1\ntake n1 1\nsay n1\n"),
        Check::Sends("2 grant, 3 grant"),
    ],
    answer: Ok(0),
};

#[test]
fn two_turns(rt: HostRuntime) -> Outcome {
    does(rt, rt.alloc(), &TWO_TURNS)
}

/// How c1 asks n1, gives up and releases, by the messages 1 and 2, and how c2 asks to write, by message 3.
const TWO_ASK: &str = "\
rise c1 old
begin c1 read a, try c1, kept c1, sayto c1 n1
leave c1, sayto c1 n1
rise c2 old
begin c2 write a, try c2, kept c2, sayto c2 n1
";

/// The writer waits until the reader's release is taken; then one turn has two replies, with numbers one
/// after the other.
const TWO_REPLIES: Row = Row {
    run: Run {
        before: TWO_ASK,
        posts: "1 request, 3 request c2, 2 release",
        ..NODE
    },
    checks: &[
        Check::Logs(
            "rise n1 old\ntake n1 1\ntry n1\nkept n1\nsay n1\ntake n1 3\ntry n1\nkept n1\nsay n1\ntake n1 2\ntry n1\nkept n1\nsay n1\n",
        ),
        Check::Sends("4 grant, 5 busy c2, 6 done, 7 grant c2"),
    ],
    answer: Ok(0),
};

#[test]
fn a_turn_with_two_replies(rt: HostRuntime) -> Outcome {
    does(rt, rt.alloc(), &TWO_REPLIES)
}

/// What comes and logs nothing: nothing at all, what is no message for n1, a number that was never sent,
/// and the number of n1's own grant to c1.
const DROPPED: [Row; 4] = [
    Row {
        run: Run {
            before: ASKS,
            posts: "",
            ..NODE
        },
        checks: &[Check::Logs("rise n1 old\n"), Check::Sends("")],
        answer: Ok(0),
    },
    Row {
        run: Run {
            before: ASKS,
            posts: "1 noise, nudge, gone, 1 grant, 1 request n2",
            ..NODE
        },
        checks: &[Check::Logs("rise n1 old\n"), Check::Sends("")],
        answer: Ok(0),
    },
    Row {
        run: Run {
            before: ASKS,
            posts: "7 request, 0 request, 2 request",
            ..NODE
        },
        checks: &[Check::Logs("rise n1 old\n"), Check::Sends("")],
        answer: Ok(0),
    },
    Row {
        run: Run {
            before: ASKS,
            posts: "1 request, 2 request",
            ..NODE
        },
        checks: &[Check::Logs(GRANTS), Check::Sends("2 grant")],
        answer: Ok(0),
    },
];

#[test]
fn what_is_dropped(rt: HostRuntime) -> Outcome {
    do_all(rt, rt.alloc(), &DROPPED)
}

/// The message that is taken is the one that was sent under the number.
const ANOTHER_FRAME: Row = Row {
    run: Run {
        before: ASKS,
        posts: "1 release",
        ..NODE
    },
    checks: &[Check::Logs(GRANTS), Check::Sends("2 grant")],
    answer: Ok(0),
};

#[test]
fn the_frame_of_another_message(rt: HostRuntime) -> Outcome {
    does(rt, rt.alloc(), &ANOTHER_FRAME)
}

/// After two reopens that fail the third finds the record.
#[test]
fn two_bad_reopens(rt: HostRuntime) -> Outcome {
    let run = Run {
        device: Device::Faulty(2, Leaves::Old, 2),
        ..TURN.run
    };
    ends_as(rt, rt.alloc(), &run, TURN.checks, Ok(0))
}

/// Nothing is logged, and the clients are told.
const NOT_REOPENED: Row = Row {
    run: Run {
        device: Device::Faulty(2, Leaves::Old, 3),
        before: ASKS,
        posts: "1 request",
        ..NODE
    },
    checks: &[Check::Logs(""), Check::Sends("gone")],
    answer: Err((0, RunFault::NotReopened)),
};

#[test]
fn three_bad_reopens(rt: HostRuntime) -> Outcome {
    does(rt, rt.alloc(), &NOT_REOPENED)
}

/// The node has fallen, and doesn't rise; the clients are told.
const BREAKS: Row = Row {
    run: Run {
        device: Device::Broken,
        before: ASKS,
        posts: "1 request",
        ..NODE
    },
    checks: &[
        Check::Logs("rise n1 old\ntake n1 1\ntry n1\nfall n1\n"),
        Check::Sends("gone"),
    ],
    answer: Err((0, RunFault::NotReopened)),
};

#[test]
fn three_bad_reopens_after_a_fall(rt: HostRuntime) -> Outcome {
    does(rt, rt.alloc(), &BREAKS)
}

/// The node has tried; nothing is kept or said, and the clients are told.
const SPENT: Row = Row {
    run: Run {
        device: Device::Spent,
        before: ASKS,
        posts: "1 request",
        ..NODE
    },
    checks: &[
        Check::Logs("rise n1 old\ntake n1 1\ntry n1\n"),
        Check::Sends("gone"),
    ],
    answer: Err((0, RunFault::Spent)),
};

#[test]
fn a_spent_record(rt: HostRuntime) -> Outcome {
    does(rt, rt.alloc(), &SPENT)
}

/// How c1 gives up what it asked n1 for: messages 1 and 2.
const GIVES_UP: &str = "\
rise c1 old
begin c1 read a, try c1, kept c1, sayto c1 n1
leave c1, sayto c1 n1
";

/// The second keep fails and leaves the old bytes: the clients are told to ask again, and the release is
/// taken again.
const FALLS_OLD: Row = Row {
    run: Run {
        device: Device::Faulty(2, Leaves::Old, 0),
        before: GIVES_UP,
        posts: "1 request, 2 release, 2 release",
        ..NODE
    },
    checks: &[
        Check::Logs(
            "rise n1 old\ntake n1 1\ntry n1\nkept n1\nsay n1\ntake n1 2\ntry n1\nfall n1\nrise n1 old\ntake n1 2\ntry n1\nkept n1\nsay n1\n",
        ),
        Check::Sends("3 grant, nudge, 4 done"),
    ],
    answer: Ok(0),
};

#[test]
fn a_fall_to_the_old_bytes(rt: HostRuntime) -> Outcome {
    does(rt, rt.alloc(), &FALLS_OLD)
}

/// The second keep fails and leaves the new bytes: the release is done when it is taken again.
const FALLS_NEW: Row = Row {
    run: Run {
        device: Device::Faulty(2, Leaves::New, 0),
        before: GIVES_UP,
        posts: "1 request, 2 release, 2 release",
        ..NODE
    },
    checks: &[
        Check::Logs(
            "rise n1 old\ntake n1 1\ntry n1\nkept n1\nsay n1\ntake n1 2\ntry n1\nfall n1\nrise n1 new\ntake n1 2\nsay n1\n",
        ),
        Check::Sends("3 grant, nudge, 4 done"),
    ],
    answer: Ok(0),
};

#[test]
fn a_fall_to_the_new_bytes(rt: HostRuntime) -> Outcome {
    does(rt, rt.alloc(), &FALLS_NEW)
}

/// How c1 asks three times and gives up each time: messages 1 to 6.
const GIVES_UP_THRICE: &str = "\
rise c1 old
begin c1 read a, try c1, kept c1, sayto c1 n1
leave c1, sayto c1 n1
begin c1 read a, try c1, kept c1, sayto c1 n1
leave c1, sayto c1 n1
begin c1 read a, try c1, kept c1, sayto c1 n1
leave c1, sayto c1 n1
";

/// Each of them twice. What was lost with a keep that failed is taken again.
const TWICE: &str =
    "1 request, 1 request, 2 release, 2 release, 3 request, 3 request, 4 release, 4 release, 5 request, 5 request, 6 release, 6 release";

/// Which keeps of n1's record fail, what they leave, how often the clients are nudged, and how many
/// events c1 and n1 log.
const FAULTY: [(u32, Leaves, usize, usize); 8] = [
    (2, Leaves::Old, 5, 66),
    (3, Leaves::Old, 2, 60),
    (4, Leaves::Old, 1, 58),
    (5, Leaves::Old, 1, 58),
    (2, Leaves::New, 3, 56),
    (3, Leaves::New, 2, 56),
    (4, Leaves::New, 1, 56),
    (5, Leaves::New, 1, 56),
];

/// At each message that comes n1 answers or falls.
#[test]
fn records_that_fail(rt: HostRuntime) -> Outcome {
    for (number, row) in FAULTY.iter().enumerate() {
        let (every, leaves, nudged, events) = *row;
        let run = Run {
            device: Device::Faulty(every, leaves, 0),
            before: GIVES_UP_THRICE,
            posts: TWICE,
            ..NODE
        };
        let checks = [Check::Sent(12), Check::Nudges(nudged), Check::Lines(events)];
        in_row(ends_as(rt, rt.alloc(), &run, &checks, Ok(0)), number)?;
    }
    Ok(())
}
