//! A client alone, over lists: what it asks for, what it drops, and how it ends where nobody answers.

use crate::judging::Check;
use crate::records::Device;
use crate::runs::{ALONE, Row, Run, Who, do_all, does};
use event_recorders::RunFault;
use lock_messages::MAX_ATTEMPT;
use stable_record::Leaves;
use test_outcomes::Outcome;

/// What c1 logs that asks n1 and for which nothing comes.
const ASKS: &str = "\
rise c1 old
begin c1 read a, try c1, kept c1, sayto c1 n1
leave c1
";

/// A client without a wish rises. One for which nothing comes any more has lost both nodes (912): it leaves
/// what it asked for, and has nobody to tell it.
const ROWS: [Row; 5] = [
    Row {
        run: Run {
            wishes: "",
            posts: "1 grant",
            ..ALONE
        },
        checks: &[Check::Logs("rise c1 old\n"), Check::Sends("")],
        answer: Ok(0),
    },
    Row {
        run: Run {
            wishes: "c1 read a",
            posts: "",
            ..ALONE
        },
        checks: &[Check::Logs(ASKS), Check::Sends("1 request")],
        answer: Err((0, RunFault::TooFewNodes)),
    },
    // Switches of the problem, which are for nodes.
    Row {
        run: Run {
            wishes: "c1 read a",
            posts: "switch 1, switch 2, switch 3",
            ..ALONE
        },
        checks: &[Check::Logs(ASKS), Check::Sends("1 request")],
        answer: Err((0, RunFault::TooFewNodes)),
    },
    // A number that was never sent, another's message, two frames that are no message for a client.
    Row {
        run: Run {
            wishes: "c1 read a, c1 read a",
            posts: "9 grant, 1 grant, 1 noise, 1 request",
            ..ALONE
        },
        checks: &[Check::Logs(ASKS), Check::Sends("1 request")],
        answer: Err((0, RunFault::TooFewNodes)),
    },
    Row {
        run: Run {
            wishes: "c1 read a",
            posts: "nudge, nudge",
            ..ALONE
        },
        checks: &[
            Check::Logs(
                "\
rise c1 old
begin c1 read a, try c1, kept c1, sayto c1 n1, sayto c1 n1, sayto c1 n1
leave c1
",
            ),
            Check::Sends("1 request, 2 request, 3 request"),
        ],
        answer: Err((0, RunFault::TooFewNodes)),
    },
];

#[test]
fn too_few_nodes(rt: HostRuntime) -> Outcome {
    do_all(rt, rt.alloc(), &ROWS)
}

const NUDGED: Row = Row {
    run: Run {
        wishes: "c1 read a, c1 read a",
        nudges: (1, 1_001),
        ..ALONE
    },
    checks: &[
        Check::Last(1_001),
        Check::Ends("\nsayto c1 n1\nleave c1\nsayto c1 n1\n"),
        Check::Sent(1_001),
    ],
    answer: Err((0, RunFault::GaveUp)),
};

/// A client that a node nudges 1,001 times asks it 1,000 times, leaves and says its release once: the
/// thousandth nudge ends it.
#[test]
fn a_thousand_nudges(rt: HostRuntime) -> Outcome {
    does(rt, rt.alloc(), &NUDGED)
}

const NUDGED_BY_ANOTHER: Row = Row {
    run: Run {
        wishes: "c1 read a",
        nudges: (2, 1_001),
        ..ALONE
    },
    checks: &[Check::Logs(ASKS), Check::Sent(1)],
    answer: Err((0, RunFault::TooFewNodes)),
};

/// A nudge of a node to which nothing was sent is dropped, and doesn't count.
#[test]
fn nudges_of_a_node_that_was_not_asked(rt: HostRuntime) -> Outcome {
    does(rt, rt.alloc(), &NUDGED_BY_ANOTHER)
}

const GONE_AND_NUDGED: Row = Row {
    run: Run {
        wishes: "c1 read a",
        posts: "gone",
        nudges: (1, 1_000),
        ..ALONE
    },
    checks: &[
        Check::Logs(
            "\
rise c1 old
begin c1 read a, try c1, kept c1, sayto c1 n1, sayto c1 n2
leave c1, sayto c1 n2
",
        ),
        Check::Sent(3),
    ],
    answer: Err((0, RunFault::GaveUp)),
};

/// 913: the nudges of a node that was asked count also once it is gone. It is sent nothing any more, and
/// the other node its release.
#[test]
fn nudges_of_a_node_that_is_gone(rt: HostRuntime) -> Outcome {
    does(rt, rt.alloc(), &GONE_AND_NUDGED)
}

const SPENT: Row = Row {
    run: Run {
        device: Device::Spent,
        wishes: "c1 read a",
        ..ALONE
    },
    checks: &[
        Check::Logs("rise c1 old\nbegin c1 read a\ntry c1\n"),
        Check::Sent(0),
    ],
    answer: Err((0, RunFault::Spent)),
};

/// 916: the record can number no change. The client has begun and tried.
#[test]
fn a_spent_record(rt: HostRuntime) -> Outcome {
    does(rt, rt.alloc(), &SPENT)
}

const AFTER_THE_LAST: Row = Row {
    run: Run {
        who: Who::Alone(MAX_ATTEMPT),
        wishes: "c1 read a",
        ..ALONE
    },
    checks: &[Check::Logs("rise c1 old\n"), Check::Sent(0)],
    answer: Err((0, RunFault::Spent)),
};

/// 916: the client has made its last attempt. It begins none.
#[test]
fn attempts_that_are_spent(rt: HostRuntime) -> Outcome {
    does(rt, rt.alloc(), &AFTER_THE_LAST)
}

const THE_LAST: Row = Row {
    run: Run {
        who: Who::Alone(MAX_ATTEMPT - 1),
        wishes: "c1 read a, c1 read a",
        ..ALONE
    },
    checks: &[Check::Sent(1)],
    answer: Err((0, RunFault::TooFewNodes)),
};

/// The attempt before is made, and asks.
#[test]
fn the_last_attempt(rt: HostRuntime) -> Outcome {
    does(rt, rt.alloc(), &THE_LAST)
}

const NOT_REOPENED: Row = Row {
    run: Run {
        device: Device::Faulty(2, Leaves::Old, 3),
        wishes: "c1 read a",
        ..ALONE
    },
    checks: &[Check::Logs(""), Check::Sent(0)],
    answer: Err((0, RunFault::NotReopened)),
};

/// 911: three reopens fail, and nothing is logged.
#[test]
fn a_record_that_does_not_reopen(rt: HostRuntime) -> Outcome {
    does(rt, rt.alloc(), &NOT_REOPENED)
}

const BREAKS: Row = Row {
    run: Run {
        device: Device::Broken,
        wishes: "c1 read a",
        ..ALONE
    },
    checks: &[
        Check::Logs("rise c1 old\nbegin c1 read a\ntry c1\nfall c1\n"),
        Check::Sent(0),
    ],
    answer: Err((0, RunFault::NotReopened)),
};

/// 911: three reopens fail after a fall, and nothing is logged behind it.
#[test]
fn a_record_that_does_not_reopen_after_a_fall(rt: HostRuntime) -> Outcome {
    does(rt, rt.alloc(), &BREAKS)
}
