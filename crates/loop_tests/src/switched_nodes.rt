//! A node under problem 2 to which switches of the problem come: whom it lets in, what it drops, and what a
//! fall leaves.

use crate::judging::Check;
use crate::records::Device;
use crate::runs::{NODE, Row, Run, Who, does};
use lock_model::Problem;
use stable_record::Leaves;
use test_outcomes::Outcome;

/// How c1 asks n1 as a reader, c2 as a writer, and c3 as a reader: messages 1 to 3.
const ASK: &str = "\
rise c1 old
begin c1 read a, try c1, kept c1, sayto c1 n1
rise c2 old
begin c2 write a, try c2, kept c2, sayto c2 n1
rise c3 old
begin c3 read a, try c3, kept c3, sayto c3 n1
";

/// n1 under problem 2, once they have asked.
const ASKED: Run<'static> = Run {
    who: Who::Node(Problem::Second),
    before: ASK,
    ..NODE
};

/// A reader that waits behind a writer is let in, and is granted again when its request comes again.
const LETS_IN: Row = Row {
    run: Run {
        posts: "1 request, 2 request c2, 3 request c3, switch 1, 3 request c3",
        ..ASKED
    },
    checks: &[
        Check::Logs(
            "\
rise n1 old
take n1 1, try n1, kept n1, say n1
take n1 2, try n1, kept n1, say n1
take n1 3, try n1, kept n1, say n1
switch n1 1, try n1, kept n1, say n1
take n1 3, say n1
",
        ),
        Check::Sends("4 grant, 5 busy c2, 6 busy c3, 7 grant c3, 8 grant c3"),
    ],
    answer: Ok(0),
};

#[test]
fn a_waiting_reader_is_let_in(rt: HostRuntime) -> Outcome {
    does(rt, rt.alloc(), &LETS_IN)
}

/// Where nobody waits to be let in, nothing is sent; a reader that comes then is granted.
const LETS_NOBODY_IN: Row = Row {
    run: Run {
        posts: "1 request, 2 request c2, switch 1, 3 request c3",
        ..ASKED
    },
    checks: &[
        Check::Logs(
            "\
rise n1 old
take n1 1, try n1, kept n1, say n1
take n1 2, try n1, kept n1, say n1
switch n1 1, try n1, kept n1, say n1
take n1 3, try n1, kept n1, say n1
",
        ),
        Check::Sends("4 grant, 5 busy c2, 6 grant c3"),
    ],
    answer: Ok(0),
};

#[test]
fn nobody_is_let_in(rt: HostRuntime) -> Outcome {
    does(rt, rt.alloc(), &LETS_NOBODY_IN)
}

/// The second switch is to the same problem: nothing is kept or sent.
const TWICE: Row = Row {
    run: Run {
        posts: "1 request, 2 request c2, switch 1, switch 1, 3 request c3",
        ..ASKED
    },
    checks: &[
        Check::Logs(
            "\
rise n1 old
take n1 1, try n1, kept n1, say n1
take n1 2, try n1, kept n1, say n1
switch n1 1, try n1, kept n1, say n1
switch n1 1, say n1
take n1 3, try n1, kept n1, say n1
",
        ),
        Check::Sends("4 grant, 5 busy c2, 6 grant c3"),
    ],
    answer: Ok(0),
};

#[test]
fn the_same_problem_again(rt: HostRuntime) -> Outcome {
    does(rt, rt.alloc(), &TWICE)
}

/// There and back: under problem 2 a reader waits behind a writer that waits.
const BACK: Row = Row {
    run: Run {
        posts: "1 request, 2 request c2, switch 1, switch 2, 3 request c3",
        ..ASKED
    },
    checks: &[
        Check::Logs(
            "\
rise n1 old
take n1 1, try n1, kept n1, say n1
take n1 2, try n1, kept n1, say n1
switch n1 1, try n1, kept n1, say n1
switch n1 2, try n1, kept n1, say n1
take n1 3, try n1, kept n1, say n1
",
        ),
        Check::Sends("4 grant, 5 busy c2, 6 busy c3"),
    ],
    answer: Ok(0),
};

#[test]
fn there_and_back(rt: HostRuntime) -> Outcome {
    does(rt, rt.alloc(), &BACK)
}

/// Numbers that no problem has log nothing.
const DROPPED: Row = Row {
    run: Run {
        posts: "switch 0, 1 request, switch 3, 2 request c2, switch 255, 3 request c3, switch 49",
        ..ASKED
    },
    checks: &[
        Check::Logs(
            "\
rise n1 old
take n1 1, try n1, kept n1, say n1
take n1 2, try n1, kept n1, say n1
take n1 3, try n1, kept n1, say n1
",
        ),
        Check::Sends("4 grant, 5 busy c2, 6 busy c3"),
    ],
    answer: Ok(0),
};

#[test]
fn switches_that_are_dropped(rt: HostRuntime) -> Outcome {
    does(rt, rt.alloc(), &DROPPED)
}

/// The fourth keep, that of the switch, fails and leaves the old bytes: the clients are told to ask again. The
/// reader still waits, until the switch comes again.
const FALLS_OLD: Row = Row {
    run: Run {
        device: Device::Faulty(4, Leaves::Old, 0),
        posts: "1 request, 2 request c2, 3 request c3, switch 1, 3 request c3, switch 1",
        ..ASKED
    },
    checks: &[
        Check::Logs(
            "\
rise n1 old
take n1 1, try n1, kept n1, say n1
take n1 2, try n1, kept n1, say n1
take n1 3, try n1, kept n1, say n1
switch n1 1, try n1, fall n1
rise n1 old
take n1 3, say n1
switch n1 1, try n1, kept n1, say n1
",
        ),
        Check::Sends("4 grant, 5 busy c2, 6 busy c3, nudge, 7 busy c3, 8 grant c3"),
    ],
    answer: Ok(0),
};

#[test]
fn a_fall_to_the_old_problem(rt: HostRuntime) -> Outcome {
    does(rt, rt.alloc(), &FALLS_OLD)
}

/// The fourth keep fails and leaves the new bytes: the reader, which is nudged, asks again and is granted. The
/// switch that comes again is to the same problem.
const FALLS_NEW: Row = Row {
    run: Run {
        device: Device::Faulty(4, Leaves::New, 0),
        posts: "1 request, 2 request c2, 3 request c3, switch 1, 3 request c3, switch 1",
        ..ASKED
    },
    checks: &[
        Check::Logs(
            "\
rise n1 old
take n1 1, try n1, kept n1, say n1
take n1 2, try n1, kept n1, say n1
take n1 3, try n1, kept n1, say n1
switch n1 1, try n1, fall n1
rise n1 new
take n1 3, say n1
switch n1 1, say n1
",
        ),
        Check::Sends("4 grant, 5 busy c2, 6 busy c3, nudge, 7 grant c3"),
    ],
    answer: Ok(0),
};

#[test]
fn a_fall_to_the_new_problem(rt: HostRuntime) -> Outcome {
    does(rt, rt.alloc(), &FALLS_NEW)
}
