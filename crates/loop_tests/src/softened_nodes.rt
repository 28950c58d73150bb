//! A node beside a writer that softens: whom it lets in then, and what a fall in between leaves.

use crate::judging::Check;
use crate::records::Device;
use crate::runs::{Beside, NODE, Row, Run, does};
use stable_record::Leaves;
use test_outcomes::Outcome;

/// How c2 asks n1 as a writer: message 1.
const ASKS: &str = "rise c2 old\nbegin c2 write a\ntry c2\nkept c2\nsayto c2 n1\n";

/// How c2 enters by n2 too, with messages 3 and 4, and how c1 asks n1 as a reader: message 5.
const WRITES: &str = "\
hear c2 2\nsayto c2 n2\nrise n2 old\ntake n2 3\ntry n2\nkept n2\nsay n2\nhear c2 4\nenter c2\n\
rise c1 old\nbegin c1 read a\ntry c1\nkept c1\nsayto c1 n1\n";

/// How c2 softens, and tells n1: message 7.
const SOFTENS: &str = "hear c1 6\nsoften c2\nsayto c2 n1\n";

/// The writer's request comes again once n1 has softened it, and so does its Soften behind the release.
const LETS_IN: Row = Row {
    run: Run {
        beside: Beside::Lines(&[
            ASKS,
            WRITES,
            SOFTENS,
            "hear c2 8\nhear c1 9\nenter c1\n",
            "leave c2\nsayto c2 n1\n",
            "hear c2 12\n",
        ]),
        posts: "1 request c2, 5 request, 7 soften c2, 1 request c2, 11 release c2, 7 soften c2",
        ..NODE
    },
    checks: &[
        Check::Logs(
            "\
rise n1 old
rise c2 old
begin c2 write a, try c2, kept c2, sayto c2 n1
take n1 1, try n1, kept n1, say n1
hear c2 2, sayto c2 n2
rise n2 old
take n2 3, try n2, kept n2, say n2
hear c2 4, enter c2
rise c1 old
begin c1 read a, try c1, kept c1, sayto c1 n1
take n1 5, try n1, kept n1, say n1
hear c1 6
soften c2, sayto c2 n1
take n1 7, try n1, kept n1, say n1
hear c2 8
hear c1 9, enter c1
take n1 1, say n1
leave c2, sayto c2 n1
take n1 11, try n1, kept n1, say n1
hear c2 12
take n1 7, say n1
",
        ),
        Check::Sends(
            "2 grant c2, 6 busy, 8 softened c2, 9 grant, 10 softened c2, 12 done c2, 13 softened c2",
        ),
    ],
    answer: Ok(0),
};

/// The reader that waited enters while the writer, which has softened, is inside.
#[test]
fn a_waiting_reader_gets_in(rt: HostRuntime) -> Outcome {
    does(rt, rt.alloc(), &LETS_IN)
}

/// The third keep, that of the softened ticket, fails and leaves the old bytes; the Soften comes again.
const FALLS_OLD: Row = Row {
    run: Run {
        device: Device::Faulty(3, Leaves::Old, 0),
        beside: Beside::Lines(&[ASKS, WRITES, SOFTENS, ""]),
        posts: "1 request c2, 5 request, 7 soften c2, 7 soften c2",
        ..NODE
    },
    checks: &[
        Check::Logs(
            "\
rise n1 old
rise c2 old
begin c2 write a, try c2, kept c2, sayto c2 n1
take n1 1, try n1, kept n1, say n1
hear c2 2, sayto c2 n2
rise n2 old
take n2 3, try n2, kept n2, say n2
hear c2 4, enter c2
rise c1 old
begin c1 read a, try c1, kept c1, sayto c1 n1
take n1 5, try n1, kept n1, say n1
hear c1 6
soften c2, sayto c2 n1
take n1 7, try n1, fall n1
rise n1 old
take n1 7, try n1, kept n1, say n1
",
        ),
        Check::Sends("2 grant c2, 6 busy, nudge, 8 softened c2, 9 grant"),
    ],
    answer: Ok(0),
};

#[test]
fn a_fall_to_the_writer(rt: HostRuntime) -> Outcome {
    does(rt, rt.alloc(), &FALLS_OLD)
}

/// The third keep fails and leaves the new bytes: the reader, which is nudged, asks again and is granted.
const FALLS_NEW: Row = Row {
    run: Run {
        device: Device::Faulty(3, Leaves::New, 0),
        beside: Beside::Lines(&[ASKS, WRITES, SOFTENS, "", "sayto c1 n1\n"]),
        posts: "1 request c2, 5 request, 7 soften c2, 7 soften c2, 9 request",
        ..NODE
    },
    checks: &[
        Check::Logs(
            "\
rise n1 old
rise c2 old
begin c2 write a, try c2, kept c2, sayto c2 n1
take n1 1, try n1, kept n1, say n1
hear c2 2, sayto c2 n2
rise n2 old
take n2 3, try n2, kept n2, say n2
hear c2 4, enter c2
rise c1 old
begin c1 read a, try c1, kept c1, sayto c1 n1
take n1 5, try n1, kept n1, say n1
hear c1 6
soften c2, sayto c2 n1
take n1 7, try n1, fall n1
rise n1 new
take n1 7, say n1
sayto c1 n1
take n1 9, say n1
",
        ),
        Check::Sends("2 grant c2, 6 busy, nudge, 8 softened c2, 10 grant"),
    ],
    answer: Ok(0),
};

#[test]
fn a_fall_to_the_softened_writer(rt: HostRuntime) -> Outcome {
    does(rt, rt.alloc(), &FALLS_NEW)
}
