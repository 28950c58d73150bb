//! A client to which an answer never comes: its node is gone, or nudges behind a Grant that was lost.

use crate::judging::Check;
use crate::runs::{Beside, CLIENT, Row, Run, does};
use test_outcomes::Outcome;

/// How n1 grants the first message, and n2 the fourth.
const FIRST_GRANT: &str = "rise n1 old\ntake n1 1\ntry n1\nkept n1\nsay n1\n";

const SECOND_GRANT: &str = "rise n2 old\ntake n2 4\ntry n2\nkept n2\nsay n2\n";

/// n1 is gone before it takes the release of the first wish.
const GONE_BEFORE_ITS_DONE: Row = Row {
    run: Run {
        wishes: "c1 read a, c1 read a",
        beside: Beside::Lines(&[
            FIRST_GRANT,
            "",
            SECOND_GRANT,
            "take n2 6\ntry n2\nkept n2\nsay n2\n",
        ]),
        posts: "2 grant, gone, 5 grant again n2, 7 done again n2",
        ..CLIENT
    },
    checks: &[
        Check::Logs(
            "\
rise c1 old
begin c1 read a, try c1, kept c1, sayto c1 n1
rise n1 old
take n1 1, try n1, kept n1, say n1
hear c1 2, enter c1
leave c1, sayto c1 n1
begin c1 read a, try c1, kept c1, sayto c1 n2
rise n2 old
take n2 4, try n2, kept n2, say n2
hear c1 5, enter c1
leave c1, sayto c1 n2
take n2 6, try n2, kept n2, say n2
hear c1 7
",
        ),
        Check::Sends("1 request, 3 release, 4 request again n2, 6 release again n2"),
    ],
    answer: Ok(2),
};

/// A node that goes while a client waits for its answer to the release isn't waited for.
#[test]
fn a_node_that_goes_while_it_is_told_the_release(rt: HostRuntime) -> Outcome {
    does(rt, rt.alloc(), &GONE_BEFORE_ITS_DONE)
}

/// c2 has asked n1 as a writer, by message 1, and n1 has granted. So n1 answers c1 that it is busy; then c2 gives up,
/// and the Grant for c1, message 7, is lost.
const NUDGED_BEHIND_BUSY: Row = Row {
    run: Run {
        wishes: "c1 write a",
        before: "\
rise n1 old
rise c2 old
begin c2 write a, try c2, kept c2, sayto c2 n1
take n1 1, try n1, kept n1, say n1
",
        beside: Beside::Lines(&[
            "take n1 3\ntry n1\nkept n1\nsay n1\n",
            "leave c2\nsayto c2 n1\ntake n1 5\ntry n1\nkept n1\nsay n1\n",
            "take n1 8\nsay n1\n",
            "rise n2 old\ntake n2 10\ntry n2\nkept n2\nsay n2\n",
            "take n1 12\ntry n1\nkept n1\nsay n1\n",
            "take n2 13\ntry n2\nkept n2\nsay n2\n",
        ]),
        posts: "4 busy write, nudge, 9 grant write, 11 grant write n2, 14 done write, 15 done write n2",
        ..CLIENT
    },
    checks: &[
        Check::Logs(
            "\
rise c1 old
begin c1 write a, try c1, kept c1, sayto c1 n1
take n1 3, try n1, kept n1, say n1
hear c1 4
leave c2, sayto c2 n1
take n1 5, try n1, kept n1, say n1
sayto c1 n1
take n1 8, say n1
hear c1 9, sayto c1 n2
rise n2 old
take n2 10, try n2, kept n2, say n2
hear c1 11, enter c1
leave c1, sayto c1 n1, sayto c1 n2
take n1 12, try n1, kept n1, say n1
hear c1 14
take n2 13, try n2, kept n2, say n2
hear c1 15
",
        ),
        Check::Sends(
            "3 request write, 8 request write, 10 request write n2, 12 release write, 13 release write n2",
        ),
    ],
    answer: Ok(1),
};

/// A nudge makes a client ask again also where the node has let it wait.
#[test]
fn a_nudge_behind_a_busy(rt: HostRuntime) -> Outcome {
    does(rt, rt.alloc(), &NUDGED_BEHIND_BUSY)
}
