//! A client beside a node that answers: whole wishes, to their journals.

use crate::judging::Check;
use crate::runs::{BESIDE, Beside, Row, Run, does, ends_as};
use event_recorders::RunFault;
use test_outcomes::Outcome;

pub(crate) const WHOLE: Row = Row {
    run: Run {
        wishes: "c1 read a",
        ..BESIDE
    },
    checks: &[Check::Logs(
        "\
rise c1 old
begin c1 read a, try c1, kept c1, sayto c1 n1
take n1 1, try n1, kept n1, say n1
hear c1 2, enter c1
leave c1, sayto c1 n1
take n1 3, try n1, kept n1, say n1
hear c1 4
",
    )],
    answer: Ok(1),
};

/// Switches of the problem are for nodes: they are dropped.
#[test]
fn switches_in_a_wish(rt: HostRuntime) -> Outcome {
    let run = Run {
        posts: "switch 1, switch 2, switch 0, switch 255",
        ..WHOLE.run
    };
    ends_as(rt, rt.alloc(), &run, WHOLE.checks, Ok(1))
}

#[test]
fn a_whole_wish(rt: HostRuntime) -> Outcome {
    does(rt, rt.alloc(), &WHOLE)
}

const NUDGED: Row = Row {
    run: Run {
        wishes: "c1 read a",
        posts: "nudge",
        ..BESIDE
    },
    checks: &[Check::Logs(
        "\
rise c1 old
begin c1 read a, try c1, kept c1, sayto c1 n1
take n1 1, try n1, kept n1, say n1
sayto c1 n1
take n1 3, say n1
hear c1 2, enter c1
leave c1, sayto c1 n1
take n1 5, try n1, kept n1, say n1
hear c1 4
hear c1 6
",
    )],
    answer: Ok(1),
};

/// A node that nudges is asked again.
#[test]
fn a_nudge_in_a_wish(rt: HostRuntime) -> Outcome {
    does(rt, rt.alloc(), &NUDGED)
}

const TWO: Row = Row {
    run: Run {
        wishes: "c1 read a, c1 read b",
        ..BESIDE
    },
    checks: &[Check::Logs(
        "\
rise c1 old
begin c1 read a, try c1, kept c1, sayto c1 n1
take n1 1, try n1, kept n1, say n1
hear c1 2, enter c1
leave c1, sayto c1 n1
take n1 3, try n1, kept n1, say n1
hear c1 4
begin c1 read b, try c1, kept c1, sayto c1 n1
take n1 5, try n1, kept n1, say n1
hear c1 6, enter c1
leave c1, sayto c1 n1
take n1 7, try n1, kept n1, say n1
hear c1 8
",
    )],
    answer: Ok(2),
};

#[test]
fn two_wishes(rt: HostRuntime) -> Outcome {
    does(rt, rt.alloc(), &TWO)
}

const GONE: Row = Row {
    run: Run {
        wishes: "c1 read a, c1 read b",
        before: "rise n2 old\n",
        beside: Beside::Node(2, 1, 0, false),
        ..BESIDE
    },
    checks: &[Check::Logs(
        "\
rise c1 old
begin c1 read a, try c1, kept c1, sayto c1 n1, sayto c1 n2
take n2 2, try n2, kept n2, say n2
hear c1 3, enter c1
leave c1, sayto c1 n2
take n2 4, try n2, kept n2, say n2
hear c1 5
begin c1 read b, try c1, kept c1, sayto c1 n2
take n2 6, try n2, kept n2, say n2
hear c1 7, enter c1
leave c1, sayto c1 n2
take n2 8, try n2, kept n2, say n2
hear c1 9
",
    )],
    answer: Ok(2),
};

/// Each wish says its request and its release once, and again at each nudge.
const MANY_NUDGES: Row = Row {
    run: Run {
        wishes: "c1 read a, c1 read b",
        beside: Beside::Node(1, 2, 300, false),
        ..BESIDE
    },
    checks: &[
        Check::Stands("enter c1", 2),
        Check::Stands("sayto c1 n1", 1_204),
    ],
    answer: Ok(2),
};

/// 600 nudges in each of two wishes: 300 before the first grant and as many before the first answer to the
/// release. They don't end the second wish, though they are over a thousand together.
#[test]
fn nudges_of_two_wishes(rt: HostRuntime) -> Outcome {
    does(rt, rt.alloc(), &MANY_NUDGES)
}

/// The request and 600 more, the release and 399 more, and the release once at the end.
const TOO_MANY_NUDGES: Row = Row {
    run: Run {
        wishes: "c1 read a, c1 read b",
        beside: Beside::Node(1, 2, 600, false),
        ..BESIDE
    },
    checks: &[
        Check::Stands("leave c1", 1),
        Check::Stands("sayto c1 n1", 1_002),
    ],
    answer: Err((1, RunFault::GaveUp)),
};

/// 913: 600 nudges before the grant, and as many before the answer to the release. The thousandth comes
/// behind the Leave: the wish is entered, and its release is said once more.
#[test]
fn a_thousand_nudges_of_which_the_last_come_behind_leave(rt: HostRuntime) -> Outcome {
    does(rt, rt.alloc(), &TOO_MANY_NUDGES)
}

/// A node that is gone is skipped, in the next wish too, and is told no release.
#[test]
fn a_node_that_is_gone(rt: HostRuntime) -> Outcome {
    does(rt, rt.alloc(), &GONE)
}

const GONE_AFTER_ITS_VOTE: Row = Row {
    run: Run {
        wishes: "c1 read a",
        posts: "gone",
        ..BESIDE
    },
    checks: &[Check::Logs(
        "\
rise c1 old
begin c1 read a, try c1, kept c1, sayto c1 n1
take n1 1, try n1, kept n1, say n1
sayto c1 n2
hear c1 2, enter c1
leave c1, sayto c1 n2
",
    )],
    answer: Ok(1),
};

/// The vote that a node gave before it was gone counts. Only the other node is told the release, and that
/// it is gone too ends the wish.
#[test]
fn a_vote_of_a_node_that_is_gone(rt: HostRuntime) -> Outcome {
    does(rt, rt.alloc(), &GONE_AFTER_ITS_VOTE)
}

const TOO_FEW: Row = Row {
    run: Run {
        wishes: "c1 read a, c1 write a, c1 read a",
        ..BESIDE
    },
    checks: &[Check::Logs(
        "\
rise c1 old
begin c1 read a, try c1, kept c1, sayto c1 n1
take n1 1, try n1, kept n1, say n1
hear c1 2, enter c1
leave c1, sayto c1 n1
take n1 3, try n1, kept n1, say n1
hear c1 4
begin c1 write a, try c1, kept c1, sayto c1 n1
take n1 5, try n1, kept n1, say n1
hear c1 6, sayto c1 n2
leave c1, sayto c1 n1
take n1 8, try n1, kept n1, say n1
",
    )],
    answer: Err((1, RunFault::TooFewNodes)),
};

/// 912: a writer needs both nodes. It leaves, tells the one that isn't gone, and waits for no answer.
#[test]
fn too_few_nodes_for_a_writer(rt: HostRuntime) -> Outcome {
    does(rt, rt.alloc(), &TOO_FEW)
}

const TOO_FEW_AT_ONCE: Row = Row {
    run: Run {
        wishes: "c1 write a",
        before: "rise n2 old\n",
        beside: Beside::Node(2, 1, 0, false),
        ..BESIDE
    },
    checks: &[Check::Logs(
        "\
rise c1 old
begin c1 write a, try c1, kept c1, sayto c1 n1
leave c1
",
    )],
    answer: Err((0, RunFault::TooFewNodes)),
};

/// 912: a node that is gone is told no release, nor is one that was not asked.
#[test]
fn too_few_nodes_before_a_vote(rt: HostRuntime) -> Outcome {
    does(rt, rt.alloc(), &TOO_FEW_AT_ONCE)
}

const GRANTED_AND_GONE: Row = Row {
    run: Run {
        wishes: "c1 write a",
        before: "rise n1 old\n",
        beside: Beside::Node(1, 1, 0, false),
        ..BESIDE
    },
    checks: &[Check::Logs(
        "\
rise c1 old
begin c1 write a, try c1, kept c1, sayto c1 n1
take n1 1, try n1, kept n1, say n1
hear c1 2, sayto c1 n2
leave c1
",
    )],
    answer: Err((0, RunFault::TooFewNodes)),
};

const GONE_BEFORE_THE_NEXT_WISH: Row = Row {
    run: Run {
        wishes: "c1 read a, c1 read b",
        posts: "gone",
        ..BESIDE
    },
    checks: &[Check::Logs(
        "\
rise c1 old
begin c1 read a, try c1, kept c1, sayto c1 n1
take n1 1, try n1, kept n1, say n1
sayto c1 n2
hear c1 2, enter c1
leave c1, sayto c1 n2
begin c1 read b, try c1, kept c1
leave c1
",
    )],
    answer: Err((1, RunFault::TooFewNodes)),
};

/// 912: the vote that a node gave for the wish before, and that is gone, doesn't count for the next.
#[test]
fn too_few_nodes_in_the_next_wish(rt: HostRuntime) -> Outcome {
    does(rt, rt.alloc(), &GONE_BEFORE_THE_NEXT_WISH)
}

/// A node that granted and is gone counts, so the client goes on until the other is lost too.
#[test]
fn too_few_nodes_after_a_vote(rt: HostRuntime) -> Outcome {
    does(rt, rt.alloc(), &GRANTED_AND_GONE)
}

/// Frames that are no message for the client are dropped, also under the number of its vote.
#[test]
fn a_whole_wish_beside_noise(rt: HostRuntime) -> Outcome {
    let run = Run {
        posts: "2 noise, 2 request",
        ..WHOLE.run
    };
    ends_as(rt, rt.alloc(), &run, WHOLE.checks, Ok(1))
}
