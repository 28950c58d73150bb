//! A client beside a node whose vote another client holds.

use crate::judging::Check;
use crate::runs::{BESIDE, Beside, Row, Run, does};
use event_recorders::RunFault;
use test_outcomes::Outcome;

/// c2 has asked n1 as a writer, by message 1, and n1 has granted. It is gone behind its first answer to c1.
const BUSY_AND_GONE: Row = Row {
    run: Run {
        wishes: "c1 write a",
        before: "\
rise n1 old
rise c2 old
begin c2 write a, try c2, kept c2, sayto c2 n1
take n1 1, try n1, kept n1, say n1
",
        beside: Beside::Node(1, 2, 0, true),
        ..BESIDE
    },
    checks: &[Check::Logs(
        "\
rise c1 old
begin c1 write a, try c1, kept c1, sayto c1 n1
take n1 3, try n1, kept n1, say n1
hear c1 4
leave c1
",
    )],
    answer: Err((0, RunFault::TooFewNodes)),
};

/// 912: a node that told that it is busy has given no vote, so with it the votes are lost that a writer
/// needs. The other node isn't asked any more.
#[test]
fn too_few_nodes_after_a_busy(rt: HostRuntime) -> Outcome {
    does(rt, rt.alloc(), &BUSY_AND_GONE)
}
