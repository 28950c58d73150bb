//! What a session logs: with guards that leave, that are dropped, that soften, and where it has to wait.

use crate::calls::{
    ASKED, Asked, Call, GAVE_UP, Name, READ_A, READ_B, SOON_A, Says, TOO_FEW, TRY_A, TRY_B, WRITE_A,
};
use crate::rows::{PLAIN, Row, goes};
use lock_messages::Mode;
use test_outcomes::Outcome;

pub(crate) const WHOLE: &str = "\
rise n1 old
rise c1 old
begin c1 read a, try c1, kept c1, sayto c1 n1
take n1 1, try n1, kept n1, say n1
hear c1 2, enter c1
leave c1, sayto c1 n1
take n1 3, try n1, kept n1, say n1
hear c1 4
";

const LEAVES: Row<'static> = Row {
    calls: &[(READ_A, Says::Done), (Call::Leave, Says::Done)],
    journal: WHOLE,
    found: Some(1),
    ..PLAIN
};

/// A guard that leaves logs the Leave and says the release.
#[test]
fn leaves(rt: HostRuntime) -> Outcome {
    goes(rt, rt.alloc(), &LEAVES)
}

const DROPPED: &str = "\
rise n1 old
rise c1 old
begin c1 read a, try c1, kept c1, sayto c1 n1
take n1 1, try n1, kept n1, say n1
hear c1 2, enter c1
leave c1, sayto c1 n1
take n1 3, try n1, kept n1, say n1
hear c1 4
begin c1 read b, try c1, kept c1, sayto c1 n1
take n1 5, try n1, kept n1, say n1
hear c1 6, enter c1
";

const DROPS_A_GUARD_AND_ENTERS_ANOTHER_RESOURCE: Row<'static> = Row {
    calls: &[
        (READ_A, Says::Done),
        (Call::Drop, Says::Done),
        (READ_B, Says::Done),
        (Call::Drop, Says::Done),
    ],
    journal: DROPPED,
    found: Some(2),
    ..PLAIN
};

/// A guard that is dropped leaves it to the next call to log the Leave and to say the release, before all else.
#[test]
fn drops_a_guard_and_enters_another_resource(rt: HostRuntime) -> Outcome {
    goes(rt, rt.alloc(), &DROPS_A_GUARD_AND_ENTERS_ANOTHER_RESOURCE)
}

const DROPS_A_GUARD_AND_SETTLES: Row<'static> = Row {
    calls: &[
        (Call::Settle, Says::Done),
        (READ_A, Says::Done),
        (Call::Drop, Says::Done),
        (Call::Settle, Says::Done),
        (Call::Settle, Says::Done),
    ],
    journal: WHOLE,
    found: Some(1),
    ..PLAIN
};

/// Settling says what a dropped guard has left to say, and nothing where there is nothing.
#[test]
fn drops_a_guard_and_settles(rt: HostRuntime) -> Outcome {
    goes(rt, rt.alloc(), &DROPS_A_GUARD_AND_SETTLES)
}

pub(crate) const SOFTENED: &str = "\
rise n1 old
rise c1 old
begin c1 write a, try c1, kept c1, sayto c1 n1
take n1 1, try n1, kept n1, say n1
hear c1 2, enter c1, soften c1, sayto c1 n1
take n1 3, try n1, kept n1, say n1
leave c1, sayto c1 n1
take n1 5, try n1, kept n1, say n1
hear c1 4
hear c1 6
";

const SOFTENS: Row<'static> = Row {
    calls: &[
        (WRITE_A, Says::Done),
        (Call::Soften(Mode::Read), Says::Done),
        (Call::Leave, Says::Done),
    ],
    journal: SOFTENED,
    found: Some(1),
    ..PLAIN
};

/// A writer softens and leaves: it says both to its node.
#[test]
fn softens(rt: HostRuntime) -> Outcome {
    goes(rt, rt.alloc(), &SOFTENS)
}

const BUSY: &str = "\
rise n1 old
rise c2 old
begin c2 write a, try c2, kept c2, sayto c2 n1
take n1 1, try n1, kept n1, say n1
hear c2 2, enter c2
rise c1 old
begin c1 read a, try c1, kept c1, sayto c1 n1
take n1 3, try n1, kept n1, say n1
hear c1 4
leave c1, sayto c1 n1
take n1 5, try n1, kept n1, say n1
hear c1 6
begin c1 read b, try c1, kept c1, sayto c1 n1
take n1 7, try n1, kept n1, say n1
hear c1 8, enter c1
leave c1, sayto c1 n1
take n1 9, try n1, kept n1, say n1
hear c1 10
";

const TAKES_BACK_WHAT_IS_BUSY: Row<'static> = Row {
    beside: true,
    calls: &[
        (TRY_A, Says::Busy),
        (TRY_B, Says::Done),
        (Call::Leave, Says::Done),
    ],
    inside: 1,
    journal: BUSY,
    found: Some(2),
    ..PLAIN
};

/// Beside a writer a reader that isn't to wait takes back what it asked for, and enters another resource.
#[test]
fn takes_back_what_is_busy(rt: HostRuntime) -> Outcome {
    goes(rt, rt.alloc(), &TAKES_BACK_WHAT_IS_BUSY)
}

const ENTERS_SOON: Row<'static> = Row {
    calls: &[(SOON_A, Says::Done), (Call::Leave, Says::Done)],
    ..LEAVES
};

/// A resource that is free is entered in one attempt.
#[test]
fn enters_soon(rt: HostRuntime) -> Outcome {
    goes(rt, rt.alloc(), &ENTERS_SOON)
}

const ASKED_AGAIN: &str = "\
rise n1 old
rise c2 old
begin c2 write a, try c2, kept c2, sayto c2 n1
take n1 1, try n1, kept n1, say n1
hear c2 2, enter c2
rise c1 old
begin c1 read a, try c1, kept c1, sayto c1 n1
take n1 3, try n1, kept n1, say n1
hear c1 4
leave c1, sayto c1 n1
take n1 5, try n1, kept n1, say n1
hear c1 6
begin c1 read a, try c1, kept c1, sayto c1 n1
take n1 7, try n1, kept n1, say n1
hear c1 8
leave c1
";

const ASKS_AGAIN_WHERE_IT_HAS_TO_WAIT: Row<'static> = Row {
    beside: true,
    calls: &[(SOON_A, TOO_FEW)],
    inside: 1,
    journal: ASKED_AGAIN,
    found: Some(2),
    ..PLAIN
};

/// Beside a writer a reader takes back what it asked for, and asks again and waits, until nothing comes any more. Then
/// its node is gone.
#[test]
fn asks_again_where_it_has_to_wait(rt: HostRuntime) -> Outcome {
    goes(rt, rt.alloc(), &ASKS_AGAIN_WHERE_IT_HAS_TO_WAIT)
}

const TOO_FEW_TWICE: &str = "\
rise n1 old
rise c1 old
begin c1 read a, try c1, kept c1, sayto c1 n1
take n1 1, try n1, kept n1, say n1
leave c1
begin c1 read a, try c1, kept c1
leave c1
";

const TOO_FEW_NODES_AGAIN_AND_AGAIN: Row<'static> = Row {
    gone: true,
    calls: &[(READ_A, TOO_FEW), (READ_A, TOO_FEW)],
    journal: TOO_FEW_TWICE,
    found: Some(2),
    ..PLAIN
};

/// 912: the node is gone. The session goes on, and ends so again.
#[test]
fn too_few_nodes_again_and_again(rt: HostRuntime) -> Outcome {
    goes(rt, rt.alloc(), &TOO_FEW_NODES_AGAIN_AND_AGAIN)
}

const GAVE_UP_AND_ENTERED: &str = "\
rise n1 old
rise c1 old
begin c1 read a, try c1, kept c1, sayto c1 n1
take n1 1, try n1, kept n1, say n1
leave c1, sayto c1 n1
take n1 3, try n1, kept n1, say n1
begin c1 read a, try c1, kept c1, sayto c1 n1
take n1 5, try n1, kept n1, say n1
hear c1 2, sayto c1 n1
take n1 7, say n1
hear c1 4, sayto c1 n1
take n1 9, say n1
hear c1 6, enter c1
leave c1, sayto c1 n1
take n1 11, try n1, kept n1, say n1
hear c1 8
hear c1 10, sayto c1 n1
take n1 13, say n1
hear c1 12
";

/// Gives up at the first nudge.
const READ_A_AT_ONCE: Call = Call::Enter(Asked { nudges: 1, ..ASKED });

const GIVES_UP_AND_ENTERS: Row<'static> = Row {
    nudges: 1,
    calls: &[
        (READ_A_AT_ONCE, GAVE_UP),
        (READ_A, Says::Done),
        (Call::Leave, Says::Done),
    ],
    journal: GAVE_UP_AND_ENTERED,
    found: Some(2),
    ..PLAIN
};

/// 913 at the first nudge, where so many are the most; and then the session enters with more of them.
#[test]
fn gives_up_and_enters(rt: HostRuntime) -> Outcome {
    goes(rt, rt.alloc(), &GIVES_UP_AND_ENTERS)
}

const LONGEST: &str = "\
rise n1 old
rise c1 old
begin c1 write abcdefghijklmnopqrstuvwxyz-01234, try c1, kept c1, sayto c1 n1
take n1 1, try n1, kept n1, say n1
hear c1 2, enter c1, soften c1, sayto c1 n1
take n1 3, try n1, kept n1, say n1
leave c1, sayto c1 n1
take n1 5, try n1, kept n1, say n1
hear c1 4
hear c1 6
";

const WRITE_THE_LONGEST: Call = Call::Enter(Asked {
    mode: Mode::Write,
    name: Name::Longest,
    ..ASKED
});

const SOFTENS_UNDER_THE_LONGEST_NAME: Row<'static> = Row {
    calls: &[
        (WRITE_THE_LONGEST, Says::Done),
        (Call::Soften(Mode::Read), Says::Done),
        (Call::Leave, Says::Done),
    ],
    journal: LONGEST,
    found: Some(1),
    ..PLAIN
};

/// The longest name of a resource.
#[test]
fn softens_under_the_longest_name(rt: HostRuntime) -> Outcome {
    goes(rt, rt.alloc(), &SOFTENS_UNDER_THE_LONGEST_NAME)
}
