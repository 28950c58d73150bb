//! A session that gives up (913) while it leaves: its release is said once more, and it goes on.

use crate::calls::{ASKED, Asked, Call, GAVE_UP, READ_B, Says, TRY_B};
use crate::rows::{PLAIN, Row, goes};
use test_outcomes::Outcome;

const GAVE_UP_LEAVING: &str = "\
rise n1 old
rise c1 old
begin c1 read a, try c1, kept c1, sayto c1 n1
take n1 1, try n1, kept n1, say n1
sayto c1 n1
take n1 3, say n1
hear c1 2, enter c1
leave c1, sayto c1 n1
take n1 5, try n1, kept n1, say n1
hear c1 4, sayto c1 n1
take n1 7, say n1
begin c1 read b, try c1, kept c1, sayto c1 n1
take n1 9, try n1, kept n1, say n1
hear c1 6
hear c1 8, sayto c1 n1
take n1 11, say n1
hear c1 10, enter c1
leave c1, sayto c1 n1
take n1 13, try n1, kept n1, say n1
hear c1 12, sayto c1 n1
take n1 15, say n1
hear c1 14
";

/// Two nudges, the one before the grant and the one before the answer to the release: the second is the last that
/// the attempt may have.
const READ_A: Call = Call::Enter(Asked { nudges: 2, ..ASKED });

/// A session that gives up in one of its calls goes on.
const GAVE_UP_ONCE: Row<'static> = Row {
    nudges: 1,
    journal: GAVE_UP_LEAVING,
    found: Some(2),
    ..PLAIN
};

const GIVES_UP_LEAVING: Row<'static> = Row {
    calls: &[
        (READ_A, Says::Done),
        (Call::Leave, GAVE_UP),
        (READ_B, Says::Done),
        (Call::Leave, Says::Done),
    ],
    ..GAVE_UP_ONCE
};

#[test]
fn gives_up_leaving(rt: HostRuntime) -> Outcome {
    goes(rt, rt.alloc(), &GIVES_UP_LEAVING)
}

/// The call behind a dropped guard gives up, and what it would have begun is not begun.
const GIVES_UP_SETTLING: Row<'static> = Row {
    calls: &[
        (READ_A, Says::Done),
        (Call::Drop, Says::Done),
        (Call::Settle, GAVE_UP),
        (READ_B, Says::Done),
        (Call::Leave, Says::Done),
    ],
    ..GAVE_UP_ONCE
};

#[test]
fn gives_up_settling(rt: HostRuntime) -> Outcome {
    goes(rt, rt.alloc(), &GIVES_UP_SETTLING)
}

const GIVES_UP_BEFORE_AN_ENTERING: Row<'static> = Row {
    calls: &[
        (READ_A, Says::Done),
        (Call::Drop, Says::Done),
        (READ_B, GAVE_UP),
        (READ_B, Says::Done),
        (Call::Leave, Says::Done),
    ],
    ..GAVE_UP_ONCE
};

#[test]
fn gives_up_before_an_entering(rt: HostRuntime) -> Outcome {
    goes(rt, rt.alloc(), &GIVES_UP_BEFORE_AN_ENTERING)
}

const GIVES_UP_BEFORE_A_TRY: Row<'static> = Row {
    calls: &[
        (READ_A, Says::Done),
        (Call::Drop, Says::Done),
        (TRY_B, GAVE_UP),
        (READ_B, Says::Done),
        (Call::Leave, Says::Done),
    ],
    ..GAVE_UP_ONCE
};

#[test]
fn gives_up_before_a_try(rt: HostRuntime) -> Outcome {
    goes(rt, rt.alloc(), &GIVES_UP_BEFORE_A_TRY)
}
