//! A session whose link takes one parcel no more, for want of memory (914), or brings nothing any more, so that no
//! node is left (912).

use crate::calls::{Call, NO_MEMORY, READ_A, READ_B, Says, TOO_FEW, TRY_A, WRITE_A};
use crate::rows::{PLAIN, Row, all_go, goes};
use lock_messages::Mode;
use lossy_link::LinkFault;
use test_outcomes::Outcome;

const ASKED: &str = "\
rise n1 old
rise c1 old
begin c1 read a, try c1, kept c1, sayto c1 n1
";

const NO_MEMORY_FOR_THE_REQUEST: Row<'static> = Row {
    lost: Some((1, LinkFault::Memory)),
    calls: &[
        (READ_A, NO_MEMORY),
        (Call::Settle, NO_MEMORY),
        (READ_B, NO_MEMORY),
    ],
    journal: ASKED,
    found: Some(1),
    ..PLAIN
};

/// The request is logged, and the session is over.
#[test]
fn no_memory_for_the_request(rt: HostRuntime) -> Outcome {
    goes(rt, rt.alloc(), &NO_MEMORY_FOR_THE_REQUEST)
}

const NO_MEMORY_FOR_THE_REQUEST_OF_A_TRY: Row<'static> = Row {
    lost: Some((1, LinkFault::Memory)),
    calls: &[(TRY_A, NO_MEMORY), (TRY_A, NO_MEMORY)],
    journal: ASKED,
    found: Some(1),
    ..PLAIN
};

/// The same where it needn't wait.
#[test]
fn no_memory_for_the_request_of_a_try(rt: HostRuntime) -> Outcome {
    goes(rt, rt.alloc(), &NO_MEMORY_FOR_THE_REQUEST_OF_A_TRY)
}

const SOFTENED: &str = "\
rise n1 old
rise c1 old
begin c1 write a, try c1, kept c1, sayto c1 n1
take n1 1, try n1, kept n1, say n1
hear c1 2, enter c1, soften c1, sayto c1 n1
";

const NO_MEMORY_FOR_THE_SOFTENING: Row<'static> = Row {
    lost: Some((2, LinkFault::Memory)),
    calls: &[
        (WRITE_A, Says::Done),
        (Call::Soften(Mode::Read), NO_MEMORY),
        (Call::Leave, NO_MEMORY),
        (Call::Settle, NO_MEMORY),
        (READ_B, NO_MEMORY),
    ],
    inside: 1,
    journal: SOFTENED,
    found: Some(1),
    ..PLAIN
};

/// The session is over, and inside as a reader until the guard leaves, which says nothing.
#[test]
fn no_memory_for_the_softening(rt: HostRuntime) -> Outcome {
    goes(rt, rt.alloc(), &NO_MEMORY_FOR_THE_SOFTENING)
}

const LEFT: &str = "\
rise n1 old
rise c1 old
begin c1 read a, try c1, kept c1, sayto c1 n1
take n1 1, try n1, kept n1, say n1
hear c1 2, enter c1
leave c1, sayto c1 n1
";

const NO_MEMORY_FOR_THE_RELEASE: Row<'static> = Row {
    lost: Some((2, LinkFault::Memory)),
    calls: &[
        (READ_A, Says::Done),
        (Call::Leave, NO_MEMORY),
        (Call::Settle, NO_MEMORY),
        (READ_B, NO_MEMORY),
    ],
    journal: LEFT,
    found: Some(1),
    ..PLAIN
};

/// The Leave and the release are logged, and the session is over.
#[test]
fn no_memory_for_the_release(rt: HostRuntime) -> Outcome {
    goes(rt, rt.alloc(), &NO_MEMORY_FOR_THE_RELEASE)
}

/// What is to be said of a dropped guard is not taken.
const NO_MEMORY_BEHIND_A_DROP: Row<'static> = Row {
    lost: Some((2, LinkFault::Memory)),
    journal: LEFT,
    found: Some(1),
    ..PLAIN
};

const NO_MEMORY_FOR_THE_RELEASE_OF_A_DROPPED_GUARD: [Row<'static>; 3] = [
    Row {
        calls: &[
            (READ_A, Says::Done),
            (Call::Drop, Says::Done),
            (Call::Settle, NO_MEMORY),
            (READ_A, NO_MEMORY),
        ],
        ..NO_MEMORY_BEHIND_A_DROP
    },
    Row {
        calls: &[
            (READ_A, Says::Done),
            (Call::Drop, Says::Done),
            (READ_B, NO_MEMORY),
            (READ_A, NO_MEMORY),
        ],
        ..NO_MEMORY_BEHIND_A_DROP
    },
    Row {
        calls: &[
            (READ_A, Says::Done),
            (Call::Drop, Says::Done),
            (TRY_A, NO_MEMORY),
            (READ_A, NO_MEMORY),
        ],
        ..NO_MEMORY_BEHIND_A_DROP
    },
];

/// The same of a guard that was dropped, in the next call.
#[test]
fn no_memory_for_the_release_of_a_dropped_guard(rt: HostRuntime) -> Outcome {
    all_go(
        rt,
        rt.alloc(),
        &NO_MEMORY_FOR_THE_RELEASE_OF_A_DROPPED_GUARD,
    )
}

const TAKEN_BACK: &str = "\
rise n1 old
rise c2 old
begin c2 write a, try c2, kept c2, sayto c2 n1
take n1 1, try n1, kept n1, say n1
hear c2 2, enter c2
rise c1 old
begin c1 read a, try c1, kept c1, sayto c1 n1
take n1 3, try n1, kept n1, say n1
hear c1 4
leave c1, sayto c1 n1
";

const NO_MEMORY_FOR_TAKING_BACK: Row<'static> = Row {
    lost: Some((2, LinkFault::Memory)),
    beside: true,
    calls: &[(TRY_A, NO_MEMORY), (TRY_A, NO_MEMORY)],
    inside: 1,
    journal: TAKEN_BACK,
    found: Some(1),
    ..PLAIN
};

/// A try that a writer beside lets wait takes back what it asked for, and there is no memory for its release.
#[test]
fn no_memory_for_taking_back(rt: HostRuntime) -> Outcome {
    goes(rt, rt.alloc(), &NO_MEMORY_FOR_TAKING_BACK)
}

const CLOSED_TWICE: &str = "\
rise n1 old
rise c1 old
begin c1 read a, try c1, kept c1, sayto c1 n1
leave c1
begin c1 read b, try c1, kept c1
leave c1
";

const CLOSED_BEHIND_THE_REQUEST: Row<'static> = Row {
    lost: Some((1, LinkFault::Closed)),
    calls: &[
        (READ_A, TOO_FEW),
        (Call::Settle, Says::Done),
        (READ_B, TOO_FEW),
    ],
    journal: CLOSED_TWICE,
    found: Some(2),
    ..PLAIN
};

/// Nothing comes any more: the session has nobody to tell that it leaves, goes on, and ends so again.
#[test]
fn closed_behind_the_request(rt: HostRuntime) -> Outcome {
    goes(rt, rt.alloc(), &CLOSED_BEHIND_THE_REQUEST)
}

const CLOSED_BEHIND_A_RELEASE: &str = "\
rise n1 old
rise c1 old
begin c1 read a, try c1, kept c1, sayto c1 n1
take n1 1, try n1, kept n1, say n1
hear c1 2, enter c1
leave c1, sayto c1 n1
begin c1 read b, try c1, kept c1
leave c1
";

const CLOSED_BEHIND_THE_RELEASE: Row<'static> = Row {
    lost: Some((2, LinkFault::Closed)),
    calls: &[
        (READ_A, Says::Done),
        (Call::Leave, Says::Done),
        (READ_B, TOO_FEW),
    ],
    journal: CLOSED_BEHIND_A_RELEASE,
    found: Some(2),
    ..PLAIN
};

/// It has left: who is gone need not answer. No node is left for the next attempt.
#[test]
fn closed_behind_the_release(rt: HostRuntime) -> Outcome {
    goes(rt, rt.alloc(), &CLOSED_BEHIND_THE_RELEASE)
}

const CLOSED_BEHIND_THE_RELEASE_OF_A_DROPPED_GUARD: Row<'static> = Row {
    lost: Some((2, LinkFault::Closed)),
    calls: &[
        (READ_A, Says::Done),
        (Call::Drop, Says::Done),
        (Call::Settle, Says::Done),
        (READ_B, TOO_FEW),
    ],
    journal: CLOSED_BEHIND_A_RELEASE,
    found: Some(2),
    ..PLAIN
};

/// The same of a guard that was dropped.
#[test]
fn closed_behind_the_release_of_a_dropped_guard(rt: HostRuntime) -> Outcome {
    goes(
        rt,
        rt.alloc(),
        &CLOSED_BEHIND_THE_RELEASE_OF_A_DROPPED_GUARD,
    )
}

const SOFTENED_UNHEARD: &str = "\
rise n1 old
rise c1 old
begin c1 write a, try c1, kept c1, sayto c1 n1
take n1 1, try n1, kept n1, say n1
hear c1 2, enter c1, soften c1, sayto c1 n1
leave c1, sayto c1 n1
take n1 4, try n1, kept n1, say n1
hear c1 5
";

const THE_SOFTENING_IS_LOST: Row<'static> = Row {
    lost: Some((2, LinkFault::Closed)),
    calls: &[
        (WRITE_A, Says::Done),
        (Call::Soften(Mode::Read), Says::Done),
        (Call::Leave, Says::Done),
    ],
    journal: SOFTENED_UNHEARD,
    found: Some(1),
    ..PLAIN
};

/// Softening waits for no answer: where its parcel is lost the session is a reader, and leaves as ever.
#[test]
fn the_softening_is_lost(rt: HostRuntime) -> Outcome {
    goes(rt, rt.alloc(), &THE_SOFTENING_IS_LOST)
}
