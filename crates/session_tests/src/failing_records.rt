//! A session whose record fails: it falls, rises with what it finds and goes on with a new attempt, or is over where
//! the record is not reopened (911).

use crate::calls::{Call, NOT_REOPENED, READ_A, READ_B, Says, TRY_B};
use crate::guards::WHOLE;
use crate::rows::{PLAIN, Row, all_go, goes};
use event_recorders::RunFault;
use stable_record::Leaves;
use test_outcomes::Outcome;
use test_support::Device;

const OLD: &str = "\
rise n1 old
rise c1 old
begin c1 read a, try c1, kept c1, sayto c1 n1
take n1 1, try n1, kept n1, say n1
hear c1 2, enter c1
leave c1, sayto c1 n1
take n1 3, try n1, kept n1, say n1
hear c1 4
begin c1 read b, try c1, fall c1
rise c1 old
begin c1 read b, try c1, kept c1, sayto c1 n1
take n1 5, try n1, kept n1, say n1
hear c1 6, enter c1
leave c1, sayto c1 n1
take n1 7, try n1, kept n1, say n1
hear c1 8
";

const A_FALL_TO_THE_ATTEMPT_BEFORE: [Row<'static>; 2] = [
    Row {
        device: Device::Faulty(2, Leaves::Old, 0),
        calls: &[
            (READ_A, Says::Done),
            (Call::Leave, Says::Done),
            (READ_B, Says::Done),
            (Call::Leave, Says::Done),
        ],
        journal: OLD,
        failures: 1,
        found: Some(2),
        ..PLAIN
    },
    Row {
        device: Device::Faulty(2, Leaves::Old, 0),
        calls: &[
            (READ_A, Says::Done),
            (Call::Leave, Says::Done),
            (TRY_B, Says::Done),
            (Call::Leave, Says::Done),
        ],
        journal: OLD,
        failures: 1,
        found: Some(2),
        ..PLAIN
    },
];

/// The second keep fails and the attempt before is found: entering goes on, with the same attempt made anew.
#[test]
fn a_fall_to_the_attempt_before(rt: HostRuntime) -> Outcome {
    all_go(rt, rt.alloc(), &A_FALL_TO_THE_ATTEMPT_BEFORE)
}

const NEW: &str = "\
rise n1 old
rise c1 old
begin c1 read a, try c1, kept c1, sayto c1 n1
take n1 1, try n1, kept n1, say n1
hear c1 2, enter c1
leave c1, sayto c1 n1
take n1 3, try n1, kept n1, say n1
hear c1 4
begin c1 read b, try c1, fall c1
rise c1 new
begin c1 read b, try c1, kept c1, sayto c1 n1
take n1 5, try n1, kept n1, say n1
hear c1 6, enter c1
leave c1, sayto c1 n1
take n1 7, try n1, kept n1, say n1
hear c1 8
";

const A_FALL_TO_THE_NEXT_ATTEMPT: Row<'static> = Row {
    device: Device::Faulty(2, Leaves::New, 0),
    calls: &[
        (READ_A, Says::Done),
        (Call::Leave, Says::Done),
        (READ_B, Says::Done),
        (Call::Leave, Says::Done),
    ],
    journal: NEW,
    failures: 1,
    found: Some(3),
    ..PLAIN
};

/// The second keep fails and the attempt that was to be kept is found. It is over, and entering makes the next.
#[test]
fn a_fall_to_the_next_attempt(rt: HostRuntime) -> Outcome {
    goes(rt, rt.alloc(), &A_FALL_TO_THE_NEXT_ATTEMPT)
}

const TWO_BAD_REOPENS: Row<'static> = Row {
    device: Device::Faulty(1_000, Leaves::Old, 2),
    calls: &[(READ_A, Says::Done), (Call::Leave, Says::Done)],
    journal: WHOLE,
    failures: 2,
    found: Some(1),
    ..PLAIN
};

/// Two reopens that fail are as none.
#[test]
fn two_bad_reopens(rt: HostRuntime) -> Outcome {
    goes(rt, rt.alloc(), &TWO_BAD_REOPENS)
}

const THREE_BAD_REOPENS: Row<'static> = Row {
    device: Device::Faulty(1_000, Leaves::Old, 3),
    gone: true,
    rises: Err(RunFault::NotReopened),
    failures: 3,
    ..PLAIN
};

/// 911: at the third bad reopen the client doesn't rise, and gets back what it handed in. Its record is reopened
/// after that.
#[test]
fn three_bad_reopens(rt: HostRuntime) -> Outcome {
    goes(rt, rt.alloc(), &THREE_BAD_REOPENS)
}

const A_VISIT_ON_A_PLATE: Row<'static> = Row {
    device: Device::Plate(0),
    calls: &[(READ_A, Says::Done), (Call::Leave, Says::Done)],
    journal: WHOLE,
    found: Some(1),
    ..PLAIN
};

/// A whole visit with a record on a plate.
#[test]
fn a_visit_on_a_plate(rt: HostRuntime) -> Outcome {
    goes(rt, rt.alloc(), &A_VISIT_ON_A_PLATE)
}

const A_PLATE_THAT_IS_NEVER_REOPENED: Row<'static> = Row {
    device: Device::Plate(5),
    gone: true,
    rises: Err(RunFault::NotReopened),
    failures: 3,
    found: None,
    ..PLAIN
};

/// 911: the plate fails for good when it is reopened for the rising, behind the four calls that opened it.
#[test]
fn a_plate_that_is_never_reopened(rt: HostRuntime) -> Outcome {
    goes(rt, rt.alloc(), &A_PLATE_THAT_IS_NEVER_REOPENED)
}

const FALLEN: &str = "\
rise n1 old
rise c1 old
begin c1 read a, try c1, fall c1
";

/// The plate fails at the first of the four calls of the keep.
const FAILS_IN_THE_FIRST_ATTEMPT: Row<'static> = Row {
    device: Device::Plate(9),
    calls: &[
        (READ_A, NOT_REOPENED),
        (Call::Settle, NOT_REOPENED),
        (READ_B, NOT_REOPENED),
        (TRY_B, NOT_REOPENED),
    ],
    journal: FALLEN,
    failures: 4,
    found: None,
    ..PLAIN
};

const A_PLATE_THAT_FAILS_IN_THE_FIRST_ATTEMPT: [Row<'static>; 2] = [
    FAILS_IN_THE_FIRST_ATTEMPT,
    Row {
        device: Device::Plate(11),
        ..FAILS_IN_THE_FIRST_ATTEMPT
    },
];

/// 911: the plate fails for good while the first attempt is kept, at the first of that keep's four calls or at the
/// third, behind which a restart could find either attempt. The session is over.
#[test]
fn a_plate_that_fails_in_the_first_attempt(rt: HostRuntime) -> Outcome {
    all_go(rt, rt.alloc(), &A_PLATE_THAT_FAILS_IN_THE_FIRST_ATTEMPT)
}

const FALLEN_BEHIND_A_VISIT: &str = "\
rise n1 old
rise c1 old
begin c1 read a, try c1, kept c1, sayto c1 n1
take n1 1, try n1, kept n1, say n1
hear c1 2, enter c1
leave c1, sayto c1 n1
take n1 3, try n1, kept n1, say n1
hear c1 4
begin c1 read b, try c1, fall c1
";

const A_PLATE_THAT_FAILS_IN_THE_SECOND_ATTEMPT: Row<'static> = Row {
    device: Device::Plate(13),
    calls: &[
        (READ_A, Says::Done),
        (Call::Drop, Says::Done),
        (TRY_B, NOT_REOPENED),
        (Call::Settle, NOT_REOPENED),
        (READ_B, NOT_REOPENED),
    ],
    journal: FALLEN_BEHIND_A_VISIT,
    failures: 4,
    found: None,
    ..PLAIN
};

/// 911: it fails for good in the second attempt, behind a guard that was dropped.
#[test]
fn a_plate_that_fails_in_the_second_attempt(rt: HostRuntime) -> Outcome {
    goes(rt, rt.alloc(), &A_PLATE_THAT_FAILS_IN_THE_SECOND_ATTEMPT)
}
