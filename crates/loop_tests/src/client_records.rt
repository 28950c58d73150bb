//! A client whose record fails now and then: it falls, rises with what it finds, and takes the wish up again.

use crate::clients_beside::WHOLE;
use crate::judging::Check;
use crate::records::Device;
use crate::runs::{BESIDE, Row, Run, does, ends_as};
use stable_record::Leaves;
use test_outcomes::Outcome;
use test_support::in_row;

const OLD: Row = Row {
    run: Run {
        device: Device::Faulty(2, Leaves::Old, 0),
        wishes: "c1 read a, c1 read b",
        ..BESIDE
    },
    checks: &[Check::Logs(
        "\
rise c1 old
begin c1 read a, try c1, kept c1, sayto c1 n1
take n1 1, try n1, kept n1, say n1
hear c1 2, enter c1
leave c1, sayto c1 n1
take n1 3, try n1, kept n1, say n1
hear c1 4
begin c1 read b, try c1, fall c1
rise c1 old
begin c1 read b, try c1, kept c1, sayto c1 n1
take n1 5, try n1, kept n1, say n1
hear c1 6, enter c1
leave c1, sayto c1 n1
take n1 7, try n1, kept n1, say n1
hear c1 8
",
    )],
    answer: Ok(2),
};

/// The second keep fails, and the attempt before is found.
#[test]
fn a_fall_to_the_attempt_before(rt: HostRuntime) -> Outcome {
    does(rt, rt.alloc(), &OLD)
}

const NEW: Row = Row {
    run: Run {
        device: Device::Faulty(2, Leaves::New, 0),
        wishes: "c1 read a, c1 read b",
        ..BESIDE
    },
    checks: &[Check::Logs(
        "\
rise c1 old
begin c1 read a, try c1, kept c1, sayto c1 n1
take n1 1, try n1, kept n1, say n1
hear c1 2, enter c1
leave c1, sayto c1 n1
take n1 3, try n1, kept n1, say n1
hear c1 4
begin c1 read b, try c1, fall c1
rise c1 new
begin c1 read b, try c1, kept c1, sayto c1 n1
take n1 5, try n1, kept n1, say n1
hear c1 6, enter c1
leave c1, sayto c1 n1
take n1 7, try n1, kept n1, say n1
hear c1 8
",
    )],
    answer: Ok(2),
};

/// The second keep fails, and the attempt that was to be kept is found. It is over.
#[test]
fn a_fall_to_the_next_attempt(rt: HostRuntime) -> Outcome {
    does(rt, rt.alloc(), &NEW)
}

/// Two reopens that fail are as none.
#[test]
fn two_bad_reopens(rt: HostRuntime) -> Outcome {
    let run = Run {
        device: Device::Faulty(2, Leaves::Old, 2),
        ..WHOLE.run
    };
    ends_as(rt, rt.alloc(), &run, WHOLE.checks, Ok(1))
}

const SIX: &str = "c1 read a, c1 read b, c1 read a, c1 read b, c1 read a, c1 read b";

/// Which keeps of c1's record fail, what they leave, and the events. Six wishes are 104 events, and each
/// keep that fails is four more: a Begin, a Try, a Fall and a Rise.
const FAULTY: [(u32, Leaves, usize); 8] = [
    (2, Leaves::Old, 124),
    (3, Leaves::Old, 112),
    (4, Leaves::Old, 108),
    (5, Leaves::Old, 108),
    (2, Leaves::New, 124),
    (3, Leaves::New, 112),
    (4, Leaves::New, 108),
    (5, Leaves::New, 108),
];

#[test]
fn wishes_with_a_record_that_fails(rt: HostRuntime) -> Outcome {
    for (number, row) in FAULTY.iter().enumerate() {
        let (every, leaves, events) = *row;
        let run = Run {
            device: Device::Faulty(every, leaves, 0),
            wishes: SIX,
            ..BESIDE
        };
        let done = ends_as(rt, rt.alloc(), &run, &[Check::Lines(events)], Ok(6));
        in_row(done, number)?;
    }
    Ok(())
}
