//! A session whose recorder refuses one event: it doesn't rise, or it is over by the call that was to log it. Each
//! later call answers the same fault and logs nothing, though the recorder would take it.

use crate::calls::{Call, READ_A, READ_B, Says, TRY_B, WRITE_A};
use crate::guards::SOFTENED;
use crate::refusing::Refusal;
use crate::rows::{PLAIN, Row, goes};
use event_recorders::RunFault;
use lock_messages::Mode;
use std::alloc::Global;
use std::sync::Wait;
use test_outcomes::Outcome;

/// Why an event is refused, and by which fault the session is over then: memory is wanting (914), or the book takes
/// no more, since it is full or another's (915).
const REFUSALS: [(Refusal, RunFault); 3] = [
    (Refusal::Memory, RunFault::Memory),
    (Refusal::Full, RunFault::Book),
    (Refusal::OtherBook, RunFault::Book),
];

/// The steps before the event of c1 of this number.
fn before(steps: &'static str, number: u32) -> &'static str {
    let mut left = number;
    let mut end = 0usize;
    for step in steps.split_inclusive(['\n', ',']) {
        if step.contains(" c1") {
            left = left.saturating_sub(1);
        }
        if left == 0 {
            break;
        }
        end = end.saturating_add(step.len());
    }
    steps.get(..end).unwrap_or(steps)
}

/// Ends the test unless a visit as a writer that softens, whose event of this number is refused, goes by these
/// calls, and logs what is before that event and nothing else. From the fourth event on the record has the
/// attempt; the seventh is the Enter, and the tenth the Leave.
fn stops<R: Wait + Copy>(
    rt: R,
    alloc: Global,
    number: u32,
    refusal: Refusal,
    over: RunFault,
    calls: &'static [(Call, Says)],
) -> Outcome {
    let row = Row {
        refused: Some((number, refusal)),
        calls,
        over,
        journal: before(SOFTENED, number),
        inside: usize::from((8..=10).contains(&number)),
        found: Some(u64::from(number >= 4)),
        ..PLAIN
    };
    goes(rt, alloc, &row)
}

/// The same for each reason to refuse it.
fn always_stops<R: Wait + Copy>(
    rt: R,
    alloc: Global,
    number: u32,
    calls: &'static [(Call, Says)],
) -> Outcome {
    for (refusal, over) in &REFUSALS {
        stops(rt, alloc, number, *refusal, *over, calls)?;
    }
    Ok(())
}

/// The same in a full book for each event that leaving logs.
fn stops_leaving<R: Wait + Copy>(rt: R, alloc: Global, calls: &'static [(Call, Says)]) -> Outcome {
    for number in 10..=13u32 {
        stops(rt, alloc, number, Refusal::Full, RunFault::Book, calls)?;
    }
    Ok(())
}

/// The Begin, the Try, the Kept, the request, the grant that is heard and the Enter are logged by entering.
const ENTERING: &[(Call, Says)] = &[
    (WRITE_A, Says::Over),
    (Call::Settle, Says::Over),
    (READ_B, Says::Over),
    (TRY_B, Says::Over),
];

#[test]
fn the_begin_is_refused(rt: HostRuntime) -> Outcome {
    always_stops(rt, rt.alloc(), 2, ENTERING)
}

#[test]
fn the_try_is_refused(rt: HostRuntime) -> Outcome {
    always_stops(rt, rt.alloc(), 3, ENTERING)
}

/// The record has the attempt then, which a restart finds.
#[test]
fn the_kept_is_refused(rt: HostRuntime) -> Outcome {
    always_stops(rt, rt.alloc(), 4, ENTERING)
}

#[test]
fn the_request_is_refused(rt: HostRuntime) -> Outcome {
    always_stops(rt, rt.alloc(), 5, ENTERING)
}

#[test]
fn the_grant_is_refused(rt: HostRuntime) -> Outcome {
    always_stops(rt, rt.alloc(), 6, ENTERING)
}

#[test]
fn the_enter_is_refused(rt: HostRuntime) -> Outcome {
    always_stops(rt, rt.alloc(), 7, ENTERING)
}

/// The Soften is logged by softening: it is inside as a writer still. Leaving is outside then, and says nothing.
const SOFTENING: &[(Call, Says)] = &[
    (WRITE_A, Says::Done),
    (Call::Soften(Mode::Write), Says::Over),
    (Call::Leave, Says::Over),
    (Call::Settle, Says::Over),
    (READ_B, Says::Over),
    (TRY_B, Says::Over),
];

#[test]
fn the_soften_is_refused(rt: HostRuntime) -> Outcome {
    always_stops(rt, rt.alloc(), 8, SOFTENING)
}

/// That the Soften is said is logged by softening too: it is inside as a reader, and its node doesn't know.
const SAYING_THE_SOFTENING: &[(Call, Says)] = &[
    (WRITE_A, Says::Done),
    (Call::Soften(Mode::Read), Says::Over),
    (Call::Leave, Says::Over),
    (Call::Settle, Says::Over),
    (READ_B, Says::Over),
    (TRY_B, Says::Over),
];

#[test]
fn the_softening_said_is_refused(rt: HostRuntime) -> Outcome {
    always_stops(rt, rt.alloc(), 9, SAYING_THE_SOFTENING)
}

/// Softening again answers the fault again.
const SOFTENING_TWICE: &[(Call, Says)] = &[
    (WRITE_A, Says::Done),
    (Call::Soften(Mode::Write), Says::Over),
    (Call::Soften(Mode::Write), Says::Over),
    (Call::Drop, Says::Done),
    (Call::Settle, Says::Over),
    (READ_A, Says::Over),
];

#[test]
fn softens_again_when_it_is_over(rt: HostRuntime) -> Outcome {
    let (refusal, over) = (Refusal::Full, RunFault::Book);
    stops(rt, rt.alloc(), 8, refusal, over, SOFTENING_TWICE)
}

/// The Leave, the release, and what is heard of the softening and of the release, are logged by leaving.
const LEAVING: &[(Call, Says)] = &[
    (WRITE_A, Says::Done),
    (Call::Soften(Mode::Read), Says::Done),
    (Call::Leave, Says::Over),
    (Call::Settle, Says::Over),
    (READ_B, Says::Over),
    (TRY_B, Says::Over),
];

#[test]
fn the_leave_is_refused(rt: HostRuntime) -> Outcome {
    always_stops(rt, rt.alloc(), 10, LEAVING)
}

#[test]
fn the_release_is_refused(rt: HostRuntime) -> Outcome {
    always_stops(rt, rt.alloc(), 11, LEAVING)
}

#[test]
fn the_answer_to_the_softening_is_refused(rt: HostRuntime) -> Outcome {
    always_stops(rt, rt.alloc(), 12, LEAVING)
}

#[test]
fn the_answer_to_the_release_is_refused(rt: HostRuntime) -> Outcome {
    always_stops(rt, rt.alloc(), 13, LEAVING)
}

/// Behind a guard that was dropped the same events are logged by the next call, whichever it is: by settling,
const SETTLING: &[(Call, Says)] = &[
    (WRITE_A, Says::Done),
    (Call::Soften(Mode::Read), Says::Done),
    (Call::Drop, Says::Done),
    (Call::Settle, Says::Over),
    (Call::Settle, Says::Over),
    (READ_B, Says::Over),
];

#[test]
fn settling_is_refused(rt: HostRuntime) -> Outcome {
    stops_leaving(rt, rt.alloc(), SETTLING)
}

/// by entering,
const SETTLING_BEFORE_AN_ENTERING: &[(Call, Says)] = &[
    (WRITE_A, Says::Done),
    (Call::Soften(Mode::Read), Says::Done),
    (Call::Drop, Says::Done),
    (READ_B, Says::Over),
    (Call::Settle, Says::Over),
    (READ_B, Says::Over),
];

#[test]
fn settling_before_an_entering_is_refused(rt: HostRuntime) -> Outcome {
    stops_leaving(rt, rt.alloc(), SETTLING_BEFORE_AN_ENTERING)
}

/// or by entering where it needn't wait.
const SETTLING_BEFORE_A_TRY: &[(Call, Says)] = &[
    (WRITE_A, Says::Done),
    (Call::Soften(Mode::Read), Says::Done),
    (Call::Drop, Says::Done),
    (TRY_B, Says::Over),
    (Call::Settle, Says::Over),
    (READ_B, Says::Over),
];

#[test]
fn settling_before_a_try_is_refused(rt: HostRuntime) -> Outcome {
    stops_leaving(rt, rt.alloc(), SETTLING_BEFORE_A_TRY)
}

/// The client doesn't rise, and gets back its record, in which a restart finds what it found, its link, and its
/// recorder, which logs its Rise then.
const DOES_NOT_RISE_WITHOUT_MEMORY: Row<'static> = Row {
    refused: Some((1, Refusal::Memory)),
    gone: true,
    rises: Err(RunFault::Memory),
    ..PLAIN
};

const DOES_NOT_RISE_IN_A_FULL_BOOK: Row<'static> = Row {
    refused: Some((1, Refusal::Full)),
    rises: Err(RunFault::Book),
    ..DOES_NOT_RISE_WITHOUT_MEMORY
};

const DOES_NOT_RISE_WITH_A_BERTH_OF_ANOTHER_BOOK: Row<'static> = Row {
    refused: Some((1, Refusal::OtherBook)),
    ..DOES_NOT_RISE_IN_A_FULL_BOOK
};

/// 914.
#[test]
fn does_not_rise_without_memory(rt: HostRuntime) -> Outcome {
    goes(rt, rt.alloc(), &DOES_NOT_RISE_WITHOUT_MEMORY)
}

/// 915.
#[test]
fn does_not_rise_in_a_full_book(rt: HostRuntime) -> Outcome {
    goes(rt, rt.alloc(), &DOES_NOT_RISE_IN_A_FULL_BOOK)
}

/// 915.
#[test]
fn does_not_rise_with_a_berth_of_another_book(rt: HostRuntime) -> Outcome {
    goes(rt, rt.alloc(), &DOES_NOT_RISE_WITH_A_BERTH_OF_ANOTHER_BOOK)
}
