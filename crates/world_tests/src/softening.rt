// A writer that softens in the world: what it says, whom that lets in, and what is left of it after falls.

use crate::rows::{Deed, Done, Note, Who};
use crate::sights::Sight;
use crate::steps::{Step, played};
use lock_messages::Mode;
use lock_model::{Heard, Problem};
use std::alloc::Global;
use test_outcomes::Outcome;
use world_model::{Age, StepFault};

/// The record of n1 in which c1 holds `a` as a writer, and c2 waits for it as a reader.
const WRITES: [u8; 52] = [
    0x01, 0x01, 0x00, 0x02, //
    0x00, 0x00, 0x00, 0x01, 0x00, 0x00, 0x00, 0x00, 0x00, 0x00, 0x00, 0x00, 0x02, 0x00, 0x00, 0x00,
    0x00, 0x00, 0x00, 0x00, 0x01, 0x01, 0x01, 0x61, //
    0x00, 0x00, 0x00, 0x02, 0x00, 0x00, 0x00, 0x00, 0x00, 0x00, 0x00, 0x00, 0x01, 0x00, 0x00, 0x00,
    0x00, 0x00, 0x00, 0x00, 0x01, 0x00, 0x01, 0x61,
];

/// The same once c1 has softened: c2 holds too.
const SOFTENED: [u8; 52] = [
    0x01, 0x01, 0x00, 0x02, //
    0x00, 0x00, 0x00, 0x01, 0x00, 0x00, 0x00, 0x00, 0x00, 0x00, 0x00, 0x00, 0x03, 0x00, 0x00, 0x00,
    0x00, 0x00, 0x00, 0x00, 0x01, 0x00, 0x01, 0x61, //
    0x00, 0x00, 0x00, 0x02, 0x00, 0x00, 0x00, 0x00, 0x00, 0x00, 0x00, 0x00, 0x02, 0x00, 0x00, 0x00,
    0x00, 0x00, 0x00, 0x00, 0x01, 0x00, 0x01, 0x61,
];

/// The actors of which most is told.
const N1: Who = Who::Node(1);

const C1: Who = Who::Client(1);

/// c1 is inside as a writer by the votes of n1 and n2, and n1 was busy for the reader c2: six messages.
const WRITING: [Step; 13] = [
    Step::Now(Deed::Rise(N1, Age::Old)),
    Step::Now(Deed::Rise(Who::Node(2), Age::Old)),
    Step::Begins(1, Mode::Write),
    Step::Now(Deed::SayTo(1, 1)),
    Step::Answers(1, 1),
    Step::Now(Deed::Hear(1, 2)),
    Step::Now(Deed::SayTo(1, 2)),
    Step::Answers(2, 3),
    Step::Now(Deed::Hear(1, 4)),
    Step::Now(Deed::Enter(1)),
    Step::Begins(2, Mode::Read),
    Step::Now(Deed::SayTo(2, 1)),
    Step::Answers(1, 5),
];

/// c1 softens, and says so to n1 by message 7.
const SOFTENS: [Step; 2] = [
    Step::Does(Deed::Soften(1), Done::Softened),
    Step::Does(Deed::SayTo(1, 1), Done::Sent(7, Note::Soften(1))),
];

/// Plays a script in the world in which c1 is inside as a writer.
fn play_writing(alloc: Global, script: &[Step]) -> Outcome {
    played(alloc, Problem::First, 2, &[&WRITING, script])
}

/// Plays a script in the world in which c1 has softened as well.
fn play_softening(alloc: Global, script: &[Step]) -> Outcome {
    played(alloc, Problem::First, 2, &[&WRITING, &SOFTENS, script])
}

const KEEPS_WRITER: Step = Step::See(Sight::Keeps(N1, &WRITES));

const KEEPS_READERS: Step = Step::See(Sight::Keeps(N1, &SOFTENED));

/// c1 is inside as a reader, and nobody else is.
const IS_READER: Step = Step::See(Sight::Inside(b"a", &[(1, Mode::Read)]));

const IS_WRITER: [Step; 2] = [
    Step::See(Sight::Inside(b"a", &[(1, Mode::Write)])),
    KEEPS_WRITER,
];

const IS_READER_NOW: [Step; 3] = [
    IS_READER,
    KEEPS_WRITER,
    Step::Refused(Deed::Soften(1), StepFault::WrongPhase),
];

#[test]
fn writer_becomes_a_reader(rt: HostRuntime) -> Outcome {
    play_writing(rt.alloc(), &IS_WRITER)?;
    play_softening(rt.alloc(), &IS_READER_NOW)
}

const LETS_IN: [Step; 9] = [
    Step::Does(Deed::Take(1, 7), Done::Took(Note::Soften(1), true)),
    Step::Now(Deed::Try(N1)),
    Step::Now(Deed::Kept(N1)),
    Step::Does(Deed::Say(1), Done::Said(8, 2)),
    Step::See(Sight::Sent(8, Note::Softened(1))),
    Step::See(Sight::Sent(9, Note::Grant(2, Mode::Read))),
    Step::See(Sight::Holding(1, b"a", &[(1, Mode::Read), (2, Mode::Read)])),
    KEEPS_READERS,
    Step::Does(
        Deed::Hear(1, 8),
        Done::Heard(Note::Softened(1), Heard::Softened),
    ),
];

#[test]
fn softening_lets_a_reader_in(rt: HostRuntime) -> Outcome {
    play_softening(rt.alloc(), &LETS_IN)
}

/// n1 has answered the softening by messages 8 and 9. A late copy of the writer's request, and what is heard
/// of it and of a late vote.
const LATE_REQUEST: [Step; 7] = [
    Step::Answers(1, 7),
    Step::Does(
        Deed::Take(1, 1),
        Done::Took(Note::Request(1, Mode::Write), false),
    ),
    Step::Does(Deed::Say(1), Done::Said(10, 1)),
    Step::See(Sight::Sent(10, Note::Softened(1))),
    Step::Does(
        Deed::Hear(1, 2),
        Done::Heard(Note::Grant(1, Mode::Write), Heard::NotMine),
    ),
    IS_READER,
    Step::Refused(Deed::Soften(1), StepFault::WrongPhase),
];

#[test]
fn late_request_of_a_softened_writer(rt: HostRuntime) -> Outcome {
    play_softening(rt.alloc(), &LATE_REQUEST)
}

/// n1 fell while it tried to keep the softening. With its old record it has a writer, as if nothing had come;
/// the softening changes that when it comes again.
const FALLS_BEFORE: [Step; 10] = [
    Step::Now(Deed::Take(1, 7)),
    Step::Now(Deed::Try(N1)),
    Step::Now(Deed::Fall(N1)),
    Step::Now(Deed::Rise(N1, Age::Old)),
    KEEPS_WRITER,
    Step::Refused(Deed::Say(1), StepFault::NothingToSay),
    Step::Answers(1, 7),
    KEEPS_READERS,
    Step::See(Sight::Sent(8, Note::Softened(1))),
    Step::See(Sight::IsSent(9)),
];

#[test]
fn node_falls_before_softening(rt: HostRuntime) -> Outcome {
    play_softening(rt.alloc(), &FALLS_BEFORE)
}

/// With its new record it knows the softening. The Grant that fell with it comes when c2 asks again.
const FALLS_AFTER: [Step; 11] = [
    Step::Now(Deed::Take(1, 7)),
    Step::Now(Deed::Try(N1)),
    Step::Now(Deed::Fall(N1)),
    Step::Now(Deed::Rise(N1, Age::New)),
    KEEPS_READERS,
    Step::Does(Deed::Take(1, 7), Done::Took(Note::Soften(1), false)),
    Step::Does(Deed::Say(1), Done::Said(8, 1)),
    Step::Does(
        Deed::Take(1, 5),
        Done::Took(Note::Request(2, Mode::Read), false),
    ),
    Step::Does(Deed::Say(1), Done::Said(9, 1)),
    Step::See(Sight::Sent(8, Note::Softened(1))),
    Step::See(Sight::Sent(9, Note::Grant(2, Mode::Read))),
];

#[test]
fn node_falls_after_softening(rt: HostRuntime) -> Outcome {
    play_softening(rt.alloc(), &FALLS_AFTER)
}

/// n1 didn't try to keep the softening when it fell.
const NOT_TRIED: [Step; 5] = [
    Step::Does(Deed::Take(1, 7), Done::Took(Note::Soften(1), true)),
    Step::Does(Deed::Fall(N1), Done::Down),
    Step::Refused(Deed::Rise(N1, Age::New), StepFault::NothingTried),
    Step::Does(Deed::Rise(N1, Age::Old), Done::Up),
    KEEPS_WRITER,
];

#[test]
fn node_falls_before_it_tries(rt: HostRuntime) -> Outcome {
    play_softening(rt.alloc(), &NOT_TRIED)
}

/// A client keeps nothing of its softening: it rises outside, its attempt over, and tells that.
const CLIENT_FALLS: [Step; 10] = [
    Step::Answers(1, 7),
    Step::Does(Deed::Fall(C1), Done::Down),
    Step::Refused(Deed::Soften(1), StepFault::Down),
    Step::Does(Deed::Rise(C1, Age::Old), Done::Up),
    Step::Refused(Deed::Soften(1), StepFault::WrongPhase),
    Step::See(Sight::Inside(b"a", &[])),
    Step::Does(
        Deed::Hear(1, 8),
        Done::Heard(Note::Softened(1), Heard::NotMine),
    ),
    Step::Does(Deed::SayTo(1, 1), Done::Sent(10, Note::Release(1))),
    Step::Answers(1, 10),
    Step::See(Sight::Holding(1, b"a", &[(2, Mode::Read)])),
];

#[test]
fn client_falls_softened(rt: HostRuntime) -> Outcome {
    play_softening(rt.alloc(), &CLIENT_FALLS)
}

/// Who is unknown, asks, or is down has nothing to soften.
const NOTHING_TO_SOFTEN: [Step; 4] = [
    Step::Refused(Deed::Soften(3), StepFault::UnknownActor),
    Step::Refused(Deed::Soften(2), StepFault::WrongPhase),
    Step::Does(Deed::Fall(Who::Client(2)), Done::Down),
    Step::Refused(Deed::Soften(2), StepFault::Down),
];

#[test]
fn refused_softening(rt: HostRuntime) -> Outcome {
    play_writing(rt.alloc(), &NOTHING_TO_SOFTEN)
}
