// A node of the world that takes another problem: whom that lets in, what it says, and what is left of it
// after falls.

use crate::rows::{Deed, Done, Note, Who};
use crate::sights::Sight;
use crate::steps::{Step, played};
use lock_messages::Mode;
use lock_model::Problem;
use std::alloc::Global;
use test_outcomes::Outcome;
use test_support::{LETS_IN, WAITS};
use world_model::{Age, MAX_MESSAGES, StepFault};

/// The node of which this tells.
const N1: Who = Who::Node(1);

const KEEPS_WAITS: Step = Step::See(Sight::Keeps(N1, &WAITS));

const KEEPS_LETS_IN: Step = Step::See(Sight::Keeps(N1, &LETS_IN));

/// Under problem 2 c1 asks n1 as a reader, c2 as a writer and c3 as a reader: six messages. Both who came
/// later wait.
const WAITING: [Step; 10] = [
    Step::Now(Deed::Rise(N1, Age::Old)),
    Step::Begins(1, Mode::Read),
    Step::Now(Deed::SayTo(1, 1)),
    Step::Answers(1, 1),
    Step::Begins(2, Mode::Write),
    Step::Now(Deed::SayTo(2, 1)),
    Step::Answers(1, 3),
    Step::Begins(3, Mode::Read),
    Step::Now(Deed::SayTo(3, 1)),
    Step::Answers(1, 5),
];

/// n1 takes problem 1, and lets c3 in by message 7.
const TAKES_FIRST: [Step; 4] = [
    Step::Does(Deed::Switch(1, Problem::First), Done::Switched(true)),
    Step::Now(Deed::Try(N1)),
    Step::Now(Deed::Kept(N1)),
    Step::Does(Deed::Say(1), Done::Said(7, 1)),
];

/// Plays a script in the world in which c2 and c3 wait.
fn play_waiting(alloc: Global, script: &[Step]) -> Outcome {
    played(alloc, Problem::Second, 4, &[&WAITING, script])
}

/// Plays a script in the world in which n1 has taken problem 1, and let c3 in.
fn play_let_in(alloc: Global, script: &[Step]) -> Outcome {
    played(alloc, Problem::Second, 4, &[&WAITING, &TAKES_FIRST, script])
}

const LETS_A_READER_IN: [Step; 3] = [
    Step::See(Sight::Sent(7, Note::Grant(3, Mode::Read))),
    KEEPS_LETS_IN,
    Step::See(Sight::Waiting(1, b"a", &[(2, Mode::Write)])),
];

#[test]
fn switch_lets_a_reader_in(rt: HostRuntime) -> Outcome {
    play_let_in(rt.alloc(), &LETS_A_READER_IN)
}

#[test]
fn reader_behind_a_writer_waits(rt: HostRuntime) -> Outcome {
    play_waiting(rt.alloc(), &[KEEPS_WAITS])
}

/// Of the same problem, and of one that lets nobody in, there is nothing to say; the next message is 8.
const NOTHING_TO_SAY: [Step; 8] = [
    Step::Does(Deed::Switch(1, Problem::First), Done::Switched(false)),
    Step::Does(Deed::Say(1), Done::Said(8, 0)),
    Step::Does(Deed::Switch(1, Problem::Second), Done::Switched(true)),
    Step::Now(Deed::Try(N1)),
    Step::Now(Deed::Kept(N1)),
    Step::Does(Deed::Say(1), Done::Said(8, 0)),
    Step::See(Sight::Unsent(8)),
    Step::Does(
        Deed::SayTo(1, 1),
        Done::Sent(8, Note::Request(1, Mode::Read)),
    ),
];

#[test]
fn nothing_to_say_after_a_switch(rt: HostRuntime) -> Outcome {
    play_let_in(rt.alloc(), &NOTHING_TO_SAY)
}

/// Without being kept the problem is lost, and the old one is the node's: it lets c4 in, a reader that asks
/// by message 8.
const NOT_TRIED: [Step; 9] = [
    Step::Does(Deed::Switch(1, Problem::Second), Done::Switched(true)),
    Step::Does(Deed::Fall(N1), Done::Down),
    Step::Refused(Deed::Rise(N1, Age::New), StepFault::NothingTried),
    Step::Does(Deed::Rise(N1, Age::Old), Done::Up),
    KEEPS_LETS_IN,
    Step::Begins(4, Mode::Read),
    Step::Now(Deed::SayTo(4, 1)),
    Step::Answers(1, 8),
    Step::See(Sight::Sent(9, Note::Grant(4, Mode::Read))),
];

#[test]
fn node_falls_before_it_tries(rt: HostRuntime) -> Outcome {
    play_let_in(rt.alloc(), &NOT_TRIED)
}

/// n1 fell while it tried to keep problem 2. With its old record it lets c4 in.
const FALLS_BEFORE: [Step; 8] = [
    Step::Does(Deed::Switch(1, Problem::Second), Done::Switched(true)),
    Step::Now(Deed::Try(N1)),
    Step::Now(Deed::Fall(N1)),
    Step::Now(Deed::Rise(N1, Age::Old)),
    Step::Begins(4, Mode::Read),
    Step::Now(Deed::SayTo(4, 1)),
    Step::Answers(1, 8),
    Step::See(Sight::Sent(9, Note::Grant(4, Mode::Read))),
];

#[test]
fn node_falls_before_it_keeps(rt: HostRuntime) -> Outcome {
    play_let_in(rt.alloc(), &FALLS_BEFORE)
}

/// With its new record it makes c4 wait.
const FALLS_AFTER: [Step; 9] = [
    Step::Does(Deed::Switch(1, Problem::Second), Done::Switched(true)),
    Step::Now(Deed::Try(N1)),
    Step::Now(Deed::Fall(N1)),
    Step::Now(Deed::Rise(N1, Age::New)),
    Step::Refused(Deed::Say(1), StepFault::NothingToSay),
    Step::Begins(4, Mode::Read),
    Step::Now(Deed::SayTo(4, 1)),
    Step::Answers(1, 8),
    Step::See(Sight::Sent(9, Note::Busy(4, Mode::Read))),
];

#[test]
fn node_falls_after_it_kept(rt: HostRuntime) -> Outcome {
    play_let_in(rt.alloc(), &FALLS_AFTER)
}

/// Who is unknown, is down, or is about something else takes no problem.
const REFUSED: [Step; 14] = [
    Step::Refused(Deed::Switch(4, Problem::First), StepFault::UnknownActor),
    Step::Refused(Deed::Switch(2, Problem::First), StepFault::Down),
    Step::Does(Deed::Switch(1, Problem::First), Done::Switched(true)),
    Step::Refused(Deed::Switch(1, Problem::First), StepFault::WrongPhase),
    Step::Refused(Deed::Switch(1, Problem::Second), StepFault::WrongPhase),
    Step::Refused(Deed::Say(1), StepFault::NotStored),
    Step::Refused(Deed::Take(1, 1), StepFault::WrongPhase),
    Step::Now(Deed::Try(N1)),
    Step::Now(Deed::Kept(N1)),
    Step::Refused(Deed::Switch(1, Problem::First), StepFault::WrongPhase),
    Step::Refused(Deed::Switch(1, Problem::Second), StepFault::WrongPhase),
    Step::Does(Deed::Fall(N1), Done::Down),
    Step::Refused(Deed::Switch(1, Problem::First), StepFault::Down),
    Step::Refused(Deed::Switch(1, Problem::Second), StepFault::Down),
];

#[test]
fn refused_switches(rt: HostRuntime) -> Outcome {
    play_waiting(rt.alloc(), &REFUSED)
}

/// c1 says its request again and again, until no message can be sent any more. A node that has none to say
/// goes on then, and one that has a Grant to say can't.
const FULL: [Step; 10] = [
    Step::Often(Deed::SayTo(1, 1), MAX_MESSAGES - 6),
    Step::Refused(Deed::SayTo(1, 1), StepFault::SentListFull),
    Step::Does(Deed::Switch(1, Problem::Second), Done::Switched(false)),
    Step::Does(Deed::Say(1), Done::Said(MAX_MESSAGES + 1, 0)),
    Step::Does(Deed::Switch(1, Problem::First), Done::Switched(true)),
    Step::Now(Deed::Try(N1)),
    Step::Now(Deed::Kept(N1)),
    KEEPS_LETS_IN,
    Step::Refused(Deed::Say(1), StepFault::SentListFull),
    Step::Refused(Deed::Say(1), StepFault::SentListFull),
];

#[test]
fn full_list_of_messages(rt: HostRuntime) -> Outcome {
    play_waiting(rt.alloc(), &FULL)
}
