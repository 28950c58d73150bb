// A node's core: 503.
//
// A test is a script of steps, behind which the policies are seen when the node has fallen.

use crate::failures::{Failure, Kind, Outcome, check, message, refused};
use crate::policies::{have_let_in, told_once};
use admission_policy::Pair;
use lock_messages::{Message, Mode, Ticket};
use lock_model::Problem;
use stable_record::RecordFault;
use std::alloc::Global;
use test_outcomes::node_id;
use test_support::{LETS_IN, NOTHING_KEPT, READS, SOFTENED, WAITS, WRITES, first_ticket, resource};
use voter_core::{NodeCore, Phase, VoterFault};

/// The record of problem 2 in which c1 holds `a` as a reader.
const READS_UNDER_SECOND: [u8; 28] = [
    0x01, 0x02, 0x00, 0x01, //
    0x00, 0x00, 0x00, 0x01, 0x00, 0x00, 0x00, 0x00, 0x00, 0x00, 0x00, 0x00, 0x02, 0x00, 0x00, 0x00,
    0x00, 0x00, 0x00, 0x00, 0x01, 0x00, 0x01, 0x61,
];

/// n1 with this record; where memory is refused the policies come back as they were.
fn risen(alloc: Global, bytes: &[u8]) -> Result<NodeCore, Failure> {
    let id = node_id(1);
    match NodeCore::rise(alloc, id, bytes, told_once(alloc)?) {
        Ok(core) => Ok(core),
        Err((policies, fault)) => refused(is_memory(fault) && are_as_made(&policies)),
    }
}

fn are_in_place(policies: &Pair) -> bool {
    let (Some(first), Some(second)) = (&policies.first, &policies.second) else {
        return false;
    };
    first.problem() == 1 && second.problem() == 2
}

/// Whether the policies stand in their places, and were told of nothing more.
fn are_as_made(policies: &Pair) -> bool {
    are_in_place(policies) && have_let_in(policies, 1, 0)
}

/// Memory may be refused before the record is read, or while it is.
fn is_memory(fault: VoterFault) -> bool {
    matches!(
        fault,
        VoterFault::Memory | VoterFault::Unreadable(RecordFault::NoMemory)
    )
}

/// What a node does, or is to be.
#[derive(Clone, Copy)]
enum Step {
    /// It is idle with these bytes as its record.
    Rests(&'static [u8]),
    Restarts(&'static [u8]),
    /// It takes a client's message, and whether that changes the record.
    Takes(Kind, u32, Mode, bool),
    /// It takes c2's request as a reader, which changes this record.
    TakesReader(&'static [u8]),
    /// It takes c2's request as a writer for the longest name of a resource, which changes the record.
    TakesLongName,
    /// It takes this problem, and whether that changes the record.
    Switches(Problem, bool),
    /// It is about this, with so many replies to say.
    Is(Phase, usize),
    /// The bytes of its record, or how many they are, or with which they begin.
    HasBytes(&'static [u8]),
    HasSize(usize),
    Begins(&'static [u8]),
    /// It keeps what it decided, and says it to each client from this one to c1024: nobody is behind that.
    Speaks(u32),
}

/// Whether the node is idle with these bytes as its record.
fn rests_with(alloc: Global, core: &NodeCore, bytes: &[u8]) -> Outcome {
    let now = core.next_bytes(alloc)?;
    check(now.as_slice() == bytes && core.phase() == Phase::Idle && core.replies() == 0)
}

/// Restarts with other bytes; where memory is refused the node rests with the record that it had.
fn restarts(alloc: Global, core: &mut NodeCore, old: &[u8], new: &[u8]) -> Outcome {
    match core.restart(new) {
        Ok(()) => rests_with(alloc, core, new),
        Err(fault) => {
            rests_with(alloc, core, old)?;
            refused(is_memory(fault))
        }
    }
}

/// Takes a message; where memory is refused the node rests with the record that it had.
fn takes(
    alloc: Global,
    core: &mut NodeCore,
    bytes: &[u8],
    message: &Message,
    changes: bool,
) -> Outcome {
    if core.phase() != Phase::Idle || !message.is_for_node(core.node()) {
        return Err(Failure::Wrong);
    }
    match core.take(message) {
        Ok(changed) => check(changed == changes),
        Err(fault) => {
            rests_with(alloc, core, bytes)?;
            Err(fault.into())
        }
    }
}

/// c2's request as a writer, for the longest name of a resource.
fn long_request() -> Result<Message, Failure> {
    let name = b"abcdefghijklmnopqrstuvwxyz-01234";
    let resource = resource(name)?;
    let ticket = first_ticket(2, Mode::Write)?;
    Ok(Message::Request(node_id(1), Ticket { resource, ..ticket }))
}

/// Takes another problem or the same; where memory is refused the node rests with the record that it had.
fn switches(
    alloc: Global,
    core: &mut NodeCore,
    bytes: &[u8],
    problem: Problem,
    changes: bool,
) -> Outcome {
    if core.phase() != Phase::Idle {
        return Err(Failure::Wrong);
    }
    match core.switch(problem) {
        Ok(changed) => check(changed == changes),
        Err(fault) => {
            rests_with(alloc, core, bytes)?;
            refused(fault == VoterFault::Memory)
        }
    }
}

/// Whether the replies are to each client from this one to c1024, in this order: a Grant, and to c1 that its
/// message was taken. Behind c1024 there is none.
fn are_to_all_from(replies: &[Message], first: u32) -> bool {
    let mut wanted = first;
    let mut right = true;
    for reply in replies {
        right &= match reply {
            Message::Done(_, client, _) | Message::Softened(_, client, _) => {
                wanted == 1 && client.get() == 1
            }
            Message::Grant(_, ticket) => wanted > 1 && ticket.client.get() == wanted,
            _ => false,
        };
        wanted = wanted.saturating_add(1);
    }
    right && wanted == 1_025
}

/// Keeps, and speaks to each client from this one on.
fn speaks(core: &mut NodeCore, first: u32) -> Outcome {
    if core.phase() != Phase::Decided {
        return Err(Failure::Wrong);
    }
    core.kept();
    let replies = core.speak();
    check(are_to_all_from(&replies, first))
}

/// Plays a step of a node that had these bytes as its record.
fn plays_step(alloc: Global, core: &mut NodeCore, bytes: &[u8], step: Step) -> Outcome {
    match step {
        Step::Rests(now) => rests_with(alloc, core, now),
        Step::Restarts(new) => restarts(alloc, core, bytes, new),
        Step::Takes(kind, number, mode, changes) => {
            takes(alloc, core, bytes, &message(kind, number, mode)?, changes)
        }
        Step::TakesReader(now) => {
            takes(
                alloc,
                core,
                now,
                &message(Kind::Request, 2, Mode::Read)?,
                true,
            )
        }
        Step::TakesLongName => takes(alloc, core, bytes, &long_request()?, true),
        Step::Switches(problem, changes) => switches(alloc, core, bytes, problem, changes),
        Step::Is(phase, replies) => check(core.phase() == phase && core.replies() == replies),
        Step::HasBytes(now) => check(core.next_bytes(alloc)?.as_slice() == now),
        Step::HasSize(size) => check(core.next_bytes(alloc)?.len() == size),
        Step::Begins(now) => check(core.next_bytes(alloc)?.starts_with(now)),
        Step::Speaks(first) => speaks(core, first),
    }
}

fn plays(alloc: Global, core: &mut NodeCore, bytes: &[u8], steps: &[Step]) -> Outcome {
    for step in steps {
        plays_step(alloc, core, bytes, *step)?;
    }
    Ok(())
}

/// Lets a node fall that came so far: its policies were told of so many readers each, of nothing more than at
/// first where memory was refused.
fn falls(core: NodeCore, came: Outcome, first: u64, second: u64) -> Outcome {
    let policies = core.fall();
    match came {
        Ok(()) => check(are_in_place(&policies) && have_let_in(&policies, first, second)),
        Err(_) if !are_as_made(&policies) => Err(Failure::Wrong),
        Err(failure) => Err(failure),
    }
}

/// Plays the steps of a node with this record, which lets in no new reader.
fn lets_in_none(alloc: Global, bytes: &[u8], steps: &[Step]) -> Outcome {
    let mut core = risen(alloc, bytes)?;
    let came = plays(alloc, &mut core, bytes, steps);
    falls(core, came, 1, 0)
}

/// Plays the steps of a node with the record of c1's reader, by which each policy has let in so many.
fn lets_in(alloc: Global, steps: &[Step], first: u64, second: u64) -> Outcome {
    let mut core = risen(alloc, &READS)?;
    let came = plays(alloc, &mut core, &READS, steps);
    falls(core, came, first, second)
}

const RESTS: [Step; 1] = [Step::Rests(&READS)];

#[test]
fn rise_with_a_record(rt: HostRuntime) -> Outcome {
    lets_in_none(rt.alloc(), &READS, &RESTS)
}

const RESTARTS: [Step; 1] = [Step::Restarts(&READS)];

#[test]
fn restart_with_a_record(rt: HostRuntime) -> Outcome {
    lets_in_none(rt.alloc(), &NOTHING_KEPT, &RESTARTS)
}

const TAKES: [Step; 2] = [
    Step::Takes(Kind::Request, 2, Mode::Write, true),
    Step::Is(Phase::Decided, 1),
];

#[test]
fn take_a_request(rt: HostRuntime) -> Outcome {
    lets_in_none(rt.alloc(), &READS, &TAKES)
}

/// A copy of a node that plays these steps has its reply to say; where memory is refused the node still has it.
fn copies(alloc: Global, core: &mut NodeCore, policies: Pair, steps: &[Step]) -> Outcome {
    plays(alloc, core, &READS, steps)?;
    match core.copy(policies) {
        Ok(copy) => {
            let has_reply = copy.phase() == Phase::Decided && copy.replies() == 1;
            let is_same = has_reply && copy.record().entries.len() == 2;
            let policies = copy.fall();
            check(is_same && are_as_made(&policies))
        }
        Err(fault) => {
            let has_reply = core.phase() == Phase::Decided && core.replies() == 1;
            refused(fault == VoterFault::Memory && has_reply)
        }
    }
}

#[test]
fn copy_what_was_decided(rt: HostRuntime) -> Outcome {
    let policies = told_once(rt.alloc())?;
    copies(
        rt.alloc(),
        &mut risen(rt.alloc(), &READS)?,
        policies,
        &TAKES,
    )
}

const TAKES_A_READER: [Step; 1] = [Step::TakesReader(&READS)];

/// A reader's new ticket, of which the policy is told.
#[test]
fn take_a_reader(rt: HostRuntime) -> Outcome {
    lets_in(rt.alloc(), &TAKES_A_READER, 2, 0)
}

const TAKES_A_LONG_NAME: [Step; 2] = [Step::TakesLongName, Step::HasSize(28 + 55)];

/// The longest name of a resource.
#[test]
fn take_a_long_name(rt: HostRuntime) -> Outcome {
    lets_in_none(rt.alloc(), &READS, &TAKES_A_LONG_NAME)
}

const TAKES_AGAIN: [Step; 2] = [
    Step::Takes(Kind::Request, 1, Mode::Read, false),
    Step::Is(Phase::Stored, 1),
];

#[test]
fn take_a_request_again(rt: HostRuntime) -> Outcome {
    lets_in_none(rt.alloc(), &READS, &TAKES_AGAIN)
}

/// The record of this problem in which c1 holds `a` and c2 to c1024 wait for it, all but this one as readers.
fn all_waiting(alloc: Global, problem: u8, writer: u32) -> Result<Vec<u8>, Failure> {
    let mut bytes = Vec::new(alloc);
    bytes.extend_from_slice(&[1, problem, 4, 0])?;
    for client in 1..=1_024u32 {
        let [_, _, high, low] = client.to_be_bytes();
        let state = if client == 1 { 2 } else { 1 };
        let mode = u8::from(client == writer);
        let entry = [
            0, 0, high, low, 0, 0, 0, 0, 0, 0, 0, 0, state, 0, 0, 0, 0, 0, 0, 0, 1, mode, 1, b'a',
        ];
        bytes.extend_from_slice(&entry)?;
    }
    Ok(bytes)
}

/// Plays the steps of a node with that record.
fn lets_all_in(alloc: Global, problem: u8, writer: u32, steps: &[Step]) -> Outcome {
    let bytes = all_waiting(alloc, problem, writer)?;
    if bytes.len() == 24_580 {
        lets_in_none(alloc, &bytes, steps)
    } else {
        Err(Failure::Wrong)
    }
}

const RELEASES: [Step; 3] = [
    Step::Takes(Kind::Release, 1, Mode::Write, true),
    Step::HasSize(24_569),
    Step::Speaks(1),
];

/// A release that lets in as many as may wait: nothing has changed where memory is refused.
#[test]
fn take_a_release_for_all(rt: HostRuntime) -> Outcome {
    lets_all_in(rt.alloc(), 1, 1, &RELEASES)
}

const SOFTENS_FOR_ALL: [Step; 3] = [
    Step::Takes(Kind::Soften, 1, Mode::Write, true),
    Step::HasSize(24_580),
    Step::Speaks(1),
];

/// A softening that lets in as many.
#[test]
fn take_a_softening_for_all(rt: HostRuntime) -> Outcome {
    lets_all_in(rt.alloc(), 1, 1, &SOFTENS_FOR_ALL)
}

const SOFTENS: [Step; 3] = [
    Step::Takes(Kind::Soften, 1, Mode::Write, true),
    Step::Is(Phase::Decided, 1),
    Step::HasBytes(&SOFTENED),
];

/// The writer becomes no new reader, so that the policy is told of nothing.
#[test]
fn take_a_softening(rt: HostRuntime) -> Outcome {
    lets_in_none(rt.alloc(), &WRITES, &SOFTENS)
}

const SOFTENS_AGAIN: [Step; 2] = [
    Step::Takes(Kind::Soften, 1, Mode::Write, false),
    Step::Is(Phase::Stored, 1),
];

#[test]
fn take_a_softening_again(rt: HostRuntime) -> Outcome {
    lets_in_none(rt.alloc(), &SOFTENED, &SOFTENS_AGAIN)
}

const STRANGER_SOFTENS: [Step; 2] = [
    Step::Takes(Kind::Soften, 2, Mode::Write, false),
    Step::Is(Phase::Stored, 1),
];

#[test]
fn take_a_softening_of_a_stranger(rt: HostRuntime) -> Outcome {
    lets_in_none(rt.alloc(), &WRITES, &STRANGER_SOFTENS)
}

const SWITCHES_TO_THE_FIRST: [Step; 3] = [
    Step::Switches(Problem::First, true),
    Step::Is(Phase::Decided, 1),
    Step::HasBytes(&LETS_IN),
];

/// The reader passes the writer under problem 1, and no policy is told of it.
#[test]
fn switch_to_the_first_problem(rt: HostRuntime) -> Outcome {
    lets_in_none(rt.alloc(), &WAITS, &SWITCHES_TO_THE_FIRST)
}

const SWITCHES_TO_THE_SECOND: [Step; 2] = [
    Step::Switches(Problem::Second, true),
    Step::Is(Phase::Decided, 0),
];

/// Who holds goes on holding, and nobody is told anything.
#[test]
fn switch_to_the_second_problem(rt: HostRuntime) -> Outcome {
    lets_in_none(rt.alloc(), &READS, &SWITCHES_TO_THE_SECOND)
}

const SWITCHES_TO_THE_SAME: [Step; 3] = [
    Step::Switches(Problem::Second, false),
    Step::Is(Phase::Stored, 0),
    Step::HasBytes(&WAITS),
];

#[test]
fn switch_to_the_same_problem(rt: HostRuntime) -> Outcome {
    lets_in_none(rt.alloc(), &WAITS, &SWITCHES_TO_THE_SAME)
}

const SWITCHES_FOR_ALL: [Step; 4] = [
    Step::Switches(Problem::First, true),
    Step::Is(Phase::Decided, 1_022),
    Step::Begins(&[1, 1, 4, 0]),
    Step::Speaks(3),
];

/// A switch that lets in as many as may pass a writer.
#[test]
fn switch_for_all(rt: HostRuntime) -> Outcome {
    lets_all_in(rt.alloc(), 2, 2, &SWITCHES_FOR_ALL)
}

const TAKES_AFTER_A_SWITCH: [Step; 3] = [
    Step::Switches(Problem::Second, true),
    Step::Speaks(1_025),
    Step::TakesReader(&READS_UNDER_SECOND),
];

/// Once the switch is kept and said to nobody, the policy of problem 2 is told of a new reader's ticket.
#[test]
fn take_a_reader_after_a_switch(rt: HostRuntime) -> Outcome {
    lets_in(rt.alloc(), &TAKES_AFTER_A_SWITCH, 1, 1)
}
