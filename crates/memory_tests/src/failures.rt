// How a test ends before its end, and the messages that tests share.

use lock_messages::{FrameFault, Message, Mode};
use lossy_link::LinkFault;
use operator_cli::ServeFault;
use slot_record::SlotFault;
use stable_record::RecordFault;
use std::alloc::{AllocError, AllocFailed};
use test_outcomes::node_id;
use test_support::first_ticket;
use voter_core::VoterFault;
use world_model::StepFault;

/// Why a test ended: memory was refused, or something is wrong.
#[derive(Clone, Copy, Debug)]
pub(crate) enum Failure {
    Memory,
    Wrong,
}

/// What a test, or a step of one, answers.
pub(crate) type Outcome = Result<(), Failure>;

impl From<AllocError> for Failure {
    fn from(_error: AllocError) -> Failure {
        Failure::Memory
    }
}

impl<T: Drop> From<AllocFailed<T>> for Failure {
    fn from(_error: AllocFailed<T>) -> Failure {
        Failure::Memory
    }
}

/// Of a helper that the test crates share: its row says nothing here.
impl From<test_outcomes::Failure> for Failure {
    fn from(failure: test_outcomes::Failure) -> Failure {
        of_fault(failure == test_outcomes::Failure::Memory)
    }
}

/// Want of memory, where the fault says so.
fn of_fault(is_memory: bool) -> Failure {
    if is_memory {
        Failure::Memory
    } else {
        Failure::Wrong
    }
}

impl From<FrameFault> for Failure {
    fn from(fault: FrameFault) -> Failure {
        of_fault(matches!(fault, FrameFault::Memory))
    }
}

impl From<RecordFault> for Failure {
    fn from(fault: RecordFault) -> Failure {
        of_fault(matches!(fault, RecordFault::Memory | RecordFault::NoMemory))
    }
}

impl From<SlotFault> for Failure {
    fn from(fault: SlotFault) -> Failure {
        of_fault(matches!(fault, SlotFault::Memory))
    }
}

impl From<VoterFault> for Failure {
    fn from(fault: VoterFault) -> Failure {
        of_fault(matches!(fault, VoterFault::Memory))
    }
}

impl From<LinkFault> for Failure {
    fn from(fault: LinkFault) -> Failure {
        of_fault(matches!(fault, LinkFault::Memory))
    }
}

impl From<StepFault> for Failure {
    fn from(fault: StepFault) -> Failure {
        of_fault(matches!(fault, StepFault::Memory))
    }
}

impl From<ServeFault> for Failure {
    fn from(fault: ServeFault) -> Failure {
        of_fault(matches!(fault, ServeFault::Memory))
    }
}

/// Ends the test where something is not so.
pub(crate) fn check(holds: bool) -> Outcome {
    if holds { Ok(()) } else { Err(Failure::Wrong) }
}

/// Ends the test for want of memory, where what the refusal left is right.
pub(crate) fn refused<T>(is_right: bool) -> Result<T, Failure> {
    if is_right {
        Err(Failure::Memory)
    } else {
        Err(Failure::Wrong)
    }
}

/// What n1 and a client say to each other.
#[derive(Clone, Copy)]
pub(crate) enum Kind {
    Request,
    Grant,
    Busy,
    Release,
    Done,
    Soften,
    Softened,
}

/// The message of this kind between n1 and a client, by the client's first ticket.
pub(crate) fn message(kind: Kind, number: u32, mode: Mode) -> Result<Message, Failure> {
    let (node, ticket) = (node_id(1), first_ticket(number, mode)?);
    let (client, attempt) = (ticket.client, ticket.attempt);
    Ok(match kind {
        Kind::Request => Message::Request(node, ticket),
        Kind::Grant => Message::Grant(node, ticket),
        Kind::Busy => Message::Busy(node, ticket),
        Kind::Release => Message::Release(node, client, attempt),
        Kind::Done => Message::Done(node, client, attempt),
        Kind::Soften => Message::Soften(node, client, attempt),
        Kind::Softened => Message::Softened(node, client, attempt),
    })
}
