//! The number and the text of each fault, once.

use client_core::ClientFault;
use lock_messages::{Actor, FrameFault, NodeId};
use stable_record::RecordFault;
use std::fmt;
use test_outcomes::{Outcome, check_answer};
use vote_weights::BallotFault;
use voter_core::VoterFault;
use world_opening::OpeningFault;

/// Adds the row of a fault; whether there was memory.
fn tell<T: fmt::Display>(rows: &mut String, number: u16, fault: &T) -> bool {
    write!(rows, "{number} {fault}\n").is_ok()
}

const FRAMES: [FrameFault; 11] = [
    FrameFault::Short,
    FrameFault::Version,
    FrameFault::Kind,
    FrameFault::Node,
    FrameFault::Client,
    FrameFault::Attempt,
    FrameFault::Mode,
    FrameFault::NameLength,
    FrameFault::NameByte,
    FrameFault::Trailing,
    FrameFault::Memory,
];

const BALLOTS: [BallotFault; 8] = [
    BallotFault::NoNode,
    BallotFault::TooManyNodes,
    BallotFault::OverTotal,
    BallotFault::ReadsMissWrites,
    BallotFault::WritesMiss,
    BallotFault::BallotsMiss(1, 2),
    BallotFault::NoBallot,
    BallotFault::TooManyBallots,
];

const RECORDS: [RecordFault; 19] = [
    RecordFault::Device,
    RecordFault::Stuck,
    RecordFault::TooLong,
    RecordFault::Memory,
    RecordFault::Spent,
    RecordFault::Short,
    RecordFault::Version,
    RecordFault::Policy,
    RecordFault::EntryField,
    RecordFault::ClientTwice,
    RecordFault::AttemptNotNext,
    RecordFault::WriterNotAlone,
    RecordFault::NoCause,
    RecordFault::Trailing,
    RecordFault::NoMemory,
    RecordFault::ClientShort,
    RecordFault::ClientVersion,
    RecordFault::ClientAttempt,
    RecordFault::ClientTrailing,
];

const VOTERS: [VoterFault; 2] = [
    VoterFault::Unreadable(RecordFault::Short),
    VoterFault::Memory,
];

const CLIENTS: [ClientFault; 3] = [
    ClientFault::NotIdle,
    ClientFault::AttemptsSpent,
    ClientFault::NoSuchPlace,
];

const TEXTS: &str = "\
101 the frame ends within a field
102 the frame is of another version
103 no message has this kind
104 no node has this number
105 no client has this number
106 no attempt has this number
107 this is neither a reader nor a writer
108 no name has this length
109 no name has this byte
110 bytes follow the frame
111 out of memory
201 the ballot has no node
202 the ballot has more than 16 nodes
203 a reader or a writer needs more votes than all nodes have
204 a read and a write can have enough votes with none in common
205 two writes can have enough votes with none in common
206 the ballots at places 1 and 2 can each have enough votes with none at a common node
207 the list has no ballot
208 the list has more than 8 ballots
301 the device failed
302 the record is stuck until it is reopened
303 the record is too long
304 out of memory
305 no change can be numbered any more
311 the node record ends within a field
312 the node record is of another version
313 no problem has this number
314 an entry is out of range
315 a client has two entries
316 an attempt isn't one above the floor
317 a writer that holds isn't alone
318 a ticket waits without a cause
319 bytes follow the node record
320 out of memory for a node record
321 the client record ends within a field
322 the client record is of another version
323 no attempt has this number
324 bytes follow the client record
501 the node record can't be read: the node record ends within a field
503 out of memory
613 there was no memory
621 an entry is above the attempt that its client has kept
622 the actor's record can't be read
701 an attempt is under way
702 no attempt is left
703 there is no ballot at this place
";

/// The rows of the faults of an opening, one of which names an actor.
fn tell_openings(rows: &mut String) -> bool {
    let unread = OpeningFault::NoRecord(Actor::Node(NodeId::of(1).unwrap()));
    let faults = [
        OpeningFault::Memory,
        OpeningFault::EntryAboveAttempt,
        unread,
    ];
    let mut told = true;
    for fault in &faults {
        told &= tell(rows, fault.number(), fault);
    }
    told
}

/// The rows of all faults; whether there was memory.
fn tell_all(rows: &mut String) -> bool {
    let mut told = true;
    for fault in &FRAMES {
        told &= tell(rows, fault.number(), fault);
    }
    for fault in &BALLOTS {
        told &= tell(rows, fault.number(), fault);
    }
    for fault in &RECORDS {
        told &= tell(rows, fault.number(), fault);
    }
    for fault in &VOTERS {
        told &= tell(rows, fault.number(), fault);
    }
    told &= tell_openings(rows);
    for fault in &CLIENTS {
        told &= tell(rows, fault.number(), fault);
    }
    told
}

#[test]
fn texts_of_faults(rt: HostRuntime) -> Outcome {
    let mut rows = String::new(rt.alloc());
    let told = tell_all(&mut rows);
    check_answer(told.then_some(rows.as_str() == TEXTS), 0)
}
