//! Frames against bytes that were written by hand, and against a plain reader of the table of fields.

use crate::rows::{are_spelled, both, message, number, spells};
use crate::spellings::{Spelled, begin_short, each_change};
use crate::tables::{Table, each};
use lock_messages::{Message, decode, encode};
use std::alloc::Global;
use test_outcomes::{Outcome, check_row};

/// The number of the fault that reading a frame finds; 0 where it finds none.
pub(crate) fn fault_of(frame: &[u8]) -> u16 {
    match decode(frame) {
        Ok(_) => 0,
        Err(fault) => fault.number(),
    }
}

/// What is asked of the frame of a message.
#[derive(Clone, Copy)]
enum Asked<'a> {
    /// Whether it is spelled so, and the message is read from it.
    IsSpelled(&'a str),
    /// Whether each beginning of it is short.
    BeginsShort,
    /// Whether it has so many bytes, and the message is read from it; no memory is wanting.
    HasLength(usize),
    /// Whether it is read as the table says with each byte changed to each other value.
    Changed,
}

/// Whether a copy of a frame is read as the table says with each byte changed to each other value.
fn copy_agrees(alloc: Global, frame: &[u8]) -> Option<bool> {
    match frame.to_vec(alloc) {
        Ok(copy) => {
            let mut copy = copy;
            each_change(alloc, Spelled::Frame, &mut copy)
        }
        Err(_) => None,
    }
}

/// Whether what is asked of the frame of a message is so.
fn is_so(alloc: Global, message: &Message, frame: &[u8], asked: &Asked) -> Option<bool> {
    let is_read = decode(frame) == Ok(*message);
    match asked {
        Asked::IsSpelled(words) => both(Some(is_read), are_spelled(alloc, frame, words)),
        Asked::BeginsShort => begin_short(alloc, Spelled::Frame, frame, 101),
        Asked::HasLength(length) => Some(is_read && frame.len() == *length),
        Asked::Changed => copy_agrees(alloc, frame),
    }
}

/// The same of the message of a row.
fn is_so_of(alloc: Global, row: &str, asked: &Asked) -> Option<bool> {
    let Some(message) = message(row) else {
        return None;
    };
    match encode(alloc, &message) {
        Ok(frame) => is_so(alloc, &message, &frame, asked),
        Err(_) => None,
    }
}

// Messages and their frames.
const FRAMES: &str = "\
request n1 c1 1 read a=01 01 01 00000001 0000000000000001 00 01 61
release n2 c1024 1000000000000=01 02 02 00000400 000000e8d4a51000
grant n1 c1 1 write db-1=01 03 01 00000001 0000000000000001 01 04 64622d31
done n1 c2 1=01 06 01 00000002 0000000000000001
soften n1 c1 1=02 08 01 00000001 0000000000000001
softened n2 c1024 1000000000000=02 09 02 00000400 000000e8d4a51000";

/// Whether a message has the frame of its row, and is read from it.
pub(crate) fn is_spelled(alloc: Global, row: &str) -> Option<bool> {
    let (said, words) = row.split_once('=').unwrap_or((row, ""));
    is_so_of(alloc, said, &Asked::IsSpelled(words))
}

// What is wrong with the frame of a request.
const REQUEST_FRAMES: &str = "\
0 01 01 01 00000001 0000000000000001 00 01 61
101 01 01 01 00000001 0000000000000001 00 01
109 01 01 01 00000001 0000000000000001 00 01 41
108 01 01 01 00000001 0000000000000001 00 00 61
108 01 01 01 00000001 0000000000000001 00 21 61
103 01 08 01 00000001 0000000000000001 00 01 61
103 02 01 01 00000001 0000000000000001 00 01 61
102 03 01 01 00000001 0000000000000001 00 01 61
110 01 01 01 00000001 0000000000000001 00 01 61 00";

#[test]
fn request_frame(rt: HostRuntime) -> Outcome {
    let spelled = each(rt.alloc(), Table::Spelled, FRAMES);
    spelled.and(each(rt.alloc(), Table::FaultyFrames, REQUEST_FRAMES))
}

// What is wrong with the frame of a softening: each version has its own kinds, and no ticket follows.
const SOFTENING_FRAMES: &str = "\
0 02 08 01 00000001 0000000000000001
0 02 09 01 00000001 0000000000000001
102 00 08 01 00000001 0000000000000001
103 01 08 01 00000001 0000000000000001
103 01 09 01 00000001 0000000000000001
102 03 08 01 00000001 0000000000000001
103 02 07 01 00000001 0000000000000001
103 02 0a 01 00000001 0000000000000001
103 02 02 00
104 02 08 11 00000001 0000000000000001
105 02 08 01 00000401 0000000000000001
106 02 09 01 00000001 0000000000000000
101 02
101 02 08 01 00000001 000000000000
110 02 08 01 00000001 0000000000000001 00";

/// Whether a version has the kinds from the first to the last, and no other.
fn has_just_kinds(version: u8, first: u8, last: u8) -> bool {
    let mut right = true;
    for kind in 0..=255u8 {
        let frame = [version, kind, 1, 0, 0, 0, 1, 0, 0, 0, 0, 0, 0, 0, 1];
        let is_kind = first <= kind && kind <= last;
        right &= is_kind == (fault_of(&frame) != 103);
    }
    right
}

#[test]
fn softening_frame(rt: HostRuntime) -> Outcome {
    let faulty = each(rt.alloc(), Table::FaultyFrames, SOFTENING_FRAMES);
    let kinds = check_row(has_just_kinds(1, 1, 7), 101).and(check_row(
        has_just_kinds(2, 8, 9),
        102,
    ));
    faulty.and(kinds)
}

/// Whether each beginning of the frame of a message is short.
pub(crate) fn begins_short(alloc: Global, row: &str) -> Option<bool> {
    is_so_of(alloc, row, &Asked::BeginsShort)
}

// A request for the shortest name, and one message of each kind.
const KINDS: &str = "\
request n1 c1 1 read a
request n3 c700 70000 write db-1
release n3 c700 70000
grant n3 c700 70000 read db-1
busy n3 c700 70000 write db-1
over n3 c700 70000
done n3 c700 70000
muddled n3 c700 70000
soften n3 c700 70000
softened n3 c700 70000";

// The longest name, 32 letters.
const LONGEST: &str = "\
request n16 c1024 1000000000000 write zzzzzzzzzzzzzzzzzzzzzzzzzzzzzzzz
grant n16 c1024 1000000000000 write zzzzzzzzzzzzzzzzzzzzzzzzzzzzzzzz
busy n1 c1 1 read zzzzzzzzzzzzzzzzzzzzzzzzzzzzzzzz";

/// Whether a message with each length of its name goes there and back by a frame of so many bytes.
pub(crate) fn goes_there_and_back(alloc: Global, row: &str) -> Option<bool> {
    let mut right = Some(true);
    for cut in 0..32usize {
        let shorter = row.get(..row.len().saturating_sub(cut)).unwrap_or("");
        let length = 49usize.saturating_sub(cut);
        right = both(right, is_so_of(alloc, shorter, &Asked::HasLength(length)));
    }
    right
}

#[test]
fn frames_of_every_length(rt: HostRuntime) -> Outcome {
    let short = each(rt.alloc(), Table::Short, KINDS);
    short.and(each(rt.alloc(), Table::NameLengths, LONGEST))
}

// The fields from the front: how many bytes each has, its least and its greatest number, and the
// fault of any other. The kinds are those of version 1; the last two fields are those of a ticket.
const FIELDS: [(usize, u64, u64, u16); 7] = [
    (1, 1, 2, 102),
    (1, 1, 7, 103),
    (1, 1, 16, 104),
    (4, 1, 1_024, 105),
    (8, 1, 1_000_000_000_000, 106),
    (1, 0, 1, 107),
    (1, 1, 32, 108),
];

// The kinds of version 2, which have no ticket.
const SOFTENING_KINDS: (usize, u64, u64, u16) = (1, 8, 9, 103);

/// The fault of a name of so many bytes, and of what follows it; 0 for none.
fn name_fault(bytes: &[u8], length: usize) -> u16 {
    if !spells(bytes, length) {
        109
    } else if bytes.len() < length {
        101
    } else if bytes.len() > length {
        110
    } else {
        0
    }
}

/// The first fault that the table of fields finds, from the front; 0 for none.
fn by_the_table(frame: &[u8]) -> u16 {
    let mut rest = frame;
    let mut value = 0;
    let mut has_ticket = true;
    for (place, row) in FIELDS.iter().enumerate() {
        if place == 5 && !has_ticket {
            return name_fault(rest, 0);
        }
        let is_second = place == 1 && value == 2;
        let (width, least, most, fault) = if is_second { SOFTENING_KINDS } else { *row };
        let Some((field, behind)) = rest.split_at_checked(width) else {
            return 101;
        };
        value = number(field);
        if value < least || most < value {
            return fault;
        }
        if place == 1 {
            has_ticket = value == 1 || value == 3 || value == 4;
        }
        rest = behind;
    }
    name_fault(rest, value as usize)
}

/// Whether the bytes are read as the table says; what is read is spelled so.
pub(crate) fn agrees(alloc: Global, frame: &[u8]) -> Option<bool> {
    let want = by_the_table(frame);
    match decode(frame) {
        Ok(message) => match encode(alloc, &message) {
            Ok(again) => Some(want == 0 && again.as_slice() == frame),
            Err(_) => None,
        },
        Err(fault) => Some(want == fault.number()),
    }
}

/// Whether the frame of a message is read as the table says with each byte changed to each other value.
pub(crate) fn all_agree(alloc: Global, row: &str) -> Option<bool> {
    is_so_of(alloc, row, &Asked::Changed)
}

#[test]
fn changed_frames_read_by_the_table(rt: HostRuntime) -> Outcome {
    each(rt.alloc(), Table::Changed, KINDS)
}
