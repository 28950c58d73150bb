// Which marks a journal has.

use crate::playing::{WHOLE, marks};
use lock_messages::ResourceName;
use run_picture::Part;
use test_outcomes::{Outcome, check_row};

/// Client 1 reads `a`.
const READER: &str =
    "rise n1 old\nrise c1 old\nbegin c1 read a\ntry c1\nkept c1\nsayto c1 n1\ntake n1 1\n\
try n1\nkept n1\nsay n1\nhear c1 2\nenter c1\n";

const READER_MARKS: &str =
    "down n1 0-1;1;down c1 0-2;2;3;4;5;6;message 1 6-7;7;8;9;10;message 2 10-11;11;12;\
down c2 0-;vote n1 c1 1 read a 9-;in c1 1 read a 12-;";

/// Its request is said twice, and once lost; it is taken twice; and the node falls before it has kept anything.
const FALL: &str =
    "rise n1 old\nrise c1 old\nbegin c1 write a\ntry c1\nkept c1\nsayto c1 n1\nsayto c1 n1\ntake n1 1\n\
try n1\nfall n1\nrise n1 old\ntake n1 1\n";

const FALL_MARKS: &str =
    "down n1 0-1;1;down c1 0-2;2;3;4;5;6;7;message 1 6-8;8;9;10;down n1 10-11;11;\
message 1 6-12;12;down c2 0-;lost 2 7;";

/// Rows of a journal, and its marks.
const ROWS: [(&str, &str); 7] = [
    ("", ""),
    (READER, READER_MARKS),
    (FALL, FALL_MARKS),
    ("rise n1 old", "down n1 0-1;1;down c1 0-;down c2 0-;"),
    ("say n1\n", "refused 602 1;"),
    (
        "rise n1 old\n\n",
        "down n1 0-1;1;down c1 0-;down c2 0-;fault 801 2;",
    ),
    (
        "rise c1 old\nleave c1\n",
        "down c1 0-1;1;down n1 0-;down c2 0-;refused 604 2;",
    ),
];

/// What an event did, how a message came, what lasted and what is lost.
#[test]
fn marks_of_journals(rt: HostRuntime) -> Outcome {
    for (row, (journal, told)) in ROWS.iter().enumerate() {
        let found = marks(rt.alloc(), journal, WHOLE)?;
        check_row(found.as_str() == *told, row)?;
    }
    Ok(())
}

/// Rows of the first and the last line of a part, and its marks.
const LINES: [(u32, u32, &str); 3] = [
    (
        7,
        11,
        "message 1 6-7;7;8;9;10;message 2 10-11;11;down c2 0-;vote n1 c1 1 read a 9-;",
    ),
    (
        12,
        12,
        "12;down c2 0-;vote n1 c1 1 read a 9-;in c1 1 read a 12-;",
    ),
    (13, u32::MAX, ""),
];

/// What reaches into a part from the lines before it is drawn up to its edge.
#[test]
fn marks_of_some_lines(rt: HostRuntime) -> Outcome {
    for (row, (first, last, told)) in LINES.iter().enumerate() {
        let part = Part {
            first: *first,
            last: *last,
            resource: None,
        };
        let found = marks(rt.alloc(), READER, part)?;
        check_row(found.as_str() == *told, row)?;
    }
    Ok(())
}

/// Rows of a resource, and the marks that concern it.
const RESOURCES: [(&[u8], &str); 2] = [
    (b"a", READER_MARKS),
    (b"b", "down n1 0-1;1;down c1 0-2;2;down c2 0-;"),
];

/// Falls and rises concern each resource; an attempt, its messages and its votes concern their own.
#[test]
fn marks_of_a_resource(rt: HostRuntime) -> Outcome {
    for (row, (name, told)) in RESOURCES.iter().enumerate() {
        let part = Part {
            resource: ResourceName::of(name),
            ..WHOLE
        };
        let found = marks(rt.alloc(), READER, part)?;
        check_row(found.as_str() == *told, row)?;
    }
    Ok(())
}
