//! The line of each command is read, and other lines are not.

use client_commands::{Command, Entry, MAX_COMMAND_LEN, Waiting, read_command};
use lock_messages::{Mode, ResourceName};
use std::alloc::Global;
use test_outcomes::{Failure, Outcome, check_row};

/// A line that asks for a lock: its text, and the entry's parts.
type Row = (&'static str, Mode, &'static [u8], u8, Waiting);

const ENTRIES: [Row; 9] = [
    ("read config", Mode::Read, b"config", 1, Waiting::Long),
    ("write config", Mode::Write, b"config", 1, Waiting::Long),
    ("write a b2", Mode::Write, b"a", 2, Waiting::Long),
    ("read a b255", Mode::Read, b"a", 255, Waiting::Long),
    ("read a within 0", Mode::Read, b"a", 1, Waiting::Within(0)),
    (
        "write b2 b2 within 2000",
        Mode::Write,
        b"b2",
        2,
        Waiting::Within(2_000),
    ),
    (
        "read a within 4294967295",
        Mode::Read,
        b"a",
        1,
        Waiting::Within(4_294_967_295),
    ),
    ("try read a", Mode::Read, b"a", 1, Waiting::Never),
    ("try write 0-z b8", Mode::Write, b"0-z", 8, Waiting::Never),
];

const OTHERS: [(&str, Command); 3] = [
    ("soften", Command::Soften),
    ("leave", Command::Leave),
    ("status", Command::Status),
];

const WRONG: [&str; 24] = [
    "",
    " ",
    "read",
    "read ",
    "read  a",
    " read a",
    "read a ",
    "READ a",
    "read A",
    "read a b1",
    "read a b02",
    "read a b256",
    "read a 2",
    "read a within",
    "read a within ",
    "read a within 01",
    "read a within -1",
    "read a within 4294967296",
    "read a within 5 b2",
    "try read a within 5",
    "try",
    "try soften",
    "leave now",
    "read a\r",
];

fn read(alloc: Global, line: &[u8]) -> Result<Option<Command>, Failure> {
    let found = read_command(alloc, line)?;
    Ok(found)
}

#[test]
fn entries(rt: HostRuntime) -> Outcome {
    for (row, (text, mode, name, place, waiting)) in ENTRIES.iter().enumerate() {
        let entry = Entry {
            mode: *mode,
            resource: ResourceName::of(name).ok_or(Failure::Wrong(row))?,
            place: *place,
            waiting: *waiting,
        };
        let found = read(rt.alloc(), text.as_bytes())?;
        check_row(found == Some(Command::Enter(entry)), row)?;
    }
    Ok(())
}

#[test]
fn other_commands(rt: HostRuntime) -> Outcome {
    for (row, (text, command)) in OTHERS.iter().enumerate() {
        check_row(read(rt.alloc(), text.as_bytes())? == Some(*command), row)?;
    }
    Ok(())
}

#[test]
fn no_commands(rt: HostRuntime) -> Outcome {
    for (row, text) in WRONG.iter().enumerate() {
        check_row(read(rt.alloc(), text.as_bytes())?.is_none(), row)?;
    }
    check_row(read(rt.alloc(), b"leave\xff")?.is_none(), 90)?;
    let long = [b'a'; MAX_COMMAND_LEN + 1];
    check_row(read(rt.alloc(), &long)?.is_none(), 91)
}
