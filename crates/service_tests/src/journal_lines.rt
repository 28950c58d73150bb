// The lines of journals, read and written again, and wishes.

use event_lines::{read_event, read_wish, write_event};
use std::alloc::Global;
use test_outcomes::{Failure, Outcome, check_row};

/// The line of each event, and of the greatest numbers.
const EVENTS: [&str; 25] = [
    "begin c1 read a",
    "begin c1024 write abcdefghijklmnopqrstuvwxyz-01234",
    "begin c1 read a b2",
    "begin c1024 write abcdefghijklmnopqrstuvwxyz-01234 b8",
    "try n1",
    "try c3",
    "kept n16",
    "kept c4",
    "sayto c1 n2",
    "say n3",
    "take n1 1",
    "take n16 1048576",
    "hear c2 17",
    "enter c1",
    "leave c1",
    "soften c1",
    "soften c1024",
    "fall n2",
    "fall c1",
    "rise n1 old",
    "rise c1 old",
    "rise c1024 new",
    "switch n1 1",
    "switch n1 2",
    "switch n16 1",
];

/// Whether the line is read as an event whose line it is.
fn is_read(alloc: Global, line: &str) -> Result<bool, Failure> {
    let Ok(event) = read_event(line.as_bytes()) else {
        return Ok(false);
    };
    let text = write_event(alloc, &event)?;
    Ok(text.as_str() == line)
}

#[test]
fn events_there_and_back(rt: HostRuntime) -> Outcome {
    for (row, line) in EVENTS.iter().enumerate() {
        let right = is_read(rt.alloc(), line)?;
        check_row(right, row)?;
    }
    Ok(())
}

/// Lines that are no switch, each with the number of its fault. A problem is one digit, whatever its number
/// could be.
const NO_SWITCHES: [(&str, u16); 17] = [
    ("switch", 805),
    ("switch n1", 805),
    ("switch n1 1 1", 805),
    ("switch n1 1 ", 805),
    ("switch c1 1", 802),
    ("switch n17 1", 802),
    ("switch n0 1", 802),
    ("switch c1 3", 802),
    ("switch n1 3", 803),
    ("switch n1 0", 803),
    ("switch n1 01", 803),
    ("switch n1 12", 803),
    ("switch n1 ", 803),
    ("switch n1 1\r", 803),
    ("switch n1 first", 803),
    ("Switch n1 1", 801),
    ("switches n1 1", 801),
];

fn fault_of_event(line: &str) -> u16 {
    match read_event(line.as_bytes()) {
        Ok(_) => 0,
        Err(fault) => fault.number(),
    }
}

#[test]
fn lines_that_are_no_switch(_rt: HostRuntime) -> Outcome {
    for (row, (line, number)) in NO_SWITCHES.into_iter().enumerate() {
        check_row(fault_of_event(line) == number, row)?;
    }
    Ok(())
}

/// Texts, each with the number of its fault; 0 where it is a wish.
const WISHES: [(&str, u16); 22] = [
    ("c1 read a", 0),
    ("c1024 write db-1", 0),
    ("", 805),
    ("c1 read", 805),
    ("c1 read a ", 803),
    ("c1 read a b2", 0),
    ("c1024 write db-1 b8", 0),
    ("c1 read a b1", 803),
    ("c1 read a b02", 803),
    ("c1 read a b9", 803),
    ("c1 read a b2 ", 805),
    ("n1 read a", 802),
    ("c1025 reed A", 802),
    ("c1 reed A", 801),
    ("c1 read A", 804),
    ("c1 read ", 804),
    ("c1 soften a", 0),
    ("c1024 soften db-1 b8", 0),
    ("c1 softened a", 801),
    ("c1 Soften A", 801),
    ("c1 soften A", 804),
    ("c1 soften", 805),
];

fn fault_of(text: &str) -> u16 {
    match read_wish(text.as_bytes()) {
        Ok(_) => 0,
        Err(fault) => fault.number(),
    }
}

#[test]
fn wishes(_rt: HostRuntime) -> Outcome {
    for (row, (text, number)) in WISHES.into_iter().enumerate() {
        check_row(fault_of(text) == number, row)?;
    }
    Ok(())
}
