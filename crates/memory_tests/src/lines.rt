// Lines of scripts and journals: want of memory where one is written. To read one takes none.

use crate::failures::{Failure, Outcome, check};
use event_lines::{Command, read_event, read_line, write_line};
use lock_model::Problem;
use std::alloc::Global;
use test_outcomes::node_id;
use world_model::Event;

const COMMANDS: [Command; 16] = [
    Command::Begin,
    Command::Try,
    Command::Kept,
    Command::SayTo,
    Command::Say,
    Command::Take,
    Command::Hear,
    Command::Enter,
    Command::Leave,
    Command::Soften,
    Command::Fall,
    Command::Rise,
    Command::Switch,
    Command::Inside,
    Command::Waiting,
    Command::Holding,
];

/// A line of each command, with the least and the greatest arguments.
const LINES: [&str; 21] = [
    "begin c1024 write a-9",
    "begin c1 read a",
    "try n16",
    "try c1024",
    "kept n1",
    "sayto c1 n16",
    "say n16",
    "take n1 1048576",
    "hear c1 1",
    "enter c1024",
    "leave c1",
    "soften c1",
    "soften c1024",
    "fall n1",
    "rise n16 old",
    "rise c1 new",
    "switch n1 1",
    "switch n16 2",
    "inside 0-z",
    "waiting n16 a",
    "holding n1 a",
];

/// Whether the line is read, and is the text of what it is read as.
fn is_told(alloc: Global, line: &str) -> Outcome {
    let Ok(read) = read_line(&COMMANDS, line.as_bytes()) else {
        return Err(Failure::Wrong);
    };
    match write_line(alloc, &read) {
        Ok(text) => check(text.as_str() == line),
        Err(_) => Err(Failure::Memory),
    }
}

#[test]
fn lines_are_written(rt: HostRuntime) -> Outcome {
    for line in &LINES {
        is_told(rt.alloc(), line)?;
    }
    Ok(())
}

#[test]
fn read_a_switch(_rt: HostRuntime) -> Outcome {
    let switch = Event::Switch(node_id(16), Problem::Second);
    check(read_event(b"switch n16 2") == Ok(switch))
}
