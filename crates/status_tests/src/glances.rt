//! What is seen of good records.

use crate::rooms::{Row, after, client, folder_of, node_of, path_in, record, shows};
use file_records::open_record;
use lock_messages::Mode::{Read, Write};
use lock_model::Problem;
use stable_record::StableRecord;
use stable_record::Status::{Holding, Softened, Waiting};
use std::fs;
use test_outcomes::{Failure, Outcome, check_row};

/// What the first of three nodes keeps, and the second.
const FIRST: [Row; 3] = [
    (1, Write, b"config", Holding),
    (7, Read, b"a", Holding),
    (2, Write, b"config", Waiting),
];

const SECOND: [Row; 2] = [
    (1, Write, b"config", Holding),
    (3, Read, b"config", Waiting),
];

/// Two nodes of three, of which one runs, and four clients of eight, of which two run.
const GLANCE: &str = "node n1: up, problem 1 (reader-first), 2 holding, 1 waiting\n\
    node n2: down, problem 2 (writer-first), 1 holding, 1 waiting\n\
    node n3: elsewhere: its record is not in this folder\n\
    client c1: up, last attempt 12\n\
    client c2: up, last attempt 1\n\
    clients: 2 up, 2 down, 4 elsewhere, 0 with a fault\n\
    resource a\n  c7 read has the vote of n1, not running: rwvote reap frees it\n\
    resource config\n  c1 write has the vote of n1 n2\n  c2 write waits for the vote of n1\n  \
    c3 read waits for the vote of n2\n";

fn glance(rt: &HostRuntime, folder: &str) -> Outcome {
    let _first = record(
        rt,
        folder,
        "n1.record",
        &node_of(rt, Problem::First, &FIRST)?,
    )?;
    record(
        rt,
        folder,
        "n2.record",
        &node_of(rt, Problem::Second, &SECOND)?,
    )?;
    let _up = client(rt, folder, "c1.record", 12)?;
    let _also_up = client(rt, folder, "c2.record", 1)?;
    client(rt, folder, "c7.record", 3)?;
    client(rt, folder, "c8.record", 3)?;
    shows(rt, folder, 3, 8, GLANCE)
}

#[test]
fn a_service_at_a_glance(rt: HostRuntime) -> Outcome {
    let folder = folder_of(&rt, "glance")?;
    after(&rt, folder.as_str(), glance(&rt, folder.as_str()))
}

/// What two nodes keep of tickets that stand differently at each.
const MIXED: [Row; 3] = [
    (2, Read, b"b", Softened),
    (1, Read, b"b", Holding),
    (3, Write, b"b", Waiting),
];

const OTHER: [Row; 2] = [(3, Write, b"b", Holding), (2, Write, b"b", Waiting)];

/// A client's tickets in one line if they differ in the node alone. A client of another folder has no mark.
const STANDINGS: &str = "node n1: down, problem 1 (reader-first), 2 holding, 1 waiting\n\
    node n2: down, problem 1 (reader-first), 1 holding, 1 waiting\n\
    clients: 0 up, 1 down, 3 elsewhere, 0 with a fault\n\
    resource b\n  c3 write has the vote of n2\n  c1 read has the vote of n1, not running: rwvote reap frees it\n  \
    c2 read (downgraded) has the vote of n1\n  c2 write waits for the vote of n2\n  c3 write waits for the vote of n1\n";

fn standings(rt: &HostRuntime, folder: &str) -> Outcome {
    record(
        rt,
        folder,
        "n1.record",
        &node_of(rt, Problem::First, &MIXED)?,
    )?;
    record(
        rt,
        folder,
        "n2.record",
        &node_of(rt, Problem::First, &OTHER)?,
    )?;
    client(rt, folder, "c1.record", 1)?;
    shows(rt, folder, 2, 4, STANDINGS)
}

#[test]
fn each_standing(rt: HostRuntime) -> Outcome {
    let folder = folder_of(&rt, "standings")?;
    after(&rt, folder.as_str(), standings(&rt, folder.as_str()))
}

fn nothing(rt: &HostRuntime, folder: &str) -> Outcome {
    let _node = record(rt, folder, "n1.record", &node_of(rt, Problem::Second, &[])?)?;
    let want = "node n1: up, problem 2 (writer-first), 0 holding, 0 waiting\n\
        clients: 0 up, 0 down, 2 elsewhere, 0 with a fault\n\
        no resource is held or waited for\n";
    shows(rt, folder, 1, 2, want)
}

#[test]
fn a_service_at_rest(rt: HostRuntime) -> Outcome {
    let folder = folder_of(&rt, "rest")?;
    after(&rt, folder.as_str(), nothing(&rt, folder.as_str()))
}

/// The bytes of a file.
fn bytes_of(rt: &HostRuntime, folder: &str, name: &str) -> Result<Vec<u8>, Failure> {
    let path = path_in(rt, folder, name)?;
    fs::read(rt, path.as_str()).map_err(|_| Failure::NoAnswer(1))
}

/// Whoever holds a record keeps on, and a record that nobody holds can be opened at once. No byte changes.
fn undisturbed(rt: &HostRuntime, folder: &str) -> Outcome {
    let mut held = record(
        rt,
        folder,
        "n1.record",
        &node_of(rt, Problem::First, &FIRST)?,
    )?;
    client(rt, folder, "c1.record", 1)?;
    let (node, other) = (
        bytes_of(rt, folder, "n1.record")?,
        bytes_of(rt, folder, "c1.record")?,
    );
    crate::rooms::lines(rt, folder, 1, 1)?;
    check_row(bytes_of(rt, folder, "n1.record")? == node, 0)?;
    check_row(bytes_of(rt, folder, "c1.record")? == other, 1)?;
    check_row(held.keep(&node_of(rt, Problem::First, &SECOND)?).is_ok(), 2)?;
    let path = path_in(rt, folder, "c1.record")?;
    match open_record(rt, rt.alloc(), path.as_str()) {
        Ok(_) => Ok(()),
        Err(fault) if fault.number() == 933 => Err(Failure::Memory),
        Err(_) => Err(Failure::Wrong(3)),
    }
}

#[test]
fn nobody_is_disturbed(rt: HostRuntime) -> Outcome {
    let folder = folder_of(&rt, "undisturbed")?;
    after(&rt, folder.as_str(), undisturbed(&rt, folder.as_str()))
}
