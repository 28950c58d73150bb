//! What the directory of a new service has.

use crate::rooms::{
    ONE, THREE, after, bytes_of, count, folder_of, init, is_there, made, opened, path_in,
};
use file_records::open_record;
use lock_messages::Actor;
use lock_model::Problem;
use service_folders::{Part, Service};
use std::fs;
use std::os::unix::fs::MetadataExt;
use test_outcomes::{Failure, Outcome, check, check_row, client_id, node_id};

/// The record of a node of problem 2 that has kept nothing.
const NODE: &[u8] = &[1, 2, 0, 0];

/// The record of a client that has kept nothing.
const CLIENT: &[u8] = &[1, 0, 0, 0, 0, 0, 0, 0, 0];

/// The records of the service, and what they hold.
const RECORDS: [(&str, &[u8]); 5] = [
    ("n1.record", NODE),
    ("n2.record", NODE),
    ("n3.record", NODE),
    ("c1.record", CLIENT),
    ("c2.record", CLIENT),
];

/// The inboxes of the service.
const INBOXES: [&str; 5] = ["n1.inbox", "n2.inbox", "n3.inbox", "c1.inbox", "c2.inbox"];

/// Whether the record of this name holds these bytes, as it is opened.
fn holds(rt: &HostRuntime, folder: &str, name: &str, want: &[u8]) -> Result<bool, Failure> {
    let path = path_in(rt, folder, name)?;
    match open_record(rt, rt.alloc(), path.as_str()) {
        Ok((_, bytes)) => Ok(bytes.as_slice() == want),
        Err(fault) if fault.number() == 933 => Err(Failure::Memory),
        Err(fault) => Err(Failure::NoAnswer(usize::from(fault.number()))),
    }
}

fn has_records(rt: &HostRuntime, folder: &str) -> Outcome {
    for (row, (name, bytes)) in RECORDS.iter().enumerate() {
        check_row(holds(rt, folder, name, bytes)?, row)?;
    }
    Ok(())
}

fn has_inboxes(rt: &HostRuntime, folder: &str) -> Outcome {
    for (row, name) in INBOXES.iter().enumerate() {
        check_row(bytes_of(rt, folder, name)?.is_empty(), row)?;
    }
    Ok(())
}

/// A new service has its settings, its secret, a record and an inbox for each actor, and no other file.
fn is_new(rt: &HostRuntime, folder: &str) -> Outcome {
    made(rt, folder, THREE)?;
    has_records(rt, folder)?;
    has_inboxes(rt, folder)?;
    let text = bytes_of(rt, folder, "settings.toml")?;
    check_row(text.as_slice() == THREE, 5)?;
    check_row(is_there(rt, folder, "secret")?, 6)?;
    check_row(count(rt, folder)? == 12, 7)
}

#[test]
fn a_new_directory(rt: HostRuntime) -> Outcome {
    let folder = folder_of(&rt, "new")?;
    after(&rt, folder.as_str(), is_new(&rt, folder.as_str()))
}

/// Whether these bits are all that are set of a file's permissions, less what the process masks.
fn has_mode(rt: &HostRuntime, folder: &str, name: &str, most: u32) -> Result<bool, Failure> {
    let path = path_in(rt, folder, name)?;
    let Ok(found) = fs::metadata(rt, path.as_str()) else {
        return Err(Failure::NoAnswer(0));
    };
    let bits = found.mode() & 0o7777;
    Ok(bits & 0o600 == 0o600 && bits | most == most)
}

fn has_modes(rt: &HostRuntime, folder: &str) -> Outcome {
    made(rt, folder, ONE)?;
    check_row(has_mode(rt, folder, "secret", 0o600)?, 0)?;
    check_row(has_mode(rt, folder, "settings.toml", 0o644)?, 1)?;
    check_row(has_mode(rt, folder, "n1.inbox", 0o660)?, 2)?;
    check_row(has_mode(rt, folder, "c1.inbox", 0o660)?, 3)?;
    check_row(has_mode(rt, folder, "n1.record", 0o666)?, 4)
}

#[test]
fn permissions_of_files(rt: HostRuntime) -> Outcome {
    let folder = folder_of(&rt, "modes")?;
    after(&rt, folder.as_str(), has_modes(&rt, folder.as_str()))
}

/// Which actors a service of three nodes and two clients has.
fn actors_of(service: &Service) -> [bool; 4] {
    [
        service.has(Actor::Node(node_id(3))),
        !service.has(Actor::Node(node_id(4))),
        service.has(Actor::Client(client_id(2))),
        !service.has(Actor::Client(client_id(3))),
    ]
}

/// An opened service says what its settings say.
fn says(rt: &HostRuntime, folder: &str) -> Outcome {
    made(rt, folder, THREE)?;
    let service = opened(rt, folder)?;
    check_row(service.path() == folder && service.settings() == THREE, 0)?;
    check_row(service.nodes() == 3 && service.clients() == 2, 1)?;
    check_row(service.problem() == Problem::Second, 2)?;
    check_row(service.ballots().count() == 1, 3)?;
    check_row(actors_of(&service) == [true; 4], 4)
}

#[test]
fn an_opened_service(rt: HostRuntime) -> Outcome {
    let folder = folder_of(&rt, "opened")?;
    after(&rt, folder.as_str(), says(&rt, folder.as_str()))
}

/// A part has the files of its actors and of no others, and opens as the whole service.
fn is_part(rt: &HostRuntime, folder: &str) -> Outcome {
    let part = Part::read("n2,c2");
    check(part.is_some())?;
    check_row(init(rt, rt, folder, THREE, part, None)? == 0, 1)?;
    check_row(holds(rt, folder, "n2.record", NODE)?, 2)?;
    check_row(holds(rt, folder, "c2.record", CLIENT)?, 3)?;
    check_row(bytes_of(rt, folder, "n2.inbox")?.is_empty(), 4)?;
    check_row(bytes_of(rt, folder, "c2.inbox")?.is_empty(), 5)?;
    check_row(count(rt, folder)? == 6, 6)?;
    let service = opened(rt, folder)?;
    check_row(actors_of(&service) == [true; 4], 7)
}

#[test]
fn the_part_of_one_machine(rt: HostRuntime) -> Outcome {
    let folder = folder_of(&rt, "part")?;
    after(&rt, folder.as_str(), is_part(&rt, folder.as_str()))
}
