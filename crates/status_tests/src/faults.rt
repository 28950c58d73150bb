//! What is seen of records that can't be read.

use crate::rooms::{after, client, folder_of, node_of, path_in, record, shows};
use lock_model::Problem;
use std::fs;
use std::fs::{File, OpenOptions};
use test_outcomes::{Failure, Outcome};

/// Makes a file of zeros in place of a record.
fn zeros(rt: &HostRuntime, folder: &str, name: &str, size: u64) -> Result<File, Failure> {
    let path = path_in(rt, folder, name)?;
    let opened = OpenOptions::new()
        .read(true)
        .write(true)
        .create(true)
        .open(rt, path.as_str());
    match opened {
        Ok(file) if file.set_len(size).is_ok() => Ok(file),
        _ => Err(Failure::NoAnswer(1)),
    }
}

/// Makes a folder in place of a record.
fn folder_at(rt: &HostRuntime, folder: &str, name: &str) -> Outcome {
    let path = path_in(rt, folder, name)?;
    fs::create_dir(rt, path.as_str()).map_err(|_| Failure::NoAnswer(2))
}

/// A node's record of a wrong size, one without a record, a client's record, and a folder.
const NODES: &str = "node n1: fault 943: its record has the wrong size\n\
    node n2: fault 944: its file holds no record of it\n\
    node n3: fault 944: its file holds no record of it\n\
    node n4: fault 945: its record can't be read\n\
    clients: 0 up, 0 down, 1 elsewhere, 0 with a fault\n\
    no resource is held or waited for\n";

fn nodes(rt: &HostRuntime, folder: &str) -> Outcome {
    zeros(rt, folder, "n1.record", 200_703)?;
    zeros(rt, folder, "n2.record", 200_704)?;
    client(rt, folder, "n3.record", 1)?;
    folder_at(rt, folder, "n4.record")?;
    shows(rt, folder, 4, 1, NODES)
}

#[test]
fn records_of_nodes(rt: HostRuntime) -> Outcome {
    let folder = folder_of(&rt, "nodes")?;
    after(&rt, folder.as_str(), nodes(&rt, folder.as_str()))
}

/// Of clients a record is read only if a process holds it. So a client that is down may have any file.
const CLIENTS: &str = "node n1: elsewhere: its record is not in this folder\n\
    client c1: fault 943: its record has the wrong size\n\
    client c2: fault 944: its file holds no record of it\n\
    client c4: fault 945: its record can't be read\n\
    clients: 0 up, 1 down, 0 elsewhere, 3 with a fault\n\
    no resource is held or waited for\n";

fn clients(rt: &HostRuntime, folder: &str) -> Outcome {
    let short = zeros(rt, folder, "c1.record", 9)?;
    let _node = record(rt, folder, "c2.record", &node_of(rt, Problem::First, &[])?)?;
    zeros(rt, folder, "c3.record", 9)?;
    folder_at(rt, folder, "c4.record")?;
    if short.try_lock().is_err() {
        return Err(Failure::NoAnswer(3));
    }
    shows(rt, folder, 1, 4, CLIENTS)
}

#[test]
fn records_of_clients(rt: HostRuntime) -> Outcome {
    let folder = folder_of(&rt, "clients")?;
    after(&rt, folder.as_str(), clients(&rt, folder.as_str()))
}
