//! How the status of an opened service is shown.

use crate::rooms::after;
use program_ends::Ended;
use service_folders::{make_service, open_service};
use service_status::show_status;
use std::io::{self, Error, ErrorKind, Write};
use std::process;
use test_outcomes::{Failure, Outcome, check_row};

/// A writer that takes this many bytes and then fails.
#[derive(Drop)]
struct Room {
    bytes: Vec<u8>,
    left: usize,
}

impl Room {
    /// Its own memory is enough for the bytes that it takes.
    fn of(rt: &HostRuntime, left: usize) -> Result<Room, Failure> {
        let bytes = Vec::with_capacity(rt.alloc(), left)?;
        Ok(Room { bytes, left })
    }
}

impl Write for Room {
    fn write(&mut self, buf: &[u8]) -> io::Result<usize> {
        if buf.len() > self.left {
            return Err(Error::from(ErrorKind::StorageFull));
        }
        self.left -= buf.len();
        self.bytes.extend_from_slice(buf)?;
        Ok(buf.len())
    }

    fn flush(&mut self) -> io::Result<()> {
        Ok(())
    }
}

const SETTINGS: &[u8] = b"votes = [1, 1]\nread = 1\nwrite = 2\nproblem = 2\nclients = 3\n";

/// What is shown of a new service.
const NEW: &[u8] = b"node n1: down, problem 2 (writer-first), 0 holding, 0 waiting\n\
    node n2: down, problem 2 (writer-first), 0 holding, 0 waiting\n\
    clients: 0 up, 3 down, 0 elsewhere, 0 with a fault\n\
    no resource is held or waited for\n";

/// What is said if memory runs out, and if the output can't be written.
const NO_MEMORY: &[u8] = b"fault 933\n";

const NO_ROOM: &[u8] = b"fault 932\n";

/// What is shown of a new service by a writer that takes so many bytes, and what is said on the second writer.
fn shown(
    rt: &HostRuntime,
    folder: &str,
    room: usize,
) -> Result<(Ended, Vec<u8>, Vec<u8>), Failure> {
    let Ok(service) = open_service(rt, rt.alloc(), folder) else {
        return Err(Failure::Memory);
    };
    let (mut output, mut errors) = (Room::of(rt, room)?, Room::of(rt, 1_000)?);
    let ended = show_status(rt, rt.alloc(), &service, &mut output, &mut errors);
    let Room {
        bytes: shown,
        left: _,
    } = output;
    let Room {
        bytes: said,
        left: _,
    } = errors;
    Ok((ended, shown, said))
}

/// A new service is shown. If memory runs out, that is said and nothing is shown.
fn of_a_new_service(rt: &HostRuntime, folder: &str) -> Outcome {
    let made = make_service(rt, rt.alloc(), folder, SETTINGS, None, None);
    if made.is_err() {
        return Err(Failure::Memory);
    }
    let (ended, text, said) = shown(rt, folder, 10_000)?;
    if said.as_slice() == NO_MEMORY {
        return check_row(ended.status == 1 && text.is_empty(), 0);
    }
    check_row(ended.status == 0 && said.is_empty(), 1)?;
    check_row(text.as_slice() == NEW, 2)
}

#[test]
fn a_new_service(rt: HostRuntime) -> Outcome {
    let process = process::id(rt.process());
    let folder = format!(in rt.alloc(); "/tmp/rwvote_status_new_{process}")?;
    after(&rt, folder.as_str(), of_a_new_service(&rt, folder.as_str()))
}

/// Whatever the output has no room for is said as a fault.
fn without_room(rt: &HostRuntime, folder: &str) -> Outcome {
    let made = make_service(rt, rt.alloc(), folder, SETTINGS, None, None);
    if made.is_err() {
        return Err(Failure::Memory);
    }
    let (ended, text, said) = shown(rt, folder, 100)?;
    if said.as_slice() == NO_MEMORY {
        return check_row(ended.status == 1 && text.is_empty(), 0);
    }
    check_row(ended.status == 1 && said.as_slice() == NO_ROOM, 1)?;
    check_row(text.is_empty(), 2)
}

#[test]
fn a_full_disk(rt: HostRuntime) -> Outcome {
    let process = process::id(rt.process());
    let folder = format!(in rt.alloc(); "/tmp/rwvote_status_full_{process}")?;
    after(&rt, folder.as_str(), without_room(&rt, folder.as_str()))
}
