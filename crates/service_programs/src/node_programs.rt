// `rwvote node`.

use crate::ends::{end_life, end_unreadable, end_unstarted};
use crate::journals::Journaling;
use crate::node_journals::NodeJournal;
use crate::starting::{folder_link, wait_for_own, wake_in_time};
use actor_lives::{live_as_node, open_node};
use line_link::{LineLink, Pauses, Streams, line_channel, read_lines};
use line_streams::write_text;
use lock_messages::{Actor, NodeId};
use lossy_link::Link;
use program_ends::Ended;
use service_ends::tell_service_fault;
use service_folders::{Service, ServiceFault, open_service};
use session_files::SessionFile;
use std::alloc::Global;
use std::fs::{File, Files};
use std::io::{Read, Write};
use std::sync::Wait;
use std::thread::{self, Threads};
use std::time::Clock;

/// What a node's program is told.
#[derive(Clone, Copy, Debug, PartialEq, Eq)]
pub struct NodeWork<'w> {
    pub node: NodeId,
    /// The service's directory.
    pub folder: &'w str,
    /// Whether frames come on standard input and go to standard output.
    pub pipes: bool,
    pub journaling: Journaling,
}

/// The service of the node, if it has the node.
pub(crate) fn service_of<F: Files<File = File>>(
    files: &F,
    alloc: Global,
    folder: &str,
    node: NodeId,
) -> Result<Service, ServiceFault> {
    let service = open_service(files, alloc, folder)?;
    if service.has(Actor::Node(node)) {
        Ok(service)
    } else {
        Err(ServiceFault::NoActor)
    }
}

/// Says that the node takes messages now.
fn tell_ready<E: Write>(alloc: Global, node: NodeId, errors: &mut E) {
    if let Ok(text) = format!(in alloc; "{node} is up\n") {
        let _ = write_text(errors, text.as_bytes());
    }
}

/// The link of a node over pipes, of which a thread reads the input.
fn pipe_link<
    R: Threads + Wait + Clock + Copy + Send + Drop + 'static,
    I: Read + Send + Drop + 'static,
    W: Write + Drop,
>(
    rt: R,
    alloc: Global,
    service: &Service,
    node: NodeId,
    input: I,
    output: W,
) -> Result<LineLink<R, Streams<R, W>>, ServiceFault> {
    let Ok((sender, lines)) = line_channel(alloc) else {
        return Err(ServiceFault::Memory);
    };
    let reader = thread::spawn(&rt, move || {
        let mut input = input;
        read_lines(&rt, alloc, &mut input, &sender);
    });
    if reader.is_err() {
        return Err(ServiceFault::Memory);
    }
    let outgoing = service.secret();
    let incoming = service.secret();
    let streams = Streams::new(rt, output, lines);
    let secrets = (outgoing, incoming);
    let own = Actor::Node(node);
    let pauses = Pauses::of_node();
    Ok(LineLink::over(rt, alloc, own, secrets, streams, pauses, None))
}

/// Opens the record of the node and its journal, and runs it over the link.
fn run_linked<R: Wait + Clock + Files<File = File>, L: Link, E: Write>(
    rt: &R,
    alloc: Global,
    work: &NodeWork<'_>,
    service: &Service,
    link: &mut L,
    errors: &mut E,
) -> Ended {
    let own = Actor::Node(work.node);
    let (record, found) = match wait_for_own(rt, alloc, work.folder, &own) {
        Ok(opened) => opened,
        Err(fault) => return end_unstarted(alloc, work.folder, Some(own), fault, errors),
    };
    let actor = match open_node(alloc, work.node, service.ballots(), &found) {
        Ok(actor) => actor,
        Err(fault) => return end_unreadable(alloc, own, fault.number(), errors),
    };
    let journal = match NodeJournal::open(rt, alloc, work.folder, &own, work.journaling, &found) {
        Ok(journal) => journal,
        Err(fault) => return tell_service_fault(alloc, fault, errors),
    };
    tell_ready(alloc, work.node, errors);
    let mut stable = SessionFile { record };
    let ended = live_as_node(rt, alloc, work.node, actor, &mut stable, journal, link);
    end_life(alloc, own, ended.err(), errors)
}

/// Runs a node of a service's directory. Without pipes it runs until it is killed, which is safe at any moment. With pipes
/// it also ends when its input does, with status 0.
///
/// # Errors
///
/// It says the fault on the third writer. The status is 2 if the settings are refused, and else 1. Before the node rises:
/// those of `open_service`, 965 (the service has no such node), 967 (its inbox can't be opened), those of `open_record`
/// (941 if a process runs the node, 942 if its record is missing), 968 (its journal can't be opened), 311 to 320 (the
/// record is no node's), 933 (out of memory). Later: 911, 914, 915 (the journal can't be written) or 916.
pub fn run_node_program<
    R: Threads + Wait + Clock + Files<File = File> + Copy + Send + Drop + 'static,
    I: Read + Send + Drop + 'static,
    W: Write + Drop,
    E: Write,
>(rt: R, alloc: Global, work: &NodeWork<'_>, input: I, output: W, errors: &mut E) -> Ended {
    wake_in_time(&rt);
    let service = match service_of(&rt, alloc, work.folder, work.node) {
        Ok(service) => service,
        Err(fault) => return tell_service_fault(alloc, fault, errors),
    };
    if work.pipes {
        return match pipe_link(rt, alloc, &service, work.node, input, output) {
            Ok(mut link) => run_linked(&rt, alloc, work, &service, &mut link, errors),
            Err(fault) => tell_service_fault(alloc, fault, errors),
        };
    }
    let own = Actor::Node(work.node);
    match folder_link(rt, alloc, &service, &own, Pauses::of_node(), None) {
        Ok(mut link) => run_linked(&rt, alloc, work, &service, &mut link, errors),
        Err(fault) => tell_service_fault(alloc, fault, errors),
    }
}
