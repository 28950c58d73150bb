// `rwvote switch`.

ghost use Rattle.std.specs.Prelude.{◌≡◌, ◌∷◌, []};

use crate::ends::{end_life, end_unreadable};
use crate::journals::Journaling;
use crate::node_journals::NodeJournal;
use crate::node_programs::service_of;
use crate::starting::wait_for_own;
use actor_lives::{live_as_node, open_node};
use file_plate::FileFault;
use file_records::FileRecord;
use line_link::{Outbox, put_switch};
use lock_messages::{Actor, NodeId};
use lock_model::Problem;
use lossy_link::{ListLink, Post};
use program_ends::{Ended, show};
use service_ends::tell_service_fault;
use service_folders::{Service, ServiceFault};
use service_status::{NodeState, problem_word, see_node};
use session_files::SessionFile;
use std::alloc::{AllocError, Global};
use std::fs::{File, Files};
use std::io::Write;
use std::sync::Wait;
use std::thread;
use std::time::{Clock, Duration};
use switch_lines::write_switch;

/// How often the record of a node that runs is looked at, and how many milliseconds before each time.
const LOOKS: u32 = 150;

const BEFORE_LOOK: u64 = 20;

/// After so many looks the line is put again, because it may be lost.
const LOOKS_BETWEEN_LINES: u32 = 25;

/// What `rwvote switch` is told.
#[derive(Clone, Copy, Debug, PartialEq, Eq)]
pub struct SwitchWork<'w> {
    pub node: NodeId,
    /// The problem that the node takes.
    pub problem: Problem,
    /// The service's directory.
    pub folder: &'w str,
    /// Whether the line that asks the node goes to standard output.
    pub pipes: bool,
}

/// The number by which a post names a problem.
fn number_of(problem: Problem) -> u8 {
    match problem {
        Problem::First => 1,
        Problem::Second => 2,
    }
}

/// A link that brings the one post that the node takes this problem. The only error is running out of memory.
fn link_to(alloc: Global, problem: Problem) -> Result<ListLink, AllocError> {
    let mut posts = Vec::new(alloc);
    posts.push(Post::Switch(number_of(problem)))?;
    Ok(ListLink::of(posts))
}

/// Runs a life of a node whose record is held, in which it takes the problem.
fn live_to_switch<F: Wait + Clock + Files<File = File>, E: Write>(
    rt: &F,
    alloc: Global,
    work: &SwitchWork<'_>,
    service: &Service,
    own: &Actor,
    kept: FileRecord,
    found: &[u8],
    errors: &mut E,
) -> Ended
    requires { kept.finds ≡ found.now ∷ [] }
{
    let actor = match open_node(alloc, work.node, service.ballots(), found) {
        Ok(actor) => actor,
        Err(fault) => return end_unreadable(alloc, *own, fault.number(), errors),
    };
    let opened = NodeJournal::open(rt, alloc, service.path(), own, Journaling::Written, found);
    let journal = match opened {
        Ok(journal) => journal,
        Err(fault) => return tell_service_fault(alloc, fault, errors),
    };
    let Ok(mut link) = link_to(alloc, work.problem) else {
        return tell_service_fault(alloc, ServiceFault::Memory, errors);
    };
    let mut stable = SessionFile { record: kept };
    let ended = live_as_node(rt, alloc, work.node, actor, &mut stable, journal, &mut link);
    end_life(alloc, *own, ended.err(), errors)
}

/// Puts the line that asks the node into its inbox. 967: that can't be done.
fn put_line<F: Files<File = File> + Drop>(
    alloc: Global,
    work: &SwitchWork<'_>,
    service: &Service,
    outbox: &mut Outbox<F>,
) -> Result<(), ServiceFault> {
    let secret = service.secret();
    if put_switch(alloc, outbox, &secret, work.node, work.problem).is_err() {
        return Err(ServiceFault::Memory);
    }
    if outbox.has_failed() {
        return Err(ServiceFault::NoInbox);
    }
    Ok(())
}

/// Whether the node's record has the problem. A record that can't be read has none.
fn has_problem<F: Files<File = File>>(
    files: &F,
    alloc: Global,
    work: &SwitchWork<'_>,
) -> Result<bool, ServiceFault> {
    let Ok(seen) = see_node(files, alloc, work.folder, work.node) else {
        return Err(ServiceFault::Memory);
    };
    match seen.state {
        NodeState::Seen(_, kept) => Ok(kept.problem == work.problem),
        NodeState::Faulty(_) | NodeState::Elsewhere => Ok(false),
    }
}

/// Asks a node that runs, until its record has the problem. The faults are 970 (it did not take the problem in time), 967
/// (its inbox can't be written) and 933 (out of memory).
fn ask<R: Wait + Clock + Files<File = File> + Copy + Drop>(
    rt: R,
    alloc: Global,
    work: &SwitchWork<'_>,
    service: &Service,
) -> Result<(), ServiceFault> {
    let Ok(mut outbox) = Outbox::new(rt, alloc, service.path()) else {
        return Err(ServiceFault::Memory);
    };
    for look in 0..LOOKS {
        if look % LOOKS_BETWEEN_LINES == 0 {
            put_line(alloc, work, service, &mut outbox)?;
        }
        thread::sleep(&rt, Duration::from_millis(BEFORE_LOOK));
        if has_problem(&rt, alloc, work)? {
            return Ok(());
        }
    }
    Err(ServiceFault::NotTaken)
}

/// Asks a node that runs, and says that it has the problem, or why not.
fn switch_running<R: Wait + Clock + Files<File = File> + Copy + Drop, W: Write, E: Write>(
    rt: R,
    alloc: Global,
    work: &SwitchWork<'_>,
    service: &Service,
    output: &mut W,
    errors: &mut E,
) -> Ended {
    if let Err(fault) = ask(rt, alloc, work, service) {
        return tell_service_fault(alloc, fault, errors);
    }
    let node = work.node;
    let problem = problem_word(work.problem);
    match format!(in alloc; "{node} runs, and has problem {problem} now\n") {
        Ok(text) => show(text.as_str(), output, errors),
        Err(_) => tell_service_fault(alloc, ServiceFault::Memory, errors),
    }
}

/// Writes the line that asks the node.
fn show_line<W: Write, E: Write>(
    alloc: Global,
    work: &SwitchWork<'_>,
    service: &Service,
    output: &mut W,
    errors: &mut E,
) -> Ended {
    let secret = service.secret();
    match write_switch(alloc, &secret, work.node, work.problem) {
        Ok(line) => show(line.as_str(), output, errors),
        Err(_) => tell_service_fault(alloc, ServiceFault::Memory, errors),
    }
}

/// Lets a node of a service's directory take a problem.
///
/// If no process runs the node, it runs a life of it. The record keeps the problem, and the journal has the life in which
/// the node took it. Votes that the node gives by it are not sent: clients ask again.
///
/// If a process runs the node, it puts a line that asks the node into its inbox, again and again, until the record has the
/// problem. It then says so on the first writer. With pipes it writes the line there, and does nothing else.
///
/// # Errors
///
/// It says the fault on the second writer. The status is 2 if the settings are refused, and else 1: those of
/// `open_service`, 965 (the service has no such node), those of `open_record` without 941 (942 if its record is missing),
/// 967 (its inbox can't be written), 968 (its journal can't be opened), 970 (the node runs, and did not take the problem
/// in time), 311 to 320 (the record is no node's), 933 (out of memory), 911, 914, 915 (the journal can't be written), 916,
/// or 932 (the first writer can't be written).
pub fn switch_node<R: Wait + Clock + Files<File = File> + Copy + Drop, W: Write, E: Write>(
    rt: R,
    alloc: Global,
    work: &SwitchWork<'_>,
    output: &mut W,
    errors: &mut E,
) -> Ended {
    let service = match service_of(&rt, alloc, work.folder, work.node) {
        Ok(service) => service,
        Err(fault) => return tell_service_fault(alloc, fault, errors),
    };
    if work.pipes {
        return show_line(alloc, work, &service, output, errors);
    }
    let own = Actor::Node(work.node);
    match wait_for_own(&rt, alloc, work.folder, &own) {
        Ok((record, found)) => {
            live_to_switch(&rt, alloc, work, &service, &own, record, &found, errors)
        }
        Err(ServiceFault::Record(FileFault::Held)) => {
            switch_running(rt, alloc, work, &service, output, errors)
        }
        Err(fault) => tell_service_fault(alloc, fault, errors),
    }
}
