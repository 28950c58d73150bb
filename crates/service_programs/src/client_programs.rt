// `rwvote client`.

ghost use Rattle.std.specs.Prelude.{◌≡◌, ◌∷◌, [], IfOk};

use crate::command_lines::{Patience, read_commands};
use crate::ends::{end_unstarted, lacking_memory};
use crate::journals::{Journal, Journaling};
use crate::line_desks::LineDesk;
use crate::starting::{BETWEEN_TRIES, TRIES, folder_link, open_own, wait_for_own, wake_in_time};
use actor_lives::{Desk, run_client_life};
use crossbeam_channel::{Receiver, bounded};
use event_recorders::RunFault;
use file_plate::FileFault;
use file_records::FileRecord;
use line_link::{Limit, LineLink, Pauses, Streams, line_channel, read_lines};
use lock_messages::{Actor, ClientId};
use lossy_link::Link;
use program_ends::Ended;
use service_ends::tell_service_fault;
use service_folders::{Service, ServiceFault, open_service};
use session_files::SessionFile;
use stable_record::read_client;
use std::alloc::Global;
use std::fs::{File, Files, OpenOptions};
use std::io::{Read, Write};
use std::sync::Wait;
use std::thread::{self, Threads};
use std::time::{Clock, Duration};

/// How many lines of commands may wait.
const MAX_WAITING: usize = 64;

/// The files of a client's commands and answers, if frames take standard input and output.
#[derive(Clone, Copy, Debug, PartialEq, Eq)]
pub struct Pipes<'w> {
    pub commands: &'w str,
    pub answers: &'w str,
}

/// What a client's program is told.
#[derive(Clone, Copy, Debug, PartialEq, Eq)]
pub struct ClientWork<'w> {
    /// The client, or the lowest that no process runs.
    pub client: Option<ClientId>,
    /// The service's directory.
    pub folder: &'w str,
    /// If it is there, frames come on standard input and go to standard output.
    pub pipes: Option<Pipes<'w>>,
    pub journaling: Journaling,
}

/// Why a client's life ended before its commands did.
#[derive(Clone, Copy, Debug, PartialEq, Eq)]
pub(crate) enum LifeFault {
    /// The bytes of the record are no client's record, by the fault of this number.
    Unreadable(u16),
    /// The session ended by this fault.
    Run(RunFault),
}

/// A client whose record this process holds.
#[derive(Drop)]
pub(crate) struct OwnClientRecord {
    pub(crate) client: ClientId,
    pub(crate) stable: SessionFile,
    pub(crate) found: Vec<u8>,
}

impl OwnClientRecord {
    /// The client.
    pub(crate) fn actor(&self) -> Actor {
        Actor::Client(self.client)
    }
}

/// The client with this record.
pub(crate) fn held(client: ClientId, opened: (FileRecord, Vec<u8>)) -> OwnClientRecord
    requires { opened.0.finds ≡ opened.1.items ∷ [] }
    ensures { result.stable.record.finds ≡ result.found.items ∷ [] }
{
    let (record, found) = opened;
    OwnClientRecord {
        client,
        stable: SessionFile { record },
        found,
    }
}

/// The lowest client of the service that no process runs and whose record is here. 966: there is none.
fn hold_lowest<F: Files<File = File>>(
    files: &F,
    alloc: Global,
    service: &Service,
) -> Result<OwnClientRecord, ServiceFault>
    ensures { IfOk result (λ h. h.stable.record.finds ≡ h.found.items ∷ []) }
{
    for number in 1..=service.clients() {
        let Some(client) = ClientId::of(number) else {
            break;
        };
        match open_own(files, alloc, service.path(), Actor::Client(client)) {
            Ok(opened) => return Ok(held(client, opened)),
            Err(ServiceFault::Record(FileFault::Held | FileFault::Missing)) => {}
            Err(fault) => return Err(fault),
        }
    }
    Err(ServiceFault::AllHeld)
}

/// The same, but if there is none it looks again for a moment, since `rwvote status` and a reaper hold records for a moment.
fn hold_any<F: Files<File = File> + Clock>(
    rt: &F,
    alloc: Global,
    service: &Service,
) -> Result<OwnClientRecord, ServiceFault>
    ensures { IfOk result (λ h. h.stable.record.finds ≡ h.found.items ∷ []) }
{
    for _ in 1..TRIES {
        let found = hold_lowest(rt, alloc, service);
        if !matches!(found, Err(ServiceFault::AllHeld)) {
            return found;
        }
        thread::sleep(rt, Duration::from_millis(BETWEEN_TRIES));
    }
    hold_lowest(rt, alloc, service)
}

/// This client, if the service has it, or any.
fn hold<F: Files<File = File> + Clock>(
    rt: &F,
    alloc: Global,
    service: &Service,
    wanted: Option<ClientId>,
) -> Result<OwnClientRecord, ServiceFault>
    ensures { IfOk result (λ h. h.stable.record.finds ≡ h.found.items ∷ []) }
{
    let Some(client) = wanted else {
        return hold_any(rt, alloc, service);
    };
    if !service.has(Actor::Client(client)) {
        return Err(ServiceFault::NoActor);
    }
    match wait_for_own(rt, alloc, service.path(), &Actor::Client(client)) {
        Ok(opened) => Ok(held(client, opened)),
        Err(fault) => Err(fault),
    }
}

/// Runs the life of a client that is held, over this link and desk. It returns whether each node has answered the last
/// release, or the number of the fault by which the life ended.
pub(crate) fn live<R: Wait, L: Link + Drop, D: Desk>(
    rt: &R,
    alloc: Global,
    service: &Service,
    held: OwnClientRecord,
    journal: Journal,
    link: L,
    desk: &mut D,
) -> Result<bool, LifeFault>
    requires { held.stable.record.finds ≡ held.found.items ∷ [] }
{
    let OwnClientRecord {
        client,
        stable,
        found,
    } = held;
    let attempt = match read_client(&found) {
        Ok(attempt) => attempt,
        Err(fault) => return Err(LifeFault::Unreadable(fault.number())),
    };
    let ballots = service.ballots();
    let end = run_client_life(
        rt, alloc, client, ballots, attempt, stable, journal, link, desk,
    );
    match end.ended {
        Ok(is_released) => Ok(is_released),
        Err(fault) => Err(LifeFault::Run(fault)),
    }
}

/// A desk over the lines of the input, which a thread reads.
fn desk_over<
    R: Threads + Wait + Clock + Copy + Send + Drop + 'static,
    I: Read + Send + Drop + 'static,
    W: Write + Drop,
    E: Write + Drop,
>(
    rt: R,
    alloc: Global,
    actor: Actor,
    patience: Patience,
    input: I,
    answers: W,
    errors: E,
) -> Result<LineDesk<R, W, E>, ServiceFault> {
    let (Ok((sender, lines)), Ok(shared)) = (bounded(alloc, MAX_WAITING), patience.share()) else {
        return Err(ServiceFault::Memory);
    };
    let reader = thread::spawn(&rt, move || {
        let mut input = input;
        read_commands(&rt, alloc, &mut input, sender, &shared);
    });
    if reader.is_err() {
        return Err(ServiceFault::Memory);
    }
    Ok(LineDesk {
        rt,
        alloc,
        actor,
        lines,
        answers,
        errors,
        patience,
        until: None,
        times: 1,
        is_broken: false,
    })
}

/// The files of commands and answers. 969: one can't be opened.
fn open_pipes<F: Files<File = File>>(
    files: &F,
    pipes: Pipes<'_>,
) -> Result<(File, File), ServiceFault> {
    let commands = File::open(files, pipes.commands);
    let answers = OpenOptions::new().write(true).open(files, pipes.answers);
    match (commands, answers) {
        (Ok(commands), Ok(answers)) => Ok((commands, answers)),
        _ => Err(ServiceFault::NoStreams),
    }
}

/// The link of a client over pipes, of which a thread reads the input.
fn pipe_link<
    R: Threads + Wait + Clock + Copy + Send + Drop + 'static,
    I: Read + Send + Drop + 'static,
    W: Write + Drop,
>(
    rt: R,
    alloc: Global,
    service: &Service,
    actor: Actor,
    limit: Limit,
    input: I,
    output: W,
) -> Result<LineLink<R, Streams<R, W>>, ServiceFault> {
    let Ok((sender, lines)) = line_channel(alloc) else {
        return Err(ServiceFault::Memory);
    };
    let reader = thread::spawn(&rt, move || {
        let mut input = input;
        read_lines(&rt, alloc, &mut input, &sender);
    });
    if reader.is_err() {
        return Err(ServiceFault::Memory);
    }
    let outgoing = service.secret();
    let incoming = service.secret();
    let streams = Streams::new(rt, output, lines);
    let pauses = Pauses::of_client();
    let secrets = (outgoing, incoming);
    Ok(LineLink::over(rt, alloc, actor, secrets, streams, pauses, Some(limit)))
}

/// Runs the client over its link, by the commands of the input.
fn run_over<
    R: Threads + Wait + Clock + Files<File = File> + Copy + Send + Drop + 'static,
    L: Link + Drop,
    I: Read + Send + Drop + 'static,
    W: Write + Drop,
    E: Write + Drop,
>(
    rt: R,
    alloc: Global,
    work: &ClientWork<'_>,
    service: &Service,
    held: OwnClientRecord,
    link: L,
    patience: Patience,
    input: I,
    answers: W,
    errors: E,
) -> Ended
    requires { held.stable.record.finds ≡ held.found.items ∷ [] }
{
    let actor = held.actor();
    let journal = match Journal::open(&rt, alloc, work.folder, held.actor(), work.journaling) {
        Ok(journal) => journal,
        Err(fault) => {
            let mut errors = errors;
            return tell_service_fault(alloc, fault, &mut errors);
        }
    };
    let mut desk = match desk_over(rt, alloc, actor, patience, input, answers, errors) {
        Ok(desk) => desk,
        Err(_) => return lacking_memory(),
    };
    let lived = live(&rt, alloc, service, held, journal, link, &mut desk);
    desk.end(lived)
}

/// What a client's program has before its link.
#[derive(Drop)]
struct Started {
    service: Service,
    held: OwnClientRecord,
    patience: Patience,
    limit: Limit,
}

/// Opens the service and the client's record.
fn start<F: Files<File = File> + Clock>(
    rt: &F,
    alloc: Global,
    work: &ClientWork<'_>,
) -> Result<Started, ServiceFault>
    ensures { IfOk result (λ s. s.held.stable.record.finds ≡ s.held.found.items ∷ []) }
{
    let service = open_service(rt, alloc, work.folder)?;
    let held = hold(rt, alloc, &service, work.client)?;
    let Ok(patience) = Patience::new(alloc) else {
        return Err(ServiceFault::Memory);
    };
    let Ok(limit) = patience.limit.share() else {
        return Err(ServiceFault::Memory);
    };
    Ok(Started {
        service,
        held,
        patience,
        limit,
    })
}

/// Runs a client of a service's directory, or the lowest that no process runs. It obeys the commands of its input, and
/// ends with status 0 when they end.
///
/// # Errors
///
/// It says the fault on the third writer. The status is 2 if the settings are refused, and else 1. Before the client
/// rises: those of `open_service`, 965 (the service has no such client), 966 (each client is in use), those of
/// `open_record` (941 if a process runs the client, 942 if its record is missing), 967 to 969 (its inbox, its journal, or
/// the file for commands or answers can't be opened), 321 to 324 (the record is no client's), 933 (out of memory). Later:
/// 911, 914, 915 (the journal can't be written) or 916, which it also answers.
pub fn run_client_program<
    R: Threads + Wait + Clock + Files<File = File> + Copy + Send + Drop + 'static,
    I: Read + Send + Drop + 'static,
    W: Write + Drop,
    E: Write + Drop,
>(rt: R, alloc: Global, work: &ClientWork<'_>, input: I, output: W, errors: E) -> Ended
    requires { Unit {0} }
{
    wake_in_time(&rt);
    let mut errors = errors;
    let started = match start(&rt, alloc, work) {
        Ok(started) => started,
        Err(fault) => {
            let wanted = work.client.map(Actor::Client);
            return end_unstarted(alloc, work.folder, wanted, fault, &mut errors);
        }
    };
    let Started {
        service,
        held,
        patience,
        limit,
    } = started;
    let own = held.actor();
    let Some(pipes) = work.pipes else {
        return match folder_link(rt, alloc, &service, &own, Pauses::of_client(), Some(limit)) {
            Ok(link) => run_over(
                rt, alloc, work, &service, held, link, patience, input, output, errors,
            ),
            Err(fault) => tell_service_fault(alloc, fault, &mut errors),
        };
    };
    let (commands, answers) = match open_pipes(&rt, pipes) {
        Ok(opened) => opened,
        Err(fault) => return tell_service_fault(alloc, fault, &mut errors),
    };
    match pipe_link(rt, alloc, &service, own, limit, input, output) {
        Ok(link) => run_over(
            rt, alloc, work, &service, held, link, patience, commands, answers, errors,
        ),
        Err(fault) => tell_service_fault(alloc, fault, &mut errors),
    }
}
