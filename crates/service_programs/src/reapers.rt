// `rwvote reap`.

ghost use Rattle.std.specs.Prelude.{◌≡◌, ◌∷◌, []};

use crate::client_programs::{LifeFault, OwnClientRecord, held, live};
use crate::journals::{Journal, Journaling, is_journaled};
use crate::starting::{folder_link, open_own};
use actor_lives::{Asked, Desk, Refusal};
use client_commands::{Entry, Waiting};
use event_recorders::Recorder;
use file_plate::FileFault;
use line_link::{Limit, Pauses};
use line_streams::write_text;
use lock_messages::{Actor, ClientId};
use lock_session::{OwnRecord, Session, SessionGuard};
use lossy_link::Link;
use program_ends::Ended;
use service_ends::tell_service_fault;
use service_folders::{Service, ServiceFault, open_service, record_path};
use stable_record::read_client;
use std::alloc::{AllocError, Global};
use std::fs::{self, File, Files};
use std::io::Write;
use std::os::unix::fs::MetadataExt;
use std::sync::Wait;
use std::thread;
use std::time::{Clock, Duration};

/// How many milliseconds a client that died waits for answers to its releases.
const LONGEST_RELEASE: u64 = 300;

/// How many milliseconds are between two looks at a record that a process has.
const BEFORE_SECOND_LOOK: u64 = 50;

/// A desk without commands: the client's life only releases what the one before it held. It waits for that once.
#[derive(Drop)]
struct NoDesk<R: Clock + Copy> {
    rt: R,
    limit: Limit,
    milliseconds: u64,
}

impl<R: Clock + Copy> Desk for NoDesk<R> {
    fn next<T: Wait>(&mut self, rt: &T, waits: bool) -> Asked {
        let _ = rt;
        let _ = waits;
        Asked::Ended
    }

    fn begin_wait(&mut self, waiting: Waiting) {
        let _ = waiting;
    }

    fn begin_attempt(&mut self, is_short: bool) {
        let _ = is_short;
    }

    fn begin_release(&mut self, is_long: bool) {
        let _ = is_long;
        let most = Duration::from_millis(self.milliseconds);
        self.limit.set_deadline(&self.rt, most);
        self.milliseconds = 0;
    }

    fn end_wait(&mut self) {
        self.limit.clear_deadline();
    }

    fn is_over(&self) -> bool {
        true
    }

    fn pause<T: Wait>(&mut self, rt: &T) {
        let _ = rt;
    }

    fn inside<S: OwnRecord, K: Recorder, L: Link>(
        &mut self,
        entry: &Entry,
        guard: &SessionGuard<'_, S, K, L>,
    ) {
        let _ = entry;
        let _ = guard;
    }

    fn softened<S: OwnRecord, K: Recorder, L: Link>(&mut self, guard: &SessionGuard<'_, S, K, L>) {
        let _ = guard;
    }

    fn outside<S: OwnRecord, K: Recorder, L: Link>(&mut self, session: &Session<S, K, L>) {
        let _ = session;
    }

    fn status<S: OwnRecord, K: Recorder, L: Link>(&mut self, session: &Session<S, K, L>) {
        let _ = session;
    }

    fn refused<S: OwnRecord, K: Recorder, L: Link>(
        &mut self,
        refusal: Refusal,
        session: &Session<S, K, L>,
    ) {
        let _ = refusal;
        let _ = session;
    }

    fn unknown(&mut self) {}
}

/// When a record's file was last changed.
#[derive(Clone, Copy, Debug, PartialEq, Eq)]
struct Change {
    seconds: i64,
    nanoseconds: i64,
}

/// What came of a client.
#[derive(Clone, Copy, Debug, PartialEq, Eq)]
enum Reaped {
    /// Its record is on another machine.
    NotHere,
    /// A process has its record.
    Held,
    /// It holds no vote, as was known.
    Nothing,
    /// Each node has answered its release.
    Released,
    /// A node has not answered its release.
    Unanswered,
    /// Its record, its inbox or its journal can't be opened or read, or its life ended, by the fault of this number.
    Fault(u16),
}

/// When the record's file of the client was last changed, if it is there.
fn change_of<F: Files>(files: &F, alloc: Global, folder: &str, client: ClientId) -> Option<Change> {
    let path = record_path(alloc, folder, Actor::Client(client)).ok()?;
    let found = fs::metadata(files, path.as_str()).ok()?;
    Some(Change {
        seconds: found.mtime(),
        nanoseconds: found.mtime_nsec(),
    })
}

/// How the reaper writes a client's journal: if the client has one, it goes on with it.
fn journaling_of<F: Files>(files: &F, alloc: Global, folder: &str, client: ClientId) -> Journaling {
    if is_journaled(files, alloc, folder, Actor::Client(client)) {
        Journaling::Written
    } else {
        Journaling::Unwritten
    }
}

/// What came of a client whose files can't be opened. Only running out of memory ends the reaper.
fn passed_over(fault: ServiceFault) -> Result<Reaped, ServiceFault> {
    match fault {
        ServiceFault::Memory => Err(ServiceFault::Memory),
        ServiceFault::Record(FileFault::Held) => Ok(Reaped::Held),
        ServiceFault::Record(FileFault::Missing) => Ok(Reaped::NotHere),
        _ => Ok(Reaped::Fault(fault.number())),
    }
}

/// What came of a client whose life only released.
fn reaped_by(life: Result<bool, LifeFault>) -> Reaped {
    match life {
        Ok(true) => Reaped::Released,
        Ok(false) => Reaped::Unanswered,
        Err(LifeFault::Unreadable(number)) => Reaped::Fault(number),
        Err(LifeFault::Run(fault)) => Reaped::Fault(fault.number()),
    }
}

/// Runs a life of the client that only releases.
fn release_held<R: Wait + Clock + Files<File = File> + Copy + Drop>(
    rt: R,
    alloc: Global,
    service: &Service,
    client: OwnClientRecord,
) -> Result<Reaped, ServiceFault>
    requires { client.stable.record.finds ≡ client.found.items ∷ [] }
{
    let own = client.actor();
    let how = journaling_of(&rt, alloc, service.path(), client.client);
    let journal = Journal::open(&rt, alloc, service.path(), own, how)?;
    let Ok((limit, of_link)) = limits(alloc) else {
        return Err(ServiceFault::Memory);
    };
    let link = folder_link(rt, alloc, service, &own, Pauses::of_client(), Some(of_link))?;
    let mut desk = NoDesk {
        rt,
        limit,
        milliseconds: LONGEST_RELEASE,
    };
    let life = live(&rt, alloc, service, client, journal, link, &mut desk);
    Ok(reaped_by(life))
}

/// Releases what the client holds, if no process runs it.
fn reap_one<R: Wait + Clock + Files<File = File> + Copy + Drop>(
    rt: R,
    alloc: Global,
    service: &Service,
    client: ClientId,
) -> Result<Reaped, ServiceFault> {
    let opened = match open_own(&rt, alloc, service.path(), Actor::Client(client)) {
        Ok(opened) => opened,
        Err(fault) => return passed_over(fault),
    };
    // A client that has made no attempt has asked nobody.
    if read_client(&opened.1) == Ok(0) {
        return Ok(Reaped::Nothing);
    }
    match release_held(rt, alloc, service, held(client, opened)) {
        Ok(reaped) => Ok(reaped),
        Err(fault) => passed_over(fault),
    }
}

/// A limit twice: for the desk and for the link.
fn limits(alloc: Global) -> Result<(Limit, Limit), AllocError> {
    let limit = Limit::new(alloc)?;
    let of_link = limit.share()?;
    Ok((limit, of_link))
}

/// What the reaper knows of a client.
#[derive(Clone, Copy, Debug, PartialEq, Eq)]
struct ClientKnown {
    // When the record was last changed as it was found to hold no vote.
    change: Option<Change>,
    // What came of it last.
    last: Reaped,
}

/// What the reaper knows of each client.
#[derive(Drop)]
struct Known {
    clients: Vec<ClientKnown>,
}

impl Known {
    /// Nothing is known of so many clients.
    fn nothing(alloc: Global, clients: u32) -> Result<Known, AllocError> {
        let mut all = Vec::new(alloc);
        for _ in 0..clients {
            all.push(ClientKnown {
                change: None,
                last: Reaped::Nothing,
            })?;
        }
        Ok(Known { clients: all })
    }

    /// What is known of the client.
    fn of(&self, client: ClientId) -> Option<&ClientKnown> {
        self.clients.get(client.get() as usize - 1)
    }

    /// Whether the client is known to hold no vote since this change.
    fn has(&self, client: ClientId, change: Option<Change>) -> bool {
        match self.of(client) {
            Some(known) => change.is_some() && known.change == change,
            None => false,
        }
    }

    /// What came of the client last.
    fn last(&self, client: ClientId) -> Reaped {
        match self.of(client) {
            Some(known) => known.last,
            None => Reaped::Nothing,
        }
    }

    /// Learns what came of the client, whose record was last changed then.
    fn learn(&mut self, client: ClientId, reaped: Reaped, change: Option<Change>) {
        let Some(known) = self.clients.get_mut(client.get() as usize - 1) else {
            return;
        };
        known.last = reaped;
        if matches!(reaped, Reaped::Released | Reaped::Nothing) {
            known.change = change;
        }
    }
}

/// What is said of a client, if anything.
fn line_of(alloc: Global, client: ClientId, reaped: Reaped) -> Result<Option<String>, AllocError> {
    let line = match reaped {
        Reaped::NotHere | Reaped::Held | Reaped::Nothing => return Ok(None),
        Reaped::Released => format!(in alloc; "{client} released\n")?,
        Reaped::Unanswered => format!(in alloc; "{client} not released: a node does not answer\n")?,
        Reaped::Fault(number) => format!(in alloc; "{client} fault {number}\n")?,
    };
    Ok(Some(line))
}

/// Looks at a client once: releases what it holds, unless that is known.
fn look_at<R: Wait + Clock + Files<File = File> + Copy + Drop>(
    rt: R,
    alloc: Global,
    service: &Service,
    known: &Known,
    client: ClientId,
    change: Option<Change>,
) -> Result<Reaped, ServiceFault> {
    if known.has(client, change) {
        return Ok(Reaped::Nothing);
    }
    reap_one(rt, alloc, service, client)
}

/// Looks at a client once, and says what came of it, unless that is what came of it last.
fn tend<R: Wait + Clock + Files<File = File> + Copy + Drop, W: Write>(
    rt: R,
    alloc: Global,
    service: &Service,
    known: &mut Known,
    client: ClientId,
    output: &mut W,
) -> Result<(), ServiceFault> {
    let change = change_of(&rt, alloc, service.path(), client);
    let reaped = look_at(rt, alloc, service, known, client, change)?;
    let is_new = reaped == Reaped::Released || reaped != known.last(client);
    known.learn(client, reaped, change);
    let Ok(line) = line_of(alloc, client, reaped) else {
        return Err(ServiceFault::Memory);
    };
    if let Some(line) = line
        && is_new
    {
        let _ = write_text(output, line.as_bytes());
        let _ = output.flush();
    }
    Ok(())
}

/// Looks at each client once, or only at those whose records a process had when it looked last.
fn tend_all<R: Wait + Clock + Files<File = File> + Copy + Drop, W: Write>(
    rt: R,
    alloc: Global,
    service: &Service,
    known: &mut Known,
    only_held: bool,
    output: &mut W,
) -> Result<(), ServiceFault> {
    for number in 1..=service.clients() {
        let Some(client) = ClientId::of(number) else {
            break;
        };
        if !only_held || known.last(client) == Reaped::Held {
            tend(rt, alloc, service, known, client, output)?;
        }
    }
    Ok(())
}

/// Looks at each client once, and after a moment again at those whose records a process had: `rwvote status` has a record
/// for a moment. It returns whether nobody is left to be released.
fn tend_once<R: Wait + Clock + Files<File = File> + Copy + Drop, W: Write>(
    rt: R,
    alloc: Global,
    service: &Service,
    known: &mut Known,
    output: &mut W,
) -> Result<bool, ServiceFault> {
    tend_all(rt, alloc, service, known, false, output)?;
    thread::sleep(&rt, Duration::from_millis(BEFORE_SECOND_LOOK));
    tend_all(rt, alloc, service, known, true, output)?;
    for one in &known.clients {
        if matches!(one.last, Reaped::Unanswered | Reaped::Fault(_)) {
            return Ok(false);
        }
    }
    Ok(true)
}

/// Looks at each client, again and again, so many seconds after the last time.
fn tend_on<R: Wait + Clock + Files<File = File> + Copy + Drop, W: Write>(
    rt: R,
    alloc: Global,
    service: &Service,
    known: &mut Known,
    seconds: u32,
    output: &mut W,
) -> ServiceFault {
    for _ in rt.forever() {
        if let Err(fault) = tend_all(rt, alloc, service, known, false, output) {
            return fault;
        }
        thread::sleep(&rt, Duration::from_secs(u64::from(seconds)));
    }
    unreachable!()
}

/// Releases the votes of clients whose processes died: of each client whose record nobody holds and that may hold votes it
/// runs a life that releases. With a number of seconds it does so again and again, so often.
///
/// It says a line for each client that it released or could not release. If it could not for the same reason as the time
/// before, it says nothing. Without a number of seconds the status is 0 if no client is left to be released, and else 1.
///
/// # Errors
///
/// It says the fault on the second writer, with status 2 if the settings are refused, and else 1: those of `open_service`,
/// 933 (out of memory). If the record, the inbox or the journal of a client can't be opened, it says so in the client's line,
/// and goes on.
pub fn run_reaper<R: Wait + Clock + Files<File = File> + Copy + Drop, W: Write, E: Write>(
    rt: R,
    alloc: Global,
    folder: &str,
    every: Option<u32>,
    output: &mut W,
    errors: &mut E,
) -> Ended {
    let service = match open_service(&rt, alloc, folder) {
        Ok(service) => service,
        Err(fault) => return tell_service_fault(alloc, fault, errors),
    };
    let Ok(mut known) = Known::nothing(alloc, service.clients()) else {
        return tell_service_fault(alloc, ServiceFault::Memory, errors);
    };
    if let Some(seconds) = every {
        let fault = tend_on(rt, alloc, &service, &mut known, seconds, output);
        return tell_service_fault(alloc, fault, errors);
    }
    match tend_once(rt, alloc, &service, &mut known, output) {
        Ok(is_done) => Ended {
            status: u8::from(!is_done),
            told: true,
        },
        Err(fault) => tell_service_fault(alloc, fault, errors),
    }
}
