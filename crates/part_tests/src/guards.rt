//! Guards of client cores, and of a door that counts how often it left and softened.

ghost use Rattle.std.specs.Prelude.{◌≡◌, ◌↔◌, IsTrue, false};
ghost use Rattle.client_core.specs.Calls.{MayEnter, entered, left, ReleasesAll};

use crate::attempts::{COSTLY_READS, PLAIN, Votes, risen};
use crate::rows::message;
use client_core::{ClientCore, Heard, Phase};
use entry_guard::{Door, EntryGuard, OwnedEntry, enter_and_leave, enter_client};
use lock_messages::{Attempt, ClientId, Mode, NodeId, ResourceName, Ticket};
use std::alloc::Global;
use std::mem;
use std::sync::Arc;
use std::sync::atomic::{AtomicUsize, Ordering};
use test_outcomes::{Outcome, check_answers, node_id};

/// Client 1's ticket of attempt 1 for `a`.
fn first_ticket(mode: Mode) -> Ticket {
    Ticket {
        client: ClientId::of(1).unwrap(),
        attempt: Attempt::of(1).unwrap(),
        mode,
        resource: ResourceName::of(b"a").unwrap(),
    }
}

/// Which core is tried: each asks with that ticket.
#[derive(Clone, Copy)]
enum Asker {
    /// A reader's with the votes of two of three nodes, which are enough.
    Reading,
    /// A reader's with the vote of one node.
    Poor,
    /// A writer's with enough votes.
    Writing,
}

/// Whether a message is this to a core.
fn hears(core: &mut ClientCore, row: &str, want: Heard) -> bool {
    match message(row) {
        Some(message) => core.hear(&message) == want,
        None => false,
    }
}

/// Asks, and hears these votes; whether each counts.
fn asks(core: &mut ClientCore, mode: Mode, grants: &[&str]) -> bool {
    let mut right = core.begin(ResourceName::of(b"a").unwrap(), mode, 1).is_ok();
    if core.phase() == Phase::Chosen {
        core.kept();
    }
    for row in grants {
        right &= hears(core, row, Heard::Counted);
    }
    right
}

/// A core under these ballots that asks, and has heard these votes.
fn core_with(votes: &[Votes], mode: Mode, grants: &[&str]) -> Option<ClientCore> {
    match risen(0, votes) {
        Some(core) => {
            let mut core = core;
            if asks(&mut core, mode, grants) {
                Some(core)
            } else {
                None
            }
        }
        None => None,
    }
}

fn core_of(asker: Asker) -> Option<ClientCore> {
    match asker {
        Asker::Reading => {
            let grants = ["grant n1 c1 1 read a", "grant n2 c1 1 read a"];
            core_with(PLAIN, Mode::Read, &grants)
        }
        Asker::Poor => core_with(PLAIN, Mode::Read, &["grant n1 c1 1 read a"]),
        Asker::Writing => core_with(COSTLY_READS, Mode::Write, &["grant n1 c1 1 write a"]),
    }
}

/// How often a door left and softened.
#[derive(Drop)]
struct Counts {
    leaves: AtomicUsize,
    softens: AtomicUsize,
}

/// A door that may enter or not, and counts how often it left and how often it softened.
#[derive(Drop)]
struct Counter {
    held: Ticket,
    may: bool,
    within: bool,
    counts: Arc<Counts>,
}

impl Door for Counter {
    ghost use Rattle.std.specs.Prelude.{Some, IsTrue};

    ghost ticket_of = { λ d. Some d.held };

    ghost is_inside = { λ d. d.within };

    ghost can_enter = { λ d. IsTrue d.may };

    ghost enters = { λ d e. Unit {0} };

    ghost softens = { λ d e. Unit {0} };

    ghost leaves = { λ d e. Unit {0} };

    fn ticket(&self) -> Option<Ticket> {
        Some(self.held)
    }

    fn inside(&self) -> bool {
        self.within
    }

    fn may_enter(&self) -> bool {
        self.may
    }

    fn enter(&mut self) {
        self.within = true;
    }

    fn may_soften(&self) -> bool {
        self.within && self.held.mode == Mode::Write
    }

    fn soften(&mut self) {
        self.held.mode = Mode::Read;
        self.counts.softens.fetch_add(1, Ordering::SeqCst);
    }

    fn leave(&mut self) {
        self.within = false;
        self.counts.leaves.fetch_add(1, Ordering::SeqCst);
    }
}

/// Enters, and leaves at the end of the scope.
fn to_the_end<D: Door>(door: &mut D)
    ensures { D.can_enter door.old → D.is_inside door.new ≡ false }
{
    let _guard = EntryGuard::enter(door);
}

/// Enters, and leaves by a `?` where there is no value, else at the end.
fn by_a_question_mark<D: Door>(door: &mut D, value: Option<u8>) -> Option<u8>
    ensures { D.can_enter door.old → D.is_inside door.new ≡ false }
{
    let _guard = EntryGuard::enter(door)?;
    let value = value?;
    Some(value)
}

/// Enters, and leaves by a return in the middle or at the end.
fn by_a_return<D: Door>(door: &mut D, early: bool) -> Option<Ticket>
    ensures { D.can_enter door.old → D.is_inside door.new ≡ false }
{
    let guard = EntryGuard::enter(door)?;
    if early {
        return None;
    }
    Some(guard.ticket())
}

/// Whether the door may be entered, by entering and leaving. One that may not is asked first, and is
/// unchanged.
fn can_be_entered<D: Door>(door: &mut D) -> bool
    ensures entered { IsTrue result ↔ D.can_enter door.old }
    ensures left { D.can_enter door.old → D.is_inside door.new ≡ false }
    ensures unchanged { (D.can_enter door.old → ⊥) → door.new ≡ door.old }
{
    if !door.may_enter() {
        return false;
    }
    EntryGuard::enter(door).is_some()
}

/// The same with a client core, which is then idle after its attempt, and has its release to say to
/// each node; a core that may not enter is unchanged.
fn client_by_a_question_mark(core: &mut ClientCore, value: Option<u8>) -> Option<u8>
    ensures left { MayEnter core.old → core.new ≡ left (entered core.old) }
    ensures releases { MayEnter core.old → ReleasesAll core.new core.old.attempt }
    ensures unchanged { (MayEnter core.old → ⊥) → core.new ≡ core.old }
{
    let _guard = enter_client(core)?;
    let value = value?;
    Some(value)
}

/// Whether what a core says to this node is this message.
fn says(core: &ClientCore, node: NodeId, row: &str) -> bool {
    core.message_for(node) == message(row)
}

/// Whether a core with enough votes enters with its ticket, and is idle behind the guard's scope, with
/// its release to say.
fn is_guarded(core: &mut ClientCore) -> bool {
    let same = by_a_return(core, false) == Some(first_ticket(Mode::Read));
    let left = core.phase() == Phase::Idle && core.attempt() == 1;
    same && left
        && says(core, node_id(1), "release n1 c1 1")
        && says(core, node_id(3), "release n3 c1 1")
}

/// Whether a core with too few votes is refused, and still asks.
fn is_refused(core: &mut ClientCore) -> bool {
    let refused = EntryGuard::enter(core).is_none();
    let asks = core.phase() == Phase::Asking;
    refused && asks && hears(core, "grant n1 c1 1 read a", Heard::Known)
}

/// What is tried with a core.
#[derive(Clone, Copy)]
enum Tried {
    Guarded,
    Refused,
    /// It leaves by a `?`.
    LeavesByAQuestionMark,
    /// It is refused before a `?`.
    RefusedBeforeAQuestionMark,
    Softened,
    StaysSoftened,
}

fn tries(core: &mut ClientCore, tried: Tried) -> bool {
    match tried {
        Tried::Guarded => is_guarded(core),
        Tried::Refused => is_refused(core),
        Tried::LeavesByAQuestionMark => {
            client_by_a_question_mark(core, None).is_none() && core.phase() == Phase::Idle
        }
        Tried::RefusedBeforeAQuestionMark => {
            client_by_a_question_mark(core, Some(1)).is_none() && core.phase() == Phase::Asking
        }
        Tried::Softened => is_softened(core),
        Tried::StaysSoftened => stays_softened(core),
    }
}

/// Whether what is tried with a core is so.
fn is_so(asker: Asker, tried: Tried) -> Option<bool> {
    match core_of(asker) {
        Some(core) => {
            let mut core = core;
            Some(tries(&mut core, tried))
        }
        None => None,
    }
}

#[test]
fn guard(rt: HostRuntime) -> Outcome {
    check_answers(&[
        is_so(Asker::Reading, Tried::Guarded),
        is_so(Asker::Poor, Tried::Refused),
        is_so(Asker::Reading, Tried::LeavesByAQuestionMark),
        is_so(Asker::Poor, Tried::RefusedBeforeAQuestionMark),
        owned_core_leaves(rt.alloc(), false),
        is_handed_back(rt.alloc()),
        is_visited(rt.alloc(), true),
        is_visited(rt.alloc(), false),
    ])
}

fn boxed(alloc: Global, asker: Asker) -> Option<Box<dyn Door + Send>> {
    let core = core_of(asker)?;
    let door: Box<dyn Door + Send> = Box::new(alloc, core).ok()?;
    Some(door)
}

/// Softens an owned entry that has entered as a writer; whether its ticket is then this one.
fn softens_entry(entry: &mut OwnedEntry, reads: Ticket) -> bool {
    if entry.ticket().mode == Mode::Read {
        return false;
    }
    entry.soften();
    entry.ticket() == reads
}

/// Whether an entry has the first ticket and, where it softens, the reader's after that.
fn has_tickets(entry: &mut OwnedEntry, softens: bool) -> bool {
    let reads = first_ticket(Mode::Read);
    if softens {
        entry.ticket() == first_ticket(Mode::Write) && softens_entry(entry, reads)
    } else {
        entry.ticket() == reads
    }
}

/// Whether an owned door enters with its ticket, softens where it is a writer, and comes back outside.
fn owned_core_leaves(alloc: Global, softens: bool) -> Option<bool> {
    let asker = if softens {
        Asker::Writing
    } else {
        Asker::Reading
    };
    let Some(door) = boxed(alloc, asker) else {
        return None;
    };
    match OwnedEntry::enter(door) {
        Ok(entry) => {
            let mut entry = entry;
            let same = has_tickets(&mut entry, softens);
            let door = entry.leave();
            Some(same && !door.inside() && !door.may_enter() && door.ticket().is_none())
        }
        Err(_) => Some(false),
    }
}

/// Whether a core in a box enters with its ticket, and leaves; or one with too few votes doesn't enter.
fn is_visited(alloc: Global, may: bool) -> Option<bool> {
    let asker = if may { Asker::Reading } else { Asker::Poor };
    let Some(core) = core_of(asker) else {
        return None;
    };
    match enter_and_leave(alloc, core) {
        Ok(Some(seen)) => {
            let left = seen.ticket.is_none() && !seen.inside;
            Some(may && left && seen.with == first_ticket(Mode::Read))
        }
        Ok(None) => Some(!may),
        Err(_) => None,
    }
}

/// Whether an owned door that may not enter comes back as it was.
fn is_handed_back(alloc: Global) -> Option<bool> {
    let Some(door) = boxed(alloc, Asker::Poor) else {
        return None;
    };
    match OwnedEntry::enter(door) {
        Ok(_) => Some(false),
        Err(door) => Some(!door.inside() && door.ticket() == Some(first_ticket(Mode::Read))),
    }
}

fn new_counts(alloc: Global) -> Option<Arc<Counts>> {
    let counts = Counts {
        leaves: AtomicUsize::new(0),
        softens: AtomicUsize::new(0),
    };
    Arc::new(alloc, counts).ok()
}

/// A door that may enter with this ticket.
fn door_with(held: Ticket, counts: Arc<Counts>) -> Counter {
    Counter {
        held,
        may: true,
        within: false,
        counts,
    }
}

/// Whether a door has left and softened so often.
fn has_done(counts: &Counts, leaves: usize, softens: usize) -> bool {
    counts.leaves.load(Ordering::SeqCst) == leaves
        && counts.softens.load(Ordering::SeqCst) == softens
}

fn new_counter(alloc: Global, mode: Mode) -> Option<Counter> {
    match new_counts(alloc) {
        Some(counts) => Some(door_with(first_ticket(mode), counts)),
        None => None,
    }
}

/// Whether the door leaves once on each path out of a guard's scope.
fn leaves_once_on_each_path(door: &mut Counter) -> bool {
    let held = Some(door.held);
    to_the_end(door);
    let end = has_done(&door.counts, 1, 0);
    let none = by_a_question_mark(door, None).is_none();
    let value = by_a_question_mark(door, Some(5)) == Some(5);
    let marks = none && value && has_done(&door.counts, 3, 0);
    let none = by_a_return(door, true).is_none();
    let same = by_a_return(door, false) == held;
    let returns = none && same && has_done(&door.counts, 5, 0);
    let entered = can_be_entered(door) && has_done(&door.counts, 6, 0);
    end && marks && returns && entered
}

/// Whether a door that may not enter never leaves, nor one whose guard is forgotten.
fn stays(door: &mut Counter) -> bool {
    door.may = false;
    to_the_end(door);
    let refused = !can_be_entered(door) && !door.within;
    door.may = true;
    mem::forget(EntryGuard::enter(door));
    refused && door.within && has_done(&door.counts, 0, 0)
}

/// What is counted of a door.
#[derive(Clone, Copy)]
enum Counted {
    LeavesOnce,
    Stays,
    SoftensOnce,
}

/// Whether what is counted of a door is so.
fn is_counted(alloc: Global, mode: Mode, counted: Counted) -> Option<bool> {
    match new_counter(alloc, mode) {
        Some(door) => {
            let mut door = door;
            Some(match counted {
                Counted::LeavesOnce => leaves_once_on_each_path(&mut door),
                Counted::Stays => stays(&mut door),
                Counted::SoftensOnce => softens_once(&mut door),
            })
        }
        None => None,
    }
}

/// An entry by an owned door that counts.
fn entered(alloc: Global, held: Ticket, counts: &Arc<Counts>) -> Option<OwnedEntry> {
    let counts = counts.clone().ok()?;
    let door: Box<dyn Door + Send> = Box::new(alloc, door_with(held, counts)).ok()?;
    match OwnedEntry::enter(door) {
        Ok(entry) => Some(entry),
        Err(_) => None,
    }
}

/// Whether an entry ends outside, spent or dropped; where it is spent, its door is a reader's.
fn ends_outside(entry: OwnedEntry, spent: bool) -> bool {
    if spent {
        let door = entry.leave();
        let reads = Some(first_ticket(Mode::Read));
        !door.inside() && door.ticket() == reads && !door.may_soften()
    } else {
        drop(entry);
        true
    }
}

/// Whether an owned door with these counts softens once where it is a writer's, and leaves once, where its
/// entry is spent or dropped; and is dropped then.
fn owned_door_counts(
    alloc: Global,
    counts: &Arc<Counts>,
    softens: bool,
    spent: bool,
) -> Option<bool> {
    let mode = if softens { Mode::Write } else { Mode::Read };
    match entered(alloc, first_ticket(mode), counts) {
        Some(entry) => {
            let mut entry = entry;
            let same = has_tickets(&mut entry, softens);
            let stays = has_done(counts, 0, usize::from(softens));
            let outside = ends_outside(entry, spent);
            let gone = Arc::strong_count(counts) == 1;
            let once = has_done(counts, 1, usize::from(softens));
            Some(same && stays && outside && gone && once)
        }
        None => None,
    }
}

/// The same of a door with new counts.
fn owned_door_leaves_once(alloc: Global, softens: bool, spent: bool) -> Option<bool> {
    match new_counts(alloc) {
        Some(counts) => owned_door_counts(alloc, &counts, softens, spent),
        None => None,
    }
}

#[test]
fn leaves_once(rt: HostRuntime) -> Outcome {
    check_answers(&[
        is_counted(rt.alloc(), Mode::Read, Counted::LeavesOnce),
        is_counted(rt.alloc(), Mode::Read, Counted::Stays),
        owned_door_leaves_once(rt.alloc(), false, true),
        owned_door_leaves_once(rt.alloc(), false, false),
    ])
}

/// Softens a guard that has entered as a writer; whether its ticket is then this one.
fn softens_guard<D: Door>(guard: &mut EntryGuard<'_, D>, reads: Ticket) -> bool {
    if guard.ticket().mode == Mode::Read {
        return false;
    }
    guard.soften();
    guard.ticket() == reads
}

/// Whether a door that is entered softens once, and its guard has the tickets before and after it.
fn softens_within<D: Door>(door: &mut D) -> bool {
    match EntryGuard::enter(door) {
        Some(guard) => {
            let mut guard = guard;
            let before = guard.ticket() == first_ticket(Mode::Write);
            before && softens_guard(&mut guard, first_ticket(Mode::Read))
        }
        None => false,
    }
}

/// Whether a core softens by its guard, and is idle behind the guard's scope, with its release to say.
fn is_softened(core: &mut ClientCore) -> bool {
    let softens = softens_within(core);
    let left = core.phase() == Phase::Idle && core.ticket().is_none();
    softens && left && says(core, node_id(3), "release n3 c1 1")
}

/// Softens a core by its guard, and forgets the guard.
fn softens_for_good(core: &mut ClientCore) -> bool {
    match EntryGuard::enter(core) {
        Some(guard) => {
            let mut guard = guard;
            let softens = softens_guard(&mut guard, first_ticket(Mode::Read));
            mem::forget(guard);
            softens
        }
        None => false,
    }
}

/// Whether a core whose guard is softened and forgotten is still inside, as a reader.
fn stays_softened(core: &mut ClientCore) -> bool {
    let softens = softens_for_good(core);
    let reads = core.ticket() == Some(first_ticket(Mode::Read));
    let inside = core.phase() == Phase::Inside && reads;
    let told = says(core, node_id(3), "soften n3 c1 1");
    softens && inside && told && !core.may_soften() && !core.may_enter()
}

/// Whether a door softens once by its guard, and leaves once when that is dropped.
fn softens_once(door: &mut Counter) -> bool {
    let outside = !door.may_soften();
    let softens = softens_within(door);
    outside && softens && !door.within && has_done(&door.counts, 1, 1)
}

#[test]
fn softens(rt: HostRuntime) -> Outcome {
    check_answers(&[
        is_so(Asker::Writing, Tried::Softened),
        is_so(Asker::Writing, Tried::StaysSoftened),
        is_counted(rt.alloc(), Mode::Write, Counted::SoftensOnce),
        owned_door_leaves_once(rt.alloc(), true, true),
        owned_door_leaves_once(rt.alloc(), true, false),
        owned_core_leaves(rt.alloc(), true),
    ])
}
