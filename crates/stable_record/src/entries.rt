// Entries in the order of arrival, each client once.

ghost use Rattle.std.specs.Prelude.{◌≡◌, ◌==◌, ◌||◌, ◌<◌, ◌≤◌, ◌↔◌, ◌++◌, ◌∷◌, [], length, true, false, Some, not, is_ok, is_some, IsOk, IfOk, IfSome, IsTrue, ◌&&◌, slice_get, position, if◌then◌else◌};
ghost use Rattle.std.specs.List.{list_any, list_all};
ghost use Rattle.lock_messages.specs.declared.ids.TheConstants.{MAX_CLIENTS};
ghost use Rattle.lock_messages.specs.declared.tickets.Mode.{Mode};
ghost use Rattle.lock_model.specs.ExactStations.{is_of, knows, entry_of, EachOnce, if_live, any_live, holds, writer_holds, writer_waits, admits};
ghost use Rattle.lock_model.specs.ExactDecisions.{moved_last};
ghost use Rattle.stable_record.specs.EntryLists.{AreEntries, IsPlaceOf, replaced};
ghost use Rattle.stable_record.specs.Lines.{Indexes, waits_by_line, alone_by_line};
ghost use Rattle.lock_model.specs.Judgement.{is_only_holder, leaves_alone, is_lawful, has_cause, is_caused};

use crate::places::Places;
use crate::tickets::{holds, is_writing, writer_holds, writer_waits};
use crate::{Entry, ResourceIndex, judging};
use lock_messages::{ClientId, Mode, ResourceName};
use lock_model::Problem;
use std::alloc::{AllocError, Global};
use std::marker::Model;

/// A node's entries, in the order in which tickets arrived, each client once. Contracts see them as
/// the list of entries.
///
/// Beside the list stands where each client's entry was put last. A look-up tries that place, and goes
/// over the list only where the entry isn't there, as of a client that has none.
#[derive(Debug, Drop)]
pub struct Entries {
    alloc: Global,
    list: Vec<Entry>,
    places: Places,
}

impl Model for Entries {
    ghost use Rattle.std.specs.Prelude.{List};
    ghost use Rattle.lock_model.specs.declared.entries.Entry.{Entry};
    ghost use Rattle.stable_record.specs.EntryLists.{AreEntries};

    ghost Value = { List Entry };

    ghost view = { λ s. s.list.items };

    ghost invariant = { λ s. AreEntries s.list.items };
}

/// A copy is the same entries. The only error is want of memory.
impl Clone for Entries {
    ghost use Rattle.std.specs.Prelude.{◌≡◌};

    ghost is_clone = { λ original copy. copy ≡ original };

    fn clone(&self) -> Result<Entries, AllocError> {
        Ok(Entries {
            alloc: self.alloc,
            list: Vec::from_slice(self.alloc, &self.list)?,
            places: self.places.copy(self.alloc)?,
        })
    }
}

fn any_holds(list: &[Entry], resource: &ResourceName) -> bool
    ensures { result ≡ any_live (holds resource.now) list.now }
{
    list.iter().any(|entry| holds(entry, resource))
}

fn any_writer_holds(list: &[Entry], resource: &ResourceName) -> bool
    ensures { result ≡ any_live (writer_holds resource.now) list.now }
{
    list.iter().any(|entry| writer_holds(entry, resource))
}

fn any_writer_waits(list: &[Entry], resource: &ResourceName) -> bool
    ensures { result ≡ any_live (writer_waits resource.now) list.now }
{
    list.iter().any(|entry| writer_waits(entry, resource))
}

fn admits(list: &[Entry], problem: Problem, mode: Mode, resource: &ResourceName) -> bool
    ensures { result ≡ admits problem mode resource.now list.now }
{
    match mode {
        Mode::Write => !any_holds(list, resource),
        Mode::Read => {
            problem.admits_reader(
                any_writer_holds(list, resource),
                any_writer_waits(list, resource),
            )
        }
    }
}

fn is_only_holder(list: &[Entry], client: ClientId, resource: &ResourceName) -> bool
    ensures { result ≡ is_only_holder list.now client resource.now }
{
    list.iter()
        .all(|entry| entry.client == client || !holds(entry, resource))
}

fn leaves_alone(list: &[Entry], entry: &Entry) -> bool
    ensures { result ≡ leaves_alone list.now entry.now.client entry.now.live }
{
    match entry.live {
        None => true,
        Some(live) => !is_writing(&live) || is_only_holder(list, entry.client, &live.resource),
    }
}

fn is_lawful(list: &[Entry]) -> bool
    ensures { result ≡ is_lawful list.now }
{
    list.iter().all(|entry| leaves_alone(list, entry))
}

fn has_cause(list: &[Entry], problem: Problem, entry: &Entry) -> bool
    ensures { result ≡ has_cause problem list.now entry.now.live }
{
    match entry.live {
        None => true,
        Some(live) => !live.waits() || !admits(list, problem, live.mode, &live.resource),
    }
}

fn is_caused(list: &[Entry], problem: Problem) -> bool
    ensures { result ≡ is_caused problem list.now }
{
    list.iter().all(|entry| has_cause(list, problem, entry))
}

fn is_lawful_by(list: &[Entry], index: &ResourceIndex) -> bool
    ensures { result ≡ list_all (λ e. alone_by_line index.now e.live) list.now }
{
    list.iter().all(|entry| judging::leaves_alone(index, entry))
}

fn is_caused_by(list: &[Entry], index: &ResourceIndex, problem: Problem) -> bool
    ensures { result ≡ list_all (λ e. waits_by_line problem index.now e.live) list.now }
{
    list.iter()
        .all(|entry| judging::has_cause(index, problem, entry))
}

/// The first place of an entry of this client.
fn first_of(list: &[Entry], client: ClientId) -> Option<usize>
    ensures { result ≡ position (is_of client) list.now }
{
    list.iter().position(|entry| entry.client == client)
}

/// Where the client's entry is, counted from 0; `None` exactly where it has none. It goes over the entries
/// up to there.
fn scan(list: &[Entry], client: ClientId) -> Option<usize>
    ensures place { IfSome result (IsPlaceOf client list.now) }
    ensures known { is_some result ≡ knows client list.now }
{
    first_of(list, client)
}

impl Entries {
    /// No entries. It takes no memory until the first is pushed.
    pub fn new(alloc: Global) -> Entries
        ensures { result ≡ [] }
    {
        Entries {
            alloc,
            list: Vec::new(alloc),
            places: Places::new(alloc),
        }
    }

    /// How many entries there are: no more than there are clients.
    pub fn len(&self) -> usize
        ensures len { result ≡ length self.now }
        ensures few { result ≤ MAX_CLIENTS }
        ensures once { EachOnce self.now }
    {
        self.list.len()
    }

    /// Whether there are none.
    pub fn is_empty(&self) -> bool
        ensures { IsTrue result ↔ (self.now ≡ []) }
    {
        self.list.is_empty()
    }

    /// The entry at a place, counted from 0; `None` exactly where there is none.
    pub fn get(&self, place: usize) -> Option<Entry>
        ensures found { result ≡ slice_get self.now place }
        ensures once { EachOnce self.now }
    {
        self.list.get(place).copied()
    }

    /// Where the client's entry was put last, counted from 0, if it is there.
    fn noted(&self, client: ClientId) -> Option<usize>
        ensures { IfSome result (IsPlaceOf client self.now) }
    {
        let place = self.places.of(client)?;
        let entry = self.list.get(place)?;
        if entry.client == client {
            Some(place)
        } else {
            None
        }
    }

    /// Where the client's entry is, counted from 0; `None` exactly where it has none.
    fn place_of(&self, client: ClientId) -> Option<usize>
        ensures place { IfSome result (IsPlaceOf client self.now) }
        ensures known { is_some result ≡ knows client self.now }
        ensures entries { AreEntries self.now }
    {
        match self.noted(client) {
            Some(place) => Some(place),
            None => scan(&self.list, client),
        }
    }

    /// Whether the client has an entry. It takes one look-up, and of a client that has none one scan.
    pub fn knows(&self, client: ClientId) -> bool
        ensures { result ≡ knows client self.now }
    {
        self.place_of(client).is_some()
    }

    /// The client's entry, if it has one. It takes one look-up, and of a client that has none one scan.
    pub fn entry_of(&self, client: ClientId) -> Option<Entry>
        ensures found { result ≡ entry_of self.now client }
        ensures once { EachOnce self.now }
    {
        match self.place_of(client) {
            Some(place) => self.get(place),
            None => None,
        }
    }

    /// Puts an entry in the place of its client's; that of a client that has none is put nowhere. It
    /// takes no memory.
    pub fn replace(&mut self, entry: Entry)
        ensures { self.new ≡ replaced entry self.old }
    {
        if let Some(place) = self.place_of(entry.client) {
            self.list[place] = entry;
        }
    }

    /// Puts an entry behind the others, in place of its client's; that of a client that has none is
    /// put nowhere. It takes no memory.
    pub fn move_last(&mut self, entry: Entry)
        ensures { self.new ≡ (if knows entry.client self.old then moved_last entry self.old else self.old) }
    {
        if let Some(place) = self.place_of(entry.client) {
            self.list.remove(place);
            self.list.push_reserved(entry);
            self.places.note_from(place, &self.list);
        }
    }

    /// Puts an entry behind the others. Its client has none yet.
    pub(crate) fn put_last(&mut self, entry: Entry) -> Result<(), AllocError>
        requires { knows entry.client self.old ≡ false }
        ensures { self.new ≡ (if is_ok result then self.old ++ entry ∷ [] else self.old) }
    {
        let Entry {
            client,
            floor,
            live,
        } = entry;
        client.get();
        self.places.make_room(client)?;
        self.list.reserve(1)?;
        self.places.note(self.list.len(), client);
        self.list.push_reserved(Entry {
            client,
            floor,
            live,
        });
        Ok(())
    }

    /// The entry at a place where there is one.
    pub(crate) fn at(&self, place: usize) -> Entry
        requires { place < length self.now }
        ensures { slice_get self.now place ≡ Some result }
    {
        self.list[place]
    }

    /// Puts an entry behind the others, unless its client has one, and answers whether it did. The
    /// only error is want of memory, where it would have; then nothing has changed.
    pub fn push(&mut self, entry: Entry) -> Result<bool, AllocError>
        ensures answer { IfOk result (λ is_new. is_new ≡ not (knows entry.client self.old)) }
        ensures pushed { self.new ≡ (if is_ok result && not (knows entry.client self.old) then self.old ++ entry ∷ [] else self.old) }
        ensures memory { IsTrue (knows entry.client self.old) → IsOk result }
    {
        let Entry {
            client,
            floor,
            live,
        } = entry;
        if self.knows(client) {
            return Ok(false);
        }
        match self.put_last(Entry {
            client,
            floor,
            live,
        }) {
            Ok(()) => Ok(true),
            Err(fault) => Err(fault),
        }
    }

    /// Whether a ticket holds the resource, by one scan of the entries. It takes no memory, nor do
    /// the next two.
    pub fn has_holder(&self, resource: &ResourceName) -> bool
        ensures { result ≡ any_live (holds resource.now) self.now }
    {
        any_holds(&self.list, resource)
    }

    /// Whether a writer's ticket holds the resource.
    pub fn has_writing_holder(&self, resource: &ResourceName) -> bool
        ensures { result ≡ any_live (writer_holds resource.now) self.now }
    {
        any_writer_holds(&self.list, resource)
    }

    /// Whether a writer's ticket waits for the resource.
    pub fn has_waiting_writer(&self, resource: &ResourceName) -> bool
        ensures { result ≡ any_live (writer_waits resource.now) self.now }
    {
        any_writer_waits(&self.list, resource)
    }

    /// Whether a ticket in this mode for this resource is admitted among the entries. It takes no
    /// memory.
    pub fn admits(&self, problem: Problem, mode: Mode, resource: &ResourceName) -> bool
        ensures { result ≡ admits problem mode resource.now self.now }
    {
        admits(&self.list, problem, mode, resource)
    }

    pub(crate) fn is_lawful(&self) -> bool
        ensures test { result ≡ is_lawful self.now }
        ensures once { EachOnce self.now }
    {
        let _len = self.len();
        is_lawful(&self.list)
    }

    pub(crate) fn is_caused(&self, problem: Problem) -> bool
        ensures test { result ≡ is_caused problem self.now }
        ensures once { EachOnce self.now }
    {
        let _len = self.len();
        is_caused(&self.list, problem)
    }

    /// Whether the entries are lawful, by their index.
    pub(crate) fn is_lawful_by(&self, index: &ResourceIndex) -> bool
        requires { Indexes index.now self.now }
        ensures { result ≡ is_lawful self.now }
    {
        let _len = self.len();
        is_lawful_by(&self.list, index)
    }

    /// Whether the entries are caused, by their index.
    pub(crate) fn is_caused_by(&self, index: &ResourceIndex, problem: Problem) -> bool
        requires { Indexes index.now self.now }
        ensures { result ≡ is_caused problem self.now }
    {
        is_caused_by(&self.list, index, problem)
    }
}
