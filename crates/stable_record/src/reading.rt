// Reading a node's record, field by field from the front.

ghost use Rattle.std.specs.Prelude.{◌≡◌, ◌≢◌, ◌⊎◌, ◌≤◌, [], IfOk, Ok, Err};
ghost use Rattle.std.specs.Int.{w32, w64};
ghost use Rattle.lock_messages.specs.Fields.{Gives, number_at, mode_at, name_at};
ghost use Rattle.lock_model.specs.declared.entries.Entry.{Entry};
ghost use Rattle.stable_record.specs.declared.node_records.NodeRecord.{NodeRecord};
ghost use Rattle.stable_record.specs.Records.{IsNodeRecord, node_record_of};
ghost use Rattle.stable_record.specs.Reading.{GivesOr, LeavesOr, IsOrRefused, AreGood, IsGoodSoFar, version_at, problem_at, count_at, client_at, floor_at, state_at, attempt_at, goes_with, ticket_mode_at, length_at, ticket_at, live_at, entry_at, entries_at, head_at, record_at, judged, reading};

use crate::formats::VERSION;
use crate::{Entries, Entry, Live, NodeRecord, RecordFault, ResourceIndex, Status};
use lock_messages::{
    Attempt, ClientId, MAX_ATTEMPT, MAX_CLIENTS, MAX_NAME_LEN, Mode, ResourceName, has_name_bytes,
};
use lock_model::Problem;
use std::alloc::Global;

/// Whether a ticket of this status may have this mode: a softened one is a reader's.
fn goes_with(status: Status, mode: Mode) -> bool
    ensures { result ≡ goes_with status mode }
{
    match status {
        Status::Waiting | Status::Holding => true,
        Status::Softened => mode != Mode::Write,
    }
}

/// The bytes that aren't read yet. Each method reads what these begin with; after a fault they are
/// of no use.
#[derive(Drop)]
struct Unread<'a> {
    bytes: &'a [u8],
}

impl Unread<'_> {
    fn version(&mut self) -> Result<u8, RecordFault>
        ensures { Gives result self.new.bytes.now (version_at self.old.bytes.now) }
    {
        let [byte, rest @ ..] = self.bytes else {
            return Err(RecordFault::Short);
        };
        if *byte != VERSION {
            return Err(RecordFault::Version);
        }
        self.bytes = rest;
        Ok(*byte)
    }

    fn problem(&mut self) -> Result<Problem, RecordFault>
        ensures { Gives result self.new.bytes.now (problem_at self.old.bytes.now) }
    {
        let [byte, rest @ ..] = self.bytes else {
            return Err(RecordFault::Short);
        };
        self.bytes = rest;
        match *byte {
            1 => Ok(Problem::First),
            2 => Ok(Problem::Second),
            _ => Err(RecordFault::Policy),
        }
    }

    fn count(&mut self) -> Result<u16, RecordFault>
        ensures { Gives result self.new.bytes.now (count_at self.old.bytes.now) }
    {
        let Some((field, rest)) = self.bytes.split_first_chunk::<2>() else {
            return Err(RecordFault::Short);
        };
        let count = u16::from_be_bytes(*field);
        if count as u32 > MAX_CLIENTS {
            return Err(RecordFault::EntryField);
        }
        self.bytes = rest;
        Ok(count)
    }

    fn client_number(&mut self) -> Result<ClientId, RecordFault>
        ensures { Gives result self.new.bytes.now (number_at w32 1 MAX_CLIENTS RecordFault.Short RecordFault.EntryField self.old.bytes.now) }
    {
        let Some((field, rest)) = self.bytes.split_first_chunk::<4>() else {
            return Err(RecordFault::Short);
        };
        self.bytes = rest;
        ClientId::of(u32::from_be_bytes(*field)).ok_or(RecordFault::EntryField)
    }

    fn client(&mut self, seen: &Entries) -> Result<ClientId, RecordFault>
        ensures { Gives result self.new.bytes.now (client_at seen.now self.old.bytes.now) }
    {
        let client = self.client_number()?;
        if seen.knows(client) {
            return Err(RecordFault::ClientTwice);
        }
        Ok(client)
    }

    fn floor(&mut self) -> Result<u64, RecordFault>
        ensures { Gives result self.new.bytes.now (floor_at self.old.bytes.now) }
    {
        let Some((field, rest)) = self.bytes.split_first_chunk::<8>() else {
            return Err(RecordFault::Short);
        };
        let floor = u64::from_be_bytes(*field);
        if floor > MAX_ATTEMPT {
            return Err(RecordFault::EntryField);
        }
        self.bytes = rest;
        Ok(floor)
    }

    fn state(&mut self) -> Result<Option<Status>, RecordFault>
        ensures { Gives result self.new.bytes.now (state_at self.old.bytes.now) }
    {
        let [byte, rest @ ..] = self.bytes else {
            return Err(RecordFault::Short);
        };
        self.bytes = rest;
        match *byte {
            0 => Ok(None),
            1 => Ok(Some(Status::Waiting)),
            2 => Ok(Some(Status::Holding)),
            3 => Ok(Some(Status::Softened)),
            _ => Err(RecordFault::EntryField),
        }
    }

    fn attempt_number(&mut self) -> Result<Attempt, RecordFault>
        ensures { Gives result self.new.bytes.now (number_at w64 1 MAX_ATTEMPT RecordFault.Short RecordFault.EntryField self.old.bytes.now) }
    {
        let Some((field, rest)) = self.bytes.split_first_chunk::<8>() else {
            return Err(RecordFault::Short);
        };
        self.bytes = rest;
        Attempt::of(u64::from_be_bytes(*field)).ok_or(RecordFault::EntryField)
    }

    fn attempt(&mut self, floor: u64) -> Result<Attempt, RecordFault>
        requires { floor ≤ MAX_ATTEMPT }
        ensures { Gives result self.new.bytes.now (attempt_at floor self.old.bytes.now) }
    {
        let attempt = self.attempt_number()?;
        if attempt.get() != floor + 1 {
            return Err(RecordFault::AttemptNotNext);
        }
        Ok(attempt)
    }

    fn mode(&mut self) -> Result<Mode, RecordFault>
        ensures { Gives result self.new.bytes.now (mode_at RecordFault.Short RecordFault.EntryField self.old.bytes.now) }
    {
        let [byte, rest @ ..] = self.bytes else {
            return Err(RecordFault::Short);
        };
        self.bytes = rest;
        match *byte {
            0 => Ok(Mode::Read),
            1 => Ok(Mode::Write),
            _ => Err(RecordFault::EntryField),
        }
    }

    fn ticket_mode(&mut self, status: Status) -> Result<Mode, RecordFault>
        ensures { Gives result self.new.bytes.now (ticket_mode_at status self.old.bytes.now) }
    {
        let mode = self.mode()?;
        if !goes_with(status, mode) {
            return Err(RecordFault::EntryField);
        }
        Ok(mode)
    }

    fn name_len(&mut self) -> Result<usize, RecordFault>
        ensures { Gives result self.new.bytes.now (length_at self.old.bytes.now) }
    {
        let [byte, rest @ ..] = self.bytes else {
            return Err(RecordFault::Short);
        };
        let size = *byte as usize;
        if size == 0 || size > MAX_NAME_LEN {
            return Err(RecordFault::EntryField);
        }
        self.bytes = rest;
        Ok(size)
    }

    fn name(&mut self, size: usize) -> Result<ResourceName, RecordFault>
        requires { (1 ≤ size) × (size ≤ MAX_NAME_LEN) }
        ensures { Gives result self.new.bytes.now (name_at RecordFault.Short RecordFault.EntryField size self.old.bytes.now) }
    {
        let Some((name, rest)) = self.bytes.split_at_checked(size) else {
            // A wrong byte stands before a missing one.
            return Err(if has_name_bytes(self.bytes) {
                RecordFault::Short
            } else {
                RecordFault::EntryField
            });
        };
        self.bytes = rest;
        ResourceName::of(name).ok_or(RecordFault::EntryField)
    }

    #[tactic(auto, unfolding(crate::specs::Reading::ticket_at))]
    fn ticket(&mut self, floor: u64, status: Status) -> Result<Live, RecordFault>
        requires { floor ≤ MAX_ATTEMPT }
        ensures { Gives result self.new.bytes.now (ticket_at floor status self.old.bytes.now) }
    {
        let attempt = self.attempt(floor)?;
        let mode = self.ticket_mode(status)?;
        let size = self.name_len()?;
        let resource = self.name(size)?;
        Ok(Live {
            attempt,
            mode,
            resource,
            status,
        })
    }

    fn live(&mut self, floor: u64, state: Option<Status>) -> Result<Option<Live>, RecordFault>
        requires { floor ≤ MAX_ATTEMPT }
        ensures { Gives result self.new.bytes.now (live_at floor state self.old.bytes.now) }
    {
        match state {
            None => Ok(None),
            Some(status) => Ok(Some(self.ticket(floor, status)?)),
        }
    }

    #[tactic(auto, unfolding(crate::specs::Reading::entry_at))]
    fn entry(&mut self, seen: &Entries) -> Result<Entry, RecordFault>
        ensures { Gives result self.new.bytes.now (entry_at seen.now self.old.bytes.now) }
    {
        let client = self.client(seen)?;
        let floor = self.floor()?;
        let state = self.state()?;
        let live = self.live(floor, state)?;
        Ok(Entry {
            client,
            floor,
            live,
        })
    }

    /// One more entry, behind those that were read before.
    fn next_entry(&mut self, entries: &mut Entries) -> Result<(), RecordFault>
        ensures { LeavesOr result (entries.new, self.new.bytes.now) (entries_at 1 entries.old self.old.bytes.now) }
    {
        let Entry {
            client,
            floor,
            live,
        } = self.entry(entries)?;
        match entries.put_last(Entry {
            client,
            floor,
            live,
        }) {
            Ok(()) => Ok(()),
            Err(_) => Err(RecordFault::NoMemory),
        }
    }

    fn entries(&mut self, alloc: Global, count: u16) -> Result<Entries, RecordFault>
        ensures { GivesOr (AreGood count self.old.bytes.now) result self.new.bytes.now (entries_at count [] self.old.bytes.now) }
    {
        let mut entries = Entries::new(alloc);
        for _ in 0..count {
            self.next_entry(&mut entries)?;
        }
        Ok(entries)
    }

    #[tactic(auto, unfolding(crate::specs::Reading::head_at))]
    fn head(&mut self) -> Result<(Problem, u16), RecordFault>
        ensures { Gives result self.new.bytes.now (head_at self.old.bytes.now) }
    {
        self.version()?;
        let problem = self.problem()?;
        let count = self.count()?;
        Ok((problem, count))
    }

    #[tactic(auto, unfolding(crate::specs::Reading::record_at))]
    fn record(&mut self, alloc: Global) -> Result<NodeRecord, RecordFault>
        ensures { GivesOr (IsGoodSoFar self.old.bytes.now) result self.new.bytes.now (record_at self.old.bytes.now) }
    {
        let (problem, count) = self.head()?;
        let entries = self.entries(alloc, count)?;
        Ok(NodeRecord { problem, entries })
    }
}

/// The record, where its writers that hold are alone and its tickets that wait have a cause; they are
/// judged by its index.
fn judge(alloc: Global, node: NodeRecord) -> Result<NodeRecord, RecordFault>
    ensures { IsOrRefused (node.entries ≢ []) result (judged (node, [])) }
{
    let index = match ResourceIndex::of(alloc, &node) {
        Ok(index) => index,
        Err(_) => return Err(RecordFault::NoMemory),
    };
    if !node.entries.is_lawful_by(&index) {
        return Err(RecordFault::WriterNotAlone);
    }
    if !node.entries.is_caused_by(&index, node.problem) {
        return Err(RecordFault::NoCause);
    }
    Ok(node)
}

#[tactic(auto, unfolding(crate::specs::Reading::reading))]
fn whole(alloc: Global, bytes: &[u8]) -> Result<NodeRecord, RecordFault>
    ensures { IsOrRefused (IsGoodSoFar bytes.now) result (reading bytes.now) }
{
    let mut unread = Unread { bytes };
    let record = unread.record(alloc)?;
    if !unread.bytes.is_empty() {
        return Err(RecordFault::Trailing);
    }
    judge(alloc, record)
}

/// The node record that the bytes spell, all of the bytes.
///
/// Else the fault of the first field from the front that isn't wholly there (311) or whose value is
/// wrong: the version (312), the problem (313), the number of entries and an entry's fields (314; the
/// mode of a softened ticket is `Read`, and judged at the mode), a client that an earlier entry has
/// (315, at the client's field), an attempt that isn't one above the floor (316, behind the attempt's
/// own range). Behind the last entry it is bytes that follow (319), a writer that holds beside another
/// holder (317), a ticket that waits without a cause (318). Memory refused (320) is answered only where
/// nothing before the refused growth was at fault; the last growth is that of the index by which 317
/// and 318 are judged. The layout and its faults are our own.
pub fn read_node(alloc: Global, bytes: &[u8]) -> Result<NodeRecord, RecordFault>
    // What is read is spelled so, and is lawful and caused.
    ensures found { IfOk result (λ r. IsNodeRecord r × (bytes.now ≡ node_record_of r)) }
    // What is spelled so is read, unless memory is refused.
    ensures only { (r : NodeRecord) → IsNodeRecord r → bytes.now ≡ node_record_of r → (result ≡ Err RecordFault.NoMemory) ⊎ (result ≡ Ok r) }
    // Which fault it is. Memory is refused only behind an entry without fault.
    ensures exact { IsOrRefused (IsGoodSoFar bytes.now) result (reading bytes.now) }
{
    lock_messages::laws::fields_are_exact::<RecordFault>();
    lock_model::laws::judgement_is_exact();
    whole(alloc, bytes)
}
