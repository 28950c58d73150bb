// A node's tickets by resource.

ghost use Rattle.std.specs.Prelude.{◌≡◌, ◌≢◌, ◌<◌, [], ◌∷◌, ◌++◌, ℕ, length, List, Option, None, Some, IfOk, OnOk, OnErr, IsOkUnless};
ghost use Rattle.std.specs.Option.{option_copied, option_map};
ghost use Rattle.lock_messages.specs.declared.ids.TheConstants.{MAX_CLIENTS};
ghost use Rattle.lock_model.specs.declared.entries.Entry.{Entry};
ghost use Rattle.lock_model.specs.declared.entries.Live.{Live};
ghost use Rattle.lock_model.specs.ExactDecisions.{moved_last};
ghost use Rattle.stable_record.specs.EntryLists.{replaced};
ghost use Rattle.stable_record.specs.Indexing.{AreCounted, announced_ticket, HasNoTicket, IndexesWith, IsEntryAmong, Puts, unless_empty, with_confirmed, with_holding, with_promoted, with_softened, with_softened_holder, without_last, without_live, without_ticket};
ghost use Rattle.stable_record.specs.Lines.{line_in, or_none, Joins, Indexes, AreFew};

use crate::lines::Line;
use crate::{Entry, Live, NodeRecord, RecordFault};
use lock_messages::{ClientId, ResourceName};
use std::alloc::{AllocError, Global};
use std::collections::BTreeMap;
use std::marker::Model;

// The standard ordered map: a look-up costs the logarithm of the number of lines whatever the names
// are, and its iteration goes by the names. A hash map's has no order, and `indexmap` keeps that of
// insertion.
type Lines = BTreeMap<ResourceName, Line>;

/// The tickets of a node's entries by resource, in the order of the resources' names. A resource for
/// which no live ticket is has no line. A look-up takes time of the logarithm of the number of lines.
#[derive(Debug, Drop)]
pub struct ResourceIndex {
    map: Lines,
}

impl Model for ResourceIndex {
    ghost use Rattle.std.specs.Prelude.{ℕ, List};
    ghost use Rattle.stable_record.specs.Lines.{Tickets};

    ghost Value = { List (List ℕ × Tickets) };

    ghost view = { λ s. s.map.entries };
}

/// Adds a ticket of a resource that has no line. Where memory is refused nothing has changed.
fn open_line(
    lines: &mut Lines,
    alloc: Global,
    client: ClientId,
    live: &Live,
) -> Result<(), AllocError>
    requires { line_in lines.old.entries live.now.resource ≡ None }
    ensures joined { OnOk result (Joins client live.now lines.old.entries lines.new.entries) }
    ensures refused { OnErr result (lines.new.entries ≡ lines.old.entries) }
{
    let mut line = Line::new(alloc);
    line.join(client, live)?;
    match lines.insert(live.resource, line) {
        Ok(_) => Ok(()),
        Err(_) => Err(AllocError),
    }
}

/// Adds a ticket. Where memory is refused nothing has changed.
fn join(lines: &mut Lines, alloc: Global, client: ClientId, live: &Live) -> Result<(), AllocError>
    requires { AreFew (or_none (line_in lines.old.entries live.now.resource)) }
    ensures joined { OnOk result (Joins client live.now lines.old.entries lines.new.entries) }
    ensures refused { OnErr result (lines.new.entries ≡ lines.old.entries) }
{
    match lines.get_mut(&live.resource) {
        Some(line) => line.join(client, live),
        None => open_line(lines, alloc, client, live),
    }
}

/// Adds a line for a resource that has none, with a client that is announced. Where memory is refused
/// nothing has changed.
fn open_announced(
    lines: &mut Lines,
    alloc: Global,
    client: ClientId,
    resource: &ResourceName,
) -> Result<(), AllocError>
    requires { line_in lines.old.entries resource.now ≡ None }
    ensures announced { OnOk result (Joins client (announced_ticket resource.now) lines.old.entries lines.new.entries) }
    ensures refused { OnErr result (lines.new.entries ≡ lines.old.entries) }
{
    let mut line = Line::new(alloc);
    line.announce(client)?;
    match lines.insert(*resource, line) {
        Ok(_) => Ok(()),
        Err(_) => Err(AllocError),
    }
}

/// Announces a client for a resource. Where memory is refused nothing has changed.
fn announce(
    lines: &mut Lines,
    alloc: Global,
    client: ClientId,
    resource: &ResourceName,
) -> Result<(), AllocError>
    ensures announced { OnOk result (Joins client (announced_ticket resource.now) lines.old.entries lines.new.entries) }
    ensures refused { OnErr result (lines.new.entries ≡ lines.old.entries) }
{
    match lines.get_mut(resource) {
        Some(line) => line.announce(client),
        None => open_announced(lines, alloc, client, resource),
    }
}

/// Takes the last that waits from a resource's line.
fn withdraw(lines: &mut Lines, resource: &ResourceName)
    ensures { Puts resource.now (option_map without_last (line_in lines.old.entries resource.now)) lines.old.entries lines.new.entries }
{
    if let Some(line) = lines.get_mut(resource) {
        line.withdraw();
    }
}

/// Takes a client's ticket from its resource's line.
fn end(lines: &mut Lines, client: ClientId, live: &Live)
    ensures { Puts live.now.resource (option_map (without_ticket client live.now) (line_in lines.old.entries live.now.resource)) lines.old.entries lines.new.entries }
{
    if let Some(line) = lines.get_mut(&live.resource) {
        line.end(client, live);
    }
}

/// Makes a client's ticket hold, if it waits.
fn promote(lines: &mut Lines, client: ClientId, live: &Live)
    ensures { AreCounted (or_none (line_in lines.old.entries live.now.resource)) → Puts live.now.resource (option_map (with_promoted client live.now) (line_in lines.old.entries live.now.resource)) lines.old.entries lines.new.entries }
{
    if let Some(line) = lines.get_mut(&live.resource) {
        line.promote(client, live);
    }
}

/// Makes a ticket a reader's, if it is a writer's that holds.
fn soften(lines: &mut Lines, live: &Live)
    ensures { Puts live.now.resource (option_map (with_softened_holder live.now) (line_in lines.old.entries live.now.resource)) lines.old.entries lines.new.entries }
{
    if let Some(line) = lines.get_mut(&live.resource) {
        line.soften(live);
    }
}

/// Puts in the ticket of the client that was announced last for its resource.
fn confirm(lines: &mut Lines, live: &Live)
    ensures { AreCounted (or_none (line_in lines.old.entries live.now.resource)) → Puts live.now.resource (option_map (with_confirmed live.now) (line_in lines.old.entries live.now.resource)) lines.old.entries lines.new.entries }
{
    if let Some(line) = lines.get_mut(&live.resource) {
        line.confirm(live);
    }
}

/// Takes a resource's line away, where it has no tickets.
fn drop_empty(lines: &mut Lines, resource: &ResourceName)
    ensures { Puts resource.now (unless_empty (line_in lines.old.entries resource.now)) lines.old.entries lines.new.entries }
{
    let Some(line) = lines.get(resource) else {
        return;
    };
    if line.is_empty() {
        lines.remove(resource);
    }
}

impl ResourceIndex {
    /// The index of no entries. It takes no memory.
    pub(crate) fn empty(alloc: Global) -> ResourceIndex
        ensures { result ≡ [] }
    {
        ResourceIndex {
            map: BTreeMap::new(alloc),
        }
    }

    /// Adds an entry behind those that are indexed.
    fn add(&mut self, alloc: Global, entry: &Entry) -> Result<(), AllocError>
        requires { (entries : List Entry) × Indexes self.old entries × (length entries < MAX_CLIENTS) }
        ensures { OnOk result ((entries : List Entry) → Indexes self.old entries → Indexes self.new (entries ++ entry.now ∷ [])) }
    {
        match &entry.live {
            None => Ok(()),
            Some(live) => join(&mut self.map, alloc, entry.client, live),
        }
    }

    /// The index of a record's entries: each resource that has a live ticket has a line, with its
    /// tickets, and no other has one. The only fault is that memory was refused (320).
    pub fn of(alloc: Global, node: &NodeRecord) -> Result<ResourceIndex, RecordFault>
        ensures lines { IfOk result (λ index. Indexes index node.now.entries) }
        ensures memory { IsOkUnless result RecordFault.NoMemory }
        // Without entries no memory is asked for.
        ensures some { OnErr result (node.now.entries ≢ []) }
    {
        let mut index = ResourceIndex::empty(alloc);
        for place in 0..node.entries.len() {
            let entry = node.entries.at(place);
            match index.add(alloc, &entry) {
                Ok(()) => {}
                Err(_) => return Err(RecordFault::NoMemory),
            }
        }
        Ok(index)
    }

    /// What is known of a resource; `None` exactly where no live ticket is for it.
    #[tactic(auto, using(crate::proofs::LineFacts::line_facts))]
    pub fn line(&self, resource: &ResourceName) -> Option<&Line>
        ensures { option_copied result ≡ line_in self.now resource.now }
    {
        self.map.get(resource)
    }

    /// Announces a client for a resource, before a message of it is decided: the memory that its
    /// ticket will need is asked for here. Until the client is confirmed or withdrawn it waits
    /// uncounted behind the others of the resource. The only error is want of memory, and then
    /// nothing has changed.
    pub fn announce(
        &mut self,
        alloc: Global,
        client: ClientId,
        resource: &ResourceName,
    ) -> Result<(), AllocError>
        ensures announced { OnOk result ((entries : List Entry) → Indexes self.old entries → IndexesWith (Some (client, resource.now)) self.new entries) }
        ensures unchanged { OnErr result (self.new ≡ self.old) }
    {
        announce(&mut self.map, alloc, client, resource)
    }

    /// Takes an announcement for this resource back. It takes no memory.
    pub fn withdraw(&mut self, resource: &ResourceName)
        ensures { (client : ℕ) (entries : List Entry) → IndexesWith (Some (client, resource.now)) self.old entries → Indexes self.new entries }
    {
        withdraw(&mut self.map, resource);
        drop_empty(&mut self.map, resource);
    }

    /// Takes away the live ticket of a client, if it has one; `entry` is its entry before. It takes no
    /// memory.
    pub fn end(&mut self, entry: &Entry)
        ensures { (a : Option (ℕ × List ℕ)) (entries : List Entry) (floor : ℕ) → IsEntryAmong entry.now entries → IndexesWith a self.old entries → IndexesWith a self.new (replaced (without_live floor entry.now) entries) }
    {
        if let Some(live) = &entry.live {
            end(&mut self.map, entry.client, live);
            drop_empty(&mut self.map, &live.resource);
        }
    }

    /// Softens the live ticket of a client, if it is a writer's that holds: from now on it is a reader's
    /// that does. Any other ticket stays as it is. `entry` is the client's entry before. It takes no
    /// memory. That a writer can become a reader without leaving is our own.
    pub fn soften(&mut self, entry: &Entry)
        ensures { (a : Option (ℕ × List ℕ)) (entries : List Entry) → IsEntryAmong entry.now entries → IndexesWith a self.old entries → IndexesWith a self.new (replaced (with_softened entry.now) entries) }
    {
        if let Some(live) = &entry.live {
            soften(&mut self.map, live);
        }
    }

    /// Makes the live ticket of a client hold, if it has one; `entry` is its entry before. It takes no
    /// memory.
    pub fn promote(&mut self, entry: &Entry)
        ensures { (a : Option (ℕ × List ℕ)) (entries : List Entry) → IsEntryAmong entry.now entries → IndexesWith a self.old entries → IndexesWith a self.new (replaced (with_holding entry.now) entries) }
    {
        if let Some(live) = &entry.live {
            promote(&mut self.map, entry.client, live);
        }
    }

    /// Puts in the live ticket of the client that is announced; `entry` is its entry after, which goes
    /// behind the others. It takes no memory.
    pub fn confirm(&mut self, entry: &Entry)
        ensures { (live : Live) (entries : List Entry) → entry.now.live ≡ Some live → HasNoTicket entry.now.client entries → IndexesWith (Some (entry.now.client, live.resource)) self.old entries → Indexes self.new (moved_last entry.now entries) }
    {
        if let Some(live) = &entry.live {
            confirm(&mut self.map, live);
        }
    }
}
