// What a node asks its index while it decides.

ghost use Rattle.std.specs.Prelude.{◌≡◌, ℕ, List, Option, slice_get};
ghost use Rattle.lock_model.specs.declared.entries.Entry.{Entry};
ghost use Rattle.lock_model.specs.ExactStations.{any_live, holds, writer_holds, writer_waits};
ghost use Rattle.stable_record.specs.Indexing.{IndexesWith, with_announced};
ghost use Rattle.stable_record.specs.Lines.{Indexes, clients_of, count_live, waits_for};

use crate::ResourceIndex;
use lock_messages::{ClientId, ResourceName};

/// The client at a place in a queue.
fn client_at(queue: &[ClientId], place: usize) -> Option<ClientId>
    ensures { result ≡ slice_get queue.now place }
{
    queue.get(place).copied()
}

impl ResourceIndex {
    /// Whether a ticket holds the resource. Who is announced doesn't; nor is it one of those that the
    /// next two tell of.
    pub fn has_holder(&self, resource: &ResourceName) -> bool
        ensures { (a : Option (ℕ × List ℕ)) (entries : List Entry) → IndexesWith a self.now entries → result ≡ any_live (holds resource.now) entries }
    {
        match self.line(resource) {
            None => false,
            Some(line) => line.holders() > 0,
        }
    }

    /// Whether a writer's ticket holds the resource.
    pub fn has_writing_holder(&self, resource: &ResourceName) -> bool
        ensures { (a : Option (ℕ × List ℕ)) (entries : List Entry) → IndexesWith a self.now entries → result ≡ any_live (writer_holds resource.now) entries }
    {
        match self.line(resource) {
            None => false,
            Some(line) => line.has_writing_holder(),
        }
    }

    /// Whether a writer's ticket waits for the resource.
    pub fn has_waiting_writer(&self, resource: &ResourceName) -> bool
        ensures { (a : Option (ℕ × List ℕ)) (entries : List Entry) → IndexesWith a self.now entries → result ≡ any_live (writer_waits resource.now) entries }
    {
        match self.line(resource) {
            None => false,
            Some(line) => line.waiting_writers() > 0,
        }
    }

    /// How many tickets wait for the resource, while no client is announced for it.
    pub fn waiting_count(&self, resource: &ResourceName) -> usize
        ensures { (entries : List Entry) → Indexes self.now entries → result ≡ count_live (waits_for resource.now) entries }
    {
        match self.line(resource) {
            None => 0,
            Some(line) => line.waiting().len(),
        }
    }

    /// The client whose ticket waits for the resource at a place, counted from 0 in the order of the
    /// entries. Who is announced for it stands behind the last; behind that is none.
    pub fn waiting_at(&self, resource: &ResourceName, place: usize) -> Option<ClientId>
        ensures { (a : Option (ℕ × List ℕ)) (entries : List Entry) → IndexesWith a self.now entries → result ≡ slice_get (clients_of (waits_for resource.now) (with_announced a entries)) place }
    {
        client_at(self.line(resource)?.waiting(), place)
    }
}
