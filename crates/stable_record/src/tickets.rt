// What the ticket of an entry does.

ghost use Rattle.std.specs.Prelude.{◌≡◌, ◌&&◌};
ghost use Rattle.lock_model.specs.ExactStations.{is_write, is_holding, if_live, holds, writer_holds, writer_waits};

use crate::{Entry, Live};
use lock_messages::{Mode, ResourceName};

/// Whether the ticket is a writer's that holds.
pub(crate) fn is_writing(live: &Live) -> bool
    ensures { result ≡ (is_write live.now.mode && is_holding live.now.status) }
{
    match live.mode {
        Mode::Read => false,
        Mode::Write => !live.waits(),
    }
}

/// Whether the entry's ticket holds the resource.
pub(crate) fn holds(entry: &Entry, resource: &ResourceName) -> bool
    ensures { result ≡ if_live (holds resource.now) entry.now.live }
{
    entry.live.is_some_and(|live| live.holds(resource))
}

/// Whether the entry's ticket is a writer's that holds the resource.
pub(crate) fn writer_holds(entry: &Entry, resource: &ResourceName) -> bool
    ensures { result ≡ if_live (writer_holds resource.now) entry.now.live }
{
    entry.live.is_some_and(|live| live.writer_holds(resource))
}

/// Whether the entry's ticket is a writer's that waits for the resource.
pub(crate) fn writer_waits(entry: &Entry, resource: &ResourceName) -> bool
    ensures { result ≡ if_live (writer_waits resource.now) entry.now.live }
{
    entry.live.is_some_and(|live| live.writer_waits(resource))
}
