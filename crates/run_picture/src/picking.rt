// What is drawn of a history: some of its lines, and what concerns a resource.

ghost use Rattle.std.specs.Prelude.{◌≡◌, ◌++◌, IfOk, OnOk};
ghost use Rattle.run_picture.specs.Pictures.{wants, wants_lasting, wants_all, in_window, is_among, others, turning};

use crate::asking::same_actor;
use crate::{Lasting, Part};
use lock_messages::{Actor, ResourceName};
use std::alloc::{AllocError, Global};

/// Whether the resource is drawn.
pub(crate) fn wants(part: &Part, resource: &ResourceName) -> bool
    ensures { result ≡ wants part.now resource.now }
{
    match &part.resource {
        None => true,
        Some(wanted) => wanted.bytes() == resource.bytes(),
    }
}

/// Whether each resource is drawn.
pub(crate) fn wants_all(part: &Part) -> bool
    ensures { result ≡ wants_all part.now.resource }
{
    part.resource.is_none()
}

/// Whether it is drawn.
pub(crate) fn wants_lasting(part: &Part, what: &Lasting) -> bool
    ensures { result ≡ wants_lasting part.now what.now }
{
    match what {
        Lasting::Down(_) => true,
        Lasting::Inside(ticket) => wants(part, &ticket.resource),
        Lasting::Holding(_, ticket) => wants(part, &ticket.resource),
    }
}

/// Whether the line is one of those that are drawn.
pub(crate) fn in_window(part: &Part, line: u32) -> bool
    ensures { result ≡ in_window part.now line }
{
    part.first <= line && line <= part.last
}

/// Whether the actor is among these.
pub(crate) fn is_among(actors: &[Actor], who: &Actor) -> bool
    ensures { result ≡ is_among actors.now who.now }
{
    actors.iter().any(|other| same_actor(who, other))
}

/// The others of these.
fn add_others(found: &mut Vec<Actor>, actors: &[Actor], who: &Actor) -> Result<(), AllocError>
    ensures { OnOk result (found.new.items ≡ found.old.items ++ others who.now actors.now) }
{
    for other in actors {
        if !same_actor(who, other) {
            found.push(*other)?;
        }
    }
    Ok(())
}

/// The actors that are about the resource, where this one is now, or isn't.
pub(crate) fn turning(
    alloc: Global,
    actors: &[Actor],
    who: &Actor,
    is_about: bool,
) -> Result<Vec<Actor>, AllocError>
    ensures { IfOk result (λ v. v.items ≡ turning who.now is_about actors.now) }
{
    let mut found = Vec::new(alloc);
    if is_about {
        found.push(*who)?;
    }
    add_others(&mut found, actors, who)?;
    Ok(found)
}
