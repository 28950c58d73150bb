// What is looked at in a world, in the rows of scripts.

use crate::rows::{Note, Who};
use lock_messages::{Actor, Mode, Ticket};
use test_outcomes::{Failure, Outcome, check, node_id};
use test_support::{client, first_ticket, node, resource};
use world_machine::World;

/// The clients of tickets, each a client's first and for `a`, with their modes.
type Holders = &'static [(u32, Mode)];

/// What is so in a world.
#[derive(Clone, Copy)]
pub(crate) enum Sight {
    /// The message of this number is this one.
    Sent(u32, Note),
    /// There is a message of this number.
    IsSent(u32),
    /// There is none.
    Unsent(u32),
    /// The actor has kept these bytes.
    Keeps(Who, &'static [u8]),
    /// Just these are inside the resource of this name, in their order.
    Inside(&'static [u8], Holders),
    /// Just these hold it at the node.
    Holding(u8, &'static [u8], Holders),
    /// Just these wait for it at the node.
    Waiting(u8, &'static [u8], Holders),
    /// So many hold `a` at n1.
    HoldingSo(usize),
    /// The client is inside `a`, with its first ticket, in this mode.
    IsInside(u32, Mode),
    /// The client is inside nothing.
    IsOutside(u32),
    /// There is no such actor.
    IsUnknown(Who),
}

fn is(found: &Ticket, number: u32, mode: Mode) -> bool {
    match first_ticket(number, mode) {
        Ok(wanted) => wanted == *found,
        Err(_) => false,
    }
}

/// Whether the tickets are just these.
fn are(tickets: &[Ticket], holders: Holders) -> bool {
    let mut same = tickets.len() == holders.len();
    for (found, (number, mode)) in tickets.iter().zip(holders) {
        same &= is(found, *number, *mode);
    }
    same
}

pub(crate) fn keeps(world: &World, who: &Actor, bytes: &[u8]) -> Result<bool, Failure> {
    match world.kept_bytes(*who) {
        Ok(kept) => Ok(kept.as_slice() == bytes),
        Err(fault) => Err(Failure::from(fault)),
    }
}

fn are_inside(world: &World, name: &[u8], holders: Holders) -> Result<bool, Failure> {
    let name = resource(name)?;
    match world.inside(&name) {
        Ok(tickets) => Ok(are(&tickets, holders)),
        Err(fault) => Err(Failure::from(fault)),
    }
}

fn are_holding(world: &World, at: u8, name: &[u8], holders: Holders) -> Result<bool, Failure> {
    let (at, name) = (node(at)?, resource(name)?);
    match world.holding(at, &name) {
        Ok(tickets) => Ok(are(&tickets, holders)),
        Err(fault) => Err(Failure::from(fault)),
    }
}

fn are_waiting(world: &World, at: u8, name: &[u8], holders: Holders) -> Result<bool, Failure> {
    let (at, name) = (node(at)?, resource(name)?);
    match world.waiting(at, &name) {
        Ok(tickets) => Ok(are(&tickets, holders)),
        Err(fault) => Err(Failure::from(fault)),
    }
}

fn holding_so(world: &World, count: usize) -> Result<bool, Failure> {
    let name = resource(b"a")?;
    match world.holding(node_id(1), &name) {
        Ok(tickets) => Ok(tickets.len() == count),
        Err(fault) => Err(Failure::from(fault)),
    }
}

/// Whether this is so in the world.
pub(crate) fn is_so(world: &World, sight: &Sight) -> Result<bool, Failure> {
    Ok(match *sight {
        Sight::Sent(number, note) => world.sent(number) == Some(note.message()?),
        Sight::IsSent(number) => world.sent(number).is_some(),
        Sight::Unsent(number) => world.sent(number).is_none(),
        Sight::Keeps(who, bytes) => keeps(world, &who.actor()?, bytes)?,
        Sight::Inside(name, holders) => are_inside(world, name, holders)?,
        Sight::Holding(at, name, holders) => are_holding(world, at, name, holders)?,
        Sight::Waiting(at, name, holders) => are_waiting(world, at, name, holders)?,
        Sight::HoldingSo(count) => holding_so(world, count)?,
        Sight::IsInside(number, mode) => {
            world.ticket_inside(client(number)?) == Some(first_ticket(number, mode)?)
        }
        Sight::IsOutside(number) => world.ticket_inside(client(number)?).is_none(),
        Sight::IsUnknown(who) => !world.has(who.actor()?),
    })
}

/// Whether all of these are so.
pub(crate) fn are_so(world: &World, sights: &[Sight]) -> Outcome {
    for sight in sights {
        check(is_so(world, sight)?)?;
    }
    Ok(())
}
