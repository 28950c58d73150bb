// What a step of the world is told to be.

ghost use Rattle.std.specs.Prelude.{◌≡◌, ◌+◌, ◌<◌, ◌≤◌, ◌++◌, ◌∷◌, [], slice_get, Some, IfOk, OnOk};
ghost use Rattle.std.specs.Option.{option_to_list};
ghost use Rattle.lock_model.specs.declared.entries.Entry.{Entry as EntryValue};
ghost use Rattle.lock_model.specs.ExactStations.{is_holding};
ghost use Rattle.world_model.specs.declared.TheConstants.{MAX_MESSAGES};
ghost use Rattle.world_model.specs.ExactWorlds.{numbered};
ghost use Rattle.world_model.specs.Views.{live_ticket, ticket_inside};
ghost use Rattle.run_picture.specs.Pictures.{told};
ghost use Rattle.world_model.specs.Laws.{SaidFits};
ghost use Rattle.journal_picture.specs.Histories.{said_from, said_in, vote_of, votes_in, votes_at, inside_by, lasts_up, lasts_in, told_of};

use lock_messages::{Actor, ClientId, Message, NodeId, Ticket};
use lock_model::{Entry, Status};
use run_picture::{Lasting, Step};
use stable_record::{NodeRecord, read_node};
use std::alloc::{AllocError, Global};
use world_machine::World;
use world_model::{Effect, Event};

/// Adds a message, if there is one.
fn add_message(said: &mut Vec<Message>, message: Option<Message>) -> Result<(), AllocError>
    ensures { OnOk result (said.new.items ≡ said.old.items ++ option_to_list message) }
{
    match message {
        Some(message) => said.extend_from_slice(&[message]),
        None => Ok(()),
    }
}

/// The messages that have so many numbers from the first one on.
fn said_from(
    alloc: Global,
    world: &World,
    first: u32,
    count: u32,
) -> Result<Vec<Message>, AllocError>
    requires { 0 < count → first + count ≤ MAX_MESSAGES + 1 }
    ensures { IfOk result (λ v. v.items ≡ said_from world.now.sent first count) }
{
    let mut said = Vec::new(alloc);
    for number in first..first.saturating_add(count) {
        add_message(&mut said, world.sent(number))?;
    }
    Ok(said)
}

/// The message alone.
fn one(alloc: Global, message: Message) -> Result<Vec<Message>, AllocError>
    ensures { IfOk result (λ v. v.items ≡ message ∷ []) }
{
    let mut said = Vec::new(alloc);
    said.extend_from_slice(&[message])?;
    Ok(said)
}

/// The messages that were said in an event, in the order of their numbers.
fn said_in(alloc: Global, world: &World, effect: &Effect) -> Result<Vec<Message>, AllocError>
    requires { SaidFits effect.now }
    ensures { IfOk result (λ v. v.items ≡ said_in world.now effect.now) }
{
    match *effect {
        Effect::Sent(_, message) => one(alloc, message),
        Effect::Said { first, count } => said_from(alloc, world, first, count),
        Effect::Chose(_) | Effect::Tried | Effect::Kept | Effect::Took(..) => Ok(Vec::new(alloc)),
        Effect::Heard(..) | Effect::Inside | Effect::Outside => Ok(Vec::new(alloc)),
        Effect::Softened | Effect::Down | Effect::Up | Effect::Switched(_) => Ok(Vec::new(alloc)),
    }
}

/// Adds one thing that lasts.
fn add(lasting: &mut Vec<Lasting>, what: &Lasting) -> Result<(), AllocError>
    ensures { OnOk result (lasting.new.items ≡ lasting.old.items ++ what.now ∷ []) }
{
    lasting.extend_from_slice(&[*what])
}

/// Adds one thing that lasts, if there is one.
fn add_some(lasting: &mut Vec<Lasting>, what: Option<Lasting>) -> Result<(), AllocError>
    ensures { OnOk result (lasting.new.items ≡ lasting.old.items ++ option_to_list what) }
{
    match &what {
        Some(what) => add(lasting, what),
        None => Ok(()),
    }
}

/// The ticket that an entry of a node's record has, if it holds the node's vote.
fn holding(entry: &Entry) -> Option<Ticket>
    ensures { option_to_list result ≡ live_ticket (λ l. is_holding l.status) entry.now.client entry.now.live }
{
    let live = entry.live?;
    match live.status {
        Status::Waiting => None,
        Status::Holding | Status::Softened => Some(Ticket {
            client: entry.client,
            attempt: live.attempt,
            mode: live.mode,
            resource: live.resource,
        }),
    }
}

/// The vote that an entry holds, if it does.
fn vote(node: NodeId, entry: &Entry) -> Option<Lasting>
    ensures { option_to_list result ≡ vote_of node entry.now }
{
    match holding(entry) {
        Some(ticket) => Some(Lasting::Holding(node, ticket)),
        None => None,
    }
}

/// The vote that the entry at this place holds, if it does.
fn vote_at(node: NodeId, kept: &NodeRecord, place: usize) -> Option<Lasting>
    ensures { (e : EntryValue) → slice_get kept.now.entries place ≡ Some e → option_to_list result ≡ vote_of node e }
{
    match kept.entries.get(place) {
        Some(entry) => vote(node, &entry),
        None => None,
    }
}

/// Adds the votes that are held by a record.
fn add_kept(lasting: &mut Vec<Lasting>, node: NodeId, kept: &NodeRecord) -> Result<(), AllocError>
    ensures { OnOk result (lasting.new.items ≡ lasting.old.items ++ votes_in node kept.now.entries) }
{
    for place in 0..kept.entries.len() {
        add_some(lasting, vote_at(node, kept, place))?;
    }
    Ok(())
}

/// Adds the votes of a node that are held by what it has kept.
fn add_votes(
    alloc: Global,
    lasting: &mut Vec<Lasting>,
    world: &World,
    node: NodeId,
) -> Result<(), AllocError>
    ensures { OnOk result (lasting.new.items ≡ lasting.old.items ++ votes_at node (numbered world.now.nodes node)) }
{
    world.keeping();
    let Ok(bytes) = world.kept_bytes(Actor::Node(node)) else {
        return Err(AllocError);
    };
    match read_node(alloc, bytes.as_slice()) {
        Ok(kept) => add_kept(lasting, node, &kept),
        Err(_) => Err(AllocError),
    }
}

/// Adds that a client is inside, if it is.
fn add_inside(lasting: &mut Vec<Lasting>, world: &World, client: ClientId) -> Result<(), AllocError>
    ensures { OnOk result (lasting.new.items ≡ lasting.old.items ++ inside_by (ticket_inside client world.now)) }
{
    match world.ticket_inside(client) {
        Some(ticket) => add(lasting, &Lasting::Inside(ticket)),
        None => Ok(()),
    }
}

/// Adds what lasts of an actor that is up.
fn add_up(
    alloc: Global,
    lasting: &mut Vec<Lasting>,
    world: &World,
    who: &Actor,
) -> Result<(), AllocError>
    ensures { OnOk result (lasting.new.items ≡ lasting.old.items ++ lasts_up world.now who.now) }
{
    match *who {
        Actor::Node(node) => add_votes(alloc, lasting, world, node),
        Actor::Client(client) => add_inside(lasting, world, client),
    }
}

/// Adds what lasts of an actor that is down: a node's votes are held by what it has kept.
fn add_down(
    alloc: Global,
    lasting: &mut Vec<Lasting>,
    world: &World,
    who: &Actor,
) -> Result<(), AllocError>
    ensures { OnOk result (lasting.new.items ≡ lasting.old.items ++ Lasting.Down who.now ∷ lasts_up world.now who.now) }
{
    add(lasting, &Lasting::Down(*who))?;
    add_up(alloc, lasting, world, who)
}

/// Adds what lasts of the event's actor, where that may be something else than before.
fn add_lasting(
    alloc: Global,
    lasting: &mut Vec<Lasting>,
    world: &World,
    event: &Event,
) -> Result<(), AllocError>
    ensures { OnOk result (lasting.new.items ≡ lasting.old.items ++ lasts_in world.now event.now) }
{
    match *event {
        Event::Kept(who) | Event::Rise(who, _) => add_up(alloc, lasting, world, &who),
        Event::Enter(client) | Event::Leave(client) | Event::Soften(client) => {
            add_inside(lasting, world, client)
        }
        Event::Fall(who) => add_down(alloc, lasting, world, &who),
        Event::Begin(..) | Event::Try(_) | Event::SayTo(..) | Event::Say(_) => Ok(()),
        Event::Take(..) | Event::Hear(..) | Event::Switch(..) => Ok(()),
    }
}

/// What is told of an event that was taken with this effect, in the world behind it.
pub(crate) fn told_of(
    alloc: Global,
    world: &World,
    line: u32,
    event: &Event,
    effect: &Effect,
) -> Result<Step, AllocError>
    requires { SaidFits effect.now }
    ensures { IfOk result (λ s. told s ≡ told_of world.now line event.now effect.now) }
{
    let said = said_in(alloc, world, effect)?;
    let mut lasting = Vec::new(alloc);
    add_lasting(alloc, &mut lasting, world, event)?;
    Ok(Step {
        line,
        event: *event,
        effect: *effect,
        said,
        lasting,
    })
}
