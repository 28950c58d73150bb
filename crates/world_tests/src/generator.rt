// Events of a fixed generator: 5 nodes and 6 clients, 2 resources. Messages come late, again and out of
// order, or never; actors fall and rise, and nodes take problems; every client in turn asks, enters, softens
// and releases.

use lock_messages::{Actor, ClientId, Message, Mode, NodeId, ResourceName};
use lock_model::Problem;
use rand_core::utils::NextWord;
use rand_pcg::Pcg32;
use test_outcomes::{Failure, client_id, node_id};
use test_support::resource;
use world_machine::World;
use world_model::{Age, Event};

pub(crate) const NODES: u8 = 5;

pub(crate) const CLIENTS: u16 = 6;

pub(crate) fn node(number: u32) -> NodeId {
    node_id((number % NODES as u32 + 1) as u8)
}

fn client(number: u32) -> ClientId {
    client_id(number % CLIENTS as u32 + 1)
}

pub(crate) fn name(number: u32) -> Result<ResourceName, Failure> {
    let name: &[u8] = if number % 2 == 0 { b"a" } else { b"b" };
    resource(name)
}

fn some_actor(words: &mut Pcg32) -> Actor {
    let number = words.next_word();
    if words.next_word() % 2 == 0 {
        Actor::Node(node(number))
    } else {
        Actor::Client(client(number))
    }
}

/// What its actor does with a message.
fn delivery(message: Message, number: u32) -> Event {
    match message {
        Message::Request(node, _) | Message::Release(node, _, _) | Message::Soften(node, _, _) => {
            Event::Take(node, number)
        }
        Message::Grant(_, ticket) | Message::Busy(_, ticket) => Event::Hear(ticket.client, number),
        Message::Over(_, client, _)
        | Message::Done(_, client, _)
        | Message::Muddled(_, client, _)
        | Message::Softened(_, client, _) => Event::Hear(client, number),
    }
}

/// The last message comes to its actor, or now and then one of the two before it, again perhaps; before
/// there is one, a node takes what was never sent.
fn some_delivery(words: &mut Pcg32, world: &World, sent: u32) -> Event {
    let back = (words.next_word() % 8).saturating_sub(5);
    let number = sent.saturating_sub(back);
    match world.sent(number) {
        Some(message) => delivery(message, number),
        None => Event::Take(node(number), number),
    }
}

/// A node takes a problem, its own or the other.
fn some_switch(words: &mut Pcg32) -> Event {
    let node = node(words.next_word());
    let problem = if words.next_word() % 2 == 0 {
        Problem::First
    } else {
        Problem::Second
    };
    Event::Switch(node, problem)
}

/// The steps of an attempt.
const STEPS: u32 = 28;

/// A step of an attempt: it is begun and kept, nodes are asked; where it is softened they are told, and
/// where it was left.
fn attempt_step(words: &mut Pcg32, round: u32) -> Result<Event, Failure> {
    let client = client(round / STEPS);
    let name = name(words.next_word())?;
    let node = node(round);
    let mode = if words.next_word() % 2 == 0 {
        Mode::Write
    } else {
        Mode::Read
    };
    Ok(match round % STEPS {
        0 => Event::Begin(client, mode, name, 1 + (round / STEPS % 2) as u8),
        1 => Event::Try(Actor::Client(client)),
        2 => Event::Kept(Actor::Client(client)),
        11 | 12 => Event::Enter(client),
        13 => Event::Soften(client),
        17 => Event::Leave(client),
        _ => Event::SayTo(client, node),
    })
}

/// Mostly the client whose attempt it is enters; now and then an actor falls or rises, the client softens,
/// or a node takes a problem.
fn rare_event(words: &mut Pcg32, round: u32) -> Event {
    let who = some_actor(words);
    let client = client(round / STEPS);
    let switch = some_switch(words);
    match words.next_word() % 20 {
        0 => Event::Fall(who),
        1..=3 => Event::Rise(who, Age::New),
        4..=8 => Event::Rise(who, Age::Old),
        9 => Event::Soften(client),
        10 => switch,
        _ => Event::Enter(client),
    }
}

/// The event of a turn, where this node was to take a message last and so many messages were sent.
pub(crate) fn event_of_turn(
    words: &mut Pcg32,
    world: &World,
    turn: u32,
    last: NodeId,
    sent: u32,
) -> Result<Event, Failure> {
    let round = turn / 8;
    match turn % 8 {
        0 if round % 8 == 5 => Ok(some_switch(words)),
        1 => Ok(Event::Try(Actor::Node(last))),
        2 => Ok(Event::Kept(Actor::Node(last))),
        3 => Ok(Event::Say(last)),
        5 | 6 => attempt_step(words, round),
        7 => Ok(rare_event(words, round)),
        _ => Ok(some_delivery(words, world, sent)),
    }
}
