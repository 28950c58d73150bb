// Events of a fixed generator for three nodes and four clients. Four turns in a row are one actor's, in
// the order in which it gets on; messages come late, again and out of order, or to another than theirs;
// actors fall and rise, and nodes take the one problem or the other.

use lock_messages::{Actor, ClientId, Message, Mode, NodeId, ResourceName};
use lock_model::Problem;
use rand_core::utils::NextWord;
use rand_pcg::Pcg32;
use test_outcomes::node_id;
use world_machine::World;
use world_model::{Age, Event};

fn some_resource(words: &mut Pcg32) -> ResourceName {
    if words.next_word() % 2 == 0 {
        ResourceName::of(b"a").unwrap()
    } else {
        ResourceName::of(b"b").unwrap()
    }
}

fn some_mode(words: &mut Pcg32) -> Mode {
    if words.next_word() % 2 == 0 {
        Mode::Write
    } else {
        Mode::Read
    }
}

fn is_for(message: Option<Message>, who: Actor) -> bool {
    match (message, who) {
        (Some(message), Actor::Node(node)) => message.is_for_node(node),
        (Some(message), Actor::Client(client)) => message.is_for_client(client),
        (None, _) => false,
    }
}

/// The number of one of the last messages for the actor, not always of the last one; where there is
/// none, of a message that was never sent.
fn some_message(words: &mut Pcg32, world: &World, who: Actor, sent: u32) -> u32 {
    let who = &who;
    for back in 0..16 {
        let number = sent.saturating_sub(back);
        if is_for(world.sent(number), *who) && words.next_word() % 4 != 0 {
            return number;
        }
    }
    sent.saturating_add(1)
}

fn some_node(words: &mut Pcg32) -> NodeId {
    match words.next_word() % 3 {
        0 => node_id(1),
        1 => node_id(2),
        _ => node_id(3),
    }
}

/// A node takes the message, and answers it.
fn node_event(node: NodeId, turn: u32, message: u32) -> Event {
    match turn % 4 {
        0 => Event::Take(node, message),
        1 => Event::Try(Actor::Node(node)),
        2 => Event::Kept(Actor::Node(node)),
        _ => Event::Say(node),
    }
}

/// A client begins an attempt and asks, or hears the message and enters; one that is within softens.
fn client_event(
    words: &mut Pcg32,
    client: ClientId,
    within: bool,
    turn: u32,
    message: u32,
) -> Event {
    let (name, node) = (some_resource(words), some_node(words));
    match turn % 8 {
        0 => Event::Begin(client, some_mode(words), name, 1),
        1 => Event::Try(Actor::Client(client)),
        2 => Event::Kept(Actor::Client(client)),
        3 | 4 => Event::SayTo(client, node),
        7 if within => Event::Soften(client),
        7 => Event::Enter(client),
        _ => Event::Hear(client, message),
    }
}

/// An actor falls or rises, a client leaves or softens, or a node takes a problem.
fn rare_event(words: &mut Pcg32, who: Actor) -> Event {
    match (who, words.next_word() % 8) {
        (who, 0) => Event::Fall(who),
        (who, 1) => Event::Rise(who, Age::New),
        (Actor::Client(client), 2) => Event::Leave(client),
        (Actor::Client(client), 3) => Event::Soften(client),
        (Actor::Node(node), 2) => Event::Switch(node, Problem::First),
        (Actor::Node(node), 3) => Event::Switch(node, Problem::Second),
        (who, _) => Event::Rise(who, Age::Old),
    }
}

/// The event of a turn of this actor, in a world in which so many messages were sent.
pub(crate) fn event_of_turn(
    words: &mut Pcg32,
    world: &World,
    who: Actor,
    turn: u32,
    sent: u32,
) -> Event {
    let who = &who;
    if words.next_word() % 8 == 0 {
        return rare_event(words, *who);
    }
    let message = some_message(words, world, *who, sent);
    match *who {
        Actor::Node(node) => node_event(node, turn, message),
        Actor::Client(client) => {
            let within = world.ticket_inside(client).is_some();
            client_event(words, client, within, turn, message)
        }
    }
}
