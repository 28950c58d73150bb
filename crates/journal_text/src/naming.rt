// What an event names: numbers and names that there may be, since each id and each name is one.

ghost use Rattle.event_lines.specs.Lines.{IsActor};
ghost use Rattle.journal_text.specs.Journals.{IsWellNamed};

use lock_messages::Actor;
use world_model::Event;

/// Tells that the actor may be one. It computes nothing.
fn tell_actor(actor: Actor)
    ensures { IsActor actor }
{
    match actor {
        Actor::Node(node) => {
            let _number = node.get();
        }
        Actor::Client(client) => {
            let _number = client.get();
        }
    }
}

/// Tells that the event names what there may be. It computes nothing.
pub fn tell_names(event: &Event)
    ensures { IsWellNamed event.now }
{
    match event {
        Event::Begin(client, _, name, _) => {
            let _number = client.get();
            let _bytes = name.bytes();
        }
        Event::SayTo(client, node) => {
            let _number = client.get();
            let _number = node.get();
        }
        Event::Say(node) => {
            let _number = node.get();
        }
        Event::Take(node, _) => {
            let _number = node.get();
        }
        Event::Hear(client, _) => {
            let _number = client.get();
        }
        Event::Enter(client) => {
            let _number = client.get();
        }
        Event::Leave(client) => {
            let _number = client.get();
        }
        Event::Soften(client) => {
            let _number = client.get();
        }
        Event::Switch(node, _) => {
            let _number = node.get();
        }
        Event::Try(actor) => tell_actor(*actor),
        Event::Kept(actor) => tell_actor(*actor),
        Event::Fall(actor) => tell_actor(*actor),
        Event::Rise(actor, _) => tell_actor(*actor),
    }
}
