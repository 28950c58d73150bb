// The line of an event.

ghost use Rattle.std.specs.Prelude.{◌≡◌, ◌++◌, ◌∷◌, [], false, IfOk, string_bytes};
ghost use Rattle.hex.specs.Hex.{encode_lower};
ghost use Rattle.lock_messages.specs.Texts.{actor_text};
ghost use Rattle.event_lines.specs.Lines.{IsActor};
ghost use Rattle.event_lines.specs.Events.{IsEventInRange};
ghost use Rattle.event_recorders.specs.OwnLogs.{reads};
ghost use Rattle.lock_messages.specs.Frames.{frame_of};
ghost use Rattle.own_journals.specs.OwnLines.{reading_word};
ghost use Rattle.own_journals.specs.declared.lines.OwnLine.TheVariants as own;
ghost use Rattle.own_recorders.specs.OwnJournals.{HasParts, IsAllowedSomewhere, IsLine, IsWord};

use event_lines::write_event;
use lock_messages::{Actor, Message, encode};
use std::alloc::{AllocError, Global};
use vote_weights::BallotList;
use world_model::Event;

/// Shows that the actor's number is in its range. It computes nothing.
fn tell_actor(actor: &Actor)
    ensures { IsActor actor.now }
{
    match actor {
        Actor::Node(node) => {
            let _number = node.get();
        }
        Actor::Client(client) => {
            let _number = client.get();
        }
    }
}

/// Shows that the event's line can be read: an attempt begins by a ballot of the list. It computes nothing.
#[tactic(auto, using(crate::proofs::LineFacts::place_in_range))]
fn tell_range(event: &Event, list: &BallotList)
    requires plain { reads event.now ≡ false }
    requires allowed { IsAllowedSomewhere list.now event.now }
    ensures { IsEventInRange event.now }
{
    let _count = list.count();
    match event {
        Event::Begin(client, _, name, _) => {
            let _number = client.get();
            let _bytes = name.bytes();
        }
        Event::SayTo(client, node) => {
            let _number = client.get();
            let _number = node.get();
        }
        Event::Say(node) => {
            let _number = node.get();
        }
        Event::Switch(node, _) => {
            let _number = node.get();
        }
        Event::Enter(client) => {
            let _number = client.get();
        }
        Event::Leave(client) => {
            let _number = client.get();
        }
        Event::Soften(client) => {
            let _number = client.get();
        }
        Event::Try(actor) => tell_actor(actor),
        Event::Kept(actor) => tell_actor(actor),
        Event::Fall(actor) => tell_actor(actor),
        Event::Rise(actor, _) => tell_actor(actor),
        Event::Take(..) | Event::Hear(..) => {}
    }
}

/// The line of an event that reads no message.
///
/// The caller owes that some part of the actor allows the event. The only error is running out of memory.
pub fn plain_line(alloc: Global, event: &Event, list: &BallotList) -> Result<String, AllocError>
    requires plain { reads event.now ≡ false }
    requires allowed { IsAllowedSomewhere list.now event.now }
    ensures { IfOk result (λ line. IsLine (own.Does event.now) (string_bytes line)) }
{
    tell_range(event, list);
    let mut line = write_event(alloc, event)?;
    line.push('\n')?;
    Ok(line)
}

/// The text of a word, the actor's name, and bytes in hexadecimal digits, with a line feed. The only error is running
/// out of memory.
fn text_of_parts(alloc: Global, word: &str, who: &Actor, bytes: &[u8]) -> Result<String, AllocError>
    ensures { IfOk result (λ line. string_bytes line ≡ word.now ++ 32 ∷ (actor_text who.now ++ 32 ∷ (encode_lower bytes.now ++ 10 ∷ []))) }
{
    let digits = hex::encode(alloc, bytes)?;
    format!(in alloc; "{word} {who} {digits}\n")
}

/// The line of a word, the actor's name, and bytes in hexadecimal digits. The only error is running out of memory.
fn line_of_parts(alloc: Global, word: &str, who: &Actor, bytes: &[u8]) -> Result<String, AllocError>
    requires { IsWord word.now }
    ensures { IfOk result (λ line. HasParts word.now who.now bytes.now (string_bytes line)) }
{
    tell_actor(who);
    text_of_parts(alloc, word, who, bytes)
}

/// The word of a line with the frame of a message: a node takes it, a client hears it.
#[tactic(auto, using(crate::proofs::LineFacts::take_word, crate::proofs::LineFacts::hear_word))]
fn reading_word(who: &Actor) -> &'static str
    ensures word { result.now ≡ reading_word who.now }
    ensures plain { IsWord result.now }
{
    match who {
        Actor::Node(_) => "take",
        Actor::Client(_) => "hear",
    }
}

/// The line of a message that the actor takes or hears. The only error is running out of memory.
pub fn reading_line(alloc: Global, who: &Actor, message: &Message) -> Result<String, AllocError>
    ensures { IfOk result (λ line. IsLine (own.Reads who.now (frame_of message.now)) (string_bytes line)) }
{
    let Ok(frame) = encode(alloc, message) else {
        return Err(AllocError);
    };
    let word = reading_word(who);
    line_of_parts(alloc, word, who, frame.as_slice())
}

/// The line that opens a life of the actor, whose process found these bytes in the record. The only error is running
/// out of memory.
#[tactic(auto, using(crate::proofs::LineFacts::life_word))]
pub fn life_line(alloc: Global, who: &Actor, found: &[u8]) -> Result<String, AllocError>
    ensures { IfOk result (λ line. IsLine (own.Life who.now found.now) (string_bytes line)) }
{
    line_of_parts(alloc, "life", who, found)
}
