// What a client says and hears.

ghost use Rattle.std.specs.Prelude.{◌≡◌, ◌↔◌, ◌++◌, ◌∷◌, [], true, IsSome, IfOk, IfSome, IfNone, OnOk, OnErr, IfErr};
ghost use Rattle.std.specs.Option.{option_map};
ghost use Rattle.lock_messages.specs.Messages.{is_for_client};
ghost use Rattle.client_core.specs.Clients.{phase_of, ticket_of};
ghost use Rattle.client_core.specs.Calls.{message_for};
ghost use Rattle.client_loop.specs.Sendings.{SendsBy, sent_of, sending_to, SentFollows, SentUnlessMemory, Tells};
ghost use Rattle.client_loop.specs.Hearing.{IsFrameFor, Hears, HearsOf, HearsNothing};
ghost use Rattle.client_loop.specs.Standing.{Stands};
ghost use Rattle.client_loop.specs.Visits.{GoesOnQuietly, visits_of};
ghost use Rattle.actor_steps.specs.Steps.{IsBookFault};
ghost use Rattle.actor_steps.specs.Endings.{falls_of};
ghost use Rattle.client_loop.specs.Talking.{EndsUnlogged, Says, EndsUnheard, Listens};

use actor_steps::{log_plain, log_reading};
use client_core::ClientCore;
use event_recorders::{OwnRecord, Recorder, RunFault};
use lock_messages::{Actor, ClientId, Message, NodeId, decode, encode};
use lock_model::Heard;
use lossy_link::{Link, Parcel};
use std::alloc::Global;
use world_model::Event;

/// Logs what the client has to say to the node, and answers it with its number; `None` where there is
/// nothing: it says the request of its ticket while it asks, that it has softened while it is inside so, the
/// release of its attempt while it rests.
#[tactic(auto, using(crate::proofs::SentFacts::sayto_sends))]
fn said<S: OwnRecord, R: Recorder>(
    core: &ClientCore,
    node: NodeId,
    stable: &S,
    recorder: &mut R,
) -> Result<Option<(u32, Message)>, RunFault>
    requires { Stands (R.own_log recorder.old) (S.StableRecord.finds stable.now) core.now }
    ensures said { IfOk result (λ o. IfSome o (λ p. sent_of (R.own_log recorder.new) ≡ sent_of (R.own_log recorder.old) ++ sending_to node p.0 p.1 ∷ [])) }
    ensures silent { IfOk result (λ o. IfNone o (R.own_log recorder.new ≡ R.own_log recorder.old)) }
    ensures message { IfOk result (λ o. option_map (λ p. p.1) o ≡ message_for core.now node) }
    ensures ended { IfErr result (λ f. EndsUnlogged f (R.own_log recorder.old) (R.own_log recorder.new)) }
    ensures stands { Stands (R.own_log recorder.new) (S.StableRecord.finds stable.now) core.now }
    ensures quiet { GoesOnQuietly (R.own_log recorder.old) (R.own_log recorder.new) }
{
    let Some(message) = core.message_for(node) else {
        return Ok(None);
    };
    let said = log_plain(recorder, Event::SayTo(core.client(), node), stable)?;
    Ok(Some((said.number(), message)))
}

/// Says to the node what the client has to say to it, if there is anything, and sends it.
#[tactic(auto, using(crate::proofs::SentFacts::tell_follows, crate::proofs::SentFacts::unless_memory, crate::proofs::TalkFacts::talks_still))]
pub(crate) fn tell<S: OwnRecord, R: Recorder, L: Link>(
    alloc: Global,
    core: &ClientCore,
    node: NodeId,
    stable: &S,
    recorder: &mut R,
    link: &mut L,
) -> Result<(), RunFault>
    requires { Stands (R.own_log recorder.old) (S.StableRecord.finds stable.now) core.now }
    ensures told { OnOk result (Tells (message_for core.now node) node (R.own_log recorder.old) (R.own_log recorder.new)) }
    ensures says { Says result (R.own_log recorder.old) (R.own_log recorder.new) (L.given link.old) (L.given link.new) (S.StableRecord.finds stable.now) core.now }
{
    let Some((number, message)) = said(core, node, stable, recorder)? else {
        return Ok(());
    };
    let Ok(frame) = encode(alloc, &message) else {
        return Err(RunFault::Memory);
    };
    if link
        .send(Actor::Node(node), Parcel { number, frame })
        .is_err()
    {
        return Err(RunFault::Memory);
    }
    Ok(())
}

/// The message for the client that the frame is, if it is one.
fn message_to(frame: &[u8], client: ClientId) -> Option<Message>
    ensures frame { IsSome result ↔ IsFrameFor frame.now client }
    ensures addressed { IfSome result (λ m. is_for_client m client ≡ true) }
{
    match decode(frame) {
        Ok(message) if message.is_for_client(client) => Some(message),
        _ => None,
    }
}

/// Hears the message that came under the number, as the log has it, and returns it with what the client made of it.
/// `None`: the log knows no message of the number to the client.
#[tactic(auto, using(crate::proofs::SentFacts::read_sends_nothing))]
fn heard<S: OwnRecord, R: Recorder>(
    core: &mut ClientCore,
    number: u32,
    message: &Message,
    stable: &S,
    recorder: &mut R,
) -> Result<Option<(Message, Heard)>, RunFault>
    requires stands { Stands (R.own_log recorder.old) (S.StableRecord.finds stable.now) core.old }
    requires addressed { is_for_client message.now core.old.client ≡ true }
    ensures heard { IfOk result (λ o. IfSome o (λ p. Hears number (R.own_log recorder.old) (R.own_log recorder.new) core.old core.new p.0 p.1)) }
    ensures dropped { IfOk result (λ o. IfNone o (HearsNothing (R.own_log recorder.old) (R.own_log recorder.new) core.old core.new)) }
    ensures ended { IfErr result (λ f. EndsUnheard f (R.own_log recorder.old) (R.own_log recorder.new) core.old core.new) }
    ensures listens { Listens (R.own_log recorder.old) (R.own_log recorder.new) (S.StableRecord.finds stable.now) core.old core.new }
{
    let event = Event::Hear(core.client(), number);
    let Some(message) = log_reading(recorder, event, message, stable)? else {
        return Ok(None);
    };
    let heard = core.hear(&message);
    Ok(Some((message, heard)))
}

/// Hears a parcel, and answers what the client made of its message, and of which node it was. A frame
/// that is no message for the client is dropped, and so is a number under which none was sent to it.
pub(crate) fn hear<S: OwnRecord, R: Recorder>(
    core: &mut ClientCore,
    parcel: &Parcel,
    stable: &S,
    recorder: &mut R,
) -> Result<Option<(NodeId, Heard)>, RunFault>
    requires { Stands (R.own_log recorder.old) (S.StableRecord.finds stable.now) core.old }
    ensures heard { IfOk result (λ o. IfSome o (λ p. HearsOf parcel.now.number (R.own_log recorder.old) (R.own_log recorder.new) core.old core.new p.0 p.1)) }
    ensures dropped { IfOk result (λ o. IfNone o (HearsNothing (R.own_log recorder.old) (R.own_log recorder.new) core.old core.new)) }
    ensures foreign { (IsFrameFor parcel.now.frame core.old.client → ⊥) → result ≡ Ok None }
    ensures ended { IfErr result (λ f. EndsUnheard f (R.own_log recorder.old) (R.own_log recorder.new) core.old core.new) }
    ensures listens { Listens (R.own_log recorder.old) (R.own_log recorder.new) (S.StableRecord.finds stable.now) core.old core.new }
{
    let Some(message) = message_to(&parcel.frame, core.client()) else {
        return Ok(None);
    };
    let Some((message, heard)) = heard(core, parcel.number, &message, stable, recorder)? else {
        return Ok(None);
    };
    Ok(Some((message.node(), heard)))
}
