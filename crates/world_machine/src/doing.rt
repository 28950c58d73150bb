// One actor's turn, by the actor's own methods and the list of messages.

ghost use Rattle.std.specs.Prelude.{◌≡◌, ◌+◌, ◌++◌, ◌≤◌, ◌∷◌, [], length, true, false, OnOk, OnErr};
ghost use Rattle.std.specs.Vec.{vec_len, vec_capacity};
ghost use Rattle.lock_model.specs.Ballots.{node_count};
ghost use Rattle.world_model.specs.declared.TheConstants.{MAX_MESSAGES};
ghost use Rattle.world_model.specs.ExactNodes.{says_in, takes_in};
ghost use Rattle.world_model.specs.ExactClients.{tells, hears};
ghost use Rattle.world_machine.specs.Doing.{node_turn, node_asks, client_turn, Turned, read_turn, Spoke};
ghost use Rattle.world_machine.specs.Machines.{node_part, client_part};

use crate::turns::{ClientAct, NodeAct};
use lock_messages::{Message, NodeId};
use std::alloc::AllocError;
use world_actors::{WorldClient, WorldNode};
use world_model::{Effect, MAX_MESSAGES, StepFault};

/// What a node does by itself.
pub(crate) fn node_acts(node: &mut WorldNode, act: NodeAct) -> Result<Effect, StepFault>
    ensures turned { Turned (node_asks act) node_part (node_turn act node.old.number node.old.part) node.old result node.new }
    ensures number { node.new.number ≡ node.old.number }
{
    match act {
        NodeAct::Try => match node.start_keeping() {
            Ok(()) => Ok(Effect::Tried),
            Err(fault) => Err(fault),
        },
        NodeAct::Kept => match node.keep() {
            Ok(()) => Ok(Effect::Kept),
            Err(fault) => Err(fault),
        },
        NodeAct::Fall => match node.fall() {
            Ok(()) => Ok(Effect::Down),
            Err(fault) => Err(fault),
        },
        NodeAct::Rise(age) => match node.rise(age) {
            Ok(()) => Ok(Effect::Up),
            Err(fault) => Err(fault),
        },
        NodeAct::Switch(problem) => match node.switch(problem) {
            Ok(changed) => Ok(Effect::Switched(changed)),
            Err(fault) => Err(fault),
        },
    }
}

/// What a client does by itself.
pub(crate) fn client_acts(client: &mut WorldClient, act: ClientAct<'_>) -> Result<Effect, StepFault>
    ensures turned { Turned false client_part (client_turn act.entry client.old.number client.old.ballots client.old.part) client.old result client.new }
    ensures number { client.new.number ≡ client.old.number }
    ensures ballots { client.new.ballots ≡ client.old.ballots }
{
    match act {
        ClientAct::Begin(mode, resource, place) => match client.begin(mode, *resource, place) {
            Ok(attempt) => Ok(Effect::Chose(attempt)),
            Err(fault) => Err(fault),
        },
        ClientAct::Try => match client.start_keeping() {
            Ok(()) => Ok(Effect::Tried),
            Err(fault) => Err(fault),
        },
        ClientAct::Kept => match client.keep() {
            Ok(()) => Ok(Effect::Kept),
            Err(fault) => Err(fault),
        },
        ClientAct::Enter => match client.enter() {
            Ok(()) => Ok(Effect::Inside),
            Err(fault) => Err(fault),
        },
        ClientAct::Leave => match client.leave() {
            Ok(()) => Ok(Effect::Outside),
            Err(fault) => Err(fault),
        },
        ClientAct::Soften => match client.soften() {
            Ok(()) => Ok(Effect::Softened),
            Err(fault) => Err(fault),
        },
        ClientAct::Fall => match client.fall() {
            Ok(()) => Ok(Effect::Down),
            Err(fault) => Err(fault),
        },
        ClientAct::Rise(age) => match client.rise(age) {
            Ok(()) => Ok(Effect::Up),
            Err(fault) => Err(fault),
        },
    }
}

/// A node takes the message that was found under a number.
pub(crate) fn node_takes(
    node: &mut WorldNode,
    number: u32,
    found: Option<Message>,
) -> Result<Effect, StepFault>
    ensures turned { Turned true node_part (read_turn found (takes_in node.old.number number node.old.part node.old.part.phase)) node.old result node.new }
    ensures number { node.new.number ≡ node.old.number }
{
    let _number = number;
    if let Err(fault) = node.may_take() {
        return Err(fault);
    }
    let Some(message) = found else {
        return Err(StepFault::NoSuchMessage);
    };
    match node.take(&message) {
        Ok(changed) => Ok(Effect::Took(message, changed)),
        Err(fault) => Err(fault),
    }
}

/// A client hears the message that was found under a number.
pub(crate) fn client_hears(
    client: &mut WorldClient,
    number: u32,
    found: Option<Message>,
) -> Result<Effect, StepFault>
    ensures turned { Turned false client_part (read_turn found (hears (node_count client.old.ballots) client.old.number number client.old.part)) client.old result client.new }
    ensures number { client.new.number ≡ client.old.number }
    ensures ballots { client.new.ballots ≡ client.old.ballots }
{
    let _number = number;
    if let Err(fault) = client.may_hear() {
        return Err(fault);
    }
    let Some(message) = found else {
        return Err(StepFault::NoSuchMessage);
    };
    if !message.is_for_client(client.number()) {
        return Err(StepFault::NotAddressed);
    }
    let heard = client.hear(&message);
    Ok(Effect::Heard(message, heard))
}

/// Sends messages for which room was made.
fn send_all(sent: &mut Vec<Message>, messages: &[Message])
    requires { vec_len sent.old + length messages.now ≤ vec_capacity sent.old }
    ensures { sent.new.items ≡ sent.old.items ++ messages.now }
{
    match sent.extend_from_slice(messages) {
        Ok(()) => {}
        Err(_) => {}
    }
}

/// Sends a message.
fn send_one(sent: &mut Vec<Message>, message: &Message) -> Result<(), AllocError>
    ensures sent { OnOk result (sent.new.items ≡ sent.old.items ++ message.now ∷ []) }
    ensures unchanged { OnErr result (sent.new.items ≡ sent.old.items) }
{
    sent.push(*message)?;
    Ok(())
}

/// A node says its replies.
pub(crate) fn node_says(node: &mut WorldNode, sent: &mut Vec<Message>) -> Result<Effect, StepFault>
    requires { length sent.old.items ≤ MAX_MESSAGES }
    ensures spoke { Spoke node_part (says_in node.old.part node.old.part.phase) sent.old.items node.old result node.new sent.new.items }
    ensures number { node.new.number ≡ node.old.number }
{
    let first = sent.len();
    let count = match node.replies() {
        Err(fault) => return Err(fault),
        Ok(count) => count,
    };
    if count > MAX_MESSAGES as usize - first {
        return Err(StepFault::SentListFull);
    }
    let Ok(()) = sent.reserve(count) else {
        return Err(StepFault::Memory);
    };
    match node.say() {
        Err(fault) => Err(fault),
        Ok(replies) => {
            send_all(sent, &replies);
            Ok(Effect::Said {
                first: first as u32 + 1,
                count: count as u32,
            })
        }
    }
}

/// A client says to a node what it has to say.
pub(crate) fn client_tells(
    client: &WorldClient,
    node: NodeId,
    sent: &mut Vec<Message>,
) -> Result<Effect, StepFault>
    requires { length sent.old.items ≤ MAX_MESSAGES }
    ensures { Spoke client_part (tells client.now.ballots client.now.number node client.now.part) sent.old.items client.now result client.now sent.new.items }
{
    let message = match client.message_for(node) {
        Err(fault) => return Err(fault),
        Ok(message) => message,
    };
    let first = sent.len();
    if first >= MAX_MESSAGES as usize {
        return Err(StepFault::SentListFull);
    }
    match send_one(sent, &message) {
        Err(_) => Err(StepFault::Memory),
        Ok(()) => Ok(Effect::Sent(first as u32 + 1, message)),
    }
}
