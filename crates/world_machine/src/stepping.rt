// An event, done by its actor among the others.

ghost use Rattle.std.specs.Prelude.{◌≡◌, ◌≤◌, length, map, slice_get, List};
ghost use Rattle.lock_model.specs.Ballots.{Ballot as BallotValue};
ghost use Rattle.world_model.specs.declared.TheConstants.{MAX_MESSAGES};
ghost use Rattle.world_model.specs.declared.exact.ExactWorld.{ExactWorld};
ghost use Rattle.world_model.specs.ExactWorlds.{numbered, step};
ghost use Rattle.world_model.specs.StepsOf.{Does};
ghost use Rattle.world_machine.specs.Doing.{node_event, client_event};
ghost use Rattle.world_machine.specs.Machines.{node_part, client_part, world_view, AreNodes, AreClients, IsInOrder, with_nodes, with_clients, with_sent};

use crate::doing::{client_acts, client_hears, client_tells, node_acts, node_says, node_takes};
use crate::turns::{ClientAct, NodeAct, Turn, turn_of};
use lock_messages::{ClientId, Message, NodeId};
use vote_weights::BallotList;
use world_actors::{WorldClient, WorldNode};
use world_model::{Effect, Event, StepFault};

/// The message at a place that is counted from 0.
fn message_at_place(sent: &[Message], place: usize) -> Option<Message>
    ensures { result ≡ slice_get sent.now place }
{
    sent.get(place).copied()
}

/// The message of this number, from 1 on.
pub(crate) fn message_at(sent: &[Message], number: u32) -> Option<Message>
    ensures { result ≡ numbered sent.now number }
{
    if number == 0 {
        return None;
    }
    message_at_place(sent, number as usize - 1)
}

/// The node of this number does something by itself.
fn act_node(nodes: &mut Vec<WorldNode>, id: NodeId, act: NodeAct) -> Result<Effect, StepFault>
    ensures does { (w : ExactWorld) → w.nodes ≡ map node_part nodes.old.items → AreNodes nodes.old.items →
        Does (node_event id act) (step w (node_event id act)) w result (with_nodes w (map node_part nodes.new.items)) }
    ensures order { AreNodes nodes.old.items → AreNodes nodes.new.items }
{
    let index = id.get() as usize - 1;
    if index >= nodes.len() {
        return Err(StepFault::UnknownActor);
    }
    node_acts(&mut nodes[index], act)
}

/// The client of this number does something by itself.
fn act_client(
    clients: &mut Vec<WorldClient>,
    id: ClientId,
    act: ClientAct<'_>,
) -> Result<Effect, StepFault>
    ensures does { (w : ExactWorld) → w.clients ≡ map client_part clients.old.items → AreClients w.ballots clients.old.items →
        Does (client_event id act.entry) (step w (client_event id act.entry)) w result (with_clients w (map client_part clients.new.items)) }
    ensures order { (b : List BallotValue) → AreClients b clients.old.items → AreClients b clients.new.items }
{
    let index = id.get() as usize - 1;
    if index >= clients.len() {
        return Err(StepFault::UnknownActor);
    }
    client_acts(&mut clients[index], act)
}

/// The node of this number takes the message of this number.
fn take(
    nodes: &mut Vec<WorldNode>,
    sent: &[Message],
    id: NodeId,
    number: u32,
) -> Result<Effect, StepFault>
    ensures does { (w : ExactWorld) → w.nodes ≡ map node_part nodes.old.items → w.sent ≡ sent.now → AreNodes nodes.old.items →
        Does (Event.Take id number) (step w (Event.Take id number)) w result (with_nodes w (map node_part nodes.new.items)) }
    ensures order { AreNodes nodes.old.items → AreNodes nodes.new.items }
{
    let index = id.get() as usize - 1;
    if index >= nodes.len() {
        return Err(StepFault::UnknownActor);
    }
    let found = message_at(sent, number);
    node_takes(&mut nodes[index], number, found)
}

/// The client of this number hears the message of this number.
fn hear(
    clients: &mut Vec<WorldClient>,
    sent: &[Message],
    id: ClientId,
    number: u32,
) -> Result<Effect, StepFault>
    ensures does { (w : ExactWorld) → w.clients ≡ map client_part clients.old.items → w.sent ≡ sent.now → AreClients w.ballots clients.old.items →
        Does (Event.Hear id number) (step w (Event.Hear id number)) w result (with_clients w (map client_part clients.new.items)) }
    ensures order { (b : List BallotValue) → AreClients b clients.old.items → AreClients b clients.new.items }
{
    let index = id.get() as usize - 1;
    if index >= clients.len() {
        return Err(StepFault::UnknownActor);
    }
    let found = message_at(sent, number);
    client_hears(&mut clients[index], number, found)
}

/// The node of this number says its replies.
fn say(nodes: &mut Vec<WorldNode>, sent: &mut Vec<Message>, id: NodeId) -> Result<Effect, StepFault>
    requires { length sent.old.items ≤ MAX_MESSAGES }
    ensures does { (w : ExactWorld) → w.nodes ≡ map node_part nodes.old.items → w.sent ≡ sent.old.items →
        Does (Event.Say id) (step w (Event.Say id)) w result (with_sent (with_nodes w (map node_part nodes.new.items)) sent.new.items) }
    ensures order { AreNodes nodes.old.items → AreNodes nodes.new.items }
    ensures room { length sent.new.items ≤ MAX_MESSAGES }
{
    let index = id.get() as usize - 1;
    if index >= nodes.len() {
        return Err(StepFault::UnknownActor);
    }
    node_says(&mut nodes[index], sent)
}

/// The client of this number says something to a node.
fn tell(
    clients: &[WorldClient],
    sent: &mut Vec<Message>,
    id: ClientId,
    node: NodeId,
) -> Result<Effect, StepFault>
    requires { length sent.old.items ≤ MAX_MESSAGES }
    ensures does { (w : ExactWorld) → w.clients ≡ map client_part clients.now → w.sent ≡ sent.old.items → AreClients w.ballots clients.now →
        Does (Event.SayTo id node) (step w (Event.SayTo id node)) w result (with_sent w sent.new.items) }
    ensures room { length sent.new.items ≤ MAX_MESSAGES }
{
    let index = id.get() as usize - 1;
    if index >= clients.len() {
        return Err(StepFault::UnknownActor);
    }
    client_tells(&clients[index], node, sent)
}

/// An event, done by its actor.
pub(crate) fn take_step(
    ballots: &BallotList,
    nodes: &mut Vec<WorldNode>,
    clients: &mut Vec<WorldClient>,
    sent: &mut Vec<Message>,
    event: &Event,
) -> Result<Effect, StepFault>
    requires { IsInOrder ballots.now nodes.old.items clients.old.items sent.old.items }
    ensures does { let w = world_view ballots.now nodes.old.items clients.old.items sent.old.items in
        Does event.now (step w event.now) w result (world_view ballots.now nodes.new.items clients.new.items sent.new.items) }
    ensures order { IsInOrder ballots.now nodes.new.items clients.new.items sent.new.items }
{
    let _ballots = ballots;
    match turn_of(event) {
        Turn::Node(id, act) => act_node(nodes, id, act),
        Turn::Client(id, act) => act_client(clients, id, act),
        Turn::Tells(id, node) => tell(clients, sent, id, node),
        Turn::Says(id) => say(nodes, sent, id),
        Turn::Takes(id, number) => take(nodes, sent, id, number),
        Turn::Hears(id, number) => hear(clients, sent, id, number),
    }
}
