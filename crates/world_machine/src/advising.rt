// What has to happen next for a client to get in, as `world_model` has it.

ghost use Rattle.std.specs.Prelude.{◌≡◌, ◌<◌, ◌≤◌, ℕ, true, length, is_some, IfSome, Some};
ghost use Rattle.std.specs.List.{list_any, position};
ghost use Rattle.lock_messages.specs.declared.messages.Message.{Message as MessageValue};
ghost use Rattle.vote_weights.specs.Sets.{has_node};
ghost use Rattle.world_actors.specs.Asking.{asked_in};
ghost use Rattle.world_model.specs.declared.TheConstants.{MAX_MESSAGES};
ghost use Rattle.world_model.specs.Advice.{is_grant, next_move, can_be_won};
ghost use Rattle.world_model.specs.ExactWorlds.{numbered};
ghost use Rattle.world_model.specs.Forgetting.{forget, setting_of};
ghost use Rattle.world_machine.specs.Advising.{first_found, finish_at, clear_at, clear_node, ask_node, or_enters, own_at, own_if, is_held_by, is_won, wins, number_of_grant, first_move, asking_in, asking_if, grant_if};
ghost use Rattle.world_machine.specs.Machines.{world_view, IsWorld};

use lock_messages::{ClientId, Message, NodeId, Ticket};
use vote_weights::{BallotList, NodeSet};
use world_actors::{WorldClient, WorldNode};
use world_model::{Event, Move, Want};

/// Whether the message is the node's Grant of the ticket.
fn is_grant(message: &Message, node: NodeId, ticket: &Ticket) -> bool
    ensures { result ≡ is_grant node ticket.now message.now }
{
    match message {
        Message::Grant(from, granted) => {
            *from == node
                && granted.client == ticket.client
                && granted.attempt == ticket.attempt
                && granted.mode == ticket.mode
                && granted.resource.bytes() == ticket.resource.bytes()
        }
        Message::Request(..)
        | Message::Release(..)
        | Message::Busy(..)
        | Message::Over(..)
        | Message::Done(..)
        | Message::Muddled(..)
        | Message::Soften(..)
        | Message::Softened(..) => false,
    }
}

/// Whether the node has said its Grant of the ticket. It goes over the messages up to there.
fn has_said_grant(sent: &[Message], node: NodeId, ticket: &Ticket) -> bool
    ensures { result ≡ list_any (is_grant node ticket.now) sent.now }
{
    sent.iter().any(|message| is_grant(message, node, ticket))
}

/// The place, counted from 0, of the first message that is the node's Grant of the ticket.
fn place_of_grant(sent: &[Message], node: NodeId, ticket: &Ticket) -> Option<usize>
    ensures first { result ≡ position (is_grant node ticket.now) sent.now }
    ensures within { IfSome result (λ i. i < length sent.now) }
{
    sent.iter()
        .position(|message| is_grant(message, node, ticket))
}

/// The number of the first message that is the node's Grant of the ticket; `None` exactly where none
/// is. It goes over the messages up to there.
pub(crate) fn first_number(sent: &[Message], node: NodeId, ticket: &Ticket) -> Option<u32>
    requires { length sent.now ≤ MAX_MESSAGES }
    ensures first { result ≡ number_of_grant node ticket.now sent.now }
    ensures some { is_some result ≡ list_any (is_grant node ticket.now) sent.now }
    ensures granted { IfSome result (λ k. (m : MessageValue) × (numbered sent.now k ≡ Some m) × (is_grant node ticket.now m ≡ true)) }
{
    match place_of_grant(sent, node, ticket) {
        Some(place) => Some(place as u32 + 1),
        None => None,
    }
}

/// A chosen node goes on with what it is about, if it is about something.
fn finish_at(node: &WorldNode, chosen: NodeSet) -> Option<Move>
    ensures { result ≡ finish_at (has_node chosen) node.now }
{
    if !chosen.has(node.number()) {
        return None;
    }
    match node.finishing() {
        Some(event) => Some(Move::Alone(event)),
        None => None,
    }
}

/// The first of the chosen nodes that is about something goes on with it.
fn finish_move(nodes: &[WorldNode], chosen: NodeSet) -> Option<Move>
    ensures { result ≡ first_found (finish_at (has_node chosen)) nodes.now }
{
    for node in nodes {
        if let Some(next) = finish_at(node, chosen) {
            return Some(next);
        }
    }
    None
}

/// A client that stands in the way at a node comes to rest, and then says its release there.
fn clear_at(node: &WorldNode, client: &WorldClient, want: &Want) -> Option<Move>
    ensures { result ≡ clear_at want.now node.now client.now }
{
    if !node.blocks(want, client.number()) {
        return None;
    }
    match client.resting() {
        Some(event) => Some(Move::Alone(event)),
        None => Some(Move::Hand(client.number(), node.number())),
    }
}

/// The first client that stands in the way at a chosen node goes.
fn clear_node(
    node: &WorldNode,
    clients: &[WorldClient],
    chosen: NodeSet,
    want: &Want,
) -> Option<Move>
    ensures { result ≡ clear_node (has_node chosen) want.now clients.now node.now }
{
    if !chosen.has(node.number()) {
        return None;
    }
    for client in clients {
        if let Some(next) = clear_at(node, client, want) {
            return Some(next);
        }
    }
    None
}

/// At the first chosen node where a client stands in the way one goes.
fn clear_move(
    nodes: &[WorldNode],
    clients: &[WorldClient],
    chosen: NodeSet,
    want: &Want,
) -> Option<Move>
    ensures { result ≡ first_found (clear_node (has_node chosen) want.now clients.now) nodes.now }
{
    for node in nodes {
        if let Some(next) = clear_node(node, clients, chosen, want) {
            return Some(next);
        }
    }
    None
}

/// The client that asks hears what a chosen node has said, or asks it, unless it has its vote.
fn ask_node(
    node: &WorldNode,
    sent: &[Message],
    asked: &(Ticket, NodeSet),
    chosen: NodeSet,
    want: &Want,
) -> Option<Move>
    ensures { result ≡ ask_node (has_node chosen) want.now sent.now asked.now.0 asked.now.1 node.now }
{
    let id = node.number();
    let (ticket, granted) = *asked;
    if !chosen.has(id) || granted.has(id) {
        return None;
    }
    if has_said_grant(sent, id, &ticket) {
        Some(Move::HearFrom(id))
    } else {
        Some(Move::Hand(want.client, id))
    }
}

/// The client that asks goes on at the first chosen node whose vote it doesn't have.
fn ask_move(
    nodes: &[WorldNode],
    sent: &[Message],
    asked: &(Ticket, NodeSet),
    chosen: NodeSet,
    want: &Want,
) -> Option<Move>
    ensures { result ≡ first_found (ask_node (has_node chosen) want.now sent.now asked.now.0 asked.now.1) nodes.now }
{
    for node in nodes {
        if let Some(next) = ask_node(node, sent, asked, chosen, want) {
            return Some(next);
        }
    }
    None
}

/// The client that asks goes on asking, or enters once it has the votes of all chosen nodes.
fn ask_or_enter(
    nodes: &[WorldNode],
    sent: &[Message],
    asked: &(Ticket, NodeSet),
    chosen: NodeSet,
    want: &Want,
) -> Move
    ensures { result ≡ or_enters want.now (first_found (ask_node (has_node chosen) want.now sent.now asked.now.0 asked.now.1) nodes.now) }
{
    match ask_move(nodes, sent, asked, chosen, want) {
        Some(next) => next,
        None => Move::Alone(Event::Enter(want.client)),
    }
}

/// The client that wants in goes on by itself.
fn own_at(
    client: &WorldClient,
    nodes: &[WorldNode],
    sent: &[Message],
    chosen: NodeSet,
    want: &Want,
) -> Option<Move>
    ensures { result ≡ own_at (has_node chosen) want.now sent.now nodes.now client.now }
{
    if let Some(event) = client.beginning(want) {
        return Some(Move::Alone(event));
    }
    match client.asked() {
        Some(asked) => Some(ask_or_enter(nodes, sent, &asked, chosen, want)),
        None => None,
    }
}

/// The client of this number goes on by itself, if there is one.
fn own_move(
    nodes: &[WorldNode],
    clients: &[WorldClient],
    sent: &[Message],
    chosen: NodeSet,
    want: &Want,
) -> Option<Move>
    ensures { result ≡ own_if (has_node chosen) want.now sent.now nodes.now (numbered clients.now want.now.client) }
{
    let index = want.client.get() as usize - 1;
    if index >= clients.len() {
        return None;
    }
    own_at(&clients[index], nodes, sent, chosen, want)
}

/// The chosen nodes finish, then who stands in the way at them goes, and then the client goes on.
fn first_move(
    nodes: &[WorldNode],
    clients: &[WorldClient],
    sent: &[Message],
    chosen: NodeSet,
    want: &Want,
) -> Option<Move>
    ensures { result ≡ first_move (has_node chosen) want.now sent.now nodes.now clients.now }
{
    if let Some(next) = finish_move(nodes, chosen) {
        return Some(next);
    }
    if let Some(next) = clear_move(nodes, clients, chosen, want) {
        return Some(next);
    }
    own_move(nodes, clients, sent, chosen, want)
}

/// The next move on the way in, where the votes of the chosen nodes are to be won; `None` where there
/// is nothing to do, as for a client that is inside as it wants to be, or one that is down.
///
/// It goes over the nodes, at each chosen one over the clients, and where the client asks over the
/// messages; each look-up in a node's record is one.
pub(crate) fn next_move(
    ballots: &BallotList,
    nodes: &[WorldNode],
    clients: &[WorldClient],
    sent: &[Message],
    chosen: NodeSet,
    want: &Want,
) -> Option<Move>
    requires { IsWorld ballots.now nodes.now clients.now sent.now }
    ensures { let w = world_view ballots.now nodes.now clients.now sent.now in
        result ≡ next_move (setting_of w) (has_node chosen) want.now (forget w) }
{
    let _ballots = ballots;
    first_move(nodes, clients, sent, chosen, want)
}

/// Whether the client is down and stands in the way at the node.
fn is_held_by(node: &WorldNode, client: &WorldClient, want: &Want) -> bool
    ensures { result ≡ is_held_by want.now node.now client.now }
{
    node.blocks(want, client.number()) && !client.is_up()
}

/// Whether a client that is down stands in the way at the node.
fn is_held(node: &WorldNode, clients: &[WorldClient], want: &Want) -> bool
    ensures { result ≡ list_any (is_held_by want.now node.now) clients.now }
{
    for client in clients {
        if is_held_by(node, client, want) {
            return true;
        }
    }
    false
}

/// Whether the node's vote can be won.
fn is_won(node: &WorldNode, clients: &[WorldClient], want: &Want) -> bool
    ensures { result ≡ is_won want.now clients.now node.now }
{
    node.is_up() && !is_held(node, clients, want)
}

/// The nodes whose votes can be won, each by itself.
fn won(nodes: &[WorldNode], clients: &[WorldClient], want: &Want) -> NodeSet
    ensures { (n : ℕ) → has_node result n ≡ list_any (wins want.now clients.now n) nodes.now }
{
    let mut set = NodeSet::empty();
    for node in nodes {
        if is_won(node, clients, want) {
            set = set.with(node.number());
        }
    }
    set
}

/// The nodes whose votes can be won: each is up, and so is each other client whose ticket stands in
/// the way there. It goes over the nodes, and at each over the clients.
pub(crate) fn nodes_to_win(
    ballots: &BallotList,
    nodes: &[WorldNode],
    clients: &[WorldClient],
    sent: &[Message],
    want: &Want,
) -> NodeSet
    requires { IsWorld ballots.now nodes.now clients.now sent.now }
    ensures { let w = world_view ballots.now nodes.now clients.now sent.now in
        (n : ℕ) → has_node result n ≡ can_be_won (setting_of w) want.now (forget w) n }
{
    let (_ballots, _sent) = (ballots, sent);
    won(nodes, clients, want)
}

/// The ticket with which the client asks, if it does.
fn asking(client: &WorldClient) -> Option<Ticket>
    ensures { result ≡ asking_in (asked_in client.now.part.phase) }
{
    match client.asked() {
        Some((ticket, _)) => Some(ticket),
        None => None,
    }
}

/// The ticket with which the client of this number asks, if it does.
fn asking_by(clients: &[WorldClient], id: ClientId) -> Option<Ticket>
    ensures { result ≡ asking_if (numbered clients.now id) }
{
    let index = id.get() as usize - 1;
    if index >= clients.len() {
        return None;
    }
    asking(&clients[index])
}

/// The number of the message by which the node granted what the client of this number asks for.
pub(crate) fn grant_for(
    clients: &[WorldClient],
    sent: &[Message],
    id: ClientId,
    node: NodeId,
) -> Option<u32>
    requires { length sent.now ≤ MAX_MESSAGES }
    ensures { result ≡ grant_if node (asking_if (numbered clients.now id)) sent.now }
{
    let ticket = asking_by(clients, id)?;
    first_number(sent, node, &ticket)
}
