// How a service is printed.

ghost use Rattle.std.specs.Prelude.{◌≡◌, ◌++◌, ◌==◌, OnOk, IfOk, List, ℕ, [], string_bytes, find};
ghost use Rattle.std.specs.List.{flat_map, count_by};
ghost use Rattle.service_status.specs.Texts.{problem_text, run_text, counts_text, fault_text, state_text, node_line, client_line, has_ticket, is_in, group_of, groups_line, groups_text, clients_text, standing_text, is_same_line, mark_text, state_in, resource_line, head_text, begin_text, end_text, piece_text, lines_from, resources_text, all_lines, SaysSight};

use crate::{Claim, ClientState, NodeState, SeenClient, SeenNode, Sight, Standing, claims_of};
use file_plate::FileFault;
use lock_messages::{ClientId, ResourceName};
use lock_model::Problem;
use stable_record::{Entries, Entry, NodeRecord};
use std::alloc::{AllocError, Global};

/// The number of a problem, and its name: `1 (reader-first)` or `2 (writer-first)`.
pub fn problem_word(problem: Problem) -> &'static str
    ensures { result.now ≡ problem_text problem }
{
    match problem {
        Problem::First => "1 (reader-first)",
        Problem::Second => "2 (writer-first)",
    }
}

fn run_word(up: bool) -> &'static str
    ensures { result.now ≡ run_text up }
{
    if up { "up" } else { "down" }
}

fn fault_words(fault: FileFault) -> &'static str
    ensures { result.now ≡ fault_text fault }
{
    match fault {
        FileFault::WrongSize => "fault 943: its record has the wrong size",
        FileFault::NotFormatted => "fault 944: its file holds no record of it",
        _ => "fault 945: its record can't be read",
    }
}

/// Whether an entry has a live ticket, and the ticket waits or doesn't, as asked.
fn has_ticket(waits: bool, entry: &Entry) -> bool
    ensures { result ≡ has_ticket waits entry.now }
{
    match &entry.live {
        None => false,
        Some(live) if waits => live.waits(),
        Some(live) => !live.waits(),
    }
}

/// How many entries have such a ticket.
fn count_tickets(waits: bool, entries: &Entries) -> usize
    ensures { result ≡ count_by (has_ticket waits) entries.now }
{
    let mut count = 0;
    for place in 0..entries.len() {
        let Some(entry) = entries.get(place) else {
            unreachable!()
        };
        if has_ticket(waits, &entry) {
            count += 1;
        }
    }
    count
}

/// Adds how many tickets of a node have its vote, and how many wait for it.
fn push_tickets(text: &mut String, entries: &Entries) -> Result<(), AllocError>
    ensures { OnOk result (string_bytes text.new ≡ string_bytes text.old ++ counts_text entries.now) }
{
    let (holding, waiting) = (count_tickets(false, entries), count_tickets(true, entries));
    write!(text, ", {holding} holding, {waiting} waiting")
}

/// Adds what is seen of a node whose record was read.
fn push_record(text: &mut String, up: bool, kept: &NodeRecord) -> Result<(), AllocError>
    ensures { OnOk result (string_bytes text.new ≡ string_bytes text.old ++ state_text (NodeState.Seen up kept.now)) }
{
    text.push_str(run_word(up))?;
    text.push_str(", problem ")?;
    text.push_str(problem_word(kept.problem))?;
    push_tickets(text, &kept.entries)
}

/// Adds what is seen of a node.
fn push_state(text: &mut String, state: &NodeState) -> Result<(), AllocError>
    ensures { OnOk result (string_bytes text.new ≡ string_bytes text.old ++ state_text state.now) }
{
    match state {
        NodeState::Seen(up, kept) => push_record(text, *up, kept),
        NodeState::Faulty(fault) => text.push_str(fault_words(*fault)),
        NodeState::Elsewhere => text.push_str("elsewhere: its record is not in this folder"),
    }
}

/// Adds the line of a node.
fn push_node(text: &mut String, seen: &SeenNode) -> Result<(), AllocError>
    ensures { OnOk result (string_bytes text.new ≡ string_bytes text.old ++ node_line seen.now) }
{
    let node = seen.node;
    write!(text, "node {node}: ")?;
    push_state(text, &seen.state)?;
    text.push_str("\n")
}

/// Adds the lines of the nodes.
fn push_nodes(text: &mut String, nodes: &[SeenNode]) -> Result<(), AllocError>
    ensures { OnOk result (string_bytes text.new ≡ string_bytes text.old ++ flat_map node_line nodes.now) }
{
    for seen in nodes {
        push_node(text, seen)?;
    }
    Ok(())
}

/// Adds the line of a client, if it is up or its record can't be read.
fn push_client(text: &mut String, seen: &SeenClient) -> Result<(), AllocError>
    ensures { OnOk result (string_bytes text.new ≡ string_bytes text.old ++ client_line seen.now) }
{
    let client = seen.client;
    match seen.state {
        ClientState::Up(attempt) => writeln!(text, "client {client}: up, last attempt {attempt}"),
        ClientState::Faulty(fault) => {
            let words = fault_words(fault);
            writeln!(text, "client {client}: {words}")
        }
        ClientState::Down | ClientState::Elsewhere => text.push_str(""),
    }
}

/// The clients that are counted together.
#[derive(Clone, Copy, PartialEq, Eq)]
enum Group {
    Up,
    Down,
    Faulty,
    Elsewhere,
}

fn group_of(state: ClientState) -> Group
    ensures { result ≡ group_of state }
{
    match state {
        ClientState::Up(_) => Group::Up,
        ClientState::Down => Group::Down,
        ClientState::Faulty(_) => Group::Faulty,
        ClientState::Elsewhere => Group::Elsewhere,
    }
}

fn is_in(group: Group, seen: &SeenClient) -> bool
    ensures { result ≡ is_in group seen.now }
{
    group_of(seen.state) == group
}

/// How many clients are in a group.
fn count_clients(group: Group, clients: &[SeenClient]) -> usize
    ensures { result ≡ count_by (is_in group) clients.now }
{
    let mut count = 0;
    for seen in clients {
        if is_in(group, seen) {
            count += 1;
        }
    }
    count
}

/// Adds the line of these counts.
fn push_counts(
    text: &mut String,
    up: usize,
    down: usize,
    elsewhere: usize,
    faulty: usize,
) -> Result<(), AllocError>
    ensures { OnOk result (string_bytes text.new ≡ string_bytes text.old ++ groups_line up down elsewhere faulty) }
{
    writeln!(
        text,
        "clients: {up} up, {down} down, {elsewhere} elsewhere, {faulty} with a fault"
    )
}

/// Adds how many clients are in each group.
fn push_groups(text: &mut String, clients: &[SeenClient]) -> Result<(), AllocError>
    ensures { OnOk result (string_bytes text.new ≡ string_bytes text.old ++ groups_text clients.now) }
{
    let up = count_clients(Group::Up, clients);
    let down = count_clients(Group::Down, clients);
    let elsewhere = count_clients(Group::Elsewhere, clients);
    let faulty = count_clients(Group::Faulty, clients);
    push_counts(text, up, down, elsewhere, faulty)?;
    Ok(())
}

/// Adds the lines of the clients.
fn push_clients(text: &mut String, clients: &[SeenClient]) -> Result<(), AllocError>
    ensures { OnOk result (string_bytes text.new ≡ string_bytes text.old ++ clients_text clients.now) }
{
    for seen in clients {
        push_client(text, seen)?;
    }
    push_groups(text, clients)
}

fn standing_word(standing: Standing) -> &'static str
    ensures { result.now ≡ standing_text standing }
{
    match standing {
        Standing::Writes => "write has the vote of",
        Standing::Reads => "read has the vote of",
        Standing::Downgraded => "read (downgraded) has the vote of",
        Standing::AwaitsWrite => "write waits for the vote of",
        Standing::AwaitsRead => "read waits for the vote of",
    }
}

/// Whether two claims differ in their nodes alone.
fn is_same_line(one: &Claim, other: &Claim) -> bool
    ensures { result ≡ is_same_line one.now other.now }
{
    one.resource == other.resource
        && one.client == other.client
        && standing_word(one.standing) == standing_word(other.standing)
}

/// What is known of a client, if it is one of these.
fn state_in(clients: &[SeenClient], client: ClientId) -> Option<ClientState>
    ensures { result ≡ state_in clients.now client }
{
    let seen = clients.iter().find(|seen| seen.client == client)?;
    Some(seen.state)
}

fn mark_word(state: Option<ClientState>) -> &'static str
    ensures { result.now ≡ mark_text state }
{
    match state {
        Some(ClientState::Down) => ", not running: rwvote reap frees it",
        _ => "",
    }
}

/// Adds the line of a resource, unless the claim before this one is of the same resource.
fn push_head(text: &mut String, before: &Option<Claim>, claim: &Claim) -> Result<(), AllocError>
    ensures { OnOk result (string_bytes text.new ≡ string_bytes text.old ++ head_text before.now claim.now) }
{
    let resource = claim.resource;
    match before {
        Some(before) if before.resource == resource => text.push_str(""),
        _ => writeln!(text, "resource {resource}"),
    }
}

/// Adds how the line of a claim begins, unless the claim before this one is of the same line.
fn push_beginning(
    text: &mut String,
    before: &Option<Claim>,
    claim: &Claim,
) -> Result<(), AllocError>
    ensures { OnOk result (string_bytes text.new ≡ string_bytes text.old ++ begin_text before.now claim.now) }
{
    let (client, words) = (claim.client, standing_word(claim.standing));
    match before {
        Some(before) if is_same_line(before, claim) => text.push_str(""),
        _ => write!(text, "  {client} {words}"),
    }
}

/// Adds how the line of a claim ends, unless the claim behind this one is of the same line.
fn push_end(
    text: &mut String,
    clients: &[SeenClient],
    claim: &Claim,
    after: &Option<Claim>,
) -> Result<(), AllocError>
    ensures { OnOk result (string_bytes text.new ≡ string_bytes text.old ++ end_text clients.now claim.now after.now) }
{
    match after {
        Some(after) if is_same_line(claim, after) => text.push_str(""),
        _ => {
            let mark = mark_word(state_in(clients, claim.client));
            writeln!(text, "{mark}")
        }
    }
}

/// Adds what is printed of a claim, between the one before it and the one behind it.
fn push_piece(
    text: &mut String,
    clients: &[SeenClient],
    before: &Option<Claim>,
    claim: &Claim,
    after: &Option<Claim>,
) -> Result<(), AllocError>
    ensures { OnOk result (string_bytes text.new ≡ string_bytes text.old ++ piece_text clients.now before.now claim.now after.now) }
{
    let node = claim.node;
    push_head(text, before, claim)?;
    push_beginning(text, before, claim)?;
    write!(text, " {node}")?;
    push_end(text, clients, claim, after)
}

/// Adds the lines of claims.
fn push_lines(text: &mut String, clients: &[SeenClient], claims: &[Claim]) -> Result<(), AllocError>
    ensures { OnOk result (string_bytes text.new ≡ string_bytes text.old ++ lines_from clients.now None claims.now) }
{
    let (mut before, mut left) = (None, claims);
    while let [claim, rest @ ..] = left {
        push_piece(text, clients, &before, claim, &rest.first().copied())?;
        before = Some(*claim);
        left = rest;
    }
    Ok(())
}

/// Adds the lines of the resources.
fn push_resources(
    text: &mut String,
    clients: &[SeenClient],
    claims: &[Claim],
) -> Result<(), AllocError>
    ensures { OnOk result (string_bytes text.new ≡ string_bytes text.old ++ resources_text clients.now claims.now) }
{
    if claims.is_empty() {
        return text.push_str("no resource is held or waited for\n");
    }
    push_lines(text, clients, claims)
}

/// Adds the lines of these nodes, clients and claims.
fn push_all(
    text: &mut String,
    nodes: &[SeenNode],
    clients: &[SeenClient],
    claims: &[Claim],
) -> Result<(), AllocError>
    ensures { OnOk result (string_bytes text.new ≡ string_bytes text.old ++ all_lines nodes.now clients.now claims.now) }
{
    push_nodes(text, nodes)?;
    push_clients(text, clients)?;
    push_resources(text, clients, claims)?;
    Ok(())
}

/// The lines of a service: its nodes, its clients and its resources. Running out of memory is the only error.
pub fn text_of(alloc: Global, sight: &Sight) -> Result<String, AllocError>
    ensures { IfOk result (λ text. SaysSight sight.now (string_bytes text)) }
{
    let claims = claims_of(alloc, &sight.nodes)?;
    let mut text = String::new(alloc);
    push_all(&mut text, &sight.nodes, &sight.clients, &claims)?;
    Ok(text)
}
