// Lines: which event or query each one is, and how it is written.

ghost use Rattle.std.specs.Prelude.{◌≡◌, ◌∷◌, [], ◌++◌, IfOk, OnOk, string_bytes};
ghost use Rattle.event_lines.specs.declared.commands.Command.TheVariants as command;
ghost use Rattle.event_lines.specs.declared.lines.Line.TheVariants as line;
ghost use Rattle.event_lines.specs.Lines.{AClient, AMode, AName, ANode, ANumber, AnActor, AnAge, APlace, AProblem, arguments_in, said_by, line_of, text_of};
ghost use Rattle.event_lines.specs.Reading.{Gives, words_behind};

use crate::LineFault;
use crate::commands::{Command, named};
use crate::words::{
    MAX_LINE_LEN, actor_of, age_of, client_of, first_word, message_of, mode_of, name_of, node_of,
    one, place_of, problem_of, three_or_four, two,
};
use lock_messages::{Actor, ClientId, Mode, NodeId, ResourceName};
use lock_model::Problem;
use std::alloc::{AllocError, Global};
use world_model::{Age, Event};

/// What a script asks.
#[derive(Clone, Copy, Debug, PartialEq, Eq)]
pub enum Query {
    /// Who is inside this resource?
    Inside(ResourceName),
    /// Which tickets wait at the node for this resource?
    Waiting(NodeId, ResourceName),
    /// Which tickets hold it there?
    Holding(NodeId, ResourceName),
}

/// What a line says.
#[derive(Clone, Copy, Debug, PartialEq, Eq)]
pub enum Line {
    /// What happens.
    Event(Event),
    /// What is asked.
    Query(Query),
}

fn one_client(rest: Option<&[u8]>) -> Result<ClientId, LineFault>
    ensures { Gives (λ x. (x, tt)) result (arguments_in (AClient ∷ []) (words_behind rest.entry)) }
{
    client_of(one(rest)?)
}

fn one_node(rest: Option<&[u8]>) -> Result<NodeId, LineFault>
    ensures { Gives (λ x. (x, tt)) result (arguments_in (ANode ∷ []) (words_behind rest.entry)) }
{
    node_of(one(rest)?)
}

fn one_actor(rest: Option<&[u8]>) -> Result<Actor, LineFault>
    ensures { Gives (λ x. (x, tt)) result (arguments_in (AnActor ∷ []) (words_behind rest.entry)) }
{
    actor_of(one(rest)?)
}

fn one_name(rest: Option<&[u8]>) -> Result<ResourceName, LineFault>
    ensures { Gives (λ x. (x, tt)) result (arguments_in (AName ∷ []) (words_behind rest.entry)) }
{
    name_of(one(rest)?)
}

fn client_and_node(rest: Option<&[u8]>) -> Result<(ClientId, NodeId), LineFault>
    ensures { Gives (λ x. (x.0, (x.1, tt))) result (arguments_in (AClient ∷ ANode ∷ []) (words_behind rest.entry)) }
{
    let (first, second) = two(rest)?;
    Ok((client_of(first)?, node_of(second)?))
}

fn client_and_number(rest: Option<&[u8]>) -> Result<(ClientId, u32), LineFault>
    ensures { Gives (λ x. (x.0, (x.1, tt))) result (arguments_in (AClient ∷ ANumber ∷ []) (words_behind rest.entry)) }
{
    let (first, second) = two(rest)?;
    Ok((client_of(first)?, message_of(second)?))
}

fn node_and_number(rest: Option<&[u8]>) -> Result<(NodeId, u32), LineFault>
    ensures { Gives (λ x. (x.0, (x.1, tt))) result (arguments_in (ANode ∷ ANumber ∷ []) (words_behind rest.entry)) }
{
    let (first, second) = two(rest)?;
    Ok((node_of(first)?, message_of(second)?))
}

fn node_and_name(rest: Option<&[u8]>) -> Result<(NodeId, ResourceName), LineFault>
    ensures { Gives (λ x. (x.0, (x.1, tt))) result (arguments_in (ANode ∷ AName ∷ []) (words_behind rest.entry)) }
{
    let (first, second) = two(rest)?;
    Ok((node_of(first)?, name_of(second)?))
}

fn actor_and_age(rest: Option<&[u8]>) -> Result<(Actor, Age), LineFault>
    ensures { Gives (λ x. (x.0, (x.1, tt))) result (arguments_in (AnActor ∷ AnAge ∷ []) (words_behind rest.entry)) }
{
    let (first, second) = two(rest)?;
    Ok((actor_of(first)?, age_of(second)?))
}

fn node_and_problem(rest: Option<&[u8]>) -> Result<(NodeId, Problem), LineFault>
    ensures { Gives (λ x. (x.0, (x.1, tt))) result (arguments_in (ANode ∷ AProblem ∷ []) (words_behind rest.entry)) }
{
    let (first, second) = two(rest)?;
    Ok((node_of(first)?, problem_of(second)?))
}

/// A client, a mode and a name, and the place of a ballot: it has no word where it is 1.
fn client_mode_name_and_place(
    rest: Option<&[u8]>,
) -> Result<(ClientId, Mode, ResourceName, u8), LineFault>
    ensures { Gives (λ x. (x.0, (x.1, (x.2, (x.3, tt))))) result (arguments_in (AClient ∷ AMode ∷ AName ∷ APlace ∷ []) (words_behind rest.entry)) }
{
    let (first, second, third, fourth) = three_or_four(rest)?;
    Ok((
        client_of(first)?,
        mode_of(second)?,
        name_of(third)?,
        place_of(fourth)?,
    ))
}

fn inside(rest: Option<&[u8]>) -> Result<Line, LineFault>
    ensures { result ≡ said_by command.Inside (words_behind rest.entry) }
{
    Ok(Line::Query(Query::Inside(one_name(rest)?)))
}

fn waiting(rest: Option<&[u8]>) -> Result<Line, LineFault>
    ensures { result ≡ said_by command.Waiting (words_behind rest.entry) }
{
    let (node, name) = node_and_name(rest)?;
    Ok(Line::Query(Query::Waiting(node, name)))
}

fn holding(rest: Option<&[u8]>) -> Result<Line, LineFault>
    ensures { result ≡ said_by command.Holding (words_behind rest.entry) }
{
    let (node, name) = node_and_name(rest)?;
    Ok(Line::Query(Query::Holding(node, name)))
}

/// What the command says with these arguments. Each row has their kinds, in order.
fn said_by(command: Command, rest: Option<&[u8]>) -> Result<Line, LineFault>
    ensures { result ≡ said_by command (words_behind rest.entry) }
{
    let event = match command {
        Command::Begin => {
            let (client, mode, name, place) = client_mode_name_and_place(rest)?;
            Event::Begin(client, mode, name, place)
        }
        Command::Try => Event::Try(one_actor(rest)?),
        Command::Kept => Event::Kept(one_actor(rest)?),
        Command::SayTo => {
            let (client, node) = client_and_node(rest)?;
            Event::SayTo(client, node)
        }
        Command::Say => Event::Say(one_node(rest)?),
        Command::Take => {
            let (node, number) = node_and_number(rest)?;
            Event::Take(node, number)
        }
        Command::Hear => {
            let (client, number) = client_and_number(rest)?;
            Event::Hear(client, number)
        }
        Command::Enter => Event::Enter(one_client(rest)?),
        Command::Leave => Event::Leave(one_client(rest)?),
        Command::Soften => Event::Soften(one_client(rest)?),
        Command::Fall => Event::Fall(one_actor(rest)?),
        Command::Rise => {
            let (actor, age) = actor_and_age(rest)?;
            Event::Rise(actor, age)
        }
        Command::Switch => {
            let (node, problem) = node_and_problem(rest)?;
            Event::Switch(node, problem)
        }
        Command::Inside => return inside(rest),
        Command::Waiting => return waiting(rest),
        Command::Holding => return holding(rest),
    };
    Ok(Line::Event(event))
}

/// What a line says to who reads these commands, given without its line feed.
///
/// A `begin` names a client, a mode, a resource and by which ballot it is: `begin c2 read a` is by the one at
/// place 1, `begin c2 read a b2` by the one at place 2, and so on to `b8`. That the first place has no word is
/// our own rule: so each event has one spelling.
///
/// # Errors
///
/// A line over `MAX_LINE_LEN` bytes is `Words` (805). Else its words stand between its spaces, and
/// the first that applies is answered: the first word is none of the commands (`Word`, 801), words
/// are missing or left over (`Words`, 805), and then from the left what is wrong with an argument:
/// an actor (`Actor`, 802), a message's number (`Number`, 803), a resource's name (`Name`, 804), a
/// mode or an age (`Word`, 801), the place of a ballot that is written and isn't from 2 to 8, or a problem
/// other than `1` and `2` (`Number`, 803).
#[tactic(auto, unfolding(crate::specs::Lines::line_of))]
pub fn read_line(commands: &[Command], line: &[u8]) -> Result<Line, LineFault>
    ensures { result ≡ line_of commands.now line.now }
{
    if line.len() > MAX_LINE_LEN {
        return Err(LineFault::Words);
    }
    let (first, rest) = first_word(line);
    said_by(named(commands, first)?, rest)
}

/// Adds the text of an event.
pub(crate) fn push_event(text: &mut String, event: &Event) -> Result<(), AllocError>
    ensures { OnOk result (string_bytes text.new ≡ string_bytes text.old ++ text_of (line.Event event.now)) }
{
    match *event {
        Event::Begin(client, mode, name, 1) => write!(text, "begin {client} {mode} {name}"),
        Event::Begin(client, mode, name, place) => {
            write!(text, "begin {client} {mode} {name} b{place}")
        }
        Event::Try(actor) => write!(text, "try {actor}"),
        Event::Kept(actor) => write!(text, "kept {actor}"),
        Event::SayTo(client, node) => write!(text, "sayto {client} {node}"),
        Event::Say(node) => write!(text, "say {node}"),
        Event::Take(node, number) => write!(text, "take {node} {number}"),
        Event::Hear(client, number) => write!(text, "hear {client} {number}"),
        Event::Enter(client) => write!(text, "enter {client}"),
        Event::Leave(client) => write!(text, "leave {client}"),
        Event::Soften(client) => write!(text, "soften {client}"),
        Event::Fall(actor) => write!(text, "fall {actor}"),
        Event::Rise(actor, Age::Old) => write!(text, "rise {actor} old"),
        Event::Rise(actor, Age::New) => write!(text, "rise {actor} new"),
        Event::Switch(node, Problem::First) => write!(text, "switch {node} 1"),
        Event::Switch(node, Problem::Second) => write!(text, "switch {node} 2"),
    }
}

/// The text of a query.
fn push_query(text: &mut String, query: &Query) -> Result<(), AllocError>
    ensures { OnOk result (string_bytes text.new ≡ string_bytes text.old ++ text_of (line.Query query.now)) }
{
    match *query {
        Query::Inside(name) => write!(text, "inside {name}"),
        Query::Waiting(node, name) => write!(text, "waiting {node} {name}"),
        Query::Holding(node, name) => write!(text, "holding {node} {name}"),
    }
}

/// The one text of an event or a query, without a line feed.
///
/// # Errors
///
/// Memory was refused.
pub fn write_line(alloc: Global, line: &Line) -> Result<String, AllocError>
    ensures { IfOk result (λ s. string_bytes s ≡ text_of line.now) }
{
    let mut text = String::new(alloc);
    match line {
        Line::Event(event) => push_event(&mut text, event)?,
        Line::Query(query) => push_query(&mut text, query)?,
    }
    Ok(text)
}
