// A journal and its settings, drawn.

ghost use Rattle.std.specs.Prelude.{◌≡◌, ◌≢◌, ◌≤◌, ◌++◌, ◌∷◌, [], ℕ, List, Option, Err, IfOk, OnOk, IsErrOf, length, map};
ghost use Rattle.std.specs.List.{range_with_len};
ghost use Rattle.lock_messages.specs.declared.ids.TheConstants.{MAX_NODES, MAX_CLIENTS};
ghost use Rattle.lock_messages.specs.Ids.{IsNode, IsClient};
ghost use Rattle.lock_model.specs.Ballots.{node_count};
ghost use Rattle.world_model.specs.declared.exact.ExactWorld.{ExactWorld};
ghost use Rattle.run_picture.specs.declared.marks.Lasting.TheVariants.{Down};
ghost use Rattle.picture_cli.specs.Drawing.{fault_on, FindsBehind, DrawsBehind, RefusesStart, ShowsInput, DrawsPart, KeepsRefused, node_down, client_down, down_at_first};

use event_lines::laws::events_are_spelled_once;
use journal_audit::{AuditFault, Verdict};
use journal_picture::{Canvas, CanvasFault, Drawing, draw_lines};
use line_streams::{LineReader, MAX_READS};
use lock_messages::{Actor, ClientId, NodeId};
use operator_cli::ServeFault;
use run_picture::{Lasting, Part};
use std::alloc::{AllocError, Global};
use std::io::Read;
use world_machine::World;
use world_settings::{
    Command, Policies, Settings, SettingsFault, StartFault, read_start, world_down,
};

/// What came of drawing a journal.
#[derive(Clone, Copy, Debug, PartialEq, Eq)]
pub enum Shown {
    /// It was drawn, and this is found of it.
    Drawn(Verdict),
    /// Its settings are refused, and nothing was drawn.
    Refused(SettingsFault),
}

/// Adds that an actor is down.
fn add_down(lasting: &mut Vec<Lasting>, who: Actor) -> Result<(), AllocError>
    ensures { OnOk result (lasting.new.items ≡ lasting.old.items ++ Down who ∷ []) }
{
    lasting.extend_from_slice(&[Lasting::Down(who)])
}

/// Adds that the node of this number is down.
fn add_node(lasting: &mut Vec<Lasting>, number: u8) -> Result<(), AllocError>
    requires { IsNode number }
    ensures { OnOk result (lasting.new.items ≡ lasting.old.items ++ node_down number ∷ []) }
{
    match NodeId::of(number) {
        Some(node) => add_down(lasting, Actor::Node(node)),
        None => Ok(()),
    }
}

/// Adds that the client of this number is down.
fn add_client(lasting: &mut Vec<Lasting>, number: u32) -> Result<(), AllocError>
    requires { IsClient number }
    ensures { OnOk result (lasting.new.items ≡ lasting.old.items ++ client_down number ∷ []) }
{
    match ClientId::of(number) {
        Some(client) => add_down(lasting, Actor::Client(client)),
        None => Ok(()),
    }
}

/// Adds that so many nodes are down.
fn add_nodes(lasting: &mut Vec<Lasting>, nodes: u8) -> Result<(), AllocError>
    requires { nodes ≤ MAX_NODES }
    ensures { OnOk result (lasting.new.items ≡ lasting.old.items ++ map node_down (range_with_len 1 nodes)) }
{
    for before in 0..nodes {
        add_node(lasting, before + 1)?;
    }
    Ok(())
}

/// Adds that so many clients are down.
fn add_clients(lasting: &mut Vec<Lasting>, clients: u16) -> Result<(), AllocError>
    requires { clients ≤ MAX_CLIENTS }
    ensures { OnOk result (lasting.new.items ≡ lasting.old.items ++ map client_down (range_with_len 1 clients)) }
{
    for before in 0..clients {
        add_client(lasting, before as u32 + 1)?;
    }
    Ok(())
}

/// What lasts in a world of so many actors, all of which are down.
fn all_down(alloc: Global, nodes: u8, clients: u16) -> Result<Vec<Lasting>, AllocError>
    requires few_nodes { nodes ≤ MAX_NODES }
    requires few_clients { clients ≤ MAX_CLIENTS }
    ensures { IfOk result (λ all. all.items ≡ down_at_first nodes clients) }
{
    let mut lasting = Vec::new(alloc);
    add_nodes(&mut lasting, nodes)?;
    add_clients(&mut lasting, clients)?;
    Ok(lasting)
}

/// A canvas's fault, as one of an audit.
fn told(fault: CanvasFault) -> ServeFault
    ensures told { result ≡ fault_on fault }
    ensures begun { result ≢ ServeFault.Memory }
    ensures found { (w : ExactWorld) (left : Option (List ℕ)) → FindsBehind w left (Err result) }
{
    match fault {
        CanvasFault::Write => ServeFault::Audit(AuditFault::Write),
        CanvasFault::Memory => ServeFault::Audit(AuditFault::Memory),
    }
}

/// Draws the picture of the lines that are left, from this world on, in which so many actors are down.
fn draw_world<R: Read, C: Canvas>(
    alloc: Global,
    world: World,
    settings: &Settings,
    part: Part,
    source: &mut LineReader<R>,
    canvas: &mut C,
) -> Result<Verdict, ServeFault>
    requires { settings.now.clients ≤ MAX_CLIENTS }
    ensures found { FindsBehind world source.old result }
    ensures drawn { DrawsBehind world (node_count settings.now.ballots) settings.now.clients part source.old (C.drawn canvas.old) (C.drawn canvas.new) result }
    ensures unbegun { IsErrOf result ServeFault.Memory → canvas.new ≡ canvas.old }
{
    let (nodes, clients) = (settings.ballots.nodes(), settings.clients);
    let Ok(lasting) = all_down(alloc, nodes, clients) else {
        return Err(ServeFault::Memory);
    };
    if let Err(fault) = canvas.begin(nodes, clients, &part) {
        return Err(told(fault));
    }
    match draw_lines(alloc, world, part, lasting.as_slice(), source, canvas) {
        Ok(Drawing { verdict, end }) => match canvas.end(&end) {
            Ok(()) => Ok(verdict),
            Err(fault) => Err(told(fault)),
        },
        Err(fault) => Err(ServeFault::Audit(fault)),
    }
}

/// Ends without settings.
fn refused(fault: StartFault) -> Result<Shown, ServeFault>
    ensures { RefusesStart fault result }
{
    match fault {
        StartFault::Read => Err(ServeFault::Read),
        StartFault::Settings(fault) => Ok(Shown::Refused(fault)),
    }
}

/// Draws a part of a journal, in front of which its settings stand.
///
/// What is found of the journal is what an audit of it finds. The picture is begun with a column for each actor
/// of the settings, gets the marks that `draw_lines` draws from the world in which all of them are down, and is
/// ended where that says. Where settings are refused, and after 931 and 933, the canvas stays as it is.
///
/// Contracts speak of what the reader has left and of what was done on the canvas, where these are known. The
/// caller owes sixteen pairs of policies.
///
/// # Errors
///
/// Those of `rwvote audit`: 816 to 819 where the journal is read and drawn, 931 where the settings are read, 933
/// where there is no memory for a world. All but 931 come of settings that are right. What is drawn where a fault
/// of 816 to 819 ends it is not promised.
pub fn draw_journal<R: Read, C: Canvas>(
    alloc: Global,
    policies: Policies,
    part: Part,
    reader: R,
    canvas: &mut C,
) -> Result<Shown, ServeFault>
where
    R: Drop,
    requires policies { length policies.pairs.items ≡ MAX_NODES }
    ensures shown { ShowsInput (R.remaining reader) result }
    ensures drawn { DrawsPart (R.remaining reader) part (C.drawn canvas.old) (C.drawn canvas.new) result }
    ensures kept { KeepsRefused result canvas.old canvas.new }
{
    events_are_spelled_once();
    let mut source = LineReader::new(reader, MAX_READS);
    let mut head = Vec::new(alloc);
    let settings = match read_start(alloc, Command::Audit, &mut source, &mut head) {
        Ok(start) => start.settings,
        Err(fault) => return refused(fault),
    };
    let Ok(world) = world_down(alloc, &settings, policies) else {
        return Err(ServeFault::Memory);
    };
    match draw_world(alloc, world, &settings, part, &mut source, canvas) {
        Ok(verdict) => Ok(Shown::Drawn(verdict)),
        Err(fault) => Err(fault),
    }
}
