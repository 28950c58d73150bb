// How the threads of a run ended.

ghost use Rattle.std.specs.Prelude.{◌≡◌, ◌++◌, IfOk};
ghost use Rattle.std.specs.List.{filter_map};
ghost use Rattle.node_threads.specs.Ends.{node_fault, client_fault};

use event_lines::Wish;
use event_recorders::RunFault;
use history_book::Berth;
use lock_messages::{Actor, ClientId, NodeId};
use std::alloc::{AllocError, Global};

/// How a node's thread ended.
#[derive(Drop)]
pub(crate) struct NodeEnd {
    pub(crate) node: NodeId,
    pub(crate) fault: Option<RunFault>,
}

/// How a client's thread ended: the wishes that it was given, how many of them were entered, also where it
/// ended by a fault, and the berth through which it logged.
#[derive(Drop)]
pub(crate) struct ClientEnd {
    pub(crate) client: ClientId,
    pub(crate) wishes: Vec<Wish>,
    pub(crate) entered: u32,
    pub(crate) fault: Option<RunFault>,
    pub(crate) berth: Berth,
}

/// How all threads ended.
#[derive(Drop)]
pub(crate) struct Ends {
    pub(crate) nodes: Vec<NodeEnd>,
    pub(crate) clients: Vec<ClientEnd>,
}

/// The nodes that ended by faults, with these, in order.
pub(crate) fn node_faults(
    alloc: Global,
    ends: &[NodeEnd],
) -> Result<Vec<(Actor, RunFault)>, AllocError>
    ensures { IfOk result (λ faults. faults.items ≡ filter_map node_fault ends.now) }
{
    ends.iter()
        .filter_map(|end| end.fault.map(|fault| (Actor::Node(end.node), fault)))
        .collect(alloc)
}

/// The clients that ended by faults, with these, in order.
fn client_faults(alloc: Global, ends: &[ClientEnd]) -> Result<Vec<(Actor, RunFault)>, AllocError>
    ensures { IfOk result (λ faults. faults.items ≡ filter_map client_fault ends.now) }
{
    let mut faults = Vec::new(alloc);
    for end in ends {
        if let Some(fault) = end.fault {
            let Ok(()) = faults.push((Actor::Client(end.client), fault)) else {
                return Err(AllocError);
            };
        }
    }
    Ok(faults)
}

/// The actors that ended by faults, with these, nodes first.
pub(crate) fn faults_of(alloc: Global, ends: &Ends) -> Result<Vec<(Actor, RunFault)>, AllocError>
    ensures { IfOk result (λ faults. faults.items ≡ filter_map node_fault ends.now.nodes.items ++ filter_map client_fault ends.now.clients.items) }
{
    let mut faults = node_faults(alloc, ends.nodes.as_slice())?;
    let mut others = client_faults(alloc, ends.clients.as_slice())?;
    faults.append(&mut others)?;
    Ok(faults)
}
