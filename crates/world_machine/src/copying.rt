// A copy of a world.

ghost use Rattle.std.specs.Prelude.{◌≡◌, IfOk, IsOkUnless};

use crate::World;
use admission_policy::Pair;
use std::alloc::{AllocError, Global};
use world_actors::{WorldClient, WorldNode};
use world_model::StepFault;

/// A copy of each node, in order, each with the plain rules of both problems.
fn nodes_of(alloc: Global, nodes: &[WorldNode]) -> Result<Vec<WorldNode>, AllocError>
    ensures { IfOk result (λ copies. copies.items ≡ nodes.now) }
{
    let mut copies = Vec::with_capacity(alloc, nodes.len())?;
    for node in nodes {
        let plain = Pair {
            first: None,
            second: None,
        };
        copies.push(node.copy(plain)?)?;
    }
    Ok(copies)
}

/// A copy of each client, in order.
fn clients_of(alloc: Global, clients: &[WorldClient]) -> Result<Vec<WorldClient>, AllocError>
    ensures { IfOk result (λ copies. copies.items ≡ clients.now) }
{
    let mut copies = Vec::with_capacity(alloc, clients.len())?;
    for client in clients {
        copies.push(client.copy())?;
    }
    Ok(copies)
}

impl World {
    /// A copy of the world: the same actors, each with the same part, and the same messages. What happens
    /// in one from then on doesn't happen in the other, so a copy tells what would come of events. Its
    /// nodes decide as those of the world, but tell none of the world's policies.
    ///
    /// The only error is want of memory (613). It costs what all records and the list of messages cost to
    /// be copied.
    pub fn copy(&self) -> Result<World, StepFault>
        requires { Unit {0} }
        ensures same { IfOk result (λ copy. copy ≡ self.now) }
        ensures memory { IsOkUnless result StepFault.Memory }
    {
        let alloc = self.alloc;
        let Ok(nodes) = nodes_of(alloc, &self.nodes) else {
            return Err(StepFault::Memory);
        };
        let Ok(clients) = clients_of(alloc, &self.clients) else {
            return Err(StepFault::Memory);
        };
        let Ok(sent) = self.sent.clone() else {
            return Err(StepFault::Memory);
        };
        Ok(World {
            alloc,
            ballots: self.ballots,
            nodes,
            clients,
            sent,
        })
    }
}
