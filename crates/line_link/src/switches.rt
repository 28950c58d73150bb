// How a node is asked to take a problem.

ghost use Rattle.std.specs.Prelude.{◌≡◌, OnOk, OnErr, IsOkUnless};
ghost use Rattle.lossy_link.specs.Links.{one_more};
ghost use Rattle.line_link.specs.Posts.{switch_for};

use crate::carriers::Carrier;
use frame_lines::Secret;
use lock_messages::{Actor, NodeId};
use lock_model::Problem;
use lossy_link::LinkFault;
use std::alloc::Global;
use switch_lines::write_switch;

/// Gives a carrier the line that asks a node to take a problem. It does not say whether the line comes. The only fault is
/// running out of memory (903). Then nothing is given.
pub fn put_switch<C: Carrier>(
    alloc: Global,
    carrier: &mut C,
    secret: &Secret,
    node: NodeId,
    problem: Problem,
) -> Result<(), LinkFault>
    ensures given { OnOk result (C.given carrier.new ≡ one_more (C.given carrier.old) (switch_for secret.now node problem)) }
    ensures none { OnErr result (C.given carrier.new ≡ C.given carrier.old) }
    ensures memory { IsOkUnless result LinkFault.Memory }
{
    let Ok(line) = write_switch(alloc, secret, node, problem) else {
        return Err(LinkFault::Memory);
    };
    carrier.put(Actor::Node(node), line.as_bytes());
    Ok(())
}
