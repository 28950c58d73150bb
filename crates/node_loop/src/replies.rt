// The replies of a node on their way.

ghost use Rattle.std.specs.Prelude.{◌≡◌, OnOk, OnErr, IsOkUnless};
ghost use Rattle.lossy_link.specs.Links.{all_more};
ghost use Rattle.actor_steps.specs.Sendings.{sendings};
ghost use Rattle.node_loop.specs.Unsent.{GivesSome};

use event_recorders::RunFault;
use lock_messages::{Message, encode};
use lossy_link::{Link, Parcel};
use std::alloc::Global;

/// Sends each reply as its frame to whom it goes, numbered from `first` on, as far as there is memory.
#[tactic(auto, using(crate::proofs::UnsentFacts::none_given, crate::proofs::UnsentFacts::reply_given, crate::proofs::UnsentFacts::all_given))]
pub(crate) fn send_all<L: Link>(
    alloc: Global,
    first: u32,
    replies: &[Message],
    link: &mut L,
) -> Result<(), RunFault>
    ensures sent { OnOk result (L.given link.new ≡ all_more (L.given link.old) (sendings first replies.now)) }
    ensures faulted { OnErr result (GivesSome (sendings first replies.now) (L.given link.old) (L.given link.new)) }
    ensures memory { IsOkUnless result RunFault.Memory }
{
    let mut number = first;
    for reply in replies {
        let Ok(frame) = encode(alloc, reply) else {
            return Err(RunFault::Memory);
        };
        if link
            .send(reply.addressee(), Parcel { number, frame })
            .is_err()
        {
            return Err(RunFault::Memory);
        }
        number = number.wrapping_add(1);
    }
    Ok(())
}
