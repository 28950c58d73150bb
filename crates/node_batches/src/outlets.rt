// Keeping a record, and sending what was held back.

ghost use Rattle.std.specs.Prelude.{◌≡◌, ◌≤◌, [], ◌∷◌, false, length, OnOk, OnErr, IfErr, IfOk, IsOkUnless};
ghost use Rattle.lossy_link.specs.Links.{one_more, all_more};
ghost use Rattle.stable_record.specs.declared.formats.TheConstants.{MAX_RECORD_LEN};
ghost use Rattle.stable_record.specs.Finding.{FindsOnly, FindsOnlyOr};
ghost use Rattle.node_loop.specs.Unsent.{GivesSome};
ghost use Rattle.node_batches.specs.Batches.{HasCause, IsHalfOut};

use event_recorders::RunFault;
use lossy_link::{Link, LinkFault, Sending};
use stable_record::{RecordFault, StableRecord};

/// The bytes that the node finds in its record, once.
#[tactic(auto, using(crate::proofs::BatchFacts::reopened_only))]
pub(crate) fn found_in(stable: &mut dyn StableRecord) -> Result<Vec<u8>, RunFault>
    ensures found { IfOk result (λ bytes. finds stable.new ≡ bytes.items ∷ []) }
    ensures only { FindsOnly (finds stable.old) (finds stable.new) }
    ensures free { OnOk result (stuck_of stable.new ≡ false) }
    ensures cause { IfErr result (λ f. HasCause f (stuck_of stable.new) (spent_of stable.new)) }
{
    match stable.reopen() {
        Ok(bytes) => Ok(bytes),
        Err(RecordFault::Device) => Err(RunFault::NotReopened),
        Err(RecordFault::Memory) => Err(RunFault::Memory),
        Err(_) => unreachable!(),
    }
}

/// Keeps the next bytes in the record, unless it has them.
#[tactic(auto, using(crate::proofs::BatchFacts::failed_only, crate::proofs::BatchFacts::same_only, crate::proofs::BatchFacts::new_only))]
pub(crate) fn keep(
    before: &[u8],
    next: &[u8],
    stable: &mut dyn StableRecord,
) -> Result<(), RunFault>
    requires found { finds stable.old ≡ before.now ∷ [] }
    requires free { stuck_of stable.old ≡ false }
    requires fits { length next.now ≤ MAX_RECORD_LEN }
    ensures kept { OnOk result ((finds stable.new ≡ next.now ∷ []) × (stuck_of stable.new ≡ false)) }
    ensures only { FindsOnlyOr (before.now ∷ []) next.now (finds stable.new) }
    ensures cause { IfErr result (λ f. HasCause f (stuck_of stable.new) (spent_of stable.new)) }
{
    if next == before {
        return Ok(());
    }
    match stable.keep(next) {
        Ok(()) => Ok(()),
        Err(RecordFault::Device) => Err(RunFault::NotReopened),
        Err(RecordFault::Spent) => Err(RunFault::Spent),
        Err(RecordFault::Memory) => Err(RunFault::Memory),
        Err(_) => unreachable!(),
    }
}

/// Sends or tells it over the link.
fn pass<L: Link>(sending: Sending, link: &mut L) -> Result<(), LinkFault>
    ensures passed { OnOk result (L.given link.new ≡ one_more (L.given link.old) sending) }
    ensures still { OnErr result (L.given link.new ≡ L.given link.old) }
    ensures memory { IsOkUnless result LinkFault.Memory }
{
    match sending {
        Sending::Sent(to, parcel) => link.send(to, parcel),
        Sending::Told(post) => link.tell_all(post),
    }
}

/// Sends what was held back, in order.
#[tactic(auto, using(node_loop::proofs::UnsentFacts::none_given, node_loop::proofs::UnsentFacts::all_given, crate::proofs::BatchFacts::one_given))]
fn send_held<L: Link>(held: Vec<Sending>, link: &mut L) -> Result<(), RunFault>
    ensures sent { OnOk result (L.given link.new ≡ all_more (L.given link.old) held.items) }
    ensures faulted { OnErr result (GivesSome held.items (L.given link.old) (L.given link.new)) }
    ensures memory { IsOkUnless result RunFault.Memory }
{
    for sending in held {
        if pass(sending, link).is_err() {
            return Err(RunFault::Memory);
        }
    }
    Ok(())
}

/// Keeps the next bytes, and only then sends what was held back.
pub(crate) fn keep_and_send<L: Link>(
    before: &[u8],
    next: &[u8],
    held: Vec<Sending>,
    stable: &mut dyn StableRecord,
    link: &mut L,
) -> Result<(), RunFault>
    requires found { finds stable.old ≡ before.now ∷ [] }
    requires free { stuck_of stable.old ≡ false }
    requires fits { length next.now ≤ MAX_RECORD_LEN }
    ensures kept { OnOk result ((finds stable.new ≡ next.now ∷ []) × (stuck_of stable.new ≡ false)) }
    ensures sent { OnOk result (L.given link.new ≡ all_more (L.given link.old) held.items) }
    ensures half { OnErr result (IsHalfOut before.now next.now held.items (finds stable.new) (L.given link.old) (L.given link.new)) }
    ensures cause { IfErr result (λ f. HasCause f (stuck_of stable.new) (spent_of stable.new)) }
{
    keep(before, next, stable)?;
    send_held(held, link)
}
