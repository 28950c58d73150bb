// A batch: its posts, its work, and what goes out.

ghost use Rattle.std.specs.Prelude.{◌≡◌, ◌++◌, ◌∷◌, ◌≤◌, [], false, length, IfOk, IfErr, OnOk, OnErr, IsOkUnless};
ghost use Rattle.actor_steps.specs.Steps.{IsBookFault};
ghost use Rattle.actor_steps.specs.Endings.{falls_of};
ghost use Rattle.actor_steps.specs.Sendings.{sent_of, SentFollows};
ghost use Rattle.node_loop.specs.Standing.{StandsIdle, as_opened, IsAtEnd};
ghost use Rattle.node_batches.specs.Batches.{Rests, SendsKeptSince, HasCause, then_coming};

use crate::held_links::{Before, HeldLink};
use crate::outlets::keep_and_send;
use event_recorders::laws::records_fit;
use event_recorders::{Gate, Recorder, RunFault};
use lossy_link::{Link, Post, Sending};
use node_loop::serve;
use own_recorders::{BatchJournal, OwnActor, OwnRecorder};
use stable_record::{MemoryRecord, StableRecord};
use std::alloc::Global;
use std::marker::Brand;
use std::sync::Wait;
use voter_core::NodeCore;

/// How many messages are worked off together at most.
pub const MAX_BATCH: u32 = 64;

/// Waits for a post, and takes those that have come with it, at most `MAX_BATCH` in all, in order. There is none if nothing
/// more comes.
#[tactic(auto, using(crate::proofs::BatchFacts::none_brought, crate::proofs::BatchFacts::first_brought, crate::proofs::BatchFacts::next_brought))]
pub(crate) fn gather<L: Link>(alloc: Global, link: &mut L) -> Result<Vec<Post>, RunFault>
    ensures brought { IfOk result (λ posts. L.coming link.old ≡ then_coming posts.items (L.coming link.new)) }
    ensures few { IfOk result (λ posts. length posts.items ≤ MAX_BATCH) }
    ensures closed { IfOk result (λ posts. posts.items ≡ [] → IsAtEnd (L.coming link.new)) }
    ensures given { L.given link.new ≡ L.given link.old }
    ensures refused { L.refused link.new ≡ L.refused link.old }
    ensures memory { IsOkUnless result RunFault.Memory }
{
    let mut posts = Vec::new(alloc);
    let Ok(first) = link.receive() else {
        return Ok(posts);
    };
    let Ok(()) = posts.push(first) else {
        return Err(RunFault::Memory);
    };
    for _ in 1..MAX_BATCH {
        if !link.has_more() {
            break;
        }
        let Ok(post) = link.receive() else {
            break;
        };
        let Ok(()) = posts.push(post) else {
            return Err(RunFault::Memory);
        };
    }
    Ok(posts)
}

/// What a node has in memory: its core, and a copy of its record.
#[derive(Drop)]
pub(crate) struct Desk {
    pub(crate) core: NodeCore,
    pub(crate) copy: MemoryRecord,
}

/// Works off the posts of a batch over the copy, and returns what is to be sent then.
#[tactic(auto, using(crate::proofs::BatchFacts::held_since, crate::proofs::BatchFacts::never_falls, crate::proofs::BatchFacts::refused_only))]
fn work_off<B: Before, T: Wait, R: Recorder, G: Gate>(
    rt: &T,
    alloc: Global,
    posts: Vec<Post>,
    desk: &mut Desk,
    recorder: &mut R,
    gate: &G,
) -> Result<Vec<Sending>, RunFault>
    requires idle { StandsIdle (R.own_log recorder.old) desk.old.core (desk.old.copy ∷ []) false }
    requires up { falls_of (R.own_log recorder.old) ≡ 0 }
    requires before { sent_of (R.own_log recorder.old) ≡ B.sent }
    ensures idle { OnOk result (StandsIdle (R.own_log recorder.new) desk.new.core (desk.new.copy ∷ []) false) }
    ensures up { OnOk result (falls_of (R.own_log recorder.new) ≡ 0) }
    ensures sent { IfOk result (λ held. sent_of (R.own_log recorder.new) ≡ sent_of (R.own_log recorder.old) ++ held.items) }
    ensures opened { as_opened (R.own_log recorder.new) ≡ as_opened (R.own_log recorder.old) }
    ensures faults { IfErr result IsBookFault }
{
    let mut link = HeldLink::<B>::of(alloc, posts);
    serve(
        rt,
        alloc,
        &mut desk.core,
        &mut desk.copy,
        recorder,
        &mut link,
        gate,
    )?;
    Ok(link.into_held())
}

/// A copy of the bytes that the copy of the record holds.
pub(crate) fn bytes_of(copy: &mut MemoryRecord) -> Result<Vec<u8>, RunFault>
    ensures same { copy.new ≡ copy.old }
    ensures bytes { IfOk result (λ bytes. bytes.items ≡ copy.old) }
    ensures memory { IsOkUnless result RunFault.Memory }
{
    match copy.reopen() {
        Ok(bytes) => Ok(bytes),
        Err(_) => Err(RunFault::Memory),
    }
}

/// Works off the posts of a batch. Then the journal's lines go out, the record is kept, and what is to be sent is sent.
#[tactic(auto, using(crate::proofs::BatchFacts::batching))]
pub(crate) fn do_batch<T: Wait, K: OwnActor, W: BatchJournal + Drop, L: Link, G: Gate>(
    rt: &T,
    alloc: Global,
    posts: Vec<Post>,
    desk: &mut Desk,
    stable: &mut dyn StableRecord,
    recorder: &mut OwnRecorder<K, W>,
    link: &mut L,
    gate: &G,
) -> Result<(), RunFault>
    requires rests { Rests recorder.old.log desk.old.core desk.old.copy (finds stable.old) (stuck_of stable.old) }
    ensures rests { OnOk result (Rests recorder.new.log desk.new.core desk.new.copy (finds stable.new) (stuck_of stable.new)) }
    ensures sent { OnOk result (SentFollows recorder.old.log recorder.new.log (L.given link.old) (L.given link.new)) }
    ensures kept { OnErr result (SendsKeptSince recorder.old.log recorder.new.log (finds stable.new) (L.given link.old) (L.given link.new)) }
    ensures opened { as_opened recorder.new.log ≡ as_opened recorder.old.log }
    ensures cause { IfErr result (λ f. HasCause f (stuck_of stable.new) (spent_of stable.new)) }
{
    let before = bytes_of(&mut desk.copy)?;
    let held = work_off::<Brand, T, OwnRecorder<K, W>, G>(rt, alloc, posts, desk, recorder, gate)?;
    let next = bytes_of(&mut desk.copy)?;
    records_fit();
    let Ok(()) = recorder.let_out(&next) else {
        return Err(RunFault::Book);
    };
    recorder.tell();
    keep_and_send(&before, &next, held, stable, link)
}
