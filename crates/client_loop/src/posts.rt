// What a client does on a post.

ghost use Rattle.std.specs.Prelude.{◌≡◌, ◌↔◌, ◌≤◌, ◌+◌, ◌-◌, ◌^◌, min, if◌then◌else◌, true, OnOk, OnErr, IfErr, Err};
ghost use Rattle.client_core.specs.Clients.{phase_of, ticket_of};
ghost use Rattle.client_loop.specs.Hearing.{IsFrameFor, TakesParcel};
ghost use Rattle.client_loop.specs.Sendings.{SendsBy, sent_of, SentFollows, SentUnlessMemory};
ghost use Rattle.client_loop.specs.Standing.{Stands};
ghost use Rattle.client_loop.specs.Remembering.{KeepsAsking, HasHadLast};
ghost use Rattle.client_loop.specs.Visits.{GoesOnQuietly, visits_of};
ghost use Rattle.client_loop.specs.Endings.{IsPostFault};
ghost use Rattle.vote_weights.specs.Sets.{has_node};
ghost use Rattle.actor_steps.specs.Steps.{IsBookFault};
ghost use Rattle.actor_steps.specs.Endings.{falls_of};
ghost use Rattle.client_loop.specs.Talking.{WaitsBy, KeepsAsked, Listens, EndsUntaken};
ghost use Rattle.client_loop.specs.Releasing.{EndsWaiting};

use crate::progress::Progress;
use crate::talking::{hear, tell};
use event_recorders::{OwnRecord, Recorder, RunFault};
use lock_messages::NodeId;
use lossy_link::{Link, Parcel, Post};
use std::alloc::Global;

/// Hears a parcel, and remembers a vote that was counted, a release that was answered, and that it is to wait.
#[tactic(auto, using(crate::proofs::HearFacts::remembers, crate::proofs::HearFacts::takes_nothing, crate::proofs::HearFacts::stays, crate::proofs::HearFacts::busy_still))]
fn take_parcel<S: OwnRecord, R: Recorder>(
    progress: &mut Progress,
    parcel: &Parcel,
    stable: &S,
    recorder: &mut R,
) -> Result<(), RunFault>
    requires { Stands (R.own_log recorder.old) (S.StableRecord.finds stable.now) progress.old.core }
    ensures taken { OnOk result (TakesParcel parcel.now.number (R.own_log recorder.old) (R.own_log recorder.new) progress.old progress.new) }
    ensures foreign { (IsFrameFor parcel.now.frame progress.old.core.client → ⊥) → (progress.new ≡ progress.old) × (R.own_log recorder.new ≡ R.own_log recorder.old) }
    ensures ended { IfErr result (λ f. EndsUntaken f (R.own_log recorder.old) (R.own_log recorder.new) progress.old progress.new) }
    ensures listens { Listens (R.own_log recorder.old) (R.own_log recorder.new) (S.StableRecord.finds stable.now) progress.old.core progress.new.core }
    ensures keeps { KeepsAsked progress.old progress.new }
{
    let Some((node, heard)) = hear(&mut progress.core, parcel, stable, recorder)? else {
        return Ok(());
    };
    progress.remember(node, heard);
    Ok(())
}

/// Sends again to a node that nudges. A nudge of a node to which nothing was sent in the present wish is
/// dropped; the last nudge of those that one wish may have ends it, and what is sent to a node that is
/// gone goes nowhere.
#[tactic(auto, using(crate::proofs::TalkFacts::talks_still, crate::proofs::NudgeFacts::book_has_none))]
fn take_nudge<S: OwnRecord, R: Recorder, L: Link>(
    alloc: Global,
    progress: &mut Progress,
    node: NodeId,
    stable: &S,
    recorder: &mut R,
    link: &mut L,
) -> Result<(), RunFault>
    requires { Stands (R.own_log recorder.old) (S.StableRecord.finds stable.now) progress.old.core }
    ensures waits { WaitsBy result (R.own_log recorder.old) (R.own_log recorder.new) (L.given link.old) (L.given link.new) (S.StableRecord.finds stable.now) progress.old progress.new }
    // A nudge of a node to which it has sent something is counted, and nothing else changes.
    ensures counted { progress.new ≡ (if has_node progress.old.asked node then record progress.old { nudges = min (progress.old.nudges + 1) (2 ^ 32 - 1) } else progress.old) }
    // 913: exactly at the last nudge that a wish may have, of a node to which it has sent something.
    ensures gave_up { (result ≡ Err RunFault.GaveUp) ↔ ((has_node progress.old.asked node ≡ true) × (progress.old.most_nudges ≤ progress.old.nudges + 1)) }
{
    if !progress.asked.has(node) {
        return Ok(());
    }
    progress.nudges = progress.nudges.saturating_add(1);
    if progress.nudges >= progress.most_nudges {
        return Err(RunFault::GaveUp);
    }
    if progress.gone.has(node) {
        return Ok(());
    }
    tell(alloc, &progress.core, node, stable, recorder, link)
}

/// Takes the next post. A link over which nothing comes any more has lost every node.
#[tactic(auto, using(crate::proofs::TalkFacts::talks_still, crate::proofs::TalkFacts::talks_hearing, crate::proofs::NudgeFacts::book_has_none))]
pub(crate) fn take_post<S: OwnRecord, R: Recorder, L: Link>(
    alloc: Global,
    progress: &mut Progress,
    stable: &S,
    recorder: &mut R,
    link: &mut L,
) -> Result<(), RunFault>
    requires { Stands (R.own_log recorder.old) (S.StableRecord.finds stable.now) progress.old.core }
    ensures waits { WaitsBy result (R.own_log recorder.old) (R.own_log recorder.new) (L.given link.old) (L.given link.new) (S.StableRecord.finds stable.now) progress.old progress.new }
    ensures asked { progress.new.asked ≡ progress.old.asked }
{
    let Ok(post) = link.receive() else {
        progress.lose_all();
        return Ok(());
    };
    match &post {
        Post::Parcel(parcel) => take_parcel(progress, parcel, stable, recorder),
        Post::Nudge(node) => take_nudge(alloc, progress, *node, stable, recorder, link),
        Post::Gone(node) => {
            progress.lose(*node);
            Ok(())
        }
        // It is for nodes.
        Post::Switch(_) => Ok(()),
    }
}
