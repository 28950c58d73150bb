// Entering: an attempt is made, its number kept, the nodes are asked, and the Enter is logged.

ghost use Rattle.std.specs.Prelude.{◌≡◌, ◌++◌, ◌∷◌, [], true, false, Ok, Some, OnOk, OnErr, IfErr, IfSome};
ghost use Rattle.lock_model.specs.Ballots.{HasPlace};
ghost use Rattle.client_core.specs.Clients.{phase_of, ticket_of};
ghost use Rattle.client_core.specs.declared.phases.Phase.TheVariants as phase;
ghost use Rattle.client_core.specs.Calls.{MayEnter, entered as inside_of};
ghost use Rattle.client_loop.specs.Sendings.{SendsBy, sent_of, SentFollows, SentUnlessMemory};
ghost use Rattle.client_loop.specs.Standing.{Stands, IsSameClient};
ghost use Rattle.client_loop.specs.Remembering.{core_of, busy_of, most_of, HasHadLast, HasReleased};
ghost use Rattle.client_loop.specs.Endings.{EndsAsking, EndsOneAttempt};
ghost use Rattle.client_loop.specs.Outcomes.{moment, answers, Leaving, Entering};
ghost use Rattle.actor_steps.specs.Steps.{IsBookFault};
ghost use Rattle.actor_steps.specs.Endings.{falls_of, FailuresFollow};
ghost use Rattle.client_loop.specs.Visits.{visits_of, use_of, AsksFor, visits_entering, BeginsNothing, BeginsOnly, BeginsMore};
ghost use Rattle.event_recorders.specs.OwnLogs.{FindsItsOwn, part_now};
ghost use Rattle.client_loop.specs.Talking.{EndsUnlogged, EntersSilently};
ghost use Rattle.client_loop.specs.Attempting.{EntersAsking, StopsAsking, EndsAskingOnce, GoesOnAsking};

use crate::asking::ask;
use crate::attempting::attempt;
use crate::ending::end;
use crate::leaving::leave;
use crate::progress::{Patience, Progress};
use actor_steps::log_plain;
use client_core::ClientCore;
use event_lines::Wish;
use event_recorders::{Gate, OwnRecord, Recorder, RunFault};
use lossy_link::Link;
use std::alloc::Global;
use std::sync::Wait;
use world_model::Event;

/// Logs that the client enters.
#[tactic(auto, using(crate::proofs::SentFacts::enter_sends_nothing, crate::proofs::BeginFacts::nothing_begun))]
fn log_enter<S: OwnRecord, R: Recorder>(
    core: &ClientCore,
    stable: &S,
    recorder: &mut R,
) -> Result<(), RunFault>
    requires may { MayEnter core.now }
    requires stands { Stands (R.own_log recorder.old) (S.StableRecord.finds stable.now) core.now }
    ensures entered { OnOk result (EntersAsking (R.own_log recorder.old) (R.own_log recorder.new) (S.StableRecord.finds stable.now) core.now core.now) }
    ensures still { EntersSilently (R.own_log recorder.old) (R.own_log recorder.new) }
    ensures ended { IfErr result (λ f. EndsUnlogged f (R.own_log recorder.old) (R.own_log recorder.new)) }
{
    log_plain(recorder, Event::Enter(core.client()), stable)?;
    Ok(())
}

/// Takes back what the client asks for: it leaves, and each node that it asked has answered its release or is
/// gone.
fn take_back<W: Wait, S: OwnRecord, R: Recorder, L: Link>(
    rt: &W,
    alloc: Global,
    progress: &mut Progress,
    stable: &S,
    recorder: &mut R,
    link: &mut L,
) -> Result<(), RunFault>
    requires stands { Stands (R.own_log recorder.old) (S.StableRecord.finds stable.now) progress.old.core }
    requires asking { phase_of progress.old.core ≡ phase.Asking }
    ensures { let kept = answers (S.StableRecord.finds stable.now) (S.StableRecord.stuck_of stable.now) (S.StableRecord.spent_of stable.now) (S.StableRecord.failures_of stable.now) in
        let before = moment progress.old (R.own_log recorder.old) kept (L.given link.old) in
        let after = moment progress.new (R.own_log recorder.new) kept (L.given link.new) in
        Leaving result before after }
{
    progress.core.leave();
    leave(rt, alloc, progress, stable, recorder, link)
}

/// Asks for what is wished and, once the votes are enough, logs the Enter; whether it did.
#[tactic(auto, using(crate::proofs::Steps::entering))]
fn ask_and_enter<W: Wait, S: OwnRecord, R: Recorder, L: Link>(
    rt: &W,
    alloc: Global,
    wish: &Wish,
    waits: bool,
    progress: &mut Progress,
    stable: &S,
    recorder: &mut R,
    link: &mut L,
) -> Result<bool, RunFault>
    requires stands { Stands (R.own_log recorder.old) (S.StableRecord.finds stable.now) progress.old.core }
    requires asking { phase_of progress.old.core ≡ phase.Asking }
    requires placed { HasPlace (R.own_log recorder.old).ballots wish.now.place }
    ensures sent { SendsBy result (R.own_log recorder.old) (R.own_log recorder.new) (L.given link.old) (L.given link.new) }
    ensures entered { result ≡ Ok true → EntersAsking (R.own_log recorder.old) (R.own_log recorder.new) (S.StableRecord.finds stable.now) progress.old.core progress.new.core }
    ensures stopped { result ≡ Ok false → StopsAsking waits (R.own_log recorder.new) (S.StableRecord.finds stable.now) progress.new }
    ensures outside { (result ≡ Ok true → ⊥) → visits_of (R.own_log recorder.new) ≡ visits_of (R.own_log recorder.old) }
    ensures ended { IfErr result (λ f. EndsAskingOnce f (R.own_log recorder.new) (S.StableRecord.finds stable.now) progress.new) }
    ensures goes_on { GoesOnAsking (R.own_log recorder.old) (R.own_log recorder.new) (S.StableRecord.finds stable.now) progress.old progress.new }
{
    match ask(rt, alloc, wish, waits, progress, stable, recorder, link) {
        Ok(true) => {
            log_enter(&progress.core, stable, recorder)?;
            Ok(true)
        }
        Ok(false) => {
            take_back(rt, alloc, progress, stable, recorder, link)?;
            Ok(false)
        }
        Err(fault) => Err(end(alloc, fault, progress, stable, recorder, link)),
    }
}

/// Enters what is wished: makes an attempt, whose number it keeps before it is used, asks the nodes for their
/// votes, one after another where it is to wait, and logs the Enter once they are enough. Whether it did: `false` only where it
/// isn't to wait and a node let it, and then it has left, and each node that it asked has answered its release
/// or is gone.
///
/// After `true` the client is inside by its own log, and its core may enter, which the caller does: by a guard
/// over the core, or by `Progress::go_in`. Where its record fails before that, it falls, rises with what the
/// record holds, and makes the attempt anew. Of the wish the mode, the resource and the place are read.
///
/// The caller owes a client that rests, by its own log and its core; a record that isn't stuck, in which a
/// restart finds what the client keeps; and a place that the ballots have.
///
/// # Errors
///
/// Nothing is entered then. The nodes that granted and those that aren't gone are too few (912), or the
/// attempt had its last nudge (913): the client has left and rests, so that it may enter anew, and has said its
/// release once to each asked node that isn't gone (that last is tested). Three reopens of the record failed in a row (911); memory
/// was refused (914); the book is full or another's (915); no change of the record can be numbered any more,
/// or no attempt is left (916).
pub fn enter<W: Wait, S: OwnRecord, R: Recorder, L: Link, G: Gate>(
    rt: &W,
    alloc: Global,
    wish: &Wish,
    patience: Patience,
    progress: &mut Progress,
    stable: &mut S,
    recorder: &mut R,
    link: &mut L,
    gate: &G,
) -> Result<bool, RunFault>
    requires stands { Stands (R.own_log recorder.old) (S.StableRecord.finds stable.old) (core_of progress.old) }
    requires free { S.StableRecord.stuck_of stable.old ≡ false }
    requires idle { phase_of (core_of progress.old) ≡ phase.Idle }
    requires placed { HasPlace (R.own_log recorder.old).ballots wish.now.place }
    ensures { let before = moment progress.old (R.own_log recorder.old) (answers (S.StableRecord.finds stable.old) (S.StableRecord.stuck_of stable.old) (S.StableRecord.spent_of stable.old) (S.StableRecord.failures_of stable.old)) (L.given link.old) in
        let after = moment progress.new (R.own_log recorder.new) (answers (S.StableRecord.finds stable.new) (S.StableRecord.stuck_of stable.new) (S.StableRecord.spent_of stable.new) (S.StableRecord.failures_of stable.new)) (L.given link.new) in
        Entering (use_of wish.now) patience.nudges patience.waits result before after }
{
    progress.begin_wish(patience.nudges);
    attempt(rt, wish, progress, stable, recorder, gate)?;
    let waits = patience.waits;
    ask_and_enter(rt, alloc, wish, waits, progress, &*stable, recorder, link)
}
