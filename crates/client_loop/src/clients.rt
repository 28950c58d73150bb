// A client's run.

ghost use Rattle.std.specs.Prelude.{◌≡◌, ◌≤◌, [], OnOk, IfOk, All, false, length, IfErr};
ghost use Rattle.client_core.specs.Clients.{phase_of};
ghost use Rattle.client_core.specs.declared.phases.Phase.TheVariants as phase;
ghost use Rattle.event_recorders.specs.OwnLogs.{IsUnused, FindsPart, part_now, FindsItsOwn};
ghost use Rattle.client_loop.specs.Sendings.{SentFollows, SentUnlessMemory};
ghost use Rattle.client_loop.specs.Standing.{Stands, KeepsAttempt};
ghost use Rattle.actor_steps.specs.Steps.{HasFailed};
ghost use Rattle.actor_steps.specs.Endings.{falls_of, FailuresFollow};
ghost use Rattle.client_loop.specs.Endings.{ClientEndsFrom, ClientEndsBy, ClientEndsSomehow};
ghost use Rattle.client_loop.specs.Outcomes.{FulfilsInOrder, FulfilsAll, TellsBy};
ghost use Rattle.client_loop.specs.Visits.{visits_of, HasBegun, ArePlaced};
ghost use Rattle.client_loop.specs.Attempting.{RecordAgrees};

use crate::progress::Progress;
use crate::rising::rise;
use crate::wishing::fulfil;
use event_lines::{MAX_WISHES, Wish};
use event_recorders::{BoxedRecord, Gate, OwnRecord, Recorder, RunFault};
use lock_messages::{Actor, ClientId};
use lossy_link::Link;
use stable_record::StableRecord;
use std::alloc::Global;
use std::sync::Wait;
use vote_weights::BallotList;

/// Fulfils the wishes in order.
#[tactic(auto, using(crate::proofs::Steps::fulfilling_all))]
fn fulfil_all<W: Wait, S: OwnRecord, R: Recorder, L: Link, G: Gate>(
    rt: &W,
    alloc: Global,
    progress: Progress,
    wishes: &[Wish],
    stable: &mut S,
    recorder: &mut R,
    link: &mut L,
    gate: &G,
) -> Result<u32, (u32, RunFault)>
    requires stands { Stands (R.own_log recorder.old) (S.StableRecord.finds stable.old) progress.core }
    requires free { S.StableRecord.stuck_of stable.old ≡ false }
    requires idle { phase_of progress.core ≡ phase.Idle }
    requires few { length wishes.now ≤ MAX_WISHES }
    requires placed { ArePlaced (R.own_log recorder.old).ballots wishes.now }
    requires fresh { (visits_of (R.own_log recorder.old)).entered ≡ [] }
    requires unsoftened { (visits_of (R.own_log recorder.old)).softened ≡ [] }
    requires first { HasBegun (R.own_log recorder.old).actor wishes.now (R.own_log recorder.old) }
    ensures sent { OnOk result (SentFollows (R.own_log recorder.old) (R.own_log recorder.new) (L.given link.old) (L.given link.new)) }
    ensures faulted { IfErr result (λ p. SentUnlessMemory p.1 (R.own_log recorder.old) (R.own_log recorder.new) (L.given link.old) (L.given link.new)) }
    ensures fulfils { FulfilsInOrder (R.own_log recorder.old).actor wishes.now result (R.own_log recorder.new) }
    ensures all { IfOk result (FulfilsAll wishes.now (R.own_log recorder.new)) }
    ensures agrees { RecordAgrees (falls_of (R.own_log recorder.old)) (R.own_log recorder.new) (S.StableRecord.finds stable.new) (S.StableRecord.failures_of stable.old) (S.StableRecord.failures_of stable.new) }
    ensures ended { IfErr result (λ p. ClientEndsFrom p.1 (falls_of (R.own_log recorder.old)) (R.own_log recorder.new) (S.StableRecord.stuck_of stable.new) (S.StableRecord.spent_of stable.new) (S.StableRecord.failures_of stable.old) (S.StableRecord.failures_of stable.new)) }
{
    let mut progress = progress;
    let mut entered = 0;
    for wish in wishes {
        let fulfilled = fulfil(
            rt,
            alloc,
            wish,
            &mut progress,
            &mut entered,
            stable,
            recorder,
            link,
            gate,
        );
        if let Err(fault) = fulfilled {
            return Err((entered, fault));
        }
    }
    Ok(entered)
}

/// Runs a client as `run_client` does, over a record that is lent to it: so its contract also ties each fall,
/// and each fault, to what that record answers afterwards.
///
/// The caller owes what it owes `run_client`, and gets its errors.
#[tactic(auto, using(crate::proofs::Steps::running))]
pub fn run_client_over<W: Wait, S: OwnRecord, R: Recorder, L: Link, G: Gate>(
    rt: &W,
    alloc: Global,
    client: ClientId,
    ballots: BallotList,
    wishes: &[Wish],
    stable: &mut S,
    recorder: &mut R,
    link: &mut L,
    gate: &G,
) -> Result<u32, (u32, RunFault)>
    requires unused { IsUnused (R.own_log recorder.old) (Actor.Client client) }
    requires ballots { (R.own_log recorder.old).ballots ≡ ballots }
    requires found { FindsPart (R.own_log recorder.old).opening (S.StableRecord.finds stable.old) }
    requires kept { KeepsAttempt (R.own_log recorder.old).opening }
    requires own { All (λ wish. wish.client ≡ client) wishes.now }
    requires few { length wishes.now ≤ MAX_WISHES }
    requires placed { ArePlaced ballots wishes.now }
    ensures sent { TellsBy result (R.own_log recorder.new) (L.given link.old) (L.given link.new) }
    ensures fulfils { FulfilsInOrder (R.own_log recorder.old).actor wishes.now result (R.own_log recorder.new) }
    ensures all { IfOk result (FulfilsAll wishes.now (R.own_log recorder.new)) }
    // However it ends, a restart finds in its record nothing but what it has kept and what it tries to keep.
    ensures own { FindsItsOwn (part_now (R.own_log recorder.new)) (S.StableRecord.finds stable.new) }
    ensures ended { IfErr result (λ p. ClientEndsBy p.1 (R.own_log recorder.new) (S.StableRecord.stuck_of stable.new) (S.StableRecord.spent_of stable.new) (S.StableRecord.failures_of stable.old) (S.StableRecord.failures_of stable.new)) }
    ensures falls { HasFailed (falls_of (R.own_log recorder.new)) (S.StableRecord.failures_of stable.old) (S.StableRecord.failures_of stable.new) }
{
    let progress = match rise(client, ballots, stable, recorder) {
        Ok(progress) => progress,
        Err(fault) => return Err((0, fault)),
    };
    fulfil_all(rt, alloc, progress, wishes, stable, recorder, link, gate)
}

/// Runs a client: it rises with what its record holds, also where it has no wish, and fulfils its wishes
/// in order. Answers how many it entered, which is all of them, and then it is outside by its own log, or, in
/// an error, those before the fault.
///
/// For each wish it makes an attempt, whose number it keeps before it is used, asks the nodes one after
/// another for their votes, is inside by a guard while the gate keeps it, leaves, and says its release to
/// each node that it asked until each has answered or is gone. For a wish that softens it enters as a
/// writer and, once the gate lets it go, softens its guard, says so once to each node whose vote was
/// counted, and is inside as a reader while the gate keeps it again; then it leaves as for any. It logs
/// each of these before it sends what it says. It drops a frame that is no message for it, a number under
/// which no message was sent to it, and the nudge of a node to which it has sent nothing in the present
/// wish; on every other nudge it sends again. A node that is gone is skipped, and a link over which
/// nothing comes any more has lost every node. Where its record fails it falls, rises with what the
/// record holds, and takes the wish up again.
///
/// The caller owes wishes of this client, at most `MAX_WISHES`, whose places the list has; a recorder of
/// this client, with these ballots, that has logged nothing, and whose opening has the client down, with
/// an attempt of at most `MAX_ATTEMPT` kept and nothing tried; and a record in which a restart finds just
/// that attempt.
///
/// # Errors
///
/// With the number of entries made: three reopens of the record failed in a row (911); the nodes that
/// granted and those that aren't gone are too few (912), or a wish had `MAX_NUDGES` nudges (913), and then
/// the client has left where it asked, and has said its release once to each asked node that isn't gone (that
/// last is tested);
/// memory was refused (914); the book is full or another's (915); no change of the record can be numbered
/// any more, or no attempt is left (916). Nothing is logged after that, also where the client is inside by
/// its log: its guard leaves. It may wait at the link, the recorder and the gate.
#[tactic(auto, using(crate::proofs::EndFacts::client_ends_somehow))]
pub fn run_client<W: Wait, R: Recorder, L: Link, G: Gate>(
    rt: &W,
    alloc: Global,
    client: ClientId,
    ballots: BallotList,
    wishes: &[Wish],
    stable: Box<dyn StableRecord + Send>,
    recorder: &mut R,
    link: &mut L,
    gate: &G,
) -> Result<u32, (u32, RunFault)>
    requires unused { IsUnused (R.own_log recorder.old) (Actor.Client client) }
    requires ballots { (R.own_log recorder.old).ballots ≡ ballots }
    requires found { FindsPart (R.own_log recorder.old).opening (finds stable) }
    requires kept { KeepsAttempt (R.own_log recorder.old).opening }
    requires own { All (λ wish. wish.client ≡ client) wishes.now }
    requires few { length wishes.now ≤ MAX_WISHES }
    requires placed { ArePlaced ballots wishes.now }
    ensures sent { TellsBy result (R.own_log recorder.new) (L.given link.old) (L.given link.new) }
    ensures fulfils { FulfilsInOrder (R.own_log recorder.old).actor wishes.now result (R.own_log recorder.new) }
    ensures all { IfOk result (FulfilsAll wishes.now (R.own_log recorder.new)) }
    ensures ended { IfErr result (λ p. ClientEndsSomehow p.1 (R.own_log recorder.new)) }
{
    let mut stable = BoxedRecord::of(stable);
    run_client_over(
        rt,
        alloc,
        client,
        ballots,
        wishes,
        &mut stable,
        recorder,
        link,
        gate,
    )
}
