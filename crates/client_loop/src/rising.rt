// Rising, before all else.

ghost use Rattle.std.specs.Prelude.{◌≡◌, [], OnOk, IfOk, false, IfErr};
ghost use Rattle.client_core.specs.Clients.{phase_of};
ghost use Rattle.client_core.specs.declared.phases.Phase.TheVariants as phase;
ghost use Rattle.event_recorders.specs.OwnLogs.{IsUnused, FindsPart, FindsItsOwn, part_now};
ghost use Rattle.client_loop.specs.Sendings.{sent_of};
ghost use Rattle.client_loop.specs.Standing.{Stands, KeepsAttempt, IsSameClient};
ghost use Rattle.client_loop.specs.Outcomes.{answers, Rising};
ghost use Rattle.client_loop.specs.Remembering.{core_of};
ghost use Rattle.actor_steps.specs.Endings.{falls_of, FailuresFollow};
ghost use Rattle.client_loop.specs.Endings.{ClientEndsFrom};
ghost use Rattle.client_loop.specs.Visits.{visits_of};

use crate::progress::Progress;
use actor_steps::rise_first;
use client_core::ClientCore;
use event_recorders::{OwnRecord, Recorder, RunFault};
use lock_messages::{Actor, ClientId};
use stable_record::read_client;
use vote_weights::BallotList;

/// The client rises, once, with the attempt that its record holds, and rests.
///
/// The caller owes what it owes `run_client`: a recorder of this client, with these ballots, that has logged
/// nothing, and whose opening has the client down, with an attempt of at most `MAX_ATTEMPT` kept and nothing
/// tried; and a record in which a restart finds just that attempt.
///
/// # Errors
///
/// The client has not risen, and nothing is logged: three reopens of the record failed (911), memory was
/// refused (914), or the book is full or another's (915).
#[tactic(auto, using(crate::proofs::Steps::rising_first))]
pub fn rise<S: OwnRecord, R: Recorder>(
    client: ClientId,
    ballots: BallotList,
    stable: &mut S,
    recorder: &mut R,
) -> Result<Progress, RunFault>
    requires unused { IsUnused (R.own_log recorder.old) (Actor.Client client) }
    requires ballots { (R.own_log recorder.old).ballots ≡ ballots }
    requires found { FindsPart (R.own_log recorder.old).opening (S.StableRecord.finds stable.old) }
    requires kept { KeepsAttempt (R.own_log recorder.old).opening }
    ensures { let before = answers (S.StableRecord.finds stable.old) (S.StableRecord.stuck_of stable.old) (S.StableRecord.spent_of stable.old) (S.StableRecord.failures_of stable.old) in
        let after = answers (S.StableRecord.finds stable.new) (S.StableRecord.stuck_of stable.new) (S.StableRecord.spent_of stable.new) (S.StableRecord.failures_of stable.new) in
        Rising result (R.own_log recorder.old) (R.own_log recorder.new) before after }
{
    let bytes = rise_first(Actor::Client(client), stable, recorder)?;
    let Ok(attempt) = read_client(bytes.as_slice()) else {
        unreachable!()
    };
    Ok(Progress::of(ClientCore::rise(client, attempt, ballots)))
}
