// Keeping a record.

ghost use Rattle.std.specs.Prelude.{◌≡◌, ◌≤◌, ◌⊎◌, ◌↔◌, true, false, None, Some, Ok, Err, OnOk, IfOk, IfErr, length, ℕ, List, [], ◌∷◌};
ghost use Rattle.world_model.specs.Parts.{own_refusal, after_own};
ghost use Rattle.event_recorders.specs.OwnLogs.{part_now, FindsPart, IsAdded, tried_in};
ghost use Rattle.stable_record.specs.declared.formats.TheConstants.{MAX_RECORD_LEN};
ghost use Rattle.actor_steps.specs.Steps.{HasFound, HasFailed, IsKept, IsBookFault, IsTrying, IsPut};
ghost use Rattle.actor_steps.specs.Endings.{falls_of};
ghost use Rattle.actor_steps.specs.Outcomes.{FailsNext, EndsKeeping};

use crate::logging::log_own;
use event_recorders::{Gate, OwnRecord, Recorder, RunFault};
use lock_messages::Actor;
use stable_record::{RecordFault, StableRecord};
use world_model::{Effect, Event};

/// What came of keeping a record.
#[derive(Clone, Copy, Debug, PartialEq, Eq)]
pub enum Keeping {
    /// The record has the new bytes, and that they are kept is logged.
    Kept,
    /// The record's device failed: a restart finds the old bytes or the new ones.
    Failed,
}

/// Logs that the actor tries to keep these bytes.
#[tactic(auto, using(crate::proofs::StepFacts::try_own, crate::proofs::StepFacts::try_found, crate::proofs::StepFacts::try_added, crate::proofs::StepFacts::trying))]
fn log_try<S: OwnRecord, R: Recorder>(
    actor: Actor,
    bytes: &[u8],
    stable: &S,
    recorder: &mut R,
) -> Result<(), RunFault>
    requires actor { (R.own_log recorder.old).actor ≡ actor }
    requires allowed { own_refusal (R.own_log recorder.old).ballots (Event.Try actor) (part_now (R.own_log recorder.old)) ≡ None }
    requires tries { tried_in (after_own (R.own_log recorder.old).ballots (Event.Try actor) Effect.Tried (part_now (R.own_log recorder.old))) ≡ Some bytes.now }
    requires found { FindsPart (part_now (R.own_log recorder.old)) (S.StableRecord.finds stable.now) }
    ensures tried { OnOk result (IsAdded (R.own_log recorder.old) (Event.Try actor) Effect.Tried (R.own_log recorder.new)) }
    ensures trying { OnOk result (IsTrying (R.own_log recorder.new) actor bytes.now (S.StableRecord.finds stable.now)) }
    ensures refused { IfErr result (λ fault. IsBookFault fault × (R.own_log recorder.new ≡ R.own_log recorder.old)) }
{
    let _ = bytes;
    log_own(recorder, Event::Try(actor), stable)?;
    Ok(())
}

/// Logs that the actor has kept these bytes, which its record has.
#[tactic(auto, using(crate::proofs::StepFacts::kept_own, crate::proofs::StepFacts::kept_found, crate::proofs::StepFacts::kept_added, crate::proofs::StepFacts::kept_then))]
fn log_kept<S: OwnRecord, R: Recorder>(
    actor: Actor,
    bytes: &[u8],
    stable: &S,
    recorder: &mut R,
) -> Result<(), RunFault>
    requires trying { (strings : List (List ℕ)) × IsTrying (R.own_log recorder.old) actor bytes.now strings }
    requires found { S.StableRecord.finds stable.now ≡ bytes.now ∷ [] }
    requires free { S.StableRecord.stuck_of stable.now ≡ false }
    ensures kept { OnOk result (IsAdded (R.own_log recorder.old) (Event.Kept actor) Effect.Kept (R.own_log recorder.new)) }
    ensures found { OnOk result (HasFound bytes.now (R.own_log recorder.new) (S.StableRecord.finds stable.now) (S.StableRecord.stuck_of stable.now)) }
    ensures refused { IfErr result (λ fault. IsBookFault fault × (R.own_log recorder.new ≡ R.own_log recorder.old)) }
{
    let _ = bytes;
    log_own(recorder, Event::Kept(actor), stable)?;
    Ok(())
}

/// Keeps the bytes in a record that isn't stuck. The errors, which leave the record as it was: no change of
/// it can be numbered any more (916), exactly where it is so, or memory was refused (914).
fn put<S: OwnRecord>(bytes: &[u8], stable: &mut S) -> Result<Keeping, RunFault>
    requires fits { length bytes.now ≤ MAX_RECORD_LEN }
    requires free { S.StableRecord.stuck_of stable.old ≡ false }
    ensures put { IfOk result (λ keeping. IsPut keeping bytes.now (S.StableRecord.finds stable.old) (S.StableRecord.finds stable.new) (S.StableRecord.stuck_of stable.new) (S.StableRecord.failures_of stable.old) (S.StableRecord.failures_of stable.new)) }
    ensures refused { IfErr result (λ fault. (fault ≡ RunFault.Spent) ⊎ (fault ≡ RunFault.Memory)) }
    ensures spent { (result ≡ Err RunFault.Spent) ↔ (S.StableRecord.spent_of stable.old ≡ true) }
    ensures unchanged { IfErr result (λ fault. (S.StableRecord.finds stable.new ≡ S.StableRecord.finds stable.old) × (S.StableRecord.stuck_of stable.new ≡ false) × (S.StableRecord.spent_of stable.new ≡ S.StableRecord.spent_of stable.old) × (S.StableRecord.failures_of stable.new ≡ S.StableRecord.failures_of stable.old)) }
    ensures count { HasFailed 0 (S.StableRecord.failures_of stable.old) (S.StableRecord.failures_of stable.new) }
{
    match stable.keep(bytes) {
        Ok(()) => Ok(Keeping::Kept),
        Err(RecordFault::Device) => Ok(Keeping::Failed),
        Err(RecordFault::Spent) => Err(RunFault::Spent),
        Err(RecordFault::Memory) => Err(RunFault::Memory),
        Err(_) => unreachable!(),
    }
}

/// Keeps the actor's next record: logs that the actor tries to, calls the gate, keeps the bytes, and
/// only then logs that they are kept. Where the record's device fails (301) nothing more is logged.
///
/// The caller owes that the actor's own log allows a Try, that these are the bytes of what it tries to
/// keep, at most `MAX_RECORD_LEN`, that a restart finds in the record what the actor keeps, and that the
/// record isn't stuck. The errors log nothing but, perhaps, the Try and, where the book refuses the Kept,
/// no more: memory was refused (914), the book is full or another's (915), no change of the record can be
/// numbered any more (916, which comes only where that is so). A failure of the device is told by none of
/// them: the record isn't stuck then. However it ends, a restart finds what the log tells that it may.
#[tactic(auto, using(crate::proofs::FindingFacts::keeping))]
pub fn keep_next<S: OwnRecord, R: Recorder, G: Gate>(
    actor: Actor,
    bytes: &[u8],
    stable: &mut S,
    recorder: &mut R,
    gate: &G,
) -> Result<Keeping, RunFault>
    requires actor { (R.own_log recorder.old).actor ≡ actor }
    requires allowed { own_refusal (R.own_log recorder.old).ballots (Event.Try actor) (part_now (R.own_log recorder.old)) ≡ None }
    requires tries { tried_in (after_own (R.own_log recorder.old).ballots (Event.Try actor) Effect.Tried (part_now (R.own_log recorder.old))) ≡ Some bytes.now }
    requires fits { length bytes.now ≤ MAX_RECORD_LEN }
    requires found { FindsPart (part_now (R.own_log recorder.old)) (S.StableRecord.finds stable.old) }
    requires free { S.StableRecord.stuck_of stable.old ≡ false }
    ensures kept { result ≡ Ok Keeping.Kept → IsKept (R.own_log recorder.old) actor (R.own_log recorder.new) × HasFound bytes.now (R.own_log recorder.new) (S.StableRecord.finds stable.new) (S.StableRecord.stuck_of stable.new) }
    ensures failed { result ≡ Ok Keeping.Failed → FailsNext actor (R.own_log recorder.old) (R.own_log recorder.new) (S.StableRecord.failures_of stable.old) (S.StableRecord.failures_of stable.new) }
    ensures ended { IfErr result (λ fault. EndsKeeping fault actor (R.own_log recorder.old) (R.own_log recorder.new) (S.StableRecord.stuck_of stable.new) (S.StableRecord.spent_of stable.old) (S.StableRecord.spent_of stable.new) (S.StableRecord.failures_of stable.old) (S.StableRecord.failures_of stable.new)) }
    // However it ends, a restart finds what is kept or, while something is tried, nothing but that and what is
    // tried.
    ensures finds { FindsPart (part_now (R.own_log recorder.new)) (S.StableRecord.finds stable.new) }
    ensures falls { falls_of (R.own_log recorder.new) ≡ falls_of (R.own_log recorder.old) }
    ensures count { HasFailed 0 (S.StableRecord.failures_of stable.old) (S.StableRecord.failures_of stable.new) }
{
    let actor = &actor;
    log_try(*actor, bytes, &*stable, recorder)?;
    gate.before_keep(*actor);
    let keeping = put(bytes, stable)?;
    match keeping {
        Keeping::Kept => {
            log_kept(*actor, bytes, &*stable, recorder)?;
            Ok(Keeping::Kept)
        }
        Keeping::Failed => Ok(Keeping::Failed),
    }
}
