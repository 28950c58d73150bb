// Rising with what a record finds.

ghost use Rattle.std.specs.Prelude.{◌≡◌, ◌+◌, ◌≤◌, ◌⊎◌, ◌↔◌, false, None, Some, OnOk, IfOk, IfErr, Err, [], ◌∷◌};
ghost use Rattle.world_model.specs.Parts.{own_refusal};
ghost use Rattle.world_model.specs.declared.events.Age.{Age as AgeValue};
ghost use Rattle.event_recorders.specs.OwnLogs.{part_now, FindsPart, IsAdded, IsUnused, tried_in, FindsItsOwn};
ghost use Rattle.actor_steps.specs.Steps.{HasFound, IsBookFault, IsRisenAgain, HasFailed, IsRising, IsFallen};
ghost use Rattle.actor_steps.specs.Endings.{falls_of};
ghost use Rattle.actor_steps.specs.Outcomes.{EndsRising, EndsRisingAgain};

use crate::logging::log_own;
use crate::reopening::{MAX_REOPENS, reopened};
use event_recorders::{OwnRecord, Recorder, RunFault};
use lock_messages::Actor;
use world_model::{Age, Effect, Event};

/// Logs that the actor rises with these bytes, which its record has.
#[tactic(auto, using(crate::proofs::StepFacts::rise_own, crate::proofs::StepFacts::rise_found, crate::proofs::StepFacts::rise_added, crate::proofs::StepFacts::risen_then))]
fn log_rise<S: OwnRecord, R: Recorder>(
    actor: Actor,
    age: Age,
    bytes: &[u8],
    stable: &S,
    recorder: &mut R,
) -> Result<(), RunFault>
    requires rising { IsRising (R.own_log recorder.old) actor age bytes.now }
    requires found { S.StableRecord.finds stable.now ≡ bytes.now ∷ [] }
    requires free { S.StableRecord.stuck_of stable.now ≡ false }
    ensures risen { OnOk result (IsAdded (R.own_log recorder.old) (Event.Rise actor age) Effect.Up (R.own_log recorder.new)) }
    ensures found { OnOk result (HasFound bytes.now (R.own_log recorder.new) (S.StableRecord.finds stable.now) (S.StableRecord.stuck_of stable.now)) }
    ensures refused { IfErr result (λ fault. IsBookFault fault × (R.own_log recorder.new ≡ R.own_log recorder.old)) }
{
    let _ = bytes;
    log_own(recorder, Event::Rise(actor, age), stable)?;
    Ok(())
}

/// Logs that the actor falls while it tries to keep these bytes.
#[tactic(auto, using(crate::proofs::StepFacts::fall_own, crate::proofs::StepFacts::fall_found, crate::proofs::StepFacts::fall_added, crate::proofs::StepFacts::fallen))]
fn log_fall<S: OwnRecord, R: Recorder>(
    actor: Actor,
    tried: &[u8],
    stable: &S,
    recorder: &mut R,
) -> Result<(), RunFault>
    requires actor { (R.own_log recorder.old).actor ≡ actor }
    requires allowed { own_refusal (R.own_log recorder.old).ballots (Event.Fall actor) (part_now (R.own_log recorder.old)) ≡ None }
    requires tries { tried_in (part_now (R.own_log recorder.old)) ≡ Some tried.now }
    requires found { FindsPart (part_now (R.own_log recorder.old)) (S.StableRecord.finds stable.now) }
    ensures down { OnOk result (IsAdded (R.own_log recorder.old) (Event.Fall actor) Effect.Down (R.own_log recorder.new)) }
    ensures fallen { OnOk result (IsFallen (R.own_log recorder.new) actor tried.now (S.StableRecord.finds stable.now)) }
    ensures refused { IfErr result (λ fault. IsBookFault fault × (R.own_log recorder.new ≡ R.own_log recorder.old)) }
{
    let _ = tried;
    log_own(recorder, Event::Fall(actor), stable)?;
    Ok(())
}

/// The first rising of an actor: reopens its record, up to three times while its device fails, and logs
/// that the actor rises with what it had kept. Answers the bytes found, which are the kept ones.
///
/// The caller owes that the actor has logged nothing and is down with nothing tried, and that a restart
/// finds in the record just what it has kept. The errors log nothing: three reopens failed (911), memory
/// was refused (914), the book is full or another's (915). A restart finds nothing but what is kept then too.
#[tactic(auto, using(crate::proofs::StepFacts::rising_first, crate::proofs::FindingFacts::unused_own, crate::proofs::FindingFacts::found_own))]
pub fn rise_first<S: OwnRecord, R: Recorder>(
    actor: Actor,
    stable: &mut S,
    recorder: &mut R,
) -> Result<Vec<u8>, RunFault>
    requires unused { IsUnused (R.own_log recorder.old) actor }
    requires found { FindsPart (R.own_log recorder.old).opening (S.StableRecord.finds stable.old) }
    ensures risen { IfOk result (λ bytes. IsAdded (R.own_log recorder.old) (Event.Rise actor Age.Old) Effect.Up (R.own_log recorder.new)) }
    ensures found { IfOk result (λ bytes. HasFound bytes.items (R.own_log recorder.new) (S.StableRecord.finds stable.new) (S.StableRecord.stuck_of stable.new)) }
    // However it ends, a restart finds nothing but what is kept.
    ensures finds { FindsItsOwn (part_now (R.own_log recorder.new)) (S.StableRecord.finds stable.new) }
    ensures ended { IfErr result (λ fault. EndsRising fault (R.own_log recorder.old) (R.own_log recorder.new) (S.StableRecord.stuck_of stable.new) (S.StableRecord.spent_of stable.new) (S.StableRecord.failures_of stable.old) (S.StableRecord.failures_of stable.new)) }
    ensures falls { falls_of (R.own_log recorder.new) ≡ falls_of (R.own_log recorder.old) }
    ensures count { HasFailed 0 (S.StableRecord.failures_of stable.old) (S.StableRecord.failures_of stable.new) }
{
    let mut failed = 0;
    let bytes = reopened(stable, &mut failed)?;
    log_rise(actor, Age::Old, bytes.as_slice(), &*stable, recorder)?;
    Ok(bytes)
}

/// Which value a record holds that was being written: the new one exactly where it has these bytes.
fn age_of(found: &[u8], tried: &[u8]) -> Age
    ensures new { (result ≡ Age.New) ↔ (found.now ≡ tried.now) }
{
    if found == tried { Age::New } else { Age::Old }
}

/// The actor rises anew after its record failed: logs that it falls, reopens the record, up to three
/// times while its device fails, and logs that the actor rises with what was found: the new value where
/// these are the bytes that it tried to keep (`tried`), else the old one. Answers the bytes found.
///
/// The caller owes that the actor's own log allows the fall and has these bytes tried, and that a
/// restart finds nothing in the record but what is kept and what is tried. The errors log nothing but,
/// perhaps, the fall: three reopens failed (911), memory was refused (914), the book is full or
/// another's (915). A restart finds nothing but what is kept and what is tried then too.
#[tactic(auto, using(crate::proofs::StepFacts::rising_again, crate::proofs::StepFacts::both_risen, crate::proofs::StepFacts::still_added, crate::proofs::FindingFacts::still_finds))]
pub fn rise_again<S: OwnRecord, R: Recorder>(
    actor: Actor,
    tried: &[u8],
    stable: &mut S,
    recorder: &mut R,
) -> Result<Vec<u8>, RunFault>
    requires actor { (R.own_log recorder.old).actor ≡ actor }
    requires allowed { own_refusal (R.own_log recorder.old).ballots (Event.Fall actor) (part_now (R.own_log recorder.old)) ≡ None }
    requires tries { tried_in (part_now (R.own_log recorder.old)) ≡ Some tried.now }
    requires found { FindsPart (part_now (R.own_log recorder.old)) (S.StableRecord.finds stable.old) }
    ensures risen { IfOk result (λ bytes. (age : AgeValue) × IsRisenAgain (R.own_log recorder.old) actor age (R.own_log recorder.new) × ((age ≡ Age.New) ↔ (bytes.items ≡ tried.now))) }
    ensures found { IfOk result (λ bytes. HasFound bytes.items (R.own_log recorder.new) (S.StableRecord.finds stable.new) (S.StableRecord.stuck_of stable.new)) }
    // However it ends, a restart finds what is kept or, while something is tried, nothing but that and what is
    // tried.
    ensures finds { FindsPart (part_now (R.own_log recorder.new)) (S.StableRecord.finds stable.new) }
    ensures ended { IfErr result (λ fault. EndsRisingAgain fault actor (R.own_log recorder.old) (R.own_log recorder.new) (S.StableRecord.stuck_of stable.new) (S.StableRecord.spent_of stable.new) (S.StableRecord.failures_of stable.old) (S.StableRecord.failures_of stable.new)) }
    ensures falls { falls_of (R.own_log recorder.new) ≤ falls_of (R.own_log recorder.old) + 1 }
    ensures count { HasFailed 0 (S.StableRecord.failures_of stable.old) (S.StableRecord.failures_of stable.new) }
{
    let actor = &actor;
    log_fall(*actor, tried, &*stable, recorder)?;
    let mut failed = 0;
    let bytes = reopened(stable, &mut failed)?;
    let age = age_of(bytes.as_slice(), tried);
    log_rise(*actor, age, bytes.as_slice(), &*stable, recorder)?;
    Ok(bytes)
}
