// Events that leave the actor's record as it is.

ghost use Rattle.std.specs.Prelude.{◌≡◌, true, false, None, OnOk, IfOk, IfErr, IfSome, IfNone};
ghost use Rattle.lock_messages.specs.Messages.{is_for};
ghost use Rattle.world_model.specs.Parts.{is_own, own_refusal};
ghost use Rattle.event_recorders.specs.OwnLogs.{part_now, FindsPart, FindsAfter, IsAdded, reads, changes_record};
ghost use Rattle.actor_steps.specs.Steps.{run_fault_of, effect_of, reading_of, HasRead, IsBookFault};
ghost use Rattle.actor_steps.specs.Endings.{is_fall, falls_of};

use event_recorders::laws::own_logs_tell_parts;
use event_recorders::{LogFault, OwnRecord, Recorder, RunFault};
use lock_messages::{Actor, Message, NodeId};
use lock_model::Problem;
use world_model::{Effect, Event};

/// The fault by which a thread ends where its book refuses an event that may happen: want of memory
/// (813) is 914, and all else is 915.
pub fn run_fault_of(fault: LogFault) -> RunFault
    ensures { result ≡ run_fault_of fault }
{
    match fault {
        LogFault::Memory => RunFault::Memory,
        LogFault::Full | LogFault::OtherBook | LogFault::OtherActor | LogFault::NotAStep(_) =>
            RunFault::Book,
    }
}

/// What came of an event that reads no message: its effect, or the fault of the thread.
fn effect_of(logged: Result<Effect, LogFault>) -> Result<Effect, RunFault>
    ensures { result ≡ effect_of logged }
{
    match logged {
        Ok(effect) => Ok(effect),
        Err(fault) => Err(run_fault_of(fault)),
    }
}

/// Logs an event that reads no message.
pub(crate) fn log_own<S: OwnRecord, R: Recorder>(
    recorder: &mut R,
    event: Event,
    stable: &S,
) -> Result<Effect, RunFault>
    requires own { is_own (R.own_log recorder.old).actor event ≡ true }
    requires allowed { own_refusal (R.own_log recorder.old).ballots event (part_now (R.own_log recorder.old)) ≡ None }
    requires plain { reads event ≡ false }
    requires found { FindsAfter (R.own_log recorder.old) event (S.StableRecord.finds stable.now) }
    ensures logged { IfOk result (λ done. IsAdded (R.own_log recorder.old) event done (R.own_log recorder.new)) }
    ensures refused { IfErr result (λ fault. IsBookFault fault × (R.own_log recorder.new ≡ R.own_log recorder.old)) }
{
    effect_of(stable.log(recorder, event))
}

/// Logs an event that neither reads a message nor changes what the actor keeps or tries to keep: a
/// Begin, SayTo, Say, Enter, Leave, Soften, Fall or Switch.
///
/// The caller owes that the event is the actor's, that the actor's own log allows it, and that a
/// restart finds in the record what the actor keeps. The errors leave the log as it was: memory was
/// refused (914), or the book is full or another's (915).
pub fn log_plain<S: OwnRecord, R: Recorder>(
    recorder: &mut R,
    event: Event,
    stable: &S,
) -> Result<Effect, RunFault>
    requires own { is_own (R.own_log recorder.old).actor event ≡ true }
    requires allowed { own_refusal (R.own_log recorder.old).ballots event (part_now (R.own_log recorder.old)) ≡ None }
    requires plain { reads event ≡ false }
    requires stays { changes_record event ≡ false }
    requires found { FindsPart (part_now (R.own_log recorder.old)) (S.StableRecord.finds stable.now) }
    ensures logged { IfOk result (λ done. IsAdded (R.own_log recorder.old) event done (R.own_log recorder.new)) }
    ensures found { FindsPart (part_now (R.own_log recorder.new)) (S.StableRecord.finds stable.now) }
    ensures refused { IfErr result (λ fault. IsBookFault fault × (R.own_log recorder.new ≡ R.own_log recorder.old)) }
    ensures falls { is_fall event ≡ false → falls_of (R.own_log recorder.new) ≡ falls_of (R.own_log recorder.old) }
{
    own_logs_tell_parts();
    log_own(recorder, event, stable)
}

/// Logs that the node takes this problem, and answers what the log has of it: whether it is another one
/// than before. The record stays: where it is another one, what the node decided has yet to be kept.
///
/// The caller owes that the log is the node's and allows it, so that the node is up and about nothing, and
/// that a restart finds in the record what the node keeps. The errors leave the log as it was: memory was
/// refused (914), or the book is full or another's (915).
/// A call of its own: by log_plain a loop would have any effect to look at.
#[tactic(auto, using(crate::proofs::ReadingFacts::switch_added))]
pub fn log_switch<S: OwnRecord, R: Recorder>(
    recorder: &mut R,
    node: NodeId,
    problem: Problem,
    stable: &S,
) -> Result<bool, RunFault>
    requires actor { (R.own_log recorder.old).actor ≡ Actor.Node node }
    requires allowed { own_refusal (R.own_log recorder.old).ballots (Event.Switch node problem) (part_now (R.own_log recorder.old)) ≡ None }
    requires found { FindsPart (part_now (R.own_log recorder.old)) (S.StableRecord.finds stable.now) }
    ensures logged { IfOk result (λ changed. IsAdded (R.own_log recorder.old) (Event.Switch node problem) (Effect.Switched changed) (R.own_log recorder.new)) }
    ensures found { FindsPart (part_now (R.own_log recorder.new)) (S.StableRecord.finds stable.now) }
    ensures refused { IfErr result (λ fault. IsBookFault fault × (R.own_log recorder.new ≡ R.own_log recorder.old)) }
    ensures falls { falls_of (R.own_log recorder.new) ≡ falls_of (R.own_log recorder.old) }
{
    let done = log_plain(recorder, Event::Switch(node, problem), stable)?;
    Ok(done.changes())
}

/// What came of a reading: its message; `None` exactly where the event is no step, since the log knows no message of
/// the number for the actor; else the fault of the thread.
fn reading_of(logged: Result<Effect, LogFault>) -> Result<Option<Message>, RunFault>
    ensures { result ≡ reading_of logged }
{
    match logged {
        Ok(done) => Ok(done.message()),
        Err(LogFault::NotAStep(_)) => Ok(None),
        Err(fault) => Err(run_fault_of(fault)),
    }
}

/// Logs a Take or a Hear of the message that came, and returns the message that the log has of it. `None`: the log knows
/// no message of the number (607), or one for another actor (608), and nothing is logged.
///
/// The caller owes what `log_plain` asks for, and a message for the actor. The errors leave the log as it was: it ran
/// out of memory (914), or the log takes nothing more or is another book's (915).
#[tactic(auto, using(crate::proofs::ReadingFacts::has_read, crate::proofs::ReadingFacts::has_dropped, crate::proofs::ReadingFacts::has_refused))]
pub fn log_reading<S: OwnRecord, R: Recorder>(
    recorder: &mut R,
    event: Event,
    message: &Message,
    stable: &S,
) -> Result<Option<Message>, RunFault>
    requires own { is_own (R.own_log recorder.old).actor event ≡ true }
    requires allowed { own_refusal (R.own_log recorder.old).ballots event (part_now (R.own_log recorder.old)) ≡ None }
    requires reading { reads event ≡ true }
    requires addressed { is_for (R.own_log recorder.old).actor message.now ≡ true }
    requires found { FindsPart (part_now (R.own_log recorder.old)) (S.StableRecord.finds stable.now) }
    ensures read { IfOk result (λ o. IfSome o (λ m. HasRead (R.own_log recorder.old) event m (R.own_log recorder.new))) }
    ensures dropped { IfOk result (λ o. IfNone o (R.own_log recorder.new ≡ R.own_log recorder.old)) }
    ensures found { FindsPart (part_now (R.own_log recorder.new)) (S.StableRecord.finds stable.now) }
    ensures refused { IfErr result (λ fault. IsBookFault fault × (R.own_log recorder.new ≡ R.own_log recorder.old)) }
    ensures falls { falls_of (R.own_log recorder.new) ≡ falls_of (R.own_log recorder.old) }
{
    own_logs_tell_parts();
    reading_of(stable.log_reading(recorder, event, message))
}
