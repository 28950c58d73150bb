// Reopening a record whose device may fail.

ghost use Rattle.std.specs.Prelude.{◌≡◌, ◌+◌, ◌<◌, OnOk, IfOk, IfErr, IfSome, IfNone};
ghost use Rattle.stable_record.specs.Finding.{FindsOnly};
ghost use Rattle.actor_steps.specs.Steps.{HasFailed, HasNotReopened, IsReopened, EndsReopening};

use event_recorders::{OwnRecord, RunFault};
use stable_record::{RecordFault, StableRecord};

/// How many reopens of a record fail in a row before its actor gives up.
pub const MAX_REOPENS: u8 = 3;

/// What one reopen finds; `None` where the device failed, which is counted. 914: memory was refused, and
/// nothing has changed.
fn reopen_once<S: OwnRecord>(stable: &mut S, failed: &mut u8) -> Result<Option<Vec<u8>>, RunFault>
    requires { failed.old < MAX_REOPENS }
    ensures found { IfOk result (λ o. IfSome o (λ bytes. IsReopened bytes.items (S.StableRecord.finds stable.old) (S.StableRecord.finds stable.new) (S.StableRecord.stuck_of stable.new) × (failed.new ≡ failed.old))) }
    ensures failed { IfOk result (λ o. IfNone o (HasNotReopened 1 (S.StableRecord.finds stable.old) (S.StableRecord.finds stable.new) (S.StableRecord.failures_of stable.old) (S.StableRecord.failures_of stable.new) × (failed.new ≡ failed.old + 1))) }
    ensures memory { IfErr result (λ fault. (fault ≡ RunFault.Memory) × (failed.new ≡ failed.old)) }
    ensures unchanged { IfErr result (λ fault. (S.StableRecord.finds stable.new ≡ S.StableRecord.finds stable.old) × (S.StableRecord.stuck_of stable.new ≡ S.StableRecord.stuck_of stable.old) × (S.StableRecord.failures_of stable.new ≡ S.StableRecord.failures_of stable.old)) }
    ensures count { HasFailed 0 (S.StableRecord.failures_of stable.old) (S.StableRecord.failures_of stable.new) }
{
    match stable.reopen() {
        Ok(bytes) => Ok(Some(bytes)),
        Err(RecordFault::Device) => {
            *failed += 1;
            Ok(None)
        }
        Err(RecordFault::Memory) => Err(RunFault::Memory),
        Err(_) => unreachable!(),
    }
}

/// What the record finds; it is reopened up to `MAX_REOPENS` times while its device fails. Counts the
/// reopens that failed.
///
/// The errors: each of them failed (911), or memory was refused before (914).
#[tactic(auto, using(crate::proofs::ReopenFacts::reopened_only))]
pub(crate) fn reopened<S: OwnRecord>(stable: &mut S, failed: &mut u8) -> Result<Vec<u8>, RunFault>
    requires { failed.old ≡ 0 }
    ensures found { IfOk result (λ bytes. IsReopened bytes.items (S.StableRecord.finds stable.old) (S.StableRecord.finds stable.new) (S.StableRecord.stuck_of stable.new)) }
    ensures few { OnOk result (failed.new < MAX_REOPENS) }
    ensures ended { IfErr result (λ fault. EndsReopening fault failed.new) }
    ensures only { FindsOnly (S.StableRecord.finds stable.old) (S.StableRecord.finds stable.new) }
    ensures failed { HasFailed failed.new (S.StableRecord.failures_of stable.old) (S.StableRecord.failures_of stable.new) }
{
    while *failed < MAX_REOPENS {
        let found = reopen_once(stable, failed)?;
        match found {
            Some(bytes) => return Ok(bytes),
            None => {}
        }
    }
    Err(RunFault::NotReopened)
}
