// What a client keeps: the attempt that it made last.

ghost use Rattle.std.specs.Prelude.{◌≡◌, ◌≤◌, ℕ, IfOk, Ok};
ghost use Rattle.stable_record.specs.Records.{client_record_of};
ghost use Rattle.stable_record.specs.Reading.{client_reading};

use crate::RecordFault;
use crate::formats::VERSION;
use lock_messages::MAX_ATTEMPT;

/// The one spelling of a client's record: the attempt that it made last, or 0 for none yet. The
/// caller owes that it is at most `MAX_ATTEMPT`.
pub fn client_bytes(attempt: u64) -> [u8; 9]
    requires { attempt ≤ MAX_ATTEMPT }
    ensures { result ≡ client_record_of attempt }
{
    let [a, b, c, d, e, f, g, h] = attempt.to_be_bytes();
    [VERSION, a, b, c, d, e, f, g, h]
}

#[tactic(auto, unfolding(crate::specs::Reading::client_reading))]
fn whole(bytes: &[u8]) -> Result<u64, RecordFault>
    ensures { result ≡ client_reading bytes.now }
{
    let [version, rest @ ..] = bytes else {
        return Err(RecordFault::ClientShort);
    };
    if *version != VERSION {
        return Err(RecordFault::ClientVersion);
    }
    let Some((field, rest)) = rest.split_first_chunk::<8>() else {
        return Err(RecordFault::ClientShort);
    };
    let attempt = u64::from_be_bytes(*field);
    if attempt > MAX_ATTEMPT {
        return Err(RecordFault::ClientAttempt);
    }
    if !rest.is_empty() {
        return Err(RecordFault::ClientTrailing);
    }
    Ok(attempt)
}

/// The attempt whose client record the bytes are, all of the bytes; it takes no memory.
///
/// Else the fault of the first field from the front that isn't wholly there (321) or whose value is
/// wrong: the version (322), the attempt (323); and behind a whole record that bytes follow it
/// (324). The layout and its faults are our own.
pub fn read_client(bytes: &[u8]) -> Result<u64, RecordFault>
    // What is read is spelled so.
    ensures found { IfOk result (λ a. (a ≤ MAX_ATTEMPT) × (bytes.now ≡ client_record_of a)) }
    // What is spelled so is read.
    ensures only { (a : ℕ) → a ≤ MAX_ATTEMPT → bytes.now ≡ client_record_of a → result ≡ Ok a }
    // Which fault it is.
    ensures exact { result ≡ client_reading bytes.now }
{
    lock_messages::laws::fields_are_exact::<RecordFault>();
    whole(bytes)
}
