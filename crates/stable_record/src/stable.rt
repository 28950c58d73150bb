// What it means to keep a record.

ghost use Rattle.std.specs.Prelude.{◌≡◌, ◌↔◌, ◌⊎◌, ℕ, ◌<◌, ◌≤◌, Bool, true, false, List, [], ◌∷◌, length, OnOk, IfOk, IfErr, Err};
ghost use Rattle.lock_model.specs.Decisions.{Among};
ghost use Rattle.stable_record.specs.Finding.{IsKeepFault, IsReopenFault, FindsOnly, FindsOnlyOr, Counts, IsOneOrTwo};

use crate::RecordFault;
use crate::formats::MAX_RECORD_LEN;

/// A record that outlives its owner: a file, a device, or memory that stands for one.
///
/// What it means is in four words, which no code computes. `finds`: the byte strings, one or two,
/// one of which a restart now may find. `stuck_of`: whether a change has failed since the last
/// reopen. `spent_of`: whether no change can be numbered any more (without it "305 comes before 304" could not
/// be said). `failures_of`: how often the device has failed, up to `u64::MAX`. The rules are our own.
pub trait StableRecord: Drop {
    ghost finds: { Self → List (List ℕ) };

    ghost stuck_of: { Self → Bool };

    ghost spent_of: { Self → Bool };

    ghost failures_of: { Self → ℕ };

    /// Keeps these bytes in place of those before.
    ///
    /// Before the device is called the first of these is answered, and nothing has changed: 302
    /// (stuck), 303 (more than `MAX_RECORD_LEN` bytes), 305 (no change can be numbered any more),
    /// 304 (memory was refused). After 301 (the device failed) a restart may find these bytes or
    /// what it could find before, and the record is stuck.
    fn keep(&mut self, bytes: &[u8]) -> Result<(), RecordFault>
        // A restart finds just these bytes.
        ensures kept { OnOk result ((finds self.new ≡ bytes.now ∷ []) × (stuck_of self.new ≡ false)) }
        // Nothing else is answered.
        ensures faults { IfErr result IsKeepFault }
        // 302 to 305, the first of them.
        ensures stuck { (result ≡ Err RecordFault.Stuck) ↔ (stuck_of self.old ≡ true) }
        ensures too_long { (result ≡ Err RecordFault.TooLong) ↔ ((stuck_of self.old ≡ false) × (MAX_RECORD_LEN < length bytes.now)) }
        ensures spent { (result ≡ Err RecordFault.Spent) ↔ ((stuck_of self.old ≡ false) × (length bytes.now ≤ MAX_RECORD_LEN) × (spent_of self.old ≡ true)) }
        // They change nothing.
        ensures unchanged { IfErr result (λ fault. (fault ≡ RecordFault.Device) ⊎ ((finds self.new ≡ finds self.old) × (stuck_of self.new ≡ stuck_of self.old) × (spent_of self.new ≡ spent_of self.old) × (failures_of self.new ≡ failures_of self.old))) }
        // 301.
        ensures device { result ≡ Err RecordFault.Device → Counts (failures_of self.old) (failures_of self.new) × FindsOnlyOr (finds self.old) bytes.now (finds self.new) × (stuck_of self.new ≡ true) }
        ensures some { IsOneOrTwo (finds self.new) }
        ensures count { failures_of self.old ≤ failures_of self.new };

    /// What a restart finds: one of the byte strings that it could find, and from now on just this
    /// one; the record isn't stuck any more. After 301 (the device failed) nothing new is to be found
    /// and the record is stuck; 304 (memory was refused) has changed nothing.
    fn reopen(&mut self) -> Result<Vec<u8>, RecordFault>
        ensures found { IfOk result (λ bytes. Among bytes.items (finds self.old) × (finds self.new ≡ bytes.items ∷ []) × (stuck_of self.new ≡ false)) }
        // Nothing else is answered.
        ensures faults { IfErr result IsReopenFault }
        ensures nothing_new { IfErr result (λ fault. FindsOnly (finds self.old) (finds self.new)) }
        // 301.
        ensures device { result ≡ Err RecordFault.Device → Counts (failures_of self.old) (failures_of self.new) × (stuck_of self.new ≡ true) }
        // 304.
        ensures unchanged { result ≡ Err RecordFault.Memory → (finds self.new ≡ finds self.old) × (stuck_of self.new ≡ stuck_of self.old) × (spent_of self.new ≡ spent_of self.old) × (failures_of self.new ≡ failures_of self.old) }
        ensures some { IsOneOrTwo (finds self.new) }
        ensures count { failures_of self.old ≤ failures_of self.new };

    /// Whether a change has failed since the last reopen. That a restart may find one or two byte
    /// strings is learned here, also of a record that was handed in.
    /// It is learned here because a trait has no invariant.
    fn stuck(&self) -> bool
        ensures answer { result ≡ stuck_of self.now }
        ensures some { IsOneOrTwo (finds self.now) };

    /// How often the device has failed; it stops at the greatest number.
    fn failures(&self) -> u64
        ensures { result ≡ failures_of self.now };
}
