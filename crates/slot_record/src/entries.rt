// What is written behind a gate.

ghost use Rattle.std.specs.Prelude.{◌≡◌, ◌+◌, ◌≤◌, take, length, IfOk};
ghost use Rattle.stable_record.specs.declared.formats.TheConstants.{MAX_RECORD_LEN as MOST};
ghost use Rattle.slot_record.specs.Slots.{entry_of};

use std::alloc::{AllocError, Global};

/// The bytes of a sequence and a length.
pub(crate) const ENTRY_HEAD_LEN: usize = 12;

/// The most bytes that stand behind a gate: the sequence, the length and the longest body.
pub(crate) const BUFFER_LEN: usize = 60_012;

/// This many bytes of memory.
pub(crate) fn zeros(alloc: Global, len: usize) -> Result<Vec<u8>, AllocError>
    ensures { IfOk result (λ v. length v.items ≡ len) }
{
    vec![in alloc; 0u8; len]
}

/// Puts the sequence, the length and the body into the buffer, from its front on.
pub(crate) fn fill(buffer: &mut [u8], sequence: u64, bytes: &[u8])
    requires buffer { length buffer.old ≡ BUFFER_LEN }
    requires fits { length bytes.now ≤ MOST }
    ensures entry { take (12 + length bytes.now) buffer.new ≡ entry_of sequence bytes.now }
{
    let end = ENTRY_HEAD_LEN + bytes.len();
    buffer[..8].copy_from_slice(&sequence.to_be_bytes());
    buffer[8..ENTRY_HEAD_LEN].copy_from_slice(&(bytes.len() as u32).to_be_bytes());
    buffer[ENTRY_HEAD_LEN..end].copy_from_slice(bytes);
}
