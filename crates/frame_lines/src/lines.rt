// The line of a frame.

ghost use Rattle.std.specs.Prelude.{◌≡◌, ◌↔◌, ◌∷◌, [], ◌++◌, ℕ, List, length, Some, Ok, IfOk, IfSome, IsSomeAnd, IsTrue, string_bytes};
ghost use Rattle.hex.specs.Hex.{IsBytes, decode_of, encode_lower};
ghost use Rattle.lock_messages.specs.Texts.{actor_text};
ghost use Rattle.frame_lines.specs.FrameLines.{IsOkUnlessMemory, frame_line, tag_of};

use crate::Secret;
use bytes::Bytes;
use hex::FromHexError;
use lock_messages::Actor;
use std::alloc::{AllocError, Global};

/// How many bytes of the digest are the tag.
const TAG_BYTES: usize = 8;

/// How many bytes of a line come after the frame's digits: a space and the tag.
const TAIL_LEN: usize = 2 * TAG_BYTES + 1;

/// The name of an actor and a space. The only error is running out of memory.
fn name_of(alloc: Global, actor: &Actor) -> Result<String, AllocError>
    ensures { IfOk result (λ name. string_bytes name ≡ actor_text actor.now ++ 32 ∷ []) }
{
    format!(in alloc; "{actor} ")
}

/// The tag of a frame for an actor. The only error is running out of memory.
fn tag_of(alloc: Global, secret: &Secret, to: &Actor, frame: &[u8]) -> Result<String, AllocError>
    ensures { IfOk result (λ tag. string_bytes tag ≡ tag_of secret.now to.now frame.now) }
{
    let name = name_of(alloc, to)?;
    let digest = secret.digest(name.as_bytes(), frame);
    hex::encode(alloc, &digest[..TAG_BYTES])
}

/// The line of a frame for an actor, without its line feed. The only error is running out of memory.
fn frame_text(
    alloc: Global,
    secret: &Secret,
    to: &Actor,
    frame: &[u8],
) -> Result<String, AllocError>
    ensures { IfOk result (λ line. string_bytes line ≡ frame_line secret.now to.now frame.now) }
{
    let digits = hex::encode(alloc, frame)?;
    let tag = tag_of(alloc, secret, to, frame)?;
    format!(in alloc; "{to} {digits} {tag}")
}

/// The line of a frame for an actor, with its line feed. The only error is running out of memory.
pub fn write_frame(
    alloc: Global,
    secret: &Secret,
    to: Actor,
    frame: &[u8],
) -> Result<String, AllocError>
    ensures { IfOk result (λ line. string_bytes line ≡ frame_line secret.now to frame.now ++ 10 ∷ []) }
{
    let mut line = frame_text(alloc, secret, &to, frame)?;
    line.push('\n')?;
    Ok(line)
}

/// The bytes that the digits spell, if they spell some. The only error is running out of memory.
fn bytes_in(alloc: Global, digits: &[u8]) -> Result<Option<Bytes>, AllocError>
    ensures { (bytes : List ℕ) → decode_of digits.now ≡ Ok bytes → IsOkUnlessMemory result (Some bytes) }
{
    let bytes = match hex::decode(alloc, digits) {
        Ok(bytes) => bytes,
        Err(FromHexError::OutOfMemory) => return Err(AllocError),
        Err(_) => return Ok(None),
    };
    Ok(Some(Bytes::from_vec(bytes)?))
}

/// The bytes of a line between its first `name_len` bytes and its tail, if the line is long enough.
fn digits_in(line: &[u8], name_len: usize) -> Option<&[u8]>
    ensures { (name digits tail : List ℕ) → line.now ≡ name ++ (digits ++ tail) → length name ≡ name_len → length tail ≡ TAIL_LEN → IsSomeAnd result (λ d. d.now ≡ digits) }
{
    let end = line.len().checked_sub(TAIL_LEN)?;
    if end < name_len {
        return None;
    }
    Some(&line[name_len..end])
}

/// The bytes whose digits are in the frame's place of a line for the actor, if they spell some. The only error is running out of memory.
fn frame_in(alloc: Global, own: &Actor, line: &[u8]) -> Result<Option<Bytes>, AllocError>
    ensures { (frame tail : List ℕ) → IsBytes frame → length tail ≡ TAIL_LEN → line.now ≡ actor_text own.now ++ 32 ∷ (encode_lower frame ++ tail) → IsOkUnlessMemory result (Some frame) }
{
    let name = name_of(alloc, own)?;
    let Some(digits) = digits_in(line, name.as_bytes().len()) else {
        return Ok(None);
    };
    bytes_in(alloc, digits)
}

/// Whether the line is the one of this frame. The only error is running out of memory.
fn is_line_of(
    alloc: Global,
    secret: &Secret,
    own: &Actor,
    frame: &[u8],
    line: &[u8],
) -> Result<bool, AllocError>
    ensures { IfOk result (λ is. IsTrue is ↔ (line.now ≡ frame_line secret.now own.now frame.now)) }
{
    let text = frame_text(alloc, secret, own, frame)?;
    Ok(text.as_bytes() == line)
}

/// The frame of a line, which is given without its line feed.
///
/// It returns a frame exactly if the line is the one line of that frame for this actor under this secret. The only
/// error is running out of memory.
pub fn read_frame(
    alloc: Global,
    secret: &Secret,
    own: Actor,
    line: &[u8],
) -> Result<Option<Bytes>, AllocError>
    ensures accepted { IfOk result (λ o. IfSome o (λ frame. line.now ≡ frame_line secret.now own frame)) }
    ensures only { (frame : List ℕ) → IsBytes frame → line.now ≡ frame_line secret.now own frame → IsOkUnlessMemory result (Some frame) }
{
    let Some(frame) = frame_in(alloc, &own, line)? else {
        return Ok(None);
    };
    if is_line_of(alloc, secret, &own, frame.as_slice(), line)? {
        return Ok(Some(frame));
    }
    Ok(None)
}
