// The head of an input: the settings, up to the line of dashes.

ghost use Rattle.std.specs.Prelude.{◌≡◌, ◌++◌, ◌*◌, ◌≤◌, IfOk, OnOk, codes};
ghost use Rattle.lock_messages.specs.declared.ids.TheConstants.{MAX_CLIENTS};
ghost use Rattle.std.specs.Str.{bytes_eq};
ghost use Rattle.line_streams.specs.Streams.{TakesLine, FitsLimit};
ghost use Rattle.world_settings.specs.Heads.{dashes, HeadPiece, FindsHead, Starts, TakesAtMost};

use crate::settings::{Start, read_settings};
use crate::{Command, SettingsFault};
use line_streams::{End, LineReader, StreamFault};
use std::alloc::{AllocError, Global};
use std::io::Read;
use thiserror::Error;

/// The line of dashes begins within this many bytes.
pub const HEAD_ROOM: usize = 65_536;

/// Why there are no settings.
#[derive(Clone, Copy, Debug, PartialEq, Eq, Error)]
pub enum StartFault {
    /// The reader failed.
    #[error("the input can't be read")]
    Read,
    /// The settings are refused.
    #[error("{0}")]
    Settings(SettingsFault),
}

/// Adds a line with its line feed.
fn push_line(head: &mut Vec<u8>, line: &[u8]) -> Result<(), AllocError>
    ensures { OnOk result (head.new.items ≡ head.old.items ++ line.now ++ codes "\n") }
{
    head.extend_from_slice(line)?;
    head.push(b'\n')?;
    Ok(())
}

/// Reads the next piece of the head.
fn next_piece<R: Read>(source: &mut LineReader<R>, piece: &mut Vec<u8>) -> Result<End, StartFault>
    ensures piece { HeadPiece source.old source.new piece.new.items result }
    ensures taken { TakesLine source.old source.new piece.new.items result }
    ensures few { FitsLimit HEAD_ROOM piece.new.items result }
{
    match source.read_line(piece, HEAD_ROOM) {
        Ok(end) => Ok(end),
        Err(StreamFault::Memory) => Err(StartFault::Settings(SettingsFault::Memory)),
        Err(_) => Err(StartFault::Read),
    }
}

/// Whether the piece is the line of dashes.
fn is_dashes(piece: &[u8]) -> bool
    ensures { result ≡ bytes_eq piece.now dashes }
{
    piece == b"---".as_slice()
}

/// Adds the line that is the last, of settings that have no end, so that who says why sees it. Where memory is
/// refused it is left out.
fn keep_last(head: &mut Vec<u8>, piece: &[u8]) {
    let _left_out = push_line(head, piece);
}

/// Reads up to the line of dashes and over it, and leaves in `head` what stands before it, with its line feeds, in
/// place of what stood there. Of bytes that are known no more than 131,072 are taken, whatever is answered.
///
/// # Errors
///
/// `Read` where the reader fails or was asked as often as it may be; no such line begins within the first
/// `HEAD_ROOM` bytes (`NoEnd`, 924); or memory was refused (`Memory`, 925). Then `head` has lines that were read.
pub fn read_head<R: Read>(
    alloc: Global,
    source: &mut LineReader<R>,
    head: &mut Vec<u8>,
) -> Result<(), StartFault>
    ensures head { FindsHead source.old source.new head.new.items result }
    ensures few { TakesAtMost (2 * HEAD_ROOM) source.old source.new }
{
    head.clear();
    let mut piece = Vec::new(alloc);
    while head.len() < HEAD_ROOM {
        let end = match next_piece(source, &mut piece) {
            Ok(end) => end,
            Err(fault) => return Err(fault),
        };
        match end {
            End::Limit => {
                keep_last(head, piece.as_slice());
                return Err(StartFault::Settings(SettingsFault::NoEnd));
            }
            End::Input => {
                if is_dashes(piece.as_slice()) {
                    return Ok(());
                }
                keep_last(head, piece.as_slice());
                return Err(StartFault::Settings(SettingsFault::NoEnd));
            }
            End::LineFeed => {
                if is_dashes(piece.as_slice()) {
                    return Ok(());
                }
                if push_line(head, piece.as_slice()).is_err() {
                    return Err(StartFault::Settings(SettingsFault::Memory));
                }
            }
        }
    }
    Err(StartFault::Settings(SettingsFault::NoEnd))
}

/// Reads the settings that an input of this command begins with, up to the line of dashes and over it, and
/// judges them. It leaves their text in `head`, as `read_head` does. Of bytes that are known no more than 131,072 are
/// taken, whatever is answered.
///
/// # Errors
///
/// Those of `read_head`, and what is wrong with the settings, as `read_settings` tells it for the command.
pub fn read_start<R: Read>(
    alloc: Global,
    command: Command,
    source: &mut LineReader<R>,
    head: &mut Vec<u8>,
) -> Result<Start, StartFault>
    ensures start { Starts command source.old source.new result }
    ensures in_range { IfOk result (λ s. (1 ≤ s.settings.clients) × (s.settings.clients ≤ MAX_CLIENTS)) }
    ensures head { OnOk result (FindsHead source.old source.new head.new.items result) }
    ensures few { TakesAtMost (2 * HEAD_ROOM) source.old source.new }
{
    match read_head(alloc, source, head) {
        Ok(()) => {}
        Err(fault) => return Err(fault),
    }
    match read_settings(alloc, command, head.as_slice()) {
        Ok(start) => Ok(start),
        Err(fault) => Err(StartFault::Settings(fault)),
    }
}
