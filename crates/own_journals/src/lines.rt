// The lines of an own journal.

ghost use Rattle.std.specs.Prelude.{◌≡◌};
ghost use Rattle.event_lines.specs.Lines.{words};
ghost use Rattle.own_journals.specs.OwnLines.{reading_word, line_with, plain_in, three_of, seen, last_three, both, ends_in_life, life_in, is_frame_word, framed_in, SpellsBytes, ReadsFrame, ReadsWhole, ReadsLife, ReadsLine};
ghost use Rattle.world_model.specs.Kinds.{kind_of, is_reading};

use crate::OwnLineFault;
use crate::words::{actor_in, first_word, last_words};
use bytes::Bytes;
use event_lines::laws::events_are_spelled_once;
use event_lines::{LineFault, read_event};
use hex::FromHexError;
use lock_messages::Actor;
use std::alloc::Global;
use world_model::Event;

/// What a line of an own journal says.
#[derive(Debug, PartialEq, Eq, Drop)]
pub enum OwnLine {
    /// A life of the actor begins: its process found these bytes in the record.
    Life(Actor, Bytes),
    /// A node takes the message with this frame, or a client hears it.
    Reads(Actor, Bytes),
    /// Any other event.
    Does(Event),
}

/// The bytes that the digits spell.
///
/// # Errors
///
/// `NoLine` if they spell none, `Memory` if there is no memory.
fn bytes_in(alloc: Global, digits: &[u8]) -> Result<Bytes, OwnLineFault>
    ensures { SpellsBytes digits.now result }
{
    let bytes = match hex::decode(alloc, digits) {
        Ok(bytes) => bytes,
        Err(FromHexError::OutOfMemory) => return Err(OwnLineFault::Memory),
        Err(_) => return Err(OwnLineFault::NoLine),
    };
    match Bytes::from_vec(bytes) {
        Ok(bytes) => Ok(bytes),
        Err(_) => Err(OwnLineFault::Memory),
    }
}

/// The word before the name of an actor that reads a message.
fn reading_word(who: &Actor) -> &'static [u8]
    ensures { result.now ≡ reading_word who.now }
{
    match who {
        Actor::Node(_) => b"take",
        Actor::Client(_) => b"hear",
    }
}

/// The line of this word, this actor and these bytes.
fn with_bytes(word: &[u8], who: Actor, bytes: Bytes) -> Result<OwnLine, OwnLineFault>
    ensures { result ≡ line_with word.now who bytes }
{
    let reads = word == reading_word(&who);
    if word == b"life".as_slice() {
        Ok(OwnLine::Life(who, bytes))
    } else if reads {
        Ok(OwnLine::Reads(who, bytes))
    } else {
        Err(OwnLineFault::NoLine)
    }
}

/// The line of these three words.
#[tactic(auto, using(crate::proofs::OwnLineFacts::no_actor, crate::proofs::OwnLineFacts::no_bytes, crate::proofs::OwnLineFacts::frame_read))]
fn read_framed(
    alloc: Global,
    word: &[u8],
    name: &[u8],
    digits: &[u8],
) -> Result<OwnLine, OwnLineFault>
    ensures { ReadsFrame word.now name.now digits.now result }
{
    let who = match actor_in(alloc, name) {
        Ok(who) => who,
        Err(fault) => return Err(fault),
    };
    match bytes_in(alloc, digits) {
        Ok(bytes) => with_bytes(word, who, bytes),
        Err(fault) => Err(fault),
    }
}

/// Whether the event reads a message.
fn reads(event: &Event) -> bool
    ensures { result ≡ is_reading (kind_of event.now) }
{
    matches!(event, Event::Take(..) | Event::Hear(..))
}

/// The line of what was read, if it is an event that reads no message.
fn plain(read: Result<Event, LineFault>) -> Result<OwnLine, OwnLineFault>
    ensures { result ≡ plain_in read }
{
    match read {
        Ok(event) if reads(&event) => Err(OwnLineFault::NoLine),
        Ok(event) => Ok(OwnLine::Does(event)),
        Err(_) => Err(OwnLineFault::NoLine),
    }
}

/// Whether a line that begins with this word has three words, the last one in hexadecimal digits.
fn is_framed(word: &[u8]) -> bool
    ensures { result ≡ is_frame_word word.now }
{
    word == b"life".as_slice() || word == b"take".as_slice() || word == b"hear".as_slice()
}

/// The three words of a line that has a frame or a record.
#[tactic(auto, using(crate::proofs::OwnLineFacts::four_words, crate::proofs::OwnLineFacts::no_frame_word, crate::proofs::OwnLineFacts::three_framed))]
fn framed_words(line: &[u8]) -> Option<(&[u8], &[u8], &[u8])>
    ensures { seen result ≡ framed_in (three_of (words line.now)) }
{
    let (word, rest) = first_word(line);
    if !is_framed(word) {
        return None;
    }
    let (name, rest) = first_word(rest?);
    let (digits, rest) = first_word(rest?);
    match rest {
        Some(_) => None,
        None => Some((word, name, digits)),
    }
}

/// The line of which the bytes are the whole text.
fn read_whole(alloc: Global, line: &[u8]) -> Result<OwnLine, OwnLineFault>
    ensures { ReadsWhole line.now result }
{
    events_are_spelled_once();
    match framed_words(line) {
        Some((word, name, digits)) => read_framed(alloc, word, name, digits),
        None => plain(read_event(line)),
    }
}

/// Whether the word ends with `life`.
fn ends_in_life(word: &[u8]) -> bool
    ensures { result ≡ ends_in_life word.now }
{
    word.ends_with(b"life")
}

/// The name and the digits with which a line ends, if a word before them ends with `life`.
fn life_words(line: &[u8]) -> Option<(&[u8], &[u8])>
    ensures { both result ≡ life_in (last_three (words line.now)) }
{
    match last_words(line) {
        Some((word, name, digits)) if ends_in_life(word) => Some((name, digits)),
        _ => None,
    }
}

/// The line by which a life begins, with which the bytes end.
fn read_life(alloc: Global, line: &[u8]) -> Result<OwnLine, OwnLineFault>
    ensures { ReadsLife line.now result }
{
    match life_words(line) {
        Some((name, digits)) => read_framed(alloc, b"life", name, digits),
        None => Err(OwnLineFault::NoLine),
    }
}

/// Which line of an own journal the bytes spell, given without the line feed.
///
/// The lines are `life WHO HEX`, `take nN HEX`, `hear cC HEX`, and each event that reads no message, as in any journal.
/// HEX is an even number of hexadecimal digits in either case.
///
/// A process that dies while it writes leaves a line that is cut off, and the next life begins right after it. So bytes
/// that spell no line, and end with `life WHO HEX`, spell that line. What is before it counts for nothing.
///
/// # Errors
///
/// `NoLine` if the bytes spell no line, `Memory` if there is no memory.
pub fn read_own_line(alloc: Global, line: &[u8]) -> Result<OwnLine, OwnLineFault>
    ensures { ReadsLine line.now result }
{
    match read_whole(alloc, line) {
        Ok(read) => Ok(read),
        Err(OwnLineFault::NoLine) => read_life(alloc, line),
        Err(OwnLineFault::Memory) => Err(OwnLineFault::Memory),
    }
}
