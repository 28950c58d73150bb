// The words of a line.

ghost use Rattle.std.specs.Prelude.{◌≡◌, ℕ, List, ◌∷◌, ◌++◌, ◌<◌, length, IfOk, IfSome, codes};
ghost use Rattle.std.specs.List.{position};
ghost use Rattle.event_lines.specs.Lines.{is_space, words};
ghost use Rattle.event_lines.specs.Reading.{words_behind};
ghost use Rattle.own_journals.specs.OwnLines.{seen, last_from, last_three, trying_in, named_in, NamesActor};

use crate::OwnLineFault;
use arrayvec::ArrayVec;
use event_lines::laws::events_are_spelled_once;
use event_lines::{LineFault, read_event};
use lock_messages::Actor;
use std::alloc::{AllocError, Global};
use world_model::Event;

/// The index of the first space.
fn space_in(text: &[u8]) -> Option<usize>
    ensures { result ≡ position is_space text.now }
{
    text.iter().position(|byte| *byte == b' ')
}

/// The first word, and what is after the space behind it, if there is one.
pub(crate) fn first_word(text: &[u8]) -> (&[u8], Option<&[u8]>)
    ensures words { words text.now ≡ result.0.now ∷ words_behind result.1 }
    ensures shorter { IfSome result.1 (λ rest. length rest.now < length text.now) }
{
    match space_in(text) {
        None => (text, None),
        Some(at) => (&text[..at], Some(&text[at + 1..])),
    }
}

/// The last three of these words and those of the rest.
fn last_of<'a>(
    first: &'a [u8],
    second: &'a [u8],
    third: &'a [u8],
    rest: Option<&'a [u8]>,
) -> (&'a [u8], &'a [u8], &'a [u8])
    ensures { (result.0.now, result.1.now, result.2.now) ≡ last_from first.now second.now third.now (words_behind rest.entry) }
{
    let mut first = first;
    let mut second = second;
    let mut third = third;
    let mut left = rest;
    while let Some(text) = left {
        let (word, more) = first_word(text);
        first = second;
        second = third;
        third = word;
        left = more;
    }
    (first, second, third)
}

/// The last three words of a text that has so many.
pub fn last_words(text: &[u8]) -> Option<(&[u8], &[u8], &[u8])>
    ensures { seen result ≡ last_three (words text.now) }
{
    let (first, rest) = first_word(text);
    let (second, rest) = first_word(rest?);
    let (third, rest) = first_word(rest?);
    Some(last_of(first, second, third, rest))
}

/// The most bytes of a text that takes no memory: those of `try` and a word that is no longer than an actor's name.
const SHORT: usize = 16;

/// The text `try` and the word, if it is short.
fn short_try(word: &[u8]) -> Option<ArrayVec<u8, SHORT>>
    ensures { IfSome result (λ text. text.items ≡ codes "try " ++ word.now) }
{
    let mut text = ArrayVec::new();
    if text.try_extend_from_slice(b"try ").is_err() {
        return None;
    }
    if text.try_extend_from_slice(word).is_err() {
        return None;
    }
    Some(text)
}

/// The text `try` and the word.
fn long_try(alloc: Global, word: &[u8]) -> Result<Vec<u8>, AllocError>
    ensures { IfOk result (λ text. text.items ≡ codes "try " ++ word.now) }
{
    let mut text = Vec::new(alloc);
    text.extend_from_slice(b"try ")?;
    text.extend_from_slice(word)?;
    Ok(text)
}

/// The actor that tries to keep, if this is a try.
fn trying(event: Event) -> Option<Actor>
    ensures { result ≡ trying_in event }
{
    match event {
        Event::Try(actor) => Some(actor),
        _ => None,
    }
}

/// The actor that tries to keep in what was read.
fn named(read: Result<Event, LineFault>) -> Result<Actor, OwnLineFault>
    ensures { result ≡ named_in read }
{
    match read {
        Ok(event) => trying(event).ok_or(OwnLineFault::NoLine),
        Err(_) => Err(OwnLineFault::NoLine),
    }
}

/// The actor that tries to keep, by a text that begins with `try`.
fn trying_by(text: &[u8]) -> Result<Actor, OwnLineFault>
    ensures { (word : List ℕ) → text.now ≡ codes "try " ++ word → NamesActor word result }
{
    events_are_spelled_once();
    named(read_event(text))
}

/// The actor that the word names. It takes memory only if the word is longer than a name.
///
/// # Errors
///
/// `NoLine` if it names none, `Memory` if there is no memory.
pub fn actor_in(alloc: Global, word: &[u8]) -> Result<Actor, OwnLineFault>
    ensures { NamesActor word.now result }
{
    if let Some(text) = short_try(word) {
        return trying_by(text.as_slice());
    }
    match long_try(alloc, word) {
        Ok(text) => trying_by(text.as_slice()),
        Err(_) => Err(OwnLineFault::Memory),
    }
}
