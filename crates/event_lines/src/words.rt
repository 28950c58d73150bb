// The words of a line, each read as what it is.

ghost use Rattle.std.specs.Prelude.{◌≡◌, [], ◌∷◌, ◌≤◌, ◌==◌, slice_index, IfSome, IfNone, ◌<◌, true};
ghost use Rattle.std.specs.List.{position, list_all};
ghost use Rattle.std.specs.Char.{is_ascii_digit};
ghost use Rattle.std.specs.Str.Parse.{digits_value};
ghost use Rattle.event_lines.specs.Lines.{is_space, words, spelled, lettered, node_word, client_word, actor_word, number_word, name_word, mode_word, wish_mode_word, age_word, problem_word, APlace, between, values_in};
ghost use Rattle.event_lines.specs.Reading.{Gives, words_behind, word_there};

use crate::LineFault;
use lock_messages::{Actor, ClientId, MAX_CLIENTS, MAX_NODES, Mode, NodeId, ResourceName};
use lock_model::Problem;
use vote_weights::MAX_BALLOTS;
use world_model::{Age, MAX_MESSAGES};

/// The most bytes that a line has, without its line feed.
pub const MAX_LINE_LEN: usize = 128;

/// Where the first space stands.
fn space_in(text: &[u8]) -> Option<usize>
    ensures { result ≡ position is_space text.now }
{
    text.iter().position(|byte| *byte == b' ')
}

/// The first word, and what stands behind the space after it, if there is one.
pub fn first_word(text: &[u8]) -> (&[u8], Option<&[u8]>)
    ensures { words text.now ≡ result.0.now ∷ words_behind result.1 }
{
    match space_in(text) {
        None => (text, None),
        Some(at) => (&text[..at], Some(&text[at + 1..])),
    }
}

/// Whether the word has digits alone.
fn has_digits(word: &[u8]) -> bool
    ensures { result ≡ list_all is_ascii_digit word.now }
{
    word.iter().all(|byte| byte.is_ascii_digit())
}

/// Whether the first byte is a zero.
fn begins_with_zero(word: &[u8]) -> bool
    ensures { result ≡ (slice_index word.now 0 == 48) }
{
    matches!(word, [b'0', ..])
}

/// The number whose decimal text the digits are, where it is at most `most`.
fn value_of(digits: &[u8], most: u32) -> Option<u32>
    requires { list_all is_ascii_digit digits.now ≡ true }
    ensures value { IfSome result (λ n. (n ≡ digits_value 10 digits.now) × (n ≤ most)) }
    ensures none { IfNone result (most < digits_value 10 digits.now) }
{
    let mut number = 0u64;
    for digit in digits {
        number = number * 10 + u64::from(*digit - b'0');
        if number > u64::from(most) {
            return None;
        }
    }
    Some(number as u32)
}

/// The number from 1 to `most` whose decimal text the word is.
fn number_of(word: &[u8], most: u32) -> Option<u32>
    ensures number { result ≡ spelled most word.now }
    ensures in_range { IfSome result (λ n. (1 ≤ n) × (n ≤ most)) }
{
    if !has_digits(word) || begins_with_zero(word) {
        return None;
    }
    let number = value_of(word, most)?;
    if number < 1 {
        return None;
    }
    Some(number)
}

/// The number behind the letter.
fn lettered(word: &[u8], letter: u8, most: u32) -> Option<u32>
    ensures number { result ≡ lettered letter most word.now }
    ensures in_range { IfSome result (λ n. (1 ≤ n) × (n ≤ most)) }
{
    let [first, digits @ ..] = word else {
        return None;
    };
    if *first != letter {
        return None;
    }
    number_of(digits, most)
}

pub fn node_of(word: &[u8]) -> Result<NodeId, LineFault>
    ensures { result ≡ node_word word.now }
{
    let Some(number) = lettered(word, b'n', MAX_NODES as u32) else {
        return Err(LineFault::Actor);
    };
    NodeId::of(number as u8).ok_or(LineFault::Actor)
}

pub fn client_of(word: &[u8]) -> Result<ClientId, LineFault>
    ensures { result ≡ client_word word.now }
{
    let Some(number) = lettered(word, b'c', MAX_CLIENTS) else {
        return Err(LineFault::Actor);
    };
    ClientId::of(number).ok_or(LineFault::Actor)
}

/// The actor of this name, as `n1` or `c1024`.
///
/// # Errors
///
/// `Actor` (802) where the word names none.
pub fn actor_of(word: &[u8]) -> Result<Actor, LineFault>
    ensures { result ≡ actor_word word.now }
{
    if let Ok(id) = node_of(word) {
        return Ok(Actor::Node(id));
    }
    Ok(Actor::Client(client_of(word)?))
}

pub fn message_of(word: &[u8]) -> Result<u32, LineFault>
    ensures { result ≡ number_word word.now }
{
    number_of(word, MAX_MESSAGES).ok_or(LineFault::Number)
}

pub fn name_of(word: &[u8]) -> Result<ResourceName, LineFault>
    ensures { result ≡ name_word word.now }
{
    ResourceName::of(word).ok_or(LineFault::Name)
}

pub fn mode_of(word: &[u8]) -> Result<Mode, LineFault>
    ensures { result ≡ mode_word word.now }
{
    if word == b"read".as_slice() {
        return Ok(Mode::Read);
    }
    if word == b"write".as_slice() {
        return Ok(Mode::Write);
    }
    Err(LineFault::Word)
}

/// The mode of a wish and whether it softens: `soften` asks as a writer, and does.
pub fn wish_mode_of(word: &[u8]) -> Result<(Mode, bool), LineFault>
    ensures { result ≡ wish_mode_word word.now }
{
    if word == b"soften".as_slice() {
        return Ok((Mode::Write, true));
    }
    Ok((mode_of(word)?, false))
}

pub fn age_of(word: &[u8]) -> Result<Age, LineFault>
    ensures { result ≡ age_word word.now }
{
    if word == b"old".as_slice() {
        return Ok(Age::Old);
    }
    if word == b"new".as_slice() {
        return Ok(Age::New);
    }
    Err(LineFault::Word)
}

/// A problem: its word is `1` or `2`. Any other word is `Number` (803).
pub fn problem_of(word: &[u8]) -> Result<Problem, LineFault>
    ensures { result ≡ problem_word word.now }
{
    if word == b"1".as_slice() {
        return Ok(Problem::First);
    }
    if word == b"2".as_slice() {
        return Ok(Problem::Second);
    }
    Err(LineFault::Number)
}

/// The place of a ballot, by our own rule: 1 where its word is left out; else the word is `b` and the
/// decimal text of a place from 2 to `MAX_BALLOTS`. So place 1 has no word, and each place one spelling.
/// Any other word is `Number` (803).
pub fn place_of(word: Option<&[u8]>) -> Result<u8, LineFault>
    ensures { Gives (λ place. (place, tt)) result (values_in (APlace ∷ []) (word_there word.entry)) }
{
    let Some(word) = word else {
        return Ok(1);
    };
    let Some(place) = lettered(word, b'b', MAX_BALLOTS as u32) else {
        return Err(LineFault::Number);
    };
    if place == 1 {
        return Err(LineFault::Number);
    }
    Ok(place as u8)
}

/// The word of a text that has no other.
fn only_word(text: &[u8]) -> Result<&[u8], LineFault>
    ensures one { Gives (λ w. w.now ∷ []) result (between 1 1 (words text.now)) }
    ensures at_most_one { Gives (λ w. w.now ∷ []) result (between 0 1 (words text.now)) }
{
    let (word, rest) = first_word(text);
    if rest.is_some() {
        return Err(LineFault::Words);
    }
    Ok(word)
}

/// The one word that is left.
pub fn one(rest: Option<&[u8]>) -> Result<&[u8], LineFault>
    ensures { Gives (λ w. w.now ∷ []) result (between 1 1 (words_behind rest.entry)) }
{
    let Some(text) = rest else {
        return Err(LineFault::Words);
    };
    only_word(text)
}

/// The two words that are left.
pub fn two(rest: Option<&[u8]>) -> Result<(&[u8], &[u8]), LineFault>
    ensures { Gives (λ w. w.0.now ∷ w.1.now ∷ []) result (between 2 2 (words_behind rest.entry)) }
{
    let Some(text) = rest else {
        return Err(LineFault::Words);
    };
    let (a, rest) = first_word(text);
    let b = one(rest)?;
    Ok((a, b))
}

/// The one word that is left, if one is.
fn at_most_one(rest: Option<&[u8]>) -> Result<Option<&[u8]>, LineFault>
    ensures { Gives (λ w. word_there w) result (between 0 1 (words_behind rest.entry)) }
{
    let Some(text) = rest else {
        return Ok(None);
    };
    Ok(Some(only_word(text)?))
}

/// The one or two words that are left.
fn one_or_two(rest: Option<&[u8]>) -> Result<(&[u8], Option<&[u8]>), LineFault>
    ensures { Gives (λ w. w.0.now ∷ word_there w.1) result (between 1 2 (words_behind rest.entry)) }
{
    let Some(text) = rest else {
        return Err(LineFault::Words);
    };
    let (a, rest) = first_word(text);
    let b = at_most_one(rest)?;
    Ok((a, b))
}

/// The two or three words that are left.
fn two_or_three(rest: Option<&[u8]>) -> Result<(&[u8], &[u8], Option<&[u8]>), LineFault>
    ensures { Gives (λ w. w.0.now ∷ w.1.now ∷ word_there w.2) result (between 2 3 (words_behind rest.entry)) }
{
    let Some(text) = rest else {
        return Err(LineFault::Words);
    };
    let (a, rest) = first_word(text);
    let (b, c) = one_or_two(rest)?;
    Ok((a, b, c))
}

/// The three or four words that are left.
pub fn three_or_four(rest: Option<&[u8]>) -> Result<(&[u8], &[u8], &[u8], Option<&[u8]>), LineFault>
    ensures { Gives (λ w. w.0.now ∷ w.1.now ∷ w.2.now ∷ word_there w.3) result (between 3 4 (words_behind rest.entry)) }
{
    let Some(text) = rest else {
        return Err(LineFault::Words);
    };
    let (a, rest) = first_word(text);
    let (b, c, d) = two_or_three(rest)?;
    Ok((a, b, c, d))
}
