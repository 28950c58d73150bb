// The words of a number.

ghost use Rattle.std.specs.Prelude.{◌≡◌, ◌==◌, ◌++◌, map, find, option_map, OnOk, string_bytes};
ghost use Rattle.fault_numbers.specs.Numbers.{words_in, words_of, meaning_of, explained_text};
ghost use Rattle.fault_numbers.specs.Tables.{table, files, table_for};

use crate::tables::{
    ATTEMPTS, BALLOTS, DISKS, EVENTS, FILES, FRAMES, LINES, RECORDS, RESTARTS, RUNS,
};
use std::alloc::AllocError;

/// The words of a number by which programs report a fault.
#[derive(Clone, Copy, Debug, PartialEq, Eq)]
pub struct FaultText {
    /// The number: 101 to 970, with gaps.
    pub number: u16,
    /// What it means, without a full stop.
    pub meaning: &'static str,
    /// Why it comes, in sentences.
    pub cause: &'static str,
    /// What to do, in sentences.
    pub remedy: &'static str,
}

/// The words of a number among these.
fn found_in(texts: &[FaultText], number: u16) -> Option<FaultText>
    ensures { option_map words_in result ≡ find (λ w. w.number == number) (map words_in texts.now) }
{
    for text in texts {
        if text.number == number {
            return Some(*text);
        }
    }
    None
}

/// The words of the numbers that begin with this digit, below 940.
fn texts_at(digit: u16) -> &'static [FaultText]
    ensures { map words_in result.now ≡ table digit }
{
    match digit {
        1 => &FRAMES,
        2 => &BALLOTS,
        3 => &RECORDS,
        4 => &DISKS,
        5 => &RESTARTS,
        6 => &EVENTS,
        7 => &ATTEMPTS,
        8 => &LINES,
        9 => &RUNS,
        _ => &[],
    }
}

/// The words of the numbers 940 to 999.
fn file_texts() -> &'static [FaultText]
    ensures { map words_in result.now ≡ files }
{
    &FILES
}

/// The words among which those of a number are.
fn texts_for(number: u16) -> &'static [FaultText]
    ensures { map words_in result.now ≡ table_for number }
{
    if 940 <= number && number < 1000 {
        return file_texts();
    }
    texts_at(number / 100)
}

/// The words of a number, or nothing if no fault has it.
#[tactic(auto, unfolding(crate::specs::Numbers::words_of))]
pub fn text_of(number: u16) -> Option<FaultText>
    ensures { option_map words_in result ≡ words_of number }
{
    found_in(texts_for(number), number)
}

/// What a number means; an empty text if no fault has it.
pub fn meaning_of(number: u16) -> &'static str
    ensures { result.now ≡ meaning_of number }
{
    match text_of(number) {
        Some(text) => text.meaning,
        None => "",
    }
}

/// Adds the words of a number, as `rwvote explain` prints them: its meaning, cause and remedy.
///
/// # Errors
///
/// The only error is that memory ran out. Then a part may have been added.
pub fn push_text(text: &mut String, words: &FaultText) -> Result<(), AllocError>
    ensures { OnOk result (string_bytes text.new ≡ string_bytes text.old ++ explained_text (words_in words.now)) }
{
    let (number, meaning, cause, remedy) = (words.number, words.meaning, words.cause, words.remedy);
    write!(
        text,
        "{number}: {meaning}\n\nCause:  {cause}\nRemedy: {remedy}\n"
    )
}
