// The texts of journals. Rows write the steps apart by commas or line ends, those that follow one another in one
// actor on a line.

use std::str;
use std::str::Lines;
use test_outcomes::Failure;

/// How a journal stands to the steps that are expected.
#[derive(Clone, Copy, PartialEq, Eq)]
pub enum Match {
    /// It has all of them and no more.
    All,
    /// It has the first of them and no more.
    Part,
    /// It has something else.
    Else,
}

/// How lines go on, which are taken as far as they are these steps: with all of them, with the first of them to
/// the lines' end, or with something else.
fn follow(lines: &mut Lines<'_>, steps: &str) -> Match {
    for step in steps.split_terminator(['\n', ',']) {
        match lines.next() {
            Some(line) if line == step.trim_start() => {}
            Some(_) => return Match::Else,
            None => return Match::Part,
        }
    }
    Match::All
}

/// How a journal stands to these steps after those that others logged before.
pub fn told(journal: &str, before: &str, steps: &str) -> Match {
    let mut lines = journal.lines();
    if follow(&mut lines, before) != Match::All {
        return Match::Else;
    }
    match follow(&mut lines, steps) {
        Match::All if lines.next().is_some() => Match::Else,
        found => found,
    }
}

/// How often a line is in a journal.
pub fn count_of(journal: &str, wanted: &str) -> usize {
    journal.lines().filter(|line| *line == wanted).count()
}

/// Which line of the journal this is, from 0 on. It is in the journal once.
pub fn place_of(journal: &str, wanted: &str) -> Result<usize, Failure> {
    if count_of(journal, wanted) != 1 {
        return Err(Failure::Wrong(0));
    }
    match journal.lines().position(|line| line == wanted) {
        Some(place) => Ok(place),
        None => Err(Failure::Wrong(0)),
    }
}

/// The text of a journal.
pub fn text_of(journal: &[u8]) -> Result<&str, Failure> {
    match str::from_utf8(journal) {
        Ok(text) => Ok(text),
        Err(_) => Err(Failure::Wrong(0)),
    }
}
