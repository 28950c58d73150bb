// Each fault of a line. A line of a table is bad by itself, behind good settings.

use crate::playing::{each_is_bad, plays, repeated};
use std::alloc::Global;
use test_outcomes::Outcome;
use test_support::SETTINGS;

const FIRST_WORDS: [&str; 11] = [
    "\n",
    "Begin c1 read a",
    " begin c1 read a",
    "rhubarb",
    "begin\tc1 read a",
    "softens c1",
    "softened c1",
    "Soften c1",
    "switches n1 1",
    "Switch n1 1",
    "inside\r\n",
];

#[test]
fn first_words(rt: HostRuntime) -> Outcome {
    each_is_bad(rt.alloc(), "801", &FIRST_WORDS)
}

const MODES_AND_AGES: [&str; 7] = [
    "begin c1 reed A",
    "begin c1 Read a",
    "begin c1  a",
    "begin c1 soften a",
    "begin c1 soften A b1",
    "rise n1 New",
    "rise c1 ",
];

#[test]
fn modes_and_ages(rt: HostRuntime) -> Outcome {
    each_is_bad(rt.alloc(), "801", &MODES_AND_AGES)
}

const NUMBERS_OF_WORDS: [&str; 23] = [
    "begin  c1 read a b2",
    "begin c1 read",
    "begin c1 read a b2 b2",
    "begin c1 read a b2 ",
    "try",
    "kept c1 ",
    "sayto c1",
    "enter",
    "soften",
    "soften c1 a",
    "soften c1 ",
    "switch",
    "switch n1",
    "switch n1 1 ",
    "switch n1 1 2",
    "inside",
    "inside a b",
    "take n1",
    "say n1 1",
    "fall",
    "rise n1",
    "waiting a",
    "holding n1 a b",
];

#[test]
fn numbers_of_words(rt: HostRuntime) -> Outcome {
    each_is_bad(rt.alloc(), "805", &NUMBERS_OF_WORDS)
}

const ACTORS: [&str; 30] = [
    "begin  c1 read a",
    "begin n1 read a",
    "begin c01 read a",
    "begin c0 reed A",
    "begin c1025 read a",
    "try x1",
    "try 1",
    "try n17",
    "kept c",
    "sayto n1 c1",
    "sayto c1 n17",
    "say c1",
    "say n+1",
    "hear n1 1",
    "leave n1",
    "soften c0",
    "soften c1025",
    "soften n1",
    "soften a",
    "switch c1 1",
    "switch n0 1",
    "switch n01 3",
    "switch n17 1",
    "switch 1 1",
    "enter c1\r",
    "say n1x",
    "fall a",
    "rise n01 old",
    "waiting c1 a",
    "holding a n1",
];

#[test]
fn actors(rt: HostRuntime) -> Outcome {
    each_is_bad(rt.alloc(), "802", &ACTORS)
}

const NUMBERS: [&str; 21] = [
    "take n1 0",
    "take n1 01",
    "take n1 1048577",
    "take n1 +1",
    "take n1 1x",
    "hear c1 ",
    "hear c1 99999999999999999999",
    "begin c1 read a b",
    "begin c1 read a b1",
    "begin c1 read a b9",
    "begin c1 read a b02",
    "begin c1 read a B2",
    "begin c1 read a ",
    "switch n1 0",
    "switch n1 3",
    "switch n1 01",
    "switch n1 +1",
    "switch n1 12",
    "switch n1 1\r",
    "switch n1 ",
    "switch n1 first",
];

#[test]
fn numbers(rt: HostRuntime) -> Outcome {
    each_is_bad(rt.alloc(), "803", &NUMBERS)
}

const NAMES: [&str; 8] = [
    "begin c1 read A",
    "begin c1 read ",
    "begin c1 read a\r",
    "inside a_b",
    "inside ",
    "waiting n1 A",
    "holding n1 ",
    "inside a23456789012345678901234567890123",
];

#[test]
fn names(rt: HostRuntime) -> Outcome {
    each_is_bad(rt.alloc(), "804", &NAMES)
}

/// The greatest words that are read.
const GREATEST: [&str; 6] = [
    "begin c1024 read a",
    "take n16 1048576",
    "try c5",
    "say n4",
    "soften c1024",
    "switch n16 2",
];

const LONGEST_NAME: &str = "inside a2345678901234567890123456789012";

/// What they name is not there.
#[test]
fn greatest_words(rt: HostRuntime) -> Outcome {
    let alloc = rt.alloc();
    for line in &GREATEST {
        plays(alloc, &[SETTINGS, *line], &["refused 601\n"], 1)?;
    }
    plays(
        alloc,
        &[SETTINGS, LONGEST_NAME],
        &[LONGEST_NAME, ": nobody\n"],
        0,
    )
}

/// A line of so many bytes `x` is bad, by this number.
fn is_bad_at(alloc: Global, count: usize, number: &str) -> Outcome {
    let line = repeated(alloc, "x", count)?;
    each_is_bad(alloc, number, &[line.as_str()])
}

#[test]
fn long_lines(rt: HostRuntime) -> Outcome {
    let alloc = rt.alloc();
    is_bad_at(alloc, 128, "801")?;
    is_bad_at(alloc, 129, "805")?;
    is_bad_at(alloc, 10_000, "805")
}
