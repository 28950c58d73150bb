// The settings of a run, which every command reads and judges: the weather and the wishes.

use crate::playing::{answers, answers_each, repeated};
use std::alloc::Global;
use test_outcomes::Outcome;
use world_settings::Command;

/// What the settings say of the world.
const WORLD: &str = "votes = [1, 1, 1]\nread = 2\nwrite = 2\nproblem = 1\nclients = 4\n";

/// Every command, and what it prints behind `WORLD` where no line follows.
const COMMANDS: [(Command, &str); 3] = [
    (Command::Script, ""),
    (Command::Audit, "sound 0\n"),
    (Command::Ballot, "total 3 read 2 write 2\n"),
];

/// Good settings of a run.
const TAKEN: [&str; 7] = [
    "seed = 9223372036854775807\nlose = 200\ntwice = 300\nlate = 500\n",
    "seed = 0\nlose = 0\ntwice = 0\nlate = 0\nwishes = []\n",
    "late = 1000\n",
    "wishes = [\"c1 read a\", \"c4 write b-2\", \"c1 read a\"]\n",
    "seed = 0x10\nwishes = ['c2 read a']\nlose = 1_000\n",
    "wishes = [\"c1 soften a\"]\n",
    "wishes = [\"c4 read b\", \"c4 soften b-2\", \"c1 soften a\", \"c1 write a\"]\n",
];

/// Serves every command with these three parts of settings behind those of the world: they are taken.
fn takes_row(alloc: Global, row: usize, told: [&str; 3]) -> Outcome {
    let [first, second, third] = told;
    let input = [WORLD, first, second, third, "---\n"];
    for (command, expected) in &COMMANDS {
        answers(alloc, row, *command, &input, &[*expected], 0)?;
    }
    Ok(())
}

#[test]
fn run_settings_are_taken(rt: HostRuntime) -> Outcome {
    for (row, told) in TAKEN.iter().enumerate() {
        takes_row(rt.alloc(), row, [*told, "", ""])?;
    }
    Ok(())
}

/// They are refused, by this number.
fn refuses_row(alloc: Global, row: usize, told: [&str; 3], number: &str) -> Outcome {
    let [first, second, third] = told;
    let input = [WORLD, first, second, third, "---\n"];
    let expected = ["settings fault ", number, "\n"];
    for (command, _) in &COMMANDS {
        answers(alloc, row, *command, &input, &expected, 2)?;
    }
    Ok(())
}

/// Values of another kind, or out of range. They are refused before what only together is wrong.
const WRONG_VALUES: [&str; 13] = [
    "seed = -1\n",
    "seed = 1.0\n",
    "seed = \"1\"\n",
    "lose = 1001\n",
    "lose = -1\n",
    "twice = 1001\n",
    "twice = [1]\n",
    "late = 1001\n",
    "late = true\n",
    "wishes = \"c1 read a\"\n",
    "wishes = [1]\n",
    "wishes = [\"c9 read a\", 1]\nlose = 1000\nlate = 1000\n",
    "wishes = [[\"c1 read a\"]]\n",
];

#[test]
fn wrong_run_settings(rt: HostRuntime) -> Outcome {
    for (row, told) in WRONG_VALUES.iter().enumerate() {
        refuses_row(rt.alloc(), row, [*told, "", ""], "922")?;
    }
    Ok(())
}

/// The first fault of each: of the weather, and then of the first wish that is none.
const FIRST_FAULTS: [(&str, &str); 30] = [
    ("lose = 1000\ntwice = 1\n", "901"),
    ("lose = 400\ntwice = 400\nlate = 201\n", "901"),
    ("late = 1000\nlose = 1\nwishes = [\"c1 read\"]\n", "901"),
    ("wishes = [\"\"]\n", "805"),
    ("wishes = [\"c1 read\"]\n", "805"),
    ("wishes = [\"c0 reed A b c\"]\n", "805"),
    ("wishes = [\"c0 reed A b\"]\n", "802"),
    ("wishes = [\"c4 read A b\"]\n", "804"),
    ("wishes = [\"c4 read a b\"]\n", "803"),
    ("wishes = [\"c4 read a b1\"]\n", "803"),
    ("wishes = [\"c4 read a b2\"]\n", "803"),
    (
        "wishes = [\"c4 read a b3\"]\nmore = [{ votes = [1, 1, 1], read = 2, write = 2 }]\n",
        "803",
    ),
    ("wishes = [\"c0 read a\"]\n", "802"),
    ("wishes = [\"n1 read a\"]\n", "802"),
    ("wishes = [\"c5 read a\"]\n", "802"),
    ("wishes = [\"c5 reed A\"]\n", "802"),
    ("wishes = [\"c4 reed A\"]\n", "801"),
    ("wishes = [\"c4 read A\"]\n", "804"),
    (
        "wishes = [\"c1 read a\", \"c1 reed a\", \"c1 read\"]\n",
        "801",
    ),
    ("wishes = [\"c1 read A\", \"c9 read a\"]\n", "804"),
    ("wish = [\"c1 read\"]\nlose = 1001\n", "923"),
    // Of a wish that softens.
    ("wishes = [\"c1 soften\"]\n", "805"),
    ("wishes = [\"c1 soften a b2 c\"]\n", "805"),
    ("wishes = [\"c5 soften a\"]\n", "802"),
    ("wishes = [\"c1 softened a\"]\n", "801"),
    ("wishes = [\"c1 softens a\"]\n", "801"),
    ("wishes = [\"c1 Soften a\"]\n", "801"),
    ("wishes = [\"c1 soften A b2\"]\n", "804"),
    ("wishes = [\"c1 soften a b1\"]\n", "803"),
    ("wishes = [\"c1 soften a b2\"]\n", "803"),
];

#[test]
fn first_fault_of_a_run(rt: HostRuntime) -> Outcome {
    for (row, (told, number)) in FIRST_FAULTS.iter().enumerate() {
        refuses_row(rt.alloc(), row, [*told, "", ""], number)?;
    }
    Ok(())
}

/// A wish over 128 bytes, whose client is none either.
#[test]
fn long_wish(rt: HostRuntime) -> Outcome {
    let name = repeated(rt.alloc(), "a", 121)?;
    let told = ["wishes = [\"c5 read ", name.as_str(), "\"]\n"];
    refuses_row(rt.alloc(), 0, told, "805")
}

/// So many wishes are taken, and with one more refused.
#[test]
fn most_wishes(rt: HostRuntime) -> Outcome {
    let wishes = repeated(rt.alloc(), "\"c1 read a\",", 4_096)?;
    takes_row(rt.alloc(), 0, ["wishes = [", wishes.as_str(), "]\n"])?;
    let told = ["wishes = [", wishes.as_str(), "\"c1 read a\",]\n"];
    refuses_row(rt.alloc(), 1, told, "922")
}

/// What the ballot prints without a problem and clients, and for votes that make none.
const BALLOTS: [(&str, &str, u8); 15] = [
    (
        "votes = [1]\nread = 1\nwrite = 1\n",
        "total 1 read 1 write 1\n",
        0,
    ),
    (
        "votes = [1]\nread = 1\nwrite = 1\nwishes = [\"c1024 read a\"]\n",
        "total 1 read 1 write 1\n",
        0,
    ),
    (
        "votes = [1]\nread = 1\nwrite = 1\nwishes = [\"c1025 read a\"]\n",
        "settings fault 802\n",
        2,
    ),
    (
        "votes = [1]\nread = 1\nwrite = 1\nlose = 600\nlate = 600\n",
        "settings fault 901\n",
        2,
    ),
    (
        "votes = [1]\nread = 1\nwrite = 1\nclients = 0\n",
        "settings fault 922\n",
        2,
    ),
    (
        "votes = [1]\nread = 1\nwrite = 1\nproblem = 3\n",
        "settings fault 922\n",
        2,
    ),
    (
        "votes = [1, 1]\nread = 1\nwrite = 1\nlose = 600\nlate = 600\nwishes = [\"c0\"]\n",
        "refused 204\n",
        1,
    ),
    (
        "votes = [1, 1]\nread = 1\nwrite = 1\nwishes = [0]\n",
        "settings fault 922\n",
        2,
    ),
    // Others, as tables.
    (
        "votes = [2, 1, 1]\nread = 2\nwrite = 3\n[[more]]\nvotes = [1, 1, 1]\nread = 2\nwrite = 3\n",
        "total 4 read 2 write 3\ntotal 3 read 2 write 3\n",
        0,
    ),
    // Each value by itself, then the ballots, then the weather, then the wishes.
    (
        "votes = []\nread = 1\nwrite = 1\nmore = [{ votes = [1], read = 1 }]\n",
        "settings fault 922\n",
        2,
    ),
    (
        "votes = [1, 1, 1]\nread = 2\nwrite = 2\nlose = 1000\nlate = 1\nmore = [{ votes = [1, 1, 1], read = 1, write = 3 }]\n",
        "refused 206\n",
        1,
    ),
    (
        "votes = [1]\nread = 1\nwrite = 1\nwishes = [\"c1 read a b2\"]\nmore = [{ votes = [1], read = 1, write = 1 }]\n",
        "total 1 read 1 write 1\ntotal 1 read 1 write 1\n",
        0,
    ),
    (
        "votes = [1]\nread = 1\nwrite = 1\nwishes = [\"c1 read a b3\"]\nmore = [{ votes = [1], read = 1, write = 1 }]\n",
        "settings fault 803\n",
        2,
    ),
    (
        "votes = [1]\nread = 1\nwrite = 1\nwishes = [\"c1 soften a b2\"]\nmore = [{ votes = [1], read = 1, write = 1 }]\n",
        "total 1 read 1 write 1\ntotal 1 read 1 write 1\n",
        0,
    ),
    (
        "votes = [1]\nread = 1\nwrite = 1\nwishes = [\"c1 soften a b3\"]\nmore = [{ votes = [1], read = 1, write = 1 }]\n",
        "settings fault 803\n",
        2,
    ),
];

#[test]
fn ballots_of_a_run(rt: HostRuntime) -> Outcome {
    answers_each(rt.alloc(), Command::Ballot, ["", "", "---\n"], &BALLOTS)
}
