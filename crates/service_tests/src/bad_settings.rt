// Each fault of settings, and which of two comes first.

use crate::playing::{answers, each_is_refused, plays, plays_bytes, repeated};
use std::alloc::Global;
use test_outcomes::Outcome;
use world_settings::Command;

const WITHOUT_END: [&str; 7] = [
    "",
    "votes = [1, 1]\n",
    "a = \n --- \n---\r\n----\n",
    "votes\nvote = 1\n",
    "vote = 1\nread = x\n",
    "votes = [1, 1]\nread = 1\nwrite = 1\n",
    "read = 70000\n",
];

#[test]
fn heads_without_an_end(rt: HostRuntime) -> Outcome {
    each_is_refused(rt.alloc(), "924", &WITHOUT_END)
}

const NO_DOCUMENTS: [&str; 5] = [
    "a = \"\"\"\n---\n\"\"\"\n---\n",
    "votes\n---\n",
    "vote = 1\nvotes\n---\n",
    "read = 70000\nvotes\n---\n",
    "votes = []\nread = 1\nwrite = 1\nproblem = 1\nclients = 1\nx\n---\n",
];

#[test]
fn heads_that_are_no_documents(rt: HostRuntime) -> Outcome {
    each_is_refused(rt.alloc(), "921", &NO_DOCUMENTS)?;
    plays_bytes(
        rt.alloc(),
        b"votes = \xff\n---\n",
        "settings fault 921\n",
        2,
    )
}

const UNKNOWN_KEYS: [&str; 4] = [
    "vote = 1\n---\n",
    "[votes.x]\n[others]\n---\n",
    "vote = 1\nread = 70000\n---\n",
    "vote = 1\nvotes = []\nread = 1\nwrite = 1\nproblem = 1\nclients = 1\n---\n",
];

#[test]
fn unknown_keys(rt: HostRuntime) -> Outcome {
    each_is_refused(rt.alloc(), "923", &UNKNOWN_KEYS)
}

const MISSING_VALUES: [&str; 4] = [
    "---\n",
    "---",
    "votes = []\nread = 1\nwrite = 1\nproblem = 3\nclients = 1\n---\n",
    "votes = [1, 1]\nread = 1\nwrite = 1\nproblem = 1\n---\n",
];

#[test]
fn missing_values(rt: HostRuntime) -> Outcome {
    each_is_refused(rt.alloc(), "922", &MISSING_VALUES)
}

/// Settings of these values: votes, read, write, problem, clients.
type Values = [&'static str; 5];

/// Runs the settings of a row, and compares what they print and the status.
fn settings_print(
    alloc: Global,
    row: usize,
    values: &Values,
    told: &[&str],
    status: u8,
) -> Outcome {
    let [votes, read, write, problem, clients] = *values;
    let head = [
        "votes = ",
        votes,
        "\nread = ",
        read,
        "\nwrite = ",
        write,
        "\nproblem = ",
        problem,
        "\nclients = ",
        clients,
        "\n---\n",
    ];
    answers(alloc, row, Command::Script, &head, told, status)
}

fn each_value_is_refused(alloc: Global, number: &str, rows: &[Values]) -> Outcome {
    let told = ["settings fault ", number, "\n"];
    for (row, values) in rows.iter().enumerate() {
        settings_print(alloc, row, values, &told, 2)?;
    }
    Ok(())
}

const WRONG_VOTES: [Values; 5] = [
    ["[256]", "1", "1", "1", "1"],
    ["1", "1", "1", "1", "1"],
    ["[\"1\"]", "1", "1", "1", "1"],
    ["[1, -1]", "1", "1", "1", "1"],
    ["[1, 1.0]", "1", "1", "1", "1"],
];

#[test]
fn wrong_votes(rt: HostRuntime) -> Outcome {
    each_value_is_refused(rt.alloc(), "922", &WRONG_VOTES)
}

const WRONG_NUMBERS: [Values; 8] = [
    ["[1]", "-1", "1", "1", "1"],
    ["[1]", "65536", "1", "1", "1"],
    ["[1]", "1.0", "1", "1", "1"],
    ["[1]", "1", "true", "1", "1"],
    ["[1]", "1", "1", "3", "1"],
    ["[1]", "1", "1", "0", "1"],
    ["[1]", "1", "1", "1", "0"],
    ["[1]", "1", "1", "1", "1025"],
];

#[test]
fn wrong_numbers(rt: HostRuntime) -> Outcome {
    each_value_is_refused(rt.alloc(), "922", &WRONG_NUMBERS)
}

/// Any spelling of an integer counts.
const SPELLINGS: Values = ["[0x1, 0, +1]", "0b10", "2", "1", "1_024"];

#[test]
fn spellings_of_numbers(rt: HostRuntime) -> Outcome {
    settings_print(rt.alloc(), 0, &SPELLINGS, &[], 0)
}

/// Votes that make no ballot, and why.
const NO_BALLOTS: [(Values, &str); 5] = [
    (["[]", "1", "1", "1", "4"], "201"),
    (
        [
            "[1, 1, 1, 1, 1, 1, 1, 1, 1, 1, 1, 1, 1, 1, 1, 1, 1]",
            "99",
            "99",
            "1",
            "4",
        ],
        "202",
    ),
    (["[1]", "2", "1", "1", "4"], "203"),
    (["[1, 1]", "1", "1", "1", "4"], "204"),
    (["[2, 2]", "4", "2", "1", "4"], "205"),
];

#[test]
fn no_ballots(rt: HostRuntime) -> Outcome {
    for (row, (values, number)) in NO_BALLOTS.iter().enumerate() {
        let told = ["settings fault ", *number, "\n"];
        settings_print(rt.alloc(), row, values, &told, 2)?;
    }
    Ok(())
}

/// Good settings with a comment that may be longer, behind which is the line of dashes.
const COMMENTED: &str = "votes = [1]\nread = 1\nwrite = 1\nproblem = 1\nclients = 1\n#";

/// Good settings in which the line of dashes begins at this byte, what they print and the status.
fn padded_print(alloc: Global, at: usize, told: &[&str], status: u8) -> Outcome {
    let padding = repeated(alloc, ".", at.saturating_sub(57))?;
    let head = [COMMENTED, padding.as_str(), "\n---\n"];
    plays(alloc, &head, told, status)
}

#[test]
fn room_for_settings(rt: HostRuntime) -> Outcome {
    padded_print(rt.alloc(), 65_535, &[], 0)?;
    padded_print(rt.alloc(), 65_536, &["settings fault 924\n"], 2)
}
