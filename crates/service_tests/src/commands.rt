// What `ballot` and `audit` print, through `serve`.

use crate::playing::{answers, answers_each};
use test_outcomes::Outcome;
use test_support::SETTINGS;
use world_settings::Command;

/// Votes with what a read and a write need, what is printed of them, and the status.
const BALLOTS: [(&str, &str, u8); 17] = [
    (
        "votes = [3, 1, 1, 0]\nread = 2\nwrite = 4\n",
        "total 5 read 2 write 4\n",
        0,
    ),
    ("votes = [1, 1]\nread = 1\nwrite = 1\n", "refused 204\n", 1),
    ("votes = [2, 2]\nread = 4\nwrite = 2\n", "refused 205\n", 1),
    ("votes = []\nread = 1\nwrite = 1\n", "refused 201\n", 1),
    ("votes = [0]\nread = 0\nwrite = 0\n", "refused 204\n", 1),
    ("votes = [1]\nread = 2\nwrite = 1\n", "refused 203\n", 1),
    (
        "votes = [256]\nread = 1\nwrite = 1\n",
        "settings fault 922\n",
        2,
    ),
    (
        "vote = [1]\nread = 1\nwrite = 1\n",
        "settings fault 923\n",
        2,
    ),
    // A list of ballots: a line for each, or why they make none.
    (
        "votes = [1, 1, 1]\nread = 2\nwrite = 2\nmore = [{ votes = [1, 1, 1], read = 1, write = 3 }]\n",
        "refused 206\n",
        1,
    ),
    (
        "votes = [2, 1, 1]\nread = 2\nwrite = 3\nmore = [{ votes = [1, 1, 1], read = 2, write = 2 }]\n",
        "refused 206\n",
        1,
    ),
    (
        "votes = [2, 1, 1]\nread = 2\nwrite = 3\nmore = [{ votes = [1, 1, 1], read = 2, write = 3 }]\n",
        "total 4 read 2 write 3\ntotal 3 read 2 write 3\n",
        0,
    ),
    (
        "votes = [1]\nread = 1\nwrite = 1\nmore = []\n",
        "total 1 read 1 write 1\n",
        0,
    ),
    // The faults of the first ballot come before those of the others.
    (
        "votes = [1]\nread = 2\nwrite = 1\nmore = [{ votes = [], read = 1, write = 1 }]\n",
        "refused 203\n",
        1,
    ),
    (
        "votes = [1]\nread = 1\nwrite = 1\nmore = [{ votes = [], read = 1, write = 1 }]\n",
        "refused 201\n",
        1,
    ),
    // A table of another key, a value that is no table, and a value that is no array.
    (
        "votes = [1]\nread = 1\nwrite = 1\nmore = [{ votes = [1], read = 1, write = 1, late = 0 }]\n",
        "settings fault 922\n",
        2,
    ),
    (
        "votes = [1]\nread = 1\nwrite = 1\nmore = [1]\n",
        "settings fault 922\n",
        2,
    ),
    (
        "votes = [1]\nread = 1\nwrite = 1\nmore = { votes = [1], read = 1, write = 1 }\n",
        "settings fault 922\n",
        2,
    ),
];

/// Nine ballots of one node.
const NINE: &str = "votes = [1]\nread = 1\nwrite = 1\nmore = [\
{ votes = [1], read = 1, write = 1 }, { votes = [1], read = 1, write = 1 }, \
{ votes = [1], read = 1, write = 1 }, { votes = [1], read = 1, write = 1 }, \
{ votes = [1], read = 1, write = 1 }, { votes = [1], read = 1, write = 1 }, \
{ votes = [1], read = 1, write = 1 }, { votes = [1], read = 1, write = 1 }]\n";

#[test]
fn nine_ballots(rt: HostRuntime) -> Outcome {
    let told = ["refused 208\n"];
    answers(
        rt.alloc(),
        0,
        Command::Ballot,
        &[NINE, BEHIND_VOTES],
        &told,
        1,
    )
}

/// What follows the settings is ignored.
const BEHIND_VOTES: &str = "problem = 1\nclients = 1\n---\nno line of anything\n";

#[test]
fn refused_ballots(rt: HostRuntime) -> Outcome {
    answers_each(
        rt.alloc(),
        Command::Ballot,
        ["", "", BEHIND_VOTES],
        &BALLOTS,
    )
}

/// Inputs of commands with settings that are refused, what is printed of them, and the status.
const REFUSED_SETTINGS: [(Command, &str, &str, u8); 5] = [
    (
        Command::Script,
        "votes = [1, 1]\nread = 1\nwrite = 1\nproblem = 1\nclients = 4\n---\n",
        "settings fault 204\n",
        2,
    ),
    (
        Command::Ballot,
        "votes = [1, 1]\nread = 1\nwrite = 1\nproblem = 1\nclients = 4\n---\n",
        "refused 204\n",
        1,
    ),
    (
        Command::Script,
        "votes = [1, 1, 1]\nread = 2\nwrite = 2\nproblem = 1\nclients = 4\n",
        "settings fault 924\n",
        2,
    ),
    (
        Command::Script,
        "votes = [256]\nread = 1\nwrite = 1\nproblem = 1\nclients = 4\n---\n",
        "settings fault 922\n",
        2,
    ),
    (
        Command::Script,
        "vote = 1\nvotes = [1]\nread = 1\nwrite = 1\nproblem = 1\nclients = 4\n---\n",
        "settings fault 923\n",
        2,
    ),
];

#[test]
fn settings_faults(rt: HostRuntime) -> Outcome {
    for (row, (command, input, expected, status)) in REFUSED_SETTINGS.iter().enumerate() {
        answers(rt.alloc(), row, *command, &[*input], &[*expected], *status)?;
    }
    Ok(())
}

/// Lines of journals, and what is found of them.
const JOURNALS: [(&str, &str, u8); 21] = [
    ("", "sound 0\n", 0),
    ("rise c1 old\nbegin c1 read a\n", "sound 2\n", 0),
    (
        "rise c1 old\nbegin c1 read a\nenter c1",
        "unsound 3 refused 604\n",
        1,
    ),
    ("rise n1\n", "unsound 1 fault 805\n", 1),
    ("rise c01 old\n", "unsound 1 fault 802\n", 1),
    ("take n1 0\n", "unsound 1 fault 803\n", 1),
    ("begin c1 read A\n", "unsound 1 fault 804\n", 1),
    ("begin c1 reed a\n", "unsound 1 fault 801\n", 1),
    ("rise c5 old\n", "unsound 1 refused 601\n", 1),
    ("begin c1 read a\n", "unsound 1 refused 602\n", 1),
    ("soften c1 a\n", "unsound 1 fault 805\n", 1),
    ("begin c1 soften a\n", "unsound 1 fault 801\n", 1),
    ("soften c5\n", "unsound 1 refused 601\n", 1),
    ("soften c1\n", "unsound 1 refused 602\n", 1),
    ("rise c1 old\nsoften c1\n", "unsound 2 refused 604\n", 1),
    ("switch n1 3\n", "unsound 1 fault 803\n", 1),
    ("switch n4 1\n", "unsound 1 refused 601\n", 1),
    ("switch n1 1\n", "unsound 1 refused 602\n", 1),
    (
        "rise n1 old\nswitch n1 1\nsay n1\nswitch n1 1\n",
        "sound 4\n",
        0,
    ),
    (
        "rise n1 old\nswitch n1 2\nsay n1\n",
        "unsound 3 refused 605\n",
        1,
    ),
    (
        "rise n1 old\nswitch n1 2\ntry n1\nkept n1\nswitch n1 2\n",
        "unsound 5 refused 604\n",
        1,
    ),
];

#[test]
fn audits_of_journals(rt: HostRuntime) -> Outcome {
    answers_each(rt.alloc(), Command::Audit, [SETTINGS, "", ""], &JOURNALS)
}

/// c1 writes `a` by n1 and n2, and softens; c2, who waited at n1, is let in there.
const SOFTENS: &str = "\
rise n1 old\nrise n2 old\nrise c1 old\nrise c2 old\n\
begin c1 write a\ntry c1\nkept c1\nsayto c1 n1\ntake n1 1\ntry n1\nkept n1\nsay n1\nhear c1 2\n\
sayto c1 n2\ntake n2 3\ntry n2\nkept n2\nsay n2\nhear c1 4\nenter c1\n\
begin c2 read a\ntry c2\nkept c2\nsayto c2 n1\ntake n1 5\ntry n1\nkept n1\nsay n1\n\
soften c1\nsayto c1 n1\ntake n1 7\ntry n1\nkept n1\nsay n1\n\
take n1 1\nsay n1\nhear c1 8\nhear c1 2\nhear c2 9\n";

/// What may follow, and what is found of it.
const AFTER_SOFTENING: [(&str, &str, u8); 4] = [
    ("", "sound 39\n", 0),
    ("leave c1\nsayto c1 n3\n", "sound 41\n", 0),
    ("soften c1\n", "unsound 40 refused 604\n", 1),
    ("soften c2\n", "unsound 40 refused 604\n", 1),
];

#[test]
fn audits_of_softening(rt: HostRuntime) -> Outcome {
    let around = [SETTINGS, SOFTENS, ""];
    answers_each(rt.alloc(), Command::Audit, around, &AFTER_SOFTENING)
}
