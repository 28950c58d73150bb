// What is said of settings that are refused: each number, and of which key, ballot or wish.

use crate::hearing::says;
use std::alloc::Global;
use test_outcomes::{Failure, Outcome};
use world_settings::Command;

const GOOD: &str = "votes = [1, 1, 1]\nread = 2\nwrite = 2\nproblem = 1\nclients = 4\n";

/// What stands behind the good settings, and what is said of them.
const ADDED: [(&str, &str); 24] = [
    ("vote = 3", "settings fault 923: unknown key: \"vote\"\n"),
    (
        "seed = -1",
        "settings fault 922: seed must be a number from 0 to 9223372036854775807\n",
    ),
    (
        "lose = 1001",
        "settings fault 922: lose must be a number from 0 to 1000\n",
    ),
    (
        "twice = 1.5",
        "settings fault 922: twice must be a number from 0 to 1000\n",
    ),
    (
        "late = 'a'",
        "settings fault 922: late must be a number from 0 to 1000\n",
    ),
    (
        "lose = 500\nlate = 501",
        "settings fault 901: lose, twice and late are more than 1000 together: 500 + 0 + 501\n",
    ),
    (
        "wishes = 3",
        "settings fault 922: wishes must be a list of at most 4096 texts\n",
    ),
    (
        "wishes = ['c1 read a', 4]",
        "settings fault 922: wishes must be a list of at most 4096 texts\n",
    ),
    (
        "more = 3",
        "settings fault 922: more must be a list of tables with votes, read and write\n",
    ),
    (
        "more = [3]",
        "settings fault 922: ballot 2 must be a table\n",
    ),
    (
        "more = [{ votes = [1, 1, 1], read = 2, write = 2 }, { votes = [1], read = 1 }]",
        "settings fault 922: ballot 3: write is missing\n",
    ),
    (
        "more = [{ votes = [1], read = 1, write = 1, problem = 2 }]",
        "settings fault 922: ballot 2 has the unknown key \"problem\"\n",
    ),
    (
        "more = [{ votes = [1, 1, 1], read = 1, write = 2 }]",
        "settings fault 204: read + write must be greater than the total: 1 + 2 is not greater than 3 (ballot 2)\n",
    ),
    (
        "more = [{ votes = [0, 0, 0, 3], read = 2, write = 2 }]",
        "settings fault 206: the quorums of two ballots must intersect: those at places 1 and 2\n",
    ),
    (
        "wishes = ['c1 read a', 'c5 read a']",
        "settings fault 802: wish 2: \"c5\" is not a client of these settings (c1 to c4)\n",
    ),
    (
        "wishes = ['n1 read a']",
        "settings fault 802: wish 1: \"n1\" is not a client of these settings (c1 to c4)\n",
    ),
    (
        "wishes = ['c1 reed a']",
        "settings fault 801: wish 1: \"reed\" is not read, write or soften\n",
    ),
    (
        "wishes = ['c1 read a', 'c1 read a b2']",
        "settings fault 803: wish 2: \"b2\" is not a place of these settings, which have one ballot\n",
    ),
    (
        "wishes = ['c1 read A']",
        "settings fault 804: wish 1: \"A\" is not a name (1 to 32 of a-z, 0-9 and -)\n",
    ),
    (
        "wishes = ['c1 read']",
        "settings fault 805: wish 1: a wish has 3 or 4 words, not 2\n",
    ),
    (
        "wishes = ['c1 read aaaaaaaaaaaaaaaaaaaaaaaaaaaaaaaaa']",
        "settings fault 804: wish 1: \"aaaaaaaaaaaaaaaaaaaaaaaaaaaaaaaaa\" is not a name (1 to 32 of a-z, 0-9 and -)\n",
    ),
    (
        "more = [{ votes = [1, 1, 1], read = 2, write = 2 }]\nwishes = ['c1 read a b2', 'c1 read a b3']",
        "settings fault 803: wish 2: \"b3\" is not the place of a ballot of these settings (b2)\n",
    ),
    (
        "more = [{ votes = [1], read = 1, write = 1 }, { votes = [1], read = 1, write = 1 }, { votes = [1], read = 1, write = 1 }, { votes = [1], read = 1, write = 1 }, { votes = [1], read = 1, write = 1 }, { votes = [1], read = 1, write = 1 }, { votes = [1], read = 1, write = 1 }, { votes = [1], read = 1, write = 1 }]",
        "settings fault 208: more than 8 ballots\n",
    ),
    (
        "lose = 1000\ntwice = 1000\nlate = 1000",
        "settings fault 901: lose, twice and late are more than 1000 together: 1000 + 1000 + 1000\n",
    ),
];

/// Whole settings, and what is said of them.
const WHOLE: [(&str, &str); 15] = [
    (
        "votes = [1]\nwrite = 1\nproblem = 1\nclients = 1",
        "settings fault 922: read is missing\n",
    ),
    (
        "read = 1\nwrite = 1\nproblem = 1\nclients = 1",
        "settings fault 922: votes is missing\n",
    ),
    (
        "votes = [1, 256]\nread = 1\nwrite = 1\nproblem = 1\nclients = 1",
        "settings fault 922: votes must be a list of numbers from 0 to 255\n",
    ),
    (
        "votes = [1]\nread = 1\nwrite = 65536\nproblem = 1\nclients = 1",
        "settings fault 922: write must be a number from 0 to 65535\n",
    ),
    (
        "votes = [1]\nread = 1\nwrite = 1\nproblem = 3\nclients = 1",
        "settings fault 922: problem must be a number from 1 to 2\n",
    ),
    (
        "votes = [1]\nread = 1\nwrite = 1\nproblem = 2",
        "settings fault 922: clients is missing\n",
    ),
    (
        "votes = [1]\nread = 1\nwrite = 1\nproblem = 2\nclients = 1025",
        "settings fault 922: clients must be a number from 1 to 1024\n",
    ),
    (
        "votes = []\nread = 1\nwrite = 1\nproblem = 1\nclients = 1",
        "settings fault 201: no node\n",
    ),
    (
        "votes = [1, 1, 1, 1, 1, 1, 1, 1, 1, 1, 1, 1, 1, 1, 1, 1, 1]\nread = 9\nwrite = 9\nproblem = 1\nclients = 1",
        "settings fault 202: more than 16 nodes: votes has 17\n",
    ),
    (
        "votes = [1]\nread = 2\nwrite = 1\nproblem = 1\nclients = 1",
        "settings fault 203: read and write must not be greater than the total: read is 2, write is 1, and the total is 1\n",
    ),
    (
        "votes = [1, 1]\nread = 1\nwrite = 1\nproblem = 1\nclients = 1",
        "settings fault 204: read + write must be greater than the total: 1 + 1 is not greater than 2\n",
    ),
    (
        "votes = [1, 1, 1, 1]\nread = 3\nwrite = 2\nproblem = 1\nclients = 1",
        "settings fault 205: 2 * write must be greater than the total: 2 * 2 is not greater than 4\n",
    ),
    (
        "votes = [1]\nread = 1\nwrite = ",
        "settings fault 921: not a TOML document: input line 3: invalid value, expected a string, number, boolean, date-time, array or inline table\n",
    ),
    (
        "votes = [1]\nvotes = [1]",
        "settings fault 921: not a TOML document: input line 2: duplicate key\n",
    ),
    (
        "votes = 1",
        "settings fault 922: votes must be a list of numbers from 0 to 255\n",
    ),
];

/// A head, ended by the line of dashes.
fn ended(alloc: Global, first: &str, rest: &str) -> Result<String, Failure> {
    Ok(format!(in alloc; "{first}{rest}\n---\n")?)
}

#[test]
fn added_settings(rt: HostRuntime) -> Outcome {
    for (row, (rest, words)) in ADDED.iter().enumerate() {
        let input = ended(rt.alloc(), GOOD, rest)?;
        says(rt.alloc(), row, Command::Script, input.as_str(), words)?;
        says(
            rt.alloc(),
            row,
            Command::Run { journal: true },
            input.as_str(),
            words,
        )?;
    }
    Ok(())
}

#[test]
fn whole_settings(rt: HostRuntime) -> Outcome {
    for (row, (head, words)) in WHOLE.iter().enumerate() {
        let input = ended(rt.alloc(), head, "")?;
        says(rt.alloc(), row, Command::Audit, input.as_str(), words)?;
    }
    Ok(())
}

/// What is said where the ballot is asked for.
const BALLOTS: [(&str, &str); 4] = [
    ("votes = [1]\nread = 1\nwrite = 1", ""),
    ("votes = []\nread = 1\nwrite = 1", "refused 201: no node\n"),
    (
        "votes = [1, 1, 1, 1]\nread = 3\nwrite = 3\nmore = [{ votes = [1, 1], read = 1, write = 2 }, { votes = [1, 1], read = 2, write = 1 }]",
        "refused 205: 2 * write must be greater than the total: 2 * 1 is not greater than 2 (ballot 3)\n",
    ),
    (
        "votes = [1]\nread = 1\nwrite = 1\nclients = 0",
        "settings fault 922: clients must be a number from 1 to 1024\n",
    ),
];

#[test]
fn asked_ballots(rt: HostRuntime) -> Outcome {
    for (row, (head, words)) in BALLOTS.iter().enumerate() {
        let input = ended(rt.alloc(), head, "")?;
        says(rt.alloc(), row, Command::Ballot, input.as_str(), words)?;
    }
    Ok(())
}

/// Inputs without the line of dashes.
const NO_END: [(&str, &str); 4] = [
    (
        "",
        "settings fault 924: no line --- within the first 65536 bytes\n",
    ),
    (
        "votes = [1]\n--- \n",
        "settings fault 924: no line --- within the first 65536 bytes\n",
    ),
    (
        "votes = [1]\r\n---\r\nbegin c1 read a\r\n",
        "settings fault 924: no line --- within the first 65536 bytes\nhint: input line 2 is `---` with a carriage return: lines end with a line feed alone\n",
    ),
    (
        "votes = [1]\n---\r",
        "settings fault 924: no line --- within the first 65536 bytes\nhint: input line 2 is `---` with a carriage return: lines end with a line feed alone\n",
    ),
];

#[test]
fn no_end(rt: HostRuntime) -> Outcome {
    for (row, (input, words)) in NO_END.iter().enumerate() {
        says(rt.alloc(), row, Command::Script, input, words)?;
    }
    Ok(())
}
