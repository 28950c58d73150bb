// What is said of the lines of a script: each number by which one is refused or bad.

use crate::hearing::says_of_lines;
use std::alloc::Global;
use test_outcomes::Outcome;
use world_settings::Command;

/// A client that asks the first node, and a node that decides.
const ASKED: &str = "begin c1 read a\ntry c1\nkept c1\nsayto c1 n1\ntake n1 1\n";

/// Events that are refused behind some others, and what is said of them.
const ROWS: [(&str, &str, &str); 23] = [
    (
        "",
        "say n4",
        "input line 7: refused 601: no such node or client: the settings have n1 to n3 and c1 to c4 (say n4)\n",
    ),
    (
        "",
        "enter c5",
        "input line 7: refused 601: no such node or client: the settings have n1 to n3 and c1 to c4 (enter c5)\n",
    ),
    (
        "",
        "holding n9 a",
        "input line 7: refused 601: no such node or client: the settings have n1 to n3 and c1 to c4 (holding n9 a)\n",
    ),
    (
        "fall n1\n",
        "say n1",
        "input line 8: refused 602: the actor is down (say n1)\n",
    ),
    (
        "fall n1\nrise n1 old\n",
        "rise n1 old",
        "input line 9: refused 603: the actor is up (rise n1 old)\n",
    ),
    (
        "",
        "leave c1",
        "input line 7: refused 604: wrong phase: c1 is idle (leave c1)\n",
    ),
    (
        "begin c1 read a\n",
        "enter c1",
        "input line 8: refused 604: wrong phase: c1 has not tried its attempt yet (enter c1)\n",
    ),
    (
        "begin c1 read a\ntry c1\n",
        "leave c1",
        "input line 9: refused 604: wrong phase: c1 has not kept its attempt yet (leave c1)\n",
    ),
    (
        ASKED,
        "begin c1 read a",
        "input line 12: refused 604: wrong phase: c1 is asking, and not inside (begin c1 read a)\n",
    ),
    (
        "",
        "try n2",
        "input line 7: refused 604: wrong phase: n2 is idle (try n2)\n",
    ),
    (
        ASKED,
        "switch n1 2",
        "input line 12: refused 604: wrong phase: n1 has not tried its decision yet (switch n1 2)\n",
    ),
    (
        "begin c1 read a\n",
        "sayto c1 n1",
        "input line 8: refused 605: c1 has not tried its attempt yet (sayto c1 n1)\n",
    ),
    (
        "",
        "say n3",
        "input line 7: refused 606: nothing to say: n3 is idle (say n3)\n",
    ),
    (
        "",
        "take n1 1",
        "input line 7: refused 607: no such message: none was sent yet (take n1 1)\n",
    ),
    (
        ASKED,
        "hear c1 2",
        "input line 12: refused 607: no such message: the last one has the number 1 (hear c1 2)\n",
    ),
    (
        ASKED,
        "take n2 1",
        "input line 12: refused 608: the message is for another actor: message 1 is request n1 c1 1 read a (take n2 1)\n",
    ),
    (
        ASKED,
        "enter c1",
        "input line 12: refused 609: not enough votes: has 0, needs 2 (enter c1)\n",
    ),
    (
        "begin c1 read a\n",
        "kept c1",
        "input line 8: refused 611: nothing to keep: no write was in progress (kept c1)\n",
    ),
    (
        "fall n1\n",
        "rise n1 new",
        "input line 8: refused 611: nothing to restart with: no write was in progress (rise n1 new)\n",
    ),
    (
        ASKED,
        "say n1",
        "input line 12: refused 605: n1 has not tried its decision yet (say n1)\n",
    ),
    (
        "",
        "begin c1 read a b2",
        "input line 7: refused 614: no ballot at this place: the last one is at place 1 (begin c1 read a b2)\n",
    ),
    ("begin c1 read a\n", "inside a", ""),
    ("", "waiting n3 a", ""),
];

/// The refused one, behind the others, and once more with a good line behind it.
#[test]
fn refused_lines(rt: HostRuntime) -> Outcome {
    for (row, (before, refused, words)) in ROWS.iter().enumerate() {
        let lines = format!(in rt.alloc(); "{before}{refused}")?;
        says_of_lines(rt.alloc(), row, Command::Script, lines.as_str(), words)?;
        let more = format!(in rt.alloc(); "{lines}\ninside b\n")?;
        says_of_lines(rt.alloc(), row, Command::Script, more.as_str(), words)?;
    }
    Ok(())
}

/// A client that has one vote of two, and then enters with both.
const VOTED: &str =
    "begin c1 read a\ntry c1\nkept c1\nsayto c1 n1\nsayto c1 n2\ntake n1 1\ntry n1\nkept n1\nsay n1\nhear c1 3\nenter c1\ntake n2 2\ntry n2\nkept n2\nsay n2\nhear c1 4\nenter c1\nsoften c1\nleave c1\nleave c1\n";

const VOTED_WORDS: &str = "\
input line 17: refused 609: not enough votes: has 1, needs 2 (enter c1)
input line 24: refused 604: wrong phase: c1 is inside as a reader (soften c1)
input line 26: refused 604: wrong phase: c1 is idle (leave c1)
";

#[test]
fn votes_are_counted(rt: HostRuntime) -> Outcome {
    says_of_lines(rt.alloc(), 0, Command::Script, VOTED, VOTED_WORDS)
}

/// Lines that are bad, and what is said of them.
const BAD: [(&str, &str); 27] = [
    (
        "foo c1",
        "input line 7: fault 801: unknown command \"foo\": expected begin, try, kept, sayto, say, take, hear, enter, leave, soften, fall, rise, switch, inside, waiting or holding\n",
    ),
    (
        "",
        "input line 7: fault 801: unknown command \"\": expected begin, try, kept, sayto, say, take, hear, enter, leave, soften, fall, rise, switch, inside, waiting or holding\nhint: the line is blank: after `---` each line is an event or a query\n",
    ),
    (
        "# c1",
        "input line 7: fault 801: unknown command \"#\": expected begin, try, kept, sayto, say, take, hear, enter, leave, soften, fall, rise, switch, inside, waiting or holding\nhint: comments are allowed only above the line `---`\n",
    ),
    (
        "enter c0",
        "input line 7: fault 802: \"c0\" is not a client (c1 to c1024)\n",
    ),
    (
        "take n1 0",
        "input line 7: fault 803: \"0\" is not the number of a message (1 to 1048576)\n",
    ),
    (
        "begin c1 read A",
        "input line 7: fault 804: \"A\" is not a name (1 to 32 of a-z, 0-9 and -)\n",
    ),
    (
        "enter c1 c2",
        "input line 7: fault 805: enter takes 1 argument, not 2\n",
    ),
    (
        "enter c1\r",
        "input line 7: fault 802: \"c1\\r\" is not a client (c1 to c1024)\nhint: the line ends with a carriage return: lines end with a line feed alone\n",
    ),
    (
        "rise n1 young",
        "input line 7: fault 801: \"young\" is not old or new\n",
    ),
    (
        "say n17",
        "input line 7: fault 802: \"n17\" is not a node (n1 to n16)\n",
    ),
    (
        "try c01",
        "input line 7: fault 802: \"c01\" is not a node or client (n1 to n16, c1 to c1024)\n",
    ),
    (
        "sayto n1 n2",
        "input line 7: fault 802: \"n1\" is not a client (c1 to c1024)\n",
    ),
    (
        "sayto c1 c2",
        "input line 7: fault 802: \"c2\" is not a node (n1 to n16)\n",
    ),
    (
        "begin c1 red a",
        "input line 7: fault 801: \"red\" is not read or write\n",
    ),
    (
        "begin c1 soften a",
        "input line 7: fault 801: \"soften\" is not read or write\n",
    ),
    (
        "begin c1 read a b1",
        "input line 7: fault 803: \"b1\" is not the place of a ballot (b2 to b8)\n",
    ),
    (
        "begin c1 read",
        "input line 7: fault 805: begin takes 3 or 4 arguments, not 2\n",
    ),
    (
        "begin c1 read a b2 b3",
        "input line 7: fault 805: begin takes 3 or 4 arguments, not 5\n",
    ),
    (
        "begin c1 read a ",
        "input line 7: fault 803: \"\" is not the place of a ballot (b2 to b8)\nhint: words are separated by exactly one space\n",
    ),
    (
        "enter  c1",
        "input line 7: fault 805: enter takes 1 argument, not 2\nhint: words are separated by exactly one space\n",
    ),
    (
        "say",
        "input line 7: fault 805: say takes 1 argument, not 0\n",
    ),
    (
        "rise n1",
        "input line 7: fault 805: rise takes 2 arguments, not 1\n",
    ),
    (
        "switch n1 3",
        "input line 7: fault 803: \"3\" is not a problem (1 or 2)\n",
    ),
    (
        "hear n1 1",
        "input line 7: fault 802: \"n1\" is not a client (c1 to c1024)\n",
    ),
    (
        "hear c1 01",
        "input line 7: fault 803: \"01\" is not the number of a message (1 to 1048576)\n",
    ),
    (
        "inside",
        "input line 7: fault 805: inside takes 1 argument, not 0\n",
    ),
    (
        "waiting n1 a_b",
        "input line 7: fault 804: \"a_b\" is not a name (1 to 32 of a-z, 0-9 and -)\n",
    ),
];

/// A bad line is the last of which anything is said.
#[test]
fn bad_lines(rt: HostRuntime) -> Outcome {
    for (row, (line, words)) in BAD.iter().enumerate() {
        let lines = format!(in rt.alloc(); "{line}\nleave c1\n")?;
        says_of_lines(rt.alloc(), row, Command::Script, lines.as_str(), words)?;
    }
    Ok(())
}

/// So many letters.
fn letters(alloc: Global, count: usize) -> Result<String, test_outcomes::Failure> {
    let mut line = String::new(alloc);
    for _ in 0..count {
        line.push_str("a")?;
    }
    Ok(line)
}

/// A line is too long once its byte 129 has come.
#[test]
fn long_lines(rt: HostRuntime) -> Outcome {
    let right = letters(rt.alloc(), 128)?;
    let words = format!(in rt.alloc();
        "input line 7: fault 801: unknown command {right:?}: expected begin, try, kept, sayto, say, take, hear, enter, leave, soften, fall, rise, switch, inside, waiting or holding\n"
    )?;
    says_of_lines(
        rt.alloc(),
        0,
        Command::Script,
        right.as_str(),
        words.as_str(),
    )?;
    let long = letters(rt.alloc(), 300)?;
    let words = "input line 7: fault 805: the line has more than 128 bytes\n";
    says_of_lines(rt.alloc(), 1, Command::Script, long.as_str(), words)
}

/// A journal that is handed to `script` begins with actors that rise.
#[test]
fn journal_as_a_script(rt: HostRuntime) -> Outcome {
    let words =
        "input line 7: refused 603: the actor is up (rise n1 old)\nhint: a script begins with all actors up: if this is a journal, use `rwvote audit`\ninput line 8: refused 603: the actor is up (rise c1 old)\n";
    says_of_lines(
        rt.alloc(),
        0,
        Command::Script,
        "rise n1 old\nrise c1 old\n",
        words,
    )
}
