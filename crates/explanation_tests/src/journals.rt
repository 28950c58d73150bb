// What is said of a journal: its verdict.

use crate::hearing::{says, says_of_lines};
use test_outcomes::Outcome;
use world_settings::Command;

const ROWS: [(&str, &str); 13] = [
    (
        "",
        "sound 0: all lines are events that can follow each other\n",
    ),
    (
        "rise n1 old\nrise c1 old",
        "sound 2: all lines are events that can follow each other\n",
    ),
    (
        "rise c1 old\nleave c1\nleave c1\n",
        "input line 8: refused 604: wrong phase: c1 is idle (leave c1)\n",
    ),
    (
        "rise c1 old\nbegin c1 write a\ntry c1\nkept c1\nenter c1\n",
        "input line 11: refused 609: not enough votes: has 0, needs 2 (enter c1)\n",
    ),
    (
        "begin c1 read a\n",
        "input line 7: refused 602: the actor is down (begin c1 read a)\nhint: a journal begins with all actors down: if this is a script, use `rwvote script`\n",
    ),
    (
        "rise c1 old\nbegin c2 read a\n",
        "input line 8: refused 602: the actor is down (begin c2 read a)\n",
    ),
    (
        "rise n1 old\ninside a\n",
        "input line 8: fault 801: unknown command \"inside\": expected begin, try, kept, sayto, say, take, hear, enter, leave, soften, fall, rise or switch\nhint: this is a query: `rwvote script` answers queries, a journal has only events\n",
    ),
    (
        "rise n1 old\ninside\n",
        "input line 8: fault 801: unknown command \"inside\": expected begin, try, kept, sayto, say, take, hear, enter, leave, soften, fall, rise or switch\nhint: this is a query: `rwvote script` answers queries, a journal has only events\n",
    ),
    (
        "rise n1 old\ninside A\n",
        "input line 8: fault 801: unknown command \"inside\": expected begin, try, kept, sayto, say, take, hear, enter, leave, soften, fall, rise or switch\nhint: this is a query: `rwvote script` answers queries, a journal has only events\n",
    ),
    (
        "rise n1 old\nwaiting n0 a\n",
        "input line 8: fault 801: unknown command \"waiting\": expected begin, try, kept, sayto, say, take, hear, enter, leave, soften, fall, rise or switch\nhint: this is a query: `rwvote script` answers queries, a journal has only events\n",
    ),
    (
        "rise n1 old\nholding n1 a b\n",
        "input line 8: fault 801: unknown command \"holding\": expected begin, try, kept, sayto, say, take, hear, enter, leave, soften, fall, rise or switch\nhint: this is a query: `rwvote script` answers queries, a journal has only events\n",
    ),
    (
        "rise n1 old\n\n",
        "input line 8: fault 801: unknown command \"\": expected begin, try, kept, sayto, say, take, hear, enter, leave, soften, fall, rise or switch\nhint: the line is blank: after `---` each line is an event\n",
    ),
    (
        "rise n1 old\nrise n2 now\nfoo\n",
        "input line 8: fault 801: \"now\" is not old or new\n",
    ),
];

#[test]
fn verdicts(rt: HostRuntime) -> Outcome {
    for (row, (lines, words)) in ROWS.iter().enumerate() {
        says_of_lines(rt.alloc(), row, Command::Audit, lines, words)?;
    }
    Ok(())
}

/// The line of dashes may be the last, and lack its line feed.
#[test]
fn no_line_behind(rt: HostRuntime) -> Outcome {
    let input = "votes = [1]\nread = 1\nwrite = 1\nproblem = 1\nclients = 1\n---";
    let words = "sound 0: all lines are events that can follow each other\n";
    says(rt.alloc(), 0, Command::Audit, input, words)?;
    says(rt.alloc(), 1, Command::Script, input, "")?;
    says(rt.alloc(), 2, Command::Ballot, input, "")?;
    says(rt.alloc(), 3, Command::Run { journal: false }, input, "")
}
