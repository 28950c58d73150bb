// Scripts that show what the examples don't.

use crate::playing::{answers_each, plays};
use test_outcomes::Outcome;
use test_support::SETTINGS;
use world_settings::Command;

/// Lines behind good settings, what they print, and the status.
const LAST_LINES: [(&str, &str, u8); 5] = [
    ("", "", 0),
    ("begin c1 read a", "chose 1\n", 0),
    ("begin c1 read a\n", "chose 1\n", 0),
    (
        "inside a\n\nbegin c1 read a\n",
        "inside a: nobody\nline 2 fault 801\n",
        1,
    ),
    ("enter c1\ninside a\n", "refused 604\ninside a: nobody\n", 1),
];

#[test]
fn last_lines(rt: HostRuntime) -> Outcome {
    answers_each(rt.alloc(), Command::Script, [SETTINGS, "", ""], &LAST_LINES)
}

const TWO_READERS: &str = "\
votes = [1]\nread = 1\nwrite = 1\nproblem = 1\nclients = 2\n---\n\
begin c1 read a\ntry c1\nkept c1\nsayto c1 n1\ntake n1 1\ntry n1\nkept n1\nsay n1\nhear c1 2\nenter c1\n\
begin c2 read a\ntry c2\nkept c2\nsayto c2 n1\ntake n1 3\ntry n1\nkept n1\nsay n1\nhear c2 4\nenter c2\n\
inside a\nleave c1\nsayto c1 n1\ntake n1 5\ntry n1\nkept n1\nsay n1\nhear c1 6\nhear c1 2\nhear c2 4\n";

const TWO_READERS_OUT: &str = "\
chose 1\ntried\nkept\nsent 1 request n1 c1 1 read a\nchanged\ntried\nkept\n\
sent 2 grant n1 c1 1 read a\ncounted\ninside\n\
chose 1\ntried\nkept\nsent 3 request n1 c2 1 read a\nchanged\ntried\nkept\n\
sent 4 grant n1 c2 1 read a\ncounted\ninside\n\
inside a: c1 read, c2 read\noutside\nsent 5 release n1 c1 1\nchanged\ntried\nkept\n\
sent 6 done n1 c1 1\ndone\nnot mine\nknown\n";

#[test]
fn two_readers_inside(rt: HostRuntime) -> Outcome {
    plays(rt.alloc(), &[TWO_READERS], &[TWO_READERS_OUT], 0)
}

const SOFTENS: &str = "\
votes = [1, 1, 1]\nread = 2\nwrite = 2\nproblem = 1\nclients = 2\n---\n\
begin c1 write a\ntry c1\nkept c1\n\
sayto c1 n1\ntake n1 1\ntry n1\nkept n1\nsay n1\nhear c1 2\n\
sayto c1 n2\ntake n2 3\ntry n2\nkept n2\nsay n2\nhear c1 4\nenter c1\n\
begin c2 read a\ntry c2\nkept c2\nsayto c2 n1\ntake n1 5\ntry n1\nkept n1\nsay n1\n\
soften c1\ninside a\nsayto c1 n1\ntake n1 7\ntry n1\nkept n1\nsay n1\nholding n1 a\n\
take n1 1\nsay n1\nhear c1 8\nhear c1 2\n";

const SOFTENS_OUT: &str = "\
chose 1\ntried\nkept\n\
sent 1 request n1 c1 1 write a\nchanged\ntried\nkept\nsent 2 grant n1 c1 1 write a\ncounted\n\
sent 3 request n2 c1 1 write a\nchanged\ntried\nkept\nsent 4 grant n2 c1 1 write a\ncounted\ninside\n\
chose 1\ntried\nkept\nsent 5 request n1 c2 1 read a\nchanged\ntried\nkept\n\
sent 6 busy n1 c2 1 read a\n\
softened\ninside a: c1 read\nsent 7 soften n1 c1 1\nchanged\ntried\nkept\n\
sent 8 softened n1 c1 1\nsent 9 grant n1 c2 1 read a\nholding n1 a: c1 read, c2 read\n\
same\nsent 10 softened n1 c1 1\nsoftened\nnot mine\n";

/// A writer inside becomes a reader, and can do so once.
#[test]
fn softening(rt: HostRuntime) -> Outcome {
    let alloc = rt.alloc();
    plays(alloc, &[SOFTENS], &[SOFTENS_OUT], 0)?;
    let again = [SOFTENS_OUT, "refused 604\n"];
    plays(alloc, &[SOFTENS, "soften c1\n"], &again, 1)
}

const TWO_BALLOTS: &str = "\
votes = [2, 1, 1]\nread = 2\nwrite = 3\nproblem = 1\nclients = 2\n\
more = [{ votes = [1, 1, 1], read = 2, write = 3 }]\n---\n\
begin c2 read a b3\nbegin c1 write a\ntry c1\nkept c1\n\
sayto c1 n1\ntake n1 1\ntry n1\nkept n1\nsay n1\nhear c1 2\n\
sayto c1 n2\ntake n2 3\ntry n2\nkept n2\nsay n2\nhear c1 4\nenter c1\n\
begin c2 read a b2\ntry c2\nkept c2\n\
sayto c2 n1\ntake n1 5\ntry n1\nkept n1\nsay n1\nhear c2 6\n\
sayto c2 n2\ntake n2 7\ntry n2\nkept n2\nsay n2\nhear c2 8\n\
sayto c2 n3\ntake n3 9\ntry n3\nkept n3\nsay n3\nhear c2 10\nenter c2\ninside a\n";

const TWO_BALLOTS_OUT: &str = "\
refused 614\nchose 1\ntried\nkept\n\
sent 1 request n1 c1 1 write a\nchanged\ntried\nkept\nsent 2 grant n1 c1 1 write a\ncounted\n\
sent 3 request n2 c1 1 write a\nchanged\ntried\nkept\nsent 4 grant n2 c1 1 write a\ncounted\ninside\n\
chose 1\ntried\nkept\n\
sent 5 request n1 c2 1 read a\nchanged\ntried\nkept\nsent 6 busy n1 c2 1 read a\nbusy\n\
sent 7 request n2 c2 1 read a\nchanged\ntried\nkept\nsent 8 busy n2 c2 1 read a\nbusy\n\
sent 9 request n3 c2 1 read a\nchanged\ntried\nkept\nsent 10 grant n3 c2 1 read a\ncounted\n\
refused 609\ninside a: c1 write\n";

/// The reader's ballot is another one than the writer's, and it lacks a vote of the writer's nodes.
#[test]
fn reader_by_another_ballot(rt: HostRuntime) -> Outcome {
    plays(rt.alloc(), &[TWO_BALLOTS], &[TWO_BALLOTS_OUT], 1)
}
