// A node that takes the other problem: whom it lets in, what a fall leaves, and when it is refused.

use crate::playing;
use crate::worlds::{RISE, THREE_UNDER_THE_SECOND, plays, plays_in};
use std::alloc::Global;
use test_outcomes::Outcome;

const A_READER_HOLDS: &str = "\
begin c1 read a > chose 1
try c1 > tried
kept c1 > kept
sayto c1 n1 > sent 1 request n1 c1 1 read a
take n1 1 > changed by request n1 c1 1 read a
try n1 > tried
kept n1 > kept
say n1 > said 2 1";

const A_WRITER_WAITS: &str = "\
begin c2 write a > chose 1
try c2 > tried
kept c2 > kept
sayto c2 n1 > sent 3 request n1 c2 1 write a
take n1 3 > changed by request n1 c2 1 write a
try n1 > tried
kept n1 > kept
say n1 > said 4 1";

const A_READER_WAITS: &str = "\
begin c3 read a > chose 1
try c3 > tried
kept c3 > kept
sayto c3 n1 > sent 5 request n1 c3 1 read a
take n1 5 > changed by request n1 c3 1 read a
try n1 > tried
kept n1 > kept
say n1 > said 6 1
hear c3 6 > Busy busy n1 c3 1 read a";

// Problem 1 lets in the reader that waits. The same problem once more gives nothing to say; the next message
// will have the number that the Say tells.
const LETS_IN: &str = "\
switch n1 1 > changed
try n1 > tried
kept n1 > kept
say n1 > said 7 1
hear c3 7 > Counted grant n1 c3 1 read a
switch n1 1 > same
say n1 > said 8 0";

const FALLS_BEFORE_IT_TRIES: &str = "\
switch n1 2 > changed
fall n1 > down
rise n1 new > refused 611
rise n1 old > up";

const FALLS_WHEN_IT_HAS_TRIED: &str = "\
switch n1 2 > changed
try n1 > tried
fall n1 > down
rise n1 new > up";

const FALLS_TO_THE_OLD: &str = "\
switch n1 2 > changed
try n1 > tried
fall n1 > down
rise n1 old > up";

const ANOTHER_READER_ASKS: &str = "\
begin c4 read a > chose 1
try c4 > tried
kept c4 > kept
sayto c4 n1 > sent 8 request n1 c4 1 read a
take n1 8 > changed by request n1 c4 1 read a
try n1 > tried
kept n1 > kept
say n1 > said 9 1";

/// Ends the test unless c4 hears this once n1, which under problem 1 has let in c3 while c2 waits to write, has
/// fallen so in a switch to problem 2.
fn hears_after(alloc: Global, falls: &str, hears: &str) -> Outcome {
    let tables = [
        RISE,
        A_READER_HOLDS,
        A_WRITER_WAITS,
        A_READER_WAITS,
        LETS_IN,
        falls,
        ANOTHER_READER_ASKS,
        hears,
    ];
    plays_in(alloc, &THREE_UNDER_THE_SECOND, &tables)
}

const IS_GRANTED: &str = "hear c4 9 > Counted grant n1 c4 1 read a";

const IS_BUSY: &str = "hear c4 9 > Busy busy n1 c4 1 read a";

#[test]
fn a_switch_that_is_not_tried(rt: HostRuntime) -> Outcome {
    hears_after(rt.alloc(), FALLS_BEFORE_IT_TRIES, IS_GRANTED)
}

#[test]
fn a_switch_that_is_tried_and_lost(rt: HostRuntime) -> Outcome {
    hears_after(rt.alloc(), FALLS_TO_THE_OLD, IS_GRANTED)
}

#[test]
fn a_switch_that_is_tried_and_found(rt: HostRuntime) -> Outcome {
    hears_after(rt.alloc(), FALLS_WHEN_IT_HAS_TRIED, IS_BUSY)
}

// A switch is refused until what the node decided is said, and where the node is down.
const REFUSED: &str = "\
switch n1 2 > changed
switch n1 1 > refused 604
say n1 > refused 605
take n1 1 > refused 604
try n1 > tried
switch n1 1 > refused 604
kept n1 > kept
switch n1 1 > refused 604
take n1 1 > refused 604
say n1 > said 1 0
say n1 > refused 606
switch n1 2 > same
try n1 > refused 604
kept n1 > refused 604
switch n1 2 > refused 604
take n1 1 > refused 604
say n1 > said 1 0
fall n1 > down
switch n1 2 > refused 602
switch n4 2 > refused 601
switch n2 1 > same";

#[test]
fn refused_switches(rt: HostRuntime) -> Outcome {
    plays(rt.alloc(), &[RISE, REFUSED])
}

/// c1's reader holds `a`, c2's writer waits for it, and under problem 2 c3's reader waits too.
const SWITCHES: &str = "\
votes = [1, 1, 1]\nread = 2\nwrite = 2\nproblem = 2\nclients = 4\n---\n\
begin c1 read a\ntry c1\nkept c1\nsayto c1 n1\ntake n1 1\ntry n1\nkept n1\nsay n1\n\
begin c2 write a\ntry c2\nkept c2\nsayto c2 n1\ntake n1 3\ntry n1\nkept n1\nsay n1\n\
begin c3 read a\ntry c3\nkept c3\nsayto c3 n1\ntake n1 5\ntry n1\nkept n1\nsay n1\n\
switch n1 1\ntry n1\nkept n1\nsay n1\nwaiting n1 a\nswitch n1 1\nsay n1\n";

const SWITCHES_OUT: &str = "\
chose 1\ntried\nkept\nsent 1 request n1 c1 1 read a\nchanged\ntried\nkept\n\
sent 2 grant n1 c1 1 read a\n\
chose 1\ntried\nkept\nsent 3 request n1 c2 1 write a\nchanged\ntried\nkept\n\
sent 4 busy n1 c2 1 write a\n\
chose 1\ntried\nkept\nsent 5 request n1 c3 1 read a\nchanged\ntried\nkept\n\
sent 6 busy n1 c3 1 read a\n\
changed\ntried\nkept\nsent 7 grant n1 c3 1 read a\nwaiting n1 a: c2 write\nsame\n";

/// How a node falls in a switch, what that prints, and what c4 is answered then.
const FALLS: [(&str, &str, &str); 2] = [
    (
        "switch n1 2\nfall n1\nrise n1 old\n",
        "changed\ndown\nup\n",
        "grant",
    ),
    (
        "switch n1 2\ntry n1\nfall n1\nrise n1 new\n",
        "changed\ntried\ndown\nup\n",
        "busy",
    ),
];

const C4_ASKS: &str = "\
begin c4 read a\ntry c4\nkept c4\nsayto c4 n1\ntake n1 8\ntry n1\nkept n1\nsay n1\n";

const ASKED_OUT: &str =
    "chose 1\ntried\nkept\nsent 8 request n1 c4 1 read a\nchanged\ntried\nkept\n";

#[test]
fn switched_policy(rt: HostRuntime) -> Outcome {
    for (falls, fallen, answer) in &FALLS {
        let script = [SWITCHES, *falls, C4_ASKS];
        let expected = [
            SWITCHES_OUT,
            *fallen,
            ASKED_OUT,
            "sent 9 ",
            *answer,
            " n1 c4 1 read a\n",
        ];
        playing::plays(rt.alloc(), &script, &expected, 0)?;
    }
    Ok(())
}
