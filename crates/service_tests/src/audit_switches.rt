// Journals in which a node takes another problem, with their verdicts.

use crate::auditing::audited_under;
use lock_model::Problem;
use std::alloc::Global;
use test_outcomes::{Failure, Outcome, check_row};

/// Who rises: lines 1 to 5.
const RISE: &str = "rise n1 old\nrise c1 old\nrise c2 old\nrise c3 old\nrise c4 old\n";

/// How c1 asks n1 as a reader, c2 as a writer and c3 as a reader, and how n1 answers, up to message 6: lines
/// 6 to 29. Under problem 2 both who come later wait.
const ASK: &str = "\
begin c1 read a\ntry c1\nkept c1\nsayto c1 n1\ntake n1 1\ntry n1\nkept n1\nsay n1\n\
begin c2 write a\ntry c2\nkept c2\nsayto c2 n1\ntake n1 3\ntry n1\nkept n1\nsay n1\n\
begin c3 read a\ntry c3\nkept c3\nsayto c3 n1\ntake n1 5\ntry n1\nkept n1\nsay n1\n";

/// How n1 takes problem 1, and says that c3 is let in: lines 30 to 34.
const LETS_IN: &str = "switch n1 1\ntry n1\nkept n1\nsay n1\nhear c3 7\n";

/// The same, and how n1 takes that problem again and then problem 2, of both of which there is nothing to
/// say, so that the next message is 8.
const SAYS_NOTHING: &str = "\
switch n1 1\ntry n1\nkept n1\nsay n1\nhear c3 7\nswitch n1 1\nsay n1\n\
switch n1 2\ntry n1\nkept n1\nsay n1\nsayto c1 n1\ntake n1 8\n";

/// A verdict, the problem with which the nodes begin, and what comes behind the asking.
const ROWS: [(&str, Problem, &str); 17] = [
    ("sound 34\n", Problem::Second, LETS_IN),
    ("sound 42\n", Problem::Second, SAYS_NOTHING),
    // Without the switch there is nothing to keep, to say or to hear.
    (
        "unsound 30 refused 604\n",
        Problem::Second,
        "try n1\nkept n1\nsay n1\nhear c3 7\n",
    ),
    (
        "unsound 30 refused 606\n",
        Problem::Second,
        "say n1\nhear c3 7\n",
    ),
    ("unsound 30 refused 607\n", Problem::Second, "hear c3 7\n"),
    // Under problem 1 c3 holds already, and the switch is to the same problem.
    ("unsound 31 refused 604\n", Problem::First, LETS_IN),
    ("sound 31\n", Problem::First, "switch n1 1\nsay n1\n"),
    (
        "unsound 32 refused 607\n",
        Problem::First,
        "switch n1 1\nsay n1\nhear c3 7\n",
    ),
    // It is kept before it is said, and a node that is not idle takes no other.
    (
        "unsound 31 refused 605\n",
        Problem::Second,
        "switch n1 1\nsay n1\n",
    ),
    (
        "unsound 31 refused 604\n",
        Problem::Second,
        "switch n1 1\nswitch n1 2\n",
    ),
    (
        "unsound 31 refused 604\n",
        Problem::Second,
        "switch n1 2\nswitch n1 1\n",
    ),
    (
        "unsound 31 refused 604\n",
        Problem::Second,
        "switch n1 2\ntake n1 1\n",
    ),
    // A node that is not there, one that is down, and one that fell before it tried.
    ("unsound 30 refused 601\n", Problem::Second, "switch n4 1\n"),
    ("unsound 30 refused 602\n", Problem::Second, "switch n2 1\n"),
    (
        "unsound 32 refused 611\n",
        Problem::Second,
        "switch n1 1\nfall n1\nrise n1 new\n",
    ),
    // After a fall nothing is left to be said.
    (
        "unsound 34 refused 606\n",
        Problem::Second,
        "switch n1 1\ntry n1\nfall n1\nrise n1 new\nsay n1\n",
    ),
    ("unsound 30 fault 803\n", Problem::Second, "switch n1 3\n"),
];

/// Whether the verdict on a row's journal is written as the row says.
fn is_right(alloc: Global, row: &(&str, Problem, &str)) -> Result<bool, Failure> {
    let (verdict, problem, rest) = *row;
    let journal = format!(in alloc; "{RISE}{ASK}{rest}")?;
    let out = audited_under(alloc, problem, journal.as_bytes())?;
    Ok(out.as_slice() == verdict.as_bytes())
}

#[test]
fn verdicts_of_switches(rt: HostRuntime) -> Outcome {
    for (number, row) in ROWS.iter().enumerate() {
        let right = is_right(rt.alloc(), row)?;
        check_row(right, number)?;
    }
    Ok(())
}
