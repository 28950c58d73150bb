// Journals in which a client softens, with their verdicts.

use crate::auditing::audited;
use std::alloc::Global;
use test_outcomes::{Failure, Outcome, check_row};

/// Who rises: lines 1 to 3.
const RISE: &str = "rise n1 old\nrise n2 old\nrise c1 old\n";

/// How c1 asks and enters once it has begun: lines 5 to 19.
const ENTER: &str = "\
try c1\nkept c1\nsayto c1 n1\ntake n1 1\ntry n1\nkept n1\nsay n1\nhear c1 2\n\
sayto c1 n2\ntake n2 3\ntry n2\nkept n2\nsay n2\nhear c1 4\nenter c1\n";

/// How c1 softens and tells both nodes, and how c2 then enters as a reader: lines 20 to 48.
const LETS_IN: &str = "\
soften c1\nsayto c1 n1\ntake n1 5\ntry n1\nkept n1\nsay n1\nhear c1 6\n\
sayto c1 n2\ntake n2 7\ntry n2\nkept n2\nsay n2\n\
rise c2 old\nbegin c2 read a\ntry c2\nkept c2\n\
sayto c2 n1\ntake n1 9\ntry n1\nkept n1\nsay n1\nhear c2 10\n\
sayto c2 n2\ntake n2 11\ntry n2\nkept n2\nsay n2\nhear c2 12\nenter c2\n";

/// A verdict, the mode in which c1 begins, and what comes behind its entering.
const ROWS: [(&str, &str, &str); 8] = [
    ("sound 20\n", "write", "soften c1\n"),
    ("sound 48\n", "write", LETS_IN),
    // It softens once, and as a writer that is inside.
    (
        "unsound 21 refused 604\n",
        "write",
        "soften c1\nsoften c1\n",
    ),
    ("unsound 20 refused 604\n", "read", "soften c1\n"),
    ("unsound 21 refused 604\n", "write", "leave c1\nsoften c1\n"),
    ("unsound 21 refused 602\n", "write", "fall c1\nsoften c1\n"),
    (
        "unsound 23 refused 604\n",
        "write",
        "soften c1\nfall c1\nrise c1 old\nsoften c1\n",
    ),
    // Once it has left, its Softened is heard like any message.
    (
        "sound 27\n",
        "write",
        "soften c1\nsayto c1 n1\nleave c1\ntake n1 5\ntry n1\nkept n1\nsay n1\nhear c1 6\n",
    ),
];

/// Whether the verdict on a row's journal is written as the row says.
fn is_right(alloc: Global, row: &(&str, &str, &str)) -> Result<bool, Failure> {
    let (verdict, mode, rest) = *row;
    let journal = format!(in alloc; "{RISE}begin c1 {mode} a\n{ENTER}{rest}")?;
    let out = audited(alloc, journal.as_bytes())?;
    Ok(out.as_slice() == verdict.as_bytes())
}

#[test]
fn verdicts_of_softening(rt: HostRuntime) -> Outcome {
    for (number, row) in ROWS.iter().enumerate() {
        let right = is_right(rt.alloc(), row)?;
        check_row(right, number)?;
    }
    Ok(())
}
