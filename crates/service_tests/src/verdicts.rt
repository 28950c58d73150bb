// Worked journals, with their verdicts as they are written.

use crate::auditing::audited;
use crate::sips::sips_of;
use journal_audit::AuditFault;
use std::alloc::Global;
use test_outcomes::{Failure, Outcome, check_row};

/// A verdict, and behind its line feed the journal.
const ROWS: [&[u8]; 26] = [
    b"sound 0\n",
    b"sound 2\nrise c1 old\nbegin c1 read a\n",
    b"unsound 3 refused 604\nrise c1 old\nbegin c1 read a\nenter c1\n",
    b"unsound 1 fault 805\nrise n1\n",
    b"unsound 1 fault 802\nrise c01 old\n",
    b"unsound 1 fault 803\ntake n1 0\n",
    b"unsound 1 fault 804\nbegin c1 read A\n",
    b"unsound 1 fault 801\nbegin c1 reed a\n",
    b"unsound 1 refused 601\nrise c5 old\n",
    // An empty line, a carriage return, a query, a letter that is upper case.
    b"unsound 1 fault 801\n\n",
    b"unsound 1 fault 801\nrise c1 old\r\n",
    b"unsound 1 fault 801\ninside a\n",
    b"unsound 1 fault 801\nRise c1 old\n",
    // A last line without its line feed, and what stands behind an unsound line.
    b"sound 1\nrise c1 old",
    b"sound 2\nrise c1 old\nfall c1",
    b"unsound 2 refused 603\nrise c1 old\nrise c1 old\nfall c9\nx",
    // A line that softens has two words, of which the second is a client; its mode is of wishes alone.
    b"unsound 1 fault 805\nsoften\n",
    b"unsound 1 fault 805\nsoften c1 a\n",
    b"unsound 1 fault 802\nsoften n1\n",
    b"unsound 1 fault 801\nsoftened c1\n",
    b"unsound 2 fault 801\nrise c1 old\nbegin c1 soften a\n",
    b"unsound 1 refused 601\nsoften c5\n",
    b"unsound 1 refused 602\nsoften c1\n",
    b"unsound 3 refused 604\nrise c1 old\nbegin c1 write a\nsoften c1\n",
    // Lines of 128 and of 129 bytes.
    b"unsound 1 fault 801\n\
        0123456789012345678901234567890123456789012345678901234567890123\
        0123456789012345678901234567890123456789012345678901234567890123\n",
    b"unsound 1 fault 805\n\
        0123456789012345678901234567890123456789012345678901234567890123\
        01234567890123456789012345678901234567890123456789012345678901234",
];

/// How many bytes of a journal a read gives at most.
const SIZES: [usize; 4] = [1, 2, 7, 1_000];

/// Whether the verdict on a row's journal, of which a read gives so many bytes, is written as the row says.
fn is_right(alloc: Global, row: &[u8], most: usize) -> Result<bool, Failure> {
    let Some(end) = row.iter().position(|byte| *byte == b'\n') else {
        return Ok(false);
    };
    let (verdict, journal) = row.split_at_checked(end + 1).ok_or(Failure::Wrong(0))?;
    let out = audited(alloc, sips_of(journal, most, u32::MAX))?;
    Ok(out.as_slice() == verdict)
}

#[test]
fn audit_verdicts(rt: HostRuntime) -> Outcome {
    for (number, row) in ROWS.iter().enumerate() {
        for most in SIZES {
            let right = is_right(rt.alloc(), row, most)?;
            check_row(right, number)?;
        }
    }
    Ok(())
}

const FAULTS: [(AuditFault, &str); 4] = [
    (AuditFault::Read, "816 the journal couldn't be read"),
    (AuditFault::Write, "817 the verdict couldn't be written"),
    (AuditFault::Memory, "818 there was no memory"),
    (
        AuditFault::TooManyLines,
        "819 the journal has too many lines",
    ),
];

#[test]
fn faults_of_audits(rt: HostRuntime) -> Outcome {
    for (row, (fault, text)) in FAULTS.into_iter().enumerate() {
        let number = fault.number();
        let told = format!(in rt.alloc(); "{number} {fault}")?;
        check_row(told.as_str() == text, row)?;
    }
    Ok(())
}
