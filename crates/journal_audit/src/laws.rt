//! Laws about verdicts. Each function computes nothing: its contract is the law.

ghost use Rattle.std.specs.Prelude.{◌≡◌};
ghost use Rattle.journal_audit.specs.Verdicts.{VerdictsAreExact};

use crate::MAX_LINES;
use event_lines::laws::events_are_spelled_once;

/// Of any world and any lines just one verdict is right, and it is the one that is computed line by
/// line.
pub fn verdicts_are_exact()
    ensures { VerdictsAreExact }
{
    events_are_spelled_once();
}

/// The limit by number: a journal has at most 4,194,304 lines.
pub fn limits()
    ensures lines { MAX_LINES ≡ 4194304 }
{}
