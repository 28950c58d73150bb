//! Laws about journals. Each function computes nothing: its contract is the law.

ghost use Rattle.journal_laws.specs.Laws.{JournalsAreFoundSound, JournalsAreSound, LinesAreTheEvents};

use journal_audit::laws::verdicts_are_exact;
use world_model::laws::{exact_steps_are_allowed, steps_change_one_part};

/// The text of a history has its events' texts as its lines. From a sound world of few ballots, where the
/// history is a run, it is a sound journal of that many lines: no other verdict on it is right, and an audit
/// that comes to a verdict comes to this one.
pub fn journals_are_sound()
    ensures lines { LinesAreTheEvents }
    ensures sound { JournalsAreSound }
    ensures found { JournalsAreFoundSound }
{
    verdicts_are_exact();
    exact_steps_are_allowed();
    steps_change_one_part();
}
