//! Laws of the definitions. Each function computes nothing: its contract is a theorem.

ghost use Rattle.switch_lines.specs.Laws.{LinesDiffer, TagsDiffer};

/// No frame for any actor has the tagged bytes of a switch.
pub fn tags_differ()
    ensures { TagsDiffer }
{}

/// No line for a node has both a frame and a switch.
pub fn lines_differ()
    ensures { LinesDiffer }
{}
