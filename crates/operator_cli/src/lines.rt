// The lines of a script.

ghost use Rattle.std.specs.Prelude.{◌≡◌};
ghost use Rattle.operator_cli.specs.Lines.{line_of};

use crate::LineFault;
use event_lines::{Command, Line};

/// The commands that a script reads: all that there are.
const COMMANDS: [Command; 16] = [
    Command::Begin,
    Command::Try,
    Command::Kept,
    Command::SayTo,
    Command::Say,
    Command::Take,
    Command::Hear,
    Command::Enter,
    Command::Leave,
    Command::Soften,
    Command::Fall,
    Command::Rise,
    Command::Switch,
    Command::Inside,
    Command::Waiting,
    Command::Holding,
];

/// What a line of a script says, given without its line feed: an event or a query.
///
/// # Errors
///
/// What is wrong with the line, as `event_lines::read_line` judges it where all commands are read.
#[tactic(auto, unfolding(crate::specs::Lines::line_of))]
pub fn read_line(line: &[u8]) -> Result<Line, LineFault>
    ensures { result ≡ line_of line.now }
{
    event_lines::read_line(&COMMANDS, line)
}
