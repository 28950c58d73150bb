// What a number means, for `rwvote explain`.

ghost use Rattle.std.specs.Prelude.{◌≡◌, option_map};
ghost use Rattle.fault_numbers.specs.Numbers.{words_in};
ghost use Rattle.command_line.specs.CommandLine.{words_for, ExplainsNumber};

use fault_numbers::{FaultText, push_text, text_of};
use operator_cli::ServeFault;
use program_ends::{Ended, say, show, tell_fault};
use std::alloc::Global;
use std::io::Write;

/// What is said if no fault has the number.
const UNKNOWN: &str = "\
error: no fault has this number: docs/REFERENCE.md lists all numbers, from 101 to 970

For more information, try '--help'.
";

/// The words of a number that was read, if a fault has it.
fn words_for(number: Option<u16>) -> Option<FaultText>
    ensures { option_map words_in result ≡ words_for number }
{
    match number {
        Some(number) => text_of(number),
        None => None,
    }
}

/// Shows what a number means, its cause and its remedy, with status 0. If no fault has the number, it says so, with
/// status 2.
pub(crate) fn explain_number<W: Write, E: Write>(
    alloc: Global,
    number: Option<u16>,
    output: &mut W,
    errors: &mut E,
) -> Ended
    ensures { ExplainsNumber (words_for number) (record { old = W.contents output.old; new = W.contents output.new; errors_old = E.contents errors.old; errors_new = E.contents errors.new }) result }
{
    let Some(words) = words_for(number) else {
        return say(2, UNKNOWN, errors);
    };
    let mut text = String::new(alloc);
    if push_text(&mut text, &words).is_err() {
        return tell_fault(ServeFault::Memory, errors);
    }
    show(text.as_str(), output, errors)
}
