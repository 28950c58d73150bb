// Words that are numbers, and those that name a problem.

ghost use Rattle.std.specs.Prelude.{◌≡◌, SomeIff};
ghost use Rattle.service_words.specs.Numbers.{number_value, IsNodeWord, IsClientWord, IsSecondsWord, TellsProblem};

use lock_messages::{ClientId, NodeId};
use lock_model::Problem;

/// The node whose number a text is.
pub(crate) fn node_in(text: &str) -> Option<NodeId>
    ensures { SomeIff result (IsNodeWord text.now) (number_value text.now) }
{
    let number = text.parse::<u8>().ok()?;
    NodeId::of(number)
}

/// The client whose number a text is.
pub(crate) fn client_in(text: &str) -> Option<ClientId>
    ensures { SomeIff result (IsClientWord text.now) (number_value text.now) }
{
    let number = text.parse::<u32>().ok()?;
    ClientId::of(number)
}

/// The seconds that a text is, at least 1.
pub(crate) fn seconds_in(text: &str) -> Option<u32>
    ensures { SomeIff result (IsSecondsWord text.now) (number_value text.now) }
{
    let number = text.parse::<u32>().ok()?;
    if number == 0 {
        return None;
    }
    Some(number)
}

/// The problem that a text names.
pub(crate) fn problem_in(text: &str) -> Option<Problem>
    ensures { TellsProblem text.now result }
{
    if text == "1" {
        return Some(Problem::First);
    }
    if text == "2" {
        return Some(Problem::Second);
    }
    None
}
