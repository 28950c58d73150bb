// What may be wrong with a line, each fault with its number.

ghost use Rattle.std.specs.Prelude.{◌≡◌};
ghost use Rattle.event_lines.specs.Faults.{line_fault_number};

use thiserror::Error;

/// Why a line is no event and no query. Programs print the number.
#[derive(Clone, Copy, Debug, PartialEq, Eq, Error)]
pub enum LineFault {
    /// 801: the first word, or a word that is one of a few, is another.
    #[error("no event or query has this word")]
    Word,
    /// 802: a word isn't a node or a client of the kind that is wanted.
    #[error("no node or client is spelled so")]
    Actor,
    /// 803: a word isn't the number of a message, the place of a ballot from 2 on, or a problem.
    #[error("no message, ballot or problem has this number")]
    Number,
    /// 804: a word isn't a resource's name.
    #[error("no resource has this name")]
    Name,
    /// 805: words are missing or left over, or the line is too long.
    #[error("words are missing or left over, or the line is too long")]
    Words,
}

impl LineFault {
    /// The number by which programs print the fault: 801 to 805.
    pub fn number(self) -> u16
        ensures { result ≡ line_fault_number self }
    {
        match self {
            LineFault::Word => 801,
            LineFault::Actor => 802,
            LineFault::Number => 803,
            LineFault::Name => 804,
            LineFault::Words => 805,
        }
    }
}
