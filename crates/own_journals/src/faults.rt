// What is wrong with a line of an own journal.

use thiserror::Error;

/// Why no line was read.
#[derive(Clone, Copy, Debug, PartialEq, Eq, Error)]
pub enum OwnLineFault {
    /// The bytes spell no line of an own journal.
    #[error("not a line of an actor's own journal")]
    NoLine,
    /// Out of memory.
    #[error("out of memory")]
    Memory,
}
