// What a client makes of a message.

/// What a client makes of a message that it hears.
#[derive(Clone, Copy, Debug, PartialEq, Eq)]
pub enum Heard {
    /// A vote for the present ticket, from a node that had not given it yet.
    Counted,
    /// The same from a node that had.
    Known,
    /// The present ticket waits at the node.
    Busy,
    /// The node took the release of the last attempt.
    Done,
    /// The node took that the present attempt is softened.
    Softened,
    /// Nothing of this.
    NotMine,
}
