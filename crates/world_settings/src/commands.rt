// What the program is asked to do, on which it depends which settings are right.

/// What is to be done.
#[derive(Clone, Copy, Debug, PartialEq, Eq)]
pub enum Command {
    /// To take the events of a script, and to answer its queries.
    Script,
    /// To judge a journal: whether its lines are events that are a run.
    Audit,
    /// To say what the ballot is.
    Ballot,
    /// To run the service, all parts together, and to tell what came of it, or its journal.
    Run { journal: bool },
}
