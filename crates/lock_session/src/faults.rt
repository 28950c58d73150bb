// Why nothing was entered.

use event_recorders::RunFault;
use thiserror::Error;

/// Why a session did not enter that isn't to wait.
#[derive(Clone, Copy, Debug, PartialEq, Eq, Error)]
pub enum TryFault {
    /// A node let it wait, and it has taken back what it asked for.
    #[error("busy: a node queued this request")]
    Busy,
    /// The attempt ended by this fault, or the session is over by it.
    #[error("{0}")]
    Ended(RunFault),
}
