// What a client remembers from command to command.

ghost use Rattle.std.specs.Prelude.{◌≡◌};

use lock_session::Crowd;
use vote_weights::NodeSet;

/// What a client remembers from command to command.
#[derive(Clone, Copy)]
pub(crate) struct Memo {
    /// The nodes that have to answer a release yet.
    pub(crate) owing: NodeSet,
    // Whether others want locks too.
    crowd: Crowd,
}

impl Memo {
    /// These nodes have to answer a release yet, and nobody else wants a lock as far as is known.
    pub(crate) fn of(owing: NodeSet) -> Memo
        ensures { result.owing ≡ owing }
    {
        Memo {
            owing,
            crowd: Crowd::none(),
        }
    }

    /// Whether the client asks several nodes at once for its next lock.
    pub(crate) fn asks_together(&mut self) -> bool
        ensures { self.new.owing ≡ self.old.owing }
    {
        self.crowd.asks_at_once()
    }

    /// A node has let the client wait.
    pub(crate) fn note_crowd(&mut self)
        ensures { self.new.owing ≡ self.old.owing }
    {
        self.crowd.note();
    }
}
