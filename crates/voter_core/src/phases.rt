// What a node is about.

ghost use Rattle.std.specs.Prelude.{◌≡◌, List};
ghost use Rattle.lock_messages.specs.declared.messages.Message.{Message};
ghost use Rattle.voter_core.specs.Voters.{state_of, state_after};

/// What a node is about.
#[derive(Clone, Copy, Debug, PartialEq, Eq)]
pub enum Phase {
    /// It takes messages.
    Idle,
    /// It took a message that changed its record, which has to be kept before it replies.
    Decided,
    /// Its record is kept, and it has replies to say.
    Stored,
}

/// What a node is about after a decision that changes its record, or doesn't.
pub(crate) fn phase_after(changed: bool) -> Phase
    ensures { (replies : List Message) → state_of result replies ≡ state_after changed replies }
{
    if changed {
        Phase::Decided
    } else {
        Phase::Stored
    }
}
