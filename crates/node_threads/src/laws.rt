//! Laws of services. Each function computes nothing: its contract is a theorem.

ghost use Rattle.node_threads.specs.Laws.{ResumedMayRun};

/// A world that `World::resume` opened from these records may run with records in which just these are found, and a
/// pair of policies a node: so a service goes on where the one before it ended, or after a restart.
pub fn resumed_worlds_may_run()
    ensures { ResumedMayRun }
{}
