//! Laws of own logs. Each function computes nothing: its contract is a theorem.

ghost use Rattle.event_recorders.specs.Laws.{PartsFollow, RecordsStay, NodeRecordsFit, ClientRecordsFit};

/// One event more makes of the actor's part what it makes of the part before; and where a restart finds what
/// the actor keeps and tries to keep, it still does after any event but a Try, a Kept and a Rise.
pub fn own_logs_tell_parts()
    ensures parts { PartsFollow }
    ensures records { RecordsStay }
{}

/// The records of nodes and of clients are short enough to be kept.
pub fn records_fit()
    ensures nodes { NodeRecordsFit }
    ensures clients { ClientRecordsFit }
{}
