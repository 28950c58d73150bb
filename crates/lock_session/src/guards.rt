// A guard of a session that is inside.

ghost use Rattle.std.specs.Prelude.{◌≡◌, ◌⊎◌, true, None, Some, OnOk, IfOk, IfErr};
ghost use Rattle.std.specs.Borrow.{sem, RestsIfErr};
ghost use Rattle.lock_messages.specs.declared.tickets.Mode.TheVariants.{Read, Write};
ghost use Rattle.lock_messages.specs.declared.tickets.Ticket.{Ticket as TicketValue};
ghost use Rattle.lock_model.specs.Ballots.{HasPlace};
ghost use Rattle.world_model.specs.Company.{are_together};
ghost use Rattle.client_core.specs.Clients.{softened_ticket};
ghost use Rattle.client_loop.specs.Visits.{AsksFor};
ghost use Rattle.lock_session.specs.contracts.sessions.Session.{the_row};
ghost use Rattle.lock_session.specs.Guards.{session_of, lender_of, guard_ticket, IsHeld};
ghost use Rattle.lock_session.specs.Outcomes.{SendsUnlessMemory, IsOutside, LeavesWell};
ghost use Rattle.lock_session.specs.Sessions.{IsInside, GoesOut, StandsAfter, Settles, Softens, EndsSoftening, EndsGuard, Enters, EndsEntering, EndsTrying, Notes, use_by};

use crate::{Crowd, Session, TryFault};
use client_loop::Patience;
use event_recorders::{LogFault, OwnRecord, Recorder, RunFault, SharedRecorder};
use lock_messages::{Mode, ResourceName, Ticket};
use lossy_link::Link;
use std::alloc::Global;
use std::sync::Wait;

/// A session that is inside: so it is for as long as the guard lives, with the guard's ticket, by the session's
/// own log.
///
/// `leave` logs the Leave and says the releases. A guard that is dropped instead, on whatever path, is outside at
/// once, and takes no memory and does not wait; the next call that enters or settles logs it then and says the
/// releases, before anything else (that it is the first is in the calls' bodies alone, and tested). So does the next such call after a guard that was forgotten.
/// Its fact is in clauses and in no ghost field, which would have to hold of what its drop leaves too.
pub struct SessionGuard<'a, S: OwnRecord, R: Recorder, L: Link> {
    session: &'a mut Session<S, R, L>,
    ticket: Ticket,
}

impl<S: OwnRecord, R: Recorder, L: Link> Session<S, R, L> {
    /// The guard of a session that is inside.
    fn guard(&mut self) -> SessionGuard<'_, S, R, L>
        requires { (t : TicketValue) × IsInside self.old t }
        ensures same_session { lender_of result ≡ self.entry.ghost_name }
        ensures session { session_of result ≡ self.old }
        ensures held { IsHeld result }
    {
        let Some(ticket) = self.ticket() else {
            unreachable!()
        };
        SessionGuard {
            session: self,
            ticket,
        }
    }

    /// Enters: says what is left to say, makes an attempt for this mode, resource and place, asks for it, and
    /// is inside once the votes are enough. It gives up at the nudge of this number.
    ///
    /// The caller owes a place that the session's ballots have.
    ///
    /// # Errors
    ///
    /// Nothing is entered. Too few nodes are left (912), or it had its last nudge (913), in this attempt or in
    /// the releases of the one before: the session has left and rests, and has said its releases (tested). The record did
    /// not reopen (911), memory was refused (914), the book takes no more (915), or the record or the attempts
    /// are spent (916): the session is over. It was over before, by this fault: nothing is done.
    pub fn enter<W: Wait>(
        &mut self,
        rt: &W,
        alloc: Global,
        mode: Mode,
        resource: ResourceName,
        place: u8,
        nudges: u32,
    ) -> Result<SessionGuard<'_, S, R, L>, RunFault>
        requires placed { HasPlace self.old.ballots place }
        ensures* ended { sem 𝓛 (RestsIfErr (the_row S.row R.row L.row S.StableRecord R.Recorder L.Link) self.entry (λ guard. guard.session.ghost_name) result (λ last. IfErr result (λ f. EndsEntering (use_by mode resource place) nudges f self.old last))) }
        ensures same_session { IfOk result (λ guard. lender_of guard ≡ self.entry.ghost_name) }
        ensures held { IfOk result IsHeld }
        ensures asked { IfOk result (λ guard. AsksFor (use_by mode resource place) (guard_ticket guard)) }
        ensures entered { IfOk result (λ guard. Enters (use_by mode resource place) nudges self.old (session_of guard)) }
    {
        let patience = Patience {
            nudges,
            waits: true,
        };
        if !self.come_in(rt, alloc, mode, resource, place, patience)? {
            unreachable!()
        }
        Ok(self.guard())
    }

    /// Enters as `enter` does, and sooner if the resource is free: it first asks several nodes at once, as `try_enter` does. If
    /// one of them lets it wait, it takes that back, and asks one node after another for this lock and the next
    /// `LOCKS_IN_TURN`. `crowd` remembers that from lock to lock. So each of two attempts may have so many nudges.
    ///
    /// The caller owes a place that the session's ballots have.
    ///
    /// # Errors
    ///
    /// Those of `enter`.
    pub fn enter_soon<W: Wait>(
        &mut self,
        rt: &W,
        alloc: Global,
        mode: Mode,
        resource: ResourceName,
        place: u8,
        nudges: u32,
        crowd: &mut Crowd,
    ) -> Result<SessionGuard<'_, S, R, L>, RunFault>
        requires placed { HasPlace self.old.ballots place }
        ensures* ended { sem 𝓛 (RestsIfErr (the_row S.row R.row L.row S.StableRecord R.Recorder L.Link) self.entry (λ guard. guard.session.ghost_name) result (λ last. IfErr result (λ f. EndsEntering (use_by mode resource place) nudges f self.old last))) }
        ensures same_session { IfOk result (λ guard. lender_of guard ≡ self.entry.ghost_name) }
        ensures held { IfOk result IsHeld }
        ensures asked { IfOk result (λ guard. AsksFor (use_by mode resource place) (guard_ticket guard)) }
        ensures entered { IfOk result (λ guard. Enters (use_by mode resource place) nudges self.old (session_of guard)) }
        ensures noted { Notes (use_by mode resource place) nudges self.old crowd.old crowd.new }
    {
        self.come_in_soon(rt, alloc, mode, resource, place, nudges, crowd)?;
        Ok(self.guard())
    }

    /// Enters as `enter` does, but asks as many nodes at once as it needs, and takes back what it asked for where a node
    /// lets it wait.
    ///
    /// The caller owes a place that the session's ballots have.
    ///
    /// # Errors
    ///
    /// `Busy`: a node let it wait; the session has left, each node that it asked has answered its release or is
    /// gone, and it rests. `Ended`: as of `enter`, with the same fault.
    pub fn try_enter<W: Wait>(
        &mut self,
        rt: &W,
        alloc: Global,
        mode: Mode,
        resource: ResourceName,
        place: u8,
        nudges: u32,
    ) -> Result<SessionGuard<'_, S, R, L>, TryFault>
        requires placed { HasPlace self.old.ballots place }
        ensures* ended { sem 𝓛 (RestsIfErr (the_row S.row R.row L.row S.StableRecord R.Recorder L.Link) self.entry (λ guard. guard.session.ghost_name) result (λ last. IfErr result (λ f. EndsTrying (use_by mode resource place) nudges f self.old last))) }
        ensures same_session { IfOk result (λ guard. lender_of guard ≡ self.entry.ghost_name) }
        ensures held { IfOk result IsHeld }
        ensures asked { IfOk result (λ guard. AsksFor (use_by mode resource place) (guard_ticket guard)) }
        ensures entered { IfOk result (λ guard. Enters (use_by mode resource place) nudges self.old (session_of guard)) }
    {
        let patience = Patience {
            nudges,
            waits: false,
        };
        match self.come_in(rt, alloc, mode, resource, place, patience) {
            Ok(true) => Ok(self.guard()),
            Ok(false) => Err(TryFault::Busy),
            Err(fault) => Err(TryFault::Ended(fault)),
        }
    }
}

impl<S: OwnRecord, R: Recorder, L: Link> SessionGuard<'_, S, R, L> {
    /// The ticket with which the session is inside.
    pub fn ticket(&self) -> Ticket
        ensures { result ≡ guard_ticket self.now }
    {
        self.ticket
    }

    /// The session, to be looked at.
    pub fn session(&self) -> &Session<S, R, L>
        ensures { result.now ≡ session_of self.now }
    {
        self.session
    }

    /// Softens: the session goes on inside as a reader, logs it, and says it once to each node whose vote was
    /// counted.
    ///
    /// The caller owes that the mode of the guard's ticket is `Write`.
    ///
    /// # Errors
    ///
    /// Memory was refused (914), or the book takes no more (915). The session is over then, and still inside: as
    /// a reader where the Soften was logged. It was over before, by this fault: nothing is done.
    pub fn soften(&mut self, alloc: Global) -> Result<(), RunFault>
        requires writes { (guard_ticket self.old).mode ≡ Write }
        ensures same_session { lender_of self.new ≡ lender_of self.old }
        ensures held { IsHeld self.old → IsHeld self.new }
        ensures still { IsHeld self.old → (guard_ticket self.new ≡ guard_ticket self.old) ⊎ (guard_ticket self.new ≡ softened_ticket (guard_ticket self.old)) }
        ensures softened { OnOk result (IsHeld self.old → (guard_ticket self.new ≡ softened_ticket (guard_ticket self.old)) × Softens (session_of self.old) (session_of self.new)) }
        ensures on { OnOk result ((session_of self.old).over ≡ None) }
        ensures ended { IfErr result (λ f. EndsSoftening f (session_of self.old) (session_of self.new)) }
    {
        let told = self.session.soften(alloc);
        if let Some(ticket) = self.session.ticket() {
            self.ticket = ticket;
        }
        told
    }

    /// Leaves: logs that the client has left, and says its release to each node that it asked, until each has
    /// answered or is gone.
    ///
    /// # Errors
    ///
    /// The client is outside in any case. It had its last nudge (913): the session rests, and has said its releases
    /// once more (tested). Memory was refused (914), or the book takes no more (915): the session is over. It was over
    /// before, by this fault: nothing is said.
    #[tactic(auto, using(crate::proofs::EndFacts::leaves_by))]
    pub fn leave<W: Wait>(self, rt: &W, alloc: Global) -> Result<(), RunFault>
        ensures settles { Settles (session_of self.entry) self.exit.0.now }
        ensures outside { IsOutside self.exit.0.now }
        ensures left { LeavesWell result (IsHeld self.entry) (session_of self.entry) self.exit.0.now }
        ensures faulted { IfErr result (λ f. SendsUnlessMemory f (session_of self.entry) self.exit.0.now) }
        ensures after { IfErr result (λ f. StandsAfter f self.exit.0.now) }
        ensures ended { IfErr result (λ f. EndsGuard f (session_of self.entry) self.exit.0.now) }
    {
        let SessionGuard { session, ticket: _ } = self;
        session.go_out();
        session.settle(rt, alloc)
    }
}

impl<S: OwnRecord, R: SharedRecorder, L: Link> SessionGuard<'_, S, R, L> {
    /// Whether both sessions are inside one resource, as two clients of one book; then both are readers. Nothing of
    /// either changes. It waits for the lock of the book.
    ///
    /// # Errors
    ///
    /// The sessions log in two books (815).
    pub fn meets(&mut self, other: &mut SessionGuard<'_, S, R, L>) -> Result<bool, LogFault>
        ensures one { (session_of self.new ≡ session_of self.old) × (guard_ticket self.new ≡ guard_ticket self.old) × (lender_of self.new ≡ lender_of self.old) }
        ensures other { (session_of other.new ≡ session_of other.old) × (guard_ticket other.new ≡ guard_ticket other.old) × (lender_of other.new ≡ lender_of other.old) }
        ensures met { IsHeld self.old → IsHeld other.old → IfOk result (λ met. met ≡ are_together (Some (guard_ticket self.old)) (Some (guard_ticket other.old))) }
        ensures readers { IsHeld self.old → IsHeld other.old → IfOk result (λ met. met ≡ true → ((guard_ticket self.old).mode ≡ Read) × ((guard_ticket other.old).mode ≡ Read)) }
        ensures err { IfErr result (λ f. f ≡ LogFault.OtherBook) }
    {
        self.session.meet(other.session)
    }
}

impl<S: OwnRecord, R: Recorder, L: Link> Drop for SessionGuard<'_, S, R, L> {
    fn drop(self)
        ensures { GoesOut (session_of self.entry) self.exit.0.now }
    {
        let SessionGuard { ticket: _, session } = self;
        session.go_out();
    }
}
