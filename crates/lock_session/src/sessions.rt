// A session.

ghost use Rattle.std.specs.Prelude.{◌≡◌, ◌⊎◌, [], true, false, None, Ok, OnOk, IfOk, IfErr};
ghost use Rattle.lock_model.specs.Ballots.{HasPlace};
ghost use Rattle.lock_messages.specs.declared.tickets.Mode.TheVariants.{Write};
ghost use Rattle.lock_messages.specs.declared.tickets.Ticket.{Ticket as TicketValue};
ghost use Rattle.client_core.specs.Clients.{phase_of, ticket_of, softened_ticket};
ghost use Rattle.client_core.specs.declared.phases.Phase.TheVariants as phase;
ghost use Rattle.event_recorders.specs.OwnLogs.{IsUnused, FindsPart, FindsItsOwn, part_now};
ghost use Rattle.event_recorders.specs.Sharing.{HaveMet, HasSeenInside};
ghost use Rattle.client_loop.specs.Standing.{KeepsAttempt};
ghost use Rattle.client_loop.specs.Endings.{ClientEndsFrom};
ghost use Rattle.lock_session.specs.Outcomes.{HasRisen, Saying, HasSettled, StaysIfNothingLeft, IsOutside, IsOutsideUnlessOver, HasReleasedLast, AnswersAs};
ghost use Rattle.lock_session.specs.Sessions.{IsResting, IsInside, IsInsideStill, IsInsideFor, Softens, EndsSoftening, GoesOut, Settles, Enters, TakesBack, EndsEntering, Notes, HasReleased, HasReleasedAt, Releases, use_by, over_by};

use crate::crowds::Crowd;
use crate::gates::OpenGate;
use client_core::Phase;
use client_loop::{Patience, Progress, enter, leave, release_at, rise, soften};
use event_lines::Wish;
use event_recorders::{LogFault, OwnRecord, Recorder, RunFault, SharedRecorder};
use lock_messages::{Actor, ClientId, Mode, ResourceName, Ticket};
use lossy_link::Link;
use std::alloc::Global;
use std::marker::Model;
use std::sync::Wait;
use vote_weights::{BallotList, NodeSet};

/// A client's session: its record, its recorder and its link, and what it remembers between two calls.
///
/// It rests, or is inside by a guard that borrows it. A guard that was dropped, or forgotten, has left it
/// something to say, which the next call that enters or settles does first.
#[derive(Drop)]
pub struct Session<S: OwnRecord, R: Recorder, L: Link> {
    client: ClientId,
    ballots: BallotList,
    progress: Progress,
    stable: S,
    recorder: R,
    link: L,
    is_left: bool,
    ended: Option<RunFault>,
}

/// What comes back where a client did not rise: by which fault, and what was handed in, with nothing logged.
#[derive(Drop)]
pub struct NotRisen<S: OwnRecord, R: Recorder, L: Link> {
    /// Why the client did not rise: 911, 914 or 915.
    pub fault: RunFault,
    /// Its record, as far as the fault left it: a restart finds in it nothing but what the client has kept.
    pub stable: S,
    /// Its recorder, which has logged nothing.
    pub recorder: R,
    /// Its link, over which nothing was sent.
    pub link: L,
}

impl<S: OwnRecord, R: Recorder, L: Link> Model for Session<S, R, L> {
    ghost use Rattle.lock_session.specs.Sessions.{SessionValue, IsSession, session_of_parts};

    ghost Value = { SessionValue };

    ghost view = { λ s. session_of_parts s.client s.ballots s.progress (R.own_log s.recorder) (S.StableRecord.finds s.stable) (S.StableRecord.stuck_of s.stable) (S.StableRecord.spent_of s.stable) (S.StableRecord.failures_of s.stable) (L.given s.link) s.is_left s.ended };

    ghost invariant = { λ s. IsSession (session_of_parts s.client s.ballots s.progress (R.own_log s.recorder) (S.StableRecord.finds s.stable) (S.StableRecord.stuck_of s.stable) (S.StableRecord.spent_of s.stable) (S.StableRecord.failures_of s.stable) (L.given s.link) s.is_left s.ended) };
}

/// The fault by which a session is over, where it is one that ends more than an attempt.
fn over_by(fault: RunFault) -> Option<RunFault>
    ensures { result ≡ over_by fault }
{
    match fault {
        RunFault::TooFewNodes | RunFault::GaveUp => None,
        RunFault::NotReopened | RunFault::Memory | RunFault::Book | RunFault::Spent => Some(fault),
    }
}

impl<S: OwnRecord, R: Recorder, L: Link> Session<S, R, L> {
    /// The client rises with what its record holds, and rests.
    ///
    /// The caller owes a recorder of this client, with these ballots, that has logged nothing, and whose
    /// opening has the client down, with an attempt of at most `MAX_ATTEMPT` kept and nothing tried; and a
    /// record in which a restart finds just that attempt.
    ///
    /// # Errors
    ///
    /// With what was handed in: the client has not risen, and nothing is logged: three reopens of the record
    /// failed (911), memory was refused (914), or the book is full or another's (915).
    pub fn rise(
        client: ClientId,
        ballots: BallotList,
        stable: S,
        recorder: R,
        link: L,
    ) -> Result<Session<S, R, L>, NotRisen<S, R, L>>
        requires unused { IsUnused (R.own_log recorder) (Actor.Client client) }
        requires ballots { (R.own_log recorder).ballots ≡ ballots }
        requires found { FindsPart (R.own_log recorder).opening (S.StableRecord.finds stable) }
        requires kept { KeepsAttempt (R.own_log recorder).opening }
        ensures risen { IfOk result (HasRisen client ballots (R.own_log recorder).opening (S.StableRecord.failures_of stable) (L.given link)) }
        ensures ended { IfErr result (λ e. ClientEndsFrom e.fault 0 (R.own_log e.recorder) (S.StableRecord.stuck_of e.stable) (S.StableRecord.spent_of e.stable) (S.StableRecord.failures_of stable) (S.StableRecord.failures_of e.stable)) }
        ensures own { IfErr result (λ e. FindsItsOwn (part_now (R.own_log e.recorder)) (S.StableRecord.finds e.stable)) }
        ensures back { IfErr result (λ e. (R.own_log e.recorder ≡ R.own_log recorder) × (e.link ≡ link)) }
    {
        let (mut stable, mut recorder) = (stable, recorder);
        match rise(client, ballots, &mut stable, &mut recorder) {
            Ok(progress) => Ok(Session {
                client,
                ballots,
                progress,
                stable,
                recorder,
                link,
                is_left: false,
                ended: None,
            }),
            Err(fault) => Err(NotRisen {
                fault,
                stable,
                recorder,
                link,
            }),
        }
    }

    /// The session's client, whose own log it is.
    pub fn client(&self) -> ClientId
        ensures client { result ≡ self.now.client }
        ensures whose { self.now.log.actor ≡ Actor.Client result }
    {
        self.client
    }

    /// The ballots by whose places it may enter.
    pub fn ballots(&self) -> BallotList
        ensures { result ≡ self.now.ballots }
    {
        self.ballots
    }

    /// The ticket with which it is inside, if it is: so it is while a guard of it lives. A session that is over in
    /// the middle of an attempt has none.
    pub fn ticket(&self) -> Option<Ticket>
        ensures inside { phase_of self.now.core ≡ phase.Inside → result ≡ ticket_of self.now.core }
        ensures outside { (phase_of self.now.core ≡ phase.Inside → ⊥) → result ≡ None }
    {
        match self.progress.core().phase() {
            Phase::Inside => self.progress.core().ticket(),
            Phase::Idle | Phase::Chosen | Phase::Asking => None,
        }
    }

    /// The fault by which the session is over, if it is.
    pub fn ended(&self) -> Option<RunFault>
        ensures { result ≡ self.now.over }
    {
        self.ended
    }

    /// The core leaves, where it is inside.
    pub(crate) fn go_out(&mut self)
        ensures { GoesOut self.old self.new }
    {
        if let Phase::Inside = self.progress.core().phase() {
            self.progress.go_out();
            self.is_left = true;
        }
    }

    /// Says that the core has left.
    #[tactic(auto, using(crate::proofs::Steps::leaving))]
    fn say_leave<W: Wait>(&mut self, rt: &W, alloc: Global) -> Result<(), RunFault>
        requires on { self.old.over ≡ None }
        requires left { self.old.left ≡ true }
        ensures settles { Settles self.old self.new }
        ensures says { Saying result self.old self.new }
        ensures released { OnOk result (HasReleased self.new) }
        ensures outside { IsOutside self.new }
    {
        let told = leave(
            rt,
            alloc,
            &mut self.progress,
            &self.stable,
            &mut self.recorder,
            &mut self.link,
        );
        self.is_left = false;
        if let Err(fault) = told {
            self.ended = over_by(fault);
        }
        told
    }

    /// Says what a dropped guard has left to say, if there is anything: logs that the client has left, and says
    /// its release to each node that it asked, until each has answered or is gone. Each call that enters begins
    /// with it.
    ///
    /// # Errors
    ///
    /// The attempt had its last nudge (913), and then the session has left, and rests; the session was over by
    /// this fault, and nothing is done; memory was refused (914), or the book is full or another's (915), and
    /// then it is over.
    #[tactic(auto, using(crate::proofs::Steps::settling))]
    pub fn settle<W: Wait>(&mut self, rt: &W, alloc: Global) -> Result<(), RunFault>
        ensures settles { Settles self.old self.new }
        ensures says { Saying result self.old self.new }
        ensures settled { OnOk result (HasSettled self.old self.new) }
        ensures nothing { StaysIfNothingLeft result self.old self.new }
        ensures outside { IsOutsideUnlessOver self.old self.new }
    {
        if let Some(fault) = self.ended {
            return Err(fault);
        }
        self.go_out();
        if !self.is_left {
            return Ok(());
        }
        self.say_leave(rt, alloc)
    }

    /// Says the release of the last attempt to each of these nodes, until each has answered or is gone.
    #[tactic(auto, using(crate::proofs::EndFacts::releasing_ends))]
    fn say_release<W: Wait>(
        &mut self,
        rt: &W,
        alloc: Global,
        nodes: NodeSet,
        nudges: u32,
    ) -> Result<(), RunFault>
        requires rests { IsResting self.old }
        ensures releases { Releases self.old self.new }
        ensures says { Saying result self.old self.new }
        ensures released { OnOk result (HasReleasedLast nodes self.old self.new) }
    {
        let told = release_at(
            rt,
            alloc,
            nodes,
            nudges,
            &mut self.progress,
            &self.stable,
            &mut self.recorder,
            &mut self.link,
        );
        if let Err(fault) = told {
            self.ended = over_by(fault);
        }
        told
    }

    /// Says the release of the client's last attempt to each of these nodes, until each has answered or is gone. First it
    /// says what a dropped guard has left to say, as `settle` does. If the client has made no attempt it says nothing.
    ///
    /// A client that has restarted so releases the votes that it held before. It may also say a release again that a
    /// node has not answered.
    ///
    /// # Errors
    ///
    /// The call had its last nudge (913), and then the session rests. The session was over by this fault, and nothing is
    /// done. It ran out of memory (914), or the book is full or another's (915), and then it is over.
    #[tactic(auto, using(crate::proofs::Steps::releasing))]
    pub fn release_at<W: Wait>(
        &mut self,
        rt: &W,
        alloc: Global,
        nodes: NodeSet,
        nudges: u32,
    ) -> Result<(), RunFault>
        ensures releases { Releases self.old self.new }
        ensures says { Saying result self.old self.new }
        ensures released { OnOk result (HasReleasedAt nodes self.old self.new) }
    {
        self.settle(rt, alloc)?;
        self.say_release(rt, alloc, nodes, nudges)
    }

    /// The nodes to which something was sent in the present attempt, or whose release was asked for last.
    pub fn asked(&self) -> NodeSet
        ensures { result ≡ self.now.asked }
    {
        self.progress.asked()
    }

    /// Those of the nodes `asked` that have answered the release.
    pub fn released(&self) -> NodeSet
        ensures { result ≡ self.now.released }
    {
        self.progress.released()
    }

    /// Expects each node again: a node that was gone is asked again by the next call.
    pub fn expect_all(&mut self)
        ensures { self.new ≡ record self.old { gone = [] } }
    {
        self.progress.expect_all();
    }

    /// Asks for a use and is inside; whether it is.
    #[tactic(auto, using(crate::proofs::EndFacts::entering_ends))]
    fn ask<W: Wait>(
        &mut self,
        rt: &W,
        alloc: Global,
        mode: Mode,
        resource: ResourceName,
        place: u8,
        patience: Patience,
    ) -> Result<bool, RunFault>
        requires rests { IsResting self.old }
        requires placed { HasPlace self.old.ballots place }
        ensures entered { result ≡ Ok true → Enters (use_by mode resource place) patience.nudges self.old self.new }
        ensures inside { result ≡ Ok true → IsInsideFor (use_by mode resource place) self.new }
        ensures back { result ≡ Ok false → TakesBack (use_by mode resource place) patience.nudges self.old self.new }
        ensures waits { result ≡ Ok false → patience.waits ≡ false }
        ensures ended { IfErr result (λ f. EndsEntering (use_by mode resource place) patience.nudges f self.old self.new) }
    {
        let wish = Wish {
            client: self.client,
            mode,
            resource,
            place,
            soften: false,
        };
        let asked = enter(
            rt,
            alloc,
            &wish,
            patience,
            &mut self.progress,
            &mut self.stable,
            &mut self.recorder,
            &mut self.link,
            &OpenGate,
        );
        match asked {
            Ok(true) => {
                self.progress.go_in();
                Ok(true)
            }
            Ok(false) => Ok(false),
            Err(fault) => {
                self.ended = over_by(fault);
                Err(fault)
            }
        }
    }

    /// Says what is left to say, asks for a use and is inside; whether it is.
    #[tactic(auto, using(crate::proofs::Steps::entering))]
    pub(crate) fn come_in<W: Wait>(
        &mut self,
        rt: &W,
        alloc: Global,
        mode: Mode,
        resource: ResourceName,
        place: u8,
        patience: Patience,
    ) -> Result<bool, RunFault>
        requires placed { HasPlace self.old.ballots place }
        ensures entered { result ≡ Ok true → Enters (use_by mode resource place) patience.nudges self.old self.new }
        ensures inside { result ≡ Ok true → IsInsideFor (use_by mode resource place) self.new }
        ensures back { result ≡ Ok false → TakesBack (use_by mode resource place) patience.nudges self.old self.new }
        ensures waits { result ≡ Ok false → patience.waits ≡ false }
        ensures ended { IfErr result (λ f. EndsEntering (use_by mode resource place) patience.nudges f self.old self.new) }
    {
        self.settle(rt, alloc)?;
        self.ask(rt, alloc, mode, resource, place, patience)
    }

    /// Comes in. If nobody else is known to want a lock, it asks several nodes at once. If one of them lets it wait, it takes
    /// that back, notes it, and asks one node after another.
    #[tactic(auto, using(crate::proofs::SoonFacts::placed_still))]
    pub(crate) fn come_in_soon<W: Wait>(
        &mut self,
        rt: &W,
        alloc: Global,
        mode: Mode,
        resource: ResourceName,
        place: u8,
        nudges: u32,
        crowd: &mut Crowd,
    ) -> Result<(), RunFault>
        requires placed { HasPlace self.old.ballots place }
        ensures entered { OnOk result (Enters (use_by mode resource place) nudges self.old self.new) }
        ensures inside { OnOk result (IsInsideFor (use_by mode resource place) self.new) }
        ensures ended { IfErr result (λ f. EndsEntering (use_by mode resource place) nudges f self.old self.new) }
        ensures noted { Notes (use_by mode resource place) nudges self.old crowd.old crowd.new }
    {
        let waits = !crowd.asks_at_once();
        let resource = &resource;
        if self.come_in(
            rt,
            alloc,
            mode,
            *resource,
            place,
            Patience { nudges, waits },
        )? {
            return Ok(());
        }
        crowd.note();
        let patience = Patience {
            nudges,
            waits: true,
        };
        if !self.come_in(rt, alloc, mode, *resource, place, patience)? {
            unreachable!()
        }
        Ok(())
    }

    /// Goes on inside as a reader, where it is inside as a writer.
    #[tactic(auto, using(crate::proofs::Steps::softening))]
    pub(crate) fn soften(&mut self, alloc: Global) -> Result<(), RunFault>
        ensures still { (t : TicketValue) → IsInside self.old t → IsInsideStill t self.new }
        ensures softened { OnOk result ((t : TicketValue) → IsInside self.old t → t.mode ≡ Write → IsInside self.new (softened_ticket t) × Softens self.old self.new) }
        ensures on { OnOk result (self.old.over ≡ None) }
        ensures ended { IfErr result (λ f. EndsSoftening f self.old self.new) }
    {
        if let Some(fault) = self.ended {
            return Err(fault);
        }
        if self.is_left || !self.progress.core().may_soften() {
            return Ok(());
        }
        let told = soften(
            alloc,
            &mut self.progress,
            &self.stable,
            &mut self.recorder,
            &mut self.link,
        );
        match told {
            Ok(()) => Ok(()),
            Err(fault) => {
                self.ended = over_by(fault);
                Err(fault)
            }
        }
    }

    /// What the session owned. It has to be at rest, or over, for its log to be told whole. However the session
    /// ended, a restart finds in the record nothing but what the client has kept and what it tries to keep.
    pub fn into_parts(self) -> (S, R, L)
        ensures log { R.own_log result.1 ≡ self.log }
        ensures whose { ((R.own_log result.1).actor ≡ Actor.Client self.client) × ((R.own_log result.1).ballots ≡ self.ballots) }
        ensures own { FindsItsOwn (part_now (R.own_log result.1)) (S.StableRecord.finds result.0) }
        ensures stable { AnswersAs self (S.StableRecord.finds result.0) (S.StableRecord.stuck_of result.0) (S.StableRecord.spent_of result.0) (S.StableRecord.failures_of result.0) }
        ensures given { L.given result.2 ≡ self.given }
    {
        let Session {
            stable,
            recorder,
            link,
            ..
        } = self;
        (stable, recorder, link)
    }
}

impl<S: OwnRecord, R: SharedRecorder, L: Link> Session<S, R, L> {
    /// Whether the clients of both sessions are inside one resource, as their own logs tell it.
    pub(crate) fn meet(&mut self, other: &mut Session<S, R, L>) -> Result<bool, LogFault>
        ensures one { self.new ≡ self.old }
        ensures other { other.new ≡ other.old }
        ensures met { IfOk result (λ met. HaveMet met self.old.log other.old.log self.new.log other.new.log) }
        ensures err { IfErr result (λ f. f ≡ LogFault.OtherBook) }
    {
        self.recorder.meet(&mut other.recorder)
    }

    /// The tickets of the clients that are inside the resource, in the order of the clients, as a history has
    /// it in which this client is as its own log tells; a writer among them is the only one. (That it is the one history
    /// of all, as it is when it is asked, is told by a berth and by no own log.) Nothing of the session changes. It waits
    /// for the lock of the book.
    ///
    /// # Errors
    ///
    /// The session's berth is another book's (815), or memory was refused (813).
    pub fn inside(&mut self, resource: &ResourceName) -> Result<Vec<Ticket>, LogFault>
        ensures same { self.new ≡ self.old }
        ensures seen { IfOk result (λ tickets. HasSeenInside self.old.log resource.now tickets.items self.new.log) }
        ensures err { IfErr result (λ f. (f ≡ LogFault.OtherBook) ⊎ (f ≡ LogFault.Memory)) }
    {
        self.recorder.inside(resource)
    }
}
