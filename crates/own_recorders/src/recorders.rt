// A recorder that writes what it logs.

ghost use Rattle.std.specs.Prelude.{◌≡◌, true, false, None, Some, [], IfOk, OnErr, IfErr, string_bytes};
ghost use Rattle.lock_messages.specs.Messages.{is_for};
ghost use Rattle.world_model.specs.Parts.{is_own, own_refusal};
ghost use Rattle.event_recorders.specs.OwnLogs.{IsDownAtRest, part_now, reads};
ghost use Rattle.merge_model.specs.OwnRuns.{IsOwnRun};
ghost use Rattle.journal_merge.specs.LineMerges.{TellsLines};
ghost use Rattle.own_recorders.specs.OwnTurns.{ComesWith, HasTurned};
ghost use Rattle.own_recorders.specs.OwnJournals.{HoldsLog, IsAllowedSomewhere, IsLine, IsRead, Logs, event_line, log_lines, next_line};

use crate::lines::{life_line, plain_line, reading_line};
use crate::messages::is_message;
use crate::{BatchJournal, OwnActor};
use event_lists::EventList;
use event_recorders::laws::own_logs_tell_parts;
use event_recorders::{LogFault, Recorder};
use line_streams::write_text;
use lock_messages::{Actor, Message};
use stable_record::StableRecord;
use std::alloc::{AllocError, Global};
use std::io::{self, Write};
use std::marker::Model;
use vote_weights::BallotList;
use world_model::{Effect, Event, StepFault};

/// The recorder of one actor in a process of its own.
///
/// It steps the actor, and writes the line of each event before it returns the effect. The first event is the actor's
/// rise. Its line opens the life, and has the bytes that the actor has kept in its record. After a write has failed the
/// recorder takes nothing more.
///
/// Contracts see the log, the bytes that the journal's writer held before and holds now, if they are known, and whether
/// the recorder takes nothing more. It holds no list, and takes memory for one line at a time.
#[derive(Drop)]
pub struct OwnRecorder<K: OwnActor, W: Write + Drop> {
    alloc: Global,
    actor: K,
    journal: W,
    opened: EventList<K, W>,
    made: EventList<Event, Effect>,
    is_begun: bool,
    is_stuck: bool,
}

impl<K: OwnActor, W: Write + Drop> Model for OwnRecorder<K, W> {
    ghost use Rattle.own_recorders.specs.OwnJournals.{OwnKeeper, IsKeeping, keeper_of};

    ghost Value = { OwnKeeper };

    ghost view = { λ r. keeper_of K.actor K.ballots K.part W.contents r.actor r.journal r.opened.items r.made.items r.is_stuck };

    ghost invariant = { λ r. IsKeeping (keeper_of K.actor K.ballots K.part W.contents r.actor r.journal r.opened.items r.made.items r.is_stuck) r.is_begun (K.part r.actor) };
}

/// The line of an event that may happen now, and of the message that it reads, if it reads one. The only error is
/// running out of memory.
fn line_of(
    alloc: Global,
    who: &Actor,
    event: &Event,
    read: &Option<Message>,
    list: &BallotList,
) -> Result<String, AllocError>
    requires carried { ComesWith who.now event.now read.now }
    requires allowed { IsAllowedSomewhere list.now event.now }
    ensures { IfOk result (λ line. IsLine (event_line who.now event.now read.now) (string_bytes line)) }
{
    match read {
        None => plain_line(alloc, event, list),
        Some(message) => reading_line(alloc, who, message),
    }
}

/// The actor takes its turn. The only error is running out of memory (613). It changes nothing.
fn take_turn<K: OwnActor>(
    actor: &mut K,
    event: Event,
    read: &Option<Message>,
) -> Result<Effect, StepFault>
    requires own { is_own (K.actor actor.old) event ≡ true }
    requires carried { ComesWith (K.actor actor.old) event read.now }
    requires allowed { own_refusal (K.ballots actor.old) event (K.part actor.old) ≡ None }
    ensures actor { K.actor actor.new ≡ K.actor actor.old }
    ensures ballots { K.ballots actor.new ≡ K.ballots actor.old }
    ensures turned { IfOk result (λ done. HasTurned (K.ballots actor.old) (K.part actor.old) event read.now done (K.part actor.new)) }
    ensures refused { OnErr result (K.part actor.new ≡ K.part actor.old) }
{
    match read {
        None => actor.act(event),
        Some(message) => actor.read(event, message),
    }
}

impl<K: OwnActor, W: Write + Drop> OwnRecorder<K, W> {
    /// The recorder of an actor. Its log opens with the actor's part as it is now. Its journal goes on after the bytes
    /// that the writer holds.
    ///
    /// The caller owes an actor that is down with nothing tried, so that its first event is its rise.
    pub fn over(alloc: Global, actor: K, journal: W) -> OwnRecorder<K, W>
        requires { IsDownAtRest (K.actor actor) (K.part actor) }
        ensures log { result.log ≡ record { actor = K.actor actor; ballots = K.ballots actor; opening = K.part actor; events = [] } }
        ensures before { result.before ≡ W.contents journal }
        ensures written { result.written ≡ W.contents journal }
        ensures free { result.stuck ≡ false }
    {
        let opened = EventList::new().and(&actor, &journal);
        OwnRecorder {
            alloc,
            actor,
            journal,
            opened,
            made: EventList::new(),
            is_begun: false,
            is_stuck: false,
        }
    }

    /// Shows what holds of the log and its journal at every moment. It computes nothing.
    ///
    /// The log is an own run, the journal has its lines, and these lines tell the log.
    #[tactic(auto, using(crate::proofs::ToldFacts::lines_tell_runs))]
    pub fn tell(&self)
        ensures run { IsOwnRun self.now.log.ballots self.now.log.actor self.now.log.opening self.now.log.events }
        ensures journal { HoldsLog self.now.stuck self.now.log self.now.before self.now.written }
        ensures told { TellsLines self.now.log.ballots self.now.log.actor self.now.log.opening (log_lines self.now.log) self.now.log.events }
    {
        let _is_stuck = self.is_stuck;
    }

    /// The writer of the journal.
    pub fn into_journal(self) -> W
        ensures writer { W.contents result ≡ self.written }
        ensures journal { HoldsLog self.stuck self.log self.before (W.contents result) }
    {
        self.journal
    }

    /// The line that the next event gets. The only error is running out of memory.
    fn next_line(&self, event: &Event, read: &Option<Message>) -> Result<String, AllocError>
        requires free { self.now.stuck ≡ false }
        requires carried { ComesWith self.now.log.actor event.now read.now }
        requires allowed { own_refusal self.now.log.ballots event.now (part_now self.now.log) ≡ None }
        ensures { IfOk result (λ line. IsLine (next_line self.now.log event.now read.now) (string_bytes line)) }
    {
        let who = self.actor.who();
        if self.is_begun {
            let list = self.actor.list();
            return line_of(self.alloc, &who, event, read, &list);
        }
        let found = self.actor.record(self.alloc)?;
        life_line(self.alloc, &who, found.as_slice())
    }

    /// Takes the turn of an event, and writes its line before it returns.
    fn add(&mut self, event: Event, read: Option<Message>) -> Result<Effect, LogFault>
        requires own { is_own self.old.log.actor event ≡ true }
        requires good { IsRead read }
        requires carried { ComesWith self.old.log.actor event read }
        requires allowed { own_refusal self.old.log.ballots event (part_now self.old.log) ≡ None }
        ensures { Logs self.old event read self.new result }
    {
        if self.is_stuck {
            return Err(LogFault::Full);
        }
        own_logs_tell_parts();
        let Ok(line) = self.next_line(&event, &read) else {
            return Err(LogFault::Memory);
        };
        let Ok(done) = take_turn(&mut self.actor, event, &read) else {
            return Err(LogFault::Memory);
        };
        let Ok(()) = write_text(&mut self.journal, line.as_bytes()) else {
            self.is_stuck = true;
            return Err(LogFault::Full);
        };
        self.made = self.made.and(&event, &done);
        self.is_begun = true;
        Ok(done)
    }

    /// Logs an event that reads no message: the actor takes the turn, and the event's line is written.
    ///
    /// The caller owes that the event is the actor's and that its own log allows it. An error leaves the log as it was.
    /// Running out of memory (813) writes nothing. If the write of the line fails, a beginning of the line may be
    /// written, and the recorder takes nothing more (812, now and in all later calls).
    /// It is a call of its own, because the checker takes no further clauses at a method of the trait.
    pub fn log_event(&mut self, event: Event) -> Result<Effect, LogFault>
        requires own { is_own self.old.log.actor event ≡ true }
        requires allowed { own_refusal self.old.log.ballots event (part_now self.old.log) ≡ None }
        requires plain { reads event ≡ false }
        ensures { Logs self.old event None self.new result }
    {
        self.add(event, None)
    }

    /// Logs that the actor takes or hears this message: the actor takes the turn, and the line with the message's frame
    /// is written.
    ///
    /// The caller owes what `log_event` asks for, and that the message is for the actor. The errors are those of
    /// `log_event`.
    pub fn log_message(&mut self, event: Event, message: &Message) -> Result<Effect, LogFault>
        requires own { is_own self.old.log.actor event ≡ true }
        requires allowed { own_refusal self.old.log.ballots event (part_now self.old.log) ≡ None }
        requires reading { reads event ≡ true }
        requires addressed { is_for self.old.log.actor message.now ≡ true }
        ensures { Logs self.old event (Some message.now) self.new result }
    {
        is_message(message);
        self.add(event, Some(*message))
    }
}

impl<K: OwnActor, W: BatchJournal + Drop> OwnRecorder<K, W> {
    /// Lets out the lines that the journal holds back, before the actor keeps this record. After an error some of them may
    /// be out.
    pub fn let_out(&mut self, next: &[u8]) -> io::Result<()>
        ensures { self.new ≡ self.old }
    {
        self.journal.let_out(next)
    }
}

impl<K: OwnActor, W: Write + Drop> Recorder for OwnRecorder<K, W> {
    ghost own_log = { λ r. r.log };

    /// Logs an event as `log_event` does. A Take or a Hear without its message is refused (811 with 607), because there
    /// is no list of messages here.
    fn log(&mut self, event: Event, stable: &dyn StableRecord) -> Result<Effect, LogFault> {
        let _ = stable;
        if let Event::Take(..) | Event::Hear(..) = event {
            return Err(LogFault::NotAStep(StepFault::NoSuchMessage));
        }
        self.log_event(event)
    }

    /// Logs that the actor takes or hears the message, as `log_message` does.
    fn log_reading(
        &mut self,
        event: Event,
        message: &Message,
        stable: &dyn StableRecord,
    ) -> Result<Effect, LogFault> {
        let _ = stable;
        self.log_message(event, message)
    }
}
