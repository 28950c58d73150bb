// A journal, read line by line.

ghost use Rattle.std.specs.Prelude.{◌≡◌, ◌==◌, ◌⊎◌, Some, IfOk, IfErr, OnOk};
ghost use Rattle.own_journals.specs.declared.lines.OwnLine.{OwnLine as LineValue};
ghost use Rattle.world_model.specs.Parts.{place};
ghost use Rattle.journal_merger.specs.Merges.{IsMergeFault};
ghost use Rattle.journal_merger.specs.Judging.{IsJudgeFault};
ghost use Rattle.journal_merger.specs.Pendings.{IsNoText, IsOnlyText, IsReadFault, IsSpelledBy, ReadsNext, journals_fault_of, owner, is_others, one_more};

use crate::JournalsFault;
use line_merger::Refusal;
use line_streams::{End, LineReader, StreamFault};
use lock_messages::Actor;
use own_journals::{OwnLine, OwnLineFault, read_own_line};
use std::alloc::Global;
use std::io::Read;
use std::marker::Model;

/// The most bytes of a line: a record of 60,000 bytes in hexadecimal digits, and the words before it. What was cut off
/// before a life counts with it.
pub const MAX_OWN_LINE_LEN: usize = 120_064;

/// The journal of one actor, of which one line is read ahead.
#[derive(Drop)]
pub struct OwnJournal<R: Read> {
    pub(crate) source: LineReader<R>,
    pub(crate) who: Actor,
    pub(crate) next: Option<OwnLine>,
    // How many lines were read.
    pub(crate) number: u64,
    // The text of a line.
    pub(crate) piece: Vec<u8>,
    // Whether that is the text of the next line. If the line says an event, it is the event's text.
    pub(crate) spelled: bool,
    // Why the actor refuses the next line, if that was found.
    pub(crate) refusal: Option<Refusal>,
}

impl<R: Read> Model for OwnJournal<R> {
    ghost use Rattle.journal_merger.specs.Pendings.{Pending, MaySpell};

    ghost Value = { Pending };

    ghost view = { λ j. record { who = j.who; number = j.number; next = j.next; rest = j.source; refusal = j.refusal } };

    ghost invariant = { λ j. MaySpell j.spelled j.piece.items j.next };
}

/// Whose line it is.
pub fn owner(line: &OwnLine) -> Actor
    ensures { result ≡ owner line.now }
{
    match line {
        OwnLine::Life(who, _) => *who,
        OwnLine::Reads(who, _) => *who,
        OwnLine::Does(event) => event.actor(),
    }
}

/// A number for each actor, of which no other has the same.
fn place(actor: &Actor) -> u32
    ensures { result ≡ place actor.now }
{
    match *actor {
        Actor::Node(id) => 2 * u32::from(id.get()),
        Actor::Client(id) => 2 * u32::from(id.get()) + 1,
    }
}

/// Whether the two are one actor.
pub fn is_same(one: &Actor, other: &Actor) -> bool
    ensures { result ≡ (place one.now == place other.now) }
{
    place(one) == place(other)
}

/// Why the bytes were read as no line.
fn no_text(fault: OwnLineFault) -> JournalsFault
    ensures { result ≡ journals_fault_of fault }
{
    match fault {
        OwnLineFault::NoLine => JournalsFault::NoLine,
        OwnLineFault::Memory => JournalsFault::Memory,
    }
}

/// The line that the bytes spell.
fn whole_line(alloc: Global, bytes: &[u8]) -> Result<Option<OwnLine>, JournalsFault>
    ensures line { IfOk result (λ next. (l : LineValue) × (next ≡ Some l) × IsOnlyText bytes.now l) }
    ensures spelled { IfOk result (λ next. IsSpelledBy bytes.now next) }
    ensures fault { IfErr result (λ f. IsNoText bytes.now f) }
{
    match read_own_line(alloc, bytes) {
        Ok(line) => Ok(Some(line)),
        Err(fault) => Err(no_text(fault)),
    }
}

/// Why no line was read.
fn no_line(fault: StreamFault) -> JournalsFault
    ensures { (result ≡ JournalsFault.Read) ⊎ (result ≡ JournalsFault.Memory) }
{
    match fault {
        StreamFault::Memory => JournalsFault::Memory,
        StreamFault::Read | StreamFault::Write => JournalsFault::Read,
    }
}

/// Reads the next line of a text, and leaves its bytes in `piece`: if it says an event, the event's text.
pub fn read_next<R: Read>(
    alloc: Global,
    source: &mut LineReader<R>,
    piece: &mut Vec<u8>,
) -> Result<Option<OwnLine>, JournalsFault>
    ensures next { IfOk result (λ next. ReadsNext source.old next source.new) }
    ensures spelled { IfOk result (λ next. IsSpelledBy piece.new.items next) }
    ensures fault { IfErr result (λ f. IsReadFault source.old f) }
{
    let end = match source.read_line(piece, MAX_OWN_LINE_LEN) {
        Ok(end) => end,
        Err(fault) => return Err(no_line(fault)),
    };
    match end {
        End::LineFeed => whole_line(alloc, piece.as_slice()),
        End::Input => Ok(None),
        End::Limit => Err(JournalsFault::NoLine),
    }
}

/// Whether the next line is of another actor.
fn is_others(next: &Option<OwnLine>, who: &Actor) -> bool
    ensures { result ≡ is_others next.now who.now }
{
    match next {
        Some(line) => !is_same(&owner(line), who),
        None => false,
    }
}

impl<R: Read> OwnJournal<R> {
    /// Reads the next line, in place of the one that was read before.
    pub(crate) fn advance(&mut self, alloc: Global) -> Result<(), JournalsFault>
        ensures who { self.new.who ≡ self.old.who }
        ensures refusal { self.new.refusal ≡ self.old.refusal }
        ensures next { OnOk result (ReadsNext self.old.rest self.new.next self.new.rest) }
        ensures number { OnOk result (self.new.number ≡ one_more self.old.number) }
        ensures fault { IfErr result (λ f. IsMergeFault f) }
        ensures read { IfErr result (λ f. IsJudgeFault f) }
    {
        self.spelled = false;
        let next = match read_next(alloc, &mut self.source, &mut self.piece) {
            Ok(next) => next,
            Err(fault) => return Err(fault),
        };
        if is_others(&next, &self.who) {
            return Err(JournalsFault::OtherActor);
        }
        self.next = next;
        self.spelled = true;
        self.number = self.number.saturating_add(1);
        Ok(())
    }
}
