// The journals that are merged.

ghost use Rattle.std.specs.Prelude.{◌≡◌, ◌==◌, ◌<◌, ℕ, true, false, [], length, slice_get, Some, IfErr, OnOk, OnErr};
ghost use Rattle.std.specs.List.{flat_map};
ghost use Rattle.journal_text.specs.Journals.{event_line};
ghost use Rattle.world_model.specs.Parts.{place};
ghost use Rattle.journal_merger.specs.Merges.{Gathers, IsMergeFault};
ghost use Rattle.journal_merger.specs.Pendings.{Pending, Adds, AreApart, HasActor, IsAddFault, IsNextLine, IsRead, told_of};

use crate::JournalsFault;
use crate::reading::{OwnJournal, is_same, owner, read_next};
use line_merger::{Refusal, Taken};
use line_streams::{Gathered, LineReader, MAX_READS};
use lock_messages::Actor;
use own_journals::OwnLine;
use std::alloc::Global;
use std::io::{Read, Write};
use std::marker::Model;

/// The next line of a journal.
#[derive(Clone, Copy, Debug)]
pub struct LineLeft<'a> {
    /// Whose journal it is.
    pub who: Actor,
    /// How many lines of the journal were read with it.
    pub number: u64,
    /// What it says.
    pub line: &'a OwnLine,
    /// Why its actor refuses it. If the journals have no merge and there is no refusal, nobody said what it reads.
    pub refusal: Option<Refusal>,
}

/// The journals that are to be merged, each of another actor.
///
/// Contracts see what is left of each.
#[derive(Drop)]
pub struct Journals<R: Read> {
    alloc: Global,
    pub(crate) journals: Vec<OwnJournal<R>>,
}

impl<R: Read> Model for Journals<R> {
    ghost use Rattle.std.specs.Prelude.{List};
    ghost use Rattle.journal_merger.specs.Pendings.{Pending, AreApart};

    ghost Value = { List Pending };

    ghost view = { λ s. s.journals.items };

    ghost invariant = { λ s. AreApart s.journals.items };
}

/// Whether one of the journals is the actor's.
fn has<R: Read>(journals: &[OwnJournal<R>], who: &Actor) -> bool
    ensures none { result ≡ false → (i : ℕ) (p : Pending) → slice_get journals.now i ≡ Some p → (place p.who == place who.now) ≡ false }
    ensures one { result ≡ true → HasActor journals.now who.now }
{
    for journal in journals {
        if is_same(&journal.who, who) {
            return true;
        }
    }
    false
}

impl<R: Read> Journals<R> {
    /// No journals. It takes no memory.
    pub fn new(alloc: Global) -> Journals<R>
        ensures { result ≡ [] }
    {
        Journals {
            alloc,
            journals: Vec::new(alloc),
        }
    }

    /// Tells that no two journals are of one actor. It computes nothing.
    pub(crate) fn tell_apart(&self)
        ensures { AreApart self.now }
    {
        let _count = self.journals.len();
    }

    /// How many journals there are.
    pub fn count(&self) -> usize
        ensures { result ≡ length self.now }
    {
        self.journals.len()
    }

    /// The journals, in the order in which they were added.
    pub(crate) fn all(&self) -> &[OwnJournal<R>]
        ensures { result.now ≡ self.now }
    {
        self.journals.as_slice()
    }

    /// Writes the events of the line that was taken of the journal at this index, and reads its next line.
    pub(crate) fn go_on<W: Write>(
        &mut self,
        index: usize,
        taken: &Taken,
        out: &mut Gathered,
        writer: &mut W,
    ) -> Result<(), JournalsFault>
        requires { index < length self.old }
        ensures read { OnOk result (IsRead index self.old self.new) }
        ensures text { Gathers (W.contents writer.old) (W.contents writer.new) out.old out.new (flat_map event_line (told_of (slice_get self.old index) taken.now)) result }
        ensures fault { IfErr result (λ f. IsMergeFault f) }
    {
        match self.journals[index].put_taken(self.alloc, taken, out, writer) {
            Ok(()) => {}
            Err(fault) => return Err(fault),
        }
        self.journals[index].advance(self.alloc)
    }

    /// The next line of the journal at this index, if it has one.
    pub fn next_line(&self, index: usize) -> Option<LineLeft<'_>>
        ensures { IsNextLine self.now index result }
    {
        let journal = self.journals.get(index)?;
        let line = journal.next.as_ref()?;
        Some(LineLeft {
            who: journal.who,
            number: journal.number,
            line,
            refusal: journal.refusal,
        })
    }
}

impl<R: Read + Drop> Journals<R> {
    /// Adds the journal of this reader, and reads its first line, which says whose it is.
    ///
    /// # Errors
    ///
    /// `NoActor` (951) if the journal has no line, `SameActor` (952) if another one is the same actor's, `NoLine` (953)
    /// if its first line is none, `Read` (956), and `Memory` (958). Then no journal was added.
    pub fn add(&mut self, reader: R) -> Result<(), JournalsFault>
        ensures added { OnOk result (Adds self.old (R.remaining reader) self.new) }
        ensures same { OnErr result (self.new ≡ self.old) }
        ensures fault { IfErr result (λ f. IsAddFault self.old (R.remaining reader) f) }
    {
        let mut source = LineReader::new(reader, MAX_READS);
        let mut piece = Vec::new(self.alloc);
        let next = match read_next(self.alloc, &mut source, &mut piece) {
            Ok(next) => next,
            Err(fault) => return Err(fault),
        };
        let line = match next {
            Some(line) => line,
            None => return Err(JournalsFault::NoActor),
        };
        let who = owner(&line);
        if has(self.journals.as_slice(), &who) {
            return Err(JournalsFault::SameActor);
        }
        let journal = OwnJournal {
            source,
            who,
            next: Some(line),
            number: 1,
            piece,
            spelled: true,
            refusal: None,
        };
        match self.journals.push(journal) {
            Ok(()) => Ok(()),
            Err(_) => Err(JournalsFault::Memory),
        }
    }
}
