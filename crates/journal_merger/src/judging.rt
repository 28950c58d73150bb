// Judging, line by line: whether journals have a merge, however many messages they say.

ghost use Rattle.std.specs.Prelude.{◌≡◌, ◌<◌, length, IfOk, IfErr, OnOk};
ghost use Rattle.line_merger.specs.Judging.{IsOf};
ghost use Rattle.world_model.specs.declared.exact.ExactWorld.{ExactWorld};
ghost use Rattle.journal_merger.specs.Judging.{IsFound, IsJudgeFault, IsTurn, IsWithin, Judges, turn_of};
ghost use Rattle.journal_merger.specs.Merges.{Goes, IsGoing};
ghost use Rattle.journal_merger.specs.Pendings.{IsRead};

use crate::finding::{Found, Turn};
use crate::merging::{MAX_LINES, Outcome};
use crate::reading::OwnJournal;
use crate::{Failure, Journals, JournalsFault};
use journal_merge::laws::judging_is_exact;
use line_merger::{Judge, Offer};
use lock_messages::Actor;
use own_journals::OwnLine;
use std::alloc::{AllocError, Global};
use std::io::Read;
use world_machine::World;

/// What comes of a line that was taken, waits or is refused.
fn turn_of(offer: Offer) -> Turn
    ensures { result ≡ turn_of offer }
{
    match offer {
        Offer::Took(taken) => Turn::Took(taken),
        Offer::Waits => Turn::Waits,
        Offer::Refused(why) => Turn::Refused(why),
    }
}

/// Takes this line of the actor, if there is one.
fn judge_next(judge: &mut Judge, who: &Actor, next: &Option<OwnLine>) -> Result<Turn, AllocError>
    ensures { (w : ExactWorld) → IsOf judge.old w → IfOk result (λ t. (v : ExactWorld) × IsTurn w who.now next.now t v × (IsGoing t → IsOf judge.new v)) }
{
    match next {
        Some(line) => match judge.take(who, line) {
            Ok(offer) => Ok(turn_of(offer)),
            Err(fault) => Err(fault),
        },
        None => Ok(Turn::Ended),
    }
}

/// Looks for a journal whose next line can be taken, in order, and takes it. It stops at a line that is refused.
fn judge_round<R: Read>(judge: &mut Judge, journals: &[OwnJournal<R>]) -> Result<Found, Failure>
    ensures found { (w : ExactWorld) → IsOf judge.old w → IfOk result (λ f. (v : ExactWorld) × IsFound w journals.now f v × (Goes f → IsOf judge.new v)) }
    ensures within { IfOk result (λ f. IsWithin (length journals.now) f) }
    ensures fault { IfErr result (λ e. IsJudgeFault e.fault) }
{
    let mut waits = false;
    for (index, journal) in journals.iter().enumerate() {
        let Ok(turn) = judge_next(judge, &journal.who, &journal.next) else {
            return Err(Failure {
                journal: index,
                fault: JournalsFault::Memory,
            });
        };
        match turn {
            Turn::Ended => {}
            Turn::Waits => waits = true,
            Turn::Took(taken) => return Ok(Found::Took(index, taken)),
            Turn::Refused(why) => return Ok(Found::Refused(index, why)),
        }
    }
    if waits {
        Ok(Found::Stuck)
    } else {
        Ok(Found::Merged)
    }
}

impl<R: Read> OwnJournal<R> {
    /// Takes the next line if it can be taken, and reads the one after it. Returns whether it was taken. A refusal is
    /// noted, and the line is not offered again.
    fn judge_on(&mut self, alloc: Global, judge: &mut Judge) -> Result<bool, JournalsFault>
        ensures who { self.new.who ≡ self.old.who }
        ensures fault { IfErr result (λ f. IsJudgeFault f) }
    {
        if self.refusal.is_some() {
            return Ok(false);
        }
        let Ok(turn) = judge_next(judge, &self.who, &self.next) else {
            return Err(JournalsFault::Memory);
        };
        match turn {
            Turn::Ended => Ok(false),
            Turn::Waits => Ok(false),
            Turn::Took(_) => match self.advance(alloc) {
                Ok(()) => Ok(true),
                Err(fault) => Err(fault),
            },
            Turn::Refused(why) => {
                self.refusal = Some(why);
                Ok(false)
            }
        }
    }
}

impl<R: Read> Journals<R> {
    /// Reads on in the journal at this index.
    fn pass(&mut self, index: usize, alloc: Global) -> Result<(), JournalsFault>
        requires { index < length self.old }
        ensures read { OnOk result (IsRead index self.old self.new) }
        ensures fault { IfErr result (λ f. IsJudgeFault f) }
    {
        self.journals[index].advance(alloc)
    }

    /// Takes the next line of the journal at this index if it can be taken. Returns whether it was.
    fn judge_at(
        &mut self,
        index: usize,
        alloc: Global,
        judge: &mut Judge,
    ) -> Result<bool, JournalsFault>
        ensures fault { IfErr result (λ f. IsJudgeFault f) }
    {
        if index >= self.journals.len() {
            return Ok(false);
        }
        self.journals[index].judge_on(alloc, judge)
    }

    /// Offers the next line of each journal once. Returns whether one was taken.
    fn judge_once(&mut self, alloc: Global, judge: &mut Judge) -> Result<bool, Failure>
        ensures fault { IfErr result (λ e. IsJudgeFault e.fault) }
    {
        let mut took = false;
        for journal in 0..self.count() {
            match self.judge_at(journal, alloc, judge) {
                Ok(true) => took = true,
                Ok(false) => {}
                Err(fault) => return Err(Failure { journal, fault }),
            }
        }
        Ok(took)
    }

    /// Takes lines as long as one can be taken, though the journals have no merge. Then each line that is left was
    /// refused, or waits for a message that nobody said.
    fn judge_rest(&mut self, alloc: Global, judge: &mut Judge) -> Result<(), Failure>
        ensures fault { IfErr result (λ e. IsJudgeFault e.fault) }
    {
        for _ in 0..MAX_LINES {
            match self.judge_once(alloc, judge) {
                Ok(true) => {}
                Ok(false) => return Ok(()),
                Err(failure) => return Err(failure),
            }
        }
        Ok(())
    }
}

/// Takes lines as long as one can be taken.
fn judge_all<R: Read>(
    alloc: Global,
    judge: &mut Judge,
    journals: &mut Journals<R>,
) -> Result<Outcome, Failure>
    ensures { (w : ExactWorld) → IsOf judge.old w → Judges w journals.old result }
{
    judging_is_exact();
    for lines in 0..MAX_LINES {
        journals.tell_apart();
        let found = match judge_round(judge, journals.all()) {
            Ok(found) => found,
            Err(failure) => return Err(failure),
        };
        match found {
            Found::Took(journal, _) => match journals.pass(journal, alloc) {
                Ok(()) => {}
                Err(fault) => return Err(Failure { journal, fault }),
            },
            Found::Refused(journal, why) => return Ok(Outcome::Stuck(Some((journal, why)))),
            Found::Stuck => return Ok(Outcome::Stuck(None)),
            Found::Merged => return Ok(Outcome::Merged(lines)),
        }
    }
    Err(Failure {
        journal: 0,
        fault: JournalsFault::TooManyLines,
    })
}

/// Says whether the journals have a merge, and writes nothing.
///
/// It takes lines as `merge` does, but it keeps no list of messages. So it also judges journals that say more messages than
/// a list has room for. If it says `Stuck`, the lines that are left can't be taken, and `Journals::next_line` shows them.
///
/// # Errors
///
/// `NoLine` (953), `OtherActor` (954), `Read` (956), `Memory` (958) and `TooManyLines` (959), with the index of the journal
/// at which it was met.
pub fn judge<R: Read>(
    alloc: Global,
    world: World,
    journals: &mut Journals<R>,
) -> Result<Outcome, Failure>
    requires { Unit {0} }
    ensures { Judges world journals.old result }
{
    let Ok(mut judge) = Judge::new(alloc, world) else {
        return Err(Failure {
            journal: 0,
            fault: JournalsFault::Memory,
        });
    };
    let outcome = match judge_all(alloc, &mut judge, journals) {
        Ok(outcome) => outcome,
        Err(failure) => return Err(failure),
    };
    match outcome {
        Outcome::Stuck(why) => match journals.judge_rest(alloc, &mut judge) {
            Ok(()) => Ok(Outcome::Stuck(why)),
            Err(failure) => Err(failure),
        },
        Outcome::Merged(lines) => Ok(Outcome::Merged(lines)),
    }
}
