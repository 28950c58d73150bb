// Whose line can be taken.

ghost use Rattle.std.specs.Prelude.{◌≡◌, IfErr, IfOk};
ghost use Rattle.frame_numbers.specs.FrameNumbers.{IsIndexOf};
ghost use Rattle.journal_merger.specs.Merges.{IsTurn, IsTriedTurn, IsFound, IsFoundAt, IsGoing, IsTryGoing, IsMergeFault, Goes, GoesAt, turn_of, turn_tried};

use crate::reading::OwnJournal;
use crate::{Failure, JournalsFault};
use frame_numbers::FrameNumbers;
use line_merger::{MergeFault, Offer, Refusal, Taken, take_line, try_line};
use lock_messages::Actor;
use own_journals::OwnLine;
use std::io::Read;
use world_machine::Actors;

/// What came of a journal's turn.
#[derive(Clone, Copy, Debug, PartialEq, Eq)]
pub enum Turn {
    /// It has no line left.
    Ended,
    /// Nobody said yet what its next line reads.
    Waits,
    /// Its next line was taken, by these events.
    Took(Taken),
    /// Its actor refuses its next line.
    Refused(Refusal),
}

/// What was found in a round over all journals.
#[derive(Clone, Copy, Debug, PartialEq, Eq)]
pub enum Found {
    /// The next line of the journal at this index was taken, by these events.
    Took(usize, Taken),
    /// The actor of the journal at this index refuses its next line.
    Refused(usize, Refusal),
    /// Each journal that has lines left waits, and one has.
    Stuck,
    /// No journal has a line left.
    Merged,
}

/// What comes of an offer.
fn turn_of(offer: Result<Offer, MergeFault>) -> Result<Turn, JournalsFault>
    ensures { result ≡ turn_of offer }
{
    match offer {
        Ok(Offer::Took(taken)) => Ok(Turn::Took(taken)),
        Ok(Offer::Waits) => Ok(Turn::Waits),
        Ok(Offer::Refused(why)) => Ok(Turn::Refused(why)),
        Err(MergeFault::Full) => Err(JournalsFault::Full),
        Err(MergeFault::Memory) => Err(JournalsFault::Memory),
    }
}

/// Offers this line of the actor, if there is one.
pub(crate) fn offer_next(
    world: &mut Actors,
    numbers: &mut FrameNumbers,
    who: &Actor,
    next: &Option<OwnLine>,
) -> Result<Turn, JournalsFault>
    requires { IsIndexOf numbers.old world.old.sent }
    ensures turn { IfOk result (λ t. IsTurn world.old who.now next.now t world.new) }
    ensures index { IfOk result (λ t. IsGoing t → IsIndexOf numbers.new world.new.sent) }
    ensures fault { IfErr result (λ f. IsMergeFault f) }
{
    match next {
        Some(line) => turn_of(take_line(world, numbers, who, line)),
        None => Ok(Turn::Ended),
    }
}

/// What comes of a line that was only tried.
fn turn_tried(offer: Result<Option<Offer>, MergeFault>) -> Result<Option<Turn>, JournalsFault>
    ensures { result ≡ turn_tried offer }
{
    match offer {
        Ok(None) => Ok(None),
        Ok(Some(Offer::Waits)) => Ok(Some(Turn::Waits)),
        Ok(Some(Offer::Took(taken))) => Ok(Some(Turn::Took(taken))),
        Ok(Some(Offer::Refused(why))) => Ok(Some(Turn::Refused(why))),
        Err(MergeFault::Full) => Err(JournalsFault::Full),
        Err(MergeFault::Memory) => Err(JournalsFault::Memory),
    }
}

/// Offers this line of the actor, if there is one, and it reads no message or one that was said lately.
fn try_next(
    world: &mut Actors,
    numbers: &mut FrameNumbers,
    who: &Actor,
    next: &Option<OwnLine>,
) -> Result<Option<Turn>, JournalsFault>
    requires { IsIndexOf numbers.old world.old.sent }
    ensures turn { IfOk result (λ t. IsTriedTurn world.old who.now next.now t world.new) }
    ensures index { IfOk result (λ t. IsTryGoing t → IsIndexOf numbers.new world.new.sent) }
    ensures fault { IfErr result (λ f. IsMergeFault f) }
{
    match next {
        Some(line) => turn_tried(try_line(world, numbers, who, line)),
        None => Ok(None),
    }
}

/// Takes the next line of the journal at this index if it reads no message, or one that was said lately, and can be taken.
/// It stops if the line is refused.
fn find_at<R: Read>(
    world: &mut Actors,
    numbers: &mut FrameNumbers,
    journals: &[OwnJournal<R>],
    index: usize,
) -> Result<Option<Found>, Failure>
    requires { IsIndexOf numbers.old world.old.sent }
    ensures found { IfOk result (λ f. IsFoundAt world.old journals.now f world.new) }
    ensures index { IfOk result (λ f. GoesAt f → IsIndexOf numbers.new world.new.sent) }
    ensures fault { IfErr result (λ e. IsMergeFault e.fault) }
{
    let Some(journal) = journals.get(index) else {
        return Ok(None);
    };
    match try_next(world, numbers, &journal.who, &journal.next) {
        Ok(None) => Ok(None),
        Ok(Some(Turn::Ended)) => Ok(None),
        Ok(Some(Turn::Waits)) => Ok(None),
        Ok(Some(Turn::Took(taken))) => Ok(Some(Found::Took(index, taken))),
        Ok(Some(Turn::Refused(why))) => Ok(Some(Found::Refused(index, why))),
        Err(fault) => Err(Failure {
            journal: index,
            fault,
        }),
    }
}

/// Looks for a journal whose next line reads no message, or one that was said lately, and can be taken, and takes it. It
/// stops at a line that is refused.
fn find_lately<R: Read>(
    world: &mut Actors,
    numbers: &mut FrameNumbers,
    journals: &[OwnJournal<R>],
) -> Result<Option<Found>, Failure>
    requires { IsIndexOf numbers.old world.old.sent }
    ensures found { IfOk result (λ f. IsFoundAt world.old journals.now f world.new) }
    ensures index { IfOk result (λ f. GoesAt f → IsIndexOf numbers.new world.new.sent) }
    ensures fault { IfErr result (λ e. IsMergeFault e.fault) }
{
    for index in 0..journals.len() {
        match find_at(world, numbers, journals, index) {
            Ok(None) => {}
            Ok(Some(found)) => return Ok(Some(found)),
            Err(failure) => return Err(failure),
        }
    }
    Ok(None)
}

/// Looks for a journal whose next line can be taken, and takes it. It looks at these two first, since actors go on and
/// answer each other. Then it looks for lines that read what was said lately: only if there is none, each message that was
/// said is taken in. It stops at a line that is refused.
pub fn find_near<R: Read>(
    world: &mut Actors,
    numbers: &mut FrameNumbers,
    journals: &[OwnJournal<R>],
    last: usize,
    before: usize,
) -> Result<Found, Failure>
    requires { IsIndexOf numbers.old world.old.sent }
    ensures found { IfOk result (λ f. IsFound world.old journals.now f world.new) }
    ensures index { IfOk result (λ f. Goes f → IsIndexOf numbers.new world.new.sent) }
    ensures fault { IfErr result (λ e. IsMergeFault e.fault) }
{
    match find_at(world, numbers, journals, last) {
        Ok(None) => {}
        Ok(Some(found)) => return Ok(found),
        Err(failure) => return Err(failure),
    }
    match find_at(world, numbers, journals, before) {
        Ok(None) => {}
        Ok(Some(found)) => return Ok(found),
        Err(failure) => return Err(failure),
    }
    match find_lately(world, numbers, journals) {
        Ok(None) => find(world, numbers, journals),
        Ok(Some(found)) => Ok(found),
        Err(failure) => Err(failure),
    }
}

/// Looks for a journal whose next line can be taken, in order, and takes it. It stops at a line that is refused.
fn find<R: Read>(
    world: &mut Actors,
    numbers: &mut FrameNumbers,
    journals: &[OwnJournal<R>],
) -> Result<Found, Failure>
    requires { IsIndexOf numbers.old world.old.sent }
    ensures found { IfOk result (λ f. IsFound world.old journals.now f world.new) }
    ensures index { IfOk result (λ f. Goes f → IsIndexOf numbers.new world.new.sent) }
    ensures fault { IfErr result (λ e. IsMergeFault e.fault) }
{
    let mut waits = false;
    for (index, journal) in journals.iter().enumerate() {
        let turn = match offer_next(world, numbers, &journal.who, &journal.next) {
            Ok(turn) => turn,
            Err(fault) => {
                return Err(Failure {
                    journal: index,
                    fault,
                });
            }
        };
        match turn {
            Turn::Ended => {}
            Turn::Waits => waits = true,
            Turn::Took(taken) => return Ok(Found::Took(index, taken)),
            Turn::Refused(why) => return Ok(Found::Refused(index, why)),
        }
    }
    if waits {
        Ok(Found::Stuck)
    } else {
        Ok(Found::Merged)
    }
}
