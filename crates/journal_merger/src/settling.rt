// Lines that are taken after one was refused, to see which are left.

ghost use Rattle.std.specs.Prelude.{◌≡◌, IfErr, IfOk};
ghost use Rattle.frame_numbers.specs.FrameNumbers.{IsIndexOf};
ghost use Rattle.journal_merger.specs.Merges.{GoesAlone, IsKept, IsMergeFault};

use crate::finding::{Turn, offer_next};
use crate::merging::MAX_LINES;
use crate::reading::OwnJournal;
use crate::{Failure, Journals, JournalsFault};
use frame_numbers::FrameNumbers;
use std::alloc::Global;
use std::io::Read;
use world_machine::Actors;

impl<R: Read> OwnJournal<R> {
    /// Takes the next line if it can be taken, and reads the one after it. Returns whether it was taken. Why it is refused
    /// is kept, and the line is not offered again.
    fn go_on_alone(
        &mut self,
        alloc: Global,
        world: &mut Actors,
        numbers: &mut FrameNumbers,
    ) -> Result<bool, JournalsFault>
        requires { IsIndexOf numbers.old world.old.sent }
        ensures who { self.new.who ≡ self.old.who }
        ensures left { IfOk result (λ took. self.old.refusal ≡ None → GoesAlone world.old self.old took self.new world.new) }
        ensures kept { IfOk result (λ took. IsKept self.old took self.new) }
        ensures index { IfOk result (λ _. IsIndexOf numbers.new world.new.sent) }
        ensures fault { IfErr result (λ f. IsMergeFault f) }
    {
        if self.refusal.is_some() {
            return Ok(false);
        }
        let turn = match offer_next(world, numbers, &self.who, &self.next) {
            Ok(turn) => turn,
            Err(fault) => return Err(fault),
        };
        match turn {
            Turn::Ended => Ok(false),
            Turn::Waits => Ok(false),
            Turn::Took(_) => match self.advance(alloc) {
                Ok(()) => Ok(true),
                Err(fault) => Err(fault),
            },
            Turn::Refused(why) => {
                self.refusal = Some(why);
                // After a refusal nothing is known of the numbers.
                *numbers = FrameNumbers::new(alloc);
                Ok(false)
            }
        }
    }
}

impl<R: Read> Journals<R> {
    /// Takes the next line of the journal at this index if it can be taken. Returns whether it was.
    fn go_on_at(
        &mut self,
        index: usize,
        alloc: Global,
        world: &mut Actors,
        numbers: &mut FrameNumbers,
    ) -> Result<bool, JournalsFault>
        requires { IsIndexOf numbers.old world.old.sent }
        ensures index { IfOk result (λ _. IsIndexOf numbers.new world.new.sent) }
        ensures fault { IfErr result (λ f. IsMergeFault f) }
    {
        if index >= self.journals.len() {
            return Ok(false);
        }
        self.journals[index].go_on_alone(alloc, world, numbers)
    }

    /// Offers the next line of each journal once. Returns whether one was taken.
    fn go_round(
        &mut self,
        alloc: Global,
        world: &mut Actors,
        numbers: &mut FrameNumbers,
    ) -> Result<bool, Failure>
        requires { IsIndexOf numbers.old world.old.sent }
        ensures index { IfOk result (λ _. IsIndexOf numbers.new world.new.sent) }
        ensures fault { IfErr result (λ e. IsMergeFault e.fault) }
    {
        let mut took = false;
        for journal in 0..self.count() {
            match self.go_on_at(journal, alloc, world, numbers) {
                Ok(true) => took = true,
                Ok(false) => {}
                Err(fault) => return Err(Failure { journal, fault }),
            }
        }
        Ok(took)
    }

    /// Takes lines as long as one can be taken, though the journals have no merge. Then each line that is left was
    /// refused, or waits for a message that nobody said.
    pub(crate) fn settle(&mut self, alloc: Global, world: &mut Actors) -> Result<(), Failure>
        requires { Unit {0} }
        ensures { IfErr result (λ e. IsMergeFault e.fault) }
    {
        let mut numbers = FrameNumbers::new(alloc);
        for _ in 0..MAX_LINES {
            match self.go_round(alloc, world, &mut numbers) {
                Ok(true) => {}
                Ok(false) => return Ok(()),
                Err(failure) => return Err(failure),
            }
        }
        Ok(())
    }
}
