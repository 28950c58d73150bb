// Merging, line by line.

ghost use Rattle.std.specs.Prelude.{◌≡◌};
ghost use Rattle.journal_merger.specs.Merges.{Finds};

use crate::finding::{Found, find_near};
use crate::{Failure, Journals, JournalsFault};
use frame_numbers::FrameNumbers;
use journal_merge::laws::merging_is_exact;
use line_merger::Refusal;
use line_streams::Gathered;
use std::alloc::Global;
use std::io::{Read, Write};
use world_machine::{Actors, World};

/// The most lines that are merged.
pub(crate) const MAX_LINES: u64 = 1_000_000_000_000;

/// What is found of journals.
#[derive(Clone, Copy, Debug, PartialEq, Eq)]
pub enum Outcome {
    /// They have a merge, of so many lines.
    Merged(u64),
    /// They have none. First the actor of the journal at this index refused a line, or all next lines wait for messages
    /// that nobody said.
    Stuck(Option<(usize, Refusal)>),
}

/// Takes lines as long as one can be taken, and writes their events.
fn take_all<R: Read, W: Write>(
    alloc: Global,
    world: &mut Actors,
    journals: &mut Journals<R>,
    writer: &mut W,
) -> Result<Outcome, Failure>
    ensures { Finds world.old journals.old (W.contents writer.old) (W.contents writer.new) result }
{
    merging_is_exact();
    let mut numbers = FrameNumbers::new(alloc);
    let mut out = Gathered::new();
    let mut last = 0;
    let mut before = 0;
    for lines in 0..MAX_LINES {
        journals.tell_apart();
        let found = match find_near(world, &mut numbers, journals.all(), last, before) {
            Ok(found) => found,
            Err(failure) => return Err(failure),
        };
        match found {
            Found::Took(journal, taken) => {
                match journals.go_on(journal, &taken, &mut out, writer) {
                    Ok(()) => {}
                    Err(fault) => return Err(Failure { journal, fault }),
                }
                if journal != last {
                    before = last;
                    last = journal;
                }
            }
            Found::Refused(journal, why) => return Ok(Outcome::Stuck(Some((journal, why)))),
            Found::Stuck => return Ok(Outcome::Stuck(None)),
            Found::Merged => match out.let_out(writer) {
                Ok(()) => return Ok(Outcome::Merged(lines)),
                Err(_) => return Err(Failure {
                    journal: 0,
                    fault: JournalsFault::Write,
                }),
            },
        }
    }
    Err(Failure {
        journal: 0,
        fault: JournalsFault::TooManyLines,
    })
}

/// Merges the journals, and writes the events of the merge, each in a line, with numbers for messages.
///
/// It takes any next line that can be taken, as long as there is one. If it says `Merged`, the text of a merge was
/// written. If it says `Stuck` or fails, a beginning of the text of a history was written, which first lines of the
/// journals tell. If it says `Stuck`, the lines that are left can't be taken, and `Journals::next_line` shows them.
///
/// # Errors
///
/// `NoLine` (953), `OtherActor` (954), `Full` (955), `Read` (956), `Write` (957), `Memory` (958) and `TooManyLines`
/// (959), with the index of the journal at which it was met.
pub fn merge<R: Read, W: Write>(
    alloc: Global,
    world: World,
    journals: &mut Journals<R>,
    writer: &mut W,
) -> Result<Outcome, Failure>
    requires { Unit {0} }
    ensures { Finds world journals.old (W.contents writer.old) (W.contents writer.new) result }
{
    let mut world = Actors::of(world);
    let outcome = match take_all(alloc, &mut world, journals, writer) {
        Ok(outcome) => outcome,
        Err(failure) => return Err(failure),
    };
    match outcome {
        Outcome::Stuck(why) => match journals.settle(alloc, &mut world) {
            Ok(()) => Ok(Outcome::Stuck(why)),
            Err(failure) => Err(failure),
        },
        Outcome::Merged(lines) => Ok(Outcome::Merged(lines)),
    }
}
