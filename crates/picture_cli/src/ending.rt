// A whole run of the program, from its words to its status.

ghost use Rattle.std.specs.Prelude.{◌≡◌, length, map, string_bytes, IfOk, IfErr};
ghost use Rattle.std.specs.IoError.{error_kind};
ghost use Rattle.std.specs.Vec.Iter.{into_iter_items};
ghost use Rattle.lock_messages.specs.declared.ids.TheConstants.{MAX_NODES};
ghost use Rattle.operator_cli.specs.Outputs.{refusal_output};
ghost use Rattle.program_ends.specs.Endings.{EndsUnread};
ghost use Rattle.picture_cli.specs.Drawing.{EndsTelling, told_verdict, told_shown, DrawsInput, Runs};

use crate::reading::{Undrawn, read_words};
use crate::serving::{Shown, draw_journal};
use journal_audit::{Verdict, tell_verdict};
use journal_picture::Canvas;
use operator_cli::refuse_start;
use program_ends::{
    Ended, collected, end_unserved, end_without_memory, say, tell_fault, tell_unread,
};
use run_picture::Part;
use std::alloc::Global;
use std::env::Args;
use std::io;
use std::io::{ErrorKind, Read, Write};
use world_settings::{Command, Policies, SettingsFault, StartFault};

/// Tells a verdict; a journal that is sound needs no word.
fn tell_found<E: Write>(verdict: Verdict, errors: &mut E) -> Ended
    ensures { EndsTelling (told_verdict verdict) (E.contents errors.old) (E.contents errors.new) result }
{
    let told = match verdict {
        Verdict::Sound(_) => {
            return Ended {
                status: 0,
                told: true,
            };
        }
        Verdict::Unsound(..) => tell_verdict(verdict, errors).is_ok(),
    };
    Ended { status: 1, told }
}

/// Tells that the settings are refused.
fn tell_refused<E: Write>(fault: SettingsFault, errors: &mut E) -> Ended
    ensures { EndsTelling (refusal_output fault) (E.contents errors.old) (E.contents errors.new) result }
{
    match refuse_start(Command::Audit, StartFault::Settings(fault), errors) {
        Ok(status) => Ended { status, told: true },
        Err(_) => Ended {
            status: 2,
            told: false,
        },
    }
}

/// Tells what came of a journal.
fn tell_shown<E: Write>(shown: Shown, errors: &mut E) -> Ended
    ensures { EndsTelling (told_shown shown) (E.contents errors.old) (E.contents errors.new) result }
{
    match shown {
        Shown::Drawn(verdict) => tell_found(verdict, errors),
        Shown::Refused(fault) => tell_refused(fault, errors),
    }
}

/// Draws a part of a journal, and tells what came of it.
fn draw<R: Read, P: Canvas + Write, E: Write>(
    alloc: Global,
    policies: Policies,
    part: Part,
    reader: R,
    page: &mut P,
    errors: &mut E,
) -> Ended
where
    R: Drop,
    requires policies { length policies.pairs.items ≡ MAX_NODES }
    ensures { DrawsInput (R.remaining reader) part (record { old = P.drawn page.old; new = P.drawn page.new }) (record { old = P.contents page.old; new = P.contents page.new; errors_old = E.contents errors.old; errors_new = E.contents errors.new }) result }
{
    match draw_journal(alloc, policies, part, reader, page) {
        Ok(shown) => tell_shown(shown, errors),
        Err(fault) => tell_fault(fault, errors),
    }
}

/// Does what the words say.
#[tactic(auto, using(crate::proofs::WordFacts::runs_part))]
fn run_words<R: Read, P: Canvas + Write, E: Write>(
    alloc: Global,
    words: &[String],
    policies: Policies,
    reader: R,
    page: &mut P,
    errors: &mut E,
) -> Ended
where
    R: Drop,
    requires policies { length policies.pairs.items ≡ MAX_NODES }
    ensures { Runs (R.remaining reader) (map string_bytes words.now) (record { old = P.drawn page.old; new = P.drawn page.new }) (record { old = P.contents page.old; new = P.contents page.new; errors_old = E.contents errors.old; errors_new = E.contents errors.new }) result }
{
    match read_words(alloc, words) {
        Ok(part) => draw(alloc, policies, part, reader, page, errors),
        Err(Undrawn::Unserved(why)) => end_unserved(why, page, errors),
        Err(Undrawn::Value(text)) => say(2, text, errors),
    }
}

/// Does what the words say that the program was given.
#[tactic(auto, using(crate::proofs::WordFacts::runs_lacking))]
fn run_given<R: Read, P: Canvas + Write, E: Write>(
    alloc: Global,
    given: Args,
    policies: Policies,
    reader: R,
    page: &mut P,
    errors: &mut E,
) -> Ended
where
    R: Drop,
    requires policies { length policies.pairs.items ≡ MAX_NODES }
    ensures { Runs (R.remaining reader) (map string_bytes (into_iter_items given)) (record { old = P.drawn page.old; new = P.drawn page.new }) (record { old = P.contents page.old; new = P.contents page.new; errors_old = E.contents errors.old; errors_new = E.contents errors.new }) result }
{
    let Ok(all) = collected(alloc, given) else {
        return end_without_memory(errors);
    };
    run_words(alloc, all.as_slice(), policies, reader, page, errors)
}

/// Runs the program: draws what the words say of the journal that the reader gives, and answers how it ended.
///
/// The words are those of `std::env::args`, the program's name first: `--from L`, `--to L` and `--resource NAME`,
/// each of which may be left out. They name the part whose picture goes onto `page`, and nothing else does, but
/// that help and the version are written there, with status 0 (`fault 932` and 1 where that fails). The status is
/// 0 where the journal is sound; 1 where it isn't, and `errors` gets the verdict's line, as `rwvote audit` prints
/// it; 2 where the settings are refused: then the page stays as it is, and `settings fault N` is told on `errors`.
/// A fault is told there as `fault N`, with status 1; where it is that settings couldn't be read (931), or that there
/// was no memory for their world (933), the page stays as it is too. Other words are wrong, and so is one that is not
/// UTF-8, and a value that its option doesn't take: a text on `errors` says so, and the status is 2. Where memory is
/// refused while words are read, `fault 933` is told, with status 1.
///
/// Contracts speak of what the reader has left, of what was drawn on the page and of what it and `errors` hold,
/// where these are known. The caller owes sixteen pairs of policies.
pub fn run<R: Read, P: Canvas + Write, E: Write>(
    alloc: Global,
    words: io::Result<Args>,
    policies: Policies,
    reader: R,
    page: &mut P,
    errors: &mut E,
) -> Ended
where
    R: Drop,
    requires policies { length policies.pairs.items ≡ MAX_NODES }
    ensures runs { IfOk words (λ all. Runs (R.remaining reader) (map string_bytes (into_iter_items all)) (record { old = P.drawn page.old; new = P.drawn page.new }) (record { old = P.contents page.old; new = P.contents page.new; errors_old = E.contents errors.old; errors_new = E.contents errors.new }) result) }
    ensures unread { IfErr words (λ error. EndsUnread (error_kind error ≡ ErrorKind.OutOfMemory) (E.contents errors.old) (E.contents errors.new) result) }
    ensures unread_keeps { IfErr words (λ error. page.new ≡ page.old) }
{
    match words {
        Ok(given) => run_given(alloc, given, policies, reader, page, errors),
        Err(error) => tell_unread(error, errors),
    }
}
