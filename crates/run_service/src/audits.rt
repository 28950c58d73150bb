// Whether the journal of a service is sound.

ghost use Rattle.std.specs.Prelude.{◌≡◌, ◌≤◌, length, IfOk};
ghost use Rattle.journal_audit.specs.Verdicts.{IsVerdict, text_lines};
ghost use Rattle.journal_audit.specs.declared.verdicts.Verdict.TheVariants.{Sound};
ghost use Rattle.journal_text.specs.Journals.{history_text};
ghost use Rattle.lock_messages.specs.declared.ids.TheConstants.{MAX_CLIENTS};
ghost use Rattle.world_settings.specs.Openings.{all_down};

use crate::sessions::plain_policies;
use history_book::Book;
use journal_audit::{AuditFault, Verdict, audit};
use journal_laws::laws::journals_are_sound;
use std::alloc::{AllocError, Global};
use std::io;
use world_settings::{Settings, world_down};

/// Audits the journal of a book, from the world of these settings in which all are down and nothing is kept.
///
/// The journal of a service that was opened by these settings is found sound, with as many lines as the history has
/// events; of a book of another opening it says what an audit says.
///
/// The caller owes settings of at least one client, and of no more than 1,024.
///
/// # Errors
///
/// Want of memory (818) alone: a journal in memory is read and written without a fault, and a book has no more events
/// than a journal may have lines.
pub fn audit_book(alloc: Global, settings: &Settings, book: &Book) -> Result<Verdict, AllocError>
    requires some_client { 1 ≤ settings.now.clients }
    requires few_clients { settings.now.clients ≤ MAX_CLIENTS }
    ensures verdict { IfOk result (IsVerdict (all_down settings.now) (text_lines (history_text book.now.history))) }
    ensures sound { book.now.opening ≡ all_down settings.now → IfOk result (λ v. v ≡ Sound (length book.now.history)) }
{
    journals_are_sound();
    book.standing();
    let mut journal = Vec::new(alloc);
    let Ok(()) = book.write_journal(alloc, &mut journal) else {
        return Err(AllocError);
    };
    let Ok(world) = world_down(alloc, settings, plain_policies(alloc)?) else {
        return Err(AllocError);
    };
    match audit(alloc, world, journal.as_slice(), &mut io::sink()) {
        Ok(verdict) => Ok(verdict),
        Err(AuditFault::TooManyLines) => unreachable!(),
        Err(AuditFault::Memory | AuditFault::Read | AuditFault::Write) => Err(AllocError),
    }
}
