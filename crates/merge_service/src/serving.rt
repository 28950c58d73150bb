// A merge, from the bytes of its settings to what is written.

ghost use Rattle.std.specs.Prelude.{◌≡◌, ◌⊎◌, ◌++◌, true, false, length, codes, string_bytes, IfErr, OnOk};
ghost use Rattle.lock_messages.specs.declared.ids.TheConstants.{MAX_NODES};
ghost use Rattle.journal_merger.specs.Merges.{Begins};
ghost use Rattle.merge_service.specs.Merging.{merged_text, Merges, MergesHead, ServesMerge};

use crate::ends::refused;
use crate::{MergeEnd, MergeFault};
use journal_merger::{Journals, Outcome, merge};
use line_streams::{LineReader, MAX_READS, write_text};
use operator_cli::{ServeFault, refuse_start};
use std::alloc::{AllocError, Global};
use std::io::{Read, Write};
use world_machine::World;
use world_settings::{
    Command, Policies, SettingsFault, StartFault, read_head, read_settings, world_down,
};

/// Writes a text.
fn put<W: Write>(text: &[u8], writer: &mut W) -> Result<(), MergeFault>
    ensures text { Begins (W.contents writer.old) (W.contents writer.new) text.now result }
    ensures fault { IfErr result (λ f. f ≡ MergeFault.Serve ServeFault.Write) }
{
    match write_text(writer, text) {
        Ok(()) => Ok(()),
        Err(_) => Err(MergeFault::Serve(ServeFault::Write)),
    }
}

/// Writes the settings and the line that ends them.
fn put_head<W: Write>(head: &[u8], writer: &mut W) -> Result<(), MergeFault>
    ensures text { Begins (W.contents writer.old) (W.contents writer.new) (head.now ++ codes "---\n") result }
    ensures fault { IfErr result (λ f. f ≡ MergeFault.Serve ServeFault.Write) }
{
    match put(head, writer) {
        Ok(()) => put(b"---\n", writer),
        Err(fault) => Err(fault),
    }
}

/// Adds how many lines were merged.
fn push_count(text: &mut String, lines: u64) -> Result<(), AllocError>
    ensures { OnOk result (string_bytes text.new ≡ string_bytes text.old ++ merged_text lines) }
{
    writeln!(text, "merged {lines}")
}

/// Writes how many lines were merged.
fn put_count<W: Write>(alloc: Global, lines: u64, writer: &mut W) -> Result<(), MergeFault>
    ensures text { Begins (W.contents writer.old) (W.contents writer.new) (merged_text lines) result }
    ensures fault { IfErr result (λ f. (f ≡ MergeFault.Serve ServeFault.Write) ⊎ (f ≡ MergeFault.Serve ServeFault.Memory)) }
{
    let mut text = String::new(alloc);
    if push_count(&mut text, lines).is_err() {
        return Err(MergeFault::Serve(ServeFault::Memory));
    }
    put(text.as_bytes(), writer)
}

/// Merges the journals, and writes how many lines they have.
fn judge<J: Read, W: Write>(
    alloc: Global,
    head: &[u8],
    world: World,
    journals: &mut Journals<J>,
    writer: &mut W,
) -> Result<MergeEnd, MergeFault>
    requires { Unit {0} }
    ensures { Merges true head.now world journals.old (W.contents writer.old) (W.contents writer.new) result }
{
    match journal_merger::judge(alloc, world, journals) {
        Ok(Outcome::Merged(lines)) => match put_count(alloc, lines, writer) {
            Ok(()) => Ok(MergeEnd::Merged),
            Err(fault) => Err(fault),
        },
        Ok(Outcome::Stuck(_)) => Ok(MergeEnd::Stuck),
        Err(failure) => Err(MergeFault::Journals(failure)),
    }
}

/// Writes the settings, and merges the journals after them.
fn merge_behind<J: Read, W: Write>(
    alloc: Global,
    head: &[u8],
    world: World,
    journals: &mut Journals<J>,
    writer: &mut W,
) -> Result<MergeEnd, MergeFault>
    requires { Unit {0} }
    ensures { Merges false head.now world journals.old (W.contents writer.old) (W.contents writer.new) result }
{
    match put_head(head, writer) {
        Ok(()) => {}
        Err(fault) => return Err(fault),
    }
    match merge(alloc, world, journals, writer) {
        Ok(Outcome::Merged(_)) => Ok(MergeEnd::Merged),
        Ok(Outcome::Stuck(_)) => Ok(MergeEnd::Stuck),
        Err(failure) => Err(MergeFault::Journals(failure)),
    }
}

/// Merges the journals from the world in which all are down.
fn merge_from<J: Read, W: Write>(
    alloc: Global,
    judged: bool,
    head: &[u8],
    world: World,
    journals: &mut Journals<J>,
    writer: &mut W,
) -> Result<MergeEnd, MergeFault>
    requires { Unit {0} }
    ensures { Merges judged head.now world journals.old (W.contents writer.old) (W.contents writer.new) result }
{
    if judged {
        judge(alloc, head, world, journals, writer)
    } else {
        merge_behind(alloc, head, world, journals, writer)
    }
}

/// Merges the journals by what the head says.
fn merge_head<J: Read, W: Write>(
    alloc: Global,
    judged: bool,
    head: &[u8],
    policies: Policies,
    journals: &mut Journals<J>,
    writer: &mut W,
) -> Result<MergeEnd, MergeFault>
    requires { length policies.pairs.items ≡ MAX_NODES }
    ensures { MergesHead judged head.now journals.old (W.contents writer.old) (W.contents writer.new) result }
{
    let start = match read_settings(alloc, Command::Audit, head) {
        Ok(start) => start,
        Err(fault) => return refused(refuse_start(
            Command::Audit,
            StartFault::Settings(fault),
            writer,
        )),
    };
    let Ok(world) = world_down(alloc, &start.settings, policies) else {
        return Err(MergeFault::Serve(ServeFault::Memory));
    };
    merge_from(alloc, judged, head, world, journals, writer)
}

/// Merges the journals by the settings that the source gives.
fn merge_source<J: Read, R: Read, W: Write>(
    alloc: Global,
    judged: bool,
    policies: Policies,
    journals: &mut Journals<J>,
    source: &mut LineReader<R>,
    writer: &mut W,
) -> Result<MergeEnd, MergeFault>
    requires { length policies.pairs.items ≡ MAX_NODES }
    ensures { ServesMerge judged source.old journals.old (W.contents writer.old) (W.contents writer.new) result }
{
    let mut head = Vec::new(alloc);
    match read_head(alloc, source, &mut head) {
        Ok(()) => {}
        Err(fault) => return refused(refuse_start(Command::Audit, fault, writer)),
    }
    merge_head(alloc, judged, head.as_slice(), policies, journals, writer)
}

/// Merges the journals by the settings that the reader gives.
///
/// The bytes of the reader begin with settings, as for `operator_cli::serve`, which the line `---` ends. What follows is
/// ignored. Refused settings print `settings fault N` and nothing else. Else all actors are down at first, and nothing
/// is kept. The settings as they were read, `---` and the merged journal are written, or `merged N` if the journals are
/// only judged: N is the number of their lines. If the journals have no merge, a beginning of the settings, `---` and the
/// journal of a history was written, or nothing if they are only judged.
///
/// The caller owes sixteen pairs of policies.
///
/// # Errors
///
/// `Serve` if the reader fails (931), the settings or the count can't be written (932), or there is no memory (933), and
/// `Journals` for a fault of `journal_merger::merge`. Then a beginning was written too.
pub fn serve_merge<J: Read, R: Read, W: Write>(
    alloc: Global,
    judged: bool,
    policies: Policies,
    journals: &mut Journals<J>,
    reader: R,
    writer: &mut W,
) -> Result<MergeEnd, MergeFault>
where
    R: Drop,
    requires policies { length policies.pairs.items ≡ MAX_NODES }
    ensures { ServesMerge judged (R.remaining reader) journals.old (W.contents writer.old) (W.contents writer.new) result }
{
    // Room for what is read ahead is made on the heap: the stack may be small.
    let Ok(mut source) = Box::new(alloc, LineReader::new(reader, MAX_READS)) else {
        return refused(refuse_start(
            Command::Audit,
            StartFault::Settings(SettingsFault::Memory),
            writer,
        ));
    };
    merge_source(alloc, judged, policies, journals, &mut source, writer)
}
