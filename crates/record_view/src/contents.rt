// What the body of a record says.

ghost use Rattle.std.specs.Prelude.{◌≡◌, OnOk, ◌++◌, List, ℕ, string_bytes};
ghost use Rattle.std.specs.List.{flat_map};
ghost use Rattle.record_view.specs.Texts.{SaysBody, client_words, count_words, head_words, node_words, other_words, entry_text, live_text, status_text, problem_text};

use lock_model::{Problem, Status};
use stable_record::{Entry, Live, NodeRecord, RecordFault, read_client, read_node};
use std::alloc::{AllocError, Global};

fn status_word(status: Status) -> &'static str
    ensures { result.now ≡ status_text status }
{
    match status {
        Status::Waiting => "waits",
        Status::Holding => "holds",
        Status::Softened => "holds, downgraded",
    }
}

fn problem_word(problem: Problem) -> &'static str
    ensures { result.now ≡ problem_text problem }
{
    match problem {
        Problem::First => "1 (reader-first)",
        Problem::Second => "2 (writer-first)",
    }
}

/// Adds the ticket of an entry, if it has one.
fn push_live(text: &mut String, live: &Option<Live>) -> Result<(), AllocError>
    ensures { OnOk result (string_bytes text.new ≡ string_bytes text.old ++ live_text live.now) }
{
    let Some(live) = live else {
        return text.push_str("");
    };
    let (attempt, mode, resource) = (live.attempt, live.mode, live.resource);
    let status = status_word(live.status);
    write!(text, ", attempt {attempt} {mode} {resource} {status}")
}

/// Adds the line of an entry.
fn push_entry(text: &mut String, entry: &Entry) -> Result<(), AllocError>
    ensures { OnOk result (string_bytes text.new ≡ string_bytes text.old ++ entry_text entry.now) }
{
    let (client, floor) = (entry.client, entry.floor);
    write!(text, "{client}: floor {floor}")?;
    push_live(text, &entry.live)?;
    text.push_str("\n")
}

/// Adds the lines of the entries.
fn push_entries(text: &mut String, kept: &NodeRecord) -> Result<(), AllocError>
    ensures { OnOk result (string_bytes text.new ≡ string_bytes text.old ++ flat_map entry_text kept.now.entries) }
{
    for place in 0..kept.entries.len() {
        let Some(entry) = kept.entries.get(place) else {
            unreachable!()
        };
        push_entry(text, &entry)?;
    }
    Ok(())
}

/// Adds how many entries a node's record has.
fn push_count(text: &mut String, count: usize) -> Result<(), AllocError>
    ensures { OnOk result (string_bytes text.new ≡ string_bytes text.old ++ count_words count) }
{
    writeln!(text, ", entries {count}")
}

/// Adds the first line of a node's record.
fn push_head(text: &mut String, problem: &str, count: usize) -> Result<(), AllocError>
    ensures { OnOk result (string_bytes text.new ≡ string_bytes text.old ++ head_words problem.now count) }
{
    text.push_str("a node's record: problem ")?;
    text.push_str(problem)?;
    push_count(text, count)?;
    Ok(())
}

/// Adds what a node's record says.
fn push_node(text: &mut String, kept: &NodeRecord) -> Result<(), AllocError>
    ensures { OnOk result (string_bytes text.new ≡ string_bytes text.old ++ node_words kept.now) }
{
    let problem = problem_word(kept.problem);
    let count = kept.entries.len();
    push_head(text, problem, count)?;
    push_entries(text, kept)?;
    Ok(())
}

/// Adds what a client's record says.
fn push_client(text: &mut String, attempt: u64) -> Result<(), AllocError>
    ensures { OnOk result (string_bytes text.new ≡ string_bytes text.old ++ client_words attempt) }
{
    writeln!(text, "a client's record: last attempt {attempt}")
}

/// Adds what is said of other bytes.
fn push_other(text: &mut String, length: usize) -> Result<(), AllocError>
    ensures { OnOk result (string_bytes text.new ≡ string_bytes text.old ++ other_words length) }
{
    writeln!(text, "{length} bytes, not the record of an actor")
}

/// Adds what a body says. No bytes are the record of a node and of a client, since their lengths differ.
pub(crate) fn push_body(alloc: Global, text: &mut String, body: &[u8]) -> Result<(), AllocError>
    ensures { OnOk result ((words : List ℕ) × SaysBody body.now words × (string_bytes text.new ≡ string_bytes text.old ++ words)) }
{
    let client = read_client(body);
    if let Ok(attempt) = client {
        push_client(text, attempt)?;
        return Ok(());
    }
    match read_node(alloc, body) {
        Ok(record) => push_node(text, &record)?,
        Err(RecordFault::NoMemory) => return Err(AllocError),
        Err(_) => push_other(text, body.len())?,
    }
    Ok(())
}
