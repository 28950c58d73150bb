// Writing a node's record.

ghost use Rattle.std.specs.Prelude.{◌≡◌, ◌++◌, OnOk, IfOk, IsOkUnless};
ghost use Rattle.lock_messages.specs.Fields.{mode_number};
ghost use Rattle.stable_record.specs.Records.{ticket_bytes, live_bytes, entry_bytes, head_bytes, node_record_of, status_number, problem_byte};

use crate::formats::VERSION;
use crate::{Entry, Live, NodeRecord, RecordFault, Status};
use lock_messages::Mode;
use lock_model::Problem;
use std::alloc::{AllocError, Global};

fn status_number(status: Status) -> u8
    ensures { result ≡ status_number status }
{
    match status {
        Status::Waiting => 1,
        Status::Holding => 2,
        Status::Softened => 3,
    }
}

fn mode_number(mode: Mode) -> u8
    ensures { result ≡ mode_number mode }
{
    match mode {
        Mode::Read => 0,
        Mode::Write => 1,
    }
}

fn problem_byte(problem: Problem) -> u8
    ensures { result ≡ problem_byte problem }
{
    match problem {
        Problem::First => 1,
        Problem::Second => 2,
    }
}

fn put_ticket(out: &mut Vec<u8>, live: &Live) -> Result<(), AllocError>
    ensures { OnOk result (out.new.items ≡ out.old.items ++ ticket_bytes live.now) }
{
    let name = live.resource.bytes();
    out.extend_from_slice(&live.attempt.get().to_be_bytes())?;
    out.extend_from_slice(&[mode_number(live.mode), name.len() as u8])?;
    out.extend_from_slice(name)?;
    Ok(())
}

fn put_live(out: &mut Vec<u8>, live: Option<Live>) -> Result<(), AllocError>
    ensures { OnOk result (out.new.items ≡ out.old.items ++ live_bytes live) }
{
    let Some(live) = live else {
        out.push(0)?;
        return Ok(());
    };
    out.push(status_number(live.status))?;
    put_ticket(out, &live)
}

fn put_entry(out: &mut Vec<u8>, entry: &Entry) -> Result<(), AllocError>
    ensures { OnOk result (out.new.items ≡ out.old.items ++ entry_bytes entry.now) }
{
    out.extend_from_slice(&entry.client.get().to_be_bytes())?;
    out.extend_from_slice(&entry.floor.to_be_bytes())?;
    put_live(out, entry.live)
}

fn put_head(out: &mut Vec<u8>, problem: Problem, count: u16) -> Result<(), AllocError>
    ensures { OnOk result (out.new.items ≡ out.old.items ++ head_bytes problem count) }
{
    out.extend_from_slice(&[VERSION, problem_byte(problem)])?;
    out.extend_from_slice(&count.to_be_bytes())?;
    Ok(())
}

fn put_record(out: &mut Vec<u8>, node: &NodeRecord) -> Result<(), AllocError>
    ensures { OnOk result (out.new.items ≡ out.old.items ++ node_record_of node.now) }
{
    put_head(out, node.problem, node.entries.len() as u16)?;
    for place in 0..node.entries.len() {
        put_entry(out, &node.entries.at(place))?;
    }
    Ok(())
}

/// The spelling of a node's record. `read_node` answers it again where floors are at most
/// `MAX_ATTEMPT`, live attempts are one above the floor, softened tickets are readers', and the record
/// is lawful and caused. The only fault is that memory was refused (320).
pub fn node_bytes(alloc: Global, node: &NodeRecord) -> Result<Vec<u8>, RecordFault>
    ensures spelled { IfOk result (λ bytes. bytes.items ≡ node_record_of node.now) }
    ensures memory { IsOkUnless result RecordFault.NoMemory }
{
    let mut out = Vec::new(alloc);
    match put_record(&mut out, node) {
        Ok(()) => Ok(out),
        Err(_) => Err(RecordFault::NoMemory),
    }
}
