// Writing a message as its frame.

ghost use Rattle.std.specs.Prelude.{◌≡◌, ◌++◌, length, OnOk, IfOk, IsOkUnless};
ghost use Rattle.lock_messages.specs.Frames.{head, with_ticket, frame_of};

use crate::kinds::Kind;
use crate::{Attempt, ClientId, FrameFault, Message, Mode, NodeId, Ticket};
use bytes::Bytes;
use std::alloc::{AllocError, Global};

// The bytes of a frame without its ticket's mode and name, and with these but for the name itself.
const HEAD_LEN: usize = 15;

const NAME_AT: usize = 17;

fn frame_len(message: &Message) -> usize
    ensures { result ≡ length (frame_of message.now) }
{
    match *message {
        Message::Request(_, ticket) | Message::Grant(_, ticket) | Message::Busy(_, ticket) => {
            NAME_AT + ticket.resource.bytes().len()
        }
        Message::Release(..)
        | Message::Over(..)
        | Message::Done(..)
        | Message::Muddled(..)
        | Message::Soften(..)
        | Message::Softened(..) => HEAD_LEN,
    }
}

fn put_head(
    out: &mut Vec<u8>,
    kind: Kind,
    node: NodeId,
    client: ClientId,
    attempt: Attempt,
) -> Result<(), AllocError>
    ensures { OnOk result (out.new.items ≡ out.old.items ++ head kind node client attempt) }
{
    out.extend_from_slice(&[kind.version(), kind.number(), node.get()])?;
    out.extend_from_slice(&client.get().to_be_bytes())?;
    out.extend_from_slice(&attempt.get().to_be_bytes())?;
    Ok(())
}

fn put_ticket(
    out: &mut Vec<u8>,
    kind: Kind,
    node: NodeId,
    ticket: &Ticket,
) -> Result<(), AllocError>
    ensures { OnOk result (out.new.items ≡ out.old.items ++ with_ticket kind node ticket.now) }
{
    let mode = match ticket.mode {
        Mode::Read => 0,
        Mode::Write => 1,
    };
    let name = ticket.resource.bytes();
    put_head(out, kind, node, ticket.client, ticket.attempt)?;
    out.extend_from_slice(&[mode, name.len() as u8])?;
    out.extend_from_slice(name)?;
    Ok(())
}

fn put_message(out: &mut Vec<u8>, message: &Message) -> Result<(), AllocError>
    ensures { OnOk result (out.new.items ≡ out.old.items ++ frame_of message.now) }
{
    match *message {
        Message::Request(node, ticket) => put_ticket(out, Kind::Request, node, &ticket),
        Message::Release(node, client, attempt) => {
            put_head(out, Kind::Release, node, client, attempt)
        }
        Message::Grant(node, ticket) => put_ticket(out, Kind::Grant, node, &ticket),
        Message::Busy(node, ticket) => put_ticket(out, Kind::Busy, node, &ticket),
        Message::Over(node, client, attempt) => put_head(out, Kind::Over, node, client, attempt),
        Message::Done(node, client, attempt) => put_head(out, Kind::Done, node, client, attempt),
        Message::Muddled(node, client, attempt) => {
            put_head(out, Kind::Muddled, node, client, attempt)
        }
        Message::Soften(node, client, attempt) => {
            put_head(out, Kind::Soften, node, client, attempt)
        }
        Message::Softened(node, client, attempt) => {
            put_head(out, Kind::Softened, node, client, attempt)
        }
    }
}

/// The one spelling of the message, in one allocation of its length (and the count of owners that
/// `Bytes` keeps). The only fault is that memory was refused (111).
pub fn encode(alloc: Global, message: &Message) -> Result<Bytes, FrameFault>
    ensures spelled { IfOk result (λ bytes. bytes ≡ frame_of message.now) }
    ensures memory { IsOkUnless result FrameFault.Memory }
{
    let mut out = Vec::with_capacity(alloc, frame_len(message))?;
    put_message(&mut out, message)?;
    Ok(Bytes::from_vec(out)?)
}
