// Reading a message from its frame, field by field from the front.

ghost use Rattle.std.specs.Prelude.{◌≡◌, ◌≤◌, IfOk};
ghost use Rattle.lock_messages.specs.declared.messages.Message.{Message};
ghost use Rattle.lock_messages.specs.Messages.{IsMessage};
ghost use Rattle.lock_messages.specs.Frames.{frame_of};
ghost use Rattle.lock_messages.specs.Fields.{Gives, mode_at, name_at};
ghost use Rattle.lock_messages.specs.Reading.{version_at, first_kind, softening_kind, kind_at, node_at, client_at, attempt_at, length_at, ticket_at, body_at, message_at, reading};

use crate::kinds::{Kind, SOFTENING_VERSION, VERSION};
use crate::names::has_name_bytes;
use crate::{
    Attempt, ClientId, FrameFault, MAX_NAME_LEN, Message, Mode, NodeId, ResourceName, Ticket,
};

fn first_kind(byte: u8) -> Result<Kind, FrameFault>
    ensures { result ≡ first_kind byte }
{
    match byte {
        1 => Ok(Kind::Request),
        2 => Ok(Kind::Release),
        3 => Ok(Kind::Grant),
        4 => Ok(Kind::Busy),
        5 => Ok(Kind::Over),
        6 => Ok(Kind::Done),
        7 => Ok(Kind::Muddled),
        _ => Err(FrameFault::Kind),
    }
}

fn softening_kind(byte: u8) -> Result<Kind, FrameFault>
    ensures { result ≡ softening_kind byte }
{
    match byte {
        8 => Ok(Kind::Soften),
        9 => Ok(Kind::Softened),
        _ => Err(FrameFault::Kind),
    }
}

/// The bytes that aren't read yet. Each method reads what these begin with; after a fault they are
/// of no use.
#[derive(Drop)]
struct Unread<'a> {
    bytes: &'a [u8],
}

impl Unread<'_> {
    fn version(&mut self) -> Result<u8, FrameFault>
        ensures { Gives result self.new.bytes.now (version_at self.old.bytes.now) }
    {
        let [byte, rest @ ..] = self.bytes else {
            return Err(FrameFault::Short);
        };
        if *byte != VERSION && *byte != SOFTENING_VERSION {
            return Err(FrameFault::Version);
        }
        self.bytes = rest;
        Ok(*byte)
    }

    fn kind(&mut self, version: u8) -> Result<Kind, FrameFault>
        ensures { Gives result self.new.bytes.now (kind_at version self.old.bytes.now) }
    {
        let [byte, rest @ ..] = self.bytes else {
            return Err(FrameFault::Short);
        };
        self.bytes = rest;
        if version == SOFTENING_VERSION {
            softening_kind(*byte)
        } else {
            first_kind(*byte)
        }
    }

    fn node(&mut self) -> Result<NodeId, FrameFault>
        ensures { Gives result self.new.bytes.now (node_at self.old.bytes.now) }
    {
        let [byte, rest @ ..] = self.bytes else {
            return Err(FrameFault::Short);
        };
        self.bytes = rest;
        NodeId::of(*byte).ok_or(FrameFault::Node)
    }

    fn client(&mut self) -> Result<ClientId, FrameFault>
        ensures { Gives result self.new.bytes.now (client_at self.old.bytes.now) }
    {
        let Some((field, rest)) = self.bytes.split_first_chunk::<4>() else {
            return Err(FrameFault::Short);
        };
        self.bytes = rest;
        ClientId::of(u32::from_be_bytes(*field)).ok_or(FrameFault::Client)
    }

    fn attempt(&mut self) -> Result<Attempt, FrameFault>
        ensures { Gives result self.new.bytes.now (attempt_at self.old.bytes.now) }
    {
        let Some((field, rest)) = self.bytes.split_first_chunk::<8>() else {
            return Err(FrameFault::Short);
        };
        self.bytes = rest;
        Attempt::of(u64::from_be_bytes(*field)).ok_or(FrameFault::Attempt)
    }

    fn mode(&mut self) -> Result<Mode, FrameFault>
        ensures { Gives result self.new.bytes.now (mode_at FrameFault.Short FrameFault.Mode self.old.bytes.now) }
    {
        let [byte, rest @ ..] = self.bytes else {
            return Err(FrameFault::Short);
        };
        self.bytes = rest;
        match *byte {
            0 => Ok(Mode::Read),
            1 => Ok(Mode::Write),
            _ => Err(FrameFault::Mode),
        }
    }

    fn name_len(&mut self) -> Result<usize, FrameFault>
        ensures { Gives result self.new.bytes.now (length_at self.old.bytes.now) }
    {
        let [byte, rest @ ..] = self.bytes else {
            return Err(FrameFault::Short);
        };
        let size = *byte as usize;
        if size == 0 || size > MAX_NAME_LEN {
            return Err(FrameFault::NameLength);
        }
        self.bytes = rest;
        Ok(size)
    }

    fn name(&mut self, size: usize) -> Result<ResourceName, FrameFault>
        requires { (1 ≤ size) × (size ≤ MAX_NAME_LEN) }
        ensures { Gives result self.new.bytes.now (name_at FrameFault.Short FrameFault.NameByte size self.old.bytes.now) }
    {
        let Some((name, rest)) = self.bytes.split_at_checked(size) else {
            // A wrong byte stands before a missing one.
            return Err(if has_name_bytes(self.bytes) {
                FrameFault::Short
            } else {
                FrameFault::NameByte
            });
        };
        self.bytes = rest;
        ResourceName::of(name).ok_or(FrameFault::NameByte)
    }

    #[tactic(auto, unfolding(crate::specs::Reading::ticket_at))]
    fn ticket(&mut self, client: ClientId, attempt: Attempt) -> Result<Ticket, FrameFault>
        ensures { Gives result self.new.bytes.now (ticket_at client attempt self.old.bytes.now) }
    {
        let mode = self.mode()?;
        let size = self.name_len()?;
        let resource = self.name(size)?;
        Ok(Ticket {
            client,
            attempt,
            mode,
            resource,
        })
    }

    fn body(
        &mut self,
        kind: Kind,
        node: NodeId,
        client: ClientId,
        attempt: Attempt,
    ) -> Result<Message, FrameFault>
        ensures { Gives result self.new.bytes.now (body_at kind node client attempt self.old.bytes.now) }
    {
        let message = match kind {
            Kind::Request => Message::Request(node, self.ticket(client, attempt)?),
            Kind::Release => Message::Release(node, client, attempt),
            Kind::Grant => Message::Grant(node, self.ticket(client, attempt)?),
            Kind::Busy => Message::Busy(node, self.ticket(client, attempt)?),
            Kind::Over => Message::Over(node, client, attempt),
            Kind::Done => Message::Done(node, client, attempt),
            Kind::Muddled => Message::Muddled(node, client, attempt),
            Kind::Soften => Message::Soften(node, client, attempt),
            Kind::Softened => Message::Softened(node, client, attempt),
        };
        Ok(message)
    }

    #[tactic(auto, unfolding(crate::specs::Reading::message_at))]
    fn message(&mut self) -> Result<Message, FrameFault>
        ensures { Gives result self.new.bytes.now (message_at self.old.bytes.now) }
    {
        let version = self.version()?;
        let kind = self.kind(version)?;
        let node = self.node()?;
        let client = self.client()?;
        let attempt = self.attempt()?;
        self.body(kind, node, client, attempt)
    }
}

#[tactic(auto, unfolding(crate::specs::Reading::reading))]
fn whole(frame: &[u8]) -> Result<Message, FrameFault>
    ensures { result ≡ reading frame.now }
{
    let mut unread = Unread { bytes: frame };
    let message = unread.message()?;
    if !unread.bytes.is_empty() {
        return Err(FrameFault::Trailing);
    }
    Ok(message)
}

/// The message that the bytes spell, all of the bytes; it takes no memory.
///
/// Else the fault of the first field from the front that isn't wholly there (101) or whose value
/// is wrong (102 to 109, a name byte by byte), and only behind a whole frame that bytes follow
/// it (110). A kind is judged by the version that stands before it: under version 1 any but 1 to
/// 7, and under version 2 any but 8 and 9, is 103. The layout and its faults are our own.
pub fn decode(frame: &[u8]) -> Result<Message, FrameFault>
    // What is read is spelled so.
    ensures found { IfOk result (λ m. IsMessage m × (frame.now ≡ frame_of m)) }
    // What is spelled so is read.
    ensures only { (m : Message) → IsMessage m → frame.now ≡ frame_of m → result ≡ Ok m }
    // Which fault it is.
    ensures exact { result ≡ reading frame.now }
{
    whole(frame)
}
