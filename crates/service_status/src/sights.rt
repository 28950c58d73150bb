// What is seen of a service.

use file_plate::FileFault;
use lock_messages::{ClientId, NodeId};
use stable_record::NodeRecord;

/// What is seen of a node.
#[derive(Debug, Drop)]
pub enum NodeState {
    /// Whether a process runs it, and what its record says.
    Seen(bool, NodeRecord),
    /// Its record can't be read.
    Faulty(FileFault),
    /// This folder doesn't have its record.
    Elsewhere,
}

/// A node, and what is seen of it.
#[derive(Debug, Drop)]
pub struct SeenNode {
    pub node: NodeId,
    pub state: NodeState,
}

/// What is seen of a client.
#[derive(Clone, Copy, Debug, PartialEq, Eq)]
pub enum ClientState {
    /// A process runs it, and its record has this number of its last attempt.
    Up(u64),
    /// No process runs it.
    Down,
    /// Its record can't be read.
    Faulty(FileFault),
    /// This folder doesn't have its record.
    Elsewhere,
}

/// A client, and what is seen of it.
#[derive(Clone, Copy, Debug, PartialEq, Eq)]
pub struct SeenClient {
    pub client: ClientId,
    pub state: ClientState,
}

/// What is seen of a service: its nodes and its clients.
#[derive(Debug, Drop)]
pub struct Sight {
    pub nodes: Vec<SeenNode>,
    pub clients: Vec<SeenClient>,
}
