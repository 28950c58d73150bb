// What is asked for by the commands of a service.

use lock_messages::{ClientId, NodeId};
use lock_model::Problem;

/// Whether an actor writes a journal.
#[derive(Clone, Copy, Debug, PartialEq, Eq)]
pub enum Journaling {
    /// It writes one.
    Written,
    /// It writes one, and syncs each line, with `--sync-journal`.
    Synced,
    /// It writes none, with `--no-journal`.
    None,
}

/// The words of `init`.
#[derive(Clone, Copy, Debug, PartialEq, Eq)]
pub struct InitWords<'a> {
    /// The directory to make.
    pub folder: &'a str,
    /// Its actors, as `n1,c1-c16`. `None` for all actors of the settings.
    pub actors: Option<&'a str>,
    /// The file of the secret. `None` for a new one.
    pub secret: Option<&'a str>,
}

/// The words of `node`.
#[derive(Clone, Copy, Debug, PartialEq, Eq)]
pub struct NodeWords<'a> {
    pub number: NodeId,
    /// The service's directory.
    pub folder: &'a str,
    /// Whether lines come on standard input and go to standard output.
    pub pipes: bool,
    pub journal: Journaling,
}

/// The words of `client`.
#[derive(Clone, Copy, Debug, PartialEq, Eq)]
pub struct ClientWords<'a> {
    /// `None` for the lowest client that no process holds.
    pub number: Option<ClientId>,
    /// The service's directory.
    pub folder: &'a str,
    /// Whether lines come on standard input and go to standard output.
    pub pipes: bool,
    /// The file of the commands, just with `pipes`. Else they come on standard input.
    pub commands: Option<&'a str>,
    /// The file of the answers, just with `pipes`. Else they go to standard output.
    pub answers: Option<&'a str>,
    pub journal: Journaling,
}

/// The words of `reap`.
#[derive(Clone, Copy, Debug, PartialEq, Eq)]
pub struct ReapWords<'a> {
    /// The service's directory.
    pub folder: &'a str,
    /// After how many seconds it looks again, at least 1. `None` if it looks once.
    pub every: Option<u32>,
}

/// The words of `switch`.
#[derive(Clone, Copy, Debug, PartialEq, Eq)]
pub struct SwitchWords<'a> {
    pub number: NodeId,
    /// The problem that the node takes.
    pub problem: Problem,
    /// The service's directory.
    pub folder: &'a str,
    /// Whether the line that asks the node goes to standard output.
    pub pipes: bool,
}

/// What is asked for by a command of a service.
#[derive(Clone, Copy, Debug, PartialEq, Eq)]
pub enum ServiceRequest<'a> {
    /// To make a service.
    Init(InitWords<'a>),
    /// To run a node.
    Node(NodeWords<'a>),
    /// To run a client.
    Client(ClientWords<'a>),
    /// To release what dead clients hold.
    Reap(ReapWords<'a>),
    /// To show the service in this directory.
    Status(&'a str),
    /// To let a node take a problem.
    Switch(SwitchWords<'a>),
}
