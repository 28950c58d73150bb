// Records as they are seen, without a lock that lasts.

ghost use Rattle.std.specs.Prelude.{◌≡◌, ◌⊎◌, ◌≤◌, Some, length, IfOk, IfErr, IfSome};
ghost use Rattle.lock_messages.specs.declared.ids.TheConstants.{MAX_NODES, MAX_CLIENTS};
ghost use Rattle.rotating_record.specs.declared.slots.TheConstants.{ROTATING_PLATE_LEN as SIZE};
ghost use Rattle.rotating_record.specs.Slots.{found_on};
ghost use Rattle.service_status.specs.Sights.{IsOpenFault, IsReadFault, IsStateFault, HoldsBody, HoldsNode, HoldsClient, IsOfFile, node_state_of, client_state_of, IsNodeState, IsClientState, AreNodes, AreClients, IsSight};

use crate::{ClientState, NodeState, SeenClient, SeenNode, Sight};
use file_plate::FileFault;
use lock_messages::{Actor, ClientId, NodeId};
use record_view::{RecordView, view};
use rotating_record::ROTATING_PLATE_LEN;
use service_folders::record_path;
use stable_record::{NodeRecord, RecordFault, read_client, read_node};
use std::alloc::{AllocError, Global};
use std::fs::{self, File, Files, TryLockError};
use std::io::{self, ErrorKind};
use std::os::unix::fs::FileExt;

/// How often a record is read that isn't whole because its actor writes it.
const MAX_TRIES: u32 = 20;

/// The fault of a file that the operating system doesn't give.
fn refused(error: io::Error) -> FileFault
    ensures { IsOpenFault result }
{
    if error.kind() == ErrorKind::NotFound {
        return FileFault::Missing;
    }
    FileFault::Unreadable
}

/// Opens a regular file to read it. A pipe is not opened, since that may wait.
fn open_to_read<R: Files<File = File>>(files: &R, path: &str) -> Result<File, FileFault>
    ensures { IfErr result (λ fault. IsOpenFault fault) }
{
    match fs::metadata(files, path) {
        Ok(found) if found.is_file() => {}
        Ok(_) => return Err(FileFault::Unreadable),
        Err(error) => return Err(refused(error)),
    }
    match File::open(files, path) {
        Ok(file) => Ok(file),
        Err(error) => Err(refused(error)),
    }
}

/// Whether a process has the file locked. It takes the shared lock for a moment to find out.
fn is_locked(file: &File) -> Result<bool, FileFault>
    ensures { IfErr result (λ fault. fault ≡ FileFault.Unreadable) }
{
    match file.try_lock_shared() {
        Ok(()) => {}
        Err(TryLockError::WouldBlock) => return Ok(true),
        Err(TryLockError::Error(_)) => return Err(FileFault::Unreadable),
    }
    match file.unlock() {
        Ok(()) => Ok(false),
        Err(_) => Err(FileFault::Unreadable),
    }
}

/// The bytes of a file that has the size of a record. It returns 943 (it has another size), 933 (out of memory) or 945
/// (it can't be read).
fn bytes_in(alloc: Global, file: &File) -> Result<Vec<u8>, FileFault>
    ensures whole { IfOk result (λ bytes. length bytes.items ≡ SIZE) }
    ensures faults { IfErr result (λ fault. IsReadFault fault) }
{
    match file.metadata() {
        Ok(found) if found.len() == u64::from(ROTATING_PLATE_LEN) => {}
        Ok(_) => return Err(FileFault::WrongSize),
        Err(_) => return Err(FileFault::Unreadable),
    }
    let Ok(mut bytes) = vec![in alloc; 0u8; ROTATING_PLATE_LEN as usize] else {
        return Err(FileFault::Memory);
    };
    if file.read_exact_at(&mut bytes, 0).is_err() {
        return Err(FileFault::Unreadable);
    }
    Ok(bytes)
}

/// The body that opening finds on these bytes. It returns 944 (no slot has a record) or 933 (out of memory).
fn body_on(alloc: Global, bytes: &[u8]) -> Result<Vec<u8>, FileFault>
    requires { length bytes.now ≡ SIZE }
    ensures found { IfOk result (λ body. found_on bytes.now ≡ Some body.items) }
    ensures faults { IfErr result (λ fault. IsReadFault fault) }
{
    let seen = match view(alloc, bytes) {
        Ok(seen) => seen,
        Err(_) => return Err(FileFault::Memory),
    };
    let RecordView { body, text: _ } = seen;
    match body {
        Some(body) => Ok(body),
        None => Err(FileFault::NotFormatted),
    }
}

/// The body that opening finds in a file. It returns 943 (the file hasn't the size of a record), 933 (out of
/// memory), 945 (it can't be read) or 944 (no slot has a record).
fn body_in(alloc: Global, file: &File) -> Result<Vec<u8>, FileFault>
    ensures found { IfOk result (λ body. HoldsBody body.items) }
    ensures faults { IfErr result (λ fault. IsReadFault fault) }
{
    let bytes = bytes_in(alloc, file)?;
    let body = body_on(alloc, &bytes)?;
    Ok(body)
}

/// The record of a node in a file. It returns the faults of `body_in`, and 944 also if the body is no node's record.
fn node_in(alloc: Global, file: &File) -> Result<NodeRecord, FileFault>
    ensures found { IfOk result (λ kept. HoldsNode kept) }
    ensures faults { IfErr result (λ fault. IsReadFault fault) }
{
    let body = body_in(alloc, file)?;
    match read_node(alloc, &body) {
        Ok(kept) => Ok(kept),
        Err(RecordFault::NoMemory) => Err(FileFault::Memory),
        Err(_) => Err(FileFault::NotFormatted),
    }
}

/// The record of a node in a file that the node may write meanwhile. A read that comes upon a half-written record is
/// made again, `MAX_TRIES` times at most.
fn whole_node_in(alloc: Global, file: &File) -> Result<NodeRecord, FileFault>
    ensures found { IfOk result (λ kept. HoldsNode kept) }
    ensures faults { IfErr result (λ fault. IsReadFault fault) }
{
    for _ in 0..MAX_TRIES {
        match node_in(alloc, file) {
            Err(FileFault::NotFormatted) => {}
            read => return read,
        }
    }
    Err(FileFault::NotFormatted)
}

/// The last attempt that a client's record in a file has. It returns the faults of `body_in`, and 944 also if the body
/// is no client's record.
fn attempt_in(alloc: Global, file: &File) -> Result<u64, FileFault>
    ensures found { IfOk result (λ attempt. HoldsClient attempt) }
    ensures faults { IfErr result (λ fault. IsReadFault fault) }
{
    let body = body_in(alloc, file)?;
    match read_client(&body) {
        Ok(attempt) => Ok(attempt),
        Err(_) => Err(FileFault::NotFormatted),
    }
}

/// The last attempt in a record that the client may write meanwhile, as `whole_node_in` reads that of a node.
fn whole_attempt_in(alloc: Global, file: &File) -> Result<u64, FileFault>
    ensures found { IfOk result (λ attempt. HoldsClient attempt) }
    ensures faults { IfErr result (λ fault. IsReadFault fault) }
{
    for _ in 0..MAX_TRIES {
        match attempt_in(alloc, file) {
            Err(FileFault::NotFormatted) => {}
            read => return read,
        }
    }
    Err(FileFault::NotFormatted)
}

/// Whether a process runs the node of this record, and what the record says.
fn read_seen_node<R: Files<File = File>>(
    files: &R,
    alloc: Global,
    path: &str,
) -> Result<(bool, NodeRecord), FileFault>
    ensures found { IfOk result (λ seen. HoldsNode seen.1) }
    ensures faults { IfErr result (λ fault. IsOfFile fault) }
{
    let file = open_to_read(files, path)?;
    let up = is_locked(&file)?;
    let kept = whole_node_in(alloc, &file)?;
    Ok((up, kept))
}

/// What is seen of a node by what was read, or `None` if memory ran out.
fn node_state_of(read: Result<(bool, NodeRecord), FileFault>) -> Option<NodeState>
    ensures { result ≡ node_state_of read }
{
    match read {
        Ok((up, kept)) => Some(NodeState::Seen(up, kept)),
        Err(FileFault::Missing) => Some(NodeState::Elsewhere),
        Err(FileFault::Memory) => None,
        Err(fault) => Some(NodeState::Faulty(fault)),
    }
}

/// What is seen of a node by its record. Running out of memory is the only error.
#[tactic(auto, using(crate::proofs::StateFacts::node_state_is))]
fn node_state<R: Files<File = File>>(
    files: &R,
    alloc: Global,
    path: &str,
) -> Result<NodeState, AllocError>
    ensures { IfOk result (λ state. IsNodeState state) }
{
    match node_state_of(read_seen_node(files, alloc, path)) {
        Some(state) => Ok(state),
        None => Err(AllocError),
    }
}

/// The last attempt in this record if a process runs its client. The record of a client that is down isn't read.
fn read_seen_client<R: Files<File = File>>(
    files: &R,
    alloc: Global,
    path: &str,
) -> Result<Option<u64>, FileFault>
    ensures found { IfOk result (λ seen. IfSome seen (λ attempt. HoldsClient attempt)) }
    ensures faults { IfErr result (λ fault. IsOfFile fault) }
{
    let file = open_to_read(files, path)?;
    if !is_locked(&file)? {
        return Ok(None);
    }
    let attempt = whole_attempt_in(alloc, &file)?;
    Ok(Some(attempt))
}

/// What is seen of a client by what was read, or `None` if memory ran out.
fn client_state_of(read: Result<Option<u64>, FileFault>) -> Option<ClientState>
    ensures { result ≡ client_state_of read }
{
    match read {
        Ok(Some(attempt)) => Some(ClientState::Up(attempt)),
        Ok(None) => Some(ClientState::Down),
        Err(FileFault::Missing) => Some(ClientState::Elsewhere),
        Err(FileFault::Memory) => None,
        Err(fault) => Some(ClientState::Faulty(fault)),
    }
}

/// What is seen of a client by its record. Running out of memory is the only error.
#[tactic(auto, using(crate::proofs::StateFacts::client_state_is))]
fn client_state<R: Files<File = File>>(
    files: &R,
    alloc: Global,
    path: &str,
) -> Result<ClientState, AllocError>
    ensures { IfOk result (λ state. IsClientState state) }
{
    match client_state_of(read_seen_client(files, alloc, path)) {
        Some(state) => Ok(state),
        None => Err(AllocError),
    }
}

/// Looks at a node of the service in this folder, as `look_at` does at each. Running out of memory is the only error.
pub fn see_node<R: Files<File = File>>(
    files: &R,
    alloc: Global,
    folder: &str,
    node: NodeId,
) -> Result<SeenNode, AllocError>
    ensures { IfOk result (λ seen. (seen.node ≡ node) × IsNodeState seen.state) }
{
    let path = record_path(alloc, folder, Actor::Node(node))?;
    let state = node_state(files, alloc, path.as_str())?;
    Ok(SeenNode { node, state })
}

/// What is seen of a client of the service in this folder.
fn see_client<R: Files<File = File>>(
    files: &R,
    alloc: Global,
    folder: &str,
    client: ClientId,
) -> Result<SeenClient, AllocError>
    ensures { IfOk result (λ seen. (seen.client ≡ client) × IsClientState seen.state) }
{
    let path = record_path(alloc, folder, Actor::Client(client))?;
    let state = client_state(files, alloc, path.as_str())?;
    Ok(SeenClient { client, state })
}

/// What is seen of the first nodes, so many, in the order of their numbers.
fn see_nodes<R: Files<File = File>>(
    files: &R,
    alloc: Global,
    folder: &str,
    count: u8,
) -> Result<Vec<SeenNode>, AllocError>
    requires { count ≤ MAX_NODES }
    ensures { IfOk result (λ nodes. AreNodes count nodes.items) }
{
    let mut nodes = Vec::new(alloc);
    for place in 0..count {
        let Some(node) = NodeId::of(place + 1) else {
            unreachable!()
        };
        nodes.push(see_node(files, alloc, folder, node)?)?;
    }
    Ok(nodes)
}

/// What is seen of the first clients, so many, in the order of their numbers.
fn see_clients<R: Files<File = File>>(
    files: &R,
    alloc: Global,
    folder: &str,
    count: u32,
) -> Result<Vec<SeenClient>, AllocError>
    requires { count ≤ MAX_CLIENTS }
    ensures { IfOk result (λ clients. AreClients count clients.items) }
{
    let mut clients = Vec::new(alloc);
    for place in 0..count {
        let Some(client) = ClientId::of(place + 1) else {
            unreachable!()
        };
        clients.push(see_client(files, alloc, folder, client)?)?;
    }
    Ok(clients)
}

/// Looks at a service's folder: at its nodes and its clients from the first on, so many. Running out of memory is
/// the only error.
///
/// It writes nothing. It takes the shared lock of each record for a moment, to find out whether a process runs the
/// actor. It reads the records of the nodes, and of the clients that run.
pub fn look_at<R: Files<File = File>>(
    files: &R,
    alloc: Global,
    folder: &str,
    nodes: u8,
    clients: u32,
) -> Result<Sight, AllocError>
    requires nodes { nodes ≤ MAX_NODES }
    requires clients { clients ≤ MAX_CLIENTS }
    ensures { IfOk result (λ sight. IsSight nodes clients sight) }
{
    let nodes = see_nodes(files, alloc, folder, nodes)?;
    let clients = see_clients(files, alloc, folder, clients)?;
    Ok(Sight { nodes, clients })
}
