// How threads ended.

use event_recorders::RunFault;

/// How a node's thread ended: by which fault, if by one; and its recorder.
#[derive(Drop)]
pub struct NodeEnd<N> {
    /// 911, 914, 915 or 916. Without a fault its link brought nothing more.
    pub fault: Option<RunFault>,
    pub recorder: N,
}

/// How a client's thread ended: by which fault its session ended, if by one; its recorder; and its record.
#[derive(Drop)]
pub struct ClientEnd<C, S> {
    pub fault: Option<RunFault>,
    pub recorder: C,
    pub stable: S,
}

/// What a service leaves: how each thread ended, in the order in which the actors were handed in.
#[derive(Drop)]
pub struct OwnServiceEnd<N, C, S> {
    pub nodes: Vec<NodeEnd<N>>,
    pub clients: Vec<ClientEnd<C, S>>,
}
