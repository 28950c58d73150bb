// What the caller hands in for each actor.

use stable_record::StableRecord;

/// What the caller hands in for a node: its recorder, which has logged nothing, and its record.
#[derive(Drop)]
pub struct NodeStart<N> {
    pub recorder: N,
    pub stable: Box<dyn StableRecord + Send>,
}

/// What the caller hands in for a client: its recorder, which has logged nothing, and its record.
#[derive(Drop)]
pub struct ClientStart<C, S> {
    pub recorder: C,
    pub stable: S,
}
