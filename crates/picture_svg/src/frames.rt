// Where things stand in a picture.

ghost use Rattle.std.specs.Prelude.{◌≤◌, ◌^◌};

use lock_messages::{Actor, ClientId, NodeId};
use run_picture::Place;

/// Where the first drawn line begins.
pub(crate) const TOP: u64 = 176;

/// Half of the height of a line.
pub(crate) const HALF_ROW: u64 = 8;

/// What stands below the last line.
pub(crate) const BELOW: u64 = 44;

/// The width of the line's number and text, of which `LINE_ROOM` bytes are shown.
pub(crate) const GUTTER: u64 = 250;

/// The most bytes of a line that are shown.
pub(crate) const LINE_ROOM: usize = 28;

/// The width of a client's column.
const CLIENT_WIDTH: u64 = 88;

/// The width that the votes of one client's tickets have at a node.
pub(crate) const LANE: u64 = 7;

/// The width of a node's column beside them.
const NODE_WIDTH: u64 = 124;

/// The most clients whose votes have a place of their own at a node; those behind them share these.
const MAX_LANES: u32 = 16;

/// The least width, which the legend needs.
const LEAST_WIDTH: u64 = 760;

/// How many columns a picture has: one for each node and one for each client.
#[derive(Clone, Copy, Debug, PartialEq, Eq)]
pub struct Frame {
    pub nodes: u8,
    pub clients: u16,
}

impl Frame {
    /// How many clients have a place of their own at a node.
    fn lanes(&self) -> u32
        ensures { result ≤ 16 }
    {
        (self.clients as u32).min(MAX_LANES)
    }

    /// The width of the places of votes.
    fn votes_width(&self) -> u64
        ensures { result ≤ 112 }
    {
        self.lanes() as u64 * LANE
    }

    /// Where the columns of so many nodes end.
    fn behind_nodes(&self, count: u8) -> u64
        ensures { result ≤ 65536 }
    {
        let wide = self.votes_width() + NODE_WIDTH;
        GUTTER
            .saturating_add(wide.saturating_mul(count as u64))
            .min(65_536)
    }

    /// Where the columns of so many clients end.
    fn behind_clients(&self, count: u32) -> u64 {
        self.behind_nodes(self.nodes)
            .saturating_add(CLIENT_WIDTH.saturating_mul(count as u64))
    }

    /// The picture's width.
    pub(crate) fn width(&self) -> u64 {
        self.behind_clients(self.clients as u32)
            .saturating_add(10)
            .max(LEAST_WIDTH)
    }

    /// Where an actor's column begins.
    pub(crate) fn left(&self, who: &Actor) -> u64 {
        match who {
            Actor::Node(id) => self.behind_nodes(id.get() - 1),
            Actor::Client(id) => self.behind_clients(id.get() - 1),
        }
    }

    /// The width of an actor's column.
    pub(crate) fn column_width(&self, who: &Actor) -> u64 {
        match who {
            Actor::Node(_) => self.votes_width() + NODE_WIDTH,
            Actor::Client(_) => CLIENT_WIDTH,
        }
    }

    /// Where an actor's marks stand: at a node's right side, which the clients' columns face, and at a client's
    /// left one.
    pub(crate) fn axis(&self, who: &Actor) -> u64 {
        let from_left = match who {
            Actor::Node(_) => self.votes_width() + NODE_WIDTH - 14,
            Actor::Client(_) => 26,
        };
        self.left(who).saturating_add(from_left)
    }

    /// Where the vote of a node for a client's ticket stands.
    pub(crate) fn lane(&self, node: NodeId, client: ClientId) -> u64 {
        let lane = (client.get() - 1) % MAX_LANES;
        self.left(&Actor::Node(node))
            .saturating_add(2 + lane as u64 * LANE)
    }
}

/// How far below the picture's top a place is.
pub(crate) fn depth(place: &Place) -> u64
    ensures { result ≤ 2 ^ 36 }
{
    TOP + place.height as u64 * HALF_ROW
}
