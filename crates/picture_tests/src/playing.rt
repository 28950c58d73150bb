// A journal drawn from a world of one node with one vote and of two clients, all of them down.

use crate::listing::Listing;
use journal_audit::AuditFault;
use journal_picture::{Drawing, draw_lines};
use line_streams::{LineReader, MAX_READS};
use lock_messages::Actor;
use lock_model::Problem;
use run_picture::{Lasting, Part};
use std::alloc::Global;
use std::io::Read;
use test_outcomes::{Failure, client_id, node_id};
use test_support::{ballots_of, new_world};

/// The whole of a journal.
pub(crate) const WHOLE: Part = Part {
    first: 1,
    last: u32::MAX,
    resource: None,
};

/// The world's actors, all of them down.
fn all_down() -> [Lasting; 3] {
    [
        Lasting::Down(Actor::Node(node_id(1))),
        Lasting::Down(Actor::Client(client_id(1))),
        Lasting::Down(Actor::Client(client_id(2))),
    ]
}

/// What comes of drawing a part of the journal that a reader gives, and its marks.
pub(crate) fn draw<R: Read>(
    alloc: Global,
    reader: R,
    part: Part,
) -> Result<(Result<Drawing, AuditFault>, String), Failure>
where
    R: Drop,
{
    let down = all_down();
    let world = new_world(alloc, ballots_of(&[1], 1, 1)?, Problem::First, 2)?;
    let mut source = LineReader::new(reader, MAX_READS);
    let mut canvas = Listing::new(alloc);
    let came = draw_lines(alloc, world, part, &down, &mut source, &mut canvas);
    Ok((came, canvas.text))
}

/// The marks of a part of a journal.
pub(crate) fn marks(alloc: Global, journal: &str, part: Part) -> Result<String, Failure> {
    match draw(alloc, journal.as_bytes(), part)? {
        (Ok(_), text) => Ok(text),
        (Err(AuditFault::Memory), _) => Err(Failure::Memory),
        (Err(_), _) => Err(Failure::Wrong(0)),
    }
}
