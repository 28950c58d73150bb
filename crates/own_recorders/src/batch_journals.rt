// A journal that may hold its lines back.

ghost use Rattle.std.specs.Prelude.{◌≡◌};

use std::io::{self, Write};

/// A journal's writer that may hold back what is written to it, until it is to be let out.
///
/// Contracts count what it holds back as written.
pub trait BatchJournal: Write {
    /// Lets out what it holds back, before the actor keeps this record. After an error some of it may be out.
    fn let_out(&mut self, next: &[u8]) -> io::Result<()>
        ensures { Self.contents self.new ≡ Self.contents self.old };
}
