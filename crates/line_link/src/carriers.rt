// The trait of what carries lines.

ghost use Rattle.std.specs.Prelude.{◌≡◌, Option};
ghost use Rattle.lossy_link.specs.Links.{one_more};
ghost use Rattle.line_link.specs.Carried.{Given};

use lock_messages::Actor;

/// The answer of a carrier that was asked for a line.
#[derive(Clone, Copy, Debug, PartialEq, Eq)]
pub enum Taken {
    /// A line.
    Line,
    /// No line has come yet.
    Nothing,
    /// No line will come.
    Closed,
}

/// Carries lines to actors, and brings lines to one. It may lose, repeat, reorder and tear them.
///
/// A ghost member, which no code computes, says what it means: `given` is the lines that were put, in order, if the
/// carrier remembers them.
pub trait Carrier {
    ghost given: { Self → Option Given };

    /// Puts a line, with its line feed, to an actor, by one write. If that fails the line is lost. It does not wait.
    fn put(&mut self, to: Actor, line: &[u8])
        ensures { given self.new ≡ one_more (given self.old) (to, line.now) };

    /// Makes `line` the next line that has come, without its line feed. It does not wait. If memory runs out, the line
    /// is lost.
    fn take(&mut self, line: &mut Vec<u8>) -> Taken
        ensures { given self.new ≡ given self.old };
}
