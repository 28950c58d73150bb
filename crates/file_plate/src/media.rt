// What a plate asks of a file.

ghost use Rattle.std.specs.Prelude.{◌≡◌, List, ◌∷◌, length};
ghost use Rattle.file_plate.specs.Media.{MediumCall, Settled, Gave, Took, Synced, SettleFailed, ReadFailed, WriteFailed, SyncFailed, by_answer};

use std::io;

/// A file, or what takes the place of one in a test.
///
/// It notes each call and its answer in a list that no code computes, `asked`, with the latest call
/// first. Nothing is promised of what a call does, or of what a read gives: the list is what the medium
/// says of itself.
pub trait Medium: Drop {
    ghost asked: { Self → List MediumCall };

    /// Makes sure of all that was written before the file was opened, and of its size.
    fn settle(&mut self) -> io::Result<()>
        ensures { asked self.new ≡ by_answer result Settled SettleFailed ∷ asked self.old };

    /// Fills the buffer with the bytes from a place on.
    fn read_at(&mut self, at: u32, buffer: &mut [u8]) -> io::Result<()>
        ensures { asked self.new ≡ by_answer result (Gave at buffer.new) (ReadFailed at (length buffer.new)) ∷ asked self.old };

    /// Writes all these bytes from a place on.
    fn write_at(&mut self, at: u32, bytes: &[u8]) -> io::Result<()>
        ensures { asked self.new ≡ by_answer result (Took at bytes.now) (WriteFailed at (length bytes.now)) ∷ asked self.old };

    /// Makes sure of all that was written.
    fn sync(&mut self) -> io::Result<()>
        ensures { asked self.new ≡ by_answer result Synced SyncFailed ∷ asked self.old };
}
