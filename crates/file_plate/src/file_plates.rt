// Plates over files.

ghost use Rattle.std.specs.Prelude.{◌≡◌, ◌↔◌, ◌+◌, ◌≤◌, true, [], length, OnOk, IfOk, IfErr};
ghost use Rattle.stable_record.specs.Faulty.{counted};
ghost use Rattle.slot_record.specs.Images.{part, IsWritten};
ghost use Rattle.slot_record.specs.Plates.{Only, NothingNew, Tears, GoesOn, Called, HasRead};
ghost use Rattle.slot_record.specs.MemoryPlates.{put};
ghost use Rattle.file_plate.specs.FileFaults.{IsOverFault};
ghost use Rattle.file_plate.specs.Media.{Gave, Took, Synced, WriteFailed, SyncFailed};
ghost use Rattle.file_plate.specs.FilePlates.{file_state, image_of, IsOpened, Asks, Reads};

use crate::{FileFault, Medium};
use slot_record::{Plate, PlateFault};
use std::alloc::Global;
use std::marker::Model;

/// A plate over a file, which it holds to the image that it keeps of it.
///
/// Contracts see what the file held when it was opened, what was asked of it since, whether a call has
/// failed, and the count of failures. While a `FilePlate` is in use nobody else may write the file.
#[derive(Drop)]
pub struct FilePlate<M: Medium> {
    medium: M,
    opening: Vec<u8>,
    image: Vec<u8>,
    count: u64,
    is_broken: bool,
}

impl<M: Medium> Model for FilePlate<M> {
    ghost use Rattle.std.specs.Prelude.{map};
    ghost use Rattle.slot_record.specs.MemoryPlates.{IsMemory};
    ghost use Rattle.file_plate.specs.FilePlates.{OnFile, plate_call};

    ghost Value = { OnFile };

    ghost view = { λ p. record { first = p.opening.items; asked = M.asked p.medium; broken = p.is_broken; failures = p.count } };

    ghost invariant = { λ p. IsMemory p.image.items p.opening.items (map plate_call (M.asked p.medium)) };
}

/// Counts a failure.
fn fail(count: &mut u64) -> PlateFault
    ensures { count.new ≡ counted count.old }
{
    *count = count.saturating_add(1);
    PlateFault
}

/// Writes other bytes over those from a place on.
fn overwrite(bytes: &mut [u8], at: usize, with: &[u8])
    requires { at + length with.now ≤ length bytes.old }
    ensures { bytes.new ≡ put at with.now bytes.old }
{
    bytes[at..at + with.len()].copy_from_slice(with);
}

/// Whether a file gave what the image has from a place on.
fn is_part(image: &[u8], at: usize, found: &[u8]) -> bool
    requires { at + length found.now ≤ length image.now }
    ensures { (result ≡ true) ↔ (found.now ≡ part at (length found.now) image.now) }
{
    found == &image[at..at + found.len()]
}

impl<M: Medium> FilePlate<M> {
    /// The plate over a file of so many bytes, of which nothing was asked before. It settles the file,
    /// and then reads it whole.
    ///
    /// Before the file is asked, 933 (out of memory). Then 946 (the file can't be synced), 945 (it can't
    /// be read), 933.
    pub fn over(alloc: Global, medium: M, size: u32) -> Result<FilePlate<M>, FileFault>
        requires { M.asked medium ≡ [] }
        ensures opened { IfOk result (λ p. IsOpened size p) }
        ensures faults { IfErr result (λ fault. IsOverFault fault) }
    {
        let mut medium = medium;
        let Ok(mut image) = vec![in alloc; 0u8; size as usize] else {
            return Err(FileFault::Memory);
        };
        if medium.settle().is_err() {
            return Err(FileFault::Unwritable);
        }
        if medium.read_at(0, &mut image).is_err() {
            return Err(FileFault::Unreadable);
        }
        let Ok(opening) = Vec::from_slice(alloc, &image) else {
            return Err(FileFault::Memory);
        };
        Ok(FilePlate {
            medium,
            opening,
            image,
            count: 0,
            is_broken: false,
        })
    }

    /// The file, as the calls left it.
    pub fn into_medium(self) -> M
        ensures { M.asked result ≡ self.asked }
    {
        let FilePlate { medium, .. } = self;
        medium
    }

    fn try_read(&mut self, at: u32, buffer: &mut [u8]) -> Result<(), PlateFault>
        requires { at + length buffer.old ≤ length self.old.first }
        ensures reads { Reads at buffer.new self.old result self.new }
        ensures read { OnOk result (buffer.new ≡ part at (length buffer.old) (image_of self.old)) }
    {
        if self.is_broken {
            return Err(fail(&mut self.count));
        }
        if self.medium.read_at(at, buffer).is_err() {
            self.is_broken = true;
            return Err(fail(&mut self.count));
        }
        if !is_part(&self.image, at as usize, buffer) {
            self.is_broken = true;
            return Err(fail(&mut self.count));
        }
        Ok(())
    }

    fn try_write(&mut self, at: u32, bytes: &[u8]) -> Result<(), PlateFault>
        requires { at + length bytes.now ≤ length self.old.first }
        ensures asks { Asks (Took at bytes.now) (WriteFailed at (length bytes.now)) self.old result self.new }
    {
        if self.is_broken {
            return Err(fail(&mut self.count));
        }
        if self.medium.write_at(at, bytes).is_err() {
            self.is_broken = true;
            return Err(fail(&mut self.count));
        }
        overwrite(&mut self.image, at as usize, bytes);
        Ok(())
    }

    fn try_sync(&mut self) -> Result<(), PlateFault>
        ensures asks { Asks Synced SyncFailed self.old result self.new }
    {
        if self.is_broken {
            return Err(fail(&mut self.count));
        }
        if self.medium.sync().is_err() {
            self.is_broken = true;
            return Err(fail(&mut self.count));
        }
        Ok(())
    }
}

impl<M: Medium> Plate for FilePlate<M> {
    ghost use Rattle.slot_record.specs.MemoryLaws.{memory_is_plate};
    ghost use Rattle.file_plate.specs.FilePlates.{model_of};

    ghost state = { file_state };

    ghost sound = { λ p. memory_is_plate (model_of p) };

    fn size(&self) -> u32 {
        self.opening.len() as u32
    }

    fn failures(&self) -> u64 {
        self.count
    }

    // Clauses at a call of the impl take the place of the trait's, which are therefore repeated here.

    /// Answers Ok just where the file gave what the image has. After a failure the file is asked nothing.
    fn read_at(&mut self, at: u32, buffer: &mut [u8]) -> Result<(), PlateFault>
        requires { at + length buffer.old ≤ (file_state self.old).size }
        ensures read { OnOk result (HasRead at buffer.old buffer.new (file_state self.old) (file_state self.new)) }
        ensures images { NothingNew (file_state self.old) (file_state self.new) }
        ensures time { GoesOn (file_state self.old) (file_state self.new) }
        ensures called { Called (file_state self.old) (file_state self.new) result }
        ensures reads { Reads at buffer.new self.old result self.new }
    {
        self.try_read(at, buffer)
    }

    /// Answers Ok just where the file took these bytes. After a failure the file is asked nothing.
    fn write_at(&mut self, at: u32, bytes: &[u8]) -> Result<(), PlateFault>
        requires { at + length bytes.now ≤ (file_state self.old).size }
        ensures written { OnOk result (IsWritten at bytes.now (file_state self.old).seen (file_state self.new).seen) }
        ensures images { Tears at (length bytes.now) (file_state self.old) (file_state self.new) }
        ensures time { GoesOn (file_state self.old) (file_state self.new) }
        ensures called { Called (file_state self.old) (file_state self.new) result }
        ensures asks { Asks (Took at bytes.now) (WriteFailed at (length bytes.now)) self.old result self.new }
    {
        self.try_write(at, bytes)
    }

    /// Answers Ok just where the file was synced. After a failure the file is asked nothing.
    fn sync(&mut self) -> Result<(), PlateFault>
        ensures synced { OnOk result (Only (file_state self.old).seen (file_state self.new)) }
        ensures images { NothingNew (file_state self.old) (file_state self.new) }
        ensures time { GoesOn (file_state self.old) (file_state self.new) }
        ensures called { Called (file_state self.old) (file_state self.new) result }
        ensures asks { Asks Synced SyncFailed self.old result self.new }
    {
        self.try_sync()
    }
}
