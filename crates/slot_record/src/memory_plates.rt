// A plate in memory.

ghost use Rattle.std.specs.Prelude.{◌≡◌, ◌+◌, ◌<◌, ◌≤◌, ◌^◌, [], Some, None, length, map, replicate, OnOk, IfOk, IsOkUnless};
ghost use Rattle.stable_record.specs.Faulty.{counted};
ghost use Rattle.slot_record.specs.Images.{part, IsWritten};
ghost use Rattle.slot_record.specs.Plates.{Only, NothingNew, Tears, GoesOn, Called, HasRead};
ghost use Rattle.slot_record.specs.MemoryPlates.{Idle, Written, Torn, Synced, state_of, call_of, Makes, MayLeave, put, content, filled, IsWithin, lasts, burnt};

use crate::{Plate, PlateFault, SlotFault};
use std::alloc::Global;
use std::collections::LinkedList;
use std::marker::Model;

/// A device call, as the record of calls has it.
#[derive(Drop)]
enum Call {
    /// A read, or a sync that failed.
    Idle,
    /// These bytes were written at this place.
    Written(u32, Vec<u8>),
    /// A write of that many bytes at this place failed.
    Torn(u32, u32),
    Synced,
}

/// A plate in memory, for tests, with a fuse that makes its calls fail.
///
/// It keeps a record of its calls, and a call that the record has no memory for fails, counted. A
/// call that failed has changed nothing that a read gives. Contracts see it as what it held at first,
/// the record of its calls, the fuse and the count of failures.
#[derive(Drop)]
pub struct MemoryPlate {
    alloc: Global,
    opening: Vec<u8>,
    bytes: Vec<u8>,
    made: LinkedList<Call>,
    until_fault: Option<u32>,
    count: u64,
}

impl Model for MemoryPlate {
    ghost use Rattle.std.specs.Prelude.{map};
    ghost use Rattle.slot_record.specs.MemoryPlates.{Memory, call_of, IsMemory};

    ghost Value = { Memory };

    ghost view = { λ m. record { first = m.opening.items; calls = map call_of m.made; fuse = m.until_fault; failures = m.count } };

    ghost invariant = { λ m. IsMemory m.bytes.items m.opening.items (map call_of m.made) };
}

/// Counts a call against the fuse: whether it is done.
fn goes(until_fault: &mut Option<u32>) -> bool
    ensures result { result ≡ lasts until_fault.old }
    ensures fuse { until_fault.new ≡ burnt until_fault.old }
{
    match *until_fault {
        None => true,
        Some(calls) if calls > 1 => {
            *until_fault = Some(calls - 1);
            true
        }
        Some(_) => false,
    }
}

/// Counts a failure.
fn fail(count: &mut u64) -> PlateFault
    ensures { count.new ≡ counted count.old }
{
    *count = count.saturating_add(1);
    PlateFault
}

/// Writes other bytes over those from a place on.
fn overwrite(bytes: &mut [u8], at: usize, with: &[u8])
    requires { at + length with.now ≤ length bytes.old }
    ensures { bytes.new ≡ put at with.now bytes.old }
{
    bytes[at..at + with.len()].copy_from_slice(with);
}

/// Writes one byte into a whole range.
fn fill_range(bytes: &mut [u8], at: usize, len: usize, fill: u8)
    requires { at + len ≤ length bytes.old }
    ensures { bytes.new ≡ put at (replicate len fill) bytes.old }
{
    bytes[at..at + len].fill(fill);
}

impl MemoryPlate {
    /// A plate of that many bytes, all of them 0. The only fault is that memory was refused (406).
    pub fn of(alloc: Global, size: u32) -> Result<MemoryPlate, SlotFault>
        ensures made { IfOk result (λ m. m ≡ record { first = replicate size 0; calls = []; fuse = None; failures = 0 }) }
        ensures memory { IsOkUnless result SlotFault.Memory }
    {
        let Ok(bytes) = vec![in alloc; 0u8; size as usize] else {
            return Err(SlotFault::Memory);
        };
        MemoryPlate::holding(alloc, bytes)
    }

    /// A plate with these bytes, whose memory it keeps.
    fn holding(alloc: Global, bytes: Vec<u8>) -> Result<MemoryPlate, SlotFault>
        requires { length bytes.items < 2 ^ 32 }
        ensures made { IfOk result (λ m. m ≡ record { first = bytes.items; calls = []; fuse = None; failures = 0 }) }
        ensures memory { IsOkUnless result SlotFault.Memory }
    {
        let Ok(opening) = Vec::from_slice(alloc, &bytes) else {
            return Err(SlotFault::Memory);
        };
        Ok(MemoryPlate {
            alloc,
            opening,
            bytes,
            made: LinkedList::new(alloc),
            until_fault: None,
            count: 0,
        })
    }

    /// Lets the `k`-th device call from now and all later ones fail. The caller owes that `k` isn't 0.
    pub fn fuse(&mut self, k: u32)
        requires { 1 ≤ k }
        ensures { self.new ≡ record self.old { fuse = Some k } }
    {
        self.until_fault = Some(k);
    }

    /// Takes the fuse out: no call fails by it any more.
    pub fn mend(&mut self)
        ensures { self.new ≡ record self.old { fuse = None } }
    {
        self.until_fault = None;
    }

    /// The plate that a crash now may leave: what a read gives, with this byte wherever something was
    /// written since the last sync that succeeded, also where the write failed. The only fault is
    /// that memory was refused (406).
    pub fn after_crash(&self, fill: u8) -> Result<MemoryPlate, SlotFault>
        ensures left { IfOk result (λ m. m ≡ record { first = filled fill self.now.calls (content self.now.first self.now.calls); calls = []; fuse = None; failures = 0 }) }
        // It is one of the images that a crash may leave.
        ensures allowed { IfOk result (λ m. MayLeave self.now.first self.now.calls m.first) }
        ensures memory { IsOkUnless result SlotFault.Memory }
    {
        let bytes = self.crashed(fill)?;
        MemoryPlate::holding(self.alloc, bytes)
    }

    /// What a crash now may leave.
    fn crashed(&self, fill: u8) -> Result<Vec<u8>, SlotFault>
        ensures left { IfOk result (λ bytes. bytes.items ≡ filled fill self.now.calls (content self.now.first self.now.calls)) }
        ensures small { IfOk result (λ bytes. length bytes.items < 2 ^ 32) }
        ensures memory { IsOkUnless result SlotFault.Memory }
    {
        let Ok(mut bytes) = Vec::from_slice(self.alloc, &self.bytes) else {
            return Err(SlotFault::Memory);
        };
        fill_unsynced(&self.made, &mut bytes, fill);
        Ok(bytes)
    }

    fn try_read(&mut self, at: u32, buffer: &mut [u8]) -> Result<(), PlateFault>
        requires { at + length buffer.old ≤ length self.old.first }
        ensures makes { Makes Idle Idle self.old result self.new }
        ensures read { OnOk result (buffer.new ≡ part at (length buffer.old) (content self.old.first self.old.calls)) }
    {
        if !goes(&mut self.until_fault) {
            let _ = self.made.push_front(Call::Idle);
            return Err(fail(&mut self.count));
        }
        if self.made.push_front(Call::Idle).is_err() {
            return Err(fail(&mut self.count));
        }
        let start = at as usize;
        let end = start + buffer.len();
        buffer.copy_from_slice(&self.bytes[start..end]);
        Ok(())
    }

    fn try_write(&mut self, at: u32, bytes: &[u8]) -> Result<(), PlateFault>
        requires { at + length bytes.now ≤ length self.old.first }
        ensures makes { Makes (Written at bytes.now) (Torn at (length bytes.now)) self.old result self.new }
    {
        if !goes(&mut self.until_fault) {
            let _ = self.made.push_front(Call::Torn(at, bytes.len() as u32));
            return Err(fail(&mut self.count));
        }
        let Ok(copy) = Vec::from_slice(self.alloc, bytes) else {
            return Err(fail(&mut self.count));
        };
        if self.made.push_front(Call::Written(at, copy)).is_err() {
            return Err(fail(&mut self.count));
        }
        overwrite(&mut self.bytes, at as usize, bytes);
        Ok(())
    }

    fn try_sync(&mut self) -> Result<(), PlateFault>
        ensures makes { Makes Synced Idle self.old result self.new }
    {
        if !goes(&mut self.until_fault) {
            let _ = self.made.push_front(Call::Idle);
            return Err(fail(&mut self.count));
        }
        if self.made.push_front(Call::Synced).is_err() {
            return Err(fail(&mut self.count));
        }
        Ok(())
    }
}

/// Writes one byte wherever something was written since the last sync that succeeded.
fn fill_unsynced(made: &LinkedList<Call>, bytes: &mut [u8], fill: u8)
    requires { IsWithin (length bytes.old) (map call_of made.now) }
    ensures { bytes.new ≡ filled fill (map call_of made.now) bytes.old }
{
    for call in made {
        match call {
            Call::Synced => return,
            Call::Idle => {}
            Call::Written(at, written) => fill_range(bytes, *at as usize, written.len(), fill),
            Call::Torn(at, len) => fill_range(bytes, *at as usize, *len as usize, fill),
        }
    }
}

impl Plate for MemoryPlate {
    ghost use Rattle.slot_record.specs.MemoryPlates.{state_of};
    ghost use Rattle.slot_record.specs.MemoryLaws.{memory_is_plate};

    ghost state = { state_of };

    ghost sound = { memory_is_plate };

    fn size(&self) -> u32 {
        self.opening.len() as u32
    }

    fn failures(&self) -> u64 {
        self.count
    }

    // Clauses at a call of the impl take the place of the trait's, which are therefore repeated here.

    /// Fails just by the fuse, or where memory to note the call was refused. It is noted as idle, also
    /// where the fuse lets it fail.
    fn read_at(&mut self, at: u32, buffer: &mut [u8]) -> Result<(), PlateFault>
        requires { at + length buffer.old ≤ (state_of self.old).size }
        ensures read { OnOk result (HasRead at buffer.old buffer.new (state_of self.old) (state_of self.new)) }
        ensures images { NothingNew (state_of self.old) (state_of self.new) }
        ensures time { GoesOn (state_of self.old) (state_of self.new) }
        ensures called { Called (state_of self.old) (state_of self.new) result }
        ensures makes { Makes Idle Idle self.old result self.new }
    {
        self.try_read(at, buffer)
    }

    /// Fails just by the fuse, or where memory to note the call was refused. It is noted with its bytes,
    /// and with the torn range alone where the fuse lets it fail.
    fn write_at(&mut self, at: u32, bytes: &[u8]) -> Result<(), PlateFault>
        requires { at + length bytes.now ≤ (state_of self.old).size }
        ensures written { OnOk result (IsWritten at bytes.now (state_of self.old).seen (state_of self.new).seen) }
        ensures images { Tears at (length bytes.now) (state_of self.old) (state_of self.new) }
        ensures time { GoesOn (state_of self.old) (state_of self.new) }
        ensures called { Called (state_of self.old) (state_of self.new) result }
        ensures makes { Makes (Written at bytes.now) (Torn at (length bytes.now)) self.old result self.new }
    {
        self.try_write(at, bytes)
    }

    /// Fails just by the fuse, or where memory to note the call was refused. It is noted as a sync, and
    /// as idle where the fuse lets it fail.
    fn sync(&mut self) -> Result<(), PlateFault>
        ensures synced { OnOk result (Only (state_of self.old).seen (state_of self.new)) }
        ensures images { NothingNew (state_of self.old) (state_of self.new) }
        ensures time { GoesOn (state_of self.old) (state_of self.new) }
        ensures called { Called (state_of self.old) (state_of self.new) result }
        ensures makes { Makes Synced Idle self.old result self.new }
    {
        self.try_sync()
    }
}
