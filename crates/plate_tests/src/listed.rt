//! A plate that lists its calls, and of which single ones fail.

use slot_record::{MemoryPlate, Plate, PlateFault};

/// A device call: where it reads or writes, and how many bytes.
#[derive(Clone, Copy, PartialEq, Eq)]
pub(crate) enum Call {
    Read(u32, usize),
    Write(u32, usize),
    Sync,
}

/// How many calls are listed.
const ROOM: usize = 32;

/// A plate in memory that lists its first calls and fails at two of them, by their numbers from 1 on; at
/// no other.
#[derive(Drop)]
pub(crate) struct ListedPlate {
    inner: MemoryPlate,
    calls: [Call; ROOM],
    made: usize,
    failing: (usize, usize),
}

impl ListedPlate {
    pub(crate) fn over(inner: MemoryPlate, failing: (usize, usize)) -> ListedPlate {
        ListedPlate {
            inner,
            calls: [Call::Sync; ROOM],
            made: 0,
            failing,
        }
    }

    /// The calls behind the first so many.
    pub(crate) fn calls_behind(&self, first: usize) -> &[Call] {
        self.calls.get(first..self.made).unwrap_or(&[])
    }

    /// How many of its calls were made to fail.
    pub(crate) fn failed(&self) -> u64 {
        let (first, second) = self.failing;
        let made = |number: usize| u64::from(0 < number && number <= self.made);
        made(first).saturating_add(made(second))
    }

    /// The plate without its list.
    pub(crate) fn into_inner(self) -> MemoryPlate {
        self.inner
    }
}

/// Lists a call; whether it is one that fails.
fn lists(calls: &mut [Call; ROOM], made: &mut usize, failing: (usize, usize), call: Call) -> bool {
    if let Some(place) = calls.get_mut(*made) {
        *place = call;
    }
    *made = made.saturating_add(1);
    *made == failing.0 || *made == failing.1
}

impl Plate for ListedPlate {
    ghost use Rattle.slot_record.specs.MemoryPlates.{state_of};
    ghost use Rattle.slot_record.specs.MemoryLaws.{memory_is_plate};

    ghost state = { λ p. state_of p.inner };

    ghost sound = { λ p. memory_is_plate p.inner };

    fn size(&self) -> u32 {
        self.inner.size()
    }

    fn failures(&self) -> u64 {
        self.inner.failures()
    }

    fn read_at(&mut self, at: u32, buffer: &mut [u8]) -> Result<(), PlateFault> {
        let call = Call::Read(at, buffer.len());
        if lists(&mut self.calls, &mut self.made, self.failing, call) {
            self.inner.fuse(1);
        }
        let done = self.inner.read_at(at, buffer);
        self.inner.mend();
        done
    }

    fn write_at(&mut self, at: u32, bytes: &[u8]) -> Result<(), PlateFault> {
        let call = Call::Write(at, bytes.len());
        if lists(&mut self.calls, &mut self.made, self.failing, call) {
            self.inner.fuse(1);
        }
        let done = self.inner.write_at(at, bytes);
        self.inner.mend();
        done
    }

    fn sync(&mut self) -> Result<(), PlateFault> {
        if lists(&mut self.calls, &mut self.made, self.failing, Call::Sync) {
            self.inner.fuse(1);
        }
        let done = self.inner.sync();
        self.inner.mend();
        done
    }
}
