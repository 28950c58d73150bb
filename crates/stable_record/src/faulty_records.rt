// A record in memory whose device fails now and then, for tests.

ghost use Rattle.std.specs.Prelude.{◌≡◌, ◌≤◌, true, false, if◌then◌else◌, Ok, Err, IfOk, IsOkUnless};
ghost use Rattle.stable_record.specs.Faulty.{new_faulty, counted, next_call, fails_next, after_call, Keeps, Reopens};

use crate::formats::MAX_RECORD_LEN;
use crate::{Leaves, RecordFault, StableRecord};
use std::alloc::Global;
use std::marker::Model;

/// A record in memory whose device fails at each keep whose number is a multiple of some number.
/// Keeps are numbered from 1 where the device is called: one that is refused before has no number.
/// It is never spent (305).
#[derive(Drop)]
pub struct FaultyRecord {
    alloc: Global,
    found: Vec<u8>,
    is_stuck: bool,
    count: u64,
    step: u32,
    made: u64,
    left: Leaves,
    bad: u32,
}

impl Model for FaultyRecord {
    ghost use Rattle.std.specs.Prelude.{◌≤◌};
    ghost use Rattle.stable_record.specs.Faulty.{Faulty};

    ghost Value = { Faulty };

    ghost view = { λ f. record { bytes = f.found.items; stuck = f.is_stuck; failures = f.count; every = f.step; calls = f.made; leaves = f.left; bad_reopens = f.bad } };

    ghost invariant = { λ f. 1 ≤ f.step };
}

impl FaultyRecord {
    /// A record in which a restart finds these bytes, and whose keeps number `k`, `2k`, `3k` and so
    /// on fail and leave the old or the new bytes. The caller owes that `k` isn't 0. The only fault
    /// is that memory was refused (304).
    pub fn of(
        alloc: Global,
        bytes: &[u8],
        k: u32,
        leaves: Leaves,
    ) -> Result<FaultyRecord, RecordFault>
        requires { 1 ≤ k }
        ensures held { IfOk result (λ f. f ≡ new_faulty bytes.now k leaves) }
        ensures memory { IsOkUnless result RecordFault.Memory }
    {
        let Ok(found) = Vec::from_slice(alloc, bytes) else {
            return Err(RecordFault::Memory);
        };
        Ok(FaultyRecord {
            alloc,
            found,
            is_stuck: false,
            count: 0,
            step: k,
            made: 0,
            left: leaves,
            bad: 0,
        })
    }

    /// The record, with its first `n` reopens to fail: each answers 301 and leaves it stuck.
    pub fn with_bad_reopens(self, n: u32) -> FaultyRecord
        ensures { result ≡ record self { bad_reopens = n } }
    {
        let mut other = self;
        other.bad = n;
        other
    }

    /// The device fails.
    fn fail(&mut self)
        ensures { self.new ≡ record self.old { stuck = true; failures = counted self.old.failures } }
    {
        self.is_stuck = true;
        self.count = self.count.saturating_add(1);
    }

    /// The number of the next call of the device.
    fn next_call(&self) -> u64
        ensures { result ≡ next_call self.now }
    {
        if self.made < u64::MAX {
            self.made + 1
        } else {
            self.made % u64::from(self.step) + 1
        }
    }

    /// The device is called for a keep.
    fn call(&mut self, bytes: Vec<u8>) -> Result<(), RecordFault>
        requires { self.old.stuck ≡ false }
        ensures fault { result ≡ (if fails_next self.old then Err RecordFault.Device else Ok tt) }
        ensures after { self.new ≡ after_call self.old bytes.items }
    {
        let number = self.next_call();
        self.made = number;
        if number % u64::from(self.step) != 0 {
            self.found = bytes;
            return Ok(());
        }
        match self.left {
            Leaves::Old => {}
            Leaves::New => self.found = bytes,
        }
        self.fail();
        Err(RecordFault::Device)
    }

    fn put(&mut self, bytes: &[u8]) -> Result<(), RecordFault>
        ensures { Keeps self.old bytes.now result self.new }
    {
        if self.is_stuck {
            return Err(RecordFault::Stuck);
        }
        if bytes.len() > MAX_RECORD_LEN {
            return Err(RecordFault::TooLong);
        }
        let Ok(copy) = Vec::from_slice(self.alloc, bytes) else {
            return Err(RecordFault::Memory);
        };
        self.call(copy)
    }

    fn look(&mut self) -> Result<Vec<u8>, RecordFault>
        ensures { Reopens (λ v. v.items) self.old result self.new }
    {
        if self.bad > 0 {
            self.bad -= 1;
            self.fail();
            return Err(RecordFault::Device);
        }
        let Ok(copy) = Vec::from_slice(self.alloc, &self.found) else {
            return Err(RecordFault::Memory);
        };
        self.is_stuck = false;
        Ok(copy)
    }
}

impl StableRecord for FaultyRecord {
    ghost use Rattle.std.specs.Prelude.{[], ◌∷◌, false};

    ghost finds = { λ f. f.bytes ∷ [] };

    ghost stuck_of = { λ f. f.stuck };

    ghost spent_of = { λ _. false };

    ghost failures_of = { λ f. f.failures };

    /// Keeps a copy, or fails at its turn (301). Before that it answers the first of 302 (stuck),
    /// 303 (more than `MAX_RECORD_LEN` bytes) and 304 (memory was refused).
    fn keep(&mut self, bytes: &[u8]) -> Result<(), RecordFault>
        ensures { Keeps self.old bytes.now result self.new }
    {
        self.put(bytes)
    }

    /// A copy of the bytes, and the record isn't stuck any more; or 301, as often as
    /// `with_bad_reopens` said; or 304 (memory was refused).
    fn reopen(&mut self) -> Result<Vec<u8>, RecordFault>
        ensures { Reopens (λ v. v.items) self.old result self.new }
    {
        self.look()
    }

    fn stuck(&self) -> bool {
        self.is_stuck
    }

    fn failures(&self) -> u64 {
        self.count
    }
}
