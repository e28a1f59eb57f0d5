// Sources in memory: one whose reads fail by a list, and one whose reads never fail.
ghost use Rattle.std.specs.Prelude.{◌≡◌, ◌≤◌, ◌<◌, ◌++◌, ℕ, List, length, min, IfOk, IsOk, OnOk, OnErr, drop, take};
ghost use Rattle.std.specs.{Io.ReadsAtMost, Io.KnownBytes.ReadConsumes, Prelude.Some, Prelude.Ok, Prelude.[]};
ghost use Rattle.lra_io.specs.Causes.{HasCause};
ghost use Rattle.lra_io.specs.Memory.{FeedReads, FeedGives, FeedGoesOn, FeedStops};

use crate::{Failed, Source};
use std::alloc::{AllocError, Global};
use std::marker::Model;

/// Bytes in memory, at most so many a read; the listed reads fail, numbered from 1.
///
/// Reads are counted up to 2^64 - 1, and every later read has that number.
#[derive(Drop)]
pub struct MemSource {
    bytes: Vec<u8>,
    at: usize,
    most: usize,
    fails: Vec<u64>,
    calls: u64,
    faults: u64,
}

impl Model for MemSource {
    ghost use Rattle.std.specs.Prelude.{◌≤◌, ◌<◌, drop, vec_len};
    ghost use Rattle.lra_io.specs.Memory.{Feed};

    ghost Value = { Feed };

    ghost view = { λ s. record {
      left = drop s.at s.bytes.items;
      most = s.most;
      fails = s.fails.items;
      calls = s.calls;
      faults = s.faults;
    } };

    ghost invariant = { λ s. (s.at ≤ vec_len s.bytes) × (0 < s.most) };
}

impl MemSource {
    /// A source of these bytes, of which a read moves `most` at most; `fails` lists the reads that are to fail.
    pub fn new(alloc: Global, bytes: &[u8], most: usize, fails: &[u64]) -> Result<Self, AllocError>
        requires { 0 < most }
        ensures { IfOk result (λ source. source ≡ record {
          left = bytes.now;
          most = most;
          fails = fails.now;
          calls = 0;
          faults = 0;
        }) }
    {
        Ok(MemSource {
            bytes: bytes.to_vec(alloc)?,
            at: 0,
            most,
            fails: fails.to_vec(alloc)?,
            calls: 0,
            faults: 0,
        })
    }
}

/// Copies the first bytes, at most so many, and says how many.
fn copy_front(from: &[u8], into: &mut [u8], most: usize) -> usize
    ensures bound { ReadsAtMost {E = ℕ} (Ok result) into.new }
    ensures amount { result ≡ min most (min (length from.now) (length into.old)) }
    ensures front { take result into.new ≡ take result from.now }
    ensures rest { drop result into.new ≡ drop result into.old }
    ensures stops { result ≡ 0 → 0 < most → 0 < length into.new → from.now ≡ [] }
{
    let count = most.min(from.len()).min(into.len());
    into[..count].copy_from_slice(&from[..count]);
    count
}

impl Source for MemSource {
    ghost left = { λ s. Some s.left };

    ghost faults = { λ s. s.faults };

    ghost succeeds = { λ old new. FeedGoesOn old new };

    ghost fails = { λ old new. FeedStops old new };

    fn read(&mut self, into: &mut [u8]) -> Result<usize, Failed>
        ensures bound { ReadsAtMost result into.new }
        ensures bytes { ReadConsumes (Some self.old.left) (Some self.new.left) result into.new }
        ensures cause { HasCause self.old.faults self.new.faults result }
        ensures success { OnOk result (FeedGoesOn self.old self.new) }
        ensures fault { OnErr result (FeedStops self.old self.new) }
        ensures exact { FeedReads self.old self.new into.old into.new result }
    {
        self.calls = self.calls.saturating_add(1);
        if self.fails.contains(&self.calls) {
            self.faults = self.faults.saturating_add(1);
            return Err(Failed);
        }
        let count = copy_front(&self.bytes[self.at..], into, self.most);
        self.at += count;
        Ok(count)
    }
}

/// Bytes in memory, at most so many a read; no read fails.
#[derive(Drop)]
pub struct QuietSource {
    feed: MemSource,
}

impl Model for QuietSource {
    ghost use Rattle.std.specs.Prelude.{◌≡◌, []};
    ghost use Rattle.lra_io.specs.Memory.{Feed};

    ghost Value = { Feed };

    ghost view = { λ s. s.feed };

    ghost invariant = { λ s. s.feed.fails ≡ [] };
}

impl QuietSource {
    /// A source of these bytes, of which a read moves `most` at most.
    pub fn new(alloc: Global, bytes: &[u8], most: usize) -> Result<Self, AllocError>
        requires { 0 < most }
        ensures { IfOk result (λ source. source ≡ record {
          left = bytes.now;
          most = most;
          fails = [];
          calls = 0;
          faults = 0;
        }) }
    {
        let feed = MemSource::new(alloc, bytes, most, &[])?;
        Ok(QuietSource { feed })
    }
}

impl Source for QuietSource {
    ghost left = { λ s. Some s.left };

    ghost faults = { λ _. 0 };

    ghost succeeds = { λ old new. FeedGoesOn old new };

    ghost fails = { λ _ _. ⊥ };

    fn read(&mut self, into: &mut [u8]) -> Result<usize, Failed>
        ensures bound { ReadsAtMost result into.new }
        ensures bytes { ReadConsumes (Some self.old.left) (Some self.new.left) result into.new }
        ensures success { OnOk result (FeedGoesOn self.old self.new) }
        ensures sure { IsOk result }
        ensures exact { IfOk result (FeedGives self.old self.new into.old into.new) }
    {
        self.feed.read(into)
    }
}
