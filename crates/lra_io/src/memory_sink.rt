// Sinks in memory: one whose writes fail by a list, and one whose writes fail only if it is full.
ghost use Rattle.std.specs.Prelude.{◌≡◌, ◌≤◌, ◌<◌, ◌+◌, ℕ, List, length, IfOk, IsOk, OnOk, OnErr, Some, []};
ghost use Rattle.std.specs.{Io.WritesAtMost, Io.KnownBytes.WriteAppends};
ghost use Rattle.lra_io.specs.{Causes.HasCause, Memory.StoreWrites, Memory.StoreGoesOn, Memory.StoreStops};

use crate::{Failed, Sink};
use std::alloc::{AllocError, Global};
use std::marker::Model;

/// Takes bytes into room that was made before, at most so many a write; the listed writes fail, numbered from 1.
///
/// A write of a piece that is not empty into a full room fails too. Writes are counted up to 2^64 - 1, and every later
/// write has that number.
#[derive(Drop)]
pub struct MemSink {
    bytes: Vec<u8>,
    room: usize,
    most: usize,
    fails: Vec<u64>,
    calls: u64,
    faults: u64,
}

impl Model for MemSink {
    ghost use Rattle.std.specs.Prelude.{◌≤◌, ◌<◌, ◌-◌, vec_len, vec_capacity};
    ghost use Rattle.lra_io.specs.Memory.{Store};

    ghost Value = { Store };

    ghost view = { λ s. record {
      held = s.bytes.items;
      room = s.room - vec_len s.bytes;
      most = s.most;
      fails = s.fails.items;
      calls = s.calls;
      faults = s.faults;
    } };

    ghost invariant = { λ s. (vec_len s.bytes ≤ s.room) × (s.room ≤ vec_capacity s.bytes) × (0 < s.most) };
}

impl MemSink {
    /// A sink with room for `room` bytes, of which a write moves `most` at most; `fails` lists the writes that are to
    /// fail.
    pub fn new(alloc: Global, room: usize, most: usize, fails: &[u64]) -> Result<Self, AllocError>
        requires { 0 < most }
        ensures { IfOk result (λ sink. sink ≡ record {
          held = [];
          room = room;
          most = most;
          fails = fails.now;
          calls = 0;
          faults = 0;
        }) }
    {
        Ok(MemSink {
            bytes: Vec::with_capacity(alloc, room)?,
            room,
            most,
            fails: fails.to_vec(alloc)?,
            calls: 0,
            faults: 0,
        })
    }

    /// The bytes accepted so far.
    pub fn bytes(&self) -> &[u8]
        ensures { result.now ≡ self.now.held }
    {
        &self.bytes
    }
}

impl Sink for MemSink {
    ghost held = { λ s. Some s.held };

    ghost faults = { λ s. s.faults };

    ghost succeeds = { λ old new. StoreGoesOn old new };

    ghost fails = { λ old new. StoreStops old new };

    ghost spare = { λ _. 0 };

    fn write(&mut self, piece: &[u8]) -> Result<usize, Failed>
        ensures bound { WritesAtMost result piece.now }
        ensures some { IfOk result (λ count. 0 < length piece.now → 0 < count) }
        ensures bytes { WriteAppends (Some self.old.held) (Some self.new.held) result piece.now }
        ensures cause { HasCause self.old.faults self.new.faults result }
        ensures success { OnOk result (StoreGoesOn self.old self.new) }
        ensures fault { OnErr result (StoreStops self.old self.new) }
        ensures exact { StoreWrites self.old self.new piece.now result }
    {
        self.calls = self.calls.saturating_add(1);
        let free = self.room - self.bytes.len();
        if self.fails.contains(&self.calls) || free == 0 && !piece.is_empty() {
            self.faults = self.faults.saturating_add(1);
            return Err(Failed);
        }
        let count = self.most.min(piece.len()).min(free);
        self.bytes.extend_from_slice(&piece[..count]).unwrap();
        Ok(count)
    }
}

/// Takes bytes into room that was made before, at most so many a write; only a write into a full room fails.
#[derive(Drop)]
pub struct QuietSink {
    store: MemSink,
}

impl Model for QuietSink {
    ghost use Rattle.std.specs.Prelude.{◌≡◌, []};
    ghost use Rattle.lra_io.specs.Memory.{Store};

    ghost Value = { Store };

    ghost view = { λ s. s.store };

    ghost invariant = { λ s. s.store.fails ≡ [] };
}

impl QuietSink {
    /// A sink with room for `room` bytes, of which a write moves `most` at most.
    pub fn new(alloc: Global, room: usize, most: usize) -> Result<Self, AllocError>
        requires { 0 < most }
        ensures { IfOk result (λ sink. sink ≡ record {
          held = [];
          room = room;
          most = most;
          fails = [];
          calls = 0;
          faults = 0;
        }) }
    {
        let store = MemSink::new(alloc, room, most, &[])?;
        Ok(QuietSink { store })
    }

    /// The bytes accepted so far.
    pub fn bytes(&self) -> &[u8]
        ensures { result.now ≡ self.now.held }
    {
        self.store.bytes()
    }
}

impl Sink for QuietSink {
    ghost held = { λ s. Some s.held };

    ghost faults = { λ s. s.faults };

    ghost succeeds = { λ old new. StoreGoesOn old new };

    ghost fails = { λ old new. StoreStops old new };

    ghost spare = { λ s. s.room };

    fn write(&mut self, piece: &[u8]) -> Result<usize, Failed>
        ensures bound { WritesAtMost result piece.now }
        ensures some { IfOk result (λ count. 0 < length piece.now → 0 < count) }
        ensures bytes { WriteAppends (Some self.old.held) (Some self.new.held) result piece.now }
        ensures cause { HasCause self.old.faults self.new.faults result }
        ensures success { OnOk result (StoreGoesOn self.old self.new) }
        ensures fault { OnErr result (StoreStops self.old self.new) }
        ensures exact { StoreWrites self.old self.new piece.now result }

        ensures sure { 0 < self.old.room → IsOk result }
        ensures spare { IfOk result (λ count. self.old.room ≤ self.new.room + count) }
    {
        self.store.write(piece)
    }
}
