//! A source in memory.

ghost use Rattle.std.specs.Prelude.{◌≡◌, ◌+◌, ◌≤◌, ◌++◌, ◌↔◌, Contains, length, min, take, drop};
ghost use Rattle.std.specs.Prelude.{Some, IfOk, IsErr, OnErr};
ghost use Rattle.std.specs.Io.{ReadsAtMost};
ghost use Rattle.std.specs.Io.KnownBytes.{ReadConsumes};
ghost use Rattle.lt_port.specs.Memory.{SourceState};
ghost use Rattle.lt_port.specs.Streams.{one_more, faults_after};

use crate::calls::next_fails;
use crate::{Failed, Source};
use std::marker::Model;

/// A source that gives bytes from memory, and fails at the calls that it was told.
#[derive(Drop)]
pub struct MemSource {
    bytes: Vec<u8>,
    read: usize,
    piece: usize,
    failing: Vec<u64>,
    calls: u64,
    faults: u64,
}

impl Model for MemSource {
    ghost Value = { SourceState };

    ghost view = { λ s. record {
      left = drop s.read s.bytes.items;
      piece = s.piece;
      failing = s.failing.items;
      calls = s.calls;
      faults = s.faults;
    } };

    ghost invariant = { λ s. (1 ≤ s.piece) × (s.read ≤ length s.bytes.items) };
}

impl MemSource {
    /// A source of `bytes`, of which a call gives `piece` at most. The calls in `failing`, counted
    /// from 1, fail.
    pub fn new(bytes: Vec<u8>, piece: usize, failing: Vec<u64>) -> MemSource
        requires { 1 ≤ piece }
        ensures { result ≡ record {
          left = bytes.items;
          piece = piece;
          failing = failing.items;
          calls = 0;
          faults = 0;
        } }
    {
        MemSource {
            bytes,
            read: 0,
            piece,
            failing,
            calls: 0,
            faults: 0,
        }
    }
}

impl Source for MemSource {
    ghost seen = { λ s. record { left = Some s.left; faults = s.faults } };

    fn read(&mut self, room: &mut [u8]) -> Result<usize, Failed>
        ensures bound { ReadsAtMost result room.new }
        ensures bytes { ReadConsumes (Some self.old.left) (Some self.new.left) result room.new }
        ensures counted { self.new.faults ≡ faults_after result self.old.faults }

        // What a call gives.
        ensures amount { IfOk result (λ count.
            count ≡ min (min (length self.old.left) (length room.old)) self.old.piece) }
        ensures room { IfOk result (λ count.
            room.new ≡ take count self.old.left ++ drop count room.old) }

        // When it fails, and what that leaves.
        ensures fails { IsErr result ↔ Contains self.old.failing (self.old.calls + 1) }
        ensures unchanged { OnErr result (room.new ≡ room.old) }

        // What else is changed.
        ensures calls { self.new.calls ≡ one_more self.old.calls }
        ensures piece { self.new.piece ≡ self.old.piece }
        ensures failing { self.new.failing ≡ self.old.failing }
    {
        let fails = next_fails(&self.failing, self.calls);
        self.calls = self.calls.saturating_add(1);
        if fails {
            self.faults = self.faults.saturating_add(1);
            return Err(Failed);
        }
        let left = self.bytes.len() - self.read;
        let count = left.min(room.len()).min(self.piece);
        let end = self.read + count;
        room[..count].copy_from_slice(&self.bytes[self.read..end]);
        self.read = end;
        Ok(count)
    }
}
