//! A sink in memory.

ghost use Rattle.std.specs.Prelude.{◌≡◌, ◌+◌, ◌≤◌, ◌<◌, ◌↔◌, [], Contains, length, min};
ghost use Rattle.std.specs.Prelude.{Some, IfOk, IsErrOf};
ghost use Rattle.std.specs.Io.{WritesAtMost};
ghost use Rattle.std.specs.Io.KnownBytes.{WriteAppends};
ghost use Rattle.lt_port.specs.Memory.{SinkState};
ghost use Rattle.lt_port.specs.Streams.{one_more, counts_after};

use crate::calls::next_fails;
use crate::{PortError, Sink};
use std::alloc::Global;
use std::marker::Model;

/// A sink that keeps its bytes in memory, and fails at the calls that it was told.
#[derive(Drop)]
pub struct MemSink {
    bytes: Vec<u8>,
    piece: usize,
    failing: Vec<u64>,
    calls: u64,
    faults: u64,
    wants: u64,
}

impl Model for MemSink {
    ghost Value = { SinkState };

    ghost view = { λ s. record {
      written = s.bytes.items;
      piece = s.piece;
      failing = s.failing.items;
      calls = s.calls;
      counts = record { faults = s.faults; wants = s.wants };
    } };

    ghost invariant = { λ s. 1 ≤ s.piece };
}

impl MemSink {
    /// A sink with no bytes yet, of which a call takes `piece` at most. The calls in `failing`,
    /// counted from 1, fail.
    pub fn new(alloc: Global, piece: usize, failing: Vec<u64>) -> MemSink
        requires { 1 ≤ piece }
        ensures { result ≡ record {
          written = [];
          piece = piece;
          failing = failing.items;
          calls = 0;
          counts = record { faults = 0; wants = 0 };
        } }
    {
        MemSink {
            bytes: Vec::new(alloc),
            piece,
            failing,
            calls: 0,
            faults: 0,
            wants: 0,
        }
    }

    /// The bytes that were written, in their order.
    pub fn into_bytes(self) -> Vec<u8>
        ensures { result.items ≡ self.written }
    {
        self.bytes
    }
}

impl Sink for MemSink {
    ghost seen = { λ s. record { written = Some s.written; counts = s.counts } };

    fn write(&mut self, piece: &[u8]) -> Result<usize, PortError>
        ensures bound { WritesAtMost result piece.now }
        ensures some { 0 < length piece.now → IfOk result (λ count. 0 < count) }
        ensures bytes { WriteAppends (Some self.old.written) (Some self.new.written)
            result piece.now }
        ensures counted { self.new.counts ≡ counts_after result self.old.counts }

        // What a call takes.
        ensures amount { IfOk result (λ count. count ≡ min (length piece.now) self.old.piece) }

        // When it fails.
        ensures fails { IsErrOf result PortError.Failed
            ↔ Contains self.old.failing (self.old.calls + 1) }

        // What else is changed.
        ensures calls { self.new.calls ≡ one_more self.old.calls }
        ensures piece { self.new.piece ≡ self.old.piece }
        ensures failing { self.new.failing ≡ self.old.failing }
    {
        let fails = next_fails(&self.failing, self.calls);
        self.calls = self.calls.saturating_add(1);
        if fails {
            self.faults = self.faults.saturating_add(1);
            return Err(PortError::Failed);
        }
        let count = piece.len().min(self.piece);
        match self.bytes.extend_from_slice(&piece[..count]) {
            Ok(()) => Ok(count),
            Err(_) => {
                self.wants = self.wants.saturating_add(1);
                Err(PortError::Memory)
            }
        }
    }
}
