//! A writer as a sink, such as standard output.

ghost use Rattle.std.specs.Prelude.{◌≡◌, ◌<◌, length, IfOk};
ghost use Rattle.std.specs.Io.{WritesAtMost};
ghost use Rattle.std.specs.Io.KnownBytes.{WriteAppends};
ghost use Rattle.lt_port.specs.Streams.{never_wanting, counts_after};

use crate::{PortError, Sink};
use std::io::{ErrorKind, Write};

/// A writer, as a sink. A call that a signal interrupts is made again. No call wants memory of the
/// run.
#[derive(Drop)]
pub struct WriterSink<W> {
    writer: W,
    faults: u64,
}

impl<W: Write> WriterSink<W> {
    /// The writer, of which no call has failed yet.
    pub fn new(writer: W) -> WriterSink<W>
        ensures { result ≡ record { writer = writer; faults = 0 } }
    {
        WriterSink { writer, faults: 0 }
    }
}

impl<W: Write> Sink for WriterSink<W> {
    ghost seen = { λ s. record { written = W.contents s.writer; counts = never_wanting s.faults } };

    fn write(&mut self, piece: &[u8]) -> Result<usize, PortError>
        ensures bound { WritesAtMost result piece.now }
        ensures some { 0 < length piece.now → IfOk result (λ count. 0 < count) }
        ensures bytes { WriteAppends (W.contents self.old.writer) (W.contents self.new.writer)
            result piece.now }
        ensures counted { never_wanting self.new.faults ≡ counts_after result (never_wanting self.old.faults) }
    {
        for _ in 0..u64::MAX {
            match self.writer.write(piece) {
                Ok(count) if count > 0 || piece.is_empty() => return Ok(count),
                Ok(_) => break,
                Err(error) => {
                    if error.kind() != ErrorKind::Interrupted {
                        break;
                    }
                }
            }
        }
        self.faults = self.faults.saturating_add(1);
        Err(PortError::Failed)
    }
}
