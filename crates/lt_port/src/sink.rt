//! Bytes that go out.

ghost use Rattle.std.specs.Prelude.{◌≡◌, ◌<◌, length, IfOk};
ghost use Rattle.std.specs.Io.{WritesAtMost};
ghost use Rattle.std.specs.Io.KnownBytes.{WriteAppends};
ghost use Rattle.lt_port.specs.Streams.{Outgoing, counts_after};

use crate::PortError;

/// A place to write bytes to.
pub trait Sink {
    /// The sink as a contract sees it: the bytes that were written, if it states them; how many of
    /// its calls have failed, and for how many memory ran out, each counted up to u64::MAX.
    ghost seen: { Self → Outgoing };

    /// Writes bytes from the beginning of `piece` after those that were written, and returns how
    /// many: at least one if `piece` isn't empty. A refused call moves nothing.
    fn write(&mut self, piece: &[u8]) -> Result<usize, PortError>
        ensures bound { WritesAtMost result piece.now }
        ensures some { 0 < length piece.now → IfOk result (λ count. 0 < count) }
        ensures bytes { WriteAppends (seen self.old).written (seen self.new).written
            result piece.now }
        ensures counted { (seen self.new).counts ≡ counts_after result (seen self.old).counts };
}
