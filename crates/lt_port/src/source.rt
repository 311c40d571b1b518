//! Bytes that come in.

ghost use Rattle.std.specs.Prelude.{◌≡◌};
ghost use Rattle.std.specs.Io.{ReadsAtMost};
ghost use Rattle.std.specs.Io.KnownBytes.{ReadConsumes};
ghost use Rattle.lt_port.specs.Streams.{Incoming, faults_after};

use crate::Failed;

/// A stream of bytes to read.
pub trait Source {
    /// The source as a contract sees it: the bytes that are left, if it states them, and how many of
    /// its calls have failed, counted up to u64::MAX.
    ghost seen: { Self → Incoming };

    /// Moves bytes from the beginning of those that are left to the beginning of `room`, and returns
    /// how many. If `room` isn't empty, 0 is the end. A refused call moves nothing.
    fn read(&mut self, room: &mut [u8]) -> Result<usize, Failed>
        ensures bound { ReadsAtMost result room.new }
        ensures bytes { ReadConsumes (seen self.old).left (seen self.new).left result room.new }
        ensures counted { (seen self.new).faults ≡ faults_after result (seen self.old).faults };
}
