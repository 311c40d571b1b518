//! Readers and writers whose first call answers otherwise than the later ones.

ghost use Rattle.std.specs.Prelude.{◌≤◌, IfOk};

use lt_port::{ReaderSource, Sink, Source, WriterSink};
use std::io::{ErrorKind, Read, Result, Write};
use std::test::Fail;

/// What a call answers: how many bytes it moved, or why it failed.
type Answer = std::result::Result<usize, ErrorKind>;

/// The first call has this answer, and each later one moves a byte. A byte that is read is the
/// number of its call.
#[derive(Drop)]
struct Calls {
    first: Answer,
    calls: u8,
}

impl Calls {
    fn new(first: Answer) -> Calls {
        Calls { first, calls: 0 }
    }

    /// What the next call answers, if there is a byte to move.
    fn next(&mut self) -> Result<usize>
        ensures { IfOk result (λ count. count ≤ 1) }
    {
        self.calls = self.calls.saturating_add(1);
        if self.calls > 1 {
            return Ok(1);
        }
        match self.first {
            Ok(count) => Ok(count.min(1)),
            Err(kind) => Err(kind.into()),
        }
    }
}

impl Read for Calls {
    fn read(&mut self, buf: &mut [u8]) -> Result<usize> {
        if buf.is_empty() {
            return Ok(0);
        }
        let count = self.next()?;
        buf[0] = self.calls;
        Ok(count)
    }
}

impl Write for Calls {
    fn write(&mut self, buf: &[u8]) -> Result<usize> {
        if buf.is_empty() {
            return Ok(0);
        }
        self.next()
    }

    fn flush(&mut self) -> Result<()> {
        Ok(())
    }
}

/// An answer to the first call; the byte that then comes first (0: none), and how many bytes are
/// taken. `None`: the source or the sink failed.
type Case = (Answer, Option<u8>, Option<usize>);

static FIRST_CALLS: [Case; 5] = [
    // The call is made again.
    (Err(ErrorKind::Interrupted), Some(2), Some(1)),
    // It isn't.
    (Err(ErrorKind::BrokenPipe), None, None),
    (Err(ErrorKind::WriteZero), None, None),
    // The end of what is read. A writer that takes nothing has failed.
    (Ok(0), Some(0), None),
    (Ok(1), Some(1), Some(1)),
];

/// The first byte that comes.
fn first_byte(first: Answer) -> Option<u8> {
    let mut source = ReaderSource::new(Calls::new(first));
    let mut room = [0; 3];
    match source.read(&mut room) {
        Ok(0) => Some(0),
        Ok(_) => Some(room[0]),
        Err(_) => None,
    }
}

/// How many bytes are taken.
fn taken(first: Answer) -> Option<usize> {
    let mut sink = WriterSink::new(Calls::new(first));
    sink.write(b"abc").ok()
}

/// The number of the first case that goes wrong, counted from 1. 0: all go well.
fn first_wrong_case() -> usize {
    for number in 0..FIRST_CALLS.len() {
        let (first, byte, count) = FIRST_CALLS[number];
        if first_byte(first) != byte || taken(first) != count {
            return number + 1;
        }
    }
    0
}

#[test]
fn only_an_interrupted_call_is_made_again(rt: HostRuntime) -> std::result::Result<(), Fail> {
    assert_eq!(rt; first_wrong_case(), 0);
    Ok(())
}
