//! An output for which memory runs out.

ghost use Rattle.std.specs.Prelude.{None};

use crate::running::{ROWS, THREE_ROWS, bytes_of, texts_of};
use lineage_cli::run_alone;
use lt_port::{MemSink, MemSource, PortError, Sink};
use std::alloc::{AllocError, Global};
use std::test::Fail;

/// Each call wants memory.
#[derive(Drop)]
struct Wanting {
    wants: u64,
}

impl Sink for Wanting {
    ghost seen = { λ s. record { written = None; counts = record { faults = 0; wants = s.wants } } };

    fn write(&mut self, piece: &[u8]) -> Result<usize, PortError> {
        let _ = piece;
        self.wants = self.wants.saturating_add(1);
        Err(PortError::Memory)
    }
}

/// The status and the error line of `rows` whose output wants memory.
fn run_wanting(alloc: Global) -> Result<(u8, Vec<u8>), AllocError> {
    let words = texts_of(alloc, ROWS)?;
    let mut source = MemSource::new(bytes_of(alloc, THREE_ROWS)?, 100, Vec::new(alloc));
    let mut out = Wanting { wants: 0 };
    let mut err = MemSink::new(alloc, 100, Vec::new(alloc));
    let status = run_alone(alloc, &words, &mut source, &mut out, &mut err);
    Ok((status, err.into_bytes()))
}

#[test]
fn an_output_that_wants_memory_is_told(rt: HostRuntime) -> Result<(), Fail> {
    let (status, line) = run_wanting(rt.alloc())?;
    assert_eq!(rt; status, 6);
    assert!(rt; line.as_slice() == b"rowline: memory\n".as_slice());
    Ok(())
}
