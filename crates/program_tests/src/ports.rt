//! Sources and sinks in memory, each through its trait.

use lt_port::{Failed, MemSink, MemSource, PortError, Sink, Source};
use std::alloc::{AllocError, Global};
use std::test::Fail;

/// The bytes that are moved.
static ALL: [u8; 5] = [10, 20, 30, 40, 50];

/// Which calls fail, what each call gives, and what came then. `None` is a call that failed.
type Reads = (&'static [u64], &'static [Option<usize>], &'static [u8]);

/// Sources that give two bytes at a call.
static READS: [Reads; 3] = [
    // No call fails.
    (
        &[],
        &[Some(2), Some(2), Some(1), Some(0)],
        &[10, 20, 30, 40, 50],
    ),
    // The second call fails.
    (
        &[2],
        &[Some(2), None, Some(2), Some(1)],
        &[10, 20, 30, 40, 50],
    ),
    // Two calls fail.
    (&[3, 1], &[None, Some(2), None, Some(2)], &[10, 20, 30, 40]),
];

/// The first of the sources that doesn't give so, counted from 0.
fn first_wrong_source(alloc: Global, cases: &[Reads]) -> Result<Option<usize>, AllocError> {
    for at in 0..cases.len() {
        if !reads_so(alloc, &cases[at])? {
            return Ok(Some(at));
        }
    }
    Ok(None)
}

/// Whether the source gives so.
fn reads_so(alloc: Global, case: &Reads) -> Result<bool, AllocError> {
    let (failing, counts, came) = case;
    let failing = failing.to_vec(alloc)?;
    let mut source = MemSource::new(ALL.to_vec(alloc)?, 2, failing);
    let mut out = Vec::new(alloc);
    let gives = gives_so(&mut source, counts, &mut out)?;
    Ok(gives && out.as_slice() == *came)
}

/// Whether the calls give so many bytes each, which are put behind `out`.
fn gives_so<S: Source>(
    source: &mut S,
    counts: &[Option<usize>],
    out: &mut Vec<u8>,
) -> Result<bool, AllocError> {
    for count in counts {
        let moved = read_behind(source, out)?;
        if moved != *count {
            return Ok(false);
        }
    }
    Ok(true)
}

/// One read into a room of three bytes, which puts what came behind `out`. `None` is a call that
/// failed.
fn read_behind<S: Source>(source: &mut S, out: &mut Vec<u8>) -> Result<Option<usize>, AllocError> {
    let mut room = [0; 3];
    match source.read(&mut room) {
        Ok(count) => {
            out.extend_from_slice(&room[..count])?;
            Ok(Some(count))
        }
        Err(Failed) => Ok(None),
    }
}

#[test]
fn a_source_gives_its_bytes_in_pieces(rt: HostRuntime) -> Result<(), Fail> {
    assert_eq!(rt; first_wrong_source(rt.alloc(), &READS)?, None);
    Ok(())
}

/// Which calls fail, how many bytes are taken after each call, or why it failed, and what was taken.
type Writes = (
    &'static [u64],
    &'static [Result<usize, PortError>],
    &'static [u8],
);

/// Sinks that take two bytes at a call.
static WRITES: [Writes; 2] = [
    // No call fails.
    (&[], &[Ok(2), Ok(4), Ok(5), Ok(5)], &[10, 20, 30, 40, 50]),
    // The second call fails.
    (
        &[2],
        &[Ok(2), Err(PortError::Failed), Ok(4), Ok(5)],
        &[10, 20, 30, 40, 50],
    ),
];

/// The first of the sinks that doesn't take so, counted from 0.
fn first_wrong_sink(alloc: Global, cases: &[Writes]) -> Result<Option<usize>, AllocError> {
    for at in 0..cases.len() {
        if !writes_so(alloc, &cases[at])? {
            return Ok(Some(at));
        }
    }
    Ok(None)
}

/// Whether the sink takes so.
fn writes_so(alloc: Global, case: &Writes) -> Result<bool, AllocError> {
    let (failing, counts, taken) = case;
    let mut sink = MemSink::new(alloc, 2, failing.to_vec(alloc)?);
    let takes = takes_so(&mut sink, counts);
    let bytes = sink.into_bytes();
    Ok(takes && bytes.as_slice() == *taken)
}

/// Whether so many bytes are taken after each call, or it fails so.
fn takes_so<S: Sink>(sink: &mut S, counts: &[Result<usize, PortError>]) -> bool {
    let mut done = 0;
    for count in counts {
        let now = write_behind(sink, &ALL, done);
        if now != *count {
            return false;
        }
        if let Ok(taken) = now {
            done = taken;
        }
    }
    true
}

/// One write of what is behind the first `done` bytes of `all`, with how many are done then.
fn write_behind<S: Sink>(sink: &mut S, all: &[u8], done: usize) -> Result<usize, PortError> {
    let done = done.min(all.len());
    Ok(done + sink.write(&all[done..])?)
}

#[test]
fn a_sink_keeps_what_it_takes(rt: HostRuntime) -> Result<(), Fail> {
    assert_eq!(rt; first_wrong_sink(rt.alloc(), &WRITES)?, None);
    Ok(())
}
