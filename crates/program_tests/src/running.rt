//! A run in a table: its words and its input, and how it ends.

use avro_wire::{Text, put_bytes, put_long};
use lineage_cli::run_alone;
use lt_port::{MemSink, MemSource};
use std::alloc::{AllocError, Global};

/// The words of a command line.
pub(crate) type Words = &'static [&'static str];

/// The pairs of a header, each a key and its value.
pub(crate) type Pairs = &'static [(&'static str, &'static str)];

/// A part of an input.
#[derive(Clone, Copy)]
pub(crate) enum Part {
    /// These bytes.
    Raw(&'static [u8]),
    /// The bytes of this text.
    Text(&'static str),
    /// So many bytes that are 0.
    Zeros(usize),
    /// So many times these bytes.
    Times(usize, &'static [u8]),
    /// The header of a data file: these pairs, and the marker of 16 zero bytes.
    Header(Pairs),
    /// A block: these bytes are its count, its size and its rows, and the marker is behind them.
    Block(&'static [u8]),
}

/// An input, part by part.
pub(crate) type Input = &'static [Part];

/// The words and the input of a run, its status, and what it writes to `out` and to `err`.
pub(crate) type Case = (Words, Input, u8, &'static str, &'static str);

/// How many bytes a call moves at most, and which calls of the input, of `out` and of `err` fail.
/// Calls count from 1.
pub(crate) type Outside = (usize, &'static [u64], &'static [u64], &'static [u64]);

/// No call fails.
pub(crate) static AMPLE: Outside = (100_000, &[], &[], &[]);

/// The words of `audit`.
pub(crate) const AUDIT: Words = &["audit"];

/// The words of `rows`, with the first row id 1000 and the sequence number 7.
pub(crate) const ROWS: Words = &["rows", "1000", "7"];

/// The schema of a required long and an optional text, in 147 bytes.
pub(crate) const SCHEMA: &str =
    r#"{"type":"record","name":"row","fields":[{"name":"n","type":"long","field-id":1},{"name":"s","type":["null","string"],"default":null,"field-id":2}]}"#;

/// The header of a file of this schema, in 199 bytes.
pub(crate) const PLAIN: Part = Part::Header(&[("avro.schema", SCHEMA), ("avro.codec", "null")]);

/// The block of 10 "a", 11 null, 12 "b", without its marker.
pub(crate) const THREE: &[u8] = b"\x06\x14\x14\x02\x02a\x16\x00\x18\x02\x02b";

/// The file of these rows, in 227 bytes.
pub(crate) const THREE_ROWS: Input = &[PLAIN, Part::Block(THREE)];

/// The lines of these rows.
pub(crate) const THREE_LINES: &str = "1000 7 10 \"a\"\n1001 7 11 null\n1002 7 12 \"b\"\n";

/// The line of the columns in a report: a required long and an optional text.
pub(crate) const COLUMNS: Part = Part::Text(
    "schema 1:long:required:\"n\" 2:string:optional:\"s\"\n",
);

/// A new table of version 3 that gets two rows.
pub(crate) const TWO_ROWS: Part = Part::Text(
    "start 3 0 0\nentry 1 1 2 - 0+2 append 1 \"a\" ; 2 \"b\"\n",
);

/// The report of this table.
pub(crate) const REPORT: Input = &[COLUMNS, TWO_ROWS, Part::Text("end\n")];

/// How a run ended.
#[derive(Drop)]
pub(crate) struct Ran {
    pub(crate) status: u8,
    pub(crate) out: Vec<u8>,
    pub(crate) err: Vec<u8>,
}

/// The first of the runs that doesn't end so, counted from 0.
pub(crate) fn first_wrong(alloc: Global, cases: &[Case]) -> Result<Option<usize>, AllocError> {
    for at in 0..cases.len() {
        if !ends_so(alloc, &AMPLE, &cases[at])? {
            return Ok(Some(at));
        }
    }
    Ok(None)
}

/// Whether the run ends so.
pub(crate) fn ends_so(alloc: Global, outside: &Outside, case: &Case) -> Result<bool, AllocError> {
    let (words, input, status, out, err) = case;
    let bytes = bytes_of(alloc, input)?;
    let ran = run(alloc, outside, words, &bytes)?;
    Ok(wrote(&ran, out, err) && ran.status == *status)
}

/// Whether the run wrote these texts.
fn wrote(ran: &Ran, out: &str, err: &str) -> bool {
    ran.out.as_slice() == out.as_bytes() && ran.err.as_slice() == err.as_bytes()
}

/// Runs the program on the words and the input.
pub(crate) fn run(
    alloc: Global,
    outside: &Outside,
    words: &[&str],
    input: &[u8],
) -> Result<Ran, AllocError> {
    let (piece, input_fails, out_fails, err_fails) = outside;
    let texts = texts_of(alloc, words)?;
    let mut source = source_of(alloc, *piece, input_fails, input)?;
    let mut out = sink_of(alloc, *piece, out_fails)?;
    let mut err = sink_of(alloc, *piece, err_fails)?;
    let status = run_alone(alloc, &texts, &mut source, &mut out, &mut err);
    Ok(Ran {
        status,
        out: out.into_bytes(),
        err: err.into_bytes(),
    })
}

/// The words, as the program takes them.
pub(crate) fn texts_of(alloc: Global, words: &[&str]) -> Result<Vec<Text>, AllocError> {
    let mut texts = Vec::new(alloc);
    for word in words {
        texts.push(Text::from_str(alloc, word)?)?;
    }
    Ok(texts)
}

/// A source of the bytes.
fn source_of(
    alloc: Global,
    piece: usize,
    failing: &[u64],
    bytes: &[u8],
) -> Result<MemSource, AllocError> {
    let failing = failing.to_vec(alloc)?;
    Ok(MemSource::new(bytes.to_vec(alloc)?, piece.max(1), failing))
}

/// A sink with no bytes yet.
fn sink_of(alloc: Global, piece: usize, failing: &[u64]) -> Result<MemSink, AllocError> {
    let failing = failing.to_vec(alloc)?;
    Ok(MemSink::new(alloc, piece.max(1), failing))
}

/// The bytes of the input.
pub(crate) fn bytes_of(alloc: Global, input: &[Part]) -> Result<Vec<u8>, AllocError> {
    let mut bytes = Vec::new(alloc);
    for part in input {
        put_part(&mut bytes, part)?;
    }
    Ok(bytes)
}

/// Puts the part behind the bytes.
fn put_part(bytes: &mut Vec<u8>, part: &Part) -> Result<(), AllocError> {
    match part {
        Part::Raw(these) => bytes.extend_from_slice(these),
        Part::Text(text) => bytes.extend_from_slice(text.as_bytes()),
        Part::Zeros(count) => put_zeros(bytes, *count),
        Part::Times(count, these) => put_times(bytes, *count, these),
        Part::Header(pairs) => put_header(bytes, pairs),
        Part::Block(these) => {
            bytes.extend_from_slice(these)?;
            put_zeros(bytes, 16)
        }
    }
}

/// Puts so many zero bytes behind the bytes.
fn put_zeros(bytes: &mut Vec<u8>, count: usize) -> Result<(), AllocError> {
    for _ in 0..count {
        bytes.push(0)?;
    }
    Ok(())
}

/// Puts these bytes so many times behind the bytes.
fn put_times(bytes: &mut Vec<u8>, count: usize, these: &[u8]) -> Result<(), AllocError> {
    for _ in 0..count {
        bytes.extend_from_slice(these)?;
    }
    Ok(())
}

/// Puts the header of a data file behind the bytes.
fn put_header(bytes: &mut Vec<u8>, pairs: &[(&str, &str)]) -> Result<(), AllocError> {
    bytes.extend_from_slice(b"Obj\x01")?;
    put_long(bytes, pairs.len() as i64)?;
    for (key, value) in pairs {
        put_bytes(bytes, key.as_bytes())?;
        put_bytes(bytes, value.as_bytes())?;
    }
    bytes.push(0)?;
    put_zeros(bytes, 16)
}
