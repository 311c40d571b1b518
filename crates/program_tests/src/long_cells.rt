//! `rows` of files with cells that are longer than the buffer for printing.

use crate::running::Part::{Block, Header, Raw, Text, Times, Zeros};
use crate::running::{AMPLE, Input, PLAIN, Part, ROWS, bytes_of, run};
use std::alloc::{AllocError, Global};
use std::test::Fail;

/// A text of eight bytes that begins and ends with one that is escaped.
const ESCAPED: &[u8] = b"\"ab\xC3\xA9c\\\n";

/// The same, as it is printed.
const ESCAPES: &[u8] = b"\\\"ab\xC3\xA9c\\\\\\n";

/// The header of a file of bytes.
const OF_BYTES: Part = Header(&[(
    "avro.schema",
    r#"{"type":"record","name":"r","fields":[{"name":"y","type":"bytes","field-id":1}]}"#,
)]);

/// Files, and their lines.
static LONG: [(Input, Input); 3] = [
    // A text of 80,000 bytes, and a row behind it.
    (
        &[
            PLAIN,
            Raw(b"\x04\x92\xE2\x09\x02\x02\x80\xE2\x09"),
            Times(10_000, ESCAPED),
            Block(b"\x04\x02\x02a"),
        ],
        &[
            Text("1000 7 1 \""),
            Times(10_000, ESCAPES),
            Text("\"\n1001 7 2 \"a\"\n"),
        ],
    ),
    // The same behind four other bytes: 80,004.
    (
        &[
            PLAIN,
            Raw(b"\x02\x92\xE2\x09\x02\x02\x88\xE2\x09wxyz"),
            Times(10_000, ESCAPED),
            Zeros(16),
        ],
        &[
            Text("1000 7 1 \"wxyz"),
            Times(10_000, ESCAPES),
            Text("\"\n"),
        ],
    ),
    // Bytes, 40,000 of them.
    (
        &[
            OF_BYTES,
            Raw(b"\x02\x86\xF1\x04\x80\xF1\x04"),
            Times(10_000, b"\x00\xAB\xFF\x10"),
            Zeros(16),
        ],
        &[Text("1000 7 x"), Times(10_000, b"00abff10"), Text("\n")],
    ),
];

#[test]
fn a_long_cell_is_printed_whole(rt: HostRuntime) -> Result<(), Fail> {
    assert_eq!(rt; first_cut(rt.alloc(), &LONG)?, None);
    Ok(())
}

/// The first of the files that are not printed so, counted from 0.
fn first_cut(alloc: Global, files: &[(Input, Input)]) -> Result<Option<usize>, AllocError> {
    for at in 0..files.len() {
        if !prints(alloc, files[at].0, files[at].1)? {
            return Ok(Some(at));
        }
    }
    Ok(None)
}

/// Whether the file is printed so.
fn prints(alloc: Global, file: &[Part], lines: &[Part]) -> Result<bool, AllocError> {
    let bytes = bytes_of(alloc, file)?;
    let wanted = bytes_of(alloc, lines)?;
    let ran = run(alloc, &AMPLE, ROWS, &bytes)?;
    Ok(ran.out.as_slice() == wanted.as_slice() && ran.status == 0)
}
