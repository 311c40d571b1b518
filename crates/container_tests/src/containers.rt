//! Files that are containers: read, and written again.

use crate::rows::all_made;
use avro_container::{Block, Container, Meta, bound_to, read, write};
use avro_wire::Bytes;
use sqlite_items::Items;
use std::alloc::{AllocError, Global};
use std::test::*;

/// The schema of the files.
pub const SCHEMA: &[u8] = b"{\"type\":\"record\",\"name\":\"row\",\"fields\":[\
    {\"name\":\"n\",\"type\":\"long\",\"field-id\":1},\
    {\"name\":\"s\",\"type\":[\"null\",\"string\"],\"default\":null,\"field-id\":2}]}";

/// The bytes before the schema, in a map of two pairs.
pub const FRONT: &[u8] = b"Obj\x01\x04\x16avro.schema\xa6\x02";

/// The bytes between the schema and a codec's name.
pub const CODEC: &[u8] = b"\x14avro.codec";

/// A marker.
pub const MARKER: &[u8] = &[0; 16];

/// Three objects, with the count and the size before them.
pub const OBJECTS: &[u8] = b"\x06\x14\x14\x02\x02a\x16\x00\x18\x02\x02b";

/// The three objects alone.
pub const INSIDE: &[u8] = b"\x14\x02\x02a\x16\x00\x18\x02\x02b";

/// A file of one block.
pub const FILE: &[&[u8]] = &[
    FRONT,
    SCHEMA,
    CODEC,
    b"\x08null\x00",
    MARKER,
    OBJECTS,
    MARKER,
];

/// The parts of a file, the pairs of its header, its blocks, and the parts of the file that is
/// written for it. No parts: those that are read.
struct Case {
    parts: &'static [&'static [u8]],
    pairs: &'static [(&'static str, &'static [u8])],
    blocks: &'static [(i64, &'static [u8])],
    written: &'static [&'static [u8]],
}

static CASES: [Case; 6] = [
    Case {
        parts: FILE,
        pairs: &[("avro.schema", SCHEMA), ("avro.codec", b"null")],
        blocks: &[(3, INSIDE)],
        written: &[],
    },
    Case {
        parts: &[
            FRONT,
            SCHEMA,
            CODEC,
            b"\x08null\x00",
            MARKER,
            OBJECTS,
            MARKER,
            b"\x00\x00",
            MARKER,
        ],
        pairs: &[("avro.schema", SCHEMA), ("avro.codec", b"null")],
        blocks: &[(3, INSIDE), (0, b"")],
        written: &[],
    },
    // A key that the format doesn't name, and no block.
    Case {
        parts: &[
            b"Obj\x01\x06\x16avro.schema\xa6\x02",
            SCHEMA,
            CODEC,
            b"\x08null\x02a\x00\x00",
            MARKER,
        ],
        pairs: &[("avro.schema", SCHEMA), ("avro.codec", b"null"), ("a", b"")],
        blocks: &[],
        written: &[],
    },
    Case {
        parts: &[
            b"Obj\x01\x06\x16avro.schema\xa6\x02",
            SCHEMA,
            CODEC,
            b"\x08null\x02a\x00\x00",
            MARKER,
            OBJECTS,
            MARKER,
            b"\x00\x00",
            MARKER,
        ],
        pairs: &[("avro.schema", SCHEMA), ("avro.codec", b"null"), ("a", b"")],
        blocks: &[(3, INSIDE), (0, b"")],
        written: &[],
    },
    // A block of the map that tells its size, and another one behind it.
    Case {
        parts: &[b"Obj\x01\x01\x1c\x16avro.schema\x02x\x00", MARKER],
        pairs: &[("avro.schema", b"x")],
        blocks: &[],
        written: &[b"Obj\x01\x02\x16avro.schema\x02x\x00", MARKER],
    },
    Case {
        parts: &[
            b"Obj\x01\x01\x1c\x16avro.schema\x02x\x02\x02a\x00\x00",
            MARKER,
        ],
        pairs: &[("avro.schema", b"x"), ("a", b"")],
        blocks: &[],
        written: &[b"Obj\x01\x04\x16avro.schema\x02x\x02a\x00\x00", MARKER],
    },
];

/// Puts the parts, one behind the other.
fn put_parts(out: &mut Vec<u8>, parts: &[&[u8]]) -> Result<(), AllocError> {
    for part in parts {
        out.extend_from_slice(part)?;
    }
    Ok(())
}

/// The parts, one behind the other.
pub fn joined(alloc: Global, parts: &[&[u8]]) -> Result<Vec<u8>, AllocError> {
    let mut out = Vec::new(alloc);
    put_parts(&mut out, parts)?;
    Ok(out)
}

/// Whether the header has these pairs, in this order, and each key is bound to its value.
fn has_pairs(meta: &Meta, pairs: &[(&str, &[u8])]) -> bool {
    let found = meta.as_slice();
    if found.len() != pairs.len() {
        return false;
    }
    for place in 0..pairs.len() {
        let pair = &pairs[place];
        if found[place].0.as_str() != pair.0 || found[place].1.as_slice() != pair.1 {
            return false;
        }
        if bound_to(meta, pair.0) != Some(pair.1) {
            return false;
        }
    }
    true
}

/// Whether these are the blocks, in this order.
fn has_blocks(found: &[Block], blocks: &[(i64, &[u8])]) -> bool {
    if found.len() != blocks.len() {
        return false;
    }
    for place in 0..blocks.len() {
        let block = &found[place];
        if block.count != blocks[place].0 || block.bytes.as_slice() != blocks[place].1 {
            return false;
        }
    }
    true
}

/// Whether the container is that of the case.
fn is_container(container: &Container, case: &Case) -> bool {
    container.sync.as_slice() == MARKER
        && has_pairs(&container.meta, case.pairs)
        && has_blocks(container.blocks.as_slice(), case.blocks)
        && bound_to(&container.meta, "b").is_none()
}

/// Whether the file of the container is these bytes.
fn is_written(alloc: Global, container: &Container, bytes: &[u8]) -> Result<bool, AllocError> {
    Ok(write(alloc, container)?.as_slice() == bytes)
}

/// Whether the bytes are a file of the case's container, and `written` is what is written for it.
fn is_file(alloc: Global, bytes: &[u8], written: &[u8], case: &Case) -> Result<bool, AllocError> {
    match read(alloc, bytes) {
        Ok(container) => if is_container(&container, case) {
            is_written(alloc, &container, written)
        } else {
            Ok(false)
        },
        Err(_) => Ok(false),
    }
}

/// The parts that are written for the container of the case.
fn written_of(case: &Case) -> &'static [&'static [u8]] {
    if case.written.is_empty() {
        case.parts
    } else {
        case.written
    }
}

/// Whether the parts are a file of the case's container, which is written as the case says.
fn is_right(alloc: Global, case: &Case) -> Result<bool, AllocError> {
    let bytes = joined(alloc, case.parts)?;
    let written = joined(alloc, written_of(case))?;
    is_file(alloc, &bytes, &written, case)
}

/// The first row whose file isn't that of its container, or isn't written as the row says.
fn first_wrong(alloc: Global, rows: &[Case]) -> Result<Option<usize>, AllocError> {
    for number in 0..rows.len() {
        if !is_right(alloc, &rows[number])? {
            return Ok(Some(number));
        }
    }
    Ok(None)
}

#[test]
fn a_file_is_read_as_its_container_and_written_again(rt: HostRuntime) {
    all_made(&rt, first_wrong(rt.alloc(), &CASES));
}

/// The file of a container without a pair and without a block.
fn empty_file(alloc: Global) -> Result<Bytes, AllocError> {
    let container = Container {
        meta: Items::new(alloc),
        sync: [0; 16],
        blocks: Items::new(alloc),
    };
    write(alloc, &container)
}

static EMPTY: [u8; 21] = [
    0x4f, 0x62, 0x6a, 1, 0, 0, 0, 0, 0, 0, 0, 0, 0, 0, 0, 0, 0, 0, 0, 0, 0,
];

#[test]
fn a_container_of_nothing_is_written(rt: HostRuntime) -> Result<(), Fail> {
    assert!(rt; empty_file(rt.alloc())?.as_slice() == EMPTY.as_slice());
    Ok(())
}
