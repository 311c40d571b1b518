//! The blocks of a file, lent one after the other.

use crate::containers::{CODEC, FRONT, INSIDE, MARKER, OBJECTS, SCHEMA, joined};
use avro_container::{Walk, open_walk};
use std::alloc::Global;
use std::test::*;

/// A file of two blocks, the second of which is empty.
const TWO_BLOCKS: &[&[u8]] = &[
    FRONT,
    SCHEMA,
    CODEC,
    b"\x08null\x00",
    MARKER,
    OBJECTS,
    MARKER,
    b"\x00\x00",
    MARKER,
];

/// Whether the next block is lent, and is this one.
fn lends(walk: &mut Walk<'_>, count: i64, bytes: &[u8]) -> bool {
    match walk.next() {
        Some(block) => block.0 == count && block.1 == bytes,
        None => false,
    }
}

/// Whether the walk lends the blocks of `TWO_BLOCKS`, again after a restart, and then none.
fn lends_two(walk: &mut Walk<'_>) -> bool {
    if !lends(walk, 3, INSIDE) {
        return false;
    }
    walk.restart();
    lends(walk, 3, INSIDE) && lends(walk, 0, b"") && walk.next().is_none()
}

/// Whether the bytes are walked as `TWO_BLOCKS`.
fn is_walked(alloc: Global, bytes: &[u8]) -> bool {
    match open_walk(alloc, bytes) {
        Ok(mut walk) => {
            walk.sync().as_slice() == MARKER
                && walk.bound_to("avro.schema") == Some(SCHEMA)
                && walk.bound_to("avro.codec") == Some(b"null")
                && walk.bound_to("avro").is_none()
                && lends_two(&mut walk)
        }
        Err(_) => false,
    }
}

#[test]
fn a_walk_lends_each_block_in_order(rt: HostRuntime) -> Result<(), Fail> {
    let bytes = joined(rt.alloc(), TWO_BLOCKS)?;
    assert!(rt; is_walked(rt.alloc(), &bytes));
    Ok(())
}
