//! Files that are no containers, and why.

use crate::containers::{CODEC, FILE, FRONT, MARKER, OBJECTS, SCHEMA, joined};
use crate::rows::all_made;
use avro_container::{ContainerRefusal, read};
use std::alloc::{AllocError, Global};
use std::test::*;

/// The parts of a file, and why it is refused: the cause, and the number that the refusal tells.
type Refused = (&'static [&'static [u8]], &'static str, u64);

/// The first wrong byte.
static FILES: [Refused; 7] = [
    (&[], "Short", 0),
    (&[b"Obj\x02\x00"], "Magic", 0),
    // Another last byte.
    (
        &[
            FRONT,
            SCHEMA,
            CODEC,
            b"\x08null\x00",
            MARKER,
            OBJECTS,
            &[0, 0, 0, 0, 0, 0, 0, 0, 0, 0, 0, 0, 0, 0, 0, 1],
        ],
        "Sync",
        1,
    ),
    // A last block that is cut short.
    (
        &[
            FRONT,
            SCHEMA,
            CODEC,
            b"\x08null\x00",
            MARKER,
            OBJECTS,
            MARKER,
            OBJECTS,
            b"\x01",
        ],
        "Short",
        239,
    ),
    // A count below 0.
    (
        &[
            FRONT,
            SCHEMA,
            CODEC,
            b"\x08null\x00",
            MARKER,
            b"\x05\x00",
            MARKER,
        ],
        "Form",
        1,
    ),
    // A count that is too long.
    (
        &[
            FRONT,
            SCHEMA,
            CODEC,
            b"\x08null\x00",
            MARKER,
            b"\xff\xff\xff\xff\xff\xff\xff\xff\xff\xff\x01",
        ],
        "Form",
        1,
    ),
    // A block of the map that tells an untrue size.
    (
        &[b"Obj\x01\x01\x1e\x16avro.schema\x02x\x00", MARKER],
        "Header",
        5,
    ),
];

/// The first wrong item of the header.
static HEADERS: [Refused; 7] = [
    (
        &[
            FRONT,
            SCHEMA,
            CODEC,
            b"\x0edeflate\x00",
            MARKER,
            OBJECTS,
            MARKER,
        ],
        "deflate",
        0,
    ),
    // A key again.
    (&[b"Obj\x01\x04\x02a\x00\x02a\x00\x00", MARKER], "Header", 8),
    // A key that is no text.
    (&[b"Obj\x01\x02\x02\xff\x00\x00", MARKER], "Header", 5),
    // No schema.
    (&[b"Obj\x01\x02\x02a\x00\x00", MARKER], "Header", 9),
    // Too many pairs.
    (&[b"Obj\x01\x82\x80\x80\x10", MARKER], "Header", 4),
    // Too many pairs in a block with a size.
    (&[b"Obj\x01\x81\x80\x80\x10\x00", MARKER], "Header", 4),
    // As many pairs as there may be, of which the second has the key of the first.
    (&[b"Obj\x01\x80\x80\x80\x10", MARKER], "Header", 10),
];

/// The number that a refusal tells. 0: it tells none.
fn number_of(refusal: &ContainerRefusal) -> u64 {
    match refusal {
        ContainerRefusal::Limit { found } => *found,
        ContainerRefusal::Header { place } => *place,
        ContainerRefusal::Short { place } => *place,
        ContainerRefusal::Form { block } => *block,
        ContainerRefusal::Sync { block } => *block,
        _ => 0,
    }
}

/// Whether this is the cause of the refusal, or the codec that it names.
fn has_cause(refusal: &ContainerRefusal, cause: &str) -> bool {
    match refusal {
        ContainerRefusal::Limit { .. } => cause == "Limit",
        ContainerRefusal::Magic => cause == "Magic",
        ContainerRefusal::Header { .. } => cause == "Header",
        ContainerRefusal::Codec { name } => name.as_slice() == cause.as_bytes(),
        ContainerRefusal::Short { .. } => cause == "Short",
        ContainerRefusal::Form { .. } => cause == "Form",
        ContainerRefusal::Sync { .. } => cause == "Sync",
        ContainerRefusal::Memory => cause == "Memory",
    }
}

/// Whether the bytes are refused so.
fn is_refused(alloc: Global, bytes: &[u8], cause: &str, number: u64) -> bool {
    match read(alloc, bytes) {
        Ok(_) => false,
        Err(refusal) => has_cause(&refusal, cause) && number_of(&refusal) == number,
    }
}

/// Whether the parts are refused so.
fn are_refused(
    alloc: Global,
    parts: &[&[u8]],
    cause: &str,
    number: u64,
) -> Result<bool, AllocError> {
    let bytes = joined(alloc, parts)?;
    Ok(is_refused(alloc, &bytes, cause, number))
}

/// The first row whose file isn't refused so.
fn first_accepted(alloc: Global, rows: &[Refused]) -> Result<Option<usize>, AllocError> {
    for number in 0..rows.len() {
        let row = &rows[number];
        if !are_refused(alloc, row.0, row.1, row.2)? {
            return Ok(Some(number));
        }
    }
    Ok(None)
}

#[test]
fn a_file_is_refused_at_its_first_wrong_byte(rt: HostRuntime) {
    all_made(&rt, first_accepted(rt.alloc(), &FILES));
}

#[test]
fn a_header_is_refused_at_its_first_wrong_item(rt: HostRuntime) {
    all_made(&rt, first_accepted(rt.alloc(), &HEADERS));
}

/// The bytes of the header of `FILE`.
const HEADER_BYTES: usize = 199;

/// Where the front of a file is short. `None`: it is a file, or is refused for another cause.
fn short_at(alloc: Global, front: &[u8]) -> Option<u64> {
    match read(alloc, front) {
        Ok(_) => None,
        Err(ContainerRefusal::Short { place }) => Some(place),
        Err(_) => None,
    }
}

/// Where the last front of the bytes is short. Each front but the header is short at a place within
/// it, and no earlier than the ones before it. `None`: some front isn't.
fn last_short(alloc: Global, whole: &[u8]) -> Option<u64> {
    let mut least = 0;
    for end in 0..whole.len() {
        if end == HEADER_BYTES {
            continue;
        }
        let place = short_at(alloc, &whole[..end])?;
        if place < least || place > end as u64 {
            return None;
        }
        least = place;
    }
    Some(least)
}

/// Whether the header alone is a file.
fn is_header_a_file(alloc: Global, whole: &[u8]) -> bool {
    HEADER_BYTES <= whole.len() && read(alloc, &whole[..HEADER_BYTES]).is_ok()
}

/// Where the last front of `FILE`, which has 226 bytes, is short.
fn last_short_of_file(alloc: Global) -> Result<Option<u64>, AllocError> {
    let whole = joined(alloc, FILE)?;
    if whole.len() != 227 || !is_header_a_file(alloc, &whole) {
        return Ok(None);
    }
    Ok(last_short(alloc, &whole))
}

#[test]
fn each_front_but_the_header_is_short(rt: HostRuntime) -> Result<(), Fail> {
    assert_eq!(rt; last_short_of_file(rt.alloc())?, Some(211));
    Ok(())
}
