//! Numbers of `avro_wire`: the standard's table, both ways, and what is no number.

use crate::rows::{all_made, all_right, is_so};
use avro_wire::{WireRefusal, put_long, take_int, take_long};
use std::alloc::{AllocError, Global};
use std::test::*;

/// A number, and bytes that spell it.
type Spelled = (i64, &'static [u8]);

/// Numbers of 32 bits, in the fewest bytes.
static INTS: [Spelled; 10] = [
    (0, &[0x00]),
    (-1, &[0x01]),
    (1, &[0x02]),
    (-2, &[0x03]),
    (2, &[0x04]),
    (63, &[0x7e]),
    (-64, &[0x7f]),
    (64, &[0x80, 0x01]),
    (2_147_483_647, &[0xfe, 0xff, 0xff, 0xff, 0x0f]),
    (-2_147_483_648, &[0xff, 0xff, 0xff, 0xff, 0x0f]),
];

/// Numbers of more bits, in the fewest bytes.
static LONGS: [Spelled; 3] = [
    (2_147_483_648, &[0x80, 0x80, 0x80, 0x80, 0x10]),
    (
        i64::MAX,
        &[0xfe, 0xff, 0xff, 0xff, 0xff, 0xff, 0xff, 0xff, 0xff, 0x01],
    ),
    (
        i64::MIN,
        &[0xff, 0xff, 0xff, 0xff, 0xff, 0xff, 0xff, 0xff, 0xff, 0x01],
    ),
];

/// Numbers in more bytes than they need.
static LONGER: [Spelled; 2] = [(0, &[0x80, 0x00]), (-1, &[0x81, 0x80, 0x00])];

/// The first row whose bytes are not read to their end as its number of 64 bits.
fn first_misread_long(rows: &[Spelled]) -> Option<usize> {
    for number in 0..rows.len() {
        let row = &rows[number];
        if take_long(row.1, 0) != Ok((row.0, row.1.len())) {
            return Some(number);
        }
    }
    None
}

/// Whether the bytes are read to their end as the number of 32 bits.
fn is_int(bytes: &[u8], value: i64) -> bool {
    match take_int(bytes, 0) {
        Ok((found, after)) => i64::from(found) == value && after == bytes.len(),
        Err(_) => false,
    }
}

/// The first row whose bytes are not read to their end as its number of 32 bits.
fn first_misread_int(rows: &[Spelled]) -> Option<usize> {
    for number in 0..rows.len() {
        let row = &rows[number];
        if !is_int(row.1, row.0) {
            return Some(number);
        }
    }
    None
}

/// The first row whose number is not put as its bytes.
fn first_miswritten(alloc: Global, rows: &[Spelled]) -> Result<Option<usize>, AllocError> {
    for number in 0..rows.len() {
        let row = &rows[number];
        let mut out = Vec::new(alloc);
        put_long(&mut out, row.0)?;
        if out.as_slice() != row.1 {
            return Ok(Some(number));
        }
    }
    Ok(None)
}

#[test]
fn a_number_is_spelled_as_the_standard_says(rt: HostRuntime) {
    all_right(&rt, first_misread_long(&INTS));
    all_right(&rt, first_misread_long(&LONGS));
    all_right(&rt, first_misread_int(&INTS));
    all_made(&rt, first_miswritten(rt.alloc(), &INTS));
    all_made(&rt, first_miswritten(rt.alloc(), &LONGS));
}

/// Whether numbers are taken at their places among other bytes.
fn are_taken() -> bool {
    let input = [0x09, 0x80, 0x01, 0x05];
    take_long(&input, 1) == Ok((64, 3)) && take_int(&input, 3) == Ok((-3, 4))
}

#[test]
fn a_longer_spelling_of_a_number_is_read_too_and_any_at_its_place(rt: HostRuntime) {
    all_right(&rt, first_misread_long(&LONGER));
    all_right(&rt, first_misread_int(&LONGER));
    is_so(&rt, are_taken());
}

/// Bytes, a place in them, and why no number can be taken there.
type Refused = (&'static [u8], usize, WireRefusal);

/// What is no number of 64 bits: the input ends inside it, or it has too many bytes or bits.
static NO_LONGS: [Refused; 4] = [
    (&[], 0, WireRefusal::Short { place: 0 }),
    (&[0x02, 0x80], 1, WireRefusal::Short { place: 1 }),
    (
        &[
            0x80, 0x80, 0x80, 0x80, 0x80, 0x80, 0x80, 0x80, 0x80, 0x80, 0x80,
        ],
        1,
        WireRefusal::TooLong { place: 1 },
    ),
    (
        &[0x80, 0x80, 0x80, 0x80, 0x80, 0x80, 0x80, 0x80, 0x80, 0x02],
        0,
        WireRefusal::TooLong { place: 0 },
    ),
];

/// What is no number of 32 bits: the input ends inside it, or it has too many bytes or bits.
static NO_INTS: [Refused; 3] = [
    (
        &[0x02, 0x04, 0xff, 0xff],
        2,
        WireRefusal::Short { place: 2 },
    ),
    (
        &[0x00, 0x80, 0x80, 0x80, 0x80, 0x80, 0x00],
        1,
        WireRefusal::TooLong { place: 1 },
    ),
    (
        &[0x00, 0x80, 0x80, 0x80, 0x80, 0x10],
        1,
        WireRefusal::TooLong { place: 1 },
    ),
];

/// The first row that is not refused so as a number of 64 bits.
fn first_taken_long(rows: &[Refused]) -> Option<usize> {
    for number in 0..rows.len() {
        let row = &rows[number];
        if row.1 > row.0.len() || take_long(row.0, row.1) != Err(row.2) {
            return Some(number);
        }
    }
    None
}

/// The first row that is not refused so as a number of 32 bits.
fn first_taken_int(rows: &[Refused]) -> Option<usize> {
    for number in 0..rows.len() {
        let row = &rows[number];
        if row.1 > row.0.len() || take_int(row.0, row.1) != Err(row.2) {
            return Some(number);
        }
    }
    None
}

#[test]
fn what_is_no_number_is_refused_where_it_begins(rt: HostRuntime) {
    all_right(&rt, first_taken_long(&NO_LONGS));
    all_right(&rt, first_taken_int(&NO_INTS));
}
