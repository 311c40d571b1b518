//! Bytes and texts of `avro_wire`: behind their length, and by themselves.

use crate::rows::{all_right, is_so, is_text};
use avro_wire::{Bytes, Text, WireRefusal, put_bytes, put_long, take_bytes, text_of};
use std::alloc::{AllocError, Global};
use std::test::*;

/// Bytes, a place in them, and where the bytes behind the length there start and end.
type Taken = (&'static [u8], usize, usize, usize);

/// The standard's example of a string, "foo", and no bytes behind another item.
static TAKEN: [Taken; 2] = [
    (&[0x06, 0x66, 0x6f, 0x6f], 0, 1, 4),
    (&[0x01, 0x00], 1, 2, 2),
];

/// The first row whose bytes are not taken so.
fn first_mistaken(rows: &[Taken]) -> Option<usize> {
    for number in 0..rows.len() {
        let row = &rows[number];
        if row.1 > row.0.len() || take_bytes(row.0, row.1) != Ok((row.2, row.3)) {
            return Some(number);
        }
    }
    None
}

/// Bytes, a place in them, and why none can be taken there.
type Refused = (&'static [u8], usize, WireRefusal);

static REFUSED: [Refused; 4] = [
    (
        &[0x00, 0x06, 0x66, 0x6f],
        1,
        WireRefusal::Short { place: 1 },
    ),
    (&[0x00, 0x86], 1, WireRefusal::Short { place: 1 }),
    (&[0x00, 0x01, 0x66], 1, WireRefusal::TooLong { place: 1 }),
    (
        &[0xff, 0xff, 0xff, 0xff, 0xff, 0xff, 0xff, 0xff, 0xff, 0xff],
        0,
        WireRefusal::TooLong { place: 0 },
    ),
];

/// The first row that is not refused so.
fn first_taken(rows: &[Refused]) -> Option<usize> {
    for number in 0..rows.len() {
        let row = &rows[number];
        if row.1 > row.0.len() || take_bytes(row.0, row.1) != Err(row.2) {
            return Some(number);
        }
    }
    None
}

/// A byte that was there, the standard's example, a number, and no bytes.
static BEHIND: [u8; 8] = [0x09, 0x06, 0x66, 0x6f, 0x6f, 0x80, 0x01, 0x00];

/// Whether these are put one behind the other.
fn are_put(alloc: Global) -> Result<bool, AllocError> {
    let mut out = Vec::from_slice(alloc, &[0x09])?;
    put_bytes(&mut out, b"foo")?;
    put_long(&mut out, 64)?;
    put_bytes(&mut out, b"")?;
    Ok(out.as_slice() == BEHIND.as_slice())
}

#[test]
fn bytes_are_taken_behind_their_length_and_put_behind_what_is_there(rt: HostRuntime) {
    all_right(&rt, first_mistaken(&TAKEN));
    all_right(&rt, first_taken(&REFUSED));
    is_so(&rt, matches!(are_put(rt.alloc()), Ok(true)));
}

/// How a refusal is shown.
fn shown(alloc: Global, refusal: WireRefusal) -> Result<String, AllocError> {
    format!(in alloc; "{refusal}")
}

/// A refusal, and how it is shown.
type Shown = (WireRefusal, &'static str);

static SHOWN: [Shown; 2] = [
    (
        WireRefusal::Short { place: 7 },
        "the input ends inside the item at byte 7",
    ),
    (
        WireRefusal::TooLong { place: 7 },
        "no item can stand at byte 7",
    ),
];

/// The first row whose refusal isn't shown so.
fn first_misshown(alloc: Global, rows: &[Shown]) -> Option<usize> {
    for number in 0..rows.len() {
        let row = &rows[number];
        if !is_text(shown(alloc, row.0), row.1) {
            return Some(number);
        }
    }
    None
}

/// Bytes, and the text that they are.
type Told = (&'static [u8], Option<&'static str>);

static TOLD: [Told; 4] = [
    (b"", Some("")),
    (b"a\xC3\xA9", Some("a\u{e9}")),
    (b"\xFF", None),
    (b"\xC3", None),
];

/// The first row whose bytes are not its text.
fn first_mistold(rows: &[Told]) -> Option<usize> {
    for number in 0..rows.len() {
        let row = &rows[number];
        if text_of(row.0) != row.1 {
            return Some(number);
        }
    }
    None
}

/// Whether a text keeps the characters that it is made of, and a copy has them too.
fn keeps_text(alloc: Global, whole: &str) -> Result<bool, AllocError> {
    let text = Text::from_str(alloc, whole)?;
    let copy = text.copy(alloc)?;
    Ok(text.as_str() == whole && copy.as_str() == whole)
}

/// Whether a text keeps the characters of the string that it is made of.
fn keeps_string(alloc: Global, whole: &str) -> Result<bool, AllocError> {
    let string = String::from_str(alloc, whole)?;
    Ok(Text::from_string(string).as_str() == whole)
}

/// Whether bytes keep the values that they are made of, and a copy has them too.
fn keeps_bytes(alloc: Global, whole: &[u8]) -> Result<bool, AllocError> {
    let bytes = Bytes::from_slice(alloc, whole)?;
    let copy = bytes.copy(alloc)?;
    let again = Bytes::from_vec(bytes.into_vec());
    Ok(copy.as_slice() == whole && again.as_slice() == whole)
}

/// Whether texts and bytes keep what they are made of.
fn keep_all(alloc: Global) -> bool {
    matches!(keeps_text(alloc, "snö"), Ok(true))
        && matches!(keeps_string(alloc, "snö"), Ok(true))
        && matches!(keeps_bytes(alloc, &[0, 255, 10]), Ok(true))
}

#[test]
fn a_refusal_names_its_place_and_texts_and_bytes_keep_what_they_are_made_of(rt: HostRuntime) {
    all_right(&rt, first_misshown(rt.alloc(), &SHOWN));
    all_right(&rt, first_mistold(&TOLD));
    is_so(&rt, keep_all(rt.alloc()));
}
