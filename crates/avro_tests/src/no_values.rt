//! Bytes that are no values, and why: when they are decoded, and when they are skipped.

use crate::rows::{all_right, is_so, is_text, schema_of};
use avro_datum::{Cursor, DatumRefusal, decode, skip};
use avro_schema::Schema;
use std::alloc::{AllocError, Global};
use std::test::*;

/// The text of a schema, bytes, and why they are no value of it.
struct Refused {
    schema: &'static str,
    bytes: &'static [u8],
    refusal: DatumRefusal,
}

const LONGS: &str = r#"{"type":"array","items":"long"}"#;

const LONG_AND_DOUBLE: &str =
    r#"{"type":"record","name":"test","fields":[{"name":"a","type":"long"},{"name":"b","type":"double"}]}"#;

const TWO_FLAGS: &str =
    r#"{"type":"record","name":"test","fields":[{"name":"a","type":"boolean"},{"name":"b","type":"boolean"}]}"#;

const LONG_AND_LETTER: &str =
    r#"{"type":"record","name":"test","fields":[{"name":"a","type":"long"},{"name":"b","type":{"type":"enum","name":"Foo","symbols":["A","B","C","D"]}}]}"#;

const NULLS: &str = r#"{"type":"array","items":"null"}"#;

/// Values that hold no others.
static PLAIN: [Refused; 8] = [
    Refused {
        schema: r#""int""#,
        bytes: &[0x80, 0x80, 0x80, 0x80, 0x10],
        refusal: DatumRefusal::TooLong { place: 0 },
    },
    Refused {
        schema: r#""string""#,
        bytes: &[0x01],
        refusal: DatumRefusal::TooLong { place: 0 },
    },
    Refused {
        schema: r#""string""#,
        bytes: &[0x04, 0x61],
        refusal: DatumRefusal::Short { place: 0 },
    },
    Refused {
        schema: r#""string""#,
        bytes: &[0x02, 0xff],
        refusal: DatumRefusal::Utf8 { place: 0 },
    },
    Refused {
        schema: TWO_FLAGS,
        bytes: &[0x01, 0x02],
        refusal: DatumRefusal::Flag { place: 1 },
    },
    Refused {
        schema: TWO_FLAGS,
        bytes: &[0x00],
        refusal: DatumRefusal::Short { place: 1 },
    },
    Refused {
        schema: LONG_AND_DOUBLE,
        bytes: &[],
        refusal: DatumRefusal::Short { place: 0 },
    },
    Refused {
        schema: LONG_AND_DOUBLE,
        bytes: &[2, 1, 2, 3, 4, 5, 6, 7],
        refusal: DatumRefusal::Short { place: 1 },
    },
];

/// Branches and symbols that aren't there.
static CHOICES: [Refused; 3] = [
    Refused {
        schema: r#"["string","null"]"#,
        bytes: &[0x04],
        refusal: DatumRefusal::Branch { place: 0 },
    },
    Refused {
        schema: r#"["string","null"]"#,
        bytes: &[0x01],
        refusal: DatumRefusal::Branch { place: 0 },
    },
    Refused {
        schema: LONG_AND_LETTER,
        bytes: &[0x02, 0x08],
        refusal: DatumRefusal::Branch { place: 1 },
    },
];

/// Arrays and maps that lack items, tell an untrue size, or have too many items.
static BLOCKS: [Refused; 9] = [
    // The end of the array, and many items that are not there.
    Refused {
        schema: LONGS,
        bytes: &[0x02, 0x06],
        refusal: DatumRefusal::Short { place: 2 },
    },
    Refused {
        schema: LONGS,
        bytes: &[0x80, 0x80, 0x80, 0x10],
        refusal: DatumRefusal::Short { place: 4 },
    },
    // The items of a block are read before its size is compared.
    Refused {
        schema: LONGS,
        bytes: &[0x03, 0x02, 0x06],
        refusal: DatumRefusal::Short { place: 3 },
    },
    Refused {
        schema: LONGS,
        bytes: &[0x03, 0x06, 0x06, 0x36, 0x00],
        refusal: DatumRefusal::Size { place: 1 },
    },
    Refused {
        schema: LONGS,
        bytes: &[0x03, 0x03, 0x06, 0x36, 0x00],
        refusal: DatumRefusal::Size { place: 1 },
    },
    // The size of a map's block inside a block of an array.
    Refused {
        schema: r#"{"type":"array","items":{"type":"map","values":"long"}}"#,
        bytes: &[0x02, 0x01, 0x08, 0x02, 0x6b, 0x00, 0x00, 0x00],
        refusal: DatumRefusal::Size { place: 2 },
    },
    Refused {
        schema: r#"{"type":"map","values":"null"}"#,
        bytes: &[0x02, 0x02, 0xff, 0x00],
        refusal: DatumRefusal::Utf8 { place: 1 },
    },
    // 16,777,217 items at once, and 16,777,216 behind two.
    Refused {
        schema: NULLS,
        bytes: &[0x82, 0x80, 0x80, 0x10, 0x00],
        refusal: DatumRefusal::Items { place: 0 },
    },
    Refused {
        schema: NULLS,
        bytes: &[0x04, 0x80, 0x80, 0x80, 0x10, 0x00],
        refusal: DatumRefusal::Items { place: 1 },
    },
];

/// Whether the bytes are refused so when they are skipped.
fn is_not_skipped(schema: &Schema, row: &Refused) -> bool {
    match skip(schema, row.bytes, Cursor { place: 0, items: 0 }) {
        Ok(_) => false,
        Err(found) => found == row.refusal,
    }
}

/// Whether the bytes are refused so when they are decoded.
fn is_not_decoded(alloc: Global, schema: &Schema, row: &Refused) -> bool {
    match decode(alloc, schema, row.bytes, 0) {
        Ok(_) => false,
        Err(found) => found == row.refusal,
    }
}

/// Whether the bytes are refused so when they are decoded and when they are skipped.
fn is_refused(alloc: Global, row: &Refused) -> bool {
    match schema_of(alloc, row.schema) {
        Some(schema) => is_not_decoded(alloc, &schema, row) && is_not_skipped(&schema, row),
        None => false,
    }
}

/// The first row whose bytes aren't refused so.
fn first_accepted(alloc: Global, rows: &[Refused]) -> Option<usize> {
    for number in 0..rows.len() {
        if !is_refused(alloc, &rows[number]) {
            return Some(number);
        }
    }
    None
}

/// How a refusal is shown.
fn shown(alloc: Global, refusal: DatumRefusal) -> Result<String, AllocError> {
    format!(in alloc; "{refusal}")
}

/// Whether the size that isn't true is shown.
fn is_size_shown(alloc: Global) -> bool {
    let size = DatumRefusal::Size { place: 7 };
    is_text(
        shown(alloc, size),
        "the size at byte 7 is not that of its block",
    )
}

#[test]
fn what_is_no_value_is_refused_where_it_begins_and_a_refusal_is_shown(rt: HostRuntime) {
    all_right(&rt, first_accepted(rt.alloc(), &PLAIN));
    all_right(&rt, first_accepted(rt.alloc(), &CHOICES));
    all_right(&rt, first_accepted(rt.alloc(), &BLOCKS));
    is_so(&rt, is_size_shown(rt.alloc()));
}
