//! Bytes that are values: decoded, skipped and written.

use crate::parts::{Part, are_parts_of};
use crate::rows::{all_made, all_right, schema_of};
use avro_datum::{Cursor, Datum, decode, encode, skip};
use avro_schema::Schema;
use lists::Copied;
use std::alloc::{AllocError, Global};
use std::test::*;

/// The schema of a file of rows with their ids and last changes.
const ROW_SCHEMA: &str =
    r#"{"type":"record","name":"row","fields":[{"name":"n","type":"long","field-id":1},{"name":"s","type":["null","string"],"default":null,"field-id":2},{"name":"_row_id","type":["null","long"],"default":null,"field-id":2147483540},{"name":"_last_updated_sequence_number","type":["null","long"],"default":null,"field-id":2147483539}]}"#;

/// The text of a schema, bytes, the parts of the value that they are, and the bytes that are
/// written for it. No bytes: those that are read.
struct Case {
    schema: &'static str,
    bytes: &'static [u8],
    parts: &'static [Part],
    written: &'static [u8],
}

const RECORD: &str =
    r#"{"type":"record","name":"test","fields":[{"name":"a","type":"long"},{"name":"b","type":"string"}]}"#;

const LONGS: &str = r#"{"type":"array","items":"long"}"#;

const STRING_OR_NULL: &str = r#"["string","null"]"#;

const LETTERS: &str = r#"{"type":"enum","name":"Foo","symbols":["A","B","C","D"]}"#;

const FLAGS: &str = r#"{"type":"map","values":"boolean"}"#;

/// The standard's examples.
static EXAMPLES: [Case; 6] = [
    Case {
        schema: RECORD,
        bytes: &[0x36, 0x06, 0x66, 0x6f, 0x6f],
        parts: &[Part::Rec(2), Part::Num(27), Part::Str("foo")],
        written: &[],
    },
    Case {
        schema: LONGS,
        bytes: &[0x04, 0x06, 0x36, 0x00],
        parts: &[Part::Array(2), Part::Num(3), Part::Num(27)],
        written: &[],
    },
    Case {
        schema: STRING_OR_NULL,
        bytes: &[0x02],
        parts: &[Part::Branch(1), Part::Null],
        written: &[],
    },
    Case {
        schema: STRING_OR_NULL,
        bytes: &[0x00, 0x02, 0x61],
        parts: &[Part::Branch(0), Part::Str("a")],
        written: &[],
    },
    Case {
        schema: LETTERS,
        bytes: &[0x00],
        parts: &[Part::Num(0)],
        written: &[],
    },
    Case {
        schema: LETTERS,
        bytes: &[0x06],
        parts: &[Part::Num(3)],
        written: &[],
    },
];

/// Rows of a file, with their ids and last changes.
static ROWS: [Case; 3] = [
    Case {
        schema: ROW_SCHEMA,
        bytes: &[0x14, 0x02, 0x02, 0x61, 0x02, 0x0a, 0x02, 0x04],
        parts: &[
            Part::Rec(4),
            Part::Num(10),
            Part::Branch(1),
            Part::Str("a"),
            Part::Branch(1),
            Part::Num(5),
            Part::Branch(1),
            Part::Num(2),
        ],
        written: &[],
    },
    Case {
        schema: ROW_SCHEMA,
        bytes: &[0x16, 0x00, 0x00, 0x00],
        parts: &[
            Part::Rec(4),
            Part::Num(11),
            Part::Branch(0),
            Part::Null,
            Part::Branch(0),
            Part::Null,
            Part::Branch(0),
            Part::Null,
        ],
        written: &[],
    },
    Case {
        schema: ROW_SCHEMA,
        bytes: &[0x18, 0x02, 0x02, 0x62, 0x02, 0x12, 0x00],
        parts: &[
            Part::Rec(4),
            Part::Num(12),
            Part::Branch(1),
            Part::Str("b"),
            Part::Branch(1),
            Part::Num(9),
            Part::Branch(0),
            Part::Null,
        ],
        written: &[],
    },
];

/// Arrays and maps, in one block, in more, and in blocks that tell their size.
static BLOCKS: [Case; 8] = [
    Case {
        schema: LONGS,
        bytes: &[0x00],
        parts: &[Part::Array(0)],
        written: &[],
    },
    Case {
        schema: LONGS,
        bytes: &[0x03, 0x04, 0x06, 0x36, 0x00],
        parts: &[Part::Array(2), Part::Num(3), Part::Num(27)],
        written: &[0x04, 0x06, 0x36, 0x00],
    },
    Case {
        schema: LONGS,
        bytes: &[0x02, 0x06, 0x01, 0x02, 0x36, 0x00],
        parts: &[Part::Array(2), Part::Num(3), Part::Num(27)],
        written: &[0x04, 0x06, 0x36, 0x00],
    },
    Case {
        schema: r#"{"type":"array","items":{"type":"array","items":"long"}}"#,
        bytes: &[0x02, 0x04, 0x06, 0x36, 0x00, 0x00],
        parts: &[Part::Array(1), Part::Array(2), Part::Num(3), Part::Num(27)],
        written: &[],
    },
    Case {
        schema: FLAGS,
        bytes: &[0x02, 0x02, 0x6b, 0x00, 0x00],
        parts: &[Part::Map(1), Part::Str("k"), Part::Flag(false)],
        written: &[],
    },
    Case {
        schema: FLAGS,
        bytes: &[0x01, 0x06, 0x02, 0x6b, 0x01, 0x00],
        parts: &[Part::Map(1), Part::Str("k"), Part::Flag(true)],
        written: &[0x02, 0x02, 0x6b, 0x01, 0x00],
    },
    Case {
        schema: r#"{"type":"map","values":"long"}"#,
        bytes: &[0x02, 0x02, 0x6b, 0x01, 0x00],
        parts: &[Part::Map(1), Part::Str("k"), Part::Num(-1)],
        written: &[],
    },
    Case {
        schema: r#"{"type":"map","values":"long"}"#,
        bytes: &[0x00],
        parts: &[Part::Map(0)],
        written: &[],
    },
];

/// Values that hold no others.
static PLAIN: [Case; 8] = [
    Case {
        schema: r#""null""#,
        bytes: &[],
        parts: &[Part::Null],
        written: &[],
    },
    Case {
        schema: r#""boolean""#,
        bytes: &[0x01],
        parts: &[Part::Flag(true)],
        written: &[],
    },
    Case {
        schema: r#"{"type":"int","logicalType":"date"}"#,
        bytes: &[0x7f],
        parts: &[Part::Num(-64)],
        written: &[],
    },
    Case {
        schema: r#""bytes""#,
        bytes: &[0x02, 0xff],
        parts: &[Part::Raw(&[0xff])],
        written: &[],
    },
    Case {
        schema: r#""bytes""#,
        bytes: &[0x04, 7, 8],
        parts: &[Part::Raw(&[7, 8])],
        written: &[],
    },
    Case {
        schema: r#""float""#,
        bytes: &[0, 0, 0x80, 0x3f],
        parts: &[Part::Raw(&[0, 0, 0x80, 0x3f])],
        written: &[],
    },
    Case {
        schema: r#"{"type":"fixed","name":"two","size":2}"#,
        bytes: &[7, 8],
        parts: &[Part::Raw(&[7, 8])],
        written: &[],
    },
    Case {
        schema: r#"{"type":"enum","name":"Foo","symbols":["A","B"]}"#,
        bytes: &[0x02],
        parts: &[Part::Num(1)],
        written: &[],
    },
];

/// Whether these bytes are written for the value, behind a byte that was there.
fn is_written(
    alloc: Global,
    schema: &Schema,
    datum: &Datum,
    bytes: &[u8],
) -> Result<bool, AllocError> {
    let mut out = Vec::from_slice(alloc, &[9])?;
    encode(schema, datum, &mut out)?;
    Ok(out[0] == 9 && &out[1..] == bytes)
}

/// Whether a copy of the value is these parts.
fn is_copied(alloc: Global, datum: &Datum, parts: &[Part]) -> Result<bool, AllocError> {
    let copy = datum.copy(alloc)?;
    Ok(are_parts_of(parts, &copy))
}

/// The bytes that are written for the value of the case.
fn written_of(case: &Case) -> &'static [u8] {
    if case.written.is_empty() {
        case.bytes
    } else {
        case.written
    }
}

/// Whether the value, which ends at `after`, is that of the case, and is written so.
fn is_value(
    alloc: Global,
    schema: &Schema,
    datum: &Datum,
    after: usize,
    case: &Case,
) -> Result<bool, AllocError> {
    if after != case.bytes.len() || !are_parts_of(case.parts, datum) {
        return Ok(false);
    }
    if !is_copied(alloc, datum, case.parts)? {
        return Ok(false);
    }
    is_written(alloc, schema, datum, written_of(case))
}

/// Whether the bytes are skipped to their end.
fn ends(schema: &Schema, bytes: &[u8]) -> bool {
    match skip(schema, bytes, Cursor { place: 0, items: 0 }) {
        Ok(after) => after.place == bytes.len(),
        Err(_) => false,
    }
}

/// Whether the bytes are the value of the case under the schema, and are skipped to their end.
fn is_read_by(alloc: Global, schema: &Schema, case: &Case) -> Result<bool, AllocError> {
    if !ends(schema, case.bytes) {
        return Ok(false);
    }
    match decode(alloc, schema, case.bytes, 0) {
        Ok((datum, after)) => is_value(alloc, schema, &datum, after, case),
        Err(_) => Ok(false),
    }
}

/// Whether the bytes are the value of the case, and are skipped to their end.
fn is_read(alloc: Global, case: &Case) -> Result<bool, AllocError> {
    match schema_of(alloc, case.schema) {
        Some(schema) => is_read_by(alloc, &schema, case),
        None => Ok(false),
    }
}

/// The first row whose bytes aren't its value.
fn first_misread(alloc: Global, rows: &[Case]) -> Result<Option<usize>, AllocError> {
    for number in 0..rows.len() {
        if !is_read(alloc, &rows[number])? {
            return Ok(Some(number));
        }
    }
    Ok(None)
}

#[test]
fn values_and_rows_and_any_blocks_are_read_and_one_block_is_written(rt: HostRuntime) {
    all_made(&rt, first_misread(rt.alloc(), &EXAMPLES));
    all_made(&rt, first_misread(rt.alloc(), &PLAIN));
    all_made(&rt, first_misread(rt.alloc(), &ROWS));
    all_made(&rt, first_misread(rt.alloc(), &BLOCKS));
}

/// The text of a schema, bytes, the cursor at which a value begins, and the one behind it.
struct Placed {
    schema: &'static str,
    bytes: &'static [u8],
    from: Cursor,
    after: Cursor,
    parts: &'static [Part],
}

static PLACED: [Placed; 2] = [
    Placed {
        schema: LONGS,
        bytes: &[0xff, 0x04, 0x06, 0x36, 0x00, 0xff],
        from: Cursor { place: 1, items: 5 },
        after: Cursor { place: 5, items: 7 },
        parts: &[Part::Array(2), Part::Num(3), Part::Num(27)],
    },
    Placed {
        schema: LONGS,
        bytes: &[0xff, 0x02, 0x06, 0x00, 0xff],
        from: Cursor { place: 1, items: 0 },
        after: Cursor { place: 4, items: 1 },
        parts: &[Part::Array(1), Part::Num(3)],
    },
];

/// As many items as a value may have, none of which has a byte.
static OF_NO_BYTES: [Placed; 1] = [Placed {
    schema: r#"{"type":"array","items":{"type":"record","name":"test","fields":[{"name":"a","type":"null"},{"name":"b","type":"null"}]}}"#,
    bytes: &[0x80, 0x80, 0x80, 0x10, 0x00],
    from: Cursor { place: 0, items: 0 },
    after: Cursor {
        place: 5,
        items: 16_777_216,
    },
    parts: &[],
}];

/// Whether the value is skipped to its end.
fn is_skipped_by(schema: &Schema, row: &Placed) -> bool {
    row.from.place <= row.bytes.len() && skip(schema, row.bytes, row.from) == Ok(row.after)
}

/// Whether the value is skipped to its end.
fn is_skipped(alloc: Global, row: &Placed) -> bool {
    match schema_of(alloc, row.schema) {
        Some(schema) => is_skipped_by(&schema, row),
        None => false,
    }
}

/// The first row whose value isn't skipped to its end.
fn first_misskipped(alloc: Global, rows: &[Placed]) -> Option<usize> {
    for number in 0..rows.len() {
        if !is_skipped(alloc, &rows[number]) {
            return Some(number);
        }
    }
    None
}

/// Whether the value is these parts, and is decoded to its end.
fn is_decoded_by(alloc: Global, schema: &Schema, row: &Placed) -> bool {
    if row.from.place > row.bytes.len() {
        return false;
    }
    match decode(alloc, schema, row.bytes, row.from.place) {
        Ok((datum, after)) => after == row.after.place && are_parts_of(row.parts, &datum),
        Err(_) => false,
    }
}

/// Whether the value is decoded to its end.
fn is_decoded(alloc: Global, row: &Placed) -> bool {
    match schema_of(alloc, row.schema) {
        Some(schema) => is_decoded_by(alloc, &schema, row),
        None => false,
    }
}

/// The first row whose value isn't decoded to its end.
fn first_misdecoded(alloc: Global, rows: &[Placed]) -> Option<usize> {
    for number in 0..rows.len() {
        if !is_decoded(alloc, &rows[number]) {
            return Some(number);
        }
    }
    None
}

#[test]
fn a_value_is_read_and_skipped_from_its_place_also_items_of_no_bytes(rt: HostRuntime) {
    all_right(&rt, first_misdecoded(rt.alloc(), &PLACED));
    all_right(&rt, first_misskipped(rt.alloc(), &PLACED));
    all_right(&rt, first_misskipped(rt.alloc(), &OF_NO_BYTES));
}
