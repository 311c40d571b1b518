//! Which values fit a schema.

use crate::rows::{all_right, schema_of};
use avro_datum::{Datum, decode, fits};
use avro_schema::Schema;
use std::alloc::Global;
use std::test::*;

/// The text of a schema, and whether a value fits it. The value is what the bytes are under the
/// schema `source`.
struct Fitting {
    schema: &'static str,
    source: &'static str,
    bytes: &'static [u8],
    wanted: bool,
}

const RECORD: &str =
    r#"{"type":"record","name":"test","fields":[{"name":"a","type":"long"},{"name":"b","type":"string"}]}"#;

const TWO_LONGS: &str =
    r#"{"type":"record","name":"test","fields":[{"name":"a","type":"long"},{"name":"b","type":"long"}]}"#;

const NO_FIELDS: &str = r#"{"type":"record","name":"test","fields":[]}"#;

const LETTERS: &str = r#"{"type":"enum","name":"Foo","symbols":["A","B"]}"#;

const STRING_OR_NULL: &str = r#"["string","null"]"#;

const THREE: &str = r#"{"type":"fixed","name":"f","size":3}"#;

const FOUR: &str = r#"{"type":"fixed","name":"f","size":4}"#;

const LONGS: &str = r#"{"type":"array","items":"long"}"#;

static NUMBERS: [Fitting; 9] = [
    Fitting {
        schema: r#""int""#,
        source: r#""long""#,
        bytes: &[0xfe, 0xff, 0xff, 0xff, 0x0f],
        wanted: true,
    },
    Fitting {
        schema: r#""int""#,
        source: r#""long""#,
        bytes: &[0x80, 0x80, 0x80, 0x80, 0x10],
        wanted: false,
    },
    Fitting {
        schema: r#""int""#,
        source: r#""long""#,
        bytes: &[0xff, 0xff, 0xff, 0xff, 0x0f],
        wanted: true,
    },
    Fitting {
        schema: r#""int""#,
        source: r#""long""#,
        bytes: &[0x81, 0x80, 0x80, 0x80, 0x10],
        wanted: false,
    },
    Fitting {
        schema: r#""long""#,
        source: r#""long""#,
        bytes: &[0xff, 0xff, 0xff, 0xff, 0xff, 0xff, 0xff, 0xff, 0xff, 0x01],
        wanted: true,
    },
    Fitting {
        schema: r#""int""#,
        source: r#""null""#,
        bytes: &[],
        wanted: false,
    },
    Fitting {
        schema: LETTERS,
        source: r#""long""#,
        bytes: &[0x02],
        wanted: true,
    },
    Fitting {
        schema: LETTERS,
        source: r#""long""#,
        bytes: &[0x04],
        wanted: false,
    },
    Fitting {
        schema: LETTERS,
        source: r#""long""#,
        bytes: &[0x01],
        wanted: false,
    },
];

static BYTES: [Fitting; 5] = [
    Fitting {
        schema: r#""float""#,
        source: THREE,
        bytes: &[1, 2, 3],
        wanted: false,
    },
    Fitting {
        schema: r#""float""#,
        source: FOUR,
        bytes: &[1, 2, 3, 4],
        wanted: true,
    },
    Fitting {
        schema: THREE,
        source: THREE,
        bytes: &[1, 2, 3],
        wanted: true,
    },
    Fitting {
        schema: THREE,
        source: FOUR,
        bytes: &[1, 2, 3, 4],
        wanted: false,
    },
    Fitting {
        schema: r#""string""#,
        source: THREE,
        bytes: &[1, 2, 3],
        wanted: false,
    },
];

/// Values that hold others.
static PARTS: [Fitting; 9] = [
    Fitting {
        schema: STRING_OR_NULL,
        source: STRING_OR_NULL,
        bytes: &[0x02],
        wanted: true,
    },
    Fitting {
        schema: STRING_OR_NULL,
        source: r#"["null"]"#,
        bytes: &[0x00],
        wanted: false,
    },
    Fitting {
        schema: STRING_OR_NULL,
        source: r#"["int","int","null"]"#,
        bytes: &[0x04],
        wanted: false,
    },
    Fitting {
        schema: RECORD,
        source: NO_FIELDS,
        bytes: &[],
        wanted: false,
    },
    Fitting {
        schema: RECORD,
        source: RECORD,
        bytes: &[0x36, 0x06, 0x66, 0x6f, 0x6f],
        wanted: true,
    },
    Fitting {
        schema: RECORD,
        source: TWO_LONGS,
        bytes: &[0x06, 0x36],
        wanted: false,
    },
    Fitting {
        schema: LONGS,
        source: LONGS,
        bytes: &[0x04, 0x06, 0x36, 0x00],
        wanted: true,
    },
    Fitting {
        schema: r#"{"type":"array","items":"string"}"#,
        source: LONGS,
        bytes: &[0x04, 0x06, 0x36, 0x00],
        wanted: false,
    },
    Fitting {
        schema: r#"{"type":"map","values":"boolean"}"#,
        source: r#"{"type":"map","values":"long"}"#,
        bytes: &[0x02, 0x02, 0x6b, 0x02, 0x00],
        wanted: false,
    },
];

/// Whether the value fits, or not, as the row says.
fn is_judged(alloc: Global, datum: &Datum, row: &Fitting) -> bool {
    match schema_of(alloc, row.schema) {
        Some(schema) => fits(&schema, datum) == row.wanted,
        None => false,
    }
}

/// Whether the value of the bytes under the schema fits, or not, as the row says.
fn is_judged_of(alloc: Global, source: &Schema, row: &Fitting) -> bool {
    match decode(alloc, source, row.bytes, 0) {
        Ok((datum, _)) => is_judged(alloc, &datum, row),
        Err(_) => false,
    }
}

/// Whether the value fits, or not, as the row says.
fn is_right(alloc: Global, row: &Fitting) -> bool {
    match schema_of(alloc, row.source) {
        Some(source) => is_judged_of(alloc, &source, row),
        None => false,
    }
}

/// The first row whose value is judged otherwise.
fn first_misjudged(alloc: Global, rows: &[Fitting]) -> Option<usize> {
    for number in 0..rows.len() {
        if !is_right(alloc, &rows[number]) {
            return Some(number);
        }
    }
    None
}

#[test]
fn numbers_and_bytes_fit_by_their_size_and_what_holds_others_if_they_do(rt: HostRuntime) {
    all_right(&rt, first_misjudged(rt.alloc(), &NUMBERS));
    all_right(&rt, first_misjudged(rt.alloc(), &BYTES));
    all_right(&rt, first_misjudged(rt.alloc(), &PARTS));
}
