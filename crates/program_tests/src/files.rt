//! `rows` of data files: the lines of their rows, or their first fault.

use crate::running::Part::{Block, Header, Raw, Text, Zeros};
use crate::running::{Case, PLAIN, Part, ROWS, SCHEMA, THREE, THREE_LINES, first_wrong};
use std::test::Fail;

/// The header of a file that names no codec.
const BARE: Part = Header(&[("avro.schema", SCHEMA)]);

/// Files in the shapes of several writers.
static SHAPES: [Case; 10] = [
    // Its lengths spelled by hand.
    (
        ROWS,
        &[
            Raw(b"Obj\x01\x04\x16avro.schema\xA6\x02"),
            Text(SCHEMA),
            Raw(b"\x14avro.codec\x08null\x00"),
            Zeros(16),
            Block(THREE),
        ],
        0,
        THREE_LINES,
        "",
    ),
    // No block.
    (ROWS, &[PLAIN], 0, "", ""),
    // A block without rows.
    (ROWS, &[PLAIN, Block(b"\x00\x00")], 0, "", ""),
    // Two blocks.
    (
        ROWS,
        &[PLAIN, Block(THREE), Block(THREE)],
        0,
        "1000 7 10 \"a\"\n1001 7 11 null\n1002 7 12 \"b\"\n1003 7 10 \"a\"\n1004 7 11 null\n1005 7 12 \"b\"\n",
        "",
    ),
    // The codec before the schema.
    (
        ROWS,
        &[
            Header(&[("avro.codec", "null"), ("avro.schema", SCHEMA)]),
            Block(THREE),
        ],
        0,
        THREE_LINES,
        "",
    ),
    // No codec.
    (ROWS, &[BARE, Block(THREE)], 0, THREE_LINES, ""),
    // Other pairs.
    (
        ROWS,
        &[
            Header(&[
                ("iceberg.schema", "{}"),
                ("avro.schema", SCHEMA),
                ("avro.codec", "null"),
                ("writer", ""),
            ]),
            Block(THREE),
        ],
        0,
        THREE_LINES,
        "",
    ),
    // Spaces and escapes in the schema.
    (
        ROWS,
        &[
            Header(&[(
                "avro.schema",
                r#" { "fields" : [ {"f\u0069eld-id": 1, "type": "lon\u0067", "name": "\u006e"}, {"name": "s", "type": ["null", {"type": "string"}], "field-id": 2} ], "name": "row", "type": "record", "doc": "\"" } "#,
            )]),
            Block(THREE),
        ],
        0,
        THREE_LINES,
        "",
    ),
    // Null behind the type.
    (
        ROWS,
        &[
            Header(&[(
                "avro.schema",
                r#"{"type":"record","name":"row","fields":[{"name":"n","type":["long","null"],"field-id":1},{"name":"s","type":["string","null"],"field-id":2}]}"#,
            )]),
            Block(b"\x06\x18\x00\x14\x00\x02a\x00\x16\x02\x02\x00\x02b"),
        ],
        0,
        "1000 7 10 \"a\"\n1001 7 11 null\n1002 7 null \"b\"\n",
        "",
    ),
    // An empty block between two.
    (
        ROWS,
        &[
            BARE,
            Block(b"\x04\x0C\x14\x02\x02a\x16\x00"),
            Block(b"\x00\x00"),
            Block(b"\x02\x08\x18\x02\x02b"),
        ],
        0,
        THREE_LINES,
        "",
    ),
];

#[test]
fn a_file_of_any_writer_is_read(rt: HostRuntime) -> Result<(), Fail> {
    assert_eq!(rt; first_wrong(rt.alloc(), &SHAPES)?, None);
    Ok(())
}

/// Files whose cells are printed in each way.
static KINDS: [Case; 3] = [
    // A text with each byte that is escaped.
    (
        ROWS,
        &[PLAIN, Block(b"\x02\x16\x01\x02\x10\"\\\n\r\t\xC3\xA9/")],
        0,
        "1000 7 -1 \"\\\"\\\\\\n\\r\\té/\"\n",
        "",
    ),
    // A column of each kind.
    (
        ROWS,
        &[
            Header(&[(
                "avro.schema",
                r#"{"type":"record","name":"row","fields":[{"name":"a","type":"boolean","field-id":1},{"name":"b","type":"int","field-id":2},{"name":"c","type":"long","field-id":3},{"name":"d","type":{"type":"int","logicalType":"date"},"field-id":4},{"name":"e","type":{"type":"long","logicalType":"time-micros"},"field-id":5},{"name":"f","type":{"type":"long","logicalType":"timestamp-micros","adjust-to-utc":false},"field-id":6},{"name":"g","type":{"type":"long","logicalType":"timestamp-micros","adjust-to-utc":true},"field-id":7},{"name":"h","type":"string","field-id":8},{"name":"i","type":"bytes","field-id":9}]}"#,
            )]),
            Block(
                b"\x04\x2E\x01\x01\xD8\x04\x00\x02\x03\x80\x01\x02a\x04\x00\xAB\x00\x02\x01\x01\x00\x00\x00\x00\x00",
            ),
        ],
        0,
        "1000 7 true -1 300 0 1 -2 64 \"a\" x00ab\n1001 7 false 1 -1 -1 0 0 0 \"\" x\n",
        "",
    ),
    // The least and the largest numbers.
    (
        ROWS,
        &[
            Header(&[(
                "avro.schema",
                r#"{"type":"record","name":"row","fields":[{"name":"a","type":"int","field-id":1},{"name":"b","type":"long","field-id":2}]}"#,
            )]),
            Block(
                b"\x04\x3C\xFF\xFF\xFF\xFF\x0F\xFF\xFF\xFF\xFF\xFF\xFF\xFF\xFF\xFF\x01\xFE\xFF\xFF\xFF\x0F\xFE\xFF\xFF\xFF\xFF\xFF\xFF\xFF\xFF\x01",
            ),
        ],
        0,
        "1000 7 -2147483648 -9223372036854775808\n1001 7 2147483647 9223372036854775807\n",
        "",
    ),
];

#[test]
fn a_cell_is_printed_by_its_kind(rt: HostRuntime) -> Result<(), Fail> {
    assert_eq!(rt; first_wrong(rt.alloc(), &KINDS)?, None);
    Ok(())
}

/// Bytes that are no container.
static WRONG_BYTES: [Case; 6] = [
    // No byte.
    (ROWS, &[], 3, "", "rowline: table Short 0\n"),
    // Another magic.
    (
        ROWS,
        &[Raw(b"Obj\x02\x00")],
        3,
        "",
        "rowline: table Magic\n",
    ),
    // Another codec.
    (
        ROWS,
        &[Header(&[("avro.schema", SCHEMA), ("avro.codec", "deflate")])],
        3,
        "",
        "rowline: table Codec x6465666c617465\n",
    ),
    // A block whose count is negative.
    (
        ROWS,
        &[PLAIN, Block(b"\x01\x00")],
        3,
        "",
        "rowline: table Form 1\n",
    ),
    // A marker without its last byte.
    (
        ROWS,
        &[PLAIN, Raw(THREE), Zeros(15)],
        3,
        "",
        "rowline: table Short 211\n",
    ),
    // A marker whose last byte is another.
    (
        ROWS,
        &[PLAIN, Raw(THREE), Zeros(15), Raw(b"\x01")],
        3,
        "",
        "rowline: table Sync 1\n",
    ),
];

#[test]
fn a_file_is_refused_by_its_first_fault(rt: HostRuntime) -> Result<(), Fail> {
    assert_eq!(rt; first_wrong(rt.alloc(), &WRONG_BYTES)?, None);
    Ok(())
}

/// Containers whose schema is refused.
static WRONG_SCHEMAS: [Case; 8] = [
    // No JSON text.
    (
        ROWS,
        &[Header(&[("avro.schema", "{")])],
        3,
        "",
        "rowline: table NotJson\n",
    ),
    // No form of a schema.
    (
        ROWS,
        &[Header(&[(
            "avro.schema",
            r#"{"type":"record","name":"r","fields":[{"name":"x","type":7}]}"#,
        )])],
        3,
        "",
        "rowline: table Form \"fields/1/type\"\n",
    ),
    // A name that is not wholly defined.
    (
        ROWS,
        &[Header(&[(
            "avro.schema",
            r#"{"type":"record","name":"r","fields":[{"name":"x","type":"r"}]}"#,
        )])],
        3,
        "",
        "rowline: table Unknown \"r\"\n",
    ),
    // A name with a quote.
    (
        ROWS,
        &[Header(&[("avro.schema", r#""\"\n""#)])],
        3,
        "",
        "rowline: table Unknown \"\\\"\\n\"\n",
    ),
    // A field without an id.
    (
        ROWS,
        &[Header(&[(
            "avro.schema",
            r#"{"type":"record","name":"r","fields":[{"name":"x","type":"long"}]}"#,
        )])],
        3,
        "",
        "rowline: table Kind 0\n",
    ),
    // A type that holds no cells.
    (
        ROWS,
        &[Header(&[(
            "avro.schema",
            r#"{"type":"record","name":"r","fields":[{"name":"n","type":"long","field-id":1},{"name":"x","type":"double","field-id":4}]}"#,
        )])],
        3,
        "",
        "rowline: table Kind 4\n",
    ),
    // A column of nulls alone.
    (
        ROWS,
        &[Header(&[(
            "avro.schema",
            r#"{"type":"record","name":"r","fields":[{"name":"x","type":"null","field-id":3}]}"#,
        )])],
        3,
        "",
        "rowline: table Kind 3\n",
    ),
    // Ids of rows that are texts.
    (
        ROWS,
        &[Header(&[(
            "avro.schema",
            r#"{"type":"record","name":"r","fields":[{"name":"n","type":"long","field-id":1},{"name":"_row_id","type":"string","field-id":2147483540}]}"#,
        )])],
        3,
        "",
        "rowline: table Kind 2147483540\n",
    ),
];

#[test]
fn a_schema_is_refused_by_its_first_fault(rt: HostRuntime) -> Result<(), Fail> {
    assert_eq!(rt; first_wrong(rt.alloc(), &WRONG_SCHEMAS)?, None);
    Ok(())
}

/// The schema of a boolean.
const FLAGS: &str =
    r#"{"type":"record","name":"r","fields":[{"name":"f","type":"boolean","field-id":1}]}"#;

/// The schema of a long, and an array in a field that is no column.
const WITH_ARRAY: &str =
    r#"{"type":"record","name":"r","fields":[{"name":"n","type":"long","field-id":1},{"name":"x","type":{"type":"array","items":"int"},"field-id":2147483546}]}"#;

/// Containers whose blocks are refused.
static WRONG_ROWS: [Case; 11] = [
    // A byte behind the rows.
    (
        ROWS,
        &[BARE, Block(b"\x02\x06\x14\x00\x00")],
        3,
        "",
        "rowline: table Rest 1\n",
    ),
    // Bytes behind the rows of the second block.
    (
        ROWS,
        &[
            BARE,
            Block(THREE),
            Block(b"\x04\x14\x14\x02\x02a\x16\x00\x18\x02\x02b"),
        ],
        3,
        "",
        "rowline: table Rest 2\n",
    ),
    // Fewer rows than the count.
    (
        ROWS,
        &[BARE, Block(b"\x08\x14\x14\x02\x02a\x16\x00\x18\x02\x02b")],
        3,
        "",
        "rowline: table Short 10\n",
    ),
    // A branch that is none.
    (
        ROWS,
        &[BARE, Block(b"\x02\x04\x14\x04")],
        3,
        "",
        "rowline: table Branch 1\n",
    ),
    // A text that is not UTF-8.
    (
        ROWS,
        &[BARE, Block(b"\x02\x08\x14\x02\x02\xFF")],
        3,
        "",
        "rowline: table Utf8 2\n",
    ),
    // A number of eleven bytes.
    (
        ROWS,
        &[
            BARE,
            Block(b"\x02\x18\xFF\xFF\xFF\xFF\xFF\xFF\xFF\xFF\xFF\xFF\x01\x00"),
        ],
        3,
        "",
        "rowline: table TooLong 0\n",
    ),
    // A truth value of another byte.
    (
        ROWS,
        &[
            Header(&[("avro.schema", FLAGS)]),
            Block(b"\x04\x04\x01\x02"),
        ],
        3,
        "",
        "rowline: table Flag 1\n",
    ),
    // An untrue size.
    (
        ROWS,
        &[
            Header(&[("avro.schema", WITH_ARRAY)]),
            Block(b"\x02\x0A\x14\x01\x04\x02\x00"),
        ],
        3,
        "",
        "rowline: table Size 2\n",
    ),
    // Too many items.
    (
        ROWS,
        &[
            Header(&[("avro.schema", WITH_ARRAY)]),
            Block(b"\x02\x0A\x14\x82\x80\x80\x10"),
        ],
        3,
        "",
        "rowline: table Items 1\n",
    ),
    // Too many rows.
    (
        ROWS,
        &[
            Header(&[("avro.schema", FLAGS)]),
            Block(b"\x02\x02\x01"),
            Block(b"\x80\x80\x80\x01\x00"),
        ],
        7,
        "",
        "rowline: limit FileRows 1048577\n",
    ),
    // A wrong marker before a wrong schema.
    (
        ROWS,
        &[Header(&[("avro.schema", "{")]), Block(b"\x00\x00\x01")],
        3,
        "",
        "rowline: table Sync 1\n",
    ),
];

#[test]
fn rows_are_refused_by_their_first_fault(rt: HostRuntime) -> Result<(), Fail> {
    assert_eq!(rt; first_wrong(rt.alloc(), &WRONG_ROWS)?, None);
    Ok(())
}
