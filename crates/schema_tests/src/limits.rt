//! Texts of schemas at the limits of depth, of number and of memory.

use crate::no_schemas::cause_of;
use crate::rows::all_made;
use avro_schema::read_schema;
use std::alloc::{AllocError, Global};
use std::test::*;

/// A piece of a text.
enum Piece {
    /// The text, so many times.
    Times(usize, &'static str),
    /// So many pieces, each with its number, counted from 0, between the two texts.
    Numbered(usize, &'static str, &'static str),
}

/// The pieces of a text, and the cause for which it is refused. Empty: it is a schema.
struct Limit {
    pieces: &'static [Piece],
    cause: &'static str,
}

const ARRAY: &str = r#"{"type":"array","items":"#;

/// A record `r` up to the type of its first field.
const RECORD: &str = r#"{"type":"record","name":"r","fields":[{"name":"d","type":"#;

/// A record `f` up to its first field, which is an int.
const WIDE: &str = r#"{"type":"record","name":"f","fields":[{"name":"y","type":"int"}"#;

/// An enum `f` up to its first symbol, which has no byte.
const ENUM: &str = r#"{"type":"enum","name":"f","symbols":[""#;

/// A record `f` up to the name of the record in its first field.
const OUTER: &str =
    r#"{"type":"record","name":"f","fields":[{"name":"e","type":{"type":"record","name":""#;

/// A schema is at most 64 deep.
static DEPTHS: [Limit; 5] = [
    Limit {
        pieces: &[
            Piece::Times(63, ARRAY),
            Piece::Times(1, r#""int""#),
            Piece::Times(63, "}"),
        ],
        cause: "",
    },
    Limit {
        pieces: &[
            Piece::Times(64, ARRAY),
            Piece::Times(1, r#""int""#),
            Piece::Times(64, "}"),
        ],
        cause: "Nesting",
    },
    Limit {
        pieces: &[
            Piece::Times(62, ARRAY),
            Piece::Times(1, r#"["null","int"]"#),
            Piece::Times(62, "}"),
        ],
        cause: "",
    },
    Limit {
        pieces: &[
            Piece::Times(63, ARRAY),
            Piece::Times(1, r#"["null","int"]"#),
            Piece::Times(63, "}"),
        ],
        cause: "Nesting",
    },
    // What is no schema is refused for its form first.
    Limit {
        pieces: &[
            Piece::Times(64, ARRAY),
            Piece::Times(1, "7"),
            Piece::Times(64, "}"),
        ],
        cause: "Form",
    },
];

/// A schema has at most 65,536 schemas: `f` has 255 of them, and `r` is one itself.
static NUMBERS: [Limit; 3] = [
    Limit {
        pieces: &[
            Piece::Times(1, RECORD),
            Piece::Times(1, WIDE),
            Piece::Numbered(253, r#",{"name":"y"#, r#"","type":"int"}"#),
            Piece::Times(1, "]}}]}"),
        ],
        cause: "",
    },
    Limit {
        pieces: &[
            Piece::Times(1, RECORD),
            Piece::Times(1, WIDE),
            Piece::Numbered(253, r#",{"name":"y"#, r#"","type":"int"}"#),
            Piece::Times(1, "]}}"),
            Piece::Numbered(256, r#",{"name":"x"#, r#"","type":"f"}"#),
            Piece::Times(1, "]}"),
        ],
        cause: "",
    },
    Limit {
        pieces: &[
            Piece::Times(1, RECORD),
            Piece::Times(1, WIDE),
            Piece::Numbered(253, r#",{"name":"y"#, r#"","type":"int"}"#),
            Piece::Times(1, "]}}"),
            Piece::Numbered(257, r#",{"name":"x"#, r#"","type":"f"}"#),
            Piece::Times(1, "]}"),
        ],
        cause: "Nesting",
    },
];

/// A use of a name takes no memory: the enum `f` has 10,000 symbols; the record `f` has a record
/// whose name has 50,000 bytes, and so has the name of its field.
static USES: [Limit; 2] = [
    Limit {
        pieces: &[
            Piece::Times(1, RECORD),
            Piece::Times(1, ENUM),
            Piece::Times(9_999, r#"",""#),
            Piece::Times(1, r#""]}}"#),
            Piece::Numbered(5_000, r#",{"name":"x"#, r#"","type":"f"}"#),
            Piece::Times(1, "]}"),
        ],
        cause: "",
    },
    Limit {
        pieces: &[
            Piece::Times(1, RECORD),
            Piece::Times(1, OUTER),
            Piece::Times(5_000, "long_name_"),
            Piece::Times(1, r#"","fields":[{"name":""#),
            Piece::Times(5_000, "long_name_"),
            Piece::Times(1, r#"","type":"int"}]}}]}}"#),
            Piece::Numbered(5_000, r#",{"name":"x"#, r#"","type":"f"}"#),
            Piece::Times(1, "]}"),
        ],
        cause: "",
    },
];

/// Puts the text, so many times.
fn put_times(out: &mut String, times: usize, text: &str) -> Result<(), AllocError> {
    for _ in 0..times {
        out.push_str(text)?;
    }
    Ok(())
}

/// Puts so many pieces, each with its number between the two texts.
fn put_numbered(
    alloc: Global,
    out: &mut String,
    times: usize,
    before: &str,
    behind: &str,
) -> Result<(), AllocError> {
    for place in 0..times {
        out.push_str(format!(in alloc; "{before}{place}{behind}")?.as_str())?;
    }
    Ok(())
}

fn put_piece(alloc: Global, out: &mut String, piece: &Piece) -> Result<(), AllocError> {
    match piece {
        Piece::Times(times, text) => put_times(out, *times, *text),
        Piece::Numbered(times, before, behind) => put_numbered(
            alloc, out, *times, *before, *behind,
        ),
    }
}

fn put_pieces(alloc: Global, out: &mut String, pieces: &[Piece]) -> Result<(), AllocError> {
    for piece in pieces {
        put_piece(alloc, out, piece)?;
    }
    Ok(())
}

/// Whether the text is refused for the cause, or is a schema where that is empty.
fn ends_so(alloc: Global, text: &[u8], cause: &str) -> bool {
    match read_schema(alloc, text) {
        Ok(_) => cause.is_empty(),
        Err(refusal) => cause_of(&refusal) == cause,
    }
}

fn meets(alloc: Global, limit: &Limit) -> Result<bool, AllocError> {
    let mut text = String::new(alloc);
    put_pieces(alloc, &mut text, limit.pieces)?;
    Ok(ends_so(alloc, text.as_bytes(), limit.cause))
}

/// The first row that ends otherwise.
fn first_wrong(alloc: Global, rows: &[Limit]) -> Result<Option<usize>, AllocError> {
    for number in 0..rows.len() {
        if !meets(alloc, &rows[number])? {
            return Ok(Some(number));
        }
    }
    Ok(None)
}

#[test]
fn a_schema_is_64_deep_at_most(rt: HostRuntime) {
    all_made(&rt, first_wrong(rt.alloc(), &DEPTHS));
}

#[test]
fn a_schema_has_65536_schemas_at_most(rt: HostRuntime) {
    all_made(&rt, first_wrong(rt.alloc(), &NUMBERS));
}

#[test]
fn a_use_of_a_name_takes_no_memory(rt: HostRuntime) {
    all_made(&rt, first_wrong(rt.alloc(), &USES));
}
