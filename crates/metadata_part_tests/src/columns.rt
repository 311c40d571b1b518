//! Columns of schemas, read and printed, or refused.

use json_members::parse;
use row_types::Kind;
use schema_columns::{ColumnRefusal, read_columns, schema_members};
use serde_json::{Map, Value};
use std::alloc::{AllocError, Global};
use std::test::Fail;

/// The text of a schema, and what becomes of it: the text that is printed of its columns, or why
/// it is refused.
type Case = (&'static str, &'static str);

static SCHEMAS: [Case; 25] = [
    // All kinds, other members, another order, and null defaults.
    (
        r#"{"type":"struct","schema-id":7,"fields":[{"required":true,"name":"n","id":1,"type":"long","doc":"x"},{"id":2,"name":"s","required":false,"type":"string","initial-default":null,"write-default":null}]}"#,
        r#"{"fields":[{"id":1,"name":"n","required":true,"type":"long"},{"id":2,"name":"s","required":false,"type":"string"}],"schema-id":0,"type":"struct"}"#,
    ),
    (
        r#"{"fields":[{"id":1,"name":"a","required":true,"type":"boolean"},{"id":2,"name":"b","required":true,"type":"int"},{"id":3,"name":"c","required":true,"type":"date"},{"id":4,"name":"d","required":true,"type":"time"},{"id":5,"name":"e","required":true,"type":"timestamp"},{"id":6,"name":"f","required":true,"type":"timestamptz"},{"id":2147483447,"name":"g","required":true,"type":"binary"}]}"#,
        r#"{"fields":[{"id":1,"name":"a","required":true,"type":"boolean"},{"id":2,"name":"b","required":true,"type":"int"},{"id":3,"name":"c","required":true,"type":"date"},{"id":4,"name":"d","required":true,"type":"time"},{"id":5,"name":"e","required":true,"type":"timestamp"},{"id":6,"name":"f","required":true,"type":"timestamptz"},{"id":2147483447,"name":"g","required":true,"type":"binary"}],"schema-id":0,"type":"struct"}"#,
    ),
    // The list.
    ("{}", "Fields"),
    (r#"{"fields":{}}"#, "Fields"),
    (r#"{"fields":[]}"#, "Fields"),
    (r#"{"fields":[1]}"#, "Fields"),
    // A column's members, before the types of all columns.
    (
        r#"{"fields":[{"id":1,"name":"a","required":true,"type":"uuid"},{"id":2,"name":"b","required":1,"type":"int"}]}"#,
        "Fields",
    ),
    // The types, before the ids.
    (
        r#"{"fields":[{"id":2147483648,"name":"a","required":true,"type":"int"},{"id":1,"name":"b","required":true,"type":"uuid"}]}"#,
        "ColumnType b",
    ),
    (
        r#"{"fields":[{"id":1,"name":"a","required":true}]}"#,
        "ColumnType a",
    ),
    (
        r#"{"fields":[{"id":1,"name":"a","required":true,"type":{"type":"list"}}]}"#,
        "ColumnType a",
    ),
    (
        r#"{"fields":[{"id":1,"name":"a","required":true,"type":"int","initial-default":0}]}"#,
        "ColumnType a",
    ),
    (
        r#"{"fields":[{"id":1,"name":"a","required":true,"type":"int","write-default":0}]}"#,
        "ColumnType a",
    ),
    // The ids and the names.
    (
        r#"{"fields":[{"id":4294967297,"name":"a","required":true,"type":"int"}]}"#,
        "Fields",
    ),
    (
        r#"{"fields":[{"id":2147483448,"name":"a","required":true,"type":"int"}]}"#,
        "Fields",
    ),
    (
        r#"{"fields":[{"id":1,"name":"a","required":true,"type":"int"},{"id":2,"name":"a","required":true,"type":"int"}]}"#,
        "Fields",
    ),
    // The first column of another type.
    (
        r#"{"fields":[{"id":1,"name":"a","required":true,"type":"uuid"},{"id":2,"name":"b","required":true,"type":"fixed"}]}"#,
        "ColumnType a",
    ),
    (
        r#"{"fields":[{"id":1,"name":"a","required":true,"type":"int","write-default":0},{"id":2,"name":"b","required":true,"type":"uuid"}]}"#,
        "ColumnType a",
    ),
    (
        r#"{"fields":[{"id":-1,"name":"a","required":true,"type":"uuid"}]}"#,
        "ColumnType a",
    ),
    (
        r#"{"fields":[{"id":9223372036854775808,"name":"a","required":true,"type":"uuid"}]}"#,
        "Fields",
    ),
    (
        r#"{"fields":[{"id":1,"required":true,"type":"uuid"}]}"#,
        "Fields",
    ),
    (
        r#"{"fields":[{"name":"a","required":true,"type":"uuid"}]}"#,
        "Fields",
    ),
    (
        r#"{"fields":[{"id":1,"name":"a","type":"uuid"}]}"#,
        "Fields",
    ),
    (
        r#"{"fields":[{"id":1,"name":"","required":true,"type":"uuid"}]}"#,
        "ColumnType ",
    ),
    (
        r#"{"fields":[{"id":1,"name":"a","required":true,"type":null}]}"#,
        "ColumnType a",
    ),
    (
        r#"{"fields":[{"id":1,"name":"a","required":true,"type":"int","write-default":false}]}"#,
        "ColumnType a",
    ),
];

/// The text that is printed of the columns of a schema.
fn printed(alloc: Global, schema: &Map<String, Value>) -> Result<Vec<u8>, ColumnRefusal> {
    let columns = read_columns(alloc, schema)?;
    let members = schema_members(alloc, columns.as_slice())?;
    Ok(Value::Object(members).to_vec(alloc)?)
}

/// Whether this is the text of the refusal: its name, and the column's name.
fn tells(refusal: &ColumnRefusal, text: &str) -> bool {
    match refusal {
        ColumnRefusal::Fields => text == "Fields",
        ColumnRefusal::ColumnType { name } => text.strip_prefix("ColumnType ")
            == Some(name.as_str()),
        ColumnRefusal::Memory => false,
    }
}

/// Whether the case ends as it says.
fn ends_so(alloc: Global, case: &Case) -> Result<bool, AllocError> {
    let (text, wanted) = *case;
    let Some(Value::Object(schema)) = parse(alloc, text.as_bytes())? else {
        return Ok(false);
    };
    match printed(alloc, &schema) {
        Ok(text) => Ok(text.as_slice() == wanted.as_bytes()),
        Err(refusal) => Ok(tells(&refusal, wanted)),
    }
}

/// The place of the first case that ends otherwise, counted from 0. `None`: all end so.
fn first_wrong(alloc: Global) -> Result<Option<usize>, AllocError> {
    for place in 0..SCHEMAS.len() {
        if !ends_so(alloc, &SCHEMAS[place])? {
            return Ok(Some(place));
        }
    }
    Ok(None)
}

static KINDS: [(&str, Kind); 9] = [
    ("boolean", Kind::Boolean),
    ("int", Kind::Int),
    ("long", Kind::Long),
    ("date", Kind::Date),
    ("time", Kind::Time),
    ("timestamp", Kind::Timestamp),
    ("timestamptz", Kind::Timestamptz),
    ("string", Kind::Text),
    ("binary", Kind::Bytes),
];

/// The kind of the one column of a schema, whose type is the word. `None`: it is refused.
fn kind_of(alloc: Global, word: &str) -> Result<Option<Kind>, AllocError> {
    let text = format!(in alloc;
        r#"{{"fields":[{{"id":1,"name":"a","required":true,"type":"{word}"}}]}}"#
    )?;
    let Some(Value::Object(schema)) = parse(alloc, text.as_bytes())? else {
        return Ok(None);
    };
    match read_columns(alloc, &schema) {
        Ok(columns) => Ok(columns.get(0).map(|column| column.kind)),
        Err(_) => Ok(None),
    }
}

/// The place of the first word that names another kind, counted from 0. `None`: there is none.
fn first_wrong_kind(alloc: Global) -> Result<Option<usize>, AllocError> {
    for place in 0..KINDS.len() {
        let (word, kind) = KINDS[place];
        if kind_of(alloc, word)? != Some(kind) {
            return Ok(Some(place));
        }
    }
    Ok(None)
}

/// The first table of this file with a wrong row, and the row's place. `None`: there is none.
fn first_fault(alloc: Global) -> Result<Option<(&'static str, usize)>, AllocError> {
    if let Some(place) = first_wrong(alloc)? {
        return Ok(Some(("schemas", place)));
    }
    match first_wrong_kind(alloc)? {
        Some(place) => Ok(Some(("kinds", place))),
        None => Ok(None),
    }
}

#[test]
fn columns_are_printed_as_read_or_refused(rt: HostRuntime) -> Result<(), Fail> {
    assert_eq!(rt; first_fault(rt.alloc())?, None);
    Ok(())
}
