//! Texts of schemas, as what they are read and how they are printed.

use crate::rows::{all_made, all_right};
use avro_schema::{Logical, Schema, print_schema, read_schema};
use lists::Copied;
use std::alloc::{AllocError, Global};
use std::test::*;

/// The schema of a file of rows with their ids and last changes.
const ROW_SCHEMA: &str =
    r#"{"type":"record","name":"row","fields":[{"name":"n","type":"long","field-id":1},{"name":"s","type":["null","string"],"default":null,"field-id":2},{"name":"_row_id","type":["null","long"],"default":null,"field-id":2147483540},{"name":"_last_updated_sequence_number","type":["null","long"],"default":null,"field-id":2147483539}]}"#;

/// A text, and the kind of the schema that it is.
type Kind = (&'static str, &'static str);

/// Primitive types, what their numbers stand for, and an array that stands for a map.
static KINDS: [Kind; 24] = [
    (r#""null""#, "Null"),
    (r#""boolean""#, "Boolean"),
    (r#""int""#, "Int"),
    (r#""long""#, "Long"),
    (r#""float""#, "Float"),
    (r#""double""#, "Double"),
    (r#""bytes""#, "Raw"),
    (r#""string""#, "Str"),
    (r#""\u006cong""#, "Long"),
    (r#" {"type" : "long"} "#, "Long"),
    (r#"{"type":"null","logicalType":"date"}"#, "Null"),
    (r#"{"type":"int","logicalType":"date"}"#, "Date"),
    (r#"{"logicalType":"date","type":"int"}"#, "Date"),
    (r#"{"type":"int","logicalType":"time-micros"}"#, "Int"),
    (r#"{"type":"long","logicalType":"date"}"#, "Long"),
    (
        r#"{"type":"long","logicalType":"time-micros"}"#,
        "TimeMicros",
    ),
    (
        r#"{"type":"long","logicalType":"timestamp-micros"}"#,
        "StampMicros",
    ),
    (
        r#"{"type":"long","logicalType":"timestamp-micros","adjust-to-utc":true}"#,
        "StampMicrosUtc",
    ),
    (
        r#"{"adjust-to-utc":false,"logicalType":"timestamp-micros","type":"long"}"#,
        "StampMicros",
    ),
    (
        r#"{"type":"long","logicalType":"timestamp-micros","adjust-to-utc":"true"}"#,
        "StampMicros",
    ),
    (r#"{"type":"long","logicalType":7}"#, "Long"),
    (
        r#"{"type":"string","default":null,"doc":"passed over"}"#,
        "Str",
    ),
    (r#"{"type":"array","items":"int"}"#, "Array"),
    (
        r#"{"type":"array","items":"int","logicalType":"map"}"#,
        "Keyed",
    ),
];

/// What an int stands for.
fn int_kind(logical: Logical) -> &'static str {
    match logical {
        Logical::Plain => "Int",
        Logical::Date => "Date",
        _ => "another int",
    }
}

/// What a long stands for.
fn long_kind(logical: Logical) -> &'static str {
    match logical {
        Logical::Plain => "Long",
        Logical::TimeMicros => "TimeMicros",
        Logical::StampMicros => "StampMicros",
        Logical::StampMicrosUtc => "StampMicrosUtc",
        _ => "another long",
    }
}

/// The kind of a schema.
fn kind_of(schema: &Schema) -> &'static str {
    match schema {
        Schema::Null => "Null",
        Schema::Boolean => "Boolean",
        Schema::Int(logical) => int_kind(*logical),
        Schema::Long(logical) => long_kind(*logical),
        Schema::Float => "Float",
        Schema::Double => "Double",
        Schema::Raw => "Raw",
        Schema::Str => "Str",
        Schema::Array { keyed: true, .. } => "Keyed",
        Schema::Array { .. } => "Array",
        _ => "another kind",
    }
}

/// Whether the text is a schema of this kind.
fn has_kind(alloc: Global, text: &str, kind: &str) -> bool {
    match read_schema(alloc, text.as_bytes()) {
        Ok(schema) => kind_of(&schema) == kind,
        Err(_) => false,
    }
}

/// The first row whose text is a schema of another kind.
fn first_of_another_kind(alloc: Global, rows: &[Kind]) -> Option<usize> {
    for number in 0..rows.len() {
        let row = &rows[number];
        if !has_kind(alloc, row.0, row.1) {
            return Some(number);
        }
    }
    None
}

#[test]
fn primitive_types_are_read(rt: HostRuntime) {
    all_right(&rt, first_of_another_kind(rt.alloc(), &KINDS));
}

/// Two ids.
type Ids = (Option<i32>, Option<i32>);

/// A text, and the ids in the schema that it is: that of an array's items, or those of a map's
/// texts and values.
type WithIds = (&'static str, Ids);

static IDS: [WithIds; 3] = [
    (
        r#"{"type":"array","items":"int","element-id":3}"#,
        (Some(3), None),
    ),
    (
        r#"{"type":"map","values":"bytes","key-id":1,"value-id":2}"#,
        (Some(1), Some(2)),
    ),
    (
        r#"{"type":"map","values":"bytes","value-id":2}"#,
        (None, Some(2)),
    ),
];

/// The ids in an array or a map.
fn ids_of(schema: &Schema) -> Ids {
    match schema {
        Schema::Array { element_id, .. } => (*element_id, None),
        Schema::Map {
            key_id,
            value_id,
            ..
        } => (*key_id, *value_id),
        _ => (None, None),
    }
}

/// Whether the text is a schema with these ids.
fn has_ids(alloc: Global, text: &str, ids: Ids) -> bool {
    match read_schema(alloc, text.as_bytes()) {
        Ok(schema) => ids_of(&schema) == ids,
        Err(_) => false,
    }
}

/// The first row whose text is a schema with other ids.
fn first_with_other_ids(alloc: Global, rows: &[WithIds]) -> Option<usize> {
    for number in 0..rows.len() {
        let row = &rows[number];
        if !has_ids(alloc, row.0, row.1) {
            return Some(number);
        }
    }
    None
}

#[test]
fn an_id_is_that_of_its_member(rt: HostRuntime) {
    all_right(&rt, first_with_other_ids(rt.alloc(), &IDS));
}

/// Texts that are printed as they stand.
static PRINTED: [&'static str; 31] = [
    r#""null""#,
    r#""boolean""#,
    r#""int""#,
    r#""long""#,
    r#""float""#,
    r#""double""#,
    r#""bytes""#,
    r#""string""#,
    r#"{"type":"int","logicalType":"date"}"#,
    r#"{"type":"long","logicalType":"time-micros"}"#,
    r#"{"type":"long","logicalType":"timestamp-micros","adjust-to-utc":false}"#,
    r#"{"type":"long","logicalType":"timestamp-micros","adjust-to-utc":true}"#,
    r#"{"type":"fixed","name":"md5","size":16}"#,
    r#"{"type":"fixed","name":"f","size":1048576}"#,
    r#"{"type":"enum","name":"suit","symbols":["SPADES","HEARTS"]}"#,
    r#"{"type":"enum","name":"e","symbols":[]}"#,
    r#"{"type":"array","items":"bytes"}"#,
    r#"{"type":"array","items":"bytes","element-id":-7}"#,
    r#"{"type":"array","logicalType":"map","items":"bytes","element-id":117}"#,
    r#"{"type":"map","values":"double"}"#,
    r#"{"type":"map","values":"double","key-id":118,"value-id":119}"#,
    r#"{"type":"map","values":{"type":"map","values":"int"}}"#,
    r#"["null","long"]"#,
    r#"["long","null"]"#,
    r#"[{"type":"array","items":["null","int"]}]"#,
    r#"{"type":"record","name":"r","fields":[]}"#,
    r#"{"type":"record","name":"row","fields":[{"name":"x","type":["int","null"]}]}"#,
    r#"{"type":"record","name":"row","fields":[{"name":"n","type":"long","field-id":1},{"name":"s","type":["null","string"],"default":null,"field-id":2}]}"#,
    ROW_SCHEMA,
    // A name that is a primitive type's word stands for that type where it is used.
    r#"[{"type":"fixed","name":"int","size":4},"int"]"#,
    // A name is printed in full, and its namespace with it.
    r#"{"type":"record","name":"a.r","fields":[{"name":"x","type":{"type":"fixed","name":"a.f","size":4}}]}"#,
];

/// A text, and how the schema that it is is printed: each name as what it was defined as.
type Otherwise = (&'static str, &'static str);

/// Members in other orders, with spaces between them.
static ORDERED: [Otherwise; 4] = [
    (
        r#"{"size":0,"name":"f","type":"fixed"}"#,
        r#"{"type":"fixed","name":"f","size":0}"#,
    ),
    (
        r#"{"logicalType":"map","element-id":-1,"items":"int","type":"array"}"#,
        r#"{"type":"array","logicalType":"map","items":"int","element-id":-1}"#,
    ),
    (
        r#"{"type":"record","name":"r","fields":[
            {"name":"x","type":"int","field-id":7},
            {"name":"y","type":["null","string"],"default":null}]}"#,
        r#"{"type":"record","name":"r","fields":[{"name":"x","type":"int","field-id":7},{"name":"y","type":["null","string"],"default":null}]}"#,
    ),
    (
        r#"{"fields":[
            {"field-id":2147483647,"type":"int","name":"x"},
            {"type":"int","name":"y","field-id":-2147483648}],"name":"r","type":"record"}"#,
        r#"{"type":"record","name":"r","fields":[{"name":"x","type":"int","field-id":2147483647},{"name":"y","type":"int","field-id":-2147483648}]}"#,
    ),
];

/// Names that are used, in their namespaces.
static NAMED: [Otherwise; 5] = [
    (
        r#"[{"type":"fixed","name":"f","size":4},"f"]"#,
        r#"[{"type":"fixed","name":"f","size":4},{"type":"fixed","name":"f","size":4}]"#,
    ),
    (
        r#"{"type":"record","name":"r","fields":[
            {"name":"x","type":{"type":"enum","name":"e","symbols":["a"]}},
            {"name":"y","type":{"type":"array","items":"e"}}]}"#,
        r#"{"type":"record","name":"r","fields":[{"name":"x","type":{"type":"enum","name":"e","symbols":["a"]}},{"name":"y","type":{"type":"array","items":{"type":"enum","name":"e","symbols":["a"]}}}]}"#,
    ),
    (
        r#"{"type":"record","name":"a.r","fields":[
            {"name":"x","type":{"type":"fixed","name":"f","size":4}},
            {"name":"y","type":"f"},
            {"name":"z","type":"a.f"}]}"#,
        r#"{"type":"record","name":"a.r","fields":[{"name":"x","type":{"type":"fixed","name":"a.f","size":4}},{"name":"y","type":{"type":"fixed","name":"a.f","size":4}},{"name":"z","type":{"type":"fixed","name":"a.f","size":4}}]}"#,
    ),
    (
        r#"{"type":"record","name":"r","namespace":"a.b","fields":[
            {"name":"x","type":{"type":"fixed","name":"c.f","size":1}},
            {"name":"y","type":{"type":"fixed","name":"f","size":2}},
            {"name":"z","type":"f"}]}"#,
        r#"{"type":"record","name":"a.b.r","fields":[{"name":"x","type":{"type":"fixed","name":"c.f","size":1}},{"name":"y","type":{"type":"fixed","name":"a.b.f","size":2}},{"name":"z","type":{"type":"fixed","name":"a.b.f","size":2}}]}"#,
    ),
    (
        r#"{"type":"record","name":"a.r","namespace":"b","fields":[
            {"name":"x","type":{"type":"fixed","name":"f","namespace":"","size":4}},
            {"name":"y","type":{"type":"fixed","name":"f","size":8}}]}"#,
        r#"{"type":"record","name":"a.r","fields":[{"name":"x","type":{"type":"fixed","name":"f","size":4}},{"name":"y","type":{"type":"fixed","name":"a.f","size":8}}]}"#,
    ),
];

/// Whether the schema is printed so.
fn prints(alloc: Global, schema: &Schema, printed: &str) -> Result<bool, AllocError> {
    Ok(print_schema(alloc, schema)?.as_slice() == printed.as_bytes())
}

/// Whether a copy of the schema is printed so.
fn prints_copied(alloc: Global, schema: &Schema, printed: &str) -> Result<bool, AllocError> {
    let copy = schema.copy(alloc)?;
    prints(alloc, &copy, printed)
}

/// Whether the schema is printed so, and a copy of it.
fn prints_both(alloc: Global, schema: &Schema, printed: &str) -> Result<bool, AllocError> {
    Ok(prints(alloc, schema, printed)? && prints_copied(alloc, schema, printed)?)
}

/// Whether the text is a schema, and is printed so.
fn is_printed(alloc: Global, text: &str, printed: &str) -> Result<bool, AllocError> {
    match read_schema(alloc, text.as_bytes()) {
        Ok(schema) => prints_both(alloc, &schema, printed),
        Err(_) => Ok(false),
    }
}

/// The first text that isn't printed as it stands.
fn first_not_printed(alloc: Global, rows: &[&'static str]) -> Result<Option<usize>, AllocError> {
    for number in 0..rows.len() {
        let text = rows[number];
        if !is_printed(alloc, text, text)? {
            return Ok(Some(number));
        }
    }
    Ok(None)
}

/// The first row whose text isn't printed so.
fn first_misprinted(alloc: Global, rows: &[Otherwise]) -> Result<Option<usize>, AllocError> {
    for number in 0..rows.len() {
        let row = &rows[number];
        if !is_printed(alloc, row.0, row.1)? {
            return Ok(Some(number));
        }
    }
    Ok(None)
}

#[test]
fn a_schema_is_read_as_it_is_printed(rt: HostRuntime) {
    all_made(&rt, first_not_printed(rt.alloc(), &PRINTED));
}

#[test]
fn members_may_stand_in_any_order(rt: HostRuntime) {
    all_made(&rt, first_misprinted(rt.alloc(), &ORDERED));
}

#[test]
fn names_stand_for_what_they_were_defined_as(rt: HostRuntime) {
    all_made(&rt, first_misprinted(rt.alloc(), &NAMED));
}
